//! The word `web`: the server, whose centres answer browsers too.
ghost use Rattle.std.specs.Prelude.{◌≡◌, ◌↔◌, ◌*◌, ◌<◌, ◌≤◌, ℕ, All, map, string_bytes, vec_len, decimal, Some, Err, IfOk, IfSome, IsTrue};
ghost use Rattle.pv_files.specs.Doors.{IsNewDoor};
ghost use Rattle.pv_serve.specs.Options.{AskToServe, ArePortsApart};
ghost use Rattle.pv_serve.specs.Web.{AreClear, AskAtPort, AskForWeb, AskForNoWeb};
ghost use Rattle.pv_serve.specs.declared.options.TheConstants.{LAST_PORT};
ghost use Rattle.pv_serve.specs.declared.options.ServeOptions.{ServeOptions};
ghost use Rattle.pv_service.specs.declared.caller_stand.TheConstants.{MAX_ACCEPTED};

use crate::logged_door::Place;
use crate::options::{LAST_PORT, OptionFault, ServeOptions, serve_options};
use crate::real_server::{
    PortDoor, add_doors, no_port, open_disks, open_editors, say_open, serve_at,
};
use crate::saying::{ErrorOutput, out_of_memory};
use pv_files::{TcpDoor, listen};
use pv_web::WebListener;
use pv_words::number_of;
use std::alloc::{AllocGlobal, Global};
use std::fs::{File, Files};
use std::io::{Eprint, Print};
use std::net::{Net, TcpListener, TcpStream};
use std::sync::Wait;
use std::thread::Threads;
use std::time;

/// How `web` is used.
const WEB_HELP: &str = "usage: prestel web W serve DIR --centres N ..

Serves a network as `prestel serve` does, with the words from `serve` on, and
shows a terminal to browsers of this machine too: at http://127.0.0.1:W/ for
centre 0, W + 1 for centre 1, and so on. A call from a browser is answered by
the ports of that centre, as any other call.

  W                the machine's port for browsers of centre 0, 1 to 65535;
                   none of those from W on is the callers' or the editors'.

The words of `serve`, and each exit status: prestel serve --help
";

/// What the words of `web` ask for.
#[derive(Debug, Drop)]
pub struct WebOptions {
    /// The machine's port for the browsers of centre 0. Those of the others follow it.
    pub web_port: u16,
    /// The server.
    pub server: ServeOptions,
}

/// What the words ask for, if they are `web`, a port and the words of `serve`, and the ports are apart.
///
/// The port is decimal, without a sign or a leading zero. `Usage` comes only if the words ask for nothing of the kind. A
/// request for help is none.
pub fn web_options(alloc: Global, words: &[String]) -> Result<WebOptions, OptionFault>
    ensures ok { IfOk result
        (λ options. AskForWeb (map string_bytes words.now) options.web_port options.server) }
    ensures usage { result ≡ Err OptionFault.Usage → AskForNoWeb (map string_bytes words.now) }
{
    match words {
        [first, port, serve @ ..] if first.as_str() == "web" => {
            options_at(alloc, port.as_str(), serve)
        }
        _ => Err(OptionFault::Usage),
    }
}

/// What the words of `serve` ask for, with a port for browsers.
fn options_at(alloc: Global, port: &str, words: &[String]) -> Result<WebOptions, OptionFault>
    ensures ok { IfOk result (λ options. AskAtPort port.now (map string_bytes words.now)
        options.web_port options.server) }
    ensures usage { result ≡ Err OptionFault.Usage → (web : ℕ) → (options : ServeOptions)
        → AskAtPort port.now (map string_bytes words.now) web options → ⊥ }
{
    let Some(web_port) = web_port_of(port) else {
        return Err(OptionFault::Usage);
    };
    let server = serve_options(alloc, words)?;
    if are_clear(web_port, &server) {
        Ok(WebOptions { web_port, server })
    } else {
        Err(OptionFault::Usage)
    }
}

/// The port of the machine that a word is, in decimal.
fn web_port_of(word: &str) -> Option<u16>
    ensures found { IfSome result (λ port. word.now ≡ decimal port) }
    ensures only { (port : ℕ) → port ≤ LAST_PORT → word.now ≡ decimal port → result ≡ Some port }
{
    let number = number_of(word.as_bytes())?;
    if number <= LAST_PORT as u64 {
        Some(number as u16)
    } else {
        None
    }
}

/// Whether each centre has one of the machine's ports for browsers, from this one on, and none is the callers' or the editors'.
fn are_clear(web_port: u16, options: &ServeOptions) -> bool
    ensures { IsTrue result ↔ AreClear web_port options.now }
{
    let web = web_port as u32;
    let web_end = web + options.centres as u32;
    let port = options.port as u32;
    let end = port + options.centres as u32;
    let editor_port = options.editor_port as u32;
    1 <= web
        && web_end <= LAST_PORT as u32 + 1
        && (web_end <= port || end <= web)
        && (editor_port < web || web_end <= editor_port)
}

/// Serves a network with a terminal for browsers, if the first word is `web`, and returns the number that the process ends with.
/// A fault is one line on standard error. `output` says what else it has. `None` if the first word is another.
pub fn run_web<
    R: AllocGlobal
        + Files<File = File>
        + Net<Listener = TcpListener, Stream = TcpStream>
        + time::Clock
        + Wait
        + Threads
        + Sync
        + Print
        + Eprint,
>(rt: &R, words: &[String], output: ErrorOutput) -> Option<u8> {
    match words {
        [first, later @ ..] if first.as_str() == "web" => match later {
            [word] if word.as_str() == "--help" => Some(write_help(rt)),
            _ => Some(serve_web(rt, words, output)),
        },
        _ => None,
    }
}

/// Writes how `web` is used.
fn write_help<R: Print>(rt: &R) -> u8 {
    match print!(rt; "{WEB_HELP}") {
        Ok(()) => 0,
        Err(_) => 5,
    }
}

/// Serves what the words of `web` ask for.
fn serve_web<
    R: AllocGlobal
        + Files<File = File>
        + Net<Listener = TcpListener, Stream = TcpStream>
        + time::Clock
        + Wait
        + Threads
        + Sync
        + Eprint,
>(rt: &R, words: &[String], output: ErrorOutput) -> u8 {
    match (web_options(rt.alloc(), words), words) {
        (Ok(options), [_, _, serve @ ..]) => {
            serve_browsers(rt, serve, &options, output).unwrap_or_else(|number| number)
        }
        (Err(OptionFault::Memory), _) => out_of_memory(rt),
        _ => {
            let _ = eprintln!(rt; "prestel: bad command line; try prestel web --help");
            2
        }
    }
}

/// Serves the network of these options, to browsers too. The words are those of `serve`.
fn serve_browsers<
    R: AllocGlobal
        + Files<File = File>
        + Net<Listener = TcpListener, Stream = TcpStream>
        + time::Clock
        + Wait
        + Threads
        + Sync
        + Eprint,
>(rt: &R, words: &[String], options: &WebOptions, output: ErrorOutput) -> Result<u8, u8>
    requires asked { AskToServe (map string_bytes words.now) options.now.server }
    requires clear { AreClear options.now.web_port options.now.server }
{
    let server = &options.server;
    let disks = open_disks(rt, server, output.is_seen)?;
    let callers = open_both(rt, options, output.is_logged)?;
    let editors = open_editors(rt, server, output.is_logged)?;
    if output.is_seen {
        say_open(rt, server);
        say_web(rt, options);
    }
    Ok(serve_at(rt, words, server, disks, callers, editors))
}

/// Says where browsers are waited for.
fn say_web<R: Eprint>(rt: &R, options: &WebOptions)
    requires { AreClear options.now.web_port options.now.server }
{
    for centre in 0..options.server.centres {
        let port = options.web_port + u16::from(centre);
        let _ = eprintln!(rt; "prestel: browsers of centre {centre}: http://127.0.0.1:{port}/");
    }
}

/// The doors of the callers' ports, those of centre 0 first, which let in browsers too.
fn open_both<
    'a,
    R: AllocGlobal + Net<Listener = TcpListener, Stream = TcpStream> + time::Clock + Eprint,
>(
    rt: &'a R,
    options: &WebOptions,
    is_logged: bool,
) -> Result<Vec<PortDoor<'a, R, WebListener<'a, R>>>, u8>
    requires some { 1 ≤ options.now.server.ports }
    requires apart { ArePortsApart options.now.server }
    requires clear { AreClear options.now.web_port options.now.server }
    ensures count { IfOk result
        (λ doors. vec_len doors ≡ options.now.server.centres * options.now.server.ports) }
    ensures room { IfOk result
        (λ doors. All (λ logged. logged.door.counts.accepted < MAX_ACCEPTED) doors.items) }
{
    let server = &options.server;
    let mut doors = Vec::new(rt.alloc());
    for centre in 0..server.centres {
        let port = server.port + u16::from(centre);
        let first = door_for_both(rt, port, options.web_port + u16::from(centre))?;
        let place = Place::Callers { centre, port: 0 };
        add_doors(rt, &mut doors, first, port, server.ports, place, is_logged)?;
    }
    Ok(doors)
}

/// A door at two ports of the machine, the second for browsers.
fn door_for_both<
    'a,
    R: AllocGlobal + Net<Listener = TcpListener, Stream = TcpStream> + time::Clock + Eprint,
>(rt: &'a R, port: u16, web_port: u16) -> Result<TcpDoor<WebListener<'a, R>>, u8>
    ensures { IfOk result IsNewDoor }
{
    let plain = listen(rt, port).map_err(|error| no_port(rt, port, error))?;
    let web = listen(rt, web_port).map_err(|error| no_port(rt, web_port, error))?;
    let listener = WebListener::new(rt, plain, web, web_port).map_err(|error| no_port(
        rt, web_port, error,
    ))?;
    Ok(TcpDoor::of(listener))
}
