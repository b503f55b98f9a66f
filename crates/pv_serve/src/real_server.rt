//! The word `serve` over a folder of real files, ports of the machine, its clock and its threads.
ghost use Rattle.std.specs.Prelude.{◌≡◌, ◌+◌, ◌*◌, ◌<◌, ◌≤◌, All, map, string_bytes, vec_len, IfOk, OnOk};
ghost use Rattle.pv_account.specs.declared.account.TheConstants.{MAX_CENTRES};
ghost use Rattle.pv_files.specs.Doors.{IsNewDoor};
ghost use Rattle.pv_serve.specs.Options.{AskToServe, ArePortsApart};
ghost use Rattle.pv_serve.specs.Serving.{ArePartsOf};
ghost use Rattle.pv_service.specs.declared.caller_stand.TheConstants.{MAX_ACCEPTED};

use crate::logged_door::{LoggedDoor, Place};
use crate::node_file::NodeFile;
use crate::options::{OptionFault, ServeOptions, serve_options};
use crate::saying::{ErrorOutput, out_of_memory, path_in, refused};
use crate::serving::{Served, serve};
use crate::status::ServeStatus;
use pv_files::{
    FileDisk, FileFault, Listener, MachineClock, NODE_FILES, OpenFault, SharedListener, TcpDoor,
    ThreadSpawner, open_file,
};
use pv_outside::Disk;
use std::alloc::AllocGlobal;
use std::fs::{self, File, Files};
use std::io::{self, Eprint, ErrorKind, Print};
use std::net::{Net, TcpListener, TcpStream};
use std::sync::Wait;
use std::thread::Threads;
use std::time;

/// How `serve` is used.
const SERVE_HELP: &str =
    "usage: prestel serve DIR --centres N --ports M --editors E --calls K --port P --editor-port Q

Serves the network whose disks `prestel format DIR N` has made. Callers of
centre c reach it on port P + c of this machine, M of them at a time, and
editors the Update Centre on port Q, E at a time. Each port serves K calls and
then ends; the server ends with the last.

  --centres N      the centres of the network, 1 to 4.
  --ports M        callers' ports of each centre, 1 to 16.
  --editors E      editors' ports, 1 to 4.
  --calls K        calls or sessions of each port, 1 to 1000000.
  --port P         the machine's port of centre 0, 1 to 65535.
  --editor-port Q  the machine's port of the editors, none of the callers'.

With PRESTEL_LOG in the environment, a line on standard error says when each
call and each session begins, and when and how it ends.

Exit status:
  0  every port has served its calls
  2  bad command line
  5  standard output could not be written
  6  out of memory
  8  a file could not be opened, is in use, or failed
  9  a file is no disk of this network
 10  a port of the machine could not be had, or failed
 11  the threads could not be started
 12  a node is full
";

/// A door of a port of the machine.
pub(crate) type PortDoor<'a, R, L = TcpListener> = LoggedDoor<'a, R, TcpDoor<L>>;

/// Serves a network, if the first word is `serve`, and returns the number that the process ends with. A fault is one line on
/// standard error. `output` says what else it has. `None` if the first word is another.
pub fn run_serve<
    R: AllocGlobal
        + Files<File = File>
        + Net<Listener = TcpListener, Stream = TcpStream>
        + time::Clock
        + Wait
        + Threads
        + Sync
        + Print
        + Eprint,
>(rt: &R, words: &[String], output: ErrorOutput) -> Option<u8> {
    match words {
        [first, later @ ..] if first.as_str() == "serve" => match later {
            [word] if word.as_str() == "--help" => Some(write_help(rt)),
            _ => Some(serve_asked(rt, words, output)),
        },
        _ => None,
    }
}

/// Writes how `serve` is used.
fn write_help<R: Print>(rt: &R) -> u8 {
    match print!(rt; "{SERVE_HELP}") {
        Ok(()) => 0,
        Err(_) => 5,
    }
}

/// Serves the network that the words ask for.
fn serve_asked<
    R: AllocGlobal
        + Files<File = File>
        + Net<Listener = TcpListener, Stream = TcpStream>
        + time::Clock
        + Wait
        + Threads
        + Sync
        + Eprint,
>(rt: &R, words: &[String], output: ErrorOutput) -> u8 {
    match serve_options(rt.alloc(), words) {
        Ok(options) => serve_with(rt, words, &options, output).unwrap_or_else(|number| number),
        Err(OptionFault::Memory) => out_of_memory(rt),
        Err(OptionFault::Usage) => {
            let _ = eprintln!(rt; "prestel: bad command line; try prestel serve --help");
            2
        }
    }
}

/// Serves the network of these options.
fn serve_with<
    R: AllocGlobal
        + Files<File = File>
        + Net<Listener = TcpListener, Stream = TcpStream>
        + time::Clock
        + Wait
        + Threads
        + Sync
        + Eprint,
>(rt: &R, words: &[String], options: &ServeOptions, output: ErrorOutput) -> Result<u8, u8>
    requires { AskToServe (map string_bytes words.now) options.now }
{
    let disks = open_disks(rt, options, output.is_seen)?;
    let callers = open_callers(rt, options, output.is_logged)?;
    let editors = open_editors(rt, options, output.is_logged)?;
    if output.is_seen {
        say_open(rt, options);
    }
    Ok(serve_at(rt, words, options, disks, callers, editors))
}

/// Serves the network of these options at these doors, and returns the number to end with.
pub(crate) fn serve_at<
    'a,
    R: AllocGlobal
        + Files<File = File>
        + Net<Listener = TcpListener, Stream = TcpStream>
        + time::Clock
        + Wait
        + Threads
        + Sync
        + Eprint,
    L: Listener + Drop + Send,
>(
    rt: &'a R,
    words: &[String],
    options: &ServeOptions,
    disks: Vec<FileDisk<NodeFile<'a, R>>>,
    callers: Vec<PortDoor<'a, R, L>>,
    editors: Vec<PortDoor<'a, R>>,
) -> u8
where
    L::Line: Send,
    requires asked { AskToServe (map string_bytes words.now) options.now }
    requires parts { ArePartsOf options.now (vec_len disks) (vec_len callers) (vec_len editors) }
    requires callers { All (λ logged. logged.door.counts.accepted < MAX_ACCEPTED) callers.items }
    requires editors { All (λ logged. logged.door.counts.accepted < MAX_ACCEPTED) editors.items }
{
    let clock = MachineClock::new(rt);
    let mut spawner = ThreadSpawner::new();
    let served = serve(
        rt,
        rt.alloc(),
        words,
        disks,
        callers,
        editors,
        &clock,
        &mut spawner,
    );
    let Served {
        status,
        disks: _,
        callers: _,
        editors: _,
    } = served;
    end(rt, status)
}

/// Says where callers and editors are waited for.
pub(crate) fn say_open<R: Eprint>(rt: &R, options: &ServeOptions)
    requires { ArePortsApart options.now }
{
    for centre in 0..options.centres {
        let port = options.port + u16::from(centre);
        let _ = eprintln!(rt;
            "prestel: centre {centre}: 127.0.0.1:{port}, {} ports",
            options.ports
        );
    }
    let _ = eprintln!(rt;
        "prestel: editors: 127.0.0.1:{}, {} ports",
        options.editor_port, options.editors
    );
}

/// Says how the server ended, if something failed, and returns its number.
fn end<R: Eprint, D: Disk<Failure = FileFault>>(rt: &R, status: ServeStatus<D>) -> u8 {
    match &status {
        ServeStatus::Done => {}
        ServeStatus::DiskFault(failure) => {
            let _ = eprintln!(rt; "prestel: {failure}");
        }
        status => {
            let _ = eprintln!(rt; "prestel: {status}");
        }
    }
    status.number()
}

/// Opens and locks the file of each node. If standard error is seen, it has lines that say how far a long one is read.
pub(crate) fn open_disks<'a, R: AllocGlobal + Files<File = File> + Eprint>(
    rt: &'a R,
    options: &ServeOptions,
    is_seen: bool,
) -> Result<Vec<FileDisk<NodeFile<'a, R>>>, u8>
    requires { options.now.centres ≤ MAX_CENTRES }
    ensures { IfOk result (λ disks. vec_len disks ≡ options.now.centres + 1) }
{
    let alloc = rt.alloc();
    let nodes = options.centres as usize + 1;
    let mut disks = Vec::new(alloc);
    for name in &NODE_FILES[..nodes] {
        let path = path_in(rt, options.folder.as_str(), name)?;
        match open_disk(rt, &path, name, is_seen) {
            Ok(disk) => disks.push(disk).map_err(|_| out_of_memory(rt))?,
            Err(OpenFault::File(error)) if error.kind() == ErrorKind::NotFound => {
                return Err(no_disk(rt, &path, "is not there", options.centres));
            }
            Err(fault) => return Err(refused(rt, &path, fault)),
        }
    }
    if let Some(name) = NODE_FILES.get(nodes) {
        let path = path_in(rt, options.folder.as_str(), name)?;
        if fs::exists(rt, &path).unwrap_or(false) {
            return Err(no_disk(rt, &path, "is there", options.centres));
        }
    }
    Ok(disks)
}

/// Opens and locks the file of a node, which has this name.
fn open_disk<'a, R: AllocGlobal + Files<File = File> + Eprint>(
    rt: &'a R,
    path: &str,
    name: &'a str,
    is_seen: bool,
) -> Result<FileDisk<NodeFile<'a, R>>, OpenFault> {
    let file = open_file(rt, path)?;
    let file = NodeFile::new(rt, file, name, is_seen).map_err(OpenFault::File)?;
    FileDisk::of(rt.alloc(), file)
}

/// Says that a folder has no network of this many centres, and returns the number to end with.
fn no_disk<R: Eprint>(rt: &R, path: &str, why: &str, centres: u8) -> u8 {
    let _ = eprintln!(rt;
        "prestel: {path} {why}: the folder was not formatted for {centres} centres; try prestel format --help"
    );
    9
}

/// The doors of the callers' ports, those of centre 0 first.
fn open_callers<
    'a,
    R: AllocGlobal + Net<Listener = TcpListener, Stream = TcpStream> + time::Clock + Eprint,
>(rt: &'a R, options: &ServeOptions, is_logged: bool) -> Result<Vec<PortDoor<'a, R>>, u8>
    requires some { 1 ≤ options.now.ports }
    requires apart { ArePortsApart options.now }
    ensures count { IfOk result (λ doors. vec_len doors ≡ options.now.centres * options.now.ports) }
    ensures room { IfOk result
        (λ doors. All (λ logged. logged.door.counts.accepted < MAX_ACCEPTED) doors.items) }
{
    let mut doors = Vec::new(rt.alloc());
    for centre in 0..options.centres {
        let port = options.port + u16::from(centre);
        let first = TcpDoor::bind(rt, port).map_err(|error| no_port(rt, port, error))?;
        let place = Place::Callers { centre, port: 0 };
        add_doors(rt, &mut doors, first, port, options.ports, place, is_logged)?;
    }
    Ok(doors)
}

/// The doors of the editors' ports.
pub(crate) fn open_editors<
    'a,
    R: AllocGlobal + Net<Listener = TcpListener, Stream = TcpStream> + time::Clock + Eprint,
>(rt: &'a R, options: &ServeOptions, is_logged: bool) -> Result<Vec<PortDoor<'a, R>>, u8>
    requires some { 1 ≤ options.now.editors }
    ensures count { IfOk result (λ doors. vec_len doors ≡ options.now.editors) }
    ensures room { IfOk result
        (λ doors. All (λ logged. logged.door.counts.accepted < MAX_ACCEPTED) doors.items) }
{
    let mut doors = Vec::new(rt.alloc());
    let port = options.editor_port;
    let first = TcpDoor::bind(rt, port).map_err(|error| no_port(rt, port, error))?;
    let place = Place::Editors { port: 0 };
    add_doors(
        rt,
        &mut doors,
        first,
        port,
        options.editors,
        place,
        is_logged,
    )?;
    Ok(doors)
}

/// Adds this many doors at a port of the machine, of which this is the first. `place` is that of the first.
pub(crate) fn add_doors<'a, R: AllocGlobal + time::Clock + Eprint, L: SharedListener + Drop>(
    rt: &'a R,
    doors: &mut Vec<PortDoor<'a, R, L>>,
    first: TcpDoor<L>,
    port: u16,
    count: u8,
    place: Place,
    is_logged: bool,
) -> Result<(), u8>
    requires some { 1 ≤ count }
    requires fresh { IsNewDoor first }
    requires room { All (λ logged. logged.door.counts.accepted < MAX_ACCEPTED) doors.old.items }
    ensures count { OnOk result (vec_len doors.new ≡ vec_len doors.old + count) }
    ensures room { OnOk result (All (λ logged. logged.door.counts.accepted < MAX_ACCEPTED) doors.new.items) }
{
    let mut place = place;
    for _ in 1..count {
        match first.beside() {
            Ok(beside) => add_door(rt, doors, beside, place, is_logged)?,
            Err(error) => return Err(no_port(rt, port, error)),
        }
        place = place.next();
    }
    add_door(rt, doors, first, place, is_logged)
}

/// Adds a door.
fn add_door<'a, R: AllocGlobal + time::Clock + Eprint, L: SharedListener + Drop>(
    rt: &'a R,
    doors: &mut Vec<PortDoor<'a, R, L>>,
    door: TcpDoor<L>,
    place: Place,
    is_logged: bool,
) -> Result<(), u8>
    requires fresh { IsNewDoor door }
    requires room { All (λ logged. logged.door.counts.accepted < MAX_ACCEPTED) doors.old.items }
    ensures count { OnOk result (vec_len doors.new ≡ vec_len doors.old + 1) }
    ensures room { OnOk result (All (λ logged. logged.door.counts.accepted < MAX_ACCEPTED) doors.new.items) }
{
    match doors.push(LoggedDoor::new(rt, door, place, is_logged)) {
        Ok(()) => Ok(()),
        Err(_) => Err(out_of_memory(rt)),
    }
}

/// Says that a port of the machine could not be had, and returns the number to end with.
pub(crate) fn no_port<R: Eprint>(rt: &R, port: u16, error: io::Error) -> u8 {
    let _ = eprintln!(rt; "prestel: port {port}: {error}");
    10
}
