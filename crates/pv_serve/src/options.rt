ghost use Rattle.std.specs.Prelude.{◌≡◌, ◌≢◌, ◌↔◌, ℕ, List, [], Some, Err, map, string_bytes, IfOk, OnOk, IfSome, IsTrue};
ghost use Rattle.clap.specs.Words.{app_of, first_value, found_of, kind_of, with_rule};
ghost use Rattle.pv_serve.specs.Options.{AskToServe, AskNoServe, GiveOptions, GivesNumber, GivesNumbers, ArePortsApart, serve_command, serve_faults, text_given, option_rule};
ghost use Rattle.pv_serve.specs.declared.options.ServeOptions.{ServeOptions};

use crate::folder::Folder;
use clap::error::ErrorKind;
use clap::{Arg, ArgMatches, Command, Error};
use pv_account::MAX_CENTRES;
use pv_words::number_of;
use std::alloc::{AllocError, Global};

/// The most ports for callers at each centre.
pub const MAX_PORTS: u8 = 16;

/// The most ports for editors.
pub const MAX_EDITORS: u8 = 4;

/// The most connections that a port may be asked to serve.
pub const MAX_CALLS: u32 = 1_000_000;

/// The last number of a port of the machine.
pub const LAST_PORT: u16 = 65_535;

/// What the words of `serve` ask for.
#[derive(Debug, Drop)]
pub struct ServeOptions {
    /// The folder of the disks.
    pub folder: Folder,
    /// How many centres there are, 1 to [`MAX_CENTRES`].
    pub centres: u8,
    /// How many ports each centre has for callers, 1 to [`MAX_PORTS`].
    pub ports: u8,
    /// How many ports there are for editors, 1 to [`MAX_EDITORS`].
    pub editors: u8,
    /// How many connections each port serves, 1 to [`MAX_CALLS`].
    pub calls: u32,
    /// The machine's port for the callers of centre 0. Those of the others follow it.
    pub port: u16,
    /// The machine's port for editors, which is none of the callers'.
    pub editor_port: u16,
}

/// Why words ask for no server.
#[derive(Clone, Copy, Debug, PartialEq, Eq, thiserror::Error)]
pub enum OptionFault {
    /// They are not the words of `serve`, an option is missing, given twice or out of range, or the ports overlap.
    #[error("bad command line")]
    Usage,
    /// Memory ran out.
    #[error("out of memory")]
    Memory,
}

/// What the words ask for, if they are `serve`, a folder and the six options, in any order.
///
/// A number is decimal, without a sign or a leading zero. `Usage` comes exactly if the words ask for no server. A request
/// for help is none.
pub fn serve_options(alloc: Global, words: &[String]) -> Result<ServeOptions, OptionFault>
    ensures ok { IfOk result (AskToServe (map string_bytes words.now)) }
    ensures usage { result ≡ Err OptionFault.Usage → AskNoServe (map string_bytes words.now) }
{
    match words {
        [first, ..] if first.as_str() == "serve" => options_after_word(alloc, words),
        _ => Err(OptionFault::Usage),
    }
}

/// What the words ask for, if they are the command's.
fn options_after_word(alloc: Global, words: &[String]) -> Result<ServeOptions, OptionFault>
    ensures ok { IfOk result (GiveOptions (map string_bytes words.now)) }
    ensures usage { result ≡ Err OptionFault.Usage → (options : ServeOptions)
        → GiveOptions (map string_bytes words.now) options → ⊥ }
{
    let matches = matches_of_words(alloc, words)?;
    match matches.get_str("folder") {
        Some(path) => options_in_folder(alloc, path, &matches),
        None => Err(OptionFault::Usage),
    }
}

/// What the command makes of the words. `Usage` if it finds a fault in them.
fn matches_of_words<'a>(alloc: Global, words: &'a [String]) -> Result<ArgMatches<'a>, OptionFault>
    ensures taken { OnOk result (serve_faults (map string_bytes words.entry.now) ≡ []) }
    ensures given { IfOk result (λ matches. (name : List ℕ) → first_value (found_of matches) name
        ≡ text_given (map string_bytes words.entry.now) name) }
    ensures usage { result ≡ Err OptionFault.Usage
        → serve_faults (map string_bytes words.entry.now) ≢ [] }
{
    let Ok(command) = serve_command(alloc) else {
        return Err(OptionFault::Memory);
    };
    match command.try_get_matches_from(words) {
        Ok(matches) => Ok(matches),
        Err(error) => Err(fault_for(&error)),
    }
}

/// What an error of the parser is here.
fn fault_for(error: &Error) -> OptionFault
    ensures { result ≡ OptionFault.Usage → kind_of error.now ≢ ErrorKind.OutOfMemory }
{
    match error.kind() {
        ErrorKind::OutOfMemory => OptionFault::Memory,
        _ => OptionFault::Usage,
    }
}

/// The command: a folder and six options.
fn serve_command<'a>(alloc: Global) -> Result<Command<'a>, AllocError>
    ensures { IfOk result (λ command. app_of command ≡ serve_command) }
{
    let folder = Arg::new(alloc, "folder").required(true);
    let command = Command::new(alloc, "serve").arg(folder)?;
    let command = with_option(alloc, command, "centres")?;
    let command = with_option(alloc, command, "ports")?;
    let command = with_option(alloc, command, "editors")?;
    let command = with_option(alloc, command, "calls")?;
    let command = with_option(alloc, command, "port")?;
    with_option(alloc, command, "editor-port")
}

/// A command with one option more, which must be there and has one value.
fn with_option<'a>(
    alloc: Global,
    command: Command<'a>,
    name: &'a str,
) -> Result<Command<'a>, AllocError>
    ensures { IfOk result (λ longer. app_of longer
        ≡ with_rule (app_of command.entry) (option_rule name.entry.now)) }
{
    command.arg(Arg::new(alloc, name).long(name).required(true))
}

/// The options of a folder, with the numbers that are given.
fn options_in_folder(
    alloc: Global,
    path: &str,
    matches: &ArgMatches<'_>,
) -> Result<ServeOptions, OptionFault>
    ensures ok { IfOk result (λ options. (options.folder ≡ path.now)
        × GivesNumbers (first_value (found_of matches.now)) options × ArePortsApart options) }
    ensures usage { result ≡ Err OptionFault.Usage → (options : ServeOptions)
        → options.folder ≡ path.now → GivesNumbers (first_value (found_of matches.now)) options
        → ArePortsApart options → ⊥ }
{
    let Ok(folder) = Folder::new(alloc, path) else {
        return Err(OptionFault::Memory);
    };
    match options_given(folder, matches) {
        Some(options) => Ok(options),
        None => Err(OptionFault::Usage),
    }
}

/// The options of these numbers, if each is given and in its range, and the ports are apart.
fn options_given(folder: Folder, matches: &ArgMatches<'_>) -> Option<ServeOptions>
    ensures found { IfSome result (λ options. (options.folder ≡ folder)
        × GivesNumbers (first_value (found_of matches.now)) options × ArePortsApart options) }
    ensures only { (options : ServeOptions) → options.folder ≡ folder
        → GivesNumbers (first_value (found_of matches.now)) options → ArePortsApart options
        → result ≡ Some options }
{
    let options = ServeOptions {
        folder,
        centres: number_given(matches, "centres", MAX_CENTRES as u64)? as u8,
        ports: number_given(matches, "ports", MAX_PORTS as u64)? as u8,
        editors: number_given(matches, "editors", MAX_EDITORS as u64)? as u8,
        calls: number_given(matches, "calls", MAX_CALLS as u64)? as u32,
        port: number_given(matches, "port", LAST_PORT as u64)? as u16,
        editor_port: number_given(matches, "editor-port", LAST_PORT as u64)? as u16,
    };
    if are_ports_apart(&options) {
        Some(options)
    } else {
        None
    }
}

/// The number that is given for a name, if it is 1 to the last.
fn number_given(matches: &ArgMatches<'_>, name: &str, last: u64) -> Option<u64>
    ensures found { IfSome result (GivesNumber (first_value (found_of matches.now)) name.now last) }
    ensures only { (number : ℕ) → GivesNumber (first_value (found_of matches.now)) name.now last number
        → result ≡ Some number }
{
    let text = matches.get_str(name)?;
    let number = number_of(text.as_bytes())?;
    if 1 <= number && number <= last {
        Some(number)
    } else {
        None
    }
}

/// Whether each centre's port is one of the machine's, and the editors' is none of them.
fn are_ports_apart(options: &ServeOptions) -> bool
    ensures { IsTrue result ↔ ArePortsApart options.now }
{
    let end = options.port as u32 + options.centres as u32;
    let editor_port = options.editor_port as u32;
    end <= LAST_PORT as u32 + 1 && (editor_port < options.port as u32 || end <= editor_port)
}
