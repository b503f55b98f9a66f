//! What a process has for the program: its words, its streams, and the status that it ends with.
ghost use Rattle.std.specs.Prelude.{◌≡◌, drop};
ghost use Rattle.std.specs.Process.{exit_status};
ghost use Rattle.pv_outside.specs.Status.{number_of};

use crate::program::run_program;
use crate::progress::Progress;
use crate::words_error::WordsError;
use pv_files::{StandardInput, StandardOutput};
use pv_outside::Status;
use std::env;
use std::io::{self, ErrorKind};
use std::process::ExitCode;
use std::rt::Env;

/// The command line: the program's name, and its words. Words that are no text are none of the program's.
///
/// # Errors
///
/// The status to end with: `Usage` if a word is no UTF-8, or `Memory`.
pub fn args_of<R: AllocGlobal + Env>(rt: &R) -> Result<Vec<String>, Status> {
    match env::args(rt) {
        Ok(args) => args.collect(rt.alloc()).map_err(|_| Status::Memory),
        Err(error) if error.kind() == ErrorKind::OutOfMemory => Err(Status::Memory),
        Err(_) => Err(Status::Usage),
    }
}

/// The words after the program's name.
pub fn words_of(args: &[String]) -> &[String]
    ensures { result.now ≡ drop 1 args.now }
{
    match args {
        [_, words @ ..] => words,
        [] => &[],
    }
}

/// Runs the program with the words of the command line, standard input and standard output. Long work says on standard error
/// how far it is, if that is seen.
pub fn run<R: AllocGlobal + Input + Print + Eprint>(
    rt: &R,
    words: &[String],
    is_seen: bool,
) -> Status {
    let alloc = rt.alloc();
    let writer = Progress::new(rt, io::writer(rt), is_seen);
    let Ok(mut out) = StandardOutput::new(alloc, writer) else {
        return Status::Memory;
    };
    let mut script = StandardInput::new(rt.reader());
    run_program(alloc, words, &mut script, &mut out)
}

/// Says in one line on standard error why the program was not done, if it was not, and returns what the process ends
/// with. Of words that were refused it says what is wrong with them.
pub fn end<R: Eprint>(rt: &R, status: Status, wrong: Option<WordsError<'_>>) -> ExitCode
    ensures { exit_status result ≡ number_of status }
{
    let _ = match (status, wrong) {
        (Status::Done, _) => Ok(()),
        (Status::Usage, Some(error)) => eprintln!(rt; "prestel: {error}"),
        _ => eprintln!(rt; "prestel: {status}"),
    };
    ExitCode::from(status.number())
}
