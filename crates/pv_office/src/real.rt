//! The office's words over the real file, standard output and standard error.

use crate::options::statement_options;
use crate::statements::statement_of;
use crate::status::OfficeStatus;
use crate::tapes::{tape_folder, tape_of};
use crate::watched::Watched;
use pv_files::{FileDisk, NODE_FILES, OpenFault, StandardInput, StandardOutput};
use pv_outside::Disk;
use std::alloc::AllocGlobal;
use std::fs::{File, Files};
use std::io::{self, Eprint, Input, Print};

/// How `statement` is used.
const STATEMENT_HELP: &str = "usage: prestel statement DIR ACCOUNT YYYY-MM

Writes the statement of an account for a month, from the disk of the Update
Centre in the folder DIR: the charge lines of the month with date, time,
frame and price in pence, and their sum. ACCOUNT has ten digits, and the
month is 1970-01 to 2099-12.

Exit status:
  0  everything was done
  2  bad command line
  5  standard output could not be written
  6  out of memory
  8  the file of the Update Centre could not be opened, or failed
  9  the records of the Update Centre could not be read
  15 there is no such account
";

/// How `tape` is used.
const TAPE_HELP: &str = "usage: prestel tape DIR < TAPE

Loads a tape into the Update Centre of the folder DIR: the pages of an
information provider, as a text on standard input. Writes how many of its
edits were stored, and how many had been before. A load that was cut is
continued by running it again.

Exit status:
  0  everything was done
  2  bad command line
  3  a line of the tape is bad, and nothing was stored
  4  standard input could not be read
  5  standard output could not be written
  6  out of memory
  7  the tape is longer than 1048576 bytes
  8  the file of the Update Centre could not be opened, or failed
  9  the records of the Update Centre could not be read
  12 the Update Centre is full
  13 the tape's account is unknown, or its password is another
  14 an edit was refused, and those before it are stored
";

/// Does what the words ask for, if their first is one of the office's, and returns the number that the process ends with.
/// A fault is one line on standard error, and so is how far long work is, if that is seen. `None` exactly when the first word is
/// not one of the office's.
pub fn run_office<R: AllocGlobal + Files<File = File> + Input + Print + Eprint>(
    rt: &R,
    words: &[String],
    is_seen: bool,
) -> Option<u8> {
    match words {
        [first, later @ ..] if first.as_str() == "statement" => match later {
            [word] if word.as_str() == "--help" => Some(write_help(rt, STATEMENT_HELP)),
            _ => Some(run_statement(rt, words)),
        },
        [first, later @ ..] if first.as_str() == "tape" => match later {
            [word] if word.as_str() == "--help" => Some(write_help(rt, TAPE_HELP)),
            _ => Some(run_tape(rt, words, is_seen)),
        },
        _ => None,
    }
}

/// Writes how a word is used.
fn write_help<R: Print>(rt: &R, text: &str) -> u8 {
    match print!(rt; "{text}") {
        Ok(()) => 0,
        Err(_) => 5,
    }
}

/// Writes a statement from the file of the Update Centre.
fn run_statement<R: AllocGlobal + Files<File = File> + Print + Eprint>(
    rt: &R,
    words: &[String],
) -> u8 {
    let Some(options) = statement_options(words) else {
        let _ = eprintln!(rt;
            "prestel: usage: prestel statement DIR ACCOUNT YYYY-MM; try prestel statement --help"
        );
        return 2;
    };
    let disk = match open_disk(rt, options.folder) {
        Ok(disk) => disk,
        Err(number) => return number,
    };
    let alloc = rt.alloc();
    let Ok(mut out) = StandardOutput::new(alloc, io::writer(rt)) else {
        return out_of_memory(rt);
    };
    let status = statement_of(alloc, words, disk, &mut out);
    let flushed = out.flush().is_ok();
    end(rt, status, flushed)
}

/// Loads a tape from standard input into the file of the Update Centre.
fn run_tape<R: AllocGlobal + Files<File = File> + Input + Print + Eprint>(
    rt: &R,
    words: &[String],
    is_seen: bool,
) -> u8 {
    let Some(folder) = tape_folder(words) else {
        let _ = eprintln!(rt; "prestel: usage: prestel tape DIR < TAPE; try prestel tape --help");
        return 2;
    };
    let disk = match open_disk(rt, folder) {
        Ok(disk) => disk,
        Err(number) => return number,
    };
    let alloc = rt.alloc();
    let Ok(mut out) = StandardOutput::new(alloc, io::writer(rt)) else {
        return out_of_memory(rt);
    };
    let mut tape = StandardInput::new(rt.reader());
    let disk = Watched::new(rt, disk, is_seen);
    let (status, _disk) = tape_of(alloc, words, disk, &mut tape, &mut out);
    let flushed = out.flush().is_ok();
    end(rt, status, flushed)
}

/// Opens the disk of the Update Centre in a folder. If that fails it says why, and returns the number to end with.
fn open_disk<R: AllocGlobal + Files<File = File> + Eprint>(
    rt: &R,
    folder: &str,
) -> Result<FileDisk<File>, u8> {
    let alloc = rt.alloc();
    let Ok(path) = format!(in alloc; "{folder}/{}", NODE_FILES[0]) else {
        return Err(out_of_memory(rt));
    };
    match FileDisk::open(rt, alloc, &path) {
        Ok(disk) => Ok(disk),
        Err(OpenFault::Memory) => Err(out_of_memory(rt)),
        Err(fault) => {
            let _ = eprintln!(rt; "prestel: {path}: {fault}");
            Err(8)
        }
    }
}

/// Says how a word ended, if not all was done, and returns its number. What was written is done only if it was flushed.
fn end<D: Disk, R: Eprint>(rt: &R, status: OfficeStatus<D>, flushed: bool) -> u8 {
    match status {
        OfficeStatus::Done if flushed => 0,
        OfficeStatus::Done => {
            let fault: OfficeStatus<D> = OfficeStatus::WriteFault;
            let _ = eprintln!(rt; "prestel: {fault}");
            fault.number()
        }
        status => {
            let _ = eprintln!(rt; "prestel: {status}");
            status.number()
        }
    }
}

/// Says that memory ran out.
fn out_of_memory<R: Eprint>(rt: &R) -> u8 {
    let _ = eprintln!(rt; "prestel: out of memory");
    6
}
