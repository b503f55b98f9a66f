//! The word `format` over a folder of real files.

use crate::blank::is_blank;
use crate::formatting::{FormatOptions, format_all, format_options};
use crate::saying::{failed, out_of_memory, path_in, refused};
use crate::status::ServeStatus;
use pv_files::{FileDisk, NODE_FILES, OpenFault, make_folder, set_aside};
use std::alloc::{AllocGlobal, Global};
use std::fs::{File, Files};
use std::io::{Eprint, ErrorKind, Print};

/// How `format` is used.
const FORMAT_HELP: &str = "usage: prestel format DIR N

Makes the folder DIR, unless it is there, and in it the disks of a network of
N retrieval centres, 1 to 4, without a record: udc.pv of the Update Centre,
and irc0.pv on of the centres. A file of these names that holds something is
kept beside it under another name, which standard error says.

Exit status:
  0  everything was done
  2  bad command line
  5  standard output could not be written
  6  out of memory
  8  a file could not be made, is in use, or failed
";

/// A file that was in the folder, locked for as long as it is held.
#[derive(Drop)]
struct Found {
    /// Which node's disk it is: 0 is the Update Centre, and c + 1 is centre c.
    node: usize,
    path: String,
    disk: FileDisk<File>,
}

/// Formats a folder, if the first word is `format`, and returns the number that the process ends with. A fault is one line on
/// standard error. `None` if the first word is another.
pub fn run_format<R: AllocGlobal + Files<File = File> + Print + Eprint>(
    rt: &R,
    words: &[String],
) -> Option<u8> {
    match words {
        [first, later @ ..] if first.as_str() == "format" => match later {
            [word] if word.as_str() == "--help" => Some(write_help(rt)),
            _ => Some(format_asked(rt, words)),
        },
        _ => None,
    }
}

/// Writes how `format` is used.
fn write_help<R: Print>(rt: &R) -> u8 {
    match print!(rt; "{FORMAT_HELP}") {
        Ok(()) => 0,
        Err(_) => 5,
    }
}

/// Formats the folder that the words ask for.
fn format_asked<R: AllocGlobal + Files<File = File> + Eprint>(rt: &R, words: &[String]) -> u8 {
    let Some(options) = format_options(words) else {
        let _ = eprintln!(rt; "prestel: usage: prestel format DIR N; try prestel format --help");
        return 2;
    };
    match make_disks(rt, &options) {
        Ok(mut disks) => end(rt, &format_all(words, &mut disks)),
        Err(number) => number,
    }
}

/// Says how the formatting of the disks ended, if it failed, and returns its number.
fn end<R: Eprint>(rt: &R, status: &ServeStatus<FileDisk<File>>) -> u8 {
    match status {
        ServeStatus::Done => {}
        ServeStatus::DiskFault(failure) => {
            let _ = eprintln!(rt; "prestel: {failure}");
        }
        status => {
            let _ = eprintln!(rt; "prestel: {status}");
        }
    }
    status.number()
}

/// Makes a new file for each node. What is in the folder and holds something is set aside first.
fn make_disks<R: AllocGlobal + Files<File = File> + Eprint>(
    rt: &R,
    options: &FormatOptions<'_>,
) -> Result<Vec<FileDisk<File>>, u8> {
    let alloc = rt.alloc();
    if let Err(error) = make_folder(rt, options.folder) {
        return Err(refused(rt, options.folder, OpenFault::File(error)));
    }
    clear_folder(rt, options)?;
    let mut disks = Vec::new(alloc);
    for name in NODE_FILES.iter().take(options.centres as usize + 1) {
        let path = path_in(rt, options.folder, name)?;
        match FileDisk::create(rt, alloc, &path) {
            Ok(disk) => disks.push(disk).map_err(|_| out_of_memory(rt))?,
            Err(fault) => return Err(refused(rt, &path, fault)),
        }
    }
    Ok(disks)
}

/// Sets aside each file of a node's name that holds something, or whose node the new network does not have. If one is in use
/// all stay as they are.
fn clear_folder<R: AllocGlobal + Files<File = File> + Eprint>(
    rt: &R,
    options: &FormatOptions<'_>,
) -> Result<(), u8> {
    let mut found = find_files(rt, options.folder)?;
    for file in found.iter_mut() {
        let blank = match is_blank(&mut file.disk) {
            Ok(blank) => blank,
            Err(failure) => return Err(failed(rt, &file.path, failure)),
        };
        if !blank || file.node > options.centres as usize {
            keep(rt, &file.path)?;
        }
    }
    Ok(())
}

/// Sets a file aside, and says under which name.
fn keep<R: AllocGlobal + Files<File = File> + Eprint>(rt: &R, path: &str) -> Result<(), u8> {
    match set_aside(rt, rt.alloc(), path) {
        Ok(aside) => {
            let _ = eprintln!(rt; "prestel: {path} is kept as {aside}");
            Ok(())
        }
        Err(fault) => Err(refused(rt, path, fault)),
    }
}

/// Opens and locks each file of a node's name that is in the folder.
fn find_files<R: AllocGlobal + Files<File = File> + Eprint>(
    rt: &R,
    folder: &str,
) -> Result<Vec<Found>, u8> {
    let alloc = rt.alloc();
    let mut found = Vec::new(alloc);
    for (node, name) in NODE_FILES.iter().enumerate() {
        let path = path_in(rt, folder, name)?;
        match FileDisk::open(rt, alloc, &path) {
            Ok(disk) => found
                .push(Found { node, path, disk })
                .map_err(|_| out_of_memory(rt))?,
            Err(OpenFault::File(error)) if error.kind() == ErrorKind::NotFound => {}
            Err(fault) => return Err(refused(rt, &path, fault)),
        }
    }
    Ok(found)
}
