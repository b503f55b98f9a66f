//! What the program says on standard error of files and memory.

use pv_files::{FileFault, OpenFault};
use std::alloc::AllocGlobal;
use std::io::Eprint;

/// What standard error has beside faults.
#[derive(Clone, Copy, Debug)]
pub struct ErrorOutput {
    /// Where lines are waited for and how far long work is, since it is a terminal.
    pub is_seen: bool,
    /// A line when each call and each session begins, and when and how it ends.
    pub is_logged: bool,
}

/// The path of a file in the folder.
pub(crate) fn path_in<R: AllocGlobal + Eprint>(
    rt: &R,
    folder: &str,
    name: &str,
) -> Result<String, u8> {
    format!(in rt.alloc(); "{folder}/{name}").map_err(|_| out_of_memory(rt))
}

/// Says why a file could not be had, and returns the number to end with.
pub(crate) fn refused<R: Eprint>(rt: &R, path: &str, fault: OpenFault) -> u8 {
    match fault {
        OpenFault::Memory => out_of_memory(rt),
        fault => {
            let _ = eprintln!(rt; "prestel: {path}: {fault}");
            8
        }
    }
}

/// Says what a file could not do, and returns the number to end with.
pub(crate) fn failed<R: Eprint>(rt: &R, path: &str, failure: FileFault) -> u8 {
    let _ = eprintln!(rt; "prestel: {path}: {failure}");
    8
}

/// Says that memory ran out, and returns the number to end with.
pub(crate) fn out_of_memory<R: Eprint>(rt: &R) -> u8 {
    let _ = eprintln!(rt; "prestel: out of memory");
    6
}
