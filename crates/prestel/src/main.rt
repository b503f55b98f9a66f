//! The program: `prestel play N` runs a script on a viewdata network of N retrieval centres, 1 to 4. `prestel gen N`
//! writes the script that is made by rule for the number N, and `prestel evening N` plays it and sums it up. `prestel format`
//! makes the disks of a network in a folder, and `prestel serve` serves it over sockets,
//! `prestel web` to browsers too. `prestel tape` loads an information
//! provider's pages there, and `prestel statement` writes a month's statement of an account from there.
//!
//! The first three are [`pv_play::run`]. The others are `pv_serve::run_format`, `run_serve` and `run_web`, and `pv_office::run_office`.
#![tactic(auto)]

use pv_office::run_office;
use pv_play::{WordsError, args_of, end, error_of, run, words_of};
use pv_serve::{ErrorOutput, run_format, run_serve, run_web};
use std::env::{self, VarError};
use std::fs::{File, Files};
use std::io::IsTerminal;
use std::net::{Net, TcpListener, TcpStream};
use std::process::ExitCode;
use std::rt::Env;
use std::sync::Wait;
use std::thread::Threads;
use std::time::Clock;

fn main(rt: HostRuntime) -> ExitCode {
    let args = match args_of(&rt) {
        Ok(args) => args,
        Err(status) => return end(&rt, status, Some(WordsError::NotText)),
    };
    let words = words_of(&args);
    let is_seen = rt.stderr().is_terminal();
    let output = ErrorOutput {
        is_seen,
        is_logged: is_logged(&rt),
    };
    if let Some(number) = run_on_files(&rt, words, output) {
        return ExitCode::from(number);
    }
    let status = run(&rt, words, is_seen);
    end(&rt, status, error_of(words))
}

/// Runs a word that works on files, and returns the number to end with. `None` if the first word is no such word. Long work says
/// on standard error how far it is, if that is seen.
fn run_on_files<
    R: AllocGlobal
        + Files<File = File>
        + Net<Listener = TcpListener, Stream = TcpStream>
        + Clock
        + Wait
        + Threads
        + Sync
        + Input
        + Print
        + Eprint,
>(rt: &R, words: &[String], output: ErrorOutput) -> Option<u8> {
    if let Some(number) = run_format(rt, words) {
        return Some(number);
    }
    if let Some(number) = run_serve(rt, words, output) {
        return Some(number);
    }
    match run_web(rt, words, output) {
        Some(number) => Some(number),
        None => run_office(rt, words, output.is_seen),
    }
}

/// Whether the environment asks for a log.
fn is_logged<R: AllocGlobal + Env>(rt: &R) -> bool {
    !matches!(env::var(rt, "PRESTEL_LOG"), Err(VarError::NotPresent))
}
