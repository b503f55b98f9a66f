//! The program without the words that work on files. Its answers to all other words are the program's own. It stands on 32
//! of the 44 libraries, so that `./prestel` has them sooner while nothing is proved yet.
#![tactic(auto)]

use pv_play::{WordsError, args_of, end, error_of, run, words_of};
use std::io::IsTerminal;
use std::process::ExitCode;

fn main(rt: HostRuntime) -> ExitCode {
    let args = match args_of(&rt) {
        Ok(args) => args,
        Err(status) => return end(&rt, status, Some(WordsError::NotText)),
    };
    let words = words_of(&args);
    let status = run(&rt, words, rt.stderr().is_terminal());
    end(&rt, status, error_of(words))
}
