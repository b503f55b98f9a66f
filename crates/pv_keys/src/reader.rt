ghost use Rattle.std.specs.Prelude.{◌≡◌, [], ◌∷◌, None};
ghost use Rattle.pv_keys.specs.Commands.{keys_of};
ghost use Rattle.pv_keys.specs.Reader.{keys_since, TakesByte};

use crate::command::Command;
use crate::progress::{Progress, Step};
use std::marker::Model;

/// Reads a caller's keys.
#[derive(Clone, Copy, Debug, PartialEq, Eq)]
pub struct KeyReader {
    progress: Progress,
}

impl Model for KeyReader {
    ghost use Rattle.pv_keys.specs.declared.progress.Progress.{Progress};
    ghost use Rattle.pv_keys.specs.Reader.{IsProgress};

    ghost Value = { Progress };

    ghost view = { λ reader. reader.progress };

    ghost invariant = { λ reader. IsProgress reader.progress };

    ghost inverse = { λ progress. record { progress = progress } };
}

impl KeyReader {
    /// A reader that has had no key.
    pub fn new() -> KeyReader
        ensures { keys_since result ≡ [] }
    {
        KeyReader {
            progress: Progress::Idle,
        }
    }

    /// Takes a byte. `None` exactly when the keys since the last command are no whole command, and then they are kept.
    /// After a command the reader is as new.
    #[tactic(auto, using(crate::proofs::Keys::waiting, crate::proofs::Keys::giving))]
    pub fn take(&mut self, byte: u8) -> Option<Command>
        ensures step { TakesByte (keys_since self.old) byte result (keys_since self.new) }

        // A byte that is no key changes nothing.
        ensures ignored { keys_of (byte ∷ []) ≡ [] → (result ≡ None) × (self.new ≡ self.old) }
    {
        match self.progress.byte(byte)? {
            Step::Wait(next) => {
                self.progress = next;
                None
            }
            Step::Give(command) => {
                self.progress = Progress::Idle;
                Some(command)
            }
        }
    }
}
