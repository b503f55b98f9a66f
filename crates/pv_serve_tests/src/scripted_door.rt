//! A door at which one scripted line comes in.
ghost use Rattle.std.specs.Prelude.{◌≡◌, ◌<◌, false, IfSome};
ghost use Rattle.pv_serve_tests.specs.Doors.{accepted_by};
ghost use Rattle.pv_service.specs.declared.caller_stand.TheConstants.{MAX_ACCEPTED};

use super::scripted::ScriptedLine;
use pv_outside::{Door, Failed};
use pv_ports::LogEntry;
use pv_service::Log;

/// A door at which one line comes in. It reports how many lines came in and were given back, and nothing of them.
#[derive(Drop)]
pub struct ScriptedDoor<'a> {
    coming: Option<ScriptedLine<'a>>,
    finished: Option<ScriptedLine<'a>>,
    given_back: u64,
    out: u64,
    faults: u64,
}

impl<'a> ScriptedDoor<'a> {
    /// A door at which this line comes in.
    pub fn new(line: ScriptedLine<'a>) -> ScriptedDoor<'a>
        ensures { accepted_by result.given_back result.out < MAX_ACCEPTED }
    {
        ScriptedDoor {
            coming: Some(line),
            finished: None,
            given_back: 0,
            out: 0,
            faults: 0,
        }
    }

    /// What the line was sent, if it was given back.
    pub fn sent(&self) -> &[u8] {
        match &self.finished {
            Some(line) => line.sent(),
            None => &[],
        }
    }

    /// The connection that comes in. `None`: no more come, or something was read from it.
    fn next(&mut self) -> Option<ScriptedLine<'a>>
        ensures unused { IfSome result (λ line. line.ended ≡ false) }
        ensures same { self.new ≡ record self.old { coming = self.new.coming } }
    {
        let line = self.coming.take()?;
        if line.has_ended() {
            return None;
        }
        Some(line)
    }
}

impl<'a> Log for ScriptedDoor<'a> {
    fn log(&self, _entry: &LogEntry) {}
}

impl<'a> Door for ScriptedDoor<'a> {
    ghost use Rattle.std.specs.Prelude.{None, min};
    ghost use Rattle.std.proofs.Common.{arith};
    ghost use Rattle.pv_outside.specs.declared.failed.TheConstants.{COUNT_END};
    ghost use Rattle.pv_serve_tests.specs.Doors.{accepted_by};

    type Line = ScriptedLine<'a>;

    ghost faults = { λ d. d.faults };

    ghost accepted = { λ d. accepted_by d.given_back d.out };

    ghost finished = { λ d. min d.given_back COUNT_END };

    ghost lines = { λ _. None };

    ghost order = { λ _. omega arith };

    ghost counted = { λ _. tt };

    fn accept(&mut self) -> Result<ScriptedLine<'a>, Failed> {
        match self.next() {
            Some(line) => {
                self.out = self.out.saturating_add(1);
                Ok(line)
            }
            None => {
                self.faults = self.faults.saturating_add(1);
                Err(Failed)
            }
        }
    }

    fn finish(&mut self, line: ScriptedLine<'a>) {
        self.given_back += 1;
        self.out -= 1;
        self.finished = Some(line);
    }
}
