//! The log of a server: a line on standard error as each call and each session begins, and one as it ends.
ghost use Rattle.std.specs.Prelude.{◌≡◌};

use jiff::Timestamp;
use pv_files::MachineClock;
use pv_outside::{Clock, Door, Failed};
use pv_ports::LogEntry;
use pv_service::Log;
use std::alloc::{AllocError, AllocGlobal};
use std::io::Eprint;
use std::time;

/// Whose port a door is of.
#[derive(Clone, Copy, Debug)]
pub(crate) enum Place {
    /// The callers' port of this number at this centre.
    Callers { centre: u8, port: u8 },
    /// The editors' port of this number.
    Editors { port: u8 },
}

impl Place {
    /// The port of the next number.
    pub(crate) fn next(self) -> Place {
        match self {
            Place::Callers { centre, port } => Place::Callers {
                centre,
                port: port.saturating_add(1),
            },
            Place::Editors { port } => Place::Editors {
                port: port.saturating_add(1),
            },
        }
    }
}

/// A door that logs on standard error what is served at it, if a log is kept. Contracts see the door within.
#[derive(Drop)]
pub(crate) struct LoggedDoor<'a, R: AllocGlobal + time::Clock + Eprint, O: Door + Drop> {
    rt: &'a R,
    pub(crate) door: O,
    place: Place,
    is_logged: bool,
}

impl<'a, R: AllocGlobal + time::Clock + Eprint, O: Door + Drop> LoggedDoor<'a, R, O> {
    /// This door, which is of the port at that place.
    pub(crate) fn new(rt: &'a R, door: O, place: Place, is_logged: bool) -> LoggedDoor<'a, R, O>
        ensures { result.door ≡ door }
    {
        LoggedDoor {
            rt,
            door,
            place,
            is_logged,
        }
    }

    /// Logs that a call or a session begins.
    fn log_begin(&self) {
        if self.is_logged {
            let _ = self.write("begins");
        }
    }

    /// Logs how a call or a session has ended.
    fn log_end(&self, entry: &LogEntry) -> Result<(), AllocError> {
        let alloc = self.rt.alloc();
        let account = match entry.account {
            Some(account) => format!(in alloc; "account {:010}", account.number())?,
            None => format!(in alloc; "no account")?,
        };
        let end = entry.end.words();
        let count = entry.screens;
        let line = match self.place {
            Place::Callers { .. } => format!(in alloc;
                "ends: {account}, {end}, screens {count}, pence {}",
                entry.pence
            )?,
            Place::Editors { .. } => format!(in alloc; "ends: {account}, {end}, lines {count}")?,
        };
        self.write(line.as_str())
    }

    /// Writes a line, with the moment and the port first. It is one write, so that lines of several threads stay whole.
    fn write(&self, what: &str) -> Result<(), AllocError> {
        let alloc = self.rt.alloc();
        let Ok(moment) = Timestamp::from_second(i64::from(MachineClock::new(self.rt).now())) else {
            return Ok(());
        };
        let line = match self.place {
            Place::Callers { centre, port } => {
                format!(in alloc; "prestel: {moment} centre {centre} port {port} {what}\n")?
            }
            Place::Editors { port } => {
                format!(in alloc; "prestel: {moment} editors port {port} {what}\n")?
            }
        };
        let _ = eprint!(self.rt; "{line}");
        Ok(())
    }
}

impl<'a, R: AllocGlobal + time::Clock + Eprint, O: Door + Drop> Log for LoggedDoor<'a, R, O> {
    fn log(&self, entry: &LogEntry) {
        if self.is_logged {
            let _ = self.log_end(entry);
        }
    }
}

impl<'a, R: AllocGlobal + time::Clock + Eprint, O: Door + Drop> Door for LoggedDoor<'a, R, O> {
    type Line = O::Line;

    ghost faults = { λ d. O.faults d.door };

    ghost accepted = { λ d. O.accepted d.door };

    ghost finished = { λ d. O.finished d.door };

    ghost lines = { λ d. O.lines d.door };

    ghost order = { λ d. O.order d.door };

    ghost counted = { λ d. O.counted d.door };

    fn accept(&mut self) -> Result<O::Line, Failed> {
        let line = self.door.accept()?;
        self.log_begin();
        Ok(line)
    }

    fn finish(&mut self, line: O::Line) {
        self.door.finish(line);
    }
}
