ghost use Rattle.std.specs.Prelude.{◌≡◌, ◌≤◌, ◌+◌, [], ◌++◌, IfOk, OnOk, length};
ghost use Rattle.pv_outside.specs.Sink.{Writes};
ghost use Rattle.pv_screen.specs.Painting.{screen_bytes};
ghost use Rattle.pv_screen.specs.declared.painting.TheConstants.{LONGEST};
ghost use Rattle.pv_ports.specs.Ends.{line_of, OnlyWrites};
ghost use Rattle.pv_ports.specs.Sending.{Sends};
ghost use Rattle.pv_ports.specs.declared.outbox.TheConstants.{OUTBOX};

use pv_outside::{Failed, Line};
use pv_screen::{BUFFER, LONGEST, Screen};
use std::alloc::{AllocError, Global};
use std::marker::Model;

/// How many bytes are queued at most: at least four screens.
pub(crate) const OUTBOX: usize = 8192;

/// Screens that were made and are still to be written, so that those of one read go out in one write. Contracts see
/// their bytes.
#[derive(Drop)]
pub(crate) struct Outbox {
    bytes: Vec<u8>,
    screen: [u8; BUFFER],
    made: usize,
}

impl Model for Outbox {
    ghost use Rattle.std.specs.Prelude.{◌≤◌, ℕ, List, vec_len, vec_capacity};
    ghost use Rattle.pv_ports.specs.declared.outbox.TheConstants.{OUTBOX};

    ghost Value = { List ℕ };

    ghost view = { λ o. o.bytes.items };

    ghost invariant = { λ o. (vec_len o.bytes ≤ OUTBOX) × (OUTBOX ≤ vec_capacity o.bytes) };
}

impl Outbox {
    /// Nothing is queued. Its room is taken here.
    pub(crate) fn new(alloc: Global) -> Result<Outbox, AllocError>
        ensures { IfOk result (λ outbox. outbox ≡ []) }
    {
        Ok(Outbox {
            bytes: Vec::with_capacity(alloc, OUTBOX)?,
            screen: [0; BUFFER],
            made: 0,
        })
    }

    /// Forgets what is queued, and counts screens from 0 again.
    pub(crate) fn clear(&mut self)
        ensures { self.new ≡ [] }
    {
        self.bytes.clear();
        self.made = 0;
    }

    /// How many screens were queued since it was cleared.
    pub(crate) fn made(&self) -> usize {
        self.made
    }

    /// Queues a screen, for which there is room.
    pub(crate) fn add(&mut self, screen: &Screen)
        requires { length self.old + LONGEST ≤ OUTBOX }
        ensures { self.new ≡ self.old ++ screen_bytes screen.now }
    {
        let count = screen.bytes(&mut self.screen);
        self.bytes.extend_from_slice(&self.screen[..count]).unwrap();
        self.made = self.made.saturating_add(1);
    }

    /// Writes all that is queued, in one write.
    pub(crate) fn flush<L: Line>(&mut self, line: &mut L) -> Result<(), Failed>
        ensures written { Writes (L.written line.old) (L.written line.new) result self.old }
        ensures emptied { self.new ≡ [] }
        ensures only { OnlyWrites (line_of L.Source L.Sink line.old)
            (line_of L.Source L.Sink line.new) result }
    {
        if self.bytes.is_empty() {
            return Ok(());
        }
        let done = line.say(&self.bytes);
        self.bytes.clear();
        done
    }

    /// Has room for a screen more: if there was none, all that is queued is written.
    fn make_room<L: Line>(&mut self, line: &mut L) -> Result<(), Failed>
        ensures sent { Sends result (L.written line.old) (L.written line.new) self.old self.new }
        ensures room { OnOk result (length self.new + LONGEST ≤ OUTBOX) }
        ensures only { OnlyWrites (line_of L.Source L.Sink line.old)
            (line_of L.Source L.Sink line.new) result }
    {
        if self.bytes.len() + LONGEST <= OUTBOX {
            return Ok(());
        }
        self.flush(line)
    }

    /// Queues a screen.
    pub(crate) fn queue<L: Line>(&mut self, line: &mut L, screen: &Screen) -> Result<(), Failed>
        ensures sent { Sends result (L.written line.old) (L.written line.new)
            (self.old ++ screen_bytes screen.now) self.new }
        ensures only { OnlyWrites (line_of L.Source L.Sink line.old)
            (line_of L.Source L.Sink line.new) result }
    {
        self.make_room(line)?;
        self.add(screen);
        Ok(())
    }
}
