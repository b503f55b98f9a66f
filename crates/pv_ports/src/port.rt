ghost use Rattle.std.specs.Prelude.{◌≡◌, false, [], IfOk};
ghost use Rattle.pv_ports.specs.Ends.{line_of, IsServedCall};

use crate::call::{Hand, dial, talk};
use crate::end::CallEnd;
use crate::log_entry::{LogEnd, LogEntry};
use crate::outbox::Outbox;
use crate::pressing::Pressing;
use crate::read_ahead::ReadAhead;
use pv_group::{GroupRun, Live};
use pv_irc::{CentreRecord, IrcRules};
use pv_live::{Pass, Run};
use pv_node::Rules;
use pv_outside::{Clock, Disk, Line};
use pv_session::{Seat, Step};
use std::alloc::{AllocError, Global};
use std::marker::Model;
use std::sync::Wait;

/// How many marks a port has room for: as many as a call has entries.
pub const MAX_MARKS: usize = 4096;

/// A caller's port: a pass of its centre, and what is kept of a call. Contracts see the pass, and the marks of the
/// last call: how many records the pass had seen at each entry.
#[derive(Drop)]
pub struct CallerPort<const C: u8, N: Run<CentreRecord>> {
    pass: Pass<IrcRules<C>, N>,
    hand: Hand,
}

impl<const C: u8, N: Run<CentreRecord>> Model for CallerPort<C, N> {
    ghost use Rattle.pv_ports.specs.Port.{PortState};

    ghost Value = { PortState };

    ghost view = { λ p. record { pass = p.pass; marks = p.hand.marks.items } };
}

impl<const C: u8, N: Run<CentreRecord>> CallerPort<C, N> {
    /// A port of a pass. Room for all marks and for what is queued is taken here.
    pub fn new(alloc: Global, pass: Pass<IrcRules<C>, N>) -> Result<CallerPort<C, N>, AllocError>
        ensures { IfOk result (λ port. port ≡ record { pass = pass; marks = [] }) }
    {
        let (seat, _) = Seat::dial();
        Ok(CallerPort {
            pass,
            hand: Hand {
                at: Pressing {
                    seat,
                    byte: 0,
                    moment: 0,
                    step: Step::Quiet,
                },
                marks: Vec::with_capacity(alloc, MAX_MARKS)?,
                keys: ReadAhead::new(),
                outbox: Outbox::new(alloc)?,
                pence: 0,
            },
        })
    }

    /// The marks of the last call.
    pub fn marks(&self) -> &[u64]
        ensures { result.now ≡ self.now.marks }
    {
        &self.hand.marks
    }

    /// What a log may have of the last call, which has ended so.
    pub fn log_entry<D: Disk>(&self, end: &CallEnd<D>) -> LogEntry {
        let seat = &self.hand.at.seat;
        LogEntry {
            account: seat.serial().and(seat.account()),
            end: LogEnd::of_call(end),
            screens: self.hand.outbox.made(),
            pence: self.hand.pence,
        }
    }

    /// The pass.
    pub fn into_pass(self) -> Pass<IrcRules<C>, N>
        ensures { result ≡ self.pass }
    {
        let CallerPort { pass, hand: _ } = self;
        pass
    }
}

impl<const C: u8, N: GroupRun<CentreRecord>> CallerPort<C, N> {
    /// Serves a caller over his connection, from the dial to the end of the call.
    pub fn serve_call<D: Disk, H: Wait + Drop, L: Line, K: Clock, W: Wait>(
        &mut self,
        rt: &W,
        centre: &Live<IrcRules<C>, D, N, H>,
        line: &mut L,
        clock: &K,
    ) -> CallEnd<D>
        requires { L.ended line.old ≡ false }
        ensures { IsServedCall ⟦<IrcRules<C> as Rules>⟧ N.limits N.opening (K.moment clock.now) self.old.pass
            (line_of L.Source L.Sink line.old) self.new.pass self.new.marks (line_of L.Source L.Sink line.new) result }
    {
        dial(&mut self.hand);
        talk(rt, centre, &mut self.pass, &mut self.hand, line, clock)
    }
}
