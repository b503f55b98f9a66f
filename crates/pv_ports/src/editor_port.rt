ghost use Rattle.std.specs.Prelude.{◌≡◌, false, [], IfOk};
ghost use Rattle.pv_ports.specs.Ends.{line_of};
ghost use Rattle.pv_ports.specs.SessionEnds.{IsServedSession};

use crate::edit_end::EditEnd;
use crate::log_entry::{LogEnd, LogEntry};
use crate::session::{Desk, begin, converse};
use pv_edits::Record;
use pv_group::{GroupRun, Live};
use pv_live::{Pass, Run};
use pv_node::Rules;
use pv_outside::{Disk, Line};
use pv_udc::UdcRules;
use std::alloc::{AllocError, Global};
use std::marker::Model;
use std::sync::Wait;

/// An editor's port: a pass of the Update Centre, and what is kept of a session. Contracts see the pass, and the marks
/// of the last session: for each line that was answered the place of the record that was stored for it, or else how
/// many records the pass had seen.
#[derive(Drop)]
pub struct EditorPort<N: Run<Record>> {
    pass: Pass<UdcRules, N>,
    desk: Desk,
}

impl<N: Run<Record>> Model for EditorPort<N> {
    ghost use Rattle.pv_ports.specs.Port.{EditorPortState};

    ghost Value = { EditorPortState };

    ghost view = { λ p. record { pass = p.pass; marks = p.desk.marks.items } };
}

impl<N: Run<Record>> EditorPort<N> {
    /// A port of a pass. Room for all marks is taken here.
    pub fn new(alloc: Global, pass: Pass<UdcRules, N>) -> Result<EditorPort<N>, AllocError>
        ensures { IfOk result (λ port. port ≡ record { pass = pass; marks = [] }) }
    {
        Ok(EditorPort {
            pass,
            desk: Desk::new(alloc)?,
        })
    }

    /// The marks of the last session.
    pub fn marks(&self) -> &[u64]
        ensures { result.now ≡ self.now.marks }
    {
        &self.desk.marks
    }

    /// What a log may have of the last session, which has ended so.
    pub fn log_entry<D: Disk>(&self, end: &EditEnd<D>) -> LogEntry {
        LogEntry {
            account: self.desk.seat.account(),
            end: LogEnd::of_session(end),
            screens: self.desk.marks.len(),
            pence: 0,
        }
    }

    /// The pass.
    pub fn into_pass(self) -> Pass<UdcRules, N>
        ensures { result ≡ self.pass }
    {
        let EditorPort { pass, desk: _ } = self;
        pass
    }
}

impl<N: GroupRun<Record>> EditorPort<N> {
    /// Serves an editor over his connection, from its first byte to the end of the session.
    pub fn serve_editor<D: Disk, H: Wait + Drop, L: Line, W: Wait>(
        &mut self,
        rt: &W,
        udc: &Live<UdcRules, D, N, H>,
        line: &mut L,
    ) -> EditEnd<D>
        requires { L.ended line.old ≡ false }
        ensures { IsServedSession ⟦<UdcRules as Rules>⟧ N.limits N.opening self.old.pass
            (line_of L.Source L.Sink line.old) self.new.pass self.new.marks (line_of L.Source L.Sink line.new) result }
    {
        begin(&mut self.desk);
        converse(rt, udc, &mut self.pass, &mut self.desk, line)
    }
}
