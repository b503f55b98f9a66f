ghost use Rattle.std.specs.Prelude.{◌≡◌, ◌<◌, length, replicate, IfOk};
ghost use Rattle.pv_editor.specs.Say.{new_seat};
ghost use Rattle.pv_network.specs.declared.event.TheConstants.{EDITORS};
ghost use Rattle.pv_network.specs.Crashing.{step_of_update_crash, step_of_centre_crash, step_of_crash};
ghost use Rattle.pv_network.specs.Standing.{IsThere, Performs};

use crate::centre::AS_IT_READS;
use crate::event::{EDITORS, NodeName};
use crate::network::Network;
use crate::outcome::Outcome;
use pv_editor::EditorSeat;
use std::alloc::AllocError;

impl Network {
    /// A node is lost, and opened again from its disk. The only error is that memory ran out for that.
    pub(super) fn crash(&mut self, node: NodeName) -> Result<Outcome, AllocError>
        requires { IsThere self.old node }
        ensures performs { IfOk result
            (λ outcome. Performs self.old self.new outcome (λ w. step_of_crash w node)) }
        ensures centres { length self.new.centres ≡ length self.old.centres }
    {
        match node {
            NodeName::Udc => self.crash_update(),
            NodeName::Centre(centre) => self.crash_centre(centre),
        }
    }

    /// The Update Centre is lost, and opened again from its disk. The seats of the editors and the ends that send down
    /// are new.
    fn crash_update(&mut self) -> Result<Outcome, AllocError>
        ensures performs { IfOk result
            (λ outcome. Performs self.old self.new outcome step_of_update_crash) }
        ensures centres { length self.new.centres ≡ length self.old.centres }
    {
        let alloc = *self.centres.allocator();
        self.update.crash(alloc, AS_IT_READS)?;
        self.seats = new_seats();
        self.links.renew_down();
        let count = self.update.count();
        Ok(Outcome::Crashed { count })
    }

    /// A centre is lost, and opened again from its disk. Its calls are over, and its end, which sends items up, is new.
    fn crash_centre(&mut self, centre: u8) -> Result<Outcome, AllocError>
        requires { centre < length self.old.centres }
        ensures performs { IfOk result
            (λ outcome. Performs self.old self.new outcome (λ w. step_of_centre_crash w centre)) }
        ensures centres { length self.new.centres ≡ length self.old.centres }
    {
        let alloc = *self.centres.allocator();
        let outcome = self.centres[centre as usize].crash(alloc)?;
        self.links.renew_up(centre);
        Ok(outcome)
    }
}

/// The seats of the editors, at which nobody is logged on.
pub(super) fn new_seats() -> [EditorSeat; EDITORS as usize]
    ensures { result ≡ replicate EDITORS new_seat }
{
    [EditorSeat::new(); EDITORS as usize]
}
