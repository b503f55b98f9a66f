ghost use Rattle.std.specs.Prelude.{◌≡◌, ◌≤◌, OnOk, OnErr};
ghost use Rattle.pv_charge.specs.declared.line.TheConstants.{LAST_MOMENT};
ghost use Rattle.pv_session.specs.Seat.{state_of};
ghost use Rattle.pv_ports.specs.Talk.{AnswersKey, TurnsAt};

use pv_irc::{CentreRecord, IrcRules, IrcState};
use pv_live::{NotEntered, Pass, Run, Viewer};
use pv_node::Rules;
use pv_session::{Seat, Step};

/// A key at a seat, its moment, and the step that came of it. It is a viewer: the seat takes the key with what its
/// caller may see at the state that is looked at.
#[derive(Clone, Copy)]
pub struct Pressing {
    /// The seat.
    pub seat: Seat,
    /// The key.
    pub byte: u8,
    /// Its moment.
    pub moment: u32,
    /// The last step.
    pub step: Step,
    ghost in_range: { moment ≤ LAST_MOMENT },
}

impl Viewer<IrcState> for Pressing {
    ghost may_become = { λ old state new. TurnsAt state old.seat old.byte old.moment new.seat new.step
        × (new.byte ≡ old.byte) × (new.moment ≡ old.moment) };

    fn view(&mut self, state: &IrcState) {
        // Most keys only wait for more, and then no screen is made.
        if self.seat.take_quietly(self.byte) {
            self.step = Step::Quiet;
            return;
        }
        let account = self.seat.account();
        self.step = self.seat.key(self.byte, &state.sight(account), self.moment);
    }
}

/// Takes a key by one look: the seat's step is that at the records that the pass has seen then.
pub fn press<const C: u8, N: Run<CentreRecord>>(
    pass: &mut Pass<IrcRules<C>, N>,
    at: &mut Pressing,
) -> Result<(), NotEntered>
    ensures turn { OnOk result (AnswersKey ⟦<IrcRules<C> as Rules>⟧ N.limits N.opening
        pass.old (state_of at.old.seat) at.old.byte at.old.moment pass.new (state_of at.new.seat) at.new.step) }
    ensures same { (at.new.byte ≡ at.old.byte) × (at.new.moment ≡ at.old.moment) }
    ensures refused { OnErr result ((pass.new ≡ pass.old) × (at.new ≡ at.old)) }
{
    pass.show(at)?;
    Ok(())
}
