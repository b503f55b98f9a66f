ghost use Rattle.std.specs.Prelude.{◌≡◌, ℕ, ◌≤◌, true, false, Option};
ghost use Rattle.pv_charge.specs.declared.line.TheConstants.{LAST_MOMENT};
ghost use Rattle.pv_edits.specs.Sight.{View, view_of};
ghost use Rattle.pv_session.specs.declared.entry.Entry.{Entry};
ghost use Rattle.pv_session.specs.Turns.{storing_turn, full_turn};

use pv_edits::Sight;
use pv_page::AccountNo;
use pv_screen::Screen;
use pv_session::{Paid, Seat, Step, Wish};
use std::marker::Model;

/// A call at a port: its seat, and the reply to what was stored for it until the caller is shown it.
#[derive(Debug, Drop)]
pub struct Call {
    seat: Seat,
    stored: Option<Paid>,
}

impl Model for Call {
    ghost use Rattle.pv_session.specs.Seat.{state_of};
    ghost use Rattle.pv_network.specs.Call as Spec;

    ghost Value = { Spec.Call };

    ghost view = { λ c. record { seat = state_of c.seat; stored = c.stored } };
}

impl Call {
    ghost use Rattle.pv_session.specs.Messages.{screen_of_blank};
    ghost use Rattle.pv_session.specs.declared.message.Message.TheVariants.{KeyAccount};
    ghost use Rattle.pv_network.specs.Call.{first_call, is_waiting, wish_to_store, key_turn, IsEntryAt};

    /// A call that begins, and its first screen.
    pub(crate) fn dial() -> (Call, Screen)
        ensures call { result.0 ≡ first_call }
        ensures screen { result.1 ≡ screen_of_blank KeyAccount }
    {
        let (seat, screen) = Seat::dial();
        (Call { seat, stored: None }, screen)
    }

    /// The account that the caller gave.
    pub(crate) fn account(&self) -> Option<AccountNo>
        ensures { result ≡ self.now.seat.account }
    {
        self.seat.account()
    }

    /// Whether something is to be stored, or was stored and is to be shown.
    pub(crate) fn is_waiting(&self) -> bool
        ensures { result ≡ is_waiting self.now }
    {
        self.seat.owes() || self.stored.is_some()
    }

    /// What is to be stored, if something is.
    pub(crate) fn wish_to_store(&self) -> Option<Wish>
        ensures { result ≡ wish_to_store self.now }
    {
        if self.stored.is_some() {
            return None;
        }
        self.seat.wish()
    }

    /// Takes a byte at a moment.
    pub(crate) fn key(&mut self, byte: u8, sight: &Sight, moment: u32) -> Step
        requires { moment ≤ LAST_MOMENT }
        ensures turn { (entry : Option Entry) × IsEntryAt self.old.seat byte entry
            × (self.new
            ≡ record self.old { seat = (key_turn self.old.seat byte (view_of sight.now) moment entry).0 })
            × (result ≡ (key_turn self.old.seat byte (view_of sight.now) moment entry).1) }
    {
        self.seat.key(byte, sight, moment)
    }

    /// Takes a byte if nothing comes of it but that the seat waits for more keys, and returns whether it did. `false` if more
    /// comes of it, and then nothing has changed.
    pub(crate) fn take_quietly(&mut self, byte: u8) -> bool
        ensures turn { result ≡ true → (view : View) (moment : ℕ)
            → (entry : Option Entry) × IsEntryAt self.old.seat byte entry
            × (self.new ≡ record self.old { seat = (key_turn self.old.seat byte view moment entry).0 })
            × (Step.Quiet ≡ (key_turn self.old.seat byte view moment entry).1) }
        ensures same { result ≡ false → self.new ≡ self.old }
    {
        self.seat.take_quietly(byte)
    }

    /// Notes that what is owed was stored, and the reply.
    pub(crate) fn store(&mut self, reply: Paid)
        ensures { self.new ≡ record self.old { stored = Some reply } }
    {
        self.stored = Some(reply);
    }

    /// The seat ends the call, since the centre is full.
    pub(crate) fn turn_away(&mut self) -> Step
        ensures { result ≡ (full_turn self.old.seat self.old.seat.phase).1 }
    {
        self.seat.turned_away()
    }

    /// The reply to what was stored, if the caller is still to be shown it.
    pub(crate) fn stored(&self) -> Option<Paid>
        ensures { result ≡ self.now.stored }
    {
        self.stored
    }

    /// Goes on with the reply to what was stored.
    pub(crate) fn show(&mut self, reply: Paid) -> Step
        ensures after { self.new
            ≡ record { seat = (storing_turn self.old.seat self.old.seat.phase reply).0; stored = None } }
        ensures step { result ≡ (storing_turn self.old.seat self.old.seat.phase reply).1 }
    {
        self.stored = None;
        self.seat.paid(reply)
    }
}
