ghost use Rattle.std.specs.Prelude.{◌≡◌, ◌<◌, Some, None, length, IfOk, IfSome, OnOk};
ghost use Rattle.pv_network.specs.declared.event.TheConstants.{PORTS};
ghost use Rattle.pv_network.specs.Keying.{step_of_payment};
ghost use Rattle.pv_network.specs.Standing.{Performs, IsNotation, TakesKey, TakesKeys, AnswersKeys};

use crate::network::Network;
use crate::outcome::Outcome;
use crate::turns::Turns;
use pv_cells::first_byte;
use std::alloc::AllocError;

impl Network {
    /// The caller at a port of a centre keys bytes, which this text is the notation of. Each is pressed, and what it
    /// owes is stored and shown at once. After the end of the call no byte is read. The only error is that memory ran
    /// out for the list of screens.
    pub(super) fn keys(
        &mut self,
        centre: u8,
        port: usize,
        text: &[u8],
    ) -> Result<Outcome, AllocError>
        requires centre { centre < length self.old.centres }
        requires port { port < PORTS }
        requires notation { IsNotation text.now }
        ensures performs { IfOk result
            (λ outcome. AnswersKeys self.old self.new outcome centre port text.now) }
        ensures centres { length self.new.centres ≡ length self.old.centres }
    {
        if let Some(outcome) = self.centres[centre as usize].refusal(port) {
            return Ok(outcome);
        }
        let mut turns = Turns::new(*self.centres.allocator());
        self.key_all(centre, port, text, &mut turns)?;
        Ok(turns.answer())
    }

    /// Takes all bytes of a notation at a port, up to the end of the call, and adds the screens that they show.
    fn key_all(
        &mut self,
        centre: u8,
        port: usize,
        text: &[u8],
        turns: &mut Turns,
    ) -> Result<(), AllocError>
        requires centre { centre < length self.old.centres }
        requires port { port < PORTS }
        requires notation { IsNotation text.now }
        ensures performs { OnOk result
            (TakesKeys self.old self.new turns.old turns.new centre port text.now) }
        ensures centres { length self.new.centres ≡ length self.old.centres }
    {
        let mut rest = text;
        while let Some((byte, later)) = first_byte(rest) {
            if self.key(centre, port, byte, turns)? {
                return Ok(());
            }
            rest = later;
        }
        Ok(())
    }

    /// Takes a byte at a port; what it owes is stored and shown at once. Adds the screen that it shows, and returns
    /// whether the call ended. The outcome stays here: it has about a thousand bytes, and most keys show nothing.
    fn key(
        &mut self,
        centre: u8,
        port: usize,
        byte: u8,
        turns: &mut Turns,
    ) -> Result<bool, AllocError>
        requires centre { centre < length self.old.centres }
        requires port { port < PORTS }
        ensures performs { IfOk result
            (λ over. TakesKey self.old self.new turns.old turns.new over centre port byte) }
        ensures centres { length self.new.centres ≡ length self.old.centres }
    {
        if self.take_quietly(centre, port, byte) {
            return Ok(false);
        }
        let pressed = self.answer_key(centre, port, byte);
        if pressed.is_owes() {
            let paid = self.pay(centre as usize, port);
            return turns.take(&paid);
        }
        turns.take(&pressed)
    }

    /// Stores what the call at a port owes, and shows it, if the centre has room.
    fn pay(&mut self, centre: usize, port: usize) -> Outcome
        requires centre { centre < length self.old.centres }
        requires port { port < PORTS }
        ensures performs { Performs self.old self.new result (λ w. step_of_payment w centre port) }
        ensures centres { length self.new.centres ≡ length self.old.centres }
    {
        let stored = self.store(centre, port);
        if stored.is_storing() {
            self.show(centre, port)
        } else {
            stored
        }
    }
}
