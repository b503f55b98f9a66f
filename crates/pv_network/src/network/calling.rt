ghost use Rattle.std.specs.Prelude.{◌≡◌, true, false, ◌<◌, length};
ghost use Rattle.pv_network.specs.declared.event.TheConstants.{PORTS};
ghost use Rattle.pv_network.specs.declared.outcome.Outcome.TheVariants as outcomes;
ghost use Rattle.pv_network.specs.Calling.{step_of_dial, step_of_store, step_of_show, step_of_hang};
ghost use Rattle.pv_network.specs.Standing.{Performs, Presses};

use crate::laws::seats_keep_their_own;
use crate::network::Network;
use crate::outcome::Outcome;
use pv_irc::letters_wait_by_places;
use pv_nodes::a_centre_shows_what_the_list_shows;

impl Network {
    /// Somebody calls a centre at a port.
    #[inline(never)]
    pub(super) fn dial(&mut self, centre: usize, port: usize) -> Outcome
        requires centre { centre < length self.old.centres }
        requires port { port < PORTS }
        ensures performs { Performs self.old self.new result (λ w. step_of_dial w centre port) }
        ensures centres { length self.new.centres ≡ length self.old.centres }
    {
        seats_keep_their_own();
        self.centres[centre].dial(port)
    }

    /// The caller at a port of a centre keys a byte.
    pub(super) fn press(&mut self, centre: u8, port: usize, key: u8) -> Outcome
        requires centre { centre < length self.old.centres }
        requires port { port < PORTS }
        ensures performs { Presses self.old self.new result centre port key }
        ensures centres { length self.new.centres ≡ length self.old.centres }
    {
        if self.take_quietly(centre, port, key) {
            return Outcome::Quiet;
        }
        self.answer_key(centre, port, key)
    }

    /// The caller at a port of a centre keys a byte. It has the room for a screen, which most keys do not need.
    #[inline(never)]
    pub(super) fn answer_key(&mut self, centre: u8, port: usize, key: u8) -> Outcome
        requires centre { centre < length self.old.centres }
        requires port { port < PORTS }
        ensures performs { Presses self.old self.new result centre port key }
        ensures centres { length self.new.centres ≡ length self.old.centres }
    {
        a_centre_shows_what_the_list_shows();
        letters_wait_by_places();
        seats_keep_their_own();
        let moment = self.moment.seconds();
        self.centres[centre as usize].press(port, key, moment)
    }

    /// The caller at a port of a centre keys a byte, if nothing comes of it but that his seat waits for more; returns whether it
    /// did. `false` if more comes of it, and then nothing has changed.
    pub(super) fn take_quietly(&mut self, centre: u8, port: usize, key: u8) -> bool
        requires centre { centre < length self.old.centres }
        requires port { port < PORTS }
        ensures pressed { result ≡ true → Presses self.old self.new outcomes.Quiet centre port key }
        ensures same { result ≡ false → self.new ≡ self.old }
        ensures centres { length self.new.centres ≡ length self.old.centres }
    {
        a_centre_shows_what_the_list_shows();
        letters_wait_by_places();
        seats_keep_their_own();
        self.centres[centre as usize].take_quietly(port, key)
    }

    /// A centre stores what the call at a port owes.
    #[inline(never)]
    pub(super) fn store(&mut self, centre: usize, port: usize) -> Outcome
        requires centre { centre < length self.old.centres }
        requires port { port < PORTS }
        ensures performs { Performs self.old self.new result (λ w. step_of_store w centre port) }
        ensures centres { length self.new.centres ≡ length self.old.centres }
    {
        a_centre_shows_what_the_list_shows();
        letters_wait_by_places();
        self.centres[centre].store(port)
    }

    /// The caller at a port is shown what his call was stored for.
    #[inline(never)]
    pub(super) fn show(&mut self, centre: usize, port: usize) -> Outcome
        requires centre { centre < length self.old.centres }
        requires port { port < PORTS }
        ensures performs { Performs self.old self.new result (λ w. step_of_show w centre port) }
        ensures centres { length self.new.centres ≡ length self.old.centres }
    {
        seats_keep_their_own();
        self.centres[centre].show(port)
    }

    /// The caller at a port hangs up.
    pub(super) fn hang(&mut self, centre: usize, port: usize) -> Outcome
        requires centre { centre < length self.old.centres }
        requires port { port < PORTS }
        ensures performs { Performs self.old self.new result (λ w. step_of_hang w centre port) }
        ensures centres { length self.new.centres ≡ length self.old.centres }
    {
        self.centres[centre].hang(port)
    }
}
