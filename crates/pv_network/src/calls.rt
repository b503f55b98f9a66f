ghost use Rattle.std.specs.Prelude.{◌≡◌, ℕ, true, false, ◌<◌, ◌≤◌, List, Option, Some, None, length, replicate, slice_set, IfOk};
ghost use Rattle.pv_charge.specs.declared.line.TheConstants.{LAST_MOMENT};
ghost use Rattle.pv_edits.specs.Sight.{View, view_of};
ghost use Rattle.pv_session.specs.Turns.{full_turn};
ghost use Rattle.pv_session.specs.declared.entry.Entry.{Entry};
ghost use Rattle.pv_session.specs.State.{CallState};
ghost use Rattle.pv_network.specs.declared.event.TheConstants.{PORTS};
ghost use Rattle.pv_network.specs.declared.outcome.Outcome.TheVariants as outcomes;
ghost use Rattle.pv_network.specs.Call.{call_of};
ghost use Rattle.pv_network.specs.Call as Spec;
ghost use Rattle.pv_network.specs.Keying.{keys_refusal};
ghost use Rattle.pv_network.specs.Cutting.{wish_of};
ghost use Rattle.pv_network.specs.Calls.{given_account, call_among, call_in, IsDone, turn_at, dial_at, hang_at, press_at, show_at, wish_at, away_answer, IsPortEntry};

use crate::call::Call;
use crate::event::PORTS;
use crate::outcome::{Outcome, Turn};
use pv_edits::Sight;
use pv_page::AccountNo;
use pv_session::{Paid, Step, Wish};
use std::alloc::{AllocError, Global};
use std::marker::Model;

/// The calls at a centre's ports, in room that `open` reserves.
#[derive(Debug, Drop)]
pub struct Calls {
    ports: Vec<Option<Call>>,
}

impl Model for Calls {
    ghost use Rattle.std.specs.Prelude.{◌≡◌, List, Option, length};
    ghost use Rattle.pv_network.specs.declared.event.TheConstants.{PORTS};
    ghost use Rattle.pv_network.specs.Call as Spec;

    ghost Value = { List (Option Spec.Call) };

    ghost view = { λ c. c.ports.items };

    ghost invariant = { λ c. length c.ports.items ≡ PORTS };
}

impl Calls {
    /// The ports of a centre that nobody has called.
    pub(crate) fn open(alloc: Global) -> Result<Calls, AllocError>
        ensures { IfOk result (λ ports. ports ≡ replicate PORTS None) }
    {
        let mut ports = Vec::with_capacity(alloc, PORTS as usize)?;
        for _ in 0..PORTS {
            ports.push(None)?;
        }
        Ok(Calls { ports })
    }

    /// The account that the caller at a port gave.
    pub(crate) fn account(&self, port: usize) -> Option<AccountNo>
        requires { port < PORTS }
        ensures { result ≡ given_account (call_among self.now port) }
    {
        match &self.ports[port] {
            Some(call) => call.account(),
            None => None,
        }
    }

    /// Why no key is taken at a port: there is no call, or it waits. `None` if keys are taken there.
    pub(crate) fn refusal(&self, port: usize) -> Option<Outcome>
        requires { port < PORTS }
        ensures { result ≡ keys_refusal (call_among self.now port) }
    {
        match &self.ports[port] {
            Some(call) if call.is_waiting() => Some(Outcome::Owing),
            Some(_) => None,
            None => Some(Outcome::NoCall),
        }
    }

    /// Begins a call at a port.
    pub(crate) fn dial(&mut self, port: usize) -> Outcome
        requires { port < PORTS }
        ensures { IsDone self.old self.new result (λ calls. dial_at calls port (call_in calls port)) }
    {
        if self.ports[port].is_some() {
            return Outcome::Busy;
        }
        let (call, screen) = Call::dial();
        self.ports[port] = Some(call);
        Outcome::Shown(Turn {
            screen,
            ended: None,
        })
    }

    /// Ends the call at a port.
    pub(crate) fn hang(&mut self, port: usize) -> Outcome
        requires { port < PORTS }
        ensures { IsDone self.old self.new result (λ calls. hang_at calls port (call_in calls port)) }
    {
        if self.ports[port].is_none() {
            return Outcome::NoCall;
        }
        self.ports[port] = None;
        Outcome::Hung
    }

    /// Ends all calls.
    pub(crate) fn end_all(&mut self)
        ensures { self.new ≡ replicate PORTS None }
    {
        free_all(&mut self.ports);
    }

    /// Takes a key at a port at a moment, with what the centre shows to the caller there.
    pub(crate) fn press(&mut self, port: usize, key: u8, sight: &Sight, moment: u32) -> Outcome
        requires port { port < PORTS }
        requires moment { moment ≤ LAST_MOMENT }
        ensures pressed { (entry : Option Entry) × IsPortEntry (call_among self.old port) key entry
            × IsDone self.old self.new result
            (λ calls. press_at calls port key (view_of sight.now) moment entry (call_in calls port)) }
    {
        let Some(call) = &mut self.ports[port] else {
            return Outcome::NoCall;
        };
        if call.is_waiting() {
            return Outcome::Owing;
        }
        let step = call.key(key, sight, moment);
        self.answer(port, step)
    }

    /// Takes a key at a port if nothing comes of it but that the caller's seat waits for more, and returns whether it did. `false`
    /// if more comes of it, and then nothing has changed.
    pub(crate) fn take_quietly(&mut self, port: usize, key: u8) -> bool
        requires { port < PORTS }
        ensures pressed { result ≡ true → (view : View) (moment : ℕ)
            → (entry : Option Entry) × IsPortEntry (call_among self.old port) key entry
            × IsDone self.old self.new outcomes.Quiet
            (λ calls. press_at calls port key view moment entry (call_in calls port)) }
        ensures same { result ≡ false → self.new ≡ self.old }
    {
        let Some(call) = &mut self.ports[port] else {
            return false;
        };
        if call.is_waiting() {
            return false;
        }
        call.take_quietly(key)
    }

    /// What the call at a port is to have stored; or the answer if there is no call, or nothing to be stored for it.
    pub(crate) fn wish(&self, port: usize) -> Result<Wish, Outcome>
        requires { port < PORTS }
        ensures { result ≡ wish_at (call_among self.now port) }
    {
        match &self.ports[port] {
            Some(call) => match call.wish_to_store() {
                Some(wish) => Ok(wish),
                None => Err(Outcome::Nothing),
            },
            None => Err(Outcome::NoCall),
        }
    }

    /// What the call at a port is to have stored. `None` if there is no call, or nothing to be stored for it.
    pub(crate) fn owed(&self, port: usize) -> Option<Wish>
        requires { port < PORTS }
        ensures { result ≡ wish_of (call_among self.now port) }
    {
        match &self.ports[port] {
            Some(call) => call.wish_to_store(),
            None => None,
        }
    }

    /// Notes that what the call at a port owes was stored, and the reply.
    pub(crate) fn note(&mut self, port: usize, reply: Paid) -> Outcome
        requires { port < PORTS }
        ensures noted { (call : Spec.Call) → call_among self.old port ≡ Some call
            → (self.new ≡ slice_set self.old port (Some (record call { stored = Some reply })))
            × (result ≡ outcomes.Stored) }
    {
        let Some(call) = &mut self.ports[port] else {
            return Outcome::NoCall;
        };
        call.store(reply);
        Outcome::Stored
    }

    /// Ends the call at a port, since the centre is full with this many records.
    #[tactic(auto, using(pv_traffic::proofs::CallerLemmas::set_again))]
    pub(crate) fn turn_away(&mut self, port: usize, count: u64) -> Outcome
        requires { port < PORTS }
        ensures away { (call : Spec.Call) → call_among self.old port ≡ Some call
            → (self.new ≡ slice_set self.old port None)
            × (result ≡ away_answer count (full_turn call.seat call.seat.phase).1) }
    {
        let Some(call) = &mut self.ports[port] else {
            return Outcome::NoCall;
        };
        let step = call.turn_away();
        self.ports[port] = None;
        Outcome::away(count, step)
    }

    /// Shows the caller at a port what his call was stored for.
    pub(crate) fn show(&mut self, port: usize) -> Outcome
        requires { port < PORTS }
        ensures { IsDone self.old self.new result (λ calls. show_at calls port (call_in calls port)) }
    {
        let Some(call) = &mut self.ports[port] else {
            return Outcome::NoCall;
        };
        let Some(reply) = call.stored() else {
            return Outcome::Nothing;
        };
        let step = call.show(reply);
        self.answer(port, step)
    }

    /// Answers a step of the call at a port, which is free again after an end.
    #[tactic(auto, using(pv_traffic::proofs::CallerLemmas::set_again))]
    fn answer(&mut self, port: usize, step: Step) -> Outcome
        requires { port < PORTS }
        ensures { (before : List (Option Spec.Call)) (seat : CallState)
            → self.old ≡ slice_set before port (Some (call_of seat))
            → IsDone before self.new result (λ calls. turn_at calls port (seat, step)) }
    {
        match step {
            Step::Quiet => Outcome::Quiet,
            Step::Show(screen) => Outcome::Shown(Turn {
                screen,
                ended: None,
            }),
            Step::Owe(_) => Outcome::Owes,
            Step::Ended(why, screen) => {
                self.ports[port] = None;
                Outcome::Shown(Turn {
                    screen,
                    ended: Some(why),
                })
            }
        }
    }
}

/// No call is at any of these ports.
fn free_all(ports: &mut Vec<Option<Call>>)
    ensures { ports.new.items ≡ replicate (length ports.old.items) None }
{
    for port in ports.iter_mut() {
        *port = None;
    }
}
