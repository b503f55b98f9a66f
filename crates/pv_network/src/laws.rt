//! Laws of all worlds, each the clause of a function that does nothing.

ghost use Rattle.std.specs.Prelude.{◌≡◌, ℕ, ◌+◌, ◌<◌, List, [], ◌∷◌, ◌++◌, length, Some, None};
ghost use Rattle.pv_traffic.specs.Link.{packet_room};
ghost use Rattle.pv_charge.specs.Line.{Charge};
ghost use Rattle.pv_outside.specs.declared.limits.Limits.{Limits};
ghost use Rattle.pv_network.specs.declared.event.Event.{Event};
ghost use Rattle.pv_network.specs.declared.outcome.Outcome.TheVariants.{Carried};
ghost use Rattle.pv_network.specs.Traffic.{no_load, carry_rounds, step_of_carry};
ghost use Rattle.pv_traffic.specs.declared.way.Way.TheVariants as ways;
ghost use Rattle.pv_edits.specs.Edits.{taken_of};
ghost use Rattle.pv_network.specs.World.{World, centre_at, start};
ghost use Rattle.pv_session.specs.declared.message.Message.TheVariants.{KeyAccount};
ghost use Rattle.pv_session.specs.Messages.{screen_of_blank};
ghost use Rattle.pv_network.specs.declared.outcome.Outcome.TheVariants as outcomes;
ghost use Rattle.pv_network.specs.declared.event.Event.TheVariants as events;
ghost use Rattle.pv_network.specs.Step.{Choice, after, happens};
ghost use Rattle.pv_session.specs.Calls.{AreSteps};
ghost use Rattle.pv_session.specs.State.{CallState};
ghost use Rattle.pv_session.specs.declared.step.Step.{Step};
ghost use Rattle.pv_network.specs.Call.{Call, first_call};
ghost use Rattle.pv_network.specs.Calling.{calls_at, call_at, step_of_show};
ghost use Rattle.pv_network.specs.Charging.{line_in_hand, line_at, ShowsFrameOf, OwedLines, IsChargedWorld, SeatLaws};
ghost use Rattle.pv_network.specs.Screens.{AreChoices, call_events, call_turns, steps_turns};
ghost use Rattle.pv_network.specs.OneList.{OneList};
ghost use Rattle.pv_network.specs.Sound.{IsSound};

use pv_session::{a_call_owes_what_is_its_own, a_caller_stays_who_he_is};

/// Whatever happens, in whatever order, the world has one edit list that holds every acknowledged edit once,
/// in order, and each centre has applied a prefix of it. The list is a run from nothing within the limits:
/// each record is one that could be stored after those before it, with a valid frame. The items that were taken
/// up from a centre are the first of its items, each once and in order. Beside this law, each packet carries the
/// list's record or the centre's item of its number.
///
/// For a bookkeeper: each priced frame that a caller is shown has one charge line, and no other frame has one. The
/// centre stored the charge line before it showed the frame. So what is stored of a call is what he was shown, in that
/// order, and at most one line more. That one is in hand: it was stored, and its frame comes next. If the caller hangs
/// up or his centre stops in between, the line stays, and it is the only one that such a stop adds to his call.
pub fn every_reachable_world_is_sound()
    ensures one_list { (centres : ℕ) (limits : Limits) (events : List (Event × Choice))
        → OneList (after (start centres limits) events) }
    ensures sound { (centres : ℕ) (limits : Limits) (events : List (Event × Choice))
        → IsSound (after (start centres limits) events) }

    // What was open in each event is what it can be in the world in which it happens.
    ensures owed { (centres : ℕ) (limits : Limits) (events : List (Event × Choice))
        → AreChoices (start centres limits) events → OwedLines (after (start centres limits) events) }
    ensures charged { (centres : ℕ) (limits : Limits) (events : List (Event × Choice))
        → AreChoices (start centres limits) events → IsChargedWorld (after (start centres limits) events) }
{
    seats_keep_their_own();
}

/// A line in hand is the charge for the frame that its caller is shown next: its name and its price. With that show it
/// is one of the lines of frames that were shown.
pub fn a_line_in_hand_is_for_the_frame_shown_next()
    ensures { (w : World) (c p : ℕ) (call : Call) (line : Charge) → IsSound w → IsChargedWorld w
        → call_at w c p ≡ Some call → line_in_hand call ≡ Some line
        → ShowsFrameOf line (step_of_show w c p).1
        × ((step_of_show w c p).0.shown ≡ w.shown ++ line_at c line ∷ []) }
{}

/// What `pv_session` says of every seat, as one clause.
pub(crate) fn seats_keep_their_own()
    ensures { SeatLaws }
{
    a_call_owes_what_is_its_own();
    a_caller_stays_who_he_is();
}

/// A carry is never cut short: if it could have more rounds than there is room for packets, the world after it and
/// its outcome would be the same.
pub fn a_carry_has_rounds_enough()
    ensures { (w : World) (centre more : ℕ) → centre < length w.links
        → carry_rounds (packet_room w.links + 1 + more) centre w ways.Down no_load ≡ step_of_carry w centre }
{}

/// A carry that says `carried` has brought the centre every record of the edit list, and the Update Centre has taken up
/// every item of the centre.
pub fn a_carried_centre_has_every_record()
    ensures records { (w : World) (centre records items : ℕ) → IsSound w
        → (step_of_carry w centre).1 ≡ Carried records items
        → (centre_at (step_of_carry w centre).0 centre).applied
        ≡ length (step_of_carry w centre).0.update.records }
    ensures items { (w : World) (centre records items : ℕ) → IsSound w
        → (step_of_carry w centre).1 ≡ Carried records items
        → taken_of (step_of_carry w centre).0.update.records centre
        ≡ length (centre_at (step_of_carry w centre).0 centre).calls.items }
{}

/// What a caller is shown from the dial to the end of his call is shown by the steps of his seat, which begins as a new
/// one: steps on his keys, on what he may see as he keys them, and on what his centre stores. So it does not depend on
/// what happens at other ports, or on anything else. That these steps are a function, that what he may see counts
/// at his entries alone, and that a serial changes no screen are laws of `pv_session`.
pub fn caller_is_shown_the_steps_of_his_seat()
    ensures shown { (w : World) (c p : ℕ) (call : Call) (events : List (Event × Choice)) →
        call_at w c p ≡ Some call → AreChoices w events → (steps : List Step) × (last : CallState)
        × AreSteps call.seat (call_events w c p (Some call) events) steps last
        × (call_turns w c p (Some call) events ≡ steps_turns steps) }

    // A dial at a free port shows the first screen, and the call is new.
    ensures begins { (w : World) (c p : ℕ) (choice : Choice) → call_at w c p ≡ None → c < length w.centres
        → p < length (calls_at w c).ports
        → ((happens w (events.Dial c p) choice).1
        ≡ outcomes.Shown (record { screen = screen_of_blank KeyAccount; ended = None }))
        × (call_at (happens w (events.Dial c p) choice).0 c p ≡ Some first_call) }
{}
