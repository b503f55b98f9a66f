ghost use Rattle.std.specs.Prelude.{◌≡◌, ◌≤◌, ℕ, [], ◌∷◌, ◌++◌, List, Some, Option, IfOk, IfSome, MatchOption, MatchResult, OnOk, vec_capacity, false};
ghost use Rattle.pv_charge.specs.declared.line.TheConstants.{LAST_MOMENT};
ghost use Rattle.pv_live.specs.Pass.{Standing};
ghost use Rattle.pv_irc.specs.declared.record.CentreRecord.{CentreRecord};
ghost use Rattle.pv_session.specs.Seat.{state_of};
ghost use Rattle.pv_session.specs.State.{new_call, wish_in};
ghost use Rattle.pv_ports.specs.declared.port.TheConstants.{MAX_MARKS};
ghost use Rattle.pv_ports.specs.Talk.{AnswersKey, step_bytes, marks_with};
ghost use Rattle.pv_session.specs.Callers.{IsCallState};
ghost use Rattle.pv_ports.specs.Ends.{LineState, line_of, OnlyWrites, EmptiesAtEnd, InCall, AwaitsKey, IsServedCall, StepGoesOn, EndsFor, EndsAtStep};
ghost use Rattle.pv_ports.specs.Sending.{Sends};
ghost use Rattle.pv_screen.specs.Painting.{screen_bytes};
ghost use Rattle.pv_session.specs.Messages.{screen_of_blank};
ghost use Rattle.pv_session.specs.declared.message.Message.TheVariants.{KeyAccount};

use crate::end::CallEnd;
use crate::outbox::Outbox;
use crate::port::MAX_MARKS;
use crate::pressing::{Pressing, press};
use crate::read_ahead::ReadAhead;
use pv_group::{GroupRun, Live};
use pv_irc::{CentreRecord, IrcRules};
use pv_live::{LiveFault, Pass, Run};
use pv_node::Rules;
use pv_outside::{Clock, Disk, Failed, Line};
use pv_session::{Seat, Step, Why, Wish, a_call_owes_what_is_its_own};
use pv_wishes::{paid_by, request_of};
use std::sync::Wait;

/// What a port keeps of a call: its seat, its marks, the keys that were read ahead, the screens that are queued, and
/// what it has cost so far.
#[derive(Drop)]
pub(crate) struct Hand {
    pub(crate) at: Pressing,
    pub(crate) marks: Vec<u64>,
    pub(crate) keys: ReadAhead,
    pub(crate) outbox: Outbox,
    pub(crate) pence: u32,
    ghost room: { MAX_MARKS ≤ vec_capacity marks },
}

/// Takes a key, by looks of which one is let in.
fn key<const C: u8, N: Run<CentreRecord>, W: Wait>(
    rt: &W,
    pass: &mut Pass<IrcRules<C>, N>,
    at: &mut Pressing,
    byte: u8,
    moment: u32,
)
    requires { moment ≤ LAST_MOMENT }
    ensures { AnswersKey ⟦<IrcRules<C> as Rules>⟧ N.limits N.opening
        pass.old (state_of at.old.seat) byte moment pass.new (state_of at.new.seat) at.new.step }
{
    set_key(at, byte, moment);
    for _ in rt.forever() {
        if let Ok(()) = press(pass, at) {
            return;
        }
    }
    unreachable!()
}

/// The key that is to be taken.
fn set_key(at: &mut Pressing, byte: u8, moment: u32)
    requires { moment ≤ LAST_MOMENT }
    ensures seat { (at.new.seat ≡ at.old.seat) × (at.new.step ≡ at.old.step) }
    ensures key { (at.new.byte ≡ byte) × (at.new.moment ≡ moment) }
{
    at.byte = byte;
    at.moment = moment;
}

/// Notes a mark at an entry, up to as many as there is room for.
fn note(marks: &mut Vec<u64>, before: u16, after: u16, mark: u64)
    requires { MAX_MARKS ≤ vec_capacity marks.old }
    ensures noted { marks.new.items ≡ marks_with before after mark marks.old.items }
    ensures room { MAX_MARKS ≤ vec_capacity marks.new }
{
    if before != after && marks.len() < MAX_MARKS {
        marks.push_reserved(mark);
    }
}

/// Queues the screen of a step, if it has one. The one that ends a call is written at once.
fn send<L: Line>(line: &mut L, outbox: &mut Outbox, step: &Step) -> Result<(), Failed>
    ensures sent { Sends result (L.written line.old) (L.written line.new)
        (outbox.old ++ step_bytes step.now) outbox.new }
    ensures last { OnOk result (EmptiesAtEnd step.now outbox.new) }
    ensures only { OnlyWrites (line_of L.Source L.Sink line.old) (line_of L.Source L.Sink line.new) result }
{
    match step {
        Step::Show(screen) => outbox.queue(line, screen),
        Step::Ended(_, screen) => {
            outbox.queue(line, screen)?;
            outbox.flush(line)
        }
        Step::Quiet | Step::Owe(_) => Ok(()),
    }
}

/// How the call ends, if the step ends it. The centre has this many records.
fn ending<D: Disk>(step: &Step, count: u64) -> Option<CallEnd<D>>
    ensures { MatchOption result (StepGoesOn step.now) (EndsAtStep step.now count) }
{
    match step {
        Step::Ended(why, _) => Some(ending_for(*why, count)),
        Step::Quiet | Step::Show(_) | Step::Owe(_) => None,
    }
}

/// How the call ends for a reason.
fn ending_for<D: Disk>(why: Why, count: u64) -> CallEnd<D>
    ensures { EndsFor why count result }
{
    match why {
        Why::Finished => CallEnd::Finished,
        Why::Refused => CallEnd::Refused,
        Why::Spent => CallEnd::Spent,
        Why::Full => CallEnd::Full { count },
    }
}

/// Takes a key, and sends the screen of its step.
fn take<const C: u8, N: Run<CentreRecord>, D: Disk, L: Line, W: Wait>(
    rt: &W,
    pass: &mut Pass<IrcRules<C>, N>,
    hand: &mut Hand,
    line: &mut L,
    byte: u8,
    moment: u32,
) -> Option<CallEnd<D>>
    requires { moment ≤ LAST_MOMENT }
    ensures goes { (shown : Option ℕ) (start : Standing CentreRecord) (first : LineState) (rest : List ℕ)
        → IfSome shown (λ m. moment ≡ m)
        → AwaitsKey ⟦<IrcRules<C> as Rules>⟧ N.limits N.opening shown start first
        pass.old (state_of hand.old.at.seat) hand.old.marks.items (byte ∷ rest) hand.old.outbox (line_of L.Source L.Sink line.old)
        → MatchOption result
        (InCall ⟦<IrcRules<C> as Rules>⟧ N.limits N.opening shown start first
        pass.new (state_of hand.new.at.seat) hand.new.marks.items rest hand.new.outbox (line_of L.Source L.Sink line.new))
        (λ end. IsServedCall ⟦<IrcRules<C> as Rules>⟧ N.limits N.opening shown start first pass.new
        hand.new.marks.items (line_of L.Source L.Sink line.new) end) }
    ensures keys { hand.new.keys ≡ hand.old.keys }
    ensures ended { L.ended line.new ≡ L.ended line.old }
{
    a_call_owes_what_is_its_own();
    let entries = hand.at.seat.entries();
    key(rt, pass, &mut hand.at, byte, moment);
    note(
        &mut hand.marks,
        entries,
        hand.at.seat.entries(),
        pass.length(),
    );
    match send(line, &mut hand.outbox, &hand.at.step) {
        Ok(()) => ending(&hand.at.step, pass.length()),
        Err(Failed) => Some(CallEnd::WriteFault),
    }
}

/// What a wish costs once it is stored, in pence.
fn price_of(wish: Wish) -> u32 {
    match wish {
        Wish::Charge(line) => u32::from(line.price),
        Wish::LogOn(_) | Wish::Post(_) | Wish::Remove(..) => 0,
    }
}

/// What is charged once that is stored which a seat owes, in pence.
fn price_owed(seat: &Seat) -> u32 {
    match seat.wish() {
        Some(wish) => price_of(wish),
        None => 0,
    }
}

/// Has stored what the call owes, and queues the screen of the step that comes of it. Nothing is queued before, so that
/// a stop while the centre is asked leaves this wish alone without its screen.
fn store<const C: u8, N: GroupRun<CentreRecord>, D: Disk, H: Wait + Drop, L: Line, W: Wait>(
    rt: &W,
    centre: &Live<IrcRules<C>, D, N, H>,
    pass: &mut Pass<IrcRules<C>, N>,
    hand: &mut Hand,
    line: &mut L,
    wish: Wish,
) -> Option<CallEnd<D>>
    requires written { hand.old.outbox ≡ [] }
    requires owed { Some wish ≡ wish_in (state_of hand.old.at.seat).phase }
    ensures goes { (shown : Option ℕ) (start : Standing CentreRecord) (first : LineState) (rest : List ℕ)
        → InCall ⟦<IrcRules<C> as Rules>⟧ N.limits N.opening shown start first
        pass.old (state_of hand.old.at.seat) hand.old.marks.items rest hand.old.outbox (line_of L.Source L.Sink line.old)
        → MatchOption result
        (AwaitsKey ⟦<IrcRules<C> as Rules>⟧ N.limits N.opening shown start first
        pass.new (state_of hand.new.at.seat) hand.new.marks.items rest hand.new.outbox (line_of L.Source L.Sink line.new))
        (λ end. IsServedCall ⟦<IrcRules<C> as Rules>⟧ N.limits N.opening shown start first pass.new
        hand.new.marks.items (line_of L.Source L.Sink line.new) end) }
    ensures keys { hand.new.keys ≡ hand.old.keys }
    ensures ended { L.ended line.new ≡ L.ended line.old }
{
    a_call_owes_what_is_its_own();
    let price = price_owed(&hand.at.seat);
    match centre.ask(rt, pass, &request_of(wish)) {
        Ok(told) => {
            hand.pence = hand.pence.saturating_add(price);
            let step = hand.at.seat.paid(paid_by(&told.reply));
            match send(line, &mut hand.outbox, &step) {
                Ok(()) => None,
                Err(Failed) => Some(CallEnd::WriteFault),
            }
        }
        Err(LiveFault::Full { count }) => {
            let step = hand.at.seat.turned_away();
            match send(line, &mut hand.outbox, &step) {
                Ok(()) => ending(&step, count),
                Err(Failed) => Some(CallEnd::WriteFault),
            }
        }
        Err(LiveFault::Disk(failure)) => Some(CallEnd::DiskFault(failure)),
        Err(LiveFault::Memory { stored }) => Some(CallEnd::Memory { stored }),
    }
}

/// Has stored what the call owes, if it owes anything. What is queued is written first.
fn owe<const C: u8, N: GroupRun<CentreRecord>, D: Disk, H: Wait + Drop, L: Line, W: Wait>(
    rt: &W,
    centre: &Live<IrcRules<C>, D, N, H>,
    pass: &mut Pass<IrcRules<C>, N>,
    hand: &mut Hand,
    line: &mut L,
) -> Option<CallEnd<D>>
    ensures goes { (shown : Option ℕ) (start : Standing CentreRecord) (first : LineState) (rest : List ℕ)
        → InCall ⟦<IrcRules<C> as Rules>⟧ N.limits N.opening shown start first
        pass.old (state_of hand.old.at.seat) hand.old.marks.items rest hand.old.outbox (line_of L.Source L.Sink line.old)
        → MatchOption result
        (AwaitsKey ⟦<IrcRules<C> as Rules>⟧ N.limits N.opening shown start first
        pass.new (state_of hand.new.at.seat) hand.new.marks.items rest hand.new.outbox (line_of L.Source L.Sink line.new))
        (λ end. IsServedCall ⟦<IrcRules<C> as Rules>⟧ N.limits N.opening shown start first pass.new
        hand.new.marks.items (line_of L.Source L.Sink line.new) end) }
    ensures keys { hand.new.keys ≡ hand.old.keys }
    ensures ended { L.ended line.new ≡ L.ended line.old }
{
    let Some(wish) = hand.at.seat.wish() else {
        return None;
    };
    if let Err(Failed) = hand.outbox.flush(line) {
        return Some(CallEnd::WriteFault);
    }
    store(rt, centre, pass, hand, line, wish)
}

/// Takes a key, and has stored what the call owes then.
fn turn<const C: u8, N: GroupRun<CentreRecord>, D: Disk, H: Wait + Drop, L: Line, W: Wait>(
    rt: &W,
    centre: &Live<IrcRules<C>, D, N, H>,
    pass: &mut Pass<IrcRules<C>, N>,
    hand: &mut Hand,
    line: &mut L,
    byte: u8,
    moment: u32,
) -> Option<CallEnd<D>>
    requires { moment ≤ LAST_MOMENT }
    ensures goes { (shown : Option ℕ) (start : Standing CentreRecord) (first : LineState) (rest : List ℕ)
        → IfSome shown (λ m. moment ≡ m)
        → AwaitsKey ⟦<IrcRules<C> as Rules>⟧ N.limits N.opening shown start first
        pass.old (state_of hand.old.at.seat) hand.old.marks.items (byte ∷ rest) hand.old.outbox (line_of L.Source L.Sink line.old)
        → MatchOption result
        (AwaitsKey ⟦<IrcRules<C> as Rules>⟧ N.limits N.opening shown start first
        pass.new (state_of hand.new.at.seat) hand.new.marks.items rest hand.new.outbox (line_of L.Source L.Sink line.new))
        (λ end. IsServedCall ⟦<IrcRules<C> as Rules>⟧ N.limits N.opening shown start first pass.new
        hand.new.marks.items (line_of L.Source L.Sink line.new) end) }
    ensures keys { hand.new.keys ≡ hand.old.keys }
    ensures ended { L.ended line.new ≡ L.ended line.old }
{
    if let Some(end) = take(rt, pass, hand, line, byte, moment) {
        return Some(end);
    }
    owe(rt, centre, pass, hand, line)
}

/// Reads the next key, or ends the call. The read may wait, so nothing is queued.
fn read_key<const C: u8, N: Run<CentreRecord>, D: Disk, L: Line>(
    hand: &mut Hand,
    line: &mut L,
) -> Result<u8, CallEnd<D>>
    requires goes_on { L.ended line.old ≡ false }
    requires written { hand.old.outbox ≡ [] }
    ensures goes { (shown : Option ℕ) (start pass : Standing CentreRecord) (first : LineState)
        → AwaitsKey ⟦<IrcRules<C> as Rules>⟧ N.limits N.opening shown start first pass
        (state_of hand.old.at.seat) hand.old.marks.items hand.old.keys hand.old.outbox (line_of L.Source L.Sink line.old)
        → MatchResult result
        (λ byte. AwaitsKey ⟦<IrcRules<C> as Rules>⟧ N.limits N.opening shown start first pass
        (state_of hand.new.at.seat) hand.new.marks.items (byte ∷ hand.new.keys) hand.new.outbox (line_of L.Source L.Sink line.new))
        (λ end. IsServedCall ⟦<IrcRules<C> as Rules>⟧ N.limits N.opening shown start first pass
        hand.new.marks.items (line_of L.Source L.Sink line.new) end) }
    ensures ended { IfOk result (λ byte. L.ended line.new ≡ false) }
{
    match hand.keys.next(line) {
        Ok(Some(byte)) => Ok(byte),
        Ok(None) => Err(CallEnd::Hung),
        Err(Failed) => Err(CallEnd::ReadFault),
    }
}

/// The next key, of those that were read ahead or else read now, or the end of the call. What is queued is written
/// before a read.
fn next_key<const C: u8, N: Run<CentreRecord>, D: Disk, L: Line>(
    hand: &mut Hand,
    line: &mut L,
) -> Result<u8, CallEnd<D>>
    requires goes_on { L.ended line.old ≡ false }
    ensures goes { (shown : Option ℕ) (start pass : Standing CentreRecord) (first : LineState)
        → AwaitsKey ⟦<IrcRules<C> as Rules>⟧ N.limits N.opening shown start first pass
        (state_of hand.old.at.seat) hand.old.marks.items hand.old.keys hand.old.outbox (line_of L.Source L.Sink line.old)
        → MatchResult result
        (λ byte. AwaitsKey ⟦<IrcRules<C> as Rules>⟧ N.limits N.opening shown start first pass
        (state_of hand.new.at.seat) hand.new.marks.items (byte ∷ hand.new.keys) hand.new.outbox (line_of L.Source L.Sink line.new))
        (λ end. IsServedCall ⟦<IrcRules<C> as Rules>⟧ N.limits N.opening shown start first pass
        hand.new.marks.items (line_of L.Source L.Sink line.new) end) }
    ensures ended { IfOk result (λ byte. L.ended line.new ≡ false) }
{
    if let Some(byte) = hand.keys.take() {
        return Ok(byte);
    }
    if let Err(Failed) = hand.outbox.flush(line) {
        return Err(CallEnd::WriteFault);
    }
    read_key::<C, N, D, L>(hand, line)
}

/// Takes keys until the call ends.
pub(crate) fn talk<
    const C: u8,
    N: GroupRun<CentreRecord>,
    D: Disk,
    H: Wait + Drop,
    L: Line,
    K: Clock,
    W: Wait,
>(
    rt: &W,
    centre: &Live<IrcRules<C>, D, N, H>,
    pass: &mut Pass<IrcRules<C>, N>,
    hand: &mut Hand,
    line: &mut L,
    clock: &K,
) -> CallEnd<D>
    requires goes_on { L.ended line.old ≡ false }
    ensures { (start : Standing CentreRecord) (first : LineState)
        → AwaitsKey ⟦<IrcRules<C> as Rules>⟧ N.limits N.opening (K.moment clock.now) start first pass.old
        (state_of hand.old.at.seat) hand.old.marks.items hand.old.keys hand.old.outbox (line_of L.Source L.Sink line.old)
        → IsServedCall ⟦<IrcRules<C> as Rules>⟧ N.limits N.opening (K.moment clock.now) start first pass.new
        hand.new.marks.items (line_of L.Source L.Sink line.new) result }
{
    for _ in rt.forever() {
        match next_key::<C, N, D, L>(hand, line) {
            Ok(byte) => {
                if let Some(end) = turn(rt, centre, pass, hand, line, byte, clock.now()) {
                    return end;
                }
            }
            Err(end) => return end,
        }
    }
    unreachable!()
}

/// Begins a call: a new seat, and the screen that asks for the account is queued.
pub(crate) fn dial(hand: &mut Hand)
    ensures seat { state_of hand.new.at.seat ≡ new_call }
    ensures own { IsCallState new_call }
    ensures marks { hand.new.marks.items ≡ [] }
    ensures keys { hand.new.keys ≡ [] }
    ensures outbox { hand.new.outbox ≡ screen_bytes (screen_of_blank KeyAccount) }
{
    a_call_owes_what_is_its_own();
    let (seat, screen) = Seat::dial();
    hand.at.seat = seat;
    hand.pence = 0;
    hand.marks.clear();
    hand.keys.clear();
    hand.outbox.clear();
    hand.outbox.add(&screen);
}
