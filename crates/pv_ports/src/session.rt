ghost use Rattle.std.specs.Prelude.{◌≡◌, ◌≤◌, ◌<◌, ℕ, [], ◌∷◌, List, MatchOption, IsErr, length, vec_capacity, false, IfOk};
ghost use Rattle.pv_outside.specs.Counts.{Rose};
ghost use Rattle.pv_outside.specs.Sink.{Writes};
ghost use Rattle.pv_edits.specs.declared.record.Record.{Record};
ghost use Rattle.pv_live.specs.Pass.{Standing};
ghost use Rattle.pv_editor.specs.Say.{new_seat};
ghost use Rattle.pv_ports.specs.Ends.{LineState, line_of};
ghost use Rattle.pv_ports.specs.Typing.{ended_line};
ghost use Rattle.pv_ports.specs.Session.{is_session_over};
ghost use Rattle.pv_ports.specs.SessionEnds.{InSession, IsServedSession, end_if_cut};
ghost use Rattle.pv_ports.specs.declared.session.TheConstants.{MAX_LINES};
ghost use Rattle.pv_ports.specs.declared.typing.TheConstants.{KEPT, NEWLINE};

use crate::edit_end::EditEnd;
use crate::read_ahead::ReadAhead;
use crate::typing::{KEPT, NEWLINE, keep};
use crate::verdict::exchange;
use pv_editor::{EditorSeat, ROOM, Text};
use pv_edits::Record;
use pv_group::{GroupRun, Live};
use pv_live::Pass;
use pv_node::Rules;
use pv_outside::{Disk, Failed, Line};
use pv_udc::UdcRules;
use std::alloc::{AllocError, Global};
use std::sync::Wait;

/// How many lines a session may have.
pub const MAX_LINES: usize = 4096;

/// How many bytes a session may have.
pub const MAX_BYTES: u32 = 1_000_000;

/// What a port keeps of a session: its seat and its marks; what is kept of the line that has no end yet; how many bytes
/// were taken; and those that were read ahead.
#[derive(Drop)]
pub(crate) struct Desk {
    pub(crate) seat: EditorSeat,
    pub(crate) marks: Vec<u64>,
    pub(crate) kept: Vec<u8>,
    pub(crate) taken: u32,
    pub(crate) ahead: ReadAhead,
    ghost room: { MAX_LINES ≤ vec_capacity marks },
    ghost kept_room: { KEPT ≤ vec_capacity kept },
}

impl Desk {
    /// A desk before its first session. Room for all marks is taken here.
    pub(crate) fn new(alloc: Global) -> Result<Desk, AllocError>
        ensures { IfOk result (λ desk. desk.marks.items ≡ []) }
    {
        Ok(Desk {
            seat: EditorSeat::new(),
            marks: Vec::with_capacity(alloc, MAX_LINES)?,
            kept: Vec::with_capacity(alloc, KEPT)?,
            taken: 0,
            ahead: ReadAhead::new(),
        })
    }

    /// Whether the session has had as many lines or bytes as it may have.
    fn is_over(&self) -> bool
        ensures { result ≡ is_session_over (length self.now.marks.items) self.now.taken }
    {
        MAX_LINES <= self.marks.len() || MAX_BYTES <= self.taken
    }
}

/// Begins a session: a new seat.
pub(crate) fn begin(desk: &mut Desk)
    ensures seat { desk.new.seat ≡ new_seat }
    ensures marks { desk.new.marks.items ≡ [] }
    ensures kept { desk.new.kept.items ≡ [] }
    ensures taken { desk.new.taken ≡ 0 }
    ensures ahead { desk.new.ahead ≡ [] }
{
    desk.seat = EditorSeat::new();
    desk.marks.clear();
    desk.kept.clear();
    desk.taken = 0;
    desk.ahead.clear();
}

/// Sends a reply with its end, in one write.
fn send<L: Line>(line: &mut L, text: &Text) -> Result<(), Failed>
    ensures written { Writes (L.written line.old) (L.written line.new) result (ended_line text.now) }
    ensures failed { IsErr result → Rose (L.write_faults line.old) (L.write_faults line.new) }
    ensures counted { L.write_faults line.old ≤ L.write_faults line.new }

    // Nothing is read.
    ensures taken { L.taken line.new ≡ L.taken line.old }
    ensures ended { L.ended line.new ≡ L.ended line.old }
    ensures read_faults { L.read_faults line.old ≤ L.read_faults line.new }
{
    let text = text.bytes();
    let mut bytes = [NEWLINE; ROOM + 1];
    bytes[..text.len()].copy_from_slice(text);
    line.say(&bytes[..text.len() + 1])
}

/// How a session ends whose last reply was not written.
fn cut_off<D: Disk>(end: Option<EditEnd<D>>) -> EditEnd<D>
    ensures { result ≡ end_if_cut end }
{
    match end {
        None | Some(EditEnd::Closed) => EditEnd::WriteFault,
        Some(end) => end,
    }
}

/// The line has its end: takes it, and sends the reply.
fn answer<N: GroupRun<Record>, D: Disk, H: Wait + Drop, L: Line, W: Wait>(
    rt: &W,
    udc: &Live<UdcRules, D, N, H>,
    pass: &mut Pass<UdcRules, N>,
    desk: &mut Desk,
    line: &mut L,
) -> Option<EditEnd<D>>
    requires { is_session_over (length desk.old.marks.items) desk.old.taken ≡ false }
    ensures goes { (start : Standing Record) (first : LineState) (rest : List ℕ)
        → InSession ⟦<UdcRules as Rules>⟧ N.limits N.opening start first pass.old desk.old.seat
        desk.old.marks.items desk.old.kept.items desk.old.taken (NEWLINE ∷ rest) (line_of L.Source L.Sink line.old)
        → MatchOption result
        (InSession ⟦<UdcRules as Rules>⟧ N.limits N.opening start first pass.new desk.new.seat
        desk.new.marks.items desk.new.kept.items desk.new.taken rest (line_of L.Source L.Sink line.new))
        (λ end. IsServedSession ⟦<UdcRules as Rules>⟧ N.limits N.opening start first pass.new
        desk.new.marks.items (line_of L.Source L.Sink line.new) end) }
    ensures ahead { desk.new.ahead ≡ desk.old.ahead }
    ensures ended { L.ended line.new ≡ L.ended line.old }
{
    let reply = exchange(rt, udc, pass, &mut desk.seat, &desk.kept);
    desk.marks.push_reserved(reply.mark);
    desk.kept.clear();
    desk.taken += 1;
    match send(line, &reply.text) {
        Ok(()) => reply.end,
        Err(Failed) => Some(cut_off(reply.end)),
    }
}

/// Takes a byte of a line, which may be its end.
fn take<N: GroupRun<Record>, D: Disk, H: Wait + Drop, L: Line, W: Wait>(
    rt: &W,
    udc: &Live<UdcRules, D, N, H>,
    pass: &mut Pass<UdcRules, N>,
    desk: &mut Desk,
    line: &mut L,
    byte: u8,
) -> Option<EditEnd<D>>
    requires { is_session_over (length desk.old.marks.items) desk.old.taken ≡ false }
    ensures goes { (start : Standing Record) (first : LineState) (rest : List ℕ)
        → InSession ⟦<UdcRules as Rules>⟧ N.limits N.opening start first pass.old desk.old.seat
        desk.old.marks.items desk.old.kept.items desk.old.taken (byte ∷ rest) (line_of L.Source L.Sink line.old)
        → MatchOption result
        (InSession ⟦<UdcRules as Rules>⟧ N.limits N.opening start first pass.new desk.new.seat
        desk.new.marks.items desk.new.kept.items desk.new.taken rest (line_of L.Source L.Sink line.new))
        (λ end. IsServedSession ⟦<UdcRules as Rules>⟧ N.limits N.opening start first pass.new
        desk.new.marks.items (line_of L.Source L.Sink line.new) end) }
    ensures ahead { desk.new.ahead ≡ desk.old.ahead }
    ensures ended { L.ended line.new ≡ L.ended line.old }
{
    if byte == NEWLINE {
        return answer(rt, udc, pass, desk, line);
    }
    keep(&mut desk.kept, byte);
    desk.taken += 1;
    None
}

/// Takes lines until the session ends.
pub(crate) fn converse<N: GroupRun<Record>, D: Disk, H: Wait + Drop, L: Line, W: Wait>(
    rt: &W,
    udc: &Live<UdcRules, D, N, H>,
    pass: &mut Pass<UdcRules, N>,
    desk: &mut Desk,
    line: &mut L,
) -> EditEnd<D>
    requires goes_on { L.ended line.old ≡ false }
    ensures { (start : Standing Record) (first : LineState)
        → InSession ⟦<UdcRules as Rules>⟧ N.limits N.opening start first pass.old desk.old.seat
        desk.old.marks.items desk.old.kept.items desk.old.taken desk.old.ahead (line_of L.Source L.Sink line.old)
        → IsServedSession ⟦<UdcRules as Rules>⟧ N.limits N.opening start first pass.new
        desk.new.marks.items (line_of L.Source L.Sink line.new) result }
{
    for _ in rt.forever() {
        if desk.is_over() {
            return EditEnd::Spent;
        }
        match desk.ahead.next(line) {
            Ok(Some(byte)) => {
                if let Some(end) = take(rt, udc, pass, desk, line, byte) {
                    return end;
                }
            }
            Ok(None) => return EditEnd::Hung,
            Err(Failed) => return EditEnd::ReadFault,
        }
    }
    unreachable!()
}
