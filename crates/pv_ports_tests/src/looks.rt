//! A key and a line, each by one look: it is answered from the records of that look, and not of one before it.
ghost use Rattle.std.specs.Prelude.{◌≡◌, None, IfSome};
ghost use Rattle.pv_node.specs.Standing.{StandsFor};
ghost use Rattle.pv_udc.specs.Requests.{IsRequest};

use super::nodes::{LIMITS, apply_first, fresh};
use pv_editor::{EditStep, EditorSeat};
use pv_edits::{EditWish, Record};
use pv_frame::Frame;
use pv_group::{GroupRun, GroupStart, open_live};
use pv_irc::{CentreRecord, IrcRules};
use pv_live::{Pass, Run};
use pv_memory::MemDisk;
use pv_node::{Opened, Rules};
use pv_outside::Reports;
use pv_page::{AccountNo, FrameName};
use pv_ports::{Pressing, answer_line, press};
use pv_session::{Seat, Step};
use pv_udc::{UdcRequest, UdcRules};
use std::alloc::Global;
use std::marker::Brand;
use std::sync::Wait;
use std::test::Fail;

/// What a seat answered to its first key, and to the last key of a password; how many records the pass saw then, and how
/// many looks it made.
#[derive(Clone, Copy, Debug, PartialEq, Eq)]
struct Keyed {
    first_is_quiet: bool,
    last_is_owed: bool,
    length: u64,
    looks: u64,
}

#[test]
fn key_is_answered_from_its_own_look(rt: HostRuntime) -> Result<(), Fail> {
    let centre = fresh::<IrcRules<0>>(rt.alloc(), LIMITS, &[])?;
    let keyed = key_late::<Brand, _>(&rt, rt.alloc(), centre, GroupStart::new(2))?;
    let known = Keyed {
        first_is_quiet: true,
        last_is_owed: true,
        length: 1,
        looks: 14,
    };
    assert_eq!(rt; keyed, known);
    Ok(())
}

/// A seat that has just been dialled.
fn dialled() -> Pressing {
    let (seat, screen) = Seat::dial();
    Pressing {
        seat,
        byte: 0,
        moment: 7,
        step: Step::Show(screen),
    }
}

/// Takes these keys, and returns whether each was let in.
fn press_all<N: Run<CentreRecord>>(
    pass: &mut Pass<IrcRules<0>, N>,
    at: &mut Pressing,
    keys: &[u8],
) -> bool {
    for key in keys {
        at.byte = *key;
        if press(pass, at).is_err() {
            return false;
        }
    }
    true
}

/// The account and the password are keyed but for the last key, the account is applied by another pass, and the last key
/// is keyed.
fn key_late<N: GroupRun<CentreRecord> + Send + Sync, R: Wait>(
    rt: &R,
    alloc: Global,
    centre: Opened<IrcRules<0>, MemDisk>,
    start: GroupStart<CentreRecord>,
) -> Result<Keyed, Fail>
    requires stands { StandsFor ⟦<IrcRules<0> as Rules>⟧ ⟦<MemDisk as Reports>⟧ centre.node N.opening }
    requires rest { (centre.node.hand ≡ None) × (centre.node.state.limits ≡ N.limits) × (2 ≡ N.passes) }
    requires start { start ≡ record {
      book = N.book;
      told = N.told;
      failed = N.failed;
      passes = N.passes;
      taken = N.taken;
    } }
{
    let (live, mut passes) = open_live::<IrcRules<0>, MemDisk, N, &R>(
        rt,
        alloc,
        centre.node,
        2,
        start,
    )?;
    let mut other = passes.pop().ok_or("a pass")?;
    let mut pass = passes.pop().ok_or("a pass")?;
    let mut at = dialled();
    let is_first_in = press_all(&mut pass, &mut at, b"1");
    let first_is_quiet = is_first_in && matches!(at.step, Step::Quiet);
    press_all(&mut pass, &mut at, b"000000001ABC");
    apply_first(rt, &live, &mut other, 1, 0)?;
    press_all(&mut pass, &mut at, b"D");
    Ok(Keyed {
        first_is_quiet,
        last_is_owed: matches!(at.step, Step::Owe(_)),
        length: pass.length(),
        looks: pass.looks(),
    })
}

#[test]
fn line_is_answered_from_its_own_look(rt: HostRuntime) -> Result<(), Fail> {
    let udc = fresh::<UdcRules>(rt.alloc(), LIMITS, &[])?;
    let said = say_late::<Brand, _>(&rt, rt.alloc(), udc, GroupStart::new(2))?;
    assert_eq!(rt; said, (true, true, 1));
    Ok(())
}

/// The operator's first edit: a blank frame.
fn edit() -> Option<UdcRequest>
    ensures { IfSome result (λ request. IsRequest request) }
{
    Some(UdcRequest::Edit {
        editor: AccountNo::of_number(0)?,
        q: 1,
        wish: EditWish::Put {
            name: FrameName::of_text(b"1a")?,
            frame: Frame::blank(),
        },
    })
}

/// Whether a line has this reply.
fn says<N: Run<Record>>(
    pass: &mut Pass<UdcRules, N>,
    seat: &mut EditorSeat,
    line: &[u8],
    reply: &[u8],
) -> bool {
    match answer_line(pass, seat, line) {
        Ok(step) => is_reply(&step, reply),
        Err(_) => false,
    }
}

/// Whether an answer is this reply.
fn is_reply(step: &EditStep, reply: &[u8]) -> bool {
    match step {
        EditStep::Say(text) => text.bytes() == reply,
        _ => false,
    }
}

/// The operator asks for his last edit before he is logged on, and again after another pass has stored his first.
/// Returns whether each reply is right, and how many records his pass saw.
fn say_late<N: GroupRun<Record> + Send + Sync, R: Wait>(
    rt: &R,
    alloc: Global,
    udc: Opened<UdcRules, MemDisk>,
    start: GroupStart<Record>,
) -> Result<(bool, bool, u64), Fail>
    requires stands { StandsFor ⟦<UdcRules as Rules>⟧ ⟦<MemDisk as Reports>⟧ udc.node N.opening }
    requires rest { (udc.node.hand ≡ None) × (udc.node.state.limits ≡ N.limits) × (2 ≡ N.passes) }
    requires start { start ≡ record {
      book = N.book;
      told = N.told;
      failed = N.failed;
      passes = N.passes;
      taken = N.taken;
    } }
{
    let (live, mut passes) = open_live::<UdcRules, MemDisk, N, &R>(rt, alloc, udc.node, 2, start)?;
    let mut other = passes.pop().ok_or("a pass")?;
    let mut pass = passes.pop().ok_or("a pass")?;
    let mut seat = EditorSeat::new();
    let is_refused = says(&mut pass, &mut seat, b"LAST", b"NO 1 LOG ON FIRST");
    says(&mut pass, &mut seat, b"LOGON 0000000000 0000", b"OK");
    let _ = live.ask(rt, &mut other, &edit().ok_or("an edit")?);
    let is_answered = says(&mut pass, &mut seat, b"LAST", b"OK 1");
    Ok((is_refused, is_answered, pass.length()))
}
