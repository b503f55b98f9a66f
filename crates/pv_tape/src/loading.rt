//! The lines of a tape that was checked, one by one.
ghost use Rattle.std.specs.Prelude.{◌≡◌, ◌+◌, ◌^◌, ◌-◌, ◌<◌, ◌≤◌, List, length, Some, None, true, OnOk, IfErr};
ghost use Rattle.pv_edits.specs.Room.{has_editor};
ghost use Rattle.pv_udc.specs.Judgement.{next_number};
ghost use Rattle.pv_words.specs.Lines.{lines_of};
ghost use Rattle.pv_tape.specs.Lines.{IsTapeLine};
ghost use Rattle.pv_tape.specs.Loading.{last_number_of, wanted_records, asked_records, asked_by_line, asked_by_wish, numbers_after_edit, numbers_after_wish, progress_after, GainsAll, LeavesPrefix, CanAsk, IsLineOn, IsLineDone, IsLineStop, IsLoadEnd, IsTooHigh};
ghost use Rattle.pv_tape.specs.Tape.{TapeEdit, AreGood, IsTape, second_line, wish_on_line};
ghost use Rattle.pv_tape.specs.declared.head.TheConstants.{LAST_FIRST};
ghost use Rattle.pv_tape.specs.declared.line.TapeLine.{TapeLine};
ghost use Rattle.pv_input.specs.declared.text.TheConstants.{LONGEST_TEXT};

use crate::asking::ask_edit;
use crate::checking::SECOND_LINE;
use crate::end::TapeEnd;
use crate::head::Head;
use crate::line::{TapeLine, tape_line_of};
use crate::making::{advance, wish_on_line};
use crate::progress::{Numbers, Progress};
use pv_account::AccountNo;
use pv_edits::EditWish;
use pv_node::{Node, Rules};
use pv_outside::{Disk, Reports};
use pv_udc::{UdcRules, UdcState};
use pv_words::first_line;

/// Asks for the edits of a tape that was checked. The node has nothing in hand.
pub(crate) fn load<D: Disk>(node: &mut Node<UdcRules, D>, head: &Head, text: &[u8]) -> TapeEnd<D>
    requires hand { node.old.hand ≡ None }
    requires some { 0 < length text.now }
    requires within { length text.now ≤ LONGEST_TEXT }
    requires first { head.now.first ≤ LAST_FIRST }

    // The asking ends so, and a crash at any moment of it leaves a prefix of what is asked for.
    ensures ends { (edits : List TapeEdit) → IsTape text.now head.now edits
        → IsLoadEnd D.Reports node.old.journal.disk node.new
        (GainsAll ⟦<UdcRules as Rules>⟧ D.Reports node.old node.new) node.old.state.records head.now edits result }
    ensures moments { (edits : List TapeEdit) → IsTape text.now head.now edits
        → LeavesPrefix ⟦<UdcRules as Rules>⟧ D.Reports node.old node.new
        (wanted_records node.old.state.records head.now edits) }

    // If the first number is above the account's next, the first edit is refused.
    ensures ahead { (edits : List TapeEdit) → IsTape text.now head.now edits
        → has_editor node.old.state.records head.now.account ≡ true
        → next_number node.old.state.records head.now.account < head.now.first
        → IsTooHigh node.old.state.records head.now edits result }
{
    let (_, rest) = first_line(text);
    load_lines(node, head, rest)
}

/// Asks for the edits of the lines after a tape's first.
fn load_lines<D: Disk>(node: &mut Node<UdcRules, D>, head: &Head, text: &[u8]) -> TapeEnd<D>
    requires hand { node.old.hand ≡ None }
    requires within { length text.now ≤ LONGEST_TEXT }
    requires first { head.now.first ≤ LAST_FIRST }

    // The asking ends so, and a crash at any moment of it leaves a prefix of what is asked for.
    ensures ends { (edits : List TapeEdit) → AreGood None second_line (lines_of text.now) edits
        → IsLoadEnd D.Reports node.old.journal.disk node.new
        (GainsAll ⟦<UdcRules as Rules>⟧ D.Reports node.old node.new) node.old.state.records head.now edits result }
    ensures moments { (edits : List TapeEdit) → AreGood None second_line (lines_of text.now) edits
        → LeavesPrefix ⟦<UdcRules as Rules>⟧ D.Reports node.old node.new
        (wanted_records node.old.state.records head.now edits) }
    ensures ahead { (edits : List TapeEdit) → AreGood None second_line (lines_of text.now) edits
        → has_editor node.old.state.records head.now.account ≡ true
        → next_number node.old.state.records head.now.account < head.now.first
        → IsTooHigh node.old.state.records head.now edits result }
{
    let mut progress = first_progress(node.state(), head);
    let mut rest = text;
    while !rest.is_empty() {
        let (line, later) = first_line(rest);
        let line = checked_line(line);
        match load_line(node, head.account, &mut progress, &line) {
            Ok(()) => rest = later,
            Err(end) => return end,
        }
    }
    TapeEnd::Done {
        stored: progress.numbers.stored,
        skipped: progress.numbers.next - head.first - progress.numbers.stored,
    }
}

/// How far a run of a tape is before its second line.
fn first_progress(state: &UdcState, head: &Head) -> Progress
    ensures { result ≡ record {
      working = None;
      line = second_line;
      numbers = record {
        next = head.now.first;
        last = last_number_of state.now.records head.now.account;
        stored = 0;
      };
    } }
{
    Progress {
        working: None,
        line: SECOND_LINE,
        numbers: Numbers {
            next: head.first,
            last: last_number_of(state, head.account),
            stored: 0,
        },
    }
}

/// An editor's last number, 0 at first.
fn last_number_of(state: &UdcState, editor: AccountNo) -> u32
    ensures { result ≡ last_number_of state.now.records editor }
{
    match state.base().last(editor) {
        Some((q, _)) => q,
        None => 0,
    }
}

/// What a line of a tape says that was checked.
fn checked_line(text: &[u8]) -> TapeLine
    ensures { (line : TapeLine) → IsTapeLine text.now line → result ≡ line }
{
    match tape_line_of(text) {
        Some(line) => line,
        // A line that was checked says something.
        None => TapeLine::Comment,
    }
}

/// Does a line of a tape.
fn load_line<D: Disk>(
    node: &mut Node<UdcRules, D>,
    account: AccountNo,
    progress: &mut Progress,
    line: &TapeLine,
) -> Result<(), TapeEnd<D>>
    requires hand { node.old.hand ≡ None }
    requires last { progress.old.numbers.last ≡ last_number_of node.old.state.records account }
    requires lines { progress.old.line < 2 ^ 32 - 1 }
    requires numbers { progress.old.numbers.next < 2 ^ 32 - 1 }
    requires stored { progress.old.numbers.stored < 2 ^ 32 - 1 }

    // The line is done.
    ensures ok { OnOk result (progress.new ≡ progress_after progress.old line.now) }
    ensures on { OnOk result (IsLineOn progress.old progress.new) }
    ensures records { OnOk result (GainsAll ⟦<UdcRules as Rules>⟧ D.Reports node.old node.new
        (asked_by_line account progress.old line.now)) }
    ensures hand { OnOk result (node.new.hand ≡ None) }
    ensures last { OnOk result (progress.new.numbers.last ≡ last_number_of node.new.state.records account) }

    // An edit that was asked for was to be stored.
    ensures done { OnOk result (IsLineDone ⟦<UdcRules as Rules>⟧ D.Reports node.old node.new account
        progress.old.numbers (wish_on_line progress.old.working line.now)) }

    // Or it is not, for the reason that is returned.
    ensures stopped { IfErr result
        (IsLineStop ⟦<UdcRules as Rules>⟧ D.Reports node.old node.new account progress.old.line
        progress.old.numbers (wish_on_line progress.old.working line.now)) }

    // A crash at any moment leaves the records, perhaps with what the line asks for. The limits stay.
    ensures moments { LeavesPrefix ⟦<UdcRules as Rules>⟧ D.Reports node.old node.new
        (asked_by_line account progress.old line.now) }
    ensures limits { node.new.state.limits ≡ node.old.state.limits }
    ensures counted { D.faults node.old.journal.disk ≤ D.faults node.new.journal.disk }
{
    let wish = wish_on_line(&progress.working, line);
    load_wish(node, account, progress.line, &mut progress.numbers, wish)?;
    advance(&mut progress.working, line);
    progress.line += 1;
    Ok(())
}

/// Asks for the edit of a line, if it has one.
fn load_wish<D: Disk>(
    node: &mut Node<UdcRules, D>,
    account: AccountNo,
    line: u32,
    numbers: &mut Numbers,
    wish: Option<EditWish>,
) -> Result<(), TapeEnd<D>>
    requires hand { node.old.hand ≡ None }
    requires last { numbers.old.last ≡ last_number_of node.old.state.records account }
    requires numbers { numbers.old.next < 2 ^ 32 - 1 }
    requires stored { numbers.old.stored < 2 ^ 32 - 1 }

    // It is done with.
    ensures ok { OnOk result (numbers.new ≡ numbers_after_wish numbers.old wish) }
    ensures records { OnOk result (GainsAll ⟦<UdcRules as Rules>⟧ D.Reports node.old node.new
        (asked_by_wish account numbers.old wish)) }
    ensures hand { OnOk result (node.new.hand ≡ None) }
    ensures last { OnOk result (numbers.new.last ≡ last_number_of node.new.state.records account) }
    ensures done { OnOk result (IsLineDone ⟦<UdcRules as Rules>⟧ D.Reports node.old node.new account
        numbers.old wish) }

    // Or it is not, for the reason that is returned.
    ensures stopped { IfErr result (IsLineStop ⟦<UdcRules as Rules>⟧ D.Reports node.old node.new account
        line numbers.old wish) }

    // A crash at any moment leaves the records, perhaps with it. The limits stay.
    ensures moments { LeavesPrefix ⟦<UdcRules as Rules>⟧ D.Reports node.old node.new
        (asked_by_wish account numbers.old wish) }
    ensures limits { node.new.state.limits ≡ node.old.state.limits }
    ensures counted { D.faults node.old.journal.disk ≤ D.faults node.new.journal.disk }
{
    match wish {
        Some(wish) => load_edit(node, account, line, numbers, wish),
        None => Ok(()),
    }
}

/// Asks for an edit of a tape, or skips it if its number is at most the account's last.
fn load_edit<D: Disk>(
    node: &mut Node<UdcRules, D>,
    account: AccountNo,
    line: u32,
    numbers: &mut Numbers,
    wish: EditWish,
) -> Result<(), TapeEnd<D>>
    requires hand { node.old.hand ≡ None }
    requires last { numbers.old.last ≡ last_number_of node.old.state.records account }
    requires numbers { numbers.old.next < 2 ^ 32 - 1 }
    requires stored { numbers.old.stored < 2 ^ 32 - 1 }

    // It is done with.
    ensures ok { OnOk result (numbers.new ≡ numbers_after_edit numbers.old) }
    ensures records { OnOk result (GainsAll ⟦<UdcRules as Rules>⟧ D.Reports node.old node.new
        (asked_records account numbers.old wish)) }
    ensures hand { OnOk result (node.new.hand ≡ None) }
    ensures last { OnOk result (numbers.new.last ≡ last_number_of node.new.state.records account) }
    ensures judged { OnOk result (numbers.old.last < numbers.old.next
        → CanAsk node.old account numbers.old.next wish) }

    // Or it is not, for the reason that is returned.
    ensures stopped { IfErr result (IsLineStop ⟦<UdcRules as Rules>⟧ D.Reports node.old node.new account
        line numbers.old (Some wish)) }

    // A crash at any moment leaves the records, perhaps with it. The limits stay.
    ensures moments { LeavesPrefix ⟦<UdcRules as Rules>⟧ D.Reports node.old node.new
        (asked_records account numbers.old wish) }
    ensures limits { node.new.state.limits ≡ node.old.state.limits }
    ensures counted { D.faults node.old.journal.disk ≤ D.faults node.new.journal.disk }
{
    if numbers.next <= numbers.last {
        numbers.next += 1;
        return Ok(());
    }
    ask_edit(node, account, line, numbers.next, wish)?;
    numbers.last = numbers.next;
    numbers.stored += 1;
    numbers.next += 1;
    Ok(())
}
