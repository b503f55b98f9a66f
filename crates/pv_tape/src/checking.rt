ghost use Rattle.std.specs.Prelude.{◌≡◌, ◌+◌, ◌<◌, ◌≤◌, List, length, Ok, IfOk, IfErr, OnOk, true, false, None, MatchOption};
ghost use Rattle.pv_words.specs.Lines.{lines_of};
ghost use Rattle.pv_editor.specs.declared.seat.Working.{Working};
ghost use Rattle.pv_tape.specs.Lines.{IsTapeLine};
ghost use Rattle.pv_tape.specs.declared.head.Head.{Head};
ghost use Rattle.pv_tape.specs.declared.line.TapeLine.{TapeLine};
ghost use Rattle.pv_tape.specs.Tape.{TapeEdit, AreGood, IsFirstBad, IsBad, IsTape, IsBadAt, second_line, can_do, working_after};

use crate::head::{Head, LAST_FIRST, head_of};
use crate::line::{TapeLine, tape_line_of};
use crate::making::{advance, can_do};
use pv_editor::Working;
use pv_input::LONGEST_TEXT;
use pv_words::first_line;

/// The number of a tape's first line.
const FIRST_LINE: u32 = 1;

/// The number of the line after it.
pub(crate) const SECOND_LINE: u32 = 2;

/// What the first line of a tape says, if all its lines are good, and otherwise the number of the first bad line, from
/// 1. A text without a line has a bad first line.
pub(crate) fn check_tape(text: &[u8]) -> Result<Head, u32>
    requires { length text.now ≤ LONGEST_TEXT }
    ensures good { IfOk result (λ head. (edits : List TapeEdit) × IsTape text.now head edits) }
    ensures only { (head : Head) (edits : List TapeEdit) → IsTape text.now head edits → result ≡ Ok head }
    ensures bad { IfErr result (IsBadAt text.now) }

    // A tape has a first line, whose number is within its range.
    ensures some { OnOk result (0 < length text.now) }
    ensures first { IfOk result (λ head. head.first ≤ LAST_FIRST) }
{
    if text.is_empty() {
        return Err(FIRST_LINE);
    }
    let (line, rest) = first_line(text);
    match head_of(line) {
        Some(head) => check_rest(head, rest),
        None => Err(FIRST_LINE),
    }
}

/// The head of a tape, if all lines after its first are good, and otherwise the number of the first bad line.
fn check_rest(head: Head, text: &[u8]) -> Result<Head, u32>
    requires { length text.now ≤ LONGEST_TEXT }
    ensures good { OnOk result
        ((edits : List TapeEdit) × AreGood None second_line (lines_of text.now) edits) }
    ensures head { IfOk result (λ checked. checked ≡ head) }
    ensures only { (edits : List TapeEdit) → AreGood None second_line (lines_of text.now) edits
        → result ≡ Ok head }
    ensures bad { IfErr result (IsFirstBad None second_line (lines_of text.now)) }
{
    match first_bad(text) {
        None => Ok(head),
        Some(line) => Err(line),
    }
}

/// The number of the first bad line after the first line of a tape.
fn first_bad(text: &[u8]) -> Option<u32>
    requires { length text.now ≤ LONGEST_TEXT }
    ensures found { MatchOption result
        ((edits : List TapeEdit) × AreGood None second_line (lines_of text.now) edits)
        (IsFirstBad None second_line (lines_of text.now)) }
    ensures only { (edits : List TapeEdit) → AreGood None second_line (lines_of text.now) edits
        → result ≡ None }
{
    let mut working = None;
    let mut number = SECOND_LINE;
    let mut rest = text;
    while !rest.is_empty() {
        let (line, later) = first_line(rest);
        if !take_line(&mut working, line) {
            return Some(number);
        }
        number += 1;
        rest = later;
    }
    None
}

/// Does a line to the working frame, if it is good, and returns whether it is.
fn take_line(working: &mut Option<Working>, text: &[u8]) -> bool
    ensures good { result ≡ true → (line : TapeLine) × IsTapeLine text.now line
        × (can_do working.old line ≡ true) × (working.new ≡ working_after working.old line) }
    ensures only { (line : TapeLine) → IsTapeLine text.now line → can_do working.old line ≡ true
        → (result ≡ true) × (working.new ≡ working_after working.old line) }
    ensures bad { result ≡ false → IsBad working.old text.now }
{
    let Some(line) = tape_line_of(text) else {
        return false;
    };
    let can = can_do(working, &line);
    if can {
        advance(working, &line);
    }
    can
}
