//! The run of a tape: it is read and checked whole, and then its edits are asked for in order.
ghost use Rattle.std.specs.Prelude.{◌≡◌, ℕ, ◌<◌, ◌≤◌, List, length, true};
ghost use Rattle.pv_edits.specs.Room.{has_editor};
ghost use Rattle.pv_input.specs.Reading.{HasRead};
ghost use Rattle.pv_input.specs.declared.text.TheConstants.{LONGEST_TEXT};
ghost use Rattle.pv_tape.specs.Running.{is_known, IsEditsEnd, IsTextRun, IsTapeRun, LeavesPart, StandsAfterRun};
ghost use Rattle.pv_tape.specs.Tape.{TapeEdit, IsTape};
ghost use Rattle.pv_tape.specs.declared.head.Head.{Head};
ghost use Rattle.pv_tape.specs.declared.head.TheConstants.{LAST_FIRST};

use crate::checking::check_tape;
use crate::end::TapeEnd;
use crate::head::Head;
use crate::loading::load;
use pv_edits::Base;
use pv_input::{ReadEnd, read_text};
use pv_node::{Node, Rules};
use pv_outside::{Disk, Reports, Source};
use pv_udc::UdcRules;
use std::alloc::Global;

/// Reads and checks a whole tape, and asks the Update Centre for those of its edits, in order, whose numbers are above the
/// account's last. A run that was cut at any moment is continued by a run of the same tape.
pub fn run_tape<S: Source, D: Disk>(
    alloc: Global,
    node: &mut Node<UdcRules, D>,
    tape: &mut S,
) -> TapeEnd<D>
    // What was read is a text, and the run of that text came to this end. A crash at any moment leaves the records,
    // perhaps with the one in hand, and then a prefix of what the tape asks for. So does the run, if it is not cut.
    ensures runs { (text : List ℕ)
        × HasRead (S.taken tape.old) (S.taken tape.new) (S.left tape.old) (S.left tape.new) text
        × IsTapeRun ⟦<UdcRules as Rules>⟧ D.Reports node.old node.new text (S.left tape.old)
        (S.ended tape.new) (S.read_faults tape.old) (S.read_faults tape.new) result
        × ((head : Head) (edits : List TapeEdit) → IsTape text head edits
        → LeavesPart ⟦<UdcRules as Rules>⟧ D.Reports node.old node.new head edits)
        × ((head : Head) (edits : List TapeEdit) → IsTape text head edits
        → StandsAfterRun ⟦<UdcRules as Rules>⟧ D.Reports node.old node.new head edits) }
    ensures counted { S.read_faults tape.old ≤ S.read_faults tape.new }
{
    match read_text(alloc, tape) {
        Ok(text) => run_text(node, &text),
        Err(ReadEnd::Fault) => TapeEnd::ReadFault,
        Err(ReadEnd::TooLong) => TapeEnd::TooLong,
        Err(ReadEnd::Memory) => TapeEnd::Memory,
    }
}

/// Checks a tape, and asks for its edits.
fn run_text<D: Disk>(node: &mut Node<UdcRules, D>, text: &[u8]) -> TapeEnd<D>
    requires { length text.now ≤ LONGEST_TEXT }
    ensures runs { IsTextRun ⟦<UdcRules as Rules>⟧ D.Reports node.old node.new text.now result }
    ensures moments { (head : Head) (edits : List TapeEdit) → IsTape text.now head edits
        → LeavesPart ⟦<UdcRules as Rules>⟧ D.Reports node.old node.new head edits }
    ensures after { (head : Head) (edits : List TapeEdit) → IsTape text.now head edits
        → StandsAfterRun ⟦<UdcRules as Rules>⟧ D.Reports node.old node.new head edits }
{
    let head = match check_tape(text) {
        Ok(head) => head,
        Err(line) => return TapeEnd::BadTape { line },
    };
    if !is_known(node.state().base(), &head) {
        return TapeEnd::NotKnown;
    }
    run_edits(node, &head, text)
}

/// Settles what the node has in hand, and asks for the edits of a tape that was checked.
fn run_edits<D: Disk>(node: &mut Node<UdcRules, D>, head: &Head, text: &[u8]) -> TapeEnd<D>
    requires some { 0 < length text.now }
    requires within { length text.now ≤ LONGEST_TEXT }
    requires first { head.now.first ≤ LAST_FIRST }
    requires known { has_editor node.old.state.records head.now.account ≡ true }

    // The run ends so. A crash at any moment leaves the records, perhaps with the one in hand, and then a prefix of what
    // is asked for.
    ensures ends { (edits : List TapeEdit) → IsTape text.now head.now edits
        → IsEditsEnd ⟦<UdcRules as Rules>⟧ D.Reports node.old node.new head.now edits result }
    ensures moments { (edits : List TapeEdit) → IsTape text.now head.now edits
        → LeavesPart ⟦<UdcRules as Rules>⟧ D.Reports node.old node.new head.now edits }
    ensures after { (edits : List TapeEdit) → IsTape text.now head.now edits
        → StandsAfterRun ⟦<UdcRules as Rules>⟧ D.Reports node.old node.new head.now edits }
{
    match node.settle() {
        Ok(_) => load(node, head, text),
        Err(failure) => TapeEnd::DiskFault(failure),
    }
}

/// Whether there is the tape's account, with its password.
fn is_known(base: &Base, head: &Head) -> bool
    ensures { result ≡ is_known base.now.records head.now }
{
    match base.account(head.account) {
        Some(account) => account.matches(&head.password),
        None => false,
    }
}
