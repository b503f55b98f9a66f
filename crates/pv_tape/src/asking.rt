ghost use Rattle.std.specs.Prelude.{◌≡◌, ◌<◌, ◌≤◌, ◌∷◌, [], None, OnOk, IfErr};
ghost use Rattle.pv_udc.specs.Requests.{edit_of};
ghost use Rattle.pv_tape.specs.Loading.{last_number_of, GainsAll, LeavesPrefix, CanAsk, IsAskEnd};

use crate::end::TapeEnd;
use pv_edits::EditWish;
use pv_node::{AskFault, Node, Rules};
use pv_outside::{Disk, Reports};
use pv_page::AccountNo;
use pv_udc::{Code, UdcReply, UdcRequest, UdcRules};

/// Asks for the edit of a line under a number that is above the editor's last. The node has nothing in hand.
pub(crate) fn ask_edit<D: Disk>(
    node: &mut Node<UdcRules, D>,
    editor: AccountNo,
    line: u32,
    q: u32,
    wish: EditWish,
) -> Result<(), TapeEnd<D>>
    requires hand { node.old.hand ≡ None }
    requires above { last_number_of node.old.state.records editor < q }

    // The edit was to be stored, is stored after the records, and is the editor's last.
    ensures judged { OnOk result (CanAsk node.old editor q wish) }
    ensures stored { OnOk result (GainsAll ⟦<UdcRules as Rules>⟧ D.Reports node.old node.new
        (edit_of editor q wish ∷ [])) }
    ensures last { OnOk result (last_number_of node.new.state.records editor ≡ q) }
    ensures hand { OnOk result (node.new.hand ≡ None) }

    // Or it is not stored, for the reason that is returned. The limits stay.
    ensures stopped { IfErr result
        (IsAskEnd ⟦<UdcRules as Rules>⟧ D.Reports node.old node.new editor line q wish) }
    ensures limits { node.new.state.limits ≡ node.old.state.limits }

    // A crash at any moment leaves the records, perhaps with the edit. The disk's count of faults never falls.
    ensures moments { LeavesPrefix ⟦<UdcRules as Rules>⟧ D.Reports node.old node.new
        (edit_of editor q wish ∷ []) }
    ensures counted { D.faults node.old.journal.disk ≤ D.faults node.new.journal.disk }
{
    match node.ask(&UdcRequest::Edit { editor, q, wish }) {
        Ok(told) => match told.reply {
            UdcReply::Stored(_) => Ok(()),
            UdcReply::Refused(Code { code, shown }) => Err(TapeEnd::Refused { line, code, shown }),
            // Its number is not the editor's last, and it is no item.
            _ => Err(TapeEnd::NotKnown),
        },
        Err(AskFault::Full { count }) => Err(TapeEnd::Full { count }),
        Err(AskFault::Disk(failure)) => Err(TapeEnd::DiskFault(failure)),
    }
}
