//! What a centre lacks of the edit list.
ghost use Rattle.std.specs.Prelude.{◌≡◌, ◌≤◌, length, None, OnOk, IfErr};
ghost use Rattle.pv_node.specs.Asking.{HasStored};
ghost use Rattle.pv_closing.specs.Lacking.{apply_record, lacked_records};
ghost use Rattle.pv_closing.specs.Bringing.{IsAskStop, LeavesNext, IsBroughtTo, LeavesFirst, EndsBringing, StandsBrought, LeavesBrought};
ghost use Rattle.pv_closing.specs.declared.rest_end.RestEnd.TheVariants.{Brought};

use crate::rest_end::RestEnd;
use pv_edits::Record;
use pv_irc::{IrcReply, IrcRequest, IrcRules};
use pv_node::{AskFault, Node, Rules};
use pv_outside::{Disk, Reports};
use pv_udc::{UdcRules, UdcState, down};

/// A centre applies the records of the edit list that it has not applied, in order: until all are applied, or the
/// next one has no room, or the centre is full, or a call of its disk fails. It settles the record that it has in
/// hand first, if it has one.
pub fn apply_records<const C: u8, D: Disk>(
    udc: &Node<UdcRules, D>,
    centre: &mut Node<IrcRules<C>, D>,
) -> RestEnd<D>
    // It ends so. If all is brought, the whole edit list is applied.
    ensures ends { EndsBringing ⟦<IrcRules<C> as Rules>⟧ D.Reports centre.old centre.new
        (lacked_records udc.now.state.records) result }
    ensures all { result ≡ Brought → length udc.now.state.records ≤ centre.new.state.applied }

    // The centre then stands for the records, perhaps with the one that was in hand, and a prefix of what was lacked. So
    // does what a crash at any moment leaves.
    ensures stands { StandsBrought ⟦<IrcRules<C> as Rules>⟧ D.Reports centre.old centre.new
        (lacked_records udc.now.state.records) }
    ensures moments { LeavesBrought ⟦<IrcRules<C> as Rules>⟧ D.Reports centre.old centre.new
        (lacked_records udc.now.state.records) }
    ensures limits { centre.new.state.limits ≡ centre.old.state.limits }
    ensures counted { D.faults centre.old.journal.disk ≤ D.faults centre.new.journal.disk }
{
    match centre.settle() {
        Ok(_) => apply_rest(centre, udc.state()),
        Err(failure) => RestEnd::DiskFault(failure),
    }
}

/// Applies the records of the edit list that the centre has not applied. It has nothing in hand.
fn apply_rest<const C: u8, D: Disk>(
    centre: &mut Node<IrcRules<C>, D>,
    list: &UdcState,
) -> RestEnd<D>
    requires hand { centre.old.hand ≡ None }

    // It ends so. If all is brought, the whole edit list is applied.
    ensures ends { IsBroughtTo ⟦<IrcRules<C> as Rules>⟧ D.Reports centre.old centre.new None
        (lacked_records list.now.records centre.old.state) result }
    ensures all { result ≡ Brought → length list.now.records ≤ centre.new.state.applied }

    // A crash at any moment leaves the records and a prefix of what was lacked.
    ensures moments { LeavesFirst ⟦<IrcRules<C> as Rules>⟧ D.Reports centre.old centre.new
        (lacked_records list.now.records centre.old.state) }
    ensures limits { centre.new.state.limits ≡ centre.old.state.limits }
    ensures counted { D.faults centre.old.journal.disk ≤ D.faults centre.new.journal.disk }
{
    while let Some(edit) = list.rec_at(centre.state().applied()) {
        match apply_record(centre, edit) {
            Ok(()) => {}
            Err(end) => return end,
        }
    }
    RestEnd::Brought
}

/// Applies a record of the edit list, as that of the next place. The centre has nothing in hand.
fn apply_record<const C: u8, D: Disk>(
    centre: &mut Node<IrcRules<C>, D>,
    edit: &Record,
) -> Result<(), RestEnd<D>>
    requires hand { centre.old.hand ≡ None }

    // It is stored, or it is not, for the reason that is returned.
    ensures stored { OnOk result (HasStored ⟦<IrcRules<C> as Rules>⟧ D.Reports centre.old centre.new
        (apply_record centre.old.state.applied edit.now)) }
    ensures stopped { IfErr result (IsAskStop ⟦<IrcRules<C> as Rules>⟧ D.Reports centre.old centre.new
        (apply_record centre.old.state.applied edit.now)) }

    // A crash at any moment leaves the records, perhaps with it.
    ensures moments { LeavesNext ⟦<IrcRules<C> as Rules>⟧ D.Reports centre.old centre.new
        (apply_record centre.old.state.applied edit.now) }
    ensures limits { centre.new.state.limits ≡ centre.old.state.limits }
    ensures counted { D.faults centre.old.journal.disk ≤ D.faults centre.new.journal.disk }
{
    let rec = down(edit);
    rec.within();
    let n = centre.state().applied();
    match centre.ask(&IrcRequest::Apply { n, rec }) {
        Ok(told) => match told.reply {
            IrcReply::NoRoom(_) => Err(RestEnd::NoRoom),
            // A record that comes next is to be stored if it has room.
            _ => Ok(()),
        },
        Err(AskFault::Full { count }) => Err(RestEnd::Full { count }),
        Err(AskFault::Disk(failure)) => Err(RestEnd::DiskFault(failure)),
    }
}
