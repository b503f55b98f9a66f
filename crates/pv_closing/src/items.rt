//! What the Update Centre lacks of a centre's items.
ghost use Rattle.std.specs.Prelude.{◌≡◌, ◌≤◌, length, None, OnOk, IfErr};
ghost use Rattle.pv_edits.specs.Edits.{taken_of};
ghost use Rattle.pv_edits.specs.Taken.{IsCentre};
ghost use Rattle.pv_node.specs.Asking.{HasStored};
ghost use Rattle.pv_closing.specs.Lacking.{take_record, lacked_items};
ghost use Rattle.pv_closing.specs.Bringing.{IsAskStop, LeavesNext, IsBroughtTo, LeavesFirst, EndsBringing, StandsBrought, LeavesBrought, IsNoRoom};
ghost use Rattle.pv_closing.specs.declared.rest_end.RestEnd.TheVariants.{Brought};

use crate::rest_end::RestEnd;
use pv_irc::{IrcRules, IrcState};
use pv_node::{AskFault, Node, Rules};
use pv_outside::{Disk, Reports};
use pv_post::Item;
use pv_udc::{UdcRequest, UdcRules};

/// The Update Centre takes up the items of a centre that it has not taken, in order: until all are taken, or it is
/// full, or a call of its disk fails. It settles the record that it has in hand first, if it has one.
pub fn take_items<const C: u8, D: Disk>(
    udc: &mut Node<UdcRules, D>,
    centre: &Node<IrcRules<C>, D>,
) -> RestEnd<D>
    requires { IsCentre C }

    // It ends so, and an item always has room. If all is brought, all items are taken.
    ensures ends { EndsBringing ⟦<UdcRules as Rules>⟧ D.Reports udc.old udc.new
        (lacked_items C centre.now.state.items) result }
    ensures room { IsNoRoom result → ⊥ }
    ensures all { result ≡ Brought → length centre.now.state.items ≤ taken_of udc.new.state.records C }

    // The node then stands for the records, perhaps with the one that was in hand, and a prefix of what was lacked. So
    // does what a crash at any moment leaves.
    ensures stands { StandsBrought ⟦<UdcRules as Rules>⟧ D.Reports udc.old udc.new
        (lacked_items C centre.now.state.items) }
    ensures moments { LeavesBrought ⟦<UdcRules as Rules>⟧ D.Reports udc.old udc.new
        (lacked_items C centre.now.state.items) }
    ensures limits { udc.new.state.limits ≡ udc.old.state.limits }
    ensures counted { D.faults udc.old.journal.disk ≤ D.faults udc.new.journal.disk }
{
    match udc.settle() {
        Ok(_) => take_rest(udc, C, centre.state()),
        Err(failure) => RestEnd::DiskFault(failure),
    }
}

/// Takes up the items of a centre of this number that the Update Centre has not taken. It has nothing in hand.
fn take_rest<D: Disk>(udc: &mut Node<UdcRules, D>, number: u8, centre: &IrcState) -> RestEnd<D>
    requires centre { IsCentre number }
    requires hand { udc.old.hand ≡ None }

    // It ends so, and an item always has room. If all is brought, all items are taken.
    ensures ends { IsBroughtTo ⟦<UdcRules as Rules>⟧ D.Reports udc.old udc.new None
        (lacked_items number centre.now.items udc.old.state) result }
    ensures room { IsNoRoom result → ⊥ }
    ensures all { result ≡ Brought → length centre.now.items ≤ taken_of udc.new.state.records number }

    // A crash at any moment leaves the records and a prefix of what was lacked.
    ensures moments { LeavesFirst ⟦<UdcRules as Rules>⟧ D.Reports udc.old udc.new
        (lacked_items number centre.now.items udc.old.state) }
    ensures limits { udc.new.state.limits ≡ udc.old.state.limits }
    ensures counted { D.faults udc.old.journal.disk ≤ D.faults udc.new.journal.disk }
{
    while let Some(item) = centre.item_at(udc.state().taken(number)) {
        match take_item(udc, number, item) {
            Ok(()) => {}
            Err(end) => return end,
        }
    }
    RestEnd::Brought
}

/// Takes up an item of a centre, under the next number. The Update Centre has nothing in hand.
fn take_item<D: Disk>(
    udc: &mut Node<UdcRules, D>,
    number: u8,
    item: &Item,
) -> Result<(), RestEnd<D>>
    requires centre { IsCentre number }
    requires hand { udc.old.hand ≡ None }

    // It is stored, or it is not, for the reason that is returned.
    ensures stored { OnOk result (HasStored ⟦<UdcRules as Rules>⟧ D.Reports udc.old udc.new
        (take_record number (taken_of udc.old.state.records number) item.now)) }
    ensures stopped { IfErr result (IsAskStop ⟦<UdcRules as Rules>⟧ D.Reports udc.old udc.new
        (take_record number (taken_of udc.old.state.records number) item.now)) }
    ensures room { IfErr result (λ end. IsNoRoom end → ⊥) }

    // A crash at any moment leaves the records, perhaps with it.
    ensures moments { LeavesNext ⟦<UdcRules as Rules>⟧ D.Reports udc.old udc.new
        (take_record number (taken_of udc.old.state.records number) item.now) }
    ensures limits { udc.new.state.limits ≡ udc.old.state.limits }
    ensures counted { D.faults udc.old.journal.disk ≤ D.faults udc.new.journal.disk }
{
    item.within();
    let request = UdcRequest::TakeUp {
        centre: number,
        k: udc.state().taken(number),
        item: *item,
    };
    match udc.ask(&request) {
        // An item that comes next is always to be stored.
        Ok(_) => Ok(()),
        Err(AskFault::Full { count }) => Err(RestEnd::Full { count }),
        Err(AskFault::Disk(failure)) => Err(RestEnd::DiskFault(failure)),
    }
}
