ghost use Rattle.std.specs.Prelude.{◌≡◌, length, IfOk, IfSome, OnErr};
ghost use Rattle.pv_edits.specs.Edits.{taken_of};
ghost use Rattle.pv_edits.specs.Taken.{IsCentre};
ghost use Rattle.pv_udc.specs.Requests.{IsRequest};
ghost use Rattle.pv_udc.specs.Requests.{record_of};
ghost use Rattle.pv_udc.specs.declared.request.UdcRequest.TheVariants.{TakeUp};
ghost use Rattle.pv_nodes.specs.Cutting.{MayBecome, kept_record};
ghost use Rattle.pv_nodes.specs.OnDisk.{UpdateIsOnDisk, list_with};
ghost use Rattle.pv_network.specs.Centre.{arrival_of};
ghost use Rattle.pv_network.specs.Cutting.{stored_for};
ghost use Rattle.pv_network.specs.Verdict.{verdict_of, item_arrival, stored_on};

use crate::arrival::Arrival;
use pv_editor::UdcReplyView;
use pv_nodes::{Cut, UpdateNode};
use pv_post::Item;
use pv_udc::{UdcReply, UdcRequest};
use pv_verdicts::{full, view_of};
use std::alloc::{AllocError, Global};

/// Judges a request, stores its record unless it is refused, and returns the editor's reply. Each image of the
/// disk then spells the records of the list.
pub(crate) fn store(update: &mut UpdateNode, request: &UdcRequest) -> UdcReplyView
    requires { IsRequest request.now }
    ensures reply { result ≡ (verdict_of update.old.state request.now).reply }
    ensures stored { update.new.state
        ≡ list_with update.old.state (verdict_of update.old.state request.now).stored }
    ensures on_disk { UpdateIsOnDisk update.new }
{
    match update.ask(request) {
        Ok(told) => view_of(told.reply),
        Err(count) => full(count),
    }
}

/// Takes an item of a centre up under its number: it is stored if it comes next, unless there are as many records as
/// may be. Each image of the disk then spells the records of the list.
pub(crate) fn take_up(update: &mut UpdateNode, centre: u8, number: u64, item: &Item) -> Arrival
    requires { IsCentre centre }
    ensures arrival { result ≡ arrival_of (taken_of update.old.state.records centre)
        (length update.old.state.records) update.old.state.limits.records number }
    ensures stored { update.new.state
        ≡ list_with update.old.state (stored_on result (record_of (TakeUp centre number item.now))) }
    ensures on_disk { UpdateIsOnDisk update.new }
{
    item.within();
    let request = UdcRequest::TakeUp {
        centre,
        k: number,
        item: *item,
    };
    match update.ask(&request) {
        Ok(told) => arrival_of(told.reply),
        Err(_) => Arrival::Full,
    }
}

/// The Update Centre is lost within the judgement of a request, or while it is idle, and opened again from this image of
/// its disk. Returns what became of the record that was to be stored. The only error is that memory ran out for that, and
/// then it is as it was. Each image of the disk then spells the records of the list.
pub(crate) fn stop(
    update: &mut UpdateNode,
    alloc: Global,
    request: Option<UdcRequest>,
    calls: u8,
    image: u8,
) -> Result<Cut, AllocError>
    requires { IfSome request IsRequest }
    ensures may { IfOk result (MayBecome calls (stored_for update.old.state request)) }
    ensures stored { IfOk result (λ cut. update.new.state ≡ list_with update.old.state
        (kept_record (stored_for update.old.state request) cut)) }
    ensures err { OnErr result (update.new ≡ update.old) }
    ensures on_disk { UpdateIsOnDisk update.new }
{
    match request {
        Some(request) => update.cut(alloc, &request, calls, image),
        None => {
            update.crash(alloc, image)?;
            Ok(Cut::NotStored)
        }
    }
}

/// What was done with an item, by the reply to it. An item is never refused.
fn arrival_of(reply: UdcReply) -> Arrival
    ensures { result ≡ item_arrival reply }
{
    match reply {
        UdcReply::Stored(_) => Arrival::Taken,
        UdcReply::Old(_) => Arrival::Old,
        UdcReply::Early(_) => Arrival::Early,
        UdcReply::Again(_) => Arrival::Old,
        UdcReply::Refused(_) => Arrival::Early,
    }
}
