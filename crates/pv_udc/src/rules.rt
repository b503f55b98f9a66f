ghost use Rattle.std.specs.Prelude.{◌≡◌, ◌≤◌, ◌<◌, ◌↔◌, length, take, IsTrue, IsOk, IsErr, OnOk, OnErr};
ghost use Rattle.pv_fields.specs.Out.{room_of, Appends};
ghost use Rattle.pv_edits.specs.Record.{IsRecord, record_bytes};
ghost use Rattle.pv_edits.specs.Room.{has_room};
ghost use Rattle.pv_udc.specs.EditList.{with_record};
ghost use Rattle.pv_udc.specs.Requests.{IsRequest};
ghost use Rattle.pv_udc.specs.Judgement.{judge};
ghost use Rattle.pv_udc.specs.Ruling.{sized, one_meaning, stored, grows, same_room, judged_alike, counts_on};
ghost use Rattle.std.proofs.Common.{refl, ap};

use crate::reply::UdcReply;
use crate::request::UdcRequest;
use crate::state::UdcState;
use pv_edits::Record;
use pv_fields::{NoRoom, Out};
use pv_journal::MAX_BODY;
use pv_node::{Decision, Rules};
use pv_outside::Limits;
use std::alloc::{AllocError, Global};

/// The Update Centre's rules, for a node. Its records are the edits that were stored and the items that
/// were taken up.
pub struct UdcRules;

impl Rules for UdcRules {
    type State = UdcState;

    type Request = UdcRequest;

    type Rec = Record;

    type Reply = UdcReply;

    ghost limits_of = { λ state. state.limits };

    ghost stands = { λ state records. state.records ≡ records };

    ghost count_of = { λ state. length state.records };

    ghost after = { λ state edit place. with_record state edit };

    ghost fits = { λ state edit. IsTrue (has_room state.limits state.records edit) };

    ghost is_request = { IsRequest };

    ghost judgement = { λ state request. judge state.limits state.records request };

    ghost is_record = { IsRecord };

    ghost spelling = { record_bytes };

    ghost sized = { sized };

    ghost one_meaning = { one_meaning };

    ghost stored = { stored };

    ghost grows = { grows };

    ghost same_room = { same_room };

    ghost same_judgement = { judged_alike };

    ghost counted = { λ state records stands. ap length stands };

    ghost counts_on = { counts_on };

    ghost limits_stay = { λ state edit place. refl };

    fn open(alloc: Global, limits: Limits) -> Result<UdcState, AllocError> {
        UdcState::open(alloc, limits)
    }

    fn copy(alloc: Global, state: &UdcState) -> Result<UdcState, AllocError> {
        state.copy(alloc)
    }

    fn decide(state: &UdcState, request: &UdcRequest) -> Decision<Record, UdcReply> {
        state.decide(request)
    }

    fn has_room(state: &UdcState, edit: &Record) -> bool {
        state.has_room(edit)
    }

    fn absorb(state: &mut UdcState, edit: &Record, place: u64) {
        state.absorb(edit, place);
    }

    fn encode(edit: &Record, out: &mut Out) -> Result<(), NoRoom> {
        if out.room() < MAX_BODY {
            return encode_apart(edit, out);
        }
        encode_straight(edit, out)
    }

    fn decode(bytes: &[u8]) -> Option<Record> {
        Record::decode(bytes)
    }
}

/// Appends the spelling of a record where there is room for any.
fn encode_straight(edit: &Record, out: &mut Out) -> Result<(), NoRoom>
    requires within { IsRecord edit.now }
    requires room { MAX_BODY ≤ room_of out.old }
    ensures ok { IsOk result }
    ensures appends { Appends out.old out.new (record_bytes edit.now) }
{
    edit.encode(out)
}

/// Appends the spelling of a record, or nothing if it does not fit: it is spelled apart first.
fn encode_apart(edit: &Record, out: &mut Out) -> Result<(), NoRoom>
    requires within { IsRecord edit.now }
    ensures ok { OnOk result (Appends out.old out.new (record_bytes edit.now)) }
    ensures refused { IsErr result ↔ (room_of out.old < length (record_bytes edit.now)) }
    ensures err { OnErr result (out.new ≡ out.old) }
{
    let mut body = [0; MAX_BODY];
    let size = spell(edit, &mut body);
    out.run(&body[..size])
}

/// Puts the spelling of a record at the beginning, and returns how many bytes it has.
fn spell(edit: &Record, into: &mut [u8; MAX_BODY]) -> usize
    requires { IsRecord edit.now }
    ensures within { result ≤ MAX_BODY }
    ensures spelled { take result into.new ≡ record_bytes edit.now }
{
    let mut out = Out::new(into);
    // A spelling has at most as many bytes as there is room, so it is never refused.
    let _ = edit.encode(&mut out);
    out.written()
}
