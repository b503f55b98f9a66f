ghost use Rattle.std.specs.Prelude.{◌≡◌, ◌≤◌, ◌<◌, ◌↔◌, length, take, IsTrue, IsOk, IsErr, OnOk, OnErr};
ghost use Rattle.pv_fields.specs.Out.{room_of, Appends};
ghost use Rattle.pv_irc.specs.Record.{IsCentreRecord, centre_bytes};
ghost use Rattle.pv_irc.specs.History.{centre_state_of, state_count, with_centre_record};
ghost use Rattle.pv_irc.specs.Deciding.{IsCentreRequest, centre_has_room, centre_judgement};
ghost use Rattle.pv_irc.specs.Ruling.{sized, one_meaning, stored, grows, same_room, judged_alike, counted, counts_on, limits_stay};

use crate::record::CentreRecord;
use crate::reply::IrcReply;
use crate::request::IrcRequest;
use crate::state::IrcState;
use pv_fields::{NoRoom, Out};
use pv_journal::MAX_BODY;
use pv_node::{Decision, Rules};
use pv_outside::Limits;
use std::alloc::{AllocError, Global};

/// The rules of the centre of the number `C`, for a node. Its records are what it has applied of the edit
/// list, the log-ons and the items that it has kept.
pub struct IrcRules<const C: u8>;

impl<const C: u8> Rules for IrcRules<C> {
    type State = IrcState;

    type Request = IrcRequest;

    type Rec = CentreRecord;

    type Reply = IrcReply;

    ghost limits_of = { λ state. state.limits };

    ghost stands = { λ state records. state ≡ centre_state_of C state.limits records };

    ghost count_of = { λ state. state_count state };

    ghost after = { λ state rec place. with_centre_record state rec };

    ghost fits = { λ state rec. IsTrue (centre_has_room state rec) };

    ghost is_request = { λ request. IsCentreRequest request };

    ghost judgement = { λ state request. centre_judgement state request };

    ghost is_record = { λ rec. IsCentreRecord rec };

    ghost spelling = { λ rec. centre_bytes rec };

    ghost sized = { sized };

    ghost one_meaning = { one_meaning };

    ghost stored = { stored };

    ghost grows = { λ state records rec stands is room within. grows C state records rec stands };

    ghost same_room = { λ one other records rec stands also limits room.
        same_room C one other records rec stands also limits room };

    ghost same_judgement = { λ one other records request stands also limits is.
        judged_alike C one other records request stands also limits };

    ghost counted = { λ state records stands. counted C state records stands };

    ghost counts_on = { λ state rec place. counts_on state rec };

    ghost limits_stay = { λ state rec place. limits_stay state rec };

    fn open(alloc: Global, limits: Limits) -> Result<IrcState, AllocError> {
        IrcState::open(alloc, C, limits)
    }

    fn copy(alloc: Global, state: &IrcState) -> Result<IrcState, AllocError> {
        state.copy(alloc)
    }

    fn decide(state: &IrcState, request: &IrcRequest) -> Decision<CentreRecord, IrcReply> {
        state.decide(request)
    }

    fn has_room(state: &IrcState, rec: &CentreRecord) -> bool {
        state.has_room(rec)
    }

    fn absorb(state: &mut IrcState, rec: &CentreRecord, _place: u64) {
        state.absorb(rec);
    }

    fn encode(rec: &CentreRecord, out: &mut Out) -> Result<(), NoRoom> {
        if out.room() < MAX_BODY {
            return encode_apart(rec, out);
        }
        encode_straight(rec, out)
    }

    fn decode(bytes: &[u8]) -> Option<CentreRecord> {
        CentreRecord::decode(bytes)
    }
}

/// Appends the spelling of a record where there is room for any.
fn encode_straight(rec: &CentreRecord, out: &mut Out) -> Result<(), NoRoom>
    requires within { IsCentreRecord rec.now }
    requires room { MAX_BODY ≤ room_of out.old }
    ensures ok { IsOk result }
    ensures appends { Appends out.old out.new (centre_bytes rec.now) }
{
    rec.encode(out)
}

/// Appends the spelling of a record, or nothing if it does not fit: it is spelled apart first.
fn encode_apart(rec: &CentreRecord, out: &mut Out) -> Result<(), NoRoom>
    requires within { IsCentreRecord rec.now }
    ensures ok { OnOk result (Appends out.old out.new (centre_bytes rec.now)) }
    ensures refused { IsErr result ↔ (room_of out.old < length (centre_bytes rec.now)) }
    ensures err { OnErr result (out.new ≡ out.old) }
{
    let mut body = [0; MAX_BODY];
    let size = spell(rec, &mut body);
    out.run(&body[..size])
}

/// Puts the spelling of a record at the beginning, and returns how many bytes it has.
fn spell(rec: &CentreRecord, into: &mut [u8; MAX_BODY]) -> usize
    requires { IsCentreRecord rec.now }
    ensures within { result ≤ MAX_BODY }
    ensures spelled { take result into.new ≡ centre_bytes rec.now }
{
    let mut out = Out::new(into);
    // A spelling has at most as many bytes as there is room, so it is never refused.
    let _ = rec.encode(&mut out);
    out.written()
}
