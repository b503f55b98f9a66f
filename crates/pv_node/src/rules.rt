ghost use Rattle.std.specs.Prelude.{◌≡◌, ◌↔◌, ℕ, ◌+◌, ◌<◌, List, [], ◌∷◌, ◌++◌, length, None, IfOk, IfSome, OnOk, OnErr, IsErr, IsTrue};
ghost use Rattle.pv_outside.specs.declared.limits.Limits.{Limits};
ghost use Rattle.pv_fields.specs.Out.{room_of, Appends};
ghost use Rattle.pv_journal.specs.Text.{IsBody};
ghost use Rattle.pv_node.specs.declared.decision.Decision.{Decision};

use crate::decision::Decision;
use pv_fields::{NoRoom, Out};
use pv_outside::Limits;
use std::alloc::{AllocError, Global};

/// What a node does: what its state is, how a request is judged at it, and how a record is spelled.
///
/// The state is what the records make of it, one after the other. An implementation says which lists of
/// records a state stands for, which records have room in it, and what is decided at it; then it proves
/// the laws at the end. Contracts see a state as its own model says, and what `absorb` leaves is to be a
/// function of that, so two states that are equal there stay so.
///
/// A node takes memory by `open` and `copy` alone: a state has all its room from then on.
pub trait Rules {
    /// What the node keeps in memory: all that follows from its records.
    type State: Drop;

    /// What is asked.
    type Request;

    /// What is stored.
    type Rec: Copy;

    /// What is replied.
    type Reply: Drop;

    /// The limits that a state was opened with.
    ghost limits_of: { Self.State → Limits };

    /// The state stands for these records, in the order in which they were absorbed.
    ghost stands: { Self.State → List Self.Rec → Type 0 };

    /// How many records the state has taken in.
    ghost count_of: { Self.State → ℕ };

    /// The state with one record more, which has this place.
    ghost after: { Self.State → Self.Rec → ℕ → Self.State };

    /// The record has room in the state.
    ghost fits: { Self.State → Self.Rec → Type 0 };

    /// The request's parts are within their ranges.
    ghost is_request: { Self.Request → Type 0 };

    /// What is decided on a request at a state.
    ghost judgement: { Self.State → Self.Request → Decision Self.Rec Self.Reply };

    /// The record's parts are within their ranges, so that it has a spelling.
    ghost is_record: { Self.Rec → Type 0 };

    /// The spelling of a record.
    ghost spelling: { Self.Rec → List ℕ };

    /// Makes the state of no records, and takes all the memory that a state of these limits ever needs.
    fn open(alloc: Global, limits: Limits) -> Result<Self::State, AllocError>
        ensures nothing { IfOk result (λ state. stands state []) }
        ensures limits { IfOk result (λ state. limits_of state ≡ limits) };

    /// Makes a copy of a state: it means the same and has the same limits, so it stands for the same
    /// records. It takes all the memory that a state of these limits ever needs.
    fn copy(alloc: Global, state: &Self::State) -> Result<Self::State, AllocError>
        ensures { IfOk result (λ copy. copy ≡ state.now) };

    /// Decides on a request.
    fn decide(state: &Self::State, request: &Self::Request) -> Decision<Self::Rec, Self::Reply>
        requires { is_request request.now }
        ensures { result ≡ judgement state.now request.now };

    /// Whether the record has room in the state.
    fn has_room(state: &Self::State, rec: &Self::Rec) -> bool
        ensures { IsTrue result ↔ fits state.now rec.now };

    /// Takes a record into the state, at its place: the next one, which is below the limit of records.
    fn absorb(state: &mut Self::State, rec: &Self::Rec, place: u64)
        requires spelled { is_record rec.now }
        requires room { fits state.old rec.now }
        requires next { place ≡ count_of state.old }
        requires within { place < (limits_of state.old).records }
        ensures { state.new ≡ after state.old rec.now place };

    /// Appends the spelling of a record.
    fn encode(rec: &Self::Rec, out: &mut Out) -> Result<(), NoRoom>
        requires { is_record rec.now }
        ensures ok { OnOk result (Appends out.old out.new (spelling rec.now)) }
        ensures refused { IsErr result ↔ (room_of out.old < length (spelling rec.now)) }
        ensures err { OnErr result (out.new ≡ out.old) };

    /// The record that is spelled so; None exactly if there is none.
    fn decode(bytes: &[u8]) -> Option<Self::Rec>
        ensures found { IfSome result (λ rec. is_record rec × (spelling rec ≡ bytes.now)) }
        ensures none { result ≡ None → (rec : Self.Rec) → is_record rec → spelling rec ≡ bytes.now → ⊥ };

    /// A spelling is a body of a journal.
    ghost sized: { (rec : Self.Rec) → is_record rec → IsBody (spelling rec) };

    /// A spelling has one meaning.
    ghost one_meaning: { (one other : Self.Rec)
        → is_record one → is_record other → spelling one ≡ spelling other → one ≡ other };

    /// A record that is stored has a spelling and has room.
    ghost stored: { (state : Self.State) (request : Self.Request) (rec : Self.Rec) (reply : Self.Reply)
        → is_request request → judgement state request ≡ Decision.Store rec reply
        → is_record rec × fits state rec };

    /// A state that took in a record stands for the longer list, within the limit of records.
    ghost grows: { (state : Self.State) (records : List Self.Rec) (rec : Self.Rec)
        → stands state records → is_record rec → fits state rec → length records < (limits_of state).records
        → stands (after state rec (length records)) (records ++ rec ∷ []) };

    /// States of the same limits that stand for one list have room for the same records.
    ghost same_room: { (one other : Self.State) (records : List Self.Rec) (rec : Self.Rec)
        → stands one records → stands other records → limits_of one ≡ limits_of other → fits one rec
        → fits other rec };

    /// They also judge alike.
    ghost same_judgement: { (one other : Self.State) (records : List Self.Rec) (request : Self.Request)
        → stands one records → stands other records → limits_of one ≡ limits_of other → is_request request
        → judgement one request ≡ judgement other request };

    /// A state has taken in as many records as it stands for.
    ghost counted: { (state : Self.State) (records : List Self.Rec) → stands state records → count_of state
        ≡ length records };

    /// And one more with each.
    ghost counts_on: { (state : Self.State) (rec : Self.Rec) (place : ℕ) → count_of (after state rec place)
        ≡ count_of state + 1 };

    /// The limits of a state stay.
    ghost limits_stay: { (state : Self.State) (rec : Self.Rec) (place : ℕ) → limits_of (after state rec place)
        ≡ limits_of state };
}
