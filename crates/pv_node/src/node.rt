//! What a node may do next, and the call that makes each transition.
//!
//! ```text
//!                 open        a formatted disk becomes a node that is at rest.
//!   at rest    -> at rest     ask       a reply, or Full.
//!   at rest    -> in hand     ask       a call of the disk failed while a record was being stored.
//!   in hand    -> in hand     ask       a call of the disk failed in the settling, or with another record.
//!   in hand    -> at rest     ask       a reply, or Full; the record that was in hand is stored or is not.
//!   in hand    -> in hand     settle    a call of the disk failed.
//!   in hand    -> at rest     settle    the record, if it is stored.
//! ```
ghost use Rattle.std.specs.Prelude.{◌≡◌, ◌≢◌, ℕ, ◌+◌, ◌*◌, ◌<◌, ◌≤◌, List, length, take, Option, Some, None, Ok, IfOk, IfErr, IfSome, OnOk, OnErr, IsErr, IsOk};
ghost use Rattle.pv_outside.specs.Disk.{HasCalls, IsEndless};
ghost use Rattle.pv_outside.specs.Calls.{IsFused};
ghost use Rattle.pv_journal.specs.Journal.{EachImage, HasLeft, LeavesOnly, HasMade, ReadsOnly};
ghost use Rattle.pv_journal.specs.Log.{longest, IsAtRest};
ghost use Rattle.pv_node.specs.Standing.{StandsEither, Meets, MeetsBoth, DiskStands, StandsFor};
ghost use Rattle.pv_node.specs.Opening.{IsOutside, IsOpenFault, FaultShows, IsOpenDiskFault};
ghost use Rattle.pv_node.specs.Trail.{trail_records};
ghost use Rattle.pv_node.specs.Parts.{IsNode};
ghost use Rattle.pv_node.specs.Asking.{to_store, AskLeaves, AskFailsOnDisk, IsSettled, IsUnsettled, IsRefused, CanStore, HasStored, CarriesOut, AskReturns, SpendsOnAsk};

use crate::decision::{Decision, Told};
use crate::fault::{AskFault, NodeFault};
use crate::replay::{of_node, replay};
use crate::rules::Rules;
use crate::trail::{Trail, empty_trail};
use pv_fields::Out;
use pv_journal::{AppendFault, Journal, MAX_BODY};
use pv_outside::{Disk, Fused, Limits};
use std::alloc::Global;
use std::marker::Model;

/// Rules over a journal: a state in memory, and the records that it follows from on a disk.
#[derive(Drop)]
pub struct Node<R: Rules, D: Disk> {
    state: R::State,
    journal: Journal<D>,
    hand: Option<R::Rec>,
    body: [u8; MAX_BODY],
}

impl<R: Rules, D: Disk> Model for Node<R, D> {
    ghost use Rattle.pv_node.specs.Parts.{Parts, IsNode};

    ghost Value = { Parts D R.State R.Rec };

    ghost view = { λ n. record { journal = n.journal; state = n.state; hand = n.hand } };

    ghost invariant = { λ n. IsNode R.Rules
        (record { journal = n.journal; state = n.state; hand = n.hand }) };
}

/// A node that was opened, and the records that it was opened with.
#[derive(Drop)]
pub struct Opened<R: Rules, D: Disk> {
    /// The node.
    pub node: Node<R, D>,
    /// The records, in order, for contracts alone.
    pub trail: Trail<R::Rec>,
}

/// Puts the spelling of a record into the beginning, and returns how many bytes it has.
pub fn spell<R: Rules>(rec: &R::Rec, into: &mut [u8; MAX_BODY]) -> usize
    requires { R.is_record rec.now }
    ensures within { result ≤ MAX_BODY }
    ensures spelled { take result into.new ≡ R.spelling rec.now }
{
    let mut out = Out::new(into);
    // A spelling has at most as many bytes as there is room, so it is never refused.
    let _ = R::encode(rec, &mut out);
    out.written()
}

impl<R: Rules, D: Disk> Node<R, D> {
    /// Opens a formatted disk: reads its records, in order, into a state of these limits. A disk that is
    /// refused is handed back. This call alone takes memory.
    pub fn open(alloc: Global, disk: D, limits: Limits) -> Result<Node<R, D>, (NodeFault<D>, D)>
        // The node stands for the records that the disk stands for, and has none in hand.
        ensures opened { IfOk result (λ node. (records : List R.Rec)
            × StandsFor ⟦<R as Rules>⟧ D.Reports node records) }
        ensures found { IfOk result (λ node. (records : List R.Rec)
            → DiskStands ⟦<R as Rules>⟧ D.Reports disk records
            → StandsFor ⟦<R as Rules>⟧ D.Reports node records) }
        ensures none_in_hand { IfOk result (λ node. node.hand ≡ None) }
        ensures limits { IfOk result (λ node. R.limits_of node.state ≡ limits) }

        // It makes exactly three calls of the disk and one for each gate, and a crash leaves what it might have left
        // before.
        ensures reads_only { IfOk result
            (λ node. ReadsOnly D.Reports (node.journal.count + 4) ⊥ disk node.journal.disk) }
        ensures made { IfOk result
            (λ node. HasMade D.Reports (node.journal.count + 4) disk node.journal.disk) }
        ensures moments { IfOk result
            (λ node. LeavesOnly D.Reports disk node.journal.disk (D.may_leave disk)) }

        // On a disk that stands for records within the limits, each of which has room, only an allocation or the
        // disk can fail.
        ensures opens { IfErr result (λ e. (records : List R.Rec)
            → DiskStands ⟦<R as Rules>⟧ D.Reports disk records
            → Meets ⟦<R as Rules>⟧ limits records → IsOutside e.0) }

        // Each fault has its cause, and on a disk that reports its bytes these show which it is.
        ensures refused { IfErr result (λ e. IsOpenFault limits e.0) }
        ensures shown { IfErr result
            (λ e. IfSome (D.reads disk) (λ text. FaultShows ⟦<R as Rules>⟧ limits text e.0)) }
        ensures handed_back { IfErr result
            (λ e. ReadsOnly D.Reports (limits.records + 4) (IsOpenDiskFault e.0) disk e.1) }
        ensures moments_refused { IfErr result (λ e. LeavesOnly D.Reports disk e.1 (D.may_leave disk)) }
    {
        match Self::open_noted(alloc, disk, limits) {
            Ok(opened) => {
                let Opened { node, trail: _ } = opened;
                Ok(node)
            }
            Err(refused) => Err(refused),
        }
    }

    /// Opens a formatted disk as [`Node::open`] does, and gives the records that it read a name in contracts:
    /// the trail.
    pub fn open_noted(
        alloc: Global,
        disk: D,
        limits: Limits,
    ) -> Result<Opened<R, D>, (NodeFault<D>, D)>
        // The node stands for the records of the trail, which are those that the disk stands for, and has none in
        // hand.
        ensures stands { IfOk result
            (λ o. StandsFor ⟦<R as Rules>⟧ D.Reports o.node (trail_records o.trail.items)) }
        ensures found { IfOk result (λ o. (records : List R.Rec)
            → DiskStands ⟦<R as Rules>⟧ D.Reports disk records
            → StandsFor ⟦<R as Rules>⟧ D.Reports o.node records) }
        ensures none_in_hand { IfOk result (λ o. o.node.hand ≡ None) }
        ensures limits { IfOk result (λ o. R.limits_of o.node.state ≡ limits) }

        // It makes exactly three calls of the disk and one for each gate, and a crash leaves what it might have left
        // before.
        ensures reads_only { IfOk result
            (λ o. ReadsOnly D.Reports (o.node.journal.count + 4) ⊥ disk o.node.journal.disk) }
        ensures made { IfOk result
            (λ o. HasMade D.Reports (o.node.journal.count + 4) disk o.node.journal.disk) }
        ensures moments { IfOk result
            (λ o. LeavesOnly D.Reports disk o.node.journal.disk (D.may_leave disk)) }

        // On a disk that stands for records within the limits, each of which has room, only an allocation or the
        // disk can fail.
        ensures opens { IfErr result (λ e. (records : List R.Rec)
            → DiskStands ⟦<R as Rules>⟧ D.Reports disk records
            → Meets ⟦<R as Rules>⟧ limits records → IsOutside e.0) }

        // Each fault has its cause, and on a disk that reports its bytes these show which it is.
        ensures refused { IfErr result (λ e. IsOpenFault limits e.0) }
        ensures shown { IfErr result
            (λ e. IfSome (D.reads disk) (λ text. FaultShows ⟦<R as Rules>⟧ limits text e.0)) }
        ensures handed_back { IfErr result
            (λ e. ReadsOnly D.Reports (limits.records + 4) (IsOpenDiskFault e.0) disk e.1) }
        ensures moments_refused { IfErr result (λ e. LeavesOnly D.Reports disk e.1 (D.may_leave disk)) }
    {
        let Ok(mut state) = R::open(alloc, limits) else {
            return Err((NodeFault::Memory, disk));
        };
        let Ok(mut trail) = empty_trail(alloc, limits.records as usize) else {
            return Err((NodeFault::Memory, disk));
        };
        let mut journal = match Journal::start(disk, limits) {
            Ok(journal) => journal,
            Err((fault, disk)) => return Err((of_node(fault), disk)),
        };
        let mut body = [0; MAX_BODY];
        if let Err(fault) = replay::<R, D>(&mut state, &mut journal, &mut body, &mut trail) {
            return Err((fault, journal.into_disk()));
        }
        let node = Node {
            state,
            journal,
            hand: None,
            body,
        };
        Ok(Opened { node, trail })
    }

    /// Answers a request. It first settles what is in hand, then decides, and then stores what is to be
    /// stored: the reply is returned once each crash leaves the record. After a failure of the disk a record
    /// may be in hand, and the state is as it was but for a record that was settled.
    pub fn ask(&mut self, request: &R::Request) -> Result<Told<R::Reply>, AskFault<D>>
        requires { R.is_request request.now }

        ensures asked { AskReturns ⟦<R as Rules>⟧ D.Reports request.now self.old self.new result }
        ensures answers { self.old.hand ≡ None
            → CarriesOut ⟦<R as Rules>⟧ D.Reports
            (R.judgement self.old.state request.now) self.old self.new result }
        ensures none_in_hand { OnOk result (self.new.hand ≡ None) }
        ensures limits { R.limits_of self.new.state ≡ R.limits_of self.old.state }

        // What a crash at any moment of it leaves; and with fewer than two calls of the disk left, it leaves what it
        // might have left before.
        ensures moments { (records : List R.Rec) → StandsFor ⟦<R as Rules>⟧ D.Reports self.old records
            → LeavesOnly D.Reports self.old.journal.disk self.new.journal.disk
            (AskLeaves ⟦<R as Rules>⟧ D.Reports request.now self.old records) }
        ensures few { (records : List R.Rec) (n : ℕ) → StandsFor ⟦<R as Rules>⟧ D.Reports self.old records
            → HasLeft n (D.budget self.old.journal.disk) → n < 2
            → LeavesOnly D.Reports self.old.journal.disk self.new.journal.disk
            (StandsEither ⟦<R as Rules>⟧ records self.old.hand) }

        // What it takes of the disk. One with room for all records, whose calls have no end, does not fail.
        ensures spends { SpendsOnAsk ⟦<R as Rules>⟧ D.Reports 6 self.old self.new result }
        ensures never_fails { (records : List R.Rec) → StandsFor ⟦<R as Rules>⟧ D.Reports self.old records
            → IsEndless (longest (R.limits_of self.old.state).records) (D.budget self.old.journal.disk)
            → AskFailsOnDisk result → ⊥ }
    {
        match self.settle() {
            Ok(_) => {
                let decision = R::decide(&self.state, request);
                self.carry_out(decision)
            }
            Err(failure) => Err(AskFault::Disk(failure)),
        }
    }

    /// Does what was decided, and returns the reply.
    fn carry_out(
        &mut self,
        decision: Decision<R::Rec, R::Reply>,
    ) -> Result<Told<R::Reply>, AskFault<D>>
        requires none_in_hand { self.old.hand ≡ None }
        requires can { CanStore ⟦<R as Rules>⟧ self.old.state decision }

        ensures carried_out { CarriesOut ⟦<R as Rules>⟧ D.Reports decision self.old self.new result }
        ensures moments { (records : List R.Rec) → StandsFor ⟦<R as Rules>⟧ D.Reports self.old records
            → LeavesOnly D.Reports self.old.journal.disk self.new.journal.disk
            (StandsEither ⟦<R as Rules>⟧ records (to_store decision)) }
        ensures none_in_hand { OnOk result (self.new.hand ≡ None) }
        ensures limits { R.limits_of self.new.state ≡ R.limits_of self.old.state }
        ensures spends { SpendsOnAsk ⟦<R as Rules>⟧ D.Reports 4 self.old self.new result }
    {
        match decision {
            Decision::Answer(reply) => Ok(Told {
                reply,
                number: None,
            }),
            Decision::Store(rec, reply) => {
                let number = Some(self.store(&rec)?);
                Ok(Told { reply, number })
            }
        }
    }

    /// Stores a record and takes it into the state. Returns its place.
    fn store(&mut self, rec: &R::Rec) -> Result<u64, AskFault<D>>
        requires at_rest { self.old.hand ≡ None }
        requires spelled { R.is_record rec.now }
        requires room { R.fits self.old.state rec.now }

        // The record is stored, or a call of the disk failed, or the node is full.
        ensures place { IfOk result (λ number. number ≡ self.old.journal.count) }
        ensures stored { OnOk result (HasStored ⟦<R as Rules>⟧ D.Reports self.old self.new rec.now) }
        ensures refused { IfErr result (IsRefused ⟦<R as Rules>⟧ D.Reports self.old self.new rec.now) }

        // What a crash at any moment of it leaves, and what it takes of the disk. The limits stay.
        ensures moments { (records : List R.Rec) → StandsFor ⟦<R as Rules>⟧ D.Reports self.old records
            → LeavesOnly D.Reports self.old.journal.disk self.new.journal.disk
            (StandsEither ⟦<R as Rules>⟧ records (Some rec.now)) }
        ensures limits { R.limits_of self.new.state ≡ R.limits_of self.old.state }
        ensures spends { SpendsOnAsk ⟦<R as Rules>⟧ D.Reports 4 self.old self.new result }
    {
        let size = spell::<R>(rec, &mut self.body);
        match self.journal.append(&self.body[..size]) {
            Ok(number) => {
                R::absorb(&mut self.state, rec, number);
                Ok(number)
            }
            Err(AppendFault::Full { count }) => Err(AskFault::Full { count }),
            Err(AppendFault::Disk(failure)) => {
                self.hand = Some(*rec);
                Err(AskFault::Disk(failure))
            }
        }
    }

    /// Finds out whether the record in hand is stored, takes it into the state if it is, and returns it
    /// then. Afterwards nothing is in hand. It is the settling that `ask` begins with.
    pub fn settle(&mut self) -> Result<Option<R::Rec>, D::Failure>
        ensures settled { IfOk result (IsSettled ⟦<R as Rules>⟧ D.Reports self.old self.new) }
        ensures unsettled { OnErr result (IsUnsettled ⟦<R as Rules>⟧ D.Reports self.old self.new) }
        ensures limits { R.limits_of self.new.state ≡ R.limits_of self.old.state }

        // What a crash at any moment of it leaves, and what it takes of the disk.
        ensures moments { (records : List R.Rec) → StandsFor ⟦<R as Rules>⟧ D.Reports self.old records
            → LeavesOnly D.Reports self.old.journal.disk self.new.journal.disk
            (StandsEither ⟦<R as Rules>⟧ records self.old.hand) }
        ensures both_calls { OnOk result (self.old.hand ≢ None
            → HasMade D.Reports 2 self.old.journal.disk self.new.journal.disk) }
        ensures reads_only { ReadsOnly D.Reports 2
            (IsErr result) self.old.journal.disk self.new.journal.disk }
    {
        let Some(rec) = self.hand else {
            return Ok(None);
        };
        let place = self.journal.count();
        let stored = self.journal.settle()?;
        self.hand = None;
        match stored {
            Some(true) => {
                R::absorb(&mut self.state, &rec, place);
                Ok(Some(rec))
            }
            Some(false) => Ok(None),
            None => Ok(None),
        }
    }

    /// A node of a state and a journal at rest that have the same limit and the same count of records.
    pub fn from_parts(state: R::State, journal: Journal<D>) -> Node<R, D>
        requires limit { journal.limit ≡ (R.limits_of state).records }
        requires at_rest { IsAtRest journal }
        requires count { journal.count ≡ R.count_of state }
        ensures { result ≡ record { journal = journal; state = state; hand = None } }
    {
        Node {
            state,
            journal,
            hand: None,
            body: [0; MAX_BODY],
        }
    }

    /// The state and the journal. They have the same limit and the same count of records, and if no record is in
    /// hand the journal is at rest.
    pub fn into_parts(self) -> (R::State, Journal<D>)
        ensures parts { self ≡ record { journal = result.1; state = result.0; hand = self.hand } }
        ensures in_step { IsNode ⟦<R as Rules>⟧ self }
    {
        let Self {
            state,
            journal,
            hand: _,
            body: _,
        } = self;
        (state, journal)
    }

    /// The state of the records.
    pub fn state(&self) -> &R::State
        ensures { result.now ≡ self.now.state }
    {
        &self.state
    }

    /// How many records there are, without one in hand.
    pub fn count(&self) -> u64
        ensures count { result ≡ self.now.journal.count }
        ensures records { (records : List R.Rec) → StandsFor ⟦<R as Rules>⟧ D.Reports self.now records
            → result ≡ length records }
        ensures within { result ≤ (R.limits_of self.now.state).records }
    {
        self.journal.count()
    }

    /// The disk, to look at.
    pub fn disk(&self) -> &D
        ensures { result.now ≡ self.now.journal.disk }
    {
        self.journal.disk()
    }

    /// The disk.
    pub fn into_disk(self) -> D
        ensures disk { result ≡ self.journal.disk }
        ensures images { (records : List R.Rec) → StandsFor ⟦<R as Rules>⟧ D.Reports self records
            → EachImage D.Reports result (StandsEither ⟦<R as Rules>⟧ records self.hand) }
        ensures meets { (records : List R.Rec) → StandsFor ⟦<R as Rules>⟧ D.Reports self records
            → MeetsBoth ⟦<R as Rules>⟧ (R.limits_of self.state) records self.hand }
    {
        self.journal.into_disk()
    }
}

impl<R: Rules, D: Fused> Node<R, D> {
    /// Lets this many further calls of the disk pass, and then none. Nothing else changes.
    pub fn fuse(&mut self, calls: u32)
        ensures disk { IsFused D.Reports calls self.old.journal.disk self.new.journal.disk }
        ensures has { (room : ℕ) → HasCalls 0 room (D.budget self.old.journal.disk)
            → HasCalls calls room (D.budget self.new.journal.disk) }
        ensures left { (room : ℕ) → HasCalls 0 room (D.budget self.old.journal.disk)
            → HasLeft calls (D.budget self.new.journal.disk) }
        ensures same { self.new ≡ record self.old {
          journal = record self.old.journal { disk = self.new.journal.disk };
        } }
        ensures records { (records : List R.Rec) → StandsFor ⟦<R as Rules>⟧ D.Reports self.old records
            → StandsFor ⟦<R as Rules>⟧ D.Reports self.new records }
    {
        self.journal.fuse(calls);
    }
}
