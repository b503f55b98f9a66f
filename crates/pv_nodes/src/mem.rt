ghost use Rattle.std.specs.Prelude.{◌≡◌, ℕ, ◌≤◌, List, [], length, is_some, IfOk, IfErr, OnOk, OnErr};
ghost use Rattle.pv_outside.specs.Disk.{IsEndless};
ghost use Rattle.pv_journal.specs.Log.{longest};
ghost use Rattle.pv_memory.specs.Medium.{budget_of, image_of};
ghost use Rattle.pv_memory.specs.contracts.disk.MemDiskReports.TheImpl as memory;
ghost use Rattle.pv_node.specs.Asking.{records_with};
ghost use Rattle.pv_node.specs.Standing.{DiskStands, StandsFor};
ghost use Rattle.pv_node.specs.declared.fault.NodeFault.TheVariants as faults;
ghost use Rattle.pv_nodes.specs.Cutting.{IsLeft, IsCut, IsStop};
ghost use Rattle.pv_nodes.specs.Nodes.{IsMemNode, IsReady, told_of, stored_of, state_with, OpensAgain};

use crate::cut::Cut;
use pv_journal::{format, longest};
use pv_memory::MemDisk;
use pv_node::{AskFault, Decision, Node, NodeFault, Rules, Told};
use pv_outside::Limits;
use std::alloc::{AllocError, Global};
use std::marker::Model;

/// A node over a disk in memory that has room for all records, and of which no call fails.
#[derive(Drop)]
pub struct MemNode<R: Rules> {
    node: Node<R, MemDisk>,
    limits: Limits,
}

impl<R: Rules> Model for MemNode<R> {
    ghost use Rattle.std.specs.Prelude.{◌≡◌};
    ghost use Rattle.pv_memory.specs.Medium.{Medium};
    ghost use Rattle.pv_node.specs.Parts.{Parts};
    ghost use Rattle.pv_nodes.specs.Nodes.{IsMemNode};

    ghost Value = { Parts Medium R.State R.Rec };

    ghost view = { λ n. n.node };

    ghost invariant = { λ n. IsMemNode R.Rules n.node × (R.limits_of n.node.state ≡ n.limits) };
}

impl<R: Rules> MemNode<R> {
    /// The node of no records. All memory that it ever needs is taken here.
    pub fn open(alloc: Global, limits: Limits) -> Result<MemNode<R>, AllocError>
        ensures nothing { IfOk result (λ node. StandsFor ⟦<R as Rules>⟧ memory.ghosts node []) }
        ensures is { IfOk result (IsMemNode ⟦<R as Rules>⟧) }
        ensures limits { IfOk result (λ node. R.limits_of node.state ≡ limits) }
    {
        let mut disk = MemDisk::new(alloc, longest(limits.records), &[])?;
        // The disk has room for it and no call fails, so it is a journal without records.
        let _ = format(&mut disk);
        MemNode::on_disk(alloc, disk, limits)
    }

    /// The node of the records of a disk.
    fn on_disk(alloc: Global, disk: MemDisk, limits: Limits) -> Result<MemNode<R>, AllocError>
        requires { IsReady ⟦<R as Rules>⟧ limits disk }
        ensures stands { IfOk result (λ node. (records : List R.Rec)
            → DiskStands ⟦<R as Rules>⟧ memory.ghosts disk records
            → StandsFor ⟦<R as Rules>⟧ memory.ghosts node records) }
        ensures is { IfOk result (IsMemNode ⟦<R as Rules>⟧) }
        ensures bytes { IfOk result (λ node. node.journal.disk.text ≡ disk.text) }
        ensures limits { IfOk result (λ node. R.limits_of node.state ≡ limits) }
    {
        match open_node(alloc, disk, limits) {
            Ok(node) => Ok(MemNode { node, limits }),
            Err(_) => Err(AllocError),
        }
    }

    /// Answers a request: the reply, once a crash leaves the record that it stores; or the count of the records
    /// of a node that is full. Takes no memory.
    pub fn ask(&mut self, request: &R::Request) -> Result<Told<R::Reply>, u64>
        requires { R.is_request request.now }
        ensures told { result ≡ told_of (R.limits_of self.old.state).records (R.count_of self.old.state)
            (R.judgement self.old.state request.now) }
        ensures state { self.new.state ≡ state_with ⟦<R as Rules>⟧ self.old.state
            (stored_of (R.limits_of self.old.state).records (R.count_of self.old.state)
            (R.judgement self.old.state request.now)) }

        // It stands for the records that it stood for and the new one, and each image of its disk does.
        ensures stands { (records : List R.Rec) → StandsFor ⟦<R as Rules>⟧ memory.ghosts self.old records
            → StandsFor ⟦<R as Rules>⟧ memory.ghosts self.new (records_with records
            (stored_of (R.limits_of self.old.state).records (R.count_of self.old.state)
            (R.judgement self.old.state request.now))) }
        ensures is { IsMemNode ⟦<R as Rules>⟧ self.new }
    {
        match self.node.ask(request) {
            Ok(told) => Ok(told),
            Err(AskFault::Full { count }) => Err(count),
            // It never comes: the disk has room for all records, and no call of it fails.
            Err(AskFault::Disk(_)) => Err(self.node.count()),
        }
    }

    /// What the node knows.
    pub fn state(&self) -> &R::State
        ensures { result.now ≡ self.now.state }
    {
        self.node.state()
    }

    /// How many records it has.
    pub fn count(&self) -> u64
        ensures count { result ≡ R.count_of self.now.state }
        ensures within { result ≤ (R.limits_of self.now.state).records }
    {
        self.node.count()
    }

    /// Loses the node, and opens it again from the image of this number that a crash leaves of its disk. It
    /// stands for the same records. This takes memory: without it the node stays as it is.
    pub fn crash(&mut self, alloc: Global, image: u8) -> Result<(), AllocError>
        ensures was { IsMemNode ⟦<R as Rules>⟧ self.old }
        ensures ok { OnOk result (OpensAgain ⟦<R as Rules>⟧ self.old self.new) }
        ensures bytes { OnOk result (self.new.journal.disk.text ≡ image_of self.old.journal.disk image) }
        ensures err { OnErr result (self.new ≡ self.old) }
        ensures is { IsMemNode ⟦<R as Rules>⟧ self.new }
    {
        let disk = self.node.disk().image(alloc, image)?;
        *self = MemNode::on_disk(alloc, disk, self.limits)?;
        Ok(())
    }

    /// Stops the node within the ask of a request: its disk passes this many more calls and then none, nothing is replied,
    /// and the node is opened again from the image of this number that a crash then leaves. Returns what became of the
    /// record that was to be stored. This takes memory: without it the node stays as it is, and nothing was asked.
    pub fn cut(
        &mut self,
        alloc: Global,
        request: &R::Request,
        calls: u8,
        image: u8,
    ) -> Result<Cut, AllocError>
        requires { R.is_request request.now }
        ensures was { IsMemNode ⟦<R as Rules>⟧ self.old }
        ensures ok { IfOk result (λ cut. IsCut ⟦<R as Rules>⟧ calls
            (stored_of (R.limits_of self.old.state).records (R.count_of self.old.state)
            (R.judgement self.old.state request.now)) cut self.old self.new) }

        // The disk is left with the image, and without memory nothing happened.
        ensures bytes { OnOk result (IsStop calls image self.old.journal.disk self.new.journal.disk.text) }
        ensures err { OnErr result (self.new ≡ self.old) }
        ensures is { IsMemNode ⟦<R as Rules>⟧ self.new }
    {
        let stores = self.stores(request);
        let disk = self.stopped_disk(alloc, request, calls, image)?;
        let opened = MemNode::on_disk(alloc, disk, self.limits)?;
        let cut = Cut::by(stores, self.count(), opened.count());
        *self = opened;
        Ok(cut)
    }

    /// Whether a request would have a record stored.
    fn stores(&self, request: &R::Request) -> bool
        requires { R.is_request request.now }
        ensures { result ≡ is_some (stored_of (R.limits_of self.now.state).records (R.count_of self.now.state)
            (R.judgement self.now.state request.now)) }
    {
        match R::decide(self.node.state(), request) {
            Decision::Store(_, _) => self.node.count() < self.limits.records as u64,
            Decision::Answer(_) => false,
        }
    }

    /// The image of this number that a crash leaves of a copy of the disk, once this many calls of it passed in the ask of a
    /// request.
    fn stopped_disk(
        &self,
        alloc: Global,
        request: &R::Request,
        calls: u8,
        image: u8,
    ) -> Result<MemDisk, AllocError>
        requires { R.is_request request.now }
        ensures left { IfOk result (λ disk. (records : List R.Rec)
            → StandsFor ⟦<R as Rules>⟧ memory.ghosts self.now records
            → IsLeft ⟦<R as Rules>⟧ calls
            (stored_of (R.limits_of self.now.state).records (R.count_of self.now.state)
            (R.judgement self.now.state request.now)) (R.limits_of self.now.state) disk records) }
        ensures endless { IfOk result
            (λ disk. IsEndless (longest (R.limits_of self.now.state).records) (budget_of disk)) }
        ensures bytes { IfOk result (λ disk. IsStop calls image self.now.journal.disk disk.text) }
    {
        let disk = self.node.disk().image(alloc, AS_IT_READS)?;
        let Ok(mut node) = open_node::<R>(alloc, disk, self.limits) else {
            return Err(AllocError);
        };
        node.fuse(calls as u32);
        // Nothing of the answer leaves the node.
        let _ = node.ask(request);
        node.disk().image(alloc, image)
    }
}

/// The number of the image of a disk that is what the disk reads as.
const AS_IT_READS: u8 = 1;

/// Opens the node of the records of a disk. The only error is that memory ran out.
fn open_node<R: Rules>(
    alloc: Global,
    disk: MemDisk,
    limits: Limits,
) -> Result<Node<R, MemDisk>, NodeFault<MemDisk>>
    requires { IsReady ⟦<R as Rules>⟧ limits disk }

    // The node is that of the disk's records; and nothing but memory can be missing.
    ensures opened { IfOk result (IsMemNode ⟦<R as Rules>⟧) }
    ensures stands { IfOk result (λ node. (records : List R.Rec)
        → DiskStands ⟦<R as Rules>⟧ memory.ghosts disk records
        → StandsFor ⟦<R as Rules>⟧ memory.ghosts node records) }
    ensures bytes { IfOk result (λ node. node.journal.disk.text ≡ disk.text) }
    ensures limits { IfOk result (λ node. R.limits_of node.state ≡ limits) }
    ensures memory { IfErr result (λ fault. fault ≡ faults.Memory) }
{
    match Node::open(alloc, disk, limits) {
        Ok(node) => Ok(node),
        Err((fault, _)) => Err(fault),
    }
}
