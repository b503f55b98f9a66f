ghost use Rattle.std.specs.Prelude.{◌≡◌, ◌<◌, ◌≤◌, [], IfOk, OnOk, OnErr};
ghost use Rattle.pv_memory.specs.Medium.{image_of};
ghost use Rattle.pv_irc.specs.Deciding.{IsCentreRequest, centre_judgement};
ghost use Rattle.pv_irc.specs.History.{centre_state_of, state_count};
ghost use Rattle.pv_nodes.specs.Cutting.{MayBecome, kept_record, IsStop};
ghost use Rattle.pv_nodes.specs.Nodes.{told_of, stored_of};
ghost use Rattle.pv_nodes.specs.OnDisk.{CentreIsOnDisk, centre_with};
ghost use Rattle.pv_nodes.specs.AnyNode.{on_disk};
ghost use Rattle.pv_account.specs.declared.account.TheConstants.{MAX_CENTRES};

use crate::cut::Cut;
use crate::mem::MemNode;
use pv_irc::{IrcReply, IrcRequest, IrcRules, IrcState};
use pv_node::Told;
use pv_outside::Limits;
use std::alloc::{AllocError, Global};
use std::marker::Model;

/// A node of the rules of one of the four numbers.
#[derive(Drop)]
pub(crate) enum AnyNode {
    Zero(MemNode<IrcRules<0>>),
    One(MemNode<IrcRules<1>>),
    Two(MemNode<IrcRules<2>>),
    Three(MemNode<IrcRules<3>>),
}

/// The expression, of the node that it is.
macro_rules! on_node {
    ($any:expr, $node:ident => $act:expr) => {
        match $any {
            AnyNode::Zero($node) => $act,
            AnyNode::One($node) => $act,
            AnyNode::Two($node) => $act,
            AnyNode::Three($node) => $act,
        }
    };
}

/// A retrieval centre's node, which contracts see as what the centre knows, with its number, and its disk.
pub struct CentreNode {
    node: AnyNode,
}

impl Model for CentreNode {
    ghost use Rattle.pv_irc.specs.History.{CentreState};
    ghost use Rattle.pv_nodes.specs.OnDisk.{OnDisk};
    ghost use Rattle.pv_nodes.specs.AnyNode.{seen_of};

    ghost Value = { OnDisk CentreState };

    ghost view = { λ n. seen_of n.node };
}

impl Drop for CentreNode {
    /// One call in place of a drop for each part: the proof of whoever holds it stays short.
    fn drop(self) {
        let CentreNode { node: _ } = self;
    }
}

impl CentreNode {
    /// The node of the centre of this number, which is below [`MAX_CENTRES`](pv_account::MAX_CENTRES), with no
    /// records. All memory that it ever needs is taken here.
    pub fn open(alloc: Global, number: u8, limits: Limits) -> Result<CentreNode, AllocError>
        requires { number < MAX_CENTRES }
        ensures nothing { IfOk result (λ node. node.state ≡ centre_state_of number limits []) }
        ensures on_disk { IfOk result CentreIsOnDisk }
    {
        let node = match number {
            0 => AnyNode::Zero(open_node(alloc, limits)?),
            1 => AnyNode::One(open_node(alloc, limits)?),
            2 => AnyNode::Two(open_node(alloc, limits)?),
            _ => AnyNode::Three(open_node(alloc, limits)?),
        };
        Ok(CentreNode { node })
    }

    /// Judges a request: the reply, once a crash leaves the record that it stores; or the count of the records
    /// of a node that is full. Takes no memory.
    pub fn ask(&mut self, request: &IrcRequest) -> Result<Told<IrcReply>, u64>
        requires { IsCentreRequest request.now }
        ensures told { result ≡ told_of self.old.state.limits.records (state_count self.old.state)
            (centre_judgement self.old.state request.now) }
        ensures state { self.new.state ≡ centre_with self.old.state
            (stored_of self.old.state.limits.records (state_count self.old.state)
            (centre_judgement self.old.state request.now)) }
        ensures on_disk { CentreIsOnDisk self.new }
    {
        on_node!(&mut self.node, node => ask_node(node, request))
    }

    /// What the centre knows.
    pub fn state(&self) -> &IrcState
        ensures { result.now ≡ self.now.state }
    {
        on_node!(&self.node, node => node.state())
    }

    /// How many records it has.
    pub fn count(&self) -> u64
        ensures count { result ≡ state_count self.now.state }
        ensures within { result ≤ self.now.state.limits.records }
    {
        on_node!(&self.node, node => node.count())
    }

    /// Loses the node, and opens it again from the image of this number that a crash leaves of its disk. It
    /// knows the same. This takes memory: without it the node stays as it is.
    pub fn crash(&mut self, alloc: Global, image: u8) -> Result<(), AllocError>
        ensures ok { OnOk result (self.new.state ≡ self.old.state) }
        ensures bytes { OnOk result (self.new.disk.text ≡ image_of self.old.disk image) }
        ensures err { OnErr result (self.new ≡ self.old) }
        ensures on_disk { CentreIsOnDisk self.new }
    {
        on_node!(&mut self.node, node => crash_node(node, alloc, image))
    }

    /// Stops the node within the ask of a request: its disk passes this many more calls and then none, nothing is replied,
    /// and the node is opened again from the image of this number that a crash then leaves. Returns what became of the
    /// record that was to be stored. This takes memory: without it the node stays as it is, and nothing was asked.
    pub fn cut(
        &mut self,
        alloc: Global,
        request: &IrcRequest,
        calls: u8,
        image: u8,
    ) -> Result<Cut, AllocError>
        requires { IsCentreRequest request.now }
        ensures may { IfOk result (MayBecome calls
            (stored_of self.old.state.limits.records (state_count self.old.state)
            (centre_judgement self.old.state request.now))) }
        ensures state { IfOk result (λ cut. self.new.state ≡ centre_with self.old.state (kept_record
            (stored_of self.old.state.limits.records (state_count self.old.state)
            (centre_judgement self.old.state request.now)) cut)) }

        // The disk is left with the image, and without memory nothing happened.
        ensures bytes { OnOk result (IsStop calls image self.old.disk self.new.disk.text) }
        ensures err { OnErr result (self.new ≡ self.old) }
        ensures on_disk { CentreIsOnDisk self.new }
    {
        on_node!(&mut self.node, node => cut_node(node, alloc, request, calls, image))
    }
}

/// The node of no records, of the rules of a number.
fn open_node<const C: u8>(alloc: Global, limits: Limits) -> Result<MemNode<IrcRules<C>>, AllocError>
    ensures nothing { IfOk result (λ node. node.state ≡ centre_state_of C limits []) }
    ensures on_disk { IfOk result (λ node. CentreIsOnDisk (on_disk node)) }
{
    MemNode::open(alloc, limits)
}

/// Asks a node of the rules of a number.
fn ask_node<const C: u8>(
    node: &mut MemNode<IrcRules<C>>,
    request: &IrcRequest,
) -> Result<Told<IrcReply>, u64>
    requires { IsCentreRequest request.now }
    ensures told { result ≡ told_of node.old.state.limits.records (state_count node.old.state)
        (centre_judgement node.old.state request.now) }
    ensures state { node.new.state ≡ centre_with node.old.state
        (stored_of node.old.state.limits.records (state_count node.old.state)
        (centre_judgement node.old.state request.now)) }
    ensures on_disk { CentreIsOnDisk (on_disk node.new) }
{
    node.ask(request)
}

/// Stops a node of the rules of a number within an ask, and opens it again.
fn cut_node<const C: u8>(
    node: &mut MemNode<IrcRules<C>>,
    alloc: Global,
    request: &IrcRequest,
    calls: u8,
    image: u8,
) -> Result<Cut, AllocError>
    requires { IsCentreRequest request.now }
    ensures may { IfOk result (MayBecome calls
        (stored_of node.old.state.limits.records (state_count node.old.state)
        (centre_judgement node.old.state request.now))) }
    ensures state { IfOk result (λ cut. node.new.state ≡ centre_with node.old.state (kept_record
        (stored_of node.old.state.limits.records (state_count node.old.state)
        (centre_judgement node.old.state request.now)) cut)) }

    // The disk is left with the image, and without memory nothing happened.
    ensures bytes { OnOk result (IsStop calls image node.old.journal.disk node.new.journal.disk.text) }
    ensures err { OnErr result (node.new ≡ node.old) }
    ensures on_disk { CentreIsOnDisk (on_disk node.new) }
{
    node.cut(alloc, request, calls, image)
}

/// Loses a node of the rules of a number, and opens it again.
fn crash_node<const C: u8>(
    node: &mut MemNode<IrcRules<C>>,
    alloc: Global,
    image: u8,
) -> Result<(), AllocError>
    ensures ok { OnOk result (node.new.state ≡ node.old.state) }
    ensures bytes { OnOk result (node.new.journal.disk.text ≡ image_of node.old.journal.disk image) }
    ensures err { OnErr result (node.new ≡ node.old) }
    ensures on_disk { CentreIsOnDisk (on_disk node.new) }
{
    node.crash(alloc, image)
}
