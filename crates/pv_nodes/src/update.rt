ghost use Rattle.std.specs.Prelude.{◌≡◌, ◌≤◌, length, IfOk, OnOk, OnErr};
ghost use Rattle.pv_memory.specs.Medium.{image_of};
ghost use Rattle.pv_udc.specs.EditList.{empty_list};
ghost use Rattle.pv_udc.specs.Judgement.{judge};
ghost use Rattle.pv_udc.specs.Requests.{IsRequest};
ghost use Rattle.pv_nodes.specs.Cutting.{MayBecome, kept_record, IsStop};
ghost use Rattle.pv_nodes.specs.Nodes.{told_of, stored_of};
ghost use Rattle.pv_nodes.specs.OnDisk.{UpdateIsOnDisk, list_with};

use crate::cut::Cut;
use crate::mem::MemNode;
use pv_node::Told;
use pv_outside::Limits;
use pv_udc::{UdcReply, UdcRequest, UdcRules, UdcState};
use std::alloc::{AllocError, Global};
use std::marker::Model;

/// The Update Centre's node, which contracts see as its edit list and its disk.
pub struct UpdateNode {
    node: MemNode<UdcRules>,
}

impl Model for UpdateNode {
    ghost use Rattle.pv_udc.specs.EditList.{EditList};
    ghost use Rattle.pv_nodes.specs.OnDisk.{OnDisk};

    ghost Value = { OnDisk EditList };

    ghost view = { λ n. record { state = n.node.state; disk = n.node.journal.disk } };
}

impl Drop for UpdateNode {
    /// One call in place of a drop for each part: the proof of whoever holds it stays short.
    fn drop(self) {
        let UpdateNode { node: _ } = self;
    }
}

impl UpdateNode {
    /// The node of no records. All memory that it ever needs is taken here.
    pub fn open(alloc: Global, limits: Limits) -> Result<UpdateNode, AllocError>
        ensures nothing { IfOk result (λ node. node.state ≡ empty_list limits) }
        ensures on_disk { IfOk result UpdateIsOnDisk }
    {
        Ok(UpdateNode {
            node: MemNode::open(alloc, limits)?,
        })
    }

    /// Judges a request: the reply, once a crash leaves the record that it stores; or the count of the records
    /// of a node that is full. Takes no memory.
    pub fn ask(&mut self, request: &UdcRequest) -> Result<Told<UdcReply>, u64>
        requires { IsRequest request.now }
        ensures told { result ≡ told_of self.old.state.limits.records (length self.old.state.records)
            (judge self.old.state.limits self.old.state.records request.now) }
        ensures state { self.new.state ≡ list_with self.old.state
            (stored_of self.old.state.limits.records (length self.old.state.records)
            (judge self.old.state.limits self.old.state.records request.now)) }
        ensures on_disk { UpdateIsOnDisk self.new }
    {
        self.node.ask(request)
    }

    /// What the node knows.
    pub fn state(&self) -> &UdcState
        ensures { result.now ≡ self.now.state }
    {
        self.node.state()
    }

    /// How many records it has.
    pub fn count(&self) -> u64
        ensures count { result ≡ length self.now.state.records }
        ensures within { result ≤ self.now.state.limits.records }
    {
        self.node.count()
    }

    /// Loses the node, and opens it again from the image of this number that a crash leaves of its disk. It
    /// knows the same. This takes memory: without it the node stays as it is.
    pub fn crash(&mut self, alloc: Global, image: u8) -> Result<(), AllocError>
        ensures ok { OnOk result (self.new.state ≡ self.old.state) }
        ensures bytes { OnOk result (self.new.disk.text ≡ image_of self.old.disk image) }
        ensures err { OnErr result (self.new ≡ self.old) }
        ensures on_disk { UpdateIsOnDisk self.new }
    {
        self.node.crash(alloc, image)
    }

    /// Stops the node within the ask of a request: its disk passes this many more calls and then none, nothing is replied,
    /// and the node is opened again from the image of this number that a crash then leaves. Returns what became of the
    /// record that was to be stored. This takes memory: without it the node stays as it is, and nothing was asked.
    pub fn cut(
        &mut self,
        alloc: Global,
        request: &UdcRequest,
        calls: u8,
        image: u8,
    ) -> Result<Cut, AllocError>
        requires { IsRequest request.now }
        ensures may { IfOk result (MayBecome calls
            (stored_of self.old.state.limits.records (length self.old.state.records)
            (judge self.old.state.limits self.old.state.records request.now))) }
        ensures state { IfOk result (λ cut. self.new.state ≡ list_with self.old.state (kept_record
            (stored_of self.old.state.limits.records (length self.old.state.records)
            (judge self.old.state.limits self.old.state.records request.now)) cut)) }

        // The disk is left with the image, and without memory nothing happened.
        ensures bytes { OnOk result (IsStop calls image self.old.disk self.new.disk.text) }
        ensures err { OnErr result (self.new ≡ self.old) }
        ensures on_disk { UpdateIsOnDisk self.new }
    {
        self.node.cut(alloc, request, calls, image)
    }
}
