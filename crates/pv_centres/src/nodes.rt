ghost use Rattle.std.specs.Prelude.{◌≡◌, ◌∷◌, ◌++◌, [], Some, OnOk, option_to_list};
ghost use Rattle.std.specs.Option.{option_map};
ghost use Rattle.pv_centres.specs.Opening.{centre_count, count_of};
ghost use Rattle.pv_centres.specs.Rest.{is_count, first_full};

use crate::doors::put;
use pv_irc::IrcRules;
use pv_node::{Node, Opened, Rules};
use pv_outside::Disk;
use pv_udc::UdcRules;
use std::alloc::AllocError;
use std::marker::Model;

/// The nodes of a network that were opened. Of a centre that the network does not have there is none.
#[derive(Drop)]
pub struct OpenedNodes<D: Disk + Drop> {
    /// The Update Centre.
    pub update: Opened<UdcRules, D>,
    /// Centre 0.
    pub first: Option<Opened<IrcRules<0>, D>>,
    /// Centre 1.
    pub second: Option<Opened<IrcRules<1>, D>>,
    /// Centre 2.
    pub third: Option<Opened<IrcRules<2>, D>>,
    /// Centre 3.
    pub fourth: Option<Opened<IrcRules<3>, D>>,
}

impl<D: Disk + Drop> OpenedNodes<D> {
    /// How many centres the network has.
    pub fn centres(&self) -> usize
        ensures { result ≡ centre_count self.now }
    {
        there(&self.first) + there(&self.second) + there(&self.third) + there(&self.fourth)
    }
}

/// One if it is there, and else none.
fn there<T>(value: &Option<T>) -> usize
    ensures { result ≡ count_of value.now }
{
    if value.is_some() { 1 } else { 0 }
}

/// The nodes of a network at rest.
#[derive(Drop)]
pub struct Nodes<D: Disk + Drop> {
    /// The Update Centre.
    pub update: Node<UdcRules, D>,
    /// Centre 0.
    pub first: Option<Node<IrcRules<0>, D>>,
    /// Centre 1.
    pub second: Option<Node<IrcRules<1>, D>>,
    /// Centre 2.
    pub third: Option<Node<IrcRules<2>, D>>,
    /// Centre 3.
    pub fourth: Option<Node<IrcRules<3>, D>>,
}

impl<D: Disk + Drop> Nodes<D> {
    /// The first node that has as many records as this, which is the limit of each: 0 is the Update Centre, and c + 1 is
    /// centre c.
    pub fn full(&self, limit: u64) -> Option<u8>
        ensures { result ≡ first_full limit 0 (Some self.now.update.journal.count
            ∷ option_map (λ n. n.journal.count) self.now.first ∷ option_map
            (λ n. n.journal.count) self.now.second
            ∷ option_map (λ n. n.journal.count) self.now.third ∷ option_map
            (λ n. n.journal.count) self.now.fourth ∷ []) }
    {
        if self.update.count() == limit {
            return Some(0);
        }
        if is_full(&self.first, limit) {
            return Some(1);
        }
        if is_full(&self.second, limit) {
            return Some(2);
        }
        if is_full(&self.third, limit) {
            return Some(3);
        }
        if is_full(&self.fourth, limit) {
            return Some(4);
        }
        None
    }

    /// Hands the disks back, in order, after those that are there.
    pub fn give_back(self, disks: &mut Vec<D>) -> Result<(), AllocError>
        ensures { OnOk result (disks.new.items ≡ disks.old.items ++ (self.update.journal.disk
            ∷ (option_to_list (option_map (λ n. n.journal.disk) self.first)
            ++ (option_to_list (option_map (λ n. n.journal.disk) self.second)
            ++ (option_to_list (option_map (λ n. n.journal.disk) self.third)
            ++ option_to_list (option_map (λ n. n.journal.disk) self.fourth)))))) }
    {
        put(disks, self.update.into_disk())?;
        put_disk(disks, self.first)?;
        put_disk(disks, self.second)?;
        put_disk(disks, self.third)?;
        put_disk(disks, self.fourth)
    }
}

/// The disks of a network's nodes. Of a centre that the network does not have there is none.
#[derive(Drop)]
pub struct NodeDisks<D: Disk + Drop> {
    update: D,
    first: Option<D>,
    second: Option<D>,
    third: Option<D>,
    fourth: Option<D>,
}

impl<D: Disk + Drop> Model for NodeDisks<D> {
    ghost use Rattle.std.specs.Prelude.{List, ◌∷◌, ◌++◌, option_to_list};

    ghost Value = { List D };

    ghost view = { λ d. d.update ∷ (option_to_list d.first
        ++ (option_to_list d.second ++ (option_to_list d.third ++ option_to_list d.fourth))) };
}

impl<D: Disk + Drop> NodeDisks<D> {
    /// These disks: that of the Update Centre, and those of the centres.
    pub(crate) fn new(
        update: D,
        first: Option<D>,
        second: Option<D>,
        third: Option<D>,
        fourth: Option<D>,
    ) -> NodeDisks<D>
        ensures { result ≡ update ∷ (option_to_list first
            ++ (option_to_list second ++ (option_to_list third ++ option_to_list fourth))) }
    {
        NodeDisks {
            update,
            first,
            second,
            third,
            fourth,
        }
    }

    /// Hands the disks back, in order, after those that are there.
    pub fn give_back(self, disks: &mut Vec<D>) -> Result<(), AllocError>
        ensures { OnOk result (disks.new.items ≡ disks.old.items ++ self) }
    {
        put(disks, self.update)?;
        put_if_there(disks, self.first)?;
        put_if_there(disks, self.second)?;
        put_if_there(disks, self.third)?;
        put_if_there(disks, self.fourth)
    }
}

/// Whether there is the node and it has as many records as this.
fn is_full<R: Rules, D: Disk + Drop>(node: &Option<Node<R, D>>, limit: u64) -> bool
    ensures { result ≡ is_count limit (option_map (λ n. n.journal.count) node.now) }
{
    match node {
        Some(node) => node.count() == limit,
        None => false,
    }
}

/// Hands a node's disk back, if there is the node.
fn put_disk<R: Rules, D: Disk + Drop>(
    disks: &mut Vec<D>,
    node: Option<Node<R, D>>,
) -> Result<(), AllocError>
    ensures { OnOk result (disks.new.items
        ≡ disks.old.items ++ option_to_list (option_map (λ n. n.journal.disk) node)) }
{
    match node {
        Some(node) => put(disks, node.into_disk()),
        None => Ok(()),
    }
}

/// Hands a disk back, if it is there.
fn put_if_there<D: Disk + Drop>(disks: &mut Vec<D>, disk: Option<D>) -> Result<(), AllocError>
    ensures { OnOk result (disks.new.items ≡ disks.old.items ++ option_to_list disk) }
{
    match disk {
        Some(disk) => put(disks, disk),
        None => Ok(()),
    }
}
