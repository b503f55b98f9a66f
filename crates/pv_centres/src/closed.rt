//! What has become of the nodes of a network as they were closed.
ghost use Rattle.std.specs.Prelude.{◌≡◌, true, vec_len, IfOk, IfErr, IfSome};
ghost use Rattle.pv_centres.specs.Closed.{AreNodes, AreSeenStored, disk_of, disks_left, given_back, is_seen_stored};
ghost use Rattle.pv_centres.specs.Served.{IsGivenBack};

use crate::nodes::{NodeDisks, Nodes};
use pv_group::{GroupRun, LeftDisk, Live};
use pv_irc::IrcRules;
use pv_live::Pass;
use pv_node::{Node, Rules};
use pv_outside::Disk;
use pv_udc::UdcRules;
use std::sync::Wait;

/// What a live node has become as it was closed: its node, or, if a call of its disk failed then, its disk.
pub type ClosedNode<R, D> = Result<Node<R, D>, LeftDisk<D>>;

/// What has become of the nodes of a network. Of a centre that the network does not have there is nothing.
#[derive(Drop)]
pub struct ClosedNodes<D: Disk + Drop> {
    /// The Update Centre.
    pub update: ClosedNode<UdcRules, D>,
    /// Centre 0.
    pub first: Option<ClosedNode<IrcRules<0>, D>>,
    /// Centre 1.
    pub second: Option<ClosedNode<IrcRules<1>, D>>,
    /// Centre 2.
    pub third: Option<ClosedNode<IrcRules<2>, D>>,
    /// Centre 3.
    pub fourth: Option<ClosedNode<IrcRules<3>, D>>,
}

/// Closes a live node with these passes, which are all that it has.
pub(crate) fn close_live<R: Rules, D: Disk, N: GroupRun<R::Rec>, H: Wait + Drop>(
    live: Live<R, D, N, H>,
    passes: Vec<Pass<R, N>>,
) -> ClosedNode<R, D>
    requires { vec_len passes ≡ N.passes }
    ensures { IsGivenBack ⟦<R as Rules>⟧ D.Reports N.limits N.opening passes.items result }
{
    match live.close(passes) {
        Ok(closed) => Ok(closed.node),
        Err(left) => Err(left),
    }
}

/// The disks of a network's nodes, after a call of one has failed at its closing.
#[derive(Drop)]
pub struct LeftNodes<D: Disk + Drop> {
    /// Why the first of those calls failed, in the order of the nodes.
    pub failure: D::Failure,
    /// Whether it was counted at each such closing that what the passes have seen is stored.
    pub seen_is_stored: bool,
    /// The disks.
    pub disks: NodeDisks<D>,
}

impl<D: Disk + Drop> ClosedNodes<D> {
    /// The nodes, if all were given back. Else the disks of all.
    pub fn into_nodes(self) -> Result<Nodes<D>, LeftNodes<D>>
        ensures nodes { IfOk result (AreNodes self) }
        ensures seen { IfErr result (λ left. left.seen_is_stored ≡ true → AreSeenStored self) }
        ensures disks { IfErr result (λ left. left.disks ≡ disks_left self) }
    {
        let seen_is_stored = self.are_seen_stored();
        let first = given_back(self.first);
        let second = given_back(self.second);
        let third = given_back(self.third);
        let fourth = given_back(self.fourth);
        match (self.update, first, second, third, fourth) {
            (Ok(update), Ok(first), Ok(second), Ok(third), Ok(fourth)) => Ok(Nodes {
                update,
                first,
                second,
                third,
                fourth,
            }),
            (Err(left), b, c, d, e) => {
                let disks = NodeDisks::new(
                    left.disk,
                    disk_of(b),
                    disk_of(c),
                    disk_of(d),
                    disk_of(e),
                );
                Err(LeftNodes {
                    failure: left.failure,
                    seen_is_stored,
                    disks,
                })
            }
            (Ok(a), Err(left), c, d, e) => {
                let disks = NodeDisks::new(
                    a.into_disk(),
                    Some(left.disk),
                    disk_of(c),
                    disk_of(d),
                    disk_of(e),
                );
                Err(LeftNodes {
                    failure: left.failure,
                    seen_is_stored,
                    disks,
                })
            }
            (Ok(a), Ok(b), Err(left), d, e) => {
                let disks = NodeDisks::new(
                    a.into_disk(),
                    disk_of(Ok(b)),
                    Some(left.disk),
                    disk_of(d),
                    disk_of(e),
                );
                Err(LeftNodes {
                    failure: left.failure,
                    seen_is_stored,
                    disks,
                })
            }
            (Ok(a), Ok(b), Ok(c), Err(left), e) => {
                let disks = NodeDisks::new(
                    a.into_disk(),
                    disk_of(Ok(b)),
                    disk_of(Ok(c)),
                    Some(left.disk),
                    disk_of(e),
                );
                Err(LeftNodes {
                    failure: left.failure,
                    seen_is_stored,
                    disks,
                })
            }
            (Ok(a), Ok(b), Ok(c), Ok(d), Err(left)) => {
                let disks = NodeDisks::new(
                    a.into_disk(),
                    disk_of(Ok(b)),
                    disk_of(Ok(c)),
                    disk_of(Ok(d)),
                    Some(left.disk),
                );
                Err(LeftNodes {
                    failure: left.failure,
                    seen_is_stored,
                    disks,
                })
            }
        }
    }

    /// Whether it was counted of each node of which only the disk was given back that what its passes have seen is
    /// stored.
    fn are_seen_stored(&self) -> bool
        ensures { result ≡ true → AreSeenStored self.now }
    {
        is_seen_stored(&self.update)
            && is_seen_if_there(&self.first)
            && is_seen_if_there(&self.second)
            && is_seen_if_there(&self.third)
            && is_seen_if_there(&self.fourth)
    }
}

/// Whether what the passes of this node have seen is stored: it is if the node was given back, or if it was counted.
fn is_seen_stored<R: Rules, D: Disk>(node: &ClosedNode<R, D>) -> bool
    ensures { result ≡ is_seen_stored node.now }
{
    match node {
        Ok(_) => true,
        Err(left) => left.seen_is_stored,
    }
}

/// Whether it is so if the network has this centre.
fn is_seen_if_there<R: Rules, D: Disk>(node: &Option<ClosedNode<R, D>>) -> bool
    ensures { result ≡ true → IfSome node.now (λ n. is_seen_stored n ≡ true) }
{
    match node {
        Some(node) => is_seen_stored(node),
        None => true,
    }
}

/// The node, if it was given back or the network does not have it.
fn given_back<R: Rules, D: Disk>(
    node: Option<ClosedNode<R, D>>,
) -> Result<Option<Node<R, D>>, LeftDisk<D>>
    ensures { result ≡ given_back node }
{
    match node {
        Some(Ok(node)) => Ok(Some(node)),
        Some(Err(left)) => Err(left),
        None => Ok(None),
    }
}

/// The disk of a node, if the network has it.
fn disk_of<R: Rules, D: Disk>(node: Result<Option<Node<R, D>>, LeftDisk<D>>) -> Option<D>
    ensures { result ≡ disk_of node }
{
    match node {
        Ok(Some(node)) => Some(node.into_disk()),
        Ok(None) => None,
        Err(left) => Some(left.disk),
    }
}
