ghost use Rattle.std.specs.Prelude.{nat_eq};
ghost use Rattle.std.specs.Ordering.{on, eq_of_both};
ghost use Rattle.std.specs.Cmp.{on_per, and_per, partial_equiv_from_equiv};
ghost use Rattle.std.specs.Cmp.Lexicographic.{pointwise, lists_per, nat_list_eq_equiv};
ghost use Rattle.pv_node.specs.Equality.{memory_faults, node_failures, unmarked_bytes, broken_gates, limits_over, unreadable_places, ask_failures, node_counts};

use pv_outside::Disk;
use std::fmt;

/// Why a node could not be opened.
#[derive(Drop)]
pub enum NodeFault<D: Disk> {
    /// No memory was found for the state.
    Memory,
    /// A call of the disk failed.
    Disk(D::Failure),
    /// These first eight bytes, filled up with 0, are not the mark of a journal.
    NotFormatted([u8; 8]),
    /// No byte is at this place, where a gate should, or the gate is open and no whole body follows.
    Broken { at: u64 },
    /// A further body stands after `count` records, which is the limit.
    TooMany { count: u64 },
    /// The body of this number, from 0, is no record's spelling, or the record has no room in the state.
    Unreadable { number: u64 },
}

impl<D: Disk> PartialEq for NodeFault<D>
where
    D::Failure: PartialEq,
{
    ghost eq = { eq_of_both
        (eq_of_both
        (on memory_faults (pointwise nat_eq))
        (eq_of_both (on node_failures (pointwise D.Failure.eq)) (on unmarked_bytes (pointwise nat_eq))))
        (eq_of_both
        (on broken_gates (pointwise nat_eq))
        (eq_of_both (on limits_over (pointwise nat_eq)) (on unreadable_places (pointwise nat_eq)))) };

    ghost laws = { and_per
        (and_per
        (on_per memory_faults (partial_equiv_from_equiv nat_list_eq_equiv))
        (and_per
        (on_per node_failures (lists_per D.Failure.laws))
        (on_per unmarked_bytes (partial_equiv_from_equiv nat_list_eq_equiv))))
        (and_per
        (on_per broken_gates (partial_equiv_from_equiv nat_list_eq_equiv))
        (and_per
        (on_per limits_over (partial_equiv_from_equiv nat_list_eq_equiv))
        (on_per unreadable_places (partial_equiv_from_equiv nat_list_eq_equiv)))) };

    fn eq(&self, other: &Self) -> bool {
        match (self, other) {
            (NodeFault::Memory, NodeFault::Memory) => true,
            (NodeFault::Disk(failure), NodeFault::Disk(other)) => failure == other,
            (NodeFault::NotFormatted(first), NodeFault::NotFormatted(other)) => first == other,
            (NodeFault::Broken { at }, NodeFault::Broken { at: other }) => at == other,
            (NodeFault::TooMany { count }, NodeFault::TooMany { count: other }) => count == other,
            (NodeFault::Unreadable { number }, NodeFault::Unreadable { number: other }) => {
                number == other
            }
            _ => false,
        }
    }
}

impl<D: Disk> fmt::Debug for NodeFault<D>
where
    D::Failure: fmt::Debug,
{
    fn fmt<W: fmt::Write>(&self, f: &mut fmt::Formatter<W>) -> fmt::Result {
        match self {
            NodeFault::Memory => write!(f, "Memory"),
            NodeFault::Disk(failure) => write!(f, "Disk({failure:?})"),
            NodeFault::NotFormatted(first) => write!(f, "NotFormatted({first:?})"),
            NodeFault::Broken { at } => write!(f, "Broken {{ at: {at} }}"),
            NodeFault::TooMany { count } => write!(f, "TooMany {{ count: {count} }}"),
            NodeFault::Unreadable { number } => write!(f, "Unreadable {{ number: {number} }}"),
        }
    }
}

/// Why a node did not answer a request.
#[derive(Drop)]
pub enum AskFault<D: Disk> {
    /// A call of the disk failed. A record may be in hand.
    Disk(D::Failure),
    /// The request would store a record, and there are `count` records, which is the limit.
    Full { count: u64 },
}

impl<D: Disk> PartialEq for AskFault<D>
where
    D::Failure: PartialEq,
{
    ghost eq = { eq_of_both
        (on ask_failures (pointwise D.Failure.eq))
        (on node_counts (pointwise nat_eq)) };

    ghost laws = { and_per
        (on_per ask_failures (lists_per D.Failure.laws))
        (on_per node_counts (partial_equiv_from_equiv nat_list_eq_equiv)) };

    fn eq(&self, other: &Self) -> bool {
        match (self, other) {
            (AskFault::Disk(failure), AskFault::Disk(other)) => failure == other,
            (AskFault::Full { count }, AskFault::Full { count: other }) => count == other,
            _ => false,
        }
    }
}

impl<D: Disk> fmt::Debug for AskFault<D>
where
    D::Failure: fmt::Debug,
{
    fn fmt<W: fmt::Write>(&self, f: &mut fmt::Formatter<W>) -> fmt::Result {
        match self {
            AskFault::Disk(failure) => write!(f, "Disk({failure:?})"),
            AskFault::Full { count } => write!(f, "Full {{ count: {count} }}"),
        }
    }
}
