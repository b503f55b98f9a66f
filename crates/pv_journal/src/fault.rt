ghost use Rattle.std.specs.Prelude.{nat_eq};
ghost use Rattle.std.specs.Ordering.{on, eq_of_both};
ghost use Rattle.std.specs.Cmp.{on_per, and_per, partial_equiv_from_equiv};
ghost use Rattle.std.specs.Cmp.Lexicographic.{pointwise, lists_per, nat_list_eq_equiv};
ghost use Rattle.pv_journal.specs.Equality.{open_failures, other_mark, broken_places, passed_limits, append_failures, full_counts};

use pv_outside::Disk;
use std::fmt;

/// Why a journal could not be opened.
#[derive(Drop)]
pub enum OpenFault<D: Disk> {
    /// A call of the disk failed.
    Disk(D::Failure),
    /// These first eight bytes, filled up with 0, are not the mark.
    NotFormatted([u8; 8]),
    /// No byte is at this place, where a gate should, or the gate is open and no whole body follows.
    Broken { at: u64 },
    /// There is a further body after `count` of them, which is the limit.
    TooMany { count: u64 },
}

impl<D: Disk> PartialEq for OpenFault<D>
where
    D::Failure: PartialEq,
{
    ghost eq = { eq_of_both
        (eq_of_both (on open_failures (pointwise D.Failure.eq)) (on other_mark (pointwise nat_eq)))
        (eq_of_both (on broken_places (pointwise nat_eq)) (on passed_limits (pointwise nat_eq))) };

    ghost laws = { and_per
        (and_per
        (on_per open_failures (lists_per D.Failure.laws))
        (on_per other_mark (partial_equiv_from_equiv nat_list_eq_equiv)))
        (and_per
        (on_per broken_places (partial_equiv_from_equiv nat_list_eq_equiv))
        (on_per passed_limits (partial_equiv_from_equiv nat_list_eq_equiv))) };

    fn eq(&self, other: &Self) -> bool {
        match (self, other) {
            (OpenFault::Disk(failure), OpenFault::Disk(other)) => failure == other,
            (OpenFault::NotFormatted(first), OpenFault::NotFormatted(other)) => first == other,
            (OpenFault::Broken { at }, OpenFault::Broken { at: other }) => at == other,
            (OpenFault::TooMany { count }, OpenFault::TooMany { count: other }) => count == other,
            _ => false,
        }
    }
}

impl<D: Disk> fmt::Debug for OpenFault<D>
where
    D::Failure: fmt::Debug,
{
    fn fmt<W: fmt::Write>(&self, f: &mut fmt::Formatter<W>) -> fmt::Result {
        match self {
            OpenFault::Disk(failure) => write!(f, "Disk({failure:?})"),
            OpenFault::NotFormatted(first) => write!(f, "NotFormatted({first:?})"),
            OpenFault::Broken { at } => write!(f, "Broken {{ at: {at} }}"),
            OpenFault::TooMany { count } => write!(f, "TooMany {{ count: {count} }}"),
        }
    }
}

/// Why a body was not appended.
#[derive(Drop)]
pub enum AppendFault<D: Disk> {
    /// A call of the disk failed. The body is in hand.
    Disk(D::Failure),
    /// There are `count` bodies, which is the limit.
    Full { count: u64 },
}

impl<D: Disk> PartialEq for AppendFault<D>
where
    D::Failure: PartialEq,
{
    ghost eq = { eq_of_both
        (on append_failures (pointwise D.Failure.eq))
        (on full_counts (pointwise nat_eq)) };

    ghost laws = { and_per
        (on_per append_failures (lists_per D.Failure.laws))
        (on_per full_counts (partial_equiv_from_equiv nat_list_eq_equiv)) };

    fn eq(&self, other: &Self) -> bool {
        match (self, other) {
            (AppendFault::Disk(failure), AppendFault::Disk(other)) => failure == other,
            (AppendFault::Full { count }, AppendFault::Full { count: other }) => count == other,
            _ => false,
        }
    }
}

impl<D: Disk> fmt::Debug for AppendFault<D>
where
    D::Failure: fmt::Debug,
{
    fn fmt<W: fmt::Write>(&self, f: &mut fmt::Formatter<W>) -> fmt::Result {
        match self {
            AppendFault::Disk(failure) => write!(f, "Disk({failure:?})"),
            AppendFault::Full { count } => write!(f, "Full {{ count: {count} }}"),
        }
    }
}
