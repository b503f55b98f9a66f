ghost use Rattle.std.specs.Prelude.{◌≡◌, ◌==◌, ◌<◌, ◌≤◌, ◌↔◌, ◌⊎◌, ℕ, List, [], length, take, flat_map, Contains, Some, IsNone, IfOk, IfSome, IsTrue};
ghost use Rattle.std.specs.Int.{w16, to_be_bytes};
ghost use Rattle.std.specs.List.{list_any};
ghost use Rattle.std.specs.List.Sorted.{IsPermutation, IsNonDecreasing};
ghost use Rattle.pv_fields.specs.Out.{Puts};
ghost use Rattle.pv_fields.specs.Padded.{IsPadded};
ghost use Rattle.pv_fields.specs.Reading.{GivesFound, number_at, same, times};
ghost use Rattle.pv_account.specs.Groups.{AreGroups, rises, occurrences, HasTwoEqual, groups_bytes, groups_at};

use pv_fields::{In, NoRoom, NoSpelling, Out, Short};
use std::marker::Model;

/// How many groups an account is in at most.
pub const ACCOUNT_GROUPS: usize = 32;

/// At most `N` different group numbers from 1 on, in rising order. `N` is below 256.
#[derive(Clone, Copy, Debug, PartialEq, Eq)]
pub struct Groups<const N: usize> {
    count: u8,
    numbers: [u16; N],
}

impl<const N: usize> Model for Groups<N> {
    ghost use Rattle.std.specs.Prelude.{ℕ, List, length, take};
    ghost use Rattle.pv_fields.specs.Padded.{padded_list};

    ghost Value = { List ℕ };

    ghost use Rattle.pv_account.specs.Groups.{AreGroupsInside};

    ghost view = { λ groups. take groups.count groups.numbers };

    ghost invariant = { λ groups. AreGroupsInside N groups.count groups.numbers };

    ghost inverse = { λ groups. record { count = length groups; numbers = padded_list 0 N groups } };

    ghost use Rattle.pv_fields.proofs.CallerLemmas.{length-items, padded_list-take};

    ghost inverse_ok = { λ groups inside i. record {
      count = length-items 0 N groups.count groups.numbers inside.padded i;
      numbers = padded_list-take 0 N groups.count groups.numbers inside.padded i;
    } };
}

impl<const N: usize> Groups<N> {
    /// No groups.
    pub fn none() -> Groups<N>
        requires { N < 256 }
        ensures { result ≡ [] }
    {
        Groups {
            count: 0,
            numbers: [0; N],
        }
    }

    /// The groups of a list, which may be in any order. `None` exactly when there are more than `N`, one
    /// is 0, or two are equal.
    pub fn of_list(list: &[u16]) -> Option<Groups<N>>
        requires { N < 256 }
        ensures found { IfSome result (λ groups. IsPermutation list.now groups) }
        ensures only { (groups : List ℕ) → IsPermutation list.now groups → AreGroups N groups
            → result ≡ Some groups }
        ensures none { IsNone result ↔ (N < length list.now) ⊎ (0 < occurrences 0 list.now)
            ⊎ HasTwoEqual list.now }
    {
        let count = list.len();
        if N < count {
            return None;
        }
        let numbers = in_order::<N>(list);
        if rise(&numbers[..count]) {
            Some(Groups {
                count: count as u8,
                numbers,
            })
        } else {
            None
        }
    }

    /// Whether this group is one of them.
    pub fn has(&self, group: u16) -> bool
        ensures found { IsTrue result ↔ Contains self.now group }
        ensures value { result ≡ list_any (λ other. other == group) self.now }
    {
        self.as_slice().contains(&group)
    }

    /// The groups, in rising order.
    pub fn as_slice(&self) -> &[u16]
        ensures same { result.now ≡ self.now }
        ensures groups { AreGroups N self.now }
    {
        &self.numbers[..usize::from(self.count)]
    }

    /// Appends the groups' spelling. [`NoRoom`] exactly when it does not fit.
    #[tactic(auto, unfolding(crate::specs::Groups::groups_bytes))]
    pub fn put(&self, out: &mut Out) -> Result<(), NoRoom>
        ensures { Puts result out.old out.new (groups_bytes self.now) }
    {
        out.u8(self.count)?;
        put_numbers(&self.numbers[..usize::from(self.count)], out)
    }

    /// Takes the groups' spelling. [`NoSpelling`] if the bytes begin with none.
    #[tactic(auto, unfolding(crate::specs::Groups::groups_at))]
    pub fn read(bytes: &mut In) -> Result<Groups<N>, NoSpelling>
        requires { N < 256 }
        ensures { GivesFound same result (groups_at N bytes.old) bytes.new }
    {
        let count = bytes.u8_within(0, N as u8)?;
        let numbers = read_numbers::<N>(bytes, count)?;
        if rise(&numbers[..usize::from(count)]) {
            Ok(Groups { count, numbers })
        } else {
            Err(NoSpelling)
        }
    }
}

/// The numbers of a list in rising order, and then zeros.
fn in_order<const N: usize>(list: &[u16]) -> [u16; N]
    requires { length list.now ≤ N }
    ensures moved { IsPermutation list.now (take (length list.now) result) }
    ensures sorted { IsNonDecreasing (take (length list.now) result) }
    ensures padded { IsPadded 0 N (length list.now) result }
{
    let mut numbers = [0; N];
    let used = &mut numbers[..list.len()];
    used.copy_from_slice(list);
    used.sort_unstable();
    numbers
}

/// Appends each number in two bytes.
fn put_numbers(numbers: &[u16], out: &mut Out) -> Result<(), NoRoom>
    ensures { Puts result out.old out.new (flat_map (to_be_bytes w16) numbers.now) }
{
    for number in numbers {
        out.u16(*number)?;
    }
    Ok(())
}

/// Takes this many numbers, with zeros after them.
fn read_numbers<const N: usize>(bytes: &mut In, count: u8) -> Result<[u16; N], Short>
    requires { count ≤ N }
    ensures gives { GivesFound (take count) result (times (number_at w16) count bytes.old) bytes.new }
    ensures padded { IfOk result (IsPadded 0 N count) }
{
    let mut numbers = [0; N];
    for i in 0..usize::from(count) {
        numbers[i] = bytes.u16()?;
    }
    Ok(numbers)
}

/// Whether each number is above the one before it, and the first above 0.
fn rise(numbers: &[u16]) -> bool
    ensures { result ≡ rises 0 numbers.now }
{
    let mut last = 0;
    for number in numbers {
        if *number <= last {
            return false;
        }
        last = *number;
    }
    true
}
