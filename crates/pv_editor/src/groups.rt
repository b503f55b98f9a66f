//! The parts of a line that describe an account.

ghost use Rattle.std.specs.Prelude.{◌≡◌, ℕ, ◌<◌, ◌≤◌, List, [], ◌∷◌, Some, IfSome, length, take};
ghost use Rattle.std.specs.Option.{option_map_or, IsSomeAnd};
ghost use Rattle.pv_editor.specs.Groups.{comma_parts, AreNumbers, IsGroupsText, IsProfileText};

use crate::numbers::Short;
use crate::parts::{AccountText, OrDash, PasswordText};
use pv_account::{ACCOUNT_GROUPS, Account, Groups, LAST_CENTRE, digest};
use pv_words::{Below, Reader, split_at, split_word, three};

/// The part that is the groups of an account, parted by commas.
#[derive(Clone, Copy)]
pub(crate) struct GroupsText;

impl<'a> Reader<'a> for GroupsText {
    type Value = Groups<ACCOUNT_GROUPS>;

    ghost Writes = { λ _. IsGroupsText };

    fn read(&self, text: &'a [u8]) -> Option<Groups<ACCOUNT_GROUPS>> {
        groups_of(text)
    }
}

/// The part that is an account: its number, its password, its home centre and its groups.
#[derive(Clone, Copy)]
pub(crate) struct ProfileText;

impl<'a> Reader<'a> for ProfileText {
    type Value = Account;

    ghost Writes = { λ _. IsProfileText };

    fn read(&self, text: &'a [u8]) -> Option<Account> {
        let (word, later) = split_word(text);
        let number = AccountText.read(word)?;
        let (password, home, groups) = three(
            &PasswordText,
            &Below(LAST_CENTRE + 1),
            &OrDash { of: GroupsText },
            later,
        )?;
        Some(Account {
            number,
            digest: digest(number, &password),
            home,
            groups: groups.unwrap_or(Groups::none()),
        })
    }
}

/// The groups that a text is.
fn groups_of(text: &[u8]) -> Option<Groups<ACCOUNT_GROUPS>>
    ensures found { IfSome result (λ groups. IsGroupsText groups text.now) }
    ensures only { (groups : List ℕ) → IsGroupsText groups text.now → result ≡ Some groups }
{
    let (numbers, count) = numbers_of(text)?;
    Groups::of_list(&numbers[..count])
}

/// The numbers between the commas of a text, and how many there are. `None` exactly when a part is no
/// number of sixteen bits, or there are more than an account may have groups.
fn numbers_of(text: &[u8]) -> Option<([u16; ACCOUNT_GROUPS], usize)>
    ensures count { IfSome result (λ found. found.1 ≤ ACCOUNT_GROUPS) }
    ensures found { IfSome result (λ found. AreNumbers text.now (take found.1 found.0)) }
    ensures only { (numbers : List ℕ) → AreNumbers text.now numbers → length numbers ≤ ACCOUNT_GROUPS
        → IsSomeAnd result (λ found. take found.1 found.0 ≡ numbers) }
{
    let mut numbers = [0; ACCOUNT_GROUPS];
    let mut count = 0;
    let mut left = Some(text);
    while let Some(rest) = left {
        let (part, later) = first_part(rest);
        let number = Short.read(part)?;
        if count == ACCOUNT_GROUPS {
            return None;
        }
        numbers[count] = number;
        count += 1;
        left = later;
    }
    Some((numbers, count))
}

/// The text before the first comma, and the text after it. `None`: it has no comma.
fn first_part(text: &[u8]) -> (&[u8], Option<&[u8]>)
    ensures parts { comma_parts text.now
        ≡ result.0.now ∷ option_map_or (λ rest. comma_parts rest.now) result.1 [] }
    ensures shorter { IfSome result.1 (λ rest. length rest.now < length text.now) }
{
    match split_at(text, b',') {
        Some((part, later)) => (part, Some(later)),
        None => (text, None),
    }
}
