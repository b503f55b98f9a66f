ghost use Rattle.std.specs.Prelude.{◌≡◌, ◌⊎◌, ◌==◌, ◌<◌, ◌≤◌, nat_eq, ℕ, [], ◌∷◌, ◌++◌, length, vec_len, vec_capacity, slice_get, option_copied, IfOk, IsTrue, if◌then◌else◌};
ghost use Rattle.std.specs.List.{IsDistinct};
ghost use Rattle.pv_post.specs.Boxes.{Boxes, no_boxes, letters_of, has_box, with_owner, with_letter, has_letter, without_letter};

use crate::letter::{Letter, Mailbox};
use indexmap::IndexSet;
use pv_page::AccountNo;
use std::alloc::{AllocError, Global};
use std::marker::Model;

/// The letters that wait for each account, at most [`MAX_WAITING`](crate::MAX_WAITING) for each. An
/// account is found by its number. All boxes are in one list, whose room is reserved by `open`; an account
/// has a box there once a letter has come for it.
#[derive(Debug)]
pub struct Mailboxes {
    owners: IndexSet<AccountNo>,
    boxes: Vec<Mailbox>,
    room: usize,
}

impl Model for Mailboxes {
    ghost use Rattle.pv_post.specs.Boxes.{Boxes};
    ghost use Rattle.pv_post.specs.Rooms.{boxes_of, AreBoxes};

    ghost Value = { Boxes };

    ghost view = { boxes_of };

    ghost invariant = { AreBoxes };
}

impl Drop for Mailboxes {
    /// One call frees all parts, so that a proof has one step where such a value ends.
    fn drop(self) {
        let Mailboxes {
            owners: _,
            boxes: _,
            room: _,
        } = self;
    }
}

impl Mailboxes {
    /// Room for the letters of `accounts` accounts, none of which has a box yet.
    pub fn open(alloc: Global, accounts: u32) -> Result<Mailboxes, AllocError>
        ensures { IfOk result (λ mail. mail ≡ no_boxes accounts) }
    {
        Ok(Mailboxes {
            owners: IndexSet::with_capacity(alloc, accounts as usize)?,
            boxes: Vec::with_capacity(alloc, accounts as usize)?,
            room: accounts as usize,
        })
    }

    /// A copy of the mailboxes, with as much room.
    pub fn copy(&self, alloc: Global) -> Result<Mailboxes, AllocError>
        ensures { IfOk result (λ copy. copy ≡ self.now) }
    {
        let mut owners = self.owners.clone()?;
        owners.reserve(self.room - self.owners.len())?;
        Ok(Mailboxes {
            owners,
            boxes: copy_boxes(alloc, &self.boxes, self.room)?,
            room: self.room,
        })
    }

    /// Puts a letter into an account's box, after the others. It is dropped if as many wait as may.
    pub fn arrive(&mut self, to: AccountNo, letter: &Letter)
        requires room { IsTrue (has_box self.old to) ⊎ (length self.old.owners < self.old.room) }
        ensures letters { (account : ℕ) → letters_of self.new account
            ≡ (if account == to then with_letter (letters_of self.old account) letter.now
            else letters_of self.old account) }
        ensures room { self.new.room ≡ self.old.room }

        // The account has a box then, and so has each that had one. No account has two.
        ensures owners { self.new.owners ≡ with_owner self.old.owners to }
        ensures distinct { IsDistinct nat_eq self.new.owners }
    {
        match self.owners.get_index_of(&to) {
            Some(index) => self.boxes[index].arrive(letter),
            None => {
                self.owners.insert_full(to).unwrap();
                push_box(&mut self.boxes, letter);
            }
        }
    }

    /// The letter that has waited longest for an account. `None` exactly when none waits.
    pub fn oldest(&self, account: AccountNo) -> Option<&Letter>
        ensures { option_copied result ≡ slice_get (letters_of self.now account) 0 }
    {
        let index = self.owners.get_index_of(&account)?;
        self.boxes[index].oldest()
    }

    /// Whether the letter of a number waits for an account.
    pub fn waits(&self, account: AccountNo, number: u64) -> bool
        ensures { result ≡ has_letter (letters_of self.now account) number }
    {
        match self.owners.get_index_of(&account) {
            Some(index) => self.boxes[index].has(number),
            None => false,
        }
    }

    /// Takes the letter of a number out of an account's box. `false` exactly when no such letter waits.
    pub fn remove(&mut self, account: AccountNo, number: u64) -> bool
        ensures found { result ≡ has_letter (letters_of self.old account) number }
        ensures letters { (other : ℕ) → letters_of self.new other
            ≡ (if other == account then without_letter (letters_of self.old other) number
            else letters_of self.old other) }
        ensures owners { self.new.owners ≡ self.old.owners }
        ensures room { self.new.room ≡ self.old.room }
    {
        let Some(index) = self.owners.get_index_of(&account) else {
            return false;
        };
        self.boxes[index].remove(number)
    }
}

/// Appends a box in which this letter waits. It is a function of its own, so that a letter for an account
/// with a box does not clear the room of a new one first.
fn push_box(boxes: &mut Vec<Mailbox>, letter: &Letter)
    requires { vec_len boxes.old < vec_capacity boxes.old }
    ensures items { boxes.new.items ≡ boxes.old.items ++ (letter.now ∷ []) ∷ [] }
    ensures capacity { vec_capacity boxes.new ≡ vec_capacity boxes.old }
{
    boxes.push_reserved(Mailbox::of_letter(letter));
}

/// A copy of each box, in a list with room for this many.
fn copy_boxes(alloc: Global, boxes: &[Mailbox], room: usize) -> Result<Vec<Mailbox>, AllocError>
    requires { length boxes.now ≤ room }
    ensures same { IfOk result (λ copies. copies.items ≡ boxes.now) }
    ensures room { IfOk result (λ copies. room ≤ vec_capacity copies) }
{
    let mut copies = Vec::with_capacity(alloc, room)?;
    for mailbox in boxes {
        copies.push_reserved(mailbox.copy());
    }
    Ok(copies)
}
