ghost use Rattle.std.specs.Prelude.{◌≡◌, ◌≤◌, [], ◌∷◌, length, take, slice_get, option_copied};
ghost use Rattle.pv_post.specs.Boxes.{with_letter, has_letter, without_letter};
ghost use Rattle.pv_post.specs.Waiting.{letter_of};

use crate::mail::{Mail, TEXT_CELLS};
use pv_page::AccountNo;
use std::marker::Model;

/// How many letters wait for an account at most.
pub const MAX_WAITING: usize = 20;

/// A letter that waits for an account.
#[derive(Clone, Copy, Debug, PartialEq, Eq)]
pub struct Letter {
    /// Its number: the place of its record in the edit list.
    pub number: u64,
    /// Who sent it.
    pub sender: AccountNo,
    /// When it was sent, in seconds since 1970, at most [`LAST_MOMENT`](pv_charge::LAST_MOMENT).
    pub moment: u32,
    /// Its text: cells from [`FIRST_CELL`](crate::FIRST_CELL) to [`LAST_CELL`](crate::LAST_CELL).
    pub text: [u8; TEXT_CELLS],
}

impl Model for Letter {
    ghost use Rattle.pv_post.specs.Boxes.{WaitingLetter, IsWaitingLetter};

    ghost Value = { WaitingLetter };

    ghost view = { λ l. record { number = l.number; sender = l.sender; moment = l.moment; text = l.text } };

    ghost invariant = { λ l. IsWaitingLetter
        (record { number = l.number; sender = l.sender; moment = l.moment; text = l.text }) };

    ghost inverse = { λ w. record {
      number = w.number;
      sender = w.sender;
      moment = w.moment;
      text = w.text;
    } };
}

impl Letter {
    /// A mail under this number.
    pub fn of_mail(number: u64, mail: &Mail) -> Letter
        ensures { result ≡ letter_of number mail.now }
    {
        Letter {
            number,
            sender: mail.sender,
            moment: mail.moment,
            text: mail.text,
        }
    }
}

/// The letters that wait for one account, oldest first. Their places are in the box itself, so that a list
/// of boxes is all the memory that they take. A place after those of the letters that wait means nothing.
#[derive(Debug, Drop)]
pub(crate) struct Mailbox {
    count: usize,
    places: [Letter; MAX_WAITING],
}

impl Model for Mailbox {
    ghost use Rattle.std.specs.Prelude.{◌≡◌, ◌≤◌, List, length, take};
    ghost use Rattle.pv_post.specs.declared.letter.TheConstants.{MAX_WAITING};
    ghost use Rattle.pv_post.specs.Boxes.{WaitingLetter};

    ghost Value = { List WaitingLetter };

    ghost view = { λ m. take m.count m.places };

    ghost invariant = { λ m. (m.count ≤ MAX_WAITING) × (length m.places ≡ MAX_WAITING) };
}

impl Mailbox {
    /// A box in which this letter waits.
    pub(crate) fn of_letter(letter: &Letter) -> Mailbox
        ensures { result ≡ letter.now ∷ [] }
    {
        Mailbox {
            count: 1,
            places: [*letter; MAX_WAITING],
        }
    }

    /// A copy of the box.
    pub(crate) fn copy(&self) -> Mailbox
        ensures { result ≡ self.now }
    {
        Mailbox {
            count: self.count,
            places: self.places,
        }
    }

    /// Puts a letter after the others. It is dropped if [`MAX_WAITING`] wait.
    pub(crate) fn arrive(&mut self, letter: &Letter)
        ensures { self.new ≡ with_letter self.old letter.now }
    {
        if self.count < MAX_WAITING {
            self.places[self.count] = *letter;
            self.count += 1;
        }
    }

    /// The letters that wait.
    fn letters(&self) -> &[Letter]
        ensures { result.now ≡ self.now }
    {
        &self.places[..self.count]
    }

    /// The letter that has waited longest. `None` exactly when none waits.
    pub(crate) fn oldest(&self) -> Option<&Letter>
        ensures { option_copied result ≡ slice_get self.now 0 }
    {
        self.letters().first()
    }

    /// Whether the letter of a number waits.
    pub(crate) fn has(&self, number: u64) -> bool
        ensures { result ≡ has_letter self.now number }
    {
        self.letters().iter().any(|letter| letter.number == number)
    }

    /// Takes the letter of a number out. `false` exactly when none of that number waits.
    pub(crate) fn remove(&mut self, number: u64) -> bool
        ensures found { result ≡ has_letter self.old number }
        ensures rest { self.new ≡ without_letter self.old number }
    {
        let found = self.has(number);
        self.count = keep_others(&mut self.places, self.count, number);
        found
    }
}

/// Moves the letters of other numbers to the first places, and counts them.
fn keep_others(places: &mut [Letter], count: usize, number: u64) -> usize
    requires { count ≤ length places.old }
    ensures kept { take result places.new ≡ without_letter (take count places.old) number }
    ensures within { result ≤ count }
    ensures len { length places.new ≡ length places.old }
{
    let mut kept = 0;
    for place in 0..count {
        let letter = places[place];
        if letter.number != number {
            places[kept] = letter;
            kept += 1;
        }
    }
    kept
}
