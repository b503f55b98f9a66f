ghost use Rattle.std.specs.Prelude.{◌≡◌, ◌≤◌, [], ◌∷◌, ◌++◌, take};
ghost use Rattle.pv_session.specs.Fetching.{letter_turn, message_turn};
ghost use Rattle.pv_session.specs.Filling.{browsing_call, field_turn, item_to_send, sending_turn, keeping_turn, removing_turn};
ghost use Rattle.pv_edits.specs.Sight.{view_of};
ghost use Rattle.pv_session.specs.Seat.{fields_of, state_of};
ghost use Rattle.pv_session.specs.State.{charges_in};
ghost use Rattle.pv_session.specs.Turns.{CanBeShown, Goes, reading_call};

use super::Seat;
use crate::letters::letter_screen;
use crate::message::Message;
use crate::reading::Reading;
use crate::step::{Phase, Step, Wish};
use pv_charge::LAST_MOMENT;
use pv_edits::Sight;
use pv_keys::KeyReader;
use pv_post::{Fields, Filled, Item, MAX_FIELDS};

/// What a caller fills in and sends, and the letters that he is sent.
impl Seat {
    /// Leaves what the caller is asked for, if a byte does, so that it is the first of a command.
    pub(super) fn leave(&mut self, byte: u8)
        ensures call { state_of self.new ≡ reading_call (state_of self.old) byte }
        ensures entries { self.new.entries ≡ self.old.entries }
    {
        if self.reading.is_left_by(byte) {
            self.browse();
        }
    }

    /// Asks for a command, and forgets what was filled in.
    pub(super) fn browse(&mut self)
        ensures { state_of self.new ≡ browsing_call (state_of self.old) }
    {
        self.reading = Reading::Browse(KeyReader::new());
        self.filled = None;
    }

    /// Keeps what was keyed into a field, and asks for the next one. After the last it asks whether
    /// to send.
    pub(super) fn fill(&mut self, text: Filled) -> Step
        ensures { Goes (field_turn (state_of self.old) text) (state_of self.new) result }
    {
        let filled = with_field(self.filled, text);
        let index = filled.as_slice().len();
        self.filled = Some(filled);
        match self
            .present
            .as_ref()
            .and_then(|present| present.field(index))
        {
            Some(reader) => {
                self.reading = Reading::Fill(reader);
                Step::Quiet
            }
            None => {
                self.reading = Reading::Question;
                Step::Show(Message::KeyToSend.alone())
            }
        }
    }

    /// Owes what was filled in.
    pub(super) fn send(&mut self, moment: u32) -> Step
        requires { moment ≤ LAST_MOMENT }
        ensures { Goes (sending_turn (state_of self.old) (item_to_send (state_of self.old) moment))
            (state_of self.new) result }
    {
        match self.item(moment) {
            Some(item) => self.owe(Wish::Post(item)),
            None => self.keep(),
        }
    }

    /// Owes what is to be stored.
    fn owe(&mut self, wish: Wish) -> Step
        requires { charges_in (Phase.Owing wish) ≡ 0 }
        ensures after { state_of self.new
            ≡ record (state_of self.old) { phase = Phase.Owing wish } }
        ensures step { result ≡ Step.Owe wish }
    {
        self.phase = Phase::Owing(wish);
        match self.phase {
            Phase::Owing(wish) => Step::Owe(wish),
            Phase::Listening | Phase::Over => Step::Quiet,
        }
    }

    /// Forgets what was filled in.
    pub(super) fn keep(&mut self) -> Step
        ensures { Goes (keeping_turn (state_of self.old)) (state_of self.new) result }
    {
        self.browse();
        Step::Show(Message::MessageNotSent.alone())
    }

    /// Asks for a command again, since what was owed is stored.
    pub(super) fn done(&mut self, message: Message) -> Step
        ensures turn { Goes (message_turn (record (browsing_call (state_of self.old))
            { phase = Phase.Listening }) message) (state_of self.new) result }
        ensures cells { CanBeShown result }
    {
        self.browse();
        self.phase = Phase::Listening;
        Step::Show(message.alone())
    }

    /// Owes the removal of a letter.
    pub(super) fn delete(&mut self, number: u64) -> Step
        ensures { Goes (removing_turn (state_of self.old) number (state_of self.old).account)
            (state_of self.new) result }
    {
        match self.account {
            Some(account) => {
                self.phase = Phase::Owing(Wish::Remove(account, number));
                Step::Owe(Wish::Remove(account, number))
            }
            None => {
                self.browse();
                Step::Show(Message::NoMessages.alone())
            }
        }
    }

    /// Shows the letter that has waited longest.
    pub(super) fn letter(&mut self, sight: &Sight) -> Step
        ensures { Goes (letter_turn (state_of self.old) (view_of sight.now).letter)
            (state_of self.new) result }
    {
        match sight.letter() {
            Some(letter) => {
                self.reading = Reading::Letter(letter.number);
                Step::Show(letter_screen(letter))
            }
            None => Step::Show(Message::NoMessages.alone()),
        }
    }

    /// What was filled in, as it is sent at a moment. `None` exactly when there is nothing to send.
    fn item(&self, moment: u32) -> Option<Item>
        requires { moment ≤ LAST_MOMENT }
        ensures { result ≡ item_to_send (state_of self.now) moment }
    {
        let account = self.account?;
        let present = self.present.as_ref()?;
        present.item(account, moment, self.filled.as_ref()?)
    }
}

/// The fields with one more, if there is room for it.
fn with_field(filled: Option<Fields>, text: Filled) -> Fields
    ensures { result ≡ take MAX_FIELDS (fields_of filled ++ text ∷ []) }
{
    match filled {
        Some(mut fields) => {
            if fields.as_slice().len() < MAX_FIELDS {
                fields.push(text);
            }
            fields
        }
        None => Fields::one(text),
    }
}
