ghost use Rattle.std.specs.Prelude.{◌≡◌, ℕ, ◌+◌, ◌<◌, ◌≤◌, true, false, IfSome};
ghost use Rattle.pv_session.specs.declared.seat.TheConstants.{TRIES};
ghost use Rattle.pv_session.specs.State.{charges_in};

mod browse;
mod fill;

use crate::digits::DigitReader;
use crate::earlier::Earlier;
use crate::entry::Entry;
use crate::gathered::Gathered;
use crate::message::Message;
use crate::password::known_caller;
use crate::present::Present;
use crate::reading::Reading;
use crate::step::{Paid, Phase, Step, Why, Wish};
use pv_account::AccountNo;
use pv_charge::LAST_MOMENT;
use pv_edits::Sight;
use pv_keys::KeyReader;
use pv_post::Fields;
use pv_screen::Screen;

/// How many bytes a call has at most.
pub const MAX_BYTES: u32 = 1_000_000;

/// How many entries a call has at most.
pub const MAX_ENTRIES: u16 = 4096;

/// How many times a caller may try to log on.
pub const TRIES: u8 = 3;

/// A caller's seat.
#[derive(Clone, Copy, Debug, PartialEq, Eq)]
pub struct Seat {
    phase: Phase,
    reading: Reading,
    failed: u8,
    account: Option<AccountNo>,
    serial: Option<u64>,
    lines: u32,
    aside: Option<Present>,
    present: Option<Present>,
    filled: Option<Fields>,
    earlier: Earlier,
    bytes: u32,
    entries: u16,
    ghost tries_left: { failed < TRIES },
    ghost charged_at_entries: { lines + charges_in phase ≤ entries },
}

impl Seat {
    ghost use Rattle.pv_edits.specs.Sight.{View, view_of};
    ghost use Rattle.pv_session.specs.Charging.{IsSeatWish, IsStorable};
    ghost use Rattle.pv_session.specs.Fetching.{ending_turn};
    ghost use Rattle.pv_session.specs.Messages.{screen_of_blank};
    ghost use Rattle.pv_session.specs.Seat.{state_of};
    ghost use Rattle.pv_session.specs.State.{new_call, is_owing, wish_in};
    ghost use Rattle.pv_session.specs.Turns.{IsTurn, CanBeShown, Listens, Hears, Goes, storing_turn, full_turn};
    ghost use Rattle.pv_session.specs.Turns.{failure_turn, log_on_turn, entry_turn, is_spent};

    /// A call that begins, and its first screen, which asks for the account.
    pub fn dial() -> (Seat, Screen)
        ensures seat { state_of result.0 ≡ new_call }
        ensures screen { result.1 ≡ screen_of_blank Message.KeyAccount }
    {
        let seat = Seat {
            phase: Phase::Listening,
            reading: Reading::Account(DigitReader::new()),
            failed: 0,
            account: None,
            serial: None,
            lines: 0,
            aside: None,
            present: None,
            filled: None,
            earlier: Earlier::new(),
            bytes: 0,
            entries: 0,
        };
        (seat, Message::KeyAccount.on_blank())
    }

    /// Takes a byte at a moment, in seconds since 1970. The sight is that of [`Seat::account`]. A
    /// seat that owes something or whose call is over takes no byte, and returns [`Step::Quiet`].
    pub fn key(&mut self, byte: u8, sight: &Sight, moment: u32) -> Step
        requires { moment ≤ LAST_MOMENT }
        ensures turn { IsTurn (state_of self.old) byte (view_of sight.now) moment
            (state_of self.new) result }

        // A screen that is sent can be shown, and what is owed can be stored.
        ensures cells { CanBeShown result }
        ensures valid { IsStorable result }
    {
        match self.phase {
            Phase::Listening => {
                let step = self.listen(byte, sight, moment);
                step.within();
                step
            }
            Phase::Owing(_) | Phase::Over => Step::Quiet,
        }
    }

    /// Takes a byte if nothing comes of it but that the seat waits for more keys, and returns whether it did: most keys do no
    /// more, and need neither a sight nor room for a screen. `false` if more comes of it, and then nothing has changed.
    pub fn take_quietly(&mut self, byte: u8) -> bool
        ensures turn { result ≡ true → (view : View) (moment : ℕ)
            → IsTurn (state_of self.old) byte view moment (state_of self.new) Step.Quiet }
        ensures same { result ≡ false → self.new ≡ self.old }
    {
        matches!(self.phase, Phase::Listening) && !self.is_spent() && self.gather(byte)
    }

    /// Goes on after the centre stored what the seat owes. If it owes nothing or this is another
    /// reply, nothing changes.
    pub fn paid(&mut self, reply: Paid) -> Step
        ensures turn { Goes (storing_turn (state_of self.old) (state_of self.old).phase reply)
            (state_of self.new) result }
        ensures cells { CanBeShown result }
    {
        match (self.phase, reply) {
            (Phase::Owing(Wish::LogOn(_)), Paid::Serial(serial)) => {
                self.phase = Phase::Listening;
                self.serial = Some(serial);
                self.reading = Reading::Browse(KeyReader::new());
                Step::Show(Message::Welcome.on_blank())
            }
            (Phase::Owing(Wish::Charge(_)), Paid::Stored) => self.charged(),
            (Phase::Owing(Wish::Post(_)), Paid::Stored) => self.done(Message::MessageStored),
            (Phase::Owing(Wish::Remove(_, _)), Paid::Stored) => {
                self.done(Message::MessageRemoved)
            }
            _ => Step::Quiet,
        }
    }

    /// Ends the call, since the centre is full and does not store what the seat owes. If it owes
    /// nothing, nothing changes.
    pub fn turned_away(&mut self) -> Step
        ensures turn { Goes (full_turn (state_of self.old) (state_of self.old).phase)
            (state_of self.new) result }
        ensures cells { CanBeShown result }
    {
        match self.phase {
            Phase::Owing(_) => self.end(Why::Full, Message::PleaseTryLater),
            _ => Step::Quiet,
        }
    }

    /// The account that was keyed. `None` exactly until ten digits were keyed, and after each
    /// log-on that failed.
    pub fn account(&self) -> Option<AccountNo>
        ensures { result ≡ (state_of self.now).account }
    {
        self.account
    }

    /// Whether something is to be stored.
    pub fn owes(&self) -> bool
        ensures { result ≡ is_owing (state_of self.now).phase }
    {
        matches!(self.phase, Phase::Owing(_))
    }

    /// What is to be stored. `None` exactly when nothing is.
    pub fn wish(&self) -> Option<Wish>
        ensures value { result ≡ wish_in (state_of self.now).phase }
        ensures valid { IfSome result IsSeatWish }
    {
        match self.phase {
            Phase::Owing(wish) => {
                wish.within();
                Some(wish)
            }
            Phase::Listening | Phase::Over => None,
        }
    }

    /// The serial that the call was given as its caller logged on.
    pub fn serial(&self) -> Option<u64>
        ensures { result ≡ (state_of self.now).serial }
    {
        self.serial
    }

    /// How many priced frames were charged and shown: the number of the next charge.
    pub fn lines(&self) -> u32
        ensures { result ≡ (state_of self.now).lines }
    {
        self.lines
    }

    /// How many entries were keyed.
    pub fn entries(&self) -> u16
        ensures { result ≡ (state_of self.now).entries }
    {
        self.entries
    }

    /// Takes a byte, unless the call is spent.
    fn listen(&mut self, byte: u8, sight: &Sight, moment: u32) -> Step
        requires listens { self.old.phase ≡ Phase.Listening }
        requires moment { moment ≤ LAST_MOMENT }
        ensures { Listens (is_spent (state_of self.old)) (state_of self.old) byte
            (view_of sight.now) moment (state_of self.new) result }
    {
        if self.is_spent() {
            self.end(Why::Spent, Message::CallEnded)
        } else {
            self.hear(byte, sight, moment)
        }
    }

    /// Takes a byte of a call that is not spent.
    fn hear(&mut self, byte: u8, sight: &Sight, moment: u32) -> Step
        requires lasts { is_spent (state_of self.old) ≡ false }
        requires listens { self.old.phase ≡ Phase.Listening }
        requires moment { moment ≤ LAST_MOMENT }
        ensures { Hears (state_of self.old) byte (view_of sight.now) moment
            (state_of self.new) result }
    {
        self.bytes += 1;
        self.leave(byte);
        match self.reading.take(byte) {
            Some(entry) => {
                self.entries += 1;
                self.enter(entry, sight, moment)
            }
            None => Step::Quiet,
        }
    }

    /// Keeps a byte of a call that is not spent for a later entry. `false` if it makes one or leaves what is asked for.
    fn gather(&mut self, byte: u8) -> bool
        requires lasts { is_spent (state_of self.old) ≡ false }
        requires listens { self.old.phase ≡ Phase.Listening }
        ensures gathered { result ≡ true → (view : View) (moment : ℕ)
            → Hears (state_of self.old) byte view moment (state_of self.new) Step.Quiet }
        ensures same { result ≡ false → self.new ≡ self.old }
    {
        let mut reading = self.reading;
        if reading.is_left_by(byte) || reading.take(byte).is_some() {
            return false;
        }
        self.reading = reading;
        self.bytes += 1;
        true
    }

    /// Whether the call has had as many bytes or entries as it may have.
    fn is_spent(&self) -> bool
        ensures { result ≡ is_spent (state_of self.now) }
    {
        MAX_BYTES <= self.bytes || MAX_ENTRIES <= self.entries
    }

    /// Ends the call with a message.
    fn end(&mut self, why: Why, message: Message) -> Step
        ensures turn { Goes (ending_turn (state_of self.old) why message)
            (state_of self.new) result }
        ensures cells { CanBeShown result }
    {
        self.phase = Phase::Over;
        Step::Ended(why, message.alone())
    }

    /// Does what an entry asks for.
    fn enter(&mut self, entry: Entry, sight: &Sight, moment: u32) -> Step
        requires uncharged { self.old.lines < self.old.entries }
        requires moment { moment ≤ LAST_MOMENT }
        ensures { Goes (entry_turn (state_of self.old) (view_of sight.now) moment entry)
            (state_of self.new) result }
    {
        match entry {
            Entry::Account(account) => {
                self.account = Some(account);
                self.reading = Reading::Password(Gathered::new());
                Step::Show(Message::KeyPassword.alone())
            }
            Entry::Password(password) => {
                self.log_on(known_caller(self.account, sight.account(), &password))
            }
            Entry::Command(command) => self.obey(command, sight, moment),
            Entry::Field(text) => self.fill(text),
            Entry::Send => self.send(moment),
            Entry::Keep => self.keep(),
            Entry::Delete(number) => self.delete(number),
        }
    }

    /// Goes on after a password.
    fn log_on(&mut self, caller: Option<AccountNo>) -> Step
        ensures { Goes (log_on_turn (state_of self.old) caller) (state_of self.new) result }
    {
        match caller {
            Some(account) => {
                self.phase = Phase::Owing(Wish::LogOn(account));
                Step::Owe(Wish::LogOn(account))
            }
            None => self.fail(),
        }
    }

    /// Counts a log-on that failed.
    fn fail(&mut self) -> Step
        ensures { Goes (failure_turn (state_of self.old)) (state_of self.new) result }
    {
        if self.failed + 1 >= TRIES {
            return self.end(Why::Refused, Message::CallRefused);
        }
        self.failed += 1;
        self.account = None;
        self.reading = Reading::Account(DigitReader::new());
        Step::Show(Message::NotKnown.alone())
    }
}
