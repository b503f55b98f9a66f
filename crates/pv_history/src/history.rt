ghost use Rattle.std.specs.Prelude.{◌≡◌, ◌+◌, ◌-◌, ◌^◌, ◌<◌, ◌≤◌, ◌++◌, ◌∷◌, [], length, Some, IfOk, IfSome};
ghost use Rattle.pv_history.specs.History.{word_of, IsRight, AreRights};

use crate::name::HistoryName;
use crate::prefix::Prefix;
use crate::rule::{Add, Bound, Give, NoEntry, NoGain, OneRight};
use logbook::{Offer, Pen, Seen, Start, Word};
use std::alloc::{AllocError, Global};
use std::collections::VecDeque;
use std::marker::{Model, PhantomData};

/// The word on which the steps of a history are made.
type HistoryWord<E> = Word<Option<E>, u64, OneRight<E>>;

/// The log of a history, as far as it was seen.
pub(crate) type SeenLog<E> = Seen<Option<E>, u64, OneRight<E>>;

/// What a step of a history asks.
type HistoryOffer<E> = Offer<Option<E>, u64, OneRight<E>, NoGain>;

/// An empty history that has no name yet. Contracts see it as its book.
#[derive(Drop)]
pub struct NewHistory<E> {
    word: HistoryWord<E>,
    seen: SeenLog<E>,
}

impl<E> Model for NewHistory<E> {
    ghost use Rattle.std.specs.Prelude.{◌≡◌, []};
    ghost use Rattle.logbook.specs.Pages.{Book};
    ghost use Rattle.pv_history.specs.History.{word_of};

    ghost Value = { Book };

    ghost view = { λ h. h.seen.book };

    ghost invariant = { λ h. (h.seen.log ≡ []) × (h.word ≡ word_of h.seen.book) };
}

impl<E> NewHistory<E> {
    /// An empty history.
    pub fn new() -> NewHistory<E> {
        let (seen, mut first, _second) = Seen::open(Start::alone(), 2, 0);
        NewHistory {
            word: Word::tracked(2, &mut first),
            seen,
        }
    }

    /// Gives the history its name, and makes the rights to add `room` entries. Returns who has them, and the
    /// prefix without entries. It fails if no memory was found; also if a right was given to somebody else,
    /// which nobody can ask for.
    pub fn named<N: HistoryName>(
        self,
        alloc: Global,
        room: u32,
    ) -> Result<(Appender<E, N>, Prefix<E, N>), AllocError>
        requires { self ≡ N.book }
        ensures appender { IfOk result (λ r. r.0 ≡ record { count = 0; left = room }) }
        ensures prefix { IfOk result (λ r. r.1 ≡ []) }
    {
        let NewHistory { word, seen } = self;
        let next = right(&word, &seen, 0)?;
        let rights = rights(alloc, &word, &seen, room)?;
        let appender = Appender {
            word,
            count: 0,
            next,
            rights,
            of: PhantomData,
        };
        Ok((appender, Prefix::empty(seen)))
    }
}

/// So many rights, from number 1 on.
fn rights<E>(
    alloc: Global,
    word: &HistoryWord<E>,
    seen: &SeenLog<E>,
    room: u32,
) -> Result<VecDeque<Pen>, AllocError>
    requires { word.now ≡ word_of seen.now.book }
    ensures count { IfOk result (λ rights. length rights.items ≡ room) }
    ensures rights { IfOk result (λ rights. AreRights seen.now.book 1 rights.items) }
{
    let mut rights = VecDeque::with_capacity(alloc, room as usize)?;
    for number in 0..room {
        rights.push_back(right(word, seen, u64::from(number) + 1)?)?;
    }
    Ok(rights)
}

/// The right of this number, if those before it were given and it was not.
fn right<E>(word: &HistoryWord<E>, seen: &SeenLog<E>, number: u64) -> Result<Pen, AllocError>
    requires word { word.now ≡ word_of seen.now.book }
    requires number { number ≤ 2 ^ 32 }
    ensures { IfOk result (IsRight seen.now.book number) }
{
    let mut seen = seen.again();
    let mut pen = seen.no_pen();
    let mut offer: HistoryOffer<E> = seen.plain::<NoGain, NoEntry, NoEntry>(&NoEntry);
    let words = number + 2;
    let found = word.compare_exchange::<Give, NoGain>(
        words,
        words + 1,
        &mut seen,
        &mut offer,
        &mut pen,
    );
    if found != words {
        return Err(AllocError);
    }
    let _word: HistoryWord<E> = Word::tracked(0, &mut pen);
    Ok(pen)
}

/// Who alone adds entries to the history of this name. Contracts see how many it has, and how many more may be
/// added.
#[derive(Drop)]
pub struct Appender<E, N: HistoryName> {
    word: HistoryWord<E>,
    count: u64,
    next: Pen,
    rights: VecDeque<Pen>,
    of: PhantomData<N>,
}

impl<E, N: HistoryName> Model for Appender<E, N> {
    ghost use Rattle.std.specs.Prelude.{◌≡◌, ◌+◌, ◌^◌, ◌<◌, length};
    ghost use Rattle.pv_history.specs.History.{Supply, word_of, IsRight, AreRights};

    ghost Value = { Supply };

    ghost view = { λ a. record { count = a.count; left = length a.rights.items } };

    ghost invariant = { λ a. (a.word ≡ word_of N.book) × IsRight N.book a.count a.next
        × AreRights N.book (a.count + 1) a.rights.items × (a.count + length a.rights.items < 2 ^ 32) };
}

impl<E, N: HistoryName> Appender<E, N> {
    /// Adds an entry to the history, all of which was seen.
    pub(crate) fn add(&mut self, seen: &mut SeenLog<E>, entry: &E)
        requires book { seen.old.book ≡ N.book }
        requires whole { length seen.old.log ≡ self.old.count }
        requires room { 0 < self.old.left }

        // The entry is added to what was seen, and one right is used.
        ensures added { seen.new.log ≡ seen.old.log ++ Some entry.now ∷ [] }
        ensures book { seen.new.book ≡ seen.old.book }
        ensures within { self.old.count < 2 ^ 32 }
        ensures used { self.new ≡ record { count = self.old.count + 1; left = self.old.left - 1 } }
    {
        let mut offer: HistoryOffer<E> = seen.plain::<NoGain, E, Add>(entry);
        self.word
            .compare_exchange::<Add, NoGain>(0, 0, seen, &mut offer, &mut self.next);
        self.next = self.rights.pop_front().unwrap();
        self.count += 1;
    }

    /// No more entries were seen than the history has. A call states this: it makes a step that changes nothing.
    pub(crate) fn has_all(&mut self, seen: &SeenLog<E>)
        requires book { seen.now.book ≡ N.book }
        ensures all { length seen.now.log ≤ self.old.count }
        ensures same { self.new ≡ self.old }
    {
        let mut seen = seen.again();
        let mut offer: HistoryOffer<E> = seen.plain::<NoGain, NoEntry, NoEntry>(&NoEntry);
        self.word
            .compare_exchange::<Bound, NoGain>(0, 0, &mut seen, &mut offer, &mut self.next);
    }
}
