ghost use Rattle.std.specs.Prelude.{◌≡◌, ◌↔◌, Some, IfSome, IsTrue};
ghost use Rattle.pv_words.specs.Parts.{Exactly};
ghost use Rattle.pv_script.specs.Grammar.{Asks, AsksAs, EventAsksAs, CallAsksAs, CutAsksAs, MayStand, ReadsLine};

use crate::readers::{
    FrameText, ImageText, KeyText, KeysText, LimitsText, MomentText, NodeText, RowText,
};
use crate::storing::StoringText;
use crate::word::{CallWord, Word, word_of};
use pv_editor::AccountText;
use pv_network::{EDITORS, Event, PORTS};
use pv_outside::Limits;
use pv_words::{AllOf, Below, Number, none_as, one, one_as, split_word, three, three_as, two_as};

/// The byte that begins a comment.
pub const COMMENT: u8 = b';';

/// How many calls of its disk a node makes at most before it is lost: those of the write of a record.
pub const MAX_CALLS: u8 = 4;

/// What a line of a script asks for.
#[derive(Debug, Drop)]
pub enum Command<'a> {
    /// Nothing: the line is empty or a comment.
    Nothing,
    /// That the play begins with these limits.
    Limits(Limits),
    /// That an event happens.
    Do(Event<'a>),
}

impl<'a> Command<'a> {
    /// Whether it may stand on the first line of a script, or on another line.
    fn may_stand(&self, first: bool) -> bool
        ensures { IsTrue result ↔ MayStand first self.now }
    {
        match self {
            Command::Limits(_) => first,
            Command::Nothing | Command::Do(_) => true,
        }
    }
}

/// What a line asks for in a play of this many centres, if it is the first of its script or if it is not. `None`
/// exactly when it is not a valid command there.
pub fn parse(line: &[u8], first: bool, centres: u8) -> Option<Command<'_>>
    ensures found { IfSome result (ReadsLine centres first line.now) }
    ensures only { (command : Command) → ReadsLine centres first line.now command → result ≡ Some command }
{
    if line.is_empty() || line[0] == COMMENT {
        return Some(Command::Nothing);
    }
    let command = command_of(line, centres)?;
    if command.may_stand(first) {
        Some(command)
    } else {
        None
    }
}

/// What the words of a line ask for. `None` exactly when they ask for nothing.
fn command_of(line: &[u8], centres: u8) -> Option<Command<'_>>
    ensures found { IfSome result (Asks centres line.now) }
    ensures only { (command : Command) → Asks centres line.now command → result ≡ Some command }
{
    let (first, tail) = split_word(line);
    let word = word_of(first)?;
    asked_command(word, tail, centres)
}

/// What a word and the tail after it ask for. `None` exactly when they ask for nothing.
fn asked_command(word: Word, tail: &[u8], centres: u8) -> Option<Command<'_>>
    ensures { Exactly (AsksAs centres word tail.now) result }
{
    match word {
        Word::Limits => match one(&LimitsText, tail) {
            Some(limits) => Some(Command::Limits(limits)),
            None => None,
        },
        _ => match asked_event(word, tail, centres) {
            Some(event) => Some(Command::Do(event)),
            None => None,
        },
    }
}

/// What a word and the tail after it let happen. `None` exactly when they ask for no event.
fn asked_event(word: Word, tail: &[u8], centres: u8) -> Option<Event<'_>>
    ensures { Exactly (EventAsksAs centres word tail.now) result }
{
    let (centre, node) = (Below(centres), NodeText(centres));
    match word {
        Word::Limits => None,
        Word::Seed => two_as(
            &FrameText,
            &RowText,
            tail,
            |(name, row)| Event::Seed { name, row },
        ),
        Word::Edit => two_as(
            &Below(EDITORS),
            &AllOf,
            tail,
            |(port, line)| Event::Edit { port, line },
        ),
        Word::Call(word) => asked_call(word, tail, centres),
        Word::Send => one_as(&centre, tail, |centre| Event::Send { centre }),
        Word::Post => one_as(&centre, tail, |centre| Event::Post { centre }),
        Word::Deliver => two_as(
            &centre,
            &Number,
            tail,
            |(centre, index)| Event::Deliver { centre, index },
        ),
        Word::Back => two_as(
            &centre,
            &Number,
            tail,
            |(centre, index)| Event::Back { centre, index },
        ),
        Word::Carry => one_as(&centre, tail, |centre| Event::Carry { centre }),
        Word::Crash => one_as(&node, tail, |node| Event::Crash { node }),
        Word::Cut => asked_cut(tail, centres),
        Word::Clock => one_as(&MomentText, tail, |moment| Event::Clock { moment }),
        Word::View => two_as(
            &centre,
            &FrameText,
            tail,
            |(centre, name)| Event::View { centre, name },
        ),
        Word::At => one_as(&centre, tail, |centre| Event::At { centre }),
        Word::List => none_as(tail, Event::List),
        Word::Bill => one_as(&AccountText, tail, |account| Event::Bill { account }),
        Word::Lines => one_as(&centre, tail, |centre| Event::Lines { centre }),
    }
}

/// What a word of a caller's line and the tail after it ask for. `None` exactly when they ask for nothing.
fn asked_call(word: CallWord, tail: &[u8], centres: u8) -> Option<Event<'_>>
    ensures { Exactly (CallAsksAs centres word tail.now) result }
{
    let (centre, port) = (Below(centres), Below(PORTS));
    match word {
        CallWord::Dial => two_as(
            &centre,
            &port,
            tail,
            |(centre, port)| Event::Dial { centre, port },
        ),
        CallWord::Press => three_as(
            &centre,
            &port,
            &KeyText,
            tail,
            |(centre, port, key)| Event::Press { centre, port, key },
        ),
        CallWord::Store => two_as(
            &centre,
            &port,
            tail,
            |(centre, port)| Event::Store { centre, port },
        ),
        CallWord::Show => two_as(
            &centre,
            &port,
            tail,
            |(centre, port)| Event::Show { centre, port },
        ),
        CallWord::Keys => three_as(
            &centre,
            &port,
            &KeysText,
            tail,
            |(centre, port, keys)| Event::Keys { centre, port, keys },
        ),
        CallWord::Hang => two_as(
            &centre,
            &port,
            tail,
            |(centre, port)| Event::Hang { centre, port },
        ),
    }
}

/// What the tail of a cut asks for. `None` exactly when it asks for nothing.
fn asked_cut(tail: &[u8], centres: u8) -> Option<Event<'_>>
    ensures { Exactly (CutAsksAs centres tail.now) result }
{
    match three(
        &Below(MAX_CALLS + 1),
        &ImageText,
        &StoringText(centres),
        tail,
    ) {
        Some((calls, image, command)) => Some(Event::Cut {
            calls,
            image,
            command,
        }),
        None => None,
    }
}
