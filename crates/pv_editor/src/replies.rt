ghost use Rattle.std.specs.Prelude.{◌≡◌, ◌≤◌, ◌+◌, ◌++◌, length, decimal};
ghost use Rattle.pv_editor.specs.Replies.{ok_reply, number_reply, closing_reply, refusal_words, other_words, refusal_text, reply_of};
ghost use Rattle.pv_editor.specs.declared.text.TheConstants.{ROOM, LONGEST_NUMBER, LONGEST_WORDS};

use crate::text::Text;

/// The Update Centre's verdict on a request, as its reply shows it.
#[derive(Clone, Copy, Debug, PartialEq, Eq)]
pub enum UdcReplyView {
    /// The request is stored at this place.
    Stored(u64),
    /// It is refused: the code, 1 to 16, and the number that its reply prints, if it prints one.
    Refused(u8, u64),
}

/// The code of a line by no account.
pub const LOG_ON_FIRST: u8 = 1;

/// The code of a page of another.
pub const NOT_OWNER: u8 = 2;

/// The code of a name without a frame.
pub const NO_FRAME: u8 = 4;

/// The code of a frame that is not valid, and prints the number of its error.
pub const BAD_FRAME: u8 = 7;

/// The code of a line that is none of an editor's.
pub const BAD_LINE: u8 = 11;

/// The code of a line that needs a working frame.
pub const NOTHING_OPEN: u8 = 12;

/// The code of an account or a password that is not known.
pub const NOT_KNOWN: u8 = 13;

/// The text of a verdict: `OK` and the place, or `NO`, the code and its words. A code outside 1 to 16
/// has no words.
pub fn reply_text(reply: &UdcReplyView) -> Text
    ensures { result ≡ reply_of reply.now }
{
    match reply {
        UdcReplyView::Stored(place) => number_text(b"OK ", *place, b""),
        UdcReplyView::Refused(code, shown) => refusal_text(*code, *shown),
    }
}

/// The text with which a session ends.
pub fn closing_text() -> Text
    ensures { result ≡ closing_reply }
{
    words_text(b"BYE")
}

/// The text of a line that was done.
pub(crate) fn ok_text() -> Text
    ensures { result ≡ ok_reply }
{
    words_text(b"OK")
}

/// The text of an editor's last number.
pub(crate) fn last_text(last: u32) -> Text
    ensures { result ≡ number_reply last }
{
    number_text(b"OK ", last as u64, b"")
}

/// A text of words alone.
pub(crate) fn words_text(words: &[u8]) -> Text
    requires { length words.now ≤ LONGEST_WORDS }
    ensures { result ≡ words.now }
{
    let mut text = Text::new();
    text.push(words);
    text
}

/// A text of words, a number, and words after it.
pub(crate) fn number_text(before: &[u8], number: u64, after: &[u8]) -> Text
    requires before { length before.now ≤ LONGEST_WORDS }
    requires after { length after.now ≤ LONGEST_WORDS }
    ensures value { result ≡ before.now ++ (decimal number ++ after.now) }
    ensures short { length result ≤ length before.now + LONGEST_NUMBER + length after.now }
{
    let mut text = Text::new();
    text.push(before);
    text.push_number(number);
    text.push(after);
    text
}

/// The text of a refusal.
fn refusal_text(code: u8, shown: u64) -> Text
    ensures { result ≡ refusal_text code shown }
{
    let mut text = number_text(b"NO ", code as u64, b" ");
    text.push(words_of(code, shown).bytes());
    text
}

/// What a refusal with this code says, with the number that it prints.
fn words_of(code: u8, shown: u64) -> Text
    ensures words { result ≡ refusal_words code shown }
    ensures short { length result ≤ LONGEST_WORDS + LONGEST_NUMBER + LONGEST_WORDS }
{
    if code == 1 {
        words_text(b"LOG ON FIRST")
    } else if code == 2 {
        words_text(b"NOT OWNER")
    } else if code == 3 {
        number_text(b"NUMBER ", shown, b" WANTED")
    } else if code == 4 {
        words_text(b"NO FRAME")
    } else if code == 5 {
        number_text(b"FRAMES FULL ", shown, b"")
    } else if code == 6 {
        number_text(b"ACCOUNTS FULL ", shown, b"")
    } else if code == 7 {
        number_text(b"BAD FRAME ", shown, b"")
    } else if code == 8 {
        words_text(b"OPERATOR ONLY")
    } else if code == 9 {
        number_text(b"LEASES FULL ", shown, b"")
    } else if code == 10 {
        words_text(b"NO ACCOUNT")
    } else {
        other_words_of(code, shown)
    }
}

/// The words of the codes that no verdict of the Update Centre has.
fn other_words_of(code: u8, shown: u64) -> Text
    ensures words { result ≡ other_words code shown }
    ensures short { length result ≤ LONGEST_WORDS + LONGEST_NUMBER + LONGEST_WORDS }
{
    if code == 11 {
        words_text(b"BAD LINE")
    } else if code == 12 {
        words_text(b"NOTHING OPEN")
    } else if code == 13 {
        words_text(b"NOT KNOWN")
    } else if code == 14 {
        number_text(b"FULL ", shown, b"")
    } else if code == 15 {
        words_text(b"DISK")
    } else if code == 16 {
        words_text(b"MEMORY")
    } else {
        words_text(b"")
    }
}
