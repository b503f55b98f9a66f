ghost use Rattle.std.specs.Prelude.{◌≡◌, ◌≤◌, length, All};
ghost use Rattle.pv_cells.specs.Row.{IsCell};
ghost use Rattle.pv_screen.specs.Showing.{HasCells};
ghost use Rattle.pv_session.specs.Messages.{message_words, message_row, screen_of_row, screen_of_blank};

use pv_screen::codes::SPACE;
use pv_screen::{COLUMNS, Grid, ROWS, Screen};

/// What row 24 says to a caller.
#[derive(Clone, Copy, Debug, PartialEq, Eq)]
pub enum Message {
    /// The call has begun.
    KeyAccount,
    /// Ten digits were keyed.
    KeyPassword,
    /// There is no such account at this centre, or it has another password: the two are one answer.
    NotKnown,
    /// That was so for the last time.
    CallRefused,
    /// The caller is logged on.
    Welcome,
    /// There is no such page, or it is closed to the caller: the two are one answer.
    PageNotAvailable,
    /// The frame that is shown has no route of that digit.
    NoSuchRoute,
    /// There is no frame to go back to.
    NoPreviousFrame,
    /// The keys are no command.
    KeysNotUnderstood,
    /// Nothing: what was keyed is cancelled.
    Blank,
    /// The call is over.
    CallEnded,
    /// The centre is full, and the call is over.
    PleaseTryLater,
    /// All fields of a frame are filled in.
    KeyToSend,
    /// What the caller sent is stored.
    MessageStored,
    /// The caller does not send what he filled in.
    MessageNotSent,
    /// No letter waits.
    NoMessages,
    /// The letter that was shown is removed.
    MessageRemoved,
    /// A letter is shown.
    KeyToDelete,
}

impl Message {
    /// Its words.
    fn words(self) -> &'static [u8]
        ensures words { result.now ≡ message_words self }
        ensures fit { length result.now ≤ COLUMNS }
    {
        match self {
            Message::KeyAccount => b"KEY YOUR ACCOUNT NUMBER",
            Message::KeyPassword => b"KEY YOUR PASSWORD",
            Message::NotKnown => b"NOT KNOWN. KEY YOUR ACCOUNT NUMBER",
            Message::CallRefused => b"CALL REFUSED",
            Message::Welcome => b"WELCOME",
            Message::PageNotAvailable => b"PAGE NOT AVAILABLE",
            Message::NoSuchRoute => b"NO SUCH ROUTE",
            Message::NoPreviousFrame => b"NO PREVIOUS FRAME",
            Message::KeysNotUnderstood => b"KEYS NOT UNDERSTOOD",
            Message::Blank => b"",
            Message::CallEnded => b"CALL ENDED",
            Message::PleaseTryLater => b"PLEASE TRY LATER",
            Message::KeyToSend => b"KEY 1 TO SEND, 2 NOT TO SEND",
            Message::MessageStored => b"MESSAGE STORED",
            Message::MessageNotSent => b"MESSAGE NOT SENT",
            Message::NoMessages => b"NO MESSAGES WAITING",
            Message::MessageRemoved => b"MESSAGE REMOVED",
            Message::KeyToDelete => b"KEY 1 TO DELETE",
        }
    }

    /// Its words at the left of 40 cells, with spaces after them.
    pub fn row(self) -> [u8; COLUMNS]
        ensures value { result ≡ message_row self }
        ensures cells { All IsCell result }
    {
        let mut row = [SPACE; COLUMNS];
        let words = self.words();
        row[..words.len()].copy_from_slice(words);
        row
    }

    /// The screen that shows it and leaves the rows above as they are.
    pub(crate) fn alone(self) -> Screen
        ensures value { result ≡ screen_of_row self }
        ensures cells { HasCells result }
    {
        Screen::Row(self.row())
    }

    /// The screen that shows it and nothing else.
    pub(crate) fn on_blank(self) -> Screen
        ensures { result ≡ screen_of_blank self }
    {
        let mut grid = Grid::blank();
        grid.set_row(ROWS as u8, &self.row());
        Screen::Whole(grid)
    }
}
