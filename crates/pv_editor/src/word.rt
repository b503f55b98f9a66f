ghost use Rattle.std.specs.Prelude.{◌≡◌};
ghost use Rattle.pv_editor.specs.Words.{word_of_line, numbered_word_of_text, change_word_of_text};

/// The first word of an editor's line.
#[derive(Clone, Copy, Debug, PartialEq, Eq)]
pub enum Word {
    /// `LOGON account password`
    LogOn,
    /// `NEW name`
    New,
    /// `OPEN name`
    Open,
    /// A word of a change of the working frame.
    Change(ChangeWord),
    /// `STORE q`
    Store,
    /// `DROP q name`
    Drop,
    /// `LEASE q root account`
    Lease,
    /// `ACCOUNT q account password home groups`
    Account,
    /// `LAST`
    Last,
    /// `RESPONSES n`
    Responses,
    /// `QUIT`
    Quit,
}

/// The first word of a line that changes the working frame.
#[derive(Clone, Copy, Debug, PartialEq, Eq)]
pub enum ChangeWord {
    /// `TITLE text`
    Title,
    /// `ROW n text`
    Row,
    /// `KIND I`, `KIND R`, `KIND M`
    Kind,
    /// `ROUTE d page`, `ROUTE d -`
    Route,
    /// `PRICE n`
    Price,
    /// `GROUP n`
    Group,
    /// `FIELD row column length D`, the same with `T`, `FIELD -`
    Field,
}

/// The word that a text is. `None` exactly when it is none of them.
pub(crate) fn word_of(text: &[u8]) -> Option<Word>
    ensures { result ≡ word_of_line text.now }
{
    if text == b"LOGON".as_slice() {
        Some(Word::LogOn)
    } else if text == b"NEW".as_slice() {
        Some(Word::New)
    } else if text == b"OPEN".as_slice() {
        Some(Word::Open)
    } else if text == b"LAST".as_slice() {
        Some(Word::Last)
    } else if text == b"RESPONSES".as_slice() {
        Some(Word::Responses)
    } else if text == b"QUIT".as_slice() {
        Some(Word::Quit)
    } else {
        numbered_word_of(text)
    }
}

/// The word of a numbered edit that a text is, or a word of a change.
fn numbered_word_of(text: &[u8]) -> Option<Word>
    ensures { result ≡ numbered_word_of_text text.now }
{
    if text == b"STORE".as_slice() {
        Some(Word::Store)
    } else if text == b"DROP".as_slice() {
        Some(Word::Drop)
    } else if text == b"LEASE".as_slice() {
        Some(Word::Lease)
    } else if text == b"ACCOUNT".as_slice() {
        Some(Word::Account)
    } else {
        match change_word_of(text) {
            Some(word) => Some(Word::Change(word)),
            None => None,
        }
    }
}

/// The word of a change of the working frame that a text is. `None` exactly when it is none of them.
fn change_word_of(text: &[u8]) -> Option<ChangeWord>
    ensures { result ≡ change_word_of_text text.now }
{
    if text == b"TITLE".as_slice() {
        Some(ChangeWord::Title)
    } else if text == b"ROW".as_slice() {
        Some(ChangeWord::Row)
    } else if text == b"KIND".as_slice() {
        Some(ChangeWord::Kind)
    } else if text == b"ROUTE".as_slice() {
        Some(ChangeWord::Route)
    } else if text == b"PRICE".as_slice() {
        Some(ChangeWord::Price)
    } else if text == b"GROUP".as_slice() {
        Some(ChangeWord::Group)
    } else if text == b"FIELD".as_slice() {
        Some(ChangeWord::Field)
    } else {
        None
    }
}
