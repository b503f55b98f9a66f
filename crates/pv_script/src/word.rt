ghost use Rattle.std.specs.Prelude.{◌≡◌};
ghost use Rattle.pv_script.specs.Words.{word_of_text, moving_word_of_text, asking_word_of_text, call_word_of_text, storing_word_of_text};

/// The first word of a line.
#[derive(Clone, Copy, Debug, PartialEq, Eq)]
pub enum Word {
    /// `limits FRAMES RECORDS`
    Limits,
    /// `seed NAME TEXT`
    Seed,
    /// `edit E LINE`
    Edit,
    /// A word of a caller's line.
    Call(CallWord),
    /// `send C`
    Send,
    /// `post C`
    Post,
    /// `deliver C K`
    Deliver,
    /// `back C K`
    Back,
    /// `carry C`
    Carry,
    /// `crash NODE`
    Crash,
    /// `cut D I COMMAND`
    Cut,
    /// `clock N`
    Clock,
    /// `view C NAME`
    View,
    /// `at C`
    At,
    /// `list`
    List,
    /// `bill ACCOUNT`
    Bill,
    /// `lines C`
    Lines,
}

/// The first word of a caller's line.
#[derive(Clone, Copy, Debug, PartialEq, Eq)]
pub enum CallWord {
    /// `dial C P`
    Dial,
    /// `press C P KEY`
    Press,
    /// `store C P`
    Store,
    /// `show C P`
    Show,
    /// `keys C P KEYS`
    Keys,
    /// `hang C P`
    Hang,
}

/// The first word of a command that a node is to store a record for.
#[derive(Clone, Copy, Debug, PartialEq, Eq)]
pub enum StoringWord {
    /// `seed NAME TEXT`
    Seed,
    /// `edit E LINE`
    Edit,
    /// `store C P`
    Store,
    /// `deliver C K`
    Deliver,
    /// `back C K`
    Back,
}

/// The word that a text is. `None` exactly when it is none of them.
pub fn word_of(text: &[u8]) -> Option<Word>
    ensures { result ≡ word_of_text text.now }
{
    if text == b"limits".as_slice() {
        Some(Word::Limits)
    } else if text == b"seed".as_slice() {
        Some(Word::Seed)
    } else if text == b"edit".as_slice() {
        Some(Word::Edit)
    } else if text == b"send".as_slice() {
        Some(Word::Send)
    } else if text == b"post".as_slice() {
        Some(Word::Post)
    } else {
        moving_word_of(text)
    }
}

/// The word of a packet, a crash or the clock that a text is, or one of those after them.
fn moving_word_of(text: &[u8]) -> Option<Word>
    ensures { result ≡ moving_word_of_text text.now }
{
    if text == b"deliver".as_slice() {
        Some(Word::Deliver)
    } else if text == b"back".as_slice() {
        Some(Word::Back)
    } else if text == b"carry".as_slice() {
        Some(Word::Carry)
    } else if text == b"crash".as_slice() {
        Some(Word::Crash)
    } else if text == b"cut".as_slice() {
        Some(Word::Cut)
    } else if text == b"clock".as_slice() {
        Some(Word::Clock)
    } else {
        asking_word_of(text)
    }
}

/// The word that asks for what is known that a text is, or a word of a caller's line.
fn asking_word_of(text: &[u8]) -> Option<Word>
    ensures { result ≡ asking_word_of_text text.now }
{
    if text == b"view".as_slice() {
        Some(Word::View)
    } else if text == b"at".as_slice() {
        Some(Word::At)
    } else if text == b"list".as_slice() {
        Some(Word::List)
    } else if text == b"bill".as_slice() {
        Some(Word::Bill)
    } else if text == b"lines".as_slice() {
        Some(Word::Lines)
    } else {
        Some(Word::Call(call_word_of(text)?))
    }
}

/// The word of a caller's line that a text is. `None` exactly when it is none of them.
fn call_word_of(text: &[u8]) -> Option<CallWord>
    ensures { result ≡ call_word_of_text text.now }
{
    if text == b"dial".as_slice() {
        Some(CallWord::Dial)
    } else if text == b"press".as_slice() {
        Some(CallWord::Press)
    } else if text == b"store".as_slice() {
        Some(CallWord::Store)
    } else if text == b"show".as_slice() {
        Some(CallWord::Show)
    } else if text == b"keys".as_slice() {
        Some(CallWord::Keys)
    } else if text == b"hang".as_slice() {
        Some(CallWord::Hang)
    } else {
        None
    }
}

/// The word of a command to store a record that a text is. `None` exactly when it is none of them.
pub fn storing_word_of(text: &[u8]) -> Option<StoringWord>
    ensures { result ≡ storing_word_of_text text.now }
{
    if text == b"seed".as_slice() {
        Some(StoringWord::Seed)
    } else if text == b"edit".as_slice() {
        Some(StoringWord::Edit)
    } else if text == b"store".as_slice() {
        Some(StoringWord::Store)
    } else if text == b"deliver".as_slice() {
        Some(StoringWord::Deliver)
    } else if text == b"back".as_slice() {
        Some(StoringWord::Back)
    } else {
        None
    }
}
