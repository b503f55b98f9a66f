ghost use Rattle.std.specs.Prelude.{◌≡◌, ◌↔◌, ◌∷◌, ◌++◌, [], map, None, Some, string_bytes};
ghost use Rattle.pv_play.specs.About.{about_words, about_text, help_text, topic_words};

use crate::task::Task;
use std::fmt;

/// The version of the program.
const VERSION: &str = "prestel 0.1.0\n";

/// How the program is used.
const HELP: &str = "usage: prestel play N < SCRIPT
       prestel gen N > SCRIPT
       prestel evening N
       prestel format DIR N
       prestel serve DIR --centres N ..
       prestel web W serve DIR --centres N ..
       prestel tape DIR < TAPE
       prestel statement DIR ACCOUNT YYYY-MM
       prestel --help
       prestel --version

play runs a script on a network of N centres, 1 to 4, and answers each event.
gen writes the script that is made by rule for N, 1 to 999.
evening plays it, and sums up in one line what came of it.
format makes the disks of N centres in a folder.
serve lets callers and editors reach them over sockets.
web does so too, and shows browsers a terminal.
tape loads the pages of an information provider there.
statement writes what an account was charged in a month.
Each of the eight has a --help of its own.

Exit status:
  0  everything was done
  2  bad command line
  3  a line of the script or tape is not valid
  4  standard input could not be read
  5  standard output could not be written
  6  out of memory
  7  the script or tape is longer than 1048576 bytes
  8  a file could not be made or opened, is in use, or failed
  9  the records of a file could not be read
  10 a port of the machine could not be had, or failed
  11 the threads could not be started
  12 a node is full
  13 the tape's account or password is not known
  14 an edit of the tape was refused
  15 there is no such account
";

/// How `play` is used.
const PLAY_HELP: &str = "usage: prestel play N < SCRIPT

Runs the script on standard input on a viewdata network of N retrieval
centres, 1 to 4, and writes an answer to each event to standard output.
A script has at most 1048576 bytes. If one of its lines is not a valid
command, the lines before it are run, and the status is 3.
";

/// How `gen` is used.
const GENERATE_HELP: &str = "usage: prestel gen N > SCRIPT

Writes the script that is made by rule for the number N, 1 to 999, to
standard output: an operator stores N pages, and a caller gets 2N of them.
";

/// How `evening` is used.
const EVENING_HELP: &str = "usage: prestel evening N

Plays the script that is made by rule for the number N, 1 to 999, on one
centre. Writes one line to standard output: the records of the Update
Centre, the screens, the charge lines, and the pence of the bill.
";

/// What the program may be asked about itself, or about one of its tasks.
#[derive(Clone, Copy, Debug, PartialEq, Eq)]
pub enum About {
    /// How it is used.
    Help(Option<Task>),
    /// Which version it is.
    Version(Option<Task>),
}

impl About {
    /// What the words ask for. `None` if they are not `--help` or `--version`, alone or after the word of a task.
    pub fn asked(words: &[String]) -> Option<About>
        ensures { (about : About) → (result ≡ Some about) ↔ (map string_bytes words.now ≡ about_words about) }
    {
        match words {
            [word] => About::of_word(None, word),
            [task, word] => match Task::of_word(task) {
                Some(task) => About::of_word(Some(task), word),
                None => None,
            },
            _ => None,
        }
    }

    /// What a word asks for, alone or after the word of a task. `None` if it asks for neither.
    pub fn of_word(topic: Option<Task>, word: &str) -> Option<About>
        ensures { (about : About) → (result ≡ Some about)
            ↔ (topic_words topic ++ word.now ∷ [] ≡ about_words about) }
    {
        if word == "--help" {
            Some(About::Help(topic))
        } else if word == "--version" {
            Some(About::Version(topic))
        } else {
            None
        }
    }

    /// The text that is written for it.
    pub fn text(self) -> &'static str
        ensures { result.now ≡ about_text self }
    {
        match self {
            About::Help(None) => overview(),
            About::Help(Some(Task::Play)) => PLAY_HELP,
            About::Help(Some(Task::Generate)) => GENERATE_HELP,
            About::Help(Some(Task::Evening)) => EVENING_HELP,
            About::Version(_) => VERSION,
        }
    }
}

/// How the program is used. A function of its own, since the search for a proof goes through each text that it sees.
fn overview() -> &'static str
    ensures { result.now ≡ help_text None }
{
    HELP
}

impl fmt::Display for About {
    /// The word that asks for it.
    fn fmt<W: fmt::Write>(&self, f: &mut fmt::Formatter<W>) -> fmt::Result {
        f.write_str(match self {
            About::Help(_) => "--help",
            About::Version(_) => "--version",
        })
    }
}
