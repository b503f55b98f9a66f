ghost use Rattle.std.specs.Prelude.{◌∷◌, ◌++◌, ◌↔◌, map, IsTrue, IfSome, IsNone, string_bytes};
ghost use Rattle.pv_play.specs.About.{about_words};
ghost use Rattle.pv_play.specs.Task.{task_word};
ghost use Rattle.pv_play.specs.Wrong.{AskForOne, IsFirstWrong, IsTakenNumber};

use crate::about::About;
use crate::quoted::Quoted;
use crate::task::Task;
use pv_words::number_of;
use thiserror::Error;

/// What is wrong with the words of the command line: the first word that is wrong, or what is missing after them.
#[derive(Debug, Drop, Error)]
pub enum WordsError<'a> {
    /// There is no word.
    #[error("no command; try prestel --help")]
    NoCommand,
    /// The first word asks for nothing.
    #[error("unknown command {0}; try prestel --help")]
    UnknownCommand(Quoted<'a>),
    /// The task's number is missing.
    #[error("{0}: N is missing; try prestel {0} --help")]
    NoNumber(Task),
    /// The word after the task's is none of its numbers.
    #[error("{task}: {word} is not a number of 1 to {}", .task.last())]
    NotNumber {
        /// The task.
        task: Task,
        /// The word.
        word: Quoted<'a>,
    },
    /// A word follows the task's number.
    #[error("{task}: unexpected word {word} after the number")]
    AfterNumber {
        /// The task.
        task: Task,
        /// The word.
        word: Quoted<'a>,
    },
    /// A word follows the one that asks for help or the version.
    #[error("unexpected word {word} after {about}")]
    AfterAbout {
        /// What was asked for.
        about: About,
        /// The word.
        word: Quoted<'a>,
    },
    /// A word is not UTF-8.
    #[error("a word is not UTF-8; try prestel --help")]
    NotText,
}

/// What is wrong with the words. `None` exactly when the program takes them.
#[tactic(auto, using(crate::proofs::Words::none_if_taken))]
pub fn error_of(words: &[String]) -> Option<WordsError<'_>>
    ensures taken { IsNone result ↔ AskForOne (map string_bytes words.now) }
    ensures found { IfSome result (IsFirstWrong (map string_bytes words.now)) }
{
    match words {
        [] => Some(WordsError::NoCommand),
        [first, later @ ..] => match Task::of_word(first) {
            Some(task) => error_after_task(task, later),
            None => match About::of_word(None, first) {
                Some(about) => error_after_about(about, later),
                None => Some(WordsError::UnknownCommand(Quoted::new(first))),
            },
        },
    }
}

/// What is wrong with the words after a task's.
fn error_after_task(task: Task, words: &[String]) -> Option<WordsError<'_>>
    ensures taken { IsNone result → AskForOne (task_word task ∷ map string_bytes words.now) }
    ensures found { IfSome result (IsFirstWrong (task_word task ∷ map string_bytes words.now)) }
{
    match words {
        [] => Some(WordsError::NoNumber(task)),
        [word, later @ ..] => error_from(task, word, later),
    }
}

/// What is wrong with the word after a task's, or with those after it.
fn error_from<'a>(task: Task, word: &'a str, later: &'a [String]) -> Option<WordsError<'a>>
    ensures taken { IsNone result → AskForOne (task_word task ∷ word.now ∷ map string_bytes later.now) }
    ensures found { IfSome result (IsFirstWrong (task_word task ∷ word.now ∷ map string_bytes later.now)) }
{
    match About::of_word(Some(task), word) {
        Some(about) => error_after_about(about, later),
        None if is_number(task, word) => error_after_number(task, word, later),
        None => Some(WordsError::NotNumber {
            task,
            word: Quoted::new(word),
        }),
    }
}

/// What is wrong with the words after a task's number.
fn error_after_number<'a>(task: Task, number: &str, words: &'a [String]) -> Option<WordsError<'a>>
    requires { IsTakenNumber task number.now }
    ensures taken { IsNone result → AskForOne (task_word task ∷ number.now ∷ map string_bytes words.now) }
    ensures found { IfSome result (IsFirstWrong (task_word task ∷ number.now ∷ map string_bytes words.now)) }
{
    match words {
        [] => None,
        [word, ..] => Some(WordsError::AfterNumber {
            task,
            word: Quoted::new(word),
        }),
    }
}

/// What is wrong with the words after those that ask for help or the version.
fn error_after_about(about: About, words: &[String]) -> Option<WordsError<'_>>
    ensures taken { IsNone result → AskForOne (about_words about ++ map string_bytes words.now) }
    ensures found { IfSome result (IsFirstWrong (about_words about ++ map string_bytes words.now)) }
{
    match words {
        [] => None,
        [word, ..] => Some(WordsError::AfterAbout {
            about,
            word: Quoted::new(word),
        }),
    }
}

/// Whether a word is one of the task's numbers.
fn is_number(task: Task, word: &str) -> bool
    ensures { IsTrue result ↔ IsTakenNumber task word.now }
{
    match number_of(word.as_bytes()) {
        Some(number) => 1 <= number && number <= task.last() as u64,
        None => false,
    }
}
