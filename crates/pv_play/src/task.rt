ghost use Rattle.std.specs.Prelude.{◌≡◌, ◌↔◌, Some};
ghost use Rattle.pv_play.specs.Task.{task_word, last_number};

use pv_account::MAX_CENTRES;
use pv_gen::LAST_NUMBER;
use std::fmt;

/// What the program does with a number: the first word of its command line.
#[derive(Clone, Copy, Debug, PartialEq, Eq)]
pub enum Task {
    /// `play N`: it plays a script on N centres.
    Play,
    /// `gen N`: it writes the script of the number N.
    Generate,
    /// `evening N`: it plays the script of the number N, and sums it up.
    Evening,
}

impl Task {
    /// The task that a word asks for. `None` if it asks for none.
    pub fn of_word(word: &str) -> Option<Task>
        ensures { (task : Task) → (result ≡ Some task) ↔ (word.now ≡ task_word task) }
    {
        if word == "play" {
            Some(Task::Play)
        } else if word == "gen" {
            Some(Task::Generate)
        } else if word == "evening" {
            Some(Task::Evening)
        } else {
            None
        }
    }

    /// The word that asks for it.
    pub fn word(self) -> &'static str
        ensures { result.now ≡ task_word self }
    {
        match self {
            Task::Play => "play",
            Task::Generate => "gen",
            Task::Evening => "evening",
        }
    }

    /// The last of the numbers that it takes, of which the first is 1.
    pub fn last(self) -> u32
        ensures { result ≡ last_number self }
    {
        match self {
            Task::Play => MAX_CENTRES as u32,
            Task::Generate | Task::Evening => LAST_NUMBER,
        }
    }
}

impl fmt::Display for Task {
    fn fmt<W: fmt::Write>(&self, f: &mut fmt::Formatter<W>) -> fmt::Result {
        f.write_str(self.word())
    }
}
