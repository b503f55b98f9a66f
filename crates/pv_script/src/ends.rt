ghost use Rattle.std.specs.Prelude.{◌≡◌};
ghost use Rattle.pv_script.specs.Ends.{run_status};

use pv_outside::Status;

/// Why the answer to a command was not written.
#[derive(Clone, Copy, Debug, PartialEq, Eq)]
pub enum AnswerEnd {
    /// A write failed.
    Fault,
    /// Memory ran out.
    Memory,
}

/// Why the lines of a script were not all run.
#[derive(Clone, Copy, Debug, PartialEq, Eq)]
pub enum RunEnd {
    /// The line of this number, from 1, is not a valid command.
    BadLine { line: u32 },
    /// An answer was not written.
    Unanswered(AnswerEnd),
}

impl RunEnd {
    /// The status of a play that ended so.
    pub fn status(self) -> Status
        ensures { result ≡ run_status self }
    {
        match self {
            RunEnd::BadLine { line } => Status::BadLine { line },
            RunEnd::Unanswered(AnswerEnd::Fault) => Status::WriteFault,
            RunEnd::Unanswered(AnswerEnd::Memory) => Status::Memory,
        }
    }
}
