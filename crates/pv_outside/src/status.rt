ghost use Rattle.std.specs.Prelude.{◌≡◌, Some};
ghost use Rattle.pv_outside.specs.Status.{number_of, words_of};

use std::fmt;

/// How a program ends.
#[derive(Clone, Copy, Debug, PartialEq, Eq)]
pub enum Status {
    /// All was done.
    Done,
    /// The words of the command line are not the program's.
    Usage,
    /// The line of this number, counted from 1, is not a valid command.
    BadLine { line: u32 },
    /// The input could not be read.
    ReadFault,
    /// The output could not be written.
    WriteFault,
    /// Memory ran out.
    Memory,
    /// The script has more bytes than a script may have.
    TooLong,
}

impl Status {
    /// The number that the process ends with.
    pub fn number(self) -> u8
        ensures { result ≡ number_of self }
    {
        match self {
            Status::Done => 0,
            Status::Usage => 2,
            Status::BadLine { .. } => 3,
            Status::ReadFault => 4,
            Status::WriteFault => 5,
            Status::Memory => 6,
            Status::TooLong => 7,
        }
    }
}

impl fmt::Display for Status {
    ghost output = { λ status. Some (words_of status) };

    fn fmt<W: fmt::Write>(&self, f: &mut fmt::Formatter<W>) -> fmt::Result {
        match self {
            Status::Done => write!(f, "done"),
            Status::Usage => write!(f, "usage: prestel play N < SCRIPT"),
            Status::BadLine { line } => write!(f, "line {line}: not a valid command"),
            Status::ReadFault => write!(f, "the input could not be read"),
            Status::WriteFault => write!(f, "the output could not be written"),
            Status::Memory => write!(f, "out of memory"),
            Status::TooLong => write!(f, "the script is longer than 1048576 bytes"),
        }
    }
}
