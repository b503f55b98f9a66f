ghost use Rattle.std.specs.Prelude.{◌≡◌};
ghost use Rattle.pv_office.specs.Status.{office_number, open_status, statement_status, tape_status};

use pv_node::NodeFault;
use pv_outside::Disk;
use pv_statement::StatementFault;
use pv_tape::TapeEnd;
use std::fmt;

/// How the programs `statement` and `tape` end.
#[derive(Drop)]
pub enum OfficeStatus<D: Disk> {
    /// All was done.
    Done,
    /// The words of the command line are not the program's.
    Usage,
    /// A line of the tape is bad. Nothing was asked.
    BadLine {
        /// The number of the first bad line, from 1.
        line: u32,
    },
    /// The tape could not be read. Nothing was asked.
    ReadFault,
    /// The output could not be written.
    WriteFault,
    /// Memory ran out.
    Memory,
    /// The tape is longer than a text may be. Nothing was asked.
    TooLong,
    /// A call of the disk failed.
    DiskFault(D::Failure),
    /// The records of the Update Centre could not be read.
    Unopened(NodeFault<D>),
    /// The Update Centre has as many records as it may have.
    Full {
        /// How many it has.
        count: u64,
    },
    /// The tape's account is unknown, or its password is another. Nothing was asked.
    NotKnown,
    /// The Update Centre refused an edit of the tape. Those before it are stored.
    Refused {
        /// The number of the edit's line, from 1.
        line: u32,
        /// The number of the refusal.
        code: u8,
        /// The number that the refusal's text shows, 0 if it shows none.
        shown: u64,
    },
    /// There is no such account to write a statement of.
    NoAccount,
}

impl<D: Disk> OfficeStatus<D> {
    /// The number that the process ends with.
    pub fn number(&self) -> u8
        ensures { result ≡ office_number self.now }
    {
        match self {
            OfficeStatus::Done => 0,
            OfficeStatus::Usage => 2,
            OfficeStatus::BadLine { .. } => 3,
            OfficeStatus::ReadFault => 4,
            OfficeStatus::WriteFault => 5,
            OfficeStatus::Memory => 6,
            OfficeStatus::TooLong => 7,
            OfficeStatus::DiskFault(_) => 8,
            OfficeStatus::Unopened(_) => 9,
            OfficeStatus::Full { .. } => 12,
            OfficeStatus::NotKnown => 13,
            OfficeStatus::Refused { .. } => 14,
            OfficeStatus::NoAccount => 15,
        }
    }

    /// The end of a program whose disk could not be opened.
    pub(crate) fn of_open(fault: NodeFault<D>) -> OfficeStatus<D>
        ensures { result ≡ open_status fault }
    {
        match fault {
            NodeFault::Memory => OfficeStatus::Memory,
            NodeFault::Disk(failure) => OfficeStatus::DiskFault(failure),
            fault => OfficeStatus::Unopened(fault),
        }
    }

    /// The end of `tape`, by that of the run of the tape.
    pub(crate) fn of_tape(end: TapeEnd<D>) -> OfficeStatus<D>
        ensures { result ≡ tape_status end }
    {
        match end {
            TapeEnd::Done { .. } => OfficeStatus::Done,
            TapeEnd::ReadFault => OfficeStatus::ReadFault,
            TapeEnd::TooLong => OfficeStatus::TooLong,
            TapeEnd::BadTape { line } => OfficeStatus::BadLine { line },
            TapeEnd::NotKnown => OfficeStatus::NotKnown,
            TapeEnd::Refused { line, code, shown } => OfficeStatus::Refused { line, code, shown },
            TapeEnd::Full { count } => OfficeStatus::Full { count },
            TapeEnd::DiskFault(failure) => OfficeStatus::DiskFault(failure),
            TapeEnd::Memory => OfficeStatus::Memory,
        }
    }

    /// The end of `statement`, by what writing it came to.
    pub(crate) fn of_statement(written: Result<u32, StatementFault>) -> OfficeStatus<D>
        ensures { result ≡ statement_status written }
    {
        match written {
            Ok(_) => OfficeStatus::Done,
            Err(StatementFault::NoAccount) => OfficeStatus::NoAccount,
            Err(StatementFault::WriteFault) => OfficeStatus::WriteFault,
        }
    }
}

impl<D: Disk> fmt::Display for OfficeStatus<D> {
    fn fmt<W: fmt::Write>(&self, f: &mut fmt::Formatter<W>) -> fmt::Result {
        match self {
            OfficeStatus::Done => write!(f, "done"),
            OfficeStatus::Usage => write!(f, "bad command line"),
            OfficeStatus::BadLine { line } => write!(f, "line {line}: not a valid line of a tape"),
            OfficeStatus::ReadFault => write!(f, "the tape could not be read"),
            OfficeStatus::WriteFault => write!(f, "the output could not be written"),
            OfficeStatus::Memory => write!(f, "out of memory"),
            OfficeStatus::TooLong => write!(f, "the tape is longer than 1048576 bytes"),
            OfficeStatus::DiskFault(_) => write!(f, "the disk of the Update Centre failed"),
            OfficeStatus::Unopened(fault) => match fault {
                NodeFault::Memory => write!(f, "out of memory"),
                NodeFault::Disk(_) => write!(f, "the disk of the Update Centre failed"),
                NodeFault::NotFormatted(_) => write!(
                    f,
                    "the disk of the Update Centre is not formatted"
                ),
                NodeFault::Broken { at } => write!(
                    f,
                    "byte {at} of the Update Centre's disk is damaged"
                ),
                NodeFault::TooMany { count } => write!(
                    f,
                    "the Update Centre has more than {count} records"
                ),
                NodeFault::Unreadable { number } => write!(
                    f,
                    "record {number} of the Update Centre is invalid"
                ),
            },
            OfficeStatus::Full { count } => write!(
                f,
                "the Update Centre is full: it has {count} records"
            ),
            OfficeStatus::NotKnown => write!(f, "the tape's account or its password is not known"),
            OfficeStatus::Refused { line, code, shown } => {
                write!(f, "line {line}: refused with {code}: ")?;
                write_refusal(*code, *shown, f)
            }
            OfficeStatus::NoAccount => write!(f, "no such account"),
        }
    }
}

/// Writes a refusal of the Update Centre in words.
fn write_refusal<W: fmt::Write>(code: u8, shown: u64, f: &mut fmt::Formatter<W>) -> fmt::Result {
    match code {
        2 => write!(f, "the page belongs to another"),
        3 => write!(f, "the account's next edit has the number {shown}"),
        4 => write!(f, "the name has no frame"),
        5 => write!(f, "{shown} names have a frame, and this one has none"),
        _ => write!(f, "number {shown}"),
    }
}
