use crate::edit_end::EditEnd;
use crate::end::CallEnd;
use pv_account::AccountNo;
use pv_outside::Disk;

/// What a log may have of a call or a session: of all that was keyed, the account alone.
#[derive(Clone, Copy, Debug, PartialEq, Eq)]
pub struct LogEntry {
    /// Who had logged on, if anybody had.
    pub account: Option<AccountNo>,
    /// How it ended.
    pub end: LogEnd,
    /// How many screens a caller was sent, or how many lines of an editor were answered.
    pub screens: usize,
    /// What was charged, in pence. It is 0 for an editor.
    pub pence: u32,
}

/// How a call or a session ended, as a log says it.
#[derive(Clone, Copy, Debug, PartialEq, Eq)]
pub enum LogEnd {
    /// The caller or editor ended it.
    Finished,
    /// He hung up.
    Hung,
    /// His last log-on failed.
    Refused,
    /// He has had as much as a call or session may have.
    Spent,
    /// His connection could not be read.
    ReadFault,
    /// His connection could not be written.
    WriteFault,
    /// A call of the node's disk failed.
    DiskFault,
    /// The centre was full.
    Full,
    /// Memory ran out.
    Memory,
}

impl LogEnd {
    /// How a call ended.
    pub(crate) fn of_call<D: Disk>(end: &CallEnd<D>) -> LogEnd {
        match end {
            CallEnd::Finished => LogEnd::Finished,
            CallEnd::Hung => LogEnd::Hung,
            CallEnd::Refused => LogEnd::Refused,
            CallEnd::Spent => LogEnd::Spent,
            CallEnd::ReadFault => LogEnd::ReadFault,
            CallEnd::WriteFault => LogEnd::WriteFault,
            CallEnd::DiskFault(_) => LogEnd::DiskFault,
            CallEnd::Full { .. } => LogEnd::Full,
            CallEnd::Memory { .. } => LogEnd::Memory,
        }
    }

    /// How a session ended.
    pub(crate) fn of_session<D: Disk>(end: &EditEnd<D>) -> LogEnd {
        match end {
            EditEnd::Closed => LogEnd::Finished,
            EditEnd::Hung => LogEnd::Hung,
            EditEnd::Spent => LogEnd::Spent,
            EditEnd::ReadFault => LogEnd::ReadFault,
            EditEnd::WriteFault => LogEnd::WriteFault,
            EditEnd::DiskFault(_) => LogEnd::DiskFault,
            EditEnd::Memory { .. } => LogEnd::Memory,
        }
    }

    /// How it ended, in words.
    pub fn words(self) -> &'static str {
        match self {
            LogEnd::Finished => "finished",
            LogEnd::Hung => "hung up",
            LogEnd::Refused => "refused",
            LogEnd::Spent => "spent",
            LogEnd::ReadFault => "the line could not be read",
            LogEnd::WriteFault => "the line could not be written",
            LogEnd::DiskFault => "the disk failed",
            LogEnd::Full => "the centre is full",
            LogEnd::Memory => "out of memory",
        }
    }
}
