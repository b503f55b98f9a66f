ghost use Rattle.std.specs.Prelude.{◌≡◌};
ghost use Rattle.pv_network.specs.Calls.{away_answer};
ghost use Rattle.pv_network.specs.Cutting.{cut_answer};
ghost use Rattle.pv_network.specs.Keying.{is_owes, is_storing, is_over};
ghost use Rattle.pv_network.specs.Traffic.{packet_in, ack_in, sent_answer};

use crate::lines::BillLines;
use crate::turns::Turns;
use pv_charge::Line;
use pv_editor::Text;
use pv_nodes::Cut;
use pv_screen::Screen;
use pv_session::{Step, Why};
use pv_traffic::Way;

/// A screen that is shown, and whether the call ended with it.
#[derive(Clone, Copy, Debug, PartialEq, Eq)]
pub struct Turn {
    pub screen: Screen,
    pub ended: Option<Why>,
}

/// A charge line, and the centre of its call.
#[derive(Clone, Copy, Debug, PartialEq, Eq)]
pub struct BillLine {
    pub centre: u8,
    pub line: Line,
}

/// What came of an event. Two own a list, so that an outcome is not `Copy`.
#[derive(Debug, Drop)]
pub enum Outcome {
    /// The reply to an editor.
    Reply(Text),
    /// A screen is shown.
    Shown(Turn),
    /// A call is at the port already.
    Busy,
    /// A key shows nothing, and nothing is owed for it.
    Quiet,
    /// Something is to be stored before the next screen.
    Owes,
    /// The call takes no key until what it owes was stored and shown.
    Owing,
    /// There is no call at the port.
    NoCall,
    /// Nothing is owed, or nothing was stored that is to be shown.
    Nothing,
    /// The call is over.
    Hung,
    /// What was owed was stored.
    Stored,
    /// The centre has this many records, which is its limit, and turned the caller away with a screen.
    StoreFull { count: u64, screen: Screen },
    /// The keys of a caller showed him these screens, at least one. If the call ended, it ended with the last.
    Turns(Turns),
    /// There was nothing to send.
    Idle,
    /// As many packets were made as may be.
    PacketsFull,
    /// No such packet was made.
    NoPacket,
    /// The packet of this index was made, with the record of this number.
    SentRecord { index: u64, number: u64 },
    /// The packet of this index was made, with the item of this number.
    SentItem { index: u64, number: u64 },
    /// The record or item of this number was taken. Its acknowledgement is the packet of the index `ack`, or
    /// `None` if no packet could be made; the same holds below.
    Taken { number: u64, ack: Option<u64> },
    /// The record or item of this number had been taken before.
    Old { number: u64, ack: Option<u64> },
    /// A record or item before the one of this number has not been taken.
    Early { number: u64, ack: Option<u64> },
    /// The Update Centre heard that a centre has this many records, or a centre that this many of its items are taken.
    Heard { number: u64 },
    /// The node has this many records, which is its limit, and took none.
    Full { count: u64 },
    /// Nothing was left to send. The centre took this many records, and the Update Centre this many items.
    Carried { records: u64, items: u64 },
    /// The node was opened again, and has this many records.
    Crashed { count: u64 },
    /// The node that was lost within a command was opened again, and has the record that was to be stored.
    Kept,
    /// It does not have that record.
    Lost,
    /// The command was to store no record.
    NotStored,
    /// The clock shows this moment.
    Clock { moment: u32 },
    /// The centre has no such frame.
    NotHeld,
    /// The centre has applied this many records.
    Applied { count: u64 },
    /// The edit list has this many records.
    Records { count: u64 },
    /// These charge lines, and the sum of their prices in pence.
    Bill { lines: BillLines, pence: u64 },
}

impl Outcome {
    /// Whether something is owed.
    pub(crate) fn is_owes(&self) -> bool
        ensures { result ≡ is_owes self.now }
    {
        matches!(self, Outcome::Owes)
    }

    /// Whether what was owed was stored.
    pub(crate) fn is_storing(&self) -> bool
        ensures { result ≡ is_storing self.now }
    {
        matches!(self, Outcome::Stored)
    }

    /// Whether the call ended with a screen.
    pub(crate) fn is_over(&self) -> bool
        ensures { result ≡ is_over self.now }
    {
        match self {
            Outcome::Shown(turn) => turn.ended.is_some(),
            Outcome::StoreFull { .. } => true,
            _ => false,
        }
    }

    /// The answer of a full centre of this many records, by the step with which the seat ends.
    pub(crate) fn away(count: u64, step: Step) -> Outcome
        ensures { result ≡ away_answer count step }
    {
        match step {
            Step::Ended(_, screen) => Outcome::StoreFull { count, screen },
            _ => Outcome::Nothing,
        }
    }

    /// The answer to a stop of a node within a command, by what became of the record.
    pub(crate) fn cut(cut: Cut) -> Outcome
        ensures { result ≡ cut_answer cut }
    {
        match cut {
            Cut::NotStored => Outcome::NotStored,
            Cut::Kept => Outcome::Kept,
            Cut::Lost => Outcome::Lost,
        }
    }

    /// The answer to a packet that was made with the record or item of a number.
    pub(crate) fn sent(way: Way, index: u64, number: u64) -> Outcome
        ensures { result ≡ sent_answer way index number }
    {
        match way {
            Way::Down => Outcome::SentRecord { index, number },
            Way::Up => Outcome::SentItem { index, number },
        }
    }

    /// The index of the packet that was made, if one was.
    pub(crate) fn packet(&self) -> Option<u64>
        ensures { result ≡ packet_in self.now }
    {
        match self {
            Outcome::SentRecord { index, .. } => Some(*index),
            Outcome::SentItem { index, .. } => Some(*index),
            _ => None,
        }
    }

    /// The index of the acknowledgement that was made, if one was.
    pub(crate) fn ack(&self) -> Option<u64>
        ensures { result ≡ ack_in self.now }
    {
        match self {
            Outcome::Taken { ack, .. } | Outcome::Old { ack, .. } | Outcome::Early { ack, .. } =>
                *ack,
            _ => None,
        }
    }
}
