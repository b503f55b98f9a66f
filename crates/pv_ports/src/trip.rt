ghost use Rattle.std.specs.Prelude.{◌≡◌, ◌+◌, ◌<◌, ◌≤◌, false, unwrap_or, option_map};
ghost use Rattle.pv_link.specs.Sending.{new_end};
ghost use Rattle.pv_ports.specs.Round.{trip_after_record, trip_after_item, end_of_trip, round_stop};

use crate::round_end::RoundEnd;
use pv_irc::IrcReply;
use pv_link::{DownEnd, UpEnd};
use pv_outside::Disk;
use pv_udc::UdcReply;

/// The two sending ends, and what is kept of a round: how many records and items its looks have seen, whether a packet
/// was moved, and how many records were applied and items taken up.
#[derive(Clone, Copy)]
pub(crate) struct Trip {
    pub(crate) sending: DownEnd,
    pub(crate) posting: UpEnd,
    pub(crate) record_count: u64,
    pub(crate) item_count: u64,
    pub(crate) moved: bool,
    pub(crate) applied: u8,
    pub(crate) taken_up: u8,
}

impl Trip {
    /// Before the first round.
    pub(crate) fn new() -> Trip
        ensures sending { result.sending ≡ new_end }
        ensures posting { result.posting ≡ new_end }
    {
        Trip {
            sending: DownEnd::new(),
            posting: UpEnd::new(),
            record_count: 0,
            item_count: 0,
            moved: false,
            applied: 0,
            taken_up: 0,
        }
    }

    /// Begins a round, in which nothing was moved yet.
    pub(crate) fn begin(&mut self)
        ensures { self.new ≡ record self.old { moved = false; applied = 0; taken_up = 0 } }
    {
        self.moved = false;
        self.applied = 0;
        self.taken_up = 0;
    }

    /// Counts a record that was applied, by the reply to it.
    pub(crate) fn count_record(&mut self, reply: &IrcReply)
        requires { self.old.applied < 2 }
        ensures value { self.new ≡ trip_after_record reply.now self.old }
        ensures one { self.new.applied ≤ self.old.applied + 1 }
    {
        if let IrcReply::Applied = reply {
            self.applied += 1;
        }
    }

    /// Counts an item that was taken up, by the reply to it.
    pub(crate) fn count_item(&mut self, reply: &UdcReply)
        requires { self.old.taken_up < 2 }
        ensures value { self.new ≡ trip_after_item reply.now self.old }
        ensures one { self.new.taken_up ≤ self.old.taken_up + 1 }
    {
        if let UdcReply::Stored(_) = reply {
            self.taken_up += 1;
        }
    }

    /// How a round ends: as it stopped, or by whether anything was moved.
    pub(crate) fn ending<D: Disk>(&self, stop: Option<RoundEnd<D>>) -> RoundEnd<D>
        ensures { round_stop result ≡ unwrap_or (option_map round_stop stop) (end_of_trip self.now) }
    {
        match stop {
            Some(end) => end,
            None => self.end(),
        }
    }

    /// How a round ends that did not stop.
    fn end<D: Disk>(&self) -> RoundEnd<D>
        ensures { round_stop result ≡ end_of_trip self.now }
    {
        if self.moved {
            RoundEnd::Moved {
                records: self.applied,
                items: self.taken_up,
            }
        } else {
            RoundEnd::Idle
        }
    }
}
