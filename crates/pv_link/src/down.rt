ghost use Rattle.std.specs.Prelude.{◌≡◌, ◌↔◌, ◌≤◌, None};
ghost use Rattle.pv_link.specs.Sending.{new_end, number_to_give, end_after, end_that_heard};

use crate::sending::Sending;
use std::marker::Model;

/// The Update Centre's end for one centre: which record goes down to it next.
#[derive(Clone, Copy, Debug, PartialEq, Eq)]
pub struct DownEnd {
    sending: Sending,
}

impl Model for DownEnd {
    ghost use Rattle.pv_link.specs.Sending.{SendingEnd};

    ghost Value = { SendingEnd };

    ghost view = { λ e. e.sending };

    ghost inverse = { λ s. record { sending = s } };
}

impl DownEnd {
    /// An end that gave no number, and that knows of no acknowledgement.
    pub fn new() -> DownEnd
        ensures { result ≡ new_end }
    {
        DownEnd {
            sending: Sending::new(),
        }
    }

    /// The number of the next packet, if there are `front` records. The end gives the numbers from the
    /// acknowledged one to below that count in order, and then again from the acknowledged one. `None`
    /// exactly when all below that count are acknowledged.
    pub fn next(&mut self, front: u64) -> Option<u64>
        ensures given { result ≡ number_to_give self.old front }
        ensures after { self.new ≡ end_after self.old front }
        ensures none { (result ≡ None) ↔ (front ≤ self.old.acknowledged) }
    {
        self.sending.next(front)
    }

    /// Hears that all numbers below `n` are stored at the other side. The end keeps the greatest number
    /// that it heard. One above the count is ignored: there are fewer records.
    pub fn acknowledged(&mut self, n: u64, front: u64)
        ensures { self.new ≡ end_that_heard self.old n front }
    {
        self.sending.acknowledged(n, front);
    }
}
