ghost use Rattle.std.specs.Prelude.{◌≡◌, ◌↔◌, ◌<◌, ◌≤◌, None};
ghost use Rattle.pv_link.specs.Sending.{new_end, number_due, number_to_give, end_after, end_that_heard};

use std::marker::Model;

/// What both ends do.
#[derive(Clone, Copy, Debug, PartialEq, Eq)]
pub(crate) struct Sending {
    acknowledged: u64,
    next: u64,
}

impl Model for Sending {
    ghost use Rattle.pv_link.specs.Sending.{SendingEnd};

    ghost Value = { SendingEnd };

    ghost view = { λ s. record { acknowledged = s.acknowledged; next = s.next } };

    ghost inverse = { λ s. record { acknowledged = s.acknowledged; next = s.next } };
}

impl Sending {
    /// An end that gave no number.
    pub(crate) fn new() -> Sending
        ensures { result ≡ new_end }
    {
        Sending {
            acknowledged: 0,
            next: 0,
        }
    }

    /// The number that is due, of those that are not acknowledged.
    fn due(&self, front: u64) -> u64
        requires { self.now.acknowledged < front }
        ensures value { result ≡ number_due self.now front }
        ensures below { result < front }
    {
        if self.acknowledged <= self.next && self.next < front {
            self.next
        } else {
            self.acknowledged
        }
    }

    /// Gives the next number below the count.
    pub(crate) fn next(&mut self, front: u64) -> Option<u64>
        ensures given { result ≡ number_to_give self.old front }
        ensures after { self.new ≡ end_after self.old front }
        ensures none { (result ≡ None) ↔ (front ≤ self.old.acknowledged) }
    {
        if self.acknowledged >= front {
            return None;
        }
        let number = self.due(front);
        self.next = number + 1;
        Some(number)
    }

    /// Hears that all numbers below `n` are acknowledged.
    pub(crate) fn acknowledged(&mut self, n: u64, front: u64)
        ensures { self.new ≡ end_that_heard self.old n front }
    {
        if self.acknowledged < n && n <= front {
            self.acknowledged = n;
        }
    }
}
