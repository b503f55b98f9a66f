ghost use Rattle.std.specs.Prelude.{◌≡◌, ◌+◌, ◌<◌};

use crate::line::Line;

/// How many lines a bill has at most.
pub const MAX_BILLED_LINES: u32 = u32::MAX;

/// A bill may take one more line as long as its sum is below this, in pence.
pub const MAX_BILLED_PENCE: u64 = 1 << 63;

/// How many charge lines there are, and the sum of their prices.
#[derive(Clone, Copy, Debug, PartialEq, Eq)]
pub struct Bill {
    /// How many lines were added.
    pub lines: u32,
    /// The sum of their prices in pence.
    pub pence: u64,
}

impl Bill {
    /// A bill of no lines.
    pub fn new() -> Bill
        ensures lines { result.lines ≡ 0 }
        ensures pence { result.pence ≡ 0 }
    {
        Bill { lines: 0, pence: 0 }
    }

    /// Adds a line.
    pub fn add(&mut self, line: &Line)
        requires lines { self.old.lines < MAX_BILLED_LINES }
        requires pence { self.old.pence < MAX_BILLED_PENCE }
        ensures lines { self.new.lines ≡ self.old.lines + 1 }
        ensures pence { self.new.pence ≡ self.old.pence + line.now.price }
    {
        self.lines += 1;
        self.pence += u64::from(line.price);
    }
}
