ghost use Rattle.std.specs.Prelude.{◌≡◌, ◌<◌, ◌++◌, [], length, reverse, OnOk};
ghost use Rattle.std.specs.Option.{option_to_list};
ghost use Rattle.pv_charge.specs.declared.bill.TheConstants.{MAX_BILLED_LINES};
ghost use Rattle.pv_network.specs.Prices.{pence_of};

use crate::outcome::BillLine;
use pv_charge::{MAX_BILLED_LINES, MAX_PRICE};
use std::alloc::{AllocError, Global};
use std::marker::Model;

/// Charge lines, in order, with the sum of their prices. Contracts see the list of them.
#[derive(Debug, Drop)]
pub struct BillLines {
    lines: Vec<BillLine>,
    pence: u64,
}

impl Model for BillLines {
    ghost use Rattle.std.specs.Prelude.{◌≡◌, ◌≤◌, ◌*◌, List, length};
    ghost use Rattle.pv_charge.specs.declared.line.TheConstants.{MAX_PRICE};
    ghost use Rattle.pv_network.specs.Prices.{pence_of};
    ghost use Rattle.pv_network.specs.declared.outcome.BillLine.{BillLine};

    ghost Value = { List BillLine };

    ghost view = { λ bill. bill.lines.items };

    ghost invariant = { λ bill. (bill.pence ≡ pence_of bill.lines.items)
        × (bill.pence ≤ MAX_PRICE * length bill.lines.items) };
}

impl BillLines {
    /// No charge line.
    pub(crate) fn new(alloc: Global) -> BillLines
        ensures { result ≡ [] }
    {
        BillLines {
            lines: Vec::new(alloc),
            pence: 0,
        }
    }

    /// Adds a charge line after the others. `None` adds nothing. The only error is that memory ran out.
    pub(crate) fn add(&mut self, line: Option<BillLine>) -> Result<(), AllocError>
        requires { length self.old < MAX_BILLED_LINES }
        ensures { OnOk result (self.new ≡ self.old ++ option_to_list line) }
    {
        let Some(line) = line else {
            return Ok(());
        };
        line.line.within();
        self.lines.reserve(1)?;
        self.lines.push_reserved(line);
        self.pence += u64::from(line.line.price);
        Ok(())
    }

    /// Puts the charge lines in the opposite order.
    pub(crate) fn reverse(&mut self)
        ensures { self.new ≡ reverse self.old }
    {
        self.lines.reverse();
    }

    /// The sum of their prices, in pence.
    pub(crate) fn pence(&self) -> u64
        ensures { result ≡ pence_of self.now }
    {
        self.pence
    }

    /// The charge lines.
    pub fn all(&self) -> &[BillLine]
        ensures { result.now ≡ self.now }
    {
        &self.lines
    }
}
