ghost use Rattle.std.specs.Prelude.{◌≡◌, ◌≤◌, length};
ghost use Rattle.pv_udc.specs.Bills.{billed_lines, billed_pence, last_charge, charge_before};

use crate::UdcState;
use pv_charge::Bill;
use pv_page::AccountNo;

impl UdcState {
    /// An account's bill: how many charge lines of it were taken up, and the sum of their prices.
    pub fn bill(&self, account: AccountNo) -> Bill
        ensures lines { result.lines ≡ length (billed_lines self.now.records account) }
        ensures pence { result.pence ≡ billed_pence self.now.records account }
    {
        self.charges().bill(account)
    }

    /// The place of the record that brought an account's last charge line. `None` exactly when none did.
    pub fn last_charge(&self, account: AccountNo) -> Option<u64>
        ensures value { result ≡ last_charge self.now.records account }
        ensures within { length self.now.records ≤ self.now.limits.records }
    {
        self.charges().last(account)
    }

    /// The place of the charge line before the one at a place, of the same account. `None` exactly when
    /// there is no charge line at the place, or none before it.
    pub fn charge_before(&self, place: u64) -> Option<u64>
        ensures { result ≡ charge_before self.now.records place }
    {
        self.charges().before(place)
    }
}
