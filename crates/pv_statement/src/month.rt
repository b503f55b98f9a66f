ghost use Rattle.std.specs.Prelude.{◌≡◌, ◌≤◌};
ghost use Rattle.pv_statement.specs.Months.{IsMonth, first_day, month_days};

use jiff::civil::date;

/// The year of the first month that a statement may be of.
pub const FIRST_YEAR: u16 = 1970;

/// The year of the last month that a statement may be of.
pub const LAST_YEAR: u16 = 2099;

/// How many months a year has.
pub const MONTHS: u8 = 12;

/// A month, and where its days lie.
#[derive(Clone, Copy, Debug)]
pub(crate) struct Month {
    /// The year, [`FIRST_YEAR`] to [`LAST_YEAR`].
    pub(crate) year: u16,
    /// The month of the year, from 1.
    pub(crate) number: u8,
    /// The first day, counted from 1970-01-01.
    pub(crate) first: u32,
    /// How many days there are.
    pub(crate) days: u8,
    ghost valid: { IsMonth year number },
    ghost begins: { first ≡ first_day year number },
    ghost lasts: { days ≡ month_days year number },
}

impl Month {
    /// The month of a year.
    pub(crate) fn new(year: u16, number: u8) -> Month
        requires { IsMonth year number }
        ensures year { result.year ≡ year }
        ensures number { result.number ≡ number }
    {
        let first = date(year as i16, number as i8, 1);
        Month {
            year,
            number,
            first: first.to_plain().to_unix_epoch_day().unsigned_abs(),
            days: first.days_in_month().unsigned_abs(),
        }
    }
}
