//! A month as a word of the command line: `1980-01`.
ghost use Rattle.std.specs.Prelude.{◌≡◌, ℕ, [], ◌∷◌, ◌++◌, Some, IfSome, codes, decimal};
ghost use Rattle.std.specs.Int.{IsInRange};
ghost use Rattle.pv_statement.specs.Months.{IsMonth};
ghost use Rattle.pv_statement.specs.Statement.{two_digits, month_text};
ghost use Rattle.pv_statement.specs.declared.month.TheConstants.{FIRST_YEAR, LAST_YEAR, MONTHS};

use pv_statement::{FIRST_YEAR, LAST_YEAR, MONTHS};
use pv_words::number_of;

/// How many digits a year has.
pub(crate) const YEAR_DIGITS: usize = 4;

/// The base of the digits.
pub(crate) const BASE: u8 = 10;

/// The year and the month that a text writes as `YYYY-MM`. `None` exactly when it writes none from 1970-01 to 2099-12.
pub fn month_of(text: &[u8]) -> Option<(u16, u8)>
    ensures found { IfSome result
        (λ month. IsMonth month.0 month.1 × (text.now ≡ month_text month.0 month.1)) }
    ensures only { (year month : ℕ) → IsMonth year month → text.now ≡ month_text year month
        → result ≡ Some (year, month) }
{
    if text.len() < YEAR_DIGITS {
        return None;
    }
    let year = year_of(&text[..YEAR_DIGITS])?;
    let month = month_after(&text[YEAR_DIGITS..])?;
    Some((year, month))
}

/// The year that a text writes, 1970 to 2099.
fn year_of(text: &[u8]) -> Option<u16>
    ensures found { IfSome result (λ year. IsInRange FIRST_YEAR LAST_YEAR year × (text.now ≡ decimal year)) }
    ensures only { (year : ℕ) → IsInRange FIRST_YEAR LAST_YEAR year → text.now ≡ decimal year
        → result ≡ Some year }
{
    match number_of(text) {
        Some(year) if u64::from(FIRST_YEAR) <= year && year <= u64::from(LAST_YEAR) => Some(
            year as u16,
        ),
        _ => None,
    }
}

/// The month of the year that the rest of a text writes: a dash, and its number in two digits.
fn month_after(text: &[u8]) -> Option<u8>
    ensures found { IfSome result (λ month. IsInRange 1 MONTHS month
        × (text.now ≡ codes "-" ++ two_digits month)) }
    ensures only { (month : ℕ) → IsInRange 1 MONTHS month → text.now ≡ codes "-" ++ two_digits month
        → result ≡ Some month }
{
    match text {
        [b'-', tens, ones] => month_in_digits(*tens, *ones),
        _ => None,
    }
}

/// The month whose number these two digits write.
fn month_in_digits(tens: u8, ones: u8) -> Option<u8>
    ensures found { IfSome result (λ month. IsInRange 1 MONTHS month
        × (tens ∷ ones ∷ [] ≡ two_digits month)) }
    ensures only { (month : ℕ) → IsInRange 1 MONTHS month → tens ∷ ones ∷ [] ≡ two_digits month
        → result ≡ Some month }
{
    if !tens.is_ascii_digit() || !ones.is_ascii_digit() {
        return None;
    }
    let month = (tens - b'0') * BASE + (ones - b'0');
    if 1 <= month && month <= MONTHS {
        Some(month)
    } else {
        None
    }
}
