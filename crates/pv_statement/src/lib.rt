//! Monthly statements: the lines of an account's bill that a month has, and their sum.
//!
//! [`statement`] writes the statement of an account for one month to a sink. It takes no memory:
//!
//! ```text
//! let lines = statement(&udc, account, 1980, 1, &mut out)?;
//! ```
//!
//! ```text
//! STATEMENT 1000000001 1980-01
//! 1980-01-01 00:00:00 20a 2
//! SUM 2
//! ```
//!
//! The text is defined in `specs/Statement.antt`. Dates are those of the Gregorian calendar, by `jiff`
//! (`specs/Months.antt`). The statements of all months add up to the bill: [`months_add_up`].
#![tactic(auto)]

mod fault;
mod law;
mod month;
mod spelling;
mod writing;

pub use fault::StatementFault;
pub use law::{dates_are_those_of_the_calendar, months_add_up};
pub use month::{FIRST_YEAR, LAST_YEAR, MONTHS};
pub use writing::statement;

#[cfg(test)]
mod tests;
