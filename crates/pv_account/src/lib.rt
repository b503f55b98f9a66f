//! Accounts: who a caller is, at which centre, and which closed groups he is in.
//!
//! - [`Groups`] are different group numbers in rising order, at most as many as its size says.
//! - [`digest`] is what is kept of a password.
//! - [`Account`] is an account's number, its digest, its home centre and its groups. It has one
//!   spelling in bytes.
//!
//! No call allocates. A caller makes an account and asks for the password:
//!
//! ```text
//! let account = Account {
//!     number,
//!     digest: digest(number, b"ABCD"),
//!     home: 0,
//!     groups: Groups::of_list(&[300, 7]).ok_or(Refused)?,
//! };
//! account.matches(b"ABCD") && account.groups.has(7)
//! ```
//!
//! Contracts see groups as the list of their numbers, and an account as its parts (`Profile` of
//! `specs/Profile.antt`).
#![tactic(auto)]

mod account;
mod groups;
mod law;
mod password;

pub use account::{Account, LAST_CENTRE, MAX_CENTRES};
pub use groups::{ACCOUNT_GROUPS, Groups};
pub use law::no_account_begins_another;
pub use password::{DIGEST_BYTES, PASSWORD_BYTES, digest};
pub use pv_page::AccountNo;
