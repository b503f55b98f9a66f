//! Edits: what editors wish, what the Update Centre stores, and what a list of records means.
//!
//! - [`EditWish`] is what an editor asks for.
//! - [`Record`] is what the Update Centre stores: an edit, or an item that it took up from a centre.
//! - [`DownRecord`] is what a centre gets of a record.
//!
//! - [`Base`] answers what a list of records means, without going through the list's frames again.
//! - [`Sight`] is what a centre shows of its base, and of the letters that wait there, to one caller.
//!
//! Contracts see a record as its parts. What a list of records means is defined in `specs/`: the frame
//! of a name, an account, an editor's last number, the owner of a page, and the pages that are open to
//! an account.
#![tactic(auto)]

mod base;
mod down;
mod last_about;
mod law;
mod owner;
mod parts;
mod record;
mod records;
mod room;
mod sight;
mod subject;
mod taken;
mod wish;

pub use base::Base;
pub use down::{BLANK_TAG, DownRecord};
pub use law::{no_down_record_begins_another, no_record_begins_another};
pub use owner::Lot;
pub use record::Record;
pub use room::{MAX_ACCOUNTS, MAX_LEASES, OPERATOR};
pub use sight::Sight;
pub use subject::Subject;
pub use taken::Taken;
pub use wish::EditWish;
