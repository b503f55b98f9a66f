//! What callers send: charge lines, filled response frames and mail; and the letters that wait for them.
//!
//! - [`Filled`] is what was keyed into one field of a frame.
//! - [`Fields`] are the one to eight of a response frame.
//! - [`Reply`] is a filled response frame, [`Mail`] a letter to another account, and a charge line is
//!   [`pv_charge::Line`].
//! - [`Item`] is one of these three. It has one spelling in bytes.
//! - [`Mailboxes`] keeps the letters that wait for each account, at most [`MAX_WAITING`], oldest first. A
//!   [`Letter`] is a mail under the place of its record in the edit list. A [`Removal`] takes one out.
//!
//! Only [`Mailboxes::open`] and [`Mailboxes::copy`] allocate. A caller fills a field and sends it:
//!
//! ```text
//! let filled = Filled::of_text(b"TWO TICKETS").ok_or(Unkeyable)?;
//! let fields = Fields::of_list(&[filled]).ok_or(TooMany)?;
//! let item = Item::Reply(Reply { account, name, moment, fields });
//! item.encode(&mut Out::new(&mut bytes))?;
//! ```
//!
//! Contracts see a filled field as the list of its bytes, and the fields as a list of these. They see a
//! reply as a `Response` and a mail as a `Message` (`specs/Item.antt`). They see the mailboxes as the list
//! of letters of each account (`letters_of` of `specs/Boxes.antt`). Which letters wait after the records of
//! an edit list and some removals is defined in `specs/Waiting.antt`.
#![tactic(auto)]

mod fields;
mod filled;
mod item;
mod law;
mod letter;
mod mail;
mod mailboxes;
mod removal;
mod reply;

pub use fields::{Fields, MAX_FIELDS};
pub use filled::{FILLED_BYTES, Filled, is_field_byte};
pub use item::Item;
pub use law::no_item_begins_another;
pub use letter::{Letter, MAX_WAITING};
pub use mail::{FIRST_CELL, LAST_CELL, Mail, TEXT_CELLS};
pub use mailboxes::Mailboxes;
pub use removal::Removal;
pub use reply::Reply;
