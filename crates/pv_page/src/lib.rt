//! The names of a viewdata network: page numbers, account numbers and frame names.
//!
//! A page has a number of one to nine digits, the page `0` among them, and no other number begins
//! with a zero. The frames of a page are lettered `a` to `z`, so that `12a` names the first frame
//! of page 12. An account has a number of ten digits, and may begin with zeros.
//!
//! - [`PageNo`] is a page's number. It is read from digits, and [`PageNo::begins`] compares the digits
//!   of two pages, as 12 begins 123.
//! - [`AccountNo`] is an account's number. It is read from ten digits and written as ten.
//! - [`FrameName`] is a page with a letter. It is read from a text and written as one.
//! - [`PageError`] is why a text is no page number.
//!
//! No call allocates. A caller reads a name and writes that of the next frame:
//!
//! ```text
//! let name = FrameName::of_text(b"12a").ok_or(Unknown)?;
//! let next = name.next_letter().ok_or(LastFrame)?;
//! let mut text = [0; 10];
//! let len = next.text(&mut text);
//! // text[..len] is b"12b"
//! ```
#![tactic(auto)]

mod account_no;
mod digits;
mod frame_name;
mod page_error;
mod page_no;
mod spelling;

pub use account_no::{ACCOUNT_DIGITS, AccountNo, LAST_ACCOUNT};
pub use frame_name::{FIRST_LETTER, FrameName, LAST_LETTER, one_text_is_one_name, texts_of_names};
pub use page_error::PageError;
pub use page_no::{LAST_PAGE, PAGE_DIGITS, PageNo};
