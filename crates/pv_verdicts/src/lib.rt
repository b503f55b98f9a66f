//! What the Update Centre's answers read to an editor.
//!
//! An editor's seat (`pv_editor`) knows no Update Centre: it says what is asked for, and shows a verdict. The Update
//! Centre (`pv_udc`) knows no seat: it judges requests. Whoever stands between the two needs these:
//!
//! - [`within`] states that what a seat asks for is a request that can be judged.
//! - [`view_of`] is what a reply reads to an editor, and [`full`], [`disk_failed`] and [`out_of_memory`] what he is
//!   told if there is none.
//! - [`responses`] is the answer to a search for what callers keyed into his frames.
//!
//! ```text
//! within(editor, q, &wish);
//! let view = match node.ask(&UdcRequest::Edit { editor, q, wish }) {
//!     Ok(told) => view_of(told.reply),
//!     Err(AskFault::Full { count }) => full(count),
//!     Err(AskFault::Disk(_)) => disk_failed(),
//! };
//! reply_text(&view)
//! ```
#![tactic(auto)]

mod search;
mod view;

pub use search::responses;
pub use view::{DISK, FULL, MEMORY, disk_failed, full, out_of_memory, view_of, within};
