//! A list of bodies on a disk. At every moment of a call, also if a call of the disk fails, a crash leaves
//! the list without the bodies that are being appended, or with all.
//!
//! [`format`] makes a disk an empty list. [`Journal::start`] and [`Journal::next`] read the bodies of a
//! disk one by one, and a journal that was read to its end takes further ones by [`Journal::append`].
//! Once that has returned, what a crash may leave has the body. If a call of the disk fails instead, the
//! body is in hand: it is on the disk or it is not, and [`Journal::settle`] finds out. A body has 1 to
//! 2,048 bytes.
//!
//! A [`Batch`] has bodies that [`Journal::append_all`] appends at once, by as many calls of the disk as one
//! body takes: at every moment of the call a crash leaves the list without them or with all of them. After a
//! call of the disk that failed all of them are in hand.
//!
//! ```text
//! format(&mut disk)?;
//! let mut journal = Journal::start(disk, limits)?;
//! let mut body = [0; MAX_BODY];
//! while let Some(size) = journal.next(&mut body)? { .. }
//! let place = journal.append(b"AB")?;    // 0, and what a crash may leave has `AB`
//!
//! let mut batch = Batch::new();
//! let has_room = batch.push(b"C") && batch.push(b"DE");
//! let first = journal.append_all(&batch)?;    // 1, and what a crash may leave has `C` and `DE`
//! ```
//!
//! `specs/Text.antt` says what is on the disk, `specs/Journal.antt` what a journal holds over any disk,
//! and `specs/Faults.antt` and `specs/Appending.antt` when each answer comes. No clause of a journal
//! trusts a checksum. Before each body is a gate, one byte. The gate before the bodies that are being
//! appended is opened by a write of its own, after they were synced. A body counts if its gate and all
//! before it are open.
#![tactic(auto)]

mod batch;
mod block;
mod fault;
mod formatting;
mod journal;
mod law;
mod opening;
mod storing;

pub use batch::Batch;
pub use block::{MARK, MAX_BODY, MAX_WRITE, longest};
pub use fault::{AppendFault, OpenFault};
pub use formatting::format;
pub use journal::Journal;
pub use law::{bytes_spell_one_list, settle_then_append};
pub use storing::{APPEND_CALLS, GATE_CALLS};
