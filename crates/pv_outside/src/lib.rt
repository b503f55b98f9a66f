//! What the programs ask of the outside: where bytes come from and go to, what a disk may lose when it
//! stops, how packets and lines come in, what time it is, how large a node may grow, and how a program
//! ends.
//!
//! The outside is handed in, as an object of a trait, and each trait has a written meaning. [`Source`]
//! gives bytes, [`Sink`] takes them, and a [`Line`] does both. [`Disk`] keeps bytes, [`Link`] carries
//! packets, [`Door`] lets lines in, and [`Clock`] shows the time. Each but the clock may fail, and its
//! count of faults then rises, so a contract above can say that a fault happened and was not made up.
//! What a crash may leave of a disk is written once, at the head of its file. An object reports what it
//! has read, holds or was sent only if it can: memory does, a terminal does not. [`Spawner`] runs each
//! [`Job`] on a thread of its own. [`Limits`] is how large a node may grow, and [`Status`] how a program
//! ends.
//!
//! A caller hands a source on and passes its fault up:
//!
//! ```text
//! fn first_byte<S: Source>(source: &mut S) -> Result<Option<u8>, Failed> {
//!     let mut byte = [0];
//!     let count = source.read(&mut byte)?;
//!     Ok(if count == 0 { None } else { Some(byte[0]) })
//! }
//! ```
#![tactic(auto)]

mod clock;
mod disk;
mod door;
mod failed;
mod job;
mod limits;
mod line;
mod link;
mod reports;
mod sink;
mod slots;
mod source;
mod spawner;
mod status;

pub use clock::{CLOCK_END, Clock};
pub use disk::{Disk, Fused, KEPT_BYTES, KEPT_CALLS, MAX_UNSYNCED};
pub use door::Door;
pub use failed::{COUNT_END, Failed};
pub use job::Job;
pub use limits::{Limits, MAX_FRAMES, MAX_RECORDS};
pub use line::Line;
pub use link::{Link, MAX_PACKET};
pub use reports::Reports;
pub use sink::Sink;
pub use source::Source;
pub use spawner::{NotRun, Spawner};
pub use status::Status;
