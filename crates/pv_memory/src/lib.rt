//! The outside in memory, for tests and for programs that need no real outside: sources, sinks, disks,
//! lines, links, clocks and doors. They report what they hold, and fail at the calls that they were made
//! to fail at.
//!
//! [`MemSource`] gives the bytes that it was made with, [`MemSink`] keeps what is written to it, and
//! [`MemLine`] is one of each. [`MemDisk`] keeps bytes and can be made to crash. [`Pipe`] carries packets,
//! [`MemDoor`] lets lines in and keeps those that are given back, and [`SetClock`] shows the moment that
//! it was set to. All but the line and the clock are made with the numbers of the calls, counted from 0,
//! that fail. A call that fails changes nothing but the counts of calls and faults.
//!
//! ```text
//! let mut source = MemSource::new(alloc, b"seed 1a HELLO\n", &[])?;
//! let mut sink = MemSink::new(alloc, 1024, &[3])?;    // its fourth write fails
//! let mut disk = MemDisk::new(alloc, 1024, &[])?;
//! disk.write(0, b"ab")?;
//! disk.crash(0);                                      // what was not synced is lost
//! ```
#![tactic(auto)]

mod bytes;
mod clock;
mod disk;
mod door;
mod faults;
mod line;
mod past;
mod pipe;
mod sink;
mod source;

pub use clock::SetClock;
pub use disk::MemDisk;
pub use door::MemDoor;
pub use line::MemLine;
pub use pipe::{PIPE_PACKETS, Pipe};
pub use sink::MemSink;
pub use source::MemSource;
