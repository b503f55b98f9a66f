//! The index of the last record under each key, found without a search.
//!
//! - [`LastIndexes`] has an index for each key that was set.
//!
//! All room is reserved by [`LastIndexes::open`] and [`LastIndexes::copy`]; no other call allocates. A key
//! stays once it is there, and takes one place of the room:
//!
//! ```text
//! let mut last = LastIndexes::open(alloc, 2)?;
//! last.set(12, 0);
//! last.set(12, 7);
//! last.get(12);            // Some(7)
//! last.get(13);            // None
//! last.len();              // 1
//! ```
//!
//! Contracts see the room, and the keys with their indexes as a list of pairs (`KeyIndexes` of
//! `specs/Indexes.antt`).
#![tactic(auto)]

mod last_indexes;

pub use last_indexes::LastIndexes;
