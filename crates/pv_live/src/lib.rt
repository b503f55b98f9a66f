//! A node that threads share: they look at its state without a lock, and ask it under one.
//!
//! [`open_live`] puts a node under a lock, publishes two copies of its state, and makes the passes. A
//! [`Pass`] belongs to one thread. [`Pass::look`] reads a published state; it waits for nobody and never
//! goes back. [`Pass::show`] is a look by a [`Viewer`], which changes in place. [`LiveNode::ask`] takes the
//! lock, lets the node store what is to be stored, publishes it, and lets the pass see it.
//! [`LiveNode::close`] gives the node back, with a count of what was stored.
//!
//! ```text
//! let (live, mut passes) = open_live::<Ledger, _, N, &R>(rt, alloc, node, 2, start)?;
//! let told = live.ask(rt, &mut passes[0], &request)?;    // told.number: the place of the record
//! let total = passes[0].look(|state| state.total())?;    // at that record or a later one
//! let closed = live.close(passes);
//! ```
//!
//! Each record that was stored since the opening is an [`Entry`] of one history (`pv_history`), with the
//! number of the pass whose ask made it. A copy carries the prefix of the history that its state stands for,
//! and a pass the prefix that it has seen: [`Known`]. So "no older than before" is a comparison of two counts.
//! What is under the lock is a [`Desk`], whose contracts say what the lock hides.
//!
//! Which run of a node it is, is the type parameter `N`: [`Run`]. A caller makes a [`Start`] and calls a
//! function that is generic in `N`, with [`Brand`](std::marker::Brand) in its place.
//!
//! What an ask answers is said by `specs/Asking.antt`, what a run is by `specs/Run.antt`, and what holds
//! under the lock by `specs/Board.antt`.
#![tactic(auto)]

mod copies;
mod desk;
mod entry;
mod fault;
mod known;
mod live;
mod pass;
mod run;
mod viewer;

pub use copies::{Change, Published};
pub use desk::{Closed, Desk, gather};
pub use entry::Entry;
pub use fault::LiveFault;
pub use known::Known;
pub use live::{Live, LiveNode, MAX_PASSES, Start, make_passes, open_live, publish_state};
pub use pass::{NotEntered, Pass};
pub use run::{FailedLedger, Run, ToldLedger};
pub use viewer::Viewer;
