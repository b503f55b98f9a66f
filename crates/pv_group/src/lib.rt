//! A node that threads share, whose records are stored in groups.
//!
//! A request is decided at once, at a state that runs ahead of the disk: that is done at the [`Desk`], under a
//! lock that no call of the disk is made under. What is to be stored waits there as one batch. Whoever needs
//! its record stored goes to the [`Vault`], whose lock is held over the calls of the disk: it takes the whole
//! batch from the desk and appends it by four calls, however many records it has. A crash at any moment leaves
//! a group whole, or nothing of it.
//!
//! The vault gives a reply once it has stored all that the reply stands on. A reply that stands on nothing but
//! what its pass has seen is given at once. If a call of the disk fails, the group is kept, and the next who
//! stores finds out whether it is stored, and appends it again if it is not.
//!
//! ```text
//! let (live, mut passes) = open_live::<Ledger, _, N, &R>(rt, alloc, node, 2, GroupStart::new(2))?;
//! let reply = live.ask(rt, &mut passes[0], &request)?;         // decided, stored, given
//! let decided = live.decide(rt, &mut passes[1], &request)?;    // ahead of the disk
//! let reply = live.give(rt, &mut passes[1], decided)?;         // stored with all that was decided by then
//! let closed = live.close(passes)?;
//! ```
//!
//! What an ask answers is said by `specs/Answers.antt`, what a crash leaves by `specs/Vault.antt`, and what is
//! left if the disk fails at the closing by `specs/Closing.antt`.
#![tactic(auto)]

mod desk;
mod live;
mod outcome;
mod run;
mod vault;

pub use desk::Desk;
pub use live::{Live, LiveNode, open_live};
pub use outcome::{Decided, LeftDisk, NotDecided, Outcome};
pub use run::{GroupRun, GroupStart, TakenLedger};
pub use vault::Vault;
