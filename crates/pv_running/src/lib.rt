//! A network at work: its nodes are made live, run by threads, and closed.
//!
//! [`serve_nodes`] serves the doors of a network. Each node is made live, under a name of its own. Each port has a thread, and
//! so has each centre's carrier; once all have ended, the nodes are closed, and [`ClosedNetwork`] has them and what the
//! threads met. A [`Plan`] says how many ports a centre has, and how many connections each serves.
//!
//! ```text
//! let closed = serve_nodes(rt, alloc, nodes, limits, callers, editors, plan, clock)?;
//! let mut ends = Ends::of(closed.callers_met, closed.editors_met, closed.carriers_met);
//! ```
//!
//! What each node was served is `ServedRows`, `CentreServed` and `UpdateServed` of `specs/Served.antt` of `pv_centres`.
#![tactic(auto)]

mod beside;
mod closing;
mod network;
mod running;
mod serving;

pub use closing::ClosedNetwork;
pub use network::Plan;
pub use serving::serve_nodes;
