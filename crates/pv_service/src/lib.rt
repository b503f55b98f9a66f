//! The work of a server's threads: ports that serve the connections of their doors, and carriers beside them.
//!
//! - A [`CallerStand`] is a caller's port with its door. [`serve_callers`] accepts connections, serves each by a
//!   call, and gives it back to the door. An [`EditorStand`] is the same for editors, with [`serve_editors`].
//! - A [`CarrierStand`] is a carrier with its two links. [`carry_rounds`] makes rounds until the ports are done and a
//!   round has nothing more to bring.
//! - A row of stands has a thread for each: [`run_callers`], [`run_editors`], and [`run_centre`] for the callers of a
//!   centre with its carrier beside them. [`change_beside`] is what changes any two values side by side.
//! - [`Signals`] are what these threads tell each other: a bell for each centre, so that a carrier sleeps while there is
//!   nothing to bring, and how many ports are at work.
//!
//! A door hears how each of its connections was served ([`Log`]).
//!
//! Each stand has a report of how its work ended ([`PortReport`], [`CarrierReport`]), so that a row of stands can be
//! served side by side and read afterwards. It is made first: if memory runs out, whoever makes stands still has the
//! ports and the doors.
//!
//! ```text
//! let signals = Signals::new(ports);
//! let stand = CallerStand::new(port, door, calls, PortReport::boxed(alloc)?);
//! // .. more of them in a row, and the carrier's stand
//! run_centre(rt, &udc, &centre, &clock, &signals, &mut callers, &mut carrier);
//! callers[0].report.fault;    // None: all its connections were served
//! ```
//!
//! What a stand has done is `HasServed` of `specs/Serving.antt`: the connections that were served, each by one call or
//! session on what its pass had seen when the one before it ended. What a carrier has done is `HasCarried` of
//! `specs/Rounds.antt`. A row keeps each stand in its place (`EachBecomes` of `specs/Rows.antt`).
#![tactic(auto)]

mod after_round;
mod beside;
mod caller_stand;
mod carrier_report;
mod carrier_stand;
mod editor_stand;
mod log;
mod port_report;
mod ringing_line;
mod rows;
mod signals;

pub use beside::change_beside;
pub use caller_stand::{CallerStand, MAX_ACCEPTED, serve_callers};
pub use carrier_report::{CarrierFault, CarrierReport};
pub use carrier_stand::{CarrierStand, carry_rounds};
pub use editor_stand::{EditorStand, serve_editors};
pub use log::Log;
pub use port_report::{PortFault, PortReport};
pub use rows::{run_callers, run_centre, run_editors};
pub use signals::{MAX_SLEEP, Signals};
