//! The nodes of a server, one by one: opened from their disks, made live with the ports and the carrier of each, closed, and
//! brought what they lack of each other.
//!
//! - [`open_nodes`] opens the nodes of a network, the Update Centre's first, or says which one was not opened and why.
//! - [`open_centre`] makes a centre live: an [`OpenCentre`] has its callers' ports with their doors, and its carrier, a
//!   [`CentreCarrier`]. [`close_centre`] closes it, and [`close_update`] the Update Centre.
//! - A [`CallersRow`] and an [`EditorsRow`] are rows of ports as threads serve them. What a row has served is a fact of its
//!   type.
//! - [`bring_rest`] brings the Update Centre and then the centres what they lack.
//! - [`Ends`] are what all threads met. [`Nodes::full`] is the first node that is full, and [`Nodes::give_back`] hands
//!   the disks back.
//!
//! ```text
//! let nodes = open_nodes(alloc, &mut disks, limits)?;
//! // .. they are served
//! let mut ends = Ends::of(callers_met, editors_met, carriers_met);
//! bring_rest(&mut nodes, &mut ends);
//! nodes.full(50_000);              // None: no node is full
//! nodes.give_back(&mut disks)?;    // the Update Centre's first, as they came
//! ```
//!
//! There are one to four centres. What belongs to them has a field for each, which is empty for a centre that the network
//! does not have. A door has its place in one list: those of the first centre's ports come first.
#![tactic(auto)]

mod callers_row;
mod centre;
mod centre_carrier;
mod closed;
mod collected;
mod doors;
mod editors_row;
mod ends;
mod nodes;
mod opening;
mod rest;
mod rows;
mod stands;
mod update;

pub use centre::{OpenCentre, close_centre, open_centre};
pub use centre_carrier::CentreCarrier;
pub use closed::{ClosedNode, ClosedNodes, LeftNodes};
pub use collected::Collected;
pub use doors::next_doors;
pub use editors_row::row_of_editors;
pub use ends::Ends;
pub use nodes::{NodeDisks, Nodes, OpenedNodes};
pub use opening::{NotOpened, open_nodes};
pub use rest::bring_rest;
pub use rows::{CallersRow, EditorsRow, RowStart};
pub use stands::{AllCarriers, AllPorts};
pub use update::{ClosedUpdate, close_update};
