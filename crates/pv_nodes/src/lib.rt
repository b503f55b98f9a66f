//! Nodes over disks in memory: the Update Centre and the retrieval centres of a network that runs in one
//! process.
//!
//! - [`MemNode`] is a node of any rules. Its disk has room for all records that its limits allow and no call of
//!   it fails, so an ask returns a reply, or the count of a full node.
//! - [`UpdateNode`] is the Update Centre's, which contracts see as its edit list and its disk.
//! - [`CentreNode`] is a retrieval centre's, of any of the four numbers. Contracts see what the centre knows, and
//!   its disk.
//!
//! A node may be lost at any moment. [`MemNode::crash`] makes a disk of an image that a crash may leave, and
//! opens the node again from that. It knows all that it had replied to.
//!
//! ```text
//! let mut node = UpdateNode::open(alloc, limits)?;
//! let told = node.ask(&UdcRequest::Edit { editor, q, wish });  // Ok, or Err(count) if it is full
//! node.crash(alloc, 97)?;
//! node.state().front();                                        // the same as before
//! ```
//!
//! [`MemNode::cut`] stops a node within an ask, after some calls of its disk: the record that was being stored is
//! then on the disk or not.
//!
//! `specs/Nodes.antt` says what a node is, and what is asked of it.
#![tactic(auto)]

mod centre;
mod cut;
mod law;
mod mem;
mod update;

pub use centre::CentreNode;
pub use cut::Cut;
pub use law::a_centre_shows_what_the_list_shows;
pub use mem::MemNode;
pub use update::UpdateNode;
