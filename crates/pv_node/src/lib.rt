//! A node: rules over a journal.
//!
//! [`Rules`] say what a state is, how a request is judged at it and how a record is spelled. A [`Node`]
//! keeps the records of such rules in a journal, and the state that follows from them in memory.
//! [`Node::open`] reads the records of a formatted disk into a state, and takes all the memory that the
//! node ever needs. [`Node::open_noted`] also gives these records a name in contracts, by a [`Trail`].
//! [`Node::ask`] settles what is in hand, decides, stores and absorbs, in this order.
//! Wherever a call of the disk fails, what a crash may leave then stands for the records, or for these
//! with the one in hand.
//!
//! ```text
//! let mut node = Node::<Ledger, _>::open(alloc, disk, limits)?;
//! let reported = node.ask(&request)?;
//! reported.reply;     // what the rules answer at the state of the records
//! reported.number;    // the place of the record that this request stored: each crash leaves it now
//! ```
//!
//! If a call of the disk fails while a record is being stored, the record is in hand: it is on the
//! disk or it is not. The next `ask`, or [`Node::settle`], finds out.
//!
//! `specs/Standing.antt` says which records an image, a disk and a node stand for. `specs/Asking.antt`
//! says what an ask and a settling answer, and `specs/Opening.antt` how a node is opened, or why not.
#![tactic(auto)]

mod decision;
mod fault;
mod law;
mod node;
mod replay;
mod rules;
mod trail;

pub use decision::{Decision, Told};
pub use fault::{AskFault, NodeFault};
pub use law::image_stands_for_one_list;
pub use node::{Node, Opened, spell};
pub use rules::Rules;
pub use trail::Trail;
