//! Ports: what threads do for callers and editors at nodes that they share, and between such nodes.
//!
//! - [`press`] takes one key of a caller by one look at his centre, and [`answer_line`] one line of an editor by one
//!   look at the Update Centre: no lock is taken.
//! - [`CallerPort`] has the pass of a port, and serves one call after another. [`CallerPort::serve_call`] returns how
//!   the call ended, a [`CallEnd`]. What a call owes is stored before it takes another key, and before a byte of the
//!   screen that it pays for is sent.
//! - [`EditorPort`] is the same for editors. [`EditorPort::serve_editor`] sends one reply to each line, and returns how
//!   the session ended, an [`EditEnd`].
//! - [`Carrier`] has a pass of each end of two links. [`Carrier::carry_round`] brings a record down to a centre and an
//!   item up from it, takes what has come, and returns what came of it, a [`RoundEnd`].
//!
//! ```text
//! let mut port = CallerPort::new(alloc, pass)?;
//! let end = port.serve_call(rt, &centre, &mut line, &clock);
//! port.marks();        // how many records were seen at each entry
//! port.log_entry(&end); // who called, how it ended, how many screens he was sent, and what they cost
//! let pass = port.into_pass();
//!
//! let mut port = EditorPort::new(alloc, pass)?;
//! let end = port.serve_editor(rt, &udc, &mut line);
//! port.marks();        // for each line the place of the record that was stored for it, or how many records were seen
//!
//! let mut carrier = Carrier::new(udc_pass, centre_pass);
//! let end = carrier.carry_round(rt, &udc, &centre, &mut down, &mut up);
//! ```
//!
//! A call is a chain of happenings (`IsTalk` of `specs/Talk.antt`), and a session a list of exchanges (`IsSession` of
//! `specs/Session.antt`). A round is `IsRound` of `specs/Round.antt`. `EndsAs` of `specs/Ends.antt` and of
//! `specs/SessionEnds.antt` say why a call or a session ended, and `HasRoundCause` of `specs/Outcomes.antt` why a round did.
//! `HasBrought` of `specs/Cargo.antt` says what a round has carried.
#![tactic(auto)]

mod answering;
mod call;
mod carrier;
mod edit_end;
mod editor_port;
mod end;
mod law;
mod log_entry;
mod outbox;
mod parcel;
mod port;
mod pressing;
mod read_ahead;
mod round;
mod round_end;
mod session;
mod trip;
mod typing;
mod verdict;

pub use answering::answer_line;
pub use carrier::Carrier;
pub use edit_end::EditEnd;
pub use editor_port::EditorPort;
pub use end::CallEnd;
pub use law::{charges_are_stored_first, charges_are_the_calls_own, edits_are_counted};
pub use log_entry::{LogEnd, LogEntry};
pub use port::{CallerPort, MAX_MARKS};
pub use pressing::{Pressing, press};
pub use round_end::RoundEnd;
pub use session::{MAX_BYTES, MAX_LINES};
