//! Callers at browsers: a page that is a terminal, and calls by web sockets.
//!
//! [`WebListener`] waits at a centre's port and at the web's port beside it. A browser that asks for the page is served it
//! ([`Asked`] says what else there is), and one that calls is a line, as a plain caller is. So its door is a
//! `pv_files::TcpDoor`, with all that is proved of that.
//!
//! [`Messages`] is what a browser sends and is sent, message by message, and [`BrowserLine`] is a line over it: each key is
//! given once and in order, a ping gives none, and a close is the end. [`BrowserSocket`] is such messages over one stream, a
//! `TcpStream`, after the handshake. A [`CallerLine`] is a line of either kind: a plain one, or a browser's.
//!
//! ```text
//! let listener = WebListener::new(rt, listen(rt, 6000)?, listen(rt, 8080)?, 8080)?;
//! let mut door = TcpDoor::of(listener);
//! let mut line = door.accept()?;
//! line.say(b"WELCOME")?;
//! let count = line.hear(&mut key)?;
//! door.finish(line);
//! ```
#![tactic(auto)]

mod asking;
mod caller;
mod line;
mod listener;
mod messages;
mod names;
mod page;
mod reply;
mod socket;
mod visitor;

pub use asking::Asked;
pub use caller::{CallerLine, SocketLine};
pub use line::BrowserLine;
pub use listener::{MAX_VISITORS, WebListener};
pub use messages::{Incoming, MAX_SENT, Messages};
pub use names::Names;
pub use page::PAGE;
pub use reply::{FOREIGN, MISSING, NO_CALL, UNREADABLE};
pub use socket::{BrowserSocket, MAX_MESSAGE};
pub use visitor::{MAX_HEAD, PATIENCE};
