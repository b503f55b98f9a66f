//! The outside as it is: files, sockets, standard input and output, the machine's clock and threads.
//!
//! [`FileDisk`] keeps its bytes in a file, one of [`NODE_FILES`] in a network's folder, and [`TcpDoor`] lets in a [`TcpLine`] for each connection.
//! [`StandardInput`] and [`StandardOutput`] are a source and a sink over a reader and a writer of the
//! process. [`MachineClock`] shows the time of the machine, and [`ThreadSpawner`] runs jobs on threads. Each
//! counts its errors. Those of a file are handed on with the system's words; a line and a door keep the
//! last one. None reports what a file, a peer or a terminal holds, so a contract above says nothing of it.
//!
//! A call that the system interrupts is made again, and a write that comes back short goes on.
//!
//! ```text
//! let mut disk = FileDisk::open(&rt, alloc, "udc.pv")?;
//! let mut door = TcpDoor::bind(&rt, 9000)?;
//! let mut caller = door.accept()?;
//! caller.write_all(b"WELCOME")?;
//! door.finish(caller);
//! ```
#![tactic(auto)]

mod ahead;
mod clock;
mod counts;
mod disk;
mod door;
mod fault;
mod folder;
mod line;
mod listener;
mod retry;
mod standard;
mod threads;

pub use clock::MachineClock;
pub use disk::{FileDisk, open_file};
pub use door::TcpDoor;
pub use fault::{FileFault, OpenFault};
pub use folder::{NODE_FILES, make_folder, set_aside};
pub use line::TcpLine;
pub use listener::{Listener, SharedListener, listen};
pub use standard::{OUTPUT_BUFFER, StandardInput, StandardOutput};
pub use threads::ThreadSpawner;
