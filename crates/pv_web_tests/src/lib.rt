//! The tests of a browser's line, and of what it is answered before it calls. They stand apart, since a crate is proved once more
//! with its tests.
#![tactic(auto)]

#[cfg(test)]
mod lines;
mod planned;
#[cfg(test)]
mod sockets;
#[cfg(test)]
mod visitors;

pub use planned::Planned;
