//! The tests of the parts of a network: the Update Centre's rules, a retrieval centre's, the seats of a caller and of an
//! editor, and packets. They stand apart, since a crate is proved once more with its tests.
#![tactic(auto)]

#[cfg(test)]
mod bytes;
#[cfg(test)]
mod editor;
#[cfg(test)]
mod irc;
#[cfg(test)]
mod packet;
#[cfg(test)]
mod session;
#[cfg(test)]
mod udc;
