//! The tests of files, sockets, standard streams, clocks and threads. They stand apart, since a crate is proved once more
//! with its tests.
#![tactic(auto)]

#[cfg(test)]
mod alike;
#[cfg(test)]
mod files;
#[cfg(test)]
mod lines;
#[cfg(test)]
mod machine;
#[cfg(test)]
mod sockets;
#[cfg(test)]
mod stutter;
