//! The tests of the outside's traits, of the outside in memory, and of journals. They stand apart, since a crate is proved
//! once more with its tests.
#![tactic(auto)]

#[cfg(test)]
mod journal;
#[cfg(test)]
mod memory;
#[cfg(test)]
mod outside;
