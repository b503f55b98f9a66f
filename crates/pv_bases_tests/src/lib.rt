//! The tests of the page base and its records, and of screens. They stand apart, since a crate is proved once more with its tests.
#![tactic(auto)]

#[cfg(test)]
mod edits;
#[cfg(test)]
mod screen;
