//! The tests of nodes and of live nodes. They stand apart, since a crate is proved once more with its tests.
#![tactic(auto)]

#[cfg(test)]
mod group;
#[cfg(test)]
mod live;
#[cfg(test)]
mod node;
