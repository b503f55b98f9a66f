//! The tests of the values: cells, keys, charges, accounts and indexes. They stand apart, since a crate is proved once more with its tests.
#![tactic(auto)]

#[cfg(test)]
mod account;
#[cfg(test)]
mod cells;
#[cfg(test)]
mod charge;
#[cfg(test)]
mod index;
#[cfg(test)]
mod keys;
