//! The tests of the ports and of carriers. They stand apart, since a crate is proved once more with its tests.
#![tactic(auto)]

#[cfg(test)]
mod callers;
#[cfg(test)]
mod carriers;
#[cfg(test)]
mod editors;
#[cfg(test)]
mod late;
#[cfg(test)]
mod looks;
#[cfg(test)]
mod nodes;
#[cfg(test)]
mod unsteady;
