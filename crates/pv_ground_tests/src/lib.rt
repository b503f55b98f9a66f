//! The tests of the ground: fields, pages, words and links. They stand apart, since a crate is proved once more with its tests.
#![tactic(auto)]

#[cfg(test)]
mod fields;
#[cfg(test)]
mod link;
#[cfg(test)]
mod page;
#[cfg(test)]
mod words;
