//! The tests of what is kept and sent: frames and post. They stand apart, since a crate is proved once more with its tests.
#![tactic(auto)]

#[cfg(test)]
mod frame;
#[cfg(test)]
mod post;
