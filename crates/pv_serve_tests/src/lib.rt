//! The tests of the server. They stand apart, since a crate is proved once more with its tests.
#![tactic(auto)]

#[cfg(test)]
mod at_once;
#[cfg(test)]
mod ends;
#[cfg(test)]
mod network;
#[cfg(test)]
mod one_call;
#[cfg(test)]
mod parts;
#[cfg(test)]
mod places;
#[cfg(test)]
mod screens;
#[cfg(test)]
mod scripted;
#[cfg(test)]
mod scripted_door;
