//! Tests of the event loop of an agent that no step file shows: numbers that are taken, a post that
//! is held up, a line to another end, and a fetch that is tried once.
//!
//! This crate has nothing but tests, as `hub_tests` says. `hub_player` plays the rest.
#![tactic(auto)]

#[cfg(test)]
mod handing;
#[cfg(test)]
mod left;
#[cfg(test)]
mod lines;
#[cfg(test)]
mod memory;
#[cfg(test)]
mod parts;
#[cfg(test)]
mod refusals;
