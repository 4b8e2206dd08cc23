//! Tests of the crates of values and texts through their public calls.
//!
//! A crate with tests is proved twice, once with them and once without. So what a test can see from
//! outside its crate stands in a crate that has nothing but tests, as this one; there are six
//! because CI proves them side by side.
#![tactic(auto)]

#[cfg(test)]
mod bodies;
#[cfg(test)]
mod envelopes;
#[cfg(test)]
mod logs;
#[cfg(test)]
mod origins;
#[cfg(test)]
mod refused_logs;
#[cfg(test)]
mod scripts;
