//! Tests of the program's modes through their public calls: the arguments, readers and writers that
//! fail, and two agents whose loops go on at once.
//!
//! This crate has nothing but tests, as `hub_tests` says. Worked inputs of the modes are files, run
//! on the built program.
#![tactic(auto)]

#[cfg(test)]
mod devices;
#[cfg(test)]
mod failures;
#[cfg(test)]
mod modes;
#[cfg(test)]
mod two_loops;
