//! Tests of the mailboxes of running threads through their public calls.
//!
//! This crate has nothing but tests, as `hub_tests` says.
#![tactic(auto)]

#[cfg(test)]
mod end;
#[cfg(test)]
mod held;
#[cfg(test)]
mod mailboxes;
#[cfg(test)]
mod meetings;
#[cfg(test)]
mod moves_under_fire;
#[cfg(test)]
mod parts;
#[cfg(test)]
mod stage;
#[cfg(test)]
mod threads;
