//! Tests of ports, of the queues of clients and workers and of broadcast channels, through their
//! public calls.
//!
//! This crate has nothing but tests, as `hub_tests` says. It is one crate, since each crate that
//! drops such ends pays once for the proofs of their drops.
#![tactic(auto)]

#[cfg(test)]
mod broadcast;
#[cfg(test)]
mod clients;
#[cfg(test)]
mod ports;
