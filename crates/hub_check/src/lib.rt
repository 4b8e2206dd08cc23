//! The engine of `messagehub check`: it reads the logs of a run and writes the checker's verdict.
//!
//! It stands on no crate that runs threads, so a caller that only checks logs needs none of them.
#![tactic(auto)]

mod check;

pub use check::{check_and_format_verdict, run_check};
