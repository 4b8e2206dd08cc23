//! Which ends of an event loop have a mark: those that are worth a look.
//!
//! A loop holds each end under a key. `Marks` has a bit for each key, in words of two levels, and
//! `Ready` finds the keys of the ends that were rung.
#![tactic(auto)]

mod marks;
mod ready;

pub use hub_envelope::OutOfMemory;
pub use marks::Marks;
pub use ready::Ready;
