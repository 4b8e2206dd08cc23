//! The bell of an event loop: whoever posts at an end of the loop rings it, and the loop finds
//! which ends were rung.
//!
//! `Listener::new_with_first_bell` makes a loop's listener and the first of its bells; the others
//! are clones. They share a board of ready bits. A ring sets the bit of its end and wakes the loop
//! where that sleeps; where the bit is set already it only loads it. The bits are hints: they say
//! at which ends a look is worth its time, and no promise of a queue or a loop rests on them.
#![tactic(auto)]

mod bell;
mod board;

pub use bell::{Bell, Listener};
pub use hub_envelope::OutOfMemory;
