//! The log that an agent keeps of a run, as the handler of its event loop.
//!
//! A delivery is logged by the loop's call of the handler. What the agent posts, adopts and closes
//! it logs by a call of its own.
#![tactic(auto)]

mod scribe;

pub use hub_envelope::OutOfMemory;
pub use scribe::Scribe;
