//! Runs of scripts: each agent of a script on a thread of its own, with the log that it keeps.
//!
//! All that the agents share is made before the first thread starts, and lent to each. An agent
//! does its actions in order, takes turns where it waits, and ends its loop after its last action
//! or an order. Where memory runs out at one agent it gives all others the order to end, so that
//! none waits for it.
#![tactic(auto)]

mod making;
mod run;

pub use hub_agent::Acted;
pub use hub_envelope::OutOfMemory;
pub use hub_loop::{Checkpoint, NoCheckpoint};
pub use run::{Run, run_agents};
