//! An agent of a run of a script: its event loop, what each of its actions does, and the log that
//! it keeps.
//!
//! It does its actions in order, takes turns where it waits, and ends its loop after its last
//! action or an order. Where memory runs out it gives all agents the order to end, so that none
//! waits for it.
#![tactic(auto)]

mod acting;
mod actor;
mod agent;
mod ending;
mod logging;
mod opening;
mod posting;
mod shared;

pub use actor::{Acted, Actor, do_actions_until_ordered_to_stop};
pub use agent::{Agent, AgentRun};
pub use hub_envelope::OutOfMemory;
pub use opening::Seat;
pub use shared::{Peer, Shared};
