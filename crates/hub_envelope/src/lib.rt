//! Message bodies and envelopes: the values that the hub carries.
//!
//! A body is a JSON value in the hub's profile, kept as its compact text. An envelope is a body
//! under its name: the end, the queue and the line that it was put on, and how many came before it.
//! Nothing here knows of queues or of agents beyond their numbers. `Text` and `Items` are the texts
//! and lists of all crates, seen by contracts as what they have in them.
#![tactic(auto)]

mod body;
mod compact;
mod envelope;
mod ids;
mod items;
mod limits;
mod ports;
mod posted;
mod profile;
mod stored_text;
mod text;

pub use body::{Body, BodyError};
pub use envelope::{Draft, Envelope};
pub use ids::{AgentId, EndId, LineId};
pub use items::Items;
pub use limits::{
    MAX_AGENTS, MAX_BODY_BYTES, MAX_ENDS, MAX_EXTENSIONS, MAX_HOPS, MAX_LINES, MAX_MOVES,
    MAX_NESTING, MAX_PORTS, MAX_PUT, MAX_READS, MAX_SCRIPT_LINES, prove_limit_values,
};
pub use ports::Ports;
pub use posted::Posted;
pub use std::alloc::AllocError as OutOfMemory;
pub use text::Text;
