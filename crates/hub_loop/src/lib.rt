//! The event loop of an agent: what the agent holds, and the turns in which it is served.
#![tactic(auto)]

mod access;
mod adopting;
mod closed;
mod delivery;
mod ending;
mod ends;
mod error;
mod event_loop;
mod finding;
mod handler;
mod held;
mod posting;
mod serving;
mod sweeping;

pub use closed::ClosedEnd;
pub use error::LoopError;
pub use event_loop::EventLoop;
pub use handler::{Checkpoint, Handler, NoCheckpoint, Turn};
pub use held::Held;
pub use posting::{FromHeld, Way};
pub use sweeping::Ended;
