//! The hub's machine and its texts for callers that aren't written in Rattle, as C programs. Each
//! exported function is called by one thread at a time for one hub, and keeps nothing of what it is
//! passed but the hub's own memory.
#![tactic(auto)]

mod hub;
mod line;
mod script;
mod slot;
mod status;
mod texts;

pub use hub::prove_calls_say_one_text;
