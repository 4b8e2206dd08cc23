//! The machine of the hub: every event of every agent, one after another, with no thread.
//!
//! A `Core` answers steps. The definitions that say what a step may answer, and what each end took
//! from each sender over any list of steps, stand in `specs/`.
#![tactic(auto)]

mod agent;
mod agents;
mod casting;
mod end;
mod ends;
mod kind;
mod laws;
mod line;
mod machine;
mod posting;
mod queues;
mod roster;
mod runs;
mod step;

pub use hub_envelope::OutOfMemory;
pub use kind::Kind;
pub use laws::{
    prove_gate_machine_laws, prove_history_laws, prove_mailbox_chain_laws,
    prove_mailboxes_show_history, prove_queue_laws, prove_steps_are_mailbox_events,
};
pub use machine::Core;
pub use runs::run;
pub use step::{Acceptance, Action, Listing, Outcome, Sender, Step};
