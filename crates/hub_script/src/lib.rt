//! Scripts: what the agents of a run are, and what each of them does.
//!
//! A script has one JSON object a text line: first the declarations of agents, channels and
//! broadcast members, then the actions of the agents. What is read has every agent, name and body
//! resolved, so that an event loop runs it without asking again.
#![tactic(auto)]

mod action;
mod adding;
mod error;
mod fields;
mod form;
mod keyword;
mod number;
mod read;
mod read_form;
mod script;
mod script_reader;
mod validating;
mod values;

pub use action::{Action, ActionKind};
pub use error::{DataCloneCause, ScriptError};
pub use hub_envelope::OutOfMemory;
pub use script::{
    AgentKind, DeclaredAgent, DeclaredChannel, DeclaredMember, Script,
    prove_laws_of_accepted_script_lines,
};
