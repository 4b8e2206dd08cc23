//! Step lines run through the hub's machine, one outcome line for each.
#![tactic(auto)]

mod casting;
mod closing;
mod engine;
mod entering;
mod lives;
mod perform;
mod posting;
pub mod read_step_line;
mod run;
mod session;
mod short_text;
mod shown;
mod starting;
mod step_line;
mod text;

pub use engine::{prove_step_output_deterministic, run_steps};
pub use session::{Reply, Session, prove_session_matches_run_steps};
pub use shown::{CastPost, Shown};
pub use step_line::{AgentUrl, Command, PosterCommand, PosterName, StepLine, StepLineError};
pub use text::write_shown_outcome_line;
