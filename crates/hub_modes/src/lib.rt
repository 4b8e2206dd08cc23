//! The modes of the program: which one the arguments ask for, and what each answers.
//!
//! The engines of `steps` and `check` stand in `hub_steps` and `hub_check`; that of `run` stands
//! here, over `hub_run`, which has the threads.
#![tactic(auto)]

mod program;
mod run;

pub use hub_run::{Checkpoint, NoCheckpoint};
pub use program::{Mode, mode_of, run_mode, run_with_arguments};
pub use run::{run_file, run_script};
