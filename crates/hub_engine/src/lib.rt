//! What the modes of the program have in common: streams that count their failures, a whole input
//! that is read and answered, and how the program ends.
#![tactic(auto)]

mod counted_reader;
mod counted_writer;
mod engine;
mod input;
mod output;
mod status;

pub use counted_reader::CountedReader;
pub use counted_writer::CountedWriter;
pub use engine::{Engine, run_engine_on_whole_input};
pub use input::{InputError, read_input};
pub use output::{
    PIECE, write_and_clear_kept, write_and_flush, write_input_error, write_out_of_memory,
    write_whole,
};
pub use status::{Device, Ending, ExitStatus};
