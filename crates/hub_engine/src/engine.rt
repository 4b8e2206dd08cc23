//! What the program's engines have in common: a whole input is read, and answered.

ghost use Rattle.hub_engine.specs.Engine.{EndsAnswer};

use crate::counted_reader::CountedReader;
use crate::counted_writer::CountedWriter;
use crate::input::{InputError, read_input};
use crate::output::write_out_of_memory;
use crate::status::{Device, ExitStatus};
use std::alloc::Global;
use std::io::{Read, Write};

/// What answers a whole input.
pub trait Engine {
    ghost use Rattle.std.specs.Prelude.{ℕ, List};
    ghost use Rattle.hub_engine.specs.declared.status.ExitStatus.{ExitStatus as Status};
    ghost use Rattle.hub_engine.specs.declared.status.ExitStatus.TheVariants as exit;
    ghost use Rattle.hub_engine.specs.Engine.{EndsOutput};
    ghost use Rattle.hub_engine.specs.OutOfMemory.{out_of_memory};

    /// What is written for an input, by the exit status that is answered.
    ghost output: { List ℕ → Status → List ℕ → Type 0 };

    /// For want of memory before anything was run it is `out of memory` alone.
    ghost wants_memory: { (input : List ℕ) → output input exit.OutOfMemory out_of_memory };

    /// Writes what the input is answered with.
    fn run_and_write_answer<W: Write>(
        alloc: Global,
        input: Vec<u8>,
        writer: &mut CountedWriter<W>,
    ) -> Result<ExitStatus, Device>
        ensures { EndsOutput W.contents (output input.items) writer.old writer.new result };
}

/// Reads the input to its end and answers it.
///
/// `Device` comes where a read or a write failed in this call: nothing was run or written after a
/// failed read, and how much had gone out at a failed write isn't said.
pub fn run_engine_on_whole_input<E: Engine, R: Read, W: Write>(
    alloc: Global,
    reader: &mut CountedReader<R>,
    writer: &mut CountedWriter<W>,
) -> Result<ExitStatus, Device>
    ensures { EndsAnswer R.remaining W.contents E.output
        reader.old reader.new writer.old writer.new result }
{
    match read_input(alloc, reader) {
        Ok(input) => E::run_and_write_answer(alloc, input, writer),
        Err(InputError::Device) => Err(Device),
        Err(InputError::OutOfMemory) => write_out_of_memory(writer),
    }
}
