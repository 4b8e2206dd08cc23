//! The engine of `messagehub steps`.

ghost use Rattle.std.specs.Prelude.{◌≡◌, ◌⊎◌, ◌+◌, ◌≤◌, List, Ok, Err, IfErr, OnOk, length};
ghost use Rattle.hub_engine.specs.Engine.{EndsAnswer};
ghost use Rattle.hub_text.specs.TextLines.{text_lines_of};
ghost use Rattle.hub_steps.specs.Output.{IsStepsOutput};
ghost use Rattle.hub_steps.specs.StepText.{OneText};
ghost use Rattle.hub_steps.specs.Steps.{steps_from};
ghost use Rattle.hub_steps.specs.declared.step_line.StepLine.{StepLine as Line};

use crate::read_step_line::read_step_line;
use crate::run::{HeldBack, run_step_lines_holding_output_back};
use crate::step_line::StepLineError;
use hub_engine::{
    CountedReader, CountedWriter, Device, Engine, ExitStatus, run_engine_on_whole_input,
    write_input_error,
};
use hub_text::split_off_first_text_line;
use std::alloc::Global;
use std::io::{Read, Write};

/// Reads step lines to the end of the input, runs them, and writes one outcome line for each.
///
/// Nothing is written before the whole input is read and parsed. Bad input writes one line alone,
/// for the first bad line. Where memory runs out at a step line, the outcome lines so far are
/// followed by `out of memory`; where it runs out before all is parsed, `out of memory` is alone.
pub fn run_steps<R: Read, W: Write>(
    alloc: Global,
    reader: &mut CountedReader<R>,
    writer: &mut CountedWriter<W>,
) -> Result<ExitStatus, Device>
    ensures { EndsAnswer R.remaining W.contents IsStepsOutput
        reader.old reader.new writer.old writer.new result }
{
    run_engine_on_whole_input::<StepsEngine, R, W>(alloc, reader, writer)
}

/// What `run_steps` writes for step lines is a function of them: two texts that they may be
/// answered with are equal. The function does nothing; the law is its contract.
pub fn prove_step_output_deterministic()
    ensures { OneText }
{}

/// The step lines of an input are run through one core.
struct StepsEngine;

impl Engine for StepsEngine {
    ghost use Rattle.hub_steps.specs.Output.{IsStepsOutput, steps_without_memory};

    ghost output = { IsStepsOutput };

    ghost wants_memory = { steps_without_memory };

    fn run_and_write_answer<W: Write>(
        alloc: Global,
        input: Vec<u8>,
        writer: &mut CountedWriter<W>,
    ) -> Result<ExitStatus, Device> {
        let held = match run_step_lines_holding_output_back(alloc, &input) {
            Ok(held) => held,
            Err((line, error)) => return write_input_error(
                alloc,
                writer,
                line,
                error.printed_kind(),
            ),
        };
        let HeldBack {
            mut run,
            number,
            rest,
            has_memory,
        } = held;
        // Nothing is written before the whole input has been read.
        if let Err((line, error)) = check_step_lines(alloc, number, rest) {
            return write_input_error(alloc, writer, line, error.printed_kind());
        }
        if has_memory {
            run.run_remaining_step_lines_and_write_all(alloc, rest, writer)
        } else {
            run.finish_output_out_of_memory(writer)
        }
    }
}

/// Tests that each text line is a step line. They end at LF; the last LF may be missing. An error
/// comes with the number of its text line, where `before` come before the first; of several bad
/// ones the first is told. Memory may run out at any text that isn't empty.
fn check_step_lines(alloc: Global, before: usize, text: &[u8]) -> Result<(), (usize, StepLineError)>
    requires room { before + length text.now ≤ usize.MAX }
    ensures ok { OnOk result ((lines : List Line)
        × (steps_from (before + 1) (text_lines_of text.now) ≡ Ok lines)) }
    ensures err { IfErr result (λ e. (e.1 ≡ StepLineError.OutOfMemory)
        ⊎ (steps_from (before + 1) (text_lines_of text.now) ≡ Err e)) }
{
    let mut number = before;
    let mut rest = text;
    while !rest.is_empty() {
        let (bytes, after) = split_off_first_text_line(rest);
        number += 1;
        match read_step_line(alloc, bytes) {
            Ok(line) => {
                drop(line);
                rest = after;
            }
            Err(error) => return Err((number, error)),
        }
    }
    Ok(())
}
