//! The engine of `messagehub run`.

ghost use Rattle.std.specs.Prelude.{◌≡◌, ◌++◌, IfOk, OnOk, string_bytes};
ghost use Rattle.std.specs.List.{flat_map};
ghost use Rattle.hub_trace.specs.Text.{log_text};
ghost use Rattle.hub_engine.specs.Engine.{EndsAnswer, EndsOutput};
ghost use Rattle.hub_modes.specs.RunOutput.{
  IsRunText,
  IsScriptOutput,
  SaysRun,
  delivered_text,
};

use hub_check::check_and_format_verdict;
use hub_engine::{
    CountedReader, CountedWriter, Device, ExitStatus, InputError, read_input, write_and_flush,
    write_input_error, write_out_of_memory,
};
use hub_run::{Checkpoint, run_agents};
use hub_script::Script;
use hub_trace::{
    LOG_HEADER, LOGS_END, Log, OutOfMemory, SenderLineDeliveries, deliveries_by_sender_line,
};
use std::alloc::Global;
use std::fmt::Write as _;
use std::io::{Read, Write};
use std::sync::Wait;
use std::thread::Threads;

/// Reads a script to the end of the input, runs it, and writes what `run_script` writes. The
/// checkpoint is called before each delivery.
///
/// The whole input is read before anything is run. Bad input writes `line N: KIND` of the first bad
/// line alone, and want of memory `out of memory`. It waits for the agents of the script.
pub fn run_file<C: Checkpoint + Sync, R: Read, W: Write, T: Threads + Wait + Sync>(
    alloc: Global,
    rt: &T,
    reader: &mut CountedReader<R>,
    checkpoint: &C,
    writer: &mut CountedWriter<W>,
) -> Result<ExitStatus, Device>
    ensures { EndsAnswer R.remaining W.contents IsScriptOutput
        reader.old reader.new writer.old writer.new result }
{
    match read_input(alloc, reader) {
        Ok(input) => run_script_text(alloc, rt, &input, checkpoint, writer),
        Err(InputError::Device) => Err(Device),
        Err(InputError::OutOfMemory) => write_out_of_memory(writer),
    }
}

/// Runs the script that the input spells, or tells its first bad line.
fn run_script_text<C: Checkpoint + Sync, W: Write, T: Threads + Wait + Sync>(
    alloc: Global,
    rt: &T,
    input: &[u8],
    checkpoint: &C,
    writer: &mut CountedWriter<W>,
) -> Result<ExitStatus, Device>
    ensures { EndsOutput W.contents (IsScriptOutput input.now) writer.old writer.new result }
{
    match Script::read(alloc, input) {
        Ok(script) => run_script(alloc, rt, &script, checkpoint, writer),
        Err((line, error)) => write_input_error(alloc, writer, line, error.printed_kind()),
    }
}

/// Runs a script, each agent on a thread of its own, and writes the logs of the agents, a text
/// line `deliveries`, one for each sender's line of which something was delivered, and the verdict
/// of the checker on these logs.
///
/// For want of memory, or where a thread can't be made, it writes `out of memory` alone. It waits
/// for the agents.
pub fn run_script<C: Checkpoint + Sync, W: Write, T: Threads + Wait + Sync>(
    alloc: Global,
    rt: &T,
    script: &Script,
    checkpoint: &C,
    writer: &mut CountedWriter<W>,
) -> Result<ExitStatus, Device>
    ensures { EndsOutput W.contents (SaysRun script.now) writer.old writer.new result }
{
    match run_agents(alloc, rt, script, checkpoint) {
        Ok(run) => write_logs_and_verdict(alloc, &run.logs, writer),
        Err(_) => write_out_of_memory(writer),
    }
}

/// Writes what a run with these logs prints.
fn write_logs_and_verdict<W: Write>(
    alloc: Global,
    logs: &[Log],
    writer: &mut CountedWriter<W>,
) -> Result<ExitStatus, Device>
    ensures { EndsOutput W.contents (IsRunText logs.now) writer.old writer.new result }
{
    match text_of_logs_and_verdict(alloc, logs) {
        Ok((text, status)) => write_and_flush(writer, text.as_bytes(), status),
        Err(_) => write_out_of_memory(writer),
    }
}

/// What a run with these logs prints, and how the program ends after it.
fn text_of_logs_and_verdict(
    alloc: Global,
    logs: &[Log],
) -> Result<(String, ExitStatus), OutOfMemory>
    ensures { IfOk result (λ run. IsRunText logs.now run.1 (string_bytes run.0)) }
{
    let lines = deliveries_by_sender_line(alloc, logs)?;
    let (verdict, status) = check_and_format_verdict(alloc, logs)?;
    let mut text = String::new(alloc);
    writeln!(text, "{LOG_HEADER}")?;
    append_logs_as_text(&mut text, logs)?;
    writeln!(text, "{LOGS_END}")?;
    write_deliveries(&mut text, &lines)?;
    text.push_str(&verdict)?;
    Ok((text, status))
}

fn append_logs_as_text(text: &mut String, logs: &[Log]) -> Result<(), OutOfMemory>
    ensures { OnOk result (string_bytes text.new
        ≡ string_bytes text.old ++ flat_map log_text logs.now) }
{
    for log in logs {
        write!(text, "{log}")?;
    }
    Ok(())
}

fn write_deliveries(text: &mut String, lines: &[SenderLineDeliveries]) -> Result<(), OutOfMemory>
    ensures { OnOk result (string_bytes text.new
        ≡ string_bytes text.old ++ delivered_text lines.now) }
{
    for line in lines {
        writeln!(text, "{line}")?;
    }
    Ok(())
}
