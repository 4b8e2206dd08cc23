//! What the program is asked to do, and does, for its arguments.

ghost use Rattle.std.specs.Prelude.{◌≡◌, map, string_bytes};
ghost use Rattle.hub_engine.specs.Engine.{EndsAnswer};
ghost use Rattle.hub_modes.specs.Mode.{mode_asked};
ghost use Rattle.hub_modes.specs.Program.{AnswersWords, output_of};

use crate::run::run_file;
use hub_check::run_check;
use hub_engine::{CountedReader, CountedWriter, Device, ExitStatus};
use hub_run::NoCheckpoint;
use hub_steps::run_steps;
use std::alloc::Global;
use std::io::{Read, Write};
use std::sync::Wait;
use std::thread::Threads;

/// What the program is asked to do.
#[derive(Clone, Copy, Debug, PartialEq, Eq)]
pub enum Mode {
    /// Run step lines.
    Steps,
    /// Run a script.
    Run,
    /// Check logs.
    Check,
}

/// What the words after the program's name ask for. `None` is where the usage line is due.
pub fn mode_of(words: &[String]) -> Option<Mode>
    ensures { result ≡ mode_asked (map string_bytes words.now) }
{
    match words {
        [word] if word.as_str() == "steps" => Some(Mode::Steps),
        [word] if word.as_str() == "run" => Some(Mode::Run),
        [word] if word.as_str() == "check" => Some(Mode::Check),
        _ => None,
    }
}

/// Runs the mode that the words after the program's name ask for. Where they ask for none, nothing
/// is read or written, and the usage line is due.
pub fn run_with_arguments<R: Read, W: Write, T: Threads + Wait + Sync>(
    alloc: Global,
    rt: &T,
    words: &[String],
    reader: &mut CountedReader<R>,
    writer: &mut CountedWriter<W>,
) -> Result<ExitStatus, Device>
    ensures { AnswersWords (mode_asked (map string_bytes words.now)) R.remaining W.contents
        reader.old reader.new writer.old writer.new result }
{
    match mode_of(words) {
        Some(mode) => run_mode(alloc, rt, mode, reader, writer),
        None => Ok(ExitStatus::Usage),
    }
}

/// Runs the engine of a mode, `run` with a checkpoint that holds nothing up.
pub fn run_mode<R: Read, W: Write, T: Threads + Wait + Sync>(
    alloc: Global,
    rt: &T,
    mode: Mode,
    reader: &mut CountedReader<R>,
    writer: &mut CountedWriter<W>,
) -> Result<ExitStatus, Device>
    ensures { EndsAnswer R.remaining W.contents (output_of mode)
        reader.old reader.new writer.old writer.new result }
{
    match mode {
        Mode::Steps => run_steps(alloc, reader, writer),
        Mode::Run => run_file(alloc, rt, reader, &NoCheckpoint, writer),
        Mode::Check => run_check(alloc, reader, writer),
    }
}
