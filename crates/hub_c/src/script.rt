//! Scripts, read and not run.

ghost use Rattle.std.specs.Prelude.{◌≡◌};
ghost use Rattle.hub_engine.specs.Counted.{inner_writer};
ghost use Rattle.hub_engine.specs.Engine.{Writes};
ghost use Rattle.hub_c.specs.Answers.{AnswersScript, IsScriptVerdict};

use crate::texts::copy_output_and_return_status;
use hub_engine::{CountedWriter, Device, ExitStatus, write_input_error};
use hub_script::Script;
use std::alloc::Global;
use std::io::Write;

/// Reads a script, as `messagehub run` does before it runs one. Of one that it can't read the first
/// bad line is put into the room.
#[unsafe(no_mangle)]
pub extern "C" fn varukoni_script(
    alloc: Global,
    input: &[u8],
    room: &mut [u8],
    length: &mut usize,
) -> u8
    ensures { AnswersScript input.now room.old room.new length.new result }
{
    let mut writer = CountedWriter::new(Vec::new(alloc));
    let answer = check_script_and_write_verdict(alloc, input, &mut writer);
    let text = writer.into_inner();
    copy_output_and_return_status(answer, text.as_slice(), room, length)
}

/// Reads a script, and writes its first bad line.
fn check_script_and_write_verdict<W: Write>(
    alloc: Global,
    input: &[u8],
    writer: &mut CountedWriter<W>,
) -> Result<ExitStatus, Device>
    ensures { Writes (IsScriptVerdict input.now) (W.contents (inner_writer writer.old))
        (W.contents (inner_writer writer.new)) result }
{
    match Script::read(alloc, input) {
        Ok(_script) => Ok(ExitStatus::Success),
        Err((line, error)) => write_input_error(alloc, writer, line, error.printed_kind()),
    }
}
