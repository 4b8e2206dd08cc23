//! How a whole output is written, and how one ends.

ghost use Rattle.std.specs.Prelude.{◌≡◌, [], IfOk, OnOk, OnErr, option_map, string_bytes};
ghost use Rattle.std.specs.Io.KnownBytes.{Appends};
ghost use Rattle.hub_engine.specs.declared.status.ExitStatus.TheVariants as exit;
ghost use Rattle.hub_engine.specs.Beginning.{AppendsBeginning};
ghost use Rattle.hub_engine.specs.Counted.{inner_writer, flushes_made, failed_writes};
ghost use Rattle.hub_engine.specs.Engine.{EndsOutput, Says, SaysUnread, bad_line_text};
ghost use Rattle.hub_engine.specs.Failures.{CountsFailure};
ghost use Rattle.hub_engine.specs.OutOfMemory.{out_of_memory};

use crate::counted_writer::CountedWriter;
use crate::status::{Device, ExitStatus};
use hub_envelope::OutOfMemory;
use std::alloc::Global;
use std::io::Write;

/// How many bytes are kept before they are written.
pub const PIECE: usize = 65_536;

const OUT_OF_MEMORY: &[u8; 14] = b"out of memory\n";

/// Writes all the bytes. How much had gone out at a failed write isn't said.
pub fn write_whole<W: Write>(writer: &mut CountedWriter<W>, bytes: &[u8]) -> Result<(), Device>
    ensures ok { OnOk result (Appends (W.contents (inner_writer writer.old))
        (W.contents (inner_writer writer.new)) bytes.now) }
    ensures err { OnErr result (AppendsBeginning (W.contents (inner_writer writer.old))
        (W.contents (inner_writer writer.new)) bytes.now) }
    ensures failures { CountsFailure result (failed_writes writer.old) (failed_writes writer.new) }
    ensures flushes { flushes_made writer.new ≡ flushes_made writer.old }
{
    let mut rest = bytes;
    while !rest.is_empty() {
        let count = writer.write_once(rest)?;
        rest = &rest[count..];
    }
    Ok(())
}

/// Writes the bytes that were kept, and keeps none.
pub fn write_and_clear_kept<W: Write>(
    writer: &mut CountedWriter<W>,
    kept: &mut Vec<u8>,
) -> Result<(), Device>
    ensures ok { OnOk result (Appends (W.contents (inner_writer writer.old))
        (W.contents (inner_writer writer.new)) kept.old.items) }
    ensures err { OnErr result (AppendsBeginning (W.contents (inner_writer writer.old))
        (W.contents (inner_writer writer.new)) kept.old.items) }
    ensures kept { OnOk result (kept.new.items ≡ []) }
    ensures failures { CountsFailure result (failed_writes writer.old) (failed_writes writer.new) }
    ensures flushes { flushes_made writer.new ≡ flushes_made writer.old }
{
    write_whole(writer, kept)?;
    kept.clear();
    Ok(())
}

/// Writes the last bytes, sees that all has gone out, and answers the status.
pub fn write_and_flush<W: Write>(
    writer: &mut CountedWriter<W>,
    bytes: &[u8],
    status: ExitStatus,
) -> Result<ExitStatus, Device>
    ensures { EndsOutput W.contents (Says status bytes.now) writer.old writer.new result }
{
    write_whole(writer, bytes)?;
    writer.flush()?;
    Ok(status)
}

/// Ends for want of memory: `out of memory` is the last text line of the output.
pub fn write_out_of_memory<W: Write>(writer: &mut CountedWriter<W>) -> Result<ExitStatus, Device>
    ensures { EndsOutput W.contents (Says exit.OutOfMemory out_of_memory)
        writer.old writer.new result }
{
    write_and_flush(writer, OUT_OF_MEMORY, ExitStatus::OutOfMemory)
}

/// Ends for an input that wasn't read: its first bad line is told alone, by its number from 1 and
/// the name of its kind. `kind` is `None` where memory ran out.
pub fn write_input_error<W: Write>(
    alloc: Global,
    writer: &mut CountedWriter<W>,
    line: usize,
    kind: Option<&str>,
) -> Result<ExitStatus, Device>
    ensures { EndsOutput W.contents (SaysUnread line (option_map (λ name. name.now) kind.entry))
        writer.old writer.new result }
{
    let Some(kind) = kind else {
        return write_out_of_memory(writer);
    };
    match bad_line_text(alloc, line, kind) {
        Ok(text) => write_and_flush(writer, text.as_bytes(), ExitStatus::BadInput),
        Err(_) => write_out_of_memory(writer),
    }
}

#[tactic(auto, unfolding(crate::specs::Engine::bad_line_text))]
fn bad_line_text(alloc: Global, line: usize, kind: &str) -> Result<String, OutOfMemory>
    ensures { IfOk result (λ text. string_bytes text ≡ bad_line_text line kind.now) }
{
    let text = format!(in alloc; "line {line}: {kind}\n")?;
    Ok(text)
}
