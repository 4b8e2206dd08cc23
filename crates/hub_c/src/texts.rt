//! Whole texts in, and their answers out.

ghost use Rattle.std.specs.Prelude.{◌≡◌, IfOk, OnErr, Ok};
ghost use Rattle.hub_engine.specs.Status.{status_number};
ghost use Rattle.hub_c.specs.Answers.{AnswersCheck, AnswersSteps};
ghost use Rattle.hub_c.specs.Fills.{Fills};

use crate::status::NO_ROOM;
use hub_check::run_check;
use hub_engine::{CountedReader, CountedWriter, Device, ExitStatus};
use hub_steps::run_steps;
use std::alloc::Global;

/// Runs step lines, as `messagehub steps` does, and puts what it prints into the room. It answers
/// the program's exit status; 4 is want of memory for what is printed.
#[unsafe(no_mangle)]
pub extern "C" fn varukoni_steps(
    alloc: Global,
    input: &[u8],
    room: &mut [u8],
    length: &mut usize,
) -> u8
    ensures { AnswersSteps input.now room.old room.new length.new result }
{
    let mut reader = CountedReader::new(input);
    let mut writer = CountedWriter::new(Vec::new(alloc));
    let answer = run_steps(alloc, &mut reader, &mut writer);
    let text = writer.into_inner();
    copy_output_and_return_status(answer, text.as_slice(), room, length)
}

/// Checks the logs of a run, as `messagehub check` does, and puts what it prints into the room. It
/// answers the program's exit status; 4 is want of memory for what is printed.
#[unsafe(no_mangle)]
pub extern "C" fn varukoni_check(
    alloc: Global,
    input: &[u8],
    room: &mut [u8],
    length: &mut usize,
) -> u8
    ensures { AnswersCheck input.now room.old room.new length.new result }
{
    let mut reader = CountedReader::new(input);
    let mut writer = CountedWriter::new(Vec::new(alloc));
    let answer = run_check(alloc, &mut reader, &mut writer);
    let text = writer.into_inner();
    copy_output_and_return_status(answer, text.as_slice(), room, length)
}

/// Puts what an engine has written into the room, and gives the number of its exit status; 4 where
/// it found no memory for what it had to write.
pub fn copy_output_and_return_status(
    answer: Result<ExitStatus, Device>,
    text: &[u8],
    room: &mut [u8],
    length: &mut usize,
) -> u8
    ensures ok { IfOk answer (λ status. (result ≡ status_number status)
        × Fills room.old room.new length.new text.now) }
    ensures err { OnErr answer (result ≡ 4) }
{
    match answer {
        Ok(status) => {
            copy_into_buffer(text, room, length);
            status.number()
        }
        Err(Device) => NO_ROOM,
    }
}

/// Puts the front of a text into the room for it, as far as there is room, and tells how long the
/// whole text is.
pub fn copy_into_buffer(text: &[u8], room: &mut [u8], length: &mut usize)
    ensures { Fills room.old room.new length.new text.now }
{
    let count = text.len().min(room.len());
    room[..count].copy_from_slice(&text[..count]);
    *length = text.len();
}
