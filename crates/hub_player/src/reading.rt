//! How a whole input is read and played.

use crate::asking::asked_in;
use crate::player::{Player, Stop};
use crate::told::Told;
use hub_engine::{
    CountedReader, CountedWriter, Device, ExitStatus, InputError, read_input, write_and_flush,
    write_input_error, write_out_of_memory,
};
use hub_steps::read_step_line::read_step_line;
use hub_steps::{Shown, StepLineError};
use hub_text::split_off_first_text_line;
use std::alloc::Global;
use std::io::{Read, Write};
use std::sync::Wait;

/// The status where a line was not played.
const NOT_PLAYED: u8 = 5;

/// How the program ends.
#[derive(Drop)]
pub(crate) struct Ended {
    pub(crate) status: u8,
    /// What is printed on standard error, as a line.
    pub(crate) note: Option<String>,
}

impl Ended {
    fn of(answer: Result<ExitStatus, Device>) -> Ended {
        let status = match answer {
            Ok(status) => status,
            Err(Device) => ExitStatus::Device,
        };
        Ended {
            status: status.number(),
            note: None,
        }
    }
}

/// Reads the input to its end, plays its lines, and writes their outcome lines: up to the first
/// that was not played, or one line alone where a line before that is no step line. It may have
/// lines beyond the step lines.
pub(crate) fn play_input<R: Read, W: Write, H: Wait>(
    rt: &H,
    alloc: Global,
    has_turns: bool,
    reader: &mut CountedReader<R>,
    writer: &mut CountedWriter<W>,
) -> Ended {
    let told = Told::new(alloc, has_turns);
    match read_input(alloc, reader) {
        Ok(input) => play_text(rt, alloc, input.as_slice(), told, writer),
        Err(InputError::Device) => Ended::of(Err(Device)),
        Err(InputError::OutOfMemory) => Ended::of(write_out_of_memory(writer)),
    }
}

fn play_text<W: Write, H: Wait>(
    rt: &H,
    alloc: Global,
    input: &[u8],
    mut told: Told,
    writer: &mut CountedWriter<W>,
) -> Ended {
    let mut player = Player::new(alloc, told.has_turns);
    match play_lines(rt, alloc, &mut player, input, &mut told) {
        Ok(()) => Ended::of(write_and_flush(writer, told.lines.as_slice(), ExitStatus::Success)),
        Err((number, stop)) => end_at(alloc, number, stop, &told, writer),
    }
}

/// Plays the lines of an input. An error has the number of the first that was not played.
fn play_lines<H: Wait>(
    rt: &H,
    alloc: Global,
    player: &mut Player,
    input: &[u8],
    told: &mut Told,
) -> Result<(), (usize, Stop)> {
    let mut rest = input;
    for before in 0..input.len() {
        if rest.is_empty() {
            break;
        }
        let (bytes, after) = split_off_first_text_line(rest);
        if let Err(stop) = play_line(rt, alloc, player, bytes, told) {
            return Err((before + 1, stop));
        }
        rest = after;
    }
    Ok(())
}

fn play_line<H: Wait>(
    rt: &H,
    alloc: Global,
    player: &mut Player,
    bytes: &[u8],
    told: &mut Told,
) -> Result<(), Stop> {
    if told.has_turns {
        if let Some(asked) = asked_in(bytes) {
            return player.do_asked(rt, asked, told);
        }
    }
    // Where there was no memory all is as it was, and the line is played once more.
    let shown = match answer_to(rt, alloc, player, bytes) {
        Err(Stop::OutOfMemory) => answer_to(rt, alloc, player, bytes)?,
        answered => answered?,
    };
    told.tell(bytes, &shown)
}

fn answer_to<H: Wait>(
    rt: &H,
    alloc: Global,
    player: &mut Player,
    bytes: &[u8],
) -> Result<Shown, Stop> {
    match read_step_line(alloc, bytes) {
        Ok(line) => player.play(rt, line),
        Err(StepLineError::OutOfMemory) => Err(Stop::OutOfMemory),
        Err(error) => Err(Stop::Bad(error)),
    }
}

/// Ends where a line was not played.
fn end_at<W: Write>(
    alloc: Global,
    number: usize,
    stop: Stop,
    told: &Told,
    writer: &mut CountedWriter<W>,
) -> Ended {
    match stop {
        Stop::Bad(error) => Ended::of(write_input_error(
            alloc,
            writer,
            number,
            error.printed_kind(),
        )),
        Stop::OutOfMemory => Ended::of(write_out_of_memory(writer)),
        _ => {
            let reason = stop.reason();
            match write_and_flush(writer, told.lines.as_slice(), ExitStatus::Success) {
                Ok(_) => Ended {
                    status: NOT_PLAYED,
                    note: format!(in alloc; "line {number}: {reason}").ok(),
                },
                Err(device) => Ended::of(Err(device)),
            }
        }
    }
}
