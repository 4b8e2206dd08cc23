//! One text line for a session, and what it is answered with.

ghost use Rattle.std.specs.Prelude.{◌≡◌, ◌⊎◌, false, true};
ghost use Rattle.hub_steps.specs.Session.{is_told, told};
ghost use Rattle.hub_c.specs.Fills.{Fills};
ghost use Rattle.hub_c.specs.Line.{BadLine, IsStatus, LostLine, NoMemoryLine, NoRoomLine, RanLine};
ghost use Rattle.hub_c.specs.Line.{SaysAgain, says_something};

use crate::status::{BAD, DONE, LOST, NO_MEMORY, NO_ROOM};
use crate::texts::copy_into_buffer;
use hub_steps::{Reply, Session};
use std::alloc::Global;

/// Gives a text line to a session, and puts what it is answered with into the room: an outcome
/// line, or the name of the first test that the text line fails.
pub fn run_line_and_copy_answer(
    alloc: Global,
    session: &mut Session,
    line: &[u8],
    room: &mut [u8],
    length: &mut usize,
) -> u8
    ensures ran { result ≡ 0 → RanLine session.old session.new line.now
        × Fills room.old room.new length.new (told session.new) }
    ensures bad { result ≡ 2 → BadLine session.old session.new line.now
        × Fills room.old room.new length.new (told session.new) }
    ensures no_memory { result ≡ 3 → NoMemoryLine session.old session.new line.now }
    ensures no_room { result ≡ 4 → NoRoomLine session.old session.new line.now }
    ensures lost { result ≡ 6 → LostLine session.old session.new line.now }
    ensures stays_lost { session.old.is_lost ≡ true
        → (result ≡ 6) × (session.new ≡ session.old) }
    ensures statuses { IsStatus result }
    ensures untouched { says_something result ≡ false
        → (room.new ≡ room.old) × (length.new ≡ length.old) }
{
    match session.run_line(alloc, line) {
        Reply::Ran => {
            copy_last_answer(session, room, length);
            DONE
        }
        Reply::Bad => {
            copy_last_answer(session, room, length);
            BAD
        }
        Reply::NoMemory => NO_MEMORY,
        Reply::RanUntold => NO_ROOM,
        Reply::Lost => LOST,
    }
}

/// Puts what was said last into the room. It is false, and touches nothing, where the outcome line
/// found no memory yet.
pub fn copy_last_answer(session: &Session, room: &mut [u8], length: &mut usize) -> bool
    ensures said { result ≡ true → Fills room.old room.new length.new (told session.now) }
    ensures not_said { result ≡ false → (room.new ≡ room.old) × (length.new ≡ length.old) }
    ensures exactly { result ≡ is_told session.now }
{
    match session.said() {
        Some(text) => {
            copy_into_buffer(text, room, length);
            true
        }
        None => false,
    }
}

/// Puts what was said last into the room once more, and makes the outcome line that found no
/// memory.
pub fn copy_last_answer_again(session: &mut Session, room: &mut [u8], length: &mut usize) -> u8
    ensures said { result ≡ 0 → SaysAgain session.old session.new
        × Fills room.old room.new length.new (told session.old) }
    ensures no_memory { result ≡ 3 → SaysAgain session.old session.new
        × (is_told session.old ≡ false) }
    ensures statuses { (result ≡ 0) ⊎ (result ≡ 3) }
    ensures untouched { result ≡ 3 → (room.new ≡ room.old) × (length.new ≡ length.old) }
{
    match session.write_untold_outcome() {
        Ok(()) => {
            copy_last_answer(session, room, length);
            DONE
        }
        Err(_) => NO_MEMORY,
    }
}
