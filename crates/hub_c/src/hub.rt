//! The hub's machine, one step line after the other.

ghost use Rattle.std.specs.Prelude.{◌≡◌, ◌⊎◌, Some, None, true, false};
ghost use Rattle.hub_steps.specs.Session.{told};
ghost use Rattle.hub_c.specs.Fills.{Fills};
ghost use Rattle.hub_c.specs.Held.{BothHeld, IsNewSession, has_session, is_lost_in, is_told_in};
ghost use Rattle.hub_c.specs.Line.{BadLine, LostLine, NoMemoryLine, NoRoomLine, RanLine, SaysAgain};
ghost use Rattle.hub_c.specs.Line.{says_something};
ghost use Rattle.hub_c.specs.Calls.{CallsSayTheText};

use crate::line::{copy_last_answer_again, run_line_and_copy_answer};
use crate::slot::{RawParts, SessionSlot};
use crate::status::{DONE, NO_MEMORY, WRONG_STATE};
use hub_steps::Session;
use std::alloc::Global;
use std::mem;

/// A hub that a C program holds. All bytes zero are a closed one.
#[repr(C)]
pub struct HubHandle {
    slot: SessionSlot,
    is_open: bool,
    ghost tells: { is_open ≡ has_session slot.held },
}

impl Drop for HubHandle {
    fn drop(self) {
        let Self { slot, is_open } = self;
        if is_open {
            drop(slot.into_raw_parts().into_box());
        }
    }
}

impl HubHandle {
    fn new_closed(alloc: Global) -> HubHandle
        ensures { result.slot.held ≡ None }
    {
        HubHandle {
            slot: SessionSlot::none(alloc),
            is_open: false,
        }
    }

    fn new_open(session: Box<Session>) -> HubHandle
        ensures { result.slot.held ≡ Some session.value }
    {
        HubHandle {
            slot: SessionSlot::from_raw_parts(RawParts::from_box(session)),
            is_open: true,
        }
    }

    /// The session of an open hub.
    fn into_session(self) -> Box<Session>
        requires { self.is_open ≡ true }
        ensures { Some result.value ≡ self.slot.held }
    {
        let Self { slot, is_open: _ } = self;
        slot.into_raw_parts().into_box()
    }
}

/// Opens a closed hub, with no agent and no end.
#[unsafe(no_mangle)]
pub extern "C" fn varukoni_open(alloc: Global, hub: &mut HubHandle) -> u8
    ensures opened { result ≡ 0 → IsNewSession hub.new.slot.held }
    ensures no_memory { result ≡ 3 → hub.new ≡ hub.old }
    ensures open_already { hub.old.is_open ≡ true → (result ≡ 5) × (hub.new ≡ hub.old) }
    ensures closed { result ≡ 5 → hub.old.is_open ≡ true }
    ensures statuses { (result ≡ 0) ⊎ ((result ≡ 3) ⊎ (result ≡ 5)) }
{
    if hub.is_open {
        return WRONG_STATE;
    }
    match Box::new(alloc, Session::new(alloc)) {
        Ok(session) => {
            *hub = HubHandle::new_open(session);
            DONE
        }
        Err(_) => NO_MEMORY,
    }
}

/// Closes a hub, and frees its memory. A closed one stays closed.
#[unsafe(no_mangle)]
pub extern "C" fn varukoni_close(alloc: Global, hub: &mut HubHandle)
    ensures closed { hub.new.slot.held ≡ None }
    ensures told { hub.new.is_open ≡ false }
{
    *hub = HubHandle::new_closed(alloc);
}

/// Runs a step line, which comes without its LF, and puts its outcome line, with its LF, into the
/// room; of a bad text line the name of the first test that it fails. Where the room is too short
/// the front is put there, and `length` tells the whole length.
#[unsafe(no_mangle)]
pub extern "C" fn varukoni_line(
    alloc: Global,
    hub: &mut HubHandle,
    line: &[u8],
    room: &mut [u8],
    length: &mut usize,
) -> u8
    ensures ran { result ≡ 0 → BothHeld (λ s t. RanLine s t line.now
        × Fills room.old room.new length.new (told t)) hub.old.slot.held hub.new.slot.held }
    ensures bad { result ≡ 2 → BothHeld (λ s t. BadLine s t line.now
        × Fills room.old room.new length.new (told t)) hub.old.slot.held hub.new.slot.held }
    ensures no_memory { result ≡ 3 → BothHeld (λ s t. NoMemoryLine s t line.now)
        hub.old.slot.held hub.new.slot.held }
    ensures no_room { result ≡ 4 → BothHeld (λ s t. NoRoomLine s t line.now)
        hub.old.slot.held hub.new.slot.held }
    ensures lost { result ≡ 6 → BothHeld (λ s t. LostLine s t line.now)
        hub.old.slot.held hub.new.slot.held }
    ensures stays_lost { is_lost_in hub.old.slot.held ≡ true
        → (result ≡ 6) × (hub.new.slot.held ≡ hub.old.slot.held) }
    ensures closed { hub.old.is_open ≡ false → (result ≡ 5) × (hub.new ≡ hub.old) }
    ensures open { result ≡ 5 → hub.old.is_open ≡ false }
    ensures untouched { says_something result ≡ false
        → (room.new ≡ room.old) × (length.new ≡ length.old) }
{
    if !hub.is_open {
        return WRONG_STATE;
    }
    let mut session = mem::replace(hub, HubHandle::new_closed(alloc)).into_session();
    let status = run_line_and_copy_answer(alloc, &mut session, line, room, length);
    *hub = HubHandle::new_open(session);
    status
}

/// Puts what the last text line was answered with, that was run or bad, into the room once more: as
/// after an outcome line that was longer than the room, or that found no memory.
#[unsafe(no_mangle)]
pub extern "C" fn varukoni_said(
    alloc: Global,
    hub: &mut HubHandle,
    room: &mut [u8],
    length: &mut usize,
) -> u8
    ensures said { result ≡ 0 → BothHeld (λ s t. SaysAgain s t
        × Fills room.old room.new length.new (told s)) hub.old.slot.held hub.new.slot.held }
    ensures no_memory { result ≡ 3 → BothHeld SaysAgain hub.old.slot.held hub.new.slot.held
        × (is_told_in hub.old.slot.held ≡ false) }
    ensures closed { hub.old.is_open ≡ false → (result ≡ 5) × (hub.new ≡ hub.old) }
    ensures statuses { (result ≡ 0) ⊎ ((result ≡ 3) ⊎ (hub.old.is_open ≡ false)) }
    ensures untouched { says_something result ≡ false
        → (room.new ≡ room.old) × (length.new ≡ length.old) }
{
    if !hub.is_open {
        return WRONG_STATE;
    }
    let mut session = mem::replace(hub, HubHandle::new_closed(alloc)).into_session();
    let status = copy_last_answer_again(&mut session, room, length);
    *hub = HubHandle::new_open(session);
    status
}

/// A session in its box, which may be sent to another thread. Nothing calls it: that it is accepted
/// shows that a session is `Send`.
fn assert_session_send(session: Box<Session>) -> Box<Session>
    ensures { result ≡ session }
{
    assert_send(session)
}

fn assert_send<T: Send>(value: T) -> T
    ensures { result ≡ value }
{
    value
}

/// What `varukoni_line` puts into the rooms of a hub, joined, is the one text of the step lines
/// that it has run, which `varukoni_steps` and the program write of an input that has them. The
/// function does nothing; the law is its contract.
pub fn prove_calls_say_one_text()
    ensures { CallsSayTheText }
{}
