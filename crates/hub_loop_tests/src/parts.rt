//! Loops, their turns and what is shared. Loops, ports and queues are handed to `drop`, since a
//! function that itself lets one go costs some seconds of the check.
use hub_broadcast::SharedRoster;
use hub_clients::Directory;
use hub_envelope::{AgentId, EndId, Envelope};
use hub_life::Order;
use hub_loop::{Held, Turn, Way};
use hub_ports::{Closings, Hub, Parcel, Port, SendRefusal};
use hub_queue::{Bell, Listener};
use hub_test_parts::{Delivered, Loop, body, is_message, open_loop, release_port, turn};
use std::alloc::Global;
use std::sync::Wait;

/// The hub, the directory and the roster.
#[derive(Drop)]
pub(crate) struct Shared {
    pub(crate) alloc: Global,
    pub(crate) hub: Hub,
    pub(crate) directory: Directory,
    pub(crate) roster: SharedRoster,
}

impl Shared {
    pub(crate) fn new(alloc: Global) -> Shared {
        Shared {
            alloc,
            hub: Hub::new(alloc),
            directory: Directory::new(alloc),
            roster: SharedRoster::new(alloc),
        }
    }
}

/// A loop of this agent, which holds nothing, and the bell that wakes it.
pub(crate) fn open(alloc: Global, agent: u8) -> Option<(Loop, Bell)> {
    let mut orders = Order::open(alloc, 2).ok()?;
    let (listener, bell) = Listener::new_with_first_bell(alloc).ok()?;
    let opened = open_loop(alloc, AgentId(agent), &mut orders, listener)?;
    Some((opened, bell))
}

/// Whether the loop holds this end or line from now on.
pub(crate) fn holds(event_loop: &mut Loop, held: Held) -> bool {
    event_loop.hold_end_or_line(held).ok().is_some()
}

/// What a turn comes to. `None` where there was no memory.
fn turned<R: Wait>(rt: &R, hub: &Hub, event_loop: &mut Loop) -> Option<Turn> {
    turn(rt, hub, event_loop).ok()
}

/// The message that a turn delivers.
fn delivery<R: Wait>(rt: &R, hub: &Hub, event_loop: &mut Loop) -> Option<Delivered> {
    if turned(rt, hub, event_loop) != Some(Turn::Delivered) {
        return None;
    }
    event_loop.handler_mut().delivered.pop()
}

/// Whether a turn delivers nothing, and some end is busy or none is.
pub(crate) fn is_idle<R: Wait>(rt: &R, hub: &Hub, event_loop: &mut Loop, busy: bool) -> bool {
    turned(rt, hub, event_loop) == Some(Turn::Idle { busy })
}

/// The end, the line, the epoch and the number of an envelope.
pub(crate) type Name = (u32, u8, u32, u64);

fn is_named(envelope: &Envelope, name: Name) -> bool {
    let (end, line, epoch, number) = name;
    envelope.end.0 == end
        && envelope.line.0 == line
        && envelope.epoch == epoch
        && envelope.number == number
}

/// Whether a turn delivers this text under that name, and so many of its ports are missing.
pub(crate) fn delivers<R: Wait>(
    rt: &R,
    hub: &Hub,
    event_loop: &mut Loop,
    name: Name,
    text: &str,
    missing: usize,
) -> bool {
    let Some(
        Delivered {
            envelope,
            missing: lost,
        },
    ) = delivery(rt, hub, event_loop)
    else {
        return false;
    };
    let is_right = is_named(&envelope, name)
        && is_message(&envelope, name.2, name.3, text)
        && lost.len() == missing;
    drop(envelope);
    is_right
}

/// Whether a turn delivers a notice under that name.
pub(crate) fn notices<R: Wait>(rt: &R, hub: &Hub, event_loop: &mut Loop, name: Name) -> bool {
    let Some(Delivered { envelope, missing }) = delivery(rt, hub, event_loop) else {
        return false;
    };
    let is_right = is_named(&envelope, name) && envelope.notice && missing.is_empty();
    drop(envelope);
    is_right
}

/// The ports to be sent along.
fn sent_along(alloc: Global, event_loop: &mut Loop, sent: Option<u32>) -> Option<Vec<Port>> {
    let mut ports = Vec::with_capacity(alloc, 1).ok()?;
    if let Some(end) = sent {
        ports.push(release_port(event_loop, EndId(end))?).ok()?;
    }
    Some(ports)
}

/// What became of a post from a port.
#[derive(Clone, Copy, PartialEq, Eq)]
pub(crate) enum Answer {
    /// Under this epoch and number.
    Accepted(u32, u64),
    Closed,
}

/// Posts a text from the port of this number, and maybe another port along.
pub(crate) fn post_port<R: Wait>(
    rt: &R,
    shared: &Shared,
    event_loop: &mut Loop,
    end: u32,
    sent: Option<u32>,
    text: &str,
) -> Option<Answer> {
    let body = body(shared.alloc, text)?;
    let transfer = sent_along(shared.alloc, event_loop, sent)?;
    let (mut parcel, mut closings) = (Parcel::new(shared.alloc, body, transfer), Closings::none());
    let (hub, way) = (&shared.hub, Way::Port(EndId(end)));
    let answer = event_loop.post(rt, hub, AgentId(0), way, &mut parcel, &mut closings);
    drop(parcel);
    match answer? {
        Ok(posted) => Some(Answer::Accepted(posted.epoch, posted.number)),
        Err(SendRefusal::Closed) => Some(Answer::Closed),
        Err(_) => None,
    }
}

/// How often the port of this number has moved, which the loop holds.
pub(crate) fn moves(event_loop: &mut Loop, end: u32) -> Option<u32> {
    Some(event_loop.port_mut(EndId(end))?.moves())
}
