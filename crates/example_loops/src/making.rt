use crate::Shared;
use crate::first::First;
use hub_envelope::{AgentId, EndId};
use hub_life::Order;
use hub_loop::{EventLoop, Held, NoCheckpoint};
use hub_ports::{Port, channel};
use hub_queue::{Bell, Ends, Listener, Poster};
use std::alloc::Global;
use std::sync::Wait;

pub(crate) type Loop = EventLoop<First, NoCheckpoint>;

/// Agent 0: its loop holds a port that is started. It has the port that it is to send, and a line
/// of the queue of agent 1.
#[derive(Drop)]
pub(crate) struct Asking {
    pub(crate) event_loop: Loop,
    pub(crate) line: Poster,
    pub(crate) port: Port,
}

/// Two agents. The loop of the second one holds a client's queue.
#[derive(Drop)]
pub(crate) struct Agents {
    pub(crate) asking: Asking,
    pub(crate) answering: Loop,
}

/// A loop that holds nothing, and the bell that wakes it. `None` where there is no memory.
fn open(alloc: Global, number: u8) -> Option<(Loop, Bell)> {
    let mut orders = Order::open(alloc, 2).ok()?;
    let (listener, bell) = Listener::new_with_first_bell(alloc).ok()?;
    let first = First::new(alloc, orders.pop()?);
    let order = orders.pop()?;
    let opened = EventLoop::open(alloc, AgentId(number), order, first, NoCheckpoint, listener);
    Some((opened.ok()?, bell))
}

/// Makes a client's queue and gives it to a loop. The answer is the queue's number.
fn add_queue<R: Wait>(
    rt: &R,
    shared: &Shared,
    ends: &mut Ends,
    event_loop: &mut Loop,
    bell: Bell,
) -> Option<EndId> {
    let mut queue = shared.directory.client(rt, ends, bell).ok()?;
    queue.loaded();
    let number = queue.id();
    event_loop.hold_end_or_line(Held::Client(queue)).ok()?;
    Some(number)
}

/// Makes a channel and gives one of its ports, started, to a loop. The answer is the other one.
fn add_port(alloc: Global, ends: &mut Ends, event_loop: &mut Loop, bell: Bell) -> Option<Port> {
    let (mut own, port) = channel(alloc, ends, bell).ok()?;
    own.start();
    event_loop.hold_end_or_line(Held::Port(own)).ok()?;
    Some(port)
}

impl Asking {
    /// `None` where there is no memory.
    fn open<R: Wait>(
        rt: &R,
        alloc: Global,
        shared: &Shared,
        ends: &mut Ends,
        queue: EndId,
    ) -> Option<Asking> {
        let (mut event_loop, bell) = open(alloc, 0)?;
        let port = add_port(alloc, ends, &mut event_loop, bell)?;
        let line = shared.directory.line_to(rt, queue).ok()?;
        Some(Asking {
            event_loop,
            line,
            port,
        })
    }
}

impl Agents {
    /// `None` where there is no memory.
    pub(crate) fn open<R: Wait>(rt: &R, alloc: Global, shared: &Shared) -> Option<Agents> {
        let mut ends = Ends::new();
        let (mut answering, bell) = open(alloc, 1)?;
        let queue = add_queue(rt, shared, &mut ends, &mut answering, bell)?;
        let asking = Asking::open(rt, alloc, shared, &mut ends, queue)?;
        Some(Agents { asking, answering })
    }
}
