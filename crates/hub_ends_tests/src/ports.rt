//! What the tests make their ports of, and a table of ports by number, with their hub. Each call
//! that makes one is made again where an allocation was refused, since the next one has the memory.
//!
//! A function that drops a port costs some seconds of the check, so few do.
mod lent;
mod rows;

use hub_envelope::{AgentId, Body, EndId};
use hub_ports::{Hub, Noticed, Port, PortError, Spent, channel};
use hub_queue::{Ends, Grave, Posted, Took};
use hub_test_parts::{bell, body, take};
use std::alloc::Global;
use std::mem::replace;
use std::sync::Wait;

fn try_entangled(alloc: Global, ends: &mut Ends) -> Option<(Port, Port)> {
    channel(alloc, ends, bell(alloc)?).ok()
}

/// Two ports of the next two numbers, entangled with each other.
pub(crate) fn entangled(alloc: Global, ends: &mut Ends) -> Option<(Port, Port)> {
    match try_entangled(alloc, ends) {
        Some(ports) => Some(ports),
        None => try_entangled(alloc, ends),
    }
}

/// An empty list with room for so many ports.
pub(crate) fn room(alloc: Global, count: usize) -> Option<Vec<Port>> {
    match Vec::with_capacity(alloc, count) {
        Ok(ports) => Some(ports),
        Err(_) => Vec::with_capacity(alloc, count).ok(),
    }
}

/// Whether the numbers of these ports are these, in order.
pub(crate) fn are_numbered(ports: &[Port], numbers: &[u32]) -> bool {
    if ports.len() != numbers.len() {
        return false;
    }
    for (port, number) in ports.iter().zip(numbers) {
        if port.id() != EndId(*number) {
            return false;
        }
    }
    true
}

/// What a post has come to.
#[derive(Clone, Copy, PartialEq, Eq)]
pub(crate) enum Answer {
    /// Under this epoch and number.
    Accepted(u32, u64),
    Closed,
    /// The port of this number was closed, with this notice.
    Doomed(u32, Noticed),
}

/// The ports by number, where they are at hand.
#[derive(Drop)]
pub(crate) struct PortTable {
    alloc: Global,
    hub: Hub,
    ends: Ends,
    ports: Vec<Option<Port>>,
}

/// What a refusal says, where a row may expect it, and the ports that came back.
fn told(alloc: Global, error: PortError) -> (Option<Answer>, Vec<Port>) {
    match error {
        PortError::Closed(_body, back) => (Some(Answer::Closed), back),
        PortError::Doomed(closings) => {
            let answer = match closings.as_slice() {
                [closing] => Some(Answer::Doomed(closing.end.0, closing.noticed)),
                _ => None,
            };
            (answer, Vec::new(alloc))
        }
        PortError::Moving(_body, back) => (None, back),
        PortError::OutOfMemory(_body, back) => (None, back),
        PortError::TooManyPorts(_body, back) => (None, back),
        PortError::Strayed(_missing, _body, back) => (None, back),
        PortError::Taken(_body, back) => (None, back),
    }
}

/// Posts a body with the ports of a list, and once more where there was no memory and body and
/// ports have come back, the ports in order.
fn post_again<R: Wait>(
    rt: &R,
    hub: &Hub,
    port: &mut Port,
    body: Body,
    transfer: Vec<Port>,
    row: (&str, &[u32]),
) -> Result<Posted, PortError> {
    let (text, list) = row;
    match port.post(rt, hub, AgentId(0), body, transfer) {
        Ok(posted) => Ok(posted),
        Err(PortError::OutOfMemory(back, ports)) => {
            if back.text() == text && are_numbered(ports.as_slice(), list) {
                port.post(rt, hub, AgentId(0), back, ports)
            } else {
                Err(PortError::OutOfMemory(back, ports))
            }
        }
        Err(error) => Err(error),
    }
}

/// What a closing tells, with the rest dropped.
fn noticed(closed: (Grave, Spent, Noticed)) -> Noticed {
    closed.2
}

fn add(ports: &mut Vec<Option<Port>>, port: Port) -> bool {
    ports.push(Some(port)).is_ok()
}

fn take_out(ports: &mut [Option<Port>], end: u32) -> Option<Port> {
    ports.get_mut(end as usize)?.take()
}

fn put_in(ports: &mut [Option<Port>], port: Port) {
    let end = port.id().0 as usize;
    if let Some(place) = ports.get_mut(end) {
        *place = Some(port);
    }
}

fn put_all_in(ports: &mut [Option<Port>], back: Vec<Port>) {
    for port in back {
        put_in(ports, port);
    }
}

/// The ports of a list, where they are at hand.
fn take_all_out(alloc: Global, ports: &mut [Option<Port>], list: &[u32]) -> Option<Vec<Port>> {
    let mut taken = room(alloc, list.len())?;
    for end in list {
        if let Some(port) = take_out(ports, *end) {
            taken.push(port).ok()?;
        }
    }
    Some(taken)
}

/// Ends the hub, and once more where there was no memory.
fn end_hub<R: Wait>(rt: &R, hub: Hub) -> bool {
    match hub.end(rt) {
        Ok(()) => true,
        Err((_, hub)) => hub.end(rt).is_ok(),
    }
}

impl PortTable {
    /// No port was made.
    pub(crate) fn new(alloc: Global) -> PortTable {
        PortTable {
            alloc,
            hub: Hub::new(alloc),
            ends: Ends::new(),
            ports: Vec::with_capacity(alloc, 6).unwrap_or(Vec::new(alloc)),
        }
    }

    /// Whether two ports of the next numbers were made.
    pub(crate) fn channel(&mut self) -> bool {
        match entangled(self.alloc, &mut self.ends) {
            Some((first, second)) => {
                let has_first = add(&mut self.ports, first);
                let has_second = add(&mut self.ports, second);
                has_first && has_second
            }
            None => false,
        }
    }

    /// Posts a body with the ports of a list. Those that come back are at hand again.
    pub(crate) fn post<R: Wait>(
        &mut self,
        rt: &R,
        end: u32,
        list: &[u32],
        text: &str,
    ) -> Option<Answer> {
        let body = body(self.alloc, text)?;
        let transfer = take_all_out(self.alloc, &mut self.ports, list)?;
        let Some(mut port) = take_out(&mut self.ports, end) else {
            put_all_in(&mut self.ports, transfer);
            return None;
        };
        let posted = post_again(rt, &self.hub, &mut port, body, transfer, (text, list));
        put_in(&mut self.ports, port);
        match posted {
            Ok(posted) => Some(Answer::Accepted(posted.epoch, posted.number)),
            Err(error) => {
                let (answer, back) = told(self.alloc, error);
                put_all_in(&mut self.ports, back);
                answer
            }
        }
    }

    fn take<R: Wait>(&mut self, rt: &R, end: u32) -> Option<Took> {
        match take_out(&mut self.ports, end) {
            Some(mut port) => {
                let took = take(rt, &mut port);
                put_in(&mut self.ports, port);
                Some(took)
            }
            None => None,
        }
    }

    pub(crate) fn close<R: Wait>(&mut self, rt: &R, end: u32) -> Option<Noticed> {
        match take_out(&mut self.ports, end) {
            Some(port) => Some(noticed(port.close(rt, &self.hub))),
            None => None,
        }
    }

    pub(crate) fn start(&mut self, end: u32) -> bool {
        match take_out(&mut self.ports, end) {
            Some(mut port) => {
                port.start();
                put_in(&mut self.ports, port);
                true
            }
            None => false,
        }
    }

    /// Whether a take gives the notice that is the first envelope of the line.
    pub(crate) fn gets_notice<R: Wait>(&mut self, rt: &R, end: u32) -> bool {
        match self.take(rt, end) {
            Some(Took::Got(envelope)) => {
                envelope.notice && envelope.epoch == 0 && envelope.number == 0
            }
            _ => false,
        }
    }

    pub(crate) fn finds_none<R: Wait>(&mut self, rt: &R, end: u32) -> bool {
        matches!(self.take(rt, end), Some(Took::Empty))
    }

    /// Whether the hub has ended. What is done next is lent a new one.
    pub(crate) fn end<R: Wait>(&mut self, rt: &R) -> bool {
        let hub = replace(&mut self.hub, Hub::new(self.alloc));
        end_hub(rt, hub)
    }
}
