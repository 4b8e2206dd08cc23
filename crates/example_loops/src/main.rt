//! Two event loops on threads, with a port between them. Agent 0 makes a channel and sends agent 1
//! one of its ports; agent 1 answers over that port. Where one of them finds no memory the other
//! waits for ever, since nothing asks it to end.
#![tactic(auto)]

mod first;
mod making;

use hub_broadcast::SharedRoster;
use hub_clients::Directory;
use hub_envelope::{AgentId, Body};
use hub_ports::{Hub, Port, send};
use hub_queue::Poster;
use making::{Agents, Asking, Loop};
use std::alloc::Global;
use std::sync::Wait;
use std::{io, thread};

/// What the agents of a hub share.
#[derive(Drop)]
pub(crate) struct Shared {
    pub(crate) hub: Hub,
    pub(crate) directory: Directory,
    pub(crate) roster: SharedRoster,
}

/// Makes turns until the first message was delivered. `None` where there is no memory.
fn hear<R: Wait>(rt: &R, shared: &Shared, event_loop: &mut Loop) -> Option<()> {
    event_loop.run(rt, &shared.hub).ok()
}

/// Ends a loop, and gives the text that its handler kept: all that it held is closed and swept.
fn end<R: Wait>(rt: &R, alloc: Global, shared: &Shared, mut event_loop: Loop) -> Option<String> {
    let heard = String::from_str(alloc, event_loop.handler_mut().text()?).ok()?;
    event_loop
        .end(
            rt,
            &shared.hub,
            &shared.directory,
            &mut shared.roster.as_lock(),
        )
        .ok()?;
    Some(heard)
}

/// Sends the port over the line, with a message.
fn send_port<R: Wait>(
    rt: &R,
    alloc: Global,
    shared: &Shared,
    mut line: Poster,
    port: Port,
) -> Option<()> {
    let mut ports = Vec::with_capacity(alloc, 1).ok()?;
    ports.push(port).ok()?;
    let body = Body::read(alloc, "\"a port for you\"").ok()?;
    send(&mut line, rt, &shared.hub, AgentId(0), body, ports).ok()?;
    Some(())
}

/// Posts at the port that came with the first message.
fn thank<R: Wait>(rt: &R, alloc: Global, shared: &Shared, event_loop: &mut Loop) -> Option<()> {
    let number = event_loop.handler_mut().port()?;
    let body = Body::read(alloc, "\"thanks\"").ok()?;
    let port = event_loop.port_mut(number)?;
    port.post(rt, &shared.hub, AgentId(1), body, Vec::new(alloc))
        .ok()?;
    Some(())
}

/// Agent 0 sends the port over the line, and waits for the answer.
fn ask<R: Wait>(rt: &R, alloc: Global, shared: &Shared, agent: Asking) -> Option<String> {
    let Asking {
        mut event_loop,
        line,
        port,
    } = agent;
    send_port(rt, alloc, shared, line, port)?;
    hear(rt, shared, &mut event_loop)?;
    end(rt, alloc, shared, event_loop)
}

/// Agent 1 waits for the port, and answers over it.
fn answer<R: Wait>(rt: &R, alloc: Global, shared: &Shared, mut event_loop: Loop) -> Option<String> {
    hear(rt, shared, &mut event_loop)?;
    thank(rt, alloc, shared, &mut event_loop)?;
    end(rt, alloc, shared, event_loop)
}

fn main(rt: HostRuntime) -> io::Result<()> {
    let alloc = rt.alloc();
    let shared = Shared {
        hub: Hub::new(alloc),
        directory: Directory::new(alloc),
        roster: SharedRoster::new(alloc),
    };
    let handle = &rt;
    let lent = &shared;
    if let Some(Agents { asking, answering }) = Agents::open(handle, alloc, lent) {
        let (asked, answered) = thread::join(
            handle,
            move || ask(handle, alloc, lent, asking),
            move || answer(handle, alloc, lent, answering),
        );
        if let (Some(asked), Some(answered)) = (asked, answered) {
            println!(rt; "agent 1 got {answered}")?;
            println!(rt; "agent 0 got {asked}")?;
        }
    }
    Ok(())
}
