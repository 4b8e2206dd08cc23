//! A line to another end is held beside a port of the same number.
use crate::left::is_left;
use crate::parts::{Shared, holds, is_idle, open};
use hub_envelope::{AgentId, EndId};
use hub_loop::{Held, Way};
use hub_ports::{Closings, Hub, Parcel, channel};
use hub_queue::{Bell, Ends, Mailbox, Poster};
use hub_test_parts::{Loop, body};
use std::alloc::Global;
use std::sync::Wait;

/// A line to another end 1.
fn strange_line(alloc: Global, bell: Bell) -> Option<Poster> {
    let (taker, mut posters) = Mailbox::open(alloc, EndId(1), 1, bell).ok()?;
    drop(taker);
    posters.pop()
}

/// Posts over the line of that number, and no end of the loop gets it.
fn sends<R: Wait>(rt: &R, alloc: Global, hub: &Hub, event_loop: &mut Loop) -> Option<bool> {
    let body = body(alloc, "2")?;
    let mut parcel = Parcel::new(alloc, body, Vec::new(alloc));
    let (way, mut closings) = (Way::Line(EndId(1)), Closings::none());
    let sent = event_loop.post(rt, hub, AgentId(0), way, &mut parcel, &mut closings);
    drop(parcel);
    let is_accepted = match sent {
        Some(Ok(posted)) => posted.epoch == 0 && posted.number == 0,
        _ => false,
    };
    Some(is_accepted && is_idle(rt, hub, event_loop, false))
}

fn has_line(event_loop: &mut Loop) -> bool {
    event_loop.has_line_posting_to_end(EndId(1))
        && match event_loop.line_posting_to_end_mut(EndId(1)) {
            Some(line) => line.name().end.0 == 1 && line.name().line.0 == 0,
            None => false,
        }
}

fn holds_again(event_loop: &mut Loop) -> bool {
    match event_loop.release_end(EndId(1)) {
        Some(held) => holds(event_loop, held),
        None => false,
    }
}

/// The loop holds port 1 and then the line. The directory doesn't take that back.
fn lends<R: Wait>(rt: &R, shared: &Shared, mut event_loop: Loop, line: Poster) -> Option<bool> {
    let had_line = event_loop.has_line_posting_to_end(EndId(1));
    let is_held = holds(&mut event_loop, Held::Line(line));
    let is_sent = sends(rt, shared.alloc, &shared.hub, &mut event_loop)?;
    let is_lent = has_line(&mut event_loop)
        && holds_again(&mut event_loop)
        && has_line(&mut event_loop);
    let ended = event_loop.end(
        rt,
        &shared.hub,
        &shared.directory,
        &mut shared.roster.as_lock(),
    );
    let ended = ended.ok()?;
    let is_swept = is_left(&ended, &[(1, &[])], &[(1, 0)]);
    drop(ended);
    Some(!had_line && is_held && is_sent && is_lent && is_swept)
}

fn opens_and_lends<R: Wait>(rt: &R, shared: &Shared) -> Option<bool> {
    let (mut event_loop, bell) = open(shared.alloc, 0)?;
    let line = strange_line(shared.alloc, bell.clone().ok()?)?;
    let (first, second) = channel(shared.alloc, &mut Ends::new(), bell).ok()?;
    let is_held = holds(&mut event_loop, Held::Port(second));
    let is_lent = lends(rt, shared, event_loop, line);
    drop(first);
    Some(is_held && is_lent == Some(true))
}

#[test]
fn a_line_is_lent_beside_a_port_of_its_number(rt: HostRuntime) {
    let shared = Shared::new(rt.alloc());
    let is_lent = opens_and_lends(&rt, &shared);
    drop(shared);
    assert!(rt; is_lent == Some(true));
}
