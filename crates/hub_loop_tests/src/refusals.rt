//! Ports and queues whose adoption is refused for good, since the yard knows their number already:
//! another end of that number was adopted before, and its line has not gone on yet.
use crate::left::is_left;
use crate::parts::{Answer, Shared, delivers, holds, moves, notices, open, post_port};
use hub_clients::ClientQueue;
use hub_envelope::{AgentId, EndId};
use hub_loop::Held;
use hub_ports::channel;
use hub_queue::{Bell, Ends};
use hub_test_parts::Loop;
use std::alloc::Global;
use std::sync::Wait;

/// Two ports of the next numbers, which these loops hold.
fn opens(
    alloc: Global,
    ends: &mut Ends,
    first: &mut Loop,
    second: &mut Loop,
    bell: &Bell,
) -> Option<bool> {
    let (one, other) = channel(alloc, ends, bell.clone().ok()?).ok()?;
    let has_one = holds(first, Held::Port(one));
    let has_other = holds(second, Held::Port(other));
    Some(has_one && has_other)
}

/// Two ports of the next numbers, which this loop holds.
fn opens_both(alloc: Global, ends: &mut Ends, both: &mut Loop, bell: &Bell) -> Option<bool> {
    let (one, other) = channel(alloc, ends, bell.clone().ok()?).ok()?;
    let has_one = holds(both, Held::Port(one));
    let has_other = holds(both, Held::Port(other));
    Some(has_one && has_other)
}

/// Port 3 is sent to the first loop, which adopts it.
fn adopts_port<R: Wait>(
    rt: &R,
    shared: &Shared,
    first: &mut Loop,
    second: &mut Loop,
    bells: (&Bell, &Bell),
) -> Option<bool> {
    let ends = &mut Ends::new();
    let are_open = opens(shared.alloc, ends, second, first, bells.0)?
        && opens_both(shared.alloc, ends, second, bells.1)?
        && first.start_port(EndId(1));
    let posted = post_port(rt, shared, second, 0, Some(3), "1");
    let is_adopted = posted == Some(Answer::Accepted(0, 0))
        && delivers(rt, &shared.hub, first, (1, 0, 0, 0), "1", 0);
    Some(are_open && is_adopted)
}

/// Another port 3 is sent there. It is closed with its notice, and counts as missing.
fn refuses_port<R: Wait>(
    rt: &R,
    shared: &Shared,
    first: &mut Loop,
    third: &mut Loop,
    bells: (&Bell, &Bell),
) -> Option<bool> {
    let ends = &mut Ends { drawn: 2 };
    let are_open = opens_both(shared.alloc, ends, third, bells.1)?
        && opens(shared.alloc, ends, third, first, bells.0)?
        && first.start_port(EndId(5));
    let posted = post_port(rt, shared, third, 4, Some(3), "2");
    let is_missing = posted == Some(Answer::Accepted(0, 0))
        && delivers(rt, &shared.hub, first, (5, 0, 0, 0), "2", 1)
        && moves(first, 3) == Some(1);
    let is_told = third.start_port(EndId(2))
        && notices(rt, &shared.hub, third, (2, 0, 0, 0))
        && post_port(rt, shared, third, 2, None, "3") == Some(Answer::Closed);
    Some(are_open && is_missing && is_told)
}

/// The port that was refused is swept when the loop ends.
fn sweeps_port<R: Wait>(rt: &R, shared: &Shared, first: Loop, second: &mut Loop) -> Option<bool> {
    let posted = post_port(rt, shared, second, 2, None, "4");
    let ended = first.end(
        rt,
        &shared.hub,
        &shared.directory,
        &mut shared.roster.as_lock(),
    );
    let ended = ended.ok()?;
    let is_swept = is_left(
        &ended,
        &[(1, &[]), (3, &[]), (3, &[(1, 0, "4")]), (5, &[])],
        &[(3, 2), (1, 0), (3, 2), (5, 4)],
    );
    drop(ended);
    Some(posted == Some(Answer::Accepted(1, 0)) && is_swept)
}

fn closes_port<R: Wait>(rt: &R, shared: &Shared) -> Option<bool> {
    let (mut first, first_bell) = open(shared.alloc, 0)?;
    let (mut second, second_bell) = open(shared.alloc, 1)?;
    let (mut third, third_bell) = open(shared.alloc, 2)?;
    let bells = (&first_bell, &second_bell);
    let is_adopted = adopts_port(rt, shared, &mut first, &mut second, bells);
    let bells = (&first_bell, &third_bell);
    let is_refused = refuses_port(rt, shared, &mut first, &mut third, bells);
    let is_swept = sweeps_port(rt, shared, first, &mut second);
    drop(second);
    drop(third);
    Some(is_adopted == Some(true) && is_refused == Some(true) && is_swept == Some(true))
}

#[test]
fn a_port_whose_number_is_taken_is_closed(rt: HostRuntime) {
    let shared = Shared::new(rt.alloc());
    let is_closed = closes_port(&rt, &shared);
    drop(shared);
    assert!(rt; is_closed == Some(true));
}

/// Hands a queue of the number 0 to agent 1.
fn hands<R: Wait>(rt: &R, shared: &Shared, queue: ClientQueue) -> bool {
    queue.hand(rt, &shared.directory, AgentId(1)).ok().is_some()
}

/// The worker's queue 0 is fetched, and another queue 0 is not. That is closed, and not there for
/// another call. It is swept when the loop ends.
fn closes_queue<R: Wait>(
    rt: &R,
    shared: &Shared,
    mut event_loop: Loop,
    bells: (Bell, Bell),
) -> Option<bool> {
    let (hub, directory) = (&shared.hub, &shared.directory);
    let first = directory.worker(rt, &mut Ends::new(), bells.0).ok()?;
    first.hand(rt, directory, AgentId(1)).ok()?;
    let is_fetched = event_loop.fetch(rt, hub, directory, EndId(0)).ok()?;
    let second = directory.client(rt, &mut Ends::new(), bells.1).ok()?;
    let is_handed = hands(rt, shared, second);
    let is_refused = !event_loop.fetch(rt, hub, directory, EndId(0)).ok()?;
    let is_gone = !event_loop.fetch(rt, hub, directory, EndId(0)).ok()?;
    let ended = event_loop
        .end(rt, hub, directory, &mut shared.roster.as_lock())
        .ok()?;
    let is_swept = is_left(&ended, &[(0, &[]), (0, &[])], &[]);
    drop(ended);
    Some(is_fetched && is_handed && is_refused && is_gone && is_swept)
}

fn opens_and_closes_queue<R: Wait>(rt: &R, shared: &Shared) -> Option<bool> {
    let (event_loop, bell) = open(shared.alloc, 1)?;
    let other = bell.clone().ok()?;
    closes_queue(rt, shared, event_loop, (bell, other))
}

#[test]
fn a_queue_whose_number_is_taken_is_closed(rt: HostRuntime) {
    let shared = Shared::new(rt.alloc());
    let is_closed = opens_and_closes_queue(&rt, &shared);
    drop(shared);
    assert!(rt; is_closed == Some(true));
}
