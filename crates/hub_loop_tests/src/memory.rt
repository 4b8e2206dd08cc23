//! A fetch for which there may be no memory is tried once.
use crate::left::is_left;
use crate::parts::{Shared, open};
use hub_clients::ClientQueue;
use hub_envelope::{AgentId, EndId};
use hub_loop::Ended;
use hub_queue::{Ends, PostError, Poster};
use hub_test_parts::{Loop, post};
use std::alloc::Global;
use std::sync::Wait;

/// What a loop leaves. Where there was no memory the next call goes on.
fn ended<R: Wait>(rt: &R, shared: &Shared, event_loop: Loop) -> Option<Ended> {
    match event_loop.end(
        rt,
        &shared.hub,
        &shared.directory,
        &mut shared.roster.as_lock(),
    ) {
        Ok(ended) => Some(ended),
        Err((_, event_loop)) => {
            event_loop
                .end(
                    rt,
                    &shared.hub,
                    &shared.directory,
                    &mut shared.roster.as_lock(),
                )
                .ok()
        }
    }
}

/// A queue that the loop keeps is swept when it ends; one that is handed still is not.
fn sweeps<R: Wait>(rt: &R, shared: &Shared, mut event_loop: Loop) -> Option<bool> {
    let is_there = match event_loop.fetch(rt, &shared.hub, &shared.directory, EndId(0)) {
        Ok(is_held) => is_held,
        Err(_) => true,
    };
    let ended = ended(rt, shared, event_loop)?;
    let is_right = match shared
        .directory
        .fetch_handed_queue(rt, EndId(0), AgentId(1))
    {
        Some(handed) => {
            drop(handed.queue.close());
            is_left(&ended, &[], &[])
        }
        None => is_left(&ended, &[(0, &[(0, 0, "1")])], &[]),
    };
    drop(ended);
    Some(is_there && is_right)
}

/// What was posted before the queue was handed on.
fn posts_and_hands<R: Wait>(
    rt: &R,
    shared: &Shared,
    queue: ClientQueue,
    line: &mut Poster,
) -> Option<bool> {
    let posting = post(rt, shared.alloc, &shared.hub.yard, line, "1")?;
    queue.hand(rt, &shared.directory, AgentId(1)).ok()?;
    match posting {
        Ok(name) => Some(name == (0, 0)),
        Err(_) => None,
    }
}

fn is_closed<R: Wait>(rt: &R, shared: &Shared, line: &mut Poster) -> Option<bool> {
    let posting = post(rt, shared.alloc, &shared.hub.yard, line, "2")?;
    Some(posting == Err(PostError::Closed))
}

fn keeps<R: Wait>(rt: &R, shared: &Shared) -> Option<bool> {
    let (event_loop, bell) = open(shared.alloc, 1)?;
    let queue = shared.directory.client(rt, &mut Ends::new(), bell).ok()?;
    let mut line = shared.directory.line_to(rt, EndId(0)).ok()?;
    let is_handed = posts_and_hands(rt, shared, queue, &mut line)?;
    let is_swept = sweeps(rt, shared, event_loop)?;
    let is_closed = is_closed(rt, shared, &mut line)?;
    drop(line);
    Some(is_handed && is_swept && is_closed)
}

/// `None` where there was no memory for anything but the fetch.
fn try_keeps<R: Wait>(rt: &R, alloc: Global) -> Option<bool> {
    let shared = Shared::new(alloc);
    let is_kept = keeps(rt, &shared);
    drop(shared);
    is_kept
}

#[test]
fn a_kept_queue_is_swept_whichever_allocation_is_refused(rt: HostRuntime) {
    // Where one allocation was refused the second try meets no refusal.
    let is_kept = match try_keeps(&rt, rt.alloc()) {
        None => try_keeps(&rt, rt.alloc()),
        kept => kept,
    };
    assert!(rt; is_kept == Some(true));
}
