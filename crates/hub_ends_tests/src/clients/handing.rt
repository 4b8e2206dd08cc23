//! Queues that wait for an agent, where step files can't show them.
use crate::clients::{client, worker};
use hub_clients::{Directory, HandError, HandedQueue};
use hub_depot::Depot;
use hub_envelope::{AgentId, EndId};
use hub_queue::{Ends, Onward, PostError, Poster};
use hub_test_parts::post;
use std::alloc::Global;
use std::sync::Wait;

const TO: AgentId = AgentId(1);

/// Whether a client's queue of this number is handed on. What has come back is lost.
fn hands_client<R: Wait>(
    rt: &R,
    alloc: Global,
    directory: &Directory,
    drawn: u32,
) -> Option<Result<(), HandError>> {
    let queue = client(rt, alloc, directory, &mut Ends { drawn })?;
    match queue.hand(rt, directory, TO) {
        Ok(()) => Some(Ok(())),
        Err((error, back)) => {
            let is_same = back.id().0 == drawn;
            drop(back);
            if is_same { Some(Err(error)) } else { None }
        }
    }
}

/// Whether a worker's queue of this number is handed on.
fn hands_worker<R: Wait>(rt: &R, alloc: Global, directory: &Directory, drawn: u32) -> bool {
    match worker(rt, alloc, directory, &mut Ends { drawn }) {
        Some(queue) => queue.hand(rt, directory, TO).is_ok(),
        None => false,
    }
}

/// Whether a worker's queue of the number 0 waits for the agent.
fn has_worker<R: Wait>(rt: &R, directory: &Directory) -> bool {
    match directory.fetch_handed_queue(rt, EndId(0), TO) {
        Some(handed) => {
            let is_worker = matches!(&handed.queue, HandedQueue::Worker(_));
            drop(handed);
            is_worker
        }
        None => false,
    }
}

/// Whether a client's queue of a number that waits already comes back, and the one that waits
/// stays.
fn comes_back<R: Wait>(rt: &R, alloc: Global) -> bool {
    let directory = Directory::new(alloc);
    let is_handed = hands_worker(rt, alloc, &directory, 0);
    let refused = hands_client(rt, alloc, &directory, 0);
    let is_there = has_worker(rt, &directory);
    drop(directory);
    is_handed && is_there && matches!(refused, Some(Err(HandError::Taken)))
}

#[test]
fn a_queue_comes_back_where_its_name_is_taken(rt: HostRuntime) {
    assert!(rt; comes_back(&rt, rt.alloc()));
}

/// A line to each of the queues 0 and 1.
fn lines<R: Wait>(rt: &R, alloc: Global, directory: &Directory) -> Option<Vec<Poster>> {
    let mut lines = Vec::new(alloc);
    for end in 0..2 {
        lines.push(directory.line_to(rt, EndId(end)).ok()?).ok()?;
    }
    Some(lines)
}

/// Whether a post over each of these lines finds its queue closed.
fn are_closed<R: Wait>(rt: &R, alloc: Global, lines: &mut [Poster]) -> bool {
    let yard = Depot::<Onward>::new(alloc);
    for line in lines {
        if !matches!(
            post(rt, alloc, &yard, line, "1"),
            Some(Err(PostError::Closed))
        ) {
            return false;
        }
    }
    true
}

/// Whether a client's and a worker's queue that wait are closed with the directory.
fn closes_what_waits<R: Wait>(rt: &R, alloc: Global) -> bool {
    let directory = Directory::new(alloc);
    let are_handed = matches!(hands_client(rt, alloc, &directory, 0), Some(Ok(())))
        && hands_worker(rt, alloc, &directory, 1);
    let lines = lines(rt, alloc, &directory);
    directory.end(rt);
    match lines {
        Some(mut lines) => are_handed && are_closed(rt, alloc, lines.as_mut_slice()),
        None => false,
    }
}

#[test]
fn the_end_of_the_directory_closes_what_waits(rt: HostRuntime) {
    assert!(rt; closes_what_waits(&rt, rt.alloc()));
}
