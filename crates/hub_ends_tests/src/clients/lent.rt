//! A listing and a map of one's own, and the same behind a lock: the calls of a directory answer
//! alike over both. What is told of the end is kept in a list.
use hub_clients::{
    Directory, DirectoryError, Handed, HandedQueue, QueueList, close_handed_queues,
    keep_in_lent_map, open_queue_in_lent_list, take_handed_queue_from_map,
};
use hub_depot::{Depot, KeptMap};
use hub_envelope::{AgentId, EndId, MAX_LINES};
use hub_locked::{Lends, Locked};
use hub_queue::{Ends, Grave, Poster};
use hub_test_parts::bell;
use std::alloc::Global;
use std::sync::Wait;

fn line_to<L: Lends<QueueList>, R: Wait>(
    rt: &R,
    lender: &mut L,
    end: u32,
) -> Result<Poster, DirectoryError> {
    lender.lend(rt, |listing| listing.line_to(EndId(end)))
}

/// Whether the next lines of the queue 0 are these, in order. They are lost at once.
fn lends_these<L: Lends<QueueList>, R: Wait>(rt: &R, lender: &mut L, lines: usize) -> bool {
    for line in 0..lines {
        match line_to(rt, lender, 0) {
            Ok(poster) if usize::from(poster.name().line.0) == line => {}
            _ => return false,
        }
    }
    true
}

/// A queue is listed; its last line is given back and lent once more, and then none is left.
fn lends_lines<L: Lends<QueueList>, R: Wait>(
    rt: &R,
    alloc: Global,
    lender: &mut L,
) -> Option<bool> {
    let queue = open_queue_in_lent_list(rt, alloc, lender, &mut Ends::new(), bell(alloc)?).ok()?;
    let is_missing = matches!(line_to(rt, lender, 7), Err(DirectoryError::NoSuchEnd));
    let are_lent = lends_these(rt, lender, MAX_LINES - 1);
    let last = line_to(rt, lender, 0).ok()?;
    let is_full = matches!(line_to(rt, lender, 0), Err(DirectoryError::NoLine));
    let is_back = lender
        .lend(rt, |listing| listing.give_back_poster(last))
        .is_ok();
    let again = line_to(rt, lender, 0).ok()?;
    let is_same = usize::from(again.name().line.0) == MAX_LINES - 1;
    drop(again);
    drop(queue);
    Some(is_missing && are_lent && is_full && is_back && is_same)
}

#[test]
fn a_listing_lends_its_lines(rt: HostRuntime) {
    let mut own = QueueList::new(rt.alloc());
    let shared = Locked::new(QueueList::new(rt.alloc()));
    let is_right = lends_lines(&rt, rt.alloc(), &mut own) == Some(true);
    let is_alike = lends_lines(&rt, rt.alloc(), &mut &shared) == Some(true);
    drop(own);
    drop(shared);
    assert!(rt; is_right && is_alike);
}

/// The queue of that number, on its way.
fn queue<R: Wait>(rt: &R, alloc: Global, end: u32) -> Option<HandedQueue> {
    let directory = Directory::new(alloc);
    let ends = &mut Ends { drawn: end };
    let made = directory.client(rt, ends, bell(alloc)?).ok()?;
    drop(directory);
    Some(HandedQueue::Client(made))
}

/// A queue is fetched by the agent that it is for, and by no other. Two others stay.
fn keeps_queues<L: Lends<KeptMap<Handed>>, R: Wait>(
    rt: &R,
    alloc: Global,
    lender: &mut L,
) -> Option<bool> {
    for end in 0..3 {
        keep_in_lent_map(rt, lender, queue(rt, alloc, end)?, AgentId(3)).ok()?;
    }
    let strange = take_handed_queue_from_map(rt, lender, EndId(1), AgentId(4));
    let fetched = take_handed_queue_from_map(rt, lender, EndId(1), AgentId(3));
    let again = take_handed_queue_from_map(rt, lender, EndId(1), AgentId(3));
    let is_right = strange.is_none() && fetched.is_some() && again.is_none();
    drop(strange);
    drop(fetched);
    drop(again);
    Some(is_right)
}

/// The numbers of the ends that are told as closed.
fn are_closed(told: &[Grave], ends: &[u32]) -> bool {
    if told.len() != ends.len() {
        return false;
    }
    for (grave, end) in told.iter().zip(ends) {
        if grave.closed_end_id().0 != *end {
            return false;
        }
    }
    true
}

fn closes_all<R: Wait>(rt: &R, alloc: Global, mut waiting: KeptMap<Handed>) -> bool {
    let mut told = Vec::<Grave>::new(alloc);
    close_handed_queues(rt, &mut waiting, &mut told);
    let is_right = are_closed(told.as_slice(), &[0, 2]);
    drop(told);
    drop(waiting);
    is_right
}

#[test]
fn queues_wait_and_the_end_closes_them(rt: HostRuntime) {
    let mut own = KeptMap::<Handed>::empty(rt.alloc());
    let shared = Depot::<Handed>::new(rt.alloc());
    let is_right = keeps_queues(&rt, rt.alloc(), &mut own) == Some(true);
    let is_alike = keeps_queues(&rt, rt.alloc(), &mut shared.as_lock()) == Some(true);
    let are_closed = closes_all(&rt, rt.alloc(), own)
        && closes_all(&rt, rt.alloc(), shared.into_map());
    assert!(rt; is_right && is_alike && are_closed);
}
