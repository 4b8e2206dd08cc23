use crate::parts::{accepts, are_all_so};
use hub_depot::Depot;
use hub_envelope::{EndId, Envelope};
use hub_queue::{Mailbox, Onward, Poster, Taker, Took};
use hub_test_parts::{bell, take};
use std::alloc::Global;
use std::sync::{Mutex, Wait};
use std::thread;
use std::thread::Threads;

const EACH: u64 = 1000;

const LINES: u8 = 4;

/// Posts so many drafts. Whether all were accepted, in order.
fn post_all<R: Wait>(rt: &R, alloc: Global, yard: &Depot<Onward>, mut poster: Poster) -> bool {
    let mut in_order = true;
    for number in 0..EACH {
        in_order = in_order && accepts(rt, alloc, yard, &mut poster, "null", (0, number));
    }
    drop(poster);
    in_order
}

/// Whether this envelope has its line's next number.
fn is_next(envelope: &Envelope, next: &mut [u64; 4]) -> bool {
    let line = envelope.line.0 as usize;
    if line >= 4 || envelope.number != next[line] {
        return false;
    }
    next[line] = next[line].wrapping_add(1);
    true
}

/// Takes what all lines post. Whether the numbers of each came in order, and nothing came after.
fn take_all<R: Wait>(rt: &R, taker: &mut Taker) -> bool {
    let mut next = [0u64; 4];
    let mut left = EACH * LINES as u64;
    for _ in 0..10_000_000 {
        if left == 0 {
            return matches!(take(rt, taker), Took::Empty);
        }
        match take(rt, taker) {
            Took::Got(envelope) => {
                if !is_next(&envelope, &mut next) {
                    return false;
                }
                left -= 1;
            }
            Took::Empty => thread::yield_now(),
            _ => return false,
        }
    }
    false
}

/// One thread takes, and each other one posts over a line of its own. Whether all that was posted
/// was accepted and taken, in order.
fn run<R: Wait + Threads + Sync>(
    rt: &R,
    alloc: Global,
    taker: &Mutex<Taker>,
    posters: &Mutex<Vec<Poster>>,
) -> bool {
    let yard = Depot::new(alloc);
    let ended = thread::map_indices(
        rt,
        alloc,
        5,
        &|index| {
            if index == 0 {
                return take_all(rt, &mut *taker.lock(rt));
            }
            let poster = posters.lock(rt).pop();
            match poster {
                Some(poster) => post_all(rt, alloc, &yard, poster),
                None => false,
            }
        },
    );
    are_all_so(ended)
}

fn posts_and_takes<R: Wait + Threads + Sync>(rt: &R, alloc: Global) -> bool {
    let Some(bell) = bell(alloc) else {
        return false;
    };
    let Ok((mut taker, posters)) = Mailbox::open(alloc, EndId(0), LINES, bell) else {
        return false;
    };
    taker.start();
    let (taker, posters) = (Mutex::new(taker), Mutex::new(posters));
    let are_in_order = run(rt, alloc, &taker, &posters);
    drop(taker);
    drop(posters);
    are_in_order
}

#[test]
fn four_posters(rt: HostRuntime) {
    assert!(rt; posts_and_takes(&rt, rt.alloc()));
}
