//! What the tests make their mailboxes of, and posts.
use hub_depot::Depot;
use hub_envelope::{EndId, MAX_LINES};
use hub_queue::{Mailbox, Onward, PostError, Poster, Taker};
use hub_test_parts::{bell, post};
use std::alloc::{AllocError, Global};
use std::sync::Wait;

fn try_open(alloc: Global, lines: u8) -> Option<(Taker, Poster)> {
    if lines == 0 || lines as usize > MAX_LINES {
        return None;
    }
    let Some(bell) = bell(alloc) else {
        return None;
    };
    let Ok((taker, mut posters)) = Mailbox::open(alloc, EndId(0), lines, bell) else {
        return None;
    };
    let last = posters.pop();
    drop(posters);
    match last {
        Some(poster) => Some((taker, poster)),
        None => {
            drop(taker);
            None
        }
    }
}

/// A mailbox of the end 0 with so many lines: its taker, and the poster of its last line. It is
/// made again where an allocation was refused.
pub(crate) fn open(alloc: Global, lines: u8) -> Option<(Taker, Poster)> {
    match try_open(alloc, lines) {
        Some(parts) => Some(parts),
        None => try_open(alloc, lines),
    }
}

/// Whether a text that is posted over a line is accepted under this epoch and number. It is posted
/// once more where there was no memory and its draft came back.
pub(crate) fn accepts<R: Wait>(
    rt: &R,
    alloc: Global,
    yard: &Depot<Onward>,
    poster: &mut Poster,
    text: &str,
    name: (u32, u64),
) -> bool {
    let posting = match post(rt, alloc, yard, poster, text) {
        Some(Err(PostError::OutOfMemory)) => post(rt, alloc, yard, poster, text),
        posting => posting,
    };
    match posting {
        Some(Ok((epoch, number))) => epoch == name.0 && number == name.1,
        _ => false,
    }
}

/// Whether each of the threads came to its end as it is to.
pub(crate) fn are_all_so(ended: Result<Vec<bool>, AllocError>) -> bool {
    match ended {
        Ok(ended) => !ended.as_slice().contains(&false),
        Err(_) => false,
    }
}
