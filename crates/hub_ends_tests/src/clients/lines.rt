//! Lines that the directory lends, where step files can't show them.
use crate::clients::{client, lost_line, worker};
use hub_clients::{ClientQueue, Directory, DirectoryError, WorkerQueue};
use hub_depot::Depot;
use hub_envelope::{EndId, MAX_LINES};
use hub_queue::{Ends, Mailbox, Onward, PostError, Poster, Took};
use hub_test_parts::{Posting, bell, is_message, post, take};
use std::alloc::Global;
use std::sync::Wait;

/// Whether each line of the queue 0 is lent once, in order, though it is lost at once.
fn lends_each_once<R: Wait>(rt: &R, directory: &Directory) -> bool {
    for line in 0..MAX_LINES as u8 {
        match lost_line(rt, directory, 0) {
            Ok(lent) if lent == line => {}
            _ => return false,
        }
    }
    matches!(lost_line(rt, directory, 0), Err(DirectoryError::NoLine))
}

#[test]
fn a_lost_line_is_never_lent_again(rt: HostRuntime) {
    let directory = Directory::new(rt.alloc());
    let queue = client(&rt, rt.alloc(), &directory, &mut Ends::new());
    let is_right = queue.is_some() && lends_each_once(&rt, &directory);
    drop(queue);
    drop(directory);
    assert!(rt; is_right);
}

/// A poster of a mailbox of its own.
fn stranger(alloc: Global, end: EndId) -> Option<Poster> {
    let (_taker, mut posters) = Mailbox::open(alloc, end, 1, bell(alloc)?).ok()?;
    posters.pop()
}

/// Whether a poster of another mailbox of that number comes back.
fn refuses_stranger<R: Wait>(rt: &R, alloc: Global, directory: &Directory, end: u32) -> bool {
    let Some(poster) = stranger(alloc, EndId(end)) else {
        return false;
    };
    match directory.give_back(rt, poster) {
        Ok(()) => false,
        Err(back) => {
            let is_same = back.name().end.0 == end;
            drop(back);
            is_same
        }
    }
}

#[test]
fn only_a_line_that_is_out_is_given_back(rt: HostRuntime) {
    let directory = Directory::new(rt.alloc());
    let queue = client(&rt, rt.alloc(), &directory, &mut Ends::new());
    let is_right = queue.is_some()
        && refuses_stranger(&rt, rt.alloc(), &directory, 0)
        && refuses_stranger(&rt, rt.alloc(), &directory, 7);
    drop(queue);
    drop(directory);
    assert!(rt; is_right);
}

/// What a post over a line to the queue of this number comes to. The line is given back.
fn post_at<R: Wait>(rt: &R, alloc: Global, directory: &Directory, end: u32) -> Option<Posting> {
    let yard = Depot::<Onward>::new(alloc);
    let mut poster = directory.line_to(rt, EndId(end)).ok()?;
    let posting = post(rt, alloc, &yard, &mut poster, "1");
    match directory.give_back(rt, poster) {
        Ok(()) => posting,
        Err(back) => {
            drop(back);
            None
        }
    }
}

fn takes_first<R: Wait>(rt: &R, queue: Option<WorkerQueue>) -> bool {
    let Some(mut queue) = queue else {
        return false;
    };
    let is_first = match take(rt, &mut queue) {
        Took::Got(envelope) => is_message(&envelope, 0, 0, "1"),
        _ => false,
    };
    drop(queue);
    is_first
}

fn close(queue: Option<ClientQueue>) -> bool {
    match queue {
        Some(queue) => {
            drop(queue.close());
            true
        }
        None => false,
    }
}

/// Whether the queues 7 and 1, made in this order, are found each under its number.
fn finds_each<R: Wait>(rt: &R, alloc: Global, directory: &Directory) -> bool {
    let seventh = client(rt, alloc, directory, &mut Ends { drawn: 7 });
    let first = worker(rt, alloc, directory, &mut Ends { drawn: 1 });
    let is_posted = matches!(post_at(rt, alloc, directory, 1), Some(Ok((0, 0))));
    let is_taken = takes_first(rt, first);
    let is_closed = close(seventh);
    let refused = post_at(rt, alloc, directory, 7);
    let is_missing = matches!(lost_line(rt, directory, 2), Err(DirectoryError::NoSuchEnd));
    is_posted
        && is_taken
        && is_closed
        && is_missing
        && matches!(refused, Some(Err(PostError::Closed)))
}

#[test]
fn each_queue_is_found_under_its_number(rt: HostRuntime) {
    let directory = Directory::new(rt.alloc());
    let are_found = finds_each(&rt, rt.alloc(), &directory);
    drop(directory);
    assert!(rt; are_found);
}
