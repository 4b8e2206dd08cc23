use crate::lines::Counted;
use hub_channel::{ChannelPort, PortTaken, new_pair_of_channel_ports};
use hub_line::{LineGrave, LinePoster, LineTaken, LineTaker, open_line};
use std::sync::atomic::{AtomicU64, Ordering};
use std::sync::{Arc, Wait};
use std::test::Fail;
use std::thread;

fn post_all(mut poster: LinePoster<u64>, count: u64) -> bool {
    for n in 0..count {
        if poster.post(n).is_err() {
            return false;
        }
    }
    true
}

/// How many items came, which were numbered in order.
fn take_all<R: Wait>(rt: &R, mut taker: LineTaker<u64>) -> Option<u64> {
    let mut next = 0u64;
    for _ in rt.forever() {
        match taker.take() {
            LineTaken::Item(n) if n == next => next = next.wrapping_add(1),
            LineTaken::Item(_) => return None,
            LineTaken::Empty => thread::yield_now(),
            LineTaken::Ended => break,
        }
    }
    Some(next)
}

#[test]
fn two_threads_keep_the_order(rt: HostRuntime) -> Result<(), Fail> {
    for count in [0u64, 1, 15, 16, 17, 100_000] {
        for _ in 0..10 {
            let (poster, taker) = open_line(rt.alloc())?;
            let rt = &rt;
            let (posted, taken) = thread::join(
                rt,
                || post_all(poster, count),
                || take_all(rt, taker),
            );
            assert!(rt; posted);
            assert_eq!(rt; taken, Some(count));
        }
    }
    Ok(())
}

fn post_until_refused<R: Wait>(rt: &R, mut poster: LinePoster<u64>) -> u64 {
    let mut posted = 0u64;
    for _ in rt.forever() {
        if poster.post(posted).is_err() {
            break;
        }
        posted = posted.wrapping_add(1);
    }
    posted
}

/// Takes some, closes the line, and drains it: how many came in all, in order.
fn close_behind<R: Wait>(rt: &R, mut taker: LineTaker<u64>, most: u64) -> Option<u64> {
    let mut next = 0u64;
    for _ in rt.forever() {
        if next >= most {
            break;
        }
        match taker.take() {
            LineTaken::Item(n) if n == next => next = next.wrapping_add(1),
            LineTaken::Item(_) => return None,
            LineTaken::Empty => thread::yield_now(),
            LineTaken::Ended => return None,
        }
    }
    drain(rt, taker.close(), next)
}

fn drain<R: Wait>(rt: &R, mut grave: LineGrave<u64>, from: u64) -> Option<u64> {
    let mut next = from;
    for _ in rt.forever() {
        match grave.take_leftover() {
            LineTaken::Item(n) if n == next => next = next.wrapping_add(1),
            LineTaken::Item(_) => return None,
            LineTaken::Empty => thread::yield_now(),
            LineTaken::Ended => break,
        }
    }
    Some(next)
}

/// Each item is taken, handed back or refused, once, however a close falls beside the posts.
#[test]
fn a_line_is_closed_beside_posts(rt: HostRuntime) -> Result<(), Fail> {
    for round in 0..2_000u64 {
        let (poster, taker) = open_line(rt.alloc())?;
        let rt = &rt;
        let (posted, came) = thread::join(
            rt,
            || post_until_refused(rt, poster),
            || close_behind(rt, taker, round % 200),
        );
        assert_eq!(rt; came, Some(posted));
    }
    Ok(())
}

#[test]
fn both_ends_are_dropped_at_once(rt: HostRuntime) -> Result<(), Fail> {
    let drops = Arc::new(rt.alloc(), AtomicU64::new(0))?;
    for round in 0..500u32 {
        let (mut poster, taker) = open_line(rt.alloc())?;
        for _ in 0..round % 100 {
            let item = Counted {
                drops: Arc::try_clone(&drops)?,
            };
            assert!(rt; poster.post(item).is_ok());
        }
        thread::join(&rt, move || drop(poster), move || drop(taker));
    }
    assert_eq!(rt; drops.load(Ordering::SeqCst), 5 * 4_950);
    Ok(())
}

/// Sends back what comes, until the peer is closed.
fn echo<R: Wait>(rt: &R, mut port: ChannelPort<u64>) -> u64 {
    let mut count = 0u64;
    port.start();
    for _ in rt.forever() {
        match port.take() {
            PortTaken::Message(n) => {
                if port.post(n).is_ok() {
                    count = count.wrapping_add(1);
                }
            }
            PortTaken::Empty => thread::yield_now(),
            PortTaken::Ended | PortTaken::Disabled => break,
        }
    }
    count
}

fn ask<R: Wait>(rt: &R, mut port: ChannelPort<u64>, count: u64) -> u64 {
    let mut next = 0u64;
    port.start();
    for n in 0..count {
        if port.post(n).is_err() {
            return 0;
        }
    }
    for _ in rt.forever() {
        if next == count {
            break;
        }
        match port.take() {
            PortTaken::Message(n) if n == next => next = next.wrapping_add(1),
            PortTaken::Empty => thread::yield_now(),
            _ => break,
        }
    }
    next
}

// One thread's end of a channel.
#[derive(Drop)]
enum Side {
    Asks(ChannelPort<u64>),
    Echoes(ChannelPort<u64>),
}

fn run<R: Wait>(rt: &R, side: Side, count: u64) -> u64 {
    match side {
        Side::Asks(port) => ask(rt, port, count),
        Side::Echoes(port) => echo(rt, port),
    }
}

#[test]
fn messages_go_to_and_fro(rt: HostRuntime) -> Result<(), Fail> {
    for count in [1u64, 100, 20_000] {
        let (left, right) = new_pair_of_channel_ports(rt.alloc(), 1)?;
        let rt = &rt;
        let (came, echoed) = thread::join(rt, || ask(rt, left, count), || echo(rt, right));
        assert_eq!(rt; (came, echoed), (count, count));
    }
    Ok(())
}

#[test]
fn many_threads_ask_and_echo(rt: HostRuntime) -> Result<(), Fail> {
    for threads in [4usize, 16] {
        let mut sides = Vec::new(rt.alloc());
        for n in 0..threads / 2 {
            let (left, right) = new_pair_of_channel_ports(rt.alloc(), n as u64)?;
            sides.push(Side::Asks(left))?;
            sides.push(Side::Echoes(right))?;
        }
        let counts = thread::map_vec(&rt, sides, &|side| run(&rt, side, 2_000)).expect(
            &rt, "memory",
        );
        assert_eq!(rt; counts.len(), threads);
        for count in &counts {
            assert_eq!(rt; *count, 2_000);
        }
    }
    Ok(())
}
