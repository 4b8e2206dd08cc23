ghost use Rattle.hub_line.specs.Ends.{SamePoster, SameTaker};

use hub_line::{LinePoster, LineTaken, LineTaker, NotPosted, open_line};
use std::sync::Arc;
use std::sync::atomic::{AtomicU64, Ordering};
use std::test::Fail;

/// An item that counts how often one like it was dropped.
pub struct Counted {
    pub drops: Arc<AtomicU64>,
}

impl Drop for Counted {
    fn drop(self) {
        let Counted { drops } = self;
        drops.fetch_add(1, Ordering::SeqCst);
    }
}

/// Takes as many items, which have these numbers.
fn takes(taker: &mut LineTaker<u64>, from: u64, to: u64) -> bool
    ensures { SameTaker taker.old taker.new }
{
    for n in from..to {
        match taker.take() {
            LineTaken::Item(got) if got == n => {}
            _ => return false,
        }
    }
    true
}

fn posts(poster: &mut LinePoster<u64>, from: u64, to: u64) -> bool
    ensures { SamePoster poster.old poster.new }
{
    for n in from..to {
        if poster.post(n).is_err() {
            return false;
        }
    }
    true
}

#[test]
fn a_line_grows_and_ends(rt: HostRuntime) -> Result<(), Fail> {
    let (mut poster, mut taker) = open_line(rt.alloc())?;
    assert!(rt; matches!(taker.take(), LineTaken::Empty));
    assert!(rt; posts(&mut poster, 0, 10_000));
    assert!(rt; takes(&mut taker, 0, 10_000));
    assert!(rt; matches!(taker.take(), LineTaken::Empty));
    assert!(rt; posts(&mut poster, 0, 1));
    drop(poster);
    assert!(rt; takes(&mut taker, 0, 1));
    assert!(rt; matches!(taker.take(), LineTaken::Ended));
    assert!(rt; matches!(taker.take(), LineTaken::Ended));
    Ok(())
}

/// A dropped poster ends the line: no contract says so.
#[test]
fn a_dropped_poster_ends_an_empty_line(rt: HostRuntime) -> Result<(), Fail> {
    let (poster, mut taker) = open_line::<u64>(rt.alloc())?;
    assert!(rt; !taker.has_item_or_end());
    drop(poster);
    assert!(rt; taker.has_item_or_end());
    assert!(rt; matches!(taker.take(), LineTaken::Ended));
    Ok(())
}

/// A large ring that was found empty is given up, and nothing is lost, time after time.
#[test]
fn a_line_that_was_behind_goes_on_in_a_small_ring(rt: HostRuntime) -> Result<(), Fail> {
    let (mut poster, mut taker) = open_line(rt.alloc())?;
    for round in 0..40u64 {
        let from = round.wrapping_mul(2_000);
        let to = from.wrapping_add(2_000);
        assert!(rt; posts(&mut poster, from, to));
        assert!(rt; takes(&mut taker, from, to));
        assert!(rt; matches!(taker.take(), LineTaken::Empty));
    }
    Ok(())
}

#[test]
fn both_ends_know_what_waits(rt: HostRuntime) -> Result<(), Fail> {
    let (mut poster, mut taker) = open_line(rt.alloc())?;
    assert_eq!(rt;
        taker.count_waiting_between_poster_and_taker(&mut poster),
        Some(0)
    );
    assert!(rt; posts(&mut poster, 0, 16));
    assert_eq!(rt;
        taker.count_waiting_between_poster_and_taker(&mut poster),
        Some(16)
    );
    assert!(rt; posts(&mut poster, 16, 17));
    assert_eq!(rt;
        taker.count_waiting_between_poster_and_taker(&mut poster),
        None
    );
    assert!(rt; takes(&mut taker, 0, 16));
    assert!(rt; taker.has_item_or_end());
    assert_eq!(rt;
        taker.count_waiting_between_poster_and_taker(&mut poster),
        Some(1)
    );
    Ok(())
}

/// What was posted at a closed line is handed back, up to the end, which the poster's next call
/// sends.
#[test]
fn a_closed_line_hands_back_what_was_posted(rt: HostRuntime) -> Result<(), Fail> {
    for posted in [0u64, 1, 16, 17, 300] {
        let (mut poster, mut taker) = open_line(rt.alloc())?;
        assert!(rt; posts(&mut poster, 0, posted));
        let taken = posted / 3;
        assert!(rt; takes(&mut taker, 0, taken));
        let mut grave = taker.close();
        for n in taken..posted {
            assert!(rt; matches!(grave.take_leftover(), LineTaken::Item(got) if got == n));
        }
        assert!(rt; matches!(grave.take_leftover(), LineTaken::Empty));
        assert!(rt; matches!(poster.post(posted), Err((NotPosted::Closed, n)) if n == posted));
        assert!(rt; matches!(poster.post(posted), Err((NotPosted::Closed, _))));
        assert!(rt; matches!(grave.take_leftover(), LineTaken::Ended));
        assert!(rt; matches!(grave.take_leftover(), LineTaken::Ended));
    }
    Ok(())
}

#[test]
fn a_poster_that_asks_ends_a_closed_line(rt: HostRuntime) -> Result<(), Fail> {
    let (mut poster, taker) = open_line::<u64>(rt.alloc())?;
    assert!(rt; !poster.end_if_closed_by_taker());
    let mut grave = taker.close();
    assert!(rt; matches!(grave.take_leftover(), LineTaken::Empty));
    assert!(rt; poster.end_if_closed_by_taker());
    assert!(rt; matches!(grave.take_leftover(), LineTaken::Ended));
    Ok(())
}

/// Each item is dropped once: taken, waiting in a line without taker, or refused.
#[test]
fn a_line_without_taker_refuses(rt: HostRuntime) -> Result<(), Fail> {
    let drops = Arc::new(rt.alloc(), AtomicU64::new(0))?;
    let (mut poster, mut taker) = open_line(rt.alloc())?;
    for _ in 0..200 {
        let item = Counted {
            drops: Arc::try_clone(&drops)?,
        };
        assert!(rt; poster.post(item).is_ok());
    }
    for _ in 0..30 {
        assert!(rt; matches!(taker.take(), LineTaken::Item(_)));
    }
    assert_eq!(rt; drops.load(Ordering::SeqCst), 30);
    drop(taker);
    let item = Counted {
        drops: Arc::try_clone(&drops)?,
    };
    assert!(rt; matches!(poster.post(item), Err((NotPosted::Closed, _))));
    drop(poster);
    assert_eq!(rt; drops.load(Ordering::SeqCst), 201);
    Ok(())
}
