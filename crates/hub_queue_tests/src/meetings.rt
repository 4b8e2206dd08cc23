ghost use Rattle.std.specs.Prelude.{◌≡◌};
ghost use Rattle.hub_queue.specs.Meetings.{AreTogether};

use hub_depot::Depot;
use hub_envelope::EndId;
use hub_queue::{Mailbox, Meeting, Onward, Poster, Steps, Taker, Took, meet};
use hub_test_parts::{bell, post};
use std::alloc::Global;
use std::marker::Brand;
use std::process::Abort;
use std::sync::Wait;
use std::sync::ledger::{Blank, Ledger};

/// A mailbox of this end with one line.
fn opened<R: Abort>(rt: &R, alloc: Global, end: EndId) -> (Taker, Poster)
    ensures together { AreTogether result.1 result.0 }
    ensures ends { (result.1.name.end ≡ end) × (result.0.end ≡ end.0) }
{
    let Some(bell) = bell(alloc) else {
        panic!(rt; "no bell");
    };
    let Ok((taker, mut posters)) = Mailbox::open(alloc, end, 1, bell) else {
        panic!(rt; "no mailbox");
    };
    let Some(poster) = posters.pop() else {
        panic!(rt; "no poster");
    };
    drop(posters);
    (taker, poster)
}

/// Posts one draft at the taker's end, and it is accepted.
fn post_one<R: Abort + Wait>(
    rt: &R,
    alloc: Global,
    yard: &Depot<Onward>,
    poster: &mut Poster,
    taker: &Taker,
)
    requires { AreTogether poster.old taker.now }
    ensures { AreTogether poster.new taker.now }
{
    let _ = taker;
    match post(rt, alloc, yard, poster, "7") {
        Some(Ok(_)) => {}
        _ => panic!(rt; "a post was refused"),
    }
}

fn start(taker: &mut Taker, poster: &Poster)
    requires { AreTogether poster.now taker.old }
    ensures { AreTogether poster.now taker.new }
{
    let _ = poster;
    taker.start();
}

/// Takes one envelope of the poster's end.
fn take_one<L: Ledger, R: Abort + Wait>(
    rt: &R,
    taker: &mut Taker,
    poster: &Poster,
    steps: &mut Steps<L>,
)
    requires { AreTogether poster.now taker.old }
    ensures { AreTogether poster.now taker.new }
{
    let _ = poster;
    match taker.take(rt, steps) {
        Took::Got(envelope) => drop(envelope),
        _ => panic!(rt; "nothing was taken"),
    }
}

/// Posts three drafts and takes two of them.
fn meets<L: Ledger, R: Abort + Wait>(
    rt: &R,
    alloc: Global,
    taker: &mut Taker,
    poster: &mut Poster,
    blank: Blank,
)
    requires together { AreTogether poster.old taker.old }
    requires blank { (blank.name ≡ L.name) × (blank.parts ≡ L.parts) × (L.parts ≡ 2) }
{
    let yard = Depot::new(alloc);
    let mut steps = Steps::<L>::new_at_zero(blank);
    post_one(rt, alloc, &yard, poster, taker);
    post_one(rt, alloc, &yard, poster, taker);
    post_one(rt, alloc, &yard, poster, taker);
    start(taker, poster);
    take_one(rt, taker, poster, &mut steps);
    take_one(rt, taker, poster, &mut steps);
    assert!(rt; meet(rt, poster, taker) == Meeting::Met { put: 3, got: 2 });
}

#[test]
fn a_poster_meets_its_taker(rt: HostRuntime) {
    let (mut taker, mut poster) = opened(&rt, rt.alloc(), EndId(0));
    meets::<Brand, _>(&rt, rt.alloc(), &mut taker, &mut poster, Blank::new(2));
    drop(taker);
    drop(poster);
}

#[test]
fn nothing_put_is_met(rt: HostRuntime) {
    let (mut taker, mut poster) = opened(&rt, rt.alloc(), EndId(0));
    assert!(rt; meet(&rt, &mut poster, &mut taker) == Meeting::Met { put: 0, got: 0 });
    drop(taker);
    drop(poster);
}

#[test]
fn strangers_do_not_meet(rt: HostRuntime) {
    let (taker, mut poster) = opened(&rt, rt.alloc(), EndId(0));
    let (mut other, stranger) = opened(&rt, rt.alloc(), EndId(1));
    assert!(rt; meet(&rt, &mut poster, &mut other) == Meeting::Strangers);
    drop(taker);
    drop(poster);
    drop(other);
    drop(stranger);
}

/// Moves the end on.
fn adopt_one<R: Abort + Wait>(
    rt: &R,
    alloc: Global,
    yard: &Depot<Onward>,
    taker: Taker,
    poster: &Poster,
) -> Taker
    requires { AreTogether poster.now taker }
    ensures { AreTogether poster.now result }
{
    let _ = poster;
    let Some(bell) = bell(alloc) else {
        panic!(rt; "no bell");
    };
    match taker.adopt(rt, yard, bell) {
        Ok(moved) => moved,
        Err((_, taker)) => {
            drop(taker);
            panic!(rt; "an adoption was refused")
        }
    }
}

/// Posts from the old queue, where the poster is turned, and so goes on to a later queue than the
/// taker's.
fn goes_on<R: Abort + Wait>(
    rt: &R,
    alloc: Global,
    yard: &Depot<Onward>,
    taker: &mut Taker,
    poster: &mut Poster,
)
    requires { AreTogether poster.old taker.old }
{
    assert!(rt; meet(rt, poster, taker) == Meeting::Turned);
    post_one(rt, alloc, yard, poster, taker);
    assert!(rt; meet(rt, poster, taker) == Meeting::Strangers);
}

#[test]
fn a_poster_that_went_on_is_a_stranger(rt: HostRuntime) {
    let yard = Depot::new(rt.alloc());
    let (taker, mut poster) = opened(&rt, rt.alloc(), EndId(0));
    let mut taker = adopt_one(&rt, rt.alloc(), &yard, taker, &poster);
    goes_on(&rt, rt.alloc(), &yard, &mut taker, &mut poster);
    drop(taker);
    drop(poster);
}
