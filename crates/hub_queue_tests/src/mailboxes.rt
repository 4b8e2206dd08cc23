//! Single ends, also where an allocation is refused: each call is made again then, once it was seen
//! that all is as it was. Most of what is done with an end is played from step files, by
//! `hub_player`.
use crate::end::Wanted;
use crate::stage::Stage;
use hub_envelope::{EndId, MAX_MOVES};
use hub_queue::{AdoptError, Ends, Swept};
use hub_test_parts::is_message;
use std::alloc::Global;
use std::sync::Wait;

/// Whether the second and the third envelope of the first queue were discarded, in order.
fn are_the_last_two(swept: &Swept) -> bool {
    match swept.envelopes() {
        [second, third] => {
            swept.closed_end_id() == EndId(0)
                && is_message(second, 0, 1, "2")
                && is_message(third, 0, 2, "3")
        }
        _ => false,
    }
}

/// Whether what was not taken is discarded, in order.
fn discards_the_rest<R: Wait>(rt: &R, alloc: Global) -> bool {
    let mut stage = Stage::open(alloc);
    let are_put = stage.accepts(rt, "1", 0, 0)
        && stage.accepts(rt, "2", 0, 1)
        && stage.accepts(rt, "3", 0, 2);
    let is_taken = stage.end.start() && stage.end.takes(rt, "1", &[Wanted::Got(0, 0)]);
    let are_left = stage.end.close()
        && match stage.end.sweep(rt) {
            Some(swept) => are_the_last_two(&swept),
            None => false,
        };
    drop(stage);
    are_put && is_taken && are_left
}

#[test]
fn what_is_left_is_discarded(rt: HostRuntime) {
    assert!(rt; discards_the_rest(&rt, rt.alloc()));
}

/// Whether one queue holds so many envelopes until it is swept.
pub(crate) fn holds<R: Wait>(rt: &R, alloc: Global, count: u32, text: &str) -> bool {
    let mut stage = Stage::open(alloc);
    let is_discarded = stage.fills(rt, 1, count as u64, text)
        && stage.end.close()
        && stage.end.discards(rt, text, count as usize);
    drop(stage);
    is_discarded
}

#[test]
fn one_queue_holds_ten_thousand(rt: HostRuntime) {
    assert!(rt; holds(&rt, rt.alloc(), 10_000, "1"));
}

#[test]
fn ends_are_drawn_once(rt: HostRuntime) {
    let mut ends = Ends::new();
    for number in 0..65_536 {
        assert!(rt; ends.draw() == Some(EndId(number)));
    }
    assert!(rt; ends.draw().is_none());
}

/// Whether a taker is behind by three queues after three adoptions, and by none once it has taken
/// what waits there.
fn takes_from_three_adoptions<R: Wait>(rt: &R, alloc: Global) -> bool {
    let mut stage = Stage::open(alloc);
    let is_adopted = stage.fills(rt, 4, 1, "10");
    let is_behind = stage.end.is_behind(3) && stage.end.start();
    let is_taken = stage.takes_each(rt, 3, "10")
        && stage
            .end
            .takes(rt, "10", &[Wanted::Got(3, 0), Wanted::Empty]);
    let is_last = stage.end.is_behind(0);
    drop(stage);
    is_adopted && is_behind && is_taken && is_last
}

#[test]
fn three_adoptions(rt: HostRuntime) {
    assert!(rt; takes_from_three_adoptions(&rt, rt.alloc()));
}

/// Whether an adoption is refused since the yard keeps the name of the second line from the
/// adoption of another end. The name of the first line was taken out before, and is not left there
/// again.
fn refuses_a_kept_name<R: Wait>(rt: &R, alloc: Global) -> bool {
    let mut stage = Stage::open(alloc);
    stage.reopen(2);
    let is_laid = stage.end.moves(rt, &stage.yard, 1) && stage.gives_onward(rt);
    stage.reopen(2);
    let refused = stage.end.adopt(rt, &stage.yard);
    let is_unmoved = stage.end.is_behind(0) && !stage.gives_onward(rt);
    drop(stage);
    is_laid && matches!(refused, Some(Err(AdoptError::Taken))) && is_unmoved
}

#[test]
fn a_name_that_the_yard_keeps_refuses_the_adoption(rt: HostRuntime) {
    assert!(rt; refuses_a_kept_name(&rt, rt.alloc()));
}

const LEFT: u32 = 40_000;

/// Whether an end is adopted as often as it may be, an envelope waits in each of its queues, and
/// those that were not left are discarded.
fn moves_as_often_as_it_may<R: Wait>(rt: &R, alloc: Global) -> bool {
    let mut stage = Stage::open(alloc);
    let is_adopted = stage.fills(rt, MAX_MOVES + 1, 1, "10");
    let refused = stage.end.adopt(rt, &stage.yard);
    let is_behind = stage.end.is_behind(MAX_MOVES);
    let is_left = stage.end.start() && stage.takes_each(rt, LEFT, "10");
    let is_ahead = stage.end.is_behind(MAX_MOVES - LEFT);
    let is_swept = stage.end.close()
        && match stage.end.sweep(rt) {
            Some(swept) => swept.envelopes().len() == (MAX_MOVES - LEFT + 1) as usize,
            None => false,
        };
    drop(stage);
    let is_refused = matches!(refused, Some(Err(AdoptError::TooManyMoves)));
    is_adopted && is_refused && is_behind && is_left && is_ahead && is_swept
}

#[test]
fn as_many_adoptions_as_there_may_be(rt: HostRuntime) {
    assert!(rt; moves_as_often_as_it_may(&rt, rt.alloc()));
}

#[test]
fn posts_and_sweeps_whichever_allocation_is_refused(rt: HostRuntime) {
    assert!(rt; holds(&rt, rt.alloc(), 40, "[1]"));
}

/// Whether an adoption that was refused for want of memory has left the end as it was: the yard has
/// nothing, and a post goes to the old queue. It is made again then.
fn adopts<R: Wait>(rt: &R, stage: &mut Stage) -> bool {
    match stage.end.adopt(rt, &stage.yard) {
        Some(Err(AdoptError::OutOfMemory)) => {
            stage.end.is_behind(0)
                && !stage.end.empties(rt, &stage.yard)
                && stage.accepts(rt, "[1]", 0, 0)
                && stage.end.moves(rt, &stage.yard, 1)
        }
        adopted => matches!(adopted, Some(Ok(()))),
    }
}

/// Whether an end is moved, and the last envelope of what is swept is that of the new queue.
fn moves_and_sweeps<R: Wait>(rt: &R, alloc: Global) -> bool {
    let mut stage = Stage::open(alloc);
    let is_moved = adopts(rt, &mut stage)
        && stage.end.is_behind(1)
        && stage.accepts(rt, "[1]", 1, 0);
    let is_swept = stage.end.close()
        && match stage.end.sweep(rt) {
            Some(swept) => match swept.envelopes().last() {
                Some(envelope) => envelope.epoch == 1,
                None => false,
            },
            None => false,
        };
    drop(stage);
    is_moved && is_swept
}

#[test]
fn moves_and_sweeps_whichever_allocation_is_refused(rt: HostRuntime) {
    assert!(rt; moves_and_sweeps(&rt, rt.alloc()));
}
