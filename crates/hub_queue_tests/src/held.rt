//! A poster is held up at a point of its post, while something is done with its end.
use crate::end::{End, Wanted};
use crate::stage::Stage;
use hub_depot::Depot;
use hub_queue::{Onward, Pause, Point, PostError};
use hub_test_parts::{Posting, post_with};
use std::alloc::Global;
use std::sync::{Mutex, Wait};

// What is done with an end meanwhile.
#[derive(Clone, Copy)]
enum Meanwhile {
    // It is closed.
    Closes,
    // It is closed, and a sweep finds somebody inside.
    ClosesOnSomebody,
    // It is adopted so often and started, and its takes come to these.
    Moves(u32, &'static [Wanted]),
    // The yard gives what it keeps.
    EmptiesYard,
}

// An end, and whether what was done with it came to what it is to come to, once it was done.
#[derive(Drop)]
struct Held<'a> {
    end: &'a mut End,
    is_as_told: Option<bool>,
}

// Acts at this point of a post, once.
#[derive(Drop)]
struct At<'a> {
    yard: &'a Depot<Onward>,
    point: Point,
    meanwhile: Meanwhile,
    held: Mutex<Held<'a>>,
}

/// Does what is to be done. Whether it came to what it is to come to.
fn act<R: Wait>(rt: &R, yard: &Depot<Onward>, meanwhile: &Meanwhile, end: &mut End) -> bool {
    match meanwhile {
        Meanwhile::Closes => end.close(),
        Meanwhile::ClosesOnSomebody => end.close() && end.sweep(rt).is_none(),
        Meanwhile::Moves(adoptions, wanted) => {
            end.moves(rt, yard, *adoptions) && end.start() && end.takes(rt, "5", wanted)
        }
        Meanwhile::EmptiesYard => end.empties(rt, yard),
    }
}

impl Pause for At<'_> {
    fn at<R: Wait>(&self, rt: &R, point: Point) {
        if point != self.point {
            return;
        }
        let mut held = self.held.lock(rt);
        if held.is_as_told.is_none() {
            let is_as_told = act(rt, self.yard, &self.meanwhile, &mut *held.end);
            held.is_as_told = Some(is_as_told);
        }
    }
}

/// Posts a text, held up at a point. `None` where what was done meanwhile came to something else.
fn post_held<R: Wait>(
    rt: &R,
    stage: &mut Stage,
    point: Point,
    meanwhile: Meanwhile,
) -> Option<Posting> {
    let alloc = stage.alloc;
    let poster = match &mut stage.poster {
        Some(poster) => poster,
        None => return None,
    };
    let pause = At {
        yard: &stage.yard,
        point,
        meanwhile,
        held: Mutex::new(Held {
            end: &mut stage.end,
            is_as_told: None,
        }),
    };
    let posting = post_with(rt, alloc, &stage.yard, poster, "5", &pause);
    let is_as_told = pause.held.into_inner().is_as_told;
    if is_as_told == Some(true) {
        posting
    } else {
        None
    }
}

// What is seen once the post was made.
#[derive(Clone, Copy)]
enum After {
    // A sweep discards so many envelopes.
    Discards(usize),
    // Takes come to these.
    Takes(&'static [Wanted]),
    // The yard has again what it gave, and another post is accepted by the second queue.
    Accepts,
}

// How often an end is adopted before a post, where that is held up, what is done meanwhile, what
// the post comes to, and what is seen then.
#[derive(Clone, Copy)]
struct Row {
    adoptions: u32,
    point: Point,
    meanwhile: Meanwhile,
    posting: Posting,
    after: After,
}

const ROWS: [Row; 8] = [
    // A post before a closed gate is refused.
    Row {
        adoptions: 0,
        point: Point::Before,
        meanwhile: Meanwhile::Closes,
        posting: Err(PostError::Closed),
        after: After::Discards(0),
    },
    // An end is closed before a hop.
    Row {
        adoptions: 1,
        point: Point::Hopping,
        meanwhile: Meanwhile::Closes,
        posting: Err(PostError::Closed),
        after: After::Discards(0),
    },
    // A post inside a closed gate is discarded.
    Row {
        adoptions: 0,
        point: Point::Inside,
        meanwhile: Meanwhile::ClosesOnSomebody,
        posting: Ok((0, 0)),
        after: After::Discards(1),
    },
    // A post before an adopted gate goes on.
    Row {
        adoptions: 0,
        point: Point::Before,
        meanwhile: Meanwhile::Moves(1, &[]),
        posting: Ok((1, 0)),
        after: After::Takes(&[Wanted::Left, Wanted::Got(1, 0), Wanted::Empty]),
    },
    // A sleeping poster keeps the taker.
    Row {
        adoptions: 0,
        point: Point::Inside,
        meanwhile: Meanwhile::Moves(1, &[Wanted::Busy]),
        posting: Ok((0, 0)),
        after: After::Takes(&[Wanted::Got(0, 0), Wanted::Left, Wanted::Empty]),
    },
    // A post inside is taken before two later queues.
    Row {
        adoptions: 0,
        point: Point::Inside,
        meanwhile: Meanwhile::Moves(2, &[Wanted::Busy]),
        posting: Ok((0, 0)),
        after: After::Takes(&[Wanted::Got(0, 0), Wanted::Left, Wanted::Left, Wanted::Empty]),
    },
    // A pushed envelope is taken while its poster is inside.
    Row {
        adoptions: 0,
        point: Point::Pushed,
        meanwhile: Meanwhile::Moves(1, &[Wanted::Got(0, 0), Wanted::Busy]),
        posting: Ok((0, 0)),
        after: After::Takes(&[Wanted::Left, Wanted::Empty]),
    },
    // A post that finds the yard empty is refused, and another is accepted once the yard has again
    // what it kept.
    Row {
        adoptions: 1,
        point: Point::Hopping,
        meanwhile: Meanwhile::EmptiesYard,
        posting: Err(PostError::Moving),
        after: After::Accepts,
    },
];

/// Whether a post that is held up comes to what the row says.
fn is_so<R: Wait>(rt: &R, alloc: Global, row: Row) -> bool {
    let mut stage = Stage::open(alloc);
    let is_moved = stage.end.moves(rt, &stage.yard, row.adoptions);
    let posted = post_held(rt, &mut stage, row.point, row.meanwhile);
    let is_seen = match row.after {
        After::Discards(count) => stage.end.discards(rt, "5", count),
        After::Takes(wanted) => stage.end.takes(rt, "5", wanted),
        After::Accepts => { stage.end.gives_back(rt, &stage.yard) && stage.accepts(rt, "7", 1, 0) }
    };
    drop(stage);
    is_moved && is_seen && posted == Some(row.posting)
}

#[test]
fn a_poster_is_held_up(rt: HostRuntime) {
    for row in 0..ROWS.len() {
        assert!(rt; is_so(&rt, rt.alloc(), ROWS[row]), "row {row}");
    }
}
