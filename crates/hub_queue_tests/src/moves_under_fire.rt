//! One thread posts while two others hand the taker to and fro, with an adoption at each turn.
use crate::end::End;
use crate::parts::{are_all_so, open};
use hub_depot::Depot;
use hub_envelope::Envelope;
use hub_queue::{NoPause, Onward, Pause, Point, PostError, Poster, Took};
use hub_test_parts::post_with;
use std::alloc::Global;
use std::sync::{Mutex, Wait};
use std::thread;
use std::thread::Threads;

const BODIES: u64 = 2000;

const ADOPTIONS: u32 = 50;

const POSTS: u32 = 1_000_000;

const TAKES: u32 = 1_000_000;

// How often the taker takes at a turn.
const TAKES_A_TURN: u32 = 100;

// The queue and the number of an envelope, and its body.
type Name = (u32, u64, u64);

// The end, how often it was adopted, and what was taken.
#[derive(Drop)]
struct Turn {
    end: End,
    moves: u32,
    taken: Vec<Name>,
}

// What is posted, how many posts are left, and the names under which drafts were accepted.
#[derive(Drop)]
struct Fire {
    alloc: Global,
    poster: Poster,
    posts: u32,
    accepted: Vec<Name>,
}

// Holds a post before its gate until the end was adopted, so that the gate turns it.
#[derive(Drop)]
struct UntilAdopted<'a> {
    turn: &'a Mutex<Turn>,
}

impl Pause for UntilAdopted<'_> {
    fn at<R: Wait>(&self, rt: &R, point: Point) {
        if point != Point::Before {
            return;
        }
        for _ in rt.forever() {
            if self.turn.lock(rt).moves > 0 {
                return;
            }
            thread::yield_now();
        }
    }
}

fn name_of(envelope: &Envelope) -> Option<Name> {
    let body = envelope.body.text().parse::<u64>().ok()?;
    Some((envelope.epoch, envelope.number, body))
}

impl Fire {
    /// Posts a body until it is accepted, while posts are left.
    fn post<P: Pause, R: Wait>(
        &mut self,
        rt: &R,
        yard: &Depot<Onward>,
        body: u64,
        pause: &P,
    ) -> Option<()> {
        let text = format!(in self.alloc; "{body}").ok()?;
        for _ in 0..self.posts {
            self.posts = self.posts.saturating_sub(1);
            match post_with(rt, self.alloc, yard, &mut self.poster, text.as_str(), pause)? {
                Ok((epoch, number)) => return self.accepted.push((epoch, number, body)).ok(),
                Err(PostError::Moving) => thread::yield_now(),
                Err(_) => return None,
            }
        }
        None
    }

    /// Posts the bodies 0, 1, 2 and so on, the first of them held until the end was adopted.
    fn post_all<P: Pause, R: Wait>(
        &mut self,
        rt: &R,
        yard: &Depot<Onward>,
        first: &P,
    ) -> Option<()> {
        self.post(rt, yard, 0, first)?;
        for body in 1..BODIES {
            self.post(rt, yard, body, &NoPause)?;
        }
        Some(())
    }
}

impl Turn {
    /// Takes once, and keeps the name of what was taken.
    fn take<R: Wait>(&mut self, rt: &R) -> Option<()> {
        match self.end.take(rt) {
            Some(Took::Got(envelope)) => self.taken.push(name_of(&envelope)?).ok(),
            _ => Some(()),
        }
    }

    /// Takes so often, or until all bodies were taken.
    fn take_some<R: Wait>(&mut self, rt: &R, takes: u32) -> Option<()> {
        for _ in 0..takes {
            if self.taken.len() as u64 == BODIES {
                return Some(());
            }
            self.take(rt)?;
        }
        Some(())
    }

    /// Makes a turn where it is due: the end is adopted and started, and its taker takes. Where
    /// that can't be made, none are due any more. Whether the last one was made, once none is due.
    fn next<R: Wait>(&mut self, rt: &R, yard: &Depot<Onward>, mine: u32) -> Option<bool> {
        if self.moves >= ADOPTIONS {
            return Some(true);
        }
        if self.moves % 2 != mine {
            return None;
        }
        self.moves = self.moves.saturating_add(1);
        let is_made = self.end.moves(rt, yard, 1)
            && self.end.start()
            && self.take_some(rt, TAKES_A_TURN).is_some();
        if is_made {
            None
        } else {
            self.moves = ADOPTIONS;
            Some(false)
        }
    }
}

/// Takes every second turn until all are done. Where one can't be made, all are done.
fn take_turns<R: Wait>(rt: &R, yard: &Depot<Onward>, turn: &Mutex<Turn>, mine: u32) -> bool {
    for _ in rt.forever() {
        let next = turn.lock(rt).next(rt, yard, mine);
        if let Some(ended) = next {
            return ended;
        }
        thread::yield_now();
    }
    false
}

/// Two threads take turns, and one fires. Whether each of them came to its end.
fn race<R: Wait + Threads + Sync>(
    rt: &R,
    alloc: Global,
    fire: &Mutex<Fire>,
    turn: &Mutex<Turn>,
) -> bool {
    let yard = Depot::new(alloc);
    let first = UntilAdopted { turn };
    let ended = thread::map_indices(
        rt,
        alloc,
        3,
        &|index| match index {
            0 => take_turns(rt, &yard, turn, 0),
            1 => take_turns(rt, &yard, turn, 1),
            _ => fire.lock(rt).post_all(rt, &yard, &first).is_some(),
        },
    );
    are_all_so(ended)
}

/// A taker is handed to and fro while a line posts. At least its first post is turned.
#[test]
fn moves_under_fire(rt: HostRuntime) {
    let alloc = rt.alloc();
    let Some((taker, poster)) = open(alloc, 1) else {
        panic!(rt; "no mailbox");
    };
    let mut end = End::new(alloc);
    end.put(taker);
    let fire = Mutex::new(Fire {
        alloc,
        poster,
        posts: POSTS,
        accepted: Vec::new(alloc),
    });
    let turn = Mutex::new(Turn {
        end,
        moves: 0,
        taken: Vec::new(alloc),
    });
    assert!(rt; race(&rt, alloc, &fire, &turn));
    let fire = fire.into_inner();
    // The first draft was accepted by a later queue than the one where its line stood.
    assert!(rt; matches!(fire.accepted.first(), Some((1.., 0, 0))));
    let mut turn = turn.into_inner();
    assert!(rt; turn.take_some(&rt, TAKES).is_some());
    assert_eq!(rt; turn.moves, ADOPTIONS);
    assert!(rt; turn.taken.as_slice() == fire.accepted.as_slice());
    drop(turn);
    drop(fire);
}
