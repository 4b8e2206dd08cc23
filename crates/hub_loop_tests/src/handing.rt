//! A client's queue is handed on while a post over one of its lines is held up.
use crate::parts::{Name, Shared, delivers, holds, is_idle, open};
use hub_envelope::{AgentId, EndId};
use hub_loop::Held;
use hub_queue::{Ends, Pause, Point, Poster};
use hub_test_parts::{Loop, bell, post, post_with};
use std::alloc::Global;
use std::sync::{Mutex, Wait};

// Queue 0 goes from agent 0 to agent 3 on this stage.
struct Stage<'s> {
    shared: &'s Shared,
    from: Loop,
    to: Loop,
    // A line to the queue beside that of the post that is held up, and one to the worker's queue 1
    // of agent 3.
    line: Poster,
    other: Poster,
    // Whether queue 1 is to be busy meanwhile.
    is_beside: bool,
    // Whether what was done meanwhile came to what it is to.
    is_right: bool,
}

// By hand, so that whoever drops one makes one call.
impl Drop for Stage<'_> {
    fn drop(self) {
        let Stage {
            shared: _,
            from,
            to,
            line,
            other,
            is_beside: _,
            is_right: _,
        } = self;
        drop(from);
        drop(to);
        drop(line);
        drop(other);
    }
}

// What is done while a post is inside.
#[derive(Drop)]
struct Meanwhile<'s> {
    stage: Mutex<Stage<'s>>,
}

impl Pause for Meanwhile<'_> {
    fn at<R: Wait>(&self, rt: &R, point: Point) {
        if point != Point::Inside {
            return;
        }
        let mut stage = self.stage.lock(rt);
        stage.is_right = if stage.is_beside {
            stage.goes_on_beside(rt)
        } else {
            stage.goes_on_alone(rt)
        };
    }
}

/// Whether a text is accepted over a line under this epoch and number.
fn posts<R: Wait>(
    rt: &R,
    shared: &Shared,
    line: &mut Poster,
    text: &str,
    name: (u32, u64),
) -> bool {
    match post(rt, shared.alloc, &shared.hub.yard, line, text) {
        Some(Ok(posted)) => posted == name,
        _ => false,
    }
}

impl Stage<'_> {
    fn hands<R: Wait>(&mut self, rt: &R) -> bool {
        match self.from.release_end(EndId(0)) {
            Some(Held::Client(queue)) => {
                queue
                    .hand(rt, &self.shared.directory, AgentId(3))
                    .ok()
                    .is_some()
            }
            held => {
                drop(held);
                false
            }
        }
    }

    /// Whether the queue has gone on, and is left to the first loop no more.
    fn moves<R: Wait>(&mut self, rt: &R) -> bool {
        let (hub, directory) = (&self.shared.hub, &self.shared.directory);
        self.hands(rt)
            && self.from.held_end(EndId(0)).is_none()
            && is_idle(rt, hub, &mut self.from, false)
            && self.to.fetch(rt, hub, directory, EndId(0)).ok() == Some(true)
            && match self.to.client_queue_mut(EndId(0)) {
                Some(queue) => queue.moves() == 1,
                None => false,
            }
    }

    fn gets<R: Wait>(&mut self, rt: &R, name: Name, text: &str) -> bool {
        delivers(rt, &self.shared.hub, &mut self.to, name, text, 0)
    }

    fn rests<R: Wait>(&mut self, rt: &R, busy: bool) -> bool {
        is_idle(rt, &self.shared.hub, &mut self.to, busy)
    }

    /// Of what was posted meanwhile only what went to the first loop's queue is served.
    fn goes_on_alone<R: Wait>(&mut self, rt: &R) -> bool {
        posts(rt, self.shared, &mut self.line, "\"b\"", (0, 0))
            && self.moves(rt)
            && posts(rt, self.shared, &mut self.line, "\"c\"", (1, 0))
            && self.rests(rt, false)
            && self.to.start_client_queue(EndId(0))
            && self.gets(rt, (0, 1, 0, 0), "\"b\"")
            && self.rests(rt, true)
    }

    /// The queue stays busy, and another end is served.
    fn goes_on_beside<R: Wait>(&mut self, rt: &R) -> bool {
        self.moves(rt)
            && self.to.start_client_queue(EndId(0))
            && self.rests(rt, true)
            && posts(rt, self.shared, &mut self.other, "1", (0, 0))
            && self.gets(rt, (1, 0, 0, 0), "1")
            && self.rests(rt, true)
            && posts(rt, self.shared, &mut self.other, "2", (0, 1))
            && posts(rt, self.shared, &mut self.other, "3", (0, 2))
            && posts(rt, self.shared, &mut self.other, "4", (0, 3))
            && self.gets(rt, (1, 0, 0, 1), "2")
    }

    /// The post that was held up has rung the loop that the queue has left. It is served all the
    /// same, and then what is left.
    fn ends<R: Wait>(&mut self, rt: &R) -> bool {
        let is_served = self.gets(rt, (0, 0, 0, 0), "\"a\"")
            && if self.is_beside {
                self.gets(rt, (1, 0, 0, 2), "3") && self.gets(rt, (1, 0, 0, 3), "4")
            } else {
                self.gets(rt, (0, 1, 1, 0), "\"c\"")
            };
        is_served && self.rests(rt, false)
    }
}

/// The stage, and the line for the post that is to be held up.
fn set<'s, R: Wait>(rt: &R, shared: &'s Shared, is_beside: bool) -> Option<(Stage<'s>, Poster)> {
    let (mut from, bell) = open(shared.alloc, 0)?;
    let (mut to, other_bell) = open(shared.alloc, 3)?;
    let ends = &mut Ends::new();
    let queue = shared.directory.client(rt, ends, bell).ok()?;
    let other = shared.directory.worker(rt, ends, other_bell).ok()?;
    let are_held = holds(&mut from, Held::Client(queue)) && holds(&mut to, Held::Worker(other));
    let is_started = are_held && from.start_client_queue(EndId(0));
    let held_up = shared.directory.line_to(rt, EndId(0)).ok()?;
    let stage = Stage {
        shared,
        from,
        to,
        line: shared.directory.line_to(rt, EndId(0)).ok()?,
        other: shared.directory.line_to(rt, EndId(1)).ok()?,
        is_beside,
        is_right: false,
    };
    if is_started {
        Some((stage, held_up))
    } else {
        None
    }
}

fn walks_on<R: Wait>(rt: &R, shared: &Shared, is_beside: bool) -> Option<bool> {
    let (stage, mut poster) = set(rt, shared, is_beside)?;
    let meanwhile = Meanwhile {
        stage: Mutex::new(stage),
    };
    let yard = &shared.hub.yard;
    let posting = post_with(rt, shared.alloc, yard, &mut poster, "\"a\"", &meanwhile);
    let mut stage = meanwhile.stage.into_inner();
    let is_right = posting == Some(Ok((0, 0))) && stage.is_right && stage.ends(rt);
    drop(stage);
    drop(poster);
    Some(is_right)
}

/// Whether an agent that has handed its queue on makes another one.
fn makes_another<R: Wait>(rt: &R, shared: &Shared) -> Option<bool> {
    let bell = bell(shared.alloc)?;
    let queue = shared
        .directory
        .client(rt, &mut Ends { drawn: 2 }, bell)
        .ok()?;
    let is_next = queue.id().0 == 2;
    drop(queue);
    Some(is_next)
}

fn walks<R: Wait>(rt: &R, alloc: Global, is_beside: bool) -> bool {
    let shared = Shared::new(alloc);
    let is_right = walks_on(rt, &shared, is_beside) == Some(true)
        && makes_another(rt, &shared) == Some(true);
    drop(shared);
    is_right
}

#[test]
fn handed_queue(rt: HostRuntime) {
    assert!(rt; walks(&rt, rt.alloc(), false));
}

#[test]
fn a_held_post_is_served_beside_a_busy_end(rt: HostRuntime) {
    assert!(rt; walks(&rt, rt.alloc(), true));
}
