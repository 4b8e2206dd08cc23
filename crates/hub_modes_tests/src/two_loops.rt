// The loops of two agents run at once: each is held up in turn until the other has gone on.
use hub_engine::{CountedWriter, ExitStatus};
use hub_envelope::AgentId;
use hub_modes::{Checkpoint, run_script};
use hub_script::Script;
use std::sync::Wait;
use std::sync::atomic::{AtomicBool, Ordering};
use std::thread;

// How many turns a hold lasts, before it gives up.
const TURNS: u32 = 10_000_000;

// Each agent sends itself two messages, starts its queue and waits for both.
const SCRIPT: &[u8] = br#"{"agent":"window","origin":"https://a.test"}
{"agent":"window","origin":"https://a.test"}
{"at":0,"send":0,"body":1}
{"at":0,"send":0,"body":2}
{"at":0,"start":"queue"}
{"at":0,"wait":2}
{"at":1,"send":1,"body":1}
{"at":1,"send":1,"body":2}
{"at":1,"start":"queue"}
{"at":1,"wait":2}
"#;

// Holds an agent at its first delivery until the other one is at its second.
#[derive(Drop)]
struct Hold {
    held: AgentId,
    held_is_at_first: AtomicBool,
    held_is_at_second: AtomicBool,
    other_is_at_first: AtomicBool,
    other_is_at_second: AtomicBool,
    has_given_up: AtomicBool,
}

impl Hold {
    fn of(held: AgentId) -> Hold {
        Hold {
            held,
            held_is_at_first: AtomicBool::new(false),
            held_is_at_second: AtomicBool::new(false),
            other_is_at_first: AtomicBool::new(false),
            other_is_at_second: AtomicBool::new(false),
            has_given_up: AtomicBool::new(false),
        }
    }

    fn hold(&self) {
        for _ in 0..TURNS {
            if self.other_is_at_second.load(Ordering::SeqCst) {
                return;
            }
            thread::yield_now();
        }
        self.has_given_up.store(true, Ordering::SeqCst);
    }
}

impl Checkpoint for Hold {
    fn at<R: Wait>(&self, _rt: &R, agent: AgentId, point: u64) {
        let mark = match (agent == self.held, point) {
            (true, 0) => &self.held_is_at_first,
            (true, 1) => &self.held_is_at_second,
            (false, 0) => &self.other_is_at_first,
            (false, 1) => &self.other_is_at_second,
            _ => return,
        };
        mark.store(true, Ordering::SeqCst);
        if agent == self.held && point == 0 {
            self.hold();
        }
    }
}

#[test]
fn two_loops_at_once(rt: HostRuntime) {
    for held in [AgentId(0), AgentId(1)] {
        let hold = Hold::of(held);
        let script = Script::read(rt.alloc(), SCRIPT)
            .ok()
            .expect(&rt, "the script is a good one");
        let mut writer = CountedWriter::new(Vec::<u8>::new(rt.alloc()));
        let answer = run_script(rt.alloc(), &rt, &script, &hold, &mut writer);
        assert_eq!(rt; answer, Ok(ExitStatus::Success));
        assert!(rt; !hold.has_given_up.load(Ordering::SeqCst));
        for mark in [
            &hold.held_is_at_first,
            &hold.held_is_at_second,
            &hold.other_is_at_first,
            &hold.other_is_at_second,
        ] {
            assert!(rt; mark.load(Ordering::SeqCst));
        }
    }
}
