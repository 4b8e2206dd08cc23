//! How far an agent comes with its actions, shown by an actor that lives in memory.
use crate::assert_same;
use hub_agent::{Acted, Actor, OutOfMemory, do_actions_until_ordered_to_stop};
use hub_envelope::AgentId;
use hub_script::{ActionKind, Script};
use std::sync::Wait;
use std::test::Fail;

// An actor that counts what it is told to do, and to which the order to end comes after so many
// actions.
#[derive(Drop)]
struct Tally {
    done: usize,
    most: usize,
}

impl Actor for Tally {
    ghost use Rattle.std.specs.Prelude.{⊤};

    ghost looks = { λ _ _ _. ⊤ };

    ghost acts = { λ _ _ _. ⊤ };

    ghost fails = { λ _ _ _. ⊤ };

    fn is_ordered_to_stop(&mut self) -> bool {
        self.done >= self.most
    }

    fn do_action<R: Wait>(&mut self, _rt: &R, _action: &ActionKind) -> Result<(), OutOfMemory> {
        self.done = self.done.saturating_add(1);
        Ok(())
    }
}

// Agent 0 has three actions, and agent 1 has one.
const SCRIPT: &str = r#"{"agent":"window","origin":"https://a.test"}
{"agent":"window","origin":"https://a.test"}
{"at":0,"wait":0}
{"at":1,"wait":0}
{"at":0,"wait":0}
{"at":0,"wait":0}"#;

// After how many actions the order comes, and how many are done then.
const ROWS: &[(usize, usize, bool)] = &[(0, 0, true), (2, 2, true), (3, 3, false), (9, 3, false)];

#[test]
fn an_order_ends_the_actions(rt: HostRuntime) -> Result<(), Fail> {
    let script = Script::read(rt.alloc(), SCRIPT.as_bytes())?;
    for (most, done, ordered) in ROWS {
        let mut tally = Tally {
            done: 0,
            most: *most,
        };
        let acted = do_actions_until_ordered_to_stop(&mut tally, &rt, &script, AgentId(0))?;
        let Acted {
            done: told,
            ordered: was_ordered,
        } = acted;
        assert_same(&rt, "done", (told, tally.done), (*done, *done));
        assert_same(&rt, "ordered", was_ordered, *ordered);
    }
    Ok(())
}
