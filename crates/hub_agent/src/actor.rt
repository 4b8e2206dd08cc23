ghost use Rattle.std.specs.Prelude.{IfOk, OnErr};
ghost use Rattle.hub_agent.specs.Doing.{HasActed, HasFailed, actions_of};
ghost use Rattle.hub_script.specs.Contents.{actions};

use hub_envelope::{AgentId, OutOfMemory};
use hub_script::{Action, ActionKind, Script};
use std::sync::Wait;

/// Who does the actions of an agent.
pub trait Actor {
    ghost use Rattle.std.specs.Prelude.{Bool, OnErr, OnOk};
    ghost use Rattle.hub_script.specs.declared.action.ActionKind.{ActionKind as Kind};

    /// What a look for the order to end may leave of the actor: the actor before, whether the order
    /// had come, the actor after.
    ghost looks: { Self → Bool → Self → Type 0 };

    /// What an action that was answered `Ok` may leave of the actor: the actor before, the action,
    /// the actor after.
    ghost acts: { Self → Kind → Self → Type 0 };

    /// The same of one that was answered with an error.
    ghost fails: { Self → Kind → Self → Type 0 };

    /// Looks for the order to end. Whether it has come.
    fn is_ordered_to_stop(&mut self) -> bool
        ensures { looks self.old result self.new };

    /// Does an action.
    fn do_action<R: Wait>(&mut self, rt: &R, action: &ActionKind) -> Result<(), OutOfMemory>
        ensures ok { OnOk result (acts self.old action.now self.new) }
        ensures err { OnErr result (fails self.old action.now self.new) };
}

/// How far an agent came with its actions.
#[derive(Clone, Copy, Debug, PartialEq, Eq)]
pub struct Acted {
    /// How many it has done.
    pub done: usize,
    /// Whether the order to end came before the next one. Where it didn't all are done.
    pub ordered: bool,
}

/// Has the actor do the actions of the agent of that number, in the order of the script, up to the
/// last or to the order to end, for which it looks before each. After an error no more are done.
///
/// ```rust
/// let Acted { done, ordered } = do_actions_until_ordered_to_stop(&mut actor, rt, script, number)?;
/// ```
pub fn do_actions_until_ordered_to_stop<A: Actor, R: Wait>(
    actor: &mut A,
    rt: &R,
    script: &Script,
    agent: AgentId,
) -> Result<Acted, OutOfMemory>
    ensures ok { IfOk result (λ acted. HasActed A.looks A.acts
        (actions_of agent (actions script.now)) acted actor.old actor.new) }
    ensures err { OnErr result (HasFailed A.looks A.acts A.fails
        (actions_of agent (actions script.now)) actor.old actor.new) }
{
    let mut done = 0;
    for Action { at, kind } in script.actions() {
        if *at == agent {
            if actor.is_ordered_to_stop() {
                let ordered = true;
                return Ok(Acted { done, ordered });
            }
            actor.do_action(rt, kind)?;
            done += 1;
        }
    }
    let ordered = false;
    Ok(Acted { done, ordered })
}
