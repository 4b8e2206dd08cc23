//! A core that is driven by hand: two ports, a post at one and a take at the other. Each step is
//! printed with what it is answered.
#![tactic(auto)]

use hub_core::{Action, Core, OutOfMemory, Sender, Step};
use hub_envelope::{AgentId, Body, EndId, Items};
use std::alloc::Global;
use std::io;

/// The steps, in order. A post is three: its line enters, pushes and leaves.
fn actions(alloc: Global, line: Sender) -> Result<Vec<Action>, OutOfMemory> {
    let Ok(body) = Body::read(alloc, "{\"hello\":1}") else {
        return Err(OutOfMemory);
    };
    let mut actions = Vec::with_capacity(alloc, 6)?;
    actions.push(Action::Enter(line))?;
    actions.push(Action::Push(line, Items::none(alloc), body))?;
    actions.push(Action::Leave(line))?;
    actions.push(Action::Start(EndId(1)))?;
    actions.push(Action::Take(EndId(1)))?;
    actions.push(Action::Take(EndId(1)))?;
    Ok(actions)
}

/// Takes the step and prints its outcome.
fn take(rt: &HostRuntime, core: &mut Core, action: Action) -> io::Result<()> {
    let step = Step {
        action,
        memory_refused: false,
    };
    let outcome = core.step(step)?;
    println!(rt; "{outcome:?}")
}

fn main(rt: HostRuntime) -> io::Result<()> {
    let mut core = Core::new(rt.alloc());
    take(&rt, &mut core, Action::Agent(None))?;
    take(&rt, &mut core, Action::Channel(AgentId(0)))?;
    // What is posted at port 0 comes to line 0 of port 1.
    if let Some(line) = core.line_port_posts_on(EndId(0)) {
        for action in actions(rt.alloc(), line)? {
            take(&rt, &mut core, action)?;
        }
    }
    Ok(())
}
