//! Agents, and the queues that a step line starts as it makes them.

ghost use Rattle.std.specs.Prelude.{◌≡◌, IfOk, IsOk, OnErr, OnOk};
ghost use Rattle.hub_core.specs.Shows.{StillShows};
ghost use Rattle.hub_steps.specs.Performed.{ComputesAt};
ghost use Rattle.hub_steps.specs.Unfolding.{adopt, agent, agent_lives, lives_after, load};
ghost use Rattle.hub_steps.specs.Unfolding.{shown_step, start_if_worker_queue, then_start};

use crate::entering::{take_core_step, take_step_and_return_shown};
use crate::lives::Lives;
use crate::shown::Shown;
use crate::step_line::{AgentUrl, Command};
use hub_core::{Action, Core, Kind, OutOfMemory, Outcome};
use hub_envelope::{AgentId, EndId, Text};

/// Makes an agent, where its URL is one with an origin, or there is none.
pub fn make_agent(
    core: &mut Core,
    lives: &mut Lives,
    url: AgentUrl,
    memory_refused: bool,
) -> Result<Shown, OutOfMemory>
    ensures shown { IfOk result (λ shown.
        ComputesAt core.old core.new (agent memory_refused url) shown) }
    ensures lives { IfOk result (λ shown. lives.new ≡ agent_lives shown lives.old) }
    ensures still { OnErr result (StillShows core.old core.new × (lives.new ≡ lives.old)) }
{
    match url {
        AgentUrl::NoUrl => add_agent(core, lives, None, memory_refused),
        AgentUrl::Origin(origin) => add_agent(core, lives, Some(origin), memory_refused),
        AgentUrl::BadUrl => Ok(Shown::BadUrl),
        AgentUrl::OpaqueOrigin => Ok(Shown::OpaqueOrigin),
    }
}

/// Makes an agent of this origin, or of none.
#[tactic(auto, using(crate::proofs::Computing::shown_as))]
fn add_agent(
    core: &mut Core,
    lives: &mut Lives,
    origin: Option<Text>,
    memory_refused: bool,
) -> Result<Shown, OutOfMemory>
    ensures shown { IfOk result (λ shown. ComputesAt core.old core.new
        (shown_step memory_refused (Action.Agent origin)) shown) }
    ensures lives { IfOk result (λ shown. lives.new ≡ agent_lives shown lives.old) }
    ensures still { OnErr result (StillShows core.old core.new × (lives.new ≡ lives.old)) }
{
    // Its life finds room first, so that no agent is made without one.
    lives.add_agent_without_life()?;
    match take_core_step(core, Action::Agent(origin), memory_refused) {
        Ok(Outcome::Agent(agent)) => Ok(Shown::Answer(Outcome::Agent(agent))),
        Ok(refused) => {
            lives.remove_last_agent();
            Ok(Shown::Answer(refused))
        }
        Err(error) => {
            lives.remove_last_agent();
            Err(error)
        }
    }
}

/// Takes a step that makes a queue, and starts the queue that it made.
fn make_and_start_queue(
    core: &mut Core,
    action: Action,
    memory_refused: bool,
) -> Result<Outcome, OutOfMemory>
    ensures { IfOk result (λ answer. ComputesAt core.old core.new
        (then_start memory_refused action) (Shown.Answer answer)) }
{
    match take_core_step(core, action, memory_refused)? {
        Outcome::End(end) => {
            take_core_step(core, Action::Start(end), memory_refused)?;
            Ok(Outcome::End(end))
        }
        answer => Ok(answer),
    }
}

/// Makes the queue of a worker, and starts it. The agent has a life from then on.
pub fn make_and_start_worker_queue(
    core: &mut Core,
    lives: &mut Lives,
    agent: AgentId,
    memory_refused: bool,
) -> Result<Shown, OutOfMemory>
    ensures shown { IfOk result (λ shown. ComputesAt core.old core.new
        (then_start memory_refused (Action.Worker agent)) shown) }
    ensures lives { IfOk result (λ shown.
        lives.new ≡ lives_after (Command.Worker agent) shown lives.old) }
{
    let answer = make_and_start_queue(core, Action::Worker(agent), memory_refused)?;
    if matches!(answer, Outcome::End(_)) {
        lives.begin_life(agent);
    }
    Ok(Shown::Answer(answer))
}

/// Makes a broadcast channel, and starts it.
pub fn make_and_start_member(
    core: &mut Core,
    agent: AgentId,
    name: Text,
    memory_refused: bool,
) -> Result<Shown, OutOfMemory>
    ensures { IfOk result (λ shown. ComputesAt core.old core.new
        (then_start memory_refused (Action.Member agent name)) shown) }
{
    let answer = make_and_start_queue(core, Action::Member(agent, name), memory_refused)?;
    Ok(Shown::Answer(answer))
}

/// Adopts an end, and starts it where it is a worker's queue.
pub fn adopt_end(
    core: &mut Core,
    end: EndId,
    agent: AgentId,
    memory_refused: bool,
) -> Result<Shown, OutOfMemory>
    ensures { IfOk result (λ shown.
        ComputesAt core.old core.new (adopt memory_refused end agent) shown) }
{
    match take_core_step(core, Action::Adopt(end, agent), memory_refused)? {
        Outcome::Adopted(queue) => {
            start_if_worker_queue(core, end, memory_refused)?;
            Ok(Shown::Answer(Outcome::Adopted(queue)))
        }
        answer => Ok(Shown::Answer(answer)),
    }
}

/// Starts a worker's queue. Of any other end no step is taken.
fn start_if_worker_queue(
    core: &mut Core,
    end: EndId,
    memory_refused: bool,
) -> Result<(), OutOfMemory>
    ensures { OnOk result (ComputesAt core.old core.new
        (start_if_worker_queue memory_refused end) tt) }
{
    if matches!(core.kind_of(end), Some(Kind::Worker)) {
        take_core_step(core, Action::Start(end), memory_refused)?;
        Ok(())
    } else {
        Ok(())
    }
}

/// Starts the queue of a client, whose document is parsed. Of any other end no step is taken.
pub fn start_if_client_queue(
    core: &mut Core,
    end: EndId,
    memory_refused: bool,
) -> Result<Shown, OutOfMemory>
    ensures shown { IfOk result (λ shown.
        ComputesAt core.old core.new (load memory_refused end) shown) }
    ensures memory { IsOk result }
{
    if matches!(core.kind_of(end), Some(Kind::Client)) {
        take_step_and_return_shown(core, Action::Start(end), memory_refused)
    } else {
        Ok(Shown::Answer(Outcome::NotNow))
    }
}
