//! The threads of a run.

ghost use Rattle.std.specs.Prelude.{◌≡◌, ◌≤◌, [], length, vec_len, IfOk};
ghost use Rattle.hub_envelope.specs.declared.limits.TheConstants.{MAX_AGENTS};
ghost use Rattle.hub_agent.specs.Given.{IsGiven};
ghost use Rattle.hub_run.specs.Giving.{AreGiven};
ghost use Rattle.hub_agent.specs.Acting.{IsRunFor};
ghost use Rattle.hub_run.specs.Runs.{AreRunsFor};
ghost use Rattle.hub_run.specs.Threads.{ArePromised};
ghost use Rattle.hub_script.specs.Contents.{declared_agents};
ghost use Rattle.hub_trace.specs.declared.limits.TheConstants.{MAX_AGENT};

use crate::making::{Made, RunAgent, push_or_drop};
use hub_agent::{Acted, AgentRun, Shared};
use hub_broadcast::SharedRoster;
use hub_envelope::{AgentId, OutOfMemory};
use hub_loop::Checkpoint;
use hub_script::Script;
use hub_trace::Log;
use std::alloc::Global;
use std::sync::{OnceLock, Wait};
use std::thread;
use std::thread::{Promise, PromisedHandle, Scope, Threads};

/// What came of a script. Both lists are in the order of the agents.
#[derive(Drop)]
pub struct Run {
    /// The logs that the agents kept.
    pub logs: Vec<Log>,
    /// How many of its actions each agent has done, and whether it was asked to end before the
    /// next one.
    pub acted: Vec<Acted>,
}

/// What a thread answers.
type Ran = Result<AgentRun, OutOfMemory>;

/// Which agent of which script a thread runs. What came of it is that agent's.
#[derive(Clone, Copy)]
struct Part<'a> {
    script: &'a Script,
    number: AgentId,
}

impl<'a> Promise<Ran> for Part<'a> {
    ghost use Rattle.std.specs.Prelude.{IfOk};
    ghost use Rattle.hub_agent.specs.Acting.{IsRunFor};

    ghost kept_by = { λ part ran. IfOk ran (λ it.
        IsRunFor part.script.now part.number it.log it.acted) };
}

/// The handle of an agent's thread.
type AgentThread<'a> = PromisedHandle<Ran, Part<'a>>;

/// Starts a thread for each agent, in order. Each waits until all threads were made, and does
/// nothing where one couldn't be made. It is a function of its own, since between the first thread
/// and the signal that they wait for nothing may be left out.
fn spawn_waiting_agent_threads<'s, E, C: Checkpoint + Sync, R: Threads + Wait + Sync>(
    scope: &'s Scope<'s, E>,
    alloc: Global,
    rt: &'s R,
    begun: &'s OnceLock<bool>,
    script: &'s Script,
    agents: Vec<RunAgent<'s, C>>,
) -> Result<Vec<AgentThread<'s>>, OutOfMemory>
    requires few { vec_len agents ≤ MAX_AGENTS }
    requires given { AreGiven script.now agents.items }
    ensures len { IfOk result (λ handles. vec_len handles ≡ vec_len agents.entry) }
    ensures each { IfOk result (λ handles. ArePromised script.now handles.items) }
{
    let mut handles = Vec::with_capacity(alloc, agents.len())?;
    for agent in agents {
        let number = AgentId(handles.len() as u8);
        let part = Part { script, number };
        let handle = scope.spawn_with(
            part,
            move || -> Ran
                requires number { part.number.0 ≤ MAX_AGENT }
                requires given { IsGiven part.script.now part.number.0 agent }
                ensures { IfOk result (λ it.
                    IsRunFor part.entry.script.now part.entry.number it.log it.acted) }
            {
                if *begun.wait(rt) {
                    agent.run(rt, part.script, part.number)
                } else {
                    Err(OutOfMemory)
                }
            },
        )?;
        push_or_drop(&mut handles, handle)?;
    }
    Ok(handles)
}

/// Waits for the threads, and answers in their order what came of each. Where one has no log the
/// scope waits for the others.
fn join_all<R: Threads + Wait>(
    rt: &R,
    _script: &Script,
    handles: Vec<AgentThread<'_>>,
    mut run: Run,
) -> Result<Run, OutOfMemory>
    requires none { (run.logs.items ≡ []) × (run.acted.items ≡ []) }
    requires count { vec_len handles ≡ length (declared_agents _script.now) }
    requires each { ArePromised _script.now handles.items }
    ensures { IfOk result (λ joined. AreRunsFor _script.now joined.logs.items joined.acted.items) }
{
    for handle in handles {
        let AgentRun { log, acted } = handle.join(rt)?;
        push_or_drop(&mut run.logs, log)?;
        push_or_drop(&mut run.acted, acted)?;
    }
    Ok(run)
}

/// Makes the agents, and runs them, none of which begins before the threads of all were made.
fn run_on_threads<C: Checkpoint + Sync, R: Threads + Wait + Sync>(
    alloc: Global,
    rt: &R,
    shared: &Shared,
    roster: &SharedRoster,
    script: &Script,
    checkpoint: &C,
) -> Result<Run, OutOfMemory>
    ensures { IfOk result (λ run. AreRunsFor script.now run.logs.items run.acted.items) }
{
    let count = script.agents().len();
    let run = Run {
        logs: Vec::with_capacity(alloc, count)?,
        acted: Vec::with_capacity(alloc, count)?,
    };
    let made = Made::of_script(alloc, rt, shared, roster, script, checkpoint)?.into_agents();
    let started = OnceLock::new();
    let begun = &started;
    thread::scope(
        thread::scope_env(),
        rt,
        move |scope| -> Result<Run, OutOfMemory>
            requires few { vec_len made ≤ MAX_AGENTS }
            requires count { vec_len made ≡ length (declared_agents script.now) }
            requires given { AreGiven script.now made.items }
            requires none { (run.logs.items ≡ []) × (run.acted.items ≡ []) }
            ensures { IfOk result (λ joined.
                AreRunsFor script.entry.now joined.logs.items joined.acted.items) }
        {
            let handles = spawn_waiting_agent_threads(scope, alloc, rt, begun, script, made);
            let _ = begun.set(rt, handles.is_ok());
            join_all(rt, script, handles?, run)
        },
    )
}

/// Runs a script: each agent does its actions on a thread of its own, and its loop ends after the
/// last or after an order. What was posted and not taken is discarded, and the ends where it waited
/// are closed.
///
/// The checkpoint is called before each delivery. It waits for all agents, and so for ever where an
/// agent waits for what nobody posts.
///
/// `OutOfMemory` where a growth was refused or a thread couldn't be made. All agents are ordered to
/// end then; where a thread couldn't be made none has done anything.
pub fn run_agents<C: Checkpoint + Sync, R: Threads + Wait + Sync>(
    alloc: Global,
    rt: &R,
    script: &Script,
    checkpoint: &C,
) -> Result<Run, OutOfMemory>
    ensures { IfOk result (λ run. AreRunsFor script.now run.logs.items run.acted.items) }
{
    let (shared, roster) = (Shared::new(alloc), SharedRoster::new(alloc));
    let ran = run_on_threads(alloc, rt, &shared, &roster, script, checkpoint);
    let ended = shared.close_all_unclaimed(rt);
    let run = ran?;
    ended?;
    Ok(run)
}
