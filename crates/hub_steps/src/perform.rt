//! What each step line does.

ghost use Rattle.std.specs.Prelude.{◌≡◌, IfOk, OnErr, false, true};
ghost use Rattle.hub_core.specs.Facts.{facts};
ghost use Rattle.hub_core.specs.History.{History};
ghost use Rattle.hub_core.specs.Shows.{Shows, StillShows};
ghost use Rattle.hub_steps.specs.Performed.{ComputesAt, PerformsAt};
ghost use Rattle.hub_steps.specs.Unfolding.{command_takes_memory, is_post, line_steps, lives_after};
ghost use Rattle.hub_steps.specs.Unfolding.{on_line_of, poster_command_takes_memory, sender_of};
ghost use Rattle.hub_steps.specs.Unfolding.{shown_step, takes_at_most_one_step};

use crate::casting::cast_message;
use crate::closing::{close_end, sweep_end_and_close_discarded_ports};
use crate::entering::{take_core_step, take_step_and_return_shown};
use crate::lives::Lives;
use crate::posting::post_message;
use crate::shown::Shown;
use crate::starting::{
    adopt_end, make_agent, make_and_start_member, make_and_start_worker_queue,
    start_if_client_queue,
};
use crate::step_line::{Command, PosterCommand, PosterName, StepLine};
use hub_core::{Action, Core, Kind, OutOfMemory, Outcome, Sender};
use hub_envelope::{AgentId, EndId, LineId, MAX_LINES};
use std::alloc::Global;

/// Takes the core's steps of a line, and gives what the line shows.
// It is inlined, since a call copies the line. Nearly all lines are posts and takes, and room for
// what the others show would be cleared at each.
#[inline(always)]
pub fn perform_step_line(
    alloc: Global,
    core: &mut Core,
    lives: &mut Lives,
    line: StepLine,
) -> Result<Shown, OutOfMemory>
    ensures performed { IfOk result (λ shown.
        PerformsAt core.old core.new lives.old line shown) }
    ensures lives { IfOk result (λ shown.
        lives.new ≡ lives_after line.command shown lives.old) }
    // Steps that take no memory are never refused for want of it, with the mark or without.
    ensures memory { OnErr result (command_takes_memory line.command ≡ true) }
    // Where the one step of a line finds no memory, nothing was changed.
    ensures still { OnErr result (takes_at_most_one_step line.command ≡ true
        → StillShows core.old core.new × (lives.new ≡ lives.old)) }
{
    let StepLine {
        command,
        memory_refused,
    } = line;
    match command {
        Command::At(poster, command) => perform_poster_command(
            core,
            poster,
            command,
            memory_refused,
        ),
        Command::Step(Action::Take(end)) => take_step_and_return_shown(
            core,
            Action::Take(end),
            memory_refused,
        ),
        command => {
            let line = StepLine {
                command,
                memory_refused,
            };
            perform_rarer_step_line(alloc, core, lives, line)
        }
    }
}

/// The same of a line that is neither of a poster nor a take.
#[inline(never)]
fn perform_rarer_step_line(
    alloc: Global,
    core: &mut Core,
    lives: &mut Lives,
    line: StepLine,
) -> Result<Shown, OutOfMemory>
    ensures performed { IfOk result (λ shown.
        PerformsAt core.old core.new lives.old line shown) }
    ensures lives { IfOk result (λ shown.
        lives.new ≡ lives_after line.command shown lives.old) }
    ensures memory { OnErr result (command_takes_memory line.command ≡ true) }
    ensures still { OnErr result (takes_at_most_one_step line.command ≡ true
        → StillShows core.old core.new × (lives.new ≡ lives.old)) }
{
    let StepLine {
        command,
        memory_refused,
    } = line;
    match command {
        Command::Step(action) => take_step_and_return_shown(core, action, memory_refused),
        Command::Agent(url) => make_agent(core, lives, url, memory_refused),
        Command::Worker(agent) => make_and_start_worker_queue(core, lives, agent, memory_refused),
        Command::Member(agent, name) => make_and_start_member(core, agent, name, memory_refused),
        Command::At(poster, command) => perform_poster_command(
            core,
            poster,
            command,
            memory_refused,
        ),
        Command::Loaded(end) => start_if_client_queue(core, end, memory_refused),
        Command::Adopt(end, agent) => adopt_end(core, end, agent, memory_refused),
        Command::Close(end) => close_end(core, end, memory_refused),
        Command::Sweep(end) => sweep_end_and_close_discarded_ports(core, end, memory_refused),
        Command::See(agent) => stop_agent_if_requested(core, lives, agent, memory_refused),
        Command::Cast(end, ports, body) => cast_message(
            alloc,
            core,
            end,
            ports,
            body,
            memory_refused,
        ),
        Command::Event(agent, event) => Ok(lives.apply_event(agent, event)),
    }
}

/// Takes the core's steps of a step line about a poster. One that names nothing takes none.
#[tactic(auto, using(crate::proofs::Computing::on_lines))]
fn perform_poster_command(
    core: &mut Core,
    poster: PosterName,
    command: PosterCommand,
    memory_refused: bool,
) -> Result<Shown, OutOfMemory>
    ensures performed { IfOk result (λ shown. ComputesAt core.old core.new
        (on_line_of poster (line_steps memory_refused command)) shown) }
    ensures memory { OnErr result (poster_command_takes_memory command ≡ true) }
    ensures still { OnErr result (is_post command ≡ false → StillShows core.old core.new) }
{
    let Some(sender) = sender_line_of_poster(core, poster) else {
        return Ok(Shown::Answer(Outcome::NotNow));
    };
    let action = match command {
        PosterCommand::Enter => Action::Enter(sender),
        PosterCommand::Push(ports, body) => Action::Push(sender, ports, body),
        PosterCommand::Leave => Action::Leave(sender),
        PosterCommand::Hop => Action::Hop(sender),
        PosterCommand::Back => Action::Back(sender),
        PosterCommand::Post(ports, body) => {
            return post_message(core, sender, ports, body, memory_refused);
        }
    };
    take_step_and_return_shown(core, action, memory_refused)
}

/// The line that a poster posts on. `None` where it names nothing.
fn sender_line_of_poster(core: &Core, poster: PosterName) -> Option<Sender>
    ensures { (h : History) → Shows core.now h → result ≡ sender_of poster (facts h) }
{
    match poster {
        PosterName::Port(port) => core.line_port_posts_on(port),
        PosterName::Line(end, line) => sender_line_if_end_has_it(core, end, line),
    }
}

/// A line of a client's or worker's queue, or of a broadcast channel.
fn sender_line_if_end_has_it(core: &Core, end: EndId, line: LineId) -> Option<Sender>
    ensures { (h : History) → Shows core.now h
        → result ≡ sender_of (PosterName.Line end line) (facts h) }
{
    let count = match core.kind_of(end) {
        Some(Kind::Client | Kind::Worker) => MAX_LINES,
        Some(Kind::Member(_)) => 1,
        Some(Kind::Port(_)) | None => 0,
    };
    if usize::from(line.0) < count {
        Some(Sender { end, line })
    } else {
        None
    }
}

/// An agent looks whether it was ordered to end. The life of one that ends is terminated, once.
#[tactic(auto, using(crate::proofs::Computing::shown_as))]
fn stop_agent_if_requested(
    core: &mut Core,
    lives: &mut Lives,
    agent: AgentId,
    memory_refused: bool,
) -> Result<Shown, OutOfMemory>
    ensures shown { IfOk result (λ shown.
        ComputesAt core.old core.new (shown_step memory_refused (Action.See agent)) shown) }
    ensures lives { IfOk result (λ shown.
        lives.new ≡ lives_after (Command.See agent) shown lives.old) }
    ensures still { OnErr result (StillShows core.old core.new × (lives.new ≡ lives.old)) }
{
    let answer = take_core_step(core, Action::See(agent), memory_refused)?;
    if matches!(answer, Outcome::Ending(_)) {
        lives.terminate_life(agent);
    }
    Ok(Shown::Answer(answer))
}
