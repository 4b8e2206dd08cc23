//! The machine as a caller meets it: a list of steps, its agents, and its laws. What its steps are
//! answered is shown by the rows of tests/rows/steps.
use crate::assert_same;
use hub_core::{
    Action, Core, OutOfMemory, Outcome, Sender, Step, prove_gate_machine_laws, prove_history_laws,
    prove_mailbox_chain_laws, prove_mailboxes_show_history, prove_queue_laws,
    prove_steps_are_mailbox_events, run,
};
use hub_envelope::{AgentId, Body, EndId, Items, LineId};
use std::alloc::Global;
use std::process::Abort;
use std::test::Fail;

/// The line that port 0 posts on.
const LINE: Sender = Sender {
    end: EndId(1),
    line: LineId(0),
};

/// A step of one agent with one channel, whose port 0 posts and whose port 1 is taken from.
#[derive(Clone, Copy)]
enum Row {
    Agent,
    Channel,
    Enter,
    Push,
    Leave,
    Start,
    Take,
}

/// The row `start-then-take`.
const START_THEN_TAKE: &[Row] = &[
    Row::Agent,
    Row::Channel,
    Row::Enter,
    Row::Push,
    Row::Leave,
    Row::Take,
    Row::Start,
    Row::Take,
    Row::Take,
];

const TOLD: &[&str] = &[
    "agent", "ends", "in", "accepted", "left", "disabled", "started", "got", "empty",
];

fn push(alloc: Global) -> Result<Action, OutOfMemory> {
    match Body::read(alloc, "{\"a\":1}") {
        Ok(body) => Ok(Action::Push(LINE, Items::from_vec(Vec::new(alloc)), body)),
        Err(_) => Err(OutOfMemory),
    }
}

fn step_of(alloc: Global, row: Row) -> Result<Step, OutOfMemory> {
    let action = match row {
        Row::Agent => Action::Agent(None),
        Row::Channel => Action::Channel(AgentId(0)),
        Row::Enter => Action::Enter(LINE),
        Row::Push => push(alloc)?,
        Row::Leave => Action::Leave(LINE),
        Row::Start => Action::Start(EndId(1)),
        Row::Take => Action::Take(EndId(1)),
    };
    Ok(Step {
        action,
        memory_refused: false,
    })
}

fn word_of(outcome: &Outcome) -> &'static str {
    match outcome {
        Outcome::Agent(AgentId(0)) => "agent",
        Outcome::Ends(EndId(0), EndId(1)) => "ends",
        Outcome::In => "in",
        Outcome::Accepted(_) => "accepted",
        Outcome::Left => "left",
        Outcome::Disabled => "disabled",
        Outcome::Started => "started",
        Outcome::Got(envelope) if envelope.body.text() == "{\"a\":1}" => "got",
        Outcome::Empty => "empty",
        _ => "another outcome",
    }
}

fn steps_of(alloc: Global, rows: &[Row]) -> Result<Vec<Step>, OutOfMemory> {
    let mut steps = Vec::new(alloc);
    for row in rows {
        steps.push(step_of(alloc, *row)?)?;
    }
    Ok(steps)
}

#[test]
fn runs_a_list_of_steps(rt: HostRuntime) -> Result<(), Fail> {
    let outcomes = run(rt.alloc(), steps_of(rt.alloc(), START_THEN_TAKE)?)?;
    assert_same(&rt, "outcomes", outcomes.len(), TOLD.len());
    for (outcome, word) in outcomes.iter().zip(TOLD) {
        assert_same(&rt, "outcome", word_of(outcome), *word);
    }
    Ok(())
}

/// What a row's step is answered.
fn told(alloc: Global, core: &mut Core, row: Row) -> Result<&'static str, OutOfMemory> {
    let outcome = core.step(step_of(alloc, row)?)?;
    Ok(word_of(&outcome))
}

/// It passes whichever allocation is refused: the step that asked for it changed nothing, so that
/// it is answered as ever when it is taken again, and so are those after it.
#[test]
fn goes_on_whichever_allocation_is_refused(rt: HostRuntime) -> Result<(), Fail> {
    let mut core = Core::new(rt.alloc());
    for (row, word) in START_THEN_TAKE.iter().zip(TOLD) {
        let found = match told(rt.alloc(), &mut core, *row) {
            Ok(found) => found,
            Err(OutOfMemory) => told(rt.alloc(), &mut core, *row)?,
        };
        assert_same(&rt, "outcome", found, *word);
    }
    Ok(())
}

fn make_agents(rt: &(impl Abort + AllocGlobal), core: &mut Core, count: u8) {
    for number in 0..count {
        let step = step_of(rt.alloc(), Row::Agent).expect(rt, "memory");
        let made = core.step(step).expect(rt, "memory");
        assert!(rt; matches!(made, Outcome::Agent(AgentId(it)) if it == number));
    }
}

#[test]
fn has_sixteen_agents(rt: HostRuntime) -> Result<(), Fail> {
    let mut core = Core::new(rt.alloc());
    make_agents(&rt, &mut core, 16);
    let refused = core.step(step_of(rt.alloc(), Row::Agent)?)?;
    assert!(rt; matches!(refused, Outcome::TooManyAgents));
    Ok(())
}

/// The laws are the contracts of these functions, which do nothing.
#[test]
fn calls_the_laws() {
    prove_history_laws();
    prove_queue_laws();
    prove_gate_machine_laws::<u8>();
    prove_mailbox_chain_laws::<u8>();
    prove_mailboxes_show_history();
    prove_steps_are_mailbox_events();
}
