//! A run of many steps, from a hub with no agent.

ghost use Rattle.std.specs.Prelude.{◌≡◌, [], length, IfOk};
ghost use Rattle.std.specs.List.{zip};
ghost use Rattle.hub_core.specs.Legal.{Legal};
ghost use Rattle.hub_core.specs.Laws.{Headline, Fates, InOrder};
ghost use Rattle.hub_core.specs.Shows.{FitsAndShows, Shows};

use crate::machine::Core;
use crate::step::{Action, Outcome, Step};
use hub_envelope::OutOfMemory;
use std::alloc::Global;

/// Takes the steps in order, from a hub with no agent and no end, and stops at the first that is
/// answered `Err`.
pub fn run(alloc: Global, steps: Vec<Step>) -> Result<Vec<Outcome>, OutOfMemory>
    ensures each { IfOk result (λ outcomes. length outcomes.items ≡ length steps.items) }
    ensures legal { IfOk result (λ outcomes. Legal (zip steps.items outcomes.items)) }
    // Every legal history keeps the headline.
    ensures headline { IfOk result (λ outcomes. Headline (zip steps.items outcomes.items)) }
    ensures fates { IfOk result (λ outcomes. Fates (zip steps.items outcomes.items)) }
    // Between the lines of a queue the order is that of acceptance.
    ensures in_order { IfOk result (λ outcomes. InOrder (zip steps.items outcomes.items)) }
{
    let mut core = Core::new(alloc);
    core.step_all(alloc, steps)
}

impl Core {
    /// Takes the steps in order, and stops at the first that is answered `Err`.
    fn step_all(&mut self, alloc: Global, steps: Vec<Step>) -> Result<Vec<Outcome>, OutOfMemory>
        requires { Shows self.old [] }
        ensures each { IfOk result (λ outcomes. length outcomes.items ≡ length steps.items) }
        ensures shows { IfOk result (λ outcomes.
            Shows self.new (zip steps.items outcomes.items)) }
    {
        let mut outcomes = Vec::with_capacity(alloc, steps.len())?;
        for step in steps {
            let outcome = self.step_not_inlined(step)?;
            outcomes.push(outcome)?;
        }
        Ok(outcomes)
    }

    /// Takes a step as `step` does, which is inlined, and clears room at its start for the answers
    /// of all steps that it may take. So posts and takes, which most steps are, have one each.
    #[inline(always)]
    fn step_not_inlined(&mut self, step: Step) -> Result<Outcome, OutOfMemory>
        ensures { IfOk result (λ o. FitsAndShows self.old self.new step o) }
    {
        let Step {
            action,
            memory_refused,
        } = step;
        match action {
            Action::Enter(sender) => self.step(Step {
                action: Action::Enter(sender),
                memory_refused,
            }),
            Action::Push(sender, ports, body) => self.step(Step {
                action: Action::Push(sender, ports, body),
                memory_refused,
            }),
            Action::Leave(sender) => self.step(Step {
                action: Action::Leave(sender),
                memory_refused,
            }),
            Action::Take(end) => self.step(Step {
                action: Action::Take(end),
                memory_refused,
            }),
            action => self.step_rarer(Step {
                action,
                memory_refused,
            }),
        }
    }

    /// Takes a step that is neither part of a post nor a take.
    #[inline(never)]
    fn step_rarer(&mut self, step: Step) -> Result<Outcome, OutOfMemory>
        ensures { IfOk result (λ o. FitsAndShows self.old self.new step o) }
    {
        self.step(step)
    }
}
