//! One step of the core, and an Enter with its hops.

ghost use Rattle.std.specs.Prelude.{◌≡◌, IfOk, OnErr, true};
ghost use Rattle.hub_core.specs.Legal.{takes_memory};
ghost use Rattle.hub_core.specs.Shows.{StillShows};
ghost use Rattle.hub_envelope.specs.declared.limits.TheConstants.{MAX_HOPS};
ghost use Rattle.hub_steps.specs.Computation.{step};
ghost use Rattle.hub_steps.specs.Performed.{ComputesAt};
ghost use Rattle.hub_steps.specs.Unfolding.{enter, shown_step};

use crate::shown::Shown;
use hub_core::{Action, Core, OutOfMemory, Outcome, Sender, Step};
use hub_envelope::MAX_HOPS;

/// Enters, and goes on from retired queues, at most `MAX_HOPS` times. Answers the last Enter's
/// outcome: `Moved` where that queue was retired too.
pub fn enter_queue_or_hop_to_later_one(
    core: &mut Core,
    sender: Sender,
    memory_refused: bool,
) -> Result<Outcome, OutOfMemory>
    ensures { IfOk result (λ entered.
        ComputesAt core.old core.new (enter MAX_HOPS memory_refused sender) entered) }
{
    for _hop in 0..MAX_HOPS {
        let entered = take_core_step(core, Action::Enter(sender), memory_refused)?;
        if !matches!(entered, Outcome::Moved) {
            return Ok(entered);
        }
        drop(take_core_step(core, Action::Leave(sender), memory_refused)?);
        drop(take_core_step(core, Action::Hop(sender), memory_refused)?);
    }
    take_core_step(core, Action::Enter(sender), memory_refused)
}

/// Takes a step, whose outcome is shown.
// It is inlined, and so is `take_core_step`, since each caller knows which step it takes.
#[inline(always)]
#[tactic(auto, using(crate::proofs::Computing::shown_as))]
pub fn take_step_and_return_shown(
    core: &mut Core,
    action: Action,
    memory_refused: bool,
) -> Result<Shown, OutOfMemory>
    ensures shown { IfOk result (λ shown.
        ComputesAt core.old core.new (shown_step memory_refused action) shown) }
    ensures memory { OnErr result (takes_memory action ≡ true) }
    ensures still { OnErr result (StillShows core.old core.new) }
{
    let answer = take_core_step(core, action, memory_refused)?;
    Ok(Shown::Answer(answer))
}

/// Takes a step, with memory refused in it or not.
#[inline(always)]
pub fn take_core_step(
    core: &mut Core,
    action: Action,
    memory_refused: bool,
) -> Result<Outcome, OutOfMemory>
    ensures answer { IfOk result (λ answer.
        ComputesAt core.old core.new (step memory_refused action) answer) }
    ensures memory { OnErr result (takes_memory action ≡ true) }
    ensures still { OnErr result (StillShows core.old core.new) }
{
    core.step(Step {
        action,
        memory_refused,
    })
}
