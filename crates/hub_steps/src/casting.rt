//! A cast, and the post at each of its destinations.

ghost use Rattle.std.specs.Prelude.{IfOk};
ghost use Rattle.hub_steps.specs.Performed.{ComputesAt};
ghost use Rattle.hub_steps.specs.Unfolding.{cast, cast_each, cast_inside, cast_over};

use crate::entering::take_core_step;
use crate::shown::{CastPost, Shown};
use hub_core::{Action, Core, OutOfMemory, Outcome, Sender};
use hub_envelope::{Body, EndId, Items, LineId};
use std::alloc::Global;

/// Casts a body, and posts it at each destination.
pub fn cast_message(
    alloc: Global,
    core: &mut Core,
    end: EndId,
    ports: Items<EndId>,
    body: Body,
    memory_refused: bool,
) -> Result<Shown, OutOfMemory>
    ensures { IfOk result (λ shown.
        ComputesAt core.old core.new (cast memory_refused end ports body) shown) }
{
    let action = Action::Cast(end, ports, body.clone()?);
    match take_core_step(core, action, memory_refused)? {
        Outcome::Destinations(ends) => {
            let posts = post_at_each_destination(
                alloc,
                core,
                ends.as_slice(),
                &body,
                memory_refused,
            )?;
            Ok(Shown::Cast(posts))
        }
        answer => Ok(Shown::Answer(answer)),
    }
}

/// Posts a body at each end, in order.
fn post_at_each_destination(
    alloc: Global,
    core: &mut Core,
    ends: &[EndId],
    body: &Body,
    memory_refused: bool,
) -> Result<Items<CastPost>, OutOfMemory>
    ensures { IfOk result (λ posts.
        ComputesAt core.old core.new (cast_each memory_refused body.now ends.now) posts) }
{
    let mut posts = Vec::with_capacity(alloc, ends.len())?;
    for end in ends {
        let outcome = post_at_destination(alloc, core, *end, body, memory_refused)?;
        let end = *end;
        posts.push(CastPost { end, outcome })?;
    }
    Ok(Items::from_vec(posts))
}

/// Enters, pushes where the poster is inside, and leaves.
fn post_at_destination(
    alloc: Global,
    core: &mut Core,
    end: EndId,
    body: &Body,
    memory_refused: bool,
) -> Result<Outcome, OutOfMemory>
    ensures { IfOk result (λ answer.
        ComputesAt core.old core.new (cast_over memory_refused body.now end) answer) }
{
    let line = LineId(0);
    let sender = Sender { end, line };
    let entered = take_core_step(core, Action::Enter(sender), memory_refused)?;
    let answer = push_body_if_entered(alloc, core, sender, body, entered, memory_refused)?;
    // It leaves whatever it was answered.
    take_core_step(core, Action::Leave(sender), memory_refused)?;
    Ok(answer)
}

/// Pushes where the poster is inside. Answers what the Push was answered, or else the Enter.
fn push_body_if_entered(
    alloc: Global,
    core: &mut Core,
    sender: Sender,
    body: &Body,
    entered: Outcome,
    memory_refused: bool,
) -> Result<Outcome, OutOfMemory>
    ensures { IfOk result (λ answer. ComputesAt core.old core.new
        (cast_inside memory_refused body.now sender entered) answer) }
{
    match entered {
        Outcome::In => {
            let push = Action::Push(sender, Items::none(alloc), body.clone()?);
            take_core_step(core, push, memory_refused)
        }
        entered => Ok(entered),
    }
}
