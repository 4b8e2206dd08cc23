//! A post, in the steps that it takes.

ghost use Rattle.std.specs.Prelude.{◌≡◌, IfOk, true};
ghost use Rattle.hub_core.specs.Facts.{facts};
ghost use Rattle.hub_core.specs.History.{History};
ghost use Rattle.hub_core.specs.Posting.{listing, may_post_on_line};
ghost use Rattle.hub_core.specs.Shows.{Shows};
ghost use Rattle.hub_steps.specs.Performed.{ComputesAt};
ghost use Rattle.hub_steps.specs.Unfolding.{post, send};

use crate::closing::close_listed_ends;
use crate::entering::{enter_queue_or_hop_to_later_one, take_core_step};
use crate::shown::Shown;
use hub_core::{Action, Core, Listing, OutOfMemory, Outcome, Sender};
use hub_envelope::{Body, EndId, Items, MAX_PORTS};

/// Posts a message, where its tests don't refuse it before the first step. A list that holds the
/// end to which the message goes has each of its ports closed.
pub fn post_message(
    core: &mut Core,
    sender: Sender,
    ports: Items<EndId>,
    body: Body,
    memory_refused: bool,
) -> Result<Shown, OutOfMemory>
    ensures { IfOk result (λ shown.
        ComputesAt core.old core.new (post memory_refused ports body sender) shown) }
{
    if !core.may_post_on_line(sender) {
        return Ok(Shown::Answer(Outcome::NotNow));
    }
    let listed = ports.as_slice();
    if listed.len() > MAX_PORTS {
        return Ok(Shown::Answer(Outcome::TooManyPorts));
    }
    match check_port_list(core, sender, listed) {
        Listing::Good => enter_push_and_leave(core, sender, ports, body, memory_refused),
        Listing::HoldsTarget => {
            close_listed_ends(core, listed, memory_refused)?;
            Ok(Shown::Doomed)
        }
        Listing::Bad => Ok(Shown::Answer(Outcome::NotNow)),
    }
}

/// What the ports are to the message of a poster that may post. No ports are a good list to each of
/// them, so that the core is asked about others alone.
#[inline(always)]
fn check_port_list(core: &Core, sender: Sender, ports: &[EndId]) -> Listing
    requires { (h : History) → Shows core.now h → may_post_on_line (facts h) sender ≡ true }
    ensures { (h : History) → Shows core.now h → result ≡ listing (facts h) sender ports.now }
{
    if ports.is_empty() {
        return Listing::Good;
    }
    core.check_port_list(sender, ports)
}

/// Enters, pushes where the poster is inside, and leaves.
fn enter_push_and_leave(
    core: &mut Core,
    sender: Sender,
    ports: Items<EndId>,
    body: Body,
    memory_refused: bool,
) -> Result<Shown, OutOfMemory>
    ensures { IfOk result (λ shown.
        ComputesAt core.old core.new (send memory_refused ports body sender) shown) }
{
    match enter_queue_or_hop_to_later_one(core, sender, memory_refused)? {
        Outcome::In => {
            let push = Action::Push(sender, ports, body);
            let answer = take_core_step(core, push, memory_refused)?;
            // It leaves whatever the push was answered.
            drop(take_core_step(core, Action::Leave(sender), memory_refused)?);
            Ok(Shown::Answer(answer))
        }
        Outcome::Closed => {
            drop(take_core_step(core, Action::Leave(sender), memory_refused)?);
            Ok(Shown::Answer(Outcome::Closed))
        }
        Outcome::Moved => {
            drop(take_core_step(core, Action::Leave(sender), memory_refused)?);
            Ok(Shown::Moving)
        }
        entered => Ok(Shown::Answer(entered)),
    }
}
