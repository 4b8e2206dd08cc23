//! The closing of an end, with the notice of a port.

ghost use Rattle.std.specs.Prelude.{◌≡◌, IfOk, OnOk};
ghost use Rattle.hub_core.specs.Facts.{facts};
ghost use Rattle.hub_core.specs.History.{History};
ghost use Rattle.hub_core.specs.Shows.{Shows};
ghost use Rattle.hub_steps.specs.Performed.{ComputesAt};
ghost use Rattle.hub_steps.specs.Unfolding.{close, close_each, close_ports};
ghost use Rattle.hub_steps.specs.Unfolding.{line_for_closing_notice, shown_by_closing_outcomes};
ghost use Rattle.hub_steps.specs.Unfolding.{sweep, tell};

use crate::entering::{
    enter_queue_or_hop_to_later_one, take_core_step, take_step_and_return_shown,
};
use crate::shown::Shown;
use hub_core::{Action, Core, OutOfMemory, Outcome, Sender};
use hub_envelope::{EndId, Envelope};

/// Closes an end. Where it is a port whose Close would be answered `Done`, its own poster puts the
/// notice before.
pub fn close_end(core: &mut Core, end: EndId, memory_refused: bool) -> Result<Shown, OutOfMemory>
    ensures { IfOk result (λ shown.
        ComputesAt core.old core.new (close memory_refused end) shown) }
{
    let Some(line) = line_for_closing_notice(core, end) else {
        return take_step_and_return_shown(core, Action::Close(end), memory_refused);
    };
    let told = enter_and_put_notice(core, line, memory_refused)?;
    take_core_step(core, Action::Leave(line), memory_refused)?;
    let closed = take_core_step(core, Action::Close(end), memory_refused)?;
    Ok(shown_by_closing_outcomes(told, closed))
}

/// The line on which the closing of a port puts its notice, where its Close would be answered
/// `Done` now. No other end has one.
fn line_for_closing_notice(core: &Core, end: EndId) -> Option<Sender>
    ensures { (h : History) → Shows core.now h → result ≡ line_for_closing_notice end (facts h) }
{
    if core.may_close(end) {
        core.line_port_posts_on(end)
    } else {
        None
    }
}

/// Enters, and puts the notice where the poster is inside. Answers what the Notice was answered, or
/// else what the last Enter was.
fn enter_and_put_notice(
    core: &mut Core,
    line: Sender,
    memory_refused: bool,
) -> Result<Outcome, OutOfMemory>
    ensures { IfOk result (λ told. ComputesAt core.old core.new (tell memory_refused line) told) }
{
    match enter_queue_or_hop_to_later_one(core, line, memory_refused)? {
        Outcome::In => take_core_step(core, Action::Notice(line), memory_refused),
        entered => Ok(entered),
    }
}

/// What a closing shows, by what came of the notice.
fn shown_by_closing_outcomes(told: Outcome, closed: Outcome) -> Shown
    ensures { result ≡ shown_by_closing_outcomes told closed }
{
    match told {
        Outcome::NoMemory => Shown::DoneNoMemory,
        Outcome::Moved => Shown::DoneMoving,
        _ => Shown::Answer(closed),
    }
}

/// Closes each end, in order.
pub fn close_listed_ends(
    core: &mut Core,
    ends: &[EndId],
    memory_refused: bool,
) -> Result<(), OutOfMemory>
    ensures { OnOk result (ComputesAt core.old core.new (close_each memory_refused ends.now) tt) }
{
    for end in ends {
        close_end(core, *end, memory_refused)?;
    }
    Ok(())
}

/// Sweeps an end, and closes each end that the discarded envelopes name, in order.
pub fn sweep_end_and_close_discarded_ports(
    core: &mut Core,
    end: EndId,
    memory_refused: bool,
) -> Result<Shown, OutOfMemory>
    ensures { IfOk result (λ shown.
        ComputesAt core.old core.new (sweep memory_refused end) shown) }
{
    let answer = take_core_step(core, Action::Sweep(end), memory_refused)?;
    if let Outcome::Discarded(envelopes) = &answer {
        close_ports_of_envelopes(core, envelopes.as_slice(), memory_refused)?;
    }
    Ok(Shown::Answer(answer))
}

/// Closes the ports of each envelope, in order.
fn close_ports_of_envelopes(
    core: &mut Core,
    envelopes: &[Envelope],
    memory_refused: bool,
) -> Result<(), OutOfMemory>
    ensures { OnOk result (ComputesAt core.old core.new
        (close_ports memory_refused envelopes.now) tt) }
{
    for envelope in envelopes {
        close_listed_ends(core, envelope.ports.as_slice(), memory_refused)?;
    }
    Ok(())
}
