//! What an agent writes of posts, and of ends that it has adopted and closed.

ghost use Rattle.std.specs.Prelude.{◌∷◌, [], ℕ, OnOk};
ghost use Rattle.hub_agent.specs.Entries.{
  WritesEntries,
  answer_entries,
  cast_entries,
  closed_entries,
  closing_entries,
  doomed_entries,
  outcome_entries,
};
ghost use Rattle.hub_ports.specs.Refusing.{answer_with};
ghost use Rattle.hub_ports.specs.declared.parcel.Parcel.{Parcel};
ghost use Rattle.hub_trace.specs.Accepted.{message_at, notice_at};
ghost use Rattle.hub_trace.specs.declared.log_entry.LogEntry.TheVariants.{Adopted, Closed, Put};

use hub_broadcast::CastOutcome;
use hub_envelope::{Body, EndId, OutOfMemory};
use hub_logging::Scribe;
use hub_loop::Held;
use hub_ports::{ClosedPort, Closings, Noticed, SendRefusal};
use hub_queue::Posted;
use hub_trace::Content;

/// Logs a post that was accepted.
fn log_put(
    scribe: &mut Scribe,
    posted: Posted,
    ports: &[EndId],
    body: &Body,
) -> Result<(), OutOfMemory>
    ensures { OnOk result (WritesEntries (Put (message_at posted ports.now body.now) ∷ [])
        scribe.old scribe.new) }
{
    let content = scribe.content_of_message(ports, body)?;
    scribe.log_posted(posted, content)
}

/// How often an end has moved. A member and a line are never adopted.
pub(crate) fn count_moves_of_end(held: Option<&Held>) -> Option<u32> {
    match held? {
        Held::Port(port) => Some(port.moves()),
        Held::Client(queue) => Some(queue.moves()),
        Held::Worker(queue) => Some(queue.moves()),
        Held::Member(_) | Held::Line(_) => Some(0),
    }
}

/// Logs that an end was adopted. The loop holds what was adopted, so there is an epoch to be
/// logged; were there none, an error is better than a log that leaves an adoption out.
pub(crate) fn log_adopted(
    scribe: &mut Scribe,
    end: EndId,
    epoch: Option<u32>,
) -> Result<(), OutOfMemory>
    ensures { OnOk result ((epoch : ℕ)
        × WritesEntries (Adopted end epoch ∷ []) scribe.old scribe.new) }
{
    let Some(epoch) = epoch else {
        return Err(OutOfMemory);
    };
    scribe.log_adoption(end, epoch)
}

/// Logs that an end was closed.
pub(crate) fn log_close(scribe: &mut Scribe, end: EndId) -> Result<(), OutOfMemory>
    ensures { OnOk result (WritesEntries (Closed end ∷ []) scribe.old scribe.new) }
{
    scribe.log_closing(end)
}

/// Logs a notice that was put.
pub(crate) fn log_closing_notice(scribe: &mut Scribe, posted: Posted) -> Result<(), OutOfMemory>
    ensures { OnOk result (WritesEntries (Put (notice_at posted) ∷ []) scribe.old scribe.new) }
{
    scribe.log_posted(posted, Content::Notice)
}

/// Logs the notice of a port that was closed, where it was put, and the closing.
fn log_notice_and_closing_of_port(
    scribe: &mut Scribe,
    end: EndId,
    noticed: Noticed,
) -> Result<(), OutOfMemory>
    ensures { OnOk result (WritesEntries (closing_entries end noticed) scribe.old scribe.new) }
{
    match noticed {
        Noticed::Put(posted) => log_closing_notice(scribe, posted)?,
        Noticed::OutOfMemory => return Err(OutOfMemory),
        Noticed::PeerClosed | Noticed::Moving => {}
    }
    log_close(scribe, end)
}

/// Logs that an end was closed, a port with what became of its notice.
pub(crate) fn log_closed_end(
    scribe: &mut Scribe,
    end: EndId,
    port: Option<ClosedPort>,
) -> Result<(), OutOfMemory>
    ensures { OnOk result (WritesEntries (closed_entries end port) scribe.old scribe.new) }
{
    match port {
        Some(port) => log_notice_and_closing_of_port(scribe, end, port.noticed),
        None => log_close(scribe, end),
    }
}

/// Logs what became of the ports that a doomed post has closed.
fn log_closed_ports(scribe: &mut Scribe, closings: &[ClosedPort]) -> Result<(), OutOfMemory>
    ensures { OnOk result (WritesEntries (doomed_entries closings.now) scribe.old scribe.new) }
{
    for closing in closings {
        log_notice_and_closing_of_port(scribe, closing.end, closing.noticed)?;
    }
    Ok(())
}

/// Logs what a post has come to: an accepted one, or what a doomed one has closed. What was refused
/// for want of memory is an error.
pub(crate) fn log_post_result(
    scribe: &mut Scribe,
    answer: Result<Posted, SendRefusal>,
    closings: &Closings,
    ports: &[EndId],
    body: &Body,
) -> Result<(), OutOfMemory>
    ensures { (parcel : Parcel) → OnOk result (WritesEntries (answer_entries ports.now body.now
        (answer_with answer parcel closings.now)) scribe.old scribe.new) }
{
    match answer {
        Ok(posted) => log_put(scribe, posted, ports, body),
        Err(SendRefusal::Doomed) => log_closed_ports(scribe, closings.as_slice()),
        Err(SendRefusal::OutOfMemory) => Err(OutOfMemory),
        Err(_) => Ok(()),
    }
}

/// Logs the posts of a cast that were accepted.
pub(crate) fn log_accepted_posts_of_cast(
    scribe: &mut Scribe,
    outcomes: &[(EndId, CastOutcome)],
    body: &Body,
) -> Result<(), OutOfMemory>
    ensures { OnOk result (WritesEntries (cast_entries body.now outcomes.now)
        scribe.old scribe.new) }
{
    let mut refused = Ok(());
    for (_, outcome) in outcomes {
        log_cast_post_if_accepted(scribe, outcome, body)?;
        if matches!(outcome, CastOutcome::OutOfMemory) {
            refused = Err(OutOfMemory);
        }
    }
    refused
}

/// Logs a post of a cast, where it was accepted.
fn log_cast_post_if_accepted(
    scribe: &mut Scribe,
    outcome: &CastOutcome,
    body: &Body,
) -> Result<(), OutOfMemory>
    ensures { OnOk result (WritesEntries (outcome_entries body.now outcome.now)
        scribe.old scribe.new) }
{
    match outcome {
        CastOutcome::Accepted(posted) => log_put(scribe, *posted, &[], body),
        CastOutcome::Closed | CastOutcome::Moving | CastOutcome::OutOfMemory => Ok(()),
    }
}
