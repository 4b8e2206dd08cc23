//! How an agent ends: its loop is ended, and what was closed there is logged.

ghost use Rattle.std.specs.Prelude.{◌≡◌, ◌≤◌, ◌+◌, ℕ, List, IfOk, OnOk};
ghost use Rattle.hub_agent.specs.Entries.{AreEndings, WritesEntries, ending_entries, log_and};
ghost use Rattle.hub_agent.specs.Owning.{times_held, lost, times};
ghost use Rattle.hub_trace.specs.declared.log_entry.LogEntry.{LogEntry};

use crate::agent::AgentLoop;
use crate::logging::{log_close, log_closing_notice};
use crate::shared::Shared;
use hub_broadcast::Roster;
use hub_envelope::{EndId, OutOfMemory};
use hub_locked::Lends;
use hub_logging::Scribe;
use hub_loop::{Checkpoint, Ended, LoopError};
use hub_ports::{ClosedPort, Noticed};
use hub_queue::{Grave, Posted};
use hub_trace::Log;
use std::alloc::Global;
use std::collections::{BTreeMap, BTreeSet};
use std::sync::Wait;

/// Ends the loop. Where memory runs out it goes on once.
fn end_loop<C: Checkpoint, K: Lends<Roster>, R: Wait>(
    rt: &R,
    shared: &Shared,
    roster: &mut K,
    event_loop: AgentLoop<'_, C>,
) -> Result<Ended, OutOfMemory> {
    let Shared { hub, directory } = shared;
    let event_loop = match event_loop.end(rt, hub, directory, roster) {
        Ok(ended) => return Ok(ended),
        Err((LoopError::OutOfMemory, event_loop)) => event_loop,
    };
    match event_loop.end(rt, hub, directory, roster) {
        Ok(ended) => Ok(ended),
        Err((LoopError::OutOfMemory, _)) => Err(OutOfMemory),
    }
}

/// Discards what waits at ends that were closed. Ports that are named there stay in flight.
fn discard_waiting_messages<R: Wait>(rt: &R, graves: Vec<Grave>) -> Result<(), OutOfMemory> {
    let mut swept = Ok(());
    for grave in graves {
        if grave.sweep_until_empty(rt).is_err() {
            swept = Err(OutOfMemory);
        }
    }
    swept
}

/// The notices that were put, by the ports that were closed.
fn collect_notices_put_by_closed_ports(
    alloc: Global,
    closed: &[ClosedPort],
) -> Result<BTreeMap<EndId, Posted>, OutOfMemory> {
    let mut notices = BTreeMap::new(alloc);
    for port in closed {
        match port.noticed {
            Noticed::Put(posted) => {
                notices.insert(port.end, posted)?;
            }
            Noticed::OutOfMemory => return Err(OutOfMemory),
            Noticed::PeerClosed | Noticed::Moving => {}
        }
    }
    Ok(notices)
}

/// The ends of the list, each once.
fn collect_ends_into_set(alloc: Global, ends: &[EndId]) -> Result<BTreeSet<EndId>, OutOfMemory>
    ensures { IfOk result (λ set. (e : ℕ) → times e set.keys ≤ times e ends.now) }
{
    let mut set = BTreeSet::new(alloc);
    for end in ends {
        set.insert(*end)?;
    }
    Ok(set)
}

/// Logs what was closed when the loop ended: for each end that was swept the notice, where it was
/// put, and the closing, where the loop held the end; then the other notices.
fn log_all_closed(
    alloc: Global,
    scribe: &mut Scribe,
    held: &[EndId],
    ended: &Ended,
) -> Result<(), OutOfMemory>
    ensures written { OnOk result ((entries : List LogEntry) × AreEndings entries
        × WritesEntries entries scribe.old scribe.new) }
    ensures own { OnOk result ((e : ℕ) →
        lost e scribe.new.log.1 ≤ lost e scribe.old.log.1 + times e held.now) }
{
    let mut left = collect_ends_into_set(alloc, held)?;
    let mut notices = collect_notices_put_by_closed_ports(alloc, &ended.noticed)?;
    for swept in &ended.swept {
        let end = swept.closed_end_id();
        let notice = notices.remove(&end);
        let was_held = left.remove(&end);
        log_notice_and_closing_if_held(scribe, end, notice, was_held)?;
    }
    for posted in notices.values() {
        log_closing_notice(scribe, *posted)?;
    }
    Ok(())
}

/// Logs the notice of an end, where it was put, and the closing, where the loop held the end.
fn log_notice_and_closing_if_held(
    scribe: &mut Scribe,
    end: EndId,
    notice: Option<Posted>,
    is_held: bool,
) -> Result<(), OutOfMemory>
    ensures { OnOk result (WritesEntries (ending_entries end notice is_held)
        scribe.old scribe.new) }
{
    if let Some(posted) = notice {
        log_closing_notice(scribe, posted)?;
    }
    if is_held {
        log_close(scribe, end)?;
    }
    Ok(())
}

/// Ends the loop of an agent, discards what waits at the ends that it has closed, and answers the
/// log.
pub(crate) fn finish_loop<C: Checkpoint, K: Lends<Roster>, R: Wait>(
    alloc: Global,
    rt: &R,
    shared: &Shared,
    roster: &mut K,
    event_loop: AgentLoop<'_, C>,
    mut scribe: Scribe,
    graves: Vec<Grave>,
) -> Result<Log, OutOfMemory>
    ensures written { IfOk result (λ log. (entries : List LogEntry) × AreEndings entries
        × (log ≡ log_and scribe.log entries)) }
    ensures own { IfOk result (λ log. (e : ℕ) →
        lost e log.1 ≤ lost e scribe.log.1 + times_held event_loop.entry.holding.ends.held e) }
{
    let held = event_loop.end_numbers();
    let ended = end_loop(rt, shared, roster, event_loop);
    let swept = discard_waiting_messages(rt, graves);
    log_all_closed(alloc, &mut scribe, &held?, &ended?)?;
    swept?;
    Ok(scribe.into_log())
}
