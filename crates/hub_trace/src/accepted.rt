//! What the logs say was accepted, in order of end, line and name.

ghost use Rattle.std.specs.Prelude.{◌≡◌, ℕ, map, IfOk, OnOk, ◌++◌};
ghost use Rattle.std.specs.List.{filter};
ghost use Rattle.hub_trace.specs.Accepted.{accepted, all_puts, is_of, puts};
ghost use Rattle.hub_trace.specs.Views.{RisesByLine, accepted_in, delivery_of};

use crate::content::Content;
use crate::log::Log;
use crate::log_entry::{LogEntry, is_of_earlier_sender_line, is_of_later_sender_line};
use hub_envelope::{EndId, LineId, OutOfMemory, Posted};
use std::alloc::Global;

/// An envelope or a notice that was accepted.
#[derive(Clone, Copy, Debug)]
pub(crate) struct AcceptedEnvelope<'a> {
    pub(crate) posted: Posted,
    pub(crate) content: &'a Content,
}

/// The accepted envelopes of all logs, by end, line, epoch and number. Envelopes of equal names
/// stand in the order of the logs.
pub(crate) fn sorted_accepted_envelopes_of_logs(
    alloc: Global,
    logs: &[Log],
) -> Result<Vec<AcceptedEnvelope<'_>>, OutOfMemory>
    ensures lines { IfOk result (λ v. (end line : ℕ) →
        accepted_in v.items end line ≡ accepted logs.now end line) }
    ensures order { IfOk result (λ v. RisesByLine (λ a. a.posted) v.items) }
{
    let mut found = accepted_envelopes_of_logs(alloc, logs)?;
    found.sort_by_key(|a| (
        a.posted.end.0,
        a.posted.line.0,
        a.posted.epoch,
        a.posted.number,
    ))?;
    Ok(found)
}

/// The accepted envelopes in the order of the logs.
fn accepted_envelopes_of_logs(
    alloc: Global,
    logs: &[Log],
) -> Result<Vec<AcceptedEnvelope<'_>>, OutOfMemory>
    ensures { IfOk result (λ v. map delivery_of v.items ≡ all_puts logs.now) }
{
    let mut found = Vec::new(alloc);
    for log in logs {
        add_accepted_of_log(log.entries(), &mut found)?;
    }
    Ok(found)
}

/// Adds the accepted envelopes of one log.
fn add_accepted_of_log<'a>(
    entries: &'a [LogEntry],
    found: &mut Vec<AcceptedEnvelope<'a>>,
) -> Result<(), OutOfMemory>
    ensures { OnOk result
        (map delivery_of found.new.items ≡ map delivery_of found.old.items ++ puts entries.now) }
{
    for entry in entries {
        if let LogEntry::Put(delivery) = entry {
            found.push(AcceptedEnvelope {
                posted: delivery.posted,
                content: &delivery.content,
            })?;
        }
    }
    Ok(())
}

/// The accepted envelopes of one line.
pub(crate) fn accepted_envelopes_of_sender_line<'s, 'a>(
    accepted: &'s [AcceptedEnvelope<'a>],
    end: EndId,
    line: LineId,
) -> &'s [AcceptedEnvelope<'a>]
    requires { RisesByLine (λ a. a.posted) accepted.now }
    ensures { result.now ≡ filter (λ a. is_of end.0 line.0 a.posted) accepted.now }
{
    let from = accepted.partition_point(|a| is_of_earlier_sender_line(&a.posted, end, line));
    let rest = &accepted[from..];
    let count = rest.partition_point(|a| !is_of_later_sender_line(&a.posted, end, line));
    &rest[..count]
}
