//! What the logs say was got, in order of end, line and stretch.

ghost use Rattle.std.specs.Prelude.{◌≡◌, ◌<◌, ◌≤◌, ℕ, false, true, drop, length, slice_index_or};
ghost use Rattle.std.specs.Prelude.{IfOk, OnOk, ◌++◌, ◌==◌};
ghost use Rattle.std.specs.List.{filter, All};
ghost use Rattle.hub_trace.specs.Accepted.{is_of};
ghost use Rattle.hub_trace.specs.Got.{all_end_events, end_events, got, stretches_joined, receipts};
ghost use Rattle.hub_trace.specs.declared.received.Incoming.{Incoming};
ghost use Rattle.hub_trace.specs.Views.{IsOwn, RisesByLine, RisesByEnd, end_events_in, got_among};
ghost use Rattle.hub_trace.specs.Views.{receipts_in};

use crate::content::Content;
use crate::log::Log;
use crate::log_entry::{Delivery, LogEntry, is_of_later_sender_line};
use hub_envelope::{EndId, LineId, OutOfMemory, Posted};
use std::alloc::Global;
use std::collections::BTreeMap;

/// What happened at an end: something was got there, or, where nothing was, the end was closed.
#[derive(Clone, Copy, Debug)]
pub(crate) struct Happening<'a> {
    pub(crate) end: EndId,
    /// The epoch at which the log's agent last adopted the end, 0 where it never did.
    pub(crate) stretch: u32,
    pub(crate) got: Option<&'a Delivery>,
}

/// An envelope or a notice that was got.
#[derive(Clone, Copy, Debug)]
pub(crate) struct Incoming<'a> {
    pub(crate) posted: Posted,
    pub(crate) content: &'a Content,
    /// Whether the end had been closed before.
    pub(crate) late: bool,
}

/// What was got, by end and line, and within a line by stretch. What was got in equal stretches
/// stands in the order of the logs.
pub(crate) fn sorted_arrivals_of_all_logs(
    alloc: Global,
    logs: &[Log],
) -> Result<Vec<Incoming<'_>>, OutOfMemory>
    ensures lines { IfOk result (λ v. (end line : ℕ) →
        got_among v.items end line ≡ got logs.now end line) }
    ensures order { IfOk result (λ v. RisesByLine (λ a. a.posted) v.items) }
{
    let happenings = sorted_happenings_of_all_logs(alloc, logs)?;
    let mut arrivals = arrivals_among_happenings(alloc, &happenings)?;
    arrivals.sort_by_key(|a| (a.posted.end.0, a.posted.line.0))?;
    Ok(arrivals)
}

/// What happened at all ends, by end and stretch. What happened in equal stretches stands in the
/// order of the logs.
fn sorted_happenings_of_all_logs(
    alloc: Global,
    logs: &[Log],
) -> Result<Vec<Happening<'_>>, OutOfMemory>
    ensures ends { IfOk result (λ v. (end : ℕ) →
        end_events_in v.items end ≡ stretches_joined logs.now end) }
    ensures order { IfOk result (λ v. RisesByEnd v.items) }
    ensures own { IfOk result (λ v. All IsOwn v.items) }
{
    let mut happenings = happenings_of_all_logs(alloc, logs)?;
    happenings.sort_by_key(|h| (h.end.0, h.stretch))?;
    Ok(happenings)
}

/// What happened at all ends, in the order of the logs.
fn happenings_of_all_logs(alloc: Global, logs: &[Log]) -> Result<Vec<Happening<'_>>, OutOfMemory>
    ensures ends { IfOk result (λ v. (end : ℕ) →
        end_events_in v.items end ≡ all_end_events logs.now end) }
    ensures own { IfOk result (λ v. All IsOwn v.items) }
{
    let mut happenings = Vec::new(alloc);
    for log in logs {
        add_happenings_of_log(alloc, log.entries(), &mut happenings)?;
    }
    Ok(happenings)
}

/// Adds what the entries of one log say.
fn add_happenings_of_log<'a>(
    alloc: Global,
    entries: &'a [LogEntry],
    happenings: &mut Vec<Happening<'a>>,
) -> Result<(), OutOfMemory>
    requires { All IsOwn happenings.old.items }
    ensures ends { OnOk result ((end : ℕ) → end_events_in happenings.new.items end
        ≡ end_events_in happenings.old.items end ++ end_events end 0 entries.now) }
    ensures own { OnOk result (All IsOwn happenings.new.items) }
{
    let mut stretches = BTreeMap::new(alloc);
    for entry in entries {
        match entry {
            LogEntry::Put(_) => {}
            LogEntry::Adopted { end, epoch } => {
                stretches.insert(end.0, *epoch)?;
            }
            LogEntry::Got(delivery) => {
                let end = delivery.posted.end;
                let stretch = stretches.get(&end.0).copied().unwrap_or(0);
                happenings.push(Happening {
                    end,
                    stretch,
                    got: Some(delivery),
                })?;
            }
            LogEntry::Closed { end } => {
                let stretch = stretches.get(&end.0).copied().unwrap_or(0);
                happenings.push(Happening {
                    end: *end,
                    stretch,
                    got: None,
                })?;
            }
        }
    }
    Ok(())
}

/// The envelopes among what happened, which stands by ends.
fn arrivals_among_happenings<'a>(
    alloc: Global,
    happenings: &[Happening<'a>],
) -> Result<Vec<Incoming<'a>>, OutOfMemory>
    requires order { RisesByEnd happenings.now }
    requires own { All IsOwn happenings.now }
    ensures { IfOk result (λ v. (end : ℕ) →
        receipts_in v.items end ≡ receipts false (end_events_in happenings.now end)) }
{
    let mut arrivals = Vec::new(alloc);
    let mut closed: Option<u32> = None;
    for happening in happenings {
        match happening.got {
            None => closed = Some(happening.end.0),
            Some(delivery) => {
                let late = closed == Some(happening.end.0);
                arrivals.push(Incoming {
                    posted: delivery.posted,
                    content: &delivery.content,
                    late,
                })?;
            }
        }
    }
    Ok(arrivals)
}

/// The arrivals at the front that are of this line. The first arrival is.
pub(crate) fn leading_arrivals_of_sender_line<'s, 'a>(
    arrivals: &'s [Incoming<'a>],
    end: EndId,
    line: LineId,
) -> &'s [Incoming<'a>]
    requires order { RisesByLine (λ a. a.posted) arrivals.now }
    requires some { 0 < length arrivals.now }
    requires first { (d : Incoming) →
        is_of end.0 line.0 (slice_index_or arrivals.now 0 d).posted ≡ true }
    ensures some { 0 < length result.now }
    ensures within { length result.now ≤ length arrivals.now }
    ensures front { arrivals.now ≡ result.now ++ drop (length result.now) arrivals.now }
    ensures line { result.now ≡ filter (λ a. is_of end.0 line.0 a.posted) arrivals.now }
{
    let count = arrivals.partition_point(|a| !is_of_later_sender_line(&a.posted, end, line));
    &arrivals[..count]
}
