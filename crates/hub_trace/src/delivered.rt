//! What was delivered of each line.

ghost use Rattle.std.specs.Prelude.{◌≡◌, ◌≢◌, ℕ, [], IfOk, map, Some};
ghost use Rattle.std.specs.List.{All, AllPairs};
ghost use Rattle.hub_trace.specs.Deliveries.{AreDeliveries, IsEarlierLine, names_of, names_under};
ghost use Rattle.hub_trace.specs.Deliveries.{delivered_line_text, DeliveriesAreOne};
ghost use Rattle.hub_trace.specs.Views.{RisesByLine, got_among};

use crate::log::Log;
use crate::received::{Incoming, leading_arrivals_of_sender_line, sorted_arrivals_of_all_logs};
use hub_envelope::{EndId, LineId, OutOfMemory, Posted};
use std::alloc::Global;
use std::fmt;

/// What was got of one line of an end.
#[derive(Debug, Drop)]
pub struct SenderLineDeliveries {
    pub end: EndId,
    pub line: LineId,
    /// The names of the envelopes and notices that were got, in the order in which they were got:
    /// by the epochs at which the agents' logs had adopted the end, then in the order of the logs.
    pub names: Vec<Posted>,
}

/// `end E line L EP:N EP:N ..`: the end, the line number, and the epoch and number of each name.
impl fmt::Display for SenderLineDeliveries {
    ghost output = { λ d. Some (delivered_line_text d) };

    fn fmt<W: fmt::Write>(&self, f: &mut fmt::Formatter<W>) -> fmt::Result {
        let end = self.end.0;
        let line = self.line.0;
        write!(f, "end {end} line {line}")?;
        for posted in &self.names {
            let epoch = posted.epoch;
            let number = posted.number;
            write!(f, " {epoch}:{number}")?;
        }
        Ok(())
    }
}

/// Reads the logs of one run together, and lists what was got of each line of each end. A line that
/// delivered nothing isn't listed; a notice that was taken counts as got. The lines are in the
/// order of their ends and, within an end, of their numbers.
///
/// It judges nothing: what was got twice stands twice, and what was got after the end was closed
/// or after a notice stands too. For n entries it takes a time in the order of n log n.
pub fn deliveries_by_sender_line(
    alloc: Global,
    logs: &[Log],
) -> Result<Vec<SenderLineDeliveries>, OutOfMemory>
    ensures { IfOk result (λ lines. AreDeliveries logs.now lines.items) }
{
    let arrivals = sorted_arrivals_of_all_logs(alloc, logs)?;
    group_arrivals_by_sender_line(alloc, &arrivals)
}

/// The lines of the arrivals.
fn group_arrivals_by_sender_line(
    alloc: Global,
    arrivals: &[Incoming<'_>],
) -> Result<Vec<SenderLineDeliveries>, OutOfMemory>
    requires { RisesByLine (λ a. a.posted) arrivals.now }
    ensures rising { IfOk result (λ lines. AllPairs IsEarlierLine lines.items) }
    ensures none_empty { IfOk result (λ lines. All (λ d. d.names.items ≢ []) lines.items) }
    ensures names { IfOk result (λ lines. (end line : ℕ) →
        names_under end line lines.items ≡ names_of (got_among arrivals.now end line)) }
{
    let mut lines = Vec::new(alloc);
    let mut rest = arrivals;
    while let Some(first) = rest.first() {
        let end = first.posted.end;
        let line = first.posted.line;
        let got = leading_arrivals_of_sender_line(rest, end, line);
        let names = envelope_names_of_arrivals(alloc, got)?;
        lines.push(SenderLineDeliveries { end, line, names })?;
        rest = &rest[got.len()..];
    }
    Ok(lines)
}

/// The names of the arrivals.
fn envelope_names_of_arrivals(
    alloc: Global,
    arrivals: &[Incoming<'_>],
) -> Result<Vec<Posted>, OutOfMemory>
    ensures { IfOk result (λ names. names.items ≡ map (λ a. a.posted) arrivals.now) }
{
    Ok(arrivals.iter().map(|a| a.posted).collect(alloc)?)
}

/// The law of `deliveries_by_sender_line`: of the same logs it lists the same lines, with the same
/// names in the same order. The function does nothing; the law is its contract.
pub fn prove_deliveries_deterministic()
    ensures { DeliveriesAreOne }
{}
