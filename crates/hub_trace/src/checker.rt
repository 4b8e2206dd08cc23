//! The checker: what was got of each line beside what was accepted there.

ghost use Rattle.std.specs.Prelude.{◌≡◌, ◌↔◌, map, IfOk, IsTrue, MatchOption, slice_get, Some, ◌<◌};
ghost use Rattle.std.specs.Prelude.{length};
ghost use Rattle.std.specs.List.{list_any};
ghost use Rattle.hub_trace.specs.Accepted.{accepted};
ghost use Rattle.hub_trace.specs.Got.{got};
ghost use Rattle.hub_trace.specs.Clean.{IsClean, IsCleanLine};
ghost use Rattle.hub_trace.specs.Fault.{IsFirstFault, IsRight, is_name_of, has_notice};
ghost use Rattle.hub_trace.specs.Fault.{names_delivery, kind_at};
ghost use Rattle.hub_trace.specs.Verdict.{IsVerdict};
ghost use Rattle.hub_trace.specs.declared.verdict.Verdict.TheVariants.{Clean};
ghost use Rattle.hub_trace.specs.Views.{RisesByLine, accepted_in, delivery_of, got_among};
ghost use Rattle.hub_trace.specs.Views.{receipt_of};

use crate::accepted::{
    AcceptedEnvelope, accepted_envelopes_of_sender_line, sorted_accepted_envelopes_of_logs,
};
use crate::log::Log;
use crate::log_entry::has_same_epoch_and_number;
use crate::received::{Incoming, leading_arrivals_of_sender_line, sorted_arrivals_of_all_logs};
use crate::verdict::{FaultKind, Verdict};
use hub_envelope::{OutOfMemory, Posted};
use std::alloc::Global;

/// Reads the logs of one run together, and says whether what was got of each line is the beginning
/// of what was accepted there, with nothing got at an end after it was closed and nothing got of a
/// line after a notice of it. Else it names the fault of the least end, then line, then place.
pub fn check(alloc: Global, logs: &[Log]) -> Result<Verdict, OutOfMemory>
    ensures clean { IfOk result (λ verdict. (verdict ≡ Clean) ↔ IsClean logs.now) }
    ensures verdict { IfOk result
        (λ verdict. IsVerdict (accepted logs.now) (got logs.now) verdict) }
{
    let accepted = sorted_accepted_envelopes_of_logs(alloc, logs)?;
    let arrivals = sorted_arrivals_of_all_logs(alloc, logs)?;
    Ok(first_fault(&accepted, &arrivals))
}

/// The fault of the least end, then line, then place.
fn first_fault(accepted: &[AcceptedEnvelope<'_>], arrivals: &[Incoming<'_>]) -> Verdict
    requires accepted { RisesByLine (λ a. a.posted) accepted.now }
    requires arrivals { RisesByLine (λ a. a.posted) arrivals.now }
    ensures { IsVerdict (accepted_in accepted.now) (got_among arrivals.now) result }
{
    let mut rest = arrivals;
    while let Some(first) = rest.first() {
        let end = first.posted.end;
        let line = first.posted.line;
        let put = accepted_envelopes_of_sender_line(accepted, end, line);
        let got = leading_arrivals_of_sender_line(rest, end, line);
        if let Some((place, kind)) = first_fault_of_sender_line(put, got) {
            return Verdict::Fault {
                end,
                line,
                place,
                kind,
            };
        }
        rest = &rest[got.len()..];
    }
    Verdict::Clean
}

/// The first fault in what was got of one line.
fn first_fault_of_sender_line(
    accepted: &[AcceptedEnvelope<'_>],
    got: &[Incoming<'_>],
) -> Option<(usize, FaultKind)>
    ensures { MatchOption result
        (IsCleanLine (map delivery_of accepted.now) (map receipt_of got.now))
        (λ fault. IsFirstFault (map delivery_of accepted.now) (map receipt_of got.now)
        fault.0 fault.1) }
{
    let mut noticed = false;
    for (place, arrival) in got.iter().enumerate() {
        if !is_arrival_right(accepted, noticed, place, arrival) {
            let kind = fault_kind_of_arrival(accepted, &got[..place], noticed, arrival);
            return Some((place, kind));
        }
        // What is right has no notice before it.
        noticed = arrival.content.is_notice();
    }
    None
}

/// Whether the arrival came in time and is what was accepted at its place. `noticed` says whether a
/// notice of the line was got before.
fn is_arrival_right(
    accepted: &[AcceptedEnvelope<'_>],
    noticed: bool,
    place: usize,
    arrival: &Incoming<'_>,
) -> bool
    ensures { IsTrue result
        ↔ IsRight (map delivery_of accepted.now) noticed place (receipt_of arrival.now) }
{
    match accepted.get(place) {
        Some(expected) => {
            !arrival.late
                && !noticed
                && expected.posted == arrival.posted
                && expected.content.is_same(arrival.content)
        }
        None => false,
    }
}

/// What is wrong with an arrival that isn't right. The earlier ones of its line are all before it.
fn fault_kind_of_arrival(
    accepted: &[AcceptedEnvelope<'_>],
    earlier: &[Incoming<'_>],
    noticed: bool,
    arrival: &Incoming<'_>,
) -> FaultKind
    requires { noticed ≡ has_notice (map receipt_of earlier.now) }
    ensures { result ≡ kind_at (map delivery_of accepted.now) (map receipt_of earlier.now)
        (length earlier.now) (receipt_of arrival.now) }
{
    if arrival.late {
        return FaultKind::AfterClose;
    }
    if noticed {
        return FaultKind::AfterNotice;
    }
    if is_name_of_accepted_envelope_at_place(accepted, earlier.len(), &arrival.posted) {
        return FaultKind::Changed;
    }
    if is_name_among_got(earlier, &arrival.posted) {
        return FaultKind::Twice;
    }
    if is_name_among_accepted(accepted, &arrival.posted) {
        return FaultKind::Gap;
    }
    FaultKind::Foreign
}

/// Whether the accepted envelope at the place has this name.
fn is_name_of_accepted_envelope_at_place(
    accepted: &[AcceptedEnvelope<'_>],
    place: usize,
    posted: &Posted,
) -> bool
    ensures { result ≡ names_delivery (slice_get (map delivery_of accepted.now) place) posted.now }
{
    match accepted.get(place) {
        Some(expected) => has_same_epoch_and_number(&expected.posted, posted),
        None => false,
    }
}

/// Whether an accepted envelope has this name.
fn is_name_among_accepted(accepted: &[AcceptedEnvelope<'_>], posted: &Posted) -> bool
    ensures { result
        ≡ list_any (λ d. is_name_of d.posted posted.now) (map delivery_of accepted.now) }
{
    accepted
        .iter()
        .any(|a| has_same_epoch_and_number(&a.posted, posted))
}

/// Whether an envelope that was got has this name.
fn is_name_among_got(got: &[Incoming<'_>], posted: &Posted) -> bool
    ensures { result
        ≡ list_any (λ r. is_name_of r.delivery.posted posted.now) (map receipt_of got.now) }
{
    got.iter()
        .any(|a| has_same_epoch_and_number(&a.posted, posted))
}
