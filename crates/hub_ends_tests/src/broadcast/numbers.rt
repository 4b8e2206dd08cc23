//! Joins with the numbers of two counts of ends.
use crate::broadcast::{NO_PORTS, try_join};
use hub_broadcast::{CastOutcome, JoinError, Member, Roster};
use hub_depot::Depot;
use hub_envelope::EndId;
use hub_queue::{Ends, Onward};
use hub_test_parts::body;
use std::alloc::Global;
use std::sync::Wait;
use std::test::Fail;

/// Whether a join with the next number of a count is refused for that number, which isn't used.
fn is_refused(alloc: Global, roster: &mut Roster, drawn: u32) -> bool {
    let mut others = Ends { drawn };
    match try_join(alloc, roster, &mut others) {
        Some(Err(error)) => error == JoinError::OtherEnds && others.drawn == drawn,
        _ => false,
    }
}

/// The one end at which a cast was accepted, where there is no other outcome.
fn only_end<R: Wait>(rt: &R, alloc: Global, roster: &mut Roster, source: &Member) -> Option<u32> {
    let yard = Depot::<Onward>::new(alloc);
    let outcomes = roster
        .cast(rt, &yard, source, body(alloc, "[1]")?, NO_PORTS.as_slice())
        .ok()?;
    match outcomes.first() {
        Some((end, CastOutcome::Accepted(posted))) if outcomes.len() == 1 && posted.end == *end => {
            Some(end.0)
        }
        _ => None,
    }
}

/// Two members have the ends 0 and 1. The numbers up to the last member's are refused, and the
/// roster is as it was: a cast of the first goes to the second alone. A higher number is no other
/// count's, as far as the roster can tell.
fn refuses_other_ends<R: Wait>(rt: &R, alloc: Global) -> Option<bool> {
    let mut roster = Roster::new(alloc);
    let mut ends = Ends::new();
    let first = try_join(alloc, &mut roster, &mut ends)?.ok()?;
    let second = try_join(alloc, &mut roster, &mut ends)?.ok()?;
    let are_refused = is_refused(alloc, &mut roster, 0) && is_refused(alloc, &mut roster, 1);
    let told = only_end(rt, alloc, &mut roster, &first);
    let mut higher = Ends { drawn: 7 };
    let third = try_join(alloc, &mut roster, &mut higher)?.ok()?;
    Some(
        are_refused
            && told == Some(second.id().0)
            && third.id() == EndId(7)
            && is_refused(alloc, &mut roster, ends.drawn),
    )
}

#[test]
fn a_number_of_another_count_is_refused(rt: HostRuntime) -> Result<(), Fail> {
    let are_right = refuses_other_ends(&rt, rt.alloc());
    assert_eq!(rt; are_right, Some(true));
    Ok(())
}
