//! Joins and casts of which each allocation is refused in turn.
use crate::broadcast::{NO_PORTS, is_first, try_join};
use hub_broadcast::{CastError, CastOutcome, JoinError, Member, Roster};
use hub_depot::Depot;
use hub_envelope::EndId;
use hub_queue::{Ends, Onward, Took};
use hub_test_parts::{body, take};
use std::alloc::Global;
use std::sync::Wait;
use std::test::Fail;

/// One more member, by a second call where the first was refused and used no number.
fn join(alloc: Global, roster: &mut Roster, ends: &mut Ends) -> Option<Member> {
    let drawn = ends.drawn;
    match try_join(alloc, roster, ends)? {
        Ok(member) => Some(member),
        Err(error) => {
            if error != JoinError::OutOfMemory || ends.drawn != drawn {
                return None;
            }
            try_join(alloc, roster, ends)?.ok()
        }
    }
}

fn room(alloc: Global, count: usize) -> Option<Vec<Member>> {
    match Vec::with_capacity(alloc, count) {
        Ok(members) => Some(members),
        Err(_) => Vec::with_capacity(alloc, count).ok(),
    }
}

fn join_four(alloc: Global, roster: &mut Roster) -> Option<Vec<Member>> {
    let mut ends = Ends::new();
    let mut members = room(alloc, 4)?;
    for _ in 0..4 {
        members.push(join(alloc, roster, &mut ends)?).ok()?;
    }
    Some(members)
}

/// What the members take is what they were told: the first envelope where it was accepted.
fn are_told<R: Wait>(rt: &R, members: &mut [Member], outcomes: &[(EndId, CastOutcome)]) -> bool {
    for (member, (end, outcome)) in members.iter_mut().zip(outcomes.iter()) {
        let took = take(rt, member);
        let is_told = match outcome {
            CastOutcome::Accepted(posted) => posted.end == *end && is_first(took, 7, "[1]"),
            CastOutcome::OutOfMemory => matches!(took, Took::Empty),
            _ => false,
        };
        if *end != member.id() || !is_told {
            return false;
        }
    }
    members.len() == outcomes.len()
}

fn took_nothing<R: Wait>(rt: &R, members: &mut [Member]) -> bool {
    for member in members.iter_mut() {
        if !matches!(take(rt, member), Took::Empty) {
            return false;
        }
    }
    true
}

/// A cast with three destinations is refused and nothing was posted, or each is told what it takes.
fn casts_to_three<R: Wait>(rt: &R, alloc: Global) -> Option<bool> {
    let yard = Depot::<Onward>::new(alloc);
    let mut roster = Roster::new(alloc);
    let mut members = join_four(alloc, &mut roster)?;
    let (source, others) = members.split_first_mut()?;
    Some(
        match roster.cast(rt, &yard, source, body(alloc, "[1]")?, NO_PORTS.as_slice()) {
            Ok(outcomes) => are_told(rt, others, outcomes.as_slice()),
            Err(error) => error == CastError::OutOfMemory && took_nothing(rt, others),
        },
    )
}

#[test]
fn joins_and_casts_whichever_allocation_is_refused(rt: HostRuntime) -> Result<(), Fail> {
    let are_right = casts_to_three(&rt, rt.alloc());
    assert_eq!(rt; are_right, Some(true));
    Ok(())
}
