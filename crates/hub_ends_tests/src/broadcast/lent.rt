//! A roster of one's own, and the same behind a lock: joins, casts and leaves answer alike over
//! both.
use crate::broadcast::{NO_PORTS, is_first, key};
use hub_broadcast::{
    CastError, CastOutcome, Member, Roster, SharedRoster, cast_in_lent_roster, leave_lent_roster,
};
use hub_depot::Depot;
use hub_envelope::{AgentId, EndId};
use hub_locked::Lends;
use hub_queue::{Ends, Onward};
use hub_test_parts::{bell, body, take};
use std::alloc::Global;
use std::sync::Wait;

fn join<L: Lends<Roster>, R: Wait>(
    rt: &R,
    alloc: Global,
    lender: &mut L,
    ends: &mut Ends,
) -> Option<Member> {
    let (origin, name) = key(alloc)?;
    let bell = bell(alloc)?;
    let mut drawn = *ends;
    let (joined, drawn) = lender.lend(rt, move |roster| {
        let joined = roster.join(&mut drawn, AgentId(7), origin, name, bell);
        (joined, drawn)
    });
    *ends = drawn;
    joined.ok()
}

/// How many members a cast from the member goes to; a refusal says that it is in no roster.
fn casts<L: Lends<Roster>, R: Wait>(
    rt: &R,
    alloc: Global,
    lender: &mut L,
    source: &Member,
) -> Option<Result<usize, CastError>> {
    let yard = Depot::<Onward>::new(alloc);
    let cast = cast_in_lent_roster(
        rt,
        lender,
        &yard,
        source,
        body(alloc, "[1]")?,
        NO_PORTS.as_slice(),
    );
    let answer = match &cast {
        Ok(outcomes) => Ok(accepted(outcomes.as_slice())),
        Err(error) => Err(*error),
    };
    drop(cast);
    drop(yard);
    Some(answer)
}

fn accepted(outcomes: &[(EndId, CastOutcome)]) -> usize {
    outcomes
        .iter()
        .filter(|(_, outcome)| matches!(outcome, CastOutcome::Accepted(_)))
        .count()
}

/// Three members; one leaves, and gets nothing from then on.
fn casts_and_leaves<L: Lends<Roster>, R: Wait>(
    rt: &R,
    alloc: Global,
    lender: &mut L,
) -> Option<bool> {
    let mut ends = Ends::new();
    let source = join(rt, alloc, lender, &mut ends)?;
    let mut stays = join(rt, alloc, lender, &mut ends)?;
    let mut leaves = join(rt, alloc, lender, &mut ends)?;
    let to_both = casts(rt, alloc, lender, &source)?;
    leave_lent_roster(rt, lender, leaves.id());
    let to_one = casts(rt, alloc, lender, &source)?;
    let from_none = casts(rt, alloc, lender, &leaves)?;
    let are_taken = is_first(take(rt, &mut stays), 7, "[1]")
        && is_first(take(rt, &mut leaves), 7, "[1]");
    drop(source);
    drop(stays);
    drop(leaves);
    let is_right = to_both == Ok(2) && to_one == Ok(1);
    Some(is_right && from_none == Err(CastError::InvalidState) && are_taken)
}

#[test]
fn a_roster_that_is_lent_joins_casts_and_leaves(rt: HostRuntime) {
    let mut own = Roster::new(rt.alloc());
    let shared = SharedRoster::new(rt.alloc());
    let is_right = casts_and_leaves(&rt, rt.alloc(), &mut own) == Some(true);
    let is_alike = casts_and_leaves(&rt, rt.alloc(), &mut shared.as_lock()) == Some(true);
    drop(own);
    drop(shared);
    assert!(rt; is_right && is_alike);
}
