//! The parts of a cast: a draft for each destination, and a post of it there.

ghost use Rattle.std.specs.Prelude.{◌≡◌, All, vec_len, IfOk, OnErr};
ghost use Rattle.hub_broadcast.specs.Casting.{IsBroadcast, cast_draft};

use crate::member::Member;
use crate::subscription::Subscription;
use hub_depot::Depot;
use hub_envelope::{Body, Draft, EndId, OutOfMemory, Ports};
use hub_queue::{Onward, Posted};
use std::alloc::Global;
use std::sync::Wait;

/// What became of a cast at one destination.
#[derive(Clone, Copy, Debug, PartialEq, Eq, Drop)]
pub enum CastOutcome {
    /// The body was put there, under this name.
    Accepted(Posted),
    /// The end is closed: its agent has closed it, and it hasn't left the roster yet.
    Closed,
    /// There was no memory for one more envelope there, or its line has put `MAX_PUT` of them.
    OutOfMemory,
    /// The end has moved on, and its line could not follow it. The end of a member is never
    /// adopted, so no run answers this, though no contract says so.
    Moving,
}

/// So many drafts of what the source casts.
pub(crate) fn make_equal_drafts(
    alloc: Global,
    source: &Member,
    body: &Body,
    count: usize,
) -> Result<Vec<Draft>, OutOfMemory>
    ensures len { IfOk result (λ drafts. vec_len drafts ≡ count) }
    ensures same { IfOk result
        (λ drafts. All (λ draft. draft ≡ cast_draft source.now body.now) drafts.items) }
{
    let mut drafts = Vec::with_capacity(alloc, count)?;
    for _ in 0..count {
        drafts.push(Draft {
            agent: source.agent,
            body: body.clone()?,
            ports: Ports::none(alloc),
            notice: false,
        })?;
    }
    Ok(drafts)
}

/// Posts the body at each destination of the source, in order: what became of it there. It makes
/// all that can be refused before the first post.
pub(crate) fn cast_to_destinations<R: Wait>(
    rt: &R,
    alloc: Global,
    yard: &Depot<Onward>,
    source: &Member,
    body: &Body,
    subscriptions: &mut [Subscription],
) -> Result<Vec<(EndId, CastOutcome)>, OutOfMemory>
    ensures ok { IfOk result (λ outcomes. IsBroadcast source.now (cast_draft source.now body.now)
        subscriptions.old subscriptions.new outcomes.items) }
    ensures err { OnErr result (subscriptions.new ≡ subscriptions.old) }
{
    let count = subscriptions
        .iter()
        .filter(|subscription| subscription.is_destination(source))
        .count();
    let mut drafts = make_equal_drafts(alloc, source, body, count)?;
    let mut outcomes = Vec::with_capacity(alloc, count)?;
    for subscription in subscriptions.iter_mut() {
        if subscription.is_destination(source) {
            let draft = drafts.pop().unwrap();
            let end = subscription.id();
            let outcome = subscription.post_draft_to_member(rt, yard, draft);
            outcomes.push_reserved((end, outcome));
        }
    }
    Ok(outcomes)
}
