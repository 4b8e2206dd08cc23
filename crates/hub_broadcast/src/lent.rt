//! The calls of a roster that is lent, whoever lends it.

ghost use Rattle.std.specs.Prelude.{◌≡◌, ◌<◌, ◌≢◌, ◌↔◌, [], All, Any, filter, length};
ghost use Rattle.std.specs.Prelude.{map, not, IfOk, IfSome, OnOk, OnErr, IsErrOf};
ghost use Rattle.std.specs.Option.{option_map};
ghost use Rattle.hub_broadcast.specs.Casting.{AreDestinations, IsBroadcast, cast_draft};
ghost use Rattle.hub_broadcast.specs.Destinations.{destinations_in, is_of_end};
ghost use Rattle.hub_locked.specs.Lending.{IsDoneIn};

use crate::casting::CastOutcome;
use crate::error::CastError;
use crate::member::Member;
use crate::roster::Roster;
use hub_depot::Depot;
use hub_envelope::{Body, EndId};
use hub_locked::Lends;
use hub_queue::Onward;
use std::sync::Wait;

/// Takes a member out of the roster: `Roster::leave`.
pub fn leave_lent_roster<L: Lends<Roster>, R: Wait>(rt: &R, lender: &mut L, end: EndId)
    ensures { L.shown lender.new
        ≡ option_map (filter (λ s. not (is_of_end end s))) (L.shown lender.old) }
{
    lender.lend(rt, |roster| roster.leave(end));
}

/// Casts from a member: `Roster::cast`.
pub fn cast_in_lent_roster<L: Lends<Roster>, R: Wait>(
    rt: &R,
    lender: &mut L,
    yard: &Depot<Onward>,
    source: &Member,
    body: Body,
    list: &[EndId],
) -> Result<Vec<(EndId, CastOutcome)>, CastError>
    ensures cast { IfOk result (λ outcomes. IsDoneIn (L.shown lender.old) (L.shown lender.new)
        (λ was now. IsBroadcast source.now (cast_draft source.now body) was now outcomes.items)) }
    ensures to { IfOk result (λ outcomes. IfSome (L.shown lender.old) (λ was.
        map (λ o. o.0) outcomes.items ≡ destinations_in source.now was)) }
    ensures destinations { IfOk result (λ outcomes. AreDestinations source.now outcomes.items) }
    ensures invalid { IfSome (L.shown lender.old) (λ was. IsErrOf result CastError.InvalidState
        ↔ All (λ s. s.poster.name.end.0 ≢ source.now.taker.end) was) }
    ensures list { IfSome (L.shown lender.old) (λ was. IsErrOf result CastError.NotTransferable
        ↔ (Any (λ s. s.poster.name.end.0 ≡ source.now.taker.end) was × (0 < length list.now))) }
    ensures listed { IsErrOf result CastError.NotTransferable → 0 < length list.now }
    ensures no_list { OnOk result (list.now ≡ []) }
    ensures err { OnErr result (L.shown lender.new ≡ L.shown lender.old) }
{
    lender.lend(rt, |roster| roster.cast(rt, yard, source, body, list))
}
