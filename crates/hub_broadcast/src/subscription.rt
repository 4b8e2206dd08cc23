ghost use Rattle.std.specs.Prelude.{◌≡◌};
ghost use Rattle.hub_broadcast.specs.Casting.{IsDelivered};
ghost use Rattle.hub_broadcast.specs.Destinations.{is_destination};

use crate::casting::CastOutcome;
use crate::member::Member;
use hub_depot::Depot;
use hub_envelope::{Draft, EndId};
use hub_origin::Origin;
use hub_queue::{Onward, PostError, Poster};
use std::marker::Model;
use std::sync::Wait;

/// What the roster keeps of a member: its origin and name, and the poster of its one line.
///
/// What the line has put is known by the name of the line, so an envelope that it puts bears the
/// end of the member.
#[derive(Drop)]
pub(crate) struct Subscription {
    pub(crate) origin: Origin,
    pub(crate) name: String,
    pub(crate) poster: Poster,
}

impl Model for Subscription {
    ghost use Rattle.std.specs.Prelude.{string_bytes};
    ghost use Rattle.hub_broadcast.specs.Members.{SubscriptionSeat};

    ghost Value = { SubscriptionSeat };

    ghost view = { λ s. record {
      origin = s.origin;
      name = string_bytes s.name;
      poster = s.poster;
    } };

    ghost use Rattle.hub_queue.specs.Seats.{IsNameOf};
    ghost use Rattle.hub_queue.specs.Standing.{put_of};

    ghost invariant = { λ s. IsNameOf (put_of s.poster) s.poster.name };
}

impl Subscription {
    /// The end of the member.
    pub(crate) fn id(&self) -> EndId
        ensures { result ≡ self.now.poster.name.end }
    {
        self.poster.name().end
    }

    /// Whether a cast of this member goes there.
    pub(crate) fn is_destination(&self, source: &Member) -> bool
        ensures { result ≡ is_destination source.now self.now }
    {
        self.origin == source.origin && self.name == source.name && self.id() != source.id()
    }

    /// Posts the draft at the member.
    pub(crate) fn post_draft_to_member<R: Wait>(
        &mut self,
        rt: &R,
        yard: &Depot<Onward>,
        draft: Draft,
    ) -> CastOutcome
        ensures { IsDelivered self.old self.new draft result }
    {
        match self.poster.post(rt, yard, draft) {
            Ok(posted) => CastOutcome::Accepted(posted),
            Err((PostError::Closed, _)) => CastOutcome::Closed,
            Err((PostError::Moving, _)) => CastOutcome::Moving,
            Err((PostError::OutOfMemory, _)) => CastOutcome::OutOfMemory,
        }
    }
}
