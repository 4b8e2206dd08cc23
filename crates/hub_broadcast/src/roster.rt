ghost use Rattle.std.specs.Prelude.{◌≡◌, ◌≢◌, ◌+◌, ◌<◌, ◌≤◌, ◌↔◌, [], All, Any, filter, length};
ghost use Rattle.std.specs.Prelude.{map, not, MatchBool, string_bytes, IfOk, OnOk, OnErr, IsErrOf};
ghost use Rattle.hub_envelope.specs.declared.limits.TheConstants.{MAX_ENDS};
ghost use Rattle.hub_broadcast.specs.Casting.{AreDestinations, IsBroadcast, cast_draft};
ghost use Rattle.hub_broadcast.specs.Destinations.{destinations_in, is_of_end};
ghost use Rattle.hub_broadcast.specs.Joining.{IsJoined};

use crate::casting::{CastOutcome, cast_to_destinations};
use crate::error::{CastError, JoinError};
use crate::member::Member;
use crate::subscription::Subscription;
use hub_depot::Depot;
use hub_envelope::{AgentId, Body, EndId};
use hub_origin::Origin;
use hub_queue::{Bell, Ends, Mailbox, Onward};
use std::alloc::Global;
use std::marker::Model;
use std::sync::Wait;

/// The members of all broadcast channels, in the order in which they joined. The numbers of their
/// ends rise in that order, also behind a lock, so no end is there twice.
///
/// Contracts see it as the list of what it keeps of each member. `SharedRoster` is the same behind
/// a lock.
#[derive(Drop)]
pub struct Roster {
    alloc: Global,
    subscriptions: Vec<Subscription>,
}

impl Model for Roster {
    ghost use Rattle.std.specs.Prelude.{List};
    ghost use Rattle.hub_broadcast.specs.Members.{SubscriptionSeat};

    ghost Value = { List SubscriptionSeat };

    ghost use Rattle.hub_envelope.specs.declared.limits.TheConstants.{MAX_ENDS};
    ghost use Rattle.hub_broadcast.specs.Rising.{IsRising};

    ghost view = { λ r. r.subscriptions.items };

    ghost invariant = { λ r. IsRising MAX_ENDS r.subscriptions.items };
}

impl Roster {
    /// A roster with no member. It takes no memory.
    pub fn new(alloc: Global) -> Roster
        ensures { result ≡ [] }
    {
        Roster {
            alloc,
            subscriptions: Vec::new(alloc),
        }
    }

    /// Makes a broadcast channel of this origin and name (WHATWG HTML, "Broadcasting to other
    /// browsing contexts": the `BroadcastChannel` constructor). The member is enabled, and whoever
    /// casts to it rings the bell.
    ///
    /// The number of its end has to be above those of all members, as it is where all of them were
    /// made with one count of ends.
    pub fn join(
        &mut self,
        ends: &mut Ends,
        agent: AgentId,
        origin: Origin,
        name: String,
        bell: Bell,
    ) -> Result<Member, JoinError>
        ensures ok { IfOk result (IsJoined ends.old.drawn agent origin (string_bytes name)
            self.old self.new) }
        ensures drawn { OnOk result (ends.new.drawn ≡ ends.old.drawn + 1) }
        ensures too_many { IsErrOf result JoinError.TooManyEnds ↔ (MAX_ENDS ≤ ends.old.drawn) }
        ensures other_ends { IsErrOf result JoinError.OtherEnds ↔ ((ends.old.drawn < MAX_ENDS)
            × Any (λ s. ends.old.drawn ≤ s.poster.name.end.0) self.old) }
        ensures err { OnErr result ((self.new ≡ self.old) × (ends.new ≡ ends.old)) }
    {
        let mut drawn = *ends;
        let Some(end) = drawn.draw() else {
            return Err(JoinError::TooManyEnds);
        };
        if !self.are_all_ends_below(end) {
            return Err(JoinError::OtherEnds);
        }
        self.subscriptions.reserve(1)?;
        let (mut taker, mut posters) = Mailbox::open(self.alloc, end, 1, bell)?;
        let subscription = Subscription {
            origin: origin.clone()?,
            name: name.clone()?,
            poster: posters.pop().unwrap(),
        };
        taker.start();
        self.subscriptions.push_reserved(subscription);
        *ends = drawn;
        Ok(Member {
            taker,
            agent,
            origin,
            name,
        })
    }

    /// Whether all members' ends have lower numbers. The last one's is the highest.
    fn are_all_ends_below(&self, end: EndId) -> bool
        ensures { MatchBool result (All (λ s. s.poster.name.end.0 < end.0) self.now)
            (Any (λ s. end.0 ≤ s.poster.name.end.0) self.now) }
    {
        match self.subscriptions.last() {
            Some(newest) => newest.id().0 < end.0,
            None => true,
        }
    }

    /// Takes the member of this end out of the roster: no cast goes there from now on, and it can
    /// cast no more. Where no member has that end, nothing changes. It takes no memory.
    pub fn leave(&mut self, end: EndId)
        ensures { self.new ≡ filter (λ s. not (is_of_end end s)) self.old }
    {
        self.subscriptions
            .retain(|subscription| subscription.id() != end);
    }

    fn has_member(&self, end: EndId) -> bool
        ensures { MatchBool result (Any (λ s. s.poster.name.end.0 ≡ end.0) self.now)
            (All (λ s. s.poster.name.end.0 ≢ end.0) self.now) }
    {
        self.subscriptions
            .iter()
            .any(|subscription| subscription.id() == end)
    }

    /// Posts the body at each member of the source's origin and name but the source, in the order
    /// in which they joined (WHATWG HTML, "Broadcasting to other browsing contexts": the
    /// `postMessage` method). A message that is cast carries no ports, so the list has to be empty.
    ///
    /// The answer has each destination, once, with what became of the post there; a closed
    /// destination is no reason to stop. After an error nothing was posted.
    pub fn cast<R: Wait>(
        &mut self,
        rt: &R,
        yard: &Depot<Onward>,
        source: &Member,
        body: Body,
        list: &[EndId],
    ) -> Result<Vec<(EndId, CastOutcome)>, CastError>
        ensures cast { IfOk result (λ outcomes. IsBroadcast source.now (cast_draft source.now body)
            self.old self.new outcomes.items) }
        ensures to { IfOk result (λ outcomes. map (λ o. o.0) outcomes.items
            ≡ destinations_in source.now self.old) }
        ensures destinations { IfOk result (λ outcomes. AreDestinations source.now outcomes.items) }
        ensures invalid { IsErrOf result CastError.InvalidState
            ↔ All (λ s. s.poster.name.end.0 ≢ source.now.taker.end) self.old }
        ensures list { IsErrOf result CastError.NotTransferable
            ↔ (Any (λ s. s.poster.name.end.0 ≡ source.now.taker.end) self.old
            × (0 < length list.now)) }
        ensures no_list { OnOk result (list.now ≡ []) }
        ensures err { OnErr result (self.new ≡ self.old) }
    {
        if !self.has_member(source.id()) {
            return Err(CastError::InvalidState);
        }
        if !list.is_empty() {
            return Err(CastError::NotTransferable);
        }
        let subscriptions = self.subscriptions.as_mut_slice();
        Ok(cast_to_destinations(rt, self.alloc, yard, source, &body, subscriptions)?)
    }
}
