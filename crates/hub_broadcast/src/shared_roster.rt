ghost use Rattle.std.specs.Prelude.{◌≡◌, ◌+◌, ◌<◌, ◌≤◌, ◌↔◌, [], length, string_bytes, IfOk, OnOk};
ghost use Rattle.std.specs.Prelude.{OnErr, IsErrOf};
ghost use Rattle.hub_envelope.specs.declared.limits.TheConstants.{MAX_ENDS};
ghost use Rattle.hub_broadcast.specs.Casting.{AreDestinations};
ghost use Rattle.hub_broadcast.specs.Joining.{IsNewMember};

use crate::casting::CastOutcome;
use crate::error::{CastError, JoinError};
use crate::member::Member;
use crate::roster::Roster;
use hub_depot::Depot;
use hub_envelope::{AgentId, Body, EndId};
use hub_locked::Locked;
use hub_origin::Origin;
use hub_queue::{Bell, Ends, Onward};
use std::alloc::Global;
use std::sync::Wait;

/// A roster that threads share.
///
/// Each call is the call of that name on the `Roster` behind the lock, under one taking of the
/// lock. Who is a member at that moment no contract of these calls can say, since another thread
/// may act between any two of them; but their ends rise at each moment, so no cast goes to one
/// twice. A cast keeps the lock during all its posts, of which each hop takes the yard's; whoever
/// holds the yard's lock must not take this one.
///
/// ```rust
/// let roster = SharedRoster::new(alloc);
/// let member = roster.join(rt, &mut ends, AgentId(0), origin, name, bell)?;
/// let outcomes = roster.cast(rt, &yard, &member, body, &[])?;
/// ```
#[derive(Drop)]
pub struct SharedRoster {
    roster: Locked<Roster>,
}

impl SharedRoster {
    /// A roster with no member. It takes no memory.
    pub fn new(alloc: Global) -> SharedRoster {
        SharedRoster {
            roster: Locked::new(Roster::new(alloc)),
        }
    }

    /// The roster behind its lock, for code that is generic over who lends it.
    pub fn as_lock(&self) -> &Locked<Roster> {
        &self.roster
    }

    /// Makes a broadcast channel: `Roster::join` under the lock.
    pub fn join(
        &self,
        rt: &impl Wait,
        ends: &mut Ends,
        agent: AgentId,
        origin: Origin,
        name: String,
        bell: Bell,
    ) -> Result<Member, JoinError>
        ensures ok { IfOk result (IsNewMember ends.old.drawn agent origin (string_bytes name)) }
        ensures drawn { OnOk result (ends.new.drawn ≡ ends.old.drawn + 1) }
        ensures too_many { IsErrOf result JoinError.TooManyEnds ↔ (MAX_ENDS ≤ ends.old.drawn) }
        ensures err { OnErr result (ends.new ≡ ends.old) }
    {
        self.roster.lock(rt).join(ends, agent, origin, name, bell)
    }

    /// Takes a member out of the roster: `Roster::leave` under the lock. It takes no memory.
    pub fn leave(&self, rt: &impl Wait, end: EndId) {
        self.roster.lock(rt).leave(end);
    }

    /// Casts from a member: `Roster::cast` under the lock.
    pub fn cast<R: Wait>(
        &self,
        rt: &R,
        yard: &Depot<Onward>,
        source: &Member,
        body: Body,
        list: &[EndId],
    ) -> Result<Vec<(EndId, CastOutcome)>, CastError>
        ensures destinations { IfOk result (λ outcomes. AreDestinations source.now outcomes.items) }
        ensures list { IsErrOf result CastError.NotTransferable → 0 < length list.now }
        ensures no_list { OnOk result (list.now ≡ []) }
    {
        self.roster.lock(rt).cast(rt, yard, source, body, list)
    }
}
