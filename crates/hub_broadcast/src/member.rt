ghost use Rattle.std.specs.Prelude.{◌≡◌, length};
ghost use Rattle.hub_queue.specs.Ending.{IsClosed};
ghost use Rattle.hub_queue.specs.Taking.{IsTaken};

use hub_envelope::{AgentId, EndId};
use hub_origin::Origin;
use hub_queue::{Grave, Steps, Taker, Took};
use std::marker::Model;
use std::sync::Wait;
use std::sync::ledger::Ledger;

/// A broadcast channel as its agent holds it: its end, from which it takes, and the origin and the
/// name of those that it casts to and that cast to it.
///
/// `Roster::join` makes one, which is enabled. A member that is dropped or closed stays in the
/// roster until `Roster::leave`.
pub struct Member {
    pub(crate) taker: Taker,
    pub(crate) agent: AgentId,
    pub(crate) origin: Origin,
    pub(crate) name: String,
}

// By hand, so that whoever drops one makes one call, and its proof has no cases of its fields.
impl Drop for Member {
    fn drop(self) {
        let Member {
            taker,
            agent: _,
            origin,
            name,
        } = self;
        drop(taker);
        drop(origin);
        drop(name);
    }
}

impl Model for Member {
    ghost use Rattle.std.specs.Prelude.{string_bytes};
    ghost use Rattle.hub_broadcast.specs.Members.{MemberSeat};

    ghost Value = { MemberSeat };

    ghost view = { λ m. record {
      taker = m.taker;
      agent = m.agent;
      origin = m.origin;
      name = string_bytes m.name;
    } };
}

impl Member {
    /// The number of its end, under which it leaves the roster.
    pub fn id(&self) -> EndId
        ensures { result.0 ≡ self.now.taker.end }
    {
        self.taker.id()
    }

    /// Takes the first message that was cast to it and not taken yet: `Taker::take` of its end.
    pub fn take<L: Ledger, R: Wait>(&mut self, rt: &R, steps: &mut Steps<L>) -> Took
        ensures taken { IsTaken self.old.taker self.new.taker steps.old steps.new result }
        ensures same { self.new ≡ record self.old { taker = self.new.taker } }
    {
        self.taker.take(rt, steps)
    }

    /// How many queues there are from the taker's to the newest, that one not counted.
    pub fn count_retired_queues(&self) -> u32
        ensures { result ≡ length self.now.taker.retired }
    {
        self.taker.behind()
    }

    /// Closes its end: `Taker::close`. It stays a destination until it leaves the roster, and what
    /// is cast there is answered `Closed`.
    pub fn close_end(self) -> Grave
        ensures { IsClosed self.taker result }
    {
        let Member {
            taker,
            agent: _,
            origin: _,
            name: _,
        } = self;
        taker.close()
    }
}
