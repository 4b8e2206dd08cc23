use crate::closing::{Closings, Noticed, Spent, put_notice_and_close_port};
use crate::error::{PortError, SendRefusal};
use crate::flight::flight_key;
use crate::hub::Hub;
use crate::parcel::Parcel;
use crate::sending::{send, send_parcel_over_line};
use hub_depot::{Key, Named};
use hub_envelope::{AgentId, Body, EndId};
use hub_queue::{Grave, Posted, Poster, Steps, Taker, Took};
use std::marker::Model;
use std::sync::Wait;
use std::sync::ledger::Ledger;

/// One of two entangled ports (WHATWG HTML, "Message ports"): it takes from its own end, and posts
/// at the end of its peer. A port that was sent is no value of its sender's any more, so a list
/// can't hold a detached port, a port twice, or the port that posts.
pub struct Port {
    pub(crate) taker: Taker,
    pub(crate) poster: Poster,
}

// By hand, so that whoever drops one makes one call, and its proof has no cases of its fields.
impl Drop for Port {
    fn drop(self) {
        let Port { taker, poster } = self;
        drop(taker);
        drop(poster);
    }
}

impl Model for Port {
    ghost use Rattle.std.specs.Prelude.{◌≡◌};
    ghost use Rattle.hub_ports.specs.Seats.{PortSeat};

    ghost Value = { PortSeat };

    ghost view = { λ p. record { taker = p.taker; poster = p.poster } };

    ghost invariant = { λ p. p.poster.name.line.0 ≡ 0 };
}

impl Named for Port {
    ghost use Rattle.std.specs.Prelude.{◌≡◌};
    ghost use Rattle.hub_ports.specs.Seats.{end_of, place_of};

    ghost name = { λ p. place_of (end_of p) };

    /// Its number, with epoch 0 and line 0.
    fn name(&self) -> Key
        ensures { result ≡ place_of (end_of self.now) }
    {
        flight_key(self.id())
    }
}

impl Port {
    ghost use Rattle.std.specs.Prelude.{◌≡◌, ◌↔◌, ◌<◌, ◌≤◌, Contains, IsErrOf, IsSome, length};
    ghost use Rattle.hub_envelope.specs.declared.limits.TheConstants.{MAX_PORTS};
    ghost use Rattle.hub_queue.specs.Adopting.{newest_epoch};
    ghost use Rattle.hub_queue.specs.Ending.{IsClosed};
    ghost use Rattle.hub_queue.specs.Taking.{IsTaken, started};
    ghost use Rattle.hub_ports.specs.Closing.{IsNoticed};
    ghost use Rattle.hub_ports.specs.Refusing.{LeavesIn, answer_with, carried_body};
    ghost use Rattle.hub_ports.specs.Seats.{end_of, ends_of};
    ghost use Rattle.hub_ports.specs.Sending.{IsSent, IsDoomed, IsTooMany};

    /// What it takes from and what it posts over, which are all that it has.
    pub(crate) fn into_taker_and_poster(self) -> (Taker, Poster)
        ensures taker { result.0 ≡ self.taker }
        ensures poster { result.1 ≡ self.poster }
    {
        let Port { taker, poster } = self;
        (taker, poster)
    }

    /// The number of its end.
    pub fn id(&self) -> EndId
        ensures { result ≡ end_of self.now }
    {
        self.taker.id()
    }

    /// How often the port was adopted.
    pub fn moves(&self) -> u32
        ensures { result ≡ newest_epoch self.now.taker }
    {
        self.taker.moves()
    }

    /// How many queues there are from the taker's to the newest, that one not counted.
    pub fn count_retired_queues(&self) -> u32
        ensures { result ≡ length self.now.taker.retired }
    {
        self.taker.behind()
    }

    /// Enables the port (WHATWG HTML, "Message ports": `start()`, which enables the port message
    /// queue). What its queues hold stays.
    pub fn start(&mut self)
        ensures { self.new ≡ record self.old { taker = started self.old.taker } }
    {
        self.taker.start();
    }

    /// Takes the first envelope of the taker's queue, as `Taker::take` does. The last parameter
    /// counts the pops.
    pub fn take<L: Ledger, R: Wait>(&mut self, rt: &R, steps: &mut Steps<L>) -> Took
        ensures taken { IsTaken self.old.taker self.new.taker steps.old steps.new result }
        ensures poster { self.new.poster ≡ self.old.poster }
    {
        self.taker.take(rt, steps)
    }

    /// Posts a body at the peer's end, with ports that are sent along (WHATWG HTML, "Message
    /// ports": the message port post message steps; the transfer list holds the ports).
    ///
    /// The errors are tested in this order: `TooManyPorts`, `Doomed`, and then why the ports or the
    /// envelope were not accepted. After an error the peer's end has nothing new from this port,
    /// and but for `Doomed` the body and the ports come back. What giving back wants of memory is
    /// reserved before the first port is in flight.
    #[inline(always)]
    pub fn post<R: Wait>(
        &mut self,
        rt: &R,
        hub: &Hub,
        agent: AgentId,
        body: Body,
        transfer: Vec<Port>,
    ) -> Result<Posted, PortError>
        ensures sent { IsSent self.old.poster self.new.poster agent body transfer.items result }
        ensures many { IsTooMany result ↔ (MAX_PORTS < length transfer.items) }
        ensures doomed { IsDoomed result ↔ ((length transfer.items ≤ MAX_PORTS)
            × Contains (ends_of transfer.items) self.old.poster.name.end) }
        ensures taker { self.new.taker ≡ self.old.taker }
    {
        send(&mut self.poster, rt, hub, agent, body, transfer)
    }

    /// The same, where what is posted is lent: it answers in a few words why it posted nothing, and
    /// what comes back is in the parcel. After `Doomed` the ports that were closed are listed in
    /// `closings`, in place of what was there; after anything else that list says nothing.
    #[inline(always)]
    pub fn post_parcel<R: Wait>(
        &mut self,
        rt: &R,
        hub: &Hub,
        agent: AgentId,
        parcel: &mut Parcel,
        closings: &mut Closings,
    ) -> Result<Posted, SendRefusal>
        requires { IsSome parcel.old.body }
        ensures sent { IsSent self.old.poster self.new.poster agent (carried_body parcel.old)
            parcel.old.ports.items (answer_with result parcel.new closings.new) }
        ensures left { LeavesIn result parcel.old parcel.new }
        ensures many { IsErrOf result SendRefusal.TooManyPorts
            ↔ (MAX_PORTS < length parcel.old.ports.items) }
        ensures doomed { IsErrOf result SendRefusal.Doomed
            ↔ ((length parcel.old.ports.items ≤ MAX_PORTS)
            × Contains (ends_of parcel.old.ports.items) self.old.poster.name.end) }
        ensures taker { self.new.taker ≡ self.old.taker }
    {
        send_parcel_over_line(&mut self.poster, rt, hub, agent, parcel, closings)
    }

    /// Closes the port (WHATWG HTML, "Message ports": `close()`, which disentangles it). First it
    /// puts a notice at the peer's end, this project's own: the last envelope of its line. The port
    /// is closed whether the notice was accepted or not.
    pub fn close<R: Wait>(self, rt: &R, hub: &Hub) -> (Grave, Spent, Noticed)
        ensures grave { IsClosed self.taker result.0 }
        ensures notice { IsNoticed self.poster result.1 result.2 }
    {
        put_notice_and_close_port(rt, hub.alloc, &hub.yard, self)
    }
}
