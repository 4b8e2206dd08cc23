ghost use Rattle.std.specs.Prelude.{◌≡◌, option_map, Some};
ghost use Rattle.hub_core.specs.Made.{is_queue, lines_of, maker_of, peer_of};

use hub_envelope::{AgentId, EndId, MAX_LINES};

/// What an end is.
#[derive(Clone, Copy, Debug, PartialEq, Eq)]
pub enum Kind {
    /// A port, entangled with this one (WHATWG HTML, "Message ports").
    Port(EndId),
    /// The queue of the messages to a client (W3C Service Workers, "Client").
    Client,
    /// The queue of the messages to a worker (W3C Service Workers, "ServiceWorker").
    Worker,
    /// The queue of a broadcast channel that this agent made, a member of the roster (WHATWG HTML,
    /// "Broadcasting to other browsing contexts").
    Member(AgentId),
}

impl Kind {
    /// The port that posts at an end of this kind, where one does.
    pub(crate) fn peer_port_id(self) -> Option<EndId>
        ensures { option_map (λ q. q.0) result ≡ peer_of (Some self) }
    {
        match self {
            Kind::Port(peer) => Some(peer),
            Kind::Client | Kind::Worker | Kind::Member(_) => None,
        }
    }

    /// The agent that made an end of this kind, where it is a member of the roster.
    pub(crate) fn agent_that_made_member(self) -> Option<AgentId>
        ensures { result ≡ maker_of (Some self) }
    {
        match self {
            Kind::Member(agent) => Some(agent),
            Kind::Port(_) | Kind::Client | Kind::Worker => None,
        }
    }

    /// Whether it is a client's or a worker's queue.
    pub(crate) fn is_queue(self) -> bool
        ensures { result ≡ is_queue (Some self) }
    {
        matches!(self, Kind::Client | Kind::Worker)
    }

    /// How many lines an end of this kind has.
    pub(crate) fn line_count(self) -> usize
        ensures { result ≡ lines_of (Some self) }
    {
        match self {
            Kind::Port(_) | Kind::Member(_) => 1,
            Kind::Client | Kind::Worker => MAX_LINES,
        }
    }
}
