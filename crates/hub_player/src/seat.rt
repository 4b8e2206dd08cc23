use hub_envelope::AgentId;
use hub_ports::Arrived;
use hub_queue::Grave;

/// What an end is.
#[derive(Clone, Copy, PartialEq, Eq)]
pub(crate) enum Kind {
    Port,
    Client,
    Worker,
    Member,
}

/// Where an end is.
#[derive(Clone, Copy, PartialEq, Eq)]
pub(crate) enum Place {
    /// Its agent has it: the loop of that agent holds it.
    Held,
    /// A message names it that was not taken.
    InFlight,
    /// It has come to its agent, which has not adopted it. A queue waits in the directory.
    Arrived,
    Closed,
    /// It is closed and empty.
    Swept,
}

/// An end: what it is, where it is, and what no loop holds of it.
pub(crate) struct Seat {
    pub(crate) kind: Kind,
    pub(crate) place: Place,
    pub(crate) agent: AgentId,
    /// A member of the roster.
    pub(crate) is_listed: bool,
    pub(crate) arrived: Option<Arrived>,
    pub(crate) grave: Option<Grave>,
}

// By hand, so that whoever drops one makes one call, and its proof has no cases of its fields.
impl Drop for Seat {
    fn drop(self) {
        let Seat {
            kind: _,
            place: _,
            agent: _,
            is_listed: _,
            arrived,
            grave,
        } = self;
        drop(arrived);
        drop(grave);
    }
}

impl Seat {
    /// A new end, which the agent has.
    pub(crate) fn new(kind: Kind, agent: AgentId) -> Seat {
        Seat {
            kind,
            place: Place::Held,
            agent,
            is_listed: kind == Kind::Member,
            arrived: None,
            grave: None,
        }
    }

    pub(crate) fn is_closed(&self) -> bool {
        matches!(self.place, Place::Closed | Place::Swept)
    }

    /// Whether the agent has it, or it has come to the agent.
    pub(crate) fn is_at(&self, agent: AgentId) -> bool {
        matches!(self.place, Place::Held | Place::Arrived) && self.agent == agent
    }

    /// Whether it is a port that the agent has.
    pub(crate) fn is_port_of(&self, agent: AgentId) -> bool {
        self.kind == Kind::Port && self.place == Place::Held && self.agent == agent
    }

    /// The port has come to this agent.
    pub(crate) fn arrive(&mut self, arrived: Arrived, agent: AgentId) {
        self.arrived = Some(arrived);
        self.agent = agent;
        self.place = Place::Arrived;
    }

    pub(crate) fn bury(&mut self, grave: Grave) {
        self.grave = Some(grave);
        self.place = Place::Closed;
    }
}
