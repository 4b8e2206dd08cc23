//! Agents and new ends.

use crate::agent::{Agent, hold};
use crate::player::{Player, Stop, answer, not_now};
use crate::seat::{Kind, Place, Seat};
use hub_broadcast::{JoinError, Origin};
use hub_clients::QueueError;
use hub_core::Outcome;
use hub_envelope::{AgentId, EndId, MAX_AGENTS, Text};
use hub_loop::Held;
use hub_ports::{ChannelError, Port, channel};
use hub_queue::Bell;
use hub_steps::{AgentUrl, Shown};
use std::sync::Wait;

impl Player {
    pub(crate) fn make_agent(&mut self, url: AgentUrl) -> Result<Shown, Stop> {
        match url {
            AgentUrl::NoUrl => self.add_agent(None),
            AgentUrl::Origin(origin) => self.add_agent(Some(origin)),
            AgentUrl::BadUrl => Ok(Shown::BadUrl),
            AgentUrl::OpaqueOrigin => Ok(Shown::OpaqueOrigin),
        }
    }

    fn add_agent(&mut self, origin: Option<Origin>) -> Result<Shown, Stop> {
        let number = self.agents.len();
        if number >= MAX_AGENTS {
            return answer(Outcome::TooManyAgents);
        }
        let Some(agent) = Agent::open(self.alloc, AgentId(number as u8), origin) else {
            return Err(Stop::OutOfMemory);
        };
        match self.agents.push(agent) {
            Ok(()) => answer(Outcome::Agent(AgentId(number as u8))),
            Err(_) => Err(Stop::OutOfMemory),
        }
    }

    /// One more bell of an agent.
    pub(crate) fn bell_of(&self, agent: AgentId) -> Result<Bell, Stop> {
        match self.agent(agent) {
            Some(agent) => agent.bell().ok_or(Stop::OutOfMemory),
            None => Err(Stop::Unexpected),
        }
    }

    /// Keeps a new end, which the loop of its agent holds. Whether its number is the next one.
    fn add(&mut self, kind: Kind, agent: AgentId, held: Held) -> bool {
        let is_next = held.id().0 as usize == self.seats.len();
        let is_held = hold(&mut self.agents, agent, held);
        self.seats.push(Seat::new(kind, agent)).is_ok() && is_next && is_held
    }

    pub(crate) fn make_channel(&mut self, agent: AgentId) -> Result<Shown, Stop> {
        if !self.is_running(agent) {
            return not_now();
        }
        // Room for the ends comes before they are made.
        if self.seats.reserve(2).is_err() {
            return Err(Stop::OutOfMemory);
        }
        let bell = self.bell_of(agent)?;
        match channel(self.alloc, &mut self.ends, bell) {
            Ok((first, second)) => self.add_ports(agent, first, second),
            Err(ChannelError::TooManyEnds) => answer(Outcome::TooManyEnds),
            Err(ChannelError::OutOfMemory) => Err(Stop::OutOfMemory),
        }
    }

    fn add_ports(&mut self, agent: AgentId, first: Port, second: Port) -> Result<Shown, Stop> {
        let (one, other) = (first.id(), second.id());
        let has_one = self.add(Kind::Port, agent, Held::Port(first));
        let has_other = self.add(Kind::Port, agent, Held::Port(second));
        if has_one && has_other {
            answer(Outcome::Ends(one, other))
        } else {
            Err(Stop::Unexpected)
        }
    }

    /// What is shown of a new end.
    fn added(&mut self, kind: Kind, agent: AgentId, held: Held) -> Result<Shown, Stop> {
        let end = held.id();
        if self.add(kind, agent, held) {
            answer(Outcome::End(end))
        } else {
            Err(Stop::Unexpected)
        }
    }

    fn has_queue(&self, kind: Kind, agent: AgentId) -> bool {
        self.seats.iter().any(|seat| {
            seat.kind == kind && seat.place == Place::Held && seat.agent == agent
        })
    }

    fn open_queue<R: Wait>(&mut self, rt: &R, kind: Kind, bell: Bell) -> Result<Held, QueueError> {
        if kind == Kind::Client {
            let queue = self.directory.client(rt, &mut self.ends, bell)?;
            Ok(Held::Client(queue))
        } else {
            let queue = self.directory.worker(rt, &mut self.ends, bell)?;
            Ok(Held::Worker(queue))
        }
    }

    /// Makes the queue of a client or worker, where the agent has none of that kind.
    pub(crate) fn make_queue<R: Wait>(
        &mut self,
        rt: &R,
        kind: Kind,
        agent: AgentId,
    ) -> Result<Shown, Stop> {
        if !self.is_running(agent) || self.has_queue(kind, agent) {
            return not_now();
        }
        if self.seats.reserve(1).is_err() {
            return Err(Stop::OutOfMemory);
        }
        let bell = self.bell_of(agent)?;
        match self.open_queue(rt, kind, bell) {
            Ok(queue) => {
                if let (Kind::Worker, Some(agent)) = (kind, self.agent_mut(agent)) {
                    agent.begin_life();
                }
                self.added(kind, agent, queue)
            }
            Err(QueueError::TooManyEnds) => answer(Outcome::TooManyEnds),
            Err(QueueError::OutOfMemory) => Err(Stop::OutOfMemory),
        }
    }

    pub(crate) fn make_member<R: Wait>(
        &mut self,
        rt: &R,
        agent: AgentId,
        name: Text,
    ) -> Result<Shown, Stop> {
        if !self.is_running(agent) {
            return not_now();
        }
        let Some(
            Agent {
                origin: Some(origin),
                ..
            },
        ) = self.agent(agent)
        else {
            return answer(Outcome::NoOrigin);
        };
        match origin.clone() {
            Ok(origin) => self.join(rt, agent, origin, name.as_str()),
            Err(_) => Err(Stop::OutOfMemory),
        }
    }

    fn join<R: Wait>(
        &mut self,
        rt: &R,
        agent: AgentId,
        origin: Origin,
        name: &str,
    ) -> Result<Shown, Stop> {
        if self.seats.reserve(1).is_err() {
            return Err(Stop::OutOfMemory);
        }
        let Ok(name) = String::from_str(self.alloc, name) else {
            return Err(Stop::OutOfMemory);
        };
        let bell = self.bell_of(agent)?;
        let ends = &mut self.ends;
        match self.roster.join(rt, ends, agent, origin, name, bell) {
            Ok(member) => self.added(Kind::Member, agent, Held::Member(member)),
            Err(JoinError::TooManyEnds) => answer(Outcome::TooManyEnds),
            Err(JoinError::OtherEnds) => Err(Stop::Unexpected),
            Err(JoinError::OutOfMemory) => Err(Stop::OutOfMemory),
        }
    }
}
