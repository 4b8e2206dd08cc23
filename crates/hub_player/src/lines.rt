//! Lines of the queues of clients and workers, which the directory lends.

use crate::agent::{Agent, hold};
use crate::player::{Player, Stop, answer, not_now};
use hub_clients::DirectoryError;
use hub_core::Outcome;
use hub_envelope::{AgentId, EndId, LineId};
use hub_loop::Held;
use hub_queue::Poster;
use hub_steps::Shown;
use std::sync::Wait;

/// A line that an agent has.
#[derive(Drop)]
pub(crate) struct Lent {
    pub(crate) agent: AgentId,
    pub(crate) end: EndId,
    pub(crate) line: LineId,
    /// `None` where the loop of the agent holds it.
    pub(crate) poster: Option<Poster>,
}

impl Lent {
    /// Whether the loop of this agent holds it.
    pub(crate) fn is_held_by(&self, agent: AgentId) -> bool {
        self.agent == agent && self.poster.is_none()
    }
}

impl Player {
    pub(crate) fn lend<R: Wait>(
        &mut self,
        rt: &R,
        end: EndId,
        agent: AgentId,
    ) -> Result<Shown, Stop> {
        if !self.is_running(agent) {
            return not_now();
        }
        if self.lent.reserve(1).is_err() {
            return Err(Stop::OutOfMemory);
        }
        match self.directory.line_to(rt, end) {
            Ok(poster) => self.lent_to(agent, poster),
            Err(DirectoryError::NoSuchEnd) => answer(Outcome::NoSuchEnd),
            Err(DirectoryError::NoLine) => answer(Outcome::NoLine),
        }
    }

    /// The agent has the line from now on. Where lines are held its loop holds the first one to a
    /// queue, since it tells lines apart by their queues.
    fn lent_to(&mut self, agent: AgentId, poster: Poster) -> Result<Shown, Stop> {
        let name = poster.name();
        let (end, line) = (name.end, name.line);
        let poster = if self.holds_lines && !self.has_line(agent, end) {
            if !hold(&mut self.agents, agent, Held::Line(poster)) {
                return Err(Stop::Unexpected);
            }
            None
        } else {
            Some(poster)
        };
        let lent = Lent {
            agent,
            end,
            line,
            poster,
        };
        match self.lent.push(lent) {
            Ok(()) => answer(Outcome::Line(line)),
            Err(_) => Err(Stop::OutOfMemory),
        }
    }

    fn has_line(&self, agent: AgentId, end: EndId) -> bool {
        match self.agent(agent) {
            Some(
                Agent {
                    event_loop: Some(event_loop),
                    ..
                },
            ) => event_loop.has_line_posting_to_end(end),
            _ => false,
        }
    }

    /// The place of the line among those that are lent.
    pub(crate) fn place_of(&self, end: EndId, line: LineId) -> Option<usize> {
        self.lent
            .iter()
            .position(|lent| lent.end == end && lent.line == line)
    }

    pub(crate) fn give_back<R: Wait>(
        &mut self,
        rt: &R,
        end: EndId,
        line: LineId,
    ) -> Result<Shown, Stop> {
        let Some(place) = self.place_of(end, line) else {
            return not_now();
        };
        if place >= self.lent.len() {
            return not_now();
        }
        let Lent { poster, .. } = self.lent.remove(place);
        let Some(poster) = poster else {
            return Err(Stop::Line);
        };
        match self.directory.give_back(rt, poster) {
            Ok(()) => answer(Outcome::Done),
            Err(_) => Err(Stop::Unexpected),
        }
    }
}
