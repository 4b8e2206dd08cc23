//! Closing.

use crate::agent::{loop_of, release};
use crate::player::{Player, Stop, answer, not_now};
use crate::seat::{Kind, Place};
use hub_clients::Handed;
use hub_core::Outcome;
use hub_envelope::{AgentId, EndId};
use hub_loop::{ClosedEnd, Held};
use hub_ports::{Arrived, Noticed};
use hub_queue::Grave;
use hub_steps::Shown;
use std::sync::Wait;

impl Player {
    pub(crate) fn close<R: Wait>(&mut self, rt: &R, end: EndId) -> Result<Shown, Stop> {
        let Some(seat) = self.seat(end) else {
            return not_now();
        };
        let agent = seat.agent;
        match (seat.place, seat.kind) {
            (Place::Closed | Place::Swept, _) => answer(Outcome::Closed),
            (Place::InFlight, _) => not_now(),
            (Place::Held, Kind::Member) if seat.is_listed => self.close_listed(agent, end),
            (Place::Held, _) => self.close_held(rt, agent, end),
            (Place::Arrived, Kind::Port) => self.close_come(rt, end),
            (Place::Arrived, _) => self.close_handed(rt, agent, end),
        }
    }

    /// Closes an end that the loop of its agent holds.
    fn close_held<R: Wait>(&mut self, rt: &R, agent: AgentId, end: EndId) -> Result<Shown, Stop> {
        let Some(event_loop) = loop_of(&mut self.agents, agent) else {
            return Err(Stop::Unexpected);
        };
        let Some(closed) = event_loop.close_end(rt, &self.hub, &mut self.roster.as_lock(), end)
        else {
            return Err(Stop::Unexpected);
        };
        let ClosedEnd { grave, port } = closed;
        self.bury(grave)?;
        match port {
            Some(port) => Ok(shown_of(port.noticed)),
            None => answer(Outcome::Done),
        }
    }

    /// Closes a member that stays a destination, where a loop's own call would take it out of the
    /// roster first.
    fn close_listed(&mut self, agent: AgentId, end: EndId) -> Result<Shown, Stop> {
        match release(&mut self.agents, agent, end) {
            Some(Held::Member(member)) => {
                self.bury(member.close_end())?;
                answer(Outcome::Done)
            }
            Some(held) => {
                drop(held);
                Err(Stop::Unexpected)
            }
            None => Err(Stop::Unexpected),
        }
    }

    fn close_come<R: Wait>(&mut self, rt: &R, end: EndId) -> Result<Shown, Stop> {
        let Some(seat) = self.seat_mut(end) else {
            return Err(Stop::Unexpected);
        };
        match seat.arrived.take() {
            Some(arrived) => self.close_arrived(rt, arrived),
            None => Err(Stop::Unexpected),
        }
    }

    /// Closes a port that has come and wasn't adopted.
    pub(crate) fn close_arrived<R: Wait>(
        &mut self,
        rt: &R,
        arrived: Arrived,
    ) -> Result<Shown, Stop> {
        let (grave, _, noticed) = arrived.close(rt, &self.hub);
        self.bury(grave)?;
        Ok(shown_of(noticed))
    }

    /// Closes a queue that was handed on and wasn't adopted.
    fn close_handed<R: Wait>(&mut self, rt: &R, agent: AgentId, end: EndId) -> Result<Shown, Stop> {
        let Some(Handed { queue, to: _ }) = self.directory.fetch_handed_queue(rt, end, agent) else {
            return Err(Stop::Unexpected);
        };
        self.bury(queue.close())?;
        answer(Outcome::Done)
    }

    fn bury(&mut self, grave: Grave) -> Result<(), Stop> {
        match self.seat_mut(grave.closed_end_id()) {
            Some(seat) => {
                seat.bury(grave);
                Ok(())
            }
            None => Err(Stop::Unexpected),
        }
    }
}

/// What the closing of a port shows.
pub(crate) fn shown_of(noticed: Noticed) -> Shown {
    match noticed {
        Noticed::Put(_) | Noticed::PeerClosed => Shown::Answer(Outcome::Done),
        Noticed::Moving => Shown::DoneMoving,
        Noticed::OutOfMemory => Shown::DoneNoMemory,
    }
}
