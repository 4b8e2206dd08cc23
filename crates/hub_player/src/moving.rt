//! Ends that go from one agent to another.

use crate::agent::{hold, loop_of, release};
use crate::player::{Player, Standing, Stop, answer, not_now};
use crate::seat::{Kind, Place};
use hub_clients::{Directory, HandError};
use hub_core::Outcome;
use hub_envelope::{AgentId, EndId};
use hub_loop::{Held, LoopError};
use hub_queue::AdoptError;
use hub_steps::Shown;
use std::sync::Wait;

impl Player {
    pub(crate) fn hand<R: Wait>(&mut self, rt: &R, end: EndId, to: AgentId) -> Result<Shown, Stop> {
        match self.standing(end) {
            Standing::Closed => return answer(Outcome::Closed),
            Standing::Elsewhere => return not_now(),
            Standing::AtHand => {}
        }
        if self.agent(to).is_none() {
            return not_now();
        }
        self.hand_to(rt, end, to)
    }

    fn hand_to<R: Wait>(&mut self, rt: &R, end: EndId, to: AgentId) -> Result<Shown, Stop> {
        let Some(seat) = self.seats.get_mut(end.0 as usize) else {
            return not_now();
        };
        let agent = seat.agent;
        if agent == to || matches!(seat.kind, Kind::Port | Kind::Member) {
            return not_now();
        }
        let Some(queue) = release(&mut self.agents, agent, end) else {
            return Err(Stop::Unexpected);
        };
        match hand_queue(rt, &self.directory, queue, to) {
            Ok(()) => {
                seat.place = Place::Arrived;
                seat.agent = to;
                answer(Outcome::Handed)
            }
            Err((stop, queue)) => {
                if hold(&mut self.agents, agent, queue) {
                    Err(stop)
                } else {
                    Err(Stop::Unexpected)
                }
            }
        }
    }

    pub(crate) fn adopt<R: Wait>(
        &mut self,
        rt: &R,
        end: EndId,
        agent: AgentId,
    ) -> Result<Shown, Stop> {
        let Some(seat) = self.seat(end) else {
            return self.fetch_none(rt, end, agent);
        };
        if seat.is_closed() {
            return answer(Outcome::Closed);
        }
        if seat.place != Place::Arrived || seat.agent != agent {
            return self.fetch_none(rt, end, agent);
        }
        let is_port = seat.kind == Kind::Port;
        if !self.is_running(agent) {
            return not_now();
        }
        if is_port {
            self.adopt_port(rt, end, agent)
        } else {
            self.adopt_queue(rt, end, agent)
        }
    }

    /// No queue of that number waits for the agent, and its loop finds none.
    fn fetch_none<R: Wait>(&mut self, rt: &R, end: EndId, agent: AgentId) -> Result<Shown, Stop> {
        let Some(event_loop) = loop_of(&mut self.agents, agent) else {
            return not_now();
        };
        match event_loop.fetch(rt, &self.hub, &self.directory, end) {
            Ok(false) => not_now(),
            Ok(true) => Err(Stop::Unexpected),
            Err(LoopError::OutOfMemory) => Err(Stop::OutOfMemory),
        }
    }

    fn adopt_port<R: Wait>(&mut self, rt: &R, end: EndId, agent: AgentId) -> Result<Shown, Stop> {
        let bell = self.bell_of(agent)?;
        let Some(seat) = self.seats.get_mut(end.0 as usize) else {
            return Err(Stop::Unexpected);
        };
        let Some(arrived) = seat.arrived.take() else {
            return Err(Stop::Unexpected);
        };
        match arrived.adopt(rt, &self.hub, bell) {
            Ok(port) => {
                let moves = port.moves();
                seat.place = Place::Held;
                if !hold(&mut self.agents, agent, Held::Port(port)) {
                    return Err(Stop::Unexpected);
                }
                answer(Outcome::Adopted(moves))
            }
            Err((error, arrived)) => {
                seat.arrived = Some(arrived);
                refused(error)
            }
        }
    }

    /// Adopts a queue that was handed to the agent. One that was adopted too often is closed.
    fn adopt_queue<R: Wait>(&mut self, rt: &R, end: EndId, agent: AgentId) -> Result<Shown, Stop> {
        let Some(event_loop) = loop_of(&mut self.agents, agent) else {
            return Err(Stop::Unexpected);
        };
        match event_loop.fetch(rt, &self.hub, &self.directory, end) {
            Ok(true) => {}
            Ok(false) => return answer(Outcome::TooManyMoves),
            Err(LoopError::OutOfMemory) => return Err(Stop::OutOfMemory),
        }
        let moves = match event_loop.held_end(end) {
            Some(Held::Client(queue)) => queue.moves(),
            Some(Held::Worker(queue)) => queue.moves(),
            _ => return Err(Stop::Unexpected),
        };
        match self.seat_mut(end) {
            Some(seat) => {
                seat.place = Place::Held;
                answer(Outcome::Adopted(moves))
            }
            None => Err(Stop::Unexpected),
        }
    }
}

/// Hands a queue on, or gives it back.
fn hand_queue<R: Wait>(
    rt: &R,
    directory: &Directory,
    queue: Held,
    to: AgentId,
) -> Result<(), (Stop, Held)> {
    match queue {
        Held::Client(queue) => match queue.hand(rt, directory, to) {
            Ok(()) => Ok(()),
            Err((error, queue)) => Err((not_handed(error), Held::Client(queue))),
        },
        Held::Worker(queue) => match queue.hand(rt, directory, to) {
            Ok(()) => Ok(()),
            Err((error, queue)) => Err((not_handed(error), Held::Worker(queue))),
        },
        held => Err((Stop::Unexpected, held)),
    }
}

fn not_handed(error: HandError) -> Stop {
    match error {
        HandError::OutOfMemory => Stop::OutOfMemory,
        HandError::Taken => Stop::Unexpected,
    }
}

fn refused(error: AdoptError) -> Result<Shown, Stop> {
    match error {
        AdoptError::TooManyMoves => answer(Outcome::TooManyMoves),
        AdoptError::OutOfMemory => Err(Stop::OutOfMemory),
        AdoptError::Taken => Err(Stop::Unexpected),
    }
}
