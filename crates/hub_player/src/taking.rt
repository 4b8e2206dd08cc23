//! Starts and takes.

use crate::agent::{hold_in, loop_of};
use crate::player::{Player, Standing, Stop, answer, not_now};
use crate::seat::Kind;
use hub_core::Outcome;
use hub_envelope::{AgentId, EndId, Envelope};
use hub_loop::Held;
use hub_ports::Arrived;
use hub_queue::Took;
use hub_steps::Shown;
use hub_test_parts::{Loop, take};
use std::sync::Wait;

/// Takes once from the end of this number, which the loop holds. `None` where it doesn't.
fn take_from<R: Wait>(rt: &R, event_loop: &mut Loop, end: EndId) -> Option<Took> {
    if let Some(port) = event_loop.port_mut(end) {
        return Some(take(rt, port));
    }
    if let Some(member) = event_loop.member_mut(end) {
        return Some(take(rt, member));
    }
    if let Some(queue) = event_loop.client_queue_mut(end) {
        return Some(take(rt, queue));
    }
    take_of_worker(rt, event_loop, end)
}

/// Takes from the queue of a worker, which the loop gives out for it, since it lends none.
fn take_of_worker<R: Wait>(rt: &R, event_loop: &mut Loop, end: EndId) -> Option<Took> {
    match event_loop.release_end(end)? {
        Held::Worker(mut queue) => {
            let took = take(rt, &mut queue);
            if hold_in(event_loop, Held::Worker(queue)) {
                Some(took)
            } else {
                None
            }
        }
        held => {
            drop(held);
            None
        }
    }
}

impl Player {
    pub(crate) fn start(&mut self, end: EndId) -> Result<Shown, Stop> {
        match self.standing(end) {
            Standing::Closed => answer(Outcome::Closed),
            Standing::Elsewhere => not_now(),
            Standing::AtHand => self.start_at(end),
        }
    }

    fn start_at(&mut self, end: EndId) -> Result<Shown, Stop> {
        let Some(seat) = self.seat(end) else {
            return Err(Stop::Unexpected);
        };
        let (kind, agent) = (seat.kind, seat.agent);
        let Some(event_loop) = loop_of(&mut self.agents, agent) else {
            return Err(Stop::Unexpected);
        };
        let is_started = match kind {
            Kind::Port => event_loop.start_port(end),
            Kind::Client => event_loop.start_client_queue(end),
            Kind::Worker | Kind::Member => return Err(Stop::Start),
        };
        if is_started {
            answer(Outcome::Started)
        } else {
            Err(Stop::Unexpected)
        }
    }

    pub(crate) fn load(&mut self, end: EndId) -> Result<Shown, Stop> {
        let is_client = match self.seat(end) {
            Some(seat) => seat.kind == Kind::Client,
            None => false,
        };
        if !is_client {
            return not_now();
        }
        match self.standing(end) {
            Standing::Closed => answer(Outcome::Closed),
            Standing::Elsewhere => not_now(),
            Standing::AtHand => self.load_at(end),
        }
    }

    fn load_at(&mut self, end: EndId) -> Result<Shown, Stop> {
        let Some(seat) = self.seat(end) else {
            return Err(Stop::Unexpected);
        };
        let agent = seat.agent;
        let Some(event_loop) = loop_of(&mut self.agents, agent) else {
            return Err(Stop::Unexpected);
        };
        match event_loop.client_queue_mut(end) {
            Some(queue) => {
                queue.loaded();
                answer(Outcome::Started)
            }
            None => Err(Stop::Unexpected),
        }
    }

    pub(crate) fn take<R: Wait>(&mut self, rt: &R, end: EndId) -> Result<Shown, Stop> {
        match self.standing(end) {
            Standing::Closed => answer(Outcome::Closed),
            Standing::Elsewhere => not_now(),
            Standing::AtHand => self.take_at(rt, end),
        }
    }

    fn take_at<R: Wait>(&mut self, rt: &R, end: EndId) -> Result<Shown, Stop> {
        let Some(seat) = self.seat(end) else {
            return Err(Stop::Unexpected);
        };
        let agent = seat.agent;
        let Some(event_loop) = loop_of(&mut self.agents, agent) else {
            return Err(Stop::Unexpected);
        };
        match take_from(rt, event_loop, end) {
            Some(Took::Got(envelope)) => self.got(rt, agent, envelope),
            Some(Took::Empty) => answer(Outcome::Empty),
            Some(Took::Busy) => answer(Outcome::Busy),
            Some(Took::Again) => answer(Outcome::Again),
            Some(Took::Disabled) => answer(Outcome::Disabled),
            Some(Took::Closed) | None => Err(Stop::Unexpected),
        }
    }

    /// The ports that the envelope names have come to the agent.
    fn got<R: Wait>(&mut self, rt: &R, agent: AgentId, envelope: Envelope) -> Result<Shown, Stop> {
        let arrived = self.arrivals(rt, &envelope)?;
        for arrived in arrived {
            if let Some(seat) = self.seat_mut(arrived.id()) {
                seat.arrive(arrived, agent);
            }
        }
        answer(Outcome::Got(envelope))
    }

    /// The ports that an envelope names, which are all in flight. Where there is no memory it looks
    /// once more, since the envelope was taken.
    pub(crate) fn arrivals<R: Wait>(
        &self,
        rt: &R,
        envelope: &Envelope,
    ) -> Result<Vec<Arrived>, Stop> {
        let arrival = match self.hub.arrive(rt, envelope) {
            Ok(arrival) => arrival,
            Err(_) => match self.hub.arrive(rt, envelope) {
                Ok(arrival) => arrival,
                Err(_) => return Err(Stop::OutOfMemory),
            },
        };
        if arrival.missing.is_empty() {
            Ok(arrival.found)
        } else {
            Err(Stop::Unexpected)
        }
    }
}
