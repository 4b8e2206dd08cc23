//! Posts, with the ports that are sent along.

ghost use Rattle.std.specs.Prelude.{IsSome};

use crate::agent::{hold, loop_of};
use crate::lines::Lent;
use crate::player::{Player, Standing, Stop, answer, not_now};
use crate::seat::{Kind, Place};
use hub_core::{Acceptance, Outcome};
use hub_envelope::{AgentId, Body, EndId, Items, LineId, MAX_PORTS};
use hub_loop::{Held, Way};
use hub_ports::{Closings, Parcel, Port, SendRefusal, send_parcel_over_line};
use hub_queue::Posted;
use hub_steps::Shown;
use hub_test_parts::release_port;
use std::sync::Wait;

/// What a post shows that was accepted.
fn accepted(agent: AgentId, posted: Posted) -> Result<Shown, Stop> {
    answer(Outcome::Accepted(Acceptance {
        agent,
        epoch: posted.epoch,
        number: posted.number,
    }))
}

impl Player {
    /// Whether these are different ports that the agent has, and none is the one that posts.
    fn are_at_hand(&self, agent: AgentId, source: Option<EndId>, list: &[EndId]) -> bool {
        for index in 0..list.len() {
            let end = list[index];
            let is_at_hand = match self.seat(end) {
                Some(seat) => seat.is_port_of(agent),
                None => false,
            };
            if !is_at_hand || source == Some(end) || list[..index].contains(&end) {
                return false;
            }
        }
        true
    }

    /// Takes the ports of a list out of the agent's hands.
    fn take_out(&mut self, agent: AgentId, list: &[EndId]) -> Result<Vec<Port>, Stop> {
        let Ok(mut ports) = Vec::with_capacity(self.alloc, list.len()) else {
            return Err(Stop::OutOfMemory);
        };
        for end in list {
            let Some(seat) = self.seat_mut(*end) else {
                return Err(Stop::Unexpected);
            };
            seat.place = Place::InFlight;
            let released = match loop_of(&mut self.agents, agent) {
                Some(event_loop) => release_port(event_loop, *end),
                None => None,
            };
            let Some(port) = released else {
                return Err(Stop::Unexpected);
            };
            if ports.push(port).is_err() {
                return Err(Stop::OutOfMemory);
            }
        }
        Ok(ports)
    }

    /// The ports that have come back are in the agent's hands again. A loop that does not hold one
    /// of them is what no step line shows.
    fn put_back(
        &mut self,
        agent: AgentId,
        ports: Vec<Port>,
        shown: Result<Shown, Stop>,
    ) -> Result<Shown, Stop> {
        let mut are_held = true;
        for port in ports {
            if let Some(seat) = self.seat_mut(port.id()) {
                seat.place = Place::Held;
            }
            are_held = hold(&mut self.agents, agent, Held::Port(port)) && are_held;
        }
        if are_held {
            shown
        } else {
            Err(Stop::Unexpected)
        }
    }

    /// The ports of a list, where it is one that a call takes. `None` where there are none such.
    fn listed(
        &mut self,
        agent: AgentId,
        source: Option<EndId>,
        list: &[EndId],
    ) -> Result<Option<Vec<Port>>, Stop> {
        if self.are_at_hand(agent, source, list) {
            let ports = self.take_out(agent, list)?;
            Ok(Some(ports))
        } else if list.len() > MAX_PORTS {
            Err(Stop::List)
        } else {
            Ok(None)
        }
    }

    pub(crate) fn post_from_port<R: Wait>(
        &mut self,
        rt: &R,
        port: EndId,
        ports: Items<EndId>,
        body: Body,
    ) -> Result<Shown, Stop> {
        if self.standing(port) != Standing::AtHand {
            return not_now();
        }
        let agent = match self.seat(port) {
            Some(seat) if seat.kind == Kind::Port => seat.agent,
            _ => return not_now(),
        };
        let Some(transfer) = self.listed(agent, Some(port), ports.as_slice())? else {
            return not_now();
        };
        let Some(event_loop) = loop_of(&mut self.agents, agent) else {
            return Err(Stop::Unexpected);
        };
        let (mut parcel, mut closings) = (
            Parcel::new(self.alloc, body, transfer),
            Closings::none(),
        );
        let (way, lent) = (Way::Port(port), &mut parcel);
        match event_loop.post(rt, &self.hub, agent, way, lent, &mut closings) {
            Some(Ok(posted)) => accepted(agent, posted),
            Some(Err(refusal)) => self.refused(agent, ports.as_slice(), refusal, parcel, &closings),
            None => Err(Stop::Unexpected),
        }
    }

    pub(crate) fn post_on_line<R: Wait>(
        &mut self,
        rt: &R,
        end: EndId,
        line: LineId,
        ports: Items<EndId>,
        body: Body,
    ) -> Result<Shown, Stop> {
        let Some(place) = self.place_of(end, line) else {
            return not_now();
        };
        let agent = match self.lent.get(place) {
            Some(lent) => lent.agent,
            None => return not_now(),
        };
        if !self.is_running(agent) {
            return not_now();
        }
        let Some(transfer) = self.listed(agent, None, ports.as_slice())? else {
            return not_now();
        };
        let (mut parcel, mut closings) = (
            Parcel::new(self.alloc, body, transfer),
            Closings::none(),
        );
        let posted = self.post_lent(rt, place, agent, &mut parcel, &mut closings);
        match posted {
            Some(Ok(posted)) => accepted(agent, posted),
            Some(Err(refusal)) => self.refused(agent, ports.as_slice(), refusal, parcel, &closings),
            None => Err(Stop::Unexpected),
        }
    }

    /// Posts over a line that the player has, or that the loop of the agent holds.
    fn post_lent<R: Wait>(
        &mut self,
        rt: &R,
        place: usize,
        agent: AgentId,
        parcel: &mut Parcel,
        closings: &mut Closings,
    ) -> Option<Result<Posted, SendRefusal>>
        requires { IsSome parcel.old.body }
    {
        let lent = self.lent.get_mut(place)?;
        if let Some(poster) = &mut lent.poster {
            return Some(send_parcel_over_line(poster, rt, &self.hub, agent, parcel, closings));
        }
        let way = Way::Line(lent.end);
        loop_of(&mut self.agents, agent)?.post(rt, &self.hub, agent, way, parcel, closings)
    }

    /// What a post shows that was refused: the ports that came back are the agent's again.
    fn refused(
        &mut self,
        agent: AgentId,
        list: &[EndId],
        refusal: SendRefusal,
        parcel: Parcel,
        closings: &Closings,
    ) -> Result<Shown, Stop> {
        let Parcel { ports: back, .. } = parcel;
        match refusal {
            SendRefusal::Closed => self.put_back(agent, back, answer(Outcome::Closed)),
            SendRefusal::Moving => self.put_back(agent, back, Ok(Shown::Moving)),
            SendRefusal::TooManyPorts => self.put_back(agent, back, answer(Outcome::TooManyPorts)),
            SendRefusal::Doomed => self.doomed(list, closings),
            SendRefusal::OutOfMemory => self.put_back(agent, back, Err(Stop::OutOfMemory)),
            SendRefusal::Strayed | SendRefusal::Taken => Err(Stop::Unexpected),
        }
    }

    /// The ports of the list were closed, in order. Nothing is kept of what waited there.
    fn doomed(&mut self, list: &[EndId], closings: &Closings) -> Result<Shown, Stop> {
        let closings = closings.as_slice();
        if closings.len() != list.len() {
            return Err(Stop::Unexpected);
        }
        for (closing, end) in closings.iter().zip(list) {
            match self.seat_mut(closing.end) {
                Some(seat) if closing.end == *end => seat.place = Place::Closed,
                _ => return Err(Stop::Unexpected),
            }
        }
        Ok(Shown::Doomed)
    }
}
