//! Turns of the loops, told as the step lines that do the same.

use crate::agent::loop_of;
use crate::player::{Player, Stop};
use crate::seat::Place;
use crate::told::Told;
use hub_core::Outcome;
use hub_envelope::{AgentId, EndId};
use hub_loop::{Held, LoopError, Turn};
use hub_steps::Shown;
use hub_test_parts::{Delivered, turn};
use std::mem::replace;
use std::sync::Wait;

impl Player {
    /// Makes a turn of the loop of an agent, and tells what was done. Where there is no such loop
    /// it is told as idle.
    pub(crate) fn turn<R: Wait>(
        &mut self,
        rt: &R,
        agent: AgentId,
        told: &mut Told,
    ) -> Result<(), Stop> {
        let Some(event_loop) = loop_of(&mut self.agents, agent) else {
            return told.tell_idle(false);
        };
        // Where there was no memory the next turn goes on.
        let turned = match turn(rt, &self.hub, event_loop) {
            Ok(turned) => Ok(turned),
            Err(LoopError::OutOfMemory) => turn(rt, &self.hub, event_loop),
        };
        match turned {
            Ok(Turn::Delivered) => self.tell_deliveries(agent, told),
            Ok(Turn::Idle { busy }) => told.tell_idle(busy),
            Ok(Turn::Ending) => self.end(rt, agent, told),
            Err(LoopError::OutOfMemory) => Err(Stop::OutOfMemory),
        }
    }

    /// Tells what was delivered and isn't told yet.
    pub(crate) fn tell_deliveries(&mut self, agent: AgentId, told: &mut Told) -> Result<(), Stop> {
        let alloc = self.alloc;
        let Some(event_loop) = loop_of(&mut self.agents, agent) else {
            return Err(Stop::Unexpected);
        };
        let all = replace(&mut event_loop.handler_mut().delivered, Vec::new(alloc));
        for delivered in all {
            self.tell_delivery(agent, delivered, told)?;
        }
        Ok(())
    }

    fn tell_delivery(
        &mut self,
        agent: AgentId,
        delivered: Delivered,
        told: &mut Told,
    ) -> Result<(), Stop> {
        let Delivered { envelope, missing } = delivered;
        let shown = Shown::Answer(Outcome::Got(envelope));
        self.tell_taken(agent, &shown, missing.as_slice(), told)
    }

    fn tell_taken(
        &mut self,
        agent: AgentId,
        shown: &Shown,
        missing: &[EndId],
        told: &mut Told,
    ) -> Result<(), Stop> {
        let Shown::Answer(Outcome::Got(envelope)) = shown else {
            return Err(Stop::Unexpected);
        };
        told.tell_made("take", envelope.end.0, None, shown)?;
        for end in envelope.ports.as_slice() {
            if missing.contains(end) {
                self.tell_missing(*end, told)?;
            } else {
                self.tell_adoption(*end, agent, told)?;
            }
        }
        Ok(())
    }

    /// Tells that a port was lost, or that the loop has closed it.
    fn tell_missing(&mut self, end: EndId, told: &mut Told) -> Result<(), Stop> {
        match self.seat_mut(end) {
            Some(seat) => seat.place = Place::Swept,
            None => return Err(Stop::Unexpected),
        }
        told.tell_numbers("missing", end.0, None)
    }

    /// Tells that the loop has adopted a port, where it holds it.
    fn tell_adoption(&mut self, end: EndId, agent: AgentId, told: &mut Told) -> Result<(), Stop> {
        let Some(event_loop) = loop_of(&mut self.agents, agent) else {
            return Err(Stop::Unexpected);
        };
        let Some(Held::Port(port)) = event_loop.held_end(end) else {
            return Err(Stop::Unexpected);
        };
        let shown = Shown::Answer(Outcome::Adopted(port.moves()));
        let Some(seat) = self.seat_mut(end) else {
            return Err(Stop::Unexpected);
        };
        seat.place = Place::Held;
        seat.agent = agent;
        told.tell_made("adopt", end.0, Some((" ", agent.0)), &shown)
    }
}
