//! Loops that find their order and end, told as the step lines that do the same.

use crate::closing::shown_of;
use crate::lines::Lent;
use crate::player::{Player, Stop};
use crate::seat::{Place, Seat};
use crate::told::Told;
use hub_core::Outcome;
use hub_envelope::{AgentId, EndId, Items};
use hub_loop::Ended;
use hub_ports::ClosedPort;
use hub_queue::Swept;
use hub_steps::Shown;
use hub_test_parts::Loop;
use std::sync::Wait;

impl Player {
    /// Ends the loop of an agent that was ordered to end.
    pub(crate) fn end<R: Wait>(
        &mut self,
        rt: &R,
        agent: AgentId,
        told: &mut Told,
    ) -> Result<(), Stop> {
        // Where there was no memory it looks once more, since the loop has found its order.
        let shown = match self.see(agent) {
            Err(Stop::OutOfMemory) => self.see(agent)?,
            seen => seen?,
        };
        told.tell_made("see", u32::from(agent.0), None, &shown)?;
        let event_loop = match self.agent_mut(agent) {
            Some(agent) => agent.event_loop.take(),
            None => None,
        };
        let Some(event_loop) = event_loop else {
            return Err(Stop::Unexpected);
        };
        let ended = self.ended(rt, event_loop)?;
        self.tell_ended(agent, ended, told)?;
        self.tell_lines(agent, told)
    }

    /// What a loop leaves. Where there was no memory the next call goes on.
    fn ended<R: Wait>(&self, rt: &R, event_loop: Loop) -> Result<Ended, Stop> {
        match event_loop.end(rt, &self.hub, &self.directory, &mut self.roster.as_lock()) {
            Ok(ended) => Ok(ended),
            Err((_, event_loop)) => {
                match event_loop.end(rt, &self.hub, &self.directory, &mut self.roster.as_lock()) {
                    Ok(ended) => Ok(ended),
                    Err(_) => Err(Stop::OutOfMemory),
                }
            }
        }
    }

    fn tell_ended(&mut self, agent: AgentId, ended: Ended, told: &mut Told) -> Result<(), Stop> {
        let Ended { swept, noticed } = ended;
        let closings = self.tell_closings(agent, noticed.as_slice(), told);
        drop(noticed);
        closings?;
        for swept in swept {
            self.tell_sweep(swept, told)?;
        }
        Ok(())
    }

    /// Tells that each end which the loop held was closed: a port with its notice, and a member
    /// once it has left the roster.
    fn tell_closings(
        &mut self,
        agent: AgentId,
        ports: &[ClosedPort],
        told: &mut Told,
    ) -> Result<(), Stop> {
        let Ok(count) = u32::try_from(self.seats.len()) else {
            return Err(Stop::Unexpected);
        };
        for number in 0..count {
            if let Some(seat) = self.seat_mut(EndId(number)) {
                if seat.place == Place::Held && seat.agent == agent {
                    tell_closing(EndId(number), seat, ports, told)?;
                }
            }
        }
        Ok(())
    }

    /// Tells that the lines which the loop held were given back.
    fn tell_lines(&mut self, agent: AgentId, told: &mut Told) -> Result<(), Stop> {
        for _ in 0..self.lent.len() {
            let Some(place) = self.lent.iter().position(|lent| lent.is_held_by(agent)) else {
                return Ok(());
            };
            if place >= self.lent.len() {
                return Err(Stop::Unexpected);
            }
            let Lent { end, line, .. } = self.lent.remove(place);
            let done = Shown::Answer(Outcome::Done);
            told.tell_made("back", end.0, Some(("/", line.0)), &done)?;
        }
        Ok(())
    }

    fn tell_sweep(&mut self, swept: Swept, told: &mut Told) -> Result<(), Stop> {
        let end = swept.closed_end_id();
        let Some(seat) = self.seat_mut(end) else {
            return Err(Stop::Unexpected);
        };
        seat.place = Place::Swept;
        let shown = Shown::Answer(Outcome::Discarded(Items::from_vec(swept.into_envelopes())));
        told.tell_made("sweep", end.0, None, &shown)
    }
}

/// What the closing of an end shows.
fn closing_of(ports: &[ClosedPort], end: EndId) -> Shown {
    for port in ports {
        if port.end == end {
            return shown_of(port.noticed);
        }
    }
    Shown::Answer(Outcome::Done)
}

fn tell_closing(
    end: EndId,
    seat: &mut Seat,
    ports: &[ClosedPort],
    told: &mut Told,
) -> Result<(), Stop> {
    seat.place = Place::Closed;
    if seat.is_listed {
        seat.is_listed = false;
        told.tell_made("part", end.0, None, &Shown::Answer(Outcome::Done))?;
    }
    told.tell_made("close", end.0, None, &closing_of(ports, end))
}
