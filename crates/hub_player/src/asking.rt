//! The lines beyond the step lines, which are known where turns are made.

use crate::agent::{hold, loop_of, release};
use crate::player::{Player, Stop};
use crate::told::Told;
use hub_core::Outcome;
use hub_depot::Key;
use hub_envelope::{AgentId, EndId, LineId};
use hub_loop::{Held, Turn};
use hub_ports::Hub;
use hub_steps::Shown;
use hub_test_parts::{Loop, turn};
use hub_text::{number_of, split_word};
use std::str;
use std::sync::Wait;

/// What a line asks for.
#[derive(Clone, Copy)]
pub(crate) enum Asked {
    Turn(AgentId),
    /// A turn whose delivery the handler refuses.
    Refuse(AgentId),
    Rest(AgentId),
    /// Turns, until the handler gives the order to end with so many deliveries.
    Run(AgentId, u32),
    /// The loop that holds the end gives it out, and the loop of this agent holds it.
    Give(EndId, AgentId),
    Holds(AgentId, EndId),
    /// The port is lost in flight.
    Lose(EndId),
    /// The loop closes the end, and a member leaves the roster first.
    Shut(EndId),
}

fn number(word: &str) -> Option<u32> {
    u32::try_from(number_of(word, u64::from(u32::MAX))?).ok()
}

fn agent(number: u32) -> Option<AgentId> {
    Some(AgentId(u8::try_from(number).ok()?))
}

fn asked_with_one(word: &str, number: u32) -> Option<Asked> {
    match word {
        "turn" => Some(Asked::Turn(agent(number)?)),
        "refuse" => Some(Asked::Refuse(agent(number)?)),
        "rest" => Some(Asked::Rest(agent(number)?)),
        "lose" => Some(Asked::Lose(EndId(number))),
        "shut" => Some(Asked::Shut(EndId(number))),
        _ => None,
    }
}

fn asked_with_two(word: &str, number: u32, other: u32) -> Option<Asked> {
    match word {
        "run" => Some(Asked::Run(agent(number)?, other)),
        "give" => Some(Asked::Give(EndId(number), agent(other)?)),
        "holds" => Some(Asked::Holds(agent(number)?, EndId(other))),
        _ => None,
    }
}

/// What a text line asks for. `None` where it is to be a step line.
pub(crate) fn asked_in(bytes: &[u8]) -> Option<Asked> {
    let text = str::from_utf8(bytes).ok()?;
    let (word, rest) = split_word(text)?;
    match split_word(rest) {
        Some((first, second)) => asked_with_two(word, number(first)?, number(second)?),
        None => asked_with_one(word, number(rest)?),
    }
}

/// Whether a turn fails whose delivery the handler has refused.
fn is_refused<R: Wait>(rt: &R, hub: &Hub, event_loop: &mut Loop) -> bool {
    turn(rt, hub, event_loop).is_err() && !event_loop.handler_mut().refuses
}

impl Player {
    /// Does what a line asks for, and tells what came of it.
    pub(crate) fn do_asked<R: Wait>(
        &mut self,
        rt: &R,
        asked: Asked,
        told: &mut Told,
    ) -> Result<(), Stop> {
        match asked {
            Asked::Turn(agent) => self.turn(rt, agent, told),
            Asked::Refuse(agent) => self.refuse(rt, agent, told),
            Asked::Rest(agent) => self.rest(rt, agent, told),
            Asked::Run(agent, count) => self.run(rt, agent, count, told),
            Asked::Give(end, agent) => self.give(end, agent, told),
            Asked::Holds(agent, end) => self.tell_held(agent, end, told),
            Asked::Lose(end) => self.lose(rt, end, told),
            Asked::Shut(end) => self.shut(rt, end, told),
        }
    }

    fn refuse<R: Wait>(&mut self, rt: &R, agent: AgentId, told: &mut Told) -> Result<(), Stop> {
        let Some(event_loop) = loop_of(&mut self.agents, agent) else {
            return Err(Stop::Unexpected);
        };
        event_loop.handler_mut().refuses = true;
        // Where there was no memory before the handler was told the next turn goes on.
        if is_refused(rt, &self.hub, event_loop) || is_refused(rt, &self.hub, event_loop) {
            told.tell_word("refused\n")
        } else {
            Err(Stop::Unexpected)
        }
    }

    /// Rests as after an idle turn. It goes on at once only where somebody has rung.
    fn rest<R: Wait>(&mut self, rt: &R, agent: AgentId, told: &mut Told) -> Result<(), Stop> {
        let Some(event_loop) = loop_of(&mut self.agents, agent) else {
            return Err(Stop::Unexpected);
        };
        event_loop.sleep_or_yield_after_turn(rt, Turn::Idle { busy: false });
        told.tell_word("rested\n")
    }

    fn run<R: Wait>(
        &mut self,
        rt: &R,
        agent: AgentId,
        count: u32,
        told: &mut Told,
    ) -> Result<(), Stop> {
        let Some(event_loop) = loop_of(&mut self.agents, agent) else {
            return Err(Stop::Unexpected);
        };
        event_loop.handler_mut().until_order = count as usize;
        // Where there was no memory the next call goes on.
        if event_loop.run(rt, &self.hub).is_err() && event_loop.run(rt, &self.hub).is_err() {
            return Err(Stop::OutOfMemory);
        }
        self.tell_deliveries(agent, told)?;
        told.tell_word("ran\n")
    }

    fn give(&mut self, end: EndId, agent: AgentId, told: &mut Told) -> Result<(), Stop> {
        let holder = match self.seat(end) {
            Some(seat) => seat.agent,
            None => return told.tell_word("none\n"),
        };
        let Some(held) = release(&mut self.agents, holder, end) else {
            return told.tell_word("none\n");
        };
        if !hold(&mut self.agents, agent, held) {
            return Err(Stop::Unexpected);
        }
        match self.seat_mut(end) {
            Some(seat) => {
                seat.agent = agent;
                told.tell_word("given\n")
            }
            None => Err(Stop::Unexpected),
        }
    }

    /// Tells what a loop holds under a number: the end and how often it has moved, and the line.
    fn tell_held(&mut self, agent: AgentId, end: EndId, told: &mut Told) -> Result<(), Stop> {
        let Some(event_loop) = loop_of(&mut self.agents, agent) else {
            return Err(Stop::Unexpected);
        };
        let held = match event_loop.held_end(end) {
            Some(Held::Port(port)) => Some(("holds port", port.moves())),
            Some(Held::Client(queue)) => Some(("holds client", queue.moves())),
            Some(Held::Worker(queue)) => Some(("holds worker", queue.moves())),
            Some(Held::Member(_)) => Some(("holds member", 0)),
            Some(Held::Line(_)) | None => None,
        };
        let line = match event_loop.line_posting_to_end_mut(end) {
            Some(poster) => Some(poster.name().line.0),
            None => None,
        };
        if line.is_some() != event_loop.has_line_posting_to_end(end) {
            return Err(Stop::Unexpected);
        }
        match (held, line) {
            (Some((kind, moves)), Some(line)) => told.tell_numbers(
                kind,
                moves,
                Some((", line ", line)),
            ),
            (Some((kind, moves)), None) => told.tell_numbers(kind, moves, None),
            (None, Some(line)) => told.tell_numbers("holds line", u32::from(line), None),
            (None, None) => told.tell_word("holds nothing\n"),
        }
    }

    fn lose<R: Wait>(&mut self, rt: &R, end: EndId, told: &mut Told) -> Result<(), Stop> {
        let name = Key {
            end,
            epoch: 0,
            line: LineId(0),
        };
        match self.hub.flight.take(rt, name) {
            Some(port) => {
                drop(port);
                told.tell_word("lost\n")
            }
            None => told.tell_word("none\n"),
        }
    }

    fn shut<R: Wait>(&mut self, rt: &R, end: EndId, told: &mut Told) -> Result<(), Stop> {
        let Some(seat) = self.seat_mut(end) else {
            return told.tell_word("none\n");
        };
        if seat.is_listed {
            seat.is_listed = false;
            told.tell_made("part", end.0, None, &Shown::Answer(Outcome::Done))?;
        }
        let shown = self.close(rt, end)?;
        told.tell_made("close", end.0, None, &shown)
    }
}
