//! Orders to end, and events of lives.

use crate::player::{Player, Stop, answer, not_now};
use hub_core::Outcome;
use hub_envelope::{AgentId, EndId, Items};
use hub_life::Event;
use hub_steps::Shown;

impl Player {
    pub(crate) fn order(&mut self, agent: AgentId) -> Result<Shown, Stop> {
        match self.agent_mut(agent) {
            Some(agent) => {
                agent.order();
                answer(Outcome::Ordered)
            }
            None => not_now(),
        }
    }

    pub(crate) fn see(&mut self, agent: AgentId) -> Result<Shown, Stop> {
        let sees = match self.agent_mut(agent) {
            Some(agent) => agent.sees(),
            None => return not_now(),
        };
        if sees {
            self.ends_of(agent)
        } else {
            answer(Outcome::GoingOn)
        }
    }

    /// The ends that the agent has, and those that have come to it.
    fn ends_of(&self, agent: AgentId) -> Result<Shown, Stop> {
        let mut ends = Items::none(self.alloc);
        for place in 0..self.seats.len() {
            let Ok(number) = u32::try_from(place) else {
                return Err(Stop::Unexpected);
            };
            if self.seats[place].is_at(agent) && ends.push(EndId(number)).is_err() {
                return Err(Stop::OutOfMemory);
            }
        }
        answer(Outcome::Ending(ends))
    }

    pub(crate) fn event(&mut self, agent: AgentId, event: Event) -> Result<Shown, Stop> {
        let answered = match self.agent_mut(agent) {
            Some(agent) => agent.event(event),
            None => None,
        };
        match answered {
            Some(Ok(state)) => Ok(Shown::State(state)),
            Some(Err(error)) => Ok(Shown::Refused(error)),
            None => not_now(),
        }
    }
}
