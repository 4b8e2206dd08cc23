//! Casts, and members that leave the roster.

use crate::agent::loop_of;
use crate::player::{Player, Stop, answer, not_now};
use crate::seat::{Kind, Place};
use hub_broadcast::{CastError, CastOutcome};
use hub_core::{Acceptance, Outcome};
use hub_envelope::{AgentId, Body, EndId, Items};
use hub_steps::{CastPost, Shown};
use std::alloc::Global;
use std::sync::Wait;

impl Player {
    pub(crate) fn cast<R: Wait>(
        &mut self,
        rt: &R,
        end: EndId,
        ports: Items<EndId>,
        body: Body,
    ) -> Result<Shown, Stop> {
        let Some(seat) = self.seat(end) else {
            return not_now();
        };
        if seat.kind != Kind::Member {
            return not_now();
        }
        let agent = seat.agent;
        if seat.place != Place::Held {
            return answer(Outcome::InvalidState);
        }
        if seat.is_listed && !self.is_running(agent) {
            return not_now();
        }
        let Some(event_loop) = loop_of(&mut self.agents, agent) else {
            return Err(Stop::Unexpected);
        };
        let Some(member) = event_loop.member_mut(end) else {
            return Err(Stop::Unexpected);
        };
        match self
            .roster
            .cast(rt, &self.hub.yard, member, body, ports.as_slice())
        {
            Ok(outcomes) => self.posts(agent, outcomes.as_slice()),
            Err(CastError::InvalidState) => answer(Outcome::InvalidState),
            Err(CastError::NotTransferable) => answer(Outcome::NotTransferable),
            Err(CastError::OutOfMemory) => Err(Stop::OutOfMemory),
        }
    }

    fn posts(&self, agent: AgentId, outcomes: &[(EndId, CastOutcome)]) -> Result<Shown, Stop> {
        let Some(mut posts) = room(self.alloc, outcomes.len()) else {
            return Err(Stop::OutOfMemory);
        };
        for (end, outcome) in outcomes {
            let post = CastPost {
                end: *end,
                outcome: outcome_of(agent, *outcome),
            };
            if posts.push(post).is_err() {
                return Err(Stop::OutOfMemory);
            }
        }
        Ok(Shown::Cast(Items::from_vec(posts)))
    }

    pub(crate) fn part<R: Wait>(&mut self, rt: &R, end: EndId) -> Result<Shown, Stop> {
        let Some(seat) = self.seat_mut(end) else {
            return not_now();
        };
        if !seat.is_listed {
            return not_now();
        }
        seat.is_listed = false;
        self.roster.leave(rt, end);
        answer(Outcome::Done)
    }
}

/// Room for so many posts. Where there is no memory it asks once more, since they were made.
fn room(alloc: Global, count: usize) -> Option<Vec<CastPost>> {
    match Vec::with_capacity(alloc, count) {
        Ok(posts) => Some(posts),
        Err(_) => Vec::with_capacity(alloc, count).ok(),
    }
}

/// What a cast shows of a destination.
fn outcome_of(agent: AgentId, outcome: CastOutcome) -> Outcome {
    match outcome {
        CastOutcome::Accepted(posted) => Outcome::Accepted(Acceptance {
            agent,
            epoch: posted.epoch,
            number: posted.number,
        }),
        CastOutcome::Closed => Outcome::Closed,
        CastOutcome::OutOfMemory => Outcome::NoMemory,
        CastOutcome::Moving => Outcome::Moved,
    }
}
