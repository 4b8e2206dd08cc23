//! Steps of agents: Agent, Channel, Client and Worker make agents and ends; Line and Back say who
//! holds a line of a client's or worker's queue; Order and See end an agent. And what is counted of
//! an agent: its queues, and its posters that are away.

ghost use Rattle.std.specs.Prelude.{◌≡◌, ◌++◌, ◌∷◌, ◌==◌, [], option_map, slice_get};
ghost use Rattle.std.specs.Prelude.{if◌then◌else◌, IfOk, MatchResult, OnOk};
ghost use Rattle.hub_core.specs.Kept.{core_after, queue_core, one_more, set_at, gone};
ghost use Rattle.hub_core.specs.Kept.{first_free, change_owner, counted, seen};
ghost use Rattle.hub_core.specs.Legal.{agent_answer, back_answer, channel_answer, ends_at};
ghost use Rattle.hub_core.specs.Legal.{line_answer, order_answer, queue_answer, see_answer};
ghost use Rattle.hub_core.specs.Posting.{owner};
ghost use Rattle.hub_core.specs.Shows.{count_of, kept_away, kept_lines};
ghost use Rattle.hub_core.specs.declared.step.Action.TheVariants as action;

use crate::agent::Agent;
use crate::end::{End, Place};
use crate::kind::Kind;
use crate::line::{Line, Phase};
use crate::machine::Core;
use crate::step::{Outcome, Sender};
use hub_envelope::{AgentId, EndId, Items, MAX_AGENTS, MAX_ENDS, OutOfMemory, Text};

impl Core {
    pub(crate) fn make_agent(
        &mut self,
        origin: Option<Text>,
        memory_refused: bool,
    ) -> Result<Outcome, OutOfMemory>
        ensures { MatchResult result
            (λ o. (o ≡ agent_answer (seen self.old) memory_refused)
            × (self.new ≡ core_after self.old o (action.Agent origin)))
            (λ _. self.new ≡ self.old) }
    {
        if memory_refused {
            return Ok(Outcome::NoMemory);
        }
        let number = self.agents.len();
        if number >= MAX_AGENTS {
            return Ok(Outcome::TooManyAgents);
        }
        self.agents.reserve(1)?;
        self.roster.members.add_agent_origin(origin)?;
        self.agents.push(Agent::FIRST).unwrap();
        Ok(Outcome::Agent(AgentId(number as u8)))
    }

    pub(crate) fn make_channel(
        &mut self,
        agent: AgentId,
        memory_refused: bool,
    ) -> Result<Outcome, OutOfMemory>
        ensures { MatchResult result
            (λ o. (o ≡ channel_answer (seen self.old) agent memory_refused)
            × (self.new ≡ core_after self.old o (action.Channel agent)))
            (λ _. self.new ≡ self.old) }
    {
        if !self.is_running(agent) {
            return Ok(Outcome::NotNow);
        }
        let number = self.ends.len();
        if number > MAX_ENDS - 2 {
            return Ok(Outcome::TooManyEnds);
        }
        if memory_refused {
            return Ok(Outcome::NoMemory);
        }
        let first = EndId(number as u32);
        let second = EndId(number as u32 + 1);
        // With room for both no end is left alone.
        self.ends.reserve(2)?;
        let first_end = End::new(self.alloc, agent, Kind::Port(second))?;
        let second_end = End::new(self.alloc, agent, Kind::Port(first))?;
        self.ends.push(first_end).unwrap();
        self.ends.push(second_end).unwrap();
        Ok(Outcome::Ends(first, second))
    }

    /// The agent makes its queue of a kind.
    pub(crate) fn make_queue(
        &mut self,
        kind: Kind,
        agent: AgentId,
        memory_refused: bool,
    ) -> Result<Outcome, OutOfMemory>
        ensures { let count = count_of kind (slice_get self.old.agents agent.0) in
            MatchResult result
            (λ o. (o ≡ queue_answer (count == 0) (seen self.old) agent memory_refused)
            × (self.new ≡ queue_core agent kind self.old o))
            (λ _. self.new ≡ self.old) }
    {
        if !self.is_running(agent) || self.agent_queue_count_of_kind(kind, agent) != 0 {
            return Ok(Outcome::NotNow);
        }
        let number = self.ends.len();
        if number >= MAX_ENDS {
            return Ok(Outcome::TooManyEnds);
        }
        if memory_refused {
            return Ok(Outcome::NoMemory);
        }
        let counted = self.agent_with_one_more_end_of_kind(kind, agent)?;
        let end = End::new(self.alloc, agent, kind)?;
        // What the agent has is counted once the end has its place.
        self.ends.push(end)?;
        self.set_agent(agent, counted);
        Ok(Outcome::End(EndId(number as u32)))
    }

    /// The agent holds the first line of a client's or worker's queue that no agent holds.
    pub(crate) fn hold_free_line_of_queue(&mut self, end: EndId, agent: AgentId) -> Outcome
        ensures { let free = first_free (kept_lines (slice_get self.old.ends end.0)) in
            (result ≡ line_answer free (seen self.old) end agent)
            × (self.new ≡ core_after self.old result (action.Line end agent)) }
    {
        if !self.is_running(agent) {
            return Outcome::NotNow;
        }
        let Some(found) = self.end_at(end) else {
            return Outcome::NoSuchEnd;
        };
        if !found.kind.is_queue() {
            return Outcome::NoSuchEnd;
        }
        let Some(line) = found.lines.first_free() else {
            return Outcome::NoLine;
        };
        let sender = Sender { end, line };
        let held_by = Some(agent);
        let found = self.line_of_sender_or_default(sender);
        self.set_line(sender, Line { held_by, ..found });
        Outcome::Line(line)
    }

    /// A line that an agent holds and whose poster is out is held by none.
    pub(crate) fn release_line(&mut self, sender: Sender) -> Outcome
        ensures { (result ≡ back_answer (seen self.old) sender)
            × (self.new ≡ core_after self.old result (action.Back sender)) }
    {
        let found = self.line_of_sender_or_default(sender);
        if found.held_by.is_none() || found.phase != Phase::Out {
            return Outcome::NotNow;
        }
        let held_by = None;
        self.set_line(sender, Line { held_by, ..found });
        Outcome::Done
    }

    /// How many queues of a kind an agent has.
    pub(crate) fn agent_queue_count_of_kind(&self, kind: Kind, agent: AgentId) -> u32
        ensures { result ≡ count_of kind (slice_get self.now.agents agent.0) }
    {
        match self.agent_at(agent) {
            Some(found) => found.queue_count_of_kind(kind),
            None => 0,
        }
    }

    /// The agent with an end of this kind more.
    pub(crate) fn agent_with_one_more_end_of_kind(
        &self,
        kind: Kind,
        agent: AgentId,
    ) -> Result<Option<Agent>, OutOfMemory>
        ensures { IfOk result (λ found. found
            ≡ option_map (one_more kind) (slice_get self.now.agents agent.0)) }
    {
        match self.agent_at(agent) {
            Some(found) => Ok(Some(found.with_end_counted_if_queue(kind)?)),
            None => Ok(None),
        }
    }

    /// Changes what is kept of an agent.
    pub(crate) fn set_agent(&mut self, agent: AgentId, value: Option<Agent>)
        ensures { self.new ≡ record self.old {
          agents = set_at agent.0 self.old.agents value;
        } }
    {
        let Some(value) = value else {
            return;
        };
        if let Some(kept) = self.agents.get_mut(agent.0 as usize) {
            *kept = value;
        }
    }

    /// An end of this kind went from this place.
    pub(crate) fn decrease_queue_count(&mut self, kind: Kind, place: Place)
        ensures { self.new ≡ record self.old { agents = gone kind place self.old.agents } }
    {
        if let Place::With(agent) = place {
            if let Some(found) = self.agents.get_mut(agent.0 as usize) {
                *found = found.with_one_queue_less(kind);
            }
        }
    }

    pub(crate) fn request_agent_stop(&mut self, agent: AgentId) -> Outcome
        ensures { (result ≡ order_answer (seen self.old) agent)
            × (self.new ≡ core_after self.old result (action.Order agent)) }
    {
        let Some(found) = self.agent_at(agent).copied() else {
            return Outcome::NotNow;
        };
        let is_ordered = true;
        self.set_agent(
            agent,
            Some(Agent {
                is_ordered,
                ..found
            }),
        );
        Outcome::Ordered
    }

    /// An agent looks whether it was ordered to end.
    pub(crate) fn stop_agent_if_requested(&mut self, agent: AgentId) -> Result<Outcome, OutOfMemory>
        ensures { let away = kept_away (slice_get self.old.agents agent.0) in
            MatchResult result
            (λ o. (o ≡ see_answer (away == 0) (seen self.old) agent)
            × (self.new ≡ core_after self.old o (action.See agent)))
            (λ _. self.new ≡ self.old) }
    {
        let Some(found) = self.agent_at(agent).copied() else {
            return Ok(Outcome::NotNow);
        };
        if found.away != 0 {
            return Ok(Outcome::NotNow);
        }
        if !found.is_ordered {
            return Ok(Outcome::GoingOn);
        }
        let ends = self.ends_at(agent)?;
        let is_running = false;
        self.set_agent(
            agent,
            Some(Agent {
                is_running,
                ..found
            }),
        );
        Ok(Outcome::Ending(ends))
    }

    /// The ends that an agent has, and those that have arrived at it.
    fn ends_at(&self, agent: AgentId) -> Result<Items<EndId>, OutOfMemory>
        ensures { IfOk result (λ found. found ≡ ends_at (seen self.now) agent) }
    {
        let mut ends = Vec::new(self.alloc);
        for (number, end) in self.ends.iter().enumerate() {
            push_end_if(
                &mut ends,
                end.place.is_with_or_arrived_at_agent(agent),
                number,
            )?;
        }
        Ok(Items::from_vec(ends))
    }

    /// The agent, running or ending, whose poster a line has.
    pub(crate) fn owner_of_line(&self, sender: Sender) -> Option<AgentId>
        ensures { result ≡ owner (seen self.now) sender.end.0 sender.line.0 }
    {
        let end = self.end_at(sender.end)?;
        match end.kind {
            Kind::Port(peer) if sender.line.0 == 0 => match self.end_at(peer)?.place {
                Place::With(agent) => Some(agent),
                _ => None,
            },
            Kind::Client | Kind::Worker => end.lines.get(sender.line)?.held_by,
            Kind::Port(_) | Kind::Member(_) => None,
        }
    }

    /// A poster of the agent came to this phase: it is away now, or it left.
    pub(crate) fn update_away_poster_count_of_agent(&mut self, owner: Option<AgentId>, phase: Phase)
        ensures { self.new ≡ record self.old {
          agents = change_owner (counted phase) owner self.old.agents;
        } }
    {
        let Some(agent) = owner else {
            return;
        };
        if let Some(found) = self.agent_at(agent).copied() {
            self.set_agent(agent, Some(found.with_updated_away_poster_count(phase)));
        }
    }
}

/// Adds the number of an end where it is asked for.
fn push_end_if(ends: &mut Vec<EndId>, is_asked: bool, number: usize) -> Result<(), OutOfMemory>
    ensures { OnOk result (ends.new.items
        ≡ ends.old.items ++ (if is_asked then record { 0 = number } ∷ [] else [])) }
{
    if is_asked {
        let number = u32::try_from(number).map_err(|_| OutOfMemory)?;
        ends.push(EndId(number))?;
    }
    Ok(())
}
