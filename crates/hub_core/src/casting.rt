//! Broadcast channels: Member, Cast and Part.

ghost use Rattle.std.specs.Prelude.{◌≡◌, unwrap_or, List, ℕ, IfSome, MatchResult};
ghost use Rattle.hub_core.specs.Legal.{member_answer, cast_answer, part_answer};
ghost use Rattle.hub_core.specs.Kept.{member_made, seen, core_after};
ghost use Rattle.hub_core.specs.Made.{maker_of};
ghost use Rattle.hub_core.specs.KeptRoster.{is_seated, kept_destinations};
ghost use Rattle.hub_core.specs.KeptRoster.{MemberLeaves, PartLeaves};
ghost use Rattle.hub_core.specs.declared.step.Outcome.TheVariants as outcome;
ghost use Rattle.hub_core.specs.declared.step.Action.TheVariants as action;
ghost use Rattle.hub_envelope.specs.declared.ids.EndId.{EndId as EndIdValue};
ghost use Rattle.hub_core.specs.Shows.{SameContent};

use crate::end::End;
use crate::kind::Kind;
use crate::machine::Core;
use crate::roster::to_deque;
use crate::step::Outcome;
use hub_envelope::{AgentId, Body, EndId, Items, MAX_ENDS, OutOfMemory, Text};

impl Core {
    /// The agent makes a broadcast channel of this name.
    pub(crate) fn make_member(
        &mut self,
        agent: AgentId,
        name: Text,
        memory_refused: bool,
    ) -> Result<Outcome, OutOfMemory>
        ensures { MatchResult result
            (λ o. (o ≡ member_answer (seen self.old) agent memory_refused)
            × MemberLeaves agent.0 name self.old.roster o self.new.roster
            × (self.new ≡ record self.old {
              ends = member_made agent self.old.ends o;
              roster = self.new.roster;
            }))
            (λ _. SameContent self.old self.new) }
    {
        if !self.is_running(agent) || self.roster.cast.is_some() {
            return Ok(Outcome::NotNow);
        }
        if !self.roster.members.agent_has_any_origin(agent) {
            return Ok(Outcome::NoOrigin);
        }
        let number = self.ends.len();
        if number >= MAX_ENDS {
            return Ok(Outcome::TooManyEnds);
        }
        if memory_refused {
            return Ok(Outcome::NoMemory);
        }
        self.ends.reserve(1)?;
        // Only a step that makes an end takes memory for its group.
        let Some(group) = self.roster.members.group_of_agent_and_name(agent, name)? else {
            return Ok(Outcome::NoOrigin);
        };
        let end = End::new(self.alloc, agent, Kind::Member(agent))?;
        self.roster.members.join(self.alloc, number as u32, group)?;
        self.ends.push(end).unwrap();
        Ok(Outcome::End(EndId(number as u32)))
    }

    /// A member casts a body to the others of its origin and name.
    pub(crate) fn begin_cast(
        &mut self,
        end: EndId,
        ports: Items<EndId>,
        body: Body,
    ) -> Result<Outcome, OutOfMemory>
        ensures { let seated = is_seated self.old.roster.members end.0 in
            let others = kept_destinations self.old.roster.members end.0 in
            MatchResult result
            (λ o. (o ≡ cast_answer seated others (seen self.old) end ports)
            × (self.new ≡ core_after self.old o (action.Cast end ports body)))
            (λ _. self.new ≡ self.old) }
    {
        if let Some(refusal) = self.cast_refusal(end, ports.as_slice()) {
            return Ok(refusal);
        }
        let ends = self.roster.members.others_of_same_group(self.alloc, end.0)?;
        let left = to_deque(self.alloc, &ends)?;
        self.roster.begin_cast(end, body, left);
        Ok(Outcome::Destinations(Items::from_vec(ends)))
    }

    /// What a cast is answered that doesn't begin.
    fn cast_refusal(&self, end: EndId, ports: &[EndId]) -> Option<Outcome>
        ensures answer { let seated = is_seated self.now.roster.members end.0 in
            (others : List EndIdValue) → cast_answer seated others (seen self.now) end ports.now
            ≡ unwrap_or result (outcome.Destinations others) }
        ensures refused { (body : List ℕ) → IfSome result (λ o.
            core_after self.now o (action.Cast end ports.now body) ≡ self.now) }
    {
        if self.agent_that_made_member(end).is_none() || self.roster.cast.is_some() {
            return Some(Outcome::NotNow);
        }
        if !self.roster.members.has(end.0) || self.is_closed(end) {
            return Some(Outcome::InvalidState);
        }
        if self.running_holder(end).is_none() {
            return Some(Outcome::NotNow);
        }
        if !ports.is_empty() {
            return Some(Outcome::NotTransferable);
        }
        None
    }

    /// The agent that made a broadcast channel.
    pub(crate) fn agent_that_made_member(&self, end: EndId) -> Option<AgentId>
        ensures { result ≡ maker_of ((seen self.now).end end.0).kind }
    {
        self.end_at(end)?.kind.agent_that_made_member()
    }

    fn is_closed(&self, end: EndId) -> bool
        ensures { result ≡ ((seen self.now).end end.0).closed }
    {
        match self.end_at(end) {
            Some(end) => end.is_closed,
            None => false,
        }
    }

    /// A member leaves the roster.
    pub(crate) fn take_member_out_of_roster(&mut self, end: EndId) -> Outcome
        ensures { let seated = is_seated self.old.roster.members end.0 in
            (result ≡ part_answer seated (seen self.old))
            × PartLeaves end.0 self.old.roster result self.new.roster
            × (self.new ≡ record self.old { roster = self.new.roster }) }
    {
        if self.roster.cast.is_some() || !self.roster.members.has(end.0) {
            return Outcome::NotNow;
        }
        self.roster.members.leave(end.0);
        Outcome::Done
    }
}
