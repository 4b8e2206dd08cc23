//! Steps at ends: Start, Take, Look and Sweep of whoever takes; and Adopt, Close and Hand, which
//! move an end or close it.

ghost use Rattle.std.specs.Prelude.{◌≡◌, ◌<◌, option_and_then, option_map, slice_get, Some};
ghost use Rattle.std.specs.Prelude.{IfOk, IfSome, MatchResult, OnOk, OnErr};
ghost use Rattle.hub_envelope.specs.declared.limits.TheConstants.{MAX_MOVES};
ghost use Rattle.hub_core.specs.Kept.{ServesAt, seen, core_after, change_at, kept_looked};
ghost use Rattle.hub_core.specs.Kept.{is_anyone_at, sweep_outcome_at, moved_ends, ports_of};
ghost use Rattle.hub_core.specs.Kept.{adopting, adopted_end};
ghost use Rattle.hub_core.specs.Shows.{kept_lines};
ghost use Rattle.hub_core.specs.Taking.{FitsTake, adopt_answer, close_answer, found_at};
ghost use Rattle.hub_core.specs.Taking.{hand_answer, is_released, look_answer, may_close};
ghost use Rattle.hub_core.specs.Taking.{may_take_over, start_answer};
ghost use Rattle.hub_core.specs.Posting.{holder};
ghost use Rattle.hub_core.specs.declared.step.Action.TheVariants as action;

use crate::agent::Agent;
use crate::end::Place;
use crate::kind::Kind;
use crate::line::Phase;
use crate::machine::Core;
use crate::step::{Outcome, Sender};
use hub_envelope::{AgentId, EndId, Envelope, Items, LineId, MAX_MOVES, OutOfMemory};

impl Core {
    pub(crate) fn start(&mut self, end: EndId) -> Outcome
        ensures { (result ≡ start_answer (seen self.old) end)
            × (self.new ≡ core_after self.old result (action.Start end)) }
    {
        let at = end.0 as usize;
        let Some(found) = self.end_at(end) else {
            return Outcome::NotNow;
        };
        if found.is_closed {
            return Outcome::Closed;
        }
        if self.running_holder(end).is_none() {
            return Outcome::NotNow;
        }
        self.ends[at].is_enabled = true;
        Outcome::Started
    }

    pub(crate) fn take(&mut self, end: EndId) -> Outcome
        ensures { let Serves = ServesAt (slice_get self.old.ends end.0) in
            FitsTake Serves (seen self.old) end result
            × (self.new ≡ core_after self.old result (action.Take end)) }
    {
        let Some(found) = self.end_at(end) else {
            return Outcome::NotNow;
        };
        if found.is_closed {
            return Outcome::Closed;
        }
        let Some(agent) = self.running_holder(end) else {
            return Outcome::NotNow;
        };
        if !found.is_enabled {
            return Outcome::Disabled;
        }
        self.deliver_next_envelope(end, agent)
    }

    /// Gives its agent the next envelope of an open, enabled end.
    fn deliver_next_envelope(&mut self, end: EndId, agent: AgentId) -> Outcome
        requires { holder (seen self.old) end.0 ≡ Some agent }
        ensures outcome { ServesAt (slice_get self.old.ends end.0) result }
        ensures new { self.new ≡ core_after self.old result (action.Take end) }
    {
        let served = &mut self.ends[end.0 as usize];
        match served.queues.take_first() {
            Some(envelope) => {
                self.set_places_of_ports(envelope.ports.as_slice(), Place::Arrived(agent));
                Outcome::Got(envelope)
            }
            None if served.taker >= served.newest => Outcome::Empty,
            None if !served.is_queue_of_epoch_free_of_posters(served.taker) => Outcome::Busy,
            None => {
                served.advance_to_next_queue();
                Outcome::Again
            }
        }
    }

    /// The queue that is looked at becomes clear where nobody is inside or being turned back there.
    pub(crate) fn mark_queue_clear_if_free_of_posters(&mut self, end: EndId) -> Outcome
        ensures { let found = slice_get self.old.ends end.0 in
            let epoch = option_and_then kept_looked found in
            let looked = found_at (λ k. is_anyone_at k (kept_lines found)) epoch in
            (result ≡ look_answer looked (seen self.old) end)
            × (self.new ≡ core_after self.old result (action.Look end)) }
    {
        let Some(found) = self.end_at(end) else {
            return Outcome::NotNow;
        };
        if !found.is_closed && found.taker >= found.newest {
            return Outcome::NotNow;
        }
        let Some(epoch) = found.next_queue_to_look_at() else {
            return Outcome::Clear(None);
        };
        if found.lines.has_poster_at_queue(epoch) {
            return Outcome::Busy;
        }
        self.ends[end.0 as usize].looked += 1;
        Outcome::Clear(Some(epoch))
    }

    /// Discards what waits at a closed end, where every queue is settled.
    pub(crate) fn sweep_closed_end(&mut self, end: EndId) -> Result<Outcome, OutOfMemory>
        ensures { MatchResult result
            (λ o. (o ≡ sweep_outcome_at (slice_get self.old.ends end.0))
            × (self.new ≡ core_after self.old o (action.Sweep end)))
            (λ _. self.new ≡ self.old) }
    {
        let Some(found) = self.end_at(end) else {
            return Ok(Outcome::NotNow);
        };
        if !found.is_closed {
            return Ok(Outcome::NotNow);
        }
        if found.lines.has_poster_at_queue_or_later(found.looked) {
            return Ok(Outcome::Busy);
        }
        let swept = &mut self.ends[end.0 as usize];
        let envelopes = swept.queues.take_all(self.alloc)?;
        self.mark_ports_of_envelopes_swept(envelopes.as_slice());
        Ok(Outcome::Discarded(envelopes))
    }

    /// Gives each port that the envelopes name its place.
    fn mark_ports_of_envelopes_swept(&mut self, envelopes: &[Envelope])
        ensures { self.new ≡ record self.old {
          ends = moved_ends (ports_of envelopes.now) Place.Swept self.old.ends;
        } }
    {
        for envelope in envelopes {
            self.set_places_of_ports(envelope.ports.as_slice(), Place::Swept);
        }
    }

    pub(crate) fn adopt(
        &mut self,
        end: EndId,
        agent: AgentId,
        memory_refused: bool,
    ) -> Result<Outcome, OutOfMemory>
        ensures { MatchResult result
            (λ o. (o ≡ adopt_answer (seen self.old) end agent memory_refused)
            × (self.new ≡ core_after self.old o (action.Adopt end agent)))
            (λ _. self.new ≡ self.old) }
    {
        let is_running = self.is_running(agent);
        let Some(found) = self.end_at(end) else {
            return Ok(Outcome::NotNow);
        };
        if found.is_closed {
            return Ok(Outcome::Closed);
        }
        if !found.place.has_arrived_at_agent(agent) || !is_running {
            return Ok(Outcome::NotNow);
        }
        if found.newest >= MAX_MOVES {
            return Ok(Outcome::TooManyMoves);
        }
        if memory_refused {
            return Ok(Outcome::NoMemory);
        }
        let newest = found.newest + 1;
        let adopting = self.agent_state_after_adoption(found.kind, agent)?;
        self.adopt_by_agent_with_new_queue(end, agent)?;
        self.set_agent(agent, adopting);
        Ok(Outcome::Adopted(newest))
    }

    /// The agent has the end, with a new, disabled queue.
    fn adopt_by_agent_with_new_queue(
        &mut self,
        end: EndId,
        agent: AgentId,
    ) -> Result<(), OutOfMemory>
        requires { IfSome (slice_get self.old.ends end.0) (λ x. x.newest < MAX_MOVES) }
        ensures ok { OnOk result (self.new ≡ record self.old {
          ends = change_at (adopted_end agent) end.0 self.old.ends;
        }) }
        ensures err { OnErr result (self.new ≡ self.old) }
    {
        match self.ends.get_mut(end.0 as usize) {
            Some(found) => found.adopt_by_agent_with_new_queue(self.alloc, agent),
            None => Ok(()),
        }
    }

    /// The agent, after an end of this kind came to it: of a port with its own poster away that
    /// poster is the agent's.
    fn agent_state_after_adoption(
        &self,
        kind: Kind,
        agent: AgentId,
    ) -> Result<Option<Agent>, OutOfMemory>
        ensures { let released = is_released (seen self.now).line (Some kind) in
            IfOk result (λ found. found
            ≡ option_map (adopting released kind) (slice_get self.now.agents agent.0)) }
    {
        match self.agent_with_one_more_end_of_kind(kind, agent)? {
            Some(found) if !self.is_own_poster_outside_queues(kind) => Ok(Some(
                found.with_updated_away_poster_count(Phase::Inside),
            )),
            found => Ok(found),
        }
    }

    pub(crate) fn close(&mut self, end: EndId) -> Outcome
        ensures { (result ≡ close_answer (seen self.old) end)
            × (self.new ≡ core_after self.old result (action.Close end)) }
    {
        let Some(found) = self.end_at(end) else {
            return Outcome::NotNow;
        };
        if found.is_closed {
            return Outcome::Closed;
        }
        if !self.may_end_be_closed(end) {
            return Outcome::NotNow;
        }
        let kind = found.kind;
        let place = found.place;
        let found = &mut self.ends[end.0 as usize];
        found.is_closed = true;
        found.place = Place::Gone;
        self.decrease_queue_count(kind, place);
        Outcome::Done
    }

    pub(crate) fn may_end_be_closed(&self, end: EndId) -> bool
        ensures { result ≡ may_close (seen self.now) end.0 }
    {
        let Some(found) = self.end_at(end) else {
            return false;
        };
        found.place.is_closable() && self.is_own_poster_outside_queues(found.kind)
    }

    /// Whether an end of this kind is no port whose own poster is inside or being turned back.
    fn is_own_poster_outside_queues(&self, kind: Kind) -> bool
        ensures { result ≡ is_released (seen self.now).line (Some kind) }
    {
        let Kind::Port(peer) = kind else {
            return true;
        };
        self.line_of_sender_or_default(Sender {
            end: peer,
            line: LineId(0),
        })
        .phase
            == Phase::Out
    }

    pub(crate) fn hand_over_queue(&mut self, end: EndId, agent: AgentId) -> Outcome
        ensures { (result ≡ hand_answer (seen self.old) end agent)
            × (self.new ≡ core_after self.old result (action.Hand end agent)) }
    {
        let Some(found) = self.end_at(end) else {
            return Outcome::NotNow;
        };
        if found.is_closed {
            return Outcome::Closed;
        }
        if !found.kind.is_queue() || !self.may_take_over(agent, self.running_holder(end)) {
            return Outcome::NotNow;
        }
        let kind = found.kind;
        let place = found.place;
        self.decrease_queue_count(kind, place);
        self.set_place_of_end(end, Place::Arrived(agent));
        Outcome::Handed
    }

    /// Whether an agent may take over what another one has.
    fn may_take_over(&self, agent: AgentId, holder: Option<AgentId>) -> bool
        ensures { result ≡ may_take_over (seen self.now).agents agent holder }
    {
        match holder {
            Some(holder) => (agent.0 as usize) < self.agents.len() && holder != agent,
            None => false,
        }
    }
}
