//! A post, in three steps and what goes with them: Enter, Push, Leave, Notice and Hop.

ghost use Rattle.std.specs.Prelude.{◌≡◌, ◌<◌, ◌≤◌, ◌&&◌, length, option_map, slice_get, Some};
ghost use Rattle.std.specs.Prelude.{IfSome, MatchResult, OnOk, OnErr};
ghost use Rattle.std.specs.List.{list_all};
ghost use Rattle.hub_core.specs.Made.{peer_of};
ghost use Rattle.hub_core.specs.Posting.{enter_answer, is_distinct, is_fitting, is_good};
ghost use Rattle.hub_core.specs.Posting.{leave_answer, listing_of, is_at, may_leave_agent};
ghost use Rattle.hub_core.specs.Posting.{is_free, notice_answer, push_answer};
ghost use Rattle.hub_core.specs.Kept.{seen, line_of, may_put, posting_at, push_outcome, HasQueue};
ghost use Rattle.hub_core.specs.Kept.{put_ends, accept_ends, moved_ends, end_moved, core_after};
ghost use Rattle.hub_core.specs.Shows.{line_now};
ghost use Rattle.hub_core.specs.Taking.{hop_answer};
ghost use Rattle.hub_core.specs.declared.step.Action.TheVariants as action;

use crate::end::Place;
use crate::kind::Kind;
use crate::line::{Line, Phase};
use crate::machine::Core;
use crate::step::{Acceptance, Listing, Outcome, Sender};
use hub_envelope::{AgentId, Body, EndId, Envelope, Items, LineId, MAX_PORTS, OutOfMemory, Ports};

/// The line on which a message may be pushed, and the agent that posts it.
#[derive(Clone, Copy)]
struct Posting {
    line: Line,
    agent: AgentId,
}

impl Core {
    pub(crate) fn let_poster_enter_queue(&mut self, sender: Sender) -> Outcome
        ensures { (result ≡ enter_answer (seen self.old) sender)
            × (self.new ≡ core_after self.old result (action.Enter sender)) }
    {
        if !self.may_poster_enter(sender) {
            return Outcome::NotNow;
        }
        let Some(end) = self.end_at(sender.end) else {
            return Outcome::NotNow;
        };
        let found = self.line_of_sender_or_default(sender);
        if found.phase != Phase::Out || found.has_noticed {
            return Outcome::NotNow;
        }
        let (phase, outcome) = if found.epoch < end.newest {
            (Phase::Turned, Outcome::Moved)
        } else if end.is_closed {
            (Phase::Turned, Outcome::Closed)
        } else {
            (Phase::Inside, Outcome::In)
        };
        let owner = self.owner_of_line(sender);
        // The line is written right after it was read, so that it is looked for once.
        self.set_line(sender, Line { phase, ..found });
        self.update_away_poster_count_of_agent(owner, phase);
        outcome
    }

    pub(crate) fn let_poster_leave_queue(&mut self, sender: Sender) -> Outcome
        ensures { (result ≡ leave_answer (seen self.old) sender)
            × (self.new ≡ core_after self.old result (action.Leave sender)) }
    {
        let found = self.line_of_sender_or_default(sender);
        if found.phase == Phase::Out {
            return Outcome::NotNow;
        }
        let phase = Phase::Out;
        let owner = self.owner_of_line(sender);
        self.set_line(sender, Line { phase, ..found });
        self.update_away_poster_count_of_agent(owner, phase);
        self.roster.advance_cast_if_next(sender.end);
        Outcome::Left
    }

    /// A line that is out goes on from a retired queue to the next one.
    pub(crate) fn move_line_to_next_queue(&mut self, sender: Sender) -> Outcome
        ensures { (result ≡ hop_answer (seen self.old) sender)
            × (self.new ≡ core_after self.old result (action.Hop sender)) }
    {
        if !self.may_poster_enter(sender) {
            return Outcome::NotNow;
        }
        let Some(end) = self.end_at(sender.end) else {
            return Outcome::NotNow;
        };
        let found = self.line_of_sender_or_default(sender);
        if found.phase != Phase::Out || found.epoch >= end.newest {
            return Outcome::NotNow;
        }
        let epoch = found.epoch + 1;
        let put = 0;
        self.set_line(
            sender,
            Line {
                epoch,
                put,
                ..found
            },
        );
        Outcome::Hopped(epoch)
    }

    pub(crate) fn check_and_push_message(
        &mut self,
        sender: Sender,
        ports: Items<EndId>,
        body: Body,
        memory_refused: bool,
    ) -> Result<Outcome, OutOfMemory>
        ensures { let n = (line_of self.old.ends sender).put in
            let posting = may_put self.old.ends sender in
            let f = seen self.old in
            MatchResult result
            (λ o. (o ≡ push_answer posting n f sender ports body memory_refused)
            × (self.new ≡ core_after self.old o (action.Push sender ports body)))
            (λ _. self.new ≡ self.old) }
    {
        match self.check_push(sender, ports.as_slice(), &body, memory_refused) {
            Ok(Posting { line, agent }) => {
                let ports = Ports::try_from_vec(ports.into_list()).unwrap();
                let accepted = Acceptance {
                    agent,
                    epoch: line.epoch,
                    number: line.put,
                };
                let envelope = Envelope {
                    end: sender.end,
                    epoch: accepted.epoch,
                    line: sender.line,
                    number: accepted.number,
                    agent: accepted.agent,
                    body,
                    ports,
                    notice: false,
                };
                self.append_envelope_with_ports(line, envelope)?;
                Ok(Outcome::Accepted(accepted))
            }
            Err(refusal) => Ok(refusal),
        }
    }

    /// The line, where its poster may push with these ports now, and the agent that posts; or what
    /// the push is answered.
    fn check_push(
        &self,
        sender: Sender,
        ports: &[EndId],
        body: &Body,
        memory_refused: bool,
    ) -> Result<Posting, Outcome>
        ensures answer { let n = (line_of self.now.ends sender).put in
            let posting = may_put self.now.ends sender in
            push_outcome result
            ≡ push_answer posting n (seen self.now) sender ports.now body.now memory_refused }
        ensures rest { let pushing = action.Push sender ports.now body.now in
            MatchResult result
            (λ p. (length ports.now ≤ MAX_PORTS) × (sender.end.0 < length self.now.ends)
            × HasQueue self.now.ends sender p.line)
            (λ o. core_after self.now o pushing ≡ self.now) }
    {
        let Some((kind, line)) = self.line_ready_to_push(sender) else {
            return Err(Outcome::NotNow);
        };
        let Some(agent) = self.agent_posting_on_line_of_kind(sender, kind, line.held_by) else {
            return Err(Outcome::NotNow);
        };
        if ports.len() > MAX_PORTS {
            return Err(Outcome::TooManyPorts);
        }
        if !self.is_good_list(sender, kind, agent, ports)
            || !self.may_message_go_to_end_of_kind(kind, ports, body)
        {
            return Err(Outcome::NotNow);
        }
        if memory_refused {
            return Err(Outcome::NoMemory);
        }
        Ok(Posting { line, agent })
    }

    /// The line, where its poster is inside and no notice was put, and what its end is.
    fn line_ready_to_push(&self, sender: Sender) -> Option<(Kind, Line)>
        ensures answer { result ≡ posting_at sender (slice_get self.now.ends sender.end.0) }
        ensures there { IfSome result (λ p. (sender.end.0 < length self.now.ends)
            × HasQueue self.now.ends sender p.1
            × (((seen self.now).end sender.end.0).kind ≡ Some p.0)
            × (p.1 ≡ line_of self.now.ends sender)
            × ((seen self.now).line sender.end.0 sender.line.0 ≡ line_now (Some p.1))) }
    {
        let end = self.end_at(sender.end)?;
        let line = end.line_ready_to_push(sender.line)?;
        Some((end.kind, line))
    }

    /// Whether a message may go to an end of this kind: to a broadcast channel only the body of the
    /// cast, with no ports.
    fn may_message_go_to_end_of_kind(&self, kind: Kind, ports: &[EndId], body: &Body) -> bool
        ensures { result ≡ is_fitting self.now.roster.cast (Some kind) ports.now body.now }
    {
        match kind {
            Kind::Port(_) | Kind::Client | Kind::Worker => true,
            Kind::Member(_) => ports.is_empty() && self.roster.is_body_of_cast(body),
        }
    }

    /// Puts a notice, where its poster may put it now.
    pub(crate) fn put_notice(
        &mut self,
        sender: Sender,
        memory_refused: bool,
    ) -> Result<Outcome, OutOfMemory>
        ensures { let n = (line_of self.old.ends sender).put in
            let posting = may_put self.old.ends sender in
            MatchResult result
            (λ o. (o ≡ notice_answer posting n (seen self.old) sender memory_refused)
            × (self.new ≡ core_after self.old o (action.Notice sender)))
            (λ _. self.new ≡ self.old) }
    {
        let Some((_, line)) = self.line_ready_to_push(sender) else {
            return Ok(Outcome::NotNow);
        };
        if !self.port_place_allows_notice(sender) {
            return Ok(Outcome::NotNow);
        }
        if memory_refused {
            return Ok(Outcome::NoMemory);
        }
        let accepted = Acceptance {
            agent: AgentId(0),
            epoch: line.epoch,
            number: line.put,
        };
        let envelope = Envelope {
            end: sender.end,
            epoch: accepted.epoch,
            line: sender.line,
            number: accepted.number,
            agent: accepted.agent,
            body: Body::null(self.alloc)?,
            ports: Ports::none(self.alloc),
            notice: true,
        };
        self.append_envelope_with_ports(line, envelope)?;
        Ok(Outcome::Accepted(accepted))
    }

    /// Puts an envelope on a line, and its ports in flight.
    fn append_envelope_with_ports(
        &mut self,
        line: Line,
        envelope: Envelope,
    ) -> Result<(), OutOfMemory>
        requires there { envelope.end.0 < length self.old.ends }
        requires queue { HasQueue self.old.ends
            (record { end = envelope.end; line = envelope.line }) line }
        ensures { MatchResult result (λ _. self.new ≡ record self.old {
          ends = accept_ends self.old.ends envelope;
        }) (λ _. self.new ≡ self.old) }
    {
        if envelope.ports.as_slice().is_empty() {
            return self.append_envelope(line, envelope);
        }
        // The ports are placed once the envelope is in its queue, which takes the list.
        let mut travelling = [EndId(0); MAX_PORTS];
        let listed = envelope.ports.as_slice();
        let count = listed.len();
        travelling[..count].copy_from_slice(listed);
        self.append_envelope(line, envelope)?;
        self.set_places_of_ports(&travelling[..count], Place::InFlight);
        Ok(())
    }

    /// Puts an envelope last in the queue at which its line stands.
    fn append_envelope(&mut self, line: Line, envelope: Envelope) -> Result<(), OutOfMemory>
        requires there { envelope.end.0 < length self.old.ends }
        requires queue { HasQueue self.old.ends
            (record { end = envelope.end; line = envelope.line }) line }
        ensures ok { OnOk result (self.new ≡ record self.old {
          ends = put_ends self.old.ends envelope;
        }) }
        ensures err { OnErr result (self.new ≡ self.old) }
    {
        self.ends[envelope.end.0 as usize].put(line, envelope)
    }

    /// Whether a message to an end may have these ports.
    // It is inlined, so that a post without ports makes no call.
    #[inline(always)]
    fn is_good_list(&self, sender: Sender, kind: Kind, agent: AgentId, ports: &[EndId]) -> bool
        requires { ((seen self.now).end sender.end.0).kind ≡ Some kind }
        ensures { let list = listing_of (seen self.now) sender ports.now agent in
            result ≡ is_good list }
    {
        ports.is_empty()
            || matches!(
                self.check_port_list_of_agent(sender, kind, agent, ports),
                Listing::Good
            )
    }

    /// What a list of ports is to a message of an agent on a line of an end of this kind.
    pub(crate) fn check_port_list_of_agent(
        &self,
        sender: Sender,
        kind: Kind,
        agent: AgentId,
        ports: &[EndId],
    ) -> Listing
        requires { ((seen self.now).end sender.end.0).kind ≡ Some kind }
        ensures { result ≡ listing_of (seen self.now) sender ports.now agent }
    {
        if !self.are_distinct_and_may_travel(sender, kind.peer_port_id(), agent, ports) {
            return Listing::Bad;
        }
        if ports.contains(&sender.end) {
            Listing::HoldsTarget
        } else {
            Listing::Good
        }
    }

    /// Whether these are distinct ports that may leave an agent.
    fn are_distinct_and_may_travel(
        &self,
        sender: Sender,
        source: Option<EndId>,
        agent: AgentId,
        ports: &[EndId],
    ) -> bool
        requires { option_map (λ q. q.0) source
            ≡ peer_of ((seen self.now).end sender.end.0).kind }
        ensures { result ≡ (is_distinct ports.now
            && list_all (may_leave_agent (seen self.now) agent sender) ports.now) }
    {
        for (i, port) in ports.iter().enumerate() {
            if ports[i + 1..].contains(port) || !self.may_travel(sender, source, agent, *port) {
                return false;
            }
        }
        true
    }

    /// Whether a port may leave an agent that posts on a line with another one, the source, or
    /// with none.
    fn may_travel(&self, sender: Sender, source: Option<EndId>, agent: AgentId, port: EndId) -> bool
        requires { option_map (λ q. q.0) source
            ≡ peer_of ((seen self.now).end sender.end.0).kind }
        ensures { result ≡ may_leave_agent (seen self.now) agent sender port }
    {
        let Some(end) = self.end_at(port) else {
            return false;
        };
        end.place.is_with(agent)
            && self.is_port_with_idle_poster(end.kind)
            && !is_same_port(port, source)
    }

    /// Whether an end of this kind is a port whose own poster is out and has put no notice.
    fn is_port_with_idle_poster(&self, kind: Kind) -> bool
        ensures { let peer = peer_of (Some kind) in
            result ≡ is_free (seen self.now).line peer }
    {
        let Kind::Port(peer) = kind else {
            return false;
        };
        let line = self.line_of_sender_or_default(Sender {
            end: peer,
            line: LineId(0),
        });
        line.phase == Phase::Out && !line.has_noticed
    }

    /// Gives each listed port a new place.
    pub(crate) fn set_places_of_ports(&mut self, ports: &[EndId], place: Place)
        ensures { self.new ≡ record self.old {
          ends = moved_ends ports.now place self.old.ends;
        } }
    {
        for port in ports {
            self.set_place_of_end(*port, place);
        }
    }

    /// Gives an end a new place.
    pub(crate) fn set_place_of_end(&mut self, port: EndId, place: Place)
        ensures { self.new ≡ record self.old { ends = end_moved place self.old.ends port } }
    {
        if let Some(end) = self.ends.get_mut(port.0 as usize) {
            end.place = place;
        }
    }
}

/// Whether the port is this one, where there is one.
fn is_same_port(port: EndId, other: Option<EndId>) -> bool
    ensures { result ≡ is_at port.0 (option_map (λ q. q.0) other) }
{
    match other {
        Some(other) => port == other,
        None => false,
    }
}
