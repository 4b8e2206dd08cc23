//! The core, its dispatch, what several families of steps ask of agents, ends and lines, and what a
//! core may be asked.
//!
//! A post is the steps Enter, Push and Leave of one line. `Core::let_poster_enter_queue`
//! (`posting.rt`) asks `Core::may_poster_enter`, and answers `In`, or `Moved` at a retired queue
//! and `Closed` at a closed end, where the poster isn't inside but has to leave as well.
//! `Core::check_and_push_message` makes its tests in `Core::check_push`.
//! `Core::append_envelope_with_ports` puts the envelope in its queue (`End::put`) and its ports in
//! flight, which is answered `Accepted`; `TooManyPorts` and `NoMemory` change nothing.
//! `Core::let_poster_leave_queue` answers `Left`. Each of the three is answered `NotNow`, with
//! nothing changed, where it can't be taken.
//!
//! What a function answers is said by the definitions that a history is held to, over what the
//! core keeps seen as facts (`seen`); what it changes is one table (`core_after`). The two stand in
//! one clause, since the prover takes up each clause anew at each place where a function returns.
//!
//! It is three steps and not one because agents on threads of their own act between them: an end
//! may be adopted or closed while the poster is inside, whose Push may still be accepted. So a
//! Look, a Sweep, and a Take at a retired queue with nothing left are `Busy` while it is there.

ghost use Rattle.std.specs.Prelude.{◌≡◌, [], true, option_map, slice_get, Some};
ghost use Rattle.std.specs.Prelude.{IfOk, OnErr, MatchResult};
ghost use Rattle.hub_core.specs.Posting.{holder, is_here, listing, may_enter, may_post_on_line};
ghost use Rattle.hub_core.specs.Posting.{owner_by, port_place_allows_notice, poster, poster_of};
ghost use Rattle.hub_core.specs.Posting.{running, speaker};
ghost use Rattle.hub_core.specs.Facts.{facts};
ghost use Rattle.hub_core.specs.History.{History};
ghost use Rattle.hub_core.specs.Laws.{InOrder};
ghost use Rattle.hub_core.specs.Made.{kind, line_port_posts_on};
ghost use Rattle.hub_core.specs.Taking.{may_close};
ghost use Rattle.hub_core.specs.Kept.{seen, line_of, set_line};
ghost use Rattle.hub_core.specs.Shows.{Shows, FitsAndShows, StillShows, line_now, SameContent};
ghost use Rattle.hub_core.specs.Legal.{changes_nothing, takes_memory};

use crate::agent::Agent;
use crate::end::{End, Place};
use crate::kind::Kind;
use crate::line::{Line, Phase};
use crate::roster::Roster;
use crate::step::{Action, Listing, Outcome, Sender, Step};
use hub_envelope::{AgentId, EndId, LineId, OutOfMemory};
use std::alloc::Global;
use std::marker::Model;

/// The hub as a machine: its agents and ends, changed one step at a time.
///
/// ```rust
/// let mut core = Core::new(alloc);
/// core.step(Step { action: Action::Agent(None), memory_refused: false })?;
/// core.step(Step { action: Action::Channel(AgentId(0)), memory_refused: false })?;
/// ```
#[derive(Drop)]
pub struct Core {
    pub(crate) alloc: Global,
    pub(crate) agents: Vec<Agent>,
    pub(crate) ends: Vec<End>,
    pub(crate) roster: Roster,
}

impl Model for Core {
    ghost use Rattle.hub_core.specs.CoreState.{CoreState, core_coded};

    ghost Value = { CoreState };

    ghost coded = { core_coded };

    ghost view = { λ c. record {
      agents = c.agents.items;
      ends = c.ends.items;
      roster = c.roster;
    } };
}

impl Core {
    /// A hub with no agent and no end, which takes no memory.
    pub fn new(alloc: Global) -> Core
        ensures { Shows result [] }
    {
        let agents = Vec::new(alloc);
        let ends = Vec::new(alloc);
        let roster = Roster::new(alloc);
        Core {
            alloc,
            agents,
            ends,
            roster,
        }
    }

    /// Takes a step, in time that doesn't grow with the number of ends, lines and waiting envelopes
    /// beyond what a growing list costs and the logarithm of the members of the roster; a `Sweep`
    /// takes time for each envelope that it discards, a `Cast` for each destination, and a `See`
    /// that is answered `Ending` for each end.
    /// An `Err` says that memory can't be had, that a line has put 2^62 envelopes in its queue, or
    /// that an agent has 2^32 queues.
    // It is inlined since most callers know which step they take, and need no room for the answers
    // of the others.
    #[inline(always)]
    pub fn step(&mut self, step: Step) -> Result<Outcome, OutOfMemory>
        ensures fits { IfOk result (λ o. FitsAndShows self.old self.new step o) }
        ensures unchanged { IfOk result (λ o. changes_nothing o step.action ≡ true
            → SameContent self.old self.new) }
        ensures err { OnErr result (SameContent self.old self.new) }
        // Then the core shows what it showed.
        ensures still { IfOk result (λ o. changes_nothing o step.action ≡ true
            → StillShows self.old self.new) }
        ensures err_still { OnErr result (StillShows self.old self.new) }
        ensures memory { OnErr result (takes_memory step.action ≡ true) }
        // What was taken is in order of acceptance, queue by queue, also between lines.
        ensures in_order { (h : History) → Shows self.new h → InOrder h }
    {
        self.act(step)
    }

    /// What each action of a step does.
    #[inline(always)]
    fn act(&mut self, step: Step) -> Result<Outcome, OutOfMemory>
        ensures { MatchResult result (λ o. FitsAndShows self.old self.new step o
            × (changes_nothing o step.action ≡ true → SameContent self.old self.new))
            (λ _. SameContent self.old self.new × (takes_memory step.action ≡ true)) }
    {
        let Step {
            action,
            memory_refused,
        } = step;
        match action {
            Action::Agent(origin) => self.make_agent(origin, memory_refused),
            Action::Channel(agent) => self.make_channel(agent, memory_refused),
            Action::Client(agent) => self.make_queue(Kind::Client, agent, memory_refused),
            Action::Worker(agent) => self.make_queue(Kind::Worker, agent, memory_refused),
            Action::Member(agent, name) => self.make_member(agent, name, memory_refused),
            Action::Line(end, agent) => Ok(self.hold_free_line_of_queue(end, agent)),
            Action::Back(sender) => Ok(self.release_line(sender)),
            Action::Enter(sender) => Ok(self.let_poster_enter_queue(sender)),
            Action::Push(sender, ports, body) => self.check_and_push_message(
                sender,
                ports,
                body,
                memory_refused,
            ),
            Action::Notice(sender) => self.put_notice(sender, memory_refused),
            Action::Leave(sender) => Ok(self.let_poster_leave_queue(sender)),
            Action::Hop(sender) => Ok(self.move_line_to_next_queue(sender)),
            Action::Start(end) => Ok(self.start(end)),
            Action::Take(end) => Ok(self.take(end)),
            Action::Look(end) => Ok(self.mark_queue_clear_if_free_of_posters(end)),
            Action::Adopt(end, agent) => self.adopt(end, agent, memory_refused),
            Action::Close(end) => Ok(self.close(end)),
            Action::Sweep(end) => self.sweep_closed_end(end),
            Action::Hand(end, agent) => Ok(self.hand_over_queue(end, agent)),
            Action::Order(agent) => Ok(self.request_agent_stop(agent)),
            Action::See(agent) => self.stop_agent_if_requested(agent),
            Action::Cast(end, ports, body) => self.begin_cast(end, ports, body),
            Action::Part(end) => Ok(self.take_member_out_of_roster(end)),
        }
    }

    /// The line that a port posts on: line 0 of the port that it is entangled with. `None` where
    /// the number names no port.
    pub fn line_port_posts_on(&self, port: EndId) -> Option<Sender>
        ensures { (h : History) → Shows self.now h → result ≡ line_port_posts_on h port.0 }
    {
        let end = self.end_at(port)?.kind.peer_port_id()?;
        let line = LineId(0);
        Some(Sender { end, line })
    }

    /// What is kept of an end, where there is one.
    #[inline]
    pub(crate) fn end_at(&self, end: EndId) -> Option<&End>
        ensures { slice_get self.now.ends end.0 ≡ option_map (λ x. x.now) result }
    {
        self.ends.get(end.0 as usize)
    }

    /// What is kept of an agent, where there is one.
    #[inline]
    pub(crate) fn agent_at(&self, agent: AgentId) -> Option<&Agent>
        ensures { slice_get self.now.agents agent.0 ≡ option_map (λ x. x.now) result }
    {
        self.agents.get(agent.0 as usize)
    }

    pub(crate) fn is_running(&self, agent: AgentId) -> bool
        ensures { result ≡ ((seen self.now).agent agent.0).runs }
    {
        match self.agent_at(agent) {
            Some(agent) => agent.is_running,
            None => false,
        }
    }

    /// The running agent that has the end, where one has it.
    pub(crate) fn running_holder(&self, end: EndId) -> Option<AgentId>
        ensures { result ≡ holder (seen self.now) end.0 }
    {
        match self.end_at(end)?.place {
            Place::With(agent) if self.is_running(agent) => Some(agent),
            _ => None,
        }
    }

    /// The agent that posts on a line of an end of this kind, where one does: for a port's line the
    /// running one that has the port at the other side; for a channel's the one, running or ending,
    /// whose cast goes there next.
    pub(crate) fn agent_posting_on_line_of_kind(
        &self,
        sender: Sender,
        kind: Kind,
        held_by: Option<AgentId>,
    ) -> Option<AgentId>
        ensures { let f = seen self.now in
            let owner = owner_by f.end sender.line.0 held_by (Some kind) in
            let runs = running f.agent owner in
            result ≡ poster_of (speaker f sender.end.0) runs sender.line.0 (Some kind) }
    {
        match kind {
            Kind::Port(peer) if sender.line.0 == 0 => self.running_holder(peer),
            Kind::Client | Kind::Worker => held_by.filter(|agent| self.is_running(*agent)),
            Kind::Member(_) if sender.line.0 == 0 => {
                self.agent_that_made_member(
                    self.roster.cast_source_if_next_destination(sender.end)?,
                )
            }
            Kind::Port(_) | Kind::Member(_) => None,
        }
    }

    /// The agent that posts on a line, where one does.
    pub(crate) fn agent_posting_on_line(&self, sender: Sender) -> Option<AgentId>
        ensures { result ≡ poster (seen self.now) sender }
    {
        let end = self.end_at(sender.end)?;
        let line = end.lines.get(sender.line).unwrap_or(Line::FIRST);
        self.agent_posting_on_line_of_kind(sender, end.kind, line.held_by)
    }

    /// What is kept of a line. Where there is none it is one that has put nothing.
    pub(crate) fn line_of_sender_or_default(&self, sender: Sender) -> Line
        ensures kept { result ≡ line_of self.now.ends sender }
        ensures seen { line_now (Some result) ≡ (seen self.now).line sender.end.0 sender.line.0 }
    {
        match self.end_at(sender.end) {
            Some(end) => end.lines.get(sender.line).unwrap_or(Line::FIRST),
            None => Line::FIRST,
        }
    }

    /// Changes what is kept of a line. A line that isn't there stays away.
    pub(crate) fn set_line(&mut self, sender: Sender, line: Line)
        ensures { self.new ≡ record self.old { ends = set_line sender line self.old.ends } }
    {
        if let Some(end) = self.ends.get_mut(sender.end.0 as usize) {
            end.lines.set(sender.line, line);
        }
    }

    /// Whether an end has a place where it can be closed.
    pub(crate) fn is_end_at_closable_place(&self, end: EndId) -> bool
        ensures { result ≡ is_here ((seen self.now).end end.0).place }
    {
        match self.end_at(end) {
            Some(end) => end.place.is_closable(),
            None => false,
        }
    }

    /// Whether the place of the port that posts on a line lets its poster put a notice.
    pub(crate) fn port_place_allows_notice(&self, sender: Sender) -> bool
        ensures { result ≡ port_place_allows_notice (seen self.now) sender }
    {
        let Some(end) = self.end_at(sender.end) else {
            return false;
        };
        match end.kind {
            Kind::Port(peer) => sender.line.0 == 0 && self.is_end_at_closable_place(peer),
            Kind::Client | Kind::Worker | Kind::Member(_) => false,
        }
    }

    /// Whether a poster may enter: to post, or to put a notice alone.
    pub(crate) fn may_poster_enter(&self, sender: Sender) -> bool
        ensures { result ≡ may_enter (seen self.now) sender }
    {
        self.agent_posting_on_line(sender).is_some() || self.port_place_allows_notice(sender)
    }

    /// Whether a message may be posted on a line now: an agent that may post holds it, its poster
    /// is out, and no notice was put.
    pub fn may_post_on_line(&self, sender: Sender) -> bool
        ensures { (h : History) → Shows self.now h → result ≡ may_post_on_line (facts h) sender }
    {
        let line = self.line_of_sender_or_default(sender);
        self.agent_posting_on_line(sender).is_some()
            && line.phase == Phase::Out
            && !line.has_noticed
    }

    /// What a list of ports is to a message on a line now. Where no agent that may post holds the
    /// line each list is bad.
    pub fn check_port_list(&self, sender: Sender, ports: &[EndId]) -> Listing
        ensures { (h : History) → Shows self.now h → result ≡ listing (facts h) sender ports.now }
    {
        let Some(end) = self.end_at(sender.end) else {
            return Listing::Bad;
        };
        let Some(agent) = self.agent_posting_on_line(sender) else {
            return Listing::Bad;
        };
        self.check_port_list_of_agent(sender, end.kind, agent, ports)
    }

    /// What an end is, where there is one.
    pub fn kind_of(&self, end: EndId) -> Option<Kind>
        ensures { (h : History) → Shows self.now h → result ≡ kind h end.0 }
    {
        Some(self.end_at(end)?.kind)
    }

    /// Whether a Close of the end would be answered Done now.
    pub fn may_close(&self, end: EndId) -> bool
        ensures { (h : History) → Shows self.now h → result ≡ may_close (facts h) end.0 }
    {
        self.may_end_be_closed(end)
    }
}
