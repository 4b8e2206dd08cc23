ghost use Rattle.std.specs.Prelude.{◌≡◌, Some, IfOk};
ghost use Rattle.hub_core.specs.Kept.{one_more, one_less, counted};
ghost use Rattle.hub_core.specs.Shows.{count_of};

use crate::kind::Kind;
use crate::line::Phase;
use hub_envelope::OutOfMemory;

/// What the core keeps of an agent.
#[derive(Clone, Copy)]
pub(crate) struct Agent {
    /// An agent runs until it has found the order to end.
    pub(crate) is_running: bool,
    /// The agent was ordered to end.
    pub(crate) is_ordered: bool,
    /// How many posters of the agent are inside or being turned back.
    pub(crate) away: u32,
    /// How many client queues the agent has.
    pub(crate) clients: u32,
    /// How many worker queues the agent has.
    pub(crate) workers: u32,
}

impl Agent {
    /// An agent that has no end.
    pub(crate) const FIRST: Agent = Agent {
        is_running: true,
        is_ordered: false,
        away: 0,
        clients: 0,
        workers: 0,
    };

    /// How many queues of a kind the agent has.
    pub(crate) fn queue_count_of_kind(self, kind: Kind) -> u32
        ensures { result ≡ count_of kind (Some self) }
    {
        match kind {
            Kind::Port(_) | Kind::Member(_) => 0,
            Kind::Client => self.clients,
            Kind::Worker => self.workers,
        }
    }

    /// The agent with an end of this kind more.
    pub(crate) fn with_end_counted_if_queue(mut self, kind: Kind) -> Result<Agent, OutOfMemory>
        ensures { IfOk result (λ x. x ≡ one_more kind self) }
    {
        match kind {
            Kind::Port(_) | Kind::Member(_) => {}
            Kind::Client => self.clients = self.clients.checked_add(1).ok_or(OutOfMemory)?,
            Kind::Worker => self.workers = self.workers.checked_add(1).ok_or(OutOfMemory)?,
        }
        Ok(self)
    }

    /// The agent with an end of this kind less.
    pub(crate) fn with_one_queue_less(mut self, kind: Kind) -> Agent
        ensures { result ≡ one_less kind self }
    {
        match kind {
            Kind::Port(_) | Kind::Member(_) => {}
            Kind::Client => self.clients = self.clients.saturating_sub(1),
            Kind::Worker => self.workers = self.workers.saturating_sub(1),
        }
        self
    }

    /// The agent after a poster of it came to this phase: one more is away, or one less.
    pub(crate) fn with_updated_away_poster_count(mut self, phase: Phase) -> Agent
        ensures { result ≡ counted phase self }
    {
        match phase {
            Phase::Out => self.away = self.away.saturating_sub(1),
            Phase::Inside | Phase::Turned if self.away < u32::MAX => self.away += 1,
            Phase::Inside | Phase::Turned => {}
        }
        self
    }
}
