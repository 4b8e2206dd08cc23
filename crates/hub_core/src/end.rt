//! What the core keeps of an end.

ghost use Rattle.std.specs.Prelude.{◌≡◌, ◌||◌, ◌<◌, slice_get, true, Some, IfOk, OnOk, OnErr};
ghost use Rattle.hub_envelope.specs.declared.limits.TheConstants.{MAX_MOVES};
ghost use Rattle.hub_core.specs.Taking.{is_arrived};
ghost use Rattle.hub_core.specs.Posting.{is_here, is_with};
ghost use Rattle.hub_core.specs.Kept.{new_end, kept_looked, kept_settled, advanced_end};
ghost use Rattle.hub_core.specs.Kept.{adopted_end, has_queue, posting_line, put_end};

use crate::kind::Kind;
use crate::line::{Line, Lines, Phase};
use crate::queues::Queues;
use crate::step::Outcome;
use hub_envelope::{AgentId, Envelope, LineId, MAX_MOVES, MAX_PUT, OutOfMemory};
use std::alloc::Global;

/// Where an end is (WHATWG HTML, "Transferable objects": a port that travels is with no agent).
#[derive(Clone, Copy)]
pub enum Place {
    /// An agent has the end.
    With(AgentId),
    /// An accepted envelope that waits names the end.
    InFlight,
    /// The envelope that named the end was taken by the agent, which hasn't adopted the end yet.
    Arrived(AgentId),
    /// The envelope that named the end was discarded.
    Swept,
    /// The end is closed.
    Gone,
}

impl Place {
    /// Whether an agent has an end of this place, or the end has arrived at it.
    pub(crate) fn is_with_or_arrived_at_agent(self, agent: AgentId) -> bool
        ensures { result ≡ (is_with agent (Some self) || is_arrived agent (Some self)) }
    {
        matches!(self, Place::With(holder) | Place::Arrived(holder) if holder == agent)
    }

    /// Whether an agent has an end of this place.
    pub(crate) fn is_with(self, agent: AgentId) -> bool
        ensures { result ≡ is_with agent (Some self) }
    {
        matches!(self, Place::With(holder) if holder == agent)
    }

    /// Whether an end of this place has arrived at an agent.
    pub(crate) fn has_arrived_at_agent(self, agent: AgentId) -> bool
        ensures { result ≡ is_arrived agent (Some self) }
    {
        matches!(self, Place::Arrived(by) if by == agent)
    }

    /// Whether an end of this place can be closed.
    pub(crate) fn is_closable(self) -> bool
        ensures { result ≡ is_here (Some self) }
    {
        matches!(self, Place::With(_) | Place::Arrived(_) | Place::Swept)
    }
}

/// What the core keeps of an end.
#[derive(Drop)]
pub struct End {
    pub(crate) kind: Kind,
    pub(crate) place: Place,
    pub(crate) is_closed: bool,
    pub(crate) is_enabled: bool,
    /// The newest queue.
    pub(crate) newest: u32,
    /// The queue at which takes are made.
    pub(crate) taker: u32,
    /// The first queue, from the taker's on, that isn't clear. It is one past the newest where
    /// that is clear, so it is wider than the number of a queue.
    pub(crate) looked: u64,
    pub(crate) lines: Lines,
    /// The queues from the taker's to the newest; none where the end was swept.
    pub(crate) queues: Queues,
}

impl End {
    /// An end that the agent has just made.
    pub(crate) fn new(alloc: Global, agent: AgentId, kind: Kind) -> Result<End, OutOfMemory>
        ensures { IfOk result (λ x. x ≡ new_end agent kind) }
    {
        Ok(End {
            kind,
            place: Place::With(agent),
            is_closed: false,
            is_enabled: false,
            newest: 0,
            taker: 0,
            looked: 0,
            lines: Lines::with_line_count(alloc, kind.line_count())?,
            queues: Queues::one_empty_queue(alloc)?,
        })
    }

    /// The queue that a look looks at: the first that isn't clear among the retired ones from the
    /// taker's on, and the newest where the end is closed.
    pub(crate) fn next_queue_to_look_at(&self) -> Option<u32>
        ensures { result ≡ kept_looked self.now }
    {
        let newest = u64::from(self.newest);
        if self.looked < newest || (self.is_closed && self.looked == newest) {
            Some(self.looked as u32)
        } else {
            None
        }
    }

    /// Whether nobody is inside or being turned back at a queue, or it is clear.
    pub(crate) fn is_queue_of_epoch_free_of_posters(&self, epoch: u32) -> bool
        ensures { result ≡ kept_settled self.now epoch }
    {
        u64::from(epoch) < self.looked || !self.lines.has_poster_at_queue(epoch)
    }

    /// The taker goes on to the next queue.
    pub(crate) fn advance_to_next_queue(&mut self)
        requires { self.old.taker < self.old.newest }
        ensures { self.new ≡ advanced_end self.old }
    {
        self.taker += 1;
        self.looked = self.looked.max(u64::from(self.taker));
        self.queues.drop_first_queue();
    }

    /// The agent has the end, with a new, disabled queue.
    pub(crate) fn adopt_by_agent_with_new_queue(
        &mut self,
        alloc: Global,
        agent: AgentId,
    ) -> Result<(), OutOfMemory>
        requires { self.old.newest < MAX_MOVES }
        ensures ok { OnOk result (self.new ≡ adopted_end agent self.old) }
        ensures err { OnErr result (self.new ≡ self.old) }
    {
        self.queues.add_empty_queue(alloc)?;
        self.newest += 1;
        self.place = Place::With(agent);
        self.is_enabled = false;
        Ok(())
    }

    /// Whether a queue is one of those that are kept.
    fn has_queue_of_epoch(&self, epoch: u32) -> bool
        ensures { result ≡ has_queue self.now epoch }
    {
        epoch >= self.taker && ((epoch - self.taker) as usize) < self.queues.queue_count()
    }

    /// The line, where its poster is inside a queue of the end and no notice was put.
    pub(crate) fn line_ready_to_push(&self, line: LineId) -> Option<Line>
        ensures { result ≡ posting_line self.now (slice_get self.now.lines line.0) }
    {
        let found = self.lines.get(line)?;
        if found.phase == Phase::Inside
            && !found.has_noticed
            && self.has_queue_of_epoch(found.epoch)
        {
            Some(found)
        } else {
            None
        }
    }

    /// Puts an envelope last in the queue at which its line stands.
    pub(crate) fn put(&mut self, found: Line, envelope: Envelope) -> Result<(), OutOfMemory>
        requires { has_queue self.old found.epoch ≡ true }
        ensures ok { OnOk result (self.new ≡ put_end self.old found envelope) }
        ensures err { OnErr result (self.new ≡ self.old) }
    {
        if found.put >= MAX_PUT {
            return Err(OutOfMemory);
        }
        let line = envelope.line;
        let has_noticed = envelope.notice;
        let position = (found.epoch - self.taker) as usize;
        self.queues.put_in_queue_at(position, envelope)?;
        let put = found.put + 1;
        self.lines.set(
            line,
            Line {
                put,
                has_noticed,
                ..found
            },
        );
        Ok(())
    }
}
