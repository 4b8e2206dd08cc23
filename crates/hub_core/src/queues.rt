ghost use Rattle.std.specs.Prelude.{◌≡◌, ◌<◌, [], ◌∷◌, ◌++◌, length, slice_set, slice_index_or};
ghost use Rattle.std.specs.Prelude.{drop, IfOk, OnOk, OnErr, MatchOption, MatchResult};
ghost use Rattle.hub_core.specs.Kept.{joined};

use hub_envelope::{Envelope, Items, OutOfMemory};
use std::alloc::Global;
use std::collections::VecDeque;
use std::marker::Model;

/// The waiting envelopes of a queue, in order of acceptance.
#[derive(Drop)]
struct WaitingEnvelopes {
    envelopes: VecDeque<Envelope>,
}

impl Model for WaitingEnvelopes {
    ghost use Rattle.std.specs.Prelude.{List};
    ghost use Rattle.hub_envelope.specs.declared.envelope.Envelope.{Envelope};

    ghost Value = { List Envelope };

    ghost view = { λ w. w.envelopes.items };
}

impl WaitingEnvelopes {
    fn none(alloc: Global) -> WaitingEnvelopes
        ensures { result ≡ [] }
    {
        WaitingEnvelopes {
            envelopes: VecDeque::new(alloc),
        }
    }

    fn count(&self) -> usize
        ensures { result ≡ length self.now }
    {
        self.envelopes.len()
    }

    fn put(&mut self, envelope: Envelope) -> Result<(), OutOfMemory>
        ensures ok { OnOk result (self.new ≡ self.old ++ envelope ∷ []) }
        ensures err { OnErr result (self.new ≡ self.old) }
    {
        self.envelopes.push_back(envelope)?;
        Ok(())
    }

    fn take(&mut self) -> Option<Envelope>
        ensures { MatchOption result ((self.old ≡ []) × (self.new ≡ []))
            (λ envelope. self.old ≡ envelope ∷ self.new) }
    {
        self.envelopes.pop_front()
    }
}

/// Some queues of an end, in order.
#[derive(Drop)]
pub struct Queues {
    queues: VecDeque<WaitingEnvelopes>,
}

impl Model for Queues {
    ghost use Rattle.std.specs.Prelude.{List};
    ghost use Rattle.hub_envelope.specs.declared.envelope.Envelope.{Envelope};

    ghost Value = { List (List Envelope) };

    ghost view = { λ q. q.queues.items };
}

impl Queues {
    /// One empty queue.
    pub(crate) fn one_empty_queue(alloc: Global) -> Result<Queues, OutOfMemory>
        ensures { IfOk result (λ queues. queues ≡ [] ∷ []) }
    {
        let mut queues = VecDeque::with_capacity(alloc, 1)?;
        queues.push_back(WaitingEnvelopes::none(alloc))?;
        Ok(Queues { queues })
    }

    /// How many queues there are.
    pub(crate) fn queue_count(&self) -> usize
        ensures { result ≡ length self.now }
    {
        self.queues.len()
    }

    /// Adds an empty queue at the back.
    pub(crate) fn add_empty_queue(&mut self, alloc: Global) -> Result<(), OutOfMemory>
        ensures { MatchResult result (λ _. self.new ≡ self.old ++ [] ∷ [])
            (λ _. self.new ≡ self.old) }
    {
        self.queues.push_back(WaitingEnvelopes::none(alloc))?;
        Ok(())
    }

    /// Drops the first queue.
    pub(crate) fn drop_first_queue(&mut self)
        ensures { self.new ≡ drop 1 self.old }
    {
        self.queues.pop_front();
    }

    /// Puts an envelope last in a queue.
    pub(crate) fn put_in_queue_at(
        &mut self,
        position: usize,
        envelope: Envelope,
    ) -> Result<(), OutOfMemory>
        requires { position < length self.old }
        ensures ok { OnOk result (self.new
            ≡ slice_set self.old position (slice_index_or self.old position [] ++ envelope ∷ [])) }
        ensures err { OnErr result (self.new ≡ self.old) }
    {
        let queue = self.queues.get_mut(position).unwrap();
        queue.put(envelope)
    }

    /// Takes the first envelope of the first queue.
    pub(crate) fn take_first(&mut self) -> Option<Envelope>
        ensures { let first = slice_index_or self.old 0 [] in
            MatchOption result ((first ≡ []) × (self.new ≡ self.old))
            (λ v. (first ≡ v ∷ drop 1 first) × (self.new ≡ slice_set self.old 0 (drop 1 first))) }
    {
        let queue = self.queues.front_mut()?;
        queue.take()
    }

    /// How many envelopes wait in all queues.
    fn envelope_count(&self) -> Result<usize, OutOfMemory>
        ensures { IfOk result (λ n. n ≡ length (joined self.now)) }
    {
        let (front, back) = self.queues.as_slices();
        let waiting = envelope_count_in_queues(front)?;
        waiting
            .checked_add(envelope_count_in_queues(back)?)
            .ok_or(OutOfMemory)
    }

    /// Takes all envelopes, queue after queue, and leaves no queue.
    pub(crate) fn take_all(&mut self, alloc: Global) -> Result<Items<Envelope>, OutOfMemory>
        ensures { MatchResult result (λ envelopes. (envelopes ≡ joined self.old) × (self.new ≡ []))
            (λ _. self.new ≡ self.old) }
    {
        let waiting = self.envelope_count()?;
        // There is room for all before the first one moves.
        let mut envelopes = Vec::with_capacity(alloc, waiting)?;
        while let Some(mut queue) = self.queues.pop_front() {
            while let Some(envelope) = queue.take() {
                envelopes.push(envelope).unwrap();
            }
        }
        Ok(Items::from_vec(envelopes))
    }
}

/// How many envelopes wait in these queues.
fn envelope_count_in_queues(queues: &[WaitingEnvelopes]) -> Result<usize, OutOfMemory>
    ensures { IfOk result (λ n. n ≡ length (joined queues.now)) }
{
    let mut count: usize = 0;
    for queue in queues {
        count = count.checked_add(queue.count()).ok_or(OutOfMemory)?;
    }
    Ok(count)
}
