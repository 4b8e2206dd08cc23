use crate::taker_queue::TakerQueue;
use hub_envelope::{EndId, Envelope};
use std::collections::VecDeque;
use std::marker::Model;

/// What is left of an end that is closed and empty: of each of its queues, line by line, what was
/// taken is all that was put.
pub struct Swept {
    pub(crate) end: EndId,
    pub(crate) envelopes: Vec<Envelope>,
    pub(crate) retired: VecDeque<TakerQueue>,
    pub(crate) newest: TakerQueue,
}

// By hand, so that whoever drops one makes one call, and its proof has no cases of its fields.
impl Drop for Swept {
    fn drop(self) {
        let Swept {
            end: _,
            envelopes,
            retired,
            newest,
        } = self;
        drop(envelopes);
        drop(retired);
        drop(newest);
    }
}

impl Model for Swept {
    ghost use Rattle.std.specs.Prelude.{[], ◌∷◌, ◌++◌};
    ghost use Rattle.std.specs.List.{AllByRecursion};
    ghost use Rattle.hub_queue.specs.Graves.{SweptSeat};
    ghost use Rattle.hub_queue.specs.TakerQueues.{IsQueueSettled};

    ghost Value = { SweptSeat };

    ghost view = { λ s. record {
      end = s.end.0;
      envelopes = s.envelopes.items;
      queues = s.retired.items ++ s.newest ∷ [];
    } };

    ghost invariant = { λ s. AllByRecursion IsQueueSettled (s.retired.items ++ s.newest ∷ []) };
}

impl Swept {
    ghost use Rattle.std.specs.Prelude.{◌≡◌};

    /// The end that was closed.
    pub fn closed_end_id(&self) -> EndId
        ensures { result.0 ≡ self.now.end }
    {
        self.end
    }

    /// The envelopes that were discarded, queue after queue, the oldest first, in the
    /// order in which each held them.
    pub fn envelopes(&self) -> &[Envelope]
        ensures { result.now ≡ self.now.envelopes }
    {
        self.envelopes.as_slice()
    }

    /// The same, as a list of the caller's own.
    pub fn into_envelopes(self) -> Vec<Envelope>
        ensures { result.items ≡ self.envelopes }
    {
        let Swept {
            end: _,
            envelopes,
            retired: _,
            newest: _,
        } = self;
        envelopes
    }
}
