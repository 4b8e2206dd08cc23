//! A queue of a taker: what waits there, and the one pop of this crate, which is counted.

ghost use Rattle.std.specs.Prelude.{◌≡◌, is_none, nat_lt};
ghost use Rattle.crossbeam_queue.specs.SegTies.{IsSegPassOf};
ghost use Rattle.hub_queue.specs.declared.store.PassView.TheVariants.{Takes};
ghost use Rattle.hub_queue.specs.Counting.{pop_counted};
ghost use Rattle.hub_queue.specs.Popping.{IsPop};
ghost use Rattle.hub_queue.specs.Seats.{known_by, take_in};
ghost use Rattle.hub_queue.specs.TakerQueues.{IsQueueSettled, IsShut};
ghost use Rattle.hub_queue.specs.Settling.{IsQueuePop};
ghost use Rattle.hub_queue.specs.Adopting.{retired_queue};
ghost use Rattle.hub_queue.specs.Ending.{closed_queue};
ghost use Rattle.hub_queue.specs.Taking.{IsTakenAt, IsTakenOff, enabled_queue};

use crate::left::{LeftQueue, ShutQueue};
use crate::line_right::LineRight;
use crate::pause::Steps;
use crate::queue_rule::Take;
use crate::store::{Pass, Store};
use crate::taker::Took;
use hub_envelope::{Envelope, MAX_LINES};
use hub_gate::Keeper;
use std::marker::Model;
use std::sync::ledger::Ledger;
use std::sync::{Arc, Wait};

/// Pops with the taker's pass, and counts the pop. No other function of the crate pops.
#[inline(always)]
pub(crate) fn pop<L: Ledger, R: Wait>(
    rt: &R,
    store: &Store,
    pass: &mut Pass,
    steps: &mut Steps<L>,
) -> Option<Envelope>
    requires queue { IsSegPassOf store.now.queue pass.old }
    requires taker { known_by pass.old ≡ Takes (take_in (known_by pass.old)) }
    ensures queue { IsSegPassOf store.now.queue pass.new }
    ensures taker { known_by pass.new ≡ Takes (take_in (known_by pass.new)) }
    ensures popped { IsPop (take_in (known_by pass.old)) (take_in (known_by pass.new)) result }
    ensures counted { steps.new ≡ pop_counted steps.old (is_none result) }
{
    let found = store.queue.pop_as::<Take, R>(rt, pass);
    steps.count_pop(found.is_none());
    found
}

/// One queue at the end that takes from it: the queue, its taker's pass and the keeper of its gate.
pub struct TakerQueue {
    pub(crate) store: Arc<Store>,
    pub(crate) pass: Pass,
    pub(crate) keeper: Keeper<LineRight>,
    /// How many envelopes of each line were taken.
    pub(crate) taken: [u64; MAX_LINES],
}

// By hand, so that whoever drops one makes one call, and its proof has no cases of its fields.
impl Drop for TakerQueue {
    fn drop(self) {
        let TakerQueue {
            store,
            pass,
            keeper,
            taken: _,
        } = self;
        drop(store);
        drop(pass);
        drop(keeper);
    }
}

impl Model for TakerQueue {
    ghost use Rattle.std.specs.Prelude.{◌≡◌};
    ghost use Rattle.std.specs.Arc.{arc_value};
    ghost use Rattle.crossbeam_queue.specs.SegTies.{IsSegPassOf};
    ghost use Rattle.hub_queue.specs.declared.store.PassView.TheVariants.{Takes};
    ghost use Rattle.hub_queue.specs.Seats.{known_by, take_in};
    ghost use Rattle.hub_queue.specs.TakerQueues.{TakerQueueSeat, CountsTaken, HasTags, KnowsBy};

    ghost Value = { TakerQueueSeat };

    ghost view = { λ p. record {
      queue = (arc_value p.store).queue.web;
      at = take_in (known_by p.pass);
      keeper = p.keeper;
    } };

    ghost invariant = { λ p. IsSegPassOf (arc_value p.store).queue p.pass
        × (known_by p.pass ≡ Takes (take_in (known_by p.pass)))
        × HasTags (arc_value p.store).queue.web (take_in (known_by p.pass)) p.keeper
        × CountsTaken (take_in (known_by p.pass)).got p.taken
        × KnowsBy p.keeper.at.collected (take_in (known_by p.pass)) };
}

impl TakerQueue {
    /// Whether the gate is enabled.
    pub(crate) fn is_gate_enabled(&self) -> bool
        ensures { result ≡ nat_lt 0 self.now.keeper.at.enables }
    {
        self.keeper.enabled()
    }

    /// Enables the gate.
    pub(crate) fn enable_gate(&mut self)
        ensures { self.new ≡ enabled_queue self.old }
    {
        self.keeper.enable();
    }

    /// Retires the gate: every later entry is turned with `Moved`.
    pub(crate) fn retire_gate(&mut self)
        ensures { self.new ≡ retired_queue self.old }
    {
        self.keeper.retire();
    }

    /// Closes the gate: every later entry is turned.
    pub(crate) fn close_gate(&mut self)
        ensures { self.new ≡ closed_queue self.old }
    {
        self.keeper.close();
    }

    /// Pops once, and counts the envelope for its line.
    // It is inlined, and so are `take_envelope_as_newest_queue`, `Taker::take` and `pop`, since an
    // envelope is large and each return copies it.
    #[inline(always)]
    pub(crate) fn pop<L: Ledger, R: Wait>(
        &mut self,
        rt: &R,
        steps: &mut Steps<L>,
    ) -> Option<Envelope>
        ensures popped { IsQueuePop self.old self.new result }
        ensures counted { steps.new ≡ pop_counted steps.old (is_none result) }
    {
        let envelope = pop(rt, &self.store, &mut self.pass, steps)?;
        self.taken[envelope.line.0 as usize] += 1;
        Some(envelope)
    }

    /// Takes from the newest queue of an end.
    #[inline(always)]
    pub(crate) fn take_envelope_as_newest_queue<L: Ledger, R: Wait>(
        &mut self,
        rt: &R,
        steps: &mut Steps<L>,
    ) -> Took
        ensures { IsTakenAt self.old self.new steps.old steps.new result }
    {
        match self.pop(rt, steps) {
            Some(envelope) => Took::Got(envelope),
            None => Took::Empty,
        }
    }

    /// What shows the queue, which is freed with what it holds.
    pub(crate) fn into_queue_witness(self) -> ShutQueue
        ensures { result ≡ self }
    {
        let TakerQueue {
            store: _,
            pass,
            keeper,
            taken: _,
        } = self;
        ShutQueue {
            pass,
            gate: keeper.into_witness(),
        }
    }

    /// What shows the queue, which is done with.
    pub(crate) fn into_left_queue(self) -> LeftQueue
        requires { IsQueueSettled self }
        ensures { result ≡ self }
    {
        let ShutQueue { pass, gate } = self.into_queue_witness();
        LeftQueue { pass, gate }
    }

    /// Takes from a retired queue. The look comes before the pop: where it found nobody, nothing is
    /// put there any more, and a pop of none shows that everything was taken.
    pub(crate) fn take_envelope_as_retired_queue<L: Ledger, R: Wait>(
        &mut self,
        rt: &R,
        steps: &mut Steps<L>,
    ) -> Took
        requires { IsShut self.old }
        ensures { IsTakenOff self.old self.new steps.old steps.new result }
    {
        let settled = self.try_collect_passes();
        match self.pop(rt, steps) {
            Some(envelope) => Took::Got(envelope),
            None if settled => Took::Again,
            None => Took::Busy,
        }
    }
}
