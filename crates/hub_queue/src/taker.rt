ghost use Rattle.std.specs.Prelude.{◌≡◌, length, IfOk, IfErr, IfSome, OnOk, OnErr};
ghost use Rattle.std.specs.Option.{option_map};
ghost use Rattle.std.specs.List.{AllByRecursion};
ghost use Rattle.hub_queue.specs.Adopting.{IsAdopted, KeepsNext, newest_epoch, with_onwards};
ghost use Rattle.hub_queue.specs.Ending.{IsClosed};
ghost use Rattle.hub_queue.specs.TakerQueues.{IsShut};
ghost use Rattle.hub_queue.specs.Taking.{IsTaken, IsTakenOldest, started};

use crate::adopting::open_queue_and_put_onwards_in_yard;
use crate::error::AdoptError;
use crate::grave::Grave;
use crate::left::LeftQueue;
use crate::onward::Onward;
use crate::pause::Steps;
use crate::taker_queue::TakerQueue;
use hub_bell::Bell;
use hub_depot::{Depot, KeptMap};
use hub_envelope::{EndId, Envelope, MAX_MOVES};
use hub_locked::Lends;
use std::alloc::Global;
use std::collections::VecDeque;
use std::marker::Model;
use std::mem::replace;
use std::sync::Wait;
use std::sync::ledger::Ledger;

/// What a take came to.
#[derive(Debug, Drop)]
pub enum Took {
    /// The first envelope of the taker's queue.
    Got(Envelope),
    /// The end is enabled, it has no older queue, and a pop of its newest one found none.
    Empty,
    /// The taker's queue is retired, and lines are inside or being turned back there.
    Busy,
    /// The taker has left a retired queue, from which everything was taken.
    Again,
    /// The end isn't enabled.
    Disabled,
    /// The end is closed. A taker never answers this, since closing takes it.
    Closed,
}

/// Whoever takes from an end.
///
/// An adoption gives the end a new queue. The queues before it stay, with what they hold, and the
/// taker leaves each once everything that was put there was taken.
pub struct Taker {
    pub(crate) alloc: Global,
    pub(crate) end: EndId,
    /// The epoch of the taker's queue, which is the oldest one.
    pub(crate) epoch: u32,
    pub(crate) lines: u8,
    /// The retired queues from the taker's on, the oldest first.
    pub(crate) retired: VecDeque<TakerQueue>,
    pub(crate) newest: TakerQueue,
    /// What shows the queue that it left last.
    pub(crate) left: Option<LeftQueue>,
}

// By hand, so that whoever drops one makes one call, and its proof has no cases of its fields.
impl Drop for Taker {
    fn drop(self) {
        let Taker {
            alloc: _,
            end: _,
            epoch: _,
            lines: _,
            retired,
            newest,
            left,
        } = self;
        drop(retired);
        drop(newest);
        drop(left);
    }
}

impl Model for Taker {
    ghost use Rattle.hub_queue.specs.Taking.{TakerSeat, IsTakers};

    ghost Value = { TakerSeat };

    ghost view = { λ t. record {
      end = t.end.0;
      epoch = t.epoch;
      retired = t.retired.items;
      newest = t.newest;
      left = t.left;
    } };

    ghost invariant = { λ t. IsTakers t.lines (record {
      end = t.end.0;
      epoch = t.epoch;
      retired = t.retired.items;
      newest = t.newest;
      left = t.left;
    }) };
}

/// Takes from the oldest of these queues, which are retired, and frees it once it was left. `None`
/// where there is none.
fn take_from_oldest_queue<L: Ledger, R: Wait>(
    rt: &R,
    retired: &mut VecDeque<TakerQueue>,
    left: &mut Option<LeftQueue>,
    steps: &mut Steps<L>,
) -> Option<Took>
    requires { AllByRecursion IsShut retired.old.items }
    ensures { IsTakenOldest retired.old.items retired.new.items left.old left.new
        steps.old steps.new result }
{
    let queue = retired.front_mut()?;
    match queue.take_envelope_as_retired_queue(rt, steps) {
        Took::Again => {
            let queue = retired.pop_front().unwrap();
            *left = Some(queue.into_left_queue());
            Some(Took::Again)
        }
        took => Some(took),
    }
}

impl Taker {
    /// Enables the end (WHATWG HTML, "Message ports": enable the port message queue). What the
    /// queues hold stays.
    pub fn start(&mut self)
        ensures { self.new ≡ started self.old }
    {
        self.newest.enable_gate();
    }

    /// Takes the first envelope of the taker's queue. It never takes from a newer queue before it
    /// has left the older one.
    ///
    /// `Disabled` exactly where the newest gate isn't enabled, and then nothing is popped. `Empty`
    /// and `Busy` only by a pop of this call that found none, `Busy` also by a look of this call
    /// that found somebody. At `Again` the queue that was left is freed; its gate's word stays for
    /// the lines that still stand there. The last parameter counts the pops.
    #[inline(always)]
    pub fn take<L: Ledger, R: Wait>(&mut self, rt: &R, steps: &mut Steps<L>) -> Took
        ensures { IsTaken self.old self.new steps.old steps.new result }
    {
        if !self.newest.is_gate_enabled() {
            return Took::Disabled;
        }
        let Some(took) = take_from_oldest_queue(rt, &mut self.retired, &mut self.left, steps) else {
            return self.newest.take_envelope_as_newest_queue(rt, steps);
        };
        match took {
            Took::Again => {
                self.epoch += 1;
                Took::Again
            }
            took => took,
        }
    }

    /// The end that it takes from.
    pub fn id(&self) -> EndId
        ensures { result.0 ≡ self.now.end }
    {
        self.end
    }

    /// How often the end was adopted, which is the epoch of its newest queue.
    pub fn moves(&self) -> u32
        ensures { result ≡ newest_epoch self.now }
    {
        self.epoch + self.behind()
    }

    /// How many queues there are from the taker's to the newest, that one not counted.
    pub fn behind(&self) -> u32
        ensures { result ≡ length self.now.retired }
    {
        self.retired.len() as u32
    }

    /// Moves the end to another loop (WHATWG HTML, "Message ports": the transfer-receiving steps,
    /// in which the port message queue moves along). There is one queue more, new and disabled,
    /// whose posters ring this bell, and the yard has an onward poster for each line. Only then the
    /// old gate is retired, so that no line can be turned before it has one.
    ///
    /// After an error the taker is as it was, and the onward posters were taken back from the yard.
    pub fn adopt<R: Wait>(
        self,
        rt: &R,
        yard: &Depot<Onward>,
        bell: Bell,
    ) -> Result<Taker, (AdoptError, Taker)>
        ensures { IsAdopted self result }
    {
        let mut lender = yard.as_lock();
        self.adopt_with_lent_yard(rt, &mut lender, bell)
    }

    /// The same, over a yard that anybody lends. Of one that is shown, `Taken` comes
    /// only where it keeps a poster under a name of the new queue.
    pub fn adopt_with_lent_yard<L: Lends<KeptMap<Onward>>, R: Wait>(
        mut self,
        rt: &R,
        yard: &mut L,
        bell: Bell,
    ) -> Result<Taker, (AdoptError, Taker)>
        ensures adopted { IsAdopted self result }
        ensures laid { IfOk result (λ taker. L.shown yard.new
            ≡ option_map (with_onwards taker) (L.shown yard.old)) }
        ensures free { OnOk result (IfSome (L.shown yard.old) (λ kept. ¬ KeepsNext self kept)) }
        ensures taken { IfErr result (λ refused. refused.0 ≡ AdoptError.Taken
            → IfSome (L.shown yard.old) (KeepsNext self)) }
        ensures kept { OnErr result (L.shown yard.new ≡ L.shown yard.old) }
    {
        let moves = self.epoch + self.behind();
        if moves == MAX_MOVES {
            return Err((AdoptError::TooManyMoves, self));
        }
        if self.retired.reserve(1).is_err() {
            return Err((AdoptError::OutOfMemory, self));
        }
        match open_queue_and_put_onwards_in_yard(
            rt,
            yard,
            self.alloc,
            self.end,
            moves + 1,
            self.lines,
            &bell,
        ) {
            Ok(queue) => {
                self.newest.retire_gate();
                let older = replace(&mut self.newest, queue);
                self.retired.push_back_reserved(older);
                Ok(self)
            }
            Err(error) => Err((error, self)),
        }
    }

    /// Closes the end: every later entry is turned. Whoever is inside may still put an envelope;
    /// `Grave::sweep` discards what is left. What the queues hold stays.
    pub fn close(self) -> Grave
        ensures { IsClosed self result }
    {
        let Taker {
            alloc,
            end,
            epoch,
            lines: _,
            retired,
            mut newest,
            left: _,
        } = self;
        newest.close_gate();
        Grave {
            end,
            epoch,
            retired,
            newest,
            envelopes: Vec::new(alloc),
        }
    }
}
