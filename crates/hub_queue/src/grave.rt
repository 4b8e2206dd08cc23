ghost use Rattle.std.specs.Prelude.{◌≡◌, ◌∷◌, [], ◌++◌};
ghost use Rattle.std.specs.List.{AllByRecursion};
ghost use Rattle.hub_queue.specs.Left.{IsNewestOf};
ghost use Rattle.hub_queue.specs.TakerQueues.{IsShut};
ghost use Rattle.hub_queue.specs.Sweeping.{AreSwept};

use crate::left::ShutQueue;
use crate::settling::{Stop, empty_queue_into_list};
use crate::swept::Swept;
use crate::taker_queue::TakerQueue;
use hub_envelope::{EndId, Envelope};
use std::collections::VecDeque;
use std::marker::Model;
use std::sync::Wait;
use std::thread;

/// A closed end: its queues from the taker's on, and the envelopes that were collected from them.
pub struct Grave {
    pub(crate) end: EndId,
    pub(crate) epoch: u32,
    pub(crate) retired: VecDeque<TakerQueue>,
    pub(crate) newest: TakerQueue,
    pub(crate) envelopes: Vec<Envelope>,
}

// By hand, so that whoever drops one makes one call, and its proof has no cases of its fields.
impl Drop for Grave {
    fn drop(self) {
        let Grave {
            end: _,
            epoch: _,
            retired,
            newest,
            envelopes,
        } = self;
        drop(retired);
        drop(newest);
        drop(envelopes);
    }
}

impl Model for Grave {
    ghost use Rattle.std.specs.Prelude.{[], ◌∷◌, ◌++◌};
    ghost use Rattle.std.specs.List.{AllByRecursion};
    ghost use Rattle.hub_queue.specs.Graves.{GraveSeat};
    ghost use Rattle.hub_queue.specs.TakerQueues.{IsShut};

    ghost Value = { GraveSeat };

    ghost view = { λ g. record {
      end = g.end.0;
      epoch = g.epoch;
      queues = g.retired.items ++ g.newest ∷ [];
      envelopes = g.envelopes.items;
    } };

    ghost invariant = { λ g. AllByRecursion IsShut (g.retired.items ++ g.newest ∷ []) };
}

/// What a sweep came to.
#[derive(Drop)]
pub enum Sweep {
    /// The end is empty for good, and these envelopes were discarded.
    Discarded(Swept),
    /// A line is inside or being turned back. Nothing was lost.
    StillInside(Grave),
    /// There was no memory for what is left. The grave keeps what was collected.
    NoRoom(Grave),
}

/// Empties each of the queues, the oldest first, and stops at the first that can't be emptied.
fn empty_all_queues_into_list<R: Wait>(
    rt: &R,
    retired: &mut VecDeque<TakerQueue>,
    newest: &mut TakerQueue,
    envelopes: &mut Vec<Envelope>,
) -> Result<(), Stop>
    requires { AllByRecursion IsShut (retired.old.items ++ newest.old ∷ []) }
    ensures shut { AllByRecursion IsShut (retired.new.items ++ newest.new ∷ []) }
    ensures swept { AreSwept (retired.old.items ++ newest.old ∷ [])
        (retired.new.items ++ newest.new ∷ []) envelopes.old.items envelopes.new.items result }
{
    for index in 0..retired.len() {
        let Some(queue) = retired.get_mut(index) else {
            unreachable!();
        };
        empty_queue_into_list(rt, queue, envelopes)?;
    }
    empty_queue_into_list(rt, newest, envelopes)
}

impl Grave {
    ghost use Rattle.std.specs.Prelude.{IfOk, IfErr};
    ghost use Rattle.hub_queue.specs.Sweeping.{IsSwept, IsSweptOut, IsSweptSoFar, IsWholeChain};

    /// The end that was closed.
    pub fn closed_end_id(&self) -> EndId
        ensures { result.0 ≡ self.now.end }
    {
        self.end
    }

    /// What shows the newest queue. It is freed with those before it, and what they hold is
    /// discarded.
    pub fn into_queue_witness(self) -> ShutQueue
        ensures { IsNewestOf self result }
    {
        let Grave {
            end: _,
            epoch: _,
            retired: _,
            newest,
            envelopes: _,
        } = self;
        newest.into_queue_witness()
    }

    /// Discards what is left at the closed end, queue after queue, the oldest first. At each it
    /// looks at the gate until all rights came into hand, and then takes what the queue holds,
    /// which nobody can add to any more.
    ///
    /// `Discarded` only with all rights of all queues in hand: line by line, what was taken
    /// followed by what was discarded is all that was put. `StillInside` only where a look of this
    /// call found somebody.
    pub fn sweep<R: Wait>(self, rt: &R) -> Sweep
        ensures { IsSwept self result }
    {
        let Grave {
            end,
            epoch,
            mut retired,
            mut newest,
            mut envelopes,
        } = self;
        let stop = empty_all_queues_into_list(rt, &mut retired, &mut newest, &mut envelopes);
        match stop {
            Ok(()) => Sweep::Discarded(Swept {
                end,
                envelopes,
                retired,
                newest,
            }),
            Err(Stop::StillInside) => Sweep::StillInside(Grave {
                end,
                epoch,
                retired,
                newest,
                envelopes,
            }),
            Err(Stop::NoRoom) => Sweep::NoRoom(Grave {
                end,
                epoch,
                retired,
                newest,
                envelopes,
            }),
        }
    }

    /// Sweeps the closed end again and again while somebody is inside, and yields in between. Where
    /// there was no memory for what is left, the grave comes back with what was collected.
    ///
    /// Once all is swept, what was taken and discarded of all its queues, joined, is line by line
    /// all that was put in them.
    pub fn sweep_until_empty<R: Wait>(self, rt: &R) -> Result<Swept, Grave>
        ensures ok { IfOk result (IsSweptOut self) }
        ensures chain { IfOk result (λ s. IsWholeChain s.queues) }
        ensures err { IfErr result (IsSweptSoFar self) }
    {
        let mut grave = self;
        for _ in rt.forever() {
            match grave.sweep(rt) {
                Sweep::Discarded(swept) => return Ok(swept),
                Sweep::StillInside(back) => {
                    grave = back;
                    thread::yield_now();
                }
                Sweep::NoRoom(back) => return Err(back),
            }
        }
        unreachable!()
    }
}
