//! Queues that wait for the agent that they were handed to.

ghost use Rattle.std.specs.Prelude.{◌≡◌, IsNone, IsSome, IfSome, IfNone, OnOk, IfErr, OnErr};
ghost use Rattle.std.specs.FinMap as map;
ghost use Rattle.std.specs.Option.{option_map};
ghost use Rattle.hub_clients.specs.Handing.{handed_name, handed_to, taker_of, AreToldClosed};

use crate::error::HandError;
use crate::queue::{ClientQueue, WorkerQueue};
use hub_depot::{Depot, DepotError, KeptMap, Key, Named, put_into_lent_map, take_from_lent_map};
use hub_envelope::{AgentId, EndId, LineId};
use hub_locked::{Hears, Lends};
use hub_queue::{AdoptError, Bell, Grave, Onward};
use std::sync::Wait;

/// A queue that goes from one agent to another.
#[derive(Drop)]
pub enum HandedQueue {
    /// A client's.
    Client(ClientQueue),
    /// A worker's.
    Worker(WorkerQueue),
}

impl HandedQueue {
    ghost use Rattle.std.specs.Prelude.{◌≡◌};
    ghost use Rattle.hub_queue.specs.Ending.{IsClosed};
    ghost use Rattle.hub_clients.specs.Handing.{taker_of, IsHandedAdopted};

    /// The number of the queue.
    pub fn id(&self) -> EndId
        ensures { result.0 ≡ (taker_of self.now).end }
    {
        match self {
            HandedQueue::Client(queue) => queue.id(),
            HandedQueue::Worker(queue) => queue.id(),
        }
    }

    /// Adopts the queue for the loop that this bell wakes, as the `adopt_for_loop` of either queue
    /// does. After an error it comes back as it was.
    pub fn adopt_for_loop<R: Wait>(
        self,
        rt: &R,
        yard: &Depot<Onward>,
        bell: Bell,
    ) -> Result<HandedQueue, (AdoptError, HandedQueue)>
        ensures { IsHandedAdopted self result }
    {
        match self {
            HandedQueue::Client(queue) => match queue.adopt_for_loop(rt, yard, bell) {
                Ok(queue) => Ok(HandedQueue::Client(queue)),
                Err((error, queue)) => Err((error, HandedQueue::Client(queue))),
            },
            HandedQueue::Worker(queue) => match queue.adopt_for_loop(rt, yard, bell) {
                Ok(queue) => Ok(HandedQueue::Worker(queue)),
                Err((error, queue)) => Err((error, HandedQueue::Worker(queue))),
            },
        }
    }

    /// Closes the end, as the `close` of either queue does.
    pub fn close(self) -> Grave
        ensures { IsClosed (taker_of self) result }
    {
        match self {
            HandedQueue::Client(queue) => queue.close(),
            HandedQueue::Worker(queue) => queue.close(),
        }
    }
}

/// A queue that waits for the agent that it was handed to.
#[derive(Drop)]
pub struct Handed {
    /// The queue, with all that waits in it.
    pub queue: HandedQueue,
    /// The agent that is to adopt it.
    pub to: AgentId,
}

impl Handed {
    ghost use Rattle.std.specs.Prelude.{◌≡◌};
    ghost use Rattle.hub_clients.specs.Handing.{handed_name};

    /// The name under which the queue of that number waits for an agent. A queue waits as a whole,
    /// with all its epochs, so the agent stands in the place of one.
    pub(crate) fn key_of_queue_handed_to_agent(end: EndId, to: AgentId) -> Key
        ensures { result ≡ handed_name end.0 to }
    {
        Key {
            end,
            epoch: u32::from(to.0),
            line: LineId(0),
        }
    }
}

impl Named for Handed {
    ghost use Rattle.std.specs.Prelude.{◌≡◌};
    ghost use Rattle.hub_clients.specs.Handing.{handed_name, taker_of};

    ghost name = { λ h. handed_name (taker_of h.queue).end h.to };

    /// The number of the queue, with the agent in the place of the epoch, and line 0.
    fn name(&self) -> Key
        ensures { result ≡ handed_name (taker_of self.now.queue).end self.now.to }
    {
        Handed::key_of_queue_handed_to_agent(self.queue.id(), self.to)
    }
}

/// Keeps a queue until that agent fetches it. After an error it comes back.
pub fn keep_in_lent_map<L: Lends<KeptMap<Handed>>, R: Wait>(
    rt: &R,
    lender: &mut L,
    queue: HandedQueue,
    to: AgentId,
) -> Result<(), (HandError, HandedQueue)>
    ensures kept { OnOk result (L.shown lender.new ≡ option_map (λ kept.
        map.insert kept (handed_name (taker_of queue).end to) (handed_to to queue))
        (L.shown lender.old)) }
    ensures free { OnOk result (IfSome (L.shown lender.old) (λ kept.
        IsNone (map.get kept (handed_name (taker_of queue).end to)))) }
    ensures taken { IfErr result (λ refused. refused.0 ≡ HandError.Taken
        → IfSome (L.shown lender.old) (λ kept.
        IsSome (map.get kept (handed_name (taker_of queue).end to)))) }
    ensures back { IfErr result (λ refused. refused.1 ≡ queue) }
    ensures err { OnErr result (L.shown lender.new ≡ L.shown lender.old) }
{
    match put_into_lent_map(rt, lender, Handed { queue, to }) {
        Ok(()) => Ok(()),
        Err(DepotError::Taken(Handed { queue, to: _ })) => Err((HandError::Taken, queue)),
        Err(DepotError::OutOfMemory(Handed { queue, to: _ })) => {
            Err((HandError::OutOfMemory, queue))
        }
    }
}

/// Takes out the queue of that number that was handed to that agent.
pub fn take_handed_queue_from_map<L: Lends<KeptMap<Handed>>, R: Wait>(
    rt: &R,
    lender: &mut L,
    end: EndId,
    to: AgentId,
) -> Option<Handed>
    ensures handed { IfSome result (λ h. ((taker_of h.queue).end ≡ end.0) × (h.to ≡ to)) }
    ensures value { IfSome (L.shown lender.old) (λ kept.
        result ≡ map.get kept (handed_name end.0 to)) }
    ensures rest { L.shown lender.new
        ≡ option_map (λ kept. map.remove kept (handed_name end.0 to)) (L.shown lender.old) }
{
    take_from_lent_map(rt, lender, Handed::key_of_queue_handed_to_agent(end, to))
}

/// Closes all queues that wait, and tells of each closed end.
pub fn close_handed_queues<H: Hears<Grave>, R: Wait>(
    rt: &R,
    waiting: &mut KeptMap<Handed>,
    heard: &mut H,
)
    ensures all { waiting.new ≡ map.empty }
    ensures told { IfSome (H.told heard.old) (λ before.
        AreToldClosed waiting.old map.empty before (H.told heard.new)) }
{
    while let Some(handed) = waiting.take_any() {
        let Handed { queue, to: _ } = handed;
        heard.tell_done(rt, queue.close());
    }
}
