ghost use Rattle.std.specs.Prelude.{◌≡◌, IfErr, length};
ghost use Rattle.hub_queue.specs.Adopting.{newest_epoch, IsAdopted};
ghost use Rattle.hub_queue.specs.Ending.{IsClosed};
ghost use Rattle.hub_queue.specs.Taking.{IsTaken, started};
ghost use Rattle.hub_clients.specs.Handing.{IsAdoptedAndStarted};

use crate::directory::Directory;
use crate::error::HandError;
use crate::handed::HandedQueue;
use hub_depot::Depot;
use hub_envelope::{AgentId, EndId};
use hub_queue::{AdoptError, Bell, Grave, Onward, Steps, Taker, Took};
use std::marker::{Model, PhantomData};
use std::sync::Wait;
use std::sync::ledger::Ledger;

/// A kind of queue that agents hand on.
pub trait QueueKind {
    ghost use Rattle.std.specs.Prelude.{◌≡◌};
    ghost use Rattle.hub_queue.specs.Taking.{TakerSeat};
    ghost use Rattle.hub_clients.specs.declared.handed.HandedQueue.{
      HandedQueue as HandedSeat,
    };

    /// A queue of this kind, as it is handed on.
    ghost as_handed: { TakerSeat → HandedSeat };

    /// The queue, as it is handed on.
    fn into_handed_queue(queue: Queue<Self>) -> HandedQueue
        ensures { result ≡ as_handed queue };

    /// The queue that was not handed on.
    fn from_handed_queue(queue: HandedQueue) -> Queue<Self>
        requires { (own : TakerSeat) × (queue ≡ as_handed own) }
        ensures { (own : TakerSeat) → queue ≡ as_handed own → result ≡ own };
}

/// The message queue of a client or of a worker, as the kind says: `ClientQueue` or `WorkerQueue`.
/// Others post at it over lines that the directory lends.
#[derive(Drop)]
pub struct Queue<K> {
    pub(crate) taker: Taker,
    kind: PhantomData<K>,
}

impl<K> Model for Queue<K> {
    ghost use Rattle.hub_queue.specs.Taking.{TakerSeat};

    ghost Value = { TakerSeat };

    ghost view = { λ q. q.taker };
}

impl<K> Queue<K> {
    /// The queue from which this taker takes.
    pub(crate) fn from_taker(taker: Taker) -> Queue<K>
        ensures { result ≡ taker }
    {
        Queue {
            taker,
            kind: PhantomData,
        }
    }

    /// The taker, which is all that the queue has.
    pub(crate) fn into_taker(self) -> Taker
        ensures { result ≡ self }
    {
        let Queue { taker, kind: _ } = self;
        taker
    }

    /// The number of the queue.
    pub fn id(&self) -> EndId
        ensures { result.0 ≡ self.now.end }
    {
        self.taker.id()
    }

    /// Takes the first envelope, as `Taker::take` does. The last parameter counts the pops.
    pub fn take<L: Ledger, R: Wait>(&mut self, rt: &R, steps: &mut Steps<L>) -> Took
        ensures { IsTaken self.old self.new steps.old steps.new result }
    {
        self.taker.take(rt, steps)
    }

    /// How often the queue was adopted.
    pub fn moves(&self) -> u32
        ensures { result ≡ newest_epoch self.now }
    {
        self.taker.moves()
    }

    /// How many queues there are from the taker's to the newest, that one not counted.
    pub fn count_retired_queues(&self) -> u32
        ensures { result ≡ length self.now.retired }
    {
        self.taker.behind()
    }

    /// Closes the queue: whoever posts at it is turned from then on. The directory lists it still.
    pub fn close(self) -> Grave
        ensures { IsClosed self result }
    {
        self.into_taker().close()
    }
}

impl<K: QueueKind> Queue<K> {
    /// Hands the queue on to an agent, with all its lines and all that waits in it: the directory
    /// keeps it until that agent fetches it.
    ///
    /// `OutOfMemory` where there was no memory for one more queue, `Taken` where a queue of that
    /// number waits for that agent already. After either the queue comes back.
    pub fn hand<R: Wait>(
        self,
        rt: &R,
        directory: &Directory,
        to: AgentId,
    ) -> Result<(), (HandError, Queue<K>)>
        ensures { IfErr result (λ refused. refused.1 ≡ self) }
    {
        match directory.keep_handed_queue(rt, K::into_handed_queue(self), to) {
            Ok(()) => Ok(()),
            Err((error, queue)) => Err((error, K::from_handed_queue(queue))),
        }
    }
}

/// That a queue is a client's.
pub struct Client;

/// The message queue of a client (W3C Service Workers, "client message queue").
///
/// `Directory::client` makes one, empty and disabled.
pub type ClientQueue = Queue<Client>;

impl QueueKind for Client {
    ghost use Rattle.std.specs.Prelude.{◌≡◌};
    ghost use Rattle.hub_queue.specs.Taking.{TakerSeat};
    ghost use Rattle.hub_clients.specs.declared.handed.HandedQueue.TheVariants.{
      Client as ClientHanded,
    };

    ghost as_handed = { ClientHanded };

    fn into_handed_queue(queue: ClientQueue) -> HandedQueue
        ensures { result ≡ ClientHanded queue }
    {
        HandedQueue::Client(queue)
    }

    fn from_handed_queue(queue: HandedQueue) -> ClientQueue
        requires { (own : TakerSeat) × (queue ≡ ClientHanded own) }
        ensures { (own : TakerSeat) → queue ≡ ClientHanded own → result ≡ own }
    {
        match queue {
            HandedQueue::Client(queue) => queue,
            HandedQueue::Worker(_) => unreachable!(),
        }
    }
}

impl Queue<Client> {
    /// Enables the queue (W3C Service Workers, "client message queue": `startMessages()`, or the
    /// first setting of `onmessage`). What it holds stays.
    pub fn start_messages(&mut self)
        ensures { self.new ≡ started self.old }
    {
        self.taker.start();
    }

    /// Enables the queue of a document whose parsing has ended (W3C Service Workers, "client
    /// message queue": the end of parsing enables it too). What it holds stays.
    pub fn loaded(&mut self)
        ensures { self.new ≡ started self.old }
    {
        self.taker.start();
    }

    /// Moves the queue to the loop that has fetched it, as `Taker::adopt` does. It is disabled
    /// then. After an error it is as it was.
    pub fn adopt_for_loop<R: Wait>(
        self,
        rt: &R,
        yard: &Depot<Onward>,
        bell: Bell,
    ) -> Result<ClientQueue, (AdoptError, ClientQueue)>
        ensures { IsAdopted self result }
    {
        match self.into_taker().adopt(rt, yard, bell) {
            Ok(taker) => Ok(Queue::from_taker(taker)),
            Err((error, taker)) => Err((error, Queue::from_taker(taker))),
        }
    }
}

/// That a queue is a worker's.
pub struct Worker;

/// The message queue of a worker, to which `ServiceWorker.postMessage` posts (W3C Service Workers).
///
/// `Directory::worker` makes one, empty and enabled.
pub type WorkerQueue = Queue<Worker>;

impl QueueKind for Worker {
    ghost use Rattle.std.specs.Prelude.{◌≡◌};
    ghost use Rattle.hub_queue.specs.Taking.{TakerSeat};
    ghost use Rattle.hub_clients.specs.declared.handed.HandedQueue.TheVariants.{
      Worker as WorkerHanded,
    };

    ghost as_handed = { WorkerHanded };

    fn into_handed_queue(queue: WorkerQueue) -> HandedQueue
        ensures { result ≡ WorkerHanded queue }
    {
        HandedQueue::Worker(queue)
    }

    fn from_handed_queue(queue: HandedQueue) -> WorkerQueue
        requires { (own : TakerSeat) × (queue ≡ WorkerHanded own) }
        ensures { (own : TakerSeat) → queue ≡ WorkerHanded own → result ≡ own }
    {
        match queue {
            HandedQueue::Worker(queue) => queue,
            HandedQueue::Client(_) => unreachable!(),
        }
    }
}

impl Queue<Worker> {
    /// Moves the queue to the loop that has fetched it, as `Taker::adopt` does, and enables it at
    /// once. After an error it is as it was.
    pub fn adopt_for_loop<R: Wait>(
        self,
        rt: &R,
        yard: &Depot<Onward>,
        bell: Bell,
    ) -> Result<WorkerQueue, (AdoptError, WorkerQueue)>
        ensures { IsAdoptedAndStarted self result }
    {
        match self.into_taker().adopt(rt, yard, bell) {
            Ok(mut taker) => {
                taker.start();
                Ok(Queue::from_taker(taker))
            }
            Err((error, taker)) => Err((error, Queue::from_taker(taker))),
        }
    }
}
