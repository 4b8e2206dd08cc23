ghost use Rattle.std.specs.Prelude.{◌≡◌, ◌+◌, ◌≤◌, ◌↔◌, IfOk, OnOk, OnErr, IsErrOf, ◌<◌, IfSome};
ghost use Rattle.std.specs.Prelude.{IfErr};
ghost use Rattle.hub_envelope.specs.declared.limits.TheConstants.{MAX_ENDS, MAX_LINES};
ghost use Rattle.hub_locked.specs.Lending.{IsDoneIn};
ghost use Rattle.hub_clients.specs.Listings.{IsListed};
ghost use Rattle.hub_clients.specs.NewQueues.{IsNewClientQueue, listed_of, IsNewWorkerQueue};
ghost use Rattle.hub_clients.specs.Handing.{taker_of};

use crate::error::{DirectoryError, HandError, QueueError};
use crate::handed::{
    Handed, HandedQueue, close_handed_queues, keep_in_lent_map, take_handed_queue_from_map,
};
use crate::listing::{ListedQueue, QueueList};
use crate::queue::{ClientQueue, Queue, WorkerQueue};
use hub_depot::Depot;
use hub_envelope::{AgentId, EndId, MAX_LINES};
use hub_locked::{Lends, Locked, NoHearer};
use hub_queue::{Bell, Ends, Mailbox, Poster, Taker};
use std::alloc::Global;
use std::sync::Wait;

/// A queue of the next number, which is listed with all its lines at home. All that can be refused
/// but the place in the listing is made before that is asked for, and the number is used up last.
/// After an error nothing more is listed.
pub fn open_queue_in_lent_list<L: Lends<QueueList>, R: Wait>(
    rt: &R,
    alloc: Global,
    lender: &mut L,
    ends: &mut Ends,
    bell: Bell,
) -> Result<Taker, QueueError>
    ensures queue { IfOk result (IsNewClientQueue ends.old.drawn) }
    ensures listed { IfOk result (λ taker. IsDoneIn (L.shown lender.old) (L.shown lender.new)
        (λ was now. IsListed was now (listed_of taker))) }
    ensures not_listed { OnErr result (L.shown lender.new ≡ L.shown lender.old) }
    ensures drawn { OnOk result (ends.new.drawn ≡ ends.old.drawn + 1) }
    ensures err { OnErr result (ends.new ≡ ends.old) }
    ensures many { IsErrOf result QueueError.TooManyEnds ↔ (MAX_ENDS ≤ ends.old.drawn) }
{
    let mut drawn = *ends;
    let Some(end) = drawn.draw() else {
        return Err(QueueError::TooManyEnds);
    };
    let (taker, posters) = Mailbox::open(alloc, end, MAX_LINES as u8, bell)?;
    let listed = ListedQueue::new(alloc, end, posters)?;
    lender.lend(rt, |listing| listing.insert(listed))?;
    *ends = drawn;
    Ok(taker)
}

/// Where agents find the queues of clients and workers, and where a queue waits that goes from one
/// agent to another. Threads share it.
///
/// `line_to` and `give_back` are the calls of that name on the `QueueList` behind the lock, under
/// one taking of the lock. What is listed at that moment no contract of these calls can say, since
/// another thread may act between any two of them.
///
/// ```rust
/// let directory = Directory::new(alloc);
/// let mut queue = directory.client(rt, &mut ends, bell)?;
/// queue.loaded();
/// let mut line = directory.line_to(rt, queue.id())?;
/// ```
#[derive(Drop)]
pub struct Directory {
    alloc: Global,
    listing: Locked<QueueList>,
    handed: Depot<Handed>,
}

impl Directory {
    /// Nothing is listed, and no queue is handed on. It takes no memory.
    pub fn new(alloc: Global) -> Directory {
        Directory {
            alloc,
            listing: Locked::new(QueueList::new(alloc)),
            handed: Depot::new(alloc),
        }
    }

    /// A queue of the next number, which is listed under the lock.
    fn make_and_list_queue<R: Wait>(
        &self,
        rt: &R,
        ends: &mut Ends,
        bell: Bell,
    ) -> Result<Taker, QueueError>
        ensures queue { IfOk result (IsNewClientQueue ends.old.drawn) }
        ensures drawn { OnOk result (ends.new.drawn ≡ ends.old.drawn + 1) }
        ensures err { OnErr result (ends.new ≡ ends.old) }
        ensures many { IsErrOf result QueueError.TooManyEnds ↔ (MAX_ENDS ≤ ends.old.drawn) }
    {
        let mut lender = &self.listing;
        open_queue_in_lent_list(rt, self.alloc, &mut lender, ends, bell)
    }

    /// Makes and lists the message queue of a client, which is empty and disabled (W3C Service
    /// Workers, "client message queue"). It stays listed as long as the directory stands.
    ///
    /// `TooManyEnds` exactly where no number is left; else `OutOfMemory` where there was no memory.
    /// After either no number is used, and nothing more is listed.
    pub fn client<R: Wait>(
        &self,
        rt: &R,
        ends: &mut Ends,
        bell: Bell,
    ) -> Result<ClientQueue, QueueError>
        ensures queue { IfOk result (IsNewClientQueue ends.old.drawn) }
        ensures drawn { OnOk result (ends.new.drawn ≡ ends.old.drawn + 1) }
        ensures err { OnErr result (ends.new ≡ ends.old) }
        ensures many { IsErrOf result QueueError.TooManyEnds ↔ (MAX_ENDS ≤ ends.old.drawn) }
    {
        let taker = self.make_and_list_queue(rt, ends, bell)?;
        Ok(Queue::from_taker(taker))
    }

    /// Makes and lists the message queue of a worker, which is empty and enabled. All else is as of
    /// `client`.
    pub fn worker<R: Wait>(
        &self,
        rt: &R,
        ends: &mut Ends,
        bell: Bell,
    ) -> Result<WorkerQueue, QueueError>
        ensures queue { IfOk result (IsNewWorkerQueue ends.old.drawn) }
        ensures drawn { OnOk result (ends.new.drawn ≡ ends.old.drawn + 1) }
        ensures err { OnErr result (ends.new ≡ ends.old) }
        ensures many { IsErrOf result QueueError.TooManyEnds ↔ (MAX_ENDS ≤ ends.old.drawn) }
    {
        let mut taker = self.make_and_list_queue(rt, ends, bell)?;
        taker.start();
        Ok(Queue::from_taker(taker))
    }

    /// Lends a line to an end, the least that is at home: `QueueList::line_to` under the lock. The
    /// poster is the line's only one, so nobody else can post over it until it is given back. What
    /// the line has put goes on from the agent that had it before.
    ///
    /// `NoSuchEnd` where no queue of that number is listed, `NoLine` where each of its lines is
    /// lent. It takes no memory.
    pub fn line_to<R: Wait>(&self, rt: &R, end: EndId) -> Result<Poster, DirectoryError>
        ensures { IfOk result (λ p. (p.name.end ≡ end) × (p.name.line.0 < MAX_LINES)) }
    {
        self.listing.lock(rt).line_to(end)
    }

    /// Takes a line back: `QueueList::give_back_poster` under the lock. The poster comes back where
    /// no listed queue has that line out. It takes no memory.
    pub fn give_back<R: Wait>(&self, rt: &R, poster: Poster) -> Result<(), Poster>
        ensures { IfErr result (λ back. back ≡ poster) }
    {
        self.listing.lock(rt).give_back_poster(poster)
    }

    /// Keeps a queue until that agent fetches it.
    pub(crate) fn keep_handed_queue<R: Wait>(
        &self,
        rt: &R,
        queue: HandedQueue,
        to: AgentId,
    ) -> Result<(), (HandError, HandedQueue)>
        ensures { IfErr result (λ refused. refused.1 ≡ queue) }
    {
        let mut lender = self.handed.as_lock();
        keep_in_lent_map(rt, &mut lender, queue, to)
    }

    /// Takes out the queue of that number that was handed to that agent. `None` where none waits.
    /// It takes no memory.
    pub fn fetch_handed_queue<R: Wait>(&self, rt: &R, end: EndId, to: AgentId) -> Option<Handed>
        ensures { IfSome result (λ h. ((taker_of h.queue).end ≡ end.0) × (h.to ≡ to)) }
    {
        let mut lender = self.handed.as_lock();
        take_handed_queue_from_map(rt, &mut lender, end, to)
    }

    /// Closes every queue that still waits for an agent. What is left of them is discarded: ports
    /// that are named there stay where they wait. It takes no memory.
    pub fn end<R: Wait>(self, rt: &R) {
        let Directory {
            alloc: _,
            listing: _,
            handed,
        } = self;
        let mut waiting = handed.into_map();
        close_handed_queues(rt, &mut waiting, &mut NoHearer);
    }
}
