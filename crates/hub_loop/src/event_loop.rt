//! The event loop of an agent, and its turns.

ghost use Rattle.std.specs.Prelude.{
  ◌≡◌,
  ◌+◌,
  ◌↔◌,
  true,
  None,
  Ok,
  OnOk,
  IfOk,
  OnErr,
  IfNone,
  IfSome,
  ◌≤◌,
  vec_len,
  vec_capacity,
  [],
  length,
};
ghost use Rattle.hub_bell.specs.Seats.{new_at};
ghost use Rattle.hub_clients.specs.Handing.{taker_of};
ghost use Rattle.hub_life.specs.OrderSeat.{knows};
ghost use Rattle.hub_loop.specs.Adopting.{
  IsFetched,
  IsTakenFrom,
  KeepsFetched,
  KeepsOthers,
  SameStored,
};
ghost use Rattle.hub_loop.specs.Looping.{
  MakesTurn,
  Runs,
  SameButFetched,
  SameButTaken,
  SameButTurn,
  TakesUp,
};
ghost use Rattle.hub_loop.specs.Marking.{AreNewMarked, MarksKept};
ghost use Rattle.hub_loop.specs.Turning.{PopsEach, Rests, Gave, TookNothingBut};
ghost use Rattle.hub_loop.specs.declared.handler.Turn.TheVariants.{Ending};

use crate::delivery::Undelivered;
use crate::ends::Holding;
use crate::error::LoopError;
use crate::handler::{Checkpoint, Handler, Turn};
use crate::held::Held;
use crate::serving::Served;
use crate::sweeping::Shutdown;
use hub_clients::{Directory, HandedQueue};
use hub_envelope::{AgentId, EndId, OutOfMemory};
use hub_life::Order;
use hub_ports::{Hub, Port};
use hub_queue::{Listener, Steps};
use std::alloc::Global;
use std::marker::{Brand, Model};
use std::sync::Wait;
use std::sync::ledger::{Blank, Ledger};
use std::thread;

/// The event loop of an agent: the ends and lines that the agent holds, and the order to end.
///
/// One thread has it. The other agents' threads meet it at the gates of its ends, at the hub, and
/// at the word of its order.
///
/// ```rust
/// let mut event_loop = EventLoop::open(alloc, agent, order, handler, NoCheckpoint, listener)?;
/// event_loop.hold_end_or_line(Held::Port(port))?;
/// event_loop.run(rt, &hub)?;          // until the order to end
/// let ended = event_loop.end(rt, &hub, &directory, &roster)?;
/// ```
pub struct EventLoop<H: Handler + Drop, C: Checkpoint + Drop> {
    pub(crate) alloc: Global,
    pub(crate) agent: AgentId,
    pub(crate) order: Order,
    pub(crate) listener: Listener,
    pub(crate) handler: H,
    pub(crate) checkpoint: C,
    pub(crate) holding: Holding,
    /// A delivery of which the handler has not taken note yet, for want of memory.
    pub(crate) kept: Option<Undelivered>,
    /// Queues that were fetched and not adopted yet, for want of memory.
    pub(crate) fetched: Vec<HandedQueue>,
    /// How far an `end` that was stopped by want of memory has come.
    pub(crate) closing: Option<Shutdown>,
    /// How many deliveries were made.
    pub(crate) delivered: u64,
}

// By hand, so that whoever drops one makes one call, and its proof has no cases of its fields.
impl<H: Handler + Drop, C: Checkpoint + Drop> Drop for EventLoop<H, C> {
    fn drop(self) {
        let EventLoop {
            alloc: _,
            agent: _,
            order,
            listener,
            handler,
            checkpoint,
            holding,
            kept,
            fetched,
            closing,
            delivered: _,
        } = self;
        drop(order);
        drop(listener);
        drop(handler);
        drop(checkpoint);
        drop(holding);
        drop(kept);
        drop(fetched);
        drop(closing);
    }
}

impl<H: Handler + Drop, C: Checkpoint + Drop> Model for EventLoop<H, C> {
    ghost use Rattle.hub_loop.specs.Looping.{LoopState};
    ghost use Rattle.hub_loop.specs.States.{holding_of};

    ghost Value = { LoopState H };

    ghost view = { λ l. record {
      order = l.order;
      listener = l.listener;
      handler = l.handler;
      holding = holding_of l.holding;
      kept = l.kept;
      fetched = l.fetched.items;
      closing = l.closing;
    } };
}

impl<H: Handler + Drop, C: Checkpoint + Drop> EventLoop<H, C> {
    /// A loop that holds nothing, for the agent of that number. It sleeps at `bell`, the listener
    /// whose bells are those of the ends that it is to hold.
    ///
    /// After an error no loop was made.
    pub fn open(
        alloc: Global,
        agent: AgentId,
        order: Order,
        handler: H,
        checkpoint: C,
        bell: Listener,
    ) -> Result<EventLoop<H, C>, OutOfMemory>
        ensures held { IfOk result (λ opened. opened.holding.ends.held.slots ≡ []) }
        ensures kept { IfOk result (λ opened. opened.kept ≡ None) }
        ensures handler { IfOk result (λ opened. opened.handler ≡ handler) }
        ensures order { IfOk result (λ opened. opened.order ≡ order) }
        ensures listener { IfOk result (λ opened. (opened.listener ≡ bell)
            × (opened.holding.bell ≡ new_at bell.board)) }
        ensures rest { IfOk result (λ opened. (opened.fetched ≡ [])
            × (opened.holding.closed.graves ≡ []) × (opened.closing ≡ None)) }
    {
        let holding = Holding::new(alloc, bell.new_bell()?);
        Ok(EventLoop {
            alloc,
            agent,
            order,
            listener: bell,
            handler,
            checkpoint,
            holding,
            kept: None,
            fetched: Vec::new(alloc),
            closing: None,
            delivered: 0,
        })
    }

    /// Takes up the delivery that was kept, or else asks the ends. Where none gave an envelope it
    /// says whether one was busy. The checkpoint is called once for each envelope.
    fn take_next_delivery<L: Ledger, R: Wait>(
        &mut self,
        rt: &R,
        steps: &mut Steps<L>,
    ) -> Result<Undelivered, bool>
        ensures due { TakesUp self.old self.new steps.old steps.new result }
        ensures keys { self.old.kept ≡ None →
            length self.old.holding.ends.held.slots
            ≤ self.old.holding.ends.held.capacity }
        ensures kept { self.new.kept ≡ None }
        ensures rest { SameButTaken self.old self.new }
    {
        if let Some(delivery) = self.kept.take() {
            return Ok(delivery);
        }
        match self.holding.ends.take_next(rt, &mut self.listener, steps) {
            Served::Nothing(busy) => Err(busy),
            Served::Given(_, envelope) => {
                self.checkpoint.at(rt, self.agent, self.delivered);
                Ok(Undelivered {
                    envelope,
                    arrival: None,
                })
            }
        }
    }

    /// Makes a turn. First it looks for the order to end. Then it takes one envelope: it asks the
    /// open ends in rising order of their keys, beginning behind the one served last, and past the
    /// queues that an end has left behind. Ends at which nothing was posted since they were asked
    /// are passed over while another one gives an envelope; where none does each is asked. The
    /// ports that the envelope names are found and adopted in the order of its list, and the
    /// handler is told.
    ///
    /// A port that was adopted too often, or whose number the yard knows already, is closed with
    /// its notice and counts as missing. After `OutOfMemory` the delivery is kept, and the next
    /// turn goes on with it before it asks any end. The last parameter counts the pops.
    pub fn turn<L: Ledger, R: Wait>(
        &mut self,
        rt: &R,
        hub: &Hub,
        steps: &mut Steps<L>,
    ) -> Result<Turn, LoopError>
        ensures looked { self.new.order.looks ≡ self.old.order.looks + 1 }
        ensures ending { (result ≡ Ok Ending) ↔ (knows self.new.order ≡ true) }
        ensures turn { MakesTurn H.leaves H.refuses self.old self.new steps.old steps.new result }
        ensures others { TookNothingBut (Gave self.old.kept self.new.holding.ends.next result)
            self.old.holding.ends.held self.new.holding.ends.held }
        ensures marked { AreNewMarked self.old.holding.ends self.new.holding.ends }
        ensures pops { PopsEach result self.old.holding.ends.held steps.old steps.new }
        ensures rest { SameButTurn self.old self.new }
    {
        if self.order.seen() {
            return Ok(Turn::Ending);
        }
        let mut delivery = match self.take_next_delivery(rt, steps) {
            Ok(delivery) => delivery,
            Err(busy) => return Ok(Turn::Idle { busy }),
        };
        match delivery.deliver(rt, hub, &mut self.holding, &mut self.handler) {
            Ok(()) => {
                self.delivered = self.delivered.wrapping_add(1);
                Ok(Turn::Delivered)
            }
            Err(_) => {
                self.kept = Some(delivery);
                Err(LoopError::OutOfMemory)
            }
        }
    }

    /// Rests after a turn: where no end gave anything and none was busy the thread sleeps until
    /// somebody rings, and where one was busy it lets other threads run first.
    pub fn sleep_or_yield_after_turn<R: Wait>(&mut self, rt: &R, turn: Turn)
        ensures rests { Rests turn self.old.listener.at self.new.listener.at }
        ensures same { self.new ≡ record self.old { listener = self.new.listener } }
    {
        match turn {
            Turn::Idle { busy: false } => self.listener.sleep(rt),
            Turn::Idle { busy: true } => thread::yield_now(),
            Turn::Delivered | Turn::Ending => {}
        }
    }

    /// Makes turns, and rests after each, until the order to end was given. The order isn't carried
    /// out: that is `end`.
    ///
    /// After `OutOfMemory` the next call goes on, as after a turn.
    pub fn run<R: Wait>(&mut self, rt: &R, hub: &Hub) -> Result<(), LoopError>
        ensures ran { Runs H.leaves H.refuses self.old self.new result }
        ensures ordered { OnOk result (knows self.new.order ≡ true) }
    {
        self.run_counting_pops::<Brand, R>(rt, hub, Blank::new(2))
    }

    fn run_counting_pops<L: Ledger, R: Wait>(
        &mut self,
        rt: &R,
        hub: &Hub,
        blank: Blank,
    ) -> Result<(), LoopError>
        requires { (blank.name ≡ L.name) × (blank.parts ≡ L.parts) × (L.parts ≡ 2) }
        ensures ran { Runs H.leaves H.refuses self.old self.new result }
        ensures ordered { OnOk result (knows self.new.order ≡ true) }
    {
        let mut steps = Steps::<L>::new_at_zero(blank);
        for _ in rt.forever() {
            match self.turn(rt, hub, &mut steps) {
                Ok(Turn::Ending) => return Ok(()),
                Ok(turn) => self.sleep_or_yield_after_turn(rt, turn),
                Err(error) => return Err(error),
            }
        }
        unreachable!()
    }

    /// Takes the queue of this number that was handed to this loop's agent, adopts it and holds it.
    /// A worker's queue is enabled then, a client's is not.
    ///
    /// False where no such queue waits, and where it was adopted too often or the yard knows its
    /// number already: then it was closed. After `OutOfMemory` it is handed still, or the loop
    /// keeps it for the next call.
    #[tactic(auto, using(crate::proofs::Marks::kept_same))]
    pub fn fetch<R: Wait>(
        &mut self,
        rt: &R,
        hub: &Hub,
        directory: &Directory,
        end: EndId,
    ) -> Result<bool, LoopError>
        ensures ok { IfOk result (λ held. IsFetched held self.old.holding self.new.holding end) }
        ensures err { OnErr result (SameStored self.old.holding self.new.holding) }
        ensures others { KeepsOthers end self.old.fetched self.new.fetched }
        ensures kept { OnErr result (KeepsFetched end self.old.fetched self.new.fetched) }
        ensures marks { MarksKept self.old.holding.ends self.new.holding.ends }
        ensures rest { SameButFetched self.old self.new }
    {
        self.fetched.reserve(1)?;
        let Some(queue) = take_or_fetch_queue(rt, directory, &mut self.fetched, end, self.agent)
        else {
            return Ok(false);
        };
        match self.holding.adopt_queue(rt, hub, queue) {
            Ok(is_held) => Ok(is_held),
            Err(queue) => {
                self.fetched.push_reserved(queue);
                Err(LoopError::OutOfMemory)
            }
        }
    }
}

/// Takes the queue of this number out of those that were fetched, or else out of the directory.
fn take_or_fetch_queue<R: Wait>(
    rt: &R,
    directory: &Directory,
    fetched: &mut Vec<HandedQueue>,
    end: EndId,
    agent: AgentId,
) -> Option<HandedQueue>
    ensures queue { IfSome result (λ queue. (taker_of queue).end ≡ end.0) }
    ensures taken { IfSome result (λ queue. IsTakenFrom queue fetched.old.items fetched.new.items) }
    ensures none { IfNone result (fetched.new.items ≡ fetched.old.items) }
    ensures len { vec_len fetched.new ≤ vec_len fetched.old }
    ensures capacity { vec_capacity fetched.new ≡ vec_capacity fetched.old }
{
    for place in 0..fetched.len() {
        if fetched[place].id() == end {
            return Some(fetched.swap_remove(place));
        }
    }
    let handed = directory.fetch_handed_queue(rt, end, agent)?;
    Some(handed.queue)
}
