//! The end of a loop: all that it holds is taken out and closed, in rising order of the numbers.

ghost use Rattle.slab.specs.Slab.{entries};
ghost use Rattle.std.specs.Prelude.{
  ◌≡◌,
  ℕ,
  length,
  map,
  ◌+◌,
  ◌<◌,
  ◌≤◌,
  [],
  ◌∷◌,
  ◌++◌,
  IfErr,
  IfOk,
  OnErr,
  None,
  OnOk,
  vec_len,
  vec_capacity,
};
ghost use Rattle.std.specs.VecDeque.{deque_len};
ghost use Rattle.hub_loop.specs.Closing.{HasRoom};
ghost use Rattle.hub_loop.specs.Ending.{
  closing_ends,
  found_of,
  grave_ends,
  open_ends,
  still_open,
  swept_ends,
};
ghost use Rattle.hub_loop.specs.Holding.{held_queue};
ghost use Rattle.hub_loop.specs.Looping.{HasEnded, HasPaused};
ghost use Rattle.hub_loop.specs.Noticing.{ports_in, AreEnded, NoticesMore};
ghost use Rattle.hub_loop.specs.States.{closed_of, holding_of};
ghost use Rattle.hub_loop.specs.declared.held.Held.TheVariants.{Port as PortHeld};

use crate::closed::ClosedEnd;
use crate::delivery::Undelivered;
use crate::ends::Holding;
use crate::error::LoopError;
use crate::event_loop::EventLoop;
use crate::handler::{Checkpoint, Handler};
use crate::held::Held;
use crate::sweeping::{Ended, Shutdown};
use hub_broadcast::Roster;
use hub_clients::{Directory, HandedQueue};
use hub_envelope::{EndId, OutOfMemory};
use hub_locked::Lends;
use hub_ports::{Arrived, ClosedPort, Hub};
use hub_queue::{Grave, Poster};
use slab::Slab;
use std::alloc::Global;
use std::collections::VecDeque;
use std::mem::replace;
use std::sync::Wait;

/// What has become of ends that were closed, and the lines that were held beside them.
#[derive(Drop)]
pub(crate) struct Closed {
    pub(crate) graves: Vec<Grave>,
    /// What is told of each port, in the order of closing.
    pub(crate) noticed: Vec<ClosedPort>,
    pub(crate) lines: Vec<Poster>,
}

impl Closed {
    /// Nothing was closed.
    pub(crate) fn new(alloc: Global) -> Closed
        ensures { result.graves.items ≡ [] }
    {
        Closed {
            graves: Vec::new(alloc),
            noticed: Vec::new(alloc),
            lines: Vec::new(alloc),
        }
    }

    /// Makes room for so many more of each.
    pub(crate) fn reserve(&mut self, more: usize) -> Result<(), OutOfMemory>
        ensures room { OnOk result (HasRoom self.new more) }
        ensures same { closed_of self.new ≡ closed_of self.old }
    {
        self.graves.reserve(more)?;
        self.noticed.reserve(more)?;
        self.lines.reserve(more)?;
        Ok(())
    }

    /// Keeps what a port was closed to.
    pub(crate) fn add_closed_port(&mut self, grave: Grave, port: ClosedPort)
        requires { HasRoom self.old 1 }
        ensures graves { self.new.graves.items ≡ self.old.graves.items ++ grave ∷ [] }
        ensures noticed { self.new.noticed.items ≡ self.old.noticed.items ++ port ∷ [] }
        ensures room { (more : ℕ) → HasRoom self.old (more + 1) → HasRoom self.new more }
    {
        self.graves.push_reserved(grave);
        self.noticed.push_reserved(port);
    }

    /// Closes an end, or keeps a line.
    fn close_held_end_or_keep_held_line<R: Wait>(&mut self, rt: &R, hub: &Hub, opened: Held)
        requires { HasRoom self.old 1 }
        ensures graves { grave_ends self.new.graves.items
            ≡ grave_ends self.old.graves.items ++ open_ends (opened ∷ []) }
        ensures told { NoticesMore (ports_in (opened ∷ [])) self.old.noticed.items
            self.new.noticed.items }
        ensures room { (more : ℕ) → HasRoom self.old (more + 1) → HasRoom self.new more }
    {
        match opened.close_without_roster(rt, hub) {
            Ok(ClosedEnd { grave, port }) => match port {
                Some(port) => self.add_closed_port(grave, port),
                None => self.graves.push_reserved(grave),
            },
            Err(poster) => self.lines.push_reserved(poster),
        }
    }

    /// Closes these, in order. There is room for what they are closed to.
    pub(crate) fn close_held_ends_keep_held_lines<R: Wait>(
        &mut self,
        rt: &R,
        hub: &Hub,
        all: Vec<Held>,
    )
        requires { HasRoom self.old (vec_len all) }
        ensures graves { grave_ends self.new.graves.items
            ≡ grave_ends self.old.graves.items ++ open_ends all.items }
        ensures told { NoticesMore (ports_in all.items) self.old.noticed.items
            self.new.noticed.items }
    {
        for opened in all {
            self.close_held_end_or_keep_held_line(rt, hub, opened);
        }
    }
}

/// Takes the members among these out of the roster, before the first end is closed: nobody casts at
/// a member of an agent whose queue is closed already.
pub(crate) fn remove_members_from_roster<L: Lends<Roster>, R: Wait>(
    rt: &R,
    roster: &mut L,
    all: &[Held],
) {
    for opened in all {
        opened.remove_from_roster(rt, roster);
    }
}

/// How many ports were found for a delivery and not adopted yet.
fn count_unadopted_ports(kept: &Option<Undelivered>) -> usize
    ensures { result ≡ length (found_of kept.now) }
{
    match kept {
        Some(delivery) => match &delivery.arrival {
            Some(receiving) => receiving.found.len(),
            None => 0,
        },
        None => 0,
    }
}

/// How many are to be closed.
#[tactic(auto, using(crate::proofs::Endings::entries_held))]
fn count_all_to_close(
    held: &Slab<Held>,
    fetched: &[HandedQueue],
    kept: &Option<Undelivered>,
) -> Result<usize, OutOfMemory>
    ensures { IfOk result (λ count. count
        ≡ length (entries held.now) + length fetched.now + length (found_of kept.now)) }
{
    let count = held.len().checked_add(fetched.len()).ok_or(OutOfMemory)?;
    count
        .checked_add(count_unadopted_ports(kept))
        .ok_or(OutOfMemory)
}

/// Takes out the ports that were found for a delivery and not adopted yet.
fn take_unadopted_ports(alloc: Global, kept: &mut Option<Undelivered>) -> VecDeque<Arrived>
    ensures items { result.items ≡ found_of kept.old }
    ensures len { deque_len result ≡ length (found_of kept.old) }
{
    let none = VecDeque::new(alloc);
    match kept {
        Some(delivery) => match &mut delivery.arrival {
            Some(receiving) => replace(&mut receiving.found, none),
            None => none,
        },
        None => none,
    }
}

/// Puts what was held to what is to be closed. There is room for it.
fn add_held_ends_to_close(held: Slab<Held>, opened: &mut Vec<Held>)
    requires { vec_len opened.old + length (entries held) ≤ vec_capacity opened.old }
    ensures items { opened.new.items
        ≡ opened.old.items ++ map (λ entry. entry.1) (entries held) }
    ensures len { vec_len opened.new ≡ vec_len opened.old + length (entries held) }
    ensures capacity { vec_capacity opened.new ≡ vec_capacity opened.old }
{
    for (_, held) in held {
        opened.push_reserved(held);
    }
}

/// The same of the queues that were fetched.
fn add_fetched_queues_to_close(queues: Vec<HandedQueue>, opened: &mut Vec<Held>)
    requires { vec_len opened.old + vec_len queues ≤ vec_capacity opened.old }
    ensures items { opened.new.items ≡ opened.old.items ++ map held_queue queues.items }
    ensures len { vec_len opened.new ≡ vec_len opened.old + vec_len queues }
    ensures capacity { vec_capacity opened.new ≡ vec_capacity opened.old }
{
    for queue in queues {
        opened.push_reserved(Held::from(queue));
    }
}

/// The same of the ports that were found.
fn add_arrived_ports_to_close(found: VecDeque<Arrived>, opened: &mut Vec<Held>)
    requires { vec_len opened.old + deque_len found ≤ vec_capacity opened.old }
    ensures items { opened.new.items ≡ opened.old.items ++ map PortHeld found.items }
    ensures len { vec_len opened.new ≡ vec_len opened.old + deque_len found }
{
    for arrived in found {
        opened.push_reserved(Held::Port(arrived.into_port()));
    }
}

impl Holding {
    /// Takes out all that is to be closed: what is held, the queues that were fetched, and the
    /// ports that were found for a kept delivery. The room for them, and for what they are closed
    /// to, is made before anything is moved.
    fn take_all_to_close(
        &mut self,
        alloc: Global,
        fetched: &mut Vec<HandedQueue>,
        kept: &mut Option<Undelivered>,
    ) -> Result<Vec<Held>, OutOfMemory>
        ensures taken { IfOk result (λ opened. opened.items
            ≡ still_open self.old.ends.held fetched.old.items kept.old) }
        ensures room { IfOk result (λ opened. HasRoom self.new.closed (vec_len opened)) }
        ensures closed { closed_of self.new.closed ≡ closed_of self.old.closed }
        ensures err { OnErr result ((holding_of self.new ≡ holding_of self.old)
            × (fetched.new.items ≡ fetched.old.items) × (kept.new ≡ kept.old)) }
    {
        let count = count_all_to_close(&self.ends.held, fetched.as_slice(), kept)?;
        let mut opened = Vec::with_capacity(alloc, count)?;
        self.closed.reserve(count)?;
        add_held_ends_to_close(self.ends.take_all_held(alloc), &mut opened);
        add_fetched_queues_to_close(replace(fetched, Vec::new(alloc)), &mut opened);
        add_arrived_ports_to_close(take_unadopted_ports(alloc, kept), &mut opened);
        Ok(opened)
    }

    /// Closes all that is to be closed, in rising order of the numbers. After an error nothing has
    /// changed.
    fn close_all<L: Lends<Roster>, R: Wait>(
        &mut self,
        rt: &R,
        hub: &Hub,
        alloc: Global,
        roster: &mut L,
        fetched: &mut Vec<HandedQueue>,
        kept: &mut Option<Undelivered>,
    ) -> Result<Shutdown, OutOfMemory>
        ensures ok { IfOk result (λ closing. AreEnded None (closed_of self.old.closed).graves
            (still_open self.old.ends.held fetched.old.items kept.old) (closing_ends closing)
            (closed_of self.old.closed).noticed closing.noticed) }
        ensures err { OnErr result ((holding_of self.new ≡ holding_of self.old)
            × (fetched.new.items ≡ fetched.old.items) × (kept.new ≡ kept.old)) }
    {
        let mut opened = self.take_all_to_close(alloc, fetched, kept)?;
        opened.sort_unstable_by_key(|open| open.id().0);
        remove_members_from_roster(rt, roster, opened.as_slice());
        self.closed.close_held_ends_keep_held_lines(rt, hub, opened);
        let closed = replace(&mut self.closed, Closed::new(alloc));
        Ok(Shutdown::new(alloc, closed))
    }
}

impl<H: Handler + Drop, C: Checkpoint + Drop> EventLoop<H, C> {
    /// Ends the loop: its members leave the roster, every end that it holds is closed and emptied,
    /// in rising order of their numbers, and its lines are given back. What waits at these ends is
    /// discarded. Then each port that a kept delivery or a discarded envelope names is taken out of
    /// flight, closed and emptied, until none is named. A port is closed with its notice. It waits
    /// for whoever is inside at such an end.
    ///
    /// It answers what was swept, first the ends that the loop held, in rising order, and then the
    /// ports that were named; and of each port that was closed, in the order of closing, the number
    /// and what became of its notice, those that a turn has closed first. A line that the directory
    /// refuses is dropped. The room that can be counted is made before anything is moved: after
    /// `OutOfMemory` the loop is as it was, or all that it had is closed. The next `end` goes on.
    pub fn end<L: Lends<Roster>, R: Wait>(
        mut self,
        rt: &R,
        hub: &Hub,
        directory: &Directory,
        roster: &mut L,
    ) -> Result<Ended, (LoopError, EventLoop<H, C>)>
        ensures ok { IfOk result (λ ended.
            HasEnded self (swept_ends ended.swept.items) ended.noticed.items) }
        ensures err { IfErr result (λ failed. HasPaused self failed.1) }
    {
        let mut closing = match self.close_all_or_resume_closing(rt, hub, roster) {
            Ok(closing) => closing,
            Err(error) => return Err((LoopError::from(error), self)),
        };
        match closing.finish(rt, hub, directory, &mut self.kept) {
            Ok(()) => {
                drop(self);
                Ok(closing.into_ended())
            }
            Err(error) => {
                self.closing = Some(closing);
                Err((LoopError::from(error), self))
            }
        }
    }

    /// Closes what the loop has, in rising order of the numbers, or takes up how far an earlier
    /// call has come. After an error nothing has changed.
    fn close_all_or_resume_closing<L: Lends<Roster>, R: Wait>(
        &mut self,
        rt: &R,
        hub: &Hub,
        roster: &mut L,
    ) -> Result<Shutdown, OutOfMemory>
        ensures ok { IfOk result (λ closing.
            HasEnded self.old (closing_ends closing) closing.noticed) }
        ensures err { OnErr result (self.new ≡ self.old) }
    {
        if let Some(closing) = self.closing.take() {
            return Ok(closing);
        }
        self.holding.close_all(
            rt,
            hub,
            self.alloc,
            roster,
            &mut self.fetched,
            &mut self.kept,
        )
    }
}
