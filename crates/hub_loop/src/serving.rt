//! How a loop asks the ends that it holds, in the order of their keys.
ghost use Rattle.std.specs.Prelude.{◌≡◌, ◌<◌, ◌≤◌, length, IfNone, IfSome, true};
ghost use Rattle.slab.specs.Slab.{get};
ghost use Rattle.hub_ready.specs.Marking.{SameBut};
ghost use Rattle.hub_loop.specs.Serving.{
  AreEachServed,
  AreMarkedServed,
  HasWalked,
  IsListedAt,
  IsServed,
  IsServedMarked,
  NoneBetween,
  next_after,
  served_by,
  IsAskedAt,
};

use crate::ends::HeldEnds;
use crate::finding::first_marked_in_range;
use crate::held::Held;
use hub_envelope::Envelope;
use hub_queue::{Listener, Steps, Took};
use hub_ready::{Marks, Ready};
use slab::Slab;
use std::sync::Wait;
use std::sync::ledger::Ledger;

/// What the asking of ends came to.
#[derive(Drop)]
pub(crate) enum Served {
    /// The end under this key gave an envelope.
    Given(usize, Envelope),
    /// No end gave one. Whether one was busy: somebody is still inside a queue that it has left
    /// behind.
    Nothing(bool),
}

impl Served {
    /// What the answer of the end under this key comes to; of a line and of nothing there is none.
    fn from_answer_of_end(key: usize, answer: Option<Took>) -> Served
        ensures { result ≡ served_by key answer }
    {
        match answer {
            Some(Took::Got(envelope)) => Served::Given(key, envelope),
            Some(Took::Busy) => Served::Nothing(true),
            Some(Took::Empty | Took::Again | Took::Disabled | Took::Closed) | None => {
                Served::Nothing(false)
            }
        }
    }
}

/// Asks the end under a key, if there is one.
fn take_envelope_at_key<L: Ledger, R: Wait>(
    rt: &R,
    held: &mut Slab<Held>,
    key: usize,
    steps: &mut Steps<L>,
) -> Served
    ensures { IsAskedAt held.old held.new key steps.old steps.new result }
{
    match held.get_mut(key) {
        Some(held) => Served::from_answer_of_end(key, held.take_past_emptied_queues(rt, steps)),
        None => Served::Nothing(false),
    }
}

/// Whether an end that gave nothing can go without its mark: its number leads to it. One that
/// wasn't enabled is marked again by the loan in which it is.
fn may_clear_mark(held: &Slab<Held>, ready: &Ready, key: usize) -> bool
    ensures { result ≡ true → IsListedAt ready.now.listed.items key (get held.now key) }
{
    match held.get(key) {
        Some(held) => match held.id_unless_line() {
            Some(end) => ready.is_key_of_end(end, key),
            None => true,
        },
        None => true,
    }
}

/// Which keys of a range a walk asks.
#[derive(Clone, Copy)]
enum Which {
    Marked,
    Each,
}

/// The first of these keys from the one up to the other.
fn first_key_to_ask_in_range(marks: &Marks, which: Which, low: usize, high: usize) -> Option<usize>
    ensures some { IfSome result (λ key. (low ≤ key) × (key < high)
        × NoneBetween which marks.now low key) }
    ensures none { IfNone result (NoneBetween which marks.now low high) }
{
    match which {
        Which::Marked => first_marked_in_range(marks, low, high),
        Which::Each if low < high => Some(low),
        Which::Each => None,
    }
}

/// How many ends are asked in order before the loop looks which were rung.
const A_TIME: usize = 64;

impl HeldEnds {
    /// Asks the end under a key, if there is one. Its mark stays where more may wait there.
    fn take_envelope_at_key_and_update_mark<L: Ledger, R: Wait>(
        &mut self,
        rt: &R,
        key: usize,
        steps: &mut Steps<L>,
    ) -> Served
        ensures asked { IsAskedAt self.old.held self.new.held key steps.old steps.new result }
        ensures others { SameBut key self.old.ready.marks self.new.ready.marks }
        ensures given { IsServedMarked self.new.ready.marks result }
        ensures capacity { self.new.held.capacity ≡ self.old.held.capacity }
        ensures next { self.new.next ≡ self.old.next }
    {
        let served = take_envelope_at_key(rt, &mut self.held, key, steps);
        match &served {
            Served::Nothing(false) if may_clear_mark(&self.held, &self.ready, key) => {
                self.ready.marks.unmark_key(key);
            }
            Served::Nothing(_) | Served::Given(_, _) => self.ready.marks.mark_key(key),
        }
        served
    }

    /// Asks these ends of a range in order, up to the first that gives an envelope: the next asking
    /// begins behind it. `was` tells whether an end was busy before.
    // It is inlined, as `take_one_from_marked_ends_in_turn` is: each return would copy an envelope.
    #[inline(always)]
    fn take_from_range<L: Ledger, R: Wait>(
        &mut self,
        rt: &R,
        which: Which,
        low: usize,
        high: usize,
        was: bool,
        steps: &mut Steps<L>,
    ) -> Served
        requires { (low ≤ high) × (high ≤ self.old.held.capacity) }
        ensures walked { HasWalked which low high self.old self.new
            steps.old steps.new was result }
        ensures given { IsServedMarked self.new.ready.marks result }
        ensures next { self.new.next ≡ next_after self.old.next result }
        ensures capacity { self.new.held.capacity ≡ self.old.held.capacity }
    {
        let mut busy = was;
        let mut from = low;
        'keys: while let Some(key) = first_key_to_ask_in_range(
            &self.ready.marks,
            which,
            from,
            high,
        ) {
            match self.take_envelope_at_key_and_update_mark(rt, key, steps) {
                Served::Nothing(here) => busy = here | busy,
                served => {
                    self.next = key + 1;
                    return served;
                }
            }
            from = key + 1;
        }
        Served::Nothing(busy)
    }

    /// Looks which ends were rung, and asks the marked ones in order, from the next key on and then
    /// from the first.
    #[inline(always)]
    fn take_one_from_marked_ends_in_turn<L: Ledger, R: Wait>(
        &mut self,
        rt: &R,
        listener: &mut Listener,
        was: bool,
        steps: &mut Steps<L>,
    ) -> Served
        ensures served { AreMarkedServed self.old self.new listener.old listener.new
            steps.old steps.new was result }
        ensures given { IsServedMarked self.new.ready.marks result }
        ensures next { self.new.next ≡ next_after self.old.next result }
        ensures capacity { self.new.held.capacity ≡ self.old.held.capacity }
    {
        self.ready.mark_rung_ends(listener);
        let next = self.next;
        let high = self.held.capacity();
        match self.take_from_range(rt, Which::Marked, next, high, was, steps) {
            Served::Nothing(busy) => self.take_from_range(rt, Which::Marked, 0, next, busy, steps),
            served => served,
        }
    }

    /// Asks each end of a range in order, up to the first that gives an envelope. From time to time
    /// it serves the marked ones first.
    #[inline(never)]
    fn take_one_from_ends_in_turn<L: Ledger, R: Wait>(
        &mut self,
        rt: &R,
        listener: &mut Listener,
        low: usize,
        high: usize,
        was: bool,
        steps: &mut Steps<L>,
    ) -> Served
        requires { (low ≤ high) × (high ≤ self.old.held.capacity) }
        ensures served { AreEachServed low high self.old self.new listener.old listener.new
            steps.old steps.new was result }
        ensures given { IsServedMarked self.new.ready.marks result }
        ensures next { self.new.next ≡ next_after self.old.next result }
        ensures capacity { self.new.held.capacity ≡ self.old.held.capacity }
    {
        let mut busy = was;
        let mut from = low;
        'parts: while high - from > A_TIME {
            match self.take_from_range(rt, Which::Each, from, from + A_TIME, busy, steps) {
                Served::Nothing(now) => busy = now,
                served => return served,
            }
            match self.take_one_from_marked_ends_in_turn(rt, listener, busy, steps) {
                Served::Nothing(now) => busy = now,
                served => return served,
            }
            from += A_TIME;
        }
        self.take_from_range(rt, Which::Each, from, high, busy, steps)
    }

    /// Asks the ends in turn, beginning behind the one served last. Ends that are not marked, and
    /// whose ready bits are clear, are passed over while a marked one gives an envelope; where none
    /// does each is asked.
    pub(crate) fn take_next<L: Ledger, R: Wait>(
        &mut self,
        rt: &R,
        listener: &mut Listener,
        steps: &mut Steps<L>,
    ) -> Served
        ensures served { IsServed self.old self.new listener.old listener.new steps.old steps.new
            result }
        ensures keys { length self.old.held.slots ≤ self.old.held.capacity }
        ensures given { IsServedMarked self.new.ready.marks result }
        ensures next { self.new.next ≡ next_after self.old.next result }
    {
        let next = self.next;
        let high = self.held.capacity();
        match self.take_one_from_marked_ends_in_turn(rt, listener, false, steps) {
            Served::Nothing(marked) => {
                match self.take_one_from_ends_in_turn(rt, listener, next, high, marked, steps) {
                    Served::Nothing(ahead) => self.take_one_from_ends_in_turn(
                        rt, listener, 0, next, ahead, steps,
                    ),
                    served => served,
                }
            }
            served => served,
        }
    }
}
