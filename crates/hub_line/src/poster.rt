//! The end of a line that posts.
ghost use Rattle.std.specs.Prelude.{◌≡◌, ◌<◌, ◌≤◌, true, false, [], ◌∷◌, ◌++◌, ◌↔◌, is_some};
ghost use Rattle.std.specs.Prelude.{IsTrue, IsFalse, OnOk, IfErr};
ghost use Rattle.rtrb.specs.Ring.{sent, known_free, SameProducer};
ghost use Rattle.hub_line.specs.Rings.{fed, free};
ghost use Rattle.hub_line.specs.Tracks.{goes_on, settled, posted_of, IsLinked, Stands};
ghost use Rattle.hub_line.specs.declared.poster.NotPosted.TheVariants.{Closed};

use crate::line::CLOSED;
use crate::ring::{Chained, Feed, Track};
use rtrb::Producer;
use std::alloc::Global;
use std::mem;
use std::sync::Arc;
use std::sync::atomic::{AtomicU64, Ordering};

/// How many items the first ring has room for.
pub(crate) const FIRST: usize = 16;

/// How many items a ring has room for that is kept once it was found empty.
pub(crate) const KEPT: usize = 128;

/// By how much each ring is larger than the one before.
const GROWTH: usize = 8;

/// The most items that a ring has room for.
const MOST: usize = 1 << 40;

/// How many tracks the rail has room for: its last place is kept for the end.
pub(crate) const RAIL: usize = 12;

/// Why an item was not posted.
#[derive(Clone, Copy, Debug, PartialEq, Eq, Drop)]
pub enum NotPosted {
    /// The taker has closed the line, or is gone.
    Closed,
    /// There was no memory for a larger ring.
    OutOfMemory,
}

/// Posts at one taker. Dropped, it ends the line.
pub struct LinePoster<T> {
    // `None` once the line is over.
    pub(crate) feed: Option<Feed<T>>,
    pub(crate) rail: Producer<Track<T>, Global, Chained>,
    pub(crate) notices: Arc<AtomicU64>,
    pub(crate) heeded: u64,
    pub(crate) alloc: Global,
    ghost stands: { Stands feed rail },
}

/// Goes on in a ring of another capacity, if there is room and memory.
#[cold]
fn continue_in_new_ring<T: Drop>(
    alloc: Global,
    capacity: usize,
    feed: &mut Feed<T>,
    rail: &mut Producer<Track<T>, Global, Chained>,
) -> bool
    requires open { goes_on (sent rail.old) ≡ true }
    requires linked { IsLinked feed.old (sent rail.old) }
    requires room { 0 < known_free rail.old }
    ensures open { goes_on (sent rail.new) ≡ true }
    ensures linked { IsLinked feed.new (sent rail.new) }
    ensures room { 0 < known_free rail.new }
    ensures rail { SameProducer rail.old rail.new }
    ensures same { settled (sent rail.new) ++ fed feed.new
        ≡ settled (sent rail.old) ++ fed feed.old }
    ensures free { IsTrue result → free feed.new ≡ capacity }
{
    if rail.slots() < 2 {
        return false;
    }
    let place = feed.place.wrapping_add(1);
    let Ok((other, next)) = Feed::open_ring(alloc, place, capacity) else {
        return false;
    };
    let Ok(next) = Box::new(alloc, next) else {
        return false;
    };
    let over = mem::replace(feed, other);
    rail.push_reserved(Track::Onward(over, next));
    true
}

/// Makes room for one item, in a larger ring if need be.
#[inline]
fn make_room<T: Drop>(
    alloc: Global,
    feed: &mut Feed<T>,
    rail: &mut Producer<Track<T>, Global, Chained>,
) -> bool
    requires open { goes_on (sent rail.old) ≡ true }
    requires linked { IsLinked feed.old (sent rail.old) }
    requires room { 0 < known_free rail.old }
    ensures open { goes_on (sent rail.new) ≡ true }
    ensures linked { IsLinked feed.new (sent rail.new) }
    ensures room { 0 < known_free rail.new }
    ensures rail { SameProducer rail.old rail.new }
    ensures same { settled (sent rail.new) ++ fed feed.new
        ≡ settled (sent rail.old) ++ fed feed.old }
    ensures free { IsTrue result → 0 < free feed.new }
{
    if !feed.is_full() {
        return true;
    }
    let capacity = feed.capacity();
    if capacity == 0 || capacity > MOST / GROWTH {
        return false;
    }
    continue_in_new_ring(alloc, capacity * GROWTH, feed, rail)
}

/// Ends the line, if it isn't over.
fn end_line<T: Drop>(feed: &mut Option<Feed<T>>, rail: &mut Producer<Track<T>, Global, Chained>)
    requires { Stands feed.old rail.old }
    ensures stands { Stands feed.new rail.new }
    ensures over { goes_on (sent rail.new) ≡ false }
    ensures rail { SameProducer rail.old rail.new }
    ensures same { posted_of feed.new rail.new ≡ posted_of feed.old rail.old }
{
    let Some(last) = feed.take() else {
        return;
    };
    rail.push_reserved(Track::End(last));
}

/// Does what a notice of the taker asks for, and answers whether it is done.
#[cold]
fn carry_out_request_of_taker<T: Drop>(
    alloc: Global,
    notice: u64,
    feed: &mut Option<Feed<T>>,
    rail: &mut Producer<Track<T>, Global, Chained>,
) -> bool
    requires { Stands feed.old rail.old }
    ensures stands { Stands feed.new rail.new }
    ensures over { goes_on (sent rail.old) ≡ false → goes_on (sent rail.new) ≡ false }
    ensures rail { SameProducer rail.old rail.new }
    ensures same { posted_of feed.new rail.new ≡ posted_of feed.old rail.old }
{
    if notice == CLOSED {
        end_line(feed, rail);
        return true;
    }
    match feed {
        Some(used) if used.place == notice => continue_in_new_ring(alloc, FIRST, used, rail),
        _ => true,
    }
}

/// Posts an item, if the line isn't over.
#[inline(always)]
fn post_unless_ended<T: Drop>(
    alloc: Global,
    feed: &mut Option<Feed<T>>,
    rail: &mut Producer<Track<T>, Global, Chained>,
    item: T,
) -> Result<(), (NotPosted, T)>
    requires { Stands feed.old rail.old }
    ensures stands { Stands feed.new rail.new }
    ensures rail { SameProducer rail.old rail.new }
    ensures posted { OnOk result (posted_of feed.new rail.new
        ≡ posted_of feed.old rail.old ++ item ∷ []) }
    ensures refused { IfErr result (λ e. (e.1 ≡ item)
        × (posted_of feed.new rail.new ≡ posted_of feed.old rail.old)) }
    ensures closed { IfErr result (λ e. (e.0 ≡ Closed) ↔ (goes_on (sent rail.old) ≡ false)) }
    ensures open { goes_on (sent rail.new) ≡ goes_on (sent rail.old) }
{
    let Some(used) = feed else {
        return Err((NotPosted::Closed, item));
    };
    if !make_room(alloc, used, rail) {
        return Err((NotPosted::OutOfMemory, item));
    }
    used.push_assuming_room(item);
    Ok(())
}

impl<T: Drop> LinePoster<T> {
    ghost use Rattle.std.specs.Prelude.{◌≡◌, ◌↔◌, [], ◌∷◌, ◌++◌, OnOk, IfErr, IsTrue};
    ghost use Rattle.hub_line.specs.Ends.{posted, IsOver, SamePoster};
    ghost use Rattle.hub_line.specs.declared.poster.NotPosted.TheVariants.{Closed};

    /// Does what the taker has asked for since the last call.
    #[inline(always)]
    fn handle_request_of_taker(&mut self)
        ensures line { SamePoster self.old self.new }
        ensures same { posted self.new ≡ posted self.old }
        ensures over { IsOver self.old → IsOver self.new }
    {
        let notice = self.notices.load(Ordering::SeqCst);
        if notice != self.heeded
            && carry_out_request_of_taker(self.alloc, notice, &mut self.feed, &mut self.rail)
        {
            self.heeded = notice;
        }
    }

    /// Posts an item. After an error nothing was posted, and the item comes back.
    #[inline(always)]
    pub fn post(&mut self, item: T) -> Result<(), (NotPosted, T)>
        ensures line { SamePoster self.old self.new }
        ensures posted { OnOk result (posted self.new ≡ posted self.old ++ item ∷ []) }
        ensures refused { IfErr result (λ e. (e.1 ≡ item) × (posted self.new ≡ posted self.old)) }
        ensures closed { IfErr result (λ e. (e.0 ≡ Closed) ↔ IsOver self.new) }
        ensures over { IsOver self.old → IsOver self.new }
    {
        self.handle_request_of_taker();
        post_unless_ended(self.alloc, &mut self.feed, &mut self.rail, item)
    }

    /// Whether the line is over, since its taker has closed it. This is a call that ends it then.
    pub fn end_if_closed_by_taker(&mut self) -> bool
        ensures line { SamePoster self.old self.new }
        ensures same { posted self.new ≡ posted self.old }
        ensures over { IsTrue result ↔ IsOver self.new }
        ensures stays { IsOver self.old → IsOver self.new }
        ensures heeded { self.new.heeded ≡ self.old.heeded }
    {
        if self.notices.load(Ordering::SeqCst) == CLOSED {
            end_line(&mut self.feed, &mut self.rail);
        }
        self.feed.is_none()
    }
}

impl<T: Drop> Drop for LinePoster<T> {
    fn drop(self) {
        let LinePoster {
            mut feed,
            mut rail,
            notices: _,
            heeded: _,
            alloc: _,
        } = self;
        end_line(&mut feed, &mut rail);
    }
}
