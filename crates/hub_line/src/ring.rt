//! The rings of a line: their numbered items, their ends, and how the line goes on from one to the
//! next.
ghost use Rattle.std.specs.Prelude.{◌≡◌, ◌%◌, ◌^◌, length};
ghost use Rattle.rtrb.specs.Ring.{sent, received};
ghost use Rattle.hub_line.specs.Numbers.{AreCounted};

use crate::OutOfMemory;
use rtrb::{Consumer, Producer, Protocol, RingBuffer};
use std::alloc::Global;

/// An item with its number: how many items were posted before it in its ring.
#[derive(Drop)]
pub struct Numbered<T> {
    // The item stands first, so that a copy of it begins where the copy of the whole began.
    pub item: T,
    pub number: u64,
}

/// The items of a ring are numbered from 0 on, with no gap.
pub struct Counted;

impl<T> Protocol<Numbered<T>> for Counted {
    ghost use Rattle.hub_line.specs.Numbers.{IsNext};

    ghost allows = { IsNext };
}

/// The end of a ring at which items are posted, with the number of its next item.
#[derive(Drop)]
pub struct Feed<T> {
    pub(crate) ring: Producer<Numbered<T>, Global, Counted>,
    // Which ring of its line this is.
    pub(crate) place: u64,
    next: u64,
    ghost next_is: { next ≡ length (sent ring) % 2 ^ 64 },
    ghost counted: { AreCounted (sent ring) },
}

impl<T: Drop> Feed<T> {
    ghost use Rattle.std.specs.Prelude.{◌≡◌, ◌<◌, ◌+◌, [], ◌∷◌, ◌++◌, IfOk, IsFalse};
    ghost use Rattle.hub_line.specs.Rings.{fed, given, known, free, IsRing, SameFeed};

    /// The two ends of a new ring, at a place of its line.
    pub(crate) fn open_ring(
        alloc: Global,
        place: u64,
        capacity: usize,
    ) -> Result<(Feed<T>, Source<T>), OutOfMemory>
        ensures ring { IfOk result (λ ends. IsRing ends.0 ends.1) }
        ensures new { IfOk result (λ ends. (fed ends.0 ≡ []) × (given ends.1 ≡ [])
            × (known ends.1 ≡ [])) }
        ensures room { IfOk result (λ ends. free ends.0 ≡ capacity) }
    {
        let (ring, items) = RingBuffer::with_protocol::<Global, Counted>(alloc, capacity)?;
        let feed = Feed {
            ring,
            place,
            next: 0,
        };
        Ok((feed, Source { ring: items, place }))
    }

    /// Whether the ring has no room for an item.
    #[inline]
    pub(crate) fn is_full(&mut self) -> bool
        ensures same { SameFeed self.old self.new × (fed self.new ≡ fed self.old) }
        ensures room { IsFalse result → 0 < free self.new }
    {
        self.ring.is_full()
    }

    /// How many items the ring has room for.
    pub(crate) fn capacity(&self) -> usize {
        self.ring.capacity()
    }

    /// Posts an item, for which there is room.
    #[inline]
    pub(crate) fn push_assuming_room(&mut self, item: T)
        requires { 0 < free self.old }
        ensures same { SameFeed self.old self.new }
        ensures fed { fed self.new ≡ fed self.old ++ item ∷ [] }
    {
        let number = self.next;
        self.ring.push_reserved(Numbered { number, item });
        self.next = number.wrapping_add(1);
    }
}

/// The end of a ring from which items are taken: what was taken has the numbers 0, 1, 2 and so on.
#[derive(Drop)]
pub struct Source<T> {
    pub(crate) ring: Consumer<Numbered<T>, Global, Counted>,
    // Which ring of its line this is.
    pub(crate) place: u64,
    ghost counted: { AreCounted (received ring) },
}

impl<T: Drop> Source<T> {
    ghost use Rattle.std.specs.Prelude.{◌≡◌, ◌<◌, [], ◌∷◌, ◌++◌, length, IsTrue, IsFalse};
    ghost use Rattle.hub_line.specs.Rings.{fed, given, known, IsRing, SameSource, SameFeed};

    /// Whether no item is there.
    #[inline]
    pub(crate) fn is_empty(&mut self) -> bool
        ensures same { SameSource self.old self.new × (given self.new ≡ given self.old) }
        ensures none { IsTrue result → known self.new ≡ [] }
        ensures some { IsFalse result → 0 < length (known self.new) }
    {
        self.ring.is_empty()
    }

    /// Takes the next item, of which it is known that it is there.
    #[inline]
    pub(crate) fn pop_known(&mut self) -> T
        requires { 0 < length (known self.old) }
        ensures same { SameSource self.old self.new }
        ensures given { given self.new ≡ given self.old ++ result ∷ [] }
        ensures known { known self.old ≡ result ∷ known self.new }
    {
        let Numbered { number: _, item } = self.ring.pop_known();
        item
    }

    /// How many items are known to be there.
    pub(crate) fn known_items(&self) -> usize
        ensures { result ≡ length (known self.now) }
    {
        self.ring.cached_slots()
    }

    /// How many items the ring has room for.
    pub(crate) fn capacity(&self) -> usize {
        self.ring.capacity()
    }

    /// How many items are there, for a thread that has both ends.
    pub(crate) fn count_with_feed(&mut self, feed: &mut Feed<T>) -> usize
        requires { IsRing feed.old self.old }
        ensures same { SameSource self.old self.new × (given self.new ≡ given self.old) }
        ensures feed { SameFeed feed.old feed.new × (fed feed.new ≡ fed feed.old) }
        ensures all { given self.new ++ known self.new ≡ fed feed.new }
        ensures value { result ≡ length (known self.new) }
    {
        self.ring.slots_beside(&mut feed.ring)
    }
}

/// How a line goes on.
#[derive(Drop)]
pub enum Track<T> {
    /// Its first ring.
    First(Source<T>),
    /// A ring is over, and the line goes on in the next.
    Onward(Feed<T>, Box<Source<T>>),
    /// The last ring is over.
    End(Feed<T>),
}

/// What a taker knows of what comes after its ring.
#[derive(Drop)]
pub enum Ahead<T> {
    /// Nothing: more may be posted in the ring.
    Open,
    /// The ring is over, and this is the next one.
    Next(Box<Source<T>>),
    /// The ring is over, and it is the last.
    Last,
}

/// A ring is over only as the one in which the line was.
pub struct Chained;

impl<T> Protocol<Track<T>> for Chained {
    ghost use Rattle.hub_line.specs.Tracks.{Follows};

    ghost allows = { Follows };
}
