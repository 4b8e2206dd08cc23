//! What is known where both ends of a line are at hand.
ghost use Rattle.std.specs.Prelude.{◌≡◌, ◌≢◌, ◌++◌, [], List, length, IfSome, None};
ghost use Rattle.rtrb.specs.Ring.{sent, received, IsPair, SameProducer, SameConsumer};
ghost use Rattle.hub_line.specs.Rings.{given, known};
ghost use Rattle.hub_line.specs.Tracks.{in_use, posted_of, Stands};
ghost use Rattle.hub_line.specs.Reach.{HasReached, IsAt, taken_of};
ghost use Rattle.hub_line.specs.declared.ring.Ahead.TheVariants.{Open};

use crate::poster::LinePoster;
use crate::ring::{Ahead, Chained, Feed, Source, Track};
use crate::taker::{LineTaker, poll_next_ring_or_end};
use rtrb::{Consumer, Producer};
use std::alloc::Global;

/// What waits in the ring in use, which is the taker's.
fn count_waiting_in_ring<T: Drop>(
    source: &mut Source<T>,
    feed: &mut Option<Feed<T>>,
    tracks: &Consumer<Track<T>, Global, Chained>,
    rail: &Producer<Track<T>, Global, Chained>,
) -> usize
    requires at { IsAt source.old (received tracks.now) }
    requires all { received tracks.now ≡ sent rail.now }
    requires stands { Stands feed.old rail.now }
    ensures at { IsAt source.new (received tracks.now) × (given source.new ≡ given source.old) }
    ensures stands { Stands feed.new rail.now × (in_use feed.new ≡ in_use feed.old) }
    ensures waits { (given source.new ++ known source.new ≡ in_use feed.new)
        × (result ≡ length (known source.new)) }
{
    let Some(used) = feed else {
        unreachable!();
    };
    source.count_with_feed(used)
}

/// What waits in a line of which both ends are at hand.
fn count_waiting_unless_in_several_rings<T: Drop>(
    source: &mut Source<T>,
    tracks: &mut Consumer<Track<T>, Global, Chained>,
    ahead: &mut Ahead<T>,
    feed: &mut Option<Feed<T>>,
    rail: &mut Producer<Track<T>, Global, Chained>,
) -> Option<usize>
    requires reached { HasReached source.old ahead.old (received tracks.old) }
    requires stands { Stands feed.old rail.old }
    requires line { IsPair rail.old tracks.old }
    ensures reached { HasReached source.new ahead.new (received tracks.new) }
    ensures stands { Stands feed.new rail.new }
    ensures line { SameConsumer tracks.old tracks.new × SameProducer rail.old rail.new }
    ensures taken { taken_of source.new ahead.new (received tracks.new)
        ≡ taken_of source.old ahead.old (received tracks.old) }
    ensures posted { posted_of feed.new rail.new ≡ posted_of feed.old rail.old }
    ensures waits { (left : List T)
        × (taken_of source.new ahead.new (received tracks.new) ++ left
        ≡ posted_of feed.new rail.new) × IfSome result (λ n. n ≡ length left) }
    ensures none { result ≡ None → ahead.new ≡ Open → ⊥ }
{
    tracks.slots_beside(rail);
    if let Ahead::Open = ahead {
        *ahead = poll_next_ring_or_end(source, tracks);
    }
    tracks.slots_beside(rail);
    match ahead {
        Ahead::Open => Some(count_waiting_in_ring(source, feed, tracks, rail)),
        Ahead::Next(_) => None,
        Ahead::Last => None,
    }
}

impl<T: Drop> LineTaker<T> {
    ghost use Rattle.std.specs.Prelude.{◌≡◌, ◌++◌, List, length, IfSome, None};
    ghost use Rattle.hub_line.specs.Ends.{posted, taken, IsLine, KnowsItsRingOver, SamePoster};
    ghost use Rattle.hub_line.specs.Ends.{SameTaker};

    /// How many items wait, for a thread that has both ends: what was taken, followed by what
    /// waits, is what was posted. `None` where they may wait in more than one ring.
    pub fn count_waiting_between_poster_and_taker(
        &mut self,
        poster: &mut LinePoster<T>,
    ) -> Option<usize>
        requires { IsLine poster.old self.old }
        ensures taker { SameTaker self.old self.new × (taken self.new ≡ taken self.old) }
        ensures poster { SamePoster poster.old poster.new
            × (posted poster.new ≡ posted poster.old) }
        ensures waits { (left : List T) × (taken self.new ++ left ≡ posted poster.new)
            × IfSome result (λ n. n ≡ length left) }
        ensures none { result ≡ None → KnowsItsRingOver self.new }
        ensures others { (self.new.told ≡ self.old.told) × (self.new.empties ≡ self.old.empties) }
    {
        count_waiting_unless_in_several_rings(
            &mut self.source,
            &mut self.rail,
            &mut self.ahead,
            &mut poster.feed,
            &mut poster.rail,
        )
    }
}
