//! A line: how it is opened, what its taker tells its poster, and what is left once it is closed.
ghost use Rattle.std.specs.Prelude.{◌≡◌, [], IfOk};
ghost use Rattle.hub_line.specs.Ends.{posted, taken, IsLine, IsShut};

use crate::OutOfMemory;
use crate::poster::{FIRST, LinePoster, RAIL};
use crate::ring::{Ahead, Chained, Feed, Track};
use crate::taker::{LineTaken, LineTaker};
use rtrb::RingBuffer;
use std::alloc::Global;
use std::sync::Arc;
use std::sync::atomic::AtomicU64;

/// What the taker tells its poster, in a word that only the taker writes: the line is closed.
pub(crate) const CLOSED: u64 = u64::MAX;

/// Nothing was told. Any other word is the place of a ring that the taker has found empty.
pub(crate) const NOTHING: u64 = 0;

/// The taker of a line that it has closed: it hands back what was posted and not taken, up to the
/// end. Dropped before that, it discards the rest.
#[derive(Drop)]
pub struct LineGrave<T> {
    pub(crate) taker: LineTaker<T>,
    ghost shut: { IsShut taker },
}

/// The two ends of a new line, over which nothing was sent.
pub fn open_line<T: Drop>(alloc: Global) -> Result<(LinePoster<T>, LineTaker<T>), OutOfMemory>
    ensures line { IfOk result (λ ends. IsLine ends.0 ends.1) }
    ensures new { IfOk result (λ ends. (posted ends.0 ≡ []) × (taken ends.1 ≡ [])) }
{
    let (feed, first) = Feed::open_ring(alloc, 1, FIRST)?;
    let (mut rail, mut tracks) = RingBuffer::with_protocol::<Global, Chained>(alloc, RAIL)?;
    let notices = Arc::new(alloc, AtomicU64::new(NOTHING))?;
    let heard = Arc::try_clone(&notices)?;
    rail.push_reserved(Track::First(first));
    tracks.slots_beside(&mut rail);
    let Track::First(source) = tracks.pop_known() else {
        unreachable!();
    };
    let poster = LinePoster {
        feed: Some(feed),
        rail,
        notices: heard,
        heeded: NOTHING,
        alloc,
    };
    let taker = LineTaker {
        source,
        rail: tracks,
        ahead: Ahead::Open,
        notices,
        told: NOTHING,
        empties: 0,
    };
    Ok((poster, taker))
}

impl<T: Drop> LineGrave<T> {
    ghost use Rattle.std.specs.Prelude.{◌≡◌};
    ghost use Rattle.hub_line.specs.Taking.{Took};
    ghost use Rattle.hub_line.specs.Ends.{empties_after, taken, HasEnded, HasNoneLeft, IsInOrder};
    ghost use Rattle.hub_line.specs.Ends.{SameTaker};
    ghost use Rattle.hub_line.specs.declared.taker.LineTaken.TheVariants.{Empty, Ended};

    /// Hands back the next item. `Empty` says that the poster has made no call since the line was
    /// closed; after `Ended`, what was taken and what was handed back are all that was ever posted.
    pub fn take_leftover(&mut self) -> LineTaken<T>
        ensures line { SameTaker self.old.taker self.new.taker }
        ensures took { Took (taken self.old.taker) result (taken self.new.taker) }
        ensures empty { result ≡ Empty → HasNoneLeft self.new.taker }
        ensures empties { self.new.taker.empties ≡ empties_after result self.old.taker.empties }
        ensures ended { result ≡ Ended → HasEnded self.new.taker }
        ensures order { IsInOrder self.new.taker }
    {
        self.taker.take_without_telling_poster()
    }
}
