//! The end of a line that takes.
ghost use Rattle.std.specs.Prelude.{◌≡◌, [], ◌++◌, IsTrue, IsFalse};
ghost use Rattle.rtrb.specs.Ring.{received, known_items, SameConsumer};
ghost use Rattle.hub_line.specs.Rings.{given, known};
ghost use Rattle.hub_line.specs.Tracks.{settled};
ghost use Rattle.hub_line.specs.Reach.{HasReached, HasTakenAll, IsAt, KnowsOfNone, reach_prop};
ghost use Rattle.hub_line.specs.Reach.{taken_of};
ghost use Rattle.hub_line.specs.Taking.{Took};
ghost use Rattle.hub_line.specs.declared.taker.LineTaken.TheVariants.{Empty, Ended};
ghost use Rattle.hub_line.specs.declared.ring.Ahead.TheVariants.{Open, Next};

use crate::line::{CLOSED, LineGrave};
use crate::poster::KEPT;
use crate::ring::{Ahead, Chained, Source, Track};
use rtrb::Consumer;
use std::alloc::Global;
use std::mem;
use std::sync::Arc;
use std::sync::atomic::{AtomicU64, Ordering};

/// What a take comes to.
#[derive(Drop)]
pub enum LineTaken<T> {
    Item(T),
    /// Nothing is left of what was posted.
    Empty,
    /// Nothing is left, and nothing more will come.
    Ended,
}

/// Takes from one poster. Dropped, it closes the line.
pub struct LineTaker<T> {
    pub(crate) source: Source<T>,
    pub(crate) rail: Consumer<Track<T>, Global, Chained>,
    pub(crate) ahead: Ahead<T>,
    pub(crate) notices: Arc<AtomicU64>,
    pub(crate) told: u64,
    // How many looks have found nothing.
    pub(crate) empties: u64,
    ghost reached: { HasReached source ahead (received rail) } by { reach_prop T.code source _ _ },
}

/// What is heard of how the line goes on.
#[cold]
pub(crate) fn poll_next_ring_or_end<T: Drop>(
    source: &mut Source<T>,
    rail: &mut Consumer<Track<T>, Global, Chained>,
) -> Ahead<T>
    requires { IsAt source.old (received rail.old) }
    ensures reached { HasReached source.new result (received rail.new) }
    ensures open { result ≡ Open → (source.new ≡ source.old)
        × (received rail.new ≡ received rail.old) × (known_items rail.old ≡ []) }
    ensures rail { SameConsumer rail.old rail.new }
    ensures same { taken_of source.new result (received rail.new)
        ≡ settled (received rail.old) ++ given source.old }
{
    let Ok(track) = rail.pop() else {
        return Ahead::Open;
    };
    match track {
        Track::First(_) => unreachable!(),
        Track::Onward(mut over, next) => {
            source.count_with_feed(&mut over);
            Ahead::Next(next)
        }
        Track::End(mut over) => {
            source.count_with_feed(&mut over);
            Ahead::Last
        }
    }
}

/// Leaves a ring of which all was taken for the next one.
#[cold]
fn move_to_next_ring<T: Drop>(
    source: &mut Source<T>,
    next: Box<Source<T>>,
    rail: &Consumer<Track<T>, Global, Chained>,
)
    requires reached { HasReached source.old (Next next) (received rail.now) }
    requires none { known source.old ≡ [] }
    ensures at { IsAt source.new (received rail.now) }
    ensures same { taken_of source.new Open (received rail.now)
        ≡ taken_of source.old (Next next) (received rail.now) }
{
    *source = Box::into_inner(next);
}

/// Whether something can be taken: an item of the ring, or the end.
#[inline]
fn advance_to_item_or_end<T: Drop>(
    source: &mut Source<T>,
    rail: &mut Consumer<Track<T>, Global, Chained>,
    ahead: &mut Ahead<T>,
) -> bool
    requires { HasReached source.old ahead.old (received rail.old) }
    ensures reached { HasReached source.new ahead.new (received rail.new) }
    ensures rail { SameConsumer rail.old rail.new }
    ensures same { taken_of source.new ahead.new (received rail.new)
        ≡ taken_of source.old ahead.old (received rail.old) }
    ensures none { IsFalse result → KnowsOfNone source.new ahead.new }
    ensures ended { IsTrue result → known source.new ≡ [] →
        HasTakenAll source.new ahead.new (received rail.new) }
{
    if let Ahead::Open = ahead {
        if !source.is_empty() {
            return true;
        }
        *ahead = poll_next_ring_or_end(source, rail);
    }
    if source.known_items() > 0 {
        return true;
    }
    match mem::replace(ahead, Ahead::Open) {
        Ahead::Open => false,
        Ahead::Next(next) => {
            move_to_next_ring(source, next, rail);
            !source.is_empty()
        }
        Ahead::Last => {
            *ahead = Ahead::Last;
            true
        }
    }
}

/// Takes the next item, wherever the line has it.
#[inline(always)]
fn take_next_item<T: Drop>(
    source: &mut Source<T>,
    rail: &mut Consumer<Track<T>, Global, Chained>,
    ahead: &mut Ahead<T>,
) -> LineTaken<T>
    requires { HasReached source.old ahead.old (received rail.old) }
    ensures reached { HasReached source.new ahead.new (received rail.new) }
    ensures rail { SameConsumer rail.old rail.new }
    ensures took { Took (taken_of source.old ahead.old (received rail.old)) result
        (taken_of source.new ahead.new (received rail.new)) }
    ensures empty { result ≡ Empty → KnowsOfNone source.new ahead.new }
    ensures ended { result ≡ Ended → HasTakenAll source.new ahead.new (received rail.new) }
{
    if !advance_to_item_or_end(source, rail, ahead) {
        return LineTaken::Empty;
    }
    if source.known_items() == 0 {
        return LineTaken::Ended;
    }
    LineTaken::Item(source.pop_known())
}

impl<T: Drop> LineTaker<T> {
    ghost use Rattle.std.specs.Prelude.{◌≡◌, IsTrue, IsFalse};
    ghost use Rattle.hub_line.specs.Taking.{Took};
    ghost use Rattle.hub_line.specs.Ends.{empties_after, taken, HasEnded, HasLooked, HasNoneLeft};
    ghost use Rattle.hub_line.specs.Ends.{HasSome, IsInOrder, IsShut, SameTaker};
    ghost use Rattle.hub_line.specs.declared.taker.LineTaken.TheVariants.{Empty, Ended};

    /// Takes the next item.
    #[inline(always)]
    pub fn take(&mut self) -> LineTaken<T>
        ensures line { SameTaker self.old self.new }
        ensures took { Took (taken self.old) result (taken self.new) }
        ensures empty { result ≡ Empty → HasNoneLeft self.new }
        ensures empties { self.new.empties ≡ empties_after result self.old.empties }
        ensures ended { result ≡ Ended → HasEnded self.new }
        ensures order { IsInOrder self.new }
        ensures shut { IsShut self.old → IsShut self.new }
    {
        let taken = self.take_without_telling_poster();
        if matches!(taken, LineTaken::Empty) {
            self.notify_poster_of_empty_ring();
        }
        taken
    }

    /// Whether something can be taken: an item, or the end.
    pub fn has_item_or_end(&mut self) -> bool
        ensures line { SameTaker self.old self.new }
        ensures same { taken self.new ≡ taken self.old }
        ensures some { IsTrue result → HasSome self.new × (self.new.empties ≡ self.old.empties) }
        ensures empty { IsFalse result → HasNoneLeft self.new × HasLooked self.old self.new }
        ensures told { self.new.told ≡ self.old.told }
    {
        let some = advance_to_item_or_end(&mut self.source, &mut self.rail, &mut self.ahead);
        if !some {
            self.empties = self.empties.wrapping_add(1);
        }
        some
    }

    /// Takes the next item, and tells the poster nothing.
    #[inline(always)]
    pub(crate) fn take_without_telling_poster(&mut self) -> LineTaken<T>
        ensures line { SameTaker self.old self.new }
        ensures took { Took (taken self.old) result (taken self.new) }
        ensures empty { result ≡ Empty → HasNoneLeft self.new }
        ensures empties { self.new.empties ≡ empties_after result self.old.empties }
        ensures ended { result ≡ Ended → HasEnded self.new }
        ensures order { IsInOrder self.new }
        ensures told { self.new.told ≡ self.old.told }
    {
        let taken = take_next_item(&mut self.source, &mut self.rail, &mut self.ahead);
        if matches!(taken, LineTaken::Empty) {
            self.empties = self.empties.wrapping_add(1);
        }
        taken
    }

    /// Tells the poster, once a ring, that a large ring was found empty.
    #[inline]
    fn notify_poster_of_empty_ring(&mut self)
        ensures same { (self.new.source ≡ self.old.source) × (self.new.rail ≡ self.old.rail)
            × (self.new.ahead ≡ self.old.ahead) × (self.new.empties ≡ self.old.empties) }
        ensures shut { IsShut self.old → IsShut self.new }
    {
        let place = self.source.place;
        if self.source.capacity() > KEPT && self.told != place && self.told != CLOSED {
            self.told = place;
            self.notices.store(place, Ordering::SeqCst);
        }
    }
}

impl<T: Drop> LineTaker<T> {
    ghost use Rattle.std.specs.Prelude.{◌≡◌};
    ghost use Rattle.hub_line.specs.Ends.{taken, IsShut, SameTaker};

    /// Closes the line: the poster's next call finds that, and sends what it has posted and the
    /// end. What comes until then is handed back by the grave.
    pub fn close(self) -> LineGrave<T>
        ensures { SameTaker self result.taker × (taken result.taker ≡ taken self) }
    {
        let mut taker = self;
        taker.close_and_keep_taking();
        LineGrave { taker }
    }

    /// Closes the line as `close` does, and leaves what comes until the end to `take`.
    pub fn close_and_keep_taking(&mut self)
        ensures line { SameTaker self.old self.new × (taken self.new ≡ taken self.old) }
        ensures shut { IsShut self.new }
        ensures empties { self.new.empties ≡ self.old.empties }
    {
        self.told = CLOSED;
        self.notices.store(CLOSED, Ordering::SeqCst);
    }
}

impl<T: Drop> Drop for LineTaker<T> {
    fn drop(self) {
        let LineTaker {
            source: _,
            rail: _,
            ahead: _,
            notices,
            told: _,
            empties: _,
        } = self;
        notices.store(CLOSED, Ordering::SeqCst);
    }
}
