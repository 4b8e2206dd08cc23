//! The points of a post, at which a test may hold it up.

ghost use Rattle.std.specs.Prelude.{◌≡◌};
ghost use Rattle.hub_queue.specs.Counting.{pop_counted};

use hub_locked::Hears;
use std::marker::Model;
use std::sync::Wait;
use std::sync::ledger::{Blank, Book, Ledger, Share};

/// Where a post may be held up, in the order in which it comes there.
#[derive(Clone, Copy, Debug, PartialEq, Eq)]
pub enum Point {
    /// Before it enters the gate.
    Before,
    /// Inside, before it puts its draft.
    Inside,
    /// Inside, before it leaves.
    Pushed,
    /// After it was turned at a retired queue, before the yard is asked for the next one.
    Hopping,
}

/// What is done at each point of a post.
pub trait Pause {
    /// Is called at that point, by the thread that posts. It may wait.
    fn at<R: Wait>(&self, rt: &R, point: Point);
}

/// The pause that does nothing.
pub struct NoPause;

impl Pause for NoPause {
    fn at<R: Wait>(&self, _rt: &R, _point: Point) {}
}

/// A pause, which hears of the points to which a post comes. It shows nothing, since a pause is
/// shared.
#[derive(Drop)]
pub(crate) struct PauseHearer<'p, P>(pub(crate) &'p P);

impl<P: Pause> Hears<Point> for PauseHearer<'_, P> {
    ghost use Rattle.std.specs.Prelude.{None};

    ghost told = { λ _. None };

    fn tell_done<R: Wait>(&mut self, rt: &R, done: Point) {
        self.0.at(rt, done);
    }
}

/// The count of pops, and of those that found none. It stands in proofs alone and has no bytes: by
/// it a contract says that one pop was made in a call, and what it found.
#[derive(Drop)]
pub struct Steps<L: Ledger> {
    book: Book<L>,
    pops: Share<L>,
    none: Share<L>,
}

impl<L: Ledger> Model for Steps<L> {
    ghost use Rattle.std.specs.Prelude.{◌≡◌};
    ghost use Rattle.hub_queue.specs.Counting.{Count};

    ghost Value = { Count };

    ghost view = { λ s. record { pops = s.pops.amount; none = s.none.amount } };

    ghost invariant = { λ s. (s.pops.parts ≡ 1) × (s.none.parts ≡ 1) };
}

impl<L: Ledger> Steps<L> {
    /// A count that begins at none. The ledger has two parts, one for each number.
    pub fn new_at_zero(blank: Blank) -> Steps<L>
        requires name { blank.name ≡ L.name }
        requires parts { (blank.parts ≡ L.parts) × (L.parts ≡ 2) }
        ensures { result ≡ record { pops = 0; none = 0 } }
    {
        let (book, mut pops) = blank.open::<L>();
        let none = pops.split_off(1, 0);
        Steps { book, pops, none }
    }

    /// Counts one pop. It is called where a pop is made, and nowhere else.
    pub(crate) fn count_pop(&mut self, found_none: bool)
        ensures { self.new ≡ pop_counted self.old found_none }
    {
        self.book.add(&mut self.pops, 1);
        if found_none {
            self.book.add(&mut self.none, 1);
        }
    }
}
