ghost use Rattle.std.specs.Prelude.{◌≡◌, ◌∷◌, Some, take, None};
ghost use Rattle.hub_queue.specs.Standing.{none_left};
ghost use Rattle.hub_queue.specs.Left.{unrung};

use crate::line_right::LineRight;
use crate::poster::Poster;
use crate::store::Pass;
use hub_gate::{Entry, EntryWitness, KeeperWitness};
use std::marker::Model;

/// What shows the gates that a line left in the last post that went on, the last of them first. It
/// has no bytes, and stands in proofs alone.
pub struct LeftGates {
    last: EntryWitness<LineRight>,
    second: EntryWitness<LineRight>,
    third: EntryWitness<LineRight>,
    fourth: EntryWitness<LineRight>,
}

// By hand, so that whoever drops one makes one call, and its proof has no cases of its fields.
impl Drop for LeftGates {
    fn drop(self) {
        let LeftGates {
            last,
            second,
            third,
            fourth,
        } = self;
        drop(last);
        drop(second);
        drop(third);
        drop(fourth);
    }
}

impl Model for LeftGates {
    ghost use Rattle.std.specs.Prelude.{List, [], ◌∷◌, Option};
    ghost use Rattle.hub_gate.specs.GateSeats.{EntrySeat};
    ghost use Rattle.hub_queue.specs.Seats.{LineSeat};

    ghost Value = { List (Option (EntrySeat LineSeat)) };

    ghost view = { λ g. g.last ∷ g.second ∷ g.third ∷ g.fourth ∷ [] };
}

impl LeftGates {
    /// The line has left no gate.
    pub(crate) fn none() -> LeftGates
        ensures { result ≡ none_left }
    {
        LeftGates {
            last: EntryWitness::none(),
            second: EntryWitness::none(),
            third: EntryWitness::none(),
            fourth: EntryWitness::none(),
        }
    }

    /// The line has left one gate more. Of as many as a post may leave each is kept.
    pub(crate) fn add_left_gate(self, entry: Entry<LineRight>) -> LeftGates
        ensures { result ≡ Some entry ∷ take 3 self }
    {
        let LeftGates {
            last,
            second,
            third,
            fourth: _,
        } = self;
        LeftGates {
            last: entry.into_witness(),
            second: last,
            third: second,
            fourth: third,
        }
    }
}

/// What shows a line that nobody posts over any more, or nothing. It has no bytes, and stands in
/// proofs alone.
pub struct LeftLine {
    entry: EntryWitness<LineRight>,
    left: LeftGates,
}

// By hand, so that whoever drops one makes one call, and its proof has no cases of its fields.
impl Drop for LeftLine {
    fn drop(self) {
        let LeftLine { entry, left } = self;
        drop(entry);
        drop(left);
    }
}

impl Model for LeftLine {
    ghost use Rattle.std.specs.Prelude.{Option};
    ghost use Rattle.hub_queue.specs.Left.{line_shown};
    ghost use Rattle.hub_queue.specs.Standing.{StandSeat};

    ghost Value = { Option StandSeat };

    ghost view = { λ l. line_shown l.entry l.left };
}

impl LeftLine {
    /// It shows nothing.
    pub fn none() -> LeftLine
        ensures { result ≡ None }
    {
        LeftLine {
            entry: EntryWitness::none(),
            left: LeftGates::none(),
        }
    }
}

impl Poster {
    /// What shows the line, over which nobody posts from then on. What its bell has done isn't
    /// shown.
    pub fn into_line_witness(self) -> LeftLine
        ensures { result ≡ Some (unrung self) }
    {
        let Poster { stand } = self;
        let (entry, left) = stand.into_entry_and_left_gates();
        LeftLine {
            entry: entry.into_witness(),
            left,
        }
    }
}

/// What shows a queue that was left: everything that was put there was taken. It has no bytes, and
/// stands in proofs alone: the queue is freed.
#[derive(Drop)]
pub struct LeftQueue {
    pub(crate) pass: Pass,
    pub(crate) gate: KeeperWitness<LineRight>,
}

impl Model for LeftQueue {
    ghost use Rattle.hub_queue.specs.TakerQueues.{TakerQueueSeat, IsQueueSettled};
    ghost use Rattle.hub_queue.specs.Seats.{known_by, take_in};

    ghost Value = { TakerQueueSeat };

    ghost view = { λ q. record {
      queue = q.pass.web;
      at = take_in (known_by q.pass);
      keeper = q.gate;
    } };

    ghost invariant = { λ q. IsQueueSettled (record {
      queue = q.pass.web;
      at = take_in (known_by q.pass);
      keeper = q.gate;
    }) };
}

/// What shows the newest queue of an end that was closed. It has no bytes, and stands in proofs
/// alone: the queue is freed.
#[derive(Drop)]
pub struct ShutQueue {
    pub(crate) pass: Pass,
    pub(crate) gate: KeeperWitness<LineRight>,
}

impl Model for ShutQueue {
    ghost use Rattle.hub_queue.specs.Seats.{known_by, take_in};
    ghost use Rattle.hub_queue.specs.TakerQueues.{TakerQueueSeat};

    ghost Value = { TakerQueueSeat };

    ghost view = { λ q. record {
      queue = q.pass.web;
      at = take_in (known_by q.pass);
      keeper = q.gate;
    } };
}
