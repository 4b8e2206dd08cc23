ghost use Rattle.std.specs.Prelude.{◌≡◌, []};
ghost use Rattle.hub_gate.specs.declared.view.View.TheVariants.{LineOut, LineTurned};
ghost use Rattle.hub_core.specs.GateMachine as machine;
ghost use Rattle.hub_gate.specs.GatePlays.{Happens, turned_line};
ghost use Rattle.hub_gate.specs.GateSeats.{IsSeatOf, line_in};

use crate::gate::{GateSeat, GateSteps, GateTable, Right};
use crate::plays::{Enter, Leave, TurnBack};
use crate::view::EntryWitness;
use crate::word::{ONE_LINE, has_closed_flag, has_enabled_flag, has_moved_flag};
use std::marker::Model;
use std::sync::Arc;

/// Why a gate let nobody in.
#[derive(Clone, Copy, Debug, PartialEq, Eq, Drop)]
pub enum Refusal {
    /// The gate was retired.
    Moved,
    /// The gate was closed, and not retired.
    Closed,
}

/// What became of an entry.
pub enum Entered<T: Right> {
    /// The line is inside, with its right.
    In(Inside<T>),
    /// The line is out again, since the word that was found had this flag.
    Turned(Entry<T>, Refusal),
}

/// A line that is out of its gate. Dropped, it stays out for good.
#[derive(Drop)]
pub struct Entry<T: Right> {
    pub(crate) table: Arc<GateTable<T>>,
    pub(crate) seat: GateSeat<T>,
    pub(crate) line: usize,
}

impl<T: Right> Model for Entry<T> {
    ghost use Rattle.std.specs.Prelude.{◌≡◌, []};
    ghost use Rattle.std.specs.Arc.{arc_value};
    ghost use Rattle.hub_gate.specs.declared.view.View.TheVariants.{LineOut};
    ghost use Rattle.hub_gate.specs.GateSeats.{EntrySeat, IsSeatOf, line_in};

    ghost Value = { EntrySeat T };

    ghost view = { λ e. record { gate = e.seat.table_id; at = line_in e.seat.me.0 } };

    ghost invariant = { λ e. IsSeatOf (arc_value e.table).shared.table_id e.seat.table_id
        × (e.seat.me ≡ (LineOut (line_in e.seat.me.0), []))
        × (e.line ≡ (line_in e.seat.me.0).line) };
}

/// Takes a line that was turned back off the word.
fn remove_line_turned_back_from_word<T: Right>(steps: &GateSteps<T>, seat: &mut GateSeat<T>)
    requires table { IsSeatOf steps.now.table_id seat.old.table_id }
    requires turned { seat.old.me ≡ (LineTurned (line_in seat.old.me.0), []) }
    ensures stays { seat.new.table_id ≡ seat.old.table_id }
    ensures out { seat.new.me
        ≡ (LineOut (turned_line (line_in seat.old.me.0) (line_in seat.new.me.0).left), []) }
    ensures step { Happens T.tag (line_in seat.new.me.0).left
        (machine.turn_back (line_in seat.old.me.0).line) machine.says_done }
{
    steps.fetch_sub::<TurnBack<T>>(seat, 0, ONE_LINE);
}

impl<T: Right> Entry<T> {
    ghost use Rattle.std.specs.Prelude.{Some};
    ghost use Rattle.hub_gate.specs.Entering.{IsEntered};

    /// What shows the line, which never comes back to this gate.
    pub fn into_witness(self) -> EntryWitness<T>
        ensures { result ≡ Some self }
    {
        let Entry { seat, .. } = self;
        EntryWitness {
            badge: seat.into_badge(),
        }
    }

    /// Goes in, unless the gate was retired, which comes first, or closed. A line that is let in
    /// makes one step on the word; a line that is turned makes two, and is out again.
    pub fn enter(self) -> Entered<T>
        ensures { IsEntered T.tag self result }
    {
        let Entry {
            table,
            mut seat,
            line,
        } = self;
        let word = table.shared.fetch_add::<Enter<T>>(&mut seat, 0, ONE_LINE);
        if has_moved_flag(word) {
            remove_line_turned_back_from_word(&table.shared, &mut seat);
            return Entered::Turned(Entry { table, seat, line }, Refusal::Moved);
        }
        if has_closed_flag(word) {
            remove_line_turned_back_from_word(&table.shared, &mut seat);
            return Entered::Turned(Entry { table, seat, line }, Refusal::Closed);
        }
        let right = table.shared.exchange(&mut seat, line, None).unwrap();
        Entered::In(Inside {
            table,
            seat,
            line,
            right,
        })
    }
}

/// A line that is inside its gate, with its right. The value isn't `Drop`: the line has to leave.
pub struct Inside<T: Right> {
    pub(crate) table: Arc<GateTable<T>>,
    pub(crate) seat: GateSeat<T>,
    pub(crate) line: usize,
    pub(crate) right: T,
}

impl<T: Right> Model for Inside<T> {
    ghost use Rattle.std.specs.Prelude.{◌≡◌, [], ◌∷◌, None};
    ghost use Rattle.std.specs.Arc.{arc_value};
    ghost use Rattle.hub_gate.specs.declared.view.View.TheVariants.{LineInside};
    ghost use Rattle.hub_gate.specs.GateSeats.{InsideSeat, IsSeatOf, line_in};

    ghost Value = { InsideSeat T };

    ghost view = { λ e.
        record { gate = e.seat.table_id; at = line_in e.seat.me.0; right = e.right } };

    ghost invariant = { λ e. IsSeatOf (arc_value e.table).shared.table_id e.seat.table_id
        × (e.seat.me ≡ (LineInside (line_in e.seat.me.0), (e.line, None) ∷ []))
        × (e.line ≡ (line_in e.seat.me.0).line) };
}

impl<T: Right> Inside<T> {
    ghost use Rattle.std.specs.Borrow.{Lends, sem};
    ghost use Rattle.hub_gate.specs.contracts.entry.Inside.{the_row};
    ghost use Rattle.hub_gate.specs.Entering.{IsLetOut, left_seat};
    ghost use Rattle.hub_gate.specs.GateSeats.{with_right};

    /// Lends the right, which is to have its tag again when the line leaves.
    pub fn right_mut(&mut self) -> &mut T
        ensures* lends { sem 𝓛
            (Lends (the_row T.row ⟦<T as Right>⟧) T.row self.entry result (with_right self.old)) }
        ensures value { result.now ≡ self.old.right }
    {
        &mut self.right
    }

    /// Leaves with the right, which must have its tag, and says whether the word that was found
    /// had the flag ENABLED. The right is at home until the line enters again, and comes back as it
    /// was left. It is one step on the word.
    pub fn leave(self) -> (Entry<T>, bool)
        requires { T.tag self.right ≡ self.at.tag }
        ensures entry { result.0 ≡ left_seat self result.0.at.left }
        ensures step { IsLetOut T.tag self result.0.at.left result.1 }
    {
        let Inside {
            table,
            mut seat,
            line,
            right,
        } = self;
        table.shared.exchange(&mut seat, line, Some(right));
        let word = table.shared.fetch_sub::<Leave<T>>(&mut seat, 0, ONE_LINE);
        (Entry { table, seat, line }, has_enabled_flag(word))
    }
}
