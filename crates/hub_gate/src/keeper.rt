ghost use Rattle.std.specs.Prelude.{◌≡◌, ℕ, ◌≤◌, [], Some, map, length, nat_lt, vec_capacity};
ghost use Rattle.hub_gate.specs.declared.view.View.TheVariants.{Keeping};
ghost use Rattle.hub_gate.specs.GatePlays.{SetsFlag};
ghost use Rattle.hub_gate.specs.GateSeats.{IsSeatOf, keeper_in};
ghost use Rattle.hub_gate.specs.Taking.{numbered, values_in};
ghost use Rattle.std.specs.Slots.{IsFull};

use crate::gate::{GateSeat, GateSteps, GateTable, Right};
use crate::plays::{Look, SetFlag};
use crate::view::KeeperWitness;
use crate::word::{Flag, has_moved_or_closed_flag, inside_line_count};
use atomic_table::Closed;
use std::alloc::Global;
use std::fmt;
use std::marker::Model;
use std::sync::Arc;

/// What the keeper of a gate finds.
#[derive(Drop)]
pub enum Looked<T> {
    /// The gate is neither retired nor closed.
    Open,
    /// So many lines are inside or being turned back.
    StillInside(u8),
    /// The rights of all lines, in the order of the lines. A keeper gets them once.
    Rights(Vec<T>),
    /// The rights were given before.
    Given,
}

/// Whoever has the keeper sets the gate's flags, and gets the rights of all lines in the end.
#[derive(Drop)]
pub struct Keeper<T: Right> {
    pub(crate) table: Arc<GateTable<T>>,
    pub(crate) seat: GateSeat<T>,
    /// Whether `enable` was called.
    pub(crate) enabled: bool,
    /// An empty list with room for all rights, until a look gives the rights in it.
    pub(crate) rights: Option<Vec<T>>,
}

impl<T: Right> Model for Keeper<T> {
    ghost use Rattle.std.specs.Prelude.{◌≡◌, ◌≤◌, [], length, nat_lt, true, false, MatchOption};
    ghost use Rattle.std.specs.Prelude.{vec_capacity};
    ghost use Rattle.std.specs.Arc.{arc_value};
    ghost use Rattle.hub_gate.specs.declared.view.View.TheVariants.{Keeping};
    ghost use Rattle.hub_gate.specs.GateSeats.{IsSeatOf, KeeperSeat, keeper_in};

    ghost Value = { KeeperSeat T };

    ghost view = { λ k. record { gate = k.seat.table_id; at = keeper_in k.seat.me.0 } };

    ghost invariant = { λ k. IsSeatOf (arc_value k.table).shared.table_id k.seat.table_id
        × (k.seat.table_id.slots ≡ length (keeper_in k.seat.me.0).tags)
        × (k.seat.me.0 ≡ Keeping (keeper_in k.seat.me.0))
        × (k.enabled ≡ nat_lt 0 (keeper_in k.seat.me.0).enables)
        × MatchOption k.rights ((keeper_in k.seat.me.0).collected ≡ true) (λ list.
        ((keeper_in k.seat.me.0).collected ≡ false)
        × (list.items ≡ []) × (length (keeper_in k.seat.me.0).tags ≤ vec_capacity list)
        × (k.seat.me.1 ≡ [])) };
}

/// Takes the right out of each slot, where the seat has all slots in hand, in order.
fn collect_rights_from_slots<T: Right>(
    slots: &GateSteps<T>,
    seat: &mut GateSeat<T>,
    rights: &mut Vec<T>,
    count: usize,
)
    requires here { seat.old.table_id ≡ slots.now.table_id }
    requires held { seat.old.me.1 ≡ numbered 0 (map Some (values_in seat.old.me.1)) }
    requires room { (rights.old.items ≡ []) × (count ≤ vec_capacity rights.old) }
    requires count { count ≡ length (values_in seat.old.me.1) }
    ensures stays { (seat.new.table_id ≡ seat.old.table_id) × (seat.new.me.0 ≡ seat.old.me.0) }
    ensures taken { rights.new.items ≡ values_in seat.old.me.1 }
{
    for line in 0..count {
        let right = slots.exchange(seat, line, None).unwrap();
        rights.push_reserved(right);
        seat.turn();
    }
}

/// Frees a table that nobody has any more, with what is left in its slots.
fn free_unshared_table<T: Right>(mut closed: Closed<Option<T>, Global>)
    requires { IsFull closed.slots }
{
    for slot in 0..closed.slot_count() {
        drop(closed.take(slot));
    }
    closed.free();
}

/// Sets a flag of the word, which is one step of the keeper's seat.
fn set_flag<T: Right>(steps: &GateSteps<T>, seat: &mut GateSeat<T>, flag: Flag)
    requires table { IsSeatOf steps.now.table_id seat.old.table_id }
    requires keeper { seat.old.me.0 ≡ Keeping (keeper_in seat.old.me.0) }
    ensures stays { seat.new.table_id ≡ seat.old.table_id }
    ensures set { (word : ℕ) × SetsFlag T.tag flag seat.old.me word seat.new.me }
{
    steps.fetch_or::<SetFlag<T>>(seat, 0, flag.bit());
}

impl<T: Right> Keeper<T> {
    ghost use Rattle.hub_core.specs.GateMachine as machine;
    ghost use Rattle.hub_gate.specs.GatePlays.{TakesStep};
    ghost use Rattle.hub_gate.specs.GateSeats.{flagged_seat};
    ghost use Rattle.hub_gate.specs.Looking.{IsLooked};

    /// Sets the flag ENABLED. It is one step on the word.
    pub fn enable(&mut self)
        ensures keeper { self.new ≡ flagged_seat Flag.Enabled self.old }
        ensures step { TakesStep T.tag self.old self.new machine.enable machine.says_done }
    {
        set_flag(&self.table.shared, &mut self.seat, Flag::Enabled);
        self.enabled = true;
    }

    /// Sets the flag MOVED: every later entry is turned with `Moved`. It is one step on the word.
    pub fn retire(&mut self)
        ensures keeper { self.new ≡ flagged_seat Flag.Moved self.old }
        ensures step { TakesStep T.tag self.old self.new machine.retire machine.says_done }
    {
        set_flag(&self.table.shared, &mut self.seat, Flag::Moved);
    }

    /// Sets the flag CLOSED: every later entry is turned. It is one step on the word.
    pub fn close(&mut self)
        ensures keeper { self.new ≡ flagged_seat Flag.Closed self.old }
        ensures step { TakesStep T.tag self.old self.new machine.close machine.says_done }
    {
        set_flag(&self.table.shared, &mut self.seat, Flag::Closed);
    }

    /// Whether `enable` was called. It is no step on the word.
    pub fn enabled(&self) -> bool
        ensures { result ≡ nat_lt 0 self.now.at.enables }
    {
        self.enabled
    }

    /// Looks at the word, which is one step. Where the gate was retired or closed, and nobody is
    /// inside or being turned back, it gives the rights of all lines, once.
    pub fn look(&mut self) -> Looked<T>
        ensures { IsLooked T.tag self.old self.new result }
    {
        let table = &self.table;
        let word = table.shared.load::<Look<T>>(&mut self.seat, 0);
        if self.rights.is_none() {
            return Looked::Given;
        }
        if !has_moved_or_closed_flag(word) {
            return Looked::Open;
        }
        let count = inside_line_count(word);
        if count > 0 {
            return Looked::StillInside(count as u8);
        }
        let mut rights = self.rights.take().unwrap();
        let lines = table.slot_count();
        collect_rights_from_slots(&table.shared, &mut self.seat, &mut rights, lines);
        Looked::Rights(rights)
    }
}

impl<T: Right> Keeper<T> {
    ghost use Rattle.std.specs.Prelude.{IfOk, IfErr};
    ghost use Rattle.hub_gate.specs.LastWord.{IsLastWord};

    /// The last word of the gate, where no line has its entry any more: it is taken apart, and the
    /// rights that are at home are dropped. Else the keeper comes back.
    pub fn try_into_last_gate_word(self) -> Result<u64, Keeper<T>>
        ensures last { IfOk result (IsLastWord self.at) }
        ensures back { IfErr result (λ keeper. keeper ≡ self) }
    {
        let Keeper {
            table,
            seat,
            enabled,
            rights,
        } = self;
        match Arc::try_unwrap(table) {
            Ok(table) => {
                let closed = table.close_with(seat);
                let word = closed.word(0);
                free_unshared_table(closed);
                Ok(word)
            }
            Err(table) => Err(Keeper {
                table,
                seat,
                enabled,
                rights,
            }),
        }
    }

    /// What shows the gate, which nobody keeps from then on.
    pub fn into_witness(self) -> KeeperWitness<T>
        ensures { result ≡ self }
    {
        let Keeper { seat, .. } = self;
        KeeperWitness { seat }
    }
}

/// Shows the word as it is at that moment. It is no step on the word, and tells nothing of what
/// comes after.
impl<T: Right> fmt::Debug for Keeper<T> {
    fn fmt<W: fmt::Write>(&self, f: &mut fmt::Formatter<W>) -> fmt::Result {
        let word = self.table.shared.peek(0);
        write!(f, "Keeper {{ word: {word} }}")
    }
}
