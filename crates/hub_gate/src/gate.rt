//! A gate: the rule of its word and slots, and how it is opened.

ghost use Rattle.std.specs.Prelude.{ℕ, List, [], ◌≡◌, ◌≤◌, None, Some, map, replicate, length};
ghost use Rattle.std.specs.Prelude.{vec_capacity, IfOk, IfErr};
ghost use Rattle.std.specs.Arc.{arc_value};
ghost use Rattle.hub_gate.specs.declared.view.View.TheVariants.{Fresh};
ghost use Rattle.hub_gate.specs.GateSeats.{AllSame, IsOpened, IsSeatOf, entries_of, keeper_tags};
ghost use Rattle.hub_gate.specs.Opening.{IsCount, HasTable, HasFreshSeat, HasShares, HasRoom};
ghost use Rattle.hub_gate.specs.Opening.{error_for, keeper_me, none_seated, all_seated};
ghost use Rattle.hub_gate.specs.Taking.{numbered};

use crate::entry::Entry;
use crate::keeper::Keeper;
use crate::plays::{Gather, Open};
use crate::view::View;
use atomic_table::{Seat, Shared, Split, Table, TableRule};
use hub_envelope::{MAX_LINES, OutOfMemory};
use std::alloc::Global;
use std::marker::PhantomData;
use std::snapshot::Snapshot;
use std::sync::Arc;
use thiserror::Error;

/// What a gate keeps for a line: whoever is inside on that line has it in hand.
pub trait Right: Drop {
    /// By what contracts tell one right from another. A line's right has one tag for good.
    ghost tag: { Self → List ℕ };
}

impl Right for u64 {
    ghost tag = { λ _. [] };
}

/// Why no gate was opened. The rights come back with it.
#[derive(Clone, Copy, Debug, PartialEq, Eq, Hash, Drop, Error)]
pub enum GateError {
    /// There was no right, or more than `MAX_LINES`.
    #[error("a gate has 1 to 32 lines")]
    BadCount,
    /// The allocator refused memory.
    #[error("out of memory")]
    OutOfMemory,
}

/// One word, and a slot for the right of each line. The key is the rights that the gate opens with.
pub type GateTable<T> = Table<Option<T>, View<T>, Snapshot<Vec<T>>, GateRule<T>, Global>;

/// The steps on a gate's table.
pub type GateSteps<T> = Shared<Option<T>, View<T>, Snapshot<Vec<T>>, GateRule<T>>;

/// What a thread steps with at a gate's table: a line's seat, or the keeper's.
pub type GateSeat<T> = Seat<Option<T>, View<T>>;

/// The rule that `IsGate` states, for rights of one type.
pub struct GateRule<T> {
    rights: PhantomData<T>,
}

impl<T: Right> TableRule<Option<T>, View<T>, Snapshot<Vec<T>>> for GateRule<T> {
    ghost use Rattle.std.specs.Prelude.{map};
    ghost use Rattle.hub_gate.specs.declared.view.View.TheVariants.{Fresh};
    ghost use Rattle.hub_gate.specs.GateRule.{IsGate};

    ghost holds = { λ _. IsGate T.tag };

    ghost first = { λ key. Fresh (map T.tag key.value.items) };
}

/// The keeper's seat cuts off the seat of the next line.
pub struct NextLine;

impl<T> Split<View<T>> for NextLine {
    ghost use Rattle.hub_gate.specs.GateRule.{keeper_left, line_right};

    ghost left = { keeper_left };

    ghost right = { line_right };
}

/// A gate for rights of one type. `Gate::<T>::open` makes one; its parts are the keeper and the
/// entries.
///
/// ```rust
/// let (mut keeper, mut entries) = Gate::open(alloc, rights)?;
/// match entries.pop()?.enter() {
///     Entered::In(inside) => drop(inside.leave()),
///     Entered::Turned(_entry, refusal) => return Err(refusal),
/// }
/// keeper.close();
/// ```
pub struct Gate<T: Right> {
    rights: PhantomData<T>,
}

// All the memory of a gate, and its first seat.
struct Reserved<T: Right> {
    table: Arc<GateTable<T>>,
    seat: GateSeat<T>,
    shares: Vec<Arc<GateTable<T>>>,
    entries: Vec<Entry<T>>,
    rights: Vec<T>,
}

/// Asks for all the memory that a gate with these rights needs.
fn allocate_gate_memory<T: Right>(
    alloc: Global,
    rights: &Vec<T>,
) -> Result<Reserved<T>, OutOfMemory>
    ensures table { IfOk result (HasTable T.tag rights.now.items) }
    ensures seat { IfOk result (HasFreshSeat T.tag rights.now.items) }
    ensures shares { IfOk result (HasShares T.tag rights.now.items) }
    ensures lists { IfOk result (HasRoom T.tag rights.now.items) }
{
    let count = rights.len();
    let about = Snapshot::of(rights);
    let entries = Vec::with_capacity(alloc, count)?;
    let room = Vec::with_capacity(alloc, count)?;
    let mut shares = Vec::with_capacity(alloc, count)?;
    let (table, seat) = GateTable::<T>::vacant(alloc, &[0], count, &about)?;
    let table = Arc::new(alloc, table)?;
    for _ in 0..count {
        shares.push(Arc::try_clone(&table)?)?;
    }
    Ok(Reserved {
        table,
        seat,
        shares,
        entries,
        rights: room,
    })
}

/// Puts each right in the slot of its line, where the seat has all slots in hand, in order.
fn fill_slots_with_rights<T: Right>(
    slots: &GateSteps<T>,
    seat: &mut GateSeat<T>,
    mut rights: Vec<T>,
)
    requires here { seat.old.table_id ≡ slots.now.table_id }
    requires held { seat.old.me.1 ≡ numbered 0 (replicate (length rights.items) None) }
    ensures stays { (seat.new.table_id ≡ seat.old.table_id) × (seat.new.id ≡ seat.old.id) }
    ensures filled { seat.new.me ≡ (seat.old.me.0, numbered 0 (map Some rights.items)) }
{
    rights.reverse();
    for line in 0..rights.len() {
        let right = rights.pop().unwrap();
        slots.exchange(seat, line, Some(right));
        seat.turn();
    }
}

/// Puts each right in its slot, and makes the first seat the keeper's.
fn fill_slots_with_rights_and_open<T: Right>(
    slots: &GateSteps<T>,
    seat: &mut GateSeat<T>,
    rights: Vec<T>,
)
    requires table { IsSeatOf slots.now.table_id seat.old.table_id }
    requires slots { slots.now.table_id.slots ≡ length rights.items }
    requires fresh { seat.old.me ≡ (Fresh (map T.tag rights.items), []) }
    requires few { length rights.items ≤ MAX_LINES }
    ensures keeper { seat.new.me ≡ keeper_me (map T.tag rights.items) rights.items 0 }
    ensures stays { seat.new.table_id ≡ seat.old.table_id }
{
    slots.load::<Gather>(seat, 0);
    fill_slots_with_rights(slots, seat, rights);
    slots.load::<Open>(seat, 0);
}

/// Cuts a seat for each line off the keeper's, in order.
fn make_entry_per_line<T: Right>(
    table: &Arc<GateTable<T>>,
    seat: &mut GateSeat<T>,
    mut shares: Vec<Arc<GateTable<T>>>,
    entries: &mut Vec<Entry<T>>,
)
    requires table { IsSeatOf (arc_value table.now).shared.table_id seat.old.table_id }
    requires keeper { seat.old.me ≡ none_seated seat.old.me.0 }
    requires count { length shares.items ≡ length (keeper_tags seat.old.me.0) }
    requires same { AllSame arc_value (arc_value table.now) shares.items }
    requires room { (entries.old.items ≡ []) × (length shares.items ≤ vec_capacity entries.old) }
    ensures keeper { seat.new.me ≡ all_seated seat.old.me.0 }
    ensures entries { entries.new.items ≡ entries_of seat.old.table_id seat.old.me.0 }
    ensures stays { seat.new.table_id ≡ seat.old.table_id }
{
    for line in 0..shares.len() {
        let share = shares.pop().unwrap();
        let own = table.shared.split_seat::<NextLine>(seat);
        entries.push_reserved(Entry {
            table: share,
            seat: own,
            line,
        });
    }
}

impl<T: Right> Gate<T> {
    /// Opens a gate with a line for each right, from 1 to `MAX_LINES`: no flag is set, nobody is
    /// inside, and each right is at home. After an error the rights are as they were: `BadCount`
    /// where there are too few or too many, else `OutOfMemory` where memory was refused.
    pub fn open(
        alloc: Global,
        rights: Vec<T>,
    ) -> Result<(Keeper<T>, Vec<Entry<T>>), (GateError, Vec<T>)>
        ensures opened { IfOk result (λ gate. IsOpened T.tag rights.items gate.0 gate.1.items) }
        ensures given_back { IfErr result (λ e. e.1.items ≡ rights.items) }
        ensures refused { IfErr result (λ e. e.0 ≡ error_for (length rights.items)) }
        ensures count { IfOk result (λ _. IsCount (length rights.items)) }
    {
        let count = rights.len();
        if count == 0 || count > MAX_LINES {
            return Err((GateError::BadCount, rights));
        }
        let Ok(reserved) = allocate_gate_memory(alloc, &rights) else {
            return Err((GateError::OutOfMemory, rights));
        };
        let Reserved {
            table,
            mut seat,
            shares,
            mut entries,
            rights: room,
        } = reserved;
        fill_slots_with_rights_and_open(&table.shared, &mut seat, rights);
        make_entry_per_line(&table, &mut seat, shares, &mut entries);
        let keeper = Keeper {
            table,
            seat,
            enabled: false,
            rights: Some(room),
        };
        Ok((keeper, entries))
    }
}
