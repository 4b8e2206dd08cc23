//! What the seats at a gate's word know. It stands in proofs alone: no value of it is made, so its
//! numbers have no bound, and an array is a list of any length.

use crate::entry::Refusal;
use crate::gate::{GateSeat, Right};
use atomic_table::Badge;
use std::collections::LinkedList;
use std::marker::Model;

/// What the seat of one line knows.
pub struct LineView<T> {
    pub line: u64,
    /// The tag of the line's right.
    pub tag: [u64; 0],
    /// The right that the line left at home, or the one that the gate opened with.
    pub home: Option<T>,
    /// How often the line has added itself to the word.
    pub enters: u64,
    /// How often the line has taken itself off the word, leaving or turning back.
    pub leaves: u64,
    /// The word that the line found as it added itself last.
    pub found: u64,
    /// The flag that the line's last entry found, if it was turned.
    pub refusal: Option<Refusal>,
    /// The word that the line found as it took itself off last.
    pub left: u64,
}

/// What the keeper's seat knows.
pub struct KeeperView<T> {
    /// The tags of the rights, in the order of the lines.
    pub tags: [[u64; 0]; 0],
    /// The rights that the gate opened with, in the order of the lines.
    pub rights: LinkedList<T>,
    /// The next line to get a seat: the lines below this number have theirs.
    pub next: u64,
    /// How often the keeper has set each flag.
    pub enables: u64,
    pub retires: u64,
    pub closes: u64,
    /// How often the keeper has looked, and the count of lines that it found last.
    pub looks: u64,
    pub found: u64,
    /// Whether the keeper has all rights.
    pub collected: bool,
}

/// What a seat knows: a line's seat by where the line is.
pub enum View<T> {
    /// The first seat, of a gate with rights of these tags, which has put none of them in its slot.
    Fresh([[u64; 0]; 0]),
    /// The first seat while it has all slots in hand.
    Filling([[u64; 0]; 0]),
    Keeping(KeeperView<T>),
    LineOut(LineView<T>),
    LineInside(LineView<T>),
    LineTurned(LineView<T>),
}

/// What shows a gate that its keeper has done with. It has no bytes, and stands in proofs alone:
/// by it a contract says what the keeper knew.
#[derive(Drop)]
pub struct KeeperWitness<T: Right> {
    pub(crate) seat: GateSeat<T>,
}

impl<T: Right> Model for KeeperWitness<T> {
    ghost use Rattle.hub_gate.specs.GateSeats.{KeeperSeat, keeper_in};

    ghost Value = { KeeperSeat T };

    ghost view = { λ w. record { gate = w.seat.table_id; at = keeper_in w.seat.me.0 } };
}

/// What shows a line that has gone on from its gate, or nothing. It has no bytes, and stands in
/// proofs alone: by it a contract says what the line's entry knew.
#[derive(Drop)]
pub struct EntryWitness<T: Right> {
    pub(crate) badge: Badge<View<T>>,
}

impl<T: Right> Model for EntryWitness<T> {
    ghost use Rattle.std.specs.Prelude.{Option};
    ghost use Rattle.hub_gate.specs.GateSeats.{EntrySeat, witnessed};

    ghost Value = { Option (EntrySeat T) };

    ghost view = { λ w. witnessed w.badge.table_id w.badge.views };
}

impl<T: Right> EntryWitness<T> {
    ghost use Rattle.std.specs.Prelude.{◌≡◌, None};

    /// It shows nothing.
    pub fn none() -> EntryWitness<T>
        ensures { result ≡ None }
    {
        EntryWitness {
            badge: Badge::blank(),
        }
    }
}
