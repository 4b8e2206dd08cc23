//! The rule of the word that the seats of one order share, and what each step on it tells its seat.

ghost use Rattle.std.specs.Prelude.{◌≡◌, ◌+◌, All, AllPairs, IfOk, IsTrue, vec_len};
ghost use Rattle.std.specs.Arc.{arc_value};
ghost use Rattle.hub_life.specs.OrderLaws.{RuleShowsOrder, StaysGiven};

use crate::OutOfMemory;
use atomic_table::{Play, Seat, Split, Table, TableRule};
use std::alloc::Global;
use std::marker::Model;
use std::sync::Arc;

/// One word, and no slot.
pub type OrderWord = Table<(), OrderView, (), OrderRule, Global>;

pub struct OrderRule;

impl TableRule<(), OrderView, ()> for OrderRule {
    ghost use Rattle.hub_life.specs.Order.{IsOrderKept, unaware};

    ghost holds = { λ _. IsOrderKept };

    ghost first = { λ _. unaware };
}

/// The order is given.
pub struct Give;

impl Play<(), OrderView> for Give {
    ghost use Rattle.hub_life.specs.Order.{GivesOrder};

    ghost then = { GivesOrder };
}

/// The order is looked for.
pub struct Seek;

impl Play<(), OrderView> for Seek {
    ghost use Rattle.hub_life.specs.Order.{LooksForOrder};

    ghost then = { LooksForOrder };
}

/// One more seat, which knows nothing yet.
pub struct OneMore;

impl Split<OrderView> for OneMore {
    ghost use Rattle.hub_life.specs.Order.{unaware};

    ghost left = { λ v. v };

    ghost right = { λ _. unaware };
}

/// What one seat knows of an order. It stands in proofs alone: no value of it is made.
pub struct OrderView {
    /// How often the seat has given the order.
    pub gives: u64,
    /// How often the seat has looked for the order.
    pub looks: u64,
    /// Whether its last look found the order.
    pub found: bool,
}

/// A seat at the word of one order. Seats of one word may lie on different threads.
///
/// ```rust
/// let mut orders = Order::open(alloc, 2)?;
/// let (mut one, mut other) = (orders.pop()?, orders.pop()?);
/// one.give();
/// assert!(rt; other.seen());
/// ```
#[derive(Drop)]
pub struct Order {
    word: Arc<OrderWord>,
    seat: Seat<(), OrderView>,
}

impl Model for Order {
    ghost use Rattle.std.specs.Prelude.{◌≡◌};
    ghost use Rattle.std.specs.Arc.{arc_value};
    ghost use Rattle.hub_life.specs.OrderSeat.{OrderSeat, order_seat};

    ghost Value = { OrderSeat };

    ghost view = { λ o. order_seat o.seat.table_id o.seat.me.0 };

    ghost invariant = { λ o. ((arc_value o.word).shared.table_id.words ≡ 1)
        × (o.seat.table_id ≡ (arc_value o.word).shared.table_id) };
}

impl Order {
    ghost use Rattle.hub_life.specs.OrderSeat.{OrderSeat, new_seat, knows};

    /// A new word, at which the order isn't given, and so many seats there.
    pub fn open(alloc: Global, seats: usize) -> Result<Vec<Order>, OutOfMemory>
        ensures count { IfOk result (λ orders. vec_len orders ≡ seats) }
        ensures new { IfOk result (λ orders.
            All (λ order. order ≡ new_seat order.word) orders.items) }
        ensures one_word { IfOk result (λ orders.
            AllPairs (λ first second. first.word ≡ second.word) orders.items) }
    {
        let mut orders = Vec::with_capacity(alloc, seats)?;
        let (table, mut first) = OrderWord::of_words(alloc, &[0], &())?;
        let word = Arc::new(alloc, table)?;
        for _ in 0..seats {
            let seat = word.shared.split_seat::<OneMore>(&mut first);
            let word = Arc::try_clone(&word)?;
            orders.push(Order { word, seat })?;
        }
        Ok(orders)
    }

    /// Gives the order, once and for good. It is one step on the word, and needs no memory.
    pub fn give(&mut self)
        ensures { self.new ≡ record self.old { gives = self.old.gives + 1 } }
    {
        self.word.shared.fetch_or::<Give>(&mut self.seat, 0, 1);
    }

    /// Whether the order was given at this seat, or is found by this look. True stays true.
    /// It is one step on the word, and needs no memory.
    pub fn seen(&mut self) -> bool
        ensures exactly { result ≡ knows self.new }
        ensures looked { self.new ≡ record self.old { looks = self.old.looks + 1; found = result } }
        ensures stays { IsTrue (knows self.old) → IsTrue result }
    {
        self.word.shared.load::<Seek>(&mut self.seat, 0) == 1
    }
}

/// The laws of the rule that an order's word and its seats meet at every moment of any schedule. It
/// does nothing.
///
/// `shows`: the word says whether some seat has given the order, and no seat has found an order
/// that none gave.
/// `stays`: whatever steps the seats make, an order that was given stays given, and the word with
/// it.
pub fn prove_laws_of_order_to_stop()
    ensures shows { RuleShowsOrder (⟦<OrderRule as TableRule<(), OrderView, ()>>⟧.holds tt) }
    ensures stays { StaysGiven (⟦<OrderRule as TableRule<(), OrderView, ()>>⟧.holds tt)
        ⟦<Give as Play<(), OrderView>>⟧.then ⟦<Seek as Play<(), OrderView>>⟧.then
        ⟦<OneMore as Split<OrderView>>⟧.left ⟦<OneMore as Split<OrderView>>⟧.right }
{}
