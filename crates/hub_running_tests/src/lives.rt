//! A life as its worker's agent meets it, and orders to end. What events are answered is shown by
//! the rows of tests/rows/steps/life.rows.
use crate::assert_same;
use hub_life::{Event, Life, Order, OutOfMemory, State};
use std::alloc::Global;
use std::test::Fail;
use std::thread;

#[test]
fn a_life_shows_what_it_waits_for(rt: HostRuntime) {
    let mut life = Life::new();
    for event in [Event::Install, Event::Extend, Event::Extend, Event::Fail] {
        assert!(rt; life.event(event).is_ok(), "{event:?}");
    }
    assert_same(&rt, "state", life.state(), State::Installing);
    assert_same(&rt, "open", life.open_extension_count(), 1);
    assert!(rt; life.is_handler_running() && life.has_failed_extension());
}

/// Two seats of one order.
fn two_seats(alloc: Global) -> Option<(Order, Order)> {
    let mut orders = Order::open(alloc, 2).ok()?;
    let one = orders.pop()?;
    let other = orders.pop()?;
    Some((one, other))
}

#[test]
fn an_order_is_found_at_another_seat(rt: HostRuntime) {
    let (mut one, mut other) = two_seats(rt.alloc()).expect(&rt, "two seats");
    assert!(rt; !one.seen() && !other.seen());
    one.give();
    assert!(rt; other.seen() && one.seen());
    other.give();
    assert!(rt; other.seen() && one.seen());
}

#[test]
fn an_order_of_another_word_is_not_found(rt: HostRuntime) {
    let (mut one, _other) = two_seats(rt.alloc()).expect(&rt, "two seats");
    let (mut stranger, _other) = two_seats(rt.alloc()).expect(&rt, "two others");
    stranger.give();
    assert!(rt; !one.seen());
}

#[test]
fn an_order_crosses_threads(rt: HostRuntime) {
    let (mut giver, mut looker) = two_seats(rt.alloc()).expect(&rt, "two seats");
    let (giver_saw, _) = thread::join(
        &rt,
        move || {
            giver.give();
            giver.seen()
        },
        || looker.seen(),
    );
    assert!(rt; giver_saw && looker.seen());
}

#[test]
fn no_seat_is_made_without_memory(rt: HostRuntime) -> Result<(), Fail> {
    assert!(rt; matches!(Order::open(rt.alloc(), usize::MAX), Err(OutOfMemory)));
    assert_same(&rt, "no seats", Order::open(rt.alloc(), 0)?.len(), 0);
    Ok(())
}

/// It passes whichever allocation is refused: the next call has the memory.
#[test]
fn opens_again_whichever_allocation_is_refused(rt: HostRuntime) -> Result<(), Fail> {
    let orders = match Order::open(rt.alloc(), 3) {
        Err(OutOfMemory) => Order::open(rt.alloc(), 3)?,
        Ok(orders) => orders,
    };
    assert_same(&rt, "seats", orders.len(), 3);
    Ok(())
}
