ghost use Rattle.std.specs.Prelude.{◌<◌};

use crate::assert_same;
use hub_depot::{Depot, DepotError, KeptMap, Key, Named};
use hub_envelope::{EndId, LineId};
use std::process::Abort;
use std::sync::Wait;
use std::test::Fail;
use std::thread;

const THREADS: u32 = 4;

const EACH: u32 = 250;

#[derive(Clone, Copy, Debug, PartialEq)]
struct Ticket {
    name: Key,
    number: u32,
}

impl Ticket {
    fn numbered(number: u32) -> Ticket {
        Ticket {
            name: key(number),
            number,
        }
    }
}

impl Named for Ticket {
    ghost name = { λ t. t.name };

    fn name(&self) -> Key {
        self.name
    }
}

/// Below 1,000 no two names agree, and some differ in the end, the epoch or the line alone.
fn key(number: u32) -> Key {
    Key {
        end: EndId(number / 100),
        epoch: number / 10 % 10,
        line: LineId((number % 10) as u8),
    }
}

/// Asserts that this is what is taken by the name of that number.
fn assert_taken<R: Abort + Wait>(
    rt: &R,
    which: &str,
    depot: &Depot<Ticket>,
    number: u32,
    expected: Option<Ticket>,
) {
    assert_same(rt, which, depot.take(rt, key(number)), expected);
}

/// Puts one thread's tickets, every `THREADS`th one. Whether all were kept.
fn put_share<R: Wait>(rt: &R, depot: &Depot<Ticket>, share: usize) -> bool
    requires { share < 4 }
{
    for i in 0..EACH {
        let number = i * THREADS + share as u32;
        if depot.put(rt, Ticket::numbered(number)).is_err() {
            return false;
        }
    }
    true
}

#[test]
fn depot_keeps(rt: HostRuntime) -> Result<(), Fail> {
    let depot = Depot::new(rt.alloc());
    let shared = &depot;
    let handle = &rt;
    let kept = thread::map_indices(
        handle,
        rt.alloc(),
        4,
        &|share| { put_share(handle, shared, share) },
    )?;
    assert_same(&rt, "put", kept.as_slice(), [true; 4].as_slice());
    for number in 0..THREADS * EACH {
        assert_taken(&rt, "once", &depot, number, Some(Ticket::numbered(number)));
        assert_taken(&rt, "again", &depot, number, None);
    }
    assert_same(&rt, "any other", depot.take_any(&rt), None);
    Ok(())
}

#[test]
fn one_value_a_name(rt: HostRuntime) -> Result<(), Fail> {
    let depot = Depot::new(rt.alloc());
    let second = Ticket {
        name: key(7),
        number: 8,
    };
    assert!(rt; depot.put(&rt, Ticket::numbered(7)).is_ok());
    match depot.put(&rt, second) {
        Err(DepotError::Taken(back)) => assert_same(&rt, "back", back.number, 8),
        _ => panic!(rt; "the name is taken"),
    }
    let left = Some(Ticket::numbered(7));
    assert_same(&rt, "any other", depot.take_any(&rt), left);
    Ok(())
}

/// Tickets by number, end, epoch and line, with the least and the greatest numbers in their names.
const EXTREMES: &[(u32, u32, u32, u8)] = &[
    (0, 0, 0, 0),
    (1, 0, 0, 255),
    (2, 0, u32::MAX, 0),
    (3, u32::MAX, 0, 0),
    (4, u32::MAX, u32::MAX, 255),
];

fn ticket_of((number, end, epoch, line): (u32, u32, u32, u8)) -> Ticket {
    Ticket {
        name: Key {
            end: EndId(end),
            epoch,
            line: LineId(line),
        },
        number,
    }
}

#[test]
fn keeps_names_at_the_ends_of_their_ranges(rt: HostRuntime) {
    let depot = Depot::new(rt.alloc());
    for row in EXTREMES {
        assert!(rt; depot.put(&rt, ticket_of(*row)).is_ok());
    }
    for row in EXTREMES {
        let ticket = ticket_of(*row);
        assert_same(&rt, "kept", depot.take(&rt, ticket.name), Some(ticket));
    }
}

/// It passes whichever allocation is refused: that put gives its value back as `OutOfMemory`, and
/// what was put before and after it is found.
#[test]
fn depot_keeps_whichever_allocation_is_refused(rt: HostRuntime) {
    let depot = Depot::new(rt.alloc());
    for number in 0..60 {
        match depot.put(&rt, Ticket::numbered(number)) {
            Ok(()) => {}
            Err(DepotError::OutOfMemory(back)) => {
                assert_same(&rt, "back", back, Ticket::numbered(number));
                assert!(rt; depot.put(&rt, back).is_ok());
            }
            Err(DepotError::Taken(_)) => panic!(rt; "the name is free"),
        }
    }
    for number in 0..60 {
        assert_taken(&rt, "kept", &depot, number, Some(Ticket::numbered(number)));
    }
    assert_same(&rt, "any other", depot.take_any(&rt), None);
}

/// It passes whichever allocation is refused: the put that asked for it gives its value back, and
/// what was kept before it and after it is there.
#[test]
fn kept_changes_nothing_whichever_allocation_is_refused(rt: HostRuntime) -> Result<(), Fail> {
    let mut kept = KeptMap::empty(rt.alloc());
    let mut refused = None;
    for number in 0..60 {
        match kept.put(Ticket::numbered(number)) {
            Ok(()) => {}
            Err(DepotError::OutOfMemory(back)) => {
                assert_same(&rt, "back", back, Ticket::numbered(number));
                assert_same(&rt, "refused before", refused, None);
                refused = Some(number);
            }
            Err(DepotError::Taken(_)) => panic!(rt; "the name is free"),
        }
    }
    for number in 0..60 {
        let expected = if refused == Some(number) {
            None
        } else {
            Some(Ticket::numbered(number))
        };
        assert_same(&rt, "kept", kept.take(key(number)), expected);
    }
    assert_same(&rt, "any other", kept.take_any(), None);
    Ok(())
}

/// A value that may not be dropped: it has to be taken out again, and taken apart.
struct Passport {
    name: Key,
}

impl Named for Passport {
    ghost name = { λ p. p.name };

    fn name(&self) -> Key {
        self.name
    }
}

fn put_passport(rt: &(impl Wait + Abort), depot: &Depot<Passport>, name: Key) {
    match depot.put(rt, Passport { name }) {
        Ok(()) => {}
        Err(DepotError::Taken(_back) | DepotError::OutOfMemory(_back)) => {
            panic!(rt; "{name:?} was refused")
        }
    }
}

/// Takes every value out of a map, and frees the map. How many there were.
fn take_all(mut kept: KeptMap<Passport>) -> u32 {
    let mut taken = 0u32;
    while let Some(passport) = kept.take_any() {
        let Passport { name: _ } = passport;
        taken = taken.saturating_add(1);
    }
    kept.destroy_empty();
    taken
}

#[test]
fn keeps_what_may_not_be_dropped(rt: HostRuntime) {
    let depot = Depot::new(rt.alloc());
    for number in 0..10 {
        put_passport(&rt, &depot, key(number));
    }
    match depot.take(&rt, key(3)) {
        Some(Passport { name }) => assert_same(&rt, "taken", name, key(3)),
        None => panic!(rt; "it was put"),
    }
    assert_same(&rt, "left", take_all(depot.into_map()), 9);
}

#[test]
fn says_why(rt: HostRuntime) -> Result<(), Fail> {
    let taken = DepotError::Taken(Ticket::numbered(0));
    let refused = DepotError::OutOfMemory(Ticket::numbered(0));
    let told = format!(in rt.alloc(); "{taken}; {refused}")?;
    let expected = "a value of that name is kept already; out of memory";
    assert_same(&rt, "why", told.as_str(), expected);
    Ok(())
}
