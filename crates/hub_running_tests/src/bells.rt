use crate::assert_same;
use hub_bell::{Bell, Listener};
use hub_envelope::EndId;
use std::sync::Wait;
use std::test::Fail;
use std::thread;

const ROUNDS: u32 = 10_000;

/// An end for each round. Over the rounds they have a bit of each group of words.
fn end_in(round: u32) -> EndId {
    EndId(round.wrapping_mul(37) % 65_536)
}

/// The one end whose bit is set. `None` where none or more are set.
fn rung(listener: &mut Listener) -> Option<u32> {
    let names = listener.take_rung_groups();
    if names.count_ones() != 1 {
        return None;
    }
    let group = names.trailing_zeros();
    if group >= 64 {
        return None;
    }
    let mut found = None;
    for word in 16 * group..16 * group + 16 {
        let bits = listener.take_bits_of_word(word as usize);
        if bits.count_ones() > 1 || bits != 0 && found.is_some() {
            return None;
        }
        if bits != 0 {
            found = Some(64 * word + bits.trailing_zeros());
        }
    }
    found
}

// Ends at the edges of words and of groups of words.
const RUNG: &[u32] = &[0, 63, 64, 1_023, 1_024, 4_096, 65_535];

#[test]
fn a_ring_sets_the_bit_of_its_end(rt: HostRuntime) -> Result<(), Fail> {
    let (mut listener, mut bell) = Listener::new_with_first_bell(rt.alloc())?;
    assert_same(&rt, "before a ring", listener.take_rung_groups(), 0);
    for end in RUNG {
        bell.ring(EndId(*end));
        assert_same(&rt, "after a ring", rung(&mut listener), Some(*end));
        assert_same(&rt, "once more", rung(&mut listener), None);
    }
    Ok(())
}

#[test]
fn rings_of_two_bells_are_found_together(rt: HostRuntime) {
    let (mut listener, mut bell) = Listener::new_with_first_bell(rt.alloc()).expect(&rt, "memory");
    let mut other = listener.new_bell().expect(&rt, "memory");
    bell.ring(EndId(7));
    other.ring(EndId(5));
    bell.clone().expect(&rt, "memory").ring(EndId(5_450));
    other.ring(EndId(7));
    assert_same(&rt, "names", listener.take_rung_groups(), 1 | 1 << 5);
    assert_same(
        &rt,
        "word 0",
        listener.take_bits_of_word(0),
        1 << 5 | 1 << 7,
    );
    assert_same(&rt, "word 85", listener.take_bits_of_word(85), 1 << 10);
    assert_same(&rt, "word 85 again", listener.take_bits_of_word(85), 0);
}

#[test]
fn nobody_sleeps_who_was_rung_or_woken(rt: HostRuntime) -> Result<(), Fail> {
    let (mut listener, mut bell) = Listener::new_with_first_bell(rt.alloc())?;
    bell.ring(EndId(9));
    listener.sleep(&rt);
    listener.sleep(&rt);
    assert_same(&rt, "the ring", rung(&mut listener), Some(9));
    bell.wake();
    listener.sleep(&rt);
    assert_same(&rt, "names", listener.take_rung_groups(), 0);
    Ok(())
}

/// Rings the other one in each round, then sleeps until it is rung itself. In how many rounds the
/// end that it found was the right one.
fn rounds<R: Wait>(rt: &R, mut listener: Listener, mut other: Bell, begins: bool) -> u32 {
    let mut right = 0u32;
    for round in 0..ROUNDS {
        if begins {
            other.ring(end_in(round));
        }
        let mut found = rung(&mut listener);
        for _ in 0..u32::MAX {
            if found.is_some() {
                break;
            }
            listener.sleep(rt);
            found = rung(&mut listener);
        }
        if found == Some(end_in(round).0) {
            right = right.wrapping_add(1);
        }
        if !begins {
            other.ring(end_in(round));
        }
    }
    right
}

#[test]
fn two_threads_ring_each_other_awake(rt: HostRuntime) -> Result<(), Fail> {
    let (one, to_one) = Listener::new_with_first_bell(rt.alloc())?;
    let (two, to_two) = Listener::new_with_first_bell(rt.alloc())?;
    let (first, second) = thread::join(
        &rt,
        || rounds(&rt, one, to_two, true),
        || rounds(&rt, two, to_one, false),
    );
    assert_same(&rt, "right rounds", (first, second), (ROUNDS, ROUNDS));
    Ok(())
}

/// It passes whichever allocation is refused: the next call has the memory.
#[test]
fn opens_a_listener_whichever_allocation_is_refused(rt: HostRuntime) -> Result<(), Fail> {
    let (mut listener, mut bell) = match Listener::new_with_first_bell(rt.alloc()) {
        Ok(made) => made,
        Err(_) => Listener::new_with_first_bell(rt.alloc())?,
    };
    bell.ring(EndId(1));
    assert_same(&rt, "after a ring", rung(&mut listener), Some(1));
    Ok(())
}
