ghost use Rattle.std.specs.Prelude.{◌≡◌, [], IfSome};

use crate::assert_same;
use hub_gate::{Entered, Entry, Gate, GateError, Inside, Keeper, Looked, Refusal, word_of};
use std::alloc::{AllocError, Global};
use std::process::Abort;
use std::test::Fail;
use std::thread;

/// So many rights: the first is this number, and each further one is one more.
fn rights(alloc: Global, count: usize, first: u64) -> Result<Vec<u64>, AllocError> {
    let mut rights = Vec::with_capacity(alloc, count)?;
    let mut next = first;
    for _ in 0..count {
        rights.push(next)?;
        next = next.wrapping_add(1);
    }
    Ok(rights)
}

fn some_rights(rt: &(impl Abort + AllocGlobal), count: usize, first: u64) -> Vec<u64> {
    rights(rt.alloc(), count, first).expect(rt, "memory")
}

/// A gate with so many rights, as above.
fn open(
    rt: &(impl Abort + AllocGlobal),
    count: usize,
    first: u64,
) -> (Keeper<u64>, Vec<Entry<u64>>) {
    Gate::open(rt.alloc(), some_rights(rt, count, first)).expect(rt, "a gate")
}

/// The keeper shows the gate's word, which no other call tells.
fn assert_shows(rt: &(impl Abort + AllocGlobal), keeper: &Keeper<u64>, wanted: &str) {
    let shown = format!(in rt.alloc(); "{keeper:?}").expect(rt, "memory");
    assert_same(rt, "word", shown.as_str(), wanted);
}

/// The keeper finds these rights, and that they were given.
fn assert_gives(rt: &impl Abort, keeper: &mut Keeper<u64>, wanted: &[u64]) {
    match keeper.look() {
        Looked::Rights(rights) => assert_same(rt, "rights", rights.as_slice(), wanted),
        _ => panic!(rt; "no rights"),
    }
    assert!(rt; matches!(keeper.look(), Looked::Given));
}

/// The line of the last entry inside, where it wasn't turned.
fn enter_last(entries: &mut Vec<Entry<u64>>) -> Option<Inside<u64>>
    ensures { IfSome result (λ inside. inside.at.tag ≡ []) }
{
    match entries.pop()?.enter() {
        Entered::In(inside) => Some(inside),
        Entered::Turned(_back, _refusal) => None,
    }
}

/// Why the gate lets the line in no more, where it doesn't.
fn refusal_of(entry: Entry<u64>) -> Option<Refusal> {
    match entry.enter() {
        Entered::In(inside) => {
            inside.leave();
            None
        }
        Entered::Turned(_back, refusal) => Some(refusal),
    }
}

/// Leaves, where the word that was found had the flag ENABLED.
fn leave_enabled(rt: &impl Abort, inside: Inside<u64>) -> Entry<u64>
    requires { inside.at.tag ≡ [] }
{
    let (entry, was_enabled) = inside.leave();
    assert!(rt; was_enabled);
    entry
}

fn assert_enables(rt: &(impl Abort + AllocGlobal), keeper: &mut Keeper<u64>) {
    assert_shows(rt, keeper, "Keeper { word: 0 }");
    assert!(rt; !keeper.enabled());
    assert!(rt; matches!(keeper.look(), Looked::Open));
    keeper.enable();
    assert_shows(rt, keeper, "Keeper { word: 1 }");
    assert!(rt; keeper.enabled());
}

fn assert_retires(rt: &(impl Abort + AllocGlobal), keeper: &mut Keeper<u64>) {
    assert_shows(rt, keeper, "Keeper { word: 513 }");
    keeper.retire();
    assert_shows(rt, keeper, "Keeper { word: 515 }");
    assert!(rt; matches!(keeper.look(), Looked::StillInside(2)));
}

#[test]
fn gate_words(rt: HostRuntime) {
    assert_same(&rt, "16 inside", word_of(true, true, true, 16), 4103);
    assert_same(&rt, "32 inside", word_of(true, true, true, 32), 8199);
    let (mut keeper, mut entries) = open(&rt, 2, 5);
    assert_same(&rt, "entries", entries.len(), 2);
    assert_enables(&rt, &mut keeper);
    let other = enter_last(&mut entries).expect(&rt, "the second entry");
    let one = enter_last(&mut entries).expect(&rt, "the first entry");
    assert_retires(&rt, &mut keeper);
    let one = leave_enabled(&rt, one);
    assert_shows(&rt, &keeper, "Keeper { word: 259 }");
    let other = leave_enabled(&rt, other);
    assert_shows(&rt, &keeper, "Keeper { word: 3 }");
    assert_gives(&rt, &mut keeper, &[5, 6]);
    keeper.close();
    assert_shows(&rt, &keeper, "Keeper { word: 7 }");
    assert_same(&rt, "one entry", refusal_of(one), Some(Refusal::Moved));
    assert_shows(&rt, &keeper, "Keeper { word: 7 }");
    let Err(keeper) = keeper.try_into_last_gate_word() else {
        panic!(rt; "an entry is left");
    };
    drop(other);
    assert_same(
        &rt,
        "last word",
        keeper.try_into_last_gate_word().ok(),
        Some(7),
    );
}

#[test]
fn a_closed_gate_turns_its_entries(rt: HostRuntime) {
    let (mut keeper, mut entries) = open(&rt, 1, 0);
    keeper.close();
    let entry = entries.pop().expect(&rt, "an entry");
    assert_same(&rt, "an entry", refusal_of(entry), Some(Refusal::Closed));
    assert_shows(&rt, &keeper, "Keeper { word: 4 }");
}

#[test]
fn a_bad_count_gives_the_rights_back(rt: HostRuntime) {
    for count in [0, 33] {
        let refused = Gate::open(rt.alloc(), some_rights(&rt, count, 7));
        let (error, back) = refused.err().expect(&rt, "no gate");
        assert_same(&rt, "error", error, GateError::BadCount);
        let rights = some_rights(&rt, count, 7);
        assert_same(&rt, "back", back.as_slice(), rights.as_slice());
    }
}

/// A gate with the rights 1 to 3, opened again with what came back where memory was refused.
fn open_again(rt: &(impl Abort + AllocGlobal), rights: Vec<u64>) -> (Keeper<u64>, Vec<Entry<u64>>) {
    match Gate::open(rt.alloc(), rights) {
        Ok(gate) => gate,
        Err((error, back)) => {
            assert_same(rt, "error", error, GateError::OutOfMemory);
            assert_same(rt, "back", back.as_slice(), [1, 2, 3].as_slice());
            Gate::open(rt.alloc(), back).expect(rt, "a gate")
        }
    }
}

/// It passes whichever allocation is refused: the next call has the memory.
#[test]
fn gives_the_rights_back_whichever_allocation_is_refused(rt: HostRuntime) -> Result<(), Fail> {
    let first = match rights(rt.alloc(), 3, 1) {
        Ok(rights) => rights,
        Err(_) => rights(rt.alloc(), 3, 1)?,
    };
    let (mut keeper, entries) = open_again(&rt, first);
    assert_same(&rt, "entries", entries.len(), 3);
    keeper.close();
    assert_gives(&rt, &mut keeper, &[1, 2, 3]);
    Ok(())
}

/// Enters and leaves so often, and adds 1 to the right while inside.
fn add_rounds(entry: Entry<u64>, rounds: u64) -> Entry<u64> {
    let mut entry = entry;
    for _ in 0..rounds {
        entry = match entry.enter() {
            Entered::In(mut inside) => {
                let right = inside.right_mut();
                *right = right.wrapping_add(1);
                inside.leave().0
            }
            Entered::Turned(back, _) => back,
        };
    }
    entry
}

/// All 32 entries that a gate may have, each on a thread of its own.
#[test]
fn sixteen_entries(rt: HostRuntime) {
    let zeros = vec![in rt.alloc(); 0u64; 32].expect(&rt, "memory");
    let (mut keeper, entries) = Gate::open(rt.alloc(), zeros).expect(&rt, "a gate");
    let entries = thread::map_vec(&rt, entries, &|entry| add_rounds(entry, 1000)).expect(
        &rt, "memory",
    );
    assert_same(&rt, "entries", entries.len(), 32);
    keeper.close();
    assert_gives(&rt, &mut keeper, &[1000; 32]);
}
