//! The words that a listener and its bells share, and what each step on them tells its seat.

ghost use Rattle.std.specs.Prelude.{◌≡◌, ◌<◌, ◌^◌};
ghost use Rattle.hub_bell.specs.Ready.{bits_word, end_mask, is_set, name_mask};

use crate::bell::Waker;
use atomic_table::{Play, Seat, Table, TableRule};
use hub_envelope::{EndId, MAX_ENDS};
use std::alloc::Global;

/// The word that names the groups of words of bits.
pub(crate) const NAMES: usize = 0;

/// The word that is 1 while the listener sleeps, or is about to. This word, the names and the bits
/// lie on cache lines of their own.
pub(crate) const ASLEEP: usize = 8;

/// The first word of bits.
pub(crate) const FIRST_BITS: usize = 16;

/// How many bits a word has.
const WIDTH: usize = 64;

/// How many words of bits there are: with as many bits as there may be ends, no two share one.
const BIT_WORDS: usize = MAX_ENDS / WIDTH;

/// How many words of bits have one name.
const GROUP: usize = BIT_WORDS / WIDTH;

/// How many words a board has.
pub(crate) const WORDS: usize = FIRST_BITS + BIT_WORDS;

/// The mask of one bit.
pub(crate) fn mask_of_bit(bit: u32) -> u64
    requires { bit < 64 }
    ensures { result ≡ 2 ^ bit }
{
    1 << bit
}

/// Whether the value has the bit of the mask.
pub(crate) fn has_bit_of_mask(value: u64, mask: u64) -> bool
    ensures { result ≡ is_set value mask }
{
    value & mask != 0
}

/// The word that has the end's bit.
pub(crate) fn word_index_of_end(end: EndId) -> usize
    ensures exactly { result ≡ bits_word end }
    ensures on_board { result < 1040 }
{
    FIRST_BITS + (end.0 as usize / WIDTH) % BIT_WORDS
}

/// The end's bit in that word.
pub(crate) fn end_mask_of(end: EndId) -> u64
    ensures { result ≡ end_mask end }
{
    mask_of_bit(end.0 % WIDTH as u32)
}

/// The bit that names the group of that word.
pub(crate) fn group_mask_of_end(end: EndId) -> u64
    ensures { result ≡ name_mask end }
{
    mask_of_bit((end.0 as usize / (WIDTH * GROUP) % WIDTH) as u32)
}

/// The steps that a seat has made at a board, in order: a list of any length, since it stands in
/// proofs alone.
pub type StepsMade = [BoardStep; 0];

pub type BoardSeat = Seat<(), StepsMade>;

/// The words of a board, with no slot.
pub type BoardWords = Table<(), StepsMade, (), BoardRule, Global>;

/// The words and what wakes the listener.
#[derive(Drop)]
pub(crate) struct Board {
    pub(crate) words: BoardWords,
    pub(crate) waker: Waker,
    ghost count: { words.shared.table_id.words ≡ 1040 },
}

/// The words are hints, so nothing has to hold of them.
pub struct BoardRule;

impl TableRule<(), StepsMade, ()> for BoardRule {
    ghost use Rattle.std.specs.Prelude.{[]};

    ghost holds = { λ _ _. Unit {0} };

    ghost first = { λ _. [] };
}

/// A new seat, which has done nothing.
pub(crate) struct Fresh;

impl Play<(), StepsMade> for Fresh {
    ghost use Rattle.std.specs.Prelude.{◌≡◌, []};

    ghost then = { λ _ _ _ after. after.0 ≡ [] };
}

/// A word is loaded.
pub(crate) struct LoadWord;

impl Play<(), StepsMade> for LoadWord {
    ghost use Rattle.hub_bell.specs.BoardSteps.{Looks};

    ghost then = { Looks };
}

/// Bits of a word are set.
pub(crate) struct SetBits;

impl Play<(), StepsMade> for SetBits {
    ghost use Rattle.hub_bell.specs.BoardSteps.{Sets};

    ghost then = { Sets };
}

/// What a word has is taken out.
pub(crate) struct TakeWord;

impl Play<(), StepsMade> for TakeWord {
    ghost use Rattle.hub_bell.specs.BoardSteps.{Takes};

    ghost then = { Takes };
}

/// A word is stored.
pub(crate) struct StoreWord;

impl Play<(), StepsMade> for StoreWord {
    ghost use Rattle.hub_bell.specs.BoardSteps.{Stores};

    ghost then = { Stores };
}

/// One step on a word of a board.
pub enum BoardStep {
    /// It loaded the word with this number, and found this value.
    Looked(u64, u64),
    /// It set these bits of the word with this number.
    Set(u64, u64),
    /// It left 0 in the word with this number, where it found this value.
    Took(u64, u64),
    /// It stored this value in the word with this number.
    Stored(u64, u64),
}
