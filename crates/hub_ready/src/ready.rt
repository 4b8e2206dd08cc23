//! The ends that were rung, by their keys.
ghost use Rattle.std.specs.Prelude.{
  ◌≡◌,
  ◌≢◌,
  ◌⊎◌,
  ℕ,
  ◌+◌,
  ◌*◌,
  ◌/◌,
  ◌%◌,
  ◌<◌,
  ◌≤◌,
  ◌^◌,
  ◌==◌,
  not,
  [],
  List,
  length,
  slice_index,
  slice_set,
  true,
  IfOk,
  OnOk,
};
ghost use Rattle.std.specs.Int.{bit_at};
ghost use Rattle.hub_bell.specs.declared.board.BoardStep.{BoardStep};
ghost use Rattle.hub_envelope.specs.declared.ids.EndId.{EndId as Number};
ghost use Rattle.hub_ready.specs.Finding.{
  EmptiesBetween,
  EmptiesNamed,
  FindsAll,
  FindsBetween,
  GrowsMarks,
  HasStepped,
  IsKeyOf,
  KeepsMarks,
  LeadsTo,
  MarksBit,
  MarksFound,
  MarksOfBit,
  MarksOfNumber,
  MarksOfWord,
  MarksTaken,
  SameEntries,
  TakesNames,
};
ghost use Rattle.hub_ready.specs.Marking.{mark_of, HasBit, SameBut};

use crate::OutOfMemory;
use crate::marks::Marks;
use hub_bell::Listener;
use hub_envelope::{EndId, MAX_ENDS};
use std::alloc::Global;

/// How many bits a board has: one for each end that there may be.
const BITS: usize = MAX_ENDS;

/// How many words of bits have one name.
const GROUP: usize = 16;

/// The marks of a loop, and the keys of its ends by their numbers.
///
/// ```rust
/// let mut ready = Ready::new(alloc);
/// ready.reserve_for_end(EndId(7), 0)?;
/// ready.mark_and_list(EndId(7), 0);
/// ready.mark_rung_ends(&mut listener);
/// assert_eq!(rt; ready.marks.next_from(0), Some(0));
/// ```
#[derive(Drop)]
pub struct Ready {
    pub marks: Marks,
    /// For the number of each end one more than its key, and 0 where none is listed.
    pub listed: Vec<u32>,
}

impl Ready {
    /// Nothing is marked or listed. It takes no memory.
    pub fn new(alloc: Global) -> Ready
        ensures marks { result.marks ≡ [] }
        ensures listed { result.listed.items ≡ [] }
    {
        Ready {
            marks: Marks::new(alloc),
            listed: Vec::new(alloc),
        }
    }

    /// Makes room for the mark of a key, and for the number of its end.
    pub fn reserve_for_end(&mut self, end: EndId, key: usize) -> Result<(), OutOfMemory>
        ensures ok { OnOk result (HasBit self.new.marks key) }
        ensures marks { GrowsMarks self.old.marks self.new.marks }
        ensures listed { SameEntries self.old.listed.items self.new.listed.items }
        ensures room { OnOk result (end.0 < 65536 → end.0 < length self.new.listed.items) }
    {
        self.marks.reserve(key)?;
        let entries = end.0 as usize + 1;
        if entries <= MAX_ENDS && entries > self.listed.len() {
            self.listed.resize(entries, 0)?;
        }
        Ok(())
    }

    /// Marks a key, and lists it under the number of its end, if there is room and none is.
    pub fn mark_and_list(&mut self, end: EndId, key: usize)
        ensures set { HasBit self.old.marks key → mark_of self.new.marks key ≡ 1 }
        ensures others { SameBut key self.old.marks self.new.marks }
        ensures listed { (number other : ℕ) → slice_index self.old.listed.items number ≡ other + 1
            → slice_index self.new.listed.items number ≡ other + 1 }
        ensures leads { end.0 < length self.old.listed.items → key + 1 < 2 ^ 32
            → slice_index self.old.listed.items end.0 ≡ 0 → LeadsTo self.new.listed.items end key }
        ensures only { (self.new.listed.items ≡ self.old.listed.items)
            ⊎ (self.new.listed.items ≡ slice_set self.old.listed.items end.0 (key + 1)) }
    {
        self.marks.mark_key(key);
        let number = end.0 as usize;
        if number < self.listed.len() && self.listed[number] == 0 && key < u32::MAX as usize {
            self.listed[number] = key as u32 + 1;
        }
    }

    /// Takes the mark of a key away, and lists it no more under this number.
    pub fn unmark_and_unlist(&mut self, end: EndId, key: usize)
        ensures clear { mark_of self.new.marks key ≡ 0 }
        ensures gone { slice_index self.new.listed.items end.0 ≢ key + 1 }
        ensures others { SameBut key self.old.marks self.new.marks }
        ensures listed { (number other : ℕ) → other ≢ key
            → slice_index self.old.listed.items number ≡ other + 1
            → slice_index self.new.listed.items number ≡ other + 1 }
        ensures only { (self.new.listed.items ≡ self.old.listed.items)
            ⊎ (self.new.listed.items ≡ slice_set self.old.listed.items end.0 0) }
    {
        self.marks.unmark_key(key);
        if self.is_key_of_end(end, key) {
            self.listed[end.0 as usize] = 0;
        }
    }

    /// The key to which the number of an end leads, where one is listed.
    pub fn key_of_end(&self, end: EndId) -> Option<usize>
        ensures { IsKeyOf self.now.listed.items end result }
    {
        match self.listed.get(end.0 as usize) {
            Some(entry) if *entry > 0 => Some(*entry as usize - 1),
            _ => None,
        }
    }

    /// Whether the number of an end leads to this key.
    pub fn is_key_of_end(&self, end: EndId, key: usize) -> bool
        ensures leads { result ≡ true → LeadsTo self.now.listed.items end key }
        ensures only { LeadsTo self.now.listed.items end key → result ≡ true }
    {
        match self.listed.get(end.0 as usize) {
            Some(entry) => *entry > 0 && *entry as usize - 1 == key,
            None => false,
        }
    }

    /// Marks the keys of the ends that were rung since the last call. Whether there may be one.
    pub fn mark_rung_ends(&mut self, listener: &mut Listener) -> bool
        ensures told { (names : ℕ) × TakesNames listener.old listener.new names
            × (result ≡ not (names == 0)) }
        ensures listed { self.new.listed ≡ self.old.listed }
        ensures keeps { KeepsMarks self.old.marks self.new.marks }
        ensures found { (steps : List BoardStep) × HasStepped listener.old listener.new steps
            × FindsAll self.new.listed.items self.new.marks steps }
        ensures only { (steps : List BoardStep) × HasStepped listener.old listener.new steps
            × MarksFound self.old.listed.items self.old.marks self.new.marks steps }
        ensures marked { (steps : List BoardStep) × HasStepped listener.old listener.new steps
            × MarksTaken self.new.listed.items self.new.marks steps }
        ensures emptied { (steps : List BoardStep) × HasStepped listener.old listener.new steps
            × EmptiesNamed steps }
    {
        let names = listener.take_rung_groups();
        let mut left = names;
        'groups: while left != 0 {
            let group = left.trailing_zeros();
            left &= !(1u64 << group);
            self.mark_rung_ends_of_group(listener, group as usize);
        }
        names != 0
    }

    /// Marks the keys of the ends that were rung and have their bits in the words of this group.
    fn mark_rung_ends_of_group(&mut self, listener: &mut Listener, group: usize)
        requires { group < 64 }
        ensures listed { self.new.listed ≡ self.old.listed }
        ensures keeps { KeepsMarks self.old.marks self.new.marks }
        ensures found { (steps : List BoardStep) × HasStepped listener.old listener.new steps
            × FindsBetween (16 * group) (16 * group + 16) self.new.listed.items self.new.marks
            steps }
        ensures only { (steps : List BoardStep) × HasStepped listener.old listener.new steps
            × MarksFound self.old.listed.items self.old.marks self.new.marks steps }
        ensures marked { (steps : List BoardStep) × HasStepped listener.old listener.new steps
            × MarksTaken self.new.listed.items self.new.marks steps }
        ensures emptied { (steps : List BoardStep) × HasStepped listener.old listener.new steps
            × EmptiesBetween (16 * group) (16 * group + 16) steps × EmptiesNamed steps }
    {
        for word in GROUP * group..GROUP * group + GROUP {
            self.mark_rung_ends_of_word(listener, word);
        }
    }

    /// Marks the keys of the ends that were rung and have their bits in this word.
    fn mark_rung_ends_of_word(&mut self, listener: &mut Listener, word: usize)
        requires { word < 1024 }
        ensures listed { self.new.listed ≡ self.old.listed }
        ensures keeps { KeepsMarks self.old.marks self.new.marks }
        ensures found { (steps : List BoardStep) × HasStepped listener.old listener.new steps
            × FindsBetween word (word + 1) self.new.listed.items self.new.marks steps }
        ensures only { (steps : List BoardStep) × HasStepped listener.old listener.new steps
            × MarksFound self.old.listed.items self.old.marks self.new.marks steps }
        ensures marked { (steps : List BoardStep) × HasStepped listener.old listener.new steps
            × MarksTaken self.new.listed.items self.new.marks steps }
        ensures emptied { (steps : List BoardStep) × HasStepped listener.old listener.new steps
            × EmptiesBetween word (word + 1) steps × EmptiesNamed steps }
    {
        let bits = listener.take_bits_of_word(word);
        self.mark_ends_of_bits(word, bits);
    }

    /// Marks the keys of the ends that have one of these bits of a word.
    fn mark_ends_of_bits(&mut self, word: usize, bits: u64)
        requires { word < 1024 }
        ensures listed { self.new.listed ≡ self.old.listed }
        ensures keeps { KeepsMarks self.old.marks self.new.marks }
        ensures found { (bit : ℕ) → bit < 64 → bit_at bits bit ≡ 1
            → MarksBit (word * 64 + bit) self.new.listed.items self.new.marks }
        ensures only { MarksOfWord word bits self.old.listed.items self.old.marks self.new.marks }
    {
        let mut left = bits;
        'bits: while left != 0 {
            let bit = left.trailing_zeros();
            left &= !(1u64 << bit);
            self.mark_ends_of_bit(word * 64 + bit as usize);
        }
    }

    /// Marks the keys of the ends that have this bit.
    fn mark_ends_of_bit(&mut self, bit: usize)
        requires { bit < 65536 }
        ensures listed { self.new.listed ≡ self.old.listed }
        ensures keeps { KeepsMarks self.old.marks self.new.marks }
        ensures found { MarksBit bit self.new.listed.items self.new.marks }
        ensures only { MarksOfBit bit self.old.listed.items self.old.marks self.new.marks }
    {
        for row in 0..self.listed.len() / BITS + 1 {
            self.mark_end_if_listed(row * BITS + bit);
        }
    }

    /// Marks the key that is listed under this number, if one is.
    fn mark_end_if_listed(&mut self, number: usize)
        ensures listed { self.new.listed ≡ self.old.listed }
        ensures keeps { KeepsMarks self.old.marks self.new.marks }
        ensures found { (key : ℕ) → slice_index self.old.listed.items number ≡ key + 1
            → HasBit self.new.marks key → mark_of self.new.marks key ≡ 1 }
        ensures only { MarksOfNumber number self.old.listed.items self.old.marks self.new.marks }
    {
        if let Some(entry) = self.listed.get(number) {
            let entry = *entry as usize;
            if entry > 0 {
                self.marks.mark_key(entry - 1);
            }
        }
    }
}
