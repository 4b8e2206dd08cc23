//! Which ends of a loop are asked next: a bit for each key, in words of two levels.
ghost use Rattle.std.specs.Prelude.{
  ◌≡◌,
  ℕ,
  ◌+◌,
  ◌*◌,
  ◌/◌,
  ◌<◌,
  ◌⊎◌,
  ◌≤◌,
  ◌^◌,
  [],
  length,
  slice_index,
  IfSome,
  IfNone,
  OnOk,
};
ghost use Rattle.std.specs.Int.{bit_at};
ghost use Rattle.hub_ready.specs.Marking.{
  mark_of,
  ClearBetween,
  HasBit,
  IsNextMarked,
  IsFirstFrom,
  SameBut,
};

use crate::OutOfMemory;
use std::alloc::Global;
use std::marker::Model;

/// How many words of marks there may be. A slab with more keys has no memory.
const MOST_WORDS: usize = 1 << 40;

/// The keys of a loop that are marked.
#[derive(Drop)]
pub struct Marks {
    /// A bit for each key.
    words: Vec<u64>,
    /// A bit for each of those words, which is set where the word has one.
    names: Vec<u64>,
}

impl Model for Marks {
    ghost use Rattle.std.specs.Prelude.{List, ℕ};
    ghost use Rattle.hub_ready.specs.Marking.{HasGroupName};

    ghost Value = { List ℕ };

    ghost view = { λ m. m.words.items };

    ghost invariant = { λ m. HasGroupName m.words.items m.names.items };
}

/// The first bit of a word that is set from this one on.
fn first_set_bit_from(word: u64, from: u32) -> Option<u32>
    requires { from < 64 }
    ensures some { IfSome result (λ bit. (from ≤ bit) × (bit < 64) × (bit_at word bit ≡ 1)
        × ((other : ℕ) → from ≤ other → other < bit → bit_at word other ≡ 0)) }
    ensures none { IfNone result ((other : ℕ) → from ≤ other → bit_at word other ≡ 0) }
    ensures nothing { IfNone result (from ≡ 0 → word ≡ 0) }
{
    let rest = word >> from;
    if rest == 0 {
        return None;
    }
    Some(from + rest.trailing_zeros())
}

/// The first bit that is set in one word, from this one of its bits on.
fn next_set_bit_in_word(words: &[u64], place: usize, bit: u32) -> Option<usize>
    requires place { place < length words.now }
    requires bit { bit < 64 }
    requires few { length words.now ≤ 2 ^ 40 }
    ensures some { IfSome result (λ key. (key / 64 ≡ place)
        × IsFirstFrom words.now (place * 64 + bit) key) }
    ensures none { IfNone result (ClearBetween words.now (place * 64 + bit) (place * 64 + 64)) }
    ensures nothing { IfNone result (bit ≡ 0 → slice_index words.now place ≡ 0) }
{
    let found = first_set_bit_from(words[place], bit)?;
    Some(place * 64 + found as usize)
}

/// The first bit that is set from this one on.
fn first_set_bit_in_words(words: &[u64], from: usize) -> Option<usize>
    requires { length words.now ≤ 2 ^ 40 }
    ensures { IsNextMarked words.now from result }
{
    let mut bit = (from % 64) as u32;
    for place in from / 64..words.len() {
        if let Some(key) = next_set_bit_in_word(words, place, bit) {
            return Some(key);
        }
        bit = 0;
    }
    None
}

/// Makes so many words of them. Those that are added are 0.
fn grow(words: &mut Vec<u64>, len: usize) -> Result<(), OutOfMemory>
    ensures len { OnOk result (len ≤ length words.new.items) }
    ensures most { length words.new.items ≡ length words.old.items
        ⊎ length words.new.items ≡ len }
    ensures longer { length words.old.items ≤ length words.new.items }
    ensures same { (word : ℕ) → slice_index words.new.items word
        ≡ slice_index words.old.items word }
{
    if len > words.len() {
        words.resize(len, 0)?;
    }
    Ok(())
}

/// Sets a bit of such words.
fn set_bit(words: &mut Vec<u64>, key: usize)
    requires { key / 64 < length words.old.items }
    ensures set { mark_of words.new.items key ≡ 1 }
    ensures others { SameBut key words.old.items words.new.items }
{
    words[key / 64] |= 1 << (key % 64);
}

/// Clears a bit of such words.
fn clear_bit(words: &mut Vec<u64>, key: usize)
    requires { key / 64 < length words.old.items }
    ensures clear { mark_of words.new.items key ≡ 0 }
    ensures others { SameBut key words.old.items words.new.items }
    ensures less { slice_index words.new.items (key / 64)
        ≤ slice_index words.old.items (key / 64) }
{
    words[key / 64] &= !(1 << (key % 64));
}

impl Marks {
    /// No key is marked. It takes no memory.
    pub fn new(alloc: Global) -> Marks
        ensures { result ≡ [] }
    {
        Marks {
            words: Vec::new(alloc),
            names: Vec::new(alloc),
        }
    }

    /// Makes a bit for this key and those before it.
    pub fn reserve(&mut self, key: usize) -> Result<(), OutOfMemory>
        ensures ok { OnOk result (HasBit self.new key) }
        ensures same { (other : ℕ) → mark_of self.new other ≡ mark_of self.old other }
        ensures longer { length self.old ≤ length self.new }
    {
        let words = key / 64 + 1;
        if words > MOST_WORDS {
            return Err(OutOfMemory);
        }
        grow(&mut self.names, words / 64 + 1)?;
        grow(&mut self.words, words)
    }

    /// Marks a key, if there is a bit for it.
    pub fn mark_key(&mut self, key: usize)
        ensures set { HasBit self.old key → mark_of self.new key ≡ 1 }
        ensures others { SameBut key self.old self.new }
    {
        let place = key / 64;
        if place >= self.words.len() {
            return;
        }
        set_bit(&mut self.words, key);
        set_bit(&mut self.names, place);
    }

    /// Takes the mark of a key away.
    pub fn unmark_key(&mut self, key: usize)
        ensures clear { mark_of self.new key ≡ 0 }
        ensures others { SameBut key self.old self.new }
    {
        let place = key / 64;
        if place >= self.words.len() {
            return;
        }
        clear_bit(&mut self.words, key);
        if self.words[place] == 0 {
            clear_bit(&mut self.names, place);
        }
    }

    /// The first key that is marked, from this one on.
    pub fn next_from(&self, key: usize) -> Option<usize>
        ensures { IsNextMarked self.now key result }
    {
        let place = key / 64;
        if place >= self.words.len() {
            return None;
        }
        if let Some(found) = next_set_bit_in_word(self.words.as_slice(), place, (key % 64) as u32) {
            return Some(found);
        }
        let place = first_set_bit_in_words(self.names.as_slice(), place + 1)?;
        if place >= self.words.len() {
            return None;
        }
        next_set_bit_in_word(self.words.as_slice(), place, 0)
    }
}
