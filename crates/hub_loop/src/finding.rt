//! How an end or a line is held, found by its number, lent, shown and given out.

ghost use Rattle.std.specs.Prelude.{
  ◌≡◌,
  ◌↔◌,
  ◌<◌,
  ℕ,
  true,
  Some,
  OnOk,
  IfOk,
  IfErr,
  OnErr,
  IfSome,
  IfNone,
};
ghost use Rattle.std.specs.Option.{option_copied, option_copied_mut};
ghost use Rattle.slab.specs.Slab.{get, HasRoomFor, SameValues};
ghost use Rattle.hub_loop.specs.Adopting.{HoldsMore};
ghost use Rattle.hub_loop.specs.Holding.{end_held, ends_held};
ghost use Rattle.hub_loop.specs.Looking.{HoldsNoEnd, IsEndOf, IsFound, IsLineTo, IsSlotOf};
ghost use Rattle.hub_loop.specs.Marking.{MarksKept};
ghost use Rattle.hub_loop.specs.Starting.{IsStartedAs};
ghost use Rattle.hub_ready.specs.Marking.{mark_of, ClearBetween, HasBit, IsFirstFrom};

use crate::ends::HeldEnds;
use crate::error::LoopError;
use crate::held::{Held, Sought};
use hub_envelope::{EndId, OutOfMemory};
use hub_ready::Marks;
use std::alloc::Global;
use std::collections::BTreeSet;

/// Lists a line that is to be held under this key.
fn record_line_key(
    lines: &mut BTreeSet<(EndId, usize)>,
    held: &Held,
    key: usize,
) -> Result<(), OutOfMemory> {
    if let Held::Line(poster) = held {
        lines.insert((poster.name().end, key))?;
    }
    Ok(())
}

/// The least key that is listed under this number.
fn first_line_key_for_destination(lines: &BTreeSet<(EndId, usize)>, end: EndId) -> Option<usize> {
    let found = lines.range((end, 0)..=(end, usize::MAX)).next()?;
    Some(found.1)
}

/// Whether the end of this kind and number is held there.
fn is_end_of_kind_and_number(slot: Option<&Held>, kind: Sought, end: EndId) -> bool
    ensures { (result ≡ true) ↔ IsSlotOf (IsEndOf kind end) (option_copied slot.entry) }
{
    match slot {
        Some(held) => held.is_of_kind(kind) && held.id() == end,
        None => false,
    }
}

/// Whether a line that posts at the end of this number is held there.
fn is_line_for_destination(slot: Option<&Held>, end: EndId) -> bool
    ensures { (result ≡ true) ↔ IsSlotOf (IsLineTo end) (option_copied slot.entry) }
{
    match slot {
        Some(Held::Line(poster)) => poster.name().end == end,
        _ => false,
    }
}

/// The first marked key from the one up to the other.
pub(crate) fn first_marked_in_range(marks: &Marks, low: usize, high: usize) -> Option<usize>
    ensures some { IfSome result (λ key. (key < high) × IsFirstFrom marks.now low key) }
    ensures none { IfNone result (ClearBetween marks.now low high) }
{
    let key = marks.next_from(low)?;
    if key >= high {
        return None;
    }
    Some(key)
}

impl HeldEnds {
    /// Holds one more, for which there is room. An end is marked, since something may wait there.
    pub(crate) fn hold_assuming_room(&mut self, held: Held)
        requires room { HasRoomFor self.old.held 1 }
        requires bit { HasBit self.old.ready.marks self.old.held.vacant_key }
        ensures held { HoldsMore self.old.held self.new.held held }
        ensures marks { MarksKept self.old self.new }
    {
        let end = held.id_unless_line();
        let key = self.held.insert_reserved(held);
        if let Some(end) = end {
            self.ready.mark_and_list(end, key);
        }
    }

    /// Holds one more, under a key where nothing was held. Where there was no memory it comes back.
    pub(crate) fn hold_end_or_line(&mut self, held: Held) -> Result<(), (LoopError, Held)>
        ensures ok { OnOk result (HoldsMore self.old.held self.new.held held) }
        ensures back { IfErr result (λ refused. refused.1 ≡ held) }
        ensures err { OnErr result (SameValues self.old.held self.new.held) }
        ensures marks { MarksKept self.old self.new }
    {
        if self.make_room(held.id_unless_line()).is_err() {
            return Err((LoopError::OutOfMemory, held));
        }
        if record_line_key(&mut self.lines, &held, self.held.vacant_key()).is_err() {
            return Err((LoopError::OutOfMemory, held));
        }
        self.hold_assuming_room(held);
        Ok(())
    }

    /// Makes room for one more that is to be held, an end of this number or a line, and for its
    /// mark.
    pub(crate) fn make_room(&mut self, end: Option<EndId>) -> Result<(), OutOfMemory>
        ensures room { OnOk result (HasRoomFor self.new.held 1) }
        ensures bit { OnOk result (HasBit self.new.ready.marks self.new.held.vacant_key) }
        ensures held { SameValues self.old.held self.new.held }
        ensures marks { MarksKept self.old self.new }
    {
        self.held.reserve(1)?;
        let key = self.held.vacant_key();
        match end {
            Some(end) => self.ready.reserve_for_end(end, key),
            None => self.ready.marks.reserve(key),
        }
    }

    /// Gives the end of this number out. `None` where it isn't held.
    pub(crate) fn release_end(&mut self, end: EndId) -> Option<Held>
        ensures given { IfSome result (λ held. (end_held held ≡ Some end)
            × HoldsMore self.new.held self.old.held held) }
        ensures none { IfNone result (self.new.held ≡ self.old.held) }
        ensures unchanged { IfNone result (self.new ≡ self.old) }
        ensures missing { IfNone result (HoldsNoEnd self.old.held end) }
        ensures marks { MarksKept self.old self.new }
    {
        let key = self.find_key_of_end(Sought::End, end)?;
        self.ready.unmark_and_unlist(end, key);
        self.held.try_remove(key)
    }

    /// The marked key under which the end of this kind and number is held.
    fn find_marked_key_of_end(&self, kind: Sought, end: EndId) -> Option<usize>
        ensures some { IfSome result (λ key. IsSlotOf (IsEndOf kind end) (get self.now.held key)) }
        ensures none { IfNone result ((key : ℕ) → mark_of self.now.ready.marks key ≡ 1 →
            IsSlotOf (IsEndOf kind end) (get self.now.held key) → ⊥) }
    {
        let high = self.held.capacity();
        let mut key = 0;
        'marks: while let Some(marked) = first_marked_in_range(&self.ready.marks, key, high) {
            if is_end_of_kind_and_number(self.held.get(marked), kind, end) {
                return Some(marked);
            }
            key = marked + 1;
        }
        None
    }

    /// The key of the end of this kind and number. Its number leads there, unless it is marked.
    pub(crate) fn find_key_of_end(&self, kind: Sought, end: EndId) -> Option<usize>
        ensures { IsFound (IsEndOf kind end) self.now.held result }
    {
        if let Some(key) = self.ready.key_of_end(end) {
            if is_end_of_kind_and_number(self.held.get(key), kind, end) {
                return Some(key);
            }
        }
        self.find_marked_key_of_end(kind, end)
    }

    /// The key of a line that posts at the end of this number. A borrower may have left another one
    /// where it is listed, so that all are looked at where it isn't found there.
    pub(crate) fn find_line_for_destination(&self, end: EndId) -> Option<usize>
        ensures { IsFound (IsLineTo end) self.now.held result }
    {
        if let Some(key) = first_line_key_for_destination(&self.lines, end) {
            if is_line_for_destination(self.held.get(key), end) {
                return Some(key);
            }
        }
        for key in 0..self.held.capacity() {
            if is_line_for_destination(self.held.get(key), end) {
                return Some(key);
            }
        }
        None
    }

    /// Lends what is held under a key, and marks it: whoever borrows an end may start it.
    pub(crate) fn mark_and_borrow(&mut self, key: usize) -> Option<&mut Held>
        ensures { option_copied_mut result ≡ get self.old.held key }
    {
        if !self.held.contains(key) {
            return None;
        }
        self.ready.marks.mark_key(key);
        self.held.get_mut(key)
    }

    /// Enables the end of this kind and number, and marks it: something may wait there. Whether it
    /// is held.
    pub(crate) fn start_end_of_kind(&mut self, kind: Sought, end: EndId) -> bool
        ensures held { IsStartedAs kind self.old.held self.new.held end result }
        ensures marks { MarksKept self.old self.new }
    {
        let Some(key) = self.find_key_of_end(kind, end) else {
            return false;
        };
        match self.held.get_mut(key) {
            Some(held) => {
                held.start();
                self.ready.marks.mark_key(key);
                true
            }
            None => false,
        }
    }

    /// The numbers of the ends, in the order of their keys.
    pub(crate) fn end_numbers(&self, alloc: Global) -> Result<Vec<EndId>, OutOfMemory>
        ensures { IfOk result (λ ends. ends.items ≡ ends_held self.now.held) }
    {
        let mut numbers = Vec::new(alloc);
        for (_, held) in self.held.iter() {
            if let Some(end) = held.id_unless_line() {
                numbers.push(end)?;
            }
        }
        Ok(numbers)
    }
}
