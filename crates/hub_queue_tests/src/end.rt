//! The side of one end that takes.
//!
//! A function that itself lets a taker or a grave go costs some seconds of the check, so each is
//! handed to `drop`.
use hub_depot::Depot;
use hub_envelope::EndId;
use hub_queue::{AdoptError, Grave, Onward, Sweep, Swept, Taker, Took};
use hub_test_parts::{bell, is_message, take};
use std::alloc::Global;
use std::mem::replace;
use std::sync::Wait;

/// What a take is to come to.
#[derive(Clone, Copy)]
pub(crate) enum Wanted {
    /// The envelope of this epoch and number.
    Got(u32, u64),
    /// A queue was left.
    Left,
    /// Somebody is inside the taker's queue.
    Busy,
    /// Nothing is there.
    Empty,
}

/// The taker of the end 0, or what is left of it once it was closed; and what was taken out of the
/// yard.
pub(crate) struct End {
    alloc: Global,
    taker: Option<Taker>,
    grave: Option<Grave>,
    onward: Option<Onward>,
}

// By hand, so that whoever drops one makes one call.
impl Drop for End {
    fn drop(self) {
        let End {
            alloc: _,
            taker,
            grave,
            onward,
        } = self;
        drop(taker);
        drop(grave);
        drop(onward);
    }
}

fn is_wanted(took: &Took, wanted: &Wanted, text: &str) -> bool {
    match wanted {
        Wanted::Got(epoch, number) => match took {
            Took::Got(envelope) => is_message(envelope, *epoch, *number, text),
            _ => false,
        },
        Wanted::Left => matches!(took, Took::Again),
        Wanted::Busy => matches!(took, Took::Busy),
        Wanted::Empty => matches!(took, Took::Empty),
    }
}

/// Sweeps, and once more where there was no memory.
fn sweep<R: Wait>(rt: &R, grave: Grave) -> Sweep {
    match grave.sweep(rt) {
        Sweep::NoRoom(grave) => grave.sweep(rt),
        sweep => sweep,
    }
}

impl End {
    /// No taker is at hand.
    pub(crate) fn new(alloc: Global) -> End {
        End {
            alloc,
            taker: None,
            grave: None,
            onward: None,
        }
    }

    /// This taker takes from the end.
    pub(crate) fn put(&mut self, taker: Taker) {
        drop(self.taker.replace(taker));
    }

    pub(crate) fn start(&mut self) -> bool {
        let Some(taker) = &mut self.taker else {
            return false;
        };
        taker.start();
        true
    }

    pub(crate) fn take<R: Wait>(&mut self, rt: &R) -> Option<Took> {
        match &mut self.taker {
            Some(taker) => Some(take(rt, taker)),
            None => None,
        }
    }

    /// Whether takes come to these, one after another, and the envelopes have this text.
    pub(crate) fn takes<R: Wait>(&mut self, rt: &R, text: &str, all: &[Wanted]) -> bool {
        for wanted in all {
            let is_so = match self.take(rt) {
                Some(took) => is_wanted(&took, wanted, text),
                None => false,
            };
            if !is_so {
                return false;
            }
        }
        true
    }

    /// Whether so many queues stand from the taker's to the newest, that one not counted.
    pub(crate) fn is_behind(&self, queues: u32) -> bool {
        match &self.taker {
            Some(taker) => taker.behind() == queues,
            None => false,
        }
    }

    /// Moves the end on, to a loop at whose bell nobody sleeps. `None` without a taker.
    pub(crate) fn adopt<R: Wait>(
        &mut self,
        rt: &R,
        yard: &Depot<Onward>,
    ) -> Option<Result<(), AdoptError>> {
        let taker = self.taker.take()?;
        let Some(bell) = bell(self.alloc) else {
            self.put(taker);
            return Some(Err(AdoptError::OutOfMemory));
        };
        match taker.adopt(rt, yard, bell) {
            Ok(taker) => {
                self.put(taker);
                Some(Ok(()))
            }
            Err((error, taker)) => {
                self.put(taker);
                Some(Err(error))
            }
        }
    }

    /// Whether the end was moved on so often.
    pub(crate) fn moves<R: Wait>(&mut self, rt: &R, yard: &Depot<Onward>, adoptions: u32) -> bool {
        for _ in 0..adoptions {
            if !matches!(self.adopt(rt, yard), Some(Ok(()))) {
                return false;
            }
        }
        true
    }

    /// Takes what the yard keeps. Whether there was something.
    pub(crate) fn empties<R: Wait>(&mut self, rt: &R, yard: &Depot<Onward>) -> bool {
        drop(replace(&mut self.onward, yard.take_any(rt)));
        self.onward.is_some()
    }

    /// Whether the yard has again what was taken out of it.
    pub(crate) fn gives_back<R: Wait>(&mut self, rt: &R, yard: &Depot<Onward>) -> bool {
        match self.onward.take() {
            Some(onward) => yard.put(rt, onward).is_ok(),
            None => false,
        }
    }

    pub(crate) fn close(&mut self) -> bool {
        match self.taker.take() {
            Some(taker) => {
                drop(self.grave.replace(taker.close()));
                true
            }
            None => false,
        }
    }

    /// What a sweep has discarded. `None` where somebody is inside, or nothing was closed.
    pub(crate) fn sweep<R: Wait>(&mut self, rt: &R) -> Option<Swept> {
        match sweep(rt, self.grave.take()?) {
            Sweep::Discarded(swept) => Some(swept),
            Sweep::StillInside(grave) | Sweep::NoRoom(grave) => {
                drop(self.grave.replace(grave));
                None
            }
        }
    }

    /// Whether a sweep discards so many envelopes of the first queue, numbered from 0 on, with
    /// this text.
    pub(crate) fn discards<R: Wait>(&mut self, rt: &R, text: &str, count: usize) -> bool {
        match self.sweep(rt) {
            Some(swept) => are_numbered(&swept, text, count),
            None => false,
        }
    }
}

fn are_numbered(swept: &Swept, text: &str, count: usize) -> bool {
    let mut next: u64 = 0;
    for envelope in swept.envelopes() {
        if !is_message(envelope, 0, next, text) {
            return false;
        }
        next = next.wrapping_add(1);
    }
    swept.closed_end_id() == EndId(0) && swept.envelopes().len() == count
}
