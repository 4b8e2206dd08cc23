//! Which lines of a fan are worth a look first.
use crate::OutOfMemory;
use hub_channel::{NO_TOKEN, take_wake_token};
use std::alloc::Global;
use std::sync::Arc;
use std::sync::atomic::{AtomicU64, Ordering};

/// After how many looks in vain the bits of all lines are cleared.
const MOST_MISSES: u64 = 64;

/// The words that a fan shares with its posters.
#[derive(Drop)]
pub struct FanWords {
    // A bit for each line, which its poster sets behind a post where it is clear.
    bits: AtomicU64,
    // Whom to wake for the fan.
    token: AtomicU64,
}

impl FanWords {
    pub(crate) fn new_shared(alloc: Global) -> Result<Arc<FanWords>, OutOfMemory> {
        let words = FanWords {
            bits: AtomicU64::new(0),
            token: AtomicU64::new(NO_TOKEN),
        };
        Ok(Arc::new(alloc, words)?)
    }

    /// Tells the taker that something was posted over the line of this bit, and answers whom to
    /// wake. A bit that is set already is one that the taker clears before it looks there again.
    #[inline]
    pub(crate) fn set_bit_and_take_token(&self, bit: u64) -> u64 {
        if self.bits.load(Ordering::SeqCst) & bit != 0 {
            return NO_TOKEN;
        }
        self.bits.fetch_or(bit, Ordering::SeqCst);
        take_wake_token(&self.token)
    }

    /// Sets the token, and answers the one that was there.
    pub(crate) fn replace_token(&self, token: u64) -> u64 {
        self.token.swap(token, Ordering::SeqCst)
    }

    /// Takes the token out.
    pub(crate) fn take_wake_token(&self) -> u64 {
        take_wake_token(&self.token)
    }
}

/// The bit of a line.
pub(crate) fn bit_of_line(line: usize) -> u64 {
    1 << (line % 64)
}

/// Which lines are worth a look first. No clause rests on them.
#[derive(Drop)]
pub struct Hints {
    pub(crate) words: Arc<FanWords>,
    // The lines whose bits were cleared, and that weren't found empty since.
    known: u64,
    misses: u64,
}

impl Hints {
    pub(crate) fn new(words: Arc<FanWords>) -> Hints {
        Hints {
            words,
            known: 0,
            misses: 0,
        }
    }

    /// The lines to ask first, each by its bit.
    pub(crate) fn ready_lines(&mut self) -> u64 {
        if self.misses >= MOST_MISSES {
            self.gather();
        }
        self.words.bits.load(Ordering::SeqCst) | self.known
    }

    /// A line that was asked first gave nothing.
    pub(crate) fn record_empty_line(&mut self, line: usize) {
        self.known &= !bit_of_line(line);
        self.misses = self.misses.wrapping_add(1);
    }

    /// Clears the bits of all lines, and keeps in mind which were set.
    pub(crate) fn gather(&mut self) {
        self.misses = 0;
        if self.words.bits.load(Ordering::SeqCst) != 0 {
            self.known |= self.words.bits.swap(0, Ordering::SeqCst);
        }
    }
}
