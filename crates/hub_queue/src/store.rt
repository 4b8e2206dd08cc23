//! The queue that the passes of a mailbox are of, and what those know of it.

use crate::queue_rule::QueueRule;
use crossbeam_queue::{RuledSegQueue, SegPass};
use hub_envelope::Envelope;

/// A queue of envelopes, under its rule.
pub type EnvelopeQueue = RuledSegQueue<Envelope, PassView, QueueRule>;

/// What one caller knows of such a queue. It has no bytes.
pub type Pass = SegPass<Envelope, PassView>;

/// One queue, which is freed with the envelopes that it holds once nobody has it.
pub struct Store {
    pub queue: EnvelopeQueue,
}

impl Drop for Store {
    fn drop(self) {
        let Store { queue } = self;
        queue.destroy();
    }
}

/// What the pass of a line knows: the queue's end and epoch, the line, what the line has put, and
/// how many of its pushes the queue has refused.
pub struct PutView {
    pub end: u32,
    pub epoch: u32,
    pub line: u8,
    pub put: [Envelope; 0],
    pub refused: u64,
}

/// What the taker's pass knows: the queue's end and epoch, how many lines have got a pass, what was
/// taken, and of each pass that it has taken in for good what its line has put.
pub struct TakeView {
    pub end: u32,
    pub epoch: u32,
    pub lines: u8,
    pub got: [Envelope; 0],
    pub known: [PutView; 0],
}

/// What a pass knows, by what may be done with it.
pub enum PassView {
    Takes(TakeView),
    Puts(PutView),
    /// The taker's pass while a line's pass is lent to it.
    Both(TakeView, PutView),
    /// Nothing may be done with it any more.
    Spent,
}
