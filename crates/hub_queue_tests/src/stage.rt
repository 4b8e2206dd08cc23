//! An end with its poster and its yard.
use crate::end::{End, Wanted};
use crate::parts::{accepts, open};
use hub_depot::{Depot, Key};
use hub_envelope::{EndId, LineId};
use hub_queue::{Onward, Poster};
use std::alloc::Global;
use std::sync::Wait;

/// An end with the poster of its last line, and the yard.
pub(crate) struct Stage {
    pub(crate) alloc: Global,
    pub(crate) yard: Depot<Onward>,
    pub(crate) poster: Option<Poster>,
    pub(crate) end: End,
}

// By hand, so that whoever drops one makes one call.
impl Drop for Stage {
    fn drop(self) {
        let Stage {
            alloc: _,
            yard,
            poster,
            end,
        } = self;
        drop(yard);
        drop(poster);
        drop(end);
    }
}

impl Stage {
    /// A mailbox with one line was opened, if there was memory.
    pub(crate) fn open(alloc: Global) -> Stage {
        let mut stage = Stage {
            alloc,
            yard: Depot::new(alloc),
            poster: None,
            end: End::new(alloc),
        };
        stage.reopen(1);
        stage
    }

    /// Another mailbox with so many lines takes the place of the last one.
    pub(crate) fn reopen(&mut self, lines: u8) {
        if let Some((taker, poster)) = open(self.alloc, lines) {
            self.end.put(taker);
            drop(self.poster.replace(poster));
        }
    }

    /// Whether a draft with this body is accepted under this epoch and number.
    pub(crate) fn accepts<R: Wait>(&mut self, rt: &R, text: &str, epoch: u32, number: u64) -> bool {
        match &mut self.poster {
            Some(poster) => accepts(rt, self.alloc, &self.yard, poster, text, (epoch, number)),
            None => false,
        }
    }

    /// Whether so many drafts are accepted by each of so many queues, numbered from 0 on there. The
    /// end is adopted in between.
    pub(crate) fn fills<R: Wait>(&mut self, rt: &R, queues: u32, count: u64, text: &str) -> bool {
        for epoch in 0..queues {
            if epoch > 0 && !self.end.moves(rt, &self.yard, 1) {
                return false;
            }
            for number in 0..count {
                if !self.accepts(rt, text, epoch, number) {
                    return false;
                }
            }
        }
        true
    }

    /// Whether the taker takes the only envelope of each of so many queues, and leaves the queue.
    pub(crate) fn takes_each<R: Wait>(&mut self, rt: &R, queues: u32, text: &str) -> bool {
        for epoch in 0..queues {
            if !self
                .end
                .takes(rt, text, &[Wanted::Got(epoch, 0), Wanted::Left])
            {
                return false;
            }
        }
        true
    }

    /// Whether the yard keeps the name of the end's line 0 at the queue 1, which it gives then.
    pub(crate) fn gives_onward<R: Wait>(&self, rt: &R) -> bool {
        let key = Key {
            end: EndId(0),
            epoch: 1,
            line: LineId(0),
        };
        match self.yard.take(rt, key) {
            Some(onward) => {
                drop(onward);
                true
            }
            None => false,
        }
    }
}
