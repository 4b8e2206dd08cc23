//! The ends and the lines that a loop holds, each under its key.

ghost use Rattle.std.specs.Prelude.{◌≡◌, ◌≤◌, []};
ghost use Rattle.hub_loop.specs.Reaching.{AreReached};

use crate::ending::Closed;
use crate::held::Held;
use hub_envelope::EndId;
use hub_queue::Bell;
use hub_ready::Ready;
use slab::Slab;
use std::alloc::Global;
use std::collections::BTreeSet;
use std::mem::replace;

/// The ends and the lines that a loop holds.
#[derive(Drop)]
pub(crate) struct HeldEnds {
    /// Each under its key.
    pub(crate) held: Slab<Held>,
    /// The key with which the next asking begins.
    pub(crate) next: usize,
    /// The ends that are worth a look, and the keys of the ends by their numbers.
    pub(crate) ready: Ready,
    /// The lines, each by the number of the end at which it posts, with its key.
    pub(crate) lines: BTreeSet<(EndId, usize)>,
    ghost room: { next ≤ held.capacity },
    ghost reached: { AreReached held ready },
}

impl HeldEnds {
    /// Nothing is held. It takes no memory.
    pub(crate) fn new(alloc: Global) -> HeldEnds
        ensures { result.held.slots ≡ [] }
    {
        HeldEnds {
            held: Slab::new(alloc),
            next: 0,
            ready: Ready::new(alloc),
            lines: BTreeSet::new(alloc),
        }
    }

    /// Takes out all that is held.
    pub(crate) fn take_all_held(&mut self, alloc: Global) -> Slab<Held>
        ensures { result ≡ self.old.held }
    {
        let HeldEnds {
            held,
            next: _,
            ready,
            lines,
        } = replace(self, HeldEnds::new(alloc));
        drop(ready);
        drop(lines);
        held
    }
}

/// What a loop holds, and the ports that it has closed because they could not be adopted.
pub(crate) struct Holding {
    pub(crate) bell: Bell,
    pub(crate) ends: HeldEnds,
    /// The ports that could not be adopted.
    pub(crate) closed: Closed,
}

// By hand, so that whoever drops one makes one call, and its proof has no cases of its fields.
impl Drop for Holding {
    fn drop(self) {
        let Holding { bell, ends, closed } = self;
        drop(bell);
        drop(ends);
        drop(closed);
    }
}

impl Holding {
    /// Nothing is held. It takes no memory.
    pub(crate) fn new(alloc: Global, bell: Bell) -> Holding
        ensures held { result.ends.held.slots ≡ [] }
        ensures bell { result.bell ≡ bell }
        ensures closed { result.closed.graves.items ≡ [] }
    {
        Holding {
            bell,
            ends: HeldEnds::new(alloc),
            closed: Closed::new(alloc),
        }
    }
}
