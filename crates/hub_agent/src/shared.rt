ghost use Rattle.std.specs.Prelude.{◌≡◌};
ghost use Rattle.hub_agent.specs.Agents.{peer_ordered, woken};

use hub_clients::Directory;
use hub_envelope::OutOfMemory;
use hub_life::Order;
use hub_ports::Hub;
use hub_queue::Bell;
use std::alloc::Global;
use std::sync::Wait;

/// What the agents of a run share, but for the roster of broadcast channels: each has one way to
/// that, the one over which it casts.
#[derive(Drop)]
pub struct Shared {
    /// The ports in flight and the posters of queues that moved.
    pub hub: Hub,
    /// The queues of clients and workers.
    pub directory: Directory,
}

impl Shared {
    /// Nothing is shared yet.
    pub fn new(alloc: Global) -> Shared {
        Shared {
            hub: Hub::new(alloc),
            directory: Directory::new(alloc),
        }
    }

    /// Closes the queues that nobody has fetched and the ports that nobody has received, and
    /// discards what waits for them. No log tells of it. Where memory runs out it goes on once.
    pub fn close_all_unclaimed<R: Wait>(self, rt: &R) -> Result<(), OutOfMemory> {
        let Shared { hub, directory } = self;
        directory.end(rt);
        let Err((OutOfMemory, hub)) = hub.end(rt) else {
            return Ok(());
        };
        match hub.end(rt) {
            Ok(()) => Ok(()),
            Err((error, _)) => Err(error),
        }
    }
}

/// What an agent has of another one, or of itself: a seat at the word of its order, and what wakes
/// its thread.
#[derive(Drop)]
pub struct Peer {
    /// A seat at the word of its order.
    pub order: Order,
    /// What wakes its thread.
    pub bell: Bell,
}

impl Peer {
    /// Gives the agent the order to end, and wakes it.
    pub(crate) fn order_to_stop(&mut self)
        ensures { self.new ≡ peer_ordered self.old }
    {
        self.order.give();
        self.bell.wake();
    }

    /// Wakes the agent.
    pub(crate) fn wake(&mut self)
        ensures { self.new ≡ woken self.old }
    {
        self.bell.wake();
    }
}

/// Gives all agents the order to end, so that none waits for one that gives up.
pub(crate) fn order_all_to_stop(peers: &mut [Peer]) {
    for peer in peers {
        peer.order_to_stop();
    }
}
