//! Loops whose handlers keep what is delivered.

use hub_envelope::{AgentId, EndId, Envelope, OutOfMemory};
use hub_life::Order;
use hub_loop::{EventLoop, Handler, NoCheckpoint};
use hub_queue::Listener;
use std::alloc::Global;
use std::sync::Wait;

/// The loop of an agent.
pub type Loop = EventLoop<Note, NoCheckpoint>;

/// An envelope that was delivered, and those of its ports that the loop doesn't hold.
#[derive(Drop)]
pub struct Delivered {
    pub envelope: Envelope,
    pub missing: Vec<EndId>,
}

/// What was delivered and is not shown yet.
#[derive(Drop)]
pub struct Note {
    alloc: Global,
    pub delivered: Vec<Delivered>,
    /// The next call is to be refused.
    pub refuses: bool,
    /// The order to end is given with so many deliveries. None is with 0.
    pub until_order: usize,
    order: Order,
}

impl Handler for Note {
    ghost use Rattle.std.specs.Prelude.{⊤};

    ghost leaves = { λ _ _ _ _. ⊤ };

    ghost refuses = { λ _ _ _ _. ⊤ };

    fn got<R: Wait>(
        &mut self,
        _rt: &R,
        envelope: &Envelope,
        missing: &[EndId],
    ) -> Result<(), OutOfMemory> {
        if self.refuses {
            self.refuses = false;
            return Err(OutOfMemory);
        }
        let delivered = Delivered {
            envelope: envelope.clone()?,
            missing: Vec::from_slice(self.alloc, missing)?,
        };
        self.delivered.push(delivered)?;
        if self.delivered.len() == self.until_order {
            self.order.give();
        }
        Ok(())
    }
}

/// A loop that holds nothing, with two of these seats. `None` where there is no memory.
pub fn open_loop(
    alloc: Global,
    agent: AgentId,
    orders: &mut Vec<Order>,
    listener: Listener,
) -> Option<Loop> {
    let seat = orders.pop()?;
    let note = Note {
        alloc,
        delivered: Vec::new(alloc),
        refuses: false,
        until_order: 0,
        order: orders.pop()?,
    };
    EventLoop::open(alloc, agent, seat, note, NoCheckpoint, listener).ok()
}
