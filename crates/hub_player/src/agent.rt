use hub_broadcast::Origin;
use hub_envelope::{AgentId, EndId};
use hub_life::{Event, Life, LifeError, Order, State};
use hub_loop::Held;
use hub_queue::{Bell, Listener};
use hub_test_parts::{Loop, open_loop};
use std::alloc::Global;

/// An agent: its order, its event loop and the bell that wakes it, and the life of a worker.
pub(crate) struct Agent {
    pub(crate) origin: Option<Origin>,
    /// It has found its order.
    pub(crate) is_ending: bool,
    /// It is given at the first seat, and looked for at the second.
    orders: Vec<Order>,
    bell: Bell,
    /// The loop that holds its ends. `None` once that has ended.
    pub(crate) event_loop: Option<Loop>,
    life: Option<Life>,
}

// By hand, so that whoever drops one makes one call, and its proof has no cases of its fields.
impl Drop for Agent {
    fn drop(self) {
        let Agent {
            origin,
            is_ending: _,
            orders,
            bell,
            event_loop,
            life,
        } = self;
        drop(origin);
        drop(orders);
        drop(bell);
        drop(event_loop);
        drop(life);
    }
}

impl Agent {
    /// `None` where there is no memory.
    pub(crate) fn open(alloc: Global, number: AgentId, origin: Option<Origin>) -> Option<Agent> {
        let (listener, bell) = Listener::new_with_first_bell(alloc).ok()?;
        let mut orders = Order::open(alloc, 4).ok()?;
        let event_loop = open_loop(alloc, number, &mut orders, listener)?;
        Some(Agent {
            origin,
            is_ending: false,
            orders,
            bell,
            event_loop: Some(event_loop),
            life: None,
        })
    }

    /// One more bell that wakes it. `None` where there is no memory.
    pub(crate) fn bell(&self) -> Option<Bell> {
        self.bell.clone().ok()
    }

    /// It has made a worker's queue, and has a life from the first one on.
    pub(crate) fn begin_life(&mut self) {
        if self.life.is_none() {
            self.life = Some(Life::new());
        }
    }

    /// The state that an event leaves. `None` where it has no life.
    pub(crate) fn event(&mut self, event: Event) -> Option<Result<State, LifeError>> {
        match &mut self.life {
            Some(life) => Some(life.event(event)),
            None => None,
        }
    }

    pub(crate) fn order(&mut self) {
        if let Some(order) = self.orders.get_mut(0) {
            order.give();
        }
    }

    /// Whether it is ending, since it finds its order now or has found it. The first time its life
    /// is terminated.
    pub(crate) fn sees(&mut self) -> bool {
        let is_seen = match self.orders.get_mut(1) {
            Some(order) => order.seen(),
            None => false,
        };
        if !is_seen {
            return false;
        }
        if !self.is_ending {
            self.is_ending = true;
            // No life refuses a termination.
            let _ = self.event(Event::Terminate);
        }
        true
    }
}

/// The loop of an agent. `None` where it has ended.
pub(crate) fn loop_of(agents: &mut Vec<Agent>, agent: AgentId) -> Option<&mut Loop> {
    agents.get_mut(usize::from(agent.0))?.event_loop.as_mut()
}

/// The loop holds an end from now on. Where there is no memory it is asked once more, since the end
/// was made. Whether it is held.
pub(crate) fn hold_in(event_loop: &mut Loop, held: Held) -> bool {
    match event_loop.hold_end_or_line(held) {
        Ok(()) => true,
        Err((_, held)) => event_loop.hold_end_or_line(held).ok().is_some(),
    }
}

/// The loop of an agent holds an end from now on. Whether it is held.
pub(crate) fn hold(agents: &mut Vec<Agent>, agent: AgentId, held: Held) -> bool {
    match loop_of(agents, agent) {
        Some(event_loop) => hold_in(event_loop, held),
        None => {
            drop(held);
            false
        }
    }
}

/// The end of this number, which the loop holds no more.
pub(crate) fn release(agents: &mut Vec<Agent>, agent: AgentId, end: EndId) -> Option<Held> {
    loop_of(agents, agent)?.release_end(end)
}
