//! How an agent is made, and given what it holds before the run.

ghost use Rattle.std.specs.Prelude.{◌≡◌, [], None, IfOk, OnOk};
ghost use Rattle.hub_agent.specs.Agents.{KeepsButEnds};
ghost use Rattle.hub_loop.specs.Adopting.{HoldsMore};

use crate::agent::Agent;
use crate::shared::{Peer, Shared};
use hub_broadcast::Roster;
use hub_envelope::{AgentId, OutOfMemory};
use hub_life::{Life, Order};
use hub_locked::Lends;
use hub_logging::Scribe;
use hub_loop::{Checkpoint, EventLoop, Held};
use hub_ports::Closings;
use hub_queue::Listener;
use hub_script::AgentKind;
use std::alloc::Global;

/// What an agent and its loop are made of.
#[derive(Drop)]
pub struct Seat {
    /// The number of the agent.
    pub number: AgentId,
    /// Keeps its log.
    pub scribe: Scribe,
    /// The seat of the loop at the word of its order.
    pub for_loop: Order,
    /// The seat of the agent itself.
    pub for_agent: Order,
    /// Where its loop sleeps.
    pub listener: Listener,
    /// What the agent has of all agents, by number.
    pub peers: Vec<Peer>,
}

fn new_life_for_kind(kind: AgentKind) -> Option<Life> {
    match kind {
        AgentKind::Window => None,
        AgentKind::Worker => Some(Life::new()),
    }
}

impl<'s, C: Checkpoint, K: Lends<Roster> + Drop> Agent<'s, C, K> {
    /// An agent that holds nothing yet, and casts over this roster.
    pub fn try_new(
        alloc: Global,
        kind: AgentKind,
        shared: &'s Shared,
        roster: K,
        checkpoint: &'s C,
        seat: Seat,
    ) -> Result<Agent<'s, C, K>, OutOfMemory>
        ensures nothing { IfOk result (λ opened. opened.ends.slots ≡ []) }
        ensures kept { IfOk result (λ opened. opened.kept ≡ None) }
        ensures order { IfOk result (λ opened. opened.order ≡ seat.for_agent) }
        ensures peers { IfOk result (λ opened. opened.peers ≡ seat.peers.items) }
        ensures roster { IfOk result (λ opened. opened.roster ≡ K.shown roster) }
    {
        let Seat {
            number,
            mut scribe,
            for_loop,
            for_agent,
            listener,
            peers,
        } = seat;
        let handler = scribe.replace_with_empty();
        Ok(Agent {
            alloc,
            shared,
            roster,
            event_loop: EventLoop::open(alloc, number, for_loop, handler, checkpoint, listener)?,
            scribe,
            order: for_agent,
            peers,
            life: new_life_for_kind(kind),
            graves: Vec::new(alloc),
            closings: Closings::none(),
        })
    }

    /// Holds an end that it is given before the run.
    pub fn give_end_before_run(&mut self, held: Held) -> Result<(), OutOfMemory>
        ensures same { KeepsButEnds self.old self.new }
        ensures held { OnOk result (HoldsMore self.old.ends self.new.ends held) }
    {
        match self.event_loop.hold_end_or_line(held) {
            Ok(()) => Ok(()),
            Err(_) => Err(OutOfMemory),
        }
    }
}
