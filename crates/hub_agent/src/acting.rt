//! The actions of an agent, in order. An action whose end isn't held any more is skipped.

ghost use Rattle.std.specs.Prelude.{⊤, ◌≡◌, List, IfErr, IfOk, OnOk, option_map};
ghost use Rattle.hub_agent.specs.Doing.{actions_of};
ghost use Rattle.hub_life.specs.Course.{after as lived};
ghost use Rattle.hub_script.specs.Contents.{actions};
ghost use Rattle.hub_script.specs.declared.action.ActionKind.TheVariants.{Hand};
ghost use Rattle.hub_agent.specs.Agents.{Changes, ClosesOwn, KeepsButEnds, KeepsButClosings};
ghost use Rattle.hub_agent.specs.Agents.{StartsEnd, peer_ordered, with_peer, woken};
ghost use Rattle.hub_agent.specs.Entries.{IsCloseLogged, WritesEntries};
ghost use Rattle.hub_agent.specs.Owning.{Accounts, HoldsNoMore};
ghost use Rattle.hub_agent.specs.Acting.{ActsFirst};
ghost use Rattle.hub_trace.specs.declared.log_entry.LogEntry.{LogEntry};

use crate::actor::{Acted, Actor, do_actions_until_ordered_to_stop};
use crate::agent::Agent;
use crate::logging::log_closed_end;
use crate::shared::{Peer, Shared, order_all_to_stop};
use hub_broadcast::Roster;
use hub_clients::{Directory, HandError};
use hub_envelope::{AgentId, EndId, OutOfMemory};
use hub_life::{Event, Life};
use hub_locked::Lends;
use hub_loop::{Checkpoint, Held, Way};
use hub_script::{ActionKind, Script};
use std::sync::Wait;

/// What an agent takes turns for.
#[derive(Clone, Copy)]
pub(crate) enum Awaited {
    /// That so many messages are delivered after the first so many.
    Messages { after: u64, count: u32 },
    /// That it holds the port.
    Port(EndId),
    /// That it holds the queue, which is handed to it.
    Queue(EndId),
}

/// The error of a hand that was refused for want of memory.
fn out_of_memory_if_so(error: HandError) -> Option<OutOfMemory> {
    match error {
        HandError::OutOfMemory => Some(OutOfMemory),
        HandError::Taken => None,
    }
}

/// Gives a queue to an agent. Where it wasn't handed it comes back, with an error where that was
/// for want of memory; so does what is no queue.
fn hand_over<R: Wait>(
    rt: &R,
    directory: &Directory,
    held: Held,
    to: AgentId,
) -> Result<(), (Option<OutOfMemory>, Held)>
    ensures { IfErr result (λ back. back.1 ≡ held) }
{
    match held {
        Held::Client(queue) => match queue.hand(rt, directory, to) {
            Ok(()) => Ok(()),
            Err((error, queue)) => Err((out_of_memory_if_so(error), Held::Client(queue))),
        },
        Held::Worker(queue) => match queue.hand(rt, directory, to) {
            Ok(()) => Ok(()),
            Err((error, queue)) => Err((out_of_memory_if_so(error), Held::Worker(queue))),
        },
        held => Err((None, held)),
    }
}

/// An event of the life of a worker, which refuses what its state doesn't allow.
fn apply_worker_life_event(life: &mut Option<Life>, event: Event)
    ensures { life.new ≡ option_map (λ p. lived p event) life.old }
{
    if let Some(life) = life {
        let _refused = life.event(event);
    }
}

/// Gives an agent the order to end.
fn order_agent_to_stop(peers: &mut Vec<Peer>, to: AgentId)
    ensures { peers.new.items ≡ with_peer peer_ordered to.0 peers.old.items }
{
    if let Some(peer) = peers.get_mut(usize::from(to.0)) {
        peer.order_to_stop();
    }
}

fn wake_agent(peers: &mut Vec<Peer>, agent: AgentId)
    ensures { peers.new.items ≡ with_peer woken agent.0 peers.old.items }
{
    if let Some(peer) = peers.get_mut(usize::from(agent.0)) {
        peer.wake();
    }
}

impl<'s, C: Checkpoint, K: Lends<Roster> + Drop> Agent<'s, C, K> {
    /// Does its actions. Where memory runs out all agents are ordered to end, so that none waits
    /// for this one.
    pub(crate) fn run_all_actions<R: Wait>(
        &mut self,
        rt: &R,
        script: &Script,
    ) -> Result<Acted, OutOfMemory>
        ensures { IfOk result (λ acted. ActsFirst acted
            (actions_of self.old.notes.log.0 (actions script.now)) self.old self.new) }
    {
        let number = self.scribe.agent_id();
        match do_actions_until_ordered_to_stop(self, rt, script, number) {
            Ok(acted) => Ok(acted),
            Err(error) => {
                order_all_to_stop(&mut self.peers);
                Err(error)
            }
        }
    }

    /// Enables a port or a client's queue.
    fn start_port_or_queue(&mut self, end: EndId)
        ensures { StartsEnd end self.old self.new }
    {
        if !self.event_loop.start_port(end) {
            self.event_loop.start_client_queue(end);
        }
    }

    /// Closes a port or a member, and logs it. What waits there is discarded once the loop has
    /// ended.
    fn close_port_or_member<R: Wait>(&mut self, rt: &R, end: EndId) -> Result<(), OutOfMemory>
        ensures written { OnOk result ((entries : List LogEntry) × IsCloseLogged end entries
            × WritesEntries entries self.old.notes self.new.notes) }
        ensures held { OnOk result (ClosesOwn end self.old self.new) }
        ensures own { OnOk result (Accounts self.old self.new) }
        ensures rest { KeepsButClosings self.old self.new }
    {
        self.graves.reserve(1)?;
        let (hub, roster) = (&self.shared.hub, &mut self.roster);
        let Some(closed) = self.event_loop.close_end(rt, hub, roster, end) else {
            return Ok(());
        };
        self.graves.push_reserved(closed.grave);
        log_closed_end(&mut self.scribe, end, closed.port)
    }

    /// Hands its own queue to an agent, which it wakes. Where it wasn't handed it holds the queue
    /// again. The queues of the agents are the first ends, in the order of the agents.
    fn hand_over_own_queue<R: Wait>(&mut self, rt: &R, to: AgentId) -> Result<(), OutOfMemory>
        ensures changes { OnOk result (Changes (Hand to) self.old self.new) }
        ensures held { OnOk result (HoldsNoMore self.old self.new) }
    {
        let queue = EndId(u32::from(self.scribe.agent_id().0));
        let Some(held) = self.event_loop.release_end(queue) else {
            return Ok(());
        };
        match hand_over(rt, &self.shared.directory, held, to) {
            Ok(()) => {
                wake_agent(&mut self.peers, to);
                Ok(())
            }
            Err((refused, held)) => {
                self.hold_end_or_line(rt, held)?;
                refused.map_or(Ok(()), Err)
            }
        }
    }
}

// It looks for the order at a seat of its own.
impl<'s, C: Checkpoint, K: Lends<Roster> + Drop> Actor for Agent<'s, C, K> {
    ghost use Rattle.hub_agent.specs.Acting.{Acts};
    ghost use Rattle.hub_agent.specs.Agents.{LooksFor};

    ghost looks = { λ before seen after. LooksFor before seen after };

    ghost acts = { λ before action after. Acts action before after };

    ghost fails = { λ _ _ _. ⊤ };

    fn is_ordered_to_stop(&mut self) -> bool {
        self.order.seen()
    }

    fn do_action<R: Wait>(&mut self, rt: &R, action: &ActionKind) -> Result<(), OutOfMemory> {
        match action {
            ActionKind::Post {
                port,
                body,
                transfer,
            } => self.post(rt, Way::Port(*port), body, transfer),
            ActionKind::Send {
                queue,
                body,
                transfer,
            } => self.send_to_queue(rt, *queue, body, transfer),
            ActionKind::Cast { member, body } => self.cast(rt, *member, body),
            ActionKind::Start { end } => {
                self.start_port_or_queue(*end);
                Ok(())
            }
            // The document of a client is parsed, which enables its queue.
            ActionKind::Loaded { queue } => {
                self.event_loop.start_client_queue(*queue);
                Ok(())
            }
            ActionKind::Close { end } => self.close_port_or_member(rt, *end),
            ActionKind::Wait { messages } => {
                let after = self.scribe.delivered_message_count();
                let count = *messages;
                self.turn_until_awaited(rt, Awaited::Messages { after, count })
            }
            ActionKind::Receive { port } => self.turn_until_awaited(rt, Awaited::Port(*port)),
            ActionKind::Order { to } => {
                order_agent_to_stop(&mut self.peers, *to);
                Ok(())
            }
            ActionKind::Event { event } => {
                apply_worker_life_event(&mut self.life, *event);
                Ok(())
            }
            ActionKind::Hand { to } => self.hand_over_own_queue(rt, *to),
            ActionKind::Fetch { queue } => self.turn_until_awaited(rt, Awaited::Queue(*queue)),
        }
    }
}
