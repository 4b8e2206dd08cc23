ghost use Rattle.std.specs.Prelude.{◌≡◌, ◌≤◌, ◌+◌, ℕ, List, true, IfOk, OnOk};
ghost use Rattle.hub_agent.specs.Agents.{HoldsPortInLoop, KeepsButNotes, KeepsButTurns, KeepsElse};
ghost use Rattle.hub_agent.specs.Entries.{
  AreAdoptions,
  AreEndings,
  IsComeLogged,
  IsTurnLogged,
  IsWaitLogged,
  TurnLeaves,
  WritesEntries,
  log_and,
};
ghost use Rattle.hub_agent.specs.Given.{IsGiven};
ghost use Rattle.hub_agent.specs.Owning.{Accounts, TurnBrings, has, lost};
ghost use Rattle.hub_agent.specs.Acting.{IsRunFor};
ghost use Rattle.hub_trace.specs.declared.limits.TheConstants.{MAX_AGENT};
ghost use Rattle.hub_trace.specs.declared.log_entry.LogEntry.{LogEntry};

use crate::acting::Awaited;
use crate::actor::Acted;
use crate::ending::finish_loop;
use crate::logging::{count_moves_of_end, log_adopted};
use crate::shared::{Peer, Shared, order_all_to_stop};
use hub_broadcast::Roster;
use hub_envelope::{AgentId, EndId, OutOfMemory};
use hub_life::{Life, Order};
use hub_locked::Lends;
use hub_logging::Scribe;
use hub_loop::{Checkpoint, EventLoop, Held, LoopError, Turn};
use hub_ports::Closings;
use hub_queue::{Grave, Steps};
use hub_script::Script;
use hub_trace::Log;
use std::alloc::Global;
use std::marker::{Brand, Model};
use std::sync::Wait;
use std::sync::ledger::{Blank, Ledger};

/// What came of an agent.
#[derive(Drop)]
pub struct AgentRun {
    /// The log that it kept.
    pub log: Log,
    /// How many of its actions it has done, and whether it was asked to end before the next one.
    pub acted: Acted,
}

/// The loop of an agent of a run.
pub(crate) type AgentLoop<'s, C> = EventLoop<Scribe, &'s C>;

/// An agent of a run, over whoever casts for it.
pub struct Agent<'s, C: Checkpoint, K: Lends<Roster> + Drop> {
    pub(crate) alloc: Global,
    pub(crate) shared: &'s Shared,
    /// The roster over which it casts.
    pub(crate) roster: K,
    pub(crate) event_loop: AgentLoop<'s, C>,
    /// Keeps its log. The loop has it in a turn alone, as its handler.
    pub(crate) scribe: Scribe,
    /// A seat of its own at the word of its order: that of the loop looks in turns alone.
    pub(crate) order: Order,
    /// All agents, by number.
    pub(crate) peers: Vec<Peer>,
    /// The life of a worker.
    pub(crate) life: Option<Life>,
    /// The ends that it has closed by an action, and not swept yet.
    pub(crate) graves: Vec<Grave>,
    /// What the last doomed post has closed. It stands here since it is large, and each post lends
    /// it.
    pub(crate) closings: Closings,
}

// By hand, so that whoever drops one makes one call, and its proof has no cases of its fields.
impl<'s, C: Checkpoint, K: Lends<Roster> + Drop> Drop for Agent<'s, C, K> {
    fn drop(self) {
        let Agent {
            alloc: _,
            shared: _,
            roster,
            event_loop,
            scribe,
            order,
            peers,
            life: _,
            graves,
            closings,
        } = self;
        drop(roster);
        drop(event_loop);
        drop(scribe);
        drop(order);
        drop(peers);
        drop(graves);
        drop(closings);
    }
}

impl<'s, C: Checkpoint, K: Lends<Roster> + Drop> Model for Agent<'s, C, K> {
    ghost use Rattle.hub_agent.specs.Agents.{AgentState};

    ghost Value = { AgentState };

    ghost view = { λ a. record {
      notes = a.scribe;
      ends = a.event_loop.holding.ends.held;
      kept = a.event_loop.kept;
      order = a.order;
      peers = a.peers.items;
      life = a.life;
      roster = K.shown a.roster;
    } };
}

/// Logs that these ends were adopted, in order.
fn log_all_adopted<C: Checkpoint>(
    scribe: &mut Scribe,
    event_loop: &AgentLoop<'_, C>,
    ends: &[EndId],
) -> Result<(), OutOfMemory>
    ensures { OnOk result ((entries : List LogEntry) × AreAdoptions ends.now entries
        × WritesEntries entries scribe.old scribe.new) }
{
    for end in ends {
        log_adopted(scribe, *end, count_moves_of_end(event_loop.held_end(*end)))?;
    }
    Ok(())
}

impl<'s, C: Checkpoint, K: Lends<Roster> + Drop> Agent<'s, C, K> {
    /// Does the actions of the agent of that number, ends the loop, and answers the log and how
    /// far it came. Where memory runs out all agents are ordered to end, so that none waits for
    /// this one.
    pub fn run<R: Wait>(
        mut self,
        rt: &R,
        script: &Script,
        number: AgentId,
    ) -> Result<AgentRun, OutOfMemory>
        requires number { number.0 ≤ MAX_AGENT }
        requires given { IsGiven script.now number.0 self }
        ensures { IfOk result (λ ran. IsRunFor script.now number ran.log ran.acted) }
    {
        self.scribe = Scribe::new(self.alloc, number);
        let acted = self.run_all_actions(rt, script);
        let finished = self.finish_into_log(rt);
        Ok(AgentRun {
            acted: acted?,
            log: finished?,
        })
    }

    /// Ends the loop, and answers the log. Where memory runs out all agents are ordered to end.
    fn finish_into_log<R: Wait>(self, rt: &R) -> Result<Log, OutOfMemory>
        ensures written { IfOk result (λ log. (entries : List LogEntry) × AreEndings entries
            × (log ≡ log_and self.entry.notes.log entries)) }
        ensures own { IfOk result (λ log. (e : ℕ) →
            lost e log.1 ≤ lost e self.entry.notes.log.1 + has self.entry e) }
    {
        let Agent {
            alloc,
            shared,
            mut roster,
            event_loop,
            scribe,
            order: _,
            mut peers,
            life: _,
            graves,
            closings: _,
        } = self;
        match finish_loop(alloc, rt, shared, &mut roster, event_loop, scribe, graves) {
            Ok(log) => Ok(log),
            Err(error) => {
                order_all_to_stop(&mut peers);
                Err(error)
            }
        }
    }

    /// Whether it holds the port.
    pub(crate) fn holds_port(&self, end: EndId) -> bool
        ensures { result ≡ true → HoldsPortInLoop self.now end }
    {
        matches!(self.event_loop.held_end(end), Some(Held::Port(_)))
    }

    /// Logs that it has adopted the ports that came with the last delivery.
    fn log_newly_adopted(&mut self) -> Result<(), OutOfMemory>
        ensures written { OnOk result ((entries : List LogEntry)
            × AreAdoptions self.old.notes.adopted entries
            × WritesEntries entries self.old.notes self.new.notes) }
        ensures rest { KeepsButNotes self.old self.new }
    {
        let adopted = self.scribe.take_ports_of_last_delivery();
        log_all_adopted(&mut self.scribe, &self.event_loop, &adopted)
    }

    fn turn_counting_pops<L: Ledger, R: Wait>(
        &mut self,
        rt: &R,
        blank: Blank,
    ) -> Result<Turn, LoopError>
        requires { (blank.name ≡ L.name) × (blank.parts ≡ L.parts) × (L.parts ≡ 2) }
        ensures left { IfOk result (λ turn. TurnLeaves turn self.old.notes self.new.notes) }
        ensures brings { IfOk result (λ turn. TurnBrings turn self.old self.new) }
        ensures rest { KeepsButTurns self.old self.new }
    {
        let mut steps = Steps::<L>::new_at_zero(blank);
        let scribe = self.scribe.replace_with_empty();
        let empty = self.event_loop.replace_loop_handler(scribe);
        let turn = self.event_loop.turn(rt, &self.shared.hub, &mut steps);
        self.scribe = self.event_loop.replace_loop_handler(empty);
        turn
    }

    /// Makes a turn, and logs the ports that were adopted in it.
    fn turn<R: Wait>(&mut self, rt: &R) -> Result<Turn, OutOfMemory>
        ensures written { OnOk result ((entries : List LogEntry) × IsTurnLogged entries
            × WritesEntries entries self.old.notes self.new.notes) }
        ensures own { OnOk result (Accounts self.old self.new) }
        ensures rest { KeepsButTurns self.old self.new }
    {
        let turn = match self.turn_counting_pops::<Brand, R>(rt, Blank::new(2)) {
            Ok(turn) => turn,
            Err(LoopError::OutOfMemory) => return Err(OutOfMemory),
        };
        match turn {
            Turn::Delivered => {
                self.log_newly_adopted()?;
                Ok(Turn::Delivered)
            }
            turn => Ok(turn),
        }
    }

    /// Takes the queue that was handed to it, logs that and enables the queue. Whether it was
    /// there.
    fn fetch_and_start_handed_queue<R: Wait>(
        &mut self,
        rt: &R,
        end: EndId,
    ) -> Result<bool, OutOfMemory>
        ensures written { IfOk result (λ came. (entries : List LogEntry)
            × IsComeLogged (Awaited.Queue end) came entries
            × WritesEntries entries self.old.notes self.new.notes) }
        ensures own { OnOk result (Accounts self.old self.new) }
        ensures rest { KeepsElse self.old self.new }
    {
        let Shared { hub, directory, .. } = self.shared;
        match self.event_loop.fetch(rt, hub, directory, end) {
            Ok(true) => {}
            Ok(false) => return Ok(false),
            Err(LoopError::OutOfMemory) => return Err(OutOfMemory),
        }
        log_adopted(
            &mut self.scribe,
            end,
            count_moves_of_end(self.event_loop.held_end(end)),
        )?;
        self.event_loop.start_client_queue(end);
        Ok(true)
    }

    /// Whether what it waits for has come.
    fn has_awaited_end_come<R: Wait>(
        &mut self,
        rt: &R,
        awaited: Awaited,
    ) -> Result<bool, OutOfMemory>
        ensures written { IfOk result (λ came. (entries : List LogEntry)
            × IsComeLogged awaited came entries
            × WritesEntries entries self.old.notes self.new.notes) }
        ensures own { OnOk result (Accounts self.old self.new) }
        ensures rest { KeepsElse self.old self.new }
    {
        match awaited {
            Awaited::Messages { after, count } => {
                let delivered = self.scribe.delivered_message_count().wrapping_sub(after);
                Ok(delivered >= u64::from(count))
            }
            Awaited::Port(end) => Ok(self.holds_port(end)),
            Awaited::Queue(end) => self.fetch_and_start_handed_queue(rt, end),
        }
    }

    /// Takes turns, and rests after each, until what it waits for has come or the order to end was
    /// given.
    pub(crate) fn turn_until_awaited<R: Wait>(
        &mut self,
        rt: &R,
        awaited: Awaited,
    ) -> Result<(), OutOfMemory>
        ensures written { OnOk result ((entries : List LogEntry) × IsWaitLogged awaited entries
            × WritesEntries entries self.old.notes self.new.notes) }
        ensures own { OnOk result (Accounts self.old self.new) }
        ensures rest { KeepsButTurns self.old self.new }
    {
        for _ in rt.forever() {
            if self.has_awaited_end_come(rt, awaited)? {
                return Ok(());
            }
            match self.turn(rt)? {
                Turn::Ending => return Ok(()),
                turn => self.event_loop.sleep_or_yield_after_turn(rt, turn),
            }
        }
        unreachable!()
    }
}
