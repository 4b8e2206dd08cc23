//! How all that a run wants is made, before the first of its threads: the agents with their loops,
//! and the ends that the script declares. Ends are numbered as the script's actions name them.

ghost use Rattle.std.specs.Prelude.{
  ◌≡◌,
  ◌≤◌,
  ◌+◌,
  ◌*◌,
  ◌∷◌,
  [],
  Some,
  All,
  length,
  option_to_list,
  vec_len,
  IfOk,
  OnOk,
  ◌++◌,
  ◌<◌,
  ℕ,
  get_or,
};
ghost use Rattle.hub_loop.specs.Holding.{end_held};
ghost use Rattle.hub_agent.specs.Given.{members_given, ports_given, queue_given};
ghost use Rattle.hub_run.specs.Giving.{AreGiven, Gives, GivesEnds, HaveNothing};
ghost use Rattle.hub_life.specs.OrderSeat.{OrderSeat};
ghost use Rattle.hub_run.specs.Seats.{AllGet, AreAllSeated, AreSeated, IsNewSeat};
ghost use Rattle.hub_script.specs.Contents.{declared_agents};
ghost use Rattle.hub_script.specs.Known.{port_count};
ghost use Rattle.hub_envelope.specs.declared.limits.TheConstants.{MAX_AGENTS};
ghost use Rattle.hub_trace.specs.declared.limits.TheConstants.{MAX_AGENT};

use hub_agent::{Agent, Peer, Seat, Shared};
use hub_broadcast::{Roster, SharedRoster};
use hub_clients::Directory;
use hub_envelope::{AgentId, OutOfMemory};
use hub_life::Order;
use hub_locked::Locked;
use hub_logging::Scribe;
use hub_loop::{Checkpoint, Held};
use hub_ports::channel;
use hub_queue::{Bell, Ends, Listener};
use hub_script::{AgentKind, DeclaredAgent, DeclaredMember, Script};
use std::alloc::Global;
use std::sync::Wait;

// What all agents are made of, and what wakes each.
#[derive(Drop)]
struct Seats {
    seats: Vec<Seat>,
    bells: Vec<Bell>,
}

/// An agent of a run, which casts over the roster that all of them share.
pub(crate) type RunAgent<'s, C> = Agent<'s, C, &'s Locked<Roster>>;

/// The agents of a run before it begins.
pub(crate) struct Made<'s, C: Checkpoint> {
    pub(crate) agents: Vec<RunAgent<'s, C>>,
    bells: Vec<Bell>,
    ends: Ends,
}

// By hand, so that whoever drops one makes one call, and its proof has no cases of its fields.
impl<'s, C: Checkpoint> Drop for Made<'s, C> {
    fn drop(self) {
        let Made {
            agents,
            bells,
            ends,
        } = self;
        drop(agents);
        drop(bells);
        drop(ends);
    }
}

/// Gives each agent a seat at the word of one more agent, which the bell wakes.
fn add_peer_agent_to_every_seat(
    seats: &mut [Seat],
    mut orders: Vec<Order>,
    bell: &Bell,
) -> Result<(), OutOfMemory>
    ensures { OnOk result ((seat : OrderSeat) → All (λ order. order ≡ seat) orders.items
        → AllGet seat seats.old seats.new) }
{
    for place in 0..seats.len() {
        let Some(order) = orders.pop() else {
            return Err(OutOfMemory);
        };
        let bell = bell.clone()?;
        push_or_drop(&mut seats[place].peers, Peer { order, bell })?;
    }
    Ok(())
}

/// What an agent is made of, with no peers yet, its bell, and a seat at its order's word for each
/// of so many agents.
fn make_agent_seat(
    alloc: Global,
    number: AgentId,
    count: usize,
) -> Result<(Seat, Bell, Vec<Order>), OutOfMemory>
    requires number { number.0 ≤ MAX_AGENT }
    requires count { count ≤ MAX_AGENTS }
    ensures seat { IfOk result (λ made. IsNewSeat number.0 made.0) }
    ensures orders { IfOk result (λ made.
        All (λ order. order ≡ made.0.for_agent) made.2.items) }
{
    let mut orders = Order::open(alloc, count + 2)?;
    let (Some(for_loop), Some(for_agent)) = (orders.pop(), orders.pop()) else {
        unreachable!();
    };
    let (listener, bell) = Listener::new_with_first_bell(alloc)?;
    let seat = Seat {
        number,
        scribe: Scribe::new(alloc, number),
        for_loop,
        for_agent,
        listener,
        peers: Vec::new(alloc),
    };
    Ok((seat, bell, orders))
}

impl Seats {
    fn make_for_all_agents(alloc: Global, count: usize) -> Result<Seats, OutOfMemory>
        requires { count ≤ MAX_AGENTS }
        ensures len { IfOk result (λ made. vec_len made.seats ≡ count) }
        ensures seated { IfOk result (λ made. AreSeated made.seats.items) }
    {
        let mut seats = Vec::new(alloc);
        let mut bells = Vec::new(alloc);
        let mut words = Vec::new(alloc);
        for number in 0..count {
            let (seat, bell, orders) = make_agent_seat(alloc, AgentId(number as u8), count)?;
            push_or_drop(&mut seats, seat)?;
            push_or_drop(&mut words, (orders, bell))?;
        }
        for (orders, bell) in words {
            add_peer_agent_to_every_seat(&mut seats, orders, &bell)?;
            push_or_drop(&mut bells, bell)?;
        }
        Ok(Seats { seats, bells })
    }
}

/// What wakes the agent of that number.
fn bell_of(bells: &[Bell], agent: AgentId) -> Result<Bell, OutOfMemory> {
    match bells.get(usize::from(agent.0)) {
        Some(bell) => bell.clone(),
        None => Err(OutOfMemory),
    }
}

/// Makes the queue of the agent of that number and kind, under the next number of an end.
fn make_queue<R: Wait>(
    rt: &R,
    directory: &Directory,
    ends: &mut Ends,
    bells: &[Bell],
    agent: AgentId,
    kind: AgentKind,
) -> Result<Held, OutOfMemory>
    ensures end { IfOk result (λ held. end_held held ≡ Some (record { 0 = ends.old.drawn })) }
    ensures drawn { OnOk result (ends.new.drawn ≡ ends.old.drawn + 1) }
{
    let bell = bell_of(bells, agent)?;
    match kind {
        AgentKind::Window => match directory.client(rt, ends, bell) {
            Ok(queue) => Ok(Held::Client(queue)),
            Err(_) => Err(OutOfMemory),
        },
        AgentKind::Worker => match directory.worker(rt, ends, bell) {
            Ok(queue) => Ok(Held::Worker(queue)),
            Err(_) => Err(OutOfMemory),
        },
    }
}

/// Makes a channel, both of whose ports the agent of that number is to hold.
fn make_message_channel_of_agent(
    alloc: Global,
    ends: &mut Ends,
    bells: &[Bell],
    agent: AgentId,
) -> Result<(Held, Held), OutOfMemory>
    ensures first { IfOk result (λ made.
        end_held made.0 ≡ Some (record { 0 = ends.old.drawn })) }
    ensures second { IfOk result (λ made.
        end_held made.1 ≡ Some (record { 0 = ends.old.drawn + 1 })) }
    ensures drawn { OnOk result (ends.new.drawn ≡ ends.old.drawn + 2) }
{
    let bell = bell_of(bells, agent)?;
    match channel(alloc, ends, bell) {
        Ok((port, other)) => Ok((Held::Port(port), Held::Port(other))),
        Err(_) => Err(OutOfMemory),
    }
}

/// Makes a broadcast member, of the origin of its agent.
fn make_member<R: Wait>(
    alloc: Global,
    rt: &R,
    roster: &SharedRoster,
    ends: &mut Ends,
    bells: &[Bell],
    agents: &[DeclaredAgent],
    declared: &DeclaredMember,
) -> Result<Held, OutOfMemory>
    ensures end { IfOk result (λ held. end_held held ≡ Some (record { 0 = ends.old.drawn })) }
    ensures drawn { OnOk result (ends.new.drawn ≡ ends.old.drawn + 1) }
{
    let Some(agent) = agents.get(usize::from(declared.at.0)) else {
        return Err(OutOfMemory);
    };
    let bell = bell_of(bells, declared.at)?;
    let origin = agent.origin.clone()?;
    let name = String::from_str(alloc, declared.on.as_str())?;
    match roster.join(rt, ends, declared.at, origin, name, bell) {
        Ok(member) => Ok(Held::Member(member)),
        Err(_) => Err(OutOfMemory),
    }
}

impl<'s, C: Checkpoint> Made<'s, C> {
    /// The agents.
    pub(crate) fn into_agents(self) -> Vec<RunAgent<'s, C>>
        ensures { result ≡ self.entry.agents }
    {
        let Made {
            agents,
            bells: _,
            ends: _,
        } = self;
        agents
    }

    /// Gives the agent of that number an end that it holds before the run. There is one, since a
    /// script names no other; were there none, an error is better than ends under other numbers.
    fn give_end_before_run(&mut self, number: AgentId, held: Held) -> Result<(), OutOfMemory>
        ensures given { OnOk result (GivesEnds number (option_to_list (end_held held))
            self.old.agents.items self.new.agents.items) }
        ensures ends { self.new.ends ≡ self.old.ends }
    {
        match self.agents.get_mut(usize::from(number.0)) {
            Some(agent) => agent.give_end_before_run(held),
            None => Err(OutOfMemory),
        }
    }

    /// The agents, which hold nothing yet.
    fn make_empty_agents(
        alloc: Global,
        shared: &'s Shared,
        roster: &'s SharedRoster,
        script: &Script,
        checkpoint: &'s C,
    ) -> Result<Made<'s, C>, OutOfMemory>
        ensures len { IfOk result (λ made.
            vec_len made.agents ≡ length (declared_agents script.now)) }
        ensures nothing { IfOk result (λ made. HaveNothing made.agents.items) }
        ensures seated { IfOk result (λ made. AreAllSeated made.agents.items) }
        ensures drawn { IfOk result (λ made. made.ends.drawn ≡ 0) }
    {
        let declared = script.agents();
        let Seats { seats, bells } = Seats::make_for_all_agents(alloc, declared.len())?;
        let mut agents = Vec::new(alloc);
        for seat in seats {
            let kind = declared[agents.len()].kind;
            let agent = Agent::try_new(alloc, kind, shared, roster.as_lock(), checkpoint, seat)?;
            push_or_drop(&mut agents, agent)?;
        }
        Ok(Made {
            agents,
            bells,
            ends: Ends::new(),
        })
    }

    /// Gives each agent its queue.
    fn add_queues<R: Wait>(
        &mut self,
        rt: &R,
        shared: &Shared,
        script: &Script,
    ) -> Result<(), OutOfMemory>
        requires len { vec_len self.old.agents ≡ length (declared_agents script.now) }
        requires drawn { self.old.ends.drawn ≡ 0 }
        ensures given { OnOk result
            (Gives queue_given self.old.agents.items self.new.agents.items) }
        ensures drawn { OnOk result (self.new.ends.drawn ≡ length (declared_agents script.now)) }
    {
        for (place, declared) in script.agents().iter().enumerate() {
            let number = AgentId(place as u8);
            let (ends, kind) = (&mut self.ends, declared.kind);
            let queue = make_queue(rt, &shared.directory, ends, &self.bells, number, kind)?;
            self.give_end_before_run(number, queue)?;
        }
        Ok(())
    }

    /// Makes the channels, both of whose ports go to one agent.
    fn add_message_channels(&mut self, alloc: Global, script: &Script) -> Result<(), OutOfMemory>
        requires { self.old.ends.drawn ≡ length (declared_agents script.now) }
        ensures given { OnOk result (Gives (ports_given script.now)
            self.old.agents.items self.new.agents.items) }
        ensures drawn { OnOk result (self.new.ends.drawn
            ≡ length (declared_agents script.now) + port_count script.now) }
    {
        for declared in script.channels() {
            let (port, other) = make_message_channel_of_agent(
                alloc,
                &mut self.ends,
                &self.bells,
                declared.at,
            )?;
            self.give_end_before_run(declared.at, port)?;
            self.give_end_before_run(declared.at, other)?;
        }
        Ok(())
    }

    /// Makes the broadcast members.
    fn add_broadcast_members<R: Wait>(
        &mut self,
        alloc: Global,
        rt: &R,
        roster: &SharedRoster,
        script: &Script,
    ) -> Result<(), OutOfMemory>
        requires { self.old.ends.drawn
            ≡ length (declared_agents script.now) + port_count script.now }
        ensures given { OnOk result (Gives (members_given script.now)
            self.old.agents.items self.new.agents.items) }
    {
        let agents = script.agents();
        for declared in script.broadcast_members() {
            let ends = &mut self.ends;
            let member = make_member(alloc, rt, roster, ends, &self.bells, agents, declared)?;
            self.give_end_before_run(declared.at, member)?;
        }
        Ok(())
    }

    /// Makes the agents and what the script declares. A script declares fewer ends than there are
    /// numbers, so what is refused is refused for want of memory.
    pub(crate) fn of_script<R: Wait>(
        alloc: Global,
        rt: &R,
        shared: &'s Shared,
        roster: &'s SharedRoster,
        script: &Script,
        checkpoint: &'s C,
    ) -> Result<Made<'s, C>, OutOfMemory>
        ensures len { IfOk result (λ made.
            vec_len made.agents ≡ length (declared_agents script.now)) }
        ensures given { IfOk result (λ made. AreGiven script.now made.agents.items) }
        ensures seated { IfOk result (λ made. AreAllSeated made.agents.items) }
    {
        let mut made = Made::make_empty_agents(alloc, shared, roster, script, checkpoint)?;
        made.add_queues(rt, shared, script)?;
        made.add_message_channels(alloc, script)?;
        made.add_broadcast_members(alloc, rt, roster, script)?;
        Ok(made)
    }
}

/// Appends a value to a list, and drops it where there is no memory. It is generic, so that what
/// comes back from a list of agents or of ends is no part of a caller's proof.
pub(crate) fn push_or_drop<T: Drop>(list: &mut Vec<T>, value: T) -> Result<(), OutOfMemory>
    ensures items { OnOk result (list.new.items ≡ list.old.items ++ value ∷ []) }
    ensures len { OnOk result (vec_len list.new ≡ vec_len list.old + 1) }
    ensures others { OnOk result ((k : ℕ) (d : T) → k < vec_len list.old
        → get_or list.new.items k d ≡ get_or list.old.items k d) }
    ensures last { OnOk result ((d : T) → get_or list.new.items (vec_len list.old) d ≡ value) }
{
    list.push(value)?;
    Ok(())
}
