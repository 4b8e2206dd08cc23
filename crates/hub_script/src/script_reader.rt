ghost use Rattle.std.specs.Prelude.{◌≡◌, ◌<◌, ◌≤◌, [], length, map, nat_lt, true, IfOk, Ok};
ghost use Rattle.hub_text.specs.Reading.{IsReadAs};
ghost use Rattle.hub_script.specs.Contents.{actions, declared_agents, with_channel, with_declared};
ghost use Rattle.hub_script.specs.Contents.{with_member};
ghost use Rattle.hub_script.specs.Context.{acting, agent_of, declared_ends, has_agent_of_number};
ghost use Rattle.hub_script.specs.Context.{has_no_action, has_room, is_agent, is_unused};
ghost use Rattle.hub_script.specs.Context.{holds_named, is_member};
ghost use Rattle.hub_script.specs.Context.{is_port, declared_end_of_name};
ghost use Rattle.hub_script.specs.Fields.{IsRead};
ghost use Rattle.hub_script.specs.Known.{declaring, declared_end, giving, giving_all, holding};
ghost use Rattle.hub_script.specs.Known.{naming_more, next_broadcast_member, next_port, nothing};
ghost use Rattle.hub_script.specs.Known.{queue_of, second_port};
ghost use Rattle.hub_script.specs.Known.{taking_more, with_handed, with_holds, with_names};
ghost use Rattle.hub_script.specs.Known.{with_script};

use crate::action::{Action, ActionKind};
use crate::error::ScriptError;
use crate::fields::QUEUE;
use crate::script::{AgentKind, DeclaredAgent, DeclaredChannel, DeclaredMember, Script};
use hub_envelope::{
    AgentId, EndId, Items, MAX_AGENTS, MAX_PORTS, MAX_SCRIPT_LINES, OutOfMemory, Ports, Text,
};
use std::alloc::Global;
use std::collections::{BTreeMap, BTreeSet};

/// What a name of a script names.
#[derive(Clone, Copy, Debug, PartialEq, Eq)]
pub(crate) enum NameKind {
    Port,
    Member,
}

/// A port or a member that was declared. How many names a script has, and so each number here, is
/// bounded by its text lines.
#[derive(Clone, Copy, Debug)]
pub(crate) struct NamedEnd {
    pub(crate) kind: NameKind,
    /// How many of its kind were declared before it.
    pub(crate) place: u16,
    /// How many names were declared before it.
    pub(crate) number: u16,
}

/// That the agent of that number holds the name of that number.
#[derive(Clone, Copy, Debug, PartialEq, Eq, PartialOrd, Ord)]
pub(crate) struct NameHolder {
    pub(crate) agent: u32,
    pub(crate) number: u16,
}

impl NameHolder {
    /// That the agent holds what was named.
    fn of_agent(agent: AgentId, named: NamedEnd) -> NameHolder
        ensures { result ≡ holding agent named }
    {
        NameHolder {
            agent: u32::from(agent.0),
            number: named.number,
        }
    }
}

/// What the script lines read so far say. The maps keep, for quick look-ups, what follows from the
/// lines: what each name names, who holds it, and which agents have handed their queue on.
#[derive(Drop)]
pub(crate) struct ScriptReader {
    script: Script,
    names: BTreeMap<String, NamedEnd>,
    held: BTreeSet<NameHolder>,
    handed: BTreeSet<u32>,
}

/// The queue that the agent got when it was declared.
pub(crate) fn queue_of_agent(agent: AgentId) -> EndId
    ensures { result ≡ queue_of agent }
{
    EndId(u32::from(agent.0))
}

impl ScriptReader {
    ghost use Rattle.hub_script.specs.Reader.{ReadsTo, known};

    pub(crate) fn new(alloc: Global) -> ScriptReader
        ensures { known result ≡ nothing }
    {
        ScriptReader {
            script: Script::new(alloc),
            names: BTreeMap::new(alloc),
            held: BTreeSet::new(alloc),
            handed: BTreeSet::new(alloc),
        }
    }

    /// The script that was read. It takes no memory.
    pub(crate) fn into_script(self) -> Script
        ensures { result ≡ (known self).script }
    {
        self.script
    }

    /// Declarations stand before all actions.
    pub(crate) fn are_declarations_still_allowed(&self) -> bool
        ensures { result ≡ has_no_action (actions (known self.now).script) }
    {
        self.script.actions().is_empty()
    }

    /// The script has room for a line more.
    pub(crate) fn has_room_for_line(&self) -> bool
        ensures { result ≡ has_room (known self.now) }
    {
        self.script.line_count() < MAX_SCRIPT_LINES
    }

    /// The script has room for an agent more.
    pub(crate) fn has_room_for_agent(&self) -> bool
        ensures { result ≡ nat_lt (length (declared_agents (known self.now).script)) MAX_AGENTS }
    {
        self.script.agents().len() < MAX_AGENTS
    }

    /// The name isn't reserved, and isn't declared yet.
    pub(crate) fn is_unused(&self, name: &Text) -> bool
        ensures { result ≡ is_unused (known self.now) name.now }
    {
        name.as_str() != QUEUE && !self.names.contains_key(name.as_str())
    }

    pub(crate) fn has_agent_of_number(&self, number: u32) -> bool
        ensures { result ≡ has_agent_of_number (known self.now) number }
    {
        (number as usize) < self.script.agents().len()
    }

    /// The declared agent of that number.
    pub(crate) fn agent_of_number(&self, number: u32) -> Result<AgentId, ScriptError>
        ensures { IsRead result (agent_of (known self.now) number) }
    {
        if (number as usize) < self.script.agents().len() {
            Ok(AgentId(number as u8))
        } else {
            Err(ScriptError::UnknownName)
        }
    }

    /// Whether the agent of that number is declared, and of that kind.
    pub(crate) fn is_agent_of_kind(&self, kind: AgentKind, number: u32) -> bool
        ensures { result ≡ is_agent (known self.now) kind number }
    {
        match self.script.agents().get(number as usize) {
            Some(agent) => agent.kind == kind,
            None => false,
        }
    }

    /// What the name names.
    pub(crate) fn look_up(&self, name: &Text) -> Option<NamedEnd>
        ensures { result ≡ (known self.now).names name.now }
    {
        self.names.get(name.as_str()).copied()
    }

    /// What the name names, where it is declared.
    pub(crate) fn declared_end_of_name(&self, name: &Text) -> Result<NamedEnd, ScriptError>
        ensures { IsRead result (declared_end_of_name (known self.now) name.now) }
    {
        match self.look_up(name) {
            Some(named) => Ok(named),
            None => Err(ScriptError::UnknownName),
        }
    }

    pub(crate) fn is_name_of_port(&self, name: &Text) -> bool
        ensures { result ≡ is_port (known self.now) name.now }
    {
        match self.look_up(name) {
            Some(named) => matches!(named.kind, NameKind::Port),
            None => false,
        }
    }

    pub(crate) fn is_name_of_broadcast_member(&self, name: &Text) -> bool
        ensures { result ≡ is_member (known self.now) name.now }
    {
        match self.look_up(name) {
            Some(named) => matches!(named.kind, NameKind::Member),
            None => false,
        }
    }

    /// The agent of that number holds what the name names.
    pub(crate) fn agent_holds(&self, agent: u32, name: &Text) -> bool
        ensures { result ≡ holds_named (known self.now) agent name.now }
    {
        match self.look_up(name) {
            Some(named) => self.held.contains(&NameHolder {
                agent,
                number: named.number,
            }),
            None => false,
        }
    }

    /// What the names name.
    pub(crate) fn ends_named(
        &self,
        alloc: Global,
        names: &Items<Text>,
    ) -> Result<Vec<NamedEnd>, ScriptError>
        ensures says { IsReadAs ScriptError.OutOfMemory (λ x. x.items) result
            (declared_ends (known self.now) [] names.now) }
        ensures each { IfOk result (λ x. length x.items ≡ length names.now) }
    {
        let mut ends = Vec::new(alloc);
        for name in names.as_slice() {
            ends.push(self.declared_end_of_name(name)?)?;
        }
        Ok(ends)
    }

    /// The number of the port or member as an end.
    pub(crate) fn id_of_named_end(&self, named: NamedEnd) -> EndId
        ensures { result ≡ declared_end (known self.now).script named }
    {
        let before = match named.kind {
            NameKind::Port => self.script.agents().len(),
            NameKind::Member => self.script.agents().len() + 2 * self.script.channels().len(),
        };
        EndId((before + usize::from(named.place)) as u32)
    }

    /// The numbers of the ports as ends.
    pub(crate) fn ids_of_named_ports(
        &self,
        alloc: Global,
        ports: &[NamedEnd],
    ) -> Result<Ports, ScriptError>
        requires few { length ports.now ≤ MAX_PORTS }
        ensures { IsRead result (Ok (map (declared_end (known self.now).script) ports.now)) }
    {
        let ends = self.ids_of_named_ends(alloc, ports)?;
        Ok(Ports::try_from_vec(ends).unwrap())
    }

    fn ids_of_named_ends(
        &self,
        alloc: Global,
        ports: &[NamedEnd],
    ) -> Result<Vec<EndId>, OutOfMemory>
        ensures { IfOk result
            (λ ends. ends.items ≡ map (declared_end (known self.now).script) ports.now) }
    {
        ports
            .iter()
            .map(|port| self.id_of_named_end(*port))
            .collect(alloc)
    }

    /// Whether the agent of that number has handed its queue on.
    pub(crate) fn has_agent_handed_queue_over(&self, number: u32) -> bool
        ensures { result ≡ (known self.now).handed number }
    {
        self.handed.contains(&number)
    }

    /// What the ports of the next channel are.
    pub(crate) fn named_ends_for_next_channel(&self) -> (NamedEnd, NamedEnd)
        requires { has_room (known self.now) ≡ true }
        ensures { result
            ≡ (next_port (known self.now).script, second_port (known self.now).script) }
    {
        let ports = 2 * self.script.channels().len();
        let names = ports + self.script.broadcast_members().len();
        let first = NamedEnd {
            kind: NameKind::Port,
            place: ports as u16,
            number: names as u16,
        };
        let second = NamedEnd {
            kind: NameKind::Port,
            place: ports as u16 + 1,
            number: names as u16 + 1,
        };
        (first, second)
    }

    /// What the next member is.
    pub(crate) fn named_end_for_next_member(&self) -> NamedEnd
        ensures { result ≡ next_broadcast_member (known self.now).script }
    {
        let members = self.script.broadcast_members().len();
        NamedEnd {
            kind: NameKind::Member,
            place: members as u16,
            number: (2 * self.script.channels().len() + members) as u16,
        }
    }

    pub(crate) fn push_agent(&mut self, agent: DeclaredAgent) -> Result<(), ScriptError>
        requires room { has_room (known self.old) ≡ true }
        requires seat { length (declared_agents (known self.old).script) < MAX_AGENTS }
        ensures { ReadsTo self.new result
            (Ok (with_script (known self.old) (with_declared (known self.old).script agent))) }
    {
        self.script.push_agent(agent)?;
        Ok(())
    }

    pub(crate) fn push_message_channel(
        &mut self,
        channel: DeclaredChannel,
    ) -> Result<(), ScriptError>
        requires { has_room (known self.old) ≡ true }
        ensures { ReadsTo self.new result
            (Ok (with_script (known self.old) (with_channel (known self.old).script channel))) }
    {
        self.script.push_message_channel(channel)?;
        Ok(())
    }

    pub(crate) fn push_broadcast_member(
        &mut self,
        member: DeclaredMember,
    ) -> Result<(), ScriptError>
        requires { has_room (known self.old) ≡ true }
        ensures { ReadsTo self.new result
            (Ok (with_script (known self.old) (with_member (known self.old).script member))) }
    {
        self.script.push_broadcast_member(member)?;
        Ok(())
    }

    /// Adds a script line, which is the action of the agent.
    pub(crate) fn push_action(&mut self, at: AgentId, kind: ActionKind) -> Result<(), ScriptError>
        requires { has_room (known self.old) ≡ true }
        ensures { ReadsTo self.new result (Ok (acting (known self.old) at kind)) }
    {
        self.script.push_action(Action { at, kind })?;
        Ok(())
    }

    /// The agent holds the name from now on.
    pub(crate) fn mark_held_by_agent(
        &mut self,
        agent: AgentId,
        named: NamedEnd,
    ) -> Result<(), ScriptError>
        ensures { ReadsTo self.new result
            (Ok (with_holds (known self.old) (taking_more (holding agent named)))) }
    {
        self.held.insert(NameHolder::of_agent(agent, named))?;
        Ok(())
    }

    /// The agent doesn't hold the name any more.
    pub(crate) fn mark_released_by_agent(&mut self, agent: AgentId, named: NamedEnd)
        ensures { known self.new ≡ with_holds (known self.old) (giving (holding agent named)) }
    {
        self.held.remove(&NameHolder::of_agent(agent, named));
    }

    /// The agent doesn't hold the ports any more.
    pub(crate) fn mark_ports_released_by_agent(&mut self, agent: AgentId, ports: &[NamedEnd])
        ensures { known self.new ≡ with_holds (known self.old) (giving_all agent ports.now) }
    {
        let mut rest = ports;
        while let Some((first, others)) = rest.split_first() {
            self.mark_released_by_agent(agent, *first);
            rest = others;
        }
    }

    /// The agent has handed its queue on.
    pub(crate) fn mark_queue_handed_over(&mut self, agent: AgentId) -> Result<(), ScriptError>
        ensures { ReadsTo self.new result (Ok (with_handed (known self.old) agent.0)) }
    {
        self.handed.insert(u32::from(agent.0))?;
        Ok(())
    }

    /// Declares a name of that agent.
    pub(crate) fn declare_held_name(
        &mut self,
        alloc: Global,
        name: &Text,
        named: NamedEnd,
        agent: AgentId,
    ) -> Result<(), ScriptError>
        ensures { ReadsTo self.new result (Ok (declaring (known self.old) name.now named agent)) }
    {
        self.insert_name(alloc, name, named)?;
        self.mark_held_by_agent(agent, named)
    }

    fn insert_name(
        &mut self,
        alloc: Global,
        name: &Text,
        named: NamedEnd,
    ) -> Result<(), ScriptError>
        ensures { ReadsTo self.new result
            (Ok (with_names (known self.old) (naming_more name.now named (known self.old).names))) }
    {
        let key = String::from_str(alloc, name.as_str())?;
        self.names.insert(key, named)?;
        Ok(())
    }
}
