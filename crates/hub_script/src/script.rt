ghost use Rattle.std.specs.Prelude.{◌≡◌, ◌<◌, ◌≤◌, [], length, OnOk};
ghost use Rattle.hub_script.specs.Contents.{IsWithinLimits, actions, declared_agents, channels};
ghost use Rattle.hub_script.specs.Contents.{line_count, members, with_action, with_declared};
ghost use Rattle.hub_script.specs.Contents.{with_channel};
ghost use Rattle.hub_script.specs.Contents.{with_member};
ghost use Rattle.hub_script.specs.Laws.{ClosesHeld, NoScript, NoneAccepted, OneFault, OneRefusal};
ghost use Rattle.hub_script.specs.Laws.{PostsHeld, SendsHeld, StartsHeld};

use crate::action::Action;
use hub_envelope::{AgentId, MAX_AGENTS, MAX_SCRIPT_LINES, OutOfMemory, Text};
use hub_origin::Origin;
use std::alloc::Global;
use std::marker::Model;

/// An agent of a script. Agents are numbered from 0 in the order of the file.
#[derive(Debug, Drop)]
pub struct DeclaredAgent {
    pub kind: AgentKind,
    pub origin: Origin,
}

/// A channel of a script: two entangled ports, both with one agent (WHATWG HTML, "Message
/// channels").
#[derive(Debug, Drop)]
pub struct DeclaredChannel {
    pub at: AgentId,
    pub first: Text,
    pub second: Text,
}

/// A broadcast member of a script: its agent, its name in the script, and the name of the channel
/// that it is on (WHATWG HTML, "Broadcasting to other browsing contexts").
#[derive(Debug, Drop)]
pub struct DeclaredMember {
    pub at: AgentId,
    pub name: Text,
    pub on: Text,
}

/// What an agent is. It says which queue the agent gets when it is declared.
#[derive(Clone, Copy, Debug, PartialEq, Eq)]
pub enum AgentKind {
    /// A window, which gets a client message queue, disabled at first.
    Window,
    /// A service worker, which gets a worker queue, enabled at once.
    Worker,
}

/// The declarations and the actions of a script, each in the order of the file. It has at most
/// `MAX_SCRIPT_LINES` of them together, and at most `MAX_AGENTS` agents.
///
/// ```rust
/// let script = Script::read(alloc, bytes)?;
/// for action in script.actions() {
///     println!(rt; "{action:?}")?;
/// }
/// ```
#[derive(Debug, Drop)]
pub struct Script {
    agents: Vec<DeclaredAgent>,
    channels: Vec<DeclaredChannel>,
    members: Vec<DeclaredMember>,
    actions: Vec<Action>,
}

impl Model for Script {
    ghost use Rattle.hub_script.specs.Contents.{Contents, IsWithinLimits};

    ghost Value = { Contents };

    ghost view = { λ s. (s.agents.items, s.channels.items, s.members.items, s.actions.items) };

    ghost invariant = { λ s. IsWithinLimits
        (s.agents.items, s.channels.items, s.members.items, s.actions.items) };
}

impl Script {
    /// Nothing is declared. It takes no memory.
    pub(crate) fn new(alloc: Global) -> Script
        ensures { result ≡ ([], [], [], []) }
    {
        Script {
            agents: Vec::new(alloc),
            channels: Vec::new(alloc),
            members: Vec::new(alloc),
            actions: Vec::new(alloc),
        }
    }

    /// The agents, which are numbered from 0.
    pub fn agents(&self) -> &[DeclaredAgent]
        ensures agents { result.now ≡ declared_agents self.now }
        ensures within { IsWithinLimits self.now }
    {
        self.agents.as_slice()
    }

    /// The channels, in the order of their declarations.
    pub fn channels(&self) -> &[DeclaredChannel]
        ensures channels { result.now ≡ channels self.now }
        ensures within { IsWithinLimits self.now }
    {
        self.channels.as_slice()
    }

    /// The members of broadcast channels, in the order of their declarations.
    pub fn broadcast_members(&self) -> &[DeclaredMember]
        ensures members { result.now ≡ members self.now }
        ensures within { IsWithinLimits self.now }
    {
        self.members.as_slice()
    }

    /// The actions of all agents, in the order of their text lines.
    pub fn actions(&self) -> &[Action]
        ensures actions { result.now ≡ actions self.now }
        ensures within { IsWithinLimits self.now }
    {
        self.actions.as_slice()
    }

    /// How many text lines were read: each is one declaration or one action.
    pub(crate) fn line_count(&self) -> usize
        ensures { result ≡ line_count self.now }
    {
        self.agents.len() + self.channels.len() + self.members.len() + self.actions.len()
    }

    pub(crate) fn push_agent(&mut self, agent: DeclaredAgent) -> Result<(), OutOfMemory>
        requires room { line_count self.old < MAX_SCRIPT_LINES }
        requires few { length (declared_agents self.old) < MAX_AGENTS }
        ensures { OnOk result (self.new ≡ with_declared self.old agent) }
    {
        self.agents.push(agent)?;
        Ok(())
    }

    pub(crate) fn push_message_channel(
        &mut self,
        channel: DeclaredChannel,
    ) -> Result<(), OutOfMemory>
        requires { line_count self.old < MAX_SCRIPT_LINES }
        ensures { OnOk result (self.new ≡ with_channel self.old channel) }
    {
        self.channels.push(channel)?;
        Ok(())
    }

    pub(crate) fn push_broadcast_member(
        &mut self,
        member: DeclaredMember,
    ) -> Result<(), OutOfMemory>
        requires { line_count self.old < MAX_SCRIPT_LINES }
        ensures { OnOk result (self.new ≡ with_member self.old member) }
    {
        self.members.push(member)?;
        Ok(())
    }

    pub(crate) fn push_action(&mut self, action: Action) -> Result<(), OutOfMemory>
        requires { line_count self.old < MAX_SCRIPT_LINES }
        ensures { OnOk result (self.new ≡ with_action self.old action) }
    {
        self.actions.push(action)?;
        Ok(())
    }
}

/// Laws of every script line that `Script::read` takes, after the lines before it. What a line
/// posts at, starts or closes is held by its agent; the ports that it transfers are at most
/// `MAX_PORTS`, different, held by its agent, and the port that posts isn't among them. And what
/// refusals mean: behind the same text lines a text line is refused in one way at most, and in none
/// where it is accepted; so a text has one first bad text line with one kind, or is all accepted.
/// It does nothing.
pub fn prove_laws_of_accepted_script_lines()
    ensures posts { PostsHeld }
    ensures sends { SendsHeld }
    ensures starts { StartsHeld }
    ensures closes { ClosesHeld }
    ensures one_refusal { OneRefusal }
    ensures none_accepted { NoneAccepted }
    ensures one_answer { OneFault }
    ensures no_script { NoScript }
{}
