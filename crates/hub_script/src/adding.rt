//! What a form adds to what is known, once it has passed its tests.

ghost use Rattle.std.specs.Prelude.{◌≡◌, ◌<◌, ◌≤◌, length, true};
ghost use Rattle.hub_envelope.specs.declared.limits.TheConstants.{MAX_AGENTS, MAX_PORTS};
ghost use Rattle.hub_script.specs.Contents.{declared_agents};
ghost use Rattle.hub_script.specs.Context.{adding, adding_action, adding_agent, adding_channel};
ghost use Rattle.hub_script.specs.Context.{adding_member, after_form, casting, has_room};
ghost use Rattle.hub_script.specs.Context.{is_within, posting, sending, started_end, value_or};
ghost use Rattle.hub_script.specs.Fields.{IsRead};
ghost use Rattle.hub_script.specs.Uses.{transferred};

use crate::action::ActionKind;
use crate::error::ScriptError;
use crate::fields::QUEUE;
use crate::form::{ActionForm, Form};
use crate::script::{AgentKind, DeclaredAgent, DeclaredChannel, DeclaredMember};
use crate::script_reader::{ScriptReader, queue_of_agent};
use hub_envelope::{AgentId, Body, BodyError, EndId, Items, Text};
use hub_origin::{Origin, OriginError};
use std::alloc::Global;

/// The body that was read. What was refused as too large was refused before.
fn body_or_syntax_error(answer: Result<Body, BodyError>) -> Result<Body, ScriptError>
    ensures { IsRead result (value_or answer) }
{
    match answer {
        Ok(body) => Ok(body),
        Err(_) => Err(ScriptError::Syntax),
    }
}

impl ScriptReader {
    ghost use Rattle.hub_script.specs.Reader.{ReadsTo, known};

    /// Adds what a script line of that form says, or answers the first test that it fails. After an
    /// error nothing is known of the reader.
    #[tactic(auto, unfolding(crate::specs::Context::after_form))]
    pub(crate) fn check_and_add_form(
        &mut self,
        alloc: Global,
        form: Form,
    ) -> Result<(), ScriptError>
        ensures { ReadsTo self.new result (after_form (known self.old) form) }
    {
        self.check_form_against_script_so_far(&form)?;
        self.add_checked_form(alloc, form)
    }

    fn add_checked_form(&mut self, alloc: Global, form: Form) -> Result<(), ScriptError>
        requires room { has_room (known self.old) ≡ true }
        requires within { is_within (known self.old) form ≡ true }
        ensures { ReadsTo self.new result (adding (known self.old) form) }
    {
        match form {
            Form::Agent { kind, origin } => self.add_agent(kind, origin),
            Form::Channel { first, second, at } => self.add_message_channel(
                alloc, first, second, at,
            ),
            Form::Member { name, at, on } => self.add_member(alloc, name, at, on),
            Form::Action { at, action } => {
                let agent = self.agent_of_number(at)?;
                self.add_action(alloc, agent, action)
            }
        }
    }

    fn add_agent(
        &mut self,
        kind: AgentKind,
        origin: Result<Origin, OriginError>,
    ) -> Result<(), ScriptError>
        requires room { has_room (known self.old) ≡ true }
        requires seat { length (declared_agents (known self.old).script) < MAX_AGENTS }
        ensures { ReadsTo self.new result (adding_agent (known self.old) kind origin) }
    {
        let Ok(origin) = origin else {
            return Err(ScriptError::Syntax);
        };
        self.push_agent(DeclaredAgent { kind, origin })
    }

    #[tactic(auto, unfolding(crate::specs::Context::adding_channel))]
    fn add_message_channel(
        &mut self,
        alloc: Global,
        first: Text,
        second: Text,
        at: u32,
    ) -> Result<(), ScriptError>
        requires { has_room (known self.old) ≡ true }
        ensures { ReadsTo self.new result (adding_channel (known self.old) first second at) }
    {
        let at = self.agent_of_number(at)?;
        let (port, other) = self.named_ends_for_next_channel();
        self.declare_held_name(alloc, &first, port, at)?;
        self.declare_held_name(alloc, &second, other, at)?;
        self.push_message_channel(DeclaredChannel { at, first, second })
    }

    #[tactic(auto, unfolding(crate::specs::Context::adding_member))]
    fn add_member(
        &mut self,
        alloc: Global,
        name: Text,
        at: u32,
        on: Text,
    ) -> Result<(), ScriptError>
        requires { has_room (known self.old) ≡ true }
        ensures { ReadsTo self.new result (adding_member (known self.old) name at on) }
    {
        let at = self.agent_of_number(at)?;
        let member = self.named_end_for_next_member();
        self.declare_held_name(alloc, &name, member, at)?;
        self.push_broadcast_member(DeclaredMember { at, name, on })
    }

    fn add_action(
        &mut self,
        alloc: Global,
        agent: AgentId,
        action: ActionForm,
    ) -> Result<(), ScriptError>
        requires room { has_room (known self.old) ≡ true }
        requires few { length (transferred action) ≤ MAX_PORTS }
        ensures { ReadsTo self.new result (adding_action (known self.old) agent action) }
    {
        match action {
            ActionForm::Post {
                port,
                body,
                transfer,
            } => self.add_post_action(alloc, agent, &port, body, &transfer),
            ActionForm::Send { to, body, transfer } => {
                self.add_send_action(alloc, agent, to, body, &transfer)
            }
            ActionForm::Cast { member, body } => self.add_cast_action(agent, &member, body),
            ActionForm::Start { name } => self.add_start_action(agent, &name),
            ActionForm::Loaded => {
                let queue = queue_of_agent(agent);
                self.push_action(agent, ActionKind::Loaded { queue })
            }
            ActionForm::Close { name } => self.add_close_action(agent, &name),
            ActionForm::Wait { messages } => self.push_action(agent, ActionKind::Wait { messages }),
            ActionForm::Receive { port } => self.add_receive_action(agent, &port),
            ActionForm::Order { to } => {
                let to = self.agent_of_number(to)?;
                self.push_action(agent, ActionKind::Order { to })
            }
            ActionForm::Event { event } => self.push_action(agent, ActionKind::Event { event }),
            ActionForm::Hand { to } => {
                let to = self.agent_of_number(to)?;
                self.push_action(agent, ActionKind::Hand { to })?;
                self.mark_queue_handed_over(agent)
            }
            ActionForm::Fetch { from } => {
                let queue = queue_of_agent(self.agent_of_number(from)?);
                self.push_action(agent, ActionKind::Fetch { queue })
            }
        }
    }

    #[tactic(auto, unfolding(crate::specs::Context::posting))]
    fn add_post_action(
        &mut self,
        alloc: Global,
        agent: AgentId,
        port: &Text,
        body: Result<Body, BodyError>,
        transfer: &Items<Text>,
    ) -> Result<(), ScriptError>
        requires room { has_room (known self.old) ≡ true }
        requires few { length transfer.now ≤ MAX_PORTS }
        ensures { ReadsTo self.new result
            (posting (known self.old) agent port.now body transfer.now) }
    {
        let source = self.declared_end_of_name(port)?;
        let ports = self.ends_named(alloc, transfer)?;
        let body = body_or_syntax_error(body)?;
        let transfer = self.ids_of_named_ports(alloc, ports.as_slice())?;
        let port = self.id_of_named_end(source);
        self.push_action(
            agent,
            ActionKind::Post {
                port,
                body,
                transfer,
            },
        )?;
        self.mark_ports_released_by_agent(agent, ports.as_slice());
        Ok(())
    }

    #[tactic(auto, unfolding(crate::specs::Context::sending))]
    fn add_send_action(
        &mut self,
        alloc: Global,
        agent: AgentId,
        to: u32,
        body: Result<Body, BodyError>,
        transfer: &Items<Text>,
    ) -> Result<(), ScriptError>
        requires room { has_room (known self.old) ≡ true }
        requires few { length transfer.now ≤ MAX_PORTS }
        ensures { ReadsTo self.new result (sending (known self.old) agent to body transfer.now) }
    {
        let queue = queue_of_agent(self.agent_of_number(to)?);
        let ports = self.ends_named(alloc, transfer)?;
        let body = body_or_syntax_error(body)?;
        let transfer = self.ids_of_named_ports(alloc, ports.as_slice())?;
        self.push_action(
            agent,
            ActionKind::Send {
                queue,
                body,
                transfer,
            },
        )?;
        self.mark_ports_released_by_agent(agent, ports.as_slice());
        Ok(())
    }

    #[tactic(auto, unfolding(crate::specs::Context::casting))]
    fn add_cast_action(
        &mut self,
        agent: AgentId,
        member: &Text,
        body: Result<Body, BodyError>,
    ) -> Result<(), ScriptError>
        requires { has_room (known self.old) ≡ true }
        ensures { ReadsTo self.new result (casting (known self.old) agent member.now body) }
    {
        let named = self.declared_end_of_name(member)?;
        let body = body_or_syntax_error(body)?;
        let member = self.id_of_named_end(named);
        self.push_action(agent, ActionKind::Cast { member, body })
    }

    fn add_start_action(&mut self, agent: AgentId, name: &Text) -> Result<(), ScriptError>
        requires { has_room (known self.old) ≡ true }
        ensures { ReadsTo self.new result
            (adding_action (known self.old) agent (ActionForm.Start name.now)) }
    {
        let end = self.id_of_end_to_start(agent, name)?;
        self.push_action(agent, ActionKind::Start { end })
    }

    /// What the agent starts: its own queue, or a port.
    fn id_of_end_to_start(&self, agent: AgentId, name: &Text) -> Result<EndId, ScriptError>
        ensures { IsRead result (started_end (known self.now) agent name.now) }
    {
        if name.as_str() == QUEUE {
            Ok(queue_of_agent(agent))
        } else {
            Ok(self.id_of_named_end(self.declared_end_of_name(name)?))
        }
    }

    fn add_close_action(&mut self, agent: AgentId, name: &Text) -> Result<(), ScriptError>
        requires { has_room (known self.old) ≡ true }
        ensures { ReadsTo self.new result
            (adding_action (known self.old) agent (ActionForm.Close name.now)) }
    {
        let named = self.declared_end_of_name(name)?;
        let end = self.id_of_named_end(named);
        self.push_action(agent, ActionKind::Close { end })?;
        self.mark_released_by_agent(agent, named);
        Ok(())
    }

    fn add_receive_action(&mut self, agent: AgentId, name: &Text) -> Result<(), ScriptError>
        requires { has_room (known self.old) ≡ true }
        ensures { ReadsTo self.new result
            (adding_action (known self.old) agent (ActionForm.Receive name.now)) }
    {
        let named = self.declared_end_of_name(name)?;
        let port = self.id_of_named_end(named);
        self.push_action(agent, ActionKind::Receive { port })?;
        self.mark_held_by_agent(agent, named)
    }
}
