//! The tests of a form behind what is known. They stand in the order in which they are made, so
//! that the first that fails is the answer.

ghost use Rattle.std.specs.Prelude.{◌≡◌, true, OnOk};
ghost use Rattle.std.specs.List.{list_all};
ghost use Rattle.hub_script.specs.Context.{agent_may_start_queue, are_known, has_agent_of_number};
ghost use Rattle.hub_script.specs.Context.{has_room, has_twice, holds_list, holds_named};
ghost use Rattle.hub_script.specs.Context.{is_body_within_limits, is_member, is_placed, is_port};
ghost use Rattle.hub_script.specs.Context.{is_timely, is_within, lists_source, require, run};
ghost use Rattle.hub_script.specs.Context.{stands_in, tests};
ghost use Rattle.hub_script.specs.Fields.{IsRead};
ghost use Rattle.hub_script.specs.Uses.{agents_named, members_named, names_used, others_named};
ghost use Rattle.hub_script.specs.Uses.{ports_named, transfer_of};

use crate::error::{DataCloneCause, ScriptError};
use crate::fields::QUEUE;
use crate::form::{ActionForm, Form};
use crate::script::AgentKind;
use crate::script_reader::ScriptReader;
use hub_envelope::{Body, BodyError, Items, MAX_PORTS, Text};

/// An error unless the condition holds.
fn require(condition: bool, error: ScriptError) -> Result<(), ScriptError>
    ensures { IsRead result (require error condition) }
{
    if condition { Ok(()) } else { Err(error) }
}

/// A body that isn't nested too deep or too long.
fn is_body_within_limits(body: &Result<Body, BodyError>) -> bool
    ensures { result ≡ is_body_within_limits body.now }
{
    !matches!(body, Err(BodyError::TooDeep | BodyError::TooLong))
}

impl Form {
    /// The port that posts is in its own list.
    fn transfers_posting_port(&self) -> bool
        ensures { result ≡ lists_source self.now }
    {
        match self {
            Form::Action {
                action: ActionForm::Post { port, transfer, .. },
                ..
            } => { contains_name(port, transfer.as_slice()) }
            _ => false,
        }
    }

    /// A name stands twice in the list of ports.
    fn transfers_port_twice(&self) -> bool
        ensures { result ≡ has_twice (transfer_of self.now) }
    {
        match self {
            Form::Action {
                action: ActionForm::Post { transfer, .. } | ActionForm::Send { transfer, .. },
                ..
            } => has_twice(transfer.as_slice()),
            _ => false,
        }
    }
}

impl ScriptReader {
    ghost use Rattle.hub_script.specs.Reader.{known};

    /// Makes the tests of the form. What is left of its body or URL is tested when it is added.
    pub(crate) fn check_form_against_script_so_far(&self, form: &Form) -> Result<(), ScriptError>
        ensures says { IsRead result (run (tests (known self.now) form.now)) }
        ensures room { OnOk result (has_room (known self.now) ≡ true) }
        ensures within { OnOk result (is_within (known self.now) form.now ≡ true) }
    {
        require(self.is_allowed_here(form), ScriptError::Syntax)?;
        require(
            self.are_names_known_and_held(form),
            ScriptError::UnknownName,
        )?;
        require(
            !form.transfers_posting_port(),
            ScriptError::DataClone(DataCloneCause::Source),
        )?;
        require(
            !form.transfers_port_twice(),
            ScriptError::DataClone(DataCloneCause::Twice),
        )?;
        require(
            self.holds_transferred_ports(form),
            ScriptError::DataClone(DataCloneCause::Detached),
        )?;
        require(self.has_room_for_line(), ScriptError::TooLarge)?;
        require(self.is_form_within_limits(form), ScriptError::TooLarge)
    }

    /// Declarations stand before all actions, and declare different names that are free. An action
    /// fits what its agent is and has done.
    fn is_allowed_here(&self, form: &Form) -> bool
        ensures { result ≡ is_placed (known self.now) form.now }
    {
        match form {
            Form::Agent { .. } => self.are_declarations_still_allowed(),
            Form::Channel { first, second, .. } => {
                self.are_declarations_still_allowed()
                    && self.is_unused(first)
                    && self.is_unused(second)
                    && first.as_str() != second.as_str()
            }
            Form::Member { name, .. } => self.are_declarations_still_allowed()
                && self.is_unused(name),
            Form::Action { at, action } => self.is_action_allowed(*at, action),
        }
    }

    fn is_action_allowed(&self, at: u32, action: &ActionForm) -> bool
        ensures { result ≡ is_timely (known self.now) at action.now }
    {
        match action {
            ActionForm::Start { name } => name.as_str() != QUEUE || self.agent_may_start_queue(at),
            ActionForm::Loaded => self.agent_may_start_queue(at),
            ActionForm::Event { .. } => !self.is_agent_of_kind(AgentKind::Window, at),
            ActionForm::Hand { to } => at != *to && !self.has_agent_handed_queue_over(at),
            ActionForm::Fetch { from } => at != *from,
            _ => true,
        }
    }

    /// A worker's queue is started by itself, and one that was handed on is another agent's.
    fn agent_may_start_queue(&self, at: u32) -> bool
        ensures { result ≡ agent_may_start_queue (known self.now) at }
    {
        !(self.is_agent_of_kind(AgentKind::Worker, at) || self.has_agent_handed_queue_over(at))
    }

    /// Agents and names are declared, are of the kind that is meant, and are held where they are
    /// used.
    fn are_names_known_and_held(&self, form: &Form) -> bool
        ensures { result ≡ are_known (known self.now) form.now }
    {
        self.form_names_only_declared_agents(form)
            && self.form_names_ports_where_required(form)
            && self.form_casts_only_from_member(form)
            && self.form_uses_only_held_ends(form)
    }

    #[tactic(auto, using(crate::proofs::Tests::and_true))]
    fn form_names_only_declared_agents(&self, form: &Form) -> bool
        ensures { result ≡ list_all (has_agent_of_number (known self.now)) (agents_named form.now) }
    {
        match form {
            Form::Agent { .. } => true,
            Form::Channel { at, .. } | Form::Member { at, .. } => self.has_agent_of_number(*at),
            Form::Action { at, action } => self.has_agent_of_number(*at)
                && self.is_agent_of_action_declared(action),
        }
    }

    #[tactic(auto, using(crate::proofs::Tests::and_true))]
    fn is_agent_of_action_declared(&self, form: &ActionForm) -> bool
        ensures { result ≡ list_all (has_agent_of_number (known self.now)) (others_named form.now) }
    {
        match form {
            ActionForm::Send { to, .. } | ActionForm::Order { to } | ActionForm::Hand { to } => {
                self.has_agent_of_number(*to)
            }
            ActionForm::Fetch { from } => self.has_agent_of_number(*from),
            _ => true,
        }
    }

    #[tactic(auto, using(crate::proofs::Tests::and_true))]
    fn form_names_ports_where_required(&self, form: &Form) -> bool
        ensures { result ≡ list_all (is_port (known self.now)) (ports_named form.now) }
    {
        let Form::Action { action, .. } = form else {
            return true;
        };
        match action {
            ActionForm::Post { port, transfer, .. } => {
                self.is_name_of_port(port) && self.are_all_names_of_ports(transfer)
            }
            ActionForm::Send { transfer, .. } => self.are_all_names_of_ports(transfer),
            ActionForm::Start { name } => name.as_str() == QUEUE || self.is_name_of_port(name),
            ActionForm::Receive { port } => self.is_name_of_port(port),
            _ => true,
        }
    }

    fn are_all_names_of_ports(&self, names: &Items<Text>) -> bool
        ensures { result ≡ list_all (is_port (known self.now)) names.now }
    {
        names
            .as_slice()
            .iter()
            .all(|name| self.is_name_of_port(name))
    }

    #[tactic(auto, using(crate::proofs::Tests::and_true))]
    fn form_casts_only_from_member(&self, form: &Form) -> bool
        ensures { result ≡ list_all (is_member (known self.now)) (members_named form.now) }
    {
        match form {
            Form::Action {
                action: ActionForm::Cast { member, .. },
                ..
            } => self.is_name_of_broadcast_member(member),
            _ => true,
        }
    }

    #[tactic(auto, using(crate::proofs::Tests::and_true))]
    fn form_uses_only_held_ends(&self, form: &Form) -> bool
        ensures { result
            ≡ list_all (λ used. holds_named (known self.now) used.0 used.1) (names_used form.now) }
    {
        let Form::Action { at, action } = form else {
            return true;
        };
        match action {
            ActionForm::Post { port, .. } => self.agent_holds(*at, port),
            ActionForm::Cast { member, .. } => self.agent_holds(*at, member),
            ActionForm::Start { name } => name.as_str() == QUEUE || self.agent_holds(*at, name),
            ActionForm::Close { name } => self.agent_holds(*at, name),
            _ => true,
        }
    }

    /// The agent holds the ports that it transfers.
    fn holds_transferred_ports(&self, form: &Form) -> bool
        ensures { result ≡ holds_list (known self.now) form.now }
    {
        match form {
            Form::Action {
                at,
                action: ActionForm::Post { transfer, .. } | ActionForm::Send { transfer, .. },
            } => self.holds_all(*at, transfer),
            _ => true,
        }
    }

    fn holds_all(&self, agent: u32, names: &Items<Text>) -> bool
        ensures { result ≡ list_all (holds_named (known self.now) agent) names.now }
    {
        names
            .as_slice()
            .iter()
            .all(|name| self.agent_holds(agent, name))
    }

    /// Agents, listed ports and bodies are within their limits.
    fn is_form_within_limits(&self, form: &Form) -> bool
        ensures { result ≡ is_within (known self.now) form.now }
    {
        match form {
            Form::Agent { .. } => self.has_room_for_agent(),
            Form::Action {
                action: ActionForm::Post { body, transfer, .. }
                | ActionForm::Send { body, transfer, .. },
                ..
            } => transfer.as_slice().len() <= MAX_PORTS && is_body_within_limits(body),
            Form::Action {
                action: ActionForm::Cast { body, .. },
                ..
            } => is_body_within_limits(body),
            _ => true,
        }
    }
}

/// Whether the name stands in the list.
pub(crate) fn contains_name(name: &Text, names: &[Text]) -> bool
    ensures { result ≡ stands_in name.now names.now }
{
    names.iter().any(|other| other.as_str() == name.as_str())
}

/// Whether some name stands twice in the list. It takes time that grows with the square of the
/// list up to the first name that does.
pub(crate) fn has_twice(names: &[Text]) -> bool
    ensures { result ≡ has_twice names.now }
{
    let mut rest = names;
    while let Some((first, others)) = rest.split_first() {
        if contains_name(first, others) {
            return true;
        }
        rest = others;
    }
    false
}
