ghost use Rattle.std.specs.Prelude.{◌≡◌, ◌≤◌, [], true, OnOk, OnErr, IfOk};
ghost use Rattle.hub_envelope.specs.Naming.{posted_of};
ghost use Rattle.hub_logging.specs.Notes.{IsLoggable, delivered, found};
ghost use Rattle.hub_trace.specs.Accepted.{delivery_at, log_with};
ghost use Rattle.hub_trace.specs.PortList.{is_port_list, lists_end};
ghost use Rattle.hub_trace.specs.declared.limits.TheConstants.{MAX_AGENT};
ghost use Rattle.hub_trace.specs.declared.log_entry.LogEntry.TheVariants.{
  Adopted,
  Closed,
  Got,
  Put,
};

use hub_envelope::{AgentId, Body, EndId, Envelope, OutOfMemory, Posted};
use hub_loop::Handler;
use hub_trace::{
    Content, Log, MAX_END, MAX_EPOCH, Payload, is_envelope_name_within_limits, is_port_list,
};
use std::alloc::Global;
use std::collections::BTreeSet;
use std::marker::Model;
use std::mem::replace;
use std::sync::Wait;

/// The handler of an agent's loop, which keeps the agent's log.
///
/// A log has limits for what it names, which no call of the hub goes past. An entry that would is
/// refused as for want of memory, since no log could hold it.
///
/// ```rust
/// let mut scribe = Scribe::new(alloc, AgentId(0));
/// let content = scribe.content_of_message(&[], &body)?;
/// scribe.log_posted(posted, content)?;
/// let log = scribe.into_log();
/// ```
pub struct Scribe {
    alloc: Global,
    log: Log,
    /// The ends that the log closes.
    closed: BTreeSet<u32>,
    /// The ports of the envelope that was delivered last which the loop holds.
    adopted: Vec<EndId>,
    /// How many messages were delivered, notices not counted.
    messages: u64,
}

// By hand, so that whoever drops one makes one call, and its proof has no cases of its fields.
impl Drop for Scribe {
    fn drop(self) {
        let Scribe {
            alloc: _,
            log,
            closed,
            adopted,
            messages: _,
        } = self;
        drop(log);
        drop(closed);
        drop(adopted);
    }
}

impl Model for Scribe {
    ghost use Rattle.std.specs.Prelude.{◌≡◌, ◌≤◌, ℕ, true};
    ghost use Rattle.std.specs.BTreeSet.{contains};
    ghost use Rattle.std.specs.Ordering.{nat_cmp};
    ghost use Rattle.hub_logging.specs.Notes.{Notes};
    ghost use Rattle.hub_trace.specs.Closings.{is_closed_by};
    ghost use Rattle.hub_trace.specs.declared.limits.TheConstants.{MAX_AGENT};

    ghost Value = { Notes };

    ghost view = { λ s. record { log = s.log; adopted = s.adopted.items; messages = s.messages } };

    ghost invariant = { λ s. (s.log.0.0 ≤ MAX_AGENT)
        × ((end : ℕ) → is_closed_by s.log.1 end ≡ true → contains nat_cmp s.closed end ≡ true) };
}

/// Whether the end stands in the list.
fn contains_end(ends: &[EndId], end: EndId) -> bool
    ensures { result ≡ lists_end ends.now end.0 }
{
    ends.iter().any(|other| other.0 == end.0)
}

/// The ports that came with an envelope and that the loop holds. A notice brings none.
fn received_ports(
    alloc: Global,
    envelope: &Envelope,
    missing: &[EndId],
) -> Result<Vec<EndId>, OutOfMemory>
    ensures { IfOk result (λ ports. ports.items ≡ found missing.now envelope.now) }
{
    if envelope.notice {
        return Ok(Vec::new(alloc));
    }
    let ports = envelope.ports.as_slice().iter().copied();
    ports
        .filter(|port| !contains_end(missing, *port))
        .collect::<Vec<EndId>>(alloc)
}

impl Scribe {
    /// Nothing is logged yet. It takes no memory.
    pub fn new(alloc: Global, agent: AgentId) -> Scribe
        requires { agent.0 ≤ MAX_AGENT }
        ensures { result ≡ record { log = (agent, []); adopted = []; messages = 0 } }
    {
        Scribe {
            alloc,
            log: Log::new(alloc, agent),
            closed: BTreeSet::new(alloc),
            adopted: Vec::new(alloc),
            messages: 0,
        }
    }

    /// Takes it out, and leaves one that has logged nothing.
    pub fn replace_with_empty(&mut self) -> Scribe
        ensures given { result ≡ self.old }
        ensures left { self.new
            ≡ record { log = (self.old.log.0, []); adopted = []; messages = 0 } }
    {
        let agent = self.log.agent_id();
        replace(self, Scribe::new(self.alloc, agent))
    }

    /// The agent whose log it keeps.
    pub fn agent_id(&self) -> AgentId
        ensures { result ≡ self.now.log.0 }
    {
        self.log.agent_id()
    }

    /// The log.
    pub fn into_log(self) -> Log
        ensures { result ≡ self.log }
    {
        let Scribe {
            alloc: _,
            log,
            closed: _,
            adopted: _,
            messages: _,
        } = self;
        log
    }

    /// How many messages were delivered, notices not counted.
    pub fn delivered_message_count(&self) -> u64
        ensures { result ≡ self.now.messages }
    {
        self.messages
    }

    /// Takes out the ports of the envelope that was delivered last which the loop holds.
    pub fn take_ports_of_last_delivery(&mut self) -> Vec<EndId>
        ensures given { result.items ≡ self.old.adopted }
        ensures taken { self.new ≡ record self.old { adopted = [] } }
    {
        replace(&mut self.adopted, Vec::new(self.alloc))
    }

    /// What a log holds of these ports and this body. A list that no log can hold is refused.
    pub fn content_of_message(&self, ports: &[EndId], body: &Body) -> Result<Content, OutOfMemory>
        ensures copy { IfOk result (λ content. content ≡ Content.Payload (ports.now, body.now)) }
        ensures list { OnOk result (is_port_list ports.now ≡ true) }
    {
        if !is_port_list(ports) {
            return Err(OutOfMemory);
        }
        Ok(Content::Payload(Payload::copy_of_parts(self.alloc, ports, body)?))
    }

    /// What a log holds of an envelope that was delivered. One that no log can hold is refused,
    /// since the log would leave out the adoption of a port.
    fn content_of_delivery(&self, envelope: &Envelope) -> Result<Content, OutOfMemory>
        ensures content { IfOk result (λ content.
            delivery_at (posted_of envelope.now) content ≡ delivered envelope.now) }
        ensures loggable { OnOk result (IsLoggable envelope.now) }
    {
        let ports = envelope.ports.as_slice();
        if envelope.notice && !ports.is_empty() {
            return Err(OutOfMemory);
        }
        if envelope.notice {
            return Ok(Content::Notice);
        }
        self.content_of_message(ports, &envelope.body)
    }

    /// Logs that the agent put it under the name: a post that was accepted, or a notice. An error
    /// changes nothing.
    #[tactic(auto, using(crate::proofs::Notes::closed_more))]
    pub fn log_posted(&mut self, posted: Posted, content: Content) -> Result<(), OutOfMemory>
        ensures ok { OnOk result (self.new ≡ record self.old {
          log = log_with self.old.log (Put (delivery_at posted content));
        }) }
        ensures err { OnErr result (self.new ≡ self.old) }
    {
        if !is_envelope_name_within_limits(&posted) {
            return Err(OutOfMemory);
        }
        self.log.record_put(posted, content)
    }

    /// Logs an envelope that was delivered. An error changes nothing.
    #[tactic(auto, using(crate::proofs::Notes::closed_more))]
    fn log_delivery(&mut self, envelope: &Envelope) -> Result<(), OutOfMemory>
        ensures ok { OnOk result (self.new ≡ record self.old {
          log = log_with self.old.log (Got (delivered envelope.now));
        }) }
        ensures loggable { OnOk result (IsLoggable envelope.now) }
        ensures err { OnErr result (self.new ≡ self.old) }
    {
        let posted = Posted::of_envelope(envelope);
        if !is_envelope_name_within_limits(&posted) {
            return Err(OutOfMemory);
        }
        let content = self.content_of_delivery(envelope)?;
        self.log.record_got(posted, content)
    }

    /// Logs that the end was adopted, and how often it has moved. An error changes nothing.
    #[tactic(auto, using(crate::proofs::Notes::closed_more))]
    pub fn log_adoption(&mut self, end: EndId, epoch: u32) -> Result<(), OutOfMemory>
        ensures ok { OnOk result (self.new ≡ record self.old {
          log = log_with self.old.log (Adopted end epoch);
        }) }
        ensures err { OnErr result (self.new ≡ self.old) }
    {
        if u64::from(end.0) > MAX_END || u64::from(epoch) > MAX_EPOCH {
            return Err(OutOfMemory);
        }
        self.log.record_adopted(end, epoch)
    }

    /// Logs that the end was closed. It is refused where the log closes it already, and where an
    /// earlier call for the same end was refused for want of memory. An error changes nothing that
    /// is logged.
    #[tactic(auto, using(crate::proofs::Notes::closed_more))]
    pub fn log_closing(&mut self, end: EndId) -> Result<(), OutOfMemory>
        ensures ok { OnOk result (self.new ≡ record self.old {
          log = log_with self.old.log (Closed end);
        }) }
        ensures err { OnErr result (self.new ≡ self.old) }
    {
        if u64::from(end.0) > MAX_END || !self.closed.insert(end.0)? {
            return Err(OutOfMemory);
        }
        self.log.record_end_closed(end)
    }
}

impl Handler for Scribe {
    ghost use Rattle.std.specs.Prelude.{◌≡◌};
    ghost use Rattle.hub_logging.specs.Notes.{IsLoggable, notes_of};

    ghost leaves = { λ before envelope missing after. (after ≡ notes_of before envelope missing)
        × IsLoggable envelope };

    ghost refuses = { λ before _ _ after. after ≡ before };

    fn got<R: Wait>(
        &mut self,
        _rt: &R,
        envelope: &Envelope,
        missing: &[EndId],
    ) -> Result<(), OutOfMemory> {
        let adopted = received_ports(self.alloc, envelope, missing)?;
        self.log_delivery(envelope)?;
        self.adopted = adopted;
        if !envelope.notice {
            self.messages = self.messages.wrapping_add(1);
        }
        Ok(())
    }
}
