ghost use Rattle.std.specs.Prelude.{Some, ◌≡◌, ◌≤◌, [], false, OnOk, OnErr};
ghost use Rattle.hub_trace.specs.declared.log_entry.LogEntry.TheVariants.{Put, Got, Adopted};
ghost use Rattle.hub_trace.specs.declared.log_entry.LogEntry.TheVariants.{Closed};
ghost use Rattle.hub_trace.specs.declared.limits.TheConstants.{MAX_AGENT, MAX_END, MAX_EPOCH};
ghost use Rattle.hub_trace.specs.Accepted.{delivery_at, log_with};
ghost use Rattle.hub_trace.specs.declared.log_version.LogVersion.TheVariants.{Third};
ghost use Rattle.hub_trace.specs.Closings.{closes_one, is_closed_by};
ghost use Rattle.hub_trace.specs.Limits.{IsEntryWithin, IsPostedWithin, IsLogWithin};
ghost use Rattle.hub_trace.specs.Text.{log_text};

use crate::content::Content;
use crate::log_entry::{Delivery, LogEntry};
use hub_envelope::{AgentId, EndId, OutOfMemory, Posted};
use std::alloc::Global;
use std::fmt;
use std::marker::Model;

/// The first text line of a file of logs, as logs are written.
pub const LOG_HEADER: &str = "hublog 3";

/// What one agent did, oldest first. The agent's own thread appends to it. All that it holds is
/// within the limits of a file of logs, and it closes no end twice.
///
/// ```rust
/// let mut log = Log::new(alloc, AgentId(0));
/// let payload = Payload::copy_of_parts(alloc, &[], &envelope.body)?;
/// log.record_put(Posted::of_envelope(&envelope), Content::Payload(payload))?;
/// log.record_end_closed(EndId(2))?;
/// let verdict = check(alloc, &[log])?;
/// ```
#[derive(Debug, Drop)]
pub struct Log {
    agent: AgentId,
    entries: Vec<LogEntry>,
}

impl Model for Log {
    ghost use Rattle.std.specs.Prelude.{List};
    ghost use Rattle.hub_envelope.specs.declared.ids.AgentId.{AgentId};
    ghost use Rattle.hub_trace.specs.declared.log_entry.LogEntry.{LogEntry};
    ghost use Rattle.hub_trace.specs.declared.log_version.LogVersion.TheVariants.{Third};
    ghost use Rattle.hub_trace.specs.Limits.{IsLogWithin};

    ghost Value = { AgentId × List LogEntry };

    ghost view = { λ l. (l.agent, l.entries.items) };

    ghost invariant = { λ l. IsLogWithin Third (l.agent, l.entries.items) };
}

impl Log {
    /// An empty log. It takes no memory.
    pub fn new(alloc: Global, agent: AgentId) -> Log
        requires { agent.0 ≤ MAX_AGENT }
        ensures { result ≡ (agent, []) }
    {
        Log {
            agent,
            entries: Vec::new(alloc),
        }
    }

    /// The agent whose log this is.
    pub fn agent_id(&self) -> AgentId
        ensures { result ≡ self.now.0 }
    {
        self.agent
    }

    /// The entries, oldest first.
    pub fn entries(&self) -> &[LogEntry]
        ensures entries { result.now ≡ self.now.1 }
        ensures within { IsLogWithin Third self.now }
    {
        self.entries.as_slice()
    }

    /// Whether the log has an entry that closes the end. It looks through all entries.
    pub fn has_closed_end(&self, end: EndId) -> bool
        ensures { result ≡ is_closed_by self.now.1 end.0 }
    {
        for entry in &self.entries {
            if let LogEntry::Closed { end: closed } = entry {
                if *closed == end {
                    return true;
                }
            }
        }
        false
    }

    /// Logs that the agent put it under the name: a post that was accepted, or a notice. An `Err`
    /// changes nothing.
    pub fn record_put(&mut self, posted: Posted, content: Content) -> Result<(), OutOfMemory>
        requires { IsPostedWithin Third posted }
        ensures ok { OnOk result (self.new ≡ log_with self.old (Put (delivery_at posted content))) }
        ensures err { OnErr result (self.new ≡ self.old) }
    {
        self.append_entry(LogEntry::Put(Delivery { posted, content }))
    }

    /// Logs that the agent took it under the name: an envelope, or a notice. An `Err` changes
    /// nothing.
    pub fn record_got(&mut self, posted: Posted, content: Content) -> Result<(), OutOfMemory>
        requires { IsPostedWithin Third posted }
        ensures ok { OnOk result (self.new ≡ log_with self.old (Got (delivery_at posted content))) }
        ensures err { OnErr result (self.new ≡ self.old) }
    {
        self.append_entry(LogEntry::Got(Delivery { posted, content }))
    }

    /// Logs that the agent adopted the end, whose newest queue is now that of the epoch. An `Err`
    /// changes nothing.
    pub fn record_adopted(&mut self, end: EndId, epoch: u32) -> Result<(), OutOfMemory>
        requires end { end.0 ≤ MAX_END }
        requires epoch { epoch ≤ MAX_EPOCH }
        ensures ok { OnOk result (self.new ≡ log_with self.old (Adopted end epoch)) }
        ensures err { OnErr result (self.new ≡ self.old) }
    {
        self.append_entry(LogEntry::Adopted { end, epoch })
    }

    /// Logs that the agent closed the end, which it did not log before. An `Err` changes nothing.
    pub fn record_end_closed(&mut self, end: EndId) -> Result<(), OutOfMemory>
        requires end { end.0 ≤ MAX_END }
        requires first { is_closed_by self.old.1 end.0 ≡ false }
        ensures ok { OnOk result (self.new ≡ log_with self.old (Closed end)) }
        ensures err { OnErr result (self.new ≡ self.old) }
    {
        self.append_entry(LogEntry::Closed { end })
    }

    /// Adds an entry as the newest. An `Err` changes nothing.
    pub(crate) fn append_entry(&mut self, entry: LogEntry) -> Result<(), OutOfMemory>
        requires within { IsEntryWithin Third entry }
        requires first { closes_one (is_closed_by self.old.1) entry ≡ false }
        ensures ok { OnOk result (self.new ≡ log_with self.old entry) }
        ensures err { OnErr result (self.new ≡ self.old) }
    {
        self.entries.push(entry)?;
        Ok(())
    }
}

/// The log lines of the log, each with its LF, without the header.
impl fmt::Display for Log {
    ghost output = { λ l. Some (log_text l) };

    fn fmt<W: fmt::Write>(&self, f: &mut fmt::Formatter<W>) -> fmt::Result {
        let agent = self.agent.0;
        writeln!(f, "agent {agent}")?;
        for entry in &self.entries {
            writeln!(f, "{entry}")?;
        }
        Ok(())
    }
}
