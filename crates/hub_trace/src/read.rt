//! The reader of a file of logs.

ghost use Rattle.std.specs.Prelude.{◌≡◌, ◌<◌, ◌==◌, ◌||◌, ◌⊎◌, ◌++◌, not, ℕ, List, [], length};
ghost use Rattle.std.specs.Prelude.{codes, MatchResult, OnOk, IfErr, IfOk, IsErrOf, IsOkAnd};
ghost use Rattle.std.specs.BTreeSet.{contains};
ghost use Rattle.std.specs.Ordering.{nat_cmp};
ghost use Rattle.hub_text.specs.Reading.{AreLinesReadAs, IsReadAs};
ghost use Rattle.hub_trace.specs.declared.log_line.LogLine.TheVariants as line;
ghost use Rattle.hub_trace.specs.declared.log_version.LogVersion.{LogVersion};
ghost use Rattle.hub_trace.specs.declared.log_version.LogVersion.TheVariants.{Third};
ghost use Rattle.hub_trace.specs.Accepted.{AgentLog};
ghost use Rattle.hub_trace.specs.Closings.{closes_one};
ghost use Rattle.hub_trace.specs.Limits.{AreWithin, IsEntryWithin};
ghost use Rattle.hub_trace.specs.Read.{ComesAt, HasHeader, HasHeaderOf, HasOtherHeader};
ghost use Rattle.hub_trace.specs.Read.{TellsClosed, line_added, logs_of, with_log_line};
ghost use Rattle.hub_trace.specs.ReadMemory.{ReadingTakesMemory, TakesMemoryAt};
ghost use Rattle.hub_trace.specs.Text.{file_text};

use crate::error::LogError;
use crate::log::Log;
use crate::log_entry::LogEntry;
use crate::log_line::{LogLine, read_log_line};
use crate::log_version::LogVersion;
use hub_envelope::OutOfMemory;
use hub_text::split_off_first_text_line;
use std::alloc::Global;
use std::collections::BTreeSet;

/// The text line at which the logs end, where the input goes on.
pub const LOGS_END: &str = "deliveries";

/// The logs that the bytes spell, in any of the three versions, up to a text line `deliveries` or
/// the end. Text lines end at LF; the last LF may be missing. No bytes at all are no logs. An error
/// comes with the number of its text line, from 1; of several bad ones the first counts. Memory
/// may run out only at an entry with a body, and where the logs grow.
pub fn read_logs(alloc: Global, bytes: &[u8]) -> Result<Vec<Log>, (usize, LogError)>
    ensures empty { length bytes.now ≡ 0 → IsOkAnd result (λ logs. logs.items ≡ []) }
    ensures header { OnOk result (0 < length bytes.now → HasHeader bytes.now) }
    ensures numbered { IfErr result (λ error. 0 < error.0) }
    ensures bad_header { HasOtherHeader bytes.now → IsErrOf result (1, LogError.BadHeader) }
    ensures errors { IfErr result (λ error. ComesAt bytes.now error.0 error.1) }
    ensures within { (v : LogVersion) → HasHeaderOf v bytes.now
        → IfOk result (λ logs. AreWithin v logs.items) }
    // The logs, or the first bad line and its kind, are those of `logs_of`.
    ensures reads { AreLinesReadAs LogError.OutOfMemory (λ logs. logs.items) result
        (logs_of bytes.now) }
    ensures memory { IfErr result
        (λ error. error.1 ≡ LogError.OutOfMemory → TakesMemoryAt bytes.now error.0) }
    // What logs write below the header reads back to them, also where a line `deliveries` comes
    // next. Each log is within the limits by itself, so no more is asked of them than that no two
    // close one end.
    ensures written { (logs : List AgentLog) (more : List ℕ) → AreWithin Third logs
        → (bytes.now ≡ file_text logs)
        ⊎ (bytes.now ≡ file_text logs ++ codes "deliveries\n" ++ more)
        → MatchResult result (λ read. read.items ≡ logs) (λ error. error.1 ≡ LogError.OutOfMemory) }
{
    let mut logs = Vec::new(alloc);
    if bytes.is_empty() {
        return Ok(logs);
    }
    let (header, mut rest) = split_off_first_text_line(bytes);
    let Some(version) = LogVersion::of_header(header) else {
        return Err((1, LogError::BadHeader));
    };
    let mut closed = BTreeSet::new(alloc);
    let mut number = 1;
    while !rest.is_empty() {
        let (line, after) = split_off_first_text_line(rest);
        if line == LOGS_END.as_bytes() {
            return Ok(logs);
        }
        number += 1;
        if let Err(error) = add_line_to_logs(alloc, version, line, &mut logs, &mut closed) {
            return Err((number, error));
        }
        rest = after;
    }
    Ok(logs)
}

/// Begins a log or adds an entry to the newest. `closed` has the ends that the logs close.
fn add_line_to_logs(
    alloc: Global,
    version: LogVersion,
    line: &[u8],
    logs: &mut Vec<Log>,
    closed: &mut BTreeSet<u32>,
) -> Result<(), LogError>
    requires { TellsClosed (contains nat_cmp closed.old) logs.old.items }
    ensures says { IsReadAs LogError.OutOfMemory (λ _. logs.new.items) result
        (line_added version logs.old.items line.now) }
    ensures closed { OnOk result (TellsClosed (contains nat_cmp closed.new) logs.new.items) }
    ensures memory { IfErr result
        (λ e. e ≡ LogError.OutOfMemory → ReadingTakesMemory version line.now) }
    ensures within { OnOk result
        (AreWithin version logs.old.items → AreWithin version logs.new.items) }
{
    match read_log_line(alloc, version, line)? {
        LogLine::Agent(agent) => {
            logs.push(Log::new(alloc, agent))?;
            Ok(())
        }
        LogLine::Entry(entry) => add_entry(entry, logs, closed),
    }
}

/// Adds an entry to the newest log.
fn add_entry(
    entry: LogEntry,
    logs: &mut Vec<Log>,
    closed: &mut BTreeSet<u32>,
) -> Result<(), LogError>
    requires within { IsEntryWithin Third entry }
    requires closed { TellsClosed (contains nat_cmp closed.old) logs.old.items }
    ensures says { IsReadAs LogError.OutOfMemory (λ _. logs.new.items) result
        (with_log_line logs.old.items (line.Entry entry)) }
    ensures closed { OnOk result (TellsClosed (contains nat_cmp closed.new) logs.new.items) }
{
    let Some(log) = logs.last_mut() else {
        return Err(LogError::BadLine);
    };
    if !insert_end_closed_by_entry(&entry, closed)? {
        return Err(LogError::BadLine);
    }
    log.append_entry(entry)?;
    Ok(())
}

/// Adds the end that the entry closes, if it closes one. False where it was closed already.
fn insert_end_closed_by_entry(
    entry: &LogEntry,
    closed: &mut BTreeSet<u32>,
) -> Result<bool, OutOfMemory>
    ensures first { IfOk result
        (λ first. first ≡ not (closes_one (contains nat_cmp closed.old) entry.now)) }
    ensures closed { OnOk result ((end : ℕ) → contains nat_cmp closed.new end
        ≡ (contains nat_cmp closed.old end || closes_one (λ e. e == end) entry.now)) }
{
    match entry {
        LogEntry::Closed { end } => Ok(closed.insert(end.0)?),
        _ => Ok(true),
    }
}
