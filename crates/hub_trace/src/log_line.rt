//! The reader of one log line.

ghost use Rattle.std.specs.Prelude.{◌≡◌, ◌≢◌, ◌≤◌, ◌&&◌, length, true, IfErr, IfOk, Some};
ghost use Rattle.hub_envelope.specs.BodyText.{IsBodyText};
ghost use Rattle.hub_text.specs.Reading.{IsReadAs};
ghost use Rattle.hub_text.specs.Word.{cut};
ghost use Rattle.hub_trace.specs.LogVersion.{max_body, max_line};
ghost use Rattle.hub_trace.specs.Limits.{IsContentWithin, IsDeliveryWithin, IsPostedWithin};
ghost use Rattle.hub_trace.specs.Limits.{IsLogLineWithin, IsMessageWithin, IsPortList};
ghost use Rattle.hub_trace.specs.LogLine.{adoption_in, agent_in, body_in, content_in, delivery_in};
ghost use Rattle.hub_trace.specs.LogLine.{end_in, epoch_in, posted_in, line_id_in, log_line_of};
ghost use Rattle.hub_trace.specs.LogLine.{log_line_with, payload_in, number_in_logs, parts_in};
ghost use Rattle.hub_trace.specs.LogLine.{ports_in_logs, log_line_in};
ghost use Rattle.hub_trace.specs.ReadMemory.{delivers_message, has_message, is_delivery};
ghost use Rattle.hub_trace.specs.ReadMemory.{log_reads_memory};

use crate::content::Content;
use crate::error::LogError;
use crate::limits::{MAX_AGENT, MAX_END, MAX_EPOCH, MAX_NUMBER, is_port_list};
use crate::log_entry::{Delivery, LogEntry};
use crate::log_version::LogVersion;
use crate::payload::Payload;
use hub_envelope::{AgentId, Body, BodyError, EndId, Items, LineId, Posted};
use hub_text::{number_of, read_ends, split_once_at_byte, split_word};
use std::alloc::Global;

/// What a log line below the header says.
#[derive(Debug, Drop)]
pub(crate) enum LogLine {
    /// The log of this agent begins.
    Agent(AgentId),
    Entry(LogEntry),
}

/// The log line that a text line is, in logs of the version. Its words are separated by one space
/// each.
#[tactic(auto, unfolding(crate::specs::LogLine::log_line_of))]
pub(crate) fn read_log_line(
    alloc: Global,
    version: LogVersion,
    bytes: &[u8],
) -> Result<LogLine, LogError>
    ensures says { IsReadAs LogError.OutOfMemory (λ x. x) result (log_line_of version bytes.now) }
    ensures within { IfOk result (λ l. IsLogLineWithin version l) }
    ensures memory { IfErr result (λ e. e ≡ LogError.OutOfMemory
        → log_reads_memory bytes.now ≡ true) }
{
    let Ok(text) = str::from_utf8(bytes) else {
        return Err(LogError::BadLine);
    };
    log_line_in(alloc, version, text)
}

#[tactic(auto, unfolding(crate::specs::LogLine::log_line_in))]
fn log_line_in(alloc: Global, version: LogVersion, text: &str) -> Result<LogLine, LogError>
    ensures says { IsReadAs LogError.OutOfMemory (λ x. x) result (log_line_in version text.now) }
    ensures within { IfOk result (λ l. IsLogLineWithin version l) }
    ensures memory { IfErr result (λ e. e ≡ LogError.OutOfMemory
        → log_reads_memory text.now ≡ true) }
{
    let (name, rest) = word_and_rest(text)?;
    parse_log_line_by_name(alloc, version, name, rest)
}

/// The log line that begins with the name. `rest` is what comes after the name and its space.
#[tactic(auto, unfolding(crate::specs::LogLine::log_line_with))]
fn parse_log_line_by_name(
    alloc: Global,
    version: LogVersion,
    name: &str,
    rest: &str,
) -> Result<LogLine, LogError>
    ensures says { IsReadAs LogError.OutOfMemory (λ x. x) result
        (log_line_with version name.now rest.now) }
    ensures within { IfOk result (λ l. IsLogLineWithin version l) }
    ensures memory { IfErr result (λ e. e ≡ LogError.OutOfMemory
        → (is_delivery name.now && delivers_message rest.now) ≡ true) }
{
    Ok(match name {
        "agent" => LogLine::Agent(agent_in(rest)?),
        "put" => LogLine::Entry(LogEntry::Put(delivery_in(alloc, version, rest)?)),
        "got" => LogLine::Entry(LogEntry::Got(delivery_in(alloc, version, rest)?)),
        "adopted" => {
            let (end, epoch) = adoption_in(rest)?;
            LogLine::Entry(LogEntry::Adopted { end, epoch })
        }
        "closed" => LogLine::Entry(LogEntry::Closed { end: end_in(rest)? }),
        _ => return Err(LogError::BadLine),
    })
}

/// `E EP`.
#[tactic(auto, unfolding(crate::specs::LogLine::adoption_in))]
fn adoption_in(text: &str) -> Result<(EndId, u32), LogError>
    ensures says { IsReadAs LogError.OutOfMemory (λ x. x) result (adoption_in text.now) }
    ensures end { IfOk result (λ adoption. adoption.0.0 ≤ MAX_END) }
    ensures epoch { IfOk result (λ adoption. adoption.1 ≤ MAX_EPOCH) }
    ensures memory { IfErr result (λ e. e ≢ LogError.OutOfMemory) }
{
    let (end, epoch) = word_and_rest(text)?;
    let end = end_in(end)?;
    let epoch = epoch_in(epoch)?;
    Ok((end, epoch))
}

/// `E L EP:N` and a content, which is the rest of the log line.
#[tactic(auto, unfolding(crate::specs::LogLine::delivery_in))]
fn delivery_in(alloc: Global, version: LogVersion, text: &str) -> Result<Delivery, LogError>
    ensures says { IsReadAs LogError.OutOfMemory (λ x. x) result (delivery_in version text.now) }
    ensures within { IfOk result (λ d. IsDeliveryWithin version d) }
    ensures memory { IfErr result (λ e. e ≡ LogError.OutOfMemory
        → delivers_message text.now ≡ true) }
{
    let (end, rest) = word_and_rest(text)?;
    let (line, rest) = word_and_rest(rest)?;
    let (name, rest) = word_and_rest(rest)?;
    let posted = posted_in(version, end, line, name)?;
    let content = content_in(alloc, version, rest)?;
    Ok(Delivery { posted, content })
}

/// The numbers of an end and a line, and `EP:N`.
#[tactic(auto, unfolding(crate::specs::LogLine::posted_in))]
fn posted_in(version: LogVersion, end: &str, line: &str, name: &str) -> Result<Posted, LogError>
    ensures says { IsReadAs LogError.OutOfMemory (λ x. x) result
        (posted_in version end.now line.now name.now) }
    ensures within { IfOk result (λ l. IsPostedWithin version l) }
    ensures memory { IfErr result (λ e. e ≢ LogError.OutOfMemory) }
{
    let (epoch, number) = split_epoch_and_number(name)?;
    Ok(Posted {
        end: end_in(end)?,
        line: line_id_in(version, line)?,
        epoch: epoch_in(epoch)?,
        number: number_in(number, MAX_NUMBER)?,
    })
}

/// `LIST BODY`, or `notice` where the version has notices.
#[tactic(auto, unfolding(crate::specs::LogLine::content_in))]
fn content_in(alloc: Global, version: LogVersion, text: &str) -> Result<Content, LogError>
    ensures says { IsReadAs LogError.OutOfMemory (λ x. x) result (content_in version text.now) }
    ensures within { IfOk result (λ c. IsContentWithin version c) }
    ensures memory { IfErr result (λ e. e ≡ LogError.OutOfMemory
        → has_message text.now ≡ true) }
{
    match split_word(text) {
        Some((list, body)) => {
            let message = payload_in(alloc, version, list, body)?;
            Ok(Content::Payload(message))
        }
        None if version.has_notices() && text == "notice" => Ok(Content::Notice),
        None => Err(LogError::BadLine),
    }
}

#[tactic(auto, unfolding(crate::specs::LogLine::payload_in))]
fn payload_in(
    alloc: Global,
    version: LogVersion,
    list: &str,
    body: &str,
) -> Result<Payload, LogError>
    ensures says { IsReadAs LogError.OutOfMemory (λ x. x) result
        (payload_in version list.now body.now) }
    ensures within { IfOk result (λ m. IsMessageWithin version m) }
{
    let ports = ports_in(alloc, list)?;
    let body = body_in(alloc, version, body)?;
    Ok(Payload::of_parts(ports.into_list(), body))
}

/// The text up to the first space, and what comes after that.
fn word_and_rest(text: &str) -> Result<(&str, &str), LogError>
    ensures says { IsReadAs LogError.OutOfMemory (λ x. (x.0.now, x.1.now)) result
        (parts_in 32 text.now) }
    ensures parts { IfOk result (λ x. cut 32 text.now ≡ Some (x.0.now, x.1.now)) }
    ensures memory { IfErr result (λ e. e ≢ LogError.OutOfMemory) }
{
    match split_word(text) {
        Some(parts) => Ok(parts),
        None => Err(LogError::BadLine),
    }
}

/// The parts of `EP:N`.
fn split_epoch_and_number(name: &str) -> Result<(&str, &str), LogError>
    ensures says { IsReadAs LogError.OutOfMemory (λ x. (x.0.now, x.1.now)) result
        (parts_in 58 name.now) }
    ensures memory { IfErr result (λ e. e ≢ LogError.OutOfMemory) }
{
    match split_once_at_byte(name, b':') {
        Some(parts) => Ok(parts),
        None => Err(LogError::BadLine),
    }
}

fn number_in(word: &str, max: u64) -> Result<u64, LogError>
    ensures says { IsReadAs LogError.OutOfMemory (λ x. x) result (number_in_logs max word.now) }
    ensures within { IfOk result (λ n. n ≤ max) }
    ensures memory { IfErr result (λ e. e ≢ LogError.OutOfMemory) }
{
    match number_of(word, max) {
        Some(number) => Ok(number),
        None => Err(LogError::BadLine),
    }
}

fn agent_in(word: &str) -> Result<AgentId, LogError>
    ensures says { IsReadAs LogError.OutOfMemory (λ x. x) result (agent_in word.now) }
    ensures within { IfOk result (λ a. a.0 ≤ MAX_AGENT) }
    ensures memory { IfErr result (λ e. e ≢ LogError.OutOfMemory) }
{
    Ok(AgentId(number_in(word, MAX_AGENT)? as u8))
}

fn end_in(word: &str) -> Result<EndId, LogError>
    ensures says { IsReadAs LogError.OutOfMemory (λ x. x) result (end_in word.now) }
    ensures within { IfOk result (λ e. e.0 ≤ MAX_END) }
    ensures memory { IfErr result (λ e. e ≢ LogError.OutOfMemory) }
{
    Ok(EndId(number_in(word, MAX_END)? as u32))
}

fn line_id_in(version: LogVersion, word: &str) -> Result<LineId, LogError>
    ensures says { IsReadAs LogError.OutOfMemory (λ x. x) result (line_id_in version word.now) }
    ensures within { IfOk result (λ l. l.0 ≤ max_line version) }
    ensures memory { IfErr result (λ e. e ≢ LogError.OutOfMemory) }
{
    Ok(LineId(number_in(word, version.max_line_number())? as u8))
}

fn epoch_in(word: &str) -> Result<u32, LogError>
    ensures says { IsReadAs LogError.OutOfMemory (λ x. x) result (epoch_in word.now) }
    ensures within { IfOk result (λ n. n ≤ MAX_EPOCH) }
    ensures memory { IfErr result (λ e. e ≢ LogError.OutOfMemory) }
{
    Ok(number_in(word, MAX_EPOCH)? as u32)
}

/// `-`, or at most `MAX_PORTS` different ends joined by single commas.
#[tactic(auto, unfolding(crate::specs::LogLine::ports_in_logs))]
fn ports_in(alloc: Global, list: &str) -> Result<Items<EndId>, LogError>
    ensures says { IsReadAs LogError.OutOfMemory (λ x. x) result (ports_in_logs list.now) }
    ensures within { IfOk result (λ ports. IsPortList ports) }
{
    match read_ends(alloc, list, MAX_END as u32)? {
        Some(ports) if is_port_list(ports.as_slice()) => Ok(ports),
        _ => Err(LogError::BadLine),
    }
}

/// A body. A space at its front would be a second one behind the list.
#[tactic(auto, unfolding(crate::specs::LogLine::body_in))]
fn body_in(alloc: Global, version: LogVersion, text: &str) -> Result<Body, LogError>
    ensures says { IsReadAs LogError.OutOfMemory (λ x. x) result (body_in version text.now) }
    ensures within { IfOk result (λ b. IsBodyText b) }
    ensures short { IfOk result (λ b. length b ≤ max_body version) }
{
    if text.starts_with(' ') {
        return Err(LogError::BadLine);
    }
    match Body::read(alloc, text) {
        Ok(body) if body.text().len() <= version.max_body_bytes() => Ok(body),
        Ok(_) => Err(LogError::BadLine),
        Err(BodyError::OutOfMemory) => Err(LogError::OutOfMemory),
        Err(_) => Err(LogError::BadLine),
    }
}
