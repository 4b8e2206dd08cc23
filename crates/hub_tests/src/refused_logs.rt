// Logs that are appended to, written, read, checked and listed by their deliveries while one
// allocation is refused.
use hub_envelope::{AgentId, Body, BodyError, EndId, LineId};
use hub_trace::{
    Content, LOG_HEADER, Log, LogError, Payload, Posted, check, deliveries_by_sender_line,
    is_envelope_name_within_limits, is_port_list, read_logs,
};
use std::alloc::{AllocError, AllocFailed, Global};
use std::fmt;

/// Why a call gave no answer.
#[derive(Debug, Drop)]
pub(crate) enum Refused {
    Memory,
    /// Another error, or a wrong answer.
    Wrong,
}

impl From<AllocError> for Refused {
    fn from(_error: AllocError) -> Refused {
        Refused::Memory
    }
}

impl<T: Drop> From<AllocFailed<T>> for Refused {
    fn from(_error: AllocFailed<T>) -> Refused {
        Refused::Memory
    }
}

impl From<BodyError> for Refused {
    fn from(error: BodyError) -> Refused {
        match error {
            BodyError::OutOfMemory => Refused::Memory,
            _ => Refused::Wrong,
        }
    }
}

/// A `String` takes each piece unless memory runs out.
impl From<fmt::Error> for Refused {
    fn from(_error: fmt::Error) -> Refused {
        Refused::Memory
    }
}

impl From<(usize, LogError)> for Refused {
    fn from((_line, error): (usize, LogError)) -> Refused {
        match error {
            LogError::OutOfMemory => Refused::Memory,
            _ => Refused::Wrong,
        }
    }
}

/// The answer of the call, which is made again where memory was refused to it.
fn once_more<T: Drop, F: Fn() -> Result<T, Refused>>(call: F) -> Result<T, Refused>
    requires { F.IsAlwaysCallable call }
{
    match call() {
        Err(Refused::Memory) => call(),
        answer => answer,
    }
}

/// Appends an entry of one of the six kinds.
fn append(alloc: Global, log: &mut Log, step: u32) -> Result<(), Refused> {
    let posted = Posted {
        end: EndId(4),
        line: LineId(31),
        epoch: 0,
        number: u64::from(step / 6),
    };
    let noticed = Posted {
        end: EndId(6),
        ..posted
    };
    let ports = [EndId(7), EndId(0)];
    let closed = EndId(100 + step % 100);
    if !is_envelope_name_within_limits(&posted)
        || !is_port_list(&ports)
        || log.has_closed_end(closed)
    {
        return Err(Refused::Wrong);
    }
    let body = Body::read(alloc, "[1,{\"a\":null,\"b\":[]}]")?;
    match step % 6 {
        0 => log.record_put(
            posted,
            Content::Payload(Payload::copy_of_parts(alloc, &ports, &body)?),
        )?,
        1 => log.record_got(
            posted,
            Content::Payload(Payload::copy_of_parts(alloc, &ports, &body)?),
        )?,
        2 => log.record_adopted(EndId(5), 1)?,
        3 => log.record_put(noticed, Content::Notice)?,
        4 => log.record_got(noticed, Content::Notice)?,
        _ => log.record_end_closed(closed)?,
    }
    Ok(())
}

/// A log of that many entries. A refused append leaves the log as it was.
fn logged(alloc: Global, steps: u32) -> Result<Log, Refused> {
    let mut log = Log::new(alloc, AgentId(3));
    for step in 0..steps {
        let before = once_more(|| Ok(log.to_string(alloc)?))?;
        if let Err(refused) = append(alloc, &mut log, step) {
            let after = once_more(|| Ok(log.to_string(alloc)?))?;
            if !matches!(&refused, Refused::Memory) || after != before {
                return Err(Refused::Wrong);
            }
            append(alloc, &mut log, step)?;
        }
    }
    Ok(log)
}

pub(crate) fn text_of(alloc: Global, logs: &[Log]) -> Result<String, Refused> {
    let mut text = format!(in alloc; "{LOG_HEADER}\n")?;
    for log in logs {
        write!(text, "{log}")?;
    }
    Ok(text)
}

/// What was got of each line by the logs of the test.
const DELIVERIES: &str = "end 4 line 31 0:0 0:1 0:2 0:3\nend 6 line 31 0:0 0:1 0:2 0:3\n";

/// What was got of each line, a text line for each.
pub(crate) fn deliveries_text(alloc: Global, logs: &[Log]) -> Result<String, Refused> {
    let mut text = String::new(alloc);
    for line in &deliveries_by_sender_line(alloc, logs)? {
        writeln!(text, "{line}")?;
    }
    Ok(text)
}

/// Each call that meets a refusal answers want of memory, and made again it gives the right answer.
#[test]
fn logs_are_right_whichever_allocation_is_refused(rt: HostRuntime) -> Result<(), Refused> {
    let alloc = rt.alloc();
    let log = logged(alloc, 24)?;
    let text = once_more(|| {
        Ok(format!(in alloc; "{LOG_HEADER}\n{log}agent 15\nadopted 4 1\n")?)
    })?;
    let logs = once_more(|| Ok(read_logs(alloc, text.as_bytes())?))?;
    let again = once_more(|| text_of(alloc, &logs))?;
    let verdict = once_more(|| Ok(check(alloc, &logs)?))?;
    let words = once_more(|| Ok(verdict.to_string(alloc)?))?;
    let told = once_more(|| deliveries_text(alloc, &logs))?;
    if text != again
        || words.as_str() != "fault 6 31 1 AfterNotice"
        || told.as_str() != DELIVERIES
    {
        return Err(Refused::Wrong);
    }
    Ok(())
}
