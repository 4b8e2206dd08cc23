//! Logs as their writer meets them. What the checker says of logs is shown by the rows of
//! tests/rows/check.
use crate::refused_logs::{Refused, deliveries_text, text_of};
use hub_envelope::{AgentId, Body, EndId, LineId};
use hub_trace::{
    Content, Log, Payload, Posted, is_envelope_name_within_limits, is_port_list, read_logs,
};
use std::alloc::Global;
use std::test::Fail;

/// The greatest name of an envelope.
const POSTED: Posted = Posted {
    end: EndId(65_535),
    line: LineId(31),
    epoch: 65_535,
    number: (1 << 62) - 1,
};

fn body(alloc: Global) -> Result<Body, Refused> {
    Ok(Body::read(alloc, "{\"b\": [1, null],\t\"a\": \"\u{e9}\\n\"}")?)
}

/// A log that puts a message with ports and a notice, and closes an end.
fn first(alloc: Global) -> Result<Log, Refused> {
    let ports = [EndId(7), EndId(0), EndId(12)];
    if !is_envelope_name_within_limits(&POSTED) || !is_port_list(&ports) {
        return Err(Refused::Wrong);
    }
    let mut log = Log::new(alloc, AgentId(3));
    let payload = Payload::copy_of_parts(alloc, &ports, &body(alloc)?)?;
    log.record_put(POSTED, Content::Payload(payload))?;
    log.record_put(POSTED, Content::Notice)?;
    log.record_end_closed(EndId(2))?;
    Ok(log)
}

/// A log that adopts an end, and gets a message and a notice.
fn second(alloc: Global) -> Result<Log, Refused> {
    if !is_envelope_name_within_limits(&POSTED) || !is_port_list(&[]) {
        return Err(Refused::Wrong);
    }
    let mut log = Log::new(alloc, AgentId(15));
    log.record_adopted(EndId(9), 1)?;
    let payload = Payload::copy_of_parts(alloc, &[], &body(alloc)?)?;
    log.record_got(POSTED, Content::Payload(payload))?;
    log.record_got(POSTED, Content::Notice)?;
    Ok(log)
}

const SOME_TEXT: &str = "hublog 3\nagent 3\n\
    put 65535 31 65535:4611686018427387903 7,0,12 {\"a\":\"\u{e9}\\n\",\"b\":[1,null]}\n\
    put 65535 31 65535:4611686018427387903 notice\n\
    closed 2\nagent 15\nadopted 9 1\n\
    got 65535 31 65535:4611686018427387903 - {\"a\":\"\u{e9}\\n\",\"b\":[1,null]}\n\
    got 65535 31 65535:4611686018427387903 notice\n";

#[test]
fn reads_back_what_it_wrote(rt: HostRuntime) -> Result<(), Refused> {
    let alloc = rt.alloc();
    let written = text_of(alloc, &[first(alloc)?, second(alloc)?])?;
    assert_eq!(rt; written.as_str(), SOME_TEXT);
    let logs = read_logs(alloc, written.as_bytes())?;
    let Some(last) = logs.last() else {
        return Err(Refused::Wrong);
    };
    assert_eq!(rt; (logs.len(), last.agent_id()), (2, AgentId(15)));
    assert_eq!(rt; text_of(alloc, &logs)?.as_str(), SOME_TEXT);
    Ok(())
}

/// Logs, and what was got of each line, which only `run` prints.
const DELIVERED: &[(&str, &str)] = &[
    ("", ""),
    // A line of which nothing was got stands nowhere.
    (
        "hublog 3\nagent 0\nput 1 0 0:0 - 1\nadopted 2 1\nclosed 2\n",
        "",
    ),
    // Agent 0 adopted end 10 after what agent 1 got there, and goes on with its older queue.
    (
        "hublog 3\nagent 0\nadopted 10 1\ngot 10 12 0:2 - 7\ngot 10 12 1:0 - 7\n\
        got 2 1 0:0 - 8\ngot 10 3 1:0 notice\n\
        agent 1\ngot 10 12 0:0 - 5\ngot 10 3 0:0 - 6\ngot 10 12 0:1 - 5\n\
        got 2 0 0:3 - 1\n",
        "end 2 line 0 0:3\nend 2 line 1 0:0\nend 10 line 3 0:0 1:0\n\
        end 10 line 12 0:0 0:1 0:2 1:0\n",
    ),
    // What was got twice stands twice, and what came after a closing stands too.
    (
        "hublog 3\nagent 0\ngot 1 0 0:0 - 1\nclosed 1\ngot 1 0 0:0 - 1\n",
        "end 1 line 0 0:0 0:0\n",
    ),
];

#[test]
fn tells_the_deliveries_of_each_line(rt: HostRuntime) -> Result<(), Fail> {
    for (text, wanted) in DELIVERED {
        let logs = read_logs(rt.alloc(), text.as_bytes())
            .ok()
            .ok_or("the logs")?;
        let told = deliveries_text(rt.alloc(), &logs).ok().ok_or("memory")?;
        assert_eq!(rt; told.as_str(), *wanted);
    }
    Ok(())
}
