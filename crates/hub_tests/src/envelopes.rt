// Port lists, drafts and envelopes: each call and clones once.
use hub_envelope::{AgentId, Body, Draft, EndId, Envelope, LineId, Ports};
use std::alloc::{AllocError, Global};
use std::process::Abort;
use std::test::Fail;

/// These many numbers of ends, from 0.
fn ends(alloc: Global, count: u32) -> Result<Vec<EndId>, AllocError> {
    let mut ends = Vec::new(alloc);
    for number in 0..count {
        ends.push(EndId(number))?;
    }
    Ok(ends)
}

fn ports(rt: &(impl Abort + AllocGlobal), count: u32) -> Ports {
    let ends = ends(rt.alloc(), count).expect(rt, "memory");
    Ports::try_from_vec(ends).expect(rt, "few ports")
}

#[test]
fn lists_at_most_sixteen_ports(rt: HostRuntime) {
    assert!(rt; Ports::none(rt.alloc()).as_slice().is_empty());
    let most = ports(&rt, 16);
    assert_eq!(rt; most.as_slice().len(), 16);
    assert_eq!(rt; most.as_slice().last(), Some(&EndId(15)));
    assert_eq!(rt; most.into_list().len(), 16);
}

#[test]
fn gives_a_longer_list_back(rt: HostRuntime) {
    let longer = ends(rt.alloc(), 17).expect(&rt, "memory");
    let refused = Ports::try_from_vec(longer).err().expect(&rt, "the list");
    assert_eq!(rt; refused.len(), 17);
}

/// A draft with this body and two ports.
fn draft_of(rt: &(impl Abort + AllocGlobal), text: &str) -> Draft {
    Draft {
        agent: AgentId(1),
        body: Body::read(rt.alloc(), text).expect(rt, "a body"),
        ports: ports(rt, 2),
        notice: false,
    }
}

/// The envelope of that draft, the eighth of its line.
fn envelope_of(draft: Draft) -> Envelope {
    let Draft {
        agent,
        body,
        ports,
        notice,
    } = draft;
    Envelope {
        end: EndId(3),
        epoch: 0,
        line: LineId(0),
        number: 7,
        agent,
        body,
        ports,
        notice,
    }
}

#[test]
fn clones_are_equal(rt: HostRuntime) {
    let draft = draft_of(&rt, "{\"a\":[1,2]}");
    assert!(rt; draft.clone().expect(&rt, "memory") == draft);
    assert!(rt; draft.ports.clone().expect(&rt, "memory") == draft.ports);
    let envelope = envelope_of(draft);
    assert!(rt; envelope.clone().expect(&rt, "memory") == envelope);
}

#[test]
fn makes_notices(rt: HostRuntime) -> Result<(), Fail> {
    let notice = Draft::new_closing_notice(rt.alloc())?;
    assert!(rt; notice.notice);
    assert_eq!(rt; notice.agent, AgentId(0));
    assert_eq!(rt; notice.body.text(), "null");
    assert!(rt; notice.ports.as_slice().is_empty());
    Ok(())
}
