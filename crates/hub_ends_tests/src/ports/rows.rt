//! What step files can't show of ports: what a closing tells, and the end of a hub, also where an
//! allocation is refused. Each call is made again then, once it was seen that what came back is
//! whole.
use crate::ports::{Answer, PortTable};
use hub_envelope::{EndId, LineId};
use hub_ports::Noticed;
use hub_queue::Posted;
use std::alloc::Global;
use std::sync::Wait;

/// The notice of a port that was closed: the first envelope at this end.
fn put_at(end: u32) -> Noticed {
    Noticed::Put(Posted {
        end: EndId(end),
        epoch: 0,
        line: LineId(0),
        number: 0,
    })
}

/// Whether a post whose list holds its target closes it, and the notice is told and comes.
fn dooms<R: Wait>(rt: &R, alloc: Global) -> bool {
    let mut table = PortTable::new(alloc);
    let is_doomed = table.channel()
        && table.post(rt, 0, &[1], "\"x\"") == Some(Answer::Doomed(1, put_at(0)));
    let is_closed = table.post(rt, 0, &[], "1") == Some(Answer::Closed)
        && table.start(0)
        && table.gets_notice(rt, 0);
    drop(table);
    is_doomed && is_closed
}

#[test]
fn doomed(rt: HostRuntime) {
    assert!(rt; dooms(&rt, rt.alloc()));
}

/// Whether a port that is in flight at the end of the hub is closed, with its notice.
fn ends_with_a_port<R: Wait>(rt: &R, alloc: Global) -> bool {
    let mut table = PortTable::new(alloc);
    let is_sent = table.channel()
        && table.channel()
        && table.post(rt, 0, &[2], "1") == Some(Answer::Accepted(0, 0));
    let is_closed = table.end(rt)
        && table.post(rt, 3, &[], "1") == Some(Answer::Closed)
        && table.start(3)
        && table.gets_notice(rt, 3);
    drop(table);
    is_sent && is_closed
}

#[test]
fn a_port_that_is_never_taken(rt: HostRuntime) {
    assert!(rt; ends_with_a_port(&rt, rt.alloc()));
}

/// Whether the closing of a port tells its notice, and that of its peer that nobody is told.
fn tells<R: Wait>(rt: &R, alloc: Global) -> bool {
    let mut table = PortTable::new(alloc);
    let is_made = table.channel();
    let is_told = table.close(rt, 0) == Some(put_at(1));
    let is_alone = table.close(rt, 1) == Some(Noticed::PeerClosed);
    drop(table);
    is_made && is_told && is_alone
}

#[test]
fn a_closing_tells_its_notice(rt: HostRuntime) {
    assert!(rt; tells(&rt, rt.alloc()));
}

/// Whether a port that is closed puts its notice, or else nothing, and its peer finds it closed.
fn closes<R: Wait>(rt: &R, alloc: Global) -> bool {
    let mut table = PortTable::new(alloc);
    let is_made = table.channel();
    let has_come = match table.close(rt, 0) {
        Some(Noticed::Put(_)) => table.start(1) && table.gets_notice(rt, 1),
        Some(Noticed::OutOfMemory) => table.start(1),
        _ => false,
    };
    let is_closed = table.finds_none(rt, 1) && table.post(rt, 1, &[], "0") == Some(Answer::Closed);
    drop(table);
    is_made && has_come && is_closed
}

#[test]
fn a_port_is_closed_whichever_allocation_is_refused(rt: HostRuntime) {
    assert!(rt; closes(&rt, rt.alloc()));
}

/// Whether the ports in flight are closed by the end of the hub: port 4 waits in a message at port
/// 2, which is in flight itself.
fn ends<R: Wait>(rt: &R, alloc: Global) -> bool {
    let mut table = PortTable::new(alloc);
    let are_made = table.channel() && table.channel() && table.channel();
    let are_sent = table.post(rt, 3, &[4], "[1]") == Some(Answer::Accepted(0, 0))
        && table.post(rt, 0, &[2], "[1]") == Some(Answer::Accepted(0, 0));
    let are_closed = table.end(rt)
        && table.post(rt, 3, &[], "[1]") == Some(Answer::Closed)
        && table.post(rt, 5, &[], "[1]") == Some(Answer::Closed);
    drop(table);
    are_made && are_sent && are_closed
}

#[test]
fn a_hub_ends_whichever_allocation_is_refused(rt: HostRuntime) {
    assert!(rt; ends(&rt, rt.alloc()));
}
