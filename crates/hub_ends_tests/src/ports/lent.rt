//! A flight and a yard of one's own, and the same behind a lock: posts, arrivals and adoptions
//! answer alike over both. What is told is kept in a list.
use crate::ports::{entangled, room};
use hub_depot::{Depot, KeptMap};
use hub_envelope::{AgentId, EndId, Envelope, Ports};
use hub_locked::Lends;
use hub_ports::{
    ClosingStep, Closings, Hub, Noticed, Parcel, Port, Spent, close_and_sweep_all_flight_ports,
    close_port_telling_each_step, send_with_ports, take_ports_from_flight,
};
use hub_queue::{Ends, Head, Mailbox, Onward, Point, Poster, Swept, Taker, Took};
use hub_test_parts::{bell, body, draft, take};
use std::alloc::Global;
use std::sync::Wait;

/// A mailbox with one line.
fn mailbox(alloc: Global, end: u32) -> Option<(Taker, Poster)> {
    let (mut taker, mut posters) = Mailbox::open(alloc, EndId(end), 1, bell(alloc)?).ok()?;
    taker.start();
    Some((taker, posters.pop()?))
}

fn taken<R: Wait>(rt: &R, taker: &mut Taker) -> Option<Envelope> {
    match take(rt, taker) {
        Took::Got(envelope) => Some(envelope),
        _ => None,
    }
}

/// How many of the ports that the envelope names are found in flight, and how many are missing.
fn arrived<L: Lends<KeptMap<Port>>, R: Wait>(
    rt: &R,
    alloc: Global,
    flight: &mut L,
    envelope: &Envelope,
) -> Option<(usize, usize)> {
    let arrival = take_ports_from_flight(rt, flight, alloc, envelope.ports.as_slice()).ok()?;
    let counts = (arrival.found.len(), arrival.missing.len());
    drop(arrival);
    Some(counts)
}

/// A port is sent over a line, and found in flight once.
fn flies<L: Lends<KeptMap<Port>>, R: Wait>(
    rt: &R,
    alloc: Global,
    hub: &Hub,
    flight: &mut L,
) -> Option<bool> {
    let (mut taker, mut line) = mailbox(alloc, 9)?;
    let (near, far) = entangled(alloc, &mut Ends::new())?;
    let mut sent = room(alloc, 1)?;
    sent.push(far).ok()?;
    let mut parcel = Parcel::new(alloc, body(alloc, "1")?, sent);
    let mut closings = Closings::none();
    let agent = AgentId(0);
    let posted = send_with_ports(
        rt,
        hub,
        flight,
        &mut line,
        agent,
        &mut parcel,
        &mut closings,
    );
    let is_posted = posted.is_ok() && parcel.body.is_none() && parcel.ports.is_empty();
    drop(parcel);
    let envelope = taken(rt, &mut taker)?;
    let first = arrived(rt, alloc, flight, &envelope)?;
    let again = arrived(rt, alloc, flight, &envelope)?;
    drop(envelope);
    drop(near);
    drop(taker);
    drop(line);
    Some(is_posted && first == (1, 0) && again == (0, 1))
}

#[test]
fn a_port_in_flight_is_found_once(rt: HostRuntime) {
    let hub = Hub::new(rt.alloc());
    let mut own = KeptMap::<Port>::empty(rt.alloc());
    let is_right = flies(&rt, rt.alloc(), &hub, &mut own) == Some(true);
    let is_alike = flies(&rt, rt.alloc(), &hub, &mut hub.flight.as_lock()) == Some(true);
    drop(own);
    drop(hub);
    assert!(rt; is_right && is_alike);
}

type Emptied = (Swept, Option<(Spent, Noticed)>);

/// A port in flight is closed with its notice, and one in hand too, in order.
fn closes<R: Wait>(rt: &R, alloc: Global, flight: &mut KeptMap<Port>) -> Option<bool> {
    let yard = Depot::<Onward>::new(alloc);
    let mut ends = Ends::new();
    let (near, far) = entangled(alloc, &mut ends)?;
    flight.put(far).ok()?;
    let mut emptied = Vec::<Emptied>::new(alloc);
    let is_closed = close_and_sweep_all_flight_ports(
        rt,
        alloc,
        &yard,
        None,
        flight,
        &mut emptied,
    ).is_ok();
    let is_told = matches!(emptied.as_slice(), [(swept, Some((_, Noticed::Put(_))))]
        if swept.closed_end_id() == EndId(1));
    let mut steps = Vec::<ClosingStep>::new(alloc);
    let closed = close_port_telling_each_step(rt, alloc, &yard, near, &mut steps);
    let is_in_order = matches!(
        steps.as_slice(),
        [
            ClosingStep::Notice(Noticed::PeerClosed),
            ClosingStep::Close(EndId(0))
        ]
    );
    drop(closed);
    drop(emptied);
    drop(yard);
    Some(is_closed && is_told && is_in_order)
}

#[test]
fn each_step_of_a_closing_is_told(rt: HostRuntime) {
    let mut flight = KeptMap::<Port>::empty(rt.alloc());
    let is_right = closes(&rt, rt.alloc(), &mut flight) == Some(true);
    drop(flight);
    assert!(rt; is_right);
}

/// A line whose end has moved goes on over the yard, and the points of its post are told.
fn hops<L: Lends<KeptMap<Onward>>, R: Wait>(rt: &R, alloc: Global, yard: &mut L) -> Option<bool> {
    let (taker, mut poster) = mailbox(alloc, 0)?;
    let mut told = Vec::<Point>::new(alloc);
    let head = Head {
        agent: AgentId(0),
        notice: false,
    };
    let (mut said, mut ports) = (Some(body(alloc, "1")?), Some(Ports::none(alloc)));
    let first = poster.post_with_lent_yard(rt, yard, head, &mut said, &mut ports, &mut told);
    let is_gone = said.is_none() && ports.is_none();
    let is_first = matches!(first, Ok(posted) if posted.epoch == 0);
    let moved = taker.adopt_with_lent_yard(rt, yard, bell(alloc)?).ok()?;
    let (mut said, mut ports) = (Some(body(alloc, "2")?), Some(Ports::none(alloc)));
    let second = poster.post_with_lent_yard(rt, yard, head, &mut said, &mut ports, &mut told);
    let is_second = matches!(second, Ok(posted) if posted.epoch == 1);
    let are_told = matches!(
        told.as_slice(),
        [
            Point::Before,
            Point::Inside,
            Point::Pushed,
            Point::Before,
            Point::Hopping,
            Point::Before,
            Point::Inside,
            Point::Pushed
        ]
    );
    drop(first);
    drop(second);
    drop(moved);
    drop(poster);
    Some(is_first && is_gone && is_second && are_told)
}

#[test]
fn a_line_goes_on_over_a_yard_that_is_lent(rt: HostRuntime) {
    let mut own = KeptMap::<Onward>::empty(rt.alloc());
    let shared = Depot::<Onward>::new(rt.alloc());
    let is_right = hops(&rt, rt.alloc(), &mut own) == Some(true);
    let is_alike = hops(&rt, rt.alloc(), &mut shared.as_lock()) == Some(true);
    drop(own);
    drop(shared);
    assert!(rt; is_right && is_alike);
}
