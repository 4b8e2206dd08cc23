//! How a body is posted with the ports that are sent along.
ghost use Rattle.std.specs.Prelude.{◌≡◌, ◌↔◌, ◌<◌, ◌≤◌, [], List, Contains, length, IfOk};
ghost use Rattle.std.specs.Prelude.{IfSome, IsErrOf, IsSome, Err};
ghost use Rattle.std.specs.List.{list_any};
ghost use Rattle.hub_envelope.specs.declared.limits.TheConstants.{MAX_PORTS};
ghost use Rattle.hub_ports.specs.Flying.{IsFlown};
ghost use Rattle.hub_ports.specs.Refusing.{LeavesIn, answer_with, carried_body, error_with};
ghost use Rattle.hub_ports.specs.Seats.{ends_of, is_numbered};
ghost use Rattle.hub_ports.specs.Sending.{IsSent, IsDoomed, IsTooMany};
ghost use Rattle.hub_ports.specs.declared.closing.ClosedPort.{ClosedPort};

use crate::closing::{Closings, close_listed_ports};
use crate::error::{PortError, SendRefusal};
use crate::flight::{put_ports_in_flight, take_ports_back_from_flight};
use crate::hub::Hub;
use crate::parcel::Parcel;
use crate::port::Port;
use hub_depot::KeptMap;
use hub_envelope::{AgentId, Body, EndId, MAX_PORTS, OutOfMemory, Ports};
use hub_locked::Lends;
use hub_queue::{Head, Posted, Poster};
use std::alloc::Global;
use std::mem::replace;
use std::sync::Wait;

/// Whether a port of the list has this number.
fn contains_port_of_id(ports: &[Port], end: EndId) -> bool
    ensures { result ≡ list_any (is_numbered end) ports.now }
{
    ports.iter().any(|port| port.id() == end)
}

/// The numbers of the ports, in order.
fn numbers_of(alloc: Global, ports: &[Port]) -> Result<Vec<EndId>, OutOfMemory>
    ensures { IfOk result (λ numbers. numbers.items ≡ ends_of ports.now) }
{
    let mut numbers = Vec::with_capacity(alloc, ports.len())?;
    for port in ports {
        numbers.push_reserved(port.id());
    }
    Ok(numbers)
}

/// The refusal that is told, once the ports were called back.
fn refusal_unless_ports_missing(refusal: SendRefusal, missing: &[EndId]) -> SendRefusal
    ensures whole { missing.now ≡ [] → result ≡ refusal }
    ensures strayed { 0 < length missing.now → result ≡ SendRefusal.Strayed }
{
    if missing.is_empty() {
        refusal
    } else {
        SendRefusal::Strayed
    }
}

/// Posts a parcel without ports.
#[inline(always)]
fn send_without_ports<R: Wait>(
    line: &mut Poster,
    rt: &R,
    hub: &Hub,
    agent: AgentId,
    parcel: &mut Parcel,
) -> Result<Posted, SendRefusal>
    requires body { IsSome parcel.old.body }
    requires none { parcel.old.ports.items ≡ [] }
    ensures sent { (closings : List ClosedPort) → IsSent line.old line.new agent
        (carried_body parcel.old) [] (answer_with result parcel.new closings) }
    ensures left { LeavesIn result parcel.old parcel.new }
    ensures ports { parcel.new.ports ≡ parcel.old.ports }
    ensures many { IsErrOf result SendRefusal.TooManyPorts → ⊥ }
    ensures doomed { IsErrOf result SendRefusal.Doomed → ⊥ }
{
    let head = Head {
        agent,
        notice: false,
    };
    let mut none = Some(Ports::none(hub.alloc));
    match line.post_lent_body_and_ports(rt, &hub.yard, head, &mut parcel.body, &mut none) {
        Ok(posted) => Ok(posted),
        Err(error) => Err(SendRefusal::from_post_error(error)),
    }
}

/// Posts a parcel with at most so many ports as an envelope may have, over a flight that anybody
/// lends. What giving them back wants is reserved before the first is in flight.
fn put_in_flight_and_post<L: Lends<KeptMap<Port>>, R: Wait>(
    rt: &R,
    hub: &Hub,
    flight: &mut L,
    line: &mut Poster,
    agent: AgentId,
    parcel: &mut Parcel,
) -> Result<Posted, SendRefusal>
    requires body { IsSome parcel.old.body }
    requires few { length parcel.old.ports.items ≤ MAX_PORTS }
    ensures sent { (closings : List ClosedPort) → IsSent line.old line.new agent
        (carried_body parcel.old) parcel.old.ports.items (answer_with result parcel.new closings) }
    ensures left { LeavesIn result parcel.old parcel.new }
    ensures many { IsErrOf result SendRefusal.TooManyPorts → ⊥ }
    ensures doomed { IsErrOf result SendRefusal.Doomed → ⊥ }
    ensures flown { IfSome (L.shown flight.old) (λ kept. (closings : List ClosedPort)
        → IsFlown kept parcel.old.ports.items (L.shown flight.new)
        (answer_with result parcel.new closings)) }
{
    let Parcel {
        body,
        ports,
        missing,
    } = parcel;
    let Ok(numbers) = numbers_of(hub.alloc, ports.as_slice()) else {
        return Err(SendRefusal::OutOfMemory);
    };
    let Ok(room) = Vec::with_capacity(hub.alloc, numbers.len()) else {
        return Err(SendRefusal::OutOfMemory);
    };
    *missing = room;
    if let Err(refusal) = put_ports_in_flight(rt, flight, ports) {
        take_ports_back_from_flight(rt, flight, numbers.as_slice(), ports, missing);
        return Err(refusal_unless_ports_missing(refusal, missing.as_slice()));
    }
    let Ok(listed) = Ports::try_from_vec(numbers) else {
        unreachable!();
    };
    let head = Head {
        agent,
        notice: false,
    };
    let mut listed = Some(listed);
    match line.post_lent_body_and_ports(rt, &hub.yard, head, body, &mut listed) {
        Ok(posted) => Ok(posted),
        Err(error) => {
            let listed = listed.unwrap();
            take_ports_back_from_flight(rt, flight, listed.as_slice(), ports, missing);
            Err(refusal_unless_ports_missing(
                SendRefusal::from_post_error(error),
                missing.as_slice(),
            ))
        }
    }
}

/// Posts a parcel with ports, over a flight that anybody lends: of the hub it uses the yard and the
/// allocator alone. The refusals are those of `send_parcel_over_line`.
// It is no part of `send_parcel_over_line`, so that a post without ports doesn't pay for the room
// that a list takes on the stack.
#[inline(never)]
pub fn send_with_ports<L: Lends<KeptMap<Port>>, R: Wait>(
    rt: &R,
    hub: &Hub,
    flight: &mut L,
    line: &mut Poster,
    agent: AgentId,
    parcel: &mut Parcel,
    closings: &mut Closings,
) -> Result<Posted, SendRefusal>
    requires { IsSome parcel.old.body }
    ensures sent { IsSent line.old line.new agent (carried_body parcel.old) parcel.old.ports.items
        (answer_with result parcel.new closings.new) }
    ensures left { LeavesIn result parcel.old parcel.new }
    ensures many { IsErrOf result SendRefusal.TooManyPorts
        ↔ (MAX_PORTS < length parcel.old.ports.items) }
    ensures doomed { IsErrOf result SendRefusal.Doomed
        ↔ ((length parcel.old.ports.items ≤ MAX_PORTS)
        × Contains (ends_of parcel.old.ports.items) line.old.name.end) }
    ensures flown { IfSome (L.shown flight.old) (λ kept.
        IsFlown kept parcel.old.ports.items (L.shown flight.new)
        (answer_with result parcel.new closings.new)) }
{
    if parcel.ports.len() > MAX_PORTS {
        return Err(SendRefusal::TooManyPorts);
    }
    if contains_port_of_id(parcel.ports.as_slice(), line.name().end) {
        let ports = replace(&mut parcel.ports, Vec::new(hub.alloc));
        *closings = close_listed_ports(rt, hub.alloc, &hub.yard, ports);
        return Err(SendRefusal::Doomed);
    }
    put_in_flight_and_post(rt, hub, flight, line, agent, parcel)
}

/// Posts a parcel over a line: `Port::post_parcel`, over a line of a queue (Service Workers,
/// "client message queue") in place of a port's own. Where the line's end is no port, `Doomed`
/// never comes.
#[inline(always)]
pub fn send_parcel_over_line<R: Wait>(
    line: &mut Poster,
    rt: &R,
    hub: &Hub,
    agent: AgentId,
    parcel: &mut Parcel,
    closings: &mut Closings,
) -> Result<Posted, SendRefusal>
    requires { IsSome parcel.old.body }
    ensures sent { IsSent line.old line.new agent (carried_body parcel.old) parcel.old.ports.items
        (answer_with result parcel.new closings.new) }
    ensures left { LeavesIn result parcel.old parcel.new }
    ensures many { IsErrOf result SendRefusal.TooManyPorts
        ↔ (MAX_PORTS < length parcel.old.ports.items) }
    ensures doomed { IsErrOf result SendRefusal.Doomed
        ↔ ((length parcel.old.ports.items ≤ MAX_PORTS)
        × Contains (ends_of parcel.old.ports.items) line.old.name.end) }
{
    if parcel.ports.is_empty() {
        return send_without_ports(line, rt, hub, agent, parcel);
    }
    let mut flight = hub.flight.as_lock();
    send_with_ports(rt, hub, &mut flight, line, agent, parcel, closings)
}

/// Posts a parcel with ports whose caller has lent no list of closings.
#[inline(never)]
fn send_with_own_closings<R: Wait>(
    line: &mut Poster,
    rt: &R,
    hub: &Hub,
    agent: AgentId,
    mut parcel: Parcel,
) -> Result<Posted, PortError>
    requires { IsSome parcel.body }
    ensures sent { IsSent line.old line.new agent (carried_body parcel) parcel.ports.items result }
    ensures many { IsTooMany result ↔ (MAX_PORTS < length parcel.ports.items) }
    ensures doomed { IsDoomed result ↔ ((length parcel.ports.items ≤ MAX_PORTS)
        × Contains (ends_of parcel.ports.items) line.old.name.end) }
{
    let mut closings = Closings::none();
    match send_parcel_over_line(line, rt, hub, agent, &mut parcel, &mut closings) {
        Ok(posted) => Ok(posted),
        Err(refusal) => Err(refusal.into_error_with_parcel(parcel, closings)),
    }
}

/// The answer to a parcel without ports that its line refused.
#[cold]
#[inline(never)]
fn error_of_refused_portless_parcel(
    refusal: SendRefusal,
    parcel: Parcel,
) -> Result<Posted, PortError>
    requires { IsSome parcel.body }
    ensures { result ≡ Err (error_with refusal parcel []) }
{
    Err(refusal.into_error_with_parcel(parcel, Closings::none()))
}

/// Posts a body over a line, with ports that are sent along: `Port::post`, over a line of a queue
/// (Service Workers, "client message queue") in place of a port's own. Where the line's end is no
/// port, `Doomed` never comes.
// It is inlined, and so is `Port::post`, since the answer has room for the closings of a whole list
// and each return would copy it.
#[inline(always)]
pub fn send<R: Wait>(
    line: &mut Poster,
    rt: &R,
    hub: &Hub,
    agent: AgentId,
    body: Body,
    transfer: Vec<Port>,
) -> Result<Posted, PortError>
    ensures sent { IsSent line.old line.new agent body transfer.items result }
    ensures many { IsTooMany result ↔ (MAX_PORTS < length transfer.items) }
    ensures doomed { IsDoomed result ↔ ((length transfer.items ≤ MAX_PORTS)
        × Contains (ends_of transfer.items) line.old.name.end) }
{
    let mut parcel = Parcel::new(hub.alloc, body, transfer);
    if !parcel.ports.is_empty() {
        return send_with_own_closings(line, rt, hub, agent, parcel);
    }
    match send_without_ports(line, rt, hub, agent, &mut parcel) {
        Ok(posted) => Ok(posted),
        Err(refusal) => error_of_refused_portless_parcel(refusal, parcel),
    }
}
