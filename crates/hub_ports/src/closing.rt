//! How a port is closed, and how all ports of a doomed list are.

ghost use Rattle.std.specs.Prelude.{◌≡◌, ◌≤◌, [], ◌∷◌, ◌++◌, length};
ghost use Rattle.std.specs.Option.{option_map};
ghost use Rattle.hub_envelope.specs.declared.limits.TheConstants.{MAX_PORTS};
ghost use Rattle.hub_queue.specs.Ending.{IsClosed};
ghost use Rattle.hub_ports.specs.Closing.{IsNoticed, AreDoomed};
ghost use Rattle.hub_ports.specs.Seats.{end_of};

use crate::port::Port;
use hub_depot::Depot;
use hub_envelope::{Draft, EndId, MAX_PORTS};
use hub_locked::{Hears, NoHearer};
use hub_queue::{Grave, LeftLine, Onward, PostError, Posted, Poster, ShutQueue, Taker};
use std::alloc::Global;
use std::array;
use std::marker::Model;
use std::sync::Wait;

/// What was done with a port that is being closed.
#[derive(Clone, Copy, Drop)]
pub enum ClosingStep {
    /// Its notice was put or refused.
    Notice(Noticed),
    /// Its own end, which has this number, was closed.
    Close(EndId),
}

/// What became of the notice of a port that was closed. The port is closed in each case.
#[derive(Clone, Copy, Debug, PartialEq, Eq)]
pub enum Noticed {
    /// It was accepted at the peer's end, under this name.
    Put(Posted),
    /// The peer is closed.
    PeerClosed,
    /// The peer has moved on, and the line could not follow it.
    Moving,
    /// There was no memory.
    OutOfMemory,
}

/// The poster of a port that was closed. Contracts see by it what the notice came to; no call of it
/// posts, so nothing is put on its line after the notice.
#[derive(Drop)]
pub struct Spent {
    pub(crate) poster: Poster,
}

impl Model for Spent {
    ghost use Rattle.hub_queue.specs.Standing.{StandSeat};

    ghost Value = { StandSeat };

    ghost view = { λ s. s.poster };
}

impl Spent {
    ghost use Rattle.std.specs.Prelude.{◌≡◌, Some};
    ghost use Rattle.hub_queue.specs.Left.{unrung};

    /// What shows the line, in which a contract sees what the notice came to. It has no bytes.
    pub fn into_line_witness(self) -> LeftLine
        ensures { result ≡ Some (unrung self) }
    {
        self.poster.into_line_witness()
    }
}

/// A port that was closed.
pub struct ClosedPort {
    /// The number of the port.
    pub end: EndId,
    // What shows its newest queue, where a doomed message has closed it. That there is one is a
    // byte, which stands where the number leaves room; what shows it, and the line, has none.
    pub(crate) queue: Option<ShutQueue>,
    // What shows the line on which the notice was put or refused.
    pub(crate) line: LeftLine,
    /// What became of its notice.
    pub noticed: Noticed,
}

// By hand, so that whoever drops one makes one call, and its proof has no cases of its fields.
impl Drop for ClosedPort {
    fn drop(self) {
        let ClosedPort {
            end: _,
            queue,
            line,
            noticed: _,
        } = self;
        drop(queue);
        drop(line);
    }
}

impl ClosedPort {
    ghost use Rattle.std.specs.Prelude.{◌≡◌, None, Some};
    ghost use Rattle.hub_queue.specs.Left.{unrung};

    /// The port of that number, of which closing has left this poster and this notice.
    pub fn new(end: EndId, spent: Spent, noticed: Noticed) -> ClosedPort
        ensures { result
            ≡ record { end = end; queue = None; line = Some (unrung spent); noticed = noticed } }
    {
        ClosedPort {
            end,
            queue: None,
            line: spent.into_line_witness(),
            noticed,
        }
    }
}

/// The ports that a doomed message has closed, in the order in which they were closed. It takes no
/// memory.
#[derive(Drop)]
pub struct Closings {
    ports: [ClosedPort; MAX_PORTS],
    count: usize,
}

impl Model for Closings {
    ghost use Rattle.std.specs.Prelude.{List, take, ◌≤◌};
    ghost use Rattle.hub_envelope.specs.declared.limits.TheConstants.{MAX_PORTS};
    ghost use Rattle.hub_ports.specs.declared.closing.ClosedPort.{ClosedPort};

    ghost Value = { List ClosedPort };

    ghost view = { λ c. take c.count c.ports };

    ghost invariant = { λ c. c.count ≤ MAX_PORTS };
}

/// No port: it holds the place of one.
fn placeholder_closed_port() -> ClosedPort {
    ClosedPort {
        end: EndId(0),
        queue: None,
        line: LeftLine::none(),
        noticed: Noticed::OutOfMemory,
    }
}

impl Closings {
    ghost use Rattle.std.specs.Prelude.{◌≡◌, ◌<◌, [], ◌∷◌, ◌++◌, length};
    ghost use Rattle.hub_envelope.specs.declared.limits.TheConstants.{MAX_PORTS};

    /// No port was closed yet.
    pub fn none() -> Closings
        ensures { result ≡ [] }
    {
        Closings {
            ports: array::from_fn(|_| placeholder_closed_port()),
            count: 0,
        }
    }

    /// Adds the port that was closed last.
    pub(crate) fn push(&mut self, port: ClosedPort)
        requires { length self.old < MAX_PORTS }
        ensures { self.new ≡ self.old ++ port ∷ [] }
    {
        self.ports[self.count] = port;
        self.count += 1;
    }

    /// The ports in order of closing.
    pub fn as_slice(&self) -> &[ClosedPort]
        ensures { result.now ≡ self.now }
    {
        &self.ports[..self.count]
    }
}

/// Posts the notice over the line of a port.
fn post_notice<R: Wait>(rt: &R, alloc: Global, yard: &Depot<Onward>, poster: &mut Poster) -> Noticed
    ensures { IsNoticed poster.old poster.new result }
{
    let Ok(draft) = Draft::new_closing_notice(alloc) else {
        return Noticed::OutOfMemory;
    };
    match poster.post(rt, yard, draft) {
        Ok(posted) => Noticed::Put(posted),
        Err((PostError::Closed, _)) => Noticed::PeerClosed,
        Err((PostError::Moving, _)) => Noticed::Moving,
        Err((PostError::OutOfMemory, _)) => Noticed::OutOfMemory,
    }
}

/// Posts the notice, and tells of it.
fn post_notice_and_report_step<H: Hears<ClosingStep>, R: Wait>(
    rt: &R,
    alloc: Global,
    yard: &Depot<Onward>,
    poster: &mut Poster,
    heard: &mut H,
) -> Noticed
    ensures notice { IsNoticed poster.old poster.new result }
    ensures told { H.told heard.new
        ≡ option_map (λ list. list ++ ClosingStep.Notice result ∷ []) (H.told heard.old) }
{
    let noticed = post_notice(rt, alloc, yard, poster);
    heard.tell_done(rt, ClosingStep::Notice(noticed));
    noticed
}

/// Closes the own end of a port, and tells of it.
fn close_taker_and_report_step<H: Hears<ClosingStep>, R: Wait>(
    rt: &R,
    taker: Taker,
    heard: &mut H,
) -> Grave
    ensures grave { IsClosed taker result }
    ensures told { H.told heard.new ≡ option_map (λ list.
        list ++ ClosingStep.Close (record { 0 = taker.end }) ∷ []) (H.told heard.old) }
{
    let end = taker.id();
    let grave = taker.close();
    heard.tell_done(rt, ClosingStep::Close(end));
    grave
}

/// Closes a port: the notice first, while its own end is open, and then that end. Whoever is told
/// hears each step where it is done, so a contract sees their order.
pub fn close_port_telling_each_step<H: Hears<ClosingStep>, R: Wait>(
    rt: &R,
    alloc: Global,
    yard: &Depot<Onward>,
    port: Port,
    heard: &mut H,
) -> (Grave, Spent, Noticed)
    ensures grave { IsClosed port.taker result.0 }
    ensures notice { IsNoticed port.poster result.1 result.2 }
    ensures order { H.told heard.new ≡ option_map (λ list. list
        ++ ClosingStep.Notice result.2 ∷ ClosingStep.Close (end_of port) ∷ []) (H.told heard.old) }
{
    let (taker, mut poster) = port.into_taker_and_poster();
    let noticed = post_notice_and_report_step(rt, alloc, yard, &mut poster, heard);
    let grave = close_taker_and_report_step(rt, taker, heard);
    (grave, Spent { poster }, noticed)
}

/// Closes a port: the notice first, and then the port's own end.
pub(crate) fn put_notice_and_close_port<R: Wait>(
    rt: &R,
    alloc: Global,
    yard: &Depot<Onward>,
    port: Port,
) -> (Grave, Spent, Noticed)
    ensures grave { IsClosed port.taker result.0 }
    ensures notice { IsNoticed port.poster result.1 result.2 }
{
    close_port_telling_each_step(rt, alloc, yard, port, &mut NoHearer)
}

/// Closes the ports of a list in order, and keeps of each what shows it.
pub(crate) fn close_listed_ports<R: Wait>(
    rt: &R,
    alloc: Global,
    yard: &Depot<Onward>,
    ports: Vec<Port>,
) -> Closings
    requires { length ports.items ≤ MAX_PORTS }
    ensures { AreDoomed ports.items result }
{
    let mut closings = Closings::none();
    for port in ports {
        let end = port.id();
        let (grave, spent, noticed) = put_notice_and_close_port(rt, alloc, yard, port);
        let mut closed = ClosedPort::new(end, spent, noticed);
        closed.queue = Some(grave.into_queue_witness());
        closings.push(closed);
    }
    closings
}
