//! What the ports of a run share, and how two of them are made that are entangled.

ghost use Rattle.std.specs.Prelude.{◌≡◌, ◌+◌, ◌<◌, ◌↔◌, ◌∷◌, [], IfOk, OnOk, OnErr, IsErrOf};
ghost use Rattle.hub_envelope.specs.declared.limits.TheConstants.{MAX_ENDS};
ghost use Rattle.hub_queue.specs.Mailboxes.{IsOpenMailbox};
ghost use Rattle.hub_ports.specs.Channels.{IsChannel};

use crate::arriving::{Arrival, take_ports_from_flight};
use crate::error::ChannelError;
use crate::flight::close_and_sweep_all_flight_ports;
use crate::port::Port;
use hub_depot::Depot;
use hub_envelope::{EndId, Envelope, OutOfMemory};
use hub_locked::NoHearer;
use hub_queue::{Bell, Ends, Grave, Mailbox, Onward, Poster, Taker};
use std::alloc::Global;
use std::sync::{Mutex, Wait};

/// What the agents of a hub share: the ports that were sent and not yet received, and the onward
/// posters of ends that were adopted. Ports that use one hub have different numbers.
///
/// `flight` and `yard` each have a lock. No call takes one while it holds the other, and nothing
/// else is locked inside. A third lock makes the hub one that threads may share. Only `end` reaches
/// it, which has the hub for itself and takes no lock.
///
/// ```rust
/// let hub = Hub::new(alloc);
/// let (mut one, mut other) = channel(alloc, &mut ends, bell)?;
/// other.start();
/// one.post(rt, &hub, AgentId(0), body, Vec::new(alloc))?;
/// ```
#[derive(Drop)]
pub struct Hub {
    /// The ports that were sent, under their numbers.
    pub flight: Depot<Port>,
    /// The onward posters that wait for the lines of ends that were adopted.
    pub yard: Depot<Onward>,
    pub(crate) alloc: Global,
    /// An end that a refused `end` has closed and not yet emptied.
    grave: Mutex<Option<Grave>>,
}

impl Hub {
    ghost use Rattle.std.specs.Prelude.{IfOk};
    ghost use Rattle.hub_ports.specs.Seats.{ends_of};
    ghost use Rattle.hub_ports.specs.Splitting.{IsSplit};

    /// No port is in flight, and the yard is empty. It takes no memory. What the calls on this hub
    /// want of it is had from this allocator.
    pub fn new(alloc: Global) -> Hub {
        Hub {
            flight: Depot::new(alloc),
            yard: Depot::new(alloc),
            alloc,
            grave: Mutex::new(None),
        }
    }

    /// Takes the ports that a received envelope names out of flight (WHATWG HTML, "Transferable
    /// objects": the transfer-receiving steps begin with it). After an error no port was taken.
    pub fn arrive<R: Wait>(&self, rt: &R, envelope: &Envelope) -> Result<Arrival, OutOfMemory>
        ensures { IfOk result (λ arrival.
            IsSplit envelope.now.ports (ends_of arrival.found.items) arrival.missing.items) }
    {
        let mut flight = self.flight.as_lock();
        take_ports_from_flight(rt, &mut flight, self.alloc, envelope.ports.as_slice())
    }

    /// Ends the hub: closes every port that is in flight, each with its notice, and discards what
    /// waits for it. A port that a discarded envelope names is in flight, and so is among them.
    ///
    /// It waits for whoever is inside at such an end. After want of memory the next call on the hub
    /// that comes back goes on.
    pub fn end<R: Wait>(self, rt: &R) -> Result<(), (OutOfMemory, Hub)> {
        let Hub {
            flight,
            yard,
            alloc,
            grave,
        } = self;
        let mut kept = flight.into_map();
        let grave = grave.into_inner();
        let ended = close_and_sweep_all_flight_ports(
            rt,
            alloc,
            &yard,
            grave,
            &mut kept,
            &mut NoHearer,
        );
        let Err(grave) = ended else {
            return Ok(());
        };
        let hub = Hub {
            flight: Depot::from_map(kept),
            yard,
            alloc,
            grave: Mutex::new(Some(grave)),
        };
        Err((OutOfMemory, hub))
    }
}

/// A mailbox with one line.
fn open_one_line_mailbox(
    alloc: Global,
    end: EndId,
    bell: Bell,
) -> Result<(Taker, Poster), OutOfMemory>
    ensures { IfOk result (λ m. IsOpenMailbox end 1 m.0 (m.1 ∷ [])) }
{
    let (taker, mut posters) = Mailbox::open(alloc, end, 1, bell)?;
    let poster = posters.pop().unwrap();
    Ok((taker, poster))
}

/// Two ports of these numbers, each with the poster of the other's mailbox.
fn entangled(
    alloc: Global,
    first: EndId,
    second: EndId,
    bell: Bell,
) -> Result<(Port, Port), OutOfMemory>
    ensures { IfOk result (λ ports. IsChannel first second ports.0 ports.1) }
{
    let again = bell.clone()?;
    let (first_taker, first_poster) = open_one_line_mailbox(alloc, first, bell)?;
    let (second_taker, second_poster) = open_one_line_mailbox(alloc, second, again)?;
    let first = Port {
        taker: first_taker,
        poster: second_poster,
    };
    let second = Port {
        taker: second_taker,
        poster: first_poster,
    };
    Ok((first, second))
}

/// Makes a channel (WHATWG HTML, "Message channels"): two ports with the two least numbers that
/// were not drawn, each entangled with the other, both disabled. Whoever posts at one of them while
/// it is enabled rings the bell.
///
/// `TooManyEnds` comes before `OutOfMemory`. After either no number was drawn.
pub fn channel(alloc: Global, ends: &mut Ends, bell: Bell) -> Result<(Port, Port), ChannelError>
    ensures ok { IfOk result (λ ports. IsChannel (record { 0 = ends.old.drawn })
        (record { 0 = ends.old.drawn + 1 }) ports.0 ports.1) }
    ensures drawn { OnOk result (ends.new.drawn ≡ ends.old.drawn + 2) }
    ensures many { IsErrOf result ChannelError.TooManyEnds ↔ (MAX_ENDS < ends.old.drawn + 2) }
    ensures err { OnErr result (ends.new ≡ ends.old) }
{
    let mut drawn = *ends;
    let (Some(first), Some(second)) = (drawn.draw(), drawn.draw()) else {
        return Err(ChannelError::TooManyEnds);
    };
    let Ok(ports) = entangled(alloc, first, second, bell) else {
        return Err(ChannelError::OutOfMemory);
    };
    *ends = drawn;
    Ok(ports)
}
