//! How the ports that an envelope names are found in flight.

ghost use Rattle.std.specs.Prelude.{◌≡◌, IfOk, IfSome, OnOk, OnErr};
ghost use Rattle.std.specs.Option.{option_map};
ghost use Rattle.hub_ports.specs.Arriving.{HasArrived, left_in_flight};
ghost use Rattle.hub_ports.specs.Seats.{ends_of};
ghost use Rattle.hub_ports.specs.Splitting.{IsSplit};

use crate::closing::{Noticed, Spent, put_notice_and_close_port};
use crate::flight::flight_key;
use crate::hub::Hub;
use crate::port::Port;
use hub_depot::{KeptMap, take_from_lent_map};
use hub_envelope::{EndId, OutOfMemory};
use hub_locked::Lends;
use hub_queue::{AdoptError, Bell, Grave};
use std::alloc::Global;
use std::marker::Model;
use std::sync::Wait;

/// A port that was received and not yet adopted.
pub struct Arrived {
    pub(crate) port: Port,
}

// By hand, so that whoever drops one makes one call, and its proof has no cases of its fields.
impl Drop for Arrived {
    fn drop(self) {
        drop(self.into_port());
    }
}

impl Model for Arrived {
    ghost use Rattle.hub_ports.specs.Seats.{PortSeat};

    ghost Value = { PortSeat };

    ghost view = { λ a. a.port };
}

impl Arrived {
    ghost use Rattle.std.specs.Prelude.{◌≡◌};
    ghost use Rattle.hub_queue.specs.Ending.{IsClosed};
    ghost use Rattle.hub_ports.specs.Adopting.{IsReceived};
    ghost use Rattle.hub_ports.specs.Closing.{IsNoticed};
    ghost use Rattle.hub_ports.specs.Seats.{end_of};

    /// The number of its end.
    pub fn id(&self) -> EndId
        ensures { result ≡ end_of self.now }
    {
        self.port.id()
    }

    /// Adopts the port for the loop that this bell wakes (WHATWG HTML, "Message ports": the
    /// transfer-receiving steps). What waits for it moves along, it is disabled, and its peer is
    /// the same.
    ///
    /// After an error it is as it was: the errors are those of `Taker::adopt`.
    pub fn adopt<R: Wait>(
        self,
        rt: &R,
        hub: &Hub,
        bell: Bell,
    ) -> Result<Port, (AdoptError, Arrived)>
        ensures { IsReceived self result }
    {
        let (taker, poster) = self.into_port().into_taker_and_poster();
        match taker.adopt(rt, &hub.yard, bell) {
            Ok(taker) => Ok(Port { taker, poster }),
            Err((error, taker)) => {
                let port = Port { taker, poster };
                Err((error, Arrived { port }))
            }
        }
    }

    /// Closes the port, as `Port::close` does.
    pub fn close<R: Wait>(self, rt: &R, hub: &Hub) -> (Grave, Spent, Noticed)
        ensures grave { IsClosed self.taker result.0 }
        ensures notice { IsNoticed self.poster result.1 result.2 }
    {
        put_notice_and_close_port(rt, hub.alloc, &hub.yard, self.into_port())
    }

    /// The port, which is not adopted: what is posted there wakes nobody. It is for whoever closes
    /// the port beside others.
    pub fn into_port(self) -> Port
        ensures { result ≡ self }
    {
        let Arrived { port } = self;
        port
    }
}

/// The ports that a received envelope names, each list in the order of the envelope's.
#[derive(Drop)]
pub struct Arrival {
    /// The ports that were found in flight.
    pub found: Vec<Arrived>,
    /// The numbers of those that were not.
    pub missing: Vec<EndId>,
}

/// Takes the ports of these numbers out of flight, over a flight that anybody lends. After an error
/// no port was taken.
pub fn take_ports_from_flight<L: Lends<KeptMap<Port>>, R: Wait>(
    rt: &R,
    flight: &mut L,
    alloc: Global,
    numbers: &[EndId],
) -> Result<Arrival, OutOfMemory>
    ensures split { IfOk result (λ arrival.
        IsSplit numbers.now (ends_of arrival.found.items) arrival.missing.items) }
    ensures found { IfOk result (λ arrival. IfSome (L.shown flight.old) (λ kept.
        HasArrived kept numbers.now arrival.found.items arrival.missing.items)) }
    ensures left { OnOk result (L.shown flight.new
        ≡ option_map (λ kept. left_in_flight kept numbers.now) (L.shown flight.old)) }
    ensures err { OnErr result (L.shown flight.new ≡ L.shown flight.old) }
{
    let mut found = Vec::with_capacity(alloc, numbers.len())?;
    let mut missing = Vec::with_capacity(alloc, numbers.len())?;
    for number in numbers {
        match take_from_lent_map(rt, flight, flight_key(*number)) {
            Some(port) => found.push_reserved(Arrived { port }),
            None => missing.push_reserved(*number),
        }
    }
    Ok(Arrival { found, missing })
}
