//! Ports in flight: how they are put there, taken back, and closed at the end of a hub.

ghost use Rattle.std.specs.Prelude.{◌≡◌, ◌+◌, ◌<◌, ◌≤◌, [], ◌++◌, List, take, length, vec_len};
ghost use Rattle.std.specs.Prelude.{vec_capacity, Some, OnOk, OnErr, IfSome, IfErr};
ghost use Rattle.hub_ports.specs.Arriving.{Flight};
ghost use Rattle.hub_ports.specs.Flying.{AreFree, HaveFlownBehind, in_flight};
ghost use Rattle.hub_ports.specs.Refusing.{IsOfFlight};
ghost use Rattle.hub_ports.specs.Seats.{PortSeat, ends_of, place_of};
ghost use Rattle.hub_ports.specs.Splitting.{IsSplit};
ghost use Rattle.std.specs.FinMap as map;
ghost use Rattle.hub_ports.specs.Closing.{AreToldEmptied};

use crate::closing::{Noticed, Spent, put_notice_and_close_port};
use crate::error::SendRefusal;
use crate::port::Port;
use hub_depot::{Depot, DepotError, KeptMap, Key, put_into_lent_map, take_from_lent_map};
use hub_envelope::{EndId, LineId};
use hub_locked::{Hears, Lends};
use hub_queue::{Grave, Onward, Swept};
use std::alloc::Global;
use std::sync::Wait;

/// The name under which a port waits in flight: its number, with epoch 0 and line 0.
pub(crate) fn flight_key(end: EndId) -> Key
    ensures { result ≡ place_of end }
{
    Key {
        end,
        epoch: 0,
        line: LineId(0),
    }
}

/// Puts the ports of a list in flight, from the last to the first, so that what is still in hand is
/// always a beginning of the list. After an error the port that was refused is the last in hand.
pub(crate) fn put_ports_in_flight<L: Lends<KeptMap<Port>>, R: Wait>(
    rt: &R,
    flight: &mut L,
    ports: &mut Vec<Port>,
) -> Result<(), SendRefusal>
    ensures all { OnOk result (ports.new.items ≡ []) }
    ensures refusal { IfErr result IsOfFlight }
    // The port that was refused is in hand again.
    ensures kept { OnErr result (0 < vec_len ports.new) }
    ensures stayed { ports.new.items ≡ take (vec_len ports.new) ports.old.items }
    ensures room { vec_len ports.old ≤ vec_capacity ports.new }
    ensures flown { IfSome (L.shown flight.old) (λ kept.
        HaveFlownBehind kept ports.old.items ports.new.items (L.shown flight.new)) }
{
    while let Some(port) = ports.pop() {
        match put_into_lent_map(rt, flight, port) {
            Ok(()) => {}
            Err(DepotError::Taken(port)) => {
                ports.push_reserved(port);
                return Err(SendRefusal::Taken);
            }
            Err(DepotError::OutOfMemory(port)) => {
                ports.push_reserved(port);
                return Err(SendRefusal::OutOfMemory);
            }
        }
    }
    Ok(())
}

/// Takes the ports of a list back from flight, in order. Those that it begins with are in hand
/// still.
pub(crate) fn take_ports_back_from_flight<L: Lends<KeptMap<Port>>, R: Wait>(
    rt: &R,
    flight: &mut L,
    numbers: &[EndId],
    ports: &mut Vec<Port>,
    missing: &mut Vec<EndId>,
)
    requires begun { ends_of ports.old.items ≡ take (vec_len ports.old) numbers.now }
    requires none { missing.old.items ≡ [] }
    requires ports { length numbers.now ≤ vec_capacity ports.old }
    requires missing { length numbers.now ≤ vec_capacity missing.old }
    ensures split { IsSplit numbers.now (ends_of ports.new.items) missing.new.items }
    // Where these very ports were put in flight, and no other since, they come back.
    ensures back { (kept : Flight) (sent : List PortSeat)
        → L.shown flight.old ≡ Some (in_flight kept sent) → AreFree kept sent
        → numbers.now ≡ ends_of ports.old.items ++ ends_of sent
        → (ports.new.items ≡ ports.old.items ++ sent) × (missing.new.items ≡ [])
        × (L.shown flight.new ≡ Some kept) }
{
    for index in ports.len()..numbers.len() {
        let number = numbers[index];
        match take_from_lent_map(rt, flight, flight_key(number)) {
            Some(port) => ports.push_reserved(port),
            None => missing.push_reserved(number),
        }
    }
}

/// Closes all ports in flight, each with its notice, and empties their ends, the closed end of an
/// earlier call before them. Ports named by the envelopes discarded there are closed too, where
/// they are in flight. It tells of each end what is left of it.
///
/// Where memory runs out, the end that was closed last comes back.
pub fn close_and_sweep_all_flight_ports<H: Hears<(Swept, Option<(Spent, Noticed)>)>, R: Wait>(
    rt: &R,
    alloc: Global,
    yard: &Depot<Onward>,
    grave: Option<Grave>,
    flight: &mut KeptMap<Port>,
    heard: &mut H,
) -> Result<(), Grave>
    ensures all { OnOk result (flight.new ≡ map.empty) }
    ensures told { OnOk result (IfSome (H.told heard.old) (λ before.
        AreToldEmptied grave flight.old map.empty before (H.told heard.new))) }
{
    match grave {
        Some(grave) => heard.tell_done(rt, (grave.sweep_until_empty(rt)?, None)),
        None => {}
    }
    while let Some(port) = flight.take_any() {
        let (grave, spent, noticed) = put_notice_and_close_port(rt, alloc, yard, port);
        heard.tell_done(rt, (grave.sweep_until_empty(rt)?, Some((spent, noticed))));
    }
    Ok(())
}
