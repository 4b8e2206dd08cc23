ghost use Rattle.std.specs.Prelude.{◌≡◌, Some, None, IfOk, OnErr};
ghost use Rattle.hub_loop.specs.Delivering.{IsDelivered, IsLookedFor};
ghost use Rattle.hub_loop.specs.Marking.{MarksKept};
ghost use Rattle.hub_loop.specs.States.{holding_of, ReceivingState};

use crate::ends::Holding;
use crate::handler::Handler;
use hub_envelope::{EndId, Envelope, OutOfMemory};
use hub_ports::{Arrival, Arrived, Hub};
use std::collections::VecDeque;
use std::marker::Model;
use std::sync::Wait;

/// An envelope that was taken and of which the handler has not yet taken note.
pub(crate) struct Undelivered {
    pub(crate) envelope: Envelope,
    /// `None` where its ports were not looked for yet.
    pub(crate) arrival: Option<Receiving>,
}

// By hand, so that whoever drops one makes one call, and its proof has no cases of its fields.
impl Drop for Undelivered {
    fn drop(self) {
        let Undelivered { envelope, arrival } = self;
        drop(envelope);
        drop(arrival);
    }
}

impl Model for Undelivered {
    ghost use Rattle.hub_loop.specs.States.{DeliveryState};

    ghost Value = { DeliveryState };

    ghost view = { λ d. record { envelope = d.envelope; arrival = d.arrival } };
}

/// The ports of a delivery, once they were looked for.
#[derive(Drop)]
pub(crate) struct Receiving {
    /// Those that are still to be adopted, in the order of the envelope's list.
    pub(crate) found: VecDeque<Arrived>,
    /// The numbers of those that were not found or could not be adopted.
    pub(crate) missing: Vec<EndId>,
}

impl Model for Receiving {
    ghost use Rattle.hub_loop.specs.States.{ReceivingState};

    ghost Value = { ReceivingState };

    ghost view = { λ r. record { found = r.found.items; missing = r.missing.items } };
}

impl Undelivered {
    /// Looks for the ports, where that wasn't done before.
    fn take_ports_from_flight_once<R: Wait>(&mut self, rt: &R, hub: &Hub) -> Result<(), OutOfMemory>
        ensures envelope { self.new.envelope ≡ self.old.envelope }
        ensures ok { IfOk result (λ _.
            (r : ReceivingState) × (self.new.arrival ≡ Some r) × IsLookedFor self.old r) }
        ensures err { OnErr result ((self.old.arrival ≡ None) × (self.new.arrival ≡ None)) }
    {
        match &self.arrival {
            Some(_) => Ok(()),
            None => {
                let Arrival { found, missing } = hub.arrive(rt, &self.envelope)?;
                self.arrival = Some(Receiving {
                    found: VecDeque::from_vec(found),
                    missing,
                });
                Ok(())
            }
        }
    }

    /// Looks for the ports, adopts them, and tells the handler. After an error the next call goes
    /// on where this one has stopped.
    pub(crate) fn deliver<H: Handler, R: Wait>(
        &mut self,
        rt: &R,
        hub: &Hub,
        holding: &mut Holding,
        handler: &mut H,
    ) -> Result<(), OutOfMemory>
        ensures delivered { IsDelivered H.leaves H.refuses self.old self.new
            (holding_of holding.old) (holding_of holding.new) handler.old handler.new result }
        ensures marks { MarksKept holding.old.ends holding.new.ends }
    {
        self.take_ports_from_flight_once(rt, hub)?;
        let Some(receiving) = &mut self.arrival else {
            unreachable!();
        };
        match holding.adopt_all_found_ports(rt, hub, receiving) {
            Ok(()) => handler.got(rt, &self.envelope, receiving.missing.as_slice()),
            Err(error) => Err(error),
        }
    }
}
