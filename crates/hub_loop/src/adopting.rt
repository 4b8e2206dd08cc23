//! How queues that were fetched and ports that were found are adopted and held.

ghost use Rattle.std.specs.Prelude.{
  ◌≡◌,
  IfOk,
  OnOk,
  IfErr,
  OnErr,
};
ghost use Rattle.slab.specs.Slab.{HasRoomFor};
ghost use Rattle.hub_loop.specs.Adopting.{
  AreAllAdopted,
  IsFirstAdopted,
  IsQueueAdopted,
  SameStored,
};
ghost use Rattle.hub_loop.specs.Closing.{HasRoom};
ghost use Rattle.hub_loop.specs.Marking.{MarksKept};
ghost use Rattle.hub_loop.specs.States.{holding_of};
ghost use Rattle.hub_ready.specs.Marking.{HasBit};

use crate::closed::close_port;
use crate::delivery::Receiving;
use crate::ends::Holding;
use crate::held::Held;
use hub_clients::HandedQueue;
use hub_envelope::{EndId, OutOfMemory};
use hub_ports::Hub;
use hub_queue::{AdoptError, Bell};
use std::sync::Wait;

impl Holding {
    /// Adopts a queue that was fetched, and holds it. False where it was refused for good: then it
    /// is closed. Where there was no memory it comes back.
    pub(crate) fn adopt_queue<R: Wait>(
        &mut self,
        rt: &R,
        hub: &Hub,
        queue: HandedQueue,
    ) -> Result<bool, HandedQueue>
        ensures ok { IfOk result (IsQueueAdopted queue (holding_of self.old)
            (holding_of self.new)) }
        ensures back { IfErr result (λ back. back ≡ queue) }
        ensures err { OnErr result (SameStored (holding_of self.old) (holding_of self.new)) }
        ensures marks { MarksKept self.old.ends self.new.ends }
    {
        let Ok(bell) = self.reserve_and_clone_bell(queue.id()) else {
            return Err(queue);
        };
        match queue.adopt_for_loop(rt, &hub.yard, bell) {
            Ok(queue) => {
                self.ends.hold_assuming_room(Held::from(queue));
                Ok(true)
            }
            Err((AdoptError::OutOfMemory, queue)) => Err(queue),
            Err((AdoptError::TooManyMoves | AdoptError::Taken, queue)) => {
                self.closed.graves.push_reserved(queue.close());
                Ok(false)
            }
        }
    }

    /// Makes room for an end of this number that is to be adopted, and for what it is closed to.
    fn reserve_and_clone_bell(&mut self, end: EndId) -> Result<Bell, OutOfMemory>
        ensures held { OnOk result (HasRoomFor self.new.ends.held 1) }
        ensures bit { OnOk result (HasBit self.new.ends.ready.marks self.new.ends.held.vacant_key) }
        ensures room { OnOk result (HasRoom self.new.closed 1) }
        ensures same { SameStored (holding_of self.old) (holding_of self.new) }
        ensures marks { MarksKept self.old.ends self.new.ends }
    {
        self.ends.make_room(Some(end))?;
        self.closed.reserve(1)?;
        self.bell.clone()
    }

    /// Adopts the first of the ports that were found and holds it. One that was adopted too often,
    /// or whose number the yard knows already, is closed and counts as missing.
    #[tactic(auto, using(crate::proofs::Marks::kept_same))]
    fn adopt_first_port<R: Wait>(
        &mut self,
        rt: &R,
        hub: &Hub,
        receiving: &mut Receiving,
    ) -> Result<bool, OutOfMemory>
        ensures adopted { IsFirstAdopted receiving.old receiving.new
            (holding_of self.old) (holding_of self.new) result }
        ensures marks { MarksKept self.old.ends self.new.ends }
    {
        let Some(first) = receiving.found.front() else {
            return Ok(false);
        };
        let end = first.id();
        receiving.missing.reserve(1)?;
        let bell = self.reserve_and_clone_bell(end)?;
        let arrived = receiving.found.pop_front().unwrap();
        match arrived.adopt(rt, hub, bell) {
            Ok(port) => {
                self.ends.hold_assuming_room(Held::Port(port));
                Ok(true)
            }
            Err((AdoptError::OutOfMemory, arrived)) => {
                receiving.found.push_front_reserved(arrived);
                Err(OutOfMemory)
            }
            Err((AdoptError::TooManyMoves | AdoptError::Taken, arrived)) => {
                let (grave, port) = close_port(rt, hub, arrived.into_port());
                self.closed.add_closed_port(grave, port);
                receiving.missing.push_reserved(end);
                Ok(true)
            }
        }
    }

    /// Adopts the ports that were found, in order, and holds them.
    pub(crate) fn adopt_all_found_ports<R: Wait>(
        &mut self,
        rt: &R,
        hub: &Hub,
        receiving: &mut Receiving,
    ) -> Result<(), OutOfMemory>
        ensures adopted { AreAllAdopted receiving.old receiving.new
            (holding_of self.old) (holding_of self.new) result }
        ensures marks { MarksKept self.old.ends self.new.ends }
    {
        loop {
            match self.adopt_first_port(rt, hub, receiving) {
                Ok(true) => {}
                Ok(false) => return Ok(()),
                Err(error) => return Err(error),
            }
        }
    }
}
