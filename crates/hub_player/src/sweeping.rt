//! Sweeps, and the closing of the ports that were named by what was discarded.

use crate::player::{Player, Stop, answer, not_now};
use crate::seat::{Place, Seat};
use hub_core::Outcome;
use hub_envelope::{EndId, Envelope, Items};
use hub_queue::{Grave, Sweep};
use hub_steps::Shown;
use std::sync::Wait;

impl Player {
    pub(crate) fn sweep<R: Wait>(&mut self, rt: &R, end: EndId) -> Result<Shown, Stop> {
        let alloc = self.alloc;
        let Some(seat) = self.seat_mut(end) else {
            return not_now();
        };
        match seat.place {
            Place::Held | Place::InFlight | Place::Arrived => return not_now(),
            Place::Swept => return answer(Outcome::Discarded(Items::none(alloc))),
            Place::Closed => {}
        }
        let Some(grave) = seat.grave.take() else {
            return Err(Stop::Doomed);
        };
        match swept(rt, seat, grave)? {
            Some(envelopes) => self.discard(rt, envelopes),
            None => answer(Outcome::Busy),
        }
    }

    /// Closes each port that the envelopes name, in order.
    fn discard<R: Wait>(&mut self, rt: &R, envelopes: Vec<Envelope>) -> Result<Shown, Stop> {
        for envelope in &envelopes {
            let arrived = self.arrivals(rt, envelope)?;
            for arrived in arrived {
                self.close_arrived(rt, arrived)?;
            }
        }
        answer(Outcome::Discarded(Items::from_vec(envelopes)))
    }
}

/// What a sweep has discarded. `None` where somebody is inside.
fn swept<R: Wait>(rt: &R, seat: &mut Seat, grave: Grave) -> Result<Option<Vec<Envelope>>, Stop> {
    match grave.sweep(rt) {
        Sweep::Discarded(swept) => {
            seat.place = Place::Swept;
            Ok(Some(swept.into_envelopes()))
        }
        Sweep::StillInside(grave) => {
            seat.grave = Some(grave);
            Ok(None)
        }
        Sweep::NoRoom(grave) => {
            seat.grave = Some(grave);
            Err(Stop::OutOfMemory)
        }
    }
}
