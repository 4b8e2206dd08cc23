//! How the passes of all lines of a queue come into the taker's hand, and what is left is taken.
ghost use Rattle.std.specs.Prelude.{◌≡◌, map, length};
ghost use Rattle.crossbeam_queue.specs.SegTies.{IsSegPassOf};
ghost use Rattle.hub_queue.specs.declared.store.PassView.TheVariants.{Takes};
ghost use Rattle.hub_queue.specs.TakerQueues.{IsShut, tags_of};
ghost use Rattle.hub_queue.specs.Seats.{known_by, tag_of, take_in};
ghost use Rattle.hub_queue.specs.Settling.{IsCollected, IsEmptied, IsSettling, knowing};

use crate::line_right::LineRight;
use crate::pause::Steps;
use crate::queue_rule::TakeIn;
use crate::store::{Pass, Store};
use crate::taker_queue::TakerQueue;
use hub_envelope::{Envelope, OutOfMemory};
use hub_gate::Looked;
use std::marker::Brand;
use std::sync::Wait;
use std::sync::ledger::{Blank, Ledger};

/// Takes in the passes of all lines, whose rights these are, in order.
fn absorb_passes_of_lines(store: &Store, pass: &mut Pass, mut rights: Vec<LineRight>)
    requires queue { IsSegPassOf store.now.queue pass.old }
    requires taker { known_by pass.old ≡ Takes (take_in (known_by pass.old)) }
    requires rights { map tag_of rights.items ≡ tags_of store.now.queue.web (length rights.items) }
    ensures queue { IsSegPassOf store.now.queue pass.new }
    ensures taker { known_by pass.new ≡ Takes (knowing (take_in (known_by pass.old)) rights.items) }
{
    for _ in 0..rights.len() {
        let LineRight {
            store: _,
            pass: own,
            number: _,
        } = rights.pop().unwrap();
        store.queue.absorb::<TakeIn>(pass, own);
    }
}

impl TakerQueue {
    /// Looks at the gate, which is retired or closed. Where nobody is inside it takes in the passes
    /// of all lines, unless an earlier call did, and says so.
    pub(crate) fn try_collect_passes(&mut self) -> bool
        requires { IsShut self.old }
        ensures { IsSettling self.old self.new result }
    {
        match self.keeper.look() {
            Looked::Rights(rights) => {
                absorb_passes_of_lines(&self.store, &mut self.pass, rights);
                true
            }
            Looked::Given => true,
            Looked::StillInside(_) => false,
            Looked::Open => unreachable!(),
        }
    }
}

/// Takes what the queue holds and adds it to the list. Room for an envelope is made before it is
/// popped, so after an error the list has all that was taken.
pub(crate) fn take_all_envelopes<L: Ledger, R: Wait>(
    rt: &R,
    queue: &mut TakerQueue,
    envelopes: &mut Vec<Envelope>,
    blank: Blank,
) -> Result<(), OutOfMemory>
    requires { (blank.name ≡ L.name) × (blank.parts ≡ L.parts) × (L.parts ≡ 2) }
    ensures { IsCollected queue.old queue.new envelopes.old.items envelopes.new.items result }
{
    let mut steps = Steps::<L>::new_at_zero(blank);
    for _ in rt.forever() {
        envelopes.reserve(1)?;
        match queue.pop(rt, &mut steps) {
            Some(envelope) => envelopes.push_reserved(envelope),
            None => return Ok(()),
        }
    }
    unreachable!()
}

/// Why a closed queue isn't empty for good yet.
#[derive(Drop)]
pub(crate) enum Stop {
    /// A look found a line inside or being turned back.
    StillInside,
    /// There was no memory for the next envelope.
    NoRoom,
}

/// Empties one queue whose gate is retired or closed: it takes in the passes of all lines, and then
/// what the queue holds, which nobody can add to any more.
pub(crate) fn empty_queue_into_list<R: Wait>(
    rt: &R,
    queue: &mut TakerQueue,
    envelopes: &mut Vec<Envelope>,
) -> Result<(), Stop>
    requires { IsShut queue.old }
    ensures { IsEmptied queue.old queue.new envelopes.old.items envelopes.new.items result }
{
    if !queue.try_collect_passes() {
        return Err(Stop::StillInside);
    }
    match take_all_envelopes::<Brand, R>(rt, queue, envelopes, Blank::new(2)) {
        Ok(()) => Ok(()),
        Err(_) => Err(Stop::NoRoom),
    }
}
