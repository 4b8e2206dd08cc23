//! The next queue of an end, with the onward posters that lead there.
ghost use Rattle.std.specs.Prelude.{◌≡◌, ◌<◌, ◌≤◌, IfOk, IfErr, IfSome, OnOk, OnErr, IsErrOf};
ghost use Rattle.std.specs.Option.{option_map};
ghost use Rattle.hub_envelope.specs.declared.limits.TheConstants.{MAX_LINES, MAX_MOVES};
ghost use Rattle.hub_depot.specs.Putting.{with_all};
ghost use Rattle.hub_queue.specs.Adopting.{IsRefused, KeepsName};
ghost use Rattle.hub_queue.specs.Mailboxes.{IsNewTakerQueue, stands_at};
ghost use Rattle.hub_queue.specs.Opening.{IsOpenTakerQueue};

use crate::error::AdoptError;
use crate::left::LeftGates;
use crate::line_right::LineRight;
use crate::mailbox::make_taker_queue_and_entries;
use crate::onward::Onward;
use crate::stand::Stand;
use crate::taker_queue::TakerQueue;
use hub_bell::Bell;
use hub_depot::{DepotError, KeptMap, Key, Named, put_all_or_none};
use hub_envelope::{EndId, LineId, OutOfMemory};
use hub_gate::Entry;
use hub_locked::Lends;
use std::alloc::Global;
use std::sync::Wait;

/// An onward poster for each entry of a new queue, in order.
pub(crate) fn make_onward_for_each_entry(
    alloc: Global,
    queue: &TakerQueue,
    mut entries: Vec<Entry<LineRight>>,
    end: EndId,
    epoch: u32,
    bell: &Bell,
) -> Result<Vec<Onward>, OutOfMemory>
    requires few { queue.now.at.lines ≤ MAX_LINES }
    requires moves { epoch ≤ MAX_MOVES }
    requires open { IsOpenTakerQueue end.0 epoch queue.now.at.lines queue.now entries.items }
    ensures { IfOk result (λ onwards. onwards.items
        ≡ stands_at queue.now.keeper.gate queue.now.queue end epoch queue.now.at.lines) }
{
    let mut onwards = Vec::with_capacity(alloc, entries.len())?;
    entries.reverse();
    for line in 0..entries.len() {
        let entry = entries.pop().unwrap();
        let name = Key {
            end,
            epoch,
            line: LineId(line as u8),
        };
        let bell = bell.clone()?;
        let entry = Some(entry);
        let left = LeftGates::none();
        let stand = Stand {
            name,
            entry,
            bell,
            left,
        };
        onwards.push(Onward { stand })?;
    }
    Ok(onwards)
}

/// A new queue of the end, whose onward posters lie in the yard. After an error nothing is left of
/// it, and the yard keeps what it kept.
pub(crate) fn open_queue_and_put_onwards_in_yard<L: Lends<KeptMap<Onward>>, R: Wait>(
    rt: &R,
    yard: &mut L,
    alloc: Global,
    end: EndId,
    epoch: u32,
    lines: u8,
    bell: &Bell,
) -> Result<TakerQueue, AdoptError>
    requires lines { (0 < lines) × (lines ≤ MAX_LINES) }
    requires moves { epoch ≤ MAX_MOVES }
    ensures ok { IfOk result (λ queue. IsNewTakerQueue end.0 epoch lines queue) }
    ensures laid { IfOk result (λ queue. L.shown yard.new ≡ option_map (λ kept.
        with_all ⟦<Onward as Named>⟧.name kept
        (stands_at queue.keeper.gate queue.queue end epoch lines)) (L.shown yard.old)) }
    ensures free { OnOk result (IfSome (L.shown yard.old) (λ kept.
        ¬ KeepsName end epoch lines kept)) }
    ensures err { IfErr result IsRefused }
    ensures taken { IsErrOf result AdoptError.Taken
        → IfSome (L.shown yard.old) (KeepsName end epoch lines) }
    ensures kept { OnErr result (L.shown yard.new ≡ L.shown yard.old) }
{
    let Ok((queue, entries)) = make_taker_queue_and_entries(alloc, end, epoch, lines) else {
        return Err(AdoptError::OutOfMemory);
    };
    let Ok(onwards) = make_onward_for_each_entry(alloc, &queue, entries, end, epoch, bell) else {
        return Err(AdoptError::OutOfMemory);
    };
    match put_all_or_none(rt, yard, alloc, onwards) {
        Ok(()) => Ok(queue),
        Err(DepotError::Taken(_)) => Err(AdoptError::Taken),
        Err(DepotError::OutOfMemory(_)) => Err(AdoptError::OutOfMemory),
    }
}
