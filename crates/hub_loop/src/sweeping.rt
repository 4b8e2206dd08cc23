//! How a loop ends: what it holds is closed and swept, and then each port that is named there.

ghost use Rattle.std.specs.Prelude.{◌≡◌, ◌++◌, [], OnOk};
ghost use Rattle.std.specs.List.Sorted.{IsNonDecreasing, IsPermutation};
ghost use Rattle.hub_loop.specs.Ending.{grave_ends, swept_ends, closing_ends};
ghost use Rattle.hub_loop.specs.Noticing.{NamedBehind};

use crate::closed::close_port;
use crate::delivery::Undelivered;
use crate::ending::Closed;
use hub_clients::Directory;
use hub_envelope::{Envelope, OutOfMemory};
use hub_ports::{Arrival, Arrived, ClosedPort, Hub};
use hub_queue::{Grave, Poster, Swept};
use std::alloc::Global;
use std::collections::VecDeque;
use std::marker::Model;
use std::sync::Wait;

/// What is left of a loop that has ended.
#[derive(Drop)]
pub struct Ended {
    /// What was swept: first the ends that the loop held, in rising order of their numbers.
    pub swept: Vec<Swept>,
    /// The ports that were closed, in the order of closing.
    pub noticed: Vec<ClosedPort>,
}

/// How far the end of a loop has come. After want of memory the next call goes on from here.
pub(crate) struct Shutdown {
    /// The ports of the envelope that was looked at last, which are still to be closed.
    found: VecDeque<Arrived>,
    /// The closed ends that are still to be swept, in the order in which they are to be.
    graves: VecDeque<Grave>,
    swept: Vec<Swept>,
    /// The discarded envelope whose ports are to be looked for next: of which swept end, and which
    /// one there.
    next: (usize, usize),
    noticed: Vec<ClosedPort>,
    lines: Vec<Poster>,
}

// By hand, so that whoever drops one makes one call, and its proof has no cases of its fields.
impl Drop for Shutdown {
    fn drop(self) {
        let Shutdown {
            found,
            graves,
            swept,
            next: _,
            noticed,
            lines,
        } = self;
        drop(found);
        drop(graves);
        drop(swept);
        drop(noticed);
        drop(lines);
    }
}

impl Model for Shutdown {
    ghost use Rattle.hub_loop.specs.States.{ClosingState};

    ghost Value = { ClosingState };

    ghost view = { λ c. record {
      swept = c.swept.items;
      graves = c.graves.items;
      noticed = c.noticed.items;
    } };
}

/// Takes the ports that an envelope names out of flight.
fn take_named_ports_from_flight<R: Wait>(
    rt: &R,
    hub: &Hub,
    envelope: &Envelope,
) -> Result<VecDeque<Arrived>, OutOfMemory> {
    let Arrival { found, missing } = hub.arrive(rt, envelope)?;
    drop(missing);
    Ok(VecDeque::from_vec(found))
}

/// Sweeps these closed ends, in order. After an error the others are still there.
fn sweep_all_graves<R: Wait>(
    rt: &R,
    graves: &mut VecDeque<Grave>,
    swept: &mut Vec<Swept>,
) -> Result<(), OutOfMemory>
    ensures same { swept_ends swept.new.items ++ grave_ends graves.new.items
        ≡ swept_ends swept.old.items ++ grave_ends graves.old.items }
    ensures all { OnOk result (graves.new.items ≡ []) }
{
    while !graves.is_empty() {
        swept.reserve(1)?;
        let grave = graves.pop_front().unwrap();
        match grave.sweep_until_empty(rt) {
            Ok(discarded) => swept.push_reserved(discarded),
            Err(grave) => {
                graves.push_front_reserved(grave);
                return Err(OutOfMemory);
            }
        }
    }
    Ok(())
}

/// Closes these ports, in order: their graves are to be swept behind the others.
fn close_ports_found_in_envelopes<R: Wait>(
    rt: &R,
    hub: &Hub,
    found: &mut VecDeque<Arrived>,
    graves: &mut VecDeque<Grave>,
    noticed: &mut Vec<ClosedPort>,
) -> Result<(), OutOfMemory>
    ensures { NamedBehind (grave_ends graves.old.items) (grave_ends graves.new.items)
        noticed.old.items noticed.new.items }
{
    while !found.is_empty() {
        graves.reserve(1)?;
        noticed.reserve(1)?;
        let arrived = found.pop_front().unwrap();
        let (grave, port) = close_port(rt, hub, arrived.into_port());
        graves.push_back_reserved(grave);
        noticed.push_reserved(port);
    }
    Ok(())
}

/// Takes the ports of the next discarded envelope out of flight. Whether there was one.
fn take_ports_of_next_discarded_envelope<R: Wait>(
    rt: &R,
    hub: &Hub,
    swept: &[Swept],
    next: &mut (usize, usize),
    found: &mut VecDeque<Arrived>,
) -> Result<bool, OutOfMemory> {
    let (place, count) = *next;
    let Some(swept) = swept.get(place) else {
        return Ok(false);
    };
    let Some(envelope) = swept.envelopes().get(count) else {
        *next = (place + 1, 0);
        return Ok(true);
    };
    *found = take_named_ports_from_flight(rt, hub, envelope)?;
    *next = (place, count + 1);
    Ok(true)
}

/// Gives the lines back. One that the directory refuses is dropped.
fn give_lines_back_to_directory<R: Wait>(rt: &R, directory: &Directory, lines: &mut Vec<Poster>) {
    while let Some(poster) = lines.pop() {
        drop(directory.give_back(rt, poster));
    }
}

/// Takes the ports of a kept delivery out of flight, if that wasn't done.
fn take_ports_of_kept_delivery<R: Wait>(
    rt: &R,
    hub: &Hub,
    kept: &mut Option<Undelivered>,
    found: &mut VecDeque<Arrived>,
) -> Result<(), OutOfMemory> {
    if let Some(delivery) = kept {
        if delivery.arrival.is_none() {
            *found = take_named_ports_from_flight(rt, hub, &delivery.envelope)?;
        }
    }
    *kept = None;
    Ok(())
}

impl Shutdown {
    /// These were closed, and nothing was swept yet.
    pub(crate) fn new(alloc: Global, closed: Closed) -> Shutdown
        ensures swept { result.swept ≡ [] }
        ensures sorted { IsNonDecreasing (grave_ends result.graves) }
        ensures same { IsPermutation (grave_ends closed.graves.items) (grave_ends result.graves) }
        ensures noticed { result.noticed ≡ closed.noticed.items }
    {
        let Closed {
            mut graves,
            noticed,
            lines,
        } = closed;
        graves.sort_unstable_by_key(|grave| grave.closed_end_id().0);
        Shutdown {
            found: VecDeque::new(alloc),
            graves: VecDeque::from_vec(graves),
            swept: Vec::new(alloc),
            next: (0, 0),
            noticed,
            lines,
        }
    }

    /// What is left once all was swept.
    pub(crate) fn into_ended(self) -> Ended
        ensures swept { result.swept.items ≡ self.swept }
        ensures noticed { result.noticed.items ≡ self.noticed }
    {
        let Shutdown {
            found: _,
            graves: _,
            swept,
            next: _,
            noticed,
            lines: _,
        } = self;
        Ended { swept, noticed }
    }

    /// Closes and sweeps the ports that were found, and looks for those of the next discarded
    /// envelope. Whether there was one.
    fn close_and_find_more_ports<R: Wait>(&mut self, rt: &R, hub: &Hub) -> Result<bool, OutOfMemory>
        ensures further { NamedBehind (closing_ends self.old) (closing_ends self.new)
            self.old.noticed self.new.noticed }
        ensures all { OnOk result (self.new.graves ≡ []) }
    {
        close_ports_found_in_envelopes(
            rt,
            hub,
            &mut self.found,
            &mut self.graves,
            &mut self.noticed,
        )?;
        sweep_all_graves(rt, &mut self.graves, &mut self.swept)?;
        take_ports_of_next_discarded_envelope(
            rt,
            hub,
            self.swept.as_slice(),
            &mut self.next,
            &mut self.found,
        )
    }

    /// Sweeps what was closed, and gives the lines back. Then each port that is named by a kept
    /// delivery or was discarded is closed and swept too, until none is named.
    pub(crate) fn finish<R: Wait>(
        &mut self,
        rt: &R,
        hub: &Hub,
        directory: &Directory,
        kept: &mut Option<Undelivered>,
    ) -> Result<(), OutOfMemory>
        ensures further { NamedBehind (closing_ends self.old) (closing_ends self.new)
            self.old.noticed self.new.noticed }
        ensures all { OnOk result (self.new.graves ≡ []) }
    {
        sweep_all_graves(rt, &mut self.graves, &mut self.swept)?;
        give_lines_back_to_directory(rt, directory, &mut self.lines);
        take_ports_of_kept_delivery(rt, hub, kept, &mut self.found)?;
        for _ in rt.forever() {
            if !self.close_and_find_more_ports(rt, hub)? {
                return Ok(());
            }
        }
        unreachable!()
    }
}
