//! Mailboxes: how a queue comes into being, with its gate and the passes of its lines.

ghost use Rattle.std.specs.Prelude.{◌≡◌, ◌+◌, ◌<◌, ◌≤◌, IfSome, IfNone, IfOk};
ghost use Rattle.hub_envelope.specs.declared.limits.TheConstants.{MAX_ENDS, MAX_LINES};
ghost use Rattle.hub_queue.specs.Mailboxes.{IsOpenMailbox};
ghost use Rattle.std.specs.Arc.{arc_value};
ghost use Rattle.crossbeam_queue.specs.SegTies.{IsSegPassOf};
ghost use Rattle.hub_queue.specs.declared.store.PassView.TheVariants.{Takes, Puts};
ghost use Rattle.hub_queue.specs.Opening.{MayCut, IsOpenTakerQueue, cut_so_far, new_rights};
ghost use Rattle.hub_queue.specs.PassSteps.{cut_more, next_put};
ghost use Rattle.hub_queue.specs.Seats.{known_by, take_in};
ghost use Rattle.hub_queue.specs.SharedQueue.{first_view};

use crate::adopting::make_onward_for_each_entry;
use crate::line_right::LineRight;
use crate::onward::Onward;
use crate::poster::Poster;
use crate::queue_rule::{CutLine, QueueName};
use crate::store::{EnvelopeQueue, Pass, Store};
use crate::taker::Taker;
use crate::taker_queue::TakerQueue;
use hub_bell::Bell;
use hub_envelope::{EndId, MAX_ENDS, MAX_LINES, OutOfMemory};
use hub_gate::{Entry, Gate};
use std::alloc::Global;
use std::collections::VecDeque;
use std::marker::Brand;
use std::sync::Arc;

/// The numbers of ends, of which each is drawn once.
///
/// ```rust
/// let mut ends = Ends::new();
/// assert_eq!(rt; ends.draw(), Some(EndId(0)));
/// assert_eq!(rt; ends.draw(), Some(EndId(1)));
/// ```
#[derive(Clone, Copy, Debug, PartialEq, Eq)]
pub struct Ends {
    /// How many were drawn.
    pub drawn: u32,
}

impl Ends {
    /// No number was drawn.
    pub fn new() -> Ends
        ensures { result.drawn ≡ 0 }
    {
        Ends { drawn: 0 }
    }

    /// Draws the least number that was not drawn. `None` after `MAX_ENDS` of them, and then nothing
    /// changes.
    pub fn draw(&mut self) -> Option<EndId>
        ensures least { IfSome result (λ end. end.0 ≡ self.old.drawn) }
        ensures drawn { IfSome result (λ _. self.new.drawn ≡ self.old.drawn + 1) }
        ensures few { IfSome result (λ _. self.old.drawn < MAX_ENDS) }
        ensures none { IfNone result ((MAX_ENDS ≤ self.old.drawn) × (self.new ≡ self.old)) }
    {
        if self.drawn as usize >= MAX_ENDS {
            return None;
        }
        let end = EndId(self.drawn);
        self.drawn += 1;
        Some(end)
    }
}

/// The queues of one end. `Mailbox::open` makes one; its parts are the taker and the posters.
///
/// ```rust
/// let (mut taker, mut posters) = Mailbox::open(alloc, EndId(0), 1, bell)?;
/// let mut poster = posters.pop()?;
/// taker.start();
/// poster.post(rt, &yard, draft)?;
/// taker.take(rt, &mut steps);         // Took::Got, with the envelope
/// ```
pub struct Mailbox;

/// The posters of all lines, which nobody has used.
fn turn_onwards_into_posters(
    alloc: Global,
    onwards: Vec<Onward>,
) -> Result<Vec<Poster>, OutOfMemory>
    ensures { IfOk result (λ posters. posters.items ≡ onwards.items) }
{
    let mut posters = Vec::with_capacity(alloc, onwards.len())?;
    for onward in onwards {
        let Onward { stand } = onward;
        posters.push(Poster { stand })?;
    }
    Ok(posters)
}

impl Mailbox {
    /// Opens a mailbox with one queue, empty and disabled, for 1 to `MAX_LINES` lines: its taker,
    /// and a poster for each line. Whoever posts at it while it is enabled rings the bell. After an
    /// error nothing is left of it.
    pub fn open(
        alloc: Global,
        end: EndId,
        lines: u8,
        bell: Bell,
    ) -> Result<(Taker, Vec<Poster>), OutOfMemory>
        requires { (0 < lines) × (lines ≤ MAX_LINES) }
        ensures { IfOk result (λ m. IsOpenMailbox end lines m.0 m.1.items) }
    {
        let (newest, entries) = make_taker_queue_and_entries(alloc, end, 0, lines)?;
        let onwards = make_onward_for_each_entry(alloc, &newest, entries, end, 0, &bell)?;
        let posters = turn_onwards_into_posters(alloc, onwards)?;
        let taker = Taker {
            alloc,
            end,
            epoch: 0,
            lines,
            retired: VecDeque::new(alloc),
            newest,
            left: None,
        };
        Ok((taker, posters))
    }
}

/// Cuts the pass of the next line off the taker's. The first cut gives the queue its end and epoch.
fn split_line_pass_off_taker_pass<N: QueueName>(
    store: &Store,
    pass: &mut Pass,
    end: EndId,
    epoch: u32,
) -> Pass
    requires name { (end.0 ≡ N.end) × (epoch ≡ N.epoch) }
    requires queue { IsSegPassOf store.now.queue pass.old }
    requires taker { known_by pass.old ≡ Takes (take_in (known_by pass.old)) }
    requires named { MayCut end.0 epoch (take_in (known_by pass.old)) }
    ensures queue { IsSegPassOf store.now.queue pass.new × IsSegPassOf store.now.queue result }
    ensures taker { known_by pass.new ≡ Takes (cut_more end.0 epoch (take_in (known_by pass.old))) }
    ensures line { known_by result ≡ Puts (next_put end.0 epoch (take_in (known_by pass.old))) }
{
    store.queue.another::<CutLine<N>>(pass)
}

/// The rights of so many lines, each of which has put nothing.
fn make_posting_right_per_line(
    alloc: Global,
    store: &Arc<Store>,
    pass: &mut Pass,
    end: EndId,
    epoch: u32,
    lines: u8,
) -> Result<Vec<LineRight>, OutOfMemory>
    requires queue { IsSegPassOf (arc_value store.now).queue pass.old }
    requires fresh { known_by pass.old ≡ first_view }
    ensures queue { IfOk result (λ _. IsSegPassOf (arc_value store.now).queue pass.new) }
    ensures taker { IfOk result (λ _. known_by pass.new ≡ Takes (cut_so_far end.0 epoch lines)) }
    ensures rights { IfOk result (λ rights.
        rights.items ≡ new_rights (arc_value store.now).queue.web end.0 epoch lines) }
{
    let mut rights = Vec::with_capacity(alloc, lines as usize)?;
    for _line in 0..lines {
        let share = Arc::try_clone(store)?;
        let own = split_line_pass_off_taker_pass::<Brand>(store, pass, end, epoch);
        rights.push(LineRight {
            store: share,
            pass: own,
            number: 0,
        })?;
    }
    Ok(rights)
}

/// A new queue with its gate: nothing was put, nobody is inside and no flag is set. The entries are
/// those of its lines, in order.
pub(crate) fn make_taker_queue_and_entries(
    alloc: Global,
    end: EndId,
    epoch: u32,
    lines: u8,
) -> Result<(TakerQueue, Vec<Entry<LineRight>>), OutOfMemory>
    requires lines { (0 < lines) × (lines ≤ MAX_LINES) }
    ensures { IfOk result (λ p. IsOpenTakerQueue end.0 epoch lines p.0 p.1.items) }
{
    let (queue, mut pass) = EnvelopeQueue::with_rule(alloc)?;
    let store = Arc::new(alloc, Store { queue })?;
    let rights = make_posting_right_per_line(alloc, &store, &mut pass, end, epoch, lines)?;
    let Ok((keeper, entries)) = Gate::open(alloc, rights) else {
        return Err(OutOfMemory);
    };
    let queue = TakerQueue {
        store,
        pass,
        keeper,
        taken: [0; MAX_LINES],
    };
    Ok((queue, entries))
}
