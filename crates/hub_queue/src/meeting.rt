//! The comparison of a poster with its taker, where both stand at one queue.

ghost use Rattle.std.specs.Prelude.{◌≡◌, length};
ghost use Rattle.hub_core.specs.Sender.{by, Prefix};
ghost use Rattle.hub_queue.specs.Meetings.{AreOfOne, HaveMet, HaveMetAt};
ghost use Rattle.hub_queue.specs.Standing.{right_of};

use crate::line_right::LineRight;
use crate::poster::Poster;
use crate::queue_rule::{Compare, GiveBack, Lend};
use crate::stand::Stand;
use crate::taker::Taker;
use crate::taker_queue::TakerQueue;
use hub_envelope::LineId;
use hub_gate::Entered;
use std::sync::Wait;

/// What a meeting of a poster and a taker came to.
#[derive(Clone, Copy, Debug, PartialEq, Eq)]
pub enum Meeting {
    /// They are of different ends or of different queues of one end.
    Strangers,
    /// The poster was turned at the gate: the queue is retired or the end closed.
    Turned,
    /// They are of one queue. The line has put so many envelopes there, and so many of them were
    /// taken, which are the first ones.
    Met { put: u64, got: u64 },
}

/// Lends the pass of a line to the taker's for one look at the queue: what was taken of the line is
/// a prefix of what it has put. It says how many were put and taken. Both passes are as they were.
fn put_and_taken_of_line<R: Wait>(
    rt: &R,
    queue: &mut TakerQueue,
    right: &mut LineRight,
    line: LineId,
) -> (u64, u64)
    requires queue { right.old.queue ≡ queue.old.queue }
    requires line { line.0 ≡ right.old.at.line }
    ensures same { (queue.new ≡ queue.old) × (right.new ≡ right.old) }
    ensures prefix { Prefix (by right.old.at.line queue.old.at.got) right.old.at.put }
    ensures put { result.0 ≡ length right.old.at.put }
    ensures got { result.1 ≡ length (by right.old.at.line queue.old.at.got) }
{
    let store = &queue.store.queue;
    let lent = store.another::<Lend>(&mut right.pass);
    store.absorb::<Compare>(&mut queue.pass, lent);
    store.len_as::<Compare, R>(rt, &mut queue.pass);
    right.pass = store.another::<GiveBack>(&mut queue.pass);
    (right.number, queue.taken[line.0 as usize])
}

/// Goes in at the gate, compares, and comes out again.
fn compare_put_with_taken_inside_gate<R: Wait>(
    rt: &R,
    stand: &mut Stand,
    queue: &mut TakerQueue,
) -> Meeting
    requires { (right_of stand.old).queue ≡ queue.old.queue }
    ensures same { queue.new ≡ queue.old }
    ensures met { HaveMetAt stand.old stand.new queue.old result }
{
    let line = stand.name.line;
    match stand.entry.take().unwrap().enter() {
        Entered::In(mut inside) => {
            let (put, got) = put_and_taken_of_line(rt, queue, inside.right_mut(), line);
            let (entry, _) = inside.leave();
            stand.entry = Some(entry);
            Meeting::Met { put, got }
        }
        Entered::Turned(entry, _) => {
            stand.entry = Some(entry);
            Meeting::Turned
        }
    }
}

/// Compares what a poster has put with what a taker has taken, where both stand at one queue. The
/// poster goes in and out for it.
///
/// `Strangers` exactly where the end or the epoch differs. Where both agree the two must be of one
/// queue, as those are that one `Mailbox::open` gave.
pub fn meet<R: Wait>(rt: &R, poster: &mut Poster, taker: &mut Taker) -> Meeting
    requires { AreOfOne poster.old taker.old }
    ensures { HaveMet poster.old poster.new taker.old taker.new result }
{
    let stand = &mut poster.stand;
    if stand.name.end != taker.end || stand.name.epoch != taker.epoch {
        return Meeting::Strangers;
    }
    match taker.retired.front_mut() {
        Some(queue) => compare_put_with_taken_inside_gate(rt, stand, queue),
        None => compare_put_with_taken_inside_gate(rt, stand, &mut taker.newest),
    }
}
