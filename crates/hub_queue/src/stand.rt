//! A post: enter the gate, put the draft, leave; and go on where the queue is retired.

ghost use Rattle.std.specs.Prelude.{◌≡◌, IsSome};
ghost use Rattle.hub_queue.specs.Putting.{LeavesLent, answer_back, lent_draft};
ghost use Rattle.hub_queue.specs.Rings.{IsRungWhere, RingsOnward, RingsTried};
ghost use Rattle.hub_queue.specs.Seats.{IsNameOf, tag_of};
ghost use Rattle.hub_queue.specs.Standing.{entry_in};
ghost use Rattle.hub_queue.specs.Trying.{
  IsPostedOnward,
  IsPutInside,
  IsTried,
  LeavesTried,
  gone_to,
};
ghost use Rattle.hub_queue.specs.Watching.{points_inside, points_onward, points_tried};
ghost use Rattle.hub_queue.specs.Watching.{told_more};
ghost use Rattle.hub_queue.specs.Yards.{IsHoppedOver, hops_between};

use crate::error::PostError;
use crate::left::LeftGates;
use crate::line_right::{Head, LineRight};
use crate::onward::{Onward, take_next_stand_from_yard};
use crate::pause::Point;
use hub_bell::Bell;
use hub_depot::{KeptMap, Key};
use hub_envelope::{Body, MAX_HOPS, Ports, Posted};
use hub_gate::{Entered, Entry, Inside, Refusal};
use hub_locked::{Hears, Lends};
use std::marker::Model;
use std::mem::replace;
use std::sync::Wait;

/// Where a line stands: at which queue, with the entry of its gate and the bell of its loop.
pub struct Stand {
    pub(crate) name: Key,
    /// The line's entry. It is `None` during a post alone.
    pub(crate) entry: Option<Entry<LineRight>>,
    pub(crate) bell: Bell,
    pub(crate) left: LeftGates,
}

// By hand, so that whoever drops one makes one call, and its proof has no cases of its fields.
impl Drop for Stand {
    fn drop(self) {
        let Stand {
            name: _,
            entry,
            bell,
            left,
        } = self;
        drop(entry);
        drop(bell);
        drop(left);
    }
}

impl Model for Stand {
    ghost use Rattle.std.specs.Prelude.{◌≡◌, Some};
    ghost use Rattle.hub_queue.specs.Standing.{StandSeat, IsStand, entry_in};

    ghost Value = { StandSeat };

    ghost view = { λ s. record {
      name = s.name;
      entry = entry_in s.entry;
      rung = s.bell.at;
      left = s.left;
    } };

    ghost invariant = { λ s. (s.entry ≡ Some (entry_in s.entry))
        × IsStand (record {
          name = s.name;
          entry = entry_in s.entry;
          rung = s.bell.at;
          left = s.left;
        }) };
}

impl Stand {
    /// The entry, and what shows the gates that the line has left.
    pub(crate) fn into_entry_and_left_gates(self) -> (Entry<LineRight>, LeftGates)
        ensures entry { result.0 ≡ self.entry }
        ensures left { result.1 ≡ self.left }
    {
        let Stand {
            name: _,
            entry,
            bell: _,
            left,
        } = self;
        (entry.unwrap(), left)
    }

    /// Goes on to the next queue, and keeps what shows the gate that it leaves.
    pub(crate) fn move_to_next_queue(&mut self, next: Stand)
        ensures { self.new ≡ gone_to self.old next }
    {
        let (entry, left) = replace(self, next).into_entry_and_left_gates();
        self.left = left.add_left_gate(entry);
    }
}

/// What became of a post at the queue where the line stands.
#[derive(Drop)]
pub(crate) enum Tried {
    /// The draft was accepted, or there was no memory.
    Answered(Result<Posted, PostError>),
    /// The line was turned.
    Turned(Refusal),
}

/// Puts the draft, leaves, and puts the entry back in its place. Whoever has left an enabled gate
/// rings the bell.
#[inline(always)]
fn put_draft_leave_and_ring_if_enabled<H: Hears<Point>, R: Wait>(
    rt: &R,
    mut inside: Inside<LineRight>,
    name: Key,
    kept: &mut Option<Entry<LineRight>>,
    bell: &mut Bell,
    head: Head,
    body: &mut Option<Body>,
    ports: &mut Option<Ports>,
    heard: &mut H,
) -> Result<Posted, PostError>
    requires name { IsNameOf inside.right.at name }
    requires tag { tag_of inside.right ≡ inside.at.tag }
    requires body { IsSome body.old }
    requires ports { IsSome ports.old }
    ensures put { IsPutInside inside kept.new (lent_draft head body.old ports.old)
        (answer_back result (lent_draft head body.old ports.old)) }
    ensures left { LeavesLent result body.old body.new × LeavesLent result ports.old ports.new }
    ensures rung { IsRungWhere bell.old.at bell.new.at name.end (entry_in kept.new).at.left }
    ensures told { H.told heard.new ≡ told_more (H.told heard.old) points_inside }
{
    heard.tell_done(rt, Point::Inside);
    let put = inside.right_mut().put(rt, name, head, body, ports);
    heard.tell_done(rt, Point::Pushed);
    let (entry, enabled) = inside.leave();
    *kept = Some(entry);
    if enabled {
        bell.ring(name.end);
    }
    put
}

impl Stand {
    /// Posts at the queue where the line stands.
    #[inline(always)]
    pub(crate) fn post_at_current_queue<H: Hears<Point>, R: Wait>(
        &mut self,
        rt: &R,
        head: Head,
        body: &mut Option<Body>,
        ports: &mut Option<Ports>,
        heard: &mut H,
    ) -> Tried
        requires body { IsSome body.old }
        requires ports { IsSome ports.old }
        ensures tried { IsTried self.old self.new (lent_draft head body.old ports.old) result }
        ensures left { LeavesTried result body.old body.new
            × LeavesTried result ports.old ports.new }
        ensures rung { RingsTried self.old self.new result }
        ensures told { H.told heard.new ≡ told_more (H.told heard.old) (points_tried result) }
    {
        heard.tell_done(rt, Point::Before);
        let (name, bell) = (self.name, &mut self.bell);
        match self.entry.take().unwrap().enter() {
            Entered::In(inside) => {
                let kept = &mut self.entry;
                Tried::Answered(put_draft_leave_and_ring_if_enabled(
                    rt, inside, name, kept, bell, head, body, ports, heard,
                ))
            }
            Entered::Turned(entry, refusal) => {
                self.entry = Some(entry);
                Tried::Turned(refusal)
            }
        }
    }

    /// Goes on from where the line was turned, to the next queue where that one was retired, at
    /// most `MAX_HOPS` times. It isn't inlined, so that a post at the queue where its line stands
    /// doesn't pay for it.
    #[inline(never)]
    pub(crate) fn post_at_later_queue<L: Lends<KeptMap<Onward>>, H: Hears<Point>, R: Wait>(
        &mut self,
        rt: &R,
        yard: &mut L,
        refusal: Refusal,
        head: Head,
        body: &mut Option<Body>,
        ports: &mut Option<Ports>,
        heard: &mut H,
    ) -> Result<Posted, PostError>
        requires body { IsSome body.old }
        requires ports { IsSome ports.old }
        ensures posted { IsPostedOnward self.old self.new refusal
            (lent_draft head body.old ports.old)
            (answer_back result (lent_draft head body.old ports.old)) }
        ensures left { LeavesLent result body.old body.new × LeavesLent result ports.old ports.new }
        ensures rung { RingsOnward self.new
            (answer_back result (lent_draft head body.old ports.old)) }
        ensures yard { IsHoppedOver (L.shown yard.old) (L.shown yard.new)
            self.old.name self.new (answer_back result (lent_draft head body.old ports.old)) }
        ensures told { H.told heard.new ≡ told_more (H.told heard.old)
            (points_onward (hops_between self.old.name self.new.name)
            (answer_back result (lent_draft head body.old ports.old))) }
    {
        let mut found = refusal;
        for _hop in 0..MAX_HOPS {
            if found == Refusal::Closed {
                return Err(PostError::Closed);
            }
            heard.tell_done(rt, Point::Hopping);
            let Some(next) = take_next_stand_from_yard(rt, yard, self.name) else {
                return Err(PostError::Moving);
            };
            self.move_to_next_queue(next);
            match self.post_at_current_queue(rt, head, body, ports, heard) {
                Tried::Answered(answer) => return answer,
                Tried::Turned(refusal) => found = refusal,
            }
        }
        match found {
            Refusal::Moved => Err(PostError::Moving),
            Refusal::Closed => Err(PostError::Closed),
        }
    }
}
