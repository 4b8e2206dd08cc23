//! Posts from what a loop holds.

ghost use Rattle.std.specs.Prelude.{◌≡◌, None, IfNone, IfSome, IsSome};
ghost use Rattle.hub_loop.specs.Holding.{stand_held};
ghost use Rattle.hub_loop.specs.Looking.{IsFound, IsWay, LacksWay};
ghost use Rattle.hub_loop.specs.Looping.{SameButEnds};
ghost use Rattle.hub_loop.specs.Marking.{SameMarks};
ghost use Rattle.hub_loop.specs.Posting.{IsPostedOver, PostsThrough};
ghost use Rattle.hub_ports.specs.Refusing.{LeavesIn, answer_with, carried_body};

use crate::ends::HeldEnds;
use crate::event_loop::EventLoop;
use crate::handler::{Checkpoint, Handler};
use crate::held::{Held, Sought};
use hub_envelope::{AgentId, EndId};
use hub_ports::{Closings, Hub, Parcel, SendRefusal, send_parcel_over_line};
use hub_queue::Posted;
use std::sync::Wait;

/// Over what a post goes.
#[derive(Clone, Copy)]
pub enum Way {
    /// Over the port of this number, to its peer.
    Port(EndId),
    /// Over a line to the end of this number.
    Line(EndId),
}

/// What a post came to. `None` where nothing is held to post it from.
pub type FromHeld = Option<Result<Posted, SendRefusal>>;

impl Held {
    /// Posts over a port or a line.
    #[inline(always)]
    fn post_over_port_or_line<R: Wait>(
        &mut self,
        rt: &R,
        hub: &Hub,
        agent: AgentId,
        parcel: &mut Parcel,
        closings: &mut Closings,
    ) -> FromHeld
        requires { IsSome parcel.old.body }
        ensures posted { IfSome result (λ answer. IsPostedOver agent (carried_body parcel.old)
            parcel.old.ports.items self.old self.new (answer_with answer parcel.new closings.new)) }
        ensures left { IfSome result (λ answer. LeavesIn answer parcel.old parcel.new) }
        ensures other { IfNone result (stand_held self.old ≡ None) }
        ensures same { IfNone result (self.new ≡ self.old) }
        ensures back { IfNone result (parcel.new ≡ parcel.old) }
    {
        match self {
            Held::Port(port) => Some(port.post_parcel(rt, hub, agent, parcel, closings)),
            Held::Line(line) => Some(send_parcel_over_line(line, rt, hub, agent, parcel, closings)),
            _ => None,
        }
    }
}

impl HeldEnds {
    /// The key of the port or the line over which this goes.
    fn find_key_of_port_or_line(&self, way: Way) -> Option<usize>
        ensures { IsFound (IsWay way) self.now.held result }
    {
        match way {
            Way::Port(end) => self.find_key_of_end(Sought::Port, end),
            Way::Line(end) => self.find_line_for_destination(end),
        }
    }

    /// Posts over the port or the line.
    #[inline(always)]
    fn post<R: Wait>(
        &mut self,
        rt: &R,
        hub: &Hub,
        agent: AgentId,
        way: Way,
        parcel: &mut Parcel,
        closings: &mut Closings,
    ) -> FromHeld
        requires { IsSome parcel.old.body }
        ensures posted { IfSome result (λ answer. PostsThrough agent (carried_body parcel.old)
            parcel.old.ports.items way self.old.held self.new.held
            (answer_with answer parcel.new closings.new)) }
        ensures left { IfSome result (λ answer. LeavesIn answer parcel.old parcel.new) }
        ensures missing { IfNone result (LacksWay way self.old.held) }
        ensures same { IfNone result (self.new.held ≡ self.old.held) }
        ensures back { IfNone result (parcel.new ≡ parcel.old) }
        ensures marks { SameMarks self.old self.new }
    {
        let key = self.find_key_of_port_or_line(way)?;
        self.held
            .get_mut(key)?
            .post_over_port_or_line(rt, hub, agent, parcel, closings)
    }
}

impl<H: Handler + Drop, C: Checkpoint + Drop> EventLoop<H, C> {
    /// Posts a body with ports that are sent along: over a port as `Port::post_parcel` does, over a
    /// line as `hub_ports::send_parcel_over_line` does. `None` where the loop doesn't hold that
    /// port or a line to that end: then the parcel is as it was.
    #[inline(always)]
    pub fn post<R: Wait>(
        &mut self,
        rt: &R,
        hub: &Hub,
        agent: AgentId,
        way: Way,
        parcel: &mut Parcel,
        closings: &mut Closings,
    ) -> FromHeld
        requires { IsSome parcel.old.body }
        ensures posted { IfSome result (λ answer. PostsThrough agent (carried_body parcel.old)
            parcel.old.ports.items way self.old.holding.ends.held self.new.holding.ends.held
            (answer_with answer parcel.new closings.new)) }
        ensures left { IfSome result (λ answer. LeavesIn answer parcel.old parcel.new) }
        ensures missing { IfNone result (LacksWay way self.old.holding.ends.held) }
        ensures held { IfNone result (self.new.holding.ends.held ≡ self.old.holding.ends.held) }
        ensures back { IfNone result (parcel.new ≡ parcel.old) }
        ensures marks { SameMarks self.old.holding.ends self.new.holding.ends }
        ensures rest { SameButEnds self.old self.new }
    {
        let ends = &mut self.holding.ends;
        ends.post(rt, hub, agent, way, parcel, closings)
    }
}
