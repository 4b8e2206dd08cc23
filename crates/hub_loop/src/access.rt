//! What a loop holds: it is held, lent, shown, given out and closed.

ghost use Rattle.std.specs.Prelude.{
  ◌≡◌,
  true,
  false,
  Some,
  OnOk,
  IfOk,
  IfErr,
  OnErr,
  IfSome,
  IfNone,
};
ghost use Rattle.hub_queue.specs.Standing.{StandSeat};
ghost use Rattle.slab.specs.Slab.{SameValues};
ghost use Rattle.hub_ports.specs.Seats.{end_of};
ghost use Rattle.hub_loop.specs.Adopting.{HoldsMore};
ghost use Rattle.hub_loop.specs.Closing.{ClosesEnd};
ghost use Rattle.hub_loop.specs.Holding.{end_held, ends_held};
ghost use Rattle.hub_loop.specs.Looking.{
  Holds,
  HoldsNoClient,
  HoldsNoEnd,
  HoldsNoLine,
  HoldsNoMember,
  HoldsNoPort,
};
ghost use Rattle.hub_loop.specs.Looping.{SameButEnds};
ghost use Rattle.hub_loop.specs.Marking.{MarksKept};
ghost use Rattle.hub_loop.specs.Starting.{StartsClient, StartsPort};
ghost use Rattle.hub_loop.specs.declared.held.Held.TheVariants.{
  Port as PortHeld,
  Client as ClientHeld,
  Member as MemberHeld,
  Line as LineHeld,
};

use crate::closed::ClosedEnd;
use crate::error::LoopError;
use crate::event_loop::EventLoop;
use crate::handler::{Checkpoint, Handler};
use crate::held::{Held, Sought};
use hub_broadcast::{Member, Roster};
use hub_clients::ClientQueue;
use hub_envelope::{EndId, OutOfMemory};
use hub_locked::Lends;
use hub_ports::{Hub, Port};
use hub_queue::Poster;
use std::mem::replace;
use std::sync::Wait;

impl<H: Handler + Drop, C: Checkpoint + Drop> EventLoop<H, C> {
    /// Holds an end, or a line over which the agent posts, from now on. A loop can hold a queue and
    /// a line to that same queue. Ends of one loop have different numbers, and so have its lines.
    ///
    /// `OutOfMemory` where there was no memory for its place. Then it comes back.
    pub fn hold_end_or_line(&mut self, held: Held) -> Result<(), (LoopError, Held)>
        ensures ok { OnOk result (HoldsMore self.old.holding.ends.held
            self.new.holding.ends.held held) }
        ensures back { IfErr result (λ refused. refused.1 ≡ held) }
        ensures err { OnErr result (SameValues self.old.holding.ends.held
            self.new.holding.ends.held) }
        ensures marks { MarksKept self.old.holding.ends self.new.holding.ends }
        ensures rest { SameButEnds self.old self.new }
    {
        self.holding.ends.hold_end_or_line(held)
    }

    /// Enables the port of this number, as `Port::start`. False where the loop doesn't hold it.
    pub fn start_port(&mut self, end: EndId) -> bool
        ensures started { StartsPort self.old.holding.ends.held self.new.holding.ends.held end
            result }
        ensures marks { MarksKept self.old.holding.ends self.new.holding.ends }
        ensures rest { SameButEnds self.old self.new }
    {
        self.holding.ends.start_end_of_kind(Sought::Port, end)
    }

    /// Enables the client's queue of this number, as `ClientQueue::start_messages` and `loaded`.
    /// False where the loop doesn't hold it.
    pub fn start_client_queue(&mut self, end: EndId) -> bool
        ensures started { StartsClient self.old.holding.ends.held self.new.holding.ends.held end
            result }
        ensures marks { MarksKept self.old.holding.ends self.new.holding.ends }
        ensures rest { SameButEnds self.old self.new }
    {
        self.holding.ends.start_end_of_kind(Sought::Client, end)
    }

    /// Lends the port of this number. `None` where the loop doesn't hold it.
    pub fn port_mut(&mut self, end: EndId) -> Option<&mut Port>
        ensures some { IfSome result (λ port. Holds self.old.holding.ends.held (PortHeld port.now)
            × (end_of port.now ≡ end)) }
        ensures none { IfNone result (HoldsNoPort self.old.holding.ends.held end) }
    {
        let key = self.holding.ends.find_key_of_end(Sought::Port, end)?;
        self.holding.ends.mark_and_borrow(key)?.as_port_mut()
    }

    /// Lends the client's queue of this number. `None` where the loop doesn't hold it.
    pub fn client_queue_mut(&mut self, end: EndId) -> Option<&mut ClientQueue>
        ensures some { IfSome result (λ queue.
            Holds self.old.holding.ends.held (ClientHeld queue.now) × (queue.now.end ≡ end.0)) }
        ensures none { IfNone result (HoldsNoClient self.old.holding.ends.held end) }
    {
        let key = self.holding.ends.find_key_of_end(Sought::Client, end)?;
        self.holding.ends.mark_and_borrow(key)?.as_client_mut()
    }

    /// Lends the member of this number. `None` where the loop doesn't hold it.
    pub fn member_mut(&mut self, end: EndId) -> Option<&mut Member>
        ensures some { IfSome result (λ member.
            Holds self.old.holding.ends.held (MemberHeld member.now)
            × (member.now.taker.end ≡ end.0)) }
        ensures none { IfNone result (HoldsNoMember self.old.holding.ends.held end) }
    {
        let key = self.holding.ends.find_key_of_end(Sought::Member, end)?;
        self.holding.ends.mark_and_borrow(key)?.as_member_mut()
    }

    /// Lends a line that posts at the end of this number. `None` where the loop holds none.
    pub fn line_posting_to_end_mut(&mut self, end: EndId) -> Option<&mut Poster>
        ensures some { IfSome result (λ line. Holds self.old.holding.ends.held (LineHeld line.now)
            × (line.now.name.end ≡ end)) }
        ensures none { IfNone result (HoldsNoLine self.old.holding.ends.held end) }
    {
        let key = self.holding.ends.find_line_for_destination(end)?;
        self.holding.ends.mark_and_borrow(key)?.as_line_mut()
    }

    /// Whether it holds a line that posts at the end of this number.
    pub fn has_line_posting_to_end(&self, end: EndId) -> bool
        ensures some { result ≡ true → (line : StandSeat)
            × Holds self.now.holding.ends.held (LineHeld line) × (line.name.end ≡ end) }
        ensures none { result ≡ false → HoldsNoLine self.now.holding.ends.held end }
    {
        self.holding.ends.find_line_for_destination(end).is_some()
    }

    /// Lends the handler.
    pub fn handler_mut(&mut self) -> &mut H
        ensures { result.now ≡ self.old.handler }
    {
        &mut self.handler
    }

    /// Puts another handler in, and gives out the one that was there.
    pub fn replace_loop_handler(&mut self, handler: H) -> H
        ensures given { result ≡ self.old.handler }
        ensures put { self.new ≡ record self.old { handler = handler } }
    {
        replace(&mut self.handler, handler)
    }

    /// Shows the member of this number. `None` where the loop doesn't hold it.
    pub fn member(&self, end: EndId) -> Option<&Member>
        ensures some { IfSome result (λ member.
            Holds self.now.holding.ends.held (MemberHeld member.now)
            × (member.now.taker.end ≡ end.0)) }
        ensures none { IfNone result (HoldsNoMember self.now.holding.ends.held end) }
    {
        let key = self.holding.ends.find_key_of_end(Sought::Member, end)?;
        match self.holding.ends.held.get(key)? {
            Held::Member(member) => Some(member),
            _ => None,
        }
    }

    /// Shows the port, queue or member of this number. `None` where the loop doesn't hold it.
    pub fn held_end(&self, end: EndId) -> Option<&Held>
        ensures some { IfSome result (λ held. Holds self.now.holding.ends.held held.now
            × (end_held held.now ≡ Some end)) }
        ensures none { IfNone result (HoldsNoEnd self.now.holding.ends.held end) }
    {
        let key = self.holding.ends.find_key_of_end(Sought::End, end)?;
        self.holding.ends.held.get(key)
    }

    /// The numbers of the ports, queues and members that the loop holds, in the order of their
    /// keys.
    pub fn end_numbers(&self) -> Result<Vec<EndId>, OutOfMemory>
        ensures { IfOk result (λ ends. ends.items ≡ ends_held self.now.holding.ends.held) }
    {
        self.holding.ends.end_numbers(self.alloc)
    }

    /// Gives the port, queue or member of this number out. `None` where the loop doesn't hold it.
    pub fn release_end(&mut self, end: EndId) -> Option<Held>
        ensures given { IfSome result (λ held. (end_held held ≡ Some end)
            × HoldsMore self.new.holding.ends.held self.old.holding.ends.held held) }
        ensures none { IfNone result (self.new.holding.ends.held ≡ self.old.holding.ends.held) }
        ensures missing { IfNone result (HoldsNoEnd self.old.holding.ends.held end) }
        ensures marks { MarksKept self.old.holding.ends self.new.holding.ends }
        ensures rest { SameButEnds self.old self.new }
    {
        self.holding.ends.release_end(end)
    }

    /// Closes the port, queue or member of this number, which the loop holds no more: a member
    /// leaves the roster first, and a port is closed with its notice. What waits there is for the
    /// caller to sweep. `None` where the loop doesn't hold it.
    pub fn close_end<L: Lends<Roster>, R: Wait>(
        &mut self,
        rt: &R,
        hub: &Hub,
        roster: &mut L,
        end: EndId,
    ) -> Option<ClosedEnd>
        ensures closed { IfSome result (λ closed. ClosesEnd self.old.holding.ends.held
            self.new.holding.ends.held (L.shown roster.old) (L.shown roster.new) end closed) }
        ensures missing { IfNone result (HoldsNoEnd self.old.holding.ends.held end) }
        ensures none { IfNone result (self.new ≡ self.old) }
        ensures stays { IfNone result (L.shown roster.new ≡ L.shown roster.old) }
        ensures marks { MarksKept self.old.holding.ends self.new.holding.ends }
        ensures rest { SameButEnds self.old self.new }
    {
        let held = self.holding.ends.release_end(end)?;
        held.close(rt, hub, roster).ok()
    }
}
