ghost use Rattle.std.specs.Prelude.{◌≡◌, ◌≢◌, IfErr, IfNone, IfOk, IfSome};
ghost use Rattle.hub_broadcast.specs.Members.{MemberSeat};
ghost use Rattle.hub_ports.specs.Seats.{PortSeat};
ghost use Rattle.hub_queue.specs.Standing.{StandSeat};
ghost use Rattle.hub_queue.specs.Taking.{TakerSeat};
ghost use Rattle.hub_loop.specs.Asking.{IsHeldAsked, IsHeldTaken};
ghost use Rattle.hub_loop.specs.Closing.{IsEndClosed, left_by};
ghost use Rattle.hub_loop.specs.Holding.{behind_of, end_held, number_held, seat_of};
ghost use Rattle.hub_loop.specs.Looking.{is_a};
ghost use Rattle.hub_loop.specs.Starting.{started_held};
ghost use Rattle.hub_loop.specs.declared.held.Held.TheVariants.{
  Port as PortHeld,
  Client as ClientHeld,
  Member as MemberHeld,
  Line as LineHeld,
};

use crate::closed::{ClosedEnd, close_port};
use hub_broadcast::{Member, Roster, leave_lent_roster};
use hub_clients::{ClientQueue, HandedQueue, WorkerQueue};
use hub_envelope::EndId;
use hub_locked::Lends;
use hub_ports::{Hub, Port};
use hub_queue::{Poster, Steps, Took};
use std::sync::Wait;
use std::sync::ledger::Ledger;

/// What an event loop holds: an end from which it takes, or a line over which its agent posts.
#[derive(Drop)]
pub enum Held {
    Port(Port),
    Client(ClientQueue),
    Worker(WorkerQueue),
    Member(Member),
    Line(Poster),
}

/// Which of the ends that are held is looked for, beside its number.
#[derive(Clone, Copy)]
pub(crate) enum Sought {
    /// One of any kind.
    End,
    Port,
    Client,
    Member,
}

impl From<HandedQueue> for Held {
    ghost use Rattle.std.specs.Prelude.{◌≡◌};
    ghost use Rattle.hub_loop.specs.Holding.{held_queue};

    fn from(queue: HandedQueue) -> Held
        ensures { result ≡ held_queue queue }
    {
        match queue {
            HandedQueue::Client(queue) => Held::Client(queue),
            HandedQueue::Worker(queue) => Held::Worker(queue),
        }
    }
}

impl Held {
    /// The number of the end, or of the end at which the line posts.
    pub fn id(&self) -> EndId
        ensures { result ≡ number_held self.now }
    {
        match self {
            Held::Port(port) => port.id(),
            Held::Client(queue) => queue.id(),
            Held::Worker(queue) => queue.id(),
            Held::Member(member) => member.id(),
            Held::Line(poster) => poster.name().end,
        }
    }

    /// The number of the end, where it is no line.
    pub(crate) fn id_unless_line(&self) -> Option<EndId>
        ensures { result ≡ end_held self.now }
    {
        match self {
            Held::Line(_) => None,
            held => Some(held.id()),
        }
    }

    /// Whether it is an end of this kind.
    pub(crate) fn is_of_kind(&self, kind: Sought) -> bool
        ensures { result ≡ is_a kind self.now }
    {
        match self {
            Held::Port(_) => matches!(kind, Sought::End | Sought::Port),
            Held::Client(_) => matches!(kind, Sought::End | Sought::Client),
            Held::Worker(_) => matches!(kind, Sought::End),
            Held::Member(_) => matches!(kind, Sought::End | Sought::Member),
            Held::Line(_) => false,
        }
    }

    /// The port, where it is one.
    pub(crate) fn as_port_mut(&mut self) -> Option<&mut Port>
        ensures some { IfSome result (λ port. self.old ≡ PortHeld port.now) }
        ensures none { IfNone result ((port : PortSeat) → self.old ≢ PortHeld port) }
    {
        match self {
            Held::Port(port) => Some(port),
            _ => None,
        }
    }

    /// The client's queue, where it is one.
    pub(crate) fn as_client_mut(&mut self) -> Option<&mut ClientQueue>
        ensures some { IfSome result (λ queue. self.old ≡ ClientHeld queue.now) }
        ensures none { IfNone result ((queue : TakerSeat) → self.old ≢ ClientHeld queue) }
    {
        match self {
            Held::Client(queue) => Some(queue),
            _ => None,
        }
    }

    /// The member, where it is one.
    pub(crate) fn as_member_mut(&mut self) -> Option<&mut Member>
        ensures some { IfSome result (λ member. self.old ≡ MemberHeld member.now) }
        ensures none { IfNone result ((member : MemberSeat) → self.old ≢ MemberHeld member) }
    {
        match self {
            Held::Member(member) => Some(member),
            _ => None,
        }
    }

    /// The line, where it is one.
    pub(crate) fn as_line_mut(&mut self) -> Option<&mut Poster>
        ensures some { IfSome result (λ line. self.old ≡ LineHeld line.now) }
        ensures none { IfNone result ((line : StandSeat) → self.old ≢ LineHeld line) }
    {
        match self {
            Held::Line(poster) => Some(poster),
            _ => None,
        }
    }

    /// Enables a port or a client's queue. Anything else is as it was.
    pub(crate) fn start(&mut self)
        ensures { self.new ≡ started_held self.old }
    {
        match self {
            Held::Port(port) => port.start(),
            Held::Client(queue) => queue.start_messages(),
            Held::Worker(_) | Held::Member(_) | Held::Line(_) => {}
        }
    }

    /// How many queues the end has before its newest one.
    fn count_retired_queues_of_end(&self) -> u32
        ensures { result ≡ behind_of (seat_of self.now) }
    {
        match self {
            Held::Port(port) => port.count_retired_queues(),
            Held::Client(queue) => queue.count_retired_queues(),
            Held::Worker(queue) => queue.count_retired_queues(),
            Held::Member(member) => member.count_retired_queues(),
            Held::Line(_) => 0,
        }
    }

    /// Takes once, where it is an end.
    fn take<L: Ledger, R: Wait>(&mut self, rt: &R, steps: &mut Steps<L>) -> Option<Took>
        ensures { IsHeldTaken self.old self.new steps.old steps.new result }
    {
        match self {
            Held::Port(port) => Some(port.take(rt, steps)),
            Held::Client(queue) => Some(queue.take(rt, steps)),
            Held::Worker(queue) => Some(queue.take(rt, steps)),
            Held::Member(member) => Some(member.take(rt, steps)),
            Held::Line(_) => None,
        }
    }

    /// Takes at an end, past the queues from which everything was taken. It is never answered
    /// `Again`.
    pub(crate) fn take_past_emptied_queues<L: Ledger, R: Wait>(
        &mut self,
        rt: &R,
        steps: &mut Steps<L>,
    ) -> Option<Took>
        ensures { IsHeldAsked self.old self.new steps.old steps.new result }
    {
        for _ in 0..self.count_retired_queues_of_end() {
            match self.take(rt, steps)? {
                Took::Again => {}
                took => return Some(took),
            }
        }
        self.take(rt, steps)
    }
    /// Takes a member out of the roster: nobody casts there from then on. Any other end, and a
    /// line, is as it was.
    pub(crate) fn remove_from_roster<L: Lends<Roster>, R: Wait>(&self, rt: &R, roster: &mut L)
        ensures { L.shown roster.new ≡ left_by self.now (L.shown roster.old) }
    {
        if let Held::Member(member) = self {
            leave_lent_roster(rt, roster, member.id());
        }
    }

    /// Closes an end that is no member of the roster any more, a port with its notice.
    pub fn close_without_roster<R: Wait>(self, rt: &R, hub: &Hub) -> Result<ClosedEnd, Poster>
        ensures ok { IfOk result (IsEndClosed self) }
        ensures err { IfErr result (λ line. self ≡ LineHeld line) }
    {
        match self {
            Held::Port(port) => Ok(ClosedEnd::with_port(close_port(rt, hub, port))),
            Held::Client(queue) => Ok(ClosedEnd::without_port(queue.close())),
            Held::Worker(queue) => Ok(ClosedEnd::without_port(queue.close())),
            Held::Member(member) => Ok(ClosedEnd::without_port(member.close_end())),
            Held::Line(poster) => Err(poster),
        }
    }

    /// Closes the end: a member leaves the roster first, and a port is closed with its notice. It
    /// takes no memory but that of the notice. A line is no end: it comes back.
    pub fn close<L: Lends<Roster>, R: Wait>(
        self,
        rt: &R,
        hub: &Hub,
        roster: &mut L,
    ) -> Result<ClosedEnd, Poster>
        ensures ok { IfOk result (IsEndClosed self) }
        ensures err { IfErr result (λ line. self ≡ LineHeld line) }
        ensures left { L.shown roster.new ≡ left_by self (L.shown roster.old) }
    {
        self.remove_from_roster(rt, roster);
        self.close_without_roster(rt, hub)
    }
}
