//! The actions that post: at a port, at a queue, from a broadcast member.

ghost use Rattle.std.specs.Prelude.{◌≡◌, ◌≢◌, List, false, IfErr, IfOk, IfSome, IfNone, IsSome};
ghost use Rattle.std.specs.Prelude.{OnOk};
ghost use Rattle.hub_loop.specs.Adopting.{HoldsMore};
ghost use Rattle.hub_loop.specs.Looking.{HoldsNoLine};
ghost use Rattle.hub_loop.specs.Looping.{SameButEnds};
ghost use Rattle.hub_loop.specs.declared.held.Held.TheVariants.{Port as PortHeld};
ghost use Rattle.hub_ports.specs.Refusing.{answer_with, carried_body};
ghost use Rattle.hub_ports.specs.Seats.{PortSeat, ends_of};
ghost use Rattle.hub_agent.specs.Agents.{CastsFrom, KeepsButCasts, KeepsButEnds, KeepsElse};
ghost use Rattle.hub_agent.specs.Entries.{IsCastLogged, WritesEntries};
ghost use Rattle.hub_agent.specs.Owning.{Accounts};
ghost use Rattle.hub_agent.specs.Posting.{
  HasLine,
  HoldsEach,
  LacksOne,
  PostsOver,
  SendsOrReturns,
  SendsTo,
  TakesOut,
  given_back,
};
ghost use Rattle.hub_agent.specs.Casting.{HasCast};
ghost use Rattle.hub_trace.specs.declared.log_entry.LogEntry.{LogEntry};

use crate::agent::{Agent, AgentLoop};
use crate::logging::{log_accepted_posts_of_cast, log_post_result};
use crate::shared::Shared;
use hub_broadcast::{CastError, Member, Roster, cast_in_lent_roster};
use hub_clients::DirectoryError;
use hub_depot::Depot;
use hub_envelope::{AgentId, Body, EndId, OutOfMemory, Ports};
use hub_locked::Lends;
use hub_logging::Scribe;
use hub_loop::{Checkpoint, Held, LoopError, Way};
use hub_ports::{Closings, Hub, Parcel, Port, SendRefusal};
use hub_queue::{Grave, Onward, Posted};
use std::alloc::Global;
use std::sync::Wait;

/// Posts over a port or a line that the loop holds. Where it holds none the post is answered as at
/// an end that is closed.
#[inline(always)]
fn post_over_port_or_line<C: Checkpoint, R: Wait>(
    event_loop: &mut AgentLoop<'_, C>,
    rt: &R,
    hub: &Hub,
    agent: AgentId,
    way: Way,
    parcel: &mut Parcel,
    closings: &mut Closings,
) -> Result<Posted, SendRefusal>
    requires { IsSome parcel.old.body }
    ensures sent { SendsOrReturns way agent (carried_body parcel.old) parcel.old.ports
        event_loop.old.holding.ends.held event_loop.new.holding.ends.held
        (answer_with result parcel.new closings.new) }
    ensures back { parcel.new.ports.items
        ≡ given_back (answer_with result parcel.new closings.new) }
    ensures rest { SameButEnds event_loop.old event_loop.new }
{
    match event_loop.post(rt, hub, agent, way, parcel, closings) {
        Some(answer) => answer,
        None => Err(SendRefusal::Closed),
    }
}

/// The port that is held, or what else is.
fn held_into_port(held: Held) -> Result<Port, Held>
    ensures ok { IfOk result (λ port. held ≡ PortHeld port) }
    ensures err { IfErr result (λ back. (back ≡ held)
        × ((port : PortSeat) → held ≢ PortHeld port)) }
{
    match held {
        Held::Port(port) => Ok(port),
        Held::Client(queue) => Err(Held::Client(queue)),
        Held::Worker(queue) => Err(Held::Worker(queue)),
        Held::Member(member) => Err(Held::Member(member)),
        Held::Line(line) => Err(Held::Line(line)),
    }
}

/// Closes what can't be held for want of memory, so that it is swept with what was closed by
/// actions. A line is given back. No member of a roster comes here.
fn close_end_or_return_line<R: Wait>(rt: &R, shared: &Shared, graves: &mut Vec<Grave>, held: Held) {
    match held.close_without_roster(rt, &shared.hub) {
        Ok(closed) => {
            if graves.reserve(1).is_ok() {
                graves.push_reserved(closed.grave);
            }
        }
        Err(line) => {
            let _refused = shared.directory.give_back(rt, line);
        }
    }
}

impl<'s, C: Checkpoint, K: Lends<Roster> + Drop> Agent<'s, C, K> {
    /// Holds an end or a line. Where there is no memory an end is closed, so that nobody waits for
    /// what is posted there.
    pub(crate) fn hold_end_or_line<R: Wait>(
        &mut self,
        rt: &R,
        held: Held,
    ) -> Result<(), OutOfMemory>
        ensures same { KeepsButEnds self.old self.new }
        ensures held { OnOk result (HoldsMore self.old.ends self.new.ends held) }
    {
        match self.event_loop.hold_end_or_line(held) {
            Ok(()) => Ok(()),
            Err((LoopError::OutOfMemory, held)) => {
                close_end_or_return_line(rt, self.shared, &mut self.graves, held);
                Err(OutOfMemory)
            }
        }
    }

    fn add_ports_to_loop<R: Wait>(&mut self, rt: &R, ports: Vec<Port>) -> Result<(), OutOfMemory>
        ensures same { KeepsButEnds self.old self.new }
        ensures held { OnOk result (HoldsEach ports.items self.old.ends self.new.ends) }
    {
        let mut held = Ok(());
        for port in ports {
            held = self.hold_end_or_line(rt, Held::Port(port)).and(held);
        }
        held
    }

    /// Takes the ports out of the loop, in order. `None` where one isn't held; then it holds again
    /// those that it took out.
    #[inline(always)]
    fn take_ports_from_loop<R: Wait>(
        &mut self,
        rt: &R,
        ends: &[EndId],
    ) -> Result<Option<Vec<Port>>, OutOfMemory>
        ensures same { KeepsButEnds self.old self.new }
        ensures ports { IfOk result (λ ports. IfSome ports (λ released.
            ends_of released.items ≡ ends.now)) }
        ensures released { IfOk result (λ ports. IfSome ports (λ released.
            TakesOut released.items self.old.ends self.new.ends)) }
        ensures again { IfOk result (λ ports. IfNone ports (LacksOne ends.now
            self.old.ends self.new.ends)) }
    {
        if ends.is_empty() {
            return Ok(Some(Vec::new(self.alloc)));
        }
        self.release_all_ports_or_none(rt, ends)
    }

    /// The same. It is called for a list with ports alone, since it clears room for one.
    #[inline(never)]
    fn release_all_ports_or_none<R: Wait>(
        &mut self,
        rt: &R,
        ends: &[EndId],
    ) -> Result<Option<Vec<Port>>, OutOfMemory>
        ensures same { KeepsButEnds self.old self.new }
        ensures ports { IfOk result (λ ports. IfSome ports (λ released.
            ends_of released.items ≡ ends.now)) }
        ensures released { IfOk result (λ ports. IfSome ports (λ released.
            TakesOut released.items self.old.ends self.new.ends)) }
        ensures again { IfOk result (λ ports. IfNone ports (LacksOne ends.now
            self.old.ends self.new.ends)) }
    {
        let mut ports = Vec::with_capacity(self.alloc, ends.len())?;
        for end in ends {
            let Some(held) = self.event_loop.release_end(*end) else {
                self.add_ports_to_loop(rt, ports)?;
                return Ok(None);
            };
            match held_into_port(held) {
                Ok(port) => ports.push_reserved(port),
                Err(held) => {
                    let again = self.hold_end_or_line(rt, held);
                    self.add_ports_to_loop(rt, ports).and(again)?;
                    return Ok(None);
                }
            }
        }
        Ok(Some(ports))
    }

    /// Posts at a port or over a line with the ports that are to be sent along, which it takes out
    /// of the loop. Logs what the post has come to, and holds again what has come back. Where what
    /// it posts over or one of the ports isn't held it does nothing.
    pub(crate) fn post<R: Wait>(
        &mut self,
        rt: &R,
        way: Way,
        body: &Body,
        transfer: &Ports,
    ) -> Result<(), OutOfMemory>
        ensures posted { OnOk result (PostsOver way transfer.now body.now
            self.old.ends self.new.ends self.old.notes self.new.notes) }
        ensures rest { KeepsElse self.old self.new }
    {
        let copy = body.clone()?;
        let Some(ports) = self.take_ports_from_loop(rt, transfer.as_slice())? else {
            return Ok(());
        };
        let mut parcel = Parcel::new(self.alloc, copy, ports);
        let agent = self.scribe.agent_id();
        let (hub, closings) = (&self.shared.hub, &mut self.closings);
        let event_loop = &mut self.event_loop;
        let answer = post_over_port_or_line(event_loop, rt, hub, agent, way, &mut parcel, closings);
        let sent = transfer.as_slice();
        let logged = log_post_result(&mut self.scribe, answer, &self.closings, sent, body);
        let Parcel { ports: back, .. } = parcel;
        self.add_ports_to_loop(rt, back)?;
        logged
    }

    /// Holds a line to a queue, unless it does. False where the directory lends none.
    #[inline(always)]
    fn ensure_line_to_queue<R: Wait>(&mut self, rt: &R, queue: EndId) -> Result<bool, OutOfMemory>
        ensures same { KeepsButEnds self.old self.new }
        ensures held { OnOk result (HasLine queue self.old.ends self.new.ends) }
        ensures none { IfOk result (λ has. has ≡ false → HoldsNoLine self.new.ends queue) }
    {
        if self.event_loop.has_line_posting_to_end(queue) {
            return Ok(true);
        }
        self.hold_line_lent_by_directory(rt, queue)
    }

    /// Holds a line to a queue that the directory lends. False where it lends none.
    #[inline(never)]
    fn hold_line_lent_by_directory<R: Wait>(
        &mut self,
        rt: &R,
        queue: EndId,
    ) -> Result<bool, OutOfMemory>
        ensures same { KeepsButEnds self.old self.new }
        ensures held { OnOk result (HasLine queue self.old.ends self.new.ends) }
        ensures none { IfOk result (λ has. has ≡ false → self.new.ends ≡ self.old.ends) }
    {
        match self.shared.directory.line_to(rt, queue) {
            Ok(line) => {
                self.hold_end_or_line(rt, Held::Line(line))?;
                Ok(true)
            }
            Err(DirectoryError::NoSuchEnd | DirectoryError::NoLine) => Ok(false),
        }
    }

    /// Posts at a queue, unless a port to be sent isn't held. The line is had at the first send and
    /// kept.
    pub(crate) fn send_to_queue<R: Wait>(
        &mut self,
        rt: &R,
        queue: EndId,
        body: &Body,
        transfer: &Ports,
    ) -> Result<(), OutOfMemory>
        ensures sent { OnOk result (SendsTo queue transfer.now body.now
            self.old.ends self.new.ends self.old.notes self.new.notes) }
        ensures rest { KeepsElse self.old self.new }
    {
        if !self.ensure_line_to_queue(rt, queue)? {
            return Ok(());
        }
        self.post(rt, Way::Line(queue), body, transfer)
    }

    /// Casts from a member, unless it isn't held.
    pub(crate) fn cast<R: Wait>(
        &mut self,
        rt: &R,
        member: EndId,
        body: &Body,
    ) -> Result<(), OutOfMemory>
        ensures written { OnOk result ((entries : List LogEntry)
            × IsCastLogged member body.now entries
            × WritesEntries entries self.old.notes self.new.notes) }
        ensures cast { OnOk result (CastsFrom member body.now self.old self.new) }
        ensures own { OnOk result (Accounts self.old self.new) }
        ensures rest { KeepsButCasts self.old self.new }
    {
        let Some(source) = self.event_loop.member(member) else {
            return Ok(());
        };
        let yard = &self.shared.hub.yard;
        cast_and_log(rt, &mut self.roster, yard, source, body, &mut self.scribe)
    }
}

/// Casts from a member, and logs each post of the cast that was accepted.
pub(crate) fn cast_and_log<K: Lends<Roster>, R: Wait>(
    rt: &R,
    roster: &mut K,
    yard: &Depot<Onward>,
    source: &Member,
    body: &Body,
    scribe: &mut Scribe,
) -> Result<(), OutOfMemory>
    ensures cast { OnOk result (HasCast (K.shown roster.old) (K.shown roster.new)
        source.now body.now scribe.old scribe.new) }
    ensures written { OnOk result ((entries : List LogEntry)
        × IsCastLogged (record { 0 = source.now.taker.end }) body.now entries
        × WritesEntries entries scribe.old scribe.new) }
{
    let copy = body.clone()?;
    match cast_in_lent_roster(rt, roster, yard, source, copy, &[]) {
        Ok(outcomes) => log_accepted_posts_of_cast(scribe, &outcomes, body),
        Err(CastError::OutOfMemory) => Err(OutOfMemory),
        Err(CastError::InvalidState | CastError::NotTransferable) => Ok(()),
    }
}
