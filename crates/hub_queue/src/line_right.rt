ghost use Rattle.std.specs.Prelude.{◌≡◌, IsSome};
ghost use Rattle.crossbeam_queue.specs.SegSteps.{IsRefused};
ghost use Rattle.crossbeam_queue.specs.SegTies.{IsSegPassOf};
ghost use Rattle.hub_queue.specs.declared.store.PassView.TheVariants.{Puts};
ghost use Rattle.hub_queue.specs.PassSteps.{refused_more};
ghost use Rattle.hub_queue.specs.Putting.{LeavesLent, answer_back, lent_draft};
ghost use Rattle.hub_queue.specs.Seats.{IsNameOf, known_by, put_view};
ghost use Rattle.hub_queue.specs.Trying.{IsAnswered};

use crate::error::PostError;
use crate::queue_rule::{CountRefusal, Put};
use crate::store::{Pass, Store};
use hub_depot::Key;
use hub_envelope::{AgentId, Body, Envelope, MAX_PUT, Ports, Posted};
use hub_gate::Right;
use std::marker::Model;
use std::sync::{Arc, Wait};

/// What the gate of a queue keeps for a line: the line's pass, with the queue that it is of.
/// Whoever is inside has it in hand, so that a line pushes only between entering and leaving.
// It is two words, since each post moves it out of its slot and back.
#[derive(Drop)]
pub struct LineRight {
    pub(crate) store: Arc<Store>,
    pub(crate) pass: Pass,
    /// How many envelopes the line has put in this queue.
    pub(crate) number: u64,
}

impl Model for LineRight {
    ghost use Rattle.std.specs.Prelude.{◌≡◌, length};
    ghost use Rattle.std.specs.Arc.{arc_value};
    ghost use Rattle.crossbeam_queue.specs.SegTies.{IsSegPassOf};
    ghost use Rattle.hub_queue.specs.declared.store.PassView.TheVariants.{Puts};
    ghost use Rattle.hub_queue.specs.Seats.{LineSeat, known_by, put_view};

    ghost Value = { LineSeat };

    ghost view = { λ r. record {
      queue = (arc_value r.store).queue.web;
      at = put_view (known_by r.pass);
    } };

    ghost invariant = { λ r. IsSegPassOf (arc_value r.store).queue r.pass
        × (known_by r.pass ≡ Puts (put_view (known_by r.pass)))
        × (r.number ≡ length (put_view (known_by r.pass)).put) };
}

impl Right for LineRight {
    ghost use Rattle.hub_queue.specs.Seats.{tag_of};

    ghost tag = { tag_of };
}

/// What goes along with the body and the ports of a post.
#[derive(Clone, Copy, Debug, Drop)]
pub struct Head {
    /// The agent that posts.
    pub agent: AgentId,
    /// Whether it is the notice by which a closed port says that nothing more comes on its line.
    pub notice: bool,
}

/// Counts a push that the queue has refused. Nothing else counts one. It isn't inlined, so that a
/// push that is accepted doesn't pay for it.
#[inline(never)]
fn count_refused_push(store: &Store, pass: &mut Pass)
    requires queue { IsSegPassOf store.now.queue pass.old }
    requires line { known_by pass.old ≡ Puts (put_view (known_by pass.old)) }
    requires refused { IsRefused pass.old.me.view }
    ensures queue { IsSegPassOf store.now.queue pass.new }
    ensures counted { known_by pass.new ≡ Puts (refused_more (put_view (known_by pass.old))) }
{
    store.queue.another::<CountRefusal>(pass);
}

impl LineRight {
    /// Puts the draft in the queue, under the next name of the line. `name` is the line's name at
    /// this queue. `OutOfMemory`: there was no memory, or the line has put `MAX_PUT` envelopes
    /// there. Then what is lent is there as it was, and nothing was put.
    #[inline(always)]
    pub(crate) fn put<R: Wait>(
        &mut self,
        rt: &R,
        name: Key,
        head: Head,
        body: &mut Option<Body>,
        ports: &mut Option<Ports>,
    ) -> Result<Posted, PostError>
        requires name { IsNameOf self.old.at name }
        requires body { IsSome body.old }
        requires ports { IsSome ports.old }
        ensures queue { self.new.queue ≡ self.old.queue }
        ensures put { IsAnswered self.old.at self.new.at (lent_draft head body.old ports.old)
            (answer_back result (lent_draft head body.old ports.old)) }
        ensures left { LeavesLent result body.old body.new × LeavesLent result ports.old ports.new }
    {
        let number = self.number;
        if number >= MAX_PUT {
            return Err(PostError::OutOfMemory);
        }
        let Key { end, epoch, line } = name;
        let envelope = Envelope {
            end,
            epoch,
            line,
            number,
            agent: head.agent,
            body: body.take().unwrap(),
            ports: ports.take().unwrap(),
            notice: head.notice,
        };
        match self
            .store
            .queue
            .push_as::<Put, R>(rt, &mut self.pass, envelope)
        {
            Ok(()) => {
                self.number = number + 1;
                Ok(Posted {
                    end,
                    epoch,
                    line,
                    number,
                })
            }
            Err(envelope) => {
                count_refused_push(&self.store, &mut self.pass);
                *body = Some(envelope.body);
                *ports = Some(envelope.ports);
                Err(PostError::OutOfMemory)
            }
        }
    }
}
