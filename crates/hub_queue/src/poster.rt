ghost use Rattle.std.specs.Prelude.{◌≡◌, IsSome};
ghost use Rattle.hub_queue.specs.Posting.{IsPosted};
ghost use Rattle.hub_queue.specs.Putting.{LeavesLent, answer_back, lent_draft};
ghost use Rattle.hub_queue.specs.Rings.{HasRung};
ghost use Rattle.hub_queue.specs.Watching.{points_of, told_more};
ghost use Rattle.hub_queue.specs.Yards.{IsHoppedOver};

use crate::error::PostError;
use crate::line_right::Head;
use crate::onward::Onward;
use crate::pause::{NoPause, Pause, PauseHearer, Point};
use crate::stand::{Stand, Tried};
use hub_depot::{Depot, KeptMap, Key};
use hub_envelope::{Body, Draft, Ports, Posted};
use hub_locked::{Hears, Lends};
use std::marker::Model;
use std::sync::Wait;

/// Whoever posts at an end, over one line.
#[derive(Drop)]
pub struct Poster {
    /// Where the line stands.
    pub(crate) stand: Stand,
}

impl Model for Poster {
    ghost use Rattle.hub_queue.specs.Standing.{StandSeat};

    ghost Value = { StandSeat };

    ghost view = { λ p. p.stand };
}

impl Poster {
    /// The end, the queue and the line that it posts at.
    pub fn name(&self) -> Key
        ensures { result ≡ self.now.name }
    {
        self.stand.name
    }

    /// Posts a draft at the end (WHATWG HTML, "Message ports": the message port post message
    /// steps, of which this is the last, the adding to the port message queue). Where the queue was
    /// retired, the line goes on to the next one, whose onward poster it takes from the yard.
    ///
    /// `Closed` and `Moving` are answered only where the line was turned in this call. After an
    /// error what the line has put is as it was, and the draft comes back; after `Moving` the line
    /// may stand at a later queue.
    pub fn post<R: Wait>(
        &mut self,
        rt: &R,
        yard: &Depot<Onward>,
        draft: Draft,
    ) -> Result<Posted, (PostError, Draft)>
        ensures posted { IsPosted self.old self.new draft result }
        ensures rung { HasRung self.old self.new result }
    {
        self.post_with(rt, yard, draft, &NoPause)
    }

    /// The same, held up at each of its points by the pause.
    pub fn post_with<P: Pause, R: Wait>(
        &mut self,
        rt: &R,
        yard: &Depot<Onward>,
        draft: Draft,
        pause: &P,
    ) -> Result<Posted, (PostError, Draft)>
        ensures posted { IsPosted self.old self.new draft result }
        ensures rung { HasRung self.old self.new result }
    {
        let (mut lender, mut heard) = (yard.as_lock(), PauseHearer(pause));
        let Draft {
            body,
            ports,
            agent,
            notice,
        } = draft;
        let head = Head { agent, notice };
        let (mut body, mut ports) = (Some(body), Some(ports));
        match self.post_with_lent_yard(rt, &mut lender, head, &mut body, &mut ports, &mut heard) {
            Ok(posted) => Ok(posted),
            Err(error) => Err((
                error,
                Draft {
                    body: body.unwrap(),
                    ports: ports.unwrap(),
                    agent,
                    notice,
                },
            )),
        }
    }

    /// `post`, of a draft whose body and ports are lent. They are gone once it is accepted; after
    /// an error they are there as they were.
    pub fn post_lent_body_and_ports<R: Wait>(
        &mut self,
        rt: &R,
        yard: &Depot<Onward>,
        head: Head,
        body: &mut Option<Body>,
        ports: &mut Option<Ports>,
    ) -> Result<Posted, PostError>
        requires body { IsSome body.old }
        requires ports { IsSome ports.old }
        ensures posted { IsPosted self.old self.new (lent_draft head body.old ports.old)
            (answer_back result (lent_draft head body.old ports.old)) }
        ensures left { LeavesLent result body.old body.new × LeavesLent result ports.old ports.new }
        ensures rung { HasRung self.old self.new
            (answer_back result (lent_draft head body.old ports.old)) }
    {
        let (mut lender, mut heard) = (yard.as_lock(), PauseHearer(&NoPause));
        self.post_with_lent_yard(rt, &mut lender, head, body, ports, &mut heard)
    }

    /// `post_lent_body_and_ports`, over a yard that anybody lends, and told to anybody.
    ///
    /// Of a yard that is shown: the line takes out of it the stands at the queues that
    /// it goes on to, and no other. `Moving` comes after `MAX_HOPS` of them, or where the yard has
    /// no stand for the next queue.
    #[inline(always)]
    pub fn post_with_lent_yard<L: Lends<KeptMap<Onward>>, H: Hears<Point>, R: Wait>(
        &mut self,
        rt: &R,
        yard: &mut L,
        head: Head,
        body: &mut Option<Body>,
        ports: &mut Option<Ports>,
        heard: &mut H,
    ) -> Result<Posted, PostError>
        requires body { IsSome body.old }
        requires ports { IsSome ports.old }
        ensures posted { IsPosted self.old self.new (lent_draft head body.old ports.old)
            (answer_back result (lent_draft head body.old ports.old)) }
        ensures left { LeavesLent result body.old body.new × LeavesLent result ports.old ports.new }
        ensures rung { HasRung self.old self.new
            (answer_back result (lent_draft head body.old ports.old)) }
        ensures yard { IsHoppedOver (L.shown yard.old) (L.shown yard.new)
            self.old.name self.new (answer_back result (lent_draft head body.old ports.old)) }
        ensures told { H.told heard.new ≡ told_more (H.told heard.old)
            (points_of self.old.name self.new.name
            (answer_back result (lent_draft head body.old ports.old))) }
    {
        match self
            .stand
            .post_at_current_queue(rt, head, body, ports, heard)
        {
            Tried::Answered(answer) => answer,
            Tried::Turned(refusal) => {
                self.stand
                    .post_at_later_queue(rt, yard, refusal, head, body, ports, heard)
            }
        }
    }
}
