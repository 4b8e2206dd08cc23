use hub_envelope::{AgentId, EndId, Envelope, OutOfMemory};
use std::sync::Wait;

/// What an agent does with a delivery.
pub trait Handler {
    ghost use Rattle.std.specs.Prelude.{List, OnErr, OnOk};
    ghost use Rattle.hub_envelope.specs.declared.envelope.Envelope.{Envelope as Delivered};
    ghost use Rattle.hub_envelope.specs.declared.ids.EndId.{EndId as Number};

    /// What a delivery that was answered `Ok` may leave of the handler: the handler before, the
    /// envelope, the ports of it that were not found or could not be adopted, the handler after.
    ghost leaves: { Self → Delivered → List Number → Self → Type 0 };

    /// The same of one that was answered with an error.
    ghost refuses: { Self → Delivered → List Number → Self → Type 0 };

    /// Takes note of an envelope, and of the numbers of those of its ports that the loop doesn't
    /// hold. After an error the loop keeps the delivery, and calls again in its next turn.
    fn got<R: Wait>(
        &mut self,
        rt: &R,
        envelope: &Envelope,
        missing: &[EndId],
    ) -> Result<(), OutOfMemory>
        ensures ok { OnOk result (leaves self.old envelope.now missing.now self.new) }
        ensures err { OnErr result (refuses self.old envelope.now missing.now self.new) };
}

/// What a turn of a loop came to.
#[derive(Clone, Copy, Debug, PartialEq, Eq, Hash)]
pub enum Turn {
    /// One envelope was delivered: the handler has taken note of it.
    Delivered,
    /// Each open end was asked, and none gave an envelope.
    Idle {
        /// Whether a poster was still inside a queue that was retired, at one of the enabled ends.
        busy: bool,
    },
    /// The order to end was given.
    Ending,
}

/// What is called before each delivery, as a test that holds an agent up.
pub trait Checkpoint {
    /// `point` is how many deliveries the loop of this agent has made before, from 0.
    fn at<R: Wait>(&self, rt: &R, agent: AgentId, point: u64);
}

/// The checkpoint that is lent.
impl<'c, C: Checkpoint> Checkpoint for &'c C {
    fn at<R: Wait>(&self, rt: &R, agent: AgentId, point: u64) {
        (**self).at(rt, agent, point);
    }
}

/// No delivery is held up.
#[derive(Clone, Copy, Debug, Drop)]
pub struct NoCheckpoint;

impl Checkpoint for NoCheckpoint {
    fn at<R: Wait>(&self, _rt: &R, _agent: AgentId, _point: u64) {}
}
