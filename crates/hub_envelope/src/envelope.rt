ghost use Rattle.std.specs.Prelude.{◌≡◌, ◌↔◌, IfOk, IsTrue};
ghost use Rattle.std.specs.Cmp.Rules.{comparing};
ghost use Rattle.std.proofs.Common.{rules};
ghost use Rattle.hub_envelope.specs.Same.{is_same_draft, is_same_envelope};

use crate::OutOfMemory;
use crate::body::Body;
use crate::ids::{AgentId, EndId, LineId};
use crate::ports::Ports;
use std::alloc::Global;

/// What a sender hands over to be posted.
#[derive(Debug, Drop)]
pub struct Draft {
    /// What is said.
    pub body: Body,
    /// The ports that are transferred. A draft names them and doesn't hold them.
    pub ports: Ports,
    /// The agent that posts.
    pub agent: AgentId,
    /// Whether it is the notice by which a closed port says that nothing more comes on its line.
    pub notice: bool,
}

impl Draft {
    ghost use Rattle.hub_envelope.specs.Notice.{notice_draft};

    /// The notice that a port puts at its peer when it is closed (this project's own, no event of
    /// WHATWG HTML): it has agent 0, the body `null` and no ports.
    pub fn new_closing_notice(alloc: Global) -> Result<Draft, OutOfMemory>
        ensures { IfOk result (λ draft. draft ≡ notice_draft) }
    {
        Ok(Draft {
            agent: AgentId(0),
            body: Body::null(alloc)?,
            ports: Ports::none(alloc),
            notice: true,
        })
    }
}

/// The clone has the same agent, the same text and the same list, and is a notice where the draft
/// is.
impl Clone for Draft {
    ghost is_clone = { λ draft copy. copy ≡ draft };

    fn clone(&self) -> Result<Draft, OutOfMemory> {
        Ok(Draft {
            agent: self.agent,
            body: self.body.clone()?,
            ports: self.ports.clone()?,
            notice: self.notice,
        })
    }
}

/// Equal drafts have the same agent, the same text and the same list, and both or neither is a
/// notice.
impl PartialEq for Draft {
    ghost eq = { is_same_draft };

    ghost laws = { Prim.search (comparing, rules) depth 12 };

    fn eq(&self, other: &Draft) -> bool
        ensures value { result ≡ is_same_draft self.now other.now }
        ensures same { IsTrue result ↔ (self.now ≡ other.now) }
    {
        self.agent == other.agent
            && self.body == other.body
            && self.ports == other.ports
            && self.notice == other.notice
    }
}

impl Eq for Draft {
    ghost laws = { Prim.search (comparing, rules) depth 12 };
}

/// A draft that was accepted, under its name: end, epoch, line and number.
// Fields lie in memory in the order in which they stand here. In this one they leave no gaps, which
// counts since an envelope is copied wherever it goes.
#[derive(Debug, Drop)]
pub struct Envelope {
    /// What is said.
    pub body: Body,
    /// The ports that travel with it. An envelope names them and doesn't hold them.
    pub ports: Ports,
    /// How many envelopes of its line stood in that queue before it.
    pub number: u64,
    /// The end that it was put at.
    pub end: EndId,
    /// The queue of that end: how many adoptions of the end came before.
    pub epoch: u32,
    /// The line that it came by.
    pub line: LineId,
    /// The agent that posted it.
    pub agent: AgentId,
    /// Whether it is a notice, the last envelope of its line.
    pub notice: bool,
}

/// The clone has the same name, the same agent, the same text and the same list, and is a notice
/// where the envelope is.
impl Clone for Envelope {
    ghost is_clone = { λ envelope copy. copy ≡ envelope };

    fn clone(&self) -> Result<Envelope, OutOfMemory> {
        Ok(Envelope {
            end: self.end,
            epoch: self.epoch,
            line: self.line,
            number: self.number,
            agent: self.agent,
            body: self.body.clone()?,
            ports: self.ports.clone()?,
            notice: self.notice,
        })
    }
}

/// Equal envelopes have the same name, the same agent, the same text and the same list, and both or
/// neither is a notice.
impl PartialEq for Envelope {
    ghost eq = { is_same_envelope };

    ghost laws = { Prim.search (comparing, rules) depth 12 };

    fn eq(&self, other: &Envelope) -> bool
        ensures value { result ≡ is_same_envelope self.now other.now }
        ensures same { IsTrue result ↔ (self.now ≡ other.now) }
    {
        self.end == other.end
            && self.epoch == other.epoch
            && self.line == other.line
            && self.number == other.number
            && self.agent == other.agent
            && self.body == other.body
            && self.ports == other.ports
            && self.notice == other.notice
    }
}

impl Eq for Envelope {
    ghost laws = { Prim.search (comparing, rules) depth 12 };
}
