ghost use Rattle.std.specs.Prelude.{◌≡◌, ◌↔◌, IsTrue, IfOk};
ghost use Rattle.hub_trace.specs.Limits.{IsPortList};

use hub_envelope::{Body, EndId, OutOfMemory};
use std::alloc::Global;
use std::marker::Model;

/// What an envelope carries: the ends of the ports that travel with it, in list order, and its
/// body. Any can stand in a log: it lists at most `MAX_PORTS` ends, and none of them twice.
#[derive(Debug, Drop)]
pub struct Payload {
    ports: Vec<EndId>,
    body: Body,
}

impl Model for Payload {
    ghost use Rattle.std.specs.Prelude.{List, ℕ};
    ghost use Rattle.hub_envelope.specs.declared.ids.EndId.{EndId};

    ghost Value = { List EndId × List ℕ };

    ghost use Rattle.hub_trace.specs.Limits.{IsMessageWithin};
    ghost use Rattle.hub_trace.specs.declared.log_version.LogVersion.TheVariants.{Third};

    ghost view = { λ m. (m.ports.items, m.body) };

    ghost invariant = { λ m. IsMessageWithin Third (m.ports.items, m.body) };
}

impl Payload {
    /// A copy of the ports and the body. An error says that there was no memory for them.
    pub fn copy_of_parts(
        alloc: Global,
        ports: &[EndId],
        body: &Body,
    ) -> Result<Payload, OutOfMemory>
        requires { IsPortList ports.now }
        ensures { IfOk result (λ message. message ≡ (ports.now, body.now)) }
    {
        let ports = Vec::from_slice(alloc, ports)?;
        let body = body.clone()?;
        Ok(Payload { ports, body })
    }

    /// These ports and this body. It takes no memory.
    pub(crate) fn of_parts(ports: Vec<EndId>, body: Body) -> Payload
        requires { IsPortList ports.items }
        ensures { result ≡ (ports.items, body) }
    {
        Payload { ports, body }
    }

    /// The ends of the ports, in list order.
    pub fn ports(&self) -> &[EndId]
        ensures { result.now ≡ self.now.0 }
    {
        self.ports.as_slice()
    }

    /// The compact text of the body.
    pub fn body(&self) -> &str
        ensures { result.now ≡ self.now.1 }
    {
        self.body.text()
    }

    /// Whether both carry the same ports and the same body.
    pub fn is_same(&self, other: &Payload) -> bool
        ensures { IsTrue result ↔ (self.now ≡ other.now) }
    {
        self.ports() == other.ports() && self.body() == other.body()
    }
}
