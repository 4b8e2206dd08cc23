ghost use Rattle.std.specs.Prelude.{◌≡◌, Some, None};
ghost use Rattle.hub_ports.specs.Closing.{IsTold};
ghost use Rattle.hub_queue.specs.Ending.{IsClosed};

use hub_ports::{ClosedPort, Hub, Port};
use hub_queue::Grave;
use std::sync::Wait;

/// Closes a port with its notice.
pub(crate) fn close_port<R: Wait>(rt: &R, hub: &Hub, port: Port) -> (Grave, ClosedPort)
    ensures grave { IsClosed port.taker result.0 }
    ensures told { IsTold port result.1 }
{
    let end = port.id();
    let (grave, spent, noticed) = port.close(rt, hub);
    (grave, ClosedPort::new(end, spent, noticed))
}

/// What is left of an end that was closed.
#[derive(Drop)]
pub struct ClosedEnd {
    /// The closed end, which is still to be swept.
    pub grave: Grave,
    /// The port, where it is one.
    pub port: Option<ClosedPort>,
}

impl ClosedEnd {
    /// The end of a port that was closed, and the port.
    pub(crate) fn with_port(left: (Grave, ClosedPort)) -> ClosedEnd
        ensures grave { result.grave ≡ left.0 }
        ensures port { result.port ≡ Some left.1 }
    {
        let (grave, port) = left;
        ClosedEnd {
            grave,
            port: Some(port),
        }
    }

    /// A queue's or a member's end was closed to this.
    pub(crate) fn without_port(grave: Grave) -> ClosedEnd
        ensures grave { result.grave ≡ grave }
        ensures port { result.port ≡ None }
    {
        ClosedEnd { grave, port: None }
    }
}
