use crate::closing::Closings;
use crate::parcel::Parcel;
use crate::port::Port;
use hub_envelope::{Body, EndId};
use hub_queue::{PostError, Posted};
use std::mem::size_of;
use thiserror::Error;

/// Why no channel was made. No number was drawn.
#[derive(Clone, Copy, Debug, PartialEq, Eq, Drop, Error)]
pub enum ChannelError {
    /// Fewer than two numbers of ends are left.
    #[error("too many ends")]
    TooManyEnds,
    /// There was no memory.
    #[error("out of memory")]
    OutOfMemory,
}

/// Why a body and its ports were not posted. What comes back is in it: the ports in the order of
/// their list.
#[derive(Drop)]
pub enum PortError {
    /// The end is closed.
    Closed(Body, Vec<Port>),
    /// The end has moved on, and the line could not follow it.
    Moving(Body, Vec<Port>),
    /// There was no memory.
    OutOfMemory(Body, Vec<Port>),
    /// The list holds the port at whose end the message was to go (WHATWG HTML, "Message ports":
    /// doomed). The ports of the list were closed, and the message wasn't queued.
    Doomed(Closings),
    /// The list has more than `MAX_PORTS` ports.
    TooManyPorts(Body, Vec<Port>),
    /// The post was refused, and the ports of these numbers, which had been put in flight for it,
    /// were not found there again. The other ports come back.
    Strayed(Vec<EndId>, Body, Vec<Port>),
    /// A port of the same number is in flight: another port that uses this hub has it.
    Taken(Body, Vec<Port>),
}

// What shows that the ports of a doomed list were closed makes the answer of a post no larger.
const _: () = prove!(size_of::<Result<Posted, PortError>>() == 664);

/// Why a parcel was not posted: the errors of `PortError`, where what comes back is in the parcel.
#[derive(Clone, Copy, Debug, PartialEq, Eq, Drop, Error)]
pub enum SendRefusal {
    /// The end is closed.
    #[error("the end is closed")]
    Closed,
    /// The end has moved on, and the line could not follow it.
    #[error("the end has moved on")]
    Moving,
    /// There was no memory.
    #[error("out of memory")]
    OutOfMemory,
    /// The parcel holds the port at whose end the message was to go. Its ports were closed.
    #[error("the port of the peer is sent along")]
    Doomed,
    /// The parcel has more than `MAX_PORTS` ports.
    #[error("too many ports")]
    TooManyPorts,
    /// The parcel lists the ports that were not found in flight again as missing.
    #[error("ports have strayed")]
    Strayed,
    /// A port of the same number is in flight: another port that uses this hub has it.
    #[error("a port of that number is in flight")]
    Taken,
}

impl SendRefusal {
    ghost use Rattle.std.specs.Prelude.{◌≡◌, IsSome};
    ghost use Rattle.hub_ports.specs.Refusing.{error_with, refusal_of};

    /// The refusal of a line.
    pub(crate) fn from_post_error(error: PostError) -> SendRefusal
        ensures { result ≡ refusal_of error }
    {
        match error {
            PostError::Closed => SendRefusal::Closed,
            PostError::Moving => SendRefusal::Moving,
            PostError::OutOfMemory => SendRefusal::OutOfMemory,
        }
    }

    /// The error of a post whose caller has lent nothing.
    pub(crate) fn into_error_with_parcel(self, parcel: Parcel, closings: Closings) -> PortError
        requires { IsSome parcel.body }
        ensures { result ≡ error_with self parcel closings }
    {
        let Parcel {
            body,
            ports,
            missing,
        } = parcel;
        let body = body.unwrap();
        match self {
            SendRefusal::Closed => PortError::Closed(body, ports),
            SendRefusal::Moving => PortError::Moving(body, ports),
            SendRefusal::OutOfMemory => PortError::OutOfMemory(body, ports),
            SendRefusal::Doomed => PortError::Doomed(closings),
            SendRefusal::TooManyPorts => PortError::TooManyPorts(body, ports),
            SendRefusal::Strayed => PortError::Strayed(missing, body, ports),
            SendRefusal::Taken => PortError::Taken(body, ports),
        }
    }
}
