//! Message ports for running threads: entangled in pairs, sent with what waits for them, and closed
//! with a notice.
//!
//! A port takes what was put at its own end, and posts at the end of its peer. A port that is sent
//! waits in `Hub::flight` under its number until the receiving loop takes it out and adopts it. Its
//! envelope names it and doesn't hold it.
//!
//! No lock of a hub is taken while another is held: what is called under the lock of `flight` or of
//! the yard is the look-up there and nothing else.
#![tactic(auto)]

mod arriving;
mod closing;
mod error;
mod flight;
mod hub;
mod parcel;
mod port;
mod sending;

pub use arriving::{Arrival, Arrived, take_ports_from_flight};
pub use closing::{
    ClosedPort, ClosingStep, Closings, Noticed, Spent, close_port_telling_each_step,
};
pub use error::{ChannelError, PortError, SendRefusal};
pub use flight::close_and_sweep_all_flight_ports;
pub use hub::{Hub, channel};
pub use parcel::Parcel;
pub use port::Port;
pub use sending::{send, send_parcel_over_line, send_with_ports};
