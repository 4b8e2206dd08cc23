//! A channel: two entangled ports, each with a line to the other. A port is a plain value, so one
//! that is moved to another thread takes along what waits in it, and its peer goes on posting.
//!
//! Each port has a token, by which its host knows whom to wake. Who is about to sleep arms the port
//! and looks into it then; who posts pushes first and asks for the token then. So either the post
//! hands out the token, or the look finds the message.
//!
//! ```rust
//! let (mut left, mut right) = new_pair_of_channel_ports(alloc, 1)?;
//! right.start();
//! assert!(rt; !right.arm(7).waits);
//! assert!(rt; matches!(left.post(message), Ok(7)));
//! assert!(rt; matches!(right.take(), PortTaken::Message(_)));
//! ```
#![tactic(auto)]

mod channel;
mod port;

pub use channel::new_pair_of_channel_ports;
pub use hub_line::{LineGrave, LineTaken, NotPosted, OutOfMemory};
pub use port::{Armed, ChannelPort, NO_TOKEN, PortGrave, PortTaken, take_wake_token};
