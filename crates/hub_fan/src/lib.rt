//! A fan: up to 32 lines at one taker, as the queue of a worker or of a client has. Each line has a
//! poster of its own, which is lent to whom may post, and is given back by its close.
//!
//! A poster that finds its line's bit clear sets it behind its post, and asks for the taker's token
//! then. So lines with nothing cost a taker nothing where another one gives; the bits are hints,
//! and a take that answers `Empty` has asked each line. Who is about to sleep arms the fan: that
//! sets the token, clears the bits, and looks into each line. So the next post or close hands out
//! the token, or the look finds what came before.
//!
//! ```rust
//! let mut fan = Fan::open_empty(alloc)?;
//! let (line, mut poster) = fan.open_line()?;
//! fan.start();
//! poster.post(message)?;
//! assert!(rt; matches!(fan.take(), FanTaken::Message(gave, _) if gave == line));
//! ```
#![tactic(auto)]

mod asking;
mod closing;
mod fan;
mod hints;
mod places;

pub use closing::{ClosedFan, FanDrained, FanGrave};
pub use fan::{Fan, FanPoster, FanTaken, NotOpened};
pub use hints::{FanWords, Hints};
pub use hub_channel::Armed;
pub use hub_line::{LineTaken, NotPosted, OutOfMemory};
