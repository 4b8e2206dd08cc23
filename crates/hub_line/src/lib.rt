//! A line: what one poster sends to one taker, in order and with no bound, no lock and no wait.
//!
//! The items lie in a ring. When it is full the poster makes a larger one and goes on there; both
//! ends of what was left behind go to the taker over a second ring, the rail. So the taker leaves a
//! ring only once it has all that was ever posted in it.
//!
//! ```rust
//! let (mut poster, mut taker) = open_line(alloc)?;
//! poster.post(7)?;
//! drop(poster);
//! assert!(rt; matches!(taker.take(), LineTaken::Item(7)));
//! assert!(rt; matches!(taker.take(), LineTaken::Ended));
//! ```
#![tactic(auto)]

mod beside;
mod line;
mod poster;
mod ring;
mod taker;

pub use line::{LineGrave, open_line};
pub use poster::{LinePoster, NotPosted};
pub use ring::{Ahead, Chained, Counted, Feed, Numbered, Source, Track};
pub use std::alloc::AllocError as OutOfMemory;
pub use taker::{LineTaken, LineTaker};
