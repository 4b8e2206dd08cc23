//! Mailboxes for running threads: a queue at an end, posters that put envelopes there, one for each
//! line, and a taker that takes them.
//!
//! A gate stands before each queue and keeps for each line the right to push, so that an end can be
//! adopted or closed while posters are inside, and a queue left or swept once none is. An adoption
//! adds a queue: the taker leaves the older ones in turn, and each line goes on once it is turned
//! there.
#![tactic(auto)]

mod adopting;
mod error;
mod grave;
mod left;
mod line_right;
mod mailbox;
mod meeting;
mod onward;
mod pause;
mod poster;
mod queue_rule;
mod settling;
mod stand;
mod store;
mod swept;
mod taker;
mod taker_queue;

pub use error::{AdoptError, PostError};
pub use grave::{Grave, Sweep};
pub use hub_bell::{Bell, Listener};
pub use hub_envelope::Posted;
pub use left::{LeftGates, LeftLine, LeftQueue, ShutQueue};
pub use line_right::{Head, LineRight};
pub use mailbox::{Ends, Mailbox};
pub use meeting::{Meeting, meet};
pub use onward::Onward;
pub use pause::{NoPause, Pause, Point, Steps};
pub use poster::Poster;
pub use queue_rule::prove_queue_chain_laws;
pub use stand::Stand;
pub use swept::Swept;
pub use taker::{Taker, Took};
pub use taker_queue::TakerQueue;
