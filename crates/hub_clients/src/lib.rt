//! Message queues of clients and workers, and the directory that lists them.
//!
//! A client or worker queue is a mailbox with `MAX_LINES` lines. The directory keeps the posters of
//! the lines that no agent has, and hands each out to one agent at a time. A queue may go from
//! agent to agent: until the next one adopts it, it is kept in the directory under its number and
//! that agent.
#![tactic(auto)]

mod directory;
mod error;
mod handed;
mod listing;
mod queue;

pub use directory::{Directory, open_queue_in_lent_list};
pub use error::{DirectoryError, HandError, QueueError};
pub use handed::{
    Handed, HandedQueue, close_handed_queues, keep_in_lent_map, take_handed_queue_from_map,
};
pub use listing::{ListedQueue, QueueList};
pub use queue::{Client, ClientQueue, Queue, QueueKind, Worker, WorkerQueue};
