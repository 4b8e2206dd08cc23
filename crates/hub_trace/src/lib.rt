//! Logs of what agents put and got, and their checker.
//!
//! Each agent keeps a log of the envelopes and notices that it had accepted and that it took, of
//! the ends that it adopted and of those that it closed. The checker reads the logs of one run
//! together, and says whether each line of each end was delivered in order, each envelope once and
//! as it was posted, with nothing after a closing or a notice. `deliveries_by_sender_line` reads
//! them in the same way, and lists what was got of each line.
#![tactic(auto)]

mod accepted;
mod checker;
mod content;
mod delivered;
mod error;
mod limits;
mod log;
mod log_entry;
mod log_line;
mod log_version;
mod payload;
mod read;
mod received;
mod verdict;

pub use checker::check;
pub use content::Content;
pub use delivered::{
    SenderLineDeliveries, deliveries_by_sender_line, prove_deliveries_deterministic,
};
pub use error::LogError;
pub use hub_envelope::{OutOfMemory, Posted};
pub use limits::{MAX_AGENT, MAX_END, MAX_EPOCH, MAX_LINE, MAX_NUMBER, is_port_list};
pub use log::{LOG_HEADER, Log};
pub use log_entry::{Delivery, LogEntry, is_envelope_name_within_limits};
pub use payload::Payload;
pub use read::{LOGS_END, read_logs};
pub use verdict::{FaultKind, Verdict};
