//! Values behind locks: who lends a value, and who is told of what was done.
//!
//! Code that is generic over these is proved once for a value of one's own, of which its contract
//! is exact, and for one that threads share.
#![tactic(auto)]

mod hears;
mod lends;
mod locked;

pub use hears::{Hears, NoHearer};
pub use lends::Lends;
pub use locked::Locked;
