//! A group: members in the order in which they have joined, each with the poster of a line. What is
//! cast is posted once at each member but the source.
//!
//! ```rust
//! let mut group = CastGroup::new(alloc);
//! let first = group.join(poster)?;
//! let second = group.join(other)?;
//! group.cast(first, message, &mut answers);
//! assert!(rt; answers[0].status == SOURCE && answers[1].status == POSTED);
//! ```
#![tactic(auto)]

mod group;
mod member;

pub use group::CastGroup;
pub use hub_fan::FanPoster;
pub use member::{CLOSED, CastAnswer, GroupMember, OUT_OF_MEMORY, POSTED, SOURCE};
