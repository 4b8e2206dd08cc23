//! Broadcast channels (WHATWG HTML, "Broadcasting to other browsing contexts"): the roster of their
//! members, and casts to the members of one origin and name.
//!
//! A member is an end with one line, whose poster the roster keeps. A cast posts at each
//! destination in turn, and a hop of such a post takes the yard's lock; so whoever needs both takes
//! the roster's lock before the yard's, never the other way round.
#![tactic(auto)]

mod casting;
mod error;
mod laws;
mod lent;
mod member;
mod roster;
mod shared_roster;
mod subscription;

pub use casting::CastOutcome;
pub use error::{CastError, JoinError};
pub use hub_envelope::OutOfMemory;
pub use hub_origin::{Origin, OriginError, origin_of};
pub use laws::prove_roster_stays_sorted;
pub use lent::{cast_in_lent_roster, leave_lent_roster};
pub use member::Member;
pub use roster::Roster;
pub use shared_roster::SharedRoster;
