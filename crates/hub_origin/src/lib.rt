//! The origin of a URL (WHATWG HTML, "Origin"), by which agents and broadcast channels are told
//! apart.
#![tactic(auto)]

mod origin;

pub use hub_envelope::OutOfMemory;
pub use origin::{Origin, OriginError, origin_of};
