//! Ports, fans and groups for callers that aren't written in Rattle, as C programs. One call at a
//! time is made for one handle. The two ports of a channel are two handles, and so are a fan and
//! each of its posters: they may be in as many threads.
#![tactic(auto)]

mod fan;
mod group;
mod handle;
mod port;
mod poster;
mod resource;
mod resource_fan;
mod resource_group;
mod slot;
mod status;

pub use resource::assert_resource_send;
