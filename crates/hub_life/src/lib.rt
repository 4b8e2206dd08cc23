//! The life of a service worker, and the order by which an agent is ended.
//!
//! A `Life` answers the events of a worker's life by one table. An `Order` is one seat at a word
//! that threads share: whoever has a seat may give the order, once and for good, and every seat can
//! find it.
#![tactic(auto)]

mod life;
mod order;

pub use hub_envelope::OutOfMemory;
pub use life::{Event, Life, LifeError, State, prove_lifecycle_laws};
pub use order::{Order, prove_laws_of_order_to_stop};
