//! Values kept under their names, behind a lock.
//!
//! A value that has left one place of the hub and has not yet reached the next waits in a depot
//! under the name that it bears: the number of an end, of a queue of that end and of a line.
//! `KeptMap` is the map itself, and `Depot` the same calls on a map that threads share.
#![tactic(auto)]

mod depot;
mod kept_map;
mod lent;
mod putting;

pub use depot::Depot;
pub use kept_map::{DepotError, KeptMap, Key, Named};
pub use lent::{put_into_lent_map, take_from_lent_map};
pub use putting::put_all_or_none;
