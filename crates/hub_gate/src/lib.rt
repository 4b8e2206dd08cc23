//! A gate: one word that threads share, and one right for each line that passes it.
//!
//! Whoever holds an `Entry` may go in, unless the gate was retired or closed, and has the right of
//! its line while it is inside. The `Keeper` sets the gate's flags, and gets all rights, once, when
//! the gate is retired or closed and nobody is inside. A call on an entry, on a line inside or on
//! the keeper makes at most two steps on the word.
#![tactic(auto)]

mod entry;
mod gate;
mod keeper;
mod laws;
mod plays;
mod view;
mod word;

pub use entry::{Entered, Entry, Inside, Refusal};
pub use gate::{Gate, GateError, Right};
pub use keeper::{Keeper, Looked};
pub use laws::prove_gate_laws;
pub use view::{EntryWitness, KeeperWitness};
pub use word::{has_closed_flag, has_enabled_flag, has_moved_flag, inside_line_count, word_of};
