//! What the crates of tests share: bells, bodies and drafts, posts, whether an envelope is the
//! right one, takes, and loops whose handlers keep what is delivered. What is made is made again
//! where an allocation was refused, since the next one has the memory.
#![tactic(auto)]

mod note;
mod posting;
mod taking;

pub use note::{Delivered, Loop, Note, open_loop};
pub use posting::{Posting, bell, body, draft, is_message, post, post_with};
pub use taking::{Takes, release_port, take, turn};
