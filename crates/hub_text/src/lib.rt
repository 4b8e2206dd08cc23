//! What the hub's text formats share: an input cut into text lines, a text line into words, numbers
//! in decimal, and lists of ends.
//!
//! A text line is what stands between two LFs of an input: a step line, a log
//! line, a line of a script.
#![tactic(auto)]

mod end_list;
mod words;

pub use end_list::{EndListText, read_ends};
pub use words::{number_of, split_off_first_text_line, split_once_at_byte, split_word};
