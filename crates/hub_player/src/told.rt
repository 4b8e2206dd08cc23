//! What is printed of the lines that were played.

use crate::player::Stop;
use hub_steps::{Shown, write_shown_outcome_line};
use std::alloc::Global;

/// The outcome lines so far, with the played lines above them where these are shown too.
#[derive(Drop)]
pub(crate) struct Told {
    alloc: Global,
    pub(crate) lines: Vec<u8>,
    /// The last outcome. Its memory is used again.
    text: String,
    /// Turns are made, and each played line is shown above its outcome.
    pub(crate) has_turns: bool,
}

impl Told {
    pub(crate) fn new(alloc: Global, has_turns: bool) -> Told {
        Told {
            alloc,
            lines: Vec::new(alloc),
            text: String::new(alloc),
            has_turns,
        }
    }

    /// Adds an outcome line. Where there is no memory it adds nothing.
    fn add(&mut self, shown: &Shown) -> bool {
        self.text.clear();
        write_shown_outcome_line(&mut self.text, shown).is_ok()
            && self.lines.extend_from_slice(self.text.as_bytes()).is_ok()
    }

    /// Tells what a line that was played has shown.
    pub(crate) fn tell(&mut self, line: &[u8], shown: &Shown) -> Result<(), Stop> {
        if self.has_turns {
            self.tell_text("> ".as_bytes())?;
            self.tell_text(line)?;
            self.tell_text("\n".as_bytes())?;
        }
        if self.add(shown) || self.add(shown) {
            Ok(())
        } else {
            Err(Stop::OutOfMemory)
        }
    }

    /// Where there is no memory it asks once more, since a turn was made.
    fn tell_text(&mut self, text: &[u8]) -> Result<(), Stop> {
        if self.lines.extend_from_slice(text).is_ok()
            || self.lines.extend_from_slice(text).is_ok()
        {
            Ok(())
        } else {
            Err(Stop::OutOfMemory)
        }
    }

    /// Tells a line that a turn has played, with a number, and maybe a mark and one more number.
    pub(crate) fn tell_made(
        &mut self,
        word: &str,
        number: u32,
        other: Option<(&str, u8)>,
        shown: &Shown,
    ) -> Result<(), Stop> {
        let line = numbered(self.alloc, word, number, other)?;
        self.tell(line.as_bytes(), shown)
    }

    /// Tells in such a line what is no step line.
    pub(crate) fn tell_numbers(
        &mut self,
        word: &str,
        number: u32,
        other: Option<(&str, u8)>,
    ) -> Result<(), Stop> {
        let line = numbered(self.alloc, word, number, other)?;
        self.tell_text(line.as_bytes())?;
        self.tell_text("\n".as_bytes())
    }

    /// Tells a whole line that is no step line.
    pub(crate) fn tell_word(&mut self, line: &str) -> Result<(), Stop> {
        self.tell_text(line.as_bytes())
    }

    /// Tells that a turn has delivered nothing, and whether somebody was inside.
    pub(crate) fn tell_idle(&mut self, busy: bool) -> Result<(), Stop> {
        self.tell_word(if busy { "busy\n" } else { "idle\n" })
    }
}

fn try_numbered(
    alloc: Global,
    word: &str,
    number: u32,
    other: Option<(&str, u8)>,
) -> Option<String> {
    match other {
        Some((mark, other)) => format!(in alloc; "{word} {number}{mark}{other}").ok(),
        None => format!(in alloc; "{word} {number}").ok(),
    }
}

/// A word with a number, and maybe a mark and one more number. Where there is no memory it asks
/// once more.
fn numbered(
    alloc: Global,
    word: &str,
    number: u32,
    other: Option<(&str, u8)>,
) -> Result<String, Stop> {
    match try_numbered(alloc, word, number, other) {
        Some(text) => Ok(text),
        None => try_numbered(alloc, word, number, other).ok_or(Stop::OutOfMemory),
    }
}
