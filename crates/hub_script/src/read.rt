//! The reader of a whole script.

ghost use Rattle.std.specs.Prelude.{◌≡◌, true, IfErr};
ghost use Rattle.std.specs.Str.{is_utf8};
ghost use Rattle.hub_script.specs.Answers.{IsScriptAnswer, ReadingTakesMemoryAt};
ghost use Rattle.hub_script.specs.Refusals.{IsExplained};
ghost use Rattle.hub_script.specs.Script.{after_line, script_of};
ghost use Rattle.hub_text.specs.Reading.{AreLinesReadAs};

use crate::error::ScriptError;
use crate::read_form::read_form;
use crate::script::Script;
use crate::script_reader::ScriptReader;
use hub_text::split_off_first_text_line;
use json::Scratch;
use std::alloc::Global;

impl Script {
    /// The script that the bytes spell.
    ///
    /// Text lines end at LF; the last LF may be missing, and no bytes at all are an empty script.
    /// An error comes with the number of its text line, from 1; of several bad ones the first
    /// counts, with the first test that it fails. Memory may run out at any line that is UTF-8.
    /// Time grows with the length of the text and the logarithm of the number of names.
    pub fn read(alloc: Global, text: &[u8]) -> Result<Script, (usize, ScriptError)>
        ensures reads { AreLinesReadAs ScriptError.OutOfMemory (λ script. script) result
            (script_of text.now) }
        // Each text line obeys the rules after those before it, or it is the first that doesn't.
        ensures cases { IsScriptAnswer text.now result }
        ensures memory { IfErr result
            (λ e. e.1 ≡ ScriptError.OutOfMemory → ReadingTakesMemoryAt text.now e.0) }
        // What the kind of a refusal means, in terms of its text line and of those before it.
        ensures refusals { IsExplained text.now result }
    {
        let mut reader = ScriptReader::new(alloc);
        // What reading a text line takes is kept for the next one.
        let mut scratch = Scratch::new(alloc);
        let mut number = 0;
        let mut rest = text;
        while !rest.is_empty() {
            let (line, after) = split_off_first_text_line(rest);
            number += 1;
            if let Err(error) = reader.add_line(alloc, &mut scratch, line) {
                return Err((number, error));
            }
            rest = after;
        }
        Ok(reader.into_script())
    }
}

impl ScriptReader {
    ghost use Rattle.hub_script.specs.Reader.{ReadsTo, known};

    fn add_line(
        &mut self,
        alloc: Global,
        scratch: &mut Scratch,
        line: &[u8],
    ) -> Result<(), ScriptError>
        ensures says { ReadsTo self.new result (after_line (known self.old) line.now) }
        ensures memory { IfErr result
            (λ e. e ≡ ScriptError.OutOfMemory → is_utf8 line.now ≡ true) }
    {
        let form = read_form(alloc, scratch, line)?;
        self.check_and_add_form(alloc, form)
    }
}
