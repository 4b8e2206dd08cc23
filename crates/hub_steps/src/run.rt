//! The step lines of an input, run one after another, whose outcome lines are held back.

ghost use Rattle.std.specs.Prelude.{◌≡◌, ◌++◌, ◌+◌, ◌≤◌, ◌⊎◌, ℕ, List, [], Option, Ok, Err, IfOk};
ghost use Rattle.std.specs.Prelude.{IfErr, OnOk, OnErr, length};
ghost use Rattle.hub_core.specs.declared.machine.Core.{Core as TheCore};
ghost use Rattle.hub_engine.specs.Counted.{inner_writer, failed_writes, flushes_made};
ghost use Rattle.hub_engine.specs.Engine.{Writes};
ghost use Rattle.hub_engine.specs.Failures.{CountsFailure, CountsFlush};
ghost use Rattle.hub_text.specs.TextLines.{text_lines_of};
ghost use Rattle.hub_steps.specs.Lives.{AllLives};
ghost use Rattle.hub_steps.specs.Unfolding.{lives_after};
ghost use Rattle.hub_steps.specs.Output.{IsRunOutput};
ghost use Rattle.hub_steps.specs.Performed.{PerformsAt};
ghost use Rattle.hub_steps.specs.ShownText.{shown_line};
ghost use Rattle.hub_steps.specs.Steps.{steps_from, steps_of};
ghost use Rattle.hub_steps.specs.UnderWay.{AreRun, AreLinesTold, IsHeld};
ghost use Rattle.hub_steps.specs.declared.shown.Shown.{Shown as WhatIsShown};
ghost use Rattle.hub_steps.specs.declared.step_line.StepLine.{StepLine as Line};

use crate::lives::Lives;
use crate::perform::perform_step_line;
use crate::read_step_line::read_step_line;
use crate::short_text::{SHORT, write_shown_if_post_or_short_delivery};
use crate::shown::Shown;
use crate::step_line::{StepLine, StepLineError};
use crate::text::write_shown_outcome_line;
use hub_core::{Core, OutOfMemory};
use hub_engine::{
    CountedWriter, Device, ExitStatus, PIECE, write_and_clear_kept, write_out_of_memory,
};
use hub_text::split_off_first_text_line;
use std::alloc::Global;
use std::io::Write;

/// How many bytes of outcome lines are held back, at most, with the last line of them, before the
/// text lines that are left are tested.
const MAX_HELD: usize = 134_217_728;

/// A run of step lines: the core and the lives after those so far, and their outcome lines, as far
/// as they are kept.
pub struct StepRun {
    pub core: Core,
    pub lives: Lives,
    /// The last outcome line that didn't fit into an array. Its memory is used again.
    text: String,
    pub kept: Vec<u8>,
}

// By hand, so that whoever drops one makes one call, and its proof has no cases of its fields.
impl Drop for StepRun {
    fn drop(self) {
        let StepRun {
            core,
            lives,
            text,
            kept,
        } = self;
        drop(core);
        drop(lives);
        drop(text);
        drop(kept);
    }
}

/// The first step lines of an input were run, and none of their outcome lines is written.
#[derive(Drop)]
pub struct HeldBack<'a> {
    pub run: StepRun,
    /// How many text lines were run.
    pub number: usize,
    /// The text lines that are left.
    pub rest: &'a [u8],
    /// Memory ran out at the first step line that is left, where it's false: the run can't go on.
    pub has_memory: bool,
}

/// Runs the step lines of an input, and holds their outcome lines back, since those of an input in
/// which a bad text line comes later are never written. It stops where `MAX_HELD` bytes are kept,
/// and where memory runs out at a step line. An error is that of the first bad text line, by its
/// number from 1.
pub fn run_step_lines_holding_output_back<'a>(
    alloc: Global,
    input: &'a [u8],
) -> Result<HeldBack<'a>, (usize, StepLineError)>
    ensures held { IfOk result (λ held. IsHeld input.now held) }
    ensures room { IfOk result (λ held. held.number + length held.rest.now ≤ length input.now) }
    ensures err { IfErr result (λ e. (e.1 ≡ StepLineError.OutOfMemory)
        ⊎ (steps_of input.now ≡ Err e)) }
{
    let mut run = StepRun::new(alloc);
    let mut number = 0;
    let mut rest = input;
    while !rest.is_empty() && run.kept.len() < MAX_HELD {
        let (bytes, after) = split_off_first_text_line(rest);
        let line = match read_step_line(alloc, bytes) {
            Ok(line) => line,
            Err(error) => return Err((number + 1, error)),
        };
        if run.run_step_line_and_keep_outcome(alloc, line).is_err() {
            return Ok(HeldBack {
                run,
                number,
                rest,
                has_memory: false,
            });
        }
        number += 1;
        rest = after;
    }
    Ok(HeldBack {
        run,
        number,
        rest,
        has_memory: true,
    })
}

impl StepRun {
    /// A run before its first step line.
    pub fn new(alloc: Global) -> StepRun
        ensures { AreRun result.core result.lives result.kept.items [] }
    {
        StepRun {
            core: Core::new(alloc),
            lives: Lives::new(alloc),
            text: String::new(alloc),
            kept: Vec::new(alloc),
        }
    }

    /// Runs a step line, and keeps its outcome line, which is written to an array or to `text`
    /// first. An `Err` keeps nothing.
    // It is inlined, since a call copies the step line.
    #[inline(always)]
    fn run_step_line_and_keep_outcome(
        &mut self,
        alloc: Global,
        line: StepLine,
    ) -> Result<(), OutOfMemory>
        ensures ok { OnOk result ((shown : WhatIsShown)
            × PerformsAt self.old.core self.new.core self.old.lives line shown
            × (self.new.lives ≡ lives_after line.command shown self.old.lives)
            × (self.new.kept.items ≡ self.old.kept.items ++ shown_line shown)) }
        ensures err { OnErr result (self.new.kept.items ≡ self.old.kept.items) }
    {
        let shown = perform_step_line(alloc, &mut self.core, &mut self.lives, line)?;
        self.keep_outcome_line(&shown)
    }

    /// Keeps the outcome line of what a step line shows. An `Err` keeps nothing.
    #[inline(always)]
    pub fn keep_outcome_line(&mut self, shown: &Shown) -> Result<(), OutOfMemory>
        ensures ok { OnOk result
            (self.new.kept.items ≡ self.old.kept.items ++ shown_line shown.now) }
        ensures err { OnErr result (self.new.kept.items ≡ self.old.kept.items) }
        ensures core { self.new.core ≡ self.old.core }
        ensures lives { self.new.lives ≡ self.old.lives }
    {
        let mut bytes = [0; SHORT];
        if let Some(start) = write_shown_if_post_or_short_delivery(shown, &mut bytes) {
            self.kept.extend_from_slice(&bytes[start..])?;
            return Ok(());
        }
        self.text.clear();
        write_shown_outcome_line(&mut self.text, shown)?;
        self.kept.extend_from_slice(self.text.as_bytes())?;
        Ok(())
    }

    /// Runs the step lines that are left, which were tested, and writes the outcome lines of all.
    pub fn run_remaining_step_lines_and_write_all<W: Write>(
        &mut self,
        alloc: Global,
        rest: &[u8],
        writer: &mut CountedWriter<W>,
    ) -> Result<ExitStatus, Device>
        ensures written { (front back : List Line) → (n : ℕ)
            → AreRun self.old.core self.old.lives self.old.kept.items front
            → steps_from n (text_lines_of rest.now) ≡ Ok back
            → Writes (IsRunOutput (front ++ back)) (W.contents (inner_writer writer.old))
            (W.contents (inner_writer writer.new)) result }
        ensures failures { CountsFailure result (failed_writes writer.old)
            (failed_writes writer.new) }
        ensures flushed { CountsFlush result (flushes_made writer.old)
            (flushes_made writer.new) }
    {
        let mut rest = rest;
        while !rest.is_empty() {
            let (bytes, after) = split_off_first_text_line(rest);
            let Ok(line) = read_step_line(alloc, bytes) else {
                return self.finish_output_out_of_memory(writer);
            };
            if self.run_step_line_and_keep_outcome(alloc, line).is_err() {
                return self.finish_output_out_of_memory(writer);
            }
            rest = after;
            if self.kept.len() >= PIECE {
                write_and_clear_kept(writer, &mut self.kept)?;
            }
        }
        write_and_clear_kept(writer, &mut self.kept)?;
        writer.flush()?;
        Ok(ExitStatus::Success)
    }

    /// Ends where memory ran out: the outcome lines so far are followed by `out of memory`.
    pub fn finish_output_out_of_memory<W: Write>(
        &mut self,
        writer: &mut CountedWriter<W>,
    ) -> Result<ExitStatus, Device>
        ensures written { (old : Option (List ℕ)) → (core : TheCore) → (lives : AllLives)
            → (front back : List Line)
            → AreLinesTold old (W.contents (inner_writer writer.old)) core lives self.old.kept.items
            front
            → Writes (IsRunOutput (front ++ back)) old (W.contents (inner_writer writer.new))
            result }
        ensures failures { CountsFailure result (failed_writes writer.old)
            (failed_writes writer.new) }
        ensures flushed { CountsFlush result (flushes_made writer.old)
            (flushes_made writer.new) }
    {
        write_and_clear_kept(writer, &mut self.kept)?;
        write_out_of_memory(writer)
    }
}
