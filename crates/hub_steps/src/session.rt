//! Step lines that come one at a time, each answered before the next one is known.

ghost use Rattle.std.specs.Prelude.{◌≡◌, ◌⊎◌, [], Some, IfSome, OnErr, OnOk, false, is_some, true};
ghost use Rattle.hub_steps.specs.Session.{GoesOnFrom, HasRun, IsKindOf, RunsLine, RunsOn};
ghost use Rattle.hub_steps.specs.Session.{SaidIsTheText, Stays, TakesMemory, TakesMore, is_lost_by};
ghost use Rattle.hub_steps.specs.Session.{is_told, told};
ghost use Rattle.hub_steps.specs.StepLineKind.{step_kind_text};
ghost use Rattle.hub_steps.specs.Unfolding.{command_takes_memory, takes_at_most_one_step};
ghost use Rattle.hub_steps.specs.declared.session.Reply.TheVariants as reply;

use crate::perform::perform_step_line;
use crate::read_step_line::read_step_line;
use crate::run::StepRun;
use crate::shown::Shown;
use crate::step_line::{StepLine, StepLineError};
use hub_core::OutOfMemory;
use std::alloc::Global;

/// How a session answers a text line.
#[derive(Clone, Copy, Debug, PartialEq, Eq, Drop)]
pub enum Reply {
    /// The step line was run, and `Session::said` gives its outcome line.
    Ran,
    /// The step line was run, and its outcome line found no memory. `Session::said` gives it as
    /// soon as there is some.
    RanUntold,
    /// The text line is no step line, and `Session::said` names the first test that it fails.
    /// Nothing was run.
    Bad,
    /// Memory ran out before anything was changed. The text line may be given again.
    NoMemory,
    /// Memory ran out within the steps of a line, now or earlier, and some of them may have been
    /// taken. No line is run any more.
    Lost,
}

/// What the last text line was answered with that was run or bad.
pub enum Last {
    /// The outcome line that the run keeps; nothing before the first text line.
    Kept,
    /// What the step line shows, whose outcome line found no memory yet.
    Untold(Shown),
    /// The name of the first test that the text line fails.
    Bad(&'static str),
}

// By hand, as that of what is shown.
impl Drop for Last {
    fn drop(self) {
        match self {
            Last::Untold(shown) => drop(shown),
            Last::Kept | Last::Bad(_) => {}
        }
    }
}

/// A core and the lives of its agents, after the step lines so far.
///
/// ```rust
/// let mut session = Session::new(alloc);
/// session.run_line(b"agent -");
/// assert_eq!(rt; session.said(), Some("agent 0\n"));
/// ```
#[derive(Drop)]
pub struct Session {
    run: StepRun,
    last: Last,
    is_lost: bool,
}

impl Session {
    /// Nothing was run. It takes no memory.
    pub fn new(alloc: Global) -> Session
        ensures run { HasRun result [] [] }
        ensures said { told result ≡ [] }
        ensures lost { result.is_lost ≡ false }
    {
        Session {
            run: StepRun::new(alloc),
            last: Last::Kept,
            is_lost: false,
        }
    }

    /// Runs a text line, which comes without its LF.
    pub fn run_line(&mut self, alloc: Global, bytes: &[u8]) -> Reply
        ensures ran { (result ≡ reply.Ran) ⊎ (result ≡ reply.RanUntold)
            → RunsOn self.old self.new bytes.now }
        ensures bad { result ≡ reply.Bad
            → IsKindOf bytes.now (told self.new) × GoesOnFrom self.old self.new }
        ensures no_memory { result ≡ reply.NoMemory → Stays self.old self.new }
        ensures told { (result ≡ reply.Ran) ⊎ (result ≡ reply.Bad) → is_told self.new ≡ true }
        ensures untold { result ≡ reply.RanUntold → is_told self.new ≡ false }
        ensures wants { result ≡ reply.NoMemory → TakesMemory bytes.now }
        ensures lost { self.new.is_lost ≡ is_lost_by result }
        ensures loses { result ≡ reply.Lost → (self.old.is_lost ≡ true) ⊎ TakesMore bytes.now }
        ensures stays_lost { self.old.is_lost ≡ true
            → (result ≡ reply.Lost) × (self.new ≡ self.old) }
    {
        if self.is_lost {
            return Reply::Lost;
        }
        match read_step_line(alloc, bytes) {
            Ok(line) => self.run_and_keep_answer(alloc, line),
            Err(error) => self.keep_parse_error_and_reply(error),
        }
    }

    /// Runs a step line.
    fn run_and_keep_answer(&mut self, alloc: Global, line: StepLine) -> Reply
        requires { self.old.is_lost ≡ false }
        ensures ran { (result ≡ reply.Ran) ⊎ (result ≡ reply.RanUntold)
            → RunsLine self.old self.new line }
        ensures told { result ≡ reply.Ran → is_told self.new ≡ true }
        ensures untold { result ≡ reply.RanUntold → is_told self.new ≡ false }
        ensures good { result ≡ reply.Bad → ⊥ }
        ensures no_memory { result ≡ reply.NoMemory
            → Stays self.old self.new × (command_takes_memory line.command ≡ true) }
        ensures lost { self.new.is_lost ≡ is_lost_by result }
        ensures loses { result ≡ reply.Lost → (takes_at_most_one_step line.command ≡ false)
            × (command_takes_memory line.command ≡ true) }
    {
        let takes_at_most_one_step = line.command.takes_at_most_one_step();
        match perform_step_line(alloc, &mut self.run.core, &mut self.run.lives, line) {
            Ok(shown) => {
                self.last = Last::Untold(shown);
                match self.write_untold_outcome() {
                    Ok(()) => Reply::Ran,
                    Err(OutOfMemory) => Reply::RanUntold,
                }
            }
            Err(OutOfMemory) if takes_at_most_one_step => Reply::NoMemory,
            Err(OutOfMemory) => {
                self.is_lost = true;
                Reply::Lost
            }
        }
    }

    /// Answers a text line that is no step line, or that found no memory while it was read.
    fn keep_parse_error_and_reply(&mut self, error: StepLineError) -> Reply
        requires { self.old.is_lost ≡ false }
        ensures bad { result ≡ reply.Bad → (is_told self.new ≡ true)
            × (step_kind_text error ≡ Some (told self.new)) }
        ensures no_memory { result ≡ reply.NoMemory
            → (error ≡ StepLineError.OutOfMemory) × (told self.new ≡ told self.old) }
        ensures either { (result ≡ reply.Bad) ⊎ (result ≡ reply.NoMemory) }
        ensures run { self.new.run ≡ self.old.run }
        ensures lost { self.new.is_lost ≡ false }
    {
        match error.printed_kind() {
            Some(name) => {
                self.last = Last::Bad(name);
                Reply::Bad
            }
            None => Reply::NoMemory,
        }
    }

    /// Makes the outcome line that found no memory when its step line was run. An `Err` leaves
    /// it to be made later.
    pub fn write_untold_outcome(&mut self) -> Result<(), OutOfMemory>
        ensures ok { OnOk result (is_told self.new ≡ true) }
        ensures err { OnErr result ((is_told self.old ≡ false) × (is_told self.new ≡ false)) }
        ensures stays { Stays self.old self.new }
        ensures lost { self.new.is_lost ≡ self.old.is_lost }
    {
        if let Last::Untold(shown) = &self.last {
            self.run.kept.clear();
            self.run.keep_outcome_line(shown)?;
            self.last = Last::Kept;
        }
        Ok(())
    }

    /// What the last text line was answered with that was run or bad: an outcome line with its
    /// LF, or the name of the first test that a bad line fails. `None` where the outcome line
    /// found no memory yet: see `write_untold_outcome`.
    pub fn said(&self) -> Option<&[u8]>
        ensures said { IfSome result (λ text. text.now ≡ told self.now) }
        ensures exactly { is_some result ≡ is_told self.now }
    {
        match self.last {
            Last::Kept => Some(self.run.kept.as_slice()),
            Last::Untold(_) => None,
            Last::Bad(name) => Some(name.as_bytes()),
        }
    }
}

/// What a session says to the step lines that it runs is their one text, which `run_steps`
/// writes of an input that has them. The function does nothing; the law is its contract.
pub fn prove_session_matches_run_steps()
    ensures { SaidIsTheText }
{}
