//! Up to 32 lines at one taker, and what posts over each.
ghost use Rattle.std.specs.Prelude.{◌≡◌, ◌≢◌, ◌<◌, ◌≤◌, ◌+◌, ℕ, length, max, slice_get, OnErr};
ghost use Rattle.std.specs.Prelude.{OnOk};
ghost use Rattle.hub_fan.specs.Fans.{IsFree, IsInUse};

use crate::OutOfMemory;
use crate::asking::take_in_turn;
use crate::closing::{ClosedFan, FanGrave};
use crate::hints::{FanWords, Hints, bit_of_line};
use crate::places::{any_place_has_item_or_end, close_all_lines};
use hub_channel::Armed;
use hub_line::{LinePoster, LineTaker, NotPosted, open_line};
use std::alloc::Global;
use std::sync::Arc;

/// How many lines a fan may have.
const FAN_LINES: usize = 32;

/// Why a line was not opened.
#[derive(Clone, Copy, Debug, PartialEq, Eq, Drop)]
pub enum NotOpened {
    /// The fan has 32 lines.
    Full,
    OutOfMemory,
}

/// Up to 32 lines at one taker.
#[derive(Drop)]
pub struct Fan<M> {
    // `None` is a place that is free.
    pub(crate) lines: Vec<Option<LineTaker<M>>>,
    // The line behind the last one that gave a message.
    pub(crate) next: usize,
    // The line that the last take has ended, which shows that all was taken of it.
    pub(crate) ended: Option<LineTaker<M>>,
    pub(crate) is_started: bool,
    hints: Hints,
    alloc: Global,
    ghost few: { length lines.items ≤ 32 },
}

/// What a take of a fan comes to.
#[derive(Drop)]
pub enum FanTaken<M> {
    /// The line of this number gave a message.
    Message(usize, M),
    /// Each line was asked, and gave nothing.
    Empty,
    /// The line of this number has ended, and all that was posted there was taken: it is free.
    Ended(usize),
    /// The fan isn't started.
    Disabled,
}

/// Posts over one line of a fan. Dropped, it ends the line and wakes nobody.
#[derive(Drop)]
pub struct FanPoster<M> {
    pub(crate) to: LinePoster<M>,
    pub(crate) bit: u64,
    pub(crate) words: Arc<FanWords>,
}

/// The first place that is free; where none is, the one behind the last.
fn first_free_or_new_place<M: Drop>(lines: &[Option<LineTaker<M>>]) -> usize
    ensures most { result ≤ length lines.now }
    ensures free { IsFree (slice_get lines.now result) }
    ensures least { (j : ℕ) → j < result → IsInUse (slice_get lines.now j) }
{
    for line in 0..lines.len() {
        if lines[line].is_none() {
            return line;
        }
    }
    lines.len()
}

/// Puts a line into a place, or into a new one behind the last.
fn put_line_in_place<M: Drop>(
    lines: &mut Vec<Option<LineTaker<M>>>,
    line: usize,
    taker: LineTaker<M>,
) -> Result<(), OutOfMemory>
    requires { line ≤ length lines.old.items }
    ensures here { OnOk result (slice_get lines.new.items line ≡ Some (Some taker)) }
    ensures beside { (j : ℕ) → j ≢ line →
        slice_get lines.new.items j ≡ slice_get lines.old.items j }
    ensures most { length lines.new.items ≤ max (length lines.old.items) (line + 1) }
    ensures refused { OnErr result (lines.new.items ≡ lines.old.items) }
{
    if line < lines.len() {
        lines[line] = Some(taker);
    } else {
        lines.push(Some(taker))?;
    }
    Ok(())
}

impl<M: Drop> Fan<M> {
    ghost use Rattle.std.specs.Prelude.{◌≡◌, ◌<◌, ◌↔◌, ℕ, [], Some, None, true, false, slice_get};
    ghost use Rattle.std.specs.Prelude.{IfOk, OnErr, IsErrOf};
    ghost use Rattle.hub_fan.specs.Fans.{EachPlace, IfEnded, IfFrom, IsFree, IsInUse, Opens};
    ghost use Rattle.hub_fan.specs.Fans.{SomeShows, TookInTurn, next_after, with_ended};
    ghost use Rattle.hub_fan.specs.Places.{GivesNone, Keeps, Shuts};
    ghost use Rattle.hub_fan.specs.declared.fan.FanTaken.TheVariants.{Disabled};
    ghost use Rattle.hub_fan.specs.declared.fan.NotOpened.TheVariants.{Full};

    /// A fan with no line, which isn't started.
    pub fn open_empty(alloc: Global) -> Result<Fan<M>, OutOfMemory>
        ensures { IfOk result (λ fan. (fan.lines.items ≡ []) × (fan.is_started ≡ false)) }
    {
        Ok(Fan {
            lines: Vec::new(alloc),
            next: 0,
            ended: None,
            is_started: false,
            hints: Hints::new(FanWords::new_shared(alloc)?),
            alloc,
        })
    }

    /// Opens a line in the lowest place that is free: its number, and its poster. After an error
    /// the fan is as it was.
    pub fn open_line(&mut self) -> Result<(usize, FanPoster<M>), NotOpened>
        ensures opened { IfOk result (λ r. (r.0 < 32)
            × Opens r.0 r.1.to self.old.lines.items self.new.lines.items) }
        ensures least { IfOk result (λ r. (j : ℕ) → j < r.0 →
            IsInUse (slice_get self.old.lines.items j)) }
        ensures full { IsErrOf result Full → (j : ℕ) → j < 32 →
            IsInUse (slice_get self.old.lines.items j) }
        ensures refused { OnErr result (self.new.lines.items ≡ self.old.lines.items) }
        ensures others { (self.new.next ≡ self.old.next)
            × (self.new.is_started ≡ self.old.is_started) }
    {
        let line = first_free_or_new_place(self.lines.as_slice());
        if line >= FAN_LINES {
            return Err(NotOpened::Full);
        }
        let Ok((to, taker)) = open_line(self.alloc) else {
            return Err(NotOpened::OutOfMemory);
        };
        let Ok(words) = Arc::try_clone(&self.hints.words) else {
            return Err(NotOpened::OutOfMemory);
        };
        if put_line_in_place(&mut self.lines, line, taker).is_err() {
            return Err(NotOpened::OutOfMemory);
        }
        let bit = bit_of_line(line);
        Ok((line, FanPoster { to, bit, words }))
    }

    /// Messages may be taken from now on.
    pub fn start(&mut self)
        ensures started { self.new.is_started ≡ true }
        ensures same { (self.new.lines ≡ self.old.lines) × (self.new.next ≡ self.old.next) }
    {
        self.is_started = true;
    }

    /// Takes the next message, where the fan is started. The lines are asked in turn, from behind
    /// the last one that gave a message; first those whose posters have set their bits, and then
    /// the others. So `Empty` comes only where each line was asked in this call and gave nothing.
    #[inline(always)]
    pub fn take(&mut self) -> FanTaken<M>
        ensures took { (ready : ℕ) × TookInTurn self.old.next ready result
            self.old.lines.items (with_ended result self.new.ended self.new.lines.items) }
        ensures free { IfEnded (λ i. slice_get self.new.lines.items i ≡ Some None) result }
        ensures next { self.new.next ≡ next_after result self.old.next }
        ensures disabled { (result ≡ Disabled) ↔ (self.old.is_started ≡ false) }
        ensures from { IfFrom (λ i. i < 32) result }
        ensures others { self.new.is_started ≡ self.old.is_started }
    {
        if !self.is_started {
            return FanTaken::Disabled;
        }
        let ready = self.hints.ready_lines();
        let lines = self.lines.as_mut_slice();
        let (taken, ended) = take_in_turn(lines, self.next, ready, &mut self.hints);
        self.ended = ended;
        if let FanTaken::Message(line, _) = &taken {
            self.next = *line + 1;
        }
        taken
    }

    /// Says by its token whom to wake for the fan, and looks into each line then.
    pub fn arm(&mut self, token: u64) -> Armed
        ensures same { EachPlace Keeps self.old.lines.items self.new.lines.items }
        ensures some { result.waits ≡ true → SomeShows self.old.lines.items self.new.lines.items }
        ensures none { result.waits ≡ false →
            EachPlace GivesNone self.old.lines.items self.new.lines.items }
        ensures others { (self.new.next ≡ self.old.next)
            × (self.new.is_started ≡ self.old.is_started) }
    {
        let old = self.hints.words.replace_token(token);
        self.hints.gather();
        let waits = any_place_has_item_or_end(self.lines.as_mut_slice());
        Armed { token: old, waits }
    }

    /// Closes the fan: the posts of each poster are refused from its next call on. What it has
    /// posted until then is handed back by the grave.
    pub fn close(self) -> ClosedFan<M>
        ensures { EachPlace Shuts self.lines.items result.grave.lines.items }
    {
        let Fan {
            mut lines,
            next: _,
            ended: _,
            is_started: _,
            hints,
            alloc: _,
        } = self;
        close_all_lines(lines.as_mut_slice());
        ClosedFan {
            grave: FanGrave { lines },
            token: hints.words.take_wake_token(),
        }
    }
}

impl<M: Drop> FanPoster<M> {
    ghost use Rattle.std.specs.Prelude.{◌≡◌, ◌↔◌, [], ◌∷◌, ◌++◌, OnOk, IfErr};
    ghost use Rattle.hub_line.specs.Ends.{posted, IsOver, SamePoster};
    ghost use Rattle.hub_line.specs.declared.poster.NotPosted.TheVariants.{Closed};

    /// Posts a message, and answers whom to wake for it, or 0. After an error nothing was posted,
    /// and the message comes back.
    #[inline(always)]
    pub fn post(&mut self, message: M) -> Result<u64, (NotPosted, M)>
        ensures line { SamePoster self.old.to self.new.to }
        ensures posted { OnOk result (posted self.new.to ≡ posted self.old.to ++ message ∷ []) }
        ensures refused { IfErr result (λ e. (e.1 ≡ message)
            × (posted self.new.to ≡ posted self.old.to)) }
        ensures closed { IfErr result (λ e. (e.0 ≡ Closed) ↔ IsOver self.new.to) }
    {
        self.to.post(message)?;
        Ok(self.words.set_bit_and_take_token(self.bit))
    }

    /// Gives the line back: the taker is told its end behind all that was posted. It answers whom
    /// to wake, or 0.
    pub fn close(self) -> u64 {
        let FanPoster { to, bit, words } = self;
        drop(to);
        words.set_bit_and_take_token(bit)
    }
}
