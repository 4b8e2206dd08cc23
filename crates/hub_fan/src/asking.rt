//! How the lines of a fan are asked, in turn.
ghost use Rattle.std.specs.Prelude.{◌≡◌, ◌≢◌, ◌<◌, ◌≤◌, length, slice_get, ℕ, None, Some};
ghost use Rattle.hub_fan.specs.Fans.{IfEnded, IfFrom, TookFrom, TookInTurn, with_ended};
ghost use Rattle.hub_fan.specs.Turns.{turn_stage};
ghost use Rattle.hub_fan.specs.declared.fan.FanTaken.TheVariants.{Disabled};

use crate::fan::FanTaken;
use crate::hints::Hints;
use crate::places::take_from;
use hub_line::{LineTaken, LineTaker};

/// How many stages there are.
const STAGES: usize = 4;

/// The stage at which a line is asked: those that are ready come first.
#[inline]
fn stage_of_line(next: usize, ready: u64, line: usize) -> usize
    requires { line < 64 }
    ensures { result ≡ turn_stage next ready line }
{
    let turn = if next <= line { 0 } else { 1 };
    if (ready >> line) % 2 == 1 {
        turn
    } else {
        2 + turn
    }
}

/// The lines among which those of a stage are.
#[inline]
fn line_range_of_stage(next: usize, count: usize, stage: usize) -> (usize, usize)
    ensures within { result.1 ≤ count }
    ensures all { (ready line : ℕ) → line < count → turn_stage next ready line ≡ stage →
        (result.0 ≤ line) × (line < result.1) }
{
    if stage % 2 == 0 {
        (next, count)
    } else {
        (0, next.min(count))
    }
}

/// Asks the lines of one stage.
#[inline(always)]
fn take_from_lines_of_stage<M: Drop>(
    lines: &mut [Option<LineTaker<M>>],
    next: usize,
    ready: u64,
    stage: usize,
    hints: &mut Hints,
) -> FanTaken<M>
    requires { length lines.old < 64 }
    ensures took { TookFrom (λ j. turn_stage next ready j
        ≡ stage) (λ i j. (turn_stage next ready j ≡ stage) × (j < i)) result lines.old lines.new }
    ensures from { IfFrom (λ i. (turn_stage next ready i ≡ stage) × (i < length lines.old)) result }
    ensures some { result ≢ Disabled }
{
    let (from, to) = line_range_of_stage(next, lines.len(), stage);
    for line in from..to {
        if stage_of_line(next, ready, line) == stage {
            match take_from(&mut lines[line]) {
                LineTaken::Item(message) => return FanTaken::Message(line, message),
                LineTaken::Ended => return FanTaken::Ended(line),
                LineTaken::Empty => hints.record_empty_line(line),
            }
        }
    }
    FanTaken::Empty
}

/// Asks the lines in turn, from this one on, those that are ready first. It stops at the first that
/// gives something.
#[inline(always)]
fn take_one_asking_ready_lines_first<M: Drop>(
    lines: &mut [Option<LineTaker<M>>],
    next: usize,
    ready: u64,
    hints: &mut Hints,
) -> FanTaken<M>
    requires { length lines.old < 64 }
    ensures took { TookInTurn next ready result lines.old lines.new }
    ensures from { IfFrom (λ i. i < length lines.old) result }
    ensures some { result ≢ Disabled }
{
    for stage in 0..STAGES {
        match take_from_lines_of_stage(lines, next, ready, stage, hints) {
            FanTaken::Empty => {}
            given => return given,
        }
    }
    FanTaken::Empty
}

/// Asks the lines in turn, and takes a line that has ended out of its place.
#[inline(always)]
pub(crate) fn take_in_turn<M: Drop>(
    lines: &mut [Option<LineTaker<M>>],
    next: usize,
    ready: u64,
    hints: &mut Hints,
) -> (FanTaken<M>, Option<LineTaker<M>>)
    requires { length lines.old < 64 }
    ensures took { TookInTurn next ready result.0
        lines.old (with_ended result.0 result.1 lines.new) }
    ensures length { length lines.new ≡ length lines.old }
    ensures free { IfEnded (λ i. slice_get lines.new i ≡ Some None) result.0 }
    ensures from { IfFrom (λ i. i < length lines.old) result.0 }
    ensures some { result.0 ≢ Disabled }
{
    let taken = take_one_asking_ready_lines_first(lines, next, ready, hints);
    let ended = match &taken {
        FanTaken::Ended(line) => lines[*line].take(),
        _ => None,
    };
    (taken, ended)
}
