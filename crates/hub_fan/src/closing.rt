//! What is left of a fan once it is closed.
ghost use Rattle.std.specs.Prelude.{◌<◌, ◌≤◌, length};
ghost use Rattle.hub_fan.specs.Fans.{Drained, IfHanded};

use crate::places::take_from_closed_place;
use hub_line::{LineTaken, LineTaker};

/// A fan that was closed: it hands back what was posted and not taken, up to the end of each line.
/// Dropped before that, it discards the rest.
#[derive(Drop)]
pub struct FanGrave<M> {
    pub(crate) lines: Vec<Option<LineTaker<M>>>,
    ghost few: { length lines.items ≤ 32 },
}

/// What is left of a fan once it is closed.
#[derive(Drop)]
pub struct ClosedFan<M> {
    pub grave: FanGrave<M>,
    /// The token that the fan had, or 0.
    pub token: u64,
}

/// What a closed fan hands back.
#[derive(Drop)]
pub enum FanDrained<M> {
    /// A message of the line of this number.
    Message(usize, M),
    /// The poster of some line has made no call since the fan was closed.
    Empty,
    /// Of each line, what was taken and what was handed back are all that was ever posted.
    Ended,
}

impl<M: Drop> FanGrave<M> {
    ghost use Rattle.std.specs.Prelude.{◌<◌};
    ghost use Rattle.hub_fan.specs.Fans.{Drained, IfHanded};

    /// Hands back the next message.
    pub fn take_leftover(&mut self) -> FanDrained<M>
        ensures drained { Drained result self.old.lines.items self.new.lines.items }
        ensures from { IfHanded (λ i. i < 32) result }
    {
        take_next_leftover(self.lines.as_mut_slice())
    }
}

fn take_next_leftover<M: Drop>(lines: &mut [Option<LineTaker<M>>]) -> FanDrained<M>
    ensures drained { Drained result lines.old lines.new }
    ensures from { IfHanded (λ i. i < length lines.old) result }
{
    let mut waiting = None;
    for line in 0..lines.len() {
        match take_from_closed_place(&mut lines[line]) {
            LineTaken::Item(message) => return FanDrained::Message(line, message),
            LineTaken::Empty => waiting = Some(line),
            LineTaken::Ended => {}
        }
    }
    if waiting.is_some() {
        FanDrained::Empty
    } else {
        FanDrained::Ended
    }
}
