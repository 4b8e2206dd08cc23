//! The places of a fan: each has a line, or is free.
ghost use Rattle.std.specs.Prelude.{IsFalse, IsTrue};
ghost use Rattle.hub_fan.specs.Places.{Answers, GivesNone, HandsBack, Keeps, Shows, Shuts};
ghost use Rattle.hub_fan.specs.Fans.{EachPlace, SomeShows};

use hub_line::{LineTaken, LineTaker};

/// Asks a place for its next message.
#[inline(always)]
pub(crate) fn take_from<M: Drop>(place: &mut Option<LineTaker<M>>) -> LineTaken<M>
    ensures { Answers result place.old place.new }
{
    match place {
        Some(line) => line.take(),
        None => LineTaken::Empty,
    }
}

/// Asks a place of a closed fan for its next message.
pub(crate) fn take_from_closed_place<M: Drop>(place: &mut Option<LineTaker<M>>) -> LineTaken<M>
    ensures { HandsBack result place.old place.new }
{
    match place {
        Some(line) => line.take(),
        None => LineTaken::Ended,
    }
}

/// Whether a place has something to take: a message, or the end of its line.
pub(crate) fn place_has_item_or_end<M: Drop>(place: &mut Option<LineTaker<M>>) -> bool
    ensures same { Keeps place.old place.new }
    ensures some { IsTrue result → Shows place.old place.new }
    ensures none { IsFalse result → GivesNone place.old place.new }
{
    match place {
        Some(line) => line.has_item_or_end(),
        None => false,
    }
}

/// Closes the line of a place.
pub(crate) fn close_line_at_place<M: Drop>(place: &mut Option<LineTaker<M>>)
    ensures { Shuts place.old place.new }
{
    if let Some(line) = place {
        line.close_and_keep_taking();
    }
}

/// Whether some line has something to take.
pub(crate) fn any_place_has_item_or_end<M: Drop>(lines: &mut [Option<LineTaker<M>>]) -> bool
    ensures same { EachPlace Keeps lines.old lines.new }
    ensures some { IsTrue result → SomeShows lines.old lines.new }
    ensures none { IsFalse result → EachPlace GivesNone lines.old lines.new }
{
    for line in lines.iter_mut() {
        if place_has_item_or_end(line) {
            return true;
        }
    }
    false
}

/// Closes all lines.
pub(crate) fn close_all_lines<M: Drop>(lines: &mut [Option<LineTaker<M>>])
    ensures { EachPlace Shuts lines.old lines.new }
{
    for line in lines.iter_mut() {
        close_line_at_place(line);
    }
}
