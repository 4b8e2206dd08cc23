//! What the core keeps of a line.

ghost use Rattle.std.specs.Prelude.{◌≡◌, replicate, not, is_some, option_map, IfOk};
ghost use Rattle.std.specs.Prelude.{slice_get, slice_set};
ghost use Rattle.std.specs.List.{position};
ghost use Rattle.hub_core.specs.Kept.{first_line, first_free, is_anyone_at, is_anyone_from};

use hub_envelope::{AgentId, LineId, MAX_LINES, OutOfMemory};
use std::alloc::Global;
use std::marker::Model;

/// Where a line's poster is.
#[derive(Clone, Copy, PartialEq, Eq)]
pub enum Phase {
    Out,
    Inside,
    /// The poster found a flag at the gate and hasn't left yet.
    Turned,
}

/// What the core keeps of a line.
#[derive(Clone, Copy)]
pub struct Line {
    pub phase: Phase,
    /// The queue of the end at which the line stands.
    pub epoch: u32,
    /// How many envelopes the line has put in that queue.
    pub put: u64,
    /// Whether a notice was put, which is the last of the line.
    pub has_noticed: bool,
    /// The agent that holds the line of a client's or worker's queue.
    pub held_by: Option<AgentId>,
}

impl Line {
    /// A line at the first queue, which has put nothing.
    pub(crate) const FIRST: Line = Line {
        phase: Phase::Out,
        epoch: 0,
        put: 0,
        has_noticed: false,
        held_by: None,
    };
}

/// The lines of an end, by number.
#[derive(Drop)]
pub struct Lines {
    lines: Vec<Line>,
}

impl Model for Lines {
    ghost use Rattle.std.specs.Prelude.{List};
    ghost use Rattle.hub_core.specs.declared.line.Line.{Line};

    ghost Value = { List Line };

    ghost view = { λ l. l.lines.items };
}

impl Lines {
    /// So many lines that have put nothing.
    pub(crate) fn with_line_count(alloc: Global, count: usize) -> Result<Lines, OutOfMemory>
        ensures { IfOk result (λ lines. lines ≡ replicate count first_line) }
    {
        let mut lines = Vec::new(alloc);
        lines.resize(count, Line::FIRST)?;
        Ok(Lines { lines })
    }

    pub(crate) fn get(&self, line: LineId) -> Option<Line>
        ensures { result ≡ slice_get self.now line.0 }
    {
        self.lines.get(line.0 as usize).copied()
    }

    /// Whether the poster of some line is inside or being turned back at a queue.
    pub(crate) fn has_poster_at_queue(&self, epoch: u32) -> bool
        ensures { result ≡ is_anyone_at epoch self.now }
    {
        self.lines
            .iter()
            .any(|line| line.phase != Phase::Out && line.epoch == epoch)
    }

    /// Whether the poster of some line is inside or being turned back at a queue from this one on.
    pub(crate) fn has_poster_at_queue_or_later(&self, epoch: u64) -> bool
        ensures { result ≡ is_anyone_from epoch self.now }
    {
        self.lines.iter().any(|line| line.phase != Phase::Out && u64::from(line.epoch) >= epoch)
    }

    /// The first line that no agent holds.
    pub(crate) fn first_free(&self) -> Option<LineId>
        ensures { option_map (λ l. l.0) result ≡ first_free self.now }
    {
        match self.first_free_position() {
            Some(position) if position < MAX_LINES => Some(LineId(position as u8)),
            _ => None,
        }
    }

    fn first_free_position(&self) -> Option<usize>
        ensures { result ≡ position (λ y. not (is_some y.held_by)) self.now }
    {
        self.lines.iter().position(|line| line.held_by.is_none())
    }

    /// Changes a line. A line that isn't there stays away.
    pub(crate) fn set(&mut self, line: LineId, value: Line)
        ensures { self.new ≡ slice_set self.old line.0 value }
    {
        if let Some(kept) = self.lines.get_mut(line.0 as usize) {
            *kept = value;
        }
    }
}
