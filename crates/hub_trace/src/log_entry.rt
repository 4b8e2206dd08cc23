ghost use Rattle.std.specs.Prelude.{Some, ◌≡◌, ◌↔◌, IsTrue};
ghost use Rattle.hub_trace.specs.Text.{delivery_text, entry_text};
ghost use Rattle.hub_trace.specs.declared.log_version.LogVersion.TheVariants.{Third};
ghost use Rattle.hub_trace.specs.Limits.{IsPostedWithin};
ghost use Rattle.hub_trace.specs.Fault.{is_name_of};
ghost use Rattle.hub_trace.specs.Views.{is_before, is_after};

use crate::content::Content;
use crate::limits::{MAX_END, MAX_EPOCH, MAX_LINE, MAX_NUMBER};
use hub_envelope::{EndId, LineId, Posted};
use std::fmt;

/// What a log says of one envelope or notice.
#[derive(Debug, Drop)]
pub struct Delivery {
    pub posted: Posted,
    pub content: Content,
}

/// An entry of a log.
#[derive(Debug, Drop)]
pub enum LogEntry {
    /// A post of the agent was accepted, or the agent put a notice.
    Put(Delivery),
    /// The agent took an envelope or a notice.
    Got(Delivery),
    /// The agent adopted an end. From here on the log speaks of the end's queue of that epoch.
    Adopted { end: EndId, epoch: u32 },
    /// The agent closed an end.
    Closed { end: EndId },
}

/// The log line of the entry, without its LF.
impl fmt::Display for LogEntry {
    ghost output = { λ e. Some (entry_text e) };

    fn fmt<W: fmt::Write>(&self, f: &mut fmt::Formatter<W>) -> fmt::Result {
        match self {
            LogEntry::Put(delivery) => write!(f, "put {delivery}"),
            LogEntry::Got(delivery) => write!(f, "got {delivery}"),
            LogEntry::Adopted { end, epoch } => {
                let end = end.0;
                write!(f, "adopted {end} {epoch}")
            }
            LogEntry::Closed { end } => {
                let end = end.0;
                write!(f, "closed {end}")
            }
        }
    }
}

/// `E L EP:N LIST BODY`, or `E L EP:N notice`.
impl fmt::Display for Delivery {
    ghost output = { λ d. Some (delivery_text d) };

    fn fmt<W: fmt::Write>(&self, f: &mut fmt::Formatter<W>) -> fmt::Result {
        let posted = &self.posted;
        let content = &self.content;
        write!(f, "{posted} {content}")
    }
}

/// Whether a log may have the name.
pub fn is_envelope_name_within_limits(posted: &Posted) -> bool
    ensures { IsTrue result ↔ IsPostedWithin Third posted.now }
{
    u64::from(posted.end.0) <= MAX_END
        && u64::from(posted.line.0) <= MAX_LINE
        && u64::from(posted.epoch) <= MAX_EPOCH
        && posted.number <= MAX_NUMBER
}

/// Whether both name the same envelope of a line.
pub(crate) fn has_same_epoch_and_number(posted: &Posted, other: &Posted) -> bool
    ensures { result ≡ is_name_of posted.now other.now }
{
    posted.epoch == other.epoch && posted.number == other.number
}

/// Whether the name is of an earlier line than the given one: by end, then by line.
pub(crate) fn is_of_earlier_sender_line(posted: &Posted, end: EndId, line: LineId) -> bool
    ensures { result ≡ is_before end.0 line.0 posted.now }
{
    posted.end.0 < end.0 || (posted.end.0 == end.0 && posted.line.0 < line.0)
}

/// Whether the name is of a later line than the given one.
pub(crate) fn is_of_later_sender_line(posted: &Posted, end: EndId, line: LineId) -> bool
    ensures { result ≡ is_after end.0 line.0 posted.now }
{
    end.0 < posted.end.0 || (posted.end.0 == end.0 && line.0 < posted.line.0)
}
