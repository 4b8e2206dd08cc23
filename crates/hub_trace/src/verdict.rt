ghost use Rattle.std.specs.Prelude.{Some};
ghost use Rattle.hub_trace.specs.Text.{kind_text, verdict_text};

use hub_envelope::{EndId, LineId};
use std::fmt;

/// What the checker says of the logs.
#[derive(Clone, Copy, Debug, PartialEq, Eq, Drop)]
pub enum Verdict {
    /// Each line of each end was delivered in order, each envelope once and as it was posted, and
    /// no end was delivered to after it was closed.
    Clean,
    /// The fault of the least end, then line, then place.
    Fault {
        end: EndId,
        line: LineId,
        /// Counted from 0 among what was got of that line.
        place: usize,
        kind: FaultKind,
    },
}

/// What is wrong with an envelope that was got. Of several kinds that fit, it is the first.
#[derive(Clone, Copy, Debug, PartialEq, Eq, Drop)]
pub enum FaultKind {
    /// The end had been closed before.
    AfterClose,
    /// A notice of its line was got before.
    AfterNotice,
    /// It has the name of the envelope accepted at this place, but another content.
    Changed,
    /// An envelope of its name was got earlier.
    Twice,
    /// An envelope of its name was accepted, at another place.
    Gap,
    /// No envelope of its name was accepted.
    Foreign,
}

impl fmt::Display for FaultKind {
    ghost output = { λ k. Some (kind_text k) };

    fn fmt<W: fmt::Write>(&self, f: &mut fmt::Formatter<W>) -> fmt::Result {
        let name = match self {
            FaultKind::AfterClose => "AfterClose",
            FaultKind::AfterNotice => "AfterNotice",
            FaultKind::Changed => "Changed",
            FaultKind::Twice => "Twice",
            FaultKind::Gap => "Gap",
            FaultKind::Foreign => "Foreign",
        };
        f.write_str(name)
    }
}

/// `clean`, or `fault END LINE PLACE KIND`.
impl fmt::Display for Verdict {
    ghost output = { λ v. Some (verdict_text v) };

    fn fmt<W: fmt::Write>(&self, f: &mut fmt::Formatter<W>) -> fmt::Result {
        match self {
            Verdict::Clean => f.write_str("clean"),
            Verdict::Fault {
                end,
                line,
                place,
                kind,
            } => {
                let end = end.0;
                let line = line.0;
                write!(f, "fault {end} {line} {place} {kind}")
            }
        }
    }
}
