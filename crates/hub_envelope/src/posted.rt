ghost use Rattle.std.specs.Prelude.{◌≡◌, Some};
ghost use Rattle.hub_envelope.specs.Naming.{posted_of, posted_text};

use crate::envelope::Envelope;
use crate::ids::{EndId, LineId};
use std::fmt;

/// The name under which a draft was accepted. Within a line no two envelopes have one name.
#[derive(Clone, Copy, Debug, PartialEq, Eq, Hash)]
pub struct Posted {
    /// The end that it was put at.
    pub end: EndId,
    /// The queue of that end: how many adoptions of the end came before.
    pub epoch: u32,
    /// The line that it was put by.
    pub line: LineId,
    /// How many envelopes the line had put in that queue before.
    pub number: u64,
}

impl Posted {
    /// The name of an envelope.
    pub fn of_envelope(envelope: &Envelope) -> Posted
        ensures { result ≡ posted_of envelope.now }
    {
        Posted {
            end: envelope.end,
            epoch: envelope.epoch,
            line: envelope.line,
            number: envelope.number,
        }
    }
}

/// `E L EP:N`.
impl fmt::Display for Posted {
    ghost output = { λ p. Some (posted_text p) };

    fn fmt<W: fmt::Write>(&self, f: &mut fmt::Formatter<W>) -> fmt::Result {
        let end = self.end.0;
        let line = self.line.0;
        let epoch = self.epoch;
        let number = self.number;
        write!(f, "{end} {line} {epoch}:{number}")
    }
}
