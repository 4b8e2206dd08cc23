ghost use Rattle.std.specs.Prelude.{◌≡◌, ◌≤◌};
ghost use Rattle.hub_trace.specs.LogVersion.{has_notices, max_body, max_line, version_of};

use crate::limits::{MAX_LINE, OLD_MAX_BODY_BYTES, OLD_MAX_LINE};
use crate::log::LOG_HEADER;
use hub_envelope::MAX_BODY_BYTES;

/// A form of logs. The first line of a file of logs names it.
#[derive(Clone, Copy, Debug, PartialEq, Eq)]
pub(crate) enum LogVersion {
    First,
    Second,
    /// The form in which logs are written.
    Third,
}

/// The first line of logs of the first version.
const FIRST_HEADER: &str = "hublog 1";

/// The first line of logs of the second version.
const SECOND_HEADER: &str = "hublog 2";

impl LogVersion {
    /// The version that the first line of a file names.
    pub(crate) fn of_header(header: &[u8]) -> Option<LogVersion>
        ensures { result ≡ version_of header.now }
    {
        if header == FIRST_HEADER.as_bytes() {
            Some(LogVersion::First)
        } else if header == SECOND_HEADER.as_bytes() {
            Some(LogVersion::Second)
        } else if header == LOG_HEADER.as_bytes() {
            Some(LogVersion::Third)
        } else {
            None
        }
    }

    /// Whether notices may stand in its entries.
    pub(crate) fn has_notices(self) -> bool
        ensures { result ≡ has_notices self }
    {
        match self {
            LogVersion::First => false,
            LogVersion::Second | LogVersion::Third => true,
        }
    }

    /// The greatest number of a line of an end.
    pub(crate) fn max_line_number(self) -> u64
        ensures line { result ≡ max_line self }
        ensures small { result ≤ MAX_LINE }
    {
        match self {
            LogVersion::First | LogVersion::Second => OLD_MAX_LINE,
            LogVersion::Third => MAX_LINE,
        }
    }

    /// How long the compact text of a body may be, in bytes.
    pub(crate) fn max_body_bytes(self) -> usize
        ensures { result ≡ max_body self }
    {
        match self {
            LogVersion::First | LogVersion::Second => OLD_MAX_BODY_BYTES,
            LogVersion::Third => MAX_BODY_BYTES,
        }
    }
}
