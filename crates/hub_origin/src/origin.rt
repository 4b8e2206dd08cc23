ghost use Rattle.hub_origin.specs.Origin.{IsOriginAnswer, origin_answer};
ghost use Rattle.hub_text.specs.Reading.{IsReadAs};

use hub_envelope::{OutOfMemory, Text};
use std::alloc::Global;
use thiserror::Error;
use url::{ParseError, Url};

/// An origin that is not opaque, as its ASCII text (WHATWG HTML, "ASCII serialization of an
/// origin"): the scheme, the host, and the port where it isn't the scheme's own.
///
/// ```rust
/// let origin = origin_of(alloc, "HTTP://A.test:8080/x")?;
/// assert_eq!(rt; origin.as_str(), "http://a.test:8080");
/// ```
/// Two origins are the same where their texts are (WHATWG HTML, "same origin").
pub type Origin = Text;

/// The origin of the URL that the text is.
///
/// The URL is parsed with no base. A `blob:` URL has the origin of the HTTP URL inside it; that of
/// a `file:` URL, and of each scheme that isn't special, is opaque.
pub fn origin_of(alloc: Global, text: &str) -> Result<Origin, OriginError>
    ensures reads { IsReadAs OriginError.OutOfMemory (λ origin. origin) result
        (origin_answer text.now) }
    ensures cases { IsOriginAnswer text.now result }
{
    let url = Url::parse(alloc, text)?;
    let origin = url.origin()?;
    if !origin.is_tuple() {
        return Err(OriginError::OpaqueOrigin);
    }
    Ok(Text::of_string(origin.ascii_serialization(alloc)?))
}

/// Why a text gives no origin. `BadUrl` is tested before `OpaqueOrigin`; memory may run out at any
/// text.
#[derive(Clone, Copy, Debug, PartialEq, Eq, Drop, Error)]
pub enum OriginError {
    /// The text is no absolute URL (URL Standard, "URL parsing").
    #[error("bad url")]
    BadUrl,
    /// The URL's origin is the same as no other (URL Standard, "Origin").
    #[error("opaque origin")]
    OpaqueOrigin,
    /// An allocation failed, or the URL would be 4 GiB long or longer.
    #[error("out of memory")]
    OutOfMemory,
}

impl From<OutOfMemory> for OriginError {
    ghost use Rattle.std.specs.Prelude.{◌≡◌};
    ghost use Rattle.hub_origin.specs.declared.origin.OriginError.TheVariants.{OutOfMemory};

    ghost from_gives = { λ _ e. e ≡ OutOfMemory };

    fn from(_error: OutOfMemory) -> OriginError {
        OriginError::OutOfMemory
    }
}

impl From<ParseError> for OriginError {
    ghost use Rattle.std.specs.Prelude.{◌≡◌};
    ghost use Rattle.hub_origin.specs.Refusal.{parse_refusal};

    ghost from_gives = { λ error e. e ≡ parse_refusal error };

    fn from(error: ParseError) -> OriginError {
        match error {
            ParseError::OutOfMemory | ParseError::Overflow => OriginError::OutOfMemory,
            _ => OriginError::BadUrl,
        }
    }
}
