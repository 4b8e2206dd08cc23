ghost use Rattle.std.specs.Prelude.{◌≡◌, ◌⊎◌, ◌↔◌, ◌<◌, ◌≤◌, length, IfOk, IfErr, IsErrOf, IsTrue};
ghost use Rattle.std.specs.Prelude.{bytes_eq, codes};
ghost use Rattle.std.specs.Cmp.{partial_equiv_from_equiv};
ghost use Rattle.std.specs.Cmp.Lexicographic.{nat_list_eq_equiv};
ghost use Rattle.hub_envelope.specs.Answer.{answer_of, IsAnswerTo};
ghost use Rattle.hub_envelope.specs.BodyText.{IsBodyText};
ghost use Rattle.hub_envelope.specs.Compact.{IsCompact};

use crate::OutOfMemory;
use crate::compact::is_surely_compact;
use crate::limits::{MAX_BODY_BYTES, MAX_NESTING};
use crate::profile::{json_value_has_whole_numbers, json_value_nests_within};
use crate::stored_text::StoredText;
use serde_json::Value;
use std::alloc::Global;
use std::marker::Model;
use thiserror::Error;

/// A message body: a JSON value (RFC 8259) whose numbers are whole and fit in `i64` or `u64`, whose
/// arrays and objects nest at most `MAX_NESTING` deep, and whose compact text has at most
/// `MAX_BODY_BYTES` bytes. It is kept as that text: no space, the members of an object in byte
/// order of their keys, and of equal keys the last one. A text of at most `INLINE_BYTES` bytes lies
/// in the value itself, so that such a body is read, copied and dropped without the allocator.
///
/// ```rust
/// let body = Body::read(alloc, "{\"b\": 1, \"a\": 2}")?;
/// assert_eq!(rt; body.text(), "{\"a\":2,\"b\":1}");
/// ```
#[derive(Debug, Drop)]
pub struct Body {
    text: StoredText,
}

impl Model for Body {
    ghost use Rattle.std.specs.Prelude.{List, ℕ};
    ghost use Rattle.hub_envelope.specs.BodyText.{IsBodyText};
    ghost use Rattle.hub_envelope.specs.StoredBytes.{stored_bytes};

    ghost Value = { List ℕ };

    ghost view = { λ b. stored_bytes b.text };

    ghost invariant = { λ b. IsBodyText (stored_bytes b.text) };
}

/// Why a text is no body. The refusals are tested in this order; memory may fail at any point.
#[derive(Clone, Copy, Debug, PartialEq, Eq, Drop, Error)]
pub enum BodyError {
    /// The text isn't JSON, or it is JSON that the reader doesn't take: nested more than 127 deep,
    /// a number too large for a float (`1e400`), or half of a surrogate pair.
    #[error("not JSON")]
    NotJson,
    /// A number has a fraction or an exponent, doesn't fit in `i64` or `u64`, or is `-0`.
    #[error("a number that is not whole")]
    NotWhole,
    /// The value nests deeper than `MAX_NESTING`.
    #[error("nested too deep")]
    TooDeep,
    /// The compact text is longer than `MAX_BODY_BYTES`.
    #[error("too long")]
    TooLong,
    /// An allocation failed. The text may stand for a body or not.
    #[error("out of memory")]
    OutOfMemory,
}

impl Body {
    /// The body that a text stands for, or why it stands for none.
    ///
    /// The refusals are tested in the order of `BodyError`, and the first that applies is named. A
    /// value that an equal key overwrote isn't tested. Want of memory may be answered for any text
    /// that isn't empty. Time and memory are linear in the length of the text, but for the sorting
    /// of an object's members.
    pub fn read(alloc: Global, text: &str) -> Result<Body, BodyError>
        ensures ok { IfOk result (λ body. answer_of text.now ≡ Ok body) }
        ensures err { IfErr result
            (λ e. (e ≡ BodyError.OutOfMemory) ⊎ (answer_of text.now ≡ Err e)) }
        ensures cases { IsAnswerTo text.now result }
        ensures memory { IsErrOf result BodyError.OutOfMemory → 0 < length text.now }
    {
        // Most texts were compact when they were sent, and needn't be taken apart.
        if text.len() <= MAX_BODY_BYTES && is_surely_compact(text.as_bytes()) {
            Body::copy_of(alloc, text)
        } else {
            Body::parse_and_compact(alloc, text)
        }
    }

    /// The body `null`.
    pub fn null(alloc: Global) -> Result<Body, OutOfMemory>
        ensures { IfOk result (λ body. body ≡ codes "null") }
    {
        let text = StoredText::copy_of(alloc, "null")?;
        Ok(Body { text })
    }

    /// The body of a compact text.
    fn copy_of(alloc: Global, text: &str) -> Result<Body, BodyError>
        requires { IsCompact text.now × (length text.now ≤ MAX_BODY_BYTES) }
        ensures ok { IfOk result (λ body. answer_of text.now ≡ Ok body) }
        ensures some { 0 < length text.now }
        ensures err { IfErr result (λ e. e ≡ BodyError.OutOfMemory) }
    {
        match StoredText::copy_of(alloc, text) {
            Ok(copy) => Ok(Body { text: copy }),
            Err(_) => Err(BodyError::OutOfMemory),
        }
    }

    /// The body of the value that the text reads to.
    fn parse_and_compact(alloc: Global, text: &str) -> Result<Body, BodyError>
        ensures ok { IfOk result (λ body. answer_of text.now ≡ Ok body) }
        ensures err { IfErr result
            (λ e. (e ≡ BodyError.OutOfMemory) ⊎ (answer_of text.now ≡ Err e)) }
        ensures cases { IsAnswerTo text.now result }
        ensures memory { IsErrOf result BodyError.OutOfMemory → 0 < length text.now }
    {
        let value = match Value::from_str(alloc, text) {
            Ok(value) => value,
            Err(error) => {
                return Err(if error.is_memory() {
                    BodyError::OutOfMemory
                } else {
                    BodyError::NotJson
                });
            }
        };
        if !json_value_has_whole_numbers(&value) {
            return Err(BodyError::NotWhole);
        }
        if !json_value_nests_within(&value, MAX_NESTING) {
            return Err(BodyError::TooDeep);
        }
        let Ok(text) = value.to_string(alloc) else {
            return Err(BodyError::OutOfMemory);
        };
        if text.len() > MAX_BODY_BYTES {
            return Err(BodyError::TooLong);
        }
        Ok(Body {
            text: StoredText::of_string(text),
        })
    }

    /// The compact text.
    pub fn text(&self) -> &str
        ensures text { result.now ≡ self.now }
        ensures body { IsBodyText self.now }
        ensures reads_back { answer_of self.now ≡ Ok self.now }
    {
        self.text.as_str()
    }
}

/// The clone has the same text.
impl Clone for Body {
    ghost is_clone = { λ body copy. copy ≡ body };

    fn clone(&self) -> Result<Body, OutOfMemory> {
        Ok(Body {
            text: self.text.clone()?,
        })
    }
}

/// Two bodies are equal where their texts are, and so where their values are.
impl PartialEq for Body {
    ghost eq = { bytes_eq };

    ghost laws = { partial_equiv_from_equiv nat_list_eq_equiv };

    fn eq(&self, other: &Body) -> bool
        ensures value { result ≡ bytes_eq self.now other.now }
        ensures same { IsTrue result ↔ (self.now ≡ other.now) }
    {
        self.text() == other.text()
    }
}

impl Eq for Body {
    ghost laws = { nat_list_eq_equiv };
}
