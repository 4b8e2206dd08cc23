ghost use Rattle.std.specs.Prelude.{◌≡◌, IfOk, bytes_eq, string_bytes};
ghost use Rattle.hub_envelope.specs.StoredBytes.{stored_bytes};

use crate::OutOfMemory;
use crate::limits::INLINE_BYTES;
use arrayvec::ArrayString;
use std::alloc::Global;
use std::fmt;

/// A text, which lies in the value itself where it is short.
pub(crate) enum StoredText {
    /// At most `INLINE_BYTES` bytes.
    Inline(ArrayString<INLINE_BYTES>),
    /// More bytes, in memory of their own.
    Allocated(String),
}

impl StoredText {
    /// A copy of the text.
    #[inline]
    pub(crate) fn copy_of(alloc: Global, text: &str) -> Result<StoredText, OutOfMemory>
        ensures { IfOk result (λ stored. stored_bytes stored ≡ text.now) }
    {
        match ArrayString::from(text) {
            Ok(inline) => Ok(StoredText::Inline(inline)),
            Err(_) => Ok(StoredText::Allocated(String::from_str(alloc, text)?)),
        }
    }

    /// The same text. A short one gives its memory back.
    pub(crate) fn of_string(text: String) -> StoredText
        ensures { stored_bytes result ≡ string_bytes text }
    {
        match ArrayString::from(text.as_str()) {
            Ok(inline) => StoredText::Inline(inline),
            Err(_) => StoredText::Allocated(text),
        }
    }

    /// The text.
    #[inline]
    pub(crate) fn as_str(&self) -> &str
        ensures { result.now ≡ stored_bytes self.now }
    {
        match self {
            StoredText::Inline(text) => text.as_str(),
            StoredText::Allocated(text) => text.as_str(),
        }
    }
}

// By hand, so that whoever drops a body makes one call, and its proof has no cases of this type.
impl Drop for StoredText {
    #[inline]
    fn drop(self) {
        match self {
            StoredText::Inline(_) => {}
            StoredText::Allocated(text) => drop(text),
        }
    }
}

/// The clone has the same text.
impl Clone for StoredText {
    ghost is_clone = { λ stored copy. stored_bytes copy ≡ stored_bytes stored };

    fn clone(&self) -> Result<StoredText, OutOfMemory> {
        match self {
            StoredText::Inline(text) => Ok(StoredText::Inline(*text)),
            StoredText::Allocated(text) => Ok(StoredText::Allocated(text.clone()?)),
        }
    }
}

/// Shows the text, wherever it lies.
impl fmt::Debug for StoredText {
    fn fmt<W: fmt::Write>(&self, f: &mut fmt::Formatter<W>) -> fmt::Result {
        fmt::Debug::fmt(&self.as_str(), f)
    }
}
