//! Whether a text is a compact JSON text of the profile already, so that it can be kept as it is.

ghost use Rattle.std.specs.Prelude.{◌≡◌, ℕ, ◌+◌, ◌<◌, ◌≤◌, [], ◌∷◌, ◌++◌, true, length};
ghost use Rattle.std.specs.Prelude.{slice_index, option_map, IfSome, IsTrue};
ghost use Rattle.std.specs.Char.{is_ascii_digit};
ghost use Rattle.json.specs.Print.{escape_byte, quoted};
ghost use Rattle.json.specs.Run.{is_stop};
ghost use Rattle.hub_envelope.specs.Compact.{IsAbove, IsCompact, IsEscapeBefore, IsFront};
ghost use Rattle.hub_envelope.specs.Compact.{IsNumberBefore};

use crate::limits::MAX_NESTING;

/// A whole number of so many digits fits in `i64`.
const MAX_DIGITS: usize = 18;

/// Whether the text is recognised as the compact text of a value of the profile, its length aside.
/// No says nothing: texts with an escape in a key or with a longer number, among others, aren't
/// recognised.
pub(crate) fn is_surely_compact(text: &[u8]) -> bool
    ensures { IsTrue result → IsCompact text.now }
{
    match skip_json_value(text, MAX_NESTING) {
        Some(rest) => rest.is_empty(),
        None => false,
    }
}

/// What stands behind the value at the front, in which arrays and objects nest at most `levels`
/// deep. Here and below, None says that no such thing was recognised.
#[cycle(skip_json_value)]
fn skip_json_value(text: &[u8], levels: usize) -> Option<&[u8]>
    ensures { IfSome result (λ rest. IsFront levels text.now rest.now) }
{
    let (first, rest) = text.split_first()?;
    match *first {
        b'"' => skip_past_closing_quote(rest),
        b'[' if levels > 0 => skip_array_items(rest, levels - 1),
        b'{' if levels > 0 => skip_object_members(rest, levels - 1),
        b'n' => rest.strip_prefix(b"ull"),
        b't' => rest.strip_prefix(b"rue"),
        b'f' => rest.strip_prefix(b"alse"),
        _ => skip_whole_number(text),
    }
}

/// What follows an array whose `[` comes before the text.
#[cycle(skip_json_value)]
fn skip_array_items(text: &[u8], levels: usize) -> Option<&[u8]>
    ensures { IfSome result (λ rest. IsFront (levels + 1) (91 ∷ text.now) rest.now) }
{
    let (first, after) = text.split_first()?;
    if *first == b']' {
        return Some(after);
    }
    let mut rest = text;
    loop {
        let (mark, after) = skip_json_value(rest, levels)?.split_first()?;
        match *mark {
            b',' => rest = after,
            b']' => return Some(after),
            _ => return None,
        }
    }
}

/// What follows an object whose `{` comes before the text.
#[cycle(skip_json_value)]
fn skip_object_members(text: &[u8], levels: usize) -> Option<&[u8]>
    ensures { IfSome result (λ rest. IsFront (levels + 1) (123 ∷ text.now) rest.now) }
{
    let (first, after) = text.split_first()?;
    if *first == b'}' {
        return Some(after);
    }
    let mut rest = text;
    let mut before: Option<&[u8]> = None;
    loop {
        let (key, value) = split_object_key(rest)?;
        if !is_key_in_order(before, key) {
            return None;
        }
        before = Some(key);
        let (mark, after) = skip_json_value(value, levels)?.split_first()?;
        match *mark {
            b',' => rest = after,
            b'}' => return Some(after),
            _ => return None,
        }
    }
}

/// Whether a member may have the key, which stands behind the one before it in byte order.
fn is_key_in_order(before: Option<&[u8]>, key: &[u8]) -> bool
    ensures { IsTrue result → IsAbove (option_map (λ k. k.now) before.entry) key.now }
{
    match before {
        Some(before) => before.cmp(key).is_lt(),
        None => true,
    }
}

/// The bytes of the key at the front, and what stands behind its colon.
fn split_object_key(text: &[u8]) -> Option<(&[u8], &[u8])>
    ensures { IfSome result (λ key. text.now ≡ quoted key.0.now ++ 58 ∷ key.1.now) }
{
    let (key, rest) = split_plain_string(text)?;
    let (colon, value) = rest.split_first()?;
    if *colon != b':' {
        return None;
    }
    Some((key, value))
}

/// What follows a string whose first quote comes before the text. Bytes that need an escape have
/// their short one.
fn skip_past_closing_quote(text: &[u8]) -> Option<&[u8]>
    ensures { IfSome result (λ rest. IsFront 0 (34 ∷ text.now) rest.now) }
{
    let mut rest = text;
    loop {
        let end = rest
            .iter()
            .position(|byte| is_quote_or_needs_escape(*byte))?;
        let after = &rest[end + 1..];
        match rest[end] {
            b'"' => return Some(after),
            b'\\' => rest = skip_escape_letter(after)?,
            _ => return None,
        }
    }
}

/// What stands behind the letter of a short escape, before which the backslash stands.
fn skip_escape_letter(text: &[u8]) -> Option<&[u8]>
    ensures escape { IfSome result (λ rest. IsEscapeBefore (92 ∷ text.now) rest.now) }
    ensures shorter { IfSome result (λ rest. length rest.now < length text.now) }
{
    let (letter, rest) = text.split_first()?;
    if !is_escape_letter(*letter) {
        return None;
    }
    Some(rest)
}

/// Whether a short escape has this letter.
#[tactic(auto, unfolding(json::specs::Print::escape_byte))]
fn is_escape_letter(letter: u8) -> bool
    ensures { result ≡ true → (byte : ℕ) × (escape_byte byte ≡ 92 ∷ letter ∷ []) }
{
    matches!(letter, b'"' | b'\\' | b'b' | b't' | b'n' | b'f' | b'r')
}

/// The bytes of the string at the front, which need no escape, and what stands behind it.
fn split_plain_string(text: &[u8]) -> Option<(&[u8], &[u8])>
    ensures { IfSome result (λ string. text.now ≡ quoted string.0.now ++ string.1.now) }
{
    let (quote, inside) = text.split_first()?;
    if *quote != b'"' {
        return None;
    }
    let end = inside
        .iter()
        .position(|byte| is_quote_or_needs_escape(*byte))?;
    if inside[end] != b'"' {
        return None;
    }
    Some((&inside[..end], &inside[end + 1..]))
}

/// Whether a string has no such byte without an escape, but for the quote that ends it.
fn is_quote_or_needs_escape(byte: u8) -> bool
    ensures { result ≡ is_stop byte }
{
    byte == b'"' || byte == b'\\' || byte < b' '
}

/// What stands behind the whole number at the front.
fn skip_whole_number(text: &[u8]) -> Option<&[u8]>
    ensures { IfSome result (λ rest. IsFront 0 text.now rest.now) }
{
    let (first, rest) = text.split_first()?;
    match *first {
        b'0' => Some(rest),
        b'-' => skip_positive_number(rest),
        _ => skip_positive_number(text),
    }
}

/// What follows the decimal digits at the front, which don't begin with 0.
fn skip_positive_number(text: &[u8]) -> Option<&[u8]>
    ensures { IfSome result (λ rest. IsNumberBefore text.now rest.now) }
{
    let count = leading_digit_count(text);
    if count == 0 || count > MAX_DIGITS || text[0] == b'0' {
        return None;
    }
    Some(&text[count..])
}

/// How many decimal digits stand at the front.
fn leading_digit_count(text: &[u8]) -> usize
    ensures within { result ≤ length text.now }
    ensures digits { (k : ℕ) → k < result → is_ascii_digit (slice_index text.now k) ≡ true }
{
    text.iter()
        .position(|byte| !byte.is_ascii_digit())
        .unwrap_or(text.len())
}
