//! Text lines, the words of a text line, and the numbers that words write.

ghost use Rattle.std.specs.Prelude.{◌≡◌, ◌<◌, option_map, ◌∷◌, length, take, ◌≤◌, ℕ, Some, IfSome};
ghost use Rattle.std.specs.Fmt.{decimal};
ghost use Rattle.std.specs.List.{list_all};
ghost use Rattle.hub_text.specs.Word.{cut};
ghost use Rattle.hub_text.specs.TextLines.{text_lines_of};
ghost use Rattle.hub_text.specs.Number.{number_of, is_numeral, is_digit};

use memchr::memchr;

/// The first text line without its LF, and what comes after that LF. The last LF of an input may be
/// missing.
pub fn split_off_first_text_line(bytes: &[u8]) -> (&[u8], &[u8])
    requires { 0 < length bytes.now }
    ensures line { text_lines_of bytes.now ≡ result.0.now ∷ text_lines_of result.1.now }
    ensures front { result.0.now ≡ take (length result.0.now) bytes.now }
    ensures shorter { length result.1.now < length bytes.now }
{
    match memchr(b'\n', bytes) {
        Some(end) => (&bytes[..end], &bytes[end + 1..]),
        None => (bytes, &bytes[bytes.len()..]),
    }
}

/// The first word and what comes after the single space behind it. `None` where no space is.
/// A text that begins with a space has an empty first word.
pub fn split_word(text: &str) -> Option<(&str, &str)>
    ensures { option_map (λ x. (x.0.now, x.1.now)) result ≡ cut 32 text.now }
{
    split_once_at_byte(text, b' ')
}

/// What stands before the first such byte and what stands behind it. `None` where there is none.
/// The byte is an ASCII character.
// It is a plain loop over the bytes, since words are short: a search for a character begins more
// slowly.
#[inline(always)]
pub fn split_once_at_byte(text: &str, byte: u8) -> Option<(&str, &str)>
    requires { byte < 128 }
    ensures { option_map (λ x. (x.0.now, x.1.now)) result ≡ cut byte text.now }
{
    let end = text.as_bytes().iter().position(|other| *other == byte)?;
    Some((&text[..end], &text[end + 1..]))
}

/// The number that a word writes: decimal digits without leading zeros, at most `max`.
pub fn number_of(word: &str, max: u64) -> Option<u64>
    ensures number { result ≡ number_of max word.now }
    // What is read is how the number is written, and each number within the limit so written is
    // read.
    ensures found { IfSome result (λ n. (n ≤ max) × (word.now ≡ decimal n)) }
    ensures written { (n : ℕ) → n ≤ max → word.now ≡ decimal n → result ≡ Some n }
{
    if !is_numeral(word.as_bytes()) {
        return None;
    }
    let number = word.parse::<u64>().ok()?;
    (number <= max).then_some(number)
}

/// One digit, or several that don't begin with 0.
fn is_numeral(word: &[u8]) -> bool
    ensures { result ≡ is_numeral word.now }
{
    !word.is_empty() && (word.len() < 2 || word[0] != b'0') && are_digits(word)
}

fn are_digits(word: &[u8]) -> bool
    ensures { result ≡ list_all is_digit word.now }
{
    word.iter().all(|byte| byte.is_ascii_digit())
}
