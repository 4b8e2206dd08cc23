//! The text of most posts and takes, written into an array.

ghost use Rattle.std.specs.Prelude.{◌≡◌, ◌++◌, ◌+◌, ◌≤◌, codes, decimal, drop, length, IfSome};
ghost use Rattle.hub_steps.specs.OutcomeText.{got_line, outcome_line};
ghost use Rattle.hub_steps.specs.ShownText.{shown_line};

use crate::shown::Shown;
use hub_core::Outcome;
use hub_envelope::Envelope;
use itoa::write_digits;

/// How many bytes the array has that a short outcome line is written into.
pub const SHORT: usize = 128;

/// How many bytes the body of a delivery has at most that is written so.
const SHORT_BODY: usize = 40;

/// Writes the outcome line of a post that was accepted, or of a delivery with a short body and no
/// ports, to the end of the array. Where it begins. `None` for any other line.
// Most outcome lines are these two. Written from the last byte to the first, such a line takes one
// test for room where a format makes one for each piece.
#[tactic(auto, unfolding(crate::specs::ShownText::shown_line))]
pub fn write_shown_if_post_or_short_delivery(shown: &Shown, line: &mut [u8; SHORT]) -> Option<usize>
    ensures { IfSome result (λ start. (start ≤ 128)
        × (drop start line.new ≡ shown_line shown.now)) }
{
    match shown {
        Shown::Answer(outcome) => write_outcome_if_post_or_short_delivery(outcome, line),
        _ => None,
    }
}

/// The same of an outcome.
#[tactic(auto, unfolding(crate::specs::OutcomeText::outcome_line))]
fn write_outcome_if_post_or_short_delivery(
    outcome: &Outcome,
    line: &mut [u8; SHORT],
) -> Option<usize>
    ensures { IfSome result (λ start. (start ≤ 128)
        × (drop start line.new ≡ outcome_line outcome.now)) }
{
    match outcome {
        Outcome::Accepted(name) => {
            let at = write_line_feed_last(line);
            let at = prepend_epoch_and_number(line, at, name.epoch, name.number);
            Some(prepend_text(line, at, b"accepted "))
        }
        Outcome::Got(envelope) => write_delivery_if_short(envelope, line),
        _ => None,
    }
}

/// The same of a delivery.
fn write_delivery_if_short(envelope: &Envelope, line: &mut [u8; SHORT]) -> Option<usize>
    ensures { IfSome result (λ start. (start ≤ 128)
        × (drop start line.new ≡ got_line envelope.now)) }
{
    let body = envelope.body.text().as_bytes();
    if envelope.notice || !envelope.ports.as_slice().is_empty() || body.len() > SHORT_BODY {
        return None;
    }
    Some(write_delivery_line(line, envelope.epoch, envelope.number, envelope.line.0, body))
}

/// Writes the outcome line of a delivery with no ports to the end of the array. Where it begins.
fn write_delivery_line(
    line: &mut [u8; SHORT],
    epoch: u32,
    number: u64,
    from: u8,
    body: &[u8],
) -> usize
    requires { length body.now ≤ 40 }
    ensures start { result ≤ 128 }
    ensures written { drop result line.new ≡ codes "got " ++ decimal epoch ++ codes ":"
        ++ decimal number ++ codes " from " ++ decimal from ++ codes " " ++ body.now
        ++ codes "\n" }
{
    let at = write_sender_and_body(line, from, body);
    let at = prepend_epoch_and_number(line, at, epoch, number);
    prepend_text(line, at, b"got ")
}

/// Writes what stands in that line behind the name. Where it begins.
#[inline(always)]
fn write_sender_and_body(line: &mut [u8; SHORT], from: u8, body: &[u8]) -> usize
    requires { length body.now ≤ 40 }
    ensures start { (result ≤ 128) × (128 ≤ result + 68) }
    ensures written { drop result line.new ≡ codes " from " ++ decimal from ++ codes " "
        ++ body.now ++ codes "\n" }
{
    let at = write_line_feed_last(line);
    let at = prepend_text(line, at, body);
    let at = prepend_text(line, at, b" ");
    let at = prepend_number(line, at, u64::from(from));
    prepend_text(line, at, b" from ")
}

/// Writes the LF, which comes last.
#[inline(always)]
fn write_line_feed_last(line: &mut [u8; SHORT]) -> usize
    ensures start { result ≡ 127 }
    ensures written { drop result line.new ≡ codes "\n" }
{
    prepend_text(line, SHORT, b"\n")
}

/// Writes the numbers of a queue and of an envelope in it, before what stands at `end`.
fn prepend_epoch_and_number(line: &mut [u8], end: usize, epoch: u32, number: u64) -> usize
    requires { (41 ≤ end) × (end ≤ length line.old) }
    ensures start { (result ≤ end) × (end ≤ result + 41) }
    ensures written { drop result line.new
        ≡ decimal epoch ++ codes ":" ++ decimal number ++ drop end line.old }
{
    let at = prepend_number(line, end, number);
    let at = prepend_text(line, at, b":");
    prepend_number(line, at, u64::from(epoch))
}

/// Writes a number before what stands at `end`. Where it begins.
#[inline(always)]
fn prepend_number(line: &mut [u8], end: usize, number: u64) -> usize
    requires { (20 ≤ end) × (end ≤ length line.old) }
    ensures start { (result ≤ end) × (end ≤ result + 20) }
    ensures written { drop result line.new ≡ decimal number ++ drop end line.old }
{
    write_digits(number, line, end)
}

/// Writes a text before what stands at `end`. Where it begins.
#[inline(always)]
fn prepend_text(line: &mut [u8], end: usize, text: &[u8]) -> usize
    requires { (length text.now ≤ end) × (end ≤ length line.old) }
    ensures start { result + length text.now ≡ end }
    ensures written { drop result line.new ≡ text.now ++ drop end line.old }
{
    let start = end - text.len();
    line[start..end].copy_from_slice(text);
    start
}
