ghost use Rattle.std.specs.Prelude.{◌≡◌, ◌&&◌, ◌==◌, not, bytes_eq, IfSome, Ok};
ghost use Rattle.hub_test_parts.specs.Parts.{IsTextPosted, IsDraftOf};
ghost use Rattle.hub_envelope.specs.Answer.{answer_of};

use hub_depot::Depot;
use hub_envelope::{AgentId, Body, Draft, Envelope, Ports};
use hub_queue::{Bell, Listener, NoPause, Onward, Pause, PostError, Poster};
use std::alloc::Global;
use std::sync::Wait;

fn try_bell(alloc: Global) -> Option<Bell> {
    let (_, bell) = Listener::new_with_first_bell(alloc).ok()?;
    Some(bell)
}

/// A bell that nobody sleeps at.
pub fn bell(alloc: Global) -> Option<Bell> {
    match try_bell(alloc) {
        Some(bell) => Some(bell),
        None => try_bell(alloc),
    }
}

/// The body that a text stands for.
pub fn body(alloc: Global, text: &str) -> Option<Body>
    ensures { IfSome result (λ body. answer_of text.now ≡ Ok body) }
{
    match Body::read(alloc, text) {
        Ok(body) => Some(body),
        Err(_) => Body::read(alloc, text).ok(),
    }
}

/// A draft of this agent with this body and no ports.
pub fn draft(alloc: Global, agent: AgentId, text: &str) -> Option<Draft>
    ensures { IfSome result (IsDraftOf agent text.now) }
{
    Some(Draft {
        agent,
        body: body(alloc, text)?,
        ports: Ports::none(alloc),
        notice: false,
    })
}

/// The epoch and the number under which a draft was accepted at the end and line of its poster, or
/// the refusal.
pub type Posting = Result<(u32, u64), PostError>;

/// Posts a text over a line. `None` where it was accepted elsewhere, or where another draft came
/// back.
pub fn post<R: Wait>(
    rt: &R,
    alloc: Global,
    yard: &Depot<Onward>,
    poster: &mut Poster,
    text: &str,
) -> Option<Posting>
    ensures { IfSome result (IsTextPosted poster.old poster.new text.now) }
{
    post_with(rt, alloc, yard, poster, text, &NoPause)
}

/// The same, with a pause at each point of the post.
pub fn post_with<P: Pause, R: Wait>(
    rt: &R,
    alloc: Global,
    yard: &Depot<Onward>,
    poster: &mut Poster,
    text: &str,
    pause: &P,
) -> Option<Posting>
    ensures { IfSome result (IsTextPosted poster.old poster.new text.now) }
{
    let name = poster.name();
    match poster.post_with(rt, yard, draft(alloc, AgentId(0), text)?, pause) {
        Ok(posted) => {
            let is_there = posted.end == name.end && posted.line == name.line;
            if is_there {
                Some(Ok((posted.epoch, posted.number)))
            } else {
                None
            }
        }
        Err((error, back)) => {
            let is_same = back.body.text() == text;
            drop(back);
            if is_same { Some(Err(error)) } else { None }
        }
    }
}

/// Whether an envelope has this epoch, this number and this text, and is no notice.
pub fn is_message(envelope: &Envelope, epoch: u32, number: u64, text: &str) -> bool
    ensures { result ≡ (not envelope.now.notice && (envelope.now.epoch == epoch)
        && (envelope.now.number == number) && bytes_eq envelope.now.body text.now) }
{
    !envelope.notice
        && envelope.epoch == epoch
        && envelope.number == number
        && envelope.body.text() == text
}
