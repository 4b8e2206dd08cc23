//! The text of what a step line shows.

ghost use Rattle.std.specs.Prelude.{◌≡◌, ◌++◌, OnOk, string_bytes};
ghost use Rattle.hub_steps.specs.OutcomeText.{discarded_line, ending_line};
ghost use Rattle.hub_steps.specs.OutcomeText.{got_line, listed_name, names_text, numbers_text};
ghost use Rattle.hub_steps.specs.OutcomeText.{outcome_line, ports_text};
ghost use Rattle.hub_steps.specs.ShownText.{cast_line, post_text, posts_text, refused_line};
ghost use Rattle.hub_steps.specs.ShownText.{shown_line, state_text};

use crate::shown::{CastPost, Shown};
use hub_core::Outcome;
use hub_envelope::{EndId, Envelope, OutOfMemory};
use hub_life::{LifeError, State};
use hub_text::EndListText;

/// Writes the outcome line of what a step line shows, with its LF.
#[tactic(auto, unfolding(crate::specs::ShownText::shown_line))]
pub fn write_shown_outcome_line(text: &mut String, shown: &Shown) -> Result<(), OutOfMemory>
    ensures { OnOk result (string_bytes text.new ≡ string_bytes text.old ++ shown_line shown.now) }
{
    match shown {
        Shown::Answer(outcome) => write_outcome(text, outcome),
        Shown::Moving => text.push_str("moving\n"),
        Shown::Doomed => text.push_str("doomed\n"),
        Shown::DoneNoMemory => text.push_str("done no-memory\n"),
        Shown::DoneMoving => text.push_str("done moving\n"),
        Shown::BadUrl => text.push_str("bad-url\n"),
        Shown::OpaqueOrigin => text.push_str("opaque-origin\n"),
        Shown::Cast(posts) => write_cast(text, posts.as_slice()),
        Shown::State(state) => write_worker_state_line(text, *state),
        Shown::Refused(error) => text.push_str(refused_event_line(*error)),
    }
}

/// Writes the outcome line of what a cast posted.
fn write_cast(text: &mut String, posts: &[CastPost]) -> Result<(), OutOfMemory>
    ensures { OnOk result (string_bytes text.new
        ≡ string_bytes text.old ++ cast_line posts.now) }
{
    if posts.is_empty() {
        return text.push_str("cast nobody\n");
    }
    text.push_str("cast")?;
    write_cast_posts(text, posts)?;
    text.push_str("\n")
}

fn write_cast_posts(text: &mut String, posts: &[CastPost]) -> Result<(), OutOfMemory>
    ensures { OnOk result (string_bytes text.new
        ≡ string_bytes text.old ++ posts_text posts.now) }
{
    for post in posts {
        write_cast_post(text, post)?;
    }
    Ok(())
}

/// Writes a space, the number of a destination, and what was answered there.
fn write_cast_post(text: &mut String, post: &CastPost) -> Result<(), OutOfMemory>
    ensures { OnOk result (string_bytes text.new
        ≡ string_bytes text.old ++ post_text post.now) }
{
    let end = post.end.0;
    match &post.outcome {
        Outcome::Accepted(name) => {
            write!(text, " {end} accepted {}:{}", name.epoch, name.number)
        }
        Outcome::NoMemory => write!(text, " {end} no-memory"),
        Outcome::Closed => write!(text, " {end} closed"),
        _ => write!(text, " {end} not-now"),
    }
}

/// Writes the line of a worker's state.
#[tactic(auto, unfolding(crate::specs::ShownText::shown_line))]
fn write_worker_state_line(text: &mut String, state: State) -> Result<(), OutOfMemory>
    ensures { OnOk result (string_bytes text.new
        ≡ string_bytes text.old ++ shown_line (Shown.State state)) }
{
    let word = worker_state_text(state);
    writeln!(text, "state {word}")
}

fn worker_state_text(state: State) -> &'static str
    ensures { result.now ≡ state_text state }
{
    match state {
        State::Parsed => "parsed",
        State::Installing => "installing",
        State::Installed => "installed",
        State::Activating => "activating",
        State::Activated => "activated",
        State::Redundant => "redundant",
    }
}

/// The line of an event that a life refused.
fn refused_event_line(error: LifeError) -> &'static str
    ensures { result.now ≡ refused_line error }
{
    match error {
        LifeError::WrongState => "wrong-state\n",
        LifeError::TooManyExtensions => "too-many-extensions\n",
        LifeError::NoExtension => "no-extension\n",
    }
}

/// Writes the line of an outcome, with its LF.
#[tactic(auto, unfolding(crate::specs::OutcomeText::outcome_line))]
fn write_outcome(text: &mut String, outcome: &Outcome) -> Result<(), OutOfMemory>
    ensures { OnOk result (string_bytes text.new
        ≡ string_bytes text.old ++ outcome_line outcome.now) }
{
    match outcome {
        Outcome::NotNow => text.push_str("not-now\n"),
        Outcome::NoMemory => text.push_str("no-memory\n"),
        Outcome::Agent(agent) => writeln!(text, "agent {}", agent.0),
        Outcome::TooManyAgents => text.push_str("too-many-agents\n"),
        Outcome::Ends(first, second) => writeln!(text, "ends {} {}", first.0, second.0),
        Outcome::End(end) => writeln!(text, "end {}", end.0),
        Outcome::TooManyEnds => text.push_str("too-many-ends\n"),
        Outcome::Line(line) => writeln!(text, "line {}", line.0),
        Outcome::NoOrigin => text.push_str("no-origin\n"),
        Outcome::InvalidState => text.push_str("invalid-state\n"),
        Outcome::NotTransferable => text.push_str("not-transferable\n"),
        Outcome::NoSuchEnd => text.push_str("no-such-end\n"),
        Outcome::NoLine => text.push_str("no-line\n"),
        Outcome::In => text.push_str("in\n"),
        Outcome::Closed => text.push_str("closed\n"),
        Outcome::Moved => text.push_str("moved\n"),
        Outcome::Accepted(name) => writeln!(text, "accepted {}:{}", name.epoch, name.number),
        Outcome::TooManyPorts => text.push_str("too-many-ports\n"),
        Outcome::Left => text.push_str("left\n"),
        Outcome::Hopped(queue) => writeln!(text, "hopped {queue}"),
        Outcome::Started => text.push_str("started\n"),
        Outcome::Got(envelope) => write_delivery(text, envelope),
        Outcome::Empty => text.push_str("empty\n"),
        Outcome::Busy => text.push_str("busy\n"),
        Outcome::Again => text.push_str("again\n"),
        Outcome::Disabled => text.push_str("disabled\n"),
        Outcome::Clear(_) => text.push_str("clear\n"),
        Outcome::Adopted(queue) => writeln!(text, "adopted {queue}"),
        Outcome::TooManyMoves => text.push_str("too-many-moves\n"),
        Outcome::Done => text.push_str("done\n"),
        Outcome::Handed => text.push_str("handed\n"),
        Outcome::Ordered => text.push_str("ordered\n"),
        Outcome::GoingOn => text.push_str("going-on\n"),
        Outcome::Ending(ends) => write_ends_of_ending_agent(text, ends.as_slice()),
        // A cast is shown by what its destinations answer, and never by these alone.
        Outcome::Destinations(_) => text.push_str("cast\n"),
        Outcome::Discarded(envelopes) => write_discarded(text, envelopes.as_slice()),
    }
}

/// Writes the line of the ends of an agent that ends.
fn write_ends_of_ending_agent(text: &mut String, ends: &[EndId]) -> Result<(), OutOfMemory>
    ensures { OnOk result (string_bytes text.new
        ≡ string_bytes text.old ++ ending_line ends.now) }
{
    if ends.is_empty() {
        return text.push_str("ending nothing\n");
    }
    text.push_str("ending")?;
    write_numbers_of_ends(text, ends)?;
    text.push_str("\n")
}

/// Writes a space and the number of each end.
fn write_numbers_of_ends(text: &mut String, ends: &[EndId]) -> Result<(), OutOfMemory>
    ensures { OnOk result (string_bytes text.new
        ≡ string_bytes text.old ++ numbers_text ends.now) }
{
    for end in ends {
        write!(text, " {}", end.0)?;
    }
    Ok(())
}

/// Writes the line of an envelope that was taken.
fn write_delivery(text: &mut String, envelope: &Envelope) -> Result<(), OutOfMemory>
    ensures { OnOk result (string_bytes text.new
        ≡ string_bytes text.old ++ got_line envelope.now) }
{
    let epoch = envelope.epoch;
    let number = envelope.number;
    let line = envelope.line.0;
    if envelope.notice {
        return writeln!(text, "notice {epoch}:{number} from {line}");
    }
    write!(text, "got {epoch}:{number} from {line} ")?;
    write_ports(text, envelope.ports.as_slice())?;
    text.push_str(envelope.body.text())?;
    text.push_str("\n")
}

/// Writes the line of what was discarded.
fn write_discarded(text: &mut String, envelopes: &[Envelope]) -> Result<(), OutOfMemory>
    ensures { OnOk result (string_bytes text.new
        ≡ string_bytes text.old ++ discarded_line envelopes.now) }
{
    if envelopes.is_empty() {
        return text.push_str("discarded nothing\n");
    }
    text.push_str("discarded")?;
    write_names_of_envelopes(text, envelopes)?;
    text.push_str("\n")
}

/// Writes a space, the name and the line of each envelope.
fn write_names_of_envelopes(text: &mut String, envelopes: &[Envelope]) -> Result<(), OutOfMemory>
    ensures { OnOk result (string_bytes text.new
        ≡ string_bytes text.old ++ names_text envelopes.now) }
{
    for envelope in envelopes {
        write_envelope_name(text, envelope)?;
    }
    Ok(())
}

fn write_envelope_name(text: &mut String, envelope: &Envelope) -> Result<(), OutOfMemory>
    ensures { OnOk result (string_bytes text.new
        ≡ string_bytes text.old ++ listed_name envelope.now) }
{
    let epoch = envelope.epoch;
    let number = envelope.number;
    let line = envelope.line.0;
    write!(text, " {epoch}:{number}/{line}")
}

/// Writes the ports of a delivery, where there are some.
fn write_ports(text: &mut String, ports: &[EndId]) -> Result<(), OutOfMemory>
    ensures { OnOk result (string_bytes text.new ≡ string_bytes text.old ++ ports_text ports.now) }
{
    if ports.is_empty() {
        return Ok(());
    }
    let ports = EndListText(ports);
    write!(text, "with {ports} ")
}
