//! The reader of one text line of step lines.

ghost use Rattle.std.specs.Prelude.{◌≡◌, ◌≢◌, [], ◌∷◌, IfErr, IfSome, None, Ok, bytes_eq};
ghost use Rattle.std.specs.Prelude.{codes, false, option_map, true};
ghost use Rattle.hub_text.specs.Reading.{IsReadAs};
ghost use Rattle.hub_steps.specs.ReadMemory.{has_part, reads_memory, text_reads_memory};
ghost use Rattle.hub_steps.specs.StepLine.{A, BODY, E, LIST, NAME, P, U, WORD, command_in};
ghost use Rattle.hub_steps.specs.StepLine.{command_of, cut_after, only_word, line_read, mark};
ghost use Rattle.hub_steps.specs.StepLine.{number_read, poster_named, row_named, spelled};
ghost use Rattle.hub_steps.specs.StepLine.{step_line_of, table, word_read, words_after};

use crate::step_line::{AgentUrl, Command, PosterCommand, PosterName, StepLine, StepLineError};
use hub_core::Action;
use hub_envelope::{AgentId, Body, EndId, Items, LineId, Text};
use hub_life::Event;
use hub_origin::{OriginError, origin_of};
use hub_text::{number_of as number_up_to, read_ends, split_once_at_byte, split_word};
use serde_json::Value;
use std::alloc::Global;

/// A step that is neither a post nor a take.
#[derive(Clone, Copy)]
pub(crate) enum RarerStep {
    Agent,
    Channel,
    Client,
    Worker,
    Member,
    Line,
    Back,
    Enter,
    Push,
    Leave,
    Hop,
    Start,
    Loaded,
    Look,
    Hand,
    Adopt,
    Close,
    Sweep,
    Cast,
    Part,
    Order,
    See,
    Event,
}

/// The step line that a text line is. Its tests come in the order of `StepLineError`, and from the
/// left; want of memory may come at a body, a list, a name or a URL.
// It is inlined, and so is what reads posts and takes on the way from here, since each call copies
// what was read.
#[inline(always)]
#[tactic(auto, unfolding(crate::specs::StepLine::step_line_of))]
pub fn read_step_line(alloc: Global, bytes: &[u8]) -> Result<StepLine, StepLineError>
    ensures read { IsReadAs StepLineError.OutOfMemory (λ x. x) result (step_line_of bytes.now) }
    ensures memory { IfErr result (λ e. e ≡ StepLineError.OutOfMemory
        → reads_memory bytes.now ≡ true) }
{
    let Ok(text) = str::from_utf8(bytes) else {
        return Err(StepLineError::BadUtf8);
    };
    let (memory_refused, text) = split_off_mark(text);
    let command = command_in(alloc, text)?;
    Ok(StepLine {
        command,
        memory_refused,
    })
}

/// Whether the mark `!` stands first, and what comes after it.
fn split_off_mark(text: &str) -> (bool, &str)
    ensures { (result.0, result.1.now) ≡ mark text.now }
{
    match text.strip_prefix('!') {
        Some(rest) => (true, rest),
        None => (false, text),
    }
}

/// What a text line with no mark asks for.
#[inline(always)]
#[tactic(auto, unfolding(crate::specs::StepLine::command_in))]
fn command_in(alloc: Global, text: &str) -> Result<Command, StepLineError>
    ensures read { IsReadAs StepLineError.OutOfMemory (λ x. x) result (command_in text.now) }
    ensures memory { IfErr result (λ e. e ≡ StepLineError.OutOfMemory
        → text_reads_memory text.now ≡ true) }
{
    match split_word(text) {
        Some((name, rest)) => command_of(alloc, name, Some(rest)),
        None => command_of(alloc, text, None),
    }
}

/// What the step of that name asks for. `rest` is what comes after the name and a space, where
/// there is a space.
// Posts and takes, which most step lines are, have a function of their own: one that reads each
// kind of step clears room for what each of them asks for.
#[inline(always)]
#[tactic(auto, unfolding(crate::specs::StepLine::command_of))]
fn command_of(alloc: Global, name: &str, rest: Option<&str>) -> Result<Command, StepLineError>
    ensures read { IsReadAs StepLineError.OutOfMemory (λ x. x) result
        (command_of name.now (option_map (λ x. x.now) rest.entry)) }
    ensures memory { IfErr result (λ e. e ≡ StepLineError.OutOfMemory
        → has_part name.now ≡ true) }
{
    match name {
        "post" => {
            let (poster, ports, body) = posting_in_rest(alloc, rest)?;
            Ok(Command::At(poster, PosterCommand::Post(ports, body)))
        }
        "take" => Ok(Command::Step(Action::Take(end_in_rest(rest)?))),
        _ => match rarer_step_named(name) {
            Some(step) => rarer_command_of(alloc, step, rest),
            None => Err(StepLineError::UnknownStep),
        },
    }
}

/// The step of that name. `None` where no step has it.
#[tactic(auto, using(crate::proofs::Names::equal))]
fn rarer_step_named(name: &str) -> Option<RarerStep>
    requires { (bytes_eq name.now (codes "post") ≡ false)
        × (bytes_eq name.now (codes "take") ≡ false) }
    ensures step { IfSome result (λ step. name.now ≡ spelled step) }
    ensures none { result ≡ None → row_named name.now table ≡ None }
{
    match name {
        "agent" => Some(RarerStep::Agent),
        "channel" => Some(RarerStep::Channel),
        "client" => Some(RarerStep::Client),
        "worker" => Some(RarerStep::Worker),
        "member" => Some(RarerStep::Member),
        "line" => Some(RarerStep::Line),
        "back" => Some(RarerStep::Back),
        "enter" => Some(RarerStep::Enter),
        "push" => Some(RarerStep::Push),
        "leave" => Some(RarerStep::Leave),
        "hop" => Some(RarerStep::Hop),
        "start" => Some(RarerStep::Start),
        "loaded" => Some(RarerStep::Loaded),
        "look" => Some(RarerStep::Look),
        "hand" => Some(RarerStep::Hand),
        "adopt" => Some(RarerStep::Adopt),
        "close" => Some(RarerStep::Close),
        "sweep" => Some(RarerStep::Sweep),
        "cast" => Some(RarerStep::Cast),
        "part" => Some(RarerStep::Part),
        "order" => Some(RarerStep::Order),
        "see" => Some(RarerStep::See),
        "event" => Some(RarerStep::Event),
        _ => None,
    }
}

/// What a step asks for that is neither a post nor a take.
#[tactic(auto, unfolding(crate::specs::StepLine::command_of))]
fn rarer_command_of(
    alloc: Global,
    step: RarerStep,
    rest: Option<&str>,
) -> Result<Command, StepLineError>
    ensures read { IsReadAs StepLineError.OutOfMemory (λ x. x) result
        (command_of (spelled step) (option_map (λ x. x.now) rest.entry)) }
    ensures memory { IfErr result (λ e. e ≡ StepLineError.OutOfMemory
        → has_part (spelled step) ≡ true) }
{
    match step {
        RarerStep::Agent => Ok(Command::Agent(origin_of_agent_url(alloc, one_word(rest)?)?)),
        RarerStep::Channel => Ok(Command::Step(Action::Channel(agent_in_rest(rest)?))),
        RarerStep::Client => Ok(Command::Step(Action::Client(agent_in_rest(rest)?))),
        RarerStep::Worker => Ok(Command::Worker(agent_in_rest(rest)?)),
        RarerStep::Member => {
            let (agent, name) = word_and_rest(rest)?;
            Ok(Command::Member(agent_in(agent)?, channel_name_in(alloc, name)?))
        }
        RarerStep::Line => {
            let (end, agent) = end_and_agent_in_rest(rest)?;
            Ok(Command::Step(Action::Line(end, agent)))
        }
        RarerStep::Back => Ok(Command::At(poster_in_rest(rest)?, PosterCommand::Back)),
        RarerStep::Enter => Ok(Command::At(poster_in_rest(rest)?, PosterCommand::Enter)),
        RarerStep::Push => {
            let (poster, ports, body) = posting_in_rest(alloc, rest)?;
            Ok(Command::At(poster, PosterCommand::Push(ports, body)))
        }
        RarerStep::Leave => Ok(Command::At(poster_in_rest(rest)?, PosterCommand::Leave)),
        RarerStep::Hop => Ok(Command::At(poster_in_rest(rest)?, PosterCommand::Hop)),
        RarerStep::Start => Ok(Command::Step(Action::Start(end_in_rest(rest)?))),
        RarerStep::Loaded => Ok(Command::Loaded(end_in_rest(rest)?)),
        RarerStep::Look => Ok(Command::Step(Action::Look(end_in_rest(rest)?))),
        RarerStep::Hand => {
            let (end, agent) = end_and_agent_in_rest(rest)?;
            Ok(Command::Step(Action::Hand(end, agent)))
        }
        RarerStep::Adopt => {
            let (end, agent) = end_and_agent_in_rest(rest)?;
            Ok(Command::Adopt(end, agent))
        }
        RarerStep::Close => Ok(Command::Close(end_in_rest(rest)?)),
        RarerStep::Sweep => Ok(Command::Sweep(end_in_rest(rest)?)),
        RarerStep::Cast => {
            let (end, list, body) = two_words_and_rest(rest)?;
            let end = end_in(end)?;
            let ports = end_list_in(alloc, list)?;
            Ok(Command::Cast(end, ports, Body::read(alloc, body)?))
        }
        RarerStep::Part => Ok(Command::Step(Action::Part(end_in_rest(rest)?))),
        RarerStep::Order => Ok(Command::Step(Action::Order(agent_in_rest(rest)?))),
        RarerStep::See => Ok(Command::See(agent_in_rest(rest)?)),
        RarerStep::Event => {
            let (agent, event) = two_words(rest)?;
            Ok(Command::Event(agent_in(agent)?, event_in(event)?))
        }
    }
}

fn agent_in_rest(rest: Option<&str>) -> Result<AgentId, StepLineError>
    ensures read { IsReadAs StepLineError.OutOfMemory (λ x. x) result
        (words_after (A ∷ []) (option_map (λ x. x.now) rest.entry)) }
    ensures memory { IfErr result (λ e. e ≢ StepLineError.OutOfMemory) }
{
    agent_in(one_word(rest)?)
}

fn end_in_rest(rest: Option<&str>) -> Result<EndId, StepLineError>
    ensures read { IsReadAs StepLineError.OutOfMemory (λ x. x) result
        (words_after (E ∷ []) (option_map (λ x. x.now) rest.entry)) }
    ensures memory { IfErr result (λ e. e ≢ StepLineError.OutOfMemory) }
{
    end_in(one_word(rest)?)
}

fn poster_in_rest(rest: Option<&str>) -> Result<PosterName, StepLineError>
    ensures read { IsReadAs StepLineError.OutOfMemory (λ x. x) result
        (words_after (P ∷ []) (option_map (λ x. x.now) rest.entry)) }
    ensures memory { IfErr result (λ e. e ≢ StepLineError.OutOfMemory) }
{
    poster_in(one_word(rest)?)
}

fn end_and_agent_in_rest(rest: Option<&str>) -> Result<(EndId, AgentId), StepLineError>
    ensures read { IsReadAs StepLineError.OutOfMemory (λ x. x) result
        (words_after (E ∷ A ∷ []) (option_map (λ x. x.now) rest.entry)) }
    ensures memory { IfErr result (λ e. e ≢ StepLineError.OutOfMemory) }
{
    let (end, agent) = two_words(rest)?;
    Ok((end_in(end)?, agent_in(agent)?))
}

/// What is posted, by whom.
#[inline(always)]
fn posting_in_rest(
    alloc: Global,
    rest: Option<&str>,
) -> Result<(PosterName, Items<EndId>, Body), StepLineError>
    ensures { IsReadAs StepLineError.OutOfMemory (λ x. (x.0, (x.1, x.2))) result
        (words_after (P ∷ LIST ∷ BODY ∷ []) (option_map (λ x. x.now) rest.entry)) }
{
    let (poster, list, body) = two_words_and_rest(rest)?;
    let poster = poster_in(poster)?;
    let ports = end_list_in(alloc, list)?;
    let body = Body::read(alloc, body)?;
    Ok((poster, ports, body))
}

/// One word, and no more.
fn one_word(rest: Option<&str>) -> Result<&str, StepLineError>
    ensures read { IsReadAs StepLineError.OutOfMemory (λ x. x.now) result
        (cut_after (E ∷ []) (option_map (λ x. x.now) rest.entry)) }
    ensures memory { IfErr result (λ e. e ≢ StepLineError.OutOfMemory) }
{
    let Some(text) = rest else {
        return Err(StepLineError::BadWords);
    };
    only_word(text)
}

/// Two words, and no more.
fn two_words(rest: Option<&str>) -> Result<(&str, &str), StepLineError>
    ensures read { IsReadAs StepLineError.OutOfMemory (λ x. (x.0.now, x.1.now)) result
        (cut_after (E ∷ A ∷ []) (option_map (λ x. x.now) rest.entry)) }
    ensures memory { IfErr result (λ e. e ≢ StepLineError.OutOfMemory) }
{
    let (first, rest) = word_and_rest(rest)?;
    let second = only_word(rest)?;
    Ok((first, second))
}

/// A word, and all that comes after its space.
fn word_and_rest(rest: Option<&str>) -> Result<(&str, &str), StepLineError>
    ensures read { IsReadAs StepLineError.OutOfMemory (λ x. (x.0.now, x.1.now)) result
        (cut_after (A ∷ NAME ∷ []) (option_map (λ x. x.now) rest.entry)) }
    ensures memory { IfErr result (λ e. e ≢ StepLineError.OutOfMemory) }
{
    let Some(text) = rest else {
        return Err(StepLineError::BadWords);
    };
    match split_word(text) {
        Some(parts) => Ok(parts),
        None => Err(StepLineError::BadWords),
    }
}

/// Two words, and all that comes after them.
fn two_words_and_rest(rest: Option<&str>) -> Result<(&str, &str, &str), StepLineError>
    ensures read { IsReadAs StepLineError.OutOfMemory (λ x. (x.0.now, (x.1.now, x.2.now))) result
        (cut_after (P ∷ LIST ∷ BODY ∷ []) (option_map (λ x. x.now) rest.entry)) }
    ensures memory { IfErr result (λ e. e ≢ StepLineError.OutOfMemory) }
{
    let (first, rest) = word_and_rest(rest)?;
    let (second, third) = word_and_rest(Some(rest))?;
    Ok((first, second, third))
}

/// The last word of a step line.
fn only_word(text: &str) -> Result<&str, StepLineError>
    ensures read { IsReadAs StepLineError.OutOfMemory (λ x. x.now) result
        (only_word false text.now) }
    ensures memory { IfErr result (λ e. e ≢ StepLineError.OutOfMemory) }
{
    match split_word(text) {
        None => Ok(text),
        Some(_) => Err(StepLineError::BadWords),
    }
}

/// No agent has the number 255, so each number that names no agent may be read as that one.
fn agent_in(word: &str) -> Result<AgentId, StepLineError>
    ensures read { IsReadAs StepLineError.OutOfMemory (λ x. x) result (word_read A word.now) }
    ensures memory { IfErr result (λ e. e ≢ StepLineError.OutOfMemory) }
{
    match number_read(word) {
        Some(number) => Ok(AgentId(u8::try_from(number).unwrap_or(u8::MAX))),
        None => Err(StepLineError::BadNumber),
    }
}

fn end_in(word: &str) -> Result<EndId, StepLineError>
    ensures read { IsReadAs StepLineError.OutOfMemory (λ x. x) result (word_read E word.now) }
    ensures memory { IfErr result (λ e. e ≢ StepLineError.OutOfMemory) }
{
    match number_read(word) {
        Some(number) => Ok(EndId(number)),
        None => Err(StepLineError::BadNumber),
    }
}

/// A number of a step line: decimal digits without leading zeros, below 2^32.
fn number_read(word: &str) -> Option<u32>
    ensures { result ≡ number_read word.now }
{
    let number = number_up_to(word, u64::from(u32::MAX))?;
    u32::try_from(number).ok()
}

fn poster_in(word: &str) -> Result<PosterName, StepLineError>
    ensures read { IsReadAs StepLineError.OutOfMemory (λ x. x) result (word_read P word.now) }
    ensures memory { IfErr result (λ e. e ≢ StepLineError.OutOfMemory) }
{
    match poster_named(word) {
        Some(poster) => Ok(poster),
        None => Err(StepLineError::BadPoster),
    }
}

/// The poster of the port that one number names, or of the line that two numbers joined by `/`
/// name.
fn poster_named(word: &str) -> Option<PosterName>
    ensures { result ≡ poster_named word.now }
{
    let Some((end, line)) = split_once_at_byte(word, b'/') else {
        return Some(PosterName::Port(EndId(number_read(word)?)));
    };
    let end = EndId(number_read(end)?);
    let line = line_id_from_number(number_read(line)?);
    Some(PosterName::Line(end, line))
}

/// No end has a line 255, so each number that names no line may be read as that one.
fn line_id_from_number(number: u32) -> LineId
    ensures { result ≡ line_read number }
{
    LineId(u8::try_from(number).unwrap_or(u8::MAX))
}

#[inline(always)]
fn end_list_in(alloc: Global, word: &str) -> Result<Items<EndId>, StepLineError>
    ensures { IsReadAs StepLineError.OutOfMemory (λ x. x) result (word_read LIST word.now) }
{
    match read_ends(alloc, word, u32::MAX) {
        Ok(Some(list)) => Ok(list),
        Ok(None) => Err(StepLineError::BadList),
        Err(_) => Err(StepLineError::OutOfMemory),
    }
}

fn event_in(word: &str) -> Result<Event, StepLineError>
    ensures read { IsReadAs StepLineError.OutOfMemory (λ x. x) result (word_read WORD word.now) }
    ensures memory { IfErr result (λ e. e ≢ StepLineError.OutOfMemory) }
{
    match Event::named(word) {
        Some(event) => Ok(event),
        None => Err(StepLineError::BadEvent),
    }
}

/// The origin of a URL, or why it gives none.
#[tactic(auto, unfolding(crate::specs::StepLine::url_read))]
fn origin_of_agent_url(alloc: Global, word: &str) -> Result<AgentUrl, StepLineError>
    ensures { IsReadAs StepLineError.OutOfMemory (λ x. x) result (word_read U word.now) }
{
    if word == "-" {
        return Ok(AgentUrl::NoUrl);
    }
    match origin_of(alloc, word) {
        Ok(origin) => Ok(AgentUrl::Origin(origin)),
        Err(OriginError::BadUrl) => Ok(AgentUrl::BadUrl),
        Err(OriginError::OpaqueOrigin) => Ok(AgentUrl::OpaqueOrigin),
        Err(OriginError::OutOfMemory) => Err(StepLineError::OutOfMemory),
    }
}

/// The JSON string that a text is.
#[tactic(auto, unfolding(crate::specs::StepLine::name_read))]
fn channel_name_in(alloc: Global, text: &str) -> Result<Text, StepLineError>
    ensures { IsReadAs StepLineError.OutOfMemory (λ x. x) result (word_read NAME text.now) }
{
    let value = match Value::from_str(alloc, text) {
        Ok(value) => value,
        Err(error) if error.is_memory() => return Err(StepLineError::OutOfMemory),
        Err(_) => return Err(StepLineError::BadName),
    };
    match value.as_str() {
        Some(name) => Ok(Text::of(alloc, name)?),
        None => Err(StepLineError::BadName),
    }
}
