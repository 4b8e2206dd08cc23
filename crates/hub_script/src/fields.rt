//! The fields of the JSON object that a text line is, by what they may have.

ghost use Rattle.std.specs.Prelude.{IfOk};
ghost use Rattle.hub_envelope.specs.Answer.{answer_of};
ghost use Rattle.hub_script.specs.Fields.{IsRead, field_in, texts_of, value_in};
ghost use Rattle.hub_script.specs.Shapes.{BODY, EVENT, KIND, LIST, NUMBER, PAIR, QUEUE_WORD};
ghost use Rattle.hub_script.specs.Shapes.{TEXT, URL};
ghost use Rattle.hub_script.specs.JsonData.{IsWritable, data_in};
ghost use Rattle.hub_text.specs.Reading.{IsReadAs};
ghost use Rattle.json.specs.Value.{value_view};

use crate::error::ScriptError;
use crate::script::AgentKind;
use crate::values::{field_of, items_of, str_of, u64_of};
use hub_envelope::{Body, BodyError, Items, Text};
use hub_life::Event;
use hub_origin::{Origin, OriginError, origin_of};
use json::{Value, to_vec};
use std::alloc::Global;

/// The name that stands for an agent's own queue. No port or member can have it.
pub(crate) const QUEUE: &str = "queue";

fn value_of_field<'v, 'a>(line: &'v Value<'a>, name: &str) -> Result<&'v Value<'a>, ScriptError>
    ensures says { IsReadAs ScriptError.OutOfMemory (λ v. data_in v.now) result
        (value_in name.now (data_in line.now)) }
    ensures writable { IfOk result
        (λ v. IsWritable (value_view line.now) → IsWritable (value_view v.now)) }
{
    match field_of(line, name) {
        Some(value) => Ok(value),
        None => Err(ScriptError::Syntax),
    }
}

fn str_in<'a>(line: &Value<'a>, name: &str) -> Result<&'a str, ScriptError>
    ensures { IsReadAs ScriptError.OutOfMemory (λ word. word.now) result
        (field_in TEXT name.now (data_in line.now)) }
{
    match field_of(line, name).and_then(str_of) {
        Some(word) => Ok(word),
        None => Err(ScriptError::Syntax),
    }
}

pub(crate) fn text_in(alloc: Global, line: &Value<'_>, name: &str) -> Result<Text, ScriptError>
    ensures { IsRead result (field_in TEXT name.now (data_in line.now)) }
{
    Ok(Text::of(alloc, str_in(line, name)?)?)
}

/// A whole number below 2^32.
pub(crate) fn number_in(line: &Value<'_>, name: &str) -> Result<u32, ScriptError>
    ensures { IsRead result (field_in NUMBER name.now (data_in line.now)) }
{
    match field_of(line, name).and_then(u64_of) {
        Some(number) if number <= u64::from(u32::MAX) => Ok(number as u32),
        _ => Err(ScriptError::Syntax),
    }
}

pub(crate) fn kind_in(line: &Value<'_>, name: &str) -> Result<AgentKind, ScriptError>
    ensures { IsRead result (field_in KIND name.now (data_in line.now)) }
{
    match str_in(line, name)? {
        "window" => Ok(AgentKind::Window),
        "worker" => Ok(AgentKind::Worker),
        _ => Err(ScriptError::Syntax),
    }
}

/// What `origin_of` answers, unless memory runs out.
pub(crate) fn origin_in(
    alloc: Global,
    line: &Value<'_>,
    name: &str,
) -> Result<Result<Origin, OriginError>, ScriptError>
    ensures { IsRead result (field_in URL name.now (data_in line.now)) }
{
    let url = str_in(line, name)?;
    match origin_of(alloc, url) {
        Err(OriginError::OutOfMemory) => Err(ScriptError::OutOfMemory),
        answer => Ok(answer),
    }
}

/// The texts of an array of two.
pub(crate) fn pair_of_texts_in(
    alloc: Global,
    line: &Value<'_>,
    name: &str,
) -> Result<(Text, Text), ScriptError>
    ensures { IsRead result (field_in PAIR name.now (data_in line.now)) }
{
    let texts = texts_of(alloc, value_of_field(line, name)?)?;
    match texts.as_slice() {
        [first, second] => Ok((first.clone()?, second.clone()?)),
        _ => Err(ScriptError::Syntax),
    }
}

/// What `Body::read` answers of the value's text, unless memory runs out.
pub(crate) fn body_in(
    alloc: Global,
    line: &Value<'_>,
    name: &str,
) -> Result<Result<Body, BodyError>, ScriptError>
    requires writable { IsWritable (value_view line.now) }
    ensures { IsRead result (field_in BODY name.now (data_in line.now)) }
{
    let value = value_of_field(line, name)?;
    let bytes = to_vec(alloc, value)?;
    parse_body(alloc, str::from_utf8(&bytes).unwrap())
}

/// What `Body::read` answers, unless memory runs out.
fn parse_body(alloc: Global, text: &str) -> Result<Result<Body, BodyError>, ScriptError>
    ensures { IsRead result (Ok (answer_of text.now)) }
{
    match Body::read(alloc, text) {
        Err(BodyError::OutOfMemory) => Err(ScriptError::OutOfMemory),
        answer => Ok(answer),
    }
}

/// The texts of an array, none where the field is missing.
pub(crate) fn text_list_in(
    alloc: Global,
    line: &Value<'_>,
    name: &str,
) -> Result<Items<Text>, ScriptError>
    ensures { IsRead result (field_in LIST name.now (data_in line.now)) }
{
    match field_of(line, name) {
        Some(value) => texts_of(alloc, value),
        None => Ok(Items::none(alloc)),
    }
}

/// The texts of an array.
fn texts_of(alloc: Global, value: &Value<'_>) -> Result<Items<Text>, ScriptError>
    ensures { IsRead result (texts_of (data_in value.now)) }
{
    let Some(list) = items_of(value) else {
        return Err(ScriptError::Syntax);
    };
    let mut texts = Items::none(alloc);
    for item in list {
        let Some(text) = str_of(item) else {
            return Err(ScriptError::Syntax);
        };
        texts.push(Text::of(alloc, text)?)?;
    }
    Ok(texts)
}

/// The word `queue`.
pub(crate) fn require_queue_word(line: &Value<'_>, name: &str) -> Result<(), ScriptError>
    ensures { IsRead result (field_in QUEUE_WORD name.now (data_in line.now)) }
{
    if str_in(line, name)? == QUEUE {
        Ok(())
    } else {
        Err(ScriptError::Syntax)
    }
}

pub(crate) fn event_in(line: &Value<'_>, name: &str) -> Result<Event, ScriptError>
    ensures { IsRead result (field_in EVENT name.now (data_in line.now)) }
{
    match Event::named(str_in(line, name)?) {
        Some(event) => Ok(event),
        None => Err(ScriptError::Syntax),
    }
}
