//! The form of a text line, field by field.

ghost use Rattle.std.specs.Prelude.{◌≡◌, ◌≤◌, [], ◌∷◌, true, codes, IfErr, IfOk, OnOk};
ghost use Rattle.std.specs.List.{list_all};
ghost use Rattle.std.specs.Str.{is_utf8};
ghost use Rattle.hub_script.specs.Fields.{IsRead};
ghost use Rattle.hub_script.specs.Form.{fields_in, form_by, form_of, form_with, has_only};
ghost use Rattle.hub_script.specs.Form.{json_object_in_text, form_in_text};
ghost use Rattle.hub_script.specs.Shapes.{NUMBER, has_name};
ghost use Rattle.hub_script.specs.JsonData.{IsWritable, data_in, read_json, json_names};
ghost use Rattle.hub_text.specs.Reading.{IsReadAs, some_or};
ghost use Rattle.json.specs.Tree.{HasNumbers, depth};
ghost use Rattle.json.specs.Value.{members_view, value_view};
ghost use Rattle.serde_json.specs.Read.{max_depth, read};

use crate::error::ScriptError;
use crate::fields::{
    body_in, event_in, kind_in, number_in, origin_in, pair_of_texts_in, require_queue_word,
    text_in, text_list_in,
};
use crate::form::{ActionForm, Form};
use crate::keyword::Keyword;
use crate::values::{are_numbers_in_range, is_object};
use json::{Error, Reader, Scratch, Value};
use std::alloc::Global;

/// How deep arrays and objects may nest in a text line.
const MAX_DEPTH: usize = 127;

/// The form that a text line has.
#[tactic(auto, unfolding(crate::specs::Form::form_of))]
pub(crate) fn read_form(
    alloc: Global,
    scratch: &mut Scratch,
    bytes: &[u8],
) -> Result<Form, ScriptError>
    ensures says { IsRead result (form_of bytes.now) }
    // Only a text takes memory.
    ensures memory { IfErr result (λ e. e ≡ ScriptError.OutOfMemory → is_utf8 bytes.now ≡ true) }
    ensures utf8 { OnOk result (is_utf8 bytes.now ≡ true) }
{
    let Ok(text) = str::from_utf8(bytes) else {
        return Err(ScriptError::Syntax);
    };
    parse_form(alloc, scratch, text)
}

/// The form of the JSON object that the text is.
#[tactic(auto, unfolding(crate::specs::Form::form_in_text))]
fn parse_form(alloc: Global, scratch: &mut Scratch, text: &str) -> Result<Form, ScriptError>
    ensures { IsRead result (form_in_text text.now) }
{
    let line = json_object_in_text(alloc, scratch, text)?;
    let Some(keyword) = Keyword::first_in_fields_of_object(&line) else {
        return Err(ScriptError::UnknownAction);
    };
    read_form_with_known_fields(alloc, keyword, &line)
}

/// The JSON object that the text is.
fn json_object_in_text<'a>(
    alloc: Global,
    scratch: &'a mut Scratch,
    text: &'a str,
) -> Result<Value<'a>, ScriptError>
    ensures says { IsReadAs ScriptError.OutOfMemory data_in result (json_object_in_text text.now) }
    ensures writable { IfOk result (λ line. IsWritable (value_view line)) }
{
    let line = read_json_with_numbers_in_range(alloc, scratch, text)?;
    if is_object(&line) {
        Ok(line)
    } else {
        Err(ScriptError::Syntax)
    }
}

/// The JSON value that the text is, where its numbers are in range.
fn read_json_with_numbers_in_range<'a>(
    alloc: Global,
    scratch: &'a mut Scratch,
    text: &'a str,
) -> Result<Value<'a>, ScriptError>
    ensures says { IsReadAs ScriptError.OutOfMemory data_in result
        (some_or ScriptError.Syntax (read text.now)) }
    ensures writable { IfOk result (λ value. IsWritable (value_view value)) }
{
    let value = read_json(alloc, scratch, text)?;
    if are_numbers_in_range(&value) {
        Ok(value)
    } else {
        Err(ScriptError::Syntax)
    }
}

/// The JSON value that the text is, whatever its numbers are.
fn read_json<'a>(
    alloc: Global,
    scratch: &'a mut Scratch,
    text: &'a str,
) -> Result<Value<'a>, ScriptError>
    ensures says { IsReadAs ScriptError.OutOfMemory value_view result
        (some_or ScriptError.Syntax (read_json text.now)) }
    ensures numbers { IfOk result (λ value. HasNumbers (value_view value)) }
    ensures nests { IfOk result (λ value. depth (value_view value) ≤ max_depth) }
{
    let mut reader = Reader::new(text, scratch)?;
    let value = match Value::read(alloc, &mut reader, MAX_DEPTH) {
        Ok(value) => value,
        Err(Error::Invalid) => return Err(ScriptError::Syntax),
        Err(_) => return Err(ScriptError::OutOfMemory),
    };
    if reader.next().is_some() {
        return Err(ScriptError::Syntax);
    }
    Ok(value)
}

/// The form that the keyword stands for.
#[tactic(auto, unfolding(crate::specs::Form::form_with))]
fn read_form_with_known_fields(
    alloc: Global,
    keyword: Keyword,
    line: &Value<'_>,
) -> Result<Form, ScriptError>
    requires writable { IsWritable (value_view line.now) }
    ensures { IsRead result (form_with keyword (data_in line.now)) }
{
    if has_only_form_fields(keyword, line) {
        read_form_by_keyword(alloc, keyword, line)
    } else {
        Err(ScriptError::Syntax)
    }
}

/// The form that the keyword's fields make.
fn read_form_by_keyword(
    alloc: Global,
    keyword: Keyword,
    line: &Value<'_>,
) -> Result<Form, ScriptError>
    requires writable { IsWritable (value_view line.now) }
    ensures { IsRead result (form_by keyword (data_in line.now)) }
{
    match keyword {
        Keyword::Agent => read_agent_form(alloc, line),
        Keyword::Channel => read_message_channel_form(alloc, line),
        Keyword::Member => read_member_form(alloc, line),
        Keyword::Post => read_post_form(alloc, line),
        Keyword::Send => read_send_form(alloc, line),
        Keyword::Cast => read_cast_form(alloc, line),
        Keyword::Start => {
            let name = text_in(alloc, line, "start")?;
            read_acting_agent_into_form(line, ActionForm::Start { name })
        }
        Keyword::Loaded => {
            require_queue_word(line, "loaded")?;
            read_acting_agent_into_form(line, ActionForm::Loaded)
        }
        Keyword::Close => {
            let name = text_in(alloc, line, "close")?;
            read_acting_agent_into_form(line, ActionForm::Close { name })
        }
        Keyword::Wait => {
            let messages = number_in(line, "wait")?;
            read_acting_agent_into_form(line, ActionForm::Wait { messages })
        }
        Keyword::Receive => {
            let port = text_in(alloc, line, "receive")?;
            read_acting_agent_into_form(line, ActionForm::Receive { port })
        }
        Keyword::Order => {
            let to = number_in(line, "order")?;
            read_acting_agent_into_form(line, ActionForm::Order { to })
        }
        Keyword::Event => {
            let event = event_in(line, "event")?;
            read_acting_agent_into_form(line, ActionForm::Event { event })
        }
        Keyword::Hand => {
            let to = number_in(line, "hand")?;
            read_acting_agent_into_form(line, ActionForm::Hand { to })
        }
        Keyword::Fetch => {
            let from = number_in(line, "fetch")?;
            read_acting_agent_into_form(line, ActionForm::Fetch { from })
        }
    }
}

/// Each field of the object is one of the form's.
fn has_only_form_fields(keyword: Keyword, line: &Value<'_>) -> bool
    ensures { result ≡ has_only keyword (data_in line.now) }
{
    match line {
        Value::Object(fields) => are_all_fields_of_keyword(keyword, fields),
        _ => true,
    }
}

/// Each name is that of a field of the form.
fn are_all_fields_of_keyword(keyword: Keyword, fields: &[(&str, Value<'_>)]) -> bool
    ensures { result ≡ list_all (has_name keyword) (json_names (members_view fields.now)) }
{
    for field in fields {
        if !keyword.allows_field(field.0) {
            return false;
        }
    }
    true
}

/// The action of the agent that the field `at` names.
fn read_acting_agent_into_form(line: &Value<'_>, action: ActionForm) -> Result<Form, ScriptError>
    ensures { IsRead result (fields_in ((codes "at", NUMBER) ∷ []) (λ at. Form.Action at action)
        (data_in line.now)) }
{
    let at = number_in(line, "at")?;
    Ok(Form::Action { at, action })
}

fn read_agent_form(alloc: Global, line: &Value<'_>) -> Result<Form, ScriptError>
    ensures { IsRead result (form_by Keyword.Agent (data_in line.now)) }
{
    let kind = kind_in(line, "agent")?;
    let origin = origin_in(alloc, line, "origin")?;
    Ok(Form::Agent { kind, origin })
}

fn read_message_channel_form(alloc: Global, line: &Value<'_>) -> Result<Form, ScriptError>
    ensures { IsRead result (form_by Keyword.Channel (data_in line.now)) }
{
    let (first, second) = pair_of_texts_in(alloc, line, "channel")?;
    let at = number_in(line, "at")?;
    Ok(Form::Channel { first, second, at })
}

fn read_member_form(alloc: Global, line: &Value<'_>) -> Result<Form, ScriptError>
    ensures { IsRead result (form_by Keyword.Member (data_in line.now)) }
{
    let name = text_in(alloc, line, "member")?;
    let at = number_in(line, "at")?;
    let on = text_in(alloc, line, "on")?;
    Ok(Form::Member { name, at, on })
}

fn read_post_form(alloc: Global, line: &Value<'_>) -> Result<Form, ScriptError>
    requires writable { IsWritable (value_view line.now) }
    ensures { IsRead result (form_by Keyword.Post (data_in line.now)) }
{
    let port = text_in(alloc, line, "post")?;
    let body = body_in(alloc, line, "body")?;
    let transfer = text_list_in(alloc, line, "transfer")?;
    read_acting_agent_into_form(
        line,
        ActionForm::Post {
            port,
            body,
            transfer,
        },
    )
}

fn read_send_form(alloc: Global, line: &Value<'_>) -> Result<Form, ScriptError>
    requires writable { IsWritable (value_view line.now) }
    ensures { IsRead result (form_by Keyword.Send (data_in line.now)) }
{
    let to = number_in(line, "send")?;
    let body = body_in(alloc, line, "body")?;
    let transfer = text_list_in(alloc, line, "transfer")?;
    read_acting_agent_into_form(line, ActionForm::Send { to, body, transfer })
}

fn read_cast_form(alloc: Global, line: &Value<'_>) -> Result<Form, ScriptError>
    requires writable { IsWritable (value_view line.now) }
    ensures { IsRead result (form_by Keyword.Cast (data_in line.now)) }
{
    let member = text_in(alloc, line, "cast")?;
    let body = body_in(alloc, line, "body")?;
    read_acting_agent_into_form(line, ActionForm::Cast { member, body })
}
