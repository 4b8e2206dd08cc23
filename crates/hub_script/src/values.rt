//! What a JSON value is as data. Its strings are parts of the text line, or of the reader's memory.

ghost use Rattle.std.specs.Prelude.{◌≡◌, IfSome, is_some, option_and_then, option_map};
ghost use Rattle.json.specs.Value.{items_view, members_view, value_view};
ghost use Rattle.serde_json.specs.Find.{as_array, as_number, as_object, as_str, as_u64, get};
ghost use Rattle.hub_script.specs.JsonData.{IsWritable, data_in, are_numbers_in_range, items_in};
ghost use Rattle.hub_script.specs.JsonData.{items_in_range, members_in_range};

use crate::number::number_of;
use json::Value;

/// The field of that name, the last one where there are several.
pub(crate) fn field_of<'v, 'a>(line: &'v Value<'a>, name: &str) -> Option<&'v Value<'a>>
    ensures value { option_map (λ v. data_in v.now) result ≡ get name.now (data_in line.now) }
    ensures writable { IfSome result
        (λ v. IsWritable (value_view line.now) → IsWritable (value_view v.now)) }
{
    line.get(name)
}

pub(crate) fn is_object(value: &Value<'_>) -> bool
    ensures { result ≡ is_some (as_object (data_in value.now)) }
{
    matches!(value, Value::Object(_))
}

pub(crate) fn str_of<'a>(value: &Value<'a>) -> Option<&'a str>
    ensures { option_map (λ s. s.now) result ≡ as_str (data_in value.now) }
{
    value.as_str()
}

pub(crate) fn u64_of(value: &Value<'_>) -> Option<u64>
    ensures { result ≡ option_and_then as_u64 (as_number (data_in value.now)) }
{
    match value {
        Value::Number(text) => number_of(text)?.as_u64(),
        _ => None,
    }
}

pub(crate) fn items_of<'v, 'a>(value: &'v Value<'a>) -> Option<&'v Vec<Value<'a>>>
    ensures { option_map (λ v. items_in v.now.items) result ≡ as_array (data_in value.now) }
{
    match value {
        Value::Array(items) => Some(items),
        _ => None,
    }
}

/// Whether each number in the value is in range.
#[cycle(are_numbers_in_range)]
pub(crate) fn are_numbers_in_range(value: &Value<'_>) -> bool
    ensures { result ≡ are_numbers_in_range (value_view value.now) }
{
    match value {
        Value::Null | Value::Bool(_) | Value::String(_) => true,
        Value::Number(text) => number_of(text).is_some(),
        Value::Array(items) => are_numbers_of_json_items_in_range(items),
        Value::Object(members) => are_numbers_of_json_members_in_range(members),
    }
}

#[cycle(are_numbers_in_range)]
fn are_numbers_of_json_items_in_range(items: &[Value<'_>]) -> bool
    ensures { result ≡ items_in_range (items_view items.now) }
{
    for item in items {
        if !are_numbers_in_range(item) {
            return false;
        }
    }
    true
}

#[cycle(are_numbers_in_range)]
fn are_numbers_of_json_members_in_range(members: &[(&str, Value<'_>)]) -> bool
    ensures { result ≡ members_in_range (members_view members.now) }
{
    for member in members {
        if !are_numbers_in_range(&member.1) {
            return false;
        }
    }
    true
}
