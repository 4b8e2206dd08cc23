//! What a body asks of a JSON value: whole numbers, and so many levels at most.

ghost use Rattle.std.specs.Prelude.{◌≡◌, ◌≤◌, ◌↔◌, not, IsTrue};
ghost use Rattle.serde_json.specs.Data.{depth, items_depth, members_depth};
ghost use Rattle.serde_json.specs.View.{view, items_view, members_view};
ghost use Rattle.serde_json.specs.Written.{has_float, items_have_float, members_have_float};

use serde_json::Value;
use serde_json::value::Map;

/// Whether each number in the value is whole and fits 64 bits.
#[cycle(json_value_has_whole_numbers)]
pub(crate) fn json_value_has_whole_numbers(value: &Value) -> bool
    ensures { result ≡ not (has_float (view value.now)) }
{
    match value {
        Value::Null | Value::Bool(_) | Value::String(_) => true,
        Value::Number(number) => !number.is_f64(),
        Value::Array(items) => items_have_whole_numbers(items),
        Value::Object(members) => json_members_have_whole_numbers(members),
    }
}

#[cycle(json_value_has_whole_numbers)]
fn items_have_whole_numbers(items: &[Value]) -> bool
    ensures { result ≡ not (items_have_float (items_view items.now)) }
{
    for item in items {
        if !json_value_has_whole_numbers(item) {
            return false;
        }
    }
    true
}

#[cycle(json_value_has_whole_numbers)]
fn json_members_have_whole_numbers(members: &Map<String, Value>) -> bool
    ensures { result ≡ not (members_have_float (members_view members.now.entries)) }
{
    for (_, member) in members.iter() {
        if !json_value_has_whole_numbers(member) {
            return false;
        }
    }
    true
}

/// Whether arrays and objects nest at most `levels` deep in the value.
#[cycle(json_value_nests_within)]
pub(crate) fn json_value_nests_within(value: &Value, levels: usize) -> bool
    ensures { IsTrue result ↔ (depth (view value.now) ≤ levels) }
{
    match value {
        Value::Null | Value::Bool(_) | Value::Number(_) | Value::String(_) => true,
        Value::Array(items) => levels > 0 && items_nest_within(items, levels - 1),
        Value::Object(members) => levels > 0 && json_members_nest_within(members, levels - 1),
    }
}

#[cycle(json_value_nests_within)]
fn items_nest_within(items: &[Value], levels: usize) -> bool
    ensures { IsTrue result ↔ (items_depth (items_view items.now) ≤ levels) }
{
    for item in items {
        if !json_value_nests_within(item, levels) {
            return false;
        }
    }
    true
}

#[cycle(json_value_nests_within)]
fn json_members_nest_within(members: &Map<String, Value>, levels: usize) -> bool
    ensures { IsTrue result ↔ (members_depth (members_view members.now.entries) ≤ levels) }
{
    for (_, member) in members.iter() {
        if !json_value_nests_within(member, levels) {
            return false;
        }
    }
    true
}
