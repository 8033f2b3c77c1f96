//! Whether JSON values are trees.
ghost use Rattle.std.specs.Prelude.{◌≡◌, is_some};
ghost use Rattle.serde_json.specs.View.{view, items_view, members_view};
ghost use Rattle.asl_model.specs.Json.{tree_of, elements_of, members_of};

use serde_json::{Map, Value};

/// Whether a JSON value is a tree: every number in it is whole and fits an `i64`.
#[cycle(whole)]
pub fn is_whole(value: &Value) -> bool
    ensures { result ≡ is_some (tree_of (view value.now)) }
{
    match value {
        Value::Null | Value::Bool(_) | Value::String(_) => true,
        Value::Number(number) => number.is_i64(),
        Value::Array(items) => are_elements_whole(items),
        Value::Object(members) => are_members_whole(members),
    }
}

#[cycle(whole)]
fn are_elements_whole(items: &[Value]) -> bool
    ensures { result ≡ is_some (elements_of (items_view items.now)) }
{
    for item in items {
        if !is_whole(item) {
            return false;
        }
    }
    true
}

#[cycle(whole)]
fn are_members_whole(members: &Map<String, Value>) -> bool
    ensures { result ≡ is_some (members_of (members_view members.now.entries)) }
{
    for (_, member) in members.iter() {
        if !is_whole(member) {
            return false;
        }
    }
    true
}
