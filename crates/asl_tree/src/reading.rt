//! Reading trees from JSON texts (RFC 8259).
ghost use Rattle.std.specs.Prelude.{◌≡◌, IfOk, Err, None, Some};
ghost use Rattle.serde_json.specs.Data.{Data, number};
ghost use Rattle.serde_json.specs.View.{view as json_view, number_view, items_view, members_view};
ghost use Rattle.asl_model.specs.Json.{ReadsAsValue, ReadsAsTree, tree_of, elements_of, members_of};
ghost use Rattle.asl_tree.specs.View.{view, elements_view, entries_view};
ghost use Rattle.asl_tree.specs.declared.TreeRefusal.TheVariants.{NotJson, NotWhole};

use crate::parsing::parse;
use crate::{Tree, TreeRefusal};
use serde_json::{Map, Number, Value};
use std::alloc::Global;
use std::collections::BTreeMap;

/// The JSON value that the bytes of `text` are.
///
/// Refuses as [`TreeRefusal::NotJson`] what isn't UTF-8, what is no JSON (RFC 8259), and what nests deeper than 127.
/// The last value of a repeated field name stays.
pub fn read_value(alloc: Global, text: &[u8]) -> Result<Value, TreeRefusal>
    ensures value { IfOk result (λ v. ReadsAsValue text.now (json_view v)) }
    ensures no_value { result ≡ Err NotJson → (v : Data) → ¬ ReadsAsValue text.now v }
    ensures of_text { ¬ (result ≡ Err NotWhole) }
{
    let Ok(text) = str::from_utf8(text) else {
        return Err(TreeRefusal::NotJson);
    };
    match Value::from_str(alloc, text) {
        Ok(value) => Ok(value),
        Err(error) => {
            if error.is_memory() {
                Err(TreeRefusal::OutOfMemory)
            } else {
                Err(TreeRefusal::NotJson)
            }
        }
    }
}

/// The tree that a JSON value is.
///
/// Refuses as [`TreeRefusal::NotWhole`] a value with a number that isn't whole or is out of an `i64`'s range.
#[cycle(build)]
pub fn from_value(alloc: Global, value: &Value) -> Result<Tree, TreeRefusal>
    ensures tree { IfOk result (λ t. tree_of (json_view value.now) ≡ Some (view t)) }
    ensures no_tree { result ≡ Err NotWhole → tree_of (json_view value.now) ≡ None }
    ensures of_value { ¬ (result ≡ Err NotJson) }
{
    match value {
        Value::Null => Ok(Tree::Null),
        Value::Bool(b) => Ok(Tree::Bool(*b)),
        Value::Number(number) => integer_from(number),
        Value::String(text) => Ok(Tree::Text(text.clone()?)),
        Value::Array(items) => Ok(Tree::List(elements_from(alloc, items)?)),
        Value::Object(members) => Ok(Tree::Object(fields_from(alloc, members)?)),
    }
}

/// The integer that a JSON number is.
fn integer_from(found: &Number) -> Result<Tree, TreeRefusal>
    ensures integer { IfOk result (λ t. tree_of (number (number_view found.now)) ≡ Some (view t)) }
    ensures no_integer { result ≡ Err NotWhole → tree_of (number (number_view found.now)) ≡ None }
    ensures of_value { ¬ (result ≡ Err NotJson) }
{
    match found.as_i64() {
        Some(n) => Ok(Tree::Int(n)),
        None => Err(TreeRefusal::NotWhole),
    }
}

#[cycle(build)]
fn elements_from(alloc: Global, items: &Vec<Value>) -> Result<Vec<Tree>, TreeRefusal>
    ensures elements { IfOk result
        (λ v. elements_of (items_view items.now.items) ≡ Some (elements_view v.items)) }
    ensures no_elements { result ≡ Err NotWhole → elements_of (items_view items.now.items) ≡ None }
    ensures of_value { ¬ (result ≡ Err NotJson) }
{
    let mut elements = Vec::with_capacity(alloc, items.len())?;
    for item in items {
        elements.push(from_value(alloc, item)?)?;
    }
    Ok(elements)
}

#[cycle(build)]
fn fields_from(
    alloc: Global,
    members: &Map<String, Value>,
) -> Result<BTreeMap<String, Tree>, TreeRefusal>
    ensures fields { IfOk result
        (λ m. members_of (members_view members.now.entries) ≡ Some (entries_view m.entries)) }
    ensures no_fields { result ≡ Err NotWhole
        → members_of (members_view members.now.entries) ≡ None }
    ensures of_value { ¬ (result ≡ Err NotJson) }
{
    let mut fields = BTreeMap::new(alloc);
    for (name, member) in members.iter() {
        let key = name.clone()?;
        drop(fields.insert(key, from_value(alloc, member)?)?);
    }
    Ok(fields)
}

/// The tree that the bytes of `text` are: [`read_value`], then [`from_value`], in one pass where it is a tree.
pub fn read(alloc: Global, text: &[u8]) -> Result<Tree, TreeRefusal>
    ensures tree { IfOk result (λ t. ReadsAsTree text.now (view t)) }
    ensures no_value { result ≡ Err NotJson → (v : Data) → ¬ ReadsAsValue text.now v }
    ensures no_tree { result ≡ Err NotWhole
        → (v : Data) × ReadsAsValue text.now v × (tree_of v ≡ None) }
{
    let Ok(characters) = str::from_utf8(text) else {
        return Err(TreeRefusal::NotJson);
    };
    match parse(alloc, characters) {
        Ok(tree) => Ok(tree),
        Err(TreeRefusal::OutOfMemory) => Err(TreeRefusal::OutOfMemory),
        // What is wrong, and whether anything is, the JSON value tells.
        Err(TreeRefusal::NotJson | TreeRefusal::NotWhole) => {
            let value = read_value(alloc, text)?;
            from_value(alloc, &value)
        }
    }
}
