//! Writing trees as JSON texts (RFC 8259).
ghost use Rattle.std.specs.Prelude.{◌≡◌, ◌≤◌, ◌∷◌, ◌++◌, IfOk, OnOk, Some, string_bytes};
ghost use Rattle.std.specs.List.Sorted.{IsStrictlySortedBy};
ghost use Rattle.std.specs.Map.{keys_of};
ghost use Rattle.std.specs.String.{string_cmp};
ghost use Rattle.json.specs.Token.{begin_array, begin_object};
ghost use Rattle.serde_json.specs.Data.{depth};
ghost use Rattle.serde_json.specs.Read.{max_depth};
ghost use Rattle.serde_json.specs.View.{view as json_view, items_view, members_view};
ghost use Rattle.asl_model.specs.Json.{ReadsAsTree, tree_of, value_of, items_of, members_for, compact_text};
ghost use Rattle.asl_model.specs.Tree.{Integer};
ghost use Rattle.asl_tree.specs.View.{view, elements_view, entries_view};
ghost use Rattle.asl_tree.specs.Whole.{AreWhole, HaveWholeValues};
ghost use Rattle.asl_tree.specs.Written.{tree_tokens, ReadsBack, elements_tokens, entries_tokens, AllReadBack, ValuesReadBack};

use crate::{OutOfMemory, Tree};
use json::Writer;
use serde_json::{Map, Value};
use std::alloc::{AllocError, Global};
use std::collections::BTreeMap;

/// The compact text of `tree`: no space, names in the order of their bytes, escapes as `serde_json` writes them. It reads
/// as the same tree where this doesn't nest deeper than 127 levels. Refuses only where an allocation was refused.
pub fn to_text(alloc: Global, tree: &Tree) -> Result<String, OutOfMemory>
    ensures text { IfOk result (λ s. string_bytes s ≡ compact_text (view tree.now)) }
    ensures reads_back { IfOk result
        (λ s. depth (value_of (view tree.now)) ≤ max_depth
        → ReadsAsTree (string_bytes s) (view tree.now)) }
{
    let mut writer = Writer::new(Vec::new(alloc));
    write(&mut writer, tree)?;
    let Ok(text) = String::from_utf8(writer.into_inner()) else {
        unreachable!()
    };
    Ok(text)
}

/// Writes the tokens of `tree`: those of its compact text, names in the order of their bytes. The writer places the commas.
/// Their JSON reads as the same tree. Refuses only where an allocation was refused; a front of the tokens may then be written.
#[cycle(write)]
pub fn write(writer: &mut Writer, tree: &Tree) -> Result<(), OutOfMemory>
    ensures before { writer.new.before ≡ writer.old.before }
    ensures tokens { OnOk result
        (writer.new.tokens ≡ writer.old.tokens ++ tree_tokens (view tree.now)) }
    ensures reads_back { OnOk result (ReadsBack (view tree.now)) }
{
    match tree {
        Tree::Null => writer.null()?,
        Tree::Bool(b) => writer.boolean(*b)?,
        Tree::Int(n) => write_integer(writer, *n)?,
        Tree::Text(text) => writer.string(text)?,
        Tree::List(elements) => write_elements(writer, elements)?,
        Tree::Object(fields) => write_fields(writer, fields)?,
    }
    Ok(())
}

fn write_integer(writer: &mut Writer, number: i64) -> Result<(), AllocError>
    ensures before { writer.new.before ≡ writer.old.before }
    ensures tokens { OnOk result
        (writer.new.tokens ≡ writer.old.tokens ++ tree_tokens (Integer number)) }
    ensures reads_back { ReadsBack (Integer number) }
{
    writer.i64(number)
}

#[cycle(write)]
fn write_elements(writer: &mut Writer, elements: &Vec<Tree>) -> Result<(), OutOfMemory>
    ensures before { writer.new.before ≡ writer.old.before }
    ensures tokens { OnOk result (writer.new.tokens
        ≡ writer.old.tokens ++ begin_array ∷ elements_tokens elements.now.items) }
    ensures read_back { OnOk result (AllReadBack elements.now.items) }
{
    writer.begin_array()?;
    for element in elements {
        write(writer, element)?;
    }
    writer.end_array()?;
    Ok(())
}

#[cycle(write)]
fn write_fields(writer: &mut Writer, fields: &BTreeMap<String, Tree>) -> Result<(), OutOfMemory>
    ensures before { writer.new.before ≡ writer.old.before }
    ensures tokens { OnOk result (writer.new.tokens
        ≡ writer.old.tokens ++ begin_object ∷ entries_tokens fields.now.entries) }
    ensures read_back { OnOk result (ValuesReadBack fields.now.entries) }
    ensures in_order { OnOk result (IsStrictlySortedBy string_cmp (keys_of fields.now.entries)) }
{
    writer.begin_object()?;
    for (key, field) in fields.iter() {
        writer.key(key)?;
        write(writer, field)?;
    }
    writer.end_object()?;
    Ok(())
}

/// The JSON value that `tree` is; it is read as the same tree. Refuses only where an allocation was refused.
#[cycle(unbuild)]
pub fn to_value(alloc: Global, tree: &Tree) -> Result<Value, OutOfMemory>
    ensures value { IfOk result (λ v. json_view v ≡ value_of (view tree.now)) }
    ensures reads_back { IfOk result (λ v. tree_of (json_view v) ≡ Some (view tree.now)) }
{
    match tree {
        Tree::Null => Ok(Value::Null),
        Tree::Bool(b) => Ok(Value::Bool(*b)),
        Tree::Int(n) => Ok(Value::from(*n)),
        Tree::Text(text) => Ok(Value::String(text.clone()?)),
        Tree::List(elements) => Ok(Value::Array(items_for(alloc, elements)?)),
        Tree::Object(fields) => Ok(Value::Object(members_for(alloc, fields)?)),
    }
}

#[cycle(unbuild)]
fn items_for(alloc: Global, elements: &Vec<Tree>) -> Result<Vec<Value>, OutOfMemory>
    ensures items { IfOk result
        (λ v. items_view v.items ≡ items_of (elements_view elements.now.items)) }
    ensures whole { IfOk result (λ _. AreWhole elements.now.items) }
{
    let mut items = Vec::with_capacity(alloc, elements.len())?;
    for element in elements {
        items.push(to_value(alloc, element)?)?;
    }
    Ok(items)
}

#[cycle(unbuild)]
fn members_for(
    alloc: Global,
    fields: &BTreeMap<String, Tree>,
) -> Result<Map<String, Value>, OutOfMemory>
    ensures members { IfOk result
        (λ m. members_view m.entries ≡ members_for (entries_view fields.now.entries)) }
    ensures whole { IfOk result (λ _. HaveWholeValues fields.now.entries) }
{
    let mut members = Map::new(alloc);
    for (name, field) in fields.iter() {
        let key = name.clone()?;
        drop(members.insert(key, to_value(alloc, field)?)?);
    }
    Ok(members)
}
