// Looking up the fields of an object of a definition, and reading the paths and templates among them.

ghost use Rattle.std.specs.Prelude.{◌≡◌, IfOk, [], is_some, Some, string_bytes, option_map, option_and_then};
ghost use Rattle.serde_json.specs.Find.{get_member, as_str};
ghost use Rattle.serde_json.specs.View.{view, items_view, number_view};
ghost use Rattle.asl_model.specs.DefinitionTable as model;
ghost use Rattle.asl_model.specs.Json.{tree_of};
ghost use Rattle.asl_model.specs.PathSpelling.{path_of as model_path_of};
ghost use Rattle.asl_model.specs.StandsFor.{items_at, text_at, path_at, path_in, path_or_null_at, natural_at, optional_natural_at, number_at, template_at, is_given as model_is_given};
ghost use Rattle.asl_model.specs.TemplateSpelling.{template_of as model_template_of};
ghost use Rattle.asl_template.specs.View as templates;
ghost use Rattle.asl_states.specs.Machine.{target_name};
ghost use Rattle.asl_tree.specs.View as trees;
ghost use Rattle.asl_fields.specs.Verdicts.{IsMisfit, IsVerdict, place_view};
ghost use Rattle.asl_fields.specs.Reading.{told_at, template_wanted, fields_of, text_or, text_or_none};

use crate::places::{Complaint, Place};
use crate::refusals::DefFault;
use crate::value_checking::wrong_kind;
use asl_path::{PathRefusal, RefPath};
use asl_states::Target;
use asl_template::{SpellingRefusal, Template};
use asl_tree::{OutOfMemory, Tree, TreeRefusal};
use serde_json::{Number, Value};
use std::alloc::Global;

/// The text of a field, where it has one.
pub fn text_of<'a>(object: &'a Value, field: &'static str) -> Option<&'a str>
    ensures { option_map (λ text. text.now) result ≡ text_at field.now (fields_of object.now) }
{
    match object.get(field) {
        Some(value) => value.as_str(),
        None => None,
    }
}

/// The text of a field, empty where it has none.
pub fn text_or_empty<'a>(object: &'a Value, field: &'static str) -> &'a str
    ensures { result.now ≡ text_or_none field.now object.now }
{
    text_of(object, field).unwrap_or("")
}

/// Whether an object has the field.
pub fn is_given(object: &Value, field: &'static str) -> bool
    ensures { result ≡ model_is_given field.now (fields_of object.now) }
{
    object.get(field).is_some()
}

/// The text of a field, where it has one. Refuses only where an allocation was refused.
pub fn build_text(
    alloc: Global,
    object: &Value,
    field: &'static str,
) -> Result<Option<String>, OutOfMemory>
    ensures { IfOk result
        (λ text. option_map string_bytes text ≡ text_at field.now (fields_of object.now)) }
{
    match text_of(object, field) {
        Some(text) => Ok(Some(String::from_str(alloc, text)?)),
        None => Ok(None),
    }
}

/// The state whose name is the text of a field, where it has one. Refuses only where an allocation was refused.
pub fn build_target(
    alloc: Global,
    object: &Value,
    field: &'static str,
) -> Result<Option<Target>, OutOfMemory>
    ensures { IfOk result
        (λ state. option_map target_name state ≡ text_at field.now (fields_of object.now)) }
{
    match build_text(alloc, object, field)? {
        Some(name) => Ok(Some(Target::new(name))),
        None => Ok(None),
    }
}

/// The text of a field, empty where it has none. Refuses only where an allocation was refused.
pub fn build_text_or_empty(
    alloc: Global,
    object: &Value,
    field: &'static str,
) -> Result<String, OutOfMemory>
    ensures { IfOk result (λ text. string_bytes text ≡ text_or_none field.now object.now) }
{
    build_text_or(alloc, object, field, "")
}

/// The text of a field, `default` where it has none. Refuses only where an allocation was refused.
pub fn build_text_or(
    alloc: Global,
    object: &Value,
    field: &'static str,
    default: &'static str,
) -> Result<String, OutOfMemory>
    ensures { IfOk result
        (λ text. string_bytes text ≡ text_or default.now field.now object.now) }
{
    Ok(String::from_str(alloc, text_of(object, field).unwrap_or(default))?)
}

/// The path of a field: `$` where the field isn't there, none where it is null. Refuses a value that is neither null nor a
/// reference path, and want of memory.
pub fn path_or_null_of<'a>(
    alloc: Global,
    place: &Place<'a>,
    object: &Value,
    field: &'static str,
) -> Result<Option<RefPath>, Complaint<'a>>
    ensures path { IfOk result (λ path. path ≡ path_or_null_at field.now (fields_of object.now)) }
    ensures told { IsVerdict
        (told_at (place_view place.now) field.now model.PathOrNullValue
        (fields_of object.now)) result }
{
    match object.get(field) {
        Some(value) => match read_path_or_null(alloc, value) {
            Ok(path) => Ok(path),
            Err(fault) => Err(place.complaint(field, fault)),
        },
        None => {
            let path = place.or_out_of_memory(field, whole_input(alloc))?;
            Ok(Some(path))
        }
    }
}

/// The path of a field: `$` where the field isn't there. Refuses a value that is no reference path, and want of memory.
pub fn path_of<'a>(
    alloc: Global,
    place: &Place<'a>,
    object: &Value,
    field: &'static str,
) -> Result<RefPath, Complaint<'a>>
    ensures path { IfOk result (λ path. path ≡ path_at field.now (fields_of object.now)) }
    ensures told { IsVerdict
        (told_at (place_view place.now) field.now model.PathValue (fields_of object.now)) result }
{
    match object.get(field) {
        Some(value) => match read_path(alloc, value) {
            Ok(path) => Ok(path),
            Err(fault) => Err(place.complaint(field, fault)),
        },
        None => place.or_out_of_memory(field, whole_input(alloc)),
    }
}

/// The path that a value is, none where it is null.
pub(crate) fn read_path_or_null(alloc: Global, value: &Value) -> Result<Option<RefPath>, DefFault>
    ensures path { IfOk result (λ path. path ≡ path_in (view value.now)) }
    ensures faults { IsMisfit (model.misfits model.PathOrNullValue (view value.now)) result }
{
    if value.is_null() {
        return Ok(None);
    }
    Ok(Some(read_path(alloc, value)?))
}

/// The path that a value is.
pub(crate) fn read_path(alloc: Global, value: &Value) -> Result<RefPath, DefFault>
    ensures path { IfOk result
        (λ path. option_and_then model_path_of (as_str (view value.now)) ≡ Some path) }
    ensures faults { IsMisfit (model.misfits model.PathValue (view value.now)) result }
{
    match value.as_str() {
        Some(text) => parse_path(alloc, text),
        None => Err(wrong_kind(value)),
    }
}

/// The path that a text spells.
fn parse_path(alloc: Global, text: &str) -> Result<RefPath, DefFault>
    ensures path { IfOk result (λ path. model_path_of text.now ≡ Some path) }
    ensures faults { IsMisfit
        (model.unless (is_some (model_path_of text.now)) model.BadPath) result }
{
    match asl_path::parse(alloc, text) {
        Ok(path) => Ok(path),
        Err(refusal) => match refusal {
            PathRefusal::OutOfMemory => Err(DefFault::OutOfMemory),
            _ => Err(DefFault::BadPath),
        },
    }
}

/// The path `$`.
fn whole_input(alloc: Global) -> Result<RefPath, OutOfMemory>
    ensures { IfOk result (λ path. path ≡ []) }
{
    match asl_path::parse(alloc, "$") {
        Ok(path) => Ok(path),
        Err(_) => Err(OutOfMemory),
    }
}

/// The tree of a field, where it has one. Refuses only where an allocation was refused.
pub fn build_tree(
    alloc: Global,
    object: &Value,
    field: &'static str,
) -> Result<Option<Tree>, OutOfMemory>
    ensures { IfOk result (λ tree. option_map trees.view tree
        ≡ option_and_then tree_of (get_member field.now (fields_of object.now))) }
{
    match object.get(field) {
        Some(value) => read_tree(alloc, value),
        None => Ok(None),
    }
}

/// The tree that a value is, where it is one.
fn read_tree(alloc: Global, value: &Value) -> Result<Option<Tree>, OutOfMemory>
    ensures { IfOk result (λ tree. option_map trees.view tree ≡ tree_of (view value.now)) }
{
    match asl_tree::from_value(alloc, value) {
        Ok(tree) => Ok(Some(tree)),
        Err(refusal) => match refusal {
            TreeRefusal::OutOfMemory => Err(OutOfMemory),
            TreeRefusal::NotWhole | TreeRefusal::NotJson => Ok(None),
        },
    }
}

/// The template of a field, where the field is there. `item` says whether paths to a Map's item are allowed. Refuses a value
/// that is no such template, a number in it that isn't whole, and want of memory.
pub fn template_of<'a>(
    alloc: Global,
    place: &Place<'a>,
    object: &Value,
    field: &'static str,
    item: bool,
) -> Result<Option<Template>, Complaint<'a>>
    ensures template { IfOk result (λ template. option_map templates.view template
        ≡ template_at item field.now (fields_of object.now)) }
    ensures told { IsVerdict
        (told_at (place_view place.now) field.now
        (template_wanted item) (fields_of object.now)) result }
{
    match object.get(field) {
        Some(value) => match read_template(alloc, value, item) {
            Ok(template) => Ok(Some(template)),
            Err(fault) => Err(place.complaint(field, fault)),
        },
        None => Ok(None),
    }
}

/// The template that a value spells.
#[tactic(auto, using(crate::proofs::Templates::template_spelled, crate::proofs::Templates::template_right, crate::proofs::Templates::template_wrong))]
pub(crate) fn read_template(alloc: Global, value: &Value, item: bool) -> Result<Template, DefFault>
    ensures template { IfOk result
        (λ template. option_and_then (model_template_of item) (tree_of (view value.now))
        ≡ Some (templates.view template)) }
    ensures faults { IsMisfit (model.template_misfits item (tree_of (view value.now))) result }
{
    match asl_template::from_value(alloc, value, item) {
        Ok(template) => Ok(template),
        Err(refusal) => match refusal {
            SpellingRefusal::OutOfMemory => Err(DefFault::OutOfMemory),
            SpellingRefusal::NotWhole => Err(DefFault::NotWhole),
            SpellingRefusal::NotObject
            | SpellingRefusal::NotText
            | SpellingRefusal::BadPath
            | SpellingRefusal::BadIntrinsic
            | SpellingRefusal::DuplicateAfterStrip
            | SpellingRefusal::LeftOutContext => Err(DefFault::BadTemplate),
        },
    }
}

/// The size of a field's whole number, `default` where it has none.
pub fn natural_of(object: &Value, field: &'static str, default: u64) -> u64
    ensures { result ≡ natural_at field.now default (fields_of object.now) }
{
    optional_natural_of(object, field).unwrap_or(default)
}

/// The size of a field's whole number, where it has one.
pub fn optional_natural_of(object: &Value, field: &'static str) -> Option<u64>
    ensures { result ≡ optional_natural_at field.now (fields_of object.now) }
{
    match object.get(field) {
        Some(value) => match value.as_i64() {
            Some(number) => Some(number.unsigned_abs()),
            None => None,
        },
        None => None,
    }
}

/// The number of a field, `default` where it has none.
pub fn number_of(object: &Value, field: &'static str, default: Number) -> Number
    ensures { number_view result
        ≡ number_at field.now (number_view default) (fields_of object.now) }
{
    match object.get(field) {
        Some(value) => match value.as_number() {
            Some(number) => *number,
            None => default,
        },
        None => default,
    }
}

/// The elements of a field's list; none where it has no list.
pub fn elements_of<'a>(object: &'a Value, field: &'static str) -> &'a [Value]
    ensures { items_view result.now ≡ items_at field.now (fields_of object.now) }
{
    match object.get(field) {
        Some(value) => match value.as_array() {
            Some(elements) => elements,
            None => &[],
        },
        None => &[],
    }
}
