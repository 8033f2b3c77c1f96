// Checking the values of fields.

ghost use Rattle.std.specs.Prelude.{◌≡◌, Some};
ghost use Rattle.serde_json.specs.View.{view, items_view};
ghost use Rattle.asl_model.specs.DefinitionTable as model;
ghost use Rattle.asl_fields.specs.View.{def_fault_view};
ghost use Rattle.asl_fields.specs.Rows.{wanted_view};
ghost use Rattle.asl_fields.specs.Verdicts.{IsMisfit};
ghost use Rattle.asl_fields.specs.Reading.{misfits_unread};

use crate::refusals::DefFault;
use crate::rows::Wanted;
use serde_json::Value;

/// Finds what is wrong with the value of a field, where something is. What is wrong with one that is read shows there.
pub(crate) fn check_value(wanted: Wanted, value: &Value) -> Result<(), DefFault>
    ensures { IsMisfit (misfits_unread (wanted_view wanted) (view value.now)) result }
{
    match wanted {
        Wanted::Text => check_text(value),
        Wanted::Positive => check_kind(value.as_i64().is_some_and(|number| number > 0), value),
        Wanted::Count => check_kind(value.as_i64().is_some_and(|number| number >= 0), value),
        Wanted::Number => check_number(value),
        Wanted::Truth => check_kind(value.is_boolean(), value),
        Wanted::Language => check_language(value),
        Wanted::Any => check_whole(value),
        Wanted::Config => check_config(value),
        Wanted::States | Wanted::Scope => check_kind(value.is_object(), value),
        Wanted::Scopes => check_scopes(value),
        Wanted::Names => check_names(value),
        Wanted::Retriers | Wanted::Catchers => check_kind(value.is_array(), value),
        Wanted::Path
        | Wanted::PathOrNull
        | Wanted::Template
        | Wanted::ItemTemplate
        | Wanted::Rules => Ok(()),
    }
}

/// Complains of a value of another kind, unless it is right.
fn check_kind(right: bool, value: &Value) -> Result<(), DefFault>
    ensures { IsMisfit (model.unless right (model.wrong_kind (view value.now))) result }
{
    if right {
        Ok(())
    } else {
        Err(wrong_kind(value))
    }
}

/// A value of another kind: a number that isn't whole is told as such.
pub fn wrong_kind(value: &Value) -> DefFault
    ensures { def_fault_view result ≡ Some (model.wrong_kind (view value.now)) }
{
    if value.is_number() && value.as_i64().is_none() {
        DefFault::NotWhole
    } else {
        DefFault::WrongKind
    }
}

/// Checks a value that is to be any number.
fn check_number(value: &Value) -> Result<(), DefFault>
    ensures { IsMisfit (model.misfits model.NumberValue (view value.now)) result }
{
    if value.is_number() {
        Ok(())
    } else {
        Err(DefFault::WrongKind)
    }
}

/// Checks the name of a query language.
fn check_language(value: &Value) -> Result<(), DefFault>
    ensures { IsMisfit (model.misfits model.LanguageValue (view value.now)) result }
{
    match value.as_str() {
        Some("JSONPath") => Ok(()),
        Some(_) => Err(DefFault::LeftOut),
        None => Err(wrong_kind(value)),
    }
}

/// Checks that a list isn't empty.
pub(crate) fn check_some(elements: &[Value]) -> Result<(), DefFault>
    ensures { IsMisfit (model.some_elements (items_view elements.now)) result }
{
    if elements.is_empty() {
        Err(DefFault::EmptyList)
    } else {
        Ok(())
    }
}

/// Checks a list of texts, not empty.
fn check_names(value: &Value) -> Result<(), DefFault>
    ensures { IsMisfit (model.misfits model.NamesValue (view value.now)) result }
{
    match value.as_array() {
        Some(names) => {
            check_some(names)?;
            check_each_text(names)
        }
        None => Err(wrong_kind(value)),
    }
}

/// Checks that each of the values is a text.
fn check_each_text(values: &[Value]) -> Result<(), DefFault>
    ensures { IsMisfit (model.wrong_with_each model.text_misfits (items_view values.now)) result }
{
    for value in values {
        check_text(value)?;
    }
    Ok(())
}

/// Checks a text.
pub(crate) fn check_text(value: &Value) -> Result<(), DefFault>
    ensures { IsMisfit (model.text_misfits (view value.now)) result }
{
    check_kind(value.is_string(), value)
}

/// Checks a list that isn't empty, whatever is in it.
fn check_scopes(value: &Value) -> Result<(), DefFault>
    ensures { IsMisfit (model.misfits model.ScopesValue (view value.now)) result }
{
    match value.as_array() {
        Some(scopes) => check_some(scopes),
        None => Err(wrong_kind(value)),
    }
}

/// Checks that each number in a value is whole.
fn check_whole(value: &Value) -> Result<(), DefFault>
    ensures { IsMisfit (model.misfits model.AnyValue (view value.now)) result }
{
    if asl_tree::is_whole(value) {
        Ok(())
    } else {
        Err(DefFault::NotWhole)
    }
}

/// Checks an object in which each number is whole.
fn check_config(value: &Value) -> Result<(), DefFault>
    ensures { IsMisfit (model.misfits model.ConfigValue (view value.now)) result }
{
    if asl_tree::is_whole(value) {
        check_kind(value.is_object(), value)
    } else {
        Err(DefFault::NotWhole)
    }
}
