// Telling all that is wrong with the fields of an object.

ghost use Rattle.std.specs.Prelude.{◌++◌, OnOk, map};
ghost use Rattle.serde_json.specs.Find.{get};
ghost use Rattle.serde_json.specs.View.{view, items_view};
ghost use Rattle.asl_model.specs.DefinitionTable as model;
ghost use Rattle.asl_model.specs.StandsFor.{complaint_at, fields_complaints, foreign_complaints, row_faults, rows_complaints};
ghost use Rattle.asl_fields.specs.Verdicts.{IsMisfit, place_view};
ghost use Rattle.asl_fields.specs.Reading.{fields_of};
ghost use Rattle.asl_fields.specs.Rows.{row_view, rows_view, wanted_view};
ghost use Rattle.asl_fields.specs.Telling.{Told, element_misfits, field_told};

use crate::choices::{read_rule, read_rules};
use crate::fields::{read_path, read_path_or_null, read_template};
use crate::places::{Complaint, Place};
use crate::refusals::DefFault;
use crate::rows::{self, Row, Wanted};
use crate::telling::{tell, tell_fault};
use crate::value_checking::{check_some, check_text, check_value, wrong_kind};
use asl_tree::OutOfMemory;
use serde_json::Value;
use std::alloc::Global;

/// What each element of a list has to be.
#[derive(Clone, Copy)]
enum Element {
    Text,
    /// A choice rule.
    Rule,
}

/// Tells what is wrong with the fields of an object that stands at `place`: with the value of each that has a row, and with
/// each that has none. What is wrong goes behind what was told. Refuses only where an allocation was refused.
pub fn tell_fields<'a>(
    alloc: Global,
    place: &Place<'a>,
    object: &'a Value,
    rows: &'static [Row],
    told: &mut Vec<Complaint<'a>>,
) -> Result<(), OutOfMemory>
    ensures { OnOk result
        (Told told.old.items told.new.items
        (fields_complaints (place_view place.now) (rows_view rows.now) (fields_of object.now))) }
{
    tell_rows(alloc, place, object, rows, told)?;
    tell_foreign(place, object, rows, told)?;
    Ok(())
}

/// Tells what is wrong with the fields that have a row. Refuses only where an allocation was refused.
pub fn tell_rows<'a>(
    alloc: Global,
    place: &Place<'a>,
    object: &Value,
    rows: &'static [Row],
    told: &mut Vec<Complaint<'a>>,
) -> Result<(), OutOfMemory>
    ensures { OnOk result
        (Told told.old.items told.new.items
        (rows_complaints (place_view place.now) (rows_view rows.now) (fields_of object.now))) }
{
    for row in rows {
        tell_row(alloc, place, object, row, told)?;
    }
    Ok(())
}

/// Tells what is wrong with the field of a row, or with its absence.
fn tell_row<'a>(
    alloc: Global,
    place: &Place<'a>,
    object: &Value,
    row: &'static Row,
    told: &mut Vec<Complaint<'a>>,
) -> Result<(), OutOfMemory>
    ensures { OnOk result
        (Told told.old.items told.new.items
        (map (complaint_at (place_view place.now) row.now.name.now)
        (row_faults (row_view row.now) (get row.now.name.now (view object.now))))) }
{
    match object.get(row.name) {
        Some(value) => tell_value(alloc, place, row.name, row.wanted, value, told),
        None if row.required => tell(place.complaint(row.name, DefFault::MissingField), told),
        None => Ok(()),
    }
}

/// Tells what is wrong with the value of a field.
fn tell_value<'a>(
    alloc: Global,
    place: &Place<'a>,
    field: &'a str,
    wanted: Wanted,
    value: &Value,
    told: &mut Vec<Complaint<'a>>,
) -> Result<(), OutOfMemory>
    ensures { OnOk result
        (Told told.old.items told.new.items
        (map (complaint_at (place_view place.now) field.now)
        (model.misfits (wanted_view wanted) (view value.now)))) }
{
    match wanted {
        Wanted::Names => tell_list(alloc, place, field, Element::Text, value, told),
        Wanted::Rules => tell_list(alloc, place, field, Element::Rule, value, told),
        _ => {
            tell_fault(place, field, find_misfit(alloc, wanted, value), told)?;
            Ok(())
        }
    }
}

/// Finds what is wrong with a value, where something is.
fn find_misfit(alloc: Global, wanted: Wanted, value: &Value) -> Result<(), DefFault>
    ensures { IsMisfit (model.misfits (wanted_view wanted) (view value.now)) result }
{
    match wanted {
        Wanted::Path => {
            read_path(alloc, value)?;
            Ok(())
        }
        Wanted::PathOrNull => {
            read_path_or_null(alloc, value)?;
            Ok(())
        }
        Wanted::Template => {
            read_template(alloc, value, false)?;
            Ok(())
        }
        Wanted::ItemTemplate => {
            read_template(alloc, value, true)?;
            Ok(())
        }
        Wanted::Rules => {
            read_rules(alloc, value)?;
            Ok(())
        }
        _ => check_value(wanted, value),
    }
}

/// Tells what is wrong with a value that has to be a list of such elements, not empty.
fn tell_list<'a>(
    alloc: Global,
    place: &Place<'a>,
    field: &'a str,
    element: Element,
    value: &Value,
    told: &mut Vec<Complaint<'a>>,
) -> Result<(), OutOfMemory>
    ensures { OnOk result
        (Told told.old.items told.new.items
        (map (complaint_at (place_view place.now) field.now)
        (model.list_misfits
        (λ vs. model.some_elements vs ++ model.wrong_with_each (element_misfits element) vs)
        (view value.now)))) }
{
    match value.as_array() {
        Some(elements) => tell_elements(alloc, place, field, element, elements, told),
        None => tell(place.complaint(field, wrong_kind(value)), told),
    }
}

/// Tells what is wrong with the elements of a list that is not to be empty.
fn tell_elements<'a>(
    alloc: Global,
    place: &Place<'a>,
    field: &'a str,
    element: Element,
    elements: &[Value],
    told: &mut Vec<Complaint<'a>>,
) -> Result<(), OutOfMemory>
    ensures { OnOk result
        (Told told.old.items told.new.items
        (map (complaint_at (place_view place.now) field.now)
        (model.some_elements (items_view elements.now)
        ++ model.wrong_with_each (element_misfits element) (items_view elements.now)))) }
{
    tell_fault(place, field, check_some(elements), told)?;
    tell_each_element(alloc, place, field, element, elements, told)?;
    Ok(())
}

/// Tells what is wrong with each element of a list.
fn tell_each_element<'a>(
    alloc: Global,
    place: &Place<'a>,
    field: &'a str,
    element: Element,
    values: &[Value],
    told: &mut Vec<Complaint<'a>>,
) -> Result<(), OutOfMemory>
    ensures { OnOk result
        (Told told.old.items told.new.items
        (map (complaint_at (place_view place.now) field.now)
        (model.wrong_with_each (element_misfits element) (items_view values.now)))) }
{
    for value in values {
        tell_fault(
            place,
            field,
            find_element_misfit(alloc, element, value),
            told,
        )?;
    }
    Ok(())
}

/// Finds what is wrong with an element, where something is.
fn find_element_misfit(alloc: Global, element: Element, value: &Value) -> Result<(), DefFault>
    ensures { IsMisfit (element_misfits element (view value.now)) result }
{
    match element {
        Element::Text => check_text(value),
        Element::Rule => {
            read_rule(alloc, value)?;
            Ok(())
        }
    }
}

/// Tells each field of an object that has no row.
fn tell_foreign<'a>(
    place: &Place<'a>,
    object: &'a Value,
    rows: &'static [Row],
    told: &mut Vec<Complaint<'a>>,
) -> Result<(), OutOfMemory>
    ensures { OnOk result
        (Told told.old.items told.new.items
        (foreign_complaints (place_view place.now) (rows_view rows.now) (fields_of object.now))) }
{
    let members = match object.as_object() {
        Some(members) => members,
        None => return Ok(()),
    };
    for (name, _) in members.iter() {
        tell_without_row(place, name, rows, told)?;
    }
    Ok(())
}

/// Tells a field of that name where it has no row.
fn tell_without_row<'a>(
    place: &Place<'a>,
    name: &'a str,
    rows: &'static [Row],
    told: &mut Vec<Complaint<'a>>,
) -> Result<(), OutOfMemory>
    ensures { OnOk result
        (Told told.old.items told.new.items
        (field_told (place_view place.now) (rows_view rows.now) name.now)) }
{
    if rows::has_row(rows, name) {
        return Ok(());
    }
    tell(place.complaint(name, rows::foreign(name)), told)
}
