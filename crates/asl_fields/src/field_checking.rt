// Checking the fields of an object.

ghost use Rattle.serde_json.specs.Find.{get};
ghost use Rattle.serde_json.specs.View.{view};
ghost use Rattle.asl_model.specs.StandsFor.{foreign_complaints};
ghost use Rattle.asl_fields.specs.Reading.{checked_faults, checked_complaints, fields_of, fields_told};
ghost use Rattle.asl_fields.specs.Rows.{row_view, rows_view};
ghost use Rattle.asl_fields.specs.Verdicts.{IsMisfit, IsVerdict, place_view};

use crate::places::{Complaint, Place};
use crate::refusals::DefFault;
use crate::rows::{self, Row};
use crate::value_checking::check_value;
use serde_json::Value;

/// Checks the fields of an object that stands at `place`: the value of each that isn't read, and that there is no field
/// without a row. Refuses the first that is wrong.
pub fn check_fields<'a>(
    place: &Place<'a>,
    object: &'a Value,
    rows: &'static [Row],
) -> Result<(), Complaint<'a>>
    ensures { IsVerdict
        (fields_told (place_view place.now) (rows_view rows.now) (fields_of object.now)) result }
{
    check_rows(place, object, rows)?;
    check_names(place, object, rows)
}

/// Checks the values of all fields that have a row and aren't read. Refuses the first that is wrong.
pub fn check_rows<'a>(
    place: &Place<'a>,
    object: &Value,
    rows: &'static [Row],
) -> Result<(), Complaint<'a>>
    ensures { IsVerdict (checked_complaints (place_view place.now)
        (rows_view rows.now) (fields_of object.now)) result }
{
    for row in rows {
        place.told(row.name, check_field(object, row))?;
    }
    Ok(())
}

/// Checks the value of one field, or its absence, unless it is read.
fn check_field(object: &Value, row: &'static Row) -> Result<(), DefFault>
    ensures { IsMisfit
        (checked_faults (row_view row.now) (get row.now.name.now (view object.now))) result }
{
    if row.wanted.is_read() {
        return Ok(());
    }
    match object.get(row.name) {
        Some(value) => check_value(row.wanted, value),
        None => {
            if row.required {
                Err(DefFault::MissingField)
            } else {
                Ok(())
            }
        }
    }
}

/// Checks that each field of an object has a row.
fn check_names<'a>(
    place: &Place<'a>,
    object: &'a Value,
    rows: &'static [Row],
) -> Result<(), Complaint<'a>>
    ensures { IsVerdict (foreign_complaints (place_view place.now)
        (rows_view rows.now) (fields_of object.now)) result }
{
    let members = match object.as_object() {
        Some(members) => members,
        None => return Ok(()),
    };
    for (name, _) in members.iter() {
        if !rows::has_row(rows, name) {
            return Err(place.complaint(name, rows::foreign(name)));
        }
    }
    Ok(())
}
