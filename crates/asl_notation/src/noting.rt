//! The notation of shapes.
ghost use Rattle.std.specs.Prelude.{◌≡◌, ◌++◌, IfOk, OnOk, codes, map, string_bytes};
ghost use Rattle.asl_model.specs.Shape as shape;
ghost use Rattle.asl_numbered.specs.Expansion.{fields_at, shape_at, shapes_at};
ghost use Rattle.asl_notation.specs.Notation as model;
ghost use Rattle.asl_notation.specs.Notation.{noted_below};

use crate::limits::Limits;
use crate::names::note_name;
use crate::parts::{UNTOLD, between, enclosed, push_if};
use asl_numbered::{NodeArrays, NodeField, NodeObjects, Shapes};
use asl_tree::OutOfMemory;
use std::alloc::Global;
use std::collections::BTreeMap;
use std::rc::RcStr;

/// The short notation of the shape of that number: see the head of this crate. A number that isn't in the table has no
/// tree: `nothing`. The text grows with the limits, never with what the table has beyond them. Refuses only where an
/// allocation was refused.
#[cycle(note)]
pub fn note(
    alloc: Global,
    shapes: &Shapes,
    number: usize,
    limits: Limits,
) -> Result<String, OutOfMemory>
    ensures { IfOk result (λ text. string_bytes text
        ≡ model.noted limits.depth limits.width (shape_at shapes.now number)) }
{
    if shapes.takes_all(number) {
        Ok(String::from_str(alloc, "any")?)
    } else if is_inhabited(shapes, number) {
        note_kinds(alloc, shapes, number, limits)
    } else {
        Ok(String::from_str(alloc, "nothing")?)
    }
}

/// Whether some tree has the shape of that number; not where there is none.
fn is_inhabited(shapes: &Shapes, number: usize) -> bool
    ensures { result ≡ shape.inhabited (shape_at shapes.now number) }
{
    shapes.inhabited(number).unwrap_or(false)
}

/// The notation of a shape, kind by kind.
#[cycle(note)]
fn note_kinds(
    alloc: Global,
    shapes: &Shapes,
    number: usize,
    limits: Limits,
) -> Result<String, OutOfMemory>
    ensures { IfOk result (λ text. string_bytes text
        ≡ model.parts_noted (noted_below limits.depth limits.width) limits.width
        (shape_at shapes.now number)) }
{
    let Some(kinds) = shapes.take_apart(number) else {
        return Ok(String::from_str(alloc, "any")?);
    };
    let mut parts = Vec::new(alloc);
    push_if(alloc, &mut parts, kinds.boolean, "boolean")?;
    push_if(alloc, &mut parts, kinds.integer, "integer")?;
    push_if(alloc, &mut parts, kinds.text, "string")?;
    if let Some(lists) = kinds.arrays {
        push_lists(alloc, &mut parts, shapes, lists, limits)?;
    }
    if let Some(objects) = kinds.objects {
        push_objects(alloc, &mut parts, shapes, objects, limits)?;
    }
    push_if(alloc, &mut parts, kinds.null, "null")?;
    between(alloc, " | ", &parts)
}

/// Puts down lists, if there are any of these.
#[cycle(note)]
fn push_lists(
    alloc: Global,
    parts: &mut Vec<String>,
    shapes: &Shapes,
    lists: NodeArrays<'_>,
    limits: Limits,
) -> Result<(), OutOfMemory>
    requires { shape_at shapes.now lists.number
        ≡ shape.ArrayShape (shapes_at shapes.now lists.first.now) (shape_at shapes.now lists.rest) }
    ensures { OnOk result (map string_bytes parts.new.items
        ≡ map string_bytes parts.old.items
        ++ model.arrays_noted (noted_below limits.depth limits.width) limits.width
        (shape.ArraysOf (shapes_at shapes.now lists.entry.first.now)
        (shape_at shapes.now lists.entry.rest))) }
{
    if is_inhabited(shapes, lists.number) {
        let mut elements = Vec::new(alloc);
        push_elements(alloc, &mut elements, shapes, lists, limits)?;
        parts.push(enclosed(alloc, "[", &elements, "]")?)?;
    }
    Ok(())
}

/// Puts down the elements of lists.
#[cycle(note)]
fn push_elements(
    alloc: Global,
    parts: &mut Vec<String>,
    shapes: &Shapes,
    lists: NodeArrays<'_>,
    limits: Limits,
) -> Result<(), OutOfMemory>
    ensures { OnOk result (map string_bytes parts.new.items
        ≡ map string_bytes parts.old.items
        ++ model.elements_noted (noted_below limits.depth limits.width) limits.width
        (shapes_at shapes.now lists.entry.first.now) (shape_at shapes.now lists.entry.rest)) }
{
    match limits.below() {
        Some(below) => {
            push_places(alloc, parts, shapes, lists.first, below)?;
            push_rest(alloc, parts, shapes, lists.rest, below)
        }
        None if lists.first.is_empty() => {
            let longer = is_inhabited(shapes, lists.rest);
            push_if(alloc, parts, longer, UNTOLD)
        }
        None => push_if(alloc, parts, true, UNTOLD),
    }
}

/// Puts down the further elements of lists, if there may be any.
#[cycle(note)]
fn push_rest(
    alloc: Global,
    parts: &mut Vec<String>,
    shapes: &Shapes,
    rest: usize,
    limits: Limits,
) -> Result<(), OutOfMemory>
    ensures { OnOk result (map string_bytes parts.new.items
        ≡ map string_bytes parts.old.items
        ++ model.word_if (shape.inhabited (shape_at shapes.now rest)) (codes ".."
        ++ model.noted limits.depth limits.width (shape_at shapes.now rest))) }
{
    if is_inhabited(shapes, rest) {
        let rest = note(alloc, shapes, rest, limits)?;
        parts.push(format!(in alloc; "..{rest}")?)?;
    }
    Ok(())
}

/// Puts down the first elements of lists.
#[cycle(note)]
fn push_places(
    alloc: Global,
    parts: &mut Vec<String>,
    shapes: &Shapes,
    places: &[usize],
    limits: Limits,
) -> Result<(), OutOfMemory>
    ensures { OnOk result (map string_bytes parts.new.items
        ≡ map string_bytes parts.old.items
        ++ model.places_noted (model.noted limits.depth limits.width) limits.width
        (shapes_at shapes.now places.now)) }
{
    let mut left = limits.width;
    for place in places {
        if left == 0 {
            return push_if(alloc, parts, true, UNTOLD);
        }
        left -= 1;
        parts.push(note(alloc, shapes, *place, limits)?)?;
    }
    Ok(())
}

/// Puts down objects, if there are any of these.
#[cycle(note)]
fn push_objects(
    alloc: Global,
    parts: &mut Vec<String>,
    shapes: &Shapes,
    objects: NodeObjects<'_>,
    limits: Limits,
) -> Result<(), OutOfMemory>
    requires { shape_at shapes.now objects.number
        ≡ shape.ObjectShape (fields_at shapes.now objects.fields.now.entries) objects.extra }
    ensures { OnOk result (map string_bytes parts.new.items
        ≡ map string_bytes parts.old.items
        ++ model.objects_noted (noted_below limits.depth limits.width) limits.width
        (shape.ObjectsOf (fields_at shapes.now objects.entry.fields.now.entries)
        objects.entry.extra)) }
{
    if is_inhabited(shapes, objects.number) {
        let mut members = Vec::new(alloc);
        push_members(alloc, &mut members, shapes, objects, limits)?;
        parts.push(enclosed(alloc, "{", &members, "}")?)?;
    }
    Ok(())
}

/// Puts down the fields of objects, and whether there may be others.
#[cycle(note)]
fn push_members(
    alloc: Global,
    parts: &mut Vec<String>,
    shapes: &Shapes,
    objects: NodeObjects<'_>,
    limits: Limits,
) -> Result<(), OutOfMemory>
    ensures { OnOk result (map string_bytes parts.new.items
        ≡ map string_bytes parts.old.items
        ++ model.members_noted (noted_below limits.depth limits.width) limits.width
        (fields_at shapes.now objects.entry.fields.now.entries) objects.entry.extra) }
{
    match limits.below() {
        Some(below) => push_fields(alloc, parts, shapes, objects.fields, below)?,
        None if objects.fields.is_empty() => {}
        None => return push_if(alloc, parts, true, UNTOLD),
    }
    push_if(alloc, parts, objects.extra, "..")
}

/// Puts down the first fields of objects.
#[cycle(note)]
fn push_fields(
    alloc: Global,
    parts: &mut Vec<String>,
    shapes: &Shapes,
    fields: &BTreeMap<RcStr, NodeField>,
    limits: Limits,
) -> Result<(), OutOfMemory>
    ensures { OnOk result (map string_bytes parts.new.items
        ≡ map string_bytes parts.old.items
        ++ model.fields_noted (model.noted limits.depth limits.width) limits.width
        (fields_at shapes.now fields.now.entries)) }
{
    let mut left = limits.width;
    for (name, field) in fields.iter() {
        if left == 0 {
            return push_if(alloc, parts, true, UNTOLD);
        }
        left -= 1;
        parts.push(note_field(alloc, shapes, name, *field, limits)?)?;
    }
    Ok(())
}

/// The notation of a field: its name, whether it may lack, what is in it.
#[cycle(note)]
fn note_field(
    alloc: Global,
    shapes: &Shapes,
    name: &str,
    field: NodeField,
    limits: Limits,
) -> Result<String, OutOfMemory>
    ensures { IfOk result (λ text. string_bytes text
        ≡ model.field_noted (model.noted limits.depth limits.width) name.now field.needed
        (shape_at shapes.now field.shape)) }
{
    let name = note_name(alloc, name)?;
    let mark = if field.needed { ": " } else { "?: " };
    let shape = note(alloc, shapes, field.shape, limits)?;
    Ok(format!(in alloc; "{name}{mark}{shape}")?)
}
