//! Shapes of a table with one of their parts replaced.

ghost use Rattle.std.specs.Prelude.{◌<◌, IfOk, length, string_bytes};
ghost use Rattle.asl_shape_paths.specs.Changing.{with_field as changed_field, with_place as changed_place, AreWithField, AreWithPlace};
ghost use Rattle.asl_numbered.specs.Expansion.{shape_at, Keeps, Shows};

use crate::composing::set_field;
use crate::kinds::{arrays_of, objects_of};
use crate::numbers::put_node;
use crate::parts::needed_field;
use asl_numbered::{Node, NodeField, Shapes};
use asl_tree::OutOfMemory;
use std::alloc::Global;
use std::collections::BTreeMap;
use std::rc::RcStr;

/// The number of the shape of the objects alone of that number's shape, with a field of that name, which is needed and
/// has the shape of the other number, in place of any other of its name. A shape without objects stays as it is.
pub fn put_field(
    shapes: &mut Shapes,
    number: usize,
    name: &String,
    field: usize,
) -> Result<usize, OutOfMemory>
    requires number { number < length shapes.old }
    requires field { field < length shapes.old }
    ensures shown { IfOk result
        (Shows shapes.new (changed_field (string_bytes name.now) (shape_at shapes.old field)
        (shape_at shapes.old number))) }
    ensures keeps { Keeps shapes.old shapes.new }
{
    shapes.are_proper();
    let Some(objects) = objects_of(shapes, number) else {
        return Ok(number);
    };
    if needed_field(objects.fields, name) == Some(field) {
        return Ok(objects.number);
    }
    let extra = objects.extra;
    let fields = with_field(objects.fields, name, field)?;
    let changed = Node::Object { fields, extra };
    put_node(shapes, changed)
}

/// The number of the shape of the lists alone of that number's shape, with the shape of the other number at an index,
/// where that is among the first places. A shape without lists stays as it is.
pub fn put_place(
    alloc: Global,
    shapes: &mut Shapes,
    number: usize,
    index: usize,
    place: usize,
) -> Result<usize, OutOfMemory>
    requires number { number < length shapes.old }
    requires place { place < length shapes.old }
    ensures shown { IfOk result
        (Shows shapes.new (changed_place index (shape_at shapes.old place)
        (shape_at shapes.old number))) }
    ensures keeps { Keeps shapes.old shapes.new }
{
    let Some(arrays) = arrays_of(shapes, number) else {
        return Ok(number);
    };
    let rest = arrays.rest;
    let first = with_place(alloc, arrays.first, index, place)?;
    put_node(shapes, Node::List { first, rest })
}

/// The fields, with one of that name that is needed and has that number in place of any other of its name.
fn with_field(
    fields: &BTreeMap<RcStr, NodeField>,
    name: &String,
    number: usize,
) -> Result<BTreeMap<RcStr, NodeField>, OutOfMemory>
    ensures { IfOk result
        (λ m. AreWithField (string_bytes name.now) number fields.now.entries m.entries) }
{
    let mut changed = fields.clone()?;
    let field = NodeField {
        needed: true,
        shape: number,
    };
    set_field(&mut changed, name, field)?;
    Ok(changed)
}

/// The places, with that number at an index, where there is one.
fn with_place(
    alloc: Global,
    places: &[usize],
    index: usize,
    number: usize,
) -> Result<Vec<usize>, OutOfMemory>
    ensures { IfOk result (λ v. AreWithPlace index number places.now v.items) }
{
    let mut changed = Vec::with_capacity(alloc, places.len())?;
    changed.extend_from_slice(places)?;
    set_place(&mut changed, index, number);
    Ok(changed)
}

/// Writes the number at an index, where there is a place.
fn set_place(places: &mut Vec<usize>, index: usize, number: usize)
    ensures { AreWithPlace index number places.old.items places.new.items }
{
    match places.get_mut(index) {
        Some(place) => *place = number,
        None => {}
    }
}
