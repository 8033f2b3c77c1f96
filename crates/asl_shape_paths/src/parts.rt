//! The parts of the shapes of a table, by number.

ghost use Rattle.std.specs.Prelude.{◌≡◌, ◌<◌, ℕ, List, Some, IfOk, IfSome, length, option_map, string_bytes};
ghost use Rattle.asl_model.specs.Path.{Name, Index};
ghost use Rattle.asl_model.specs.Shape as model;
ghost use Rattle.asl_model.specs.ShapeFlow.{look_at, or_doubtful, part_at, place_at, if_needed as needed_shape};
ghost use Rattle.asl_model.specs.ShapeOrder.{mention_of};
ghost use Rattle.asl_shape_paths.specs.Doubts.{found_view, IsFoundIn};
ghost use Rattle.asl_shape_paths.specs.Numbers.{shown};
ghost use Rattle.asl_numbered.specs.Expansion.{shape_at, shapes_at, fields_at, numbers_in, AreBelow};
ghost use Rattle.asl_path.specs.View.{segment_view};

use crate::doubts::{DoubtfulPath, Found};
use crate::kinds::{arrays_alone, objects_alone};
use asl_numbered::{NodeField, Shapes};
use asl_path::{RefPath, Segment};
use std::collections::BTreeMap;
use std::rc::RcStr;

/// The number of the shape of what `path` names in every tree of a shape that some tree has, or the path as a doubtful one.
pub fn look_up<'p>(shapes: &Shapes, number: usize, path: &'p RefPath) -> Found<'p>
    requires number { number < length shapes.now }
    ensures as_defined { or_doubtful path.now (shape_at shapes.now number)
        (look_at path.now (shape_at shapes.now number)) ≡ found_view shapes.now result }
    ensures within { IsFoundIn (length shapes.now) result }
{
    match find_part(shapes, number, path) {
        Ok(part) => Ok(part),
        Err(segment) => Err(DoubtfulPath {
            path,
            segment,
            shape: number,
        }),
    }
}

/// The number of the shape of what `path` names in every tree of a shape that some tree has, or that of the segment that
/// may name nothing, counted from 0 (States Language, "Reference Paths").
pub fn find_part(shapes: &Shapes, number: usize, path: &RefPath) -> Result<usize, usize>
    requires number { number < length shapes.now }
    ensures found { shown shapes.now result ≡ look_at path.now (shape_at shapes.now number) }
    ensures within { IfOk result (λ part. part < length shapes.now) }
{
    let mut part = number;
    for (at, segment) in path.segments().iter().enumerate() {
        part = part_of(shapes, part, segment).ok_or(at)?;
    }
    Ok(part)
}

/// The number of the shape of what one segment names in every tree of a shape that some tree has.
pub(crate) fn part_of(shapes: &Shapes, number: usize, segment: &Segment) -> Option<usize>
    requires number { number < length shapes.now }
    ensures part { option_map (shape_at shapes.now) result
        ≡ part_at (segment_view segment.now) (shape_at shapes.now number) }
    ensures within { IfSome result (λ part. part < length shapes.now) }
{
    match segment {
        Segment::Name(name) => field_of(shapes, number, name),
        Segment::Index(index) => place_of(shapes, number, *index),
    }
}

/// The number of the shape of the field of that name, where each tree of the shape is an object that has it.
fn field_of(shapes: &Shapes, number: usize, name: &String) -> Option<usize>
    requires number { number < length shapes.now }
    ensures part { option_map (shape_at shapes.now) result
        ≡ part_at (Name (string_bytes name.now)) (shape_at shapes.now number) }
    ensures within { IfSome result (λ field. field < length shapes.now) }
{
    needed_field(objects_alone(shapes, number)?.fields, name)
}

/// The number of the shape of the place at an index, where each tree of the shape is a list that has it.
pub(crate) fn place_of(shapes: &Shapes, number: usize, index: u32) -> Option<usize>
    requires number { number < length shapes.now }
    ensures part { option_map (shape_at shapes.now) result
        ≡ part_at (Index index) (shape_at shapes.now number) }
    ensures within { IfSome result (λ place. place < length shapes.now) }
{
    first_place(arrays_alone(shapes, number)?.first, index)
}

/// The number of the shape of a needed field.
pub(crate) fn needed_field(fields: &BTreeMap<RcStr, NodeField>, name: &String) -> Option<usize>
    ensures part { (table : List model.Shape) → option_map (shape_at table) result
        ≡ needed_shape (mention_of (string_bytes name.now) (fields_at table fields.now.entries)) }
    ensures within { (bound : ℕ) → AreBelow bound (numbers_in fields.now.entries)
        → IfSome result (λ part. part < bound) }
{
    if_needed(fields.get(name.as_str())?)
}

/// The number of the shape of a field, where it is needed.
fn if_needed(field: &NodeField) -> Option<usize>
    ensures part { (table : List model.Shape) → option_map (shape_at table) result
        ≡ needed_shape (Some (field.now.needed, shape_at table field.now.shape)) }
    ensures within { (bound : ℕ) → field.now.shape < bound
        → IfSome result (λ part. part < bound) }
{
    if field.needed {
        Some(field.shape)
    } else {
        None
    }
}

/// The number of the shape of the place at an index.
fn first_place(first: &[usize], index: u32) -> Option<usize>
    ensures part { (table : List model.Shape) → option_map (shape_at table) result
        ≡ place_at index (shapes_at table first.now) }
    ensures within { (bound : ℕ) → AreBelow bound first.now
        → IfSome result (λ part. part < bound) }
{
    first.get(index as usize).copied()
}
