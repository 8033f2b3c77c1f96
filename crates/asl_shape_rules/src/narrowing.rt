//! Narrowing the shape of a number to the trees in which a path names something.
ghost use Rattle.asl_model.specs.Path.{Name, Index};
ghost use Rattle.asl_model.specs.ShapeFlow.{narrow_under as narrowed_under, where_present};
ghost use Rattle.asl_numbered.specs.Expansion.{shape_at, Keeps, Shows};
ghost use Rattle.asl_path.specs.View.{segment_view, segments_view};
ghost use Rattle.std.specs.Prelude.{◌<◌, IfOk, length, string_bytes};

use asl_numbered::{Node, Shapes};
use asl_path::Segment;
use asl_shape_paths::kinds::kinds_of;
use asl_shape_paths::numbers::{put_never, put_node};
use asl_shape_paths::{put_field, put_place};
use asl_tree::OutOfMemory;
use std::alloc::Global;

/// The number of the shape of the trees in which the segments name something.
#[cycle(narrow)]
pub(crate) fn narrow_to_present(
    alloc: Global,
    shapes: &mut Shapes,
    number: usize,
    segments: &[Segment],
) -> Result<usize, OutOfMemory>
    requires number { number < length shapes.old }
    ensures shown { IfOk result
        (Shows shapes.new
        (where_present (segments_view segments.now) (shape_at shapes.old number))) }
    ensures keeps { Keeps shapes.old shapes.new }
{
    let [segment, rest @ ..] = segments else {
        return Ok(number);
    };
    narrow_under(alloc, shapes, number, segment, rest)
}

/// Narrows what stands under the segment, in the lists or in the objects of the shape.
#[cycle(narrow)]
fn narrow_under(
    alloc: Global,
    shapes: &mut Shapes,
    number: usize,
    segment: &Segment,
    rest: &[Segment],
) -> Result<usize, OutOfMemory>
    requires number { number < length shapes.old }
    ensures shown { IfOk result
        (Shows shapes.new
        (narrowed_under (where_present (segments_view rest.now)) (segment_view segment.now)
        (shape_at shapes.old number))) }
    ensures keeps { Keeps shapes.old shapes.new }
{
    match segment {
        Segment::Name(name) => narrow_field(alloc, shapes, number, name, rest),
        Segment::Index(index) => narrow_place(alloc, shapes, number, *index, rest),
    }
}

/// Narrows a field of the objects of the shape, which is needed then, and which must be mentioned unless they may have
/// further fields. Where the name names nothing in any tree, the shape is `Never`.
#[cycle(narrow)]
fn narrow_field(
    alloc: Global,
    shapes: &mut Shapes,
    number: usize,
    name: &String,
    rest: &[Segment],
) -> Result<usize, OutOfMemory>
    requires number { number < length shapes.old }
    ensures shown { IfOk result
        (Shows shapes.new
        (narrowed_under (where_present (segments_view rest.now)) (Name (string_bytes name.now))
        (shape_at shapes.old number))) }
    ensures keeps { Keeps shapes.old shapes.new }
{
    let Some(kinds) = kinds_of(shapes, number) else {
        return Ok(number);
    };
    let Some(objects) = kinds.objects else {
        return put_never(shapes);
    };
    match objects.fields.get(name.as_str()).copied() {
        Some(field) => {
            let narrowed = narrow_to_present(alloc, shapes, field.shape, rest)?;
            put_field(shapes, number, name, narrowed)
        }
        None if objects.extra => {
            let any = put_node(shapes, Node::Any)?;
            put_field(shapes, number, name, any)
        }
        None => put_never(shapes),
    }
}

/// Narrows a place of the lists of the shape, where it has a shape of its own; further elements stay as they are. Where no
/// list has the shape, it is `Never`.
#[cycle(narrow)]
fn narrow_place(
    alloc: Global,
    shapes: &mut Shapes,
    number: usize,
    index: u32,
    rest: &[Segment],
) -> Result<usize, OutOfMemory>
    requires number { number < length shapes.old }
    ensures shown { IfOk result
        (Shows shapes.new (narrowed_under (where_present (segments_view rest.now)) (Index index)
        (shape_at shapes.old number))) }
    ensures keeps { Keeps shapes.old shapes.new }
{
    let Some(kinds) = kinds_of(shapes, number) else {
        return Ok(number);
    };
    let Some(arrays) = kinds.arrays else {
        return put_never(shapes);
    };
    match arrays.first.get(index as usize).copied() {
        Some(place) => {
            let narrowed = narrow_to_present(alloc, shapes, place, rest)?;
            put_place(alloc, shapes, number, index as usize, narrowed)
        }
        None => Ok(arrays.number),
    }
}
