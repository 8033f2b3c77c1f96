//! What a path leads to in the trees of a shape.

ghost use Rattle.std.specs.Prelude.{◌≡◌, ◌<◌, ◌↔◌, ℕ, false, Some, Ok, Err, IfOk, IfErr, length, option_map, string_bytes};
ghost use Rattle.asl_model.specs.Path.{Name, Index, Names};
ghost use Rattle.asl_model.specs.Shape.{Has, inhabited};
ghost use Rattle.asl_model.specs.ShapeFlow.{found as found_in, part_at, look_at as part_by_path, look as looked, if_needed as needed_shape};
ghost use Rattle.asl_model.specs.Tree.{Tree};
ghost use Rattle.asl_shape_paths.specs.Doubts.{found_view, IsFoundIn};
ghost use Rattle.asl_shape_paths.specs.declared.looking.LookRefusal.TheVariants.{MayBeMissing};
ghost use Rattle.asl_shape_paths.specs.Looking.{lent};
ghost use Rattle.asl_numbered.specs.Expansion.{shape_at, IsNumberOf, Keeps};
ghost use Rattle.asl_path.specs.View.{segment_view};
ghost use Rattle.asl_shape.specs.View.{view};

use crate::alone::{arrays_alone, objects_alone};
use crate::doubts::Found;
use crate::numbers::{is_inhabited, put_never};
use crate::parts::look_up;
use asl_model::shape_laws::look_means_named;
use asl_numbered::Shapes;
use asl_path::{RefPath, Segment};
use asl_shape::{Field, Shape, copy, inhabited};
use asl_tree::OutOfMemory;
use std::alloc::Global;

/// Why a path has no shape in a shape.
#[derive(Clone, Copy, Debug, Drop)]
pub enum LookRefusal {
    /// The segment of that number, counted from 0, may name nothing in a tree of the shape.
    MayBeMissing(usize),
    /// An allocation was refused.
    OutOfMemory,
}

impl From<OutOfMemory> for LookRefusal {
    ghost use Rattle.asl_shape_paths.specs.declared.looking.LookRefusal.{LookRefusal};

    ghost from_gives = { λ _ refusal. refusal ≡ LookRefusal.OutOfMemory };

    fn from(_error: OutOfMemory) -> LookRefusal {
        LookRefusal::OutOfMemory
    }
}

/// The shape of what `path` names in every tree of `shape` (States Language, "Reference Paths").
///
/// A name needs a needed field of an object, an index a place among the first of a list: `MayBeMissing` tells the first
/// segment, counted from 0, that has neither. The answer is a copy of that part of `shape`, and `Never` where no tree
/// has `shape`; `OutOfMemory` comes only where an allocation of that copy was refused. [`find_shape`] lends the part.
pub fn look(alloc: Global, shape: &Shape, path: &RefPath) -> Result<Shape, LookRefusal>
    ensures found { IfOk result (λ s. looked path.now (view shape.now) ≡ Ok (view s)) }
    ensures named { IfOk result
        (λ s. (v : Tree) → Has (view shape.now) v
        → (w : Tree) × Names path.now v w × Has (view s) w) }
    ensures may_be_missing { (at : ℕ)
        → (result ≡ Err (MayBeMissing at)) ↔ (looked path.now (view shape.now) ≡ Err at) }
{
    look_means_named();
    if !inhabited(shape) {
        return Ok(Shape::Never);
    }
    match find_shape(shape, path) {
        Ok(part) => Ok(copy(alloc, part)?),
        Err(segment) => Err(LookRefusal::MayBeMissing(segment)),
    }
}

/// The number of the shape that [`look`] gives for the shape of a number. `OutOfMemory` comes only where no tree has that
/// shape, and the table had no room for `Never`.
pub fn look_at(shapes: &mut Shapes, number: usize, path: &RefPath) -> Result<usize, LookRefusal>
    requires number { number < length shapes.old }
    ensures as_defined { IfOk result
        (λ n. looked path.now (shape_at shapes.old number) ≡ Ok (shape_at shapes.new n)) }
    ensures number { IfOk result (λ n. IsNumberOf shapes.new (shape_at shapes.new n) n) }
    ensures may_be_missing { (at : ℕ) → (result ≡ Err (MayBeMissing at))
        ↔ (looked path.now (shape_at shapes.old number) ≡ Err at) }
    ensures keeps { Keeps shapes.old shapes.new }
{
    match find_at(shapes, number, path)? {
        Ok(part) => Ok(part),
        Err(doubtful) => Err(LookRefusal::MayBeMissing(doubtful.segment)),
    }
}

/// The number of the shape of what `path` names in every tree of the shape of a number, `Never`'s where no tree has that;
/// or the path as a doubtful one, with the first segment, counted from 0, that may name nothing. Refuses only where no
/// tree has the shape, and the table had no room for `Never`.
pub fn find_at<'p>(
    shapes: &mut Shapes,
    number: usize,
    path: &'p RefPath,
) -> Result<Found<'p>, OutOfMemory>
    requires number { number < length shapes.old }
    ensures as_defined { IfOk result
        (λ answer. found_in path.now (shape_at shapes.old number) ≡ found_view shapes.new answer) }
    ensures within { IfOk result (IsFoundIn (length shapes.new)) }
    ensures refused { IfErr result (λ _. inhabited (shape_at shapes.old number) ≡ false) }
    ensures number { IfOk result
        (λ answer. IfOk answer (λ n. IsNumberOf shapes.new (shape_at shapes.new n) n)) }
    ensures keeps { Keeps shapes.old shapes.new }
{
    shapes.are_distinct();
    if is_inhabited(shapes, number) {
        return Ok(look_up(shapes, number, path));
    }
    let never = put_never(shapes)?;
    shapes.are_distinct();
    Ok(Ok(never))
}

/// Lends the shape of what `path` names in every tree of an inhabited `shape`, or tells the number of the segment that
/// may name nothing, counted from 0 (States Language, "Reference Paths"). A name needs a needed field of an object, an
/// index a place among the first of a list.
pub fn find_shape<'s>(shape: &'s Shape, path: &RefPath) -> Result<&'s Shape, usize>
    ensures found { lent result ≡ part_by_path path.now (view shape.now) }
{
    let mut node = shape;
    for (at, segment) in path.segments().iter().enumerate() {
        node = part(node, segment).ok_or(at)?;
    }
    Ok(node)
}

/// The shape of what one segment names in every tree of an inhabited shape.
fn part<'s>(shape: &'s Shape, segment: &Segment) -> Option<&'s Shape>
    ensures { option_map (λ s. view s.now) result
        ≡ part_at (segment_view segment.now) (view shape.now) }
{
    match segment {
        Segment::Name(name) => needed_field(shape, name),
        Segment::Index(index) => first_place(shape, *index),
    }
}

/// The shape of the field of that name, where each tree of the shape is an object that has it.
fn needed_field<'s>(shape: &'s Shape, name: &String) -> Option<&'s Shape>
    ensures { option_map (λ s. view s.now) result
        ≡ part_at (Name (string_bytes name.now)) (view shape.now) }
{
    if_needed(objects_alone(shape)?.fields.get(name)?)
}

/// The shape of a field, where it is needed.
fn if_needed(field: &Field) -> Option<&Shape>
    ensures { option_map (λ s. view s.now) result
        ≡ needed_shape (Some (field.now.needed, view field.now.shape)) }
{
    if field.needed {
        Some(&field.shape)
    } else {
        None
    }
}

/// The shape of the place at an index, where each tree of the shape is a list that has it.
fn first_place<'s>(shape: &'s Shape, index: u32) -> Option<&'s Shape>
    ensures { option_map (λ s. view s.now) result ≡ part_at (Index index) (view shape.now) }
{
    arrays_alone(shape)?.first.get(index as usize)
}
