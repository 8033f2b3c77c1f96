//! The shape of a tree with another placed in it.

ghost use Rattle.std.specs.Prelude.{◌≡◌, ◌+◌, ◌<◌, ◌^◌, ℕ, IfOk, IfSome, Ok, Err, true, false, length, option_map, string_bytes};
ghost use Rattle.asl_model.specs.Path.{Name, Index};
ghost use Rattle.asl_model.specs.Placing.{Places};
ghost use Rattle.asl_model.specs.Shape as model;
ghost use Rattle.asl_model.specs.Shape.{Has};
ghost use Rattle.asl_model.specs.ShapeFlow.{built_shape, join_results, put as put_shape, put_mentioned, put_under};
ghost use Rattle.asl_model.specs.Tree.{Tree};
ghost use Rattle.asl_shape_paths.specs.Counting.{counted_on};
ghost use Rattle.asl_shape_paths.specs.Putting.{Answers, mentioned};
ghost use Rattle.asl_shape_paths.specs.declared.putting.PutRefusal.TheVariants.{MayNotFit};
ghost use Rattle.asl_numbered.specs.Expansion.{shape_at, IsNumberOf, Keeps, Shows};
ghost use Rattle.asl_path.specs.View.{segments_view};
ghost use Rattle.asl_shape.specs.View.{view};

use crate::composing::set_field;
use crate::kinds::objects_alone;
use crate::numbers::{are_inhabited, expand, put_join, put_never, put_node};
use crate::parts::place_of;
use crate::replacing::{put_field, put_place};
use asl_model::shape_laws::put_means_placed;
use asl_numbered::{Node, NodeField, Shapes};
use asl_path::{RefPath, Segment};
use asl_shape::Shape;
use asl_tree::{OutOfMemory, WantOfMemory};
use std::alloc::Global;
use std::collections::BTreeMap;

/// Why a shape can't be put into another.
#[derive(Clone, Copy, Debug, Drop)]
pub enum PutRefusal {
    /// In a tree of the shape, what is placed may not fit at the segment of that number, counted from 0.
    MayNotFit(usize),
    /// An allocation was refused.
    OutOfMemory,
}

impl<E: WantOfMemory + Drop> From<E> for PutRefusal {
    ghost use Rattle.asl_shape_paths.specs.declared.putting.PutRefusal.{PutRefusal};

    ghost from_gives = { λ _ refusal. refusal ≡ PutRefusal.OutOfMemory };

    fn from(_want: E) -> PutRefusal {
        PutRefusal::OutOfMemory
    }
}

/// The shape of every tree of `shape` with a tree of `placed` placed at `path` (States Language, "Reference Paths", "Input
/// and Output Processing"). `Never` where no tree has the one shape or the other.
///
/// A needed field of an object, or a place among the first of a list, is replaced. An optional field becomes needed: what
/// is put in it joined with what would be built. A field that isn't mentioned becomes needed, and what is built for it are
/// closed objects, one for each name that remains; but in an object that may have further fields, only the last segment
/// can name one that isn't mentioned. `MayNotFit` tells a segment, counted from 0, at which there is none of this. The
/// answer is a copy of what stays of both shapes; `OutOfMemory` comes only where an allocation was refused.
pub fn put(
    alloc: Global,
    shape: &Shape,
    path: &RefPath,
    placed: &Shape,
) -> Result<Shape, PutRefusal>
    ensures as_defined { IfOk result
        (λ s. put_shape path.now (view placed.now) (view shape.now) ≡ Ok (view s)) }
    ensures placed { IfOk result
        (λ s. (x v : Tree) → Has (view placed.now) x → Has (view shape.now) v
        → (u : Tree) × Places path.now x v u × Has (view s) u) }
    ensures may_not_fit { (at : ℕ) → result ≡ Err (MayNotFit at)
        → put_shape path.now (view placed.now) (view shape.now) ≡ Err at }
{
    put_means_placed();
    let mut shapes = Shapes::new(alloc);
    let number = shapes.add(shape)?;
    let placed = shapes.add(placed)?;
    let changed = put_at(alloc, &mut shapes, number, path, placed)?;
    Ok(expand(&shapes, changed)?)
}

/// The number of the shape that [`put`] gives for the shapes of the numbers. `OutOfMemory` comes only where an allocation
/// was refused.
pub fn put_at(
    alloc: Global,
    shapes: &mut Shapes,
    number: usize,
    path: &RefPath,
    placed: usize,
) -> Result<usize, PutRefusal>
    requires number { number < length shapes.old }
    requires placed { placed < length shapes.old }
    ensures as_defined { IfOk result
        (λ n. put_shape path.now (shape_at shapes.old placed) (shape_at shapes.old number)
        ≡ Ok (shape_at shapes.new n)) }
    ensures number { IfOk result (λ n. IsNumberOf shapes.new (shape_at shapes.new n) n) }
    ensures may_not_fit { (at : ℕ) → result ≡ Err (MayNotFit at)
        → put_shape path.now (shape_at shapes.old placed) (shape_at shapes.old number) ≡ Err at }
    ensures keeps { Keeps shapes.old shapes.new }
{
    let answer = put_segments(alloc, shapes, number, path.segments(), 0, placed);
    shapes.are_distinct();
    answer
}

/// Puts the shape at the segments, which are counted from `at`.
#[cycle(put)]
fn put_segments(
    alloc: Global,
    shapes: &mut Shapes,
    number: usize,
    segments: &[Segment],
    at: usize,
    placed: usize,
) -> Result<usize, PutRefusal>
    requires number { number < length shapes.old }
    requires placed { placed < length shapes.old }
    requires countable { at + length segments.now < 2 ^ 64 }
    ensures answers { Answers shapes.new
        (counted_on at (put_shape (segments_view segments.now) (shape_at shapes.old placed)
        (shape_at shapes.old number))) result }
    ensures keeps { Keeps shapes.old shapes.new }
{
    if !are_inhabited(shapes, number, placed) {
        return Ok(put_never(shapes)?);
    }
    let [segment, further @ ..] = segments else {
        return Ok(placed);
    };
    match segment {
        Segment::Name(name) => put_in_object(alloc, shapes, number, name, further, at, placed),
        Segment::Index(index) => put_in_list(alloc, shapes, number, *index, further, at, placed),
    }
}

/// Puts the shape under the name of segment `at` and the further segments.
#[cycle(put)]
fn put_in_object(
    alloc: Global,
    shapes: &mut Shapes,
    number: usize,
    name: &String,
    further: &[Segment],
    at: usize,
    placed: usize,
) -> Result<usize, PutRefusal>
    requires number { number < length shapes.old }
    requires placed { placed < length shapes.old }
    requires countable { at + length further.now + 1 < 2 ^ 64 }
    ensures answers { Answers shapes.new
        (counted_on at (put_under
        (put_shape (segments_view further.now) (shape_at shapes.old placed))
        (Name (string_bytes name.now)) (segments_view further.now) (shape_at shapes.old placed)
        (shape_at shapes.old number))) result }
    ensures keeps { Keeps shapes.old shapes.new }
{
    let Some(objects) = objects_alone(shapes, number) else {
        return Err(PutRefusal::MayNotFit(at));
    };
    let field = objects.fields.get(name.as_str()).copied();
    let extra = objects.extra;
    let value = put_in_field(alloc, shapes, field, extra, further, at + 1, placed)?;
    Ok(put_field(shapes, number, name, value)?)
}

/// What stands in a field, where it is mentioned, with the shape put at the segments; `extra` says whether the object may
/// have fields that aren't mentioned.
#[cycle(put)]
fn put_in_field(
    alloc: Global,
    shapes: &mut Shapes,
    field: Option<NodeField>,
    extra: bool,
    segments: &[Segment],
    at: usize,
    placed: usize,
) -> Result<usize, PutRefusal>
    requires field { IfSome field (λ f. f.shape < length shapes.old) }
    requires placed { placed < length shapes.old }
    requires countable { at + length segments.now < 2 ^ 64 }
    ensures answers { Answers shapes.new
        (counted_on at (put_mentioned
        (put_shape (segments_view segments.now) (shape_at shapes.old placed)) extra
        (segments_view segments.now) (shape_at shapes.old placed)
        (option_map (mentioned shapes.old) field))) result }
    ensures keeps { Keeps shapes.old shapes.new }
{
    match field {
        Some(field) if field.needed => {
            put_segments(alloc, shapes, field.shape, segments, at, placed)
        }
        Some(field) => put_in_optional(alloc, shapes, field.shape, segments, at, placed),
        None if extra && !segments.is_empty() => Err(PutRefusal::MayNotFit(at)),
        None => build(alloc, shapes, segments, at, placed),
    }
}

/// The join of an optional field's shape, with the shape put in it, and of what is built where that field isn't there.
#[cycle(put)]
fn put_in_optional(
    alloc: Global,
    shapes: &mut Shapes,
    number: usize,
    segments: &[Segment],
    at: usize,
    placed: usize,
) -> Result<usize, PutRefusal>
    requires number { number < length shapes.old }
    requires placed { placed < length shapes.old }
    requires countable { at + length segments.now < 2 ^ 64 }
    ensures answers { Answers shapes.new
        (counted_on at (join_results
        (put_shape (segments_view segments.now) (shape_at shapes.old placed)
        (shape_at shapes.old number))
        (built_shape (segments_view segments.now) (shape_at shapes.old placed)))) result }
    ensures keeps { Keeps shapes.old shapes.new }
{
    let changed = put_segments(alloc, shapes, number, segments, at, placed)?;
    let built = build(alloc, shapes, segments, at, placed)?;
    Ok(put_join(shapes, changed, built)?)
}

/// Puts the shape under the index of segment `at` and the further segments.
#[cycle(put)]
fn put_in_list(
    alloc: Global,
    shapes: &mut Shapes,
    number: usize,
    index: u32,
    further: &[Segment],
    at: usize,
    placed: usize,
) -> Result<usize, PutRefusal>
    requires number { number < length shapes.old }
    requires placed { placed < length shapes.old }
    requires countable { at + length further.now + 1 < 2 ^ 64 }
    ensures answers { Answers shapes.new
        (counted_on at (put_under
        (put_shape (segments_view further.now) (shape_at shapes.old placed))
        (Index index) (segments_view further.now) (shape_at shapes.old placed)
        (shape_at shapes.old number))) result }
    ensures keeps { Keeps shapes.old shapes.new }
{
    let Some(place) = place_of(shapes, number, index) else {
        return Err(PutRefusal::MayNotFit(at));
    };
    let changed = put_segments(alloc, shapes, place, further, at + 1, placed)?;
    Ok(put_place(alloc, shapes, number, index as usize, changed)?)
}

/// The shape under closed objects for the names of the segments, which are counted from `at`; no list is built.
#[cycle(build)]
fn build(
    alloc: Global,
    shapes: &mut Shapes,
    segments: &[Segment],
    at: usize,
    placed: usize,
) -> Result<usize, PutRefusal>
    requires placed { placed < length shapes.old }
    requires countable { at + length segments.now < 2 ^ 64 }
    ensures answers { Answers shapes.new
        (counted_on at (built_shape (segments_view segments.now) (shape_at shapes.old placed)))
        result }
    ensures keeps { Keeps shapes.old shapes.new }
{
    let [segment, further @ ..] = segments else {
        return Ok(placed);
    };
    match segment {
        Segment::Name(name) => {
            let inner = build(alloc, shapes, further, at + 1, placed)?;
            Ok(put_around(alloc, shapes, name, inner)?)
        }
        Segment::Index(_) => Err(PutRefusal::MayNotFit(at)),
    }
}

/// The closed object with one field, which is needed.
fn put_around(
    alloc: Global,
    shapes: &mut Shapes,
    name: &String,
    number: usize,
) -> Result<usize, OutOfMemory>
    requires number { number < length shapes.old }
    ensures shown { IfOk result
        (Shows shapes.new (model.ObjectShape
        (model.AndFieldShape (string_bytes name.now) true (shape_at shapes.old number)
        model.NoFieldShapes) false)) }
    ensures keeps { Keeps shapes.old shapes.new }
{
    let field = NodeField {
        needed: true,
        shape: number,
    };
    let mut fields = BTreeMap::new(alloc);
    set_field(&mut fields, name, field)?;
    let object = Node::Object {
        fields,
        extra: false,
    };
    put_node(shapes, object)
}
