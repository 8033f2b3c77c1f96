//! Trees of a shape in which a path names nothing.

ghost use Rattle.std.specs.Prelude.{◌≡◌, ◌<◌, ◌↔◌, List, IsErr, IsTrue, IfOk, IfSome, None, Some, is_ok, length, option_map, string_bytes};
ghost use Rattle.asl_shape_paths.specs.Counterexamples.{missing_under, HasExample, IsExample, IsShownBy};
ghost use Rattle.asl_shape_paths.specs.Doubts.{doubtful_view};
ghost use Rattle.asl_model.specs.Examples.{example};
ghost use Rattle.asl_model.specs.Missing as model;
ghost use Rattle.asl_model.specs.Missing.{IsMissing};
ghost use Rattle.asl_model.specs.Path.{Name, Index};
ghost use Rattle.asl_model.specs.Shape as shape;
ghost use Rattle.asl_model.specs.ShapeFlow.{look, look_at as part_by_path};
ghost use Rattle.asl_model.specs.Tree as trees;
ghost use Rattle.asl_numbered.specs.Expansion.{shape_at, Keeps};
ghost use Rattle.asl_numbered.specs.TakenApart.{kinds_at};
ghost use Rattle.asl_path.specs.View.{segment_view, segments_view};
ghost use Rattle.asl_shape.specs.View.{view};
ghost use Rattle.asl_tree.specs.View.{view as tree_view, elements_view, entries_view};

use crate::doubts::DoubtfulPath;
use crate::kinds::{kinds_of, numbers_of};
use crate::parts::{find_part, part_of};
use asl_model::shape_laws::look_is_exactly_named;
use asl_numbered::{KindNumbers, Shapes};
use asl_path::{RefPath, Segment};
use asl_shape::Shape;
use asl_tree::{OutOfMemory, Tree};
use std::alloc::Global;
use std::collections::BTreeMap;

/// A tree of `shape` in which `path` names nothing (States Language, "Reference Paths"); `None` exactly where
/// [`crate::look`] gives a shape: where the path names something in every tree, and where no tree has `shape`.
///
/// The tree is the example of the shape, but that at the first segment that may name nothing an example stands of those
/// kinds of trees that the segment doesn't go into; where these have none, the example itself lacks what the segment
/// names. Refuses only where an allocation was refused: room for a large example is asked for before any of it is made.
pub fn missing(alloc: Global, shape: &Shape, path: &RefPath) -> Result<Option<Tree>, OutOfMemory>
    ensures as_defined { IfOk result
        (λ r. option_map tree_view r ≡ model.missing path.now (view shape.now)) }
    ensures missing { IfOk result
        (λ r. IfSome r (λ t. IsMissing path.now (view shape.now) (tree_view t))) }
    ensures exactly { IfOk result
        (λ r. (r ≡ None) ↔ IsTrue (is_ok (look path.now (view shape.now)))) }
{
    let mut shapes = Shapes::new(alloc);
    let number = shapes.add(shape)?;
    missing_at(alloc, &mut shapes, number, path)
}

/// The same of the shape of a number, as [`missing`] tells it. It may leave further shapes in the table.
pub fn missing_at(
    alloc: Global,
    shapes: &mut Shapes,
    number: usize,
    path: &RefPath,
) -> Result<Option<Tree>, OutOfMemory>
    requires number { number < length shapes.old }
    ensures as_defined { IfOk result
        (λ r. option_map tree_view r ≡ model.missing path.now (shape_at shapes.old number)) }
    ensures missing { IfOk result
        (λ r. IfSome r (λ t. IsMissing path.now (shape_at shapes.old number) (tree_view t))) }
    ensures exactly { IfOk result
        (λ r. (r ≡ None) ↔ IsTrue (is_ok (look path.now (shape_at shapes.old number)))) }
    ensures keeps { Keeps shapes.old shapes.new }
{
    look_is_exactly_named();
    shapes.are_proper();
    let tree = example_without(alloc, shapes, number, path)?;
    Ok(tree)
}

/// The tree that shows a path to be doubtful. It may leave further shapes in the table.
pub fn counterexample_at(
    alloc: Global,
    shapes: &mut Shapes,
    doubtful: DoubtfulPath<'_>,
) -> Result<Tree, OutOfMemory>
    requires within { doubtful.shape < length shapes.old }
    requires refused { IsErr (look doubtful.path.now (shape_at shapes.old doubtful.shape)) }
    ensures shown { IfOk result
        (λ t. IsShownBy (doubtful_view shapes.old doubtful.entry) (tree_view t)) }
    ensures keeps { Keeps shapes.old shapes.new }
{
    match missing_at(alloc, shapes, doubtful.shape, doubtful.path)? {
        Some(tree) => Ok(tree),
        None => unreachable!(),
    }
}

/// A tree of the shape in which the path names nothing, where there is one.
fn example_without(
    alloc: Global,
    shapes: &mut Shapes,
    number: usize,
    path: &RefPath,
) -> Result<Option<Tree>, OutOfMemory>
    requires number { number < length shapes.old }
    ensures as_defined { IfOk result
        (λ r. option_map tree_view r ≡ model.missing path.now (shape_at shapes.old number)) }
    ensures keeps { Keeps shapes.old shapes.new }
{
    if find_part(shapes, number, path).is_ok() {
        return Ok(None);
    }
    let Some(mut tree) = shapes.example(alloc, number)? else {
        return Ok(None);
    };
    leave_out(alloc, shapes, number, path.segments(), &mut tree)?;
    Ok(Some(tree))
}

/// Makes of a shape's example the tree in which the segments name nothing.
#[cycle(leave_out)]
fn leave_out(
    alloc: Global,
    shapes: &mut Shapes,
    number: usize,
    segments: &[Segment],
    tree: &mut Tree,
) -> Result<(), OutOfMemory>
    requires number { number < length shapes.old }
    requires refused { IsErr
        (part_by_path (segments_view segments.now) (shape_at shapes.old number)) }
    requires given { IsExample (shape_at shapes.old number) (tree_view tree.old) }
    ensures missing { IfOk result
        (λ _. model.missing_at (segments_view segments.now) (shape_at shapes.old number)
        ≡ Some (tree_view tree.new)) }
    ensures keeps { Keeps shapes.old shapes.new }
{
    shapes.are_proper();
    let [segment, rest @ ..] = segments else {
        unreachable!()
    };
    match part_of(shapes, number, segment) {
        Some(part) => leave_out_behind(alloc, shapes, part, segment, rest, tree),
        None => leave_out_here(alloc, shapes, number, segment, tree),
    }
}

/// Makes of the example of a part, which stands at the segment, the tree in which the segments behind it name nothing.
#[cycle(leave_out)]
fn leave_out_behind(
    alloc: Global,
    shapes: &mut Shapes,
    part: usize,
    segment: &Segment,
    rest: &[Segment],
    tree: &mut Tree,
) -> Result<(), OutOfMemory>
    requires part { part < length shapes.old }
    requires refused { IsErr (part_by_path (segments_view rest.now) (shape_at shapes.old part)) }
    requires given { HasExample (segment_view segment.now) (shape_at shapes.old part)
        (tree_view tree.old) }
    ensures missing { IfOk result
        (λ _. missing_under (segment_view segment.now) (segments_view rest.now)
        (shape_at shapes.old part) (tree_view tree.old) ≡ Some (tree_view tree.new)) }
    ensures keeps { Keeps shapes.old shapes.new }
{
    match segment {
        Segment::Name(name) => match tree {
            Tree::Object(fields) => leave_out_of_field(alloc, shapes, part, name, rest, fields),
            _ => unreachable!(),
        },
        Segment::Index(index) => match tree {
            Tree::List(elements) => {
                leave_out_of_element(alloc, shapes, part, *index, rest, elements)
            }
            _ => unreachable!(),
        },
    }
}

/// The same of the field of that name.
#[cycle(leave_out)]
fn leave_out_of_field(
    alloc: Global,
    shapes: &mut Shapes,
    part: usize,
    name: &String,
    rest: &[Segment],
    fields: &mut BTreeMap<String, Tree>,
) -> Result<(), OutOfMemory>
    requires part { part < length shapes.old }
    requires refused { IsErr (part_by_path (segments_view rest.now) (shape_at shapes.old part)) }
    requires given { HasExample (Name (string_bytes name.now))
        (shape_at shapes.old part) (trees.Object (entries_view fields.old.entries)) }
    ensures missing { IfOk result
        (λ _. missing_under (Name (string_bytes name.now)) (segments_view rest.now)
        (shape_at shapes.old part) (trees.Object (entries_view fields.old.entries))
        ≡ Some (trees.Object (entries_view fields.new.entries))) }
    ensures keeps { Keeps shapes.old shapes.new }
{
    let Some(field) = fields.get_mut(name.as_str()) else {
        unreachable!()
    };
    leave_out(alloc, shapes, part, rest, field)
}

/// The same of the element at that place.
#[cycle(leave_out)]
fn leave_out_of_element(
    alloc: Global,
    shapes: &mut Shapes,
    part: usize,
    index: u32,
    rest: &[Segment],
    elements: &mut Vec<Tree>,
) -> Result<(), OutOfMemory>
    requires part { part < length shapes.old }
    requires refused { IsErr (part_by_path (segments_view rest.now) (shape_at shapes.old part)) }
    requires given { HasExample (Index index) (shape_at shapes.old part)
        (trees.Array (elements_view elements.old.items)) }
    ensures missing { IfOk result
        (λ _. missing_under (Index index) (segments_view rest.now)
        (shape_at shapes.old part) (trees.Array (elements_view elements.old.items))
        ≡ Some (trees.Array (elements_view elements.new.items))) }
    ensures keeps { Keeps shapes.old shapes.new }
{
    leave_out(alloc, shapes, part, rest, &mut elements[index as usize])
}

/// Puts an example of the kinds that the segment doesn't go into in place of the shape's example, where they have one.
fn leave_out_here(
    alloc: Global,
    shapes: &mut Shapes,
    number: usize,
    segment: &Segment,
    tree: &mut Tree,
) -> Result<(), OutOfMemory>
    requires number { number < length shapes.old }
    requires given { tree_view tree.old ≡ example (shape_at shapes.old number) }
    ensures without { IfOk result
        (λ _. model.example_without (segment_view segment.now) (shape_at shapes.old number)
        ≡ tree_view tree.new) }
    ensures keeps { Keeps shapes.old shapes.new }
{
    let Some(kinds) = kinds_of(shapes, number) else {
        return Ok(());
    };
    let others = not_gone_into(numbers_of(&kinds), segment);
    let others = shapes.add_kinds(others)?;
    match shapes.example(alloc, others)? {
        Some(other) => {
            *tree = other;
            Ok(())
        }
        None => Ok(()),
    }
}

/// The kinds without the one that the segment goes into.
fn not_gone_into(kinds: KindNumbers, segment: &Segment) -> KindNumbers
    ensures { (table : List shape.Shape) → kinds_at table result
        ≡ model.not_gone_into (segment_view segment.now) (kinds_at table kinds) }
{
    match segment {
        Segment::Name(_) => KindNumbers {
            objects: None,
            ..kinds
        },
        Segment::Index(_) => KindNumbers {
            arrays: None,
            ..kinds
        },
    }
}
