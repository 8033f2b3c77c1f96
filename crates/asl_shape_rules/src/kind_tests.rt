//! Narrowing the shape of a number to the trees in which what a path names is of a kind, or isn't.

ghost use Rattle.std.specs.Prelude.{◌≡◌, ◌<◌, List, [], true, Ok, IfOk, IsOk, length};
ghost use Rattle.asl_choice.specs.View.{kind_view};
ghost use Rattle.asl_shape_paths.specs.Doubts.{found_view, IsFoundIn};
ghost use Rattle.asl_shape_rules.specs.Kinds.{kind_if};
ghost use Rattle.asl_model.specs.Shape as shape;
ghost use Rattle.asl_model.specs.ShapeFlow as model;
ghost use Rattle.asl_model.specs.Test.{IsOfKind};
ghost use Rattle.asl_numbered.specs.Expansion.{shape_at, shape_over, parts, Keeps, Shows};
ghost use Rattle.asl_numbered.specs.Kinds.{HasProperParts};
ghost use Rattle.asl_numbered.specs.TakenApart.{kinds_at, kinds_over};

use asl_choice::ValueKind;
use asl_numbered::{KindNumbers, Node, NodeKinds, Shapes};
use asl_path::RefPath;
use asl_shape_paths::kinds::{kinds_of, numbers_of};
use asl_shape_paths::numbers::{is_inhabited, put_never, put_node};
use asl_shape_paths::parts::look_up;
use asl_shape_paths::{Found, PutRefusal, put_at};
use asl_tree::OutOfMemory;
use std::alloc::Global;

/// The number of the shape of the trees in which what the path names is of the kind, or, where that isn't wanted, is of
/// another. The path must name something in every tree; else it is told as a doubtful one.
pub(crate) fn narrow_to_kind<'p>(
    alloc: Global,
    shapes: &mut Shapes,
    number: usize,
    path: &'p RefPath,
    kind: ValueKind,
    wanted: bool,
) -> Result<Found<'p>, OutOfMemory>
    requires number { number < length shapes.old }
    ensures as_defined { IfOk result
        (λ answer. model.true_of (IsOfKind path.now (kind_view kind) wanted)
        (shape_at shapes.old number) ≡ found_view shapes.new answer) }
    ensures within { IfOk result (IsFoundIn (length shapes.new)) }
    ensures keeps { Keeps shapes.old shapes.new }
{
    if !is_inhabited(shapes, number) {
        return Ok(Ok(put_never(shapes)?));
    }
    match look_up(shapes, number, path) {
        Ok(part) => {
            let narrowed = keep_by_kind(shapes, part, kind, wanted)?;
            Ok(Ok(put_where_found(alloc, shapes, number, path, narrowed)?))
        }
        Err(doubtful) => Ok(Err(doubtful)),
    }
}

/// The number of the shape with the other one placed at a path that is found.
fn put_where_found(
    alloc: Global,
    shapes: &mut Shapes,
    number: usize,
    path: &RefPath,
    placed: usize,
) -> Result<usize, OutOfMemory>
    requires number { number < length shapes.old }
    requires placed { placed < length shapes.old }
    requires found { IsOk (model.look_at path.now (shape_at shapes.old number)) }
    ensures within { IfOk result (λ n. n < length shapes.new) }
    ensures placed { IfOk result
        (λ n. model.put path.now (shape_at shapes.old placed) (shape_at shapes.old number)
        ≡ Ok (shape_at shapes.new n)) }
    ensures keeps { Keeps shapes.old shapes.new }
{
    match put_at(alloc, shapes, number, path, placed) {
        Ok(changed) => Ok(changed),
        Err(PutRefusal::MayNotFit(_)) => unreachable!(),
        Err(PutRefusal::OutOfMemory) => Err(OutOfMemory),
    }
}

/// The number of the shape of those trees of the number's shape that are of the kind, or of the others.
fn keep_by_kind(
    shapes: &mut Shapes,
    number: usize,
    kind: ValueKind,
    wanted: bool,
) -> Result<usize, OutOfMemory>
    requires number { number < length shapes.old }
    ensures shown { IfOk result
        (Shows shapes.new (model.by_kind (kind_view kind) wanted (shape_at shapes.old number))) }
    ensures keeps { Keeps shapes.old shapes.new }
{
    if wanted {
        keep_kind(shapes, number, kind)
    } else {
        drop_kind(shapes, number, kind)
    }
}

/// The number of the shape of the trees of that kind.
fn keep_kind(shapes: &mut Shapes, number: usize, kind: ValueKind) -> Result<usize, OutOfMemory>
    requires number { number < length shapes.old }
    ensures shown { IfOk result
        (Shows shapes.new (model.of_kind (kind_view kind) (shape_at shapes.old number))) }
    ensures keeps { Keeps shapes.old shapes.new }
{
    if takes_kind(shapes, number, kind) {
        put_node(shapes, node_of(kind))
    } else {
        put_never(shapes)
    }
}

/// Whether the shape of that number takes trees of the kind.
fn takes_kind(shapes: &Shapes, number: usize, kind: ValueKind) -> bool
    requires number { number < length shapes.now }
    ensures { model.of_kind (kind_view kind) (shape_at shapes.now number)
        ≡ kind_if result (kind_view kind) }
{
    match kinds_of(shapes, number) {
        Some(kinds) => is_among(&kinds, kind),
        None => true,
    }
}

/// Whether the kind is among these.
fn is_among(kinds: &NodeKinds<'_>, kind: ValueKind) -> bool
    ensures { (table : List shape.Shape)
        → model.of_kind (kind_view kind) (kinds_over table kinds.now)
        ≡ kind_if result (kind_view kind) }
{
    match kind {
        ValueKind::Null => kinds.null,
        ValueKind::Numeric => kinds.integer,
        ValueKind::String => kinds.text,
        ValueKind::Boolean => kinds.boolean,
    }
}

/// The node of the trees of that kind.
fn node_of(kind: ValueKind) -> Node
    ensures proper { (table : List shape.Shape) → HasProperParts table result }
    ensures simple { parts result ≡ [] }
    ensures shown { (table : List shape.Shape)
        → shape_over table result ≡ kind_if true (kind_view kind) }
{
    match kind {
        ValueKind::Null => Node::Null,
        ValueKind::Numeric => Node::Int,
        ValueKind::String => Node::Text,
        ValueKind::Boolean => Node::Bool,
    }
}

/// The number of the shape of the trees of other kinds.
fn drop_kind(shapes: &mut Shapes, number: usize, kind: ValueKind) -> Result<usize, OutOfMemory>
    requires number { number < length shapes.old }
    ensures shown { IfOk result
        (Shows shapes.new (model.not_of_kind (kind_view kind) (shape_at shapes.old number))) }
    ensures keeps { Keeps shapes.old shapes.new }
{
    match kinds_of(shapes, number) {
        Some(kinds) => {
            let left = without(numbers_of(&kinds), kind);
            shapes.add_kinds(left)
        }
        None => Ok(number),
    }
}

/// The kinds without that one.
fn without(kinds: KindNumbers, kind: ValueKind) -> KindNumbers
    ensures { (table : List shape.Shape) → kinds_at table result
        ≡ model.not_of_kind (kind_view kind) (kinds_at table kinds) }
{
    match kind {
        ValueKind::Null => KindNumbers {
            null: false,
            ..kinds
        },
        ValueKind::Numeric => KindNumbers {
            integer: false,
            ..kinds
        },
        ValueKind::String => KindNumbers {
            text: false,
            ..kinds
        },
        ValueKind::Boolean => KindNumbers {
            boolean: false,
            ..kinds
        },
    }
}
