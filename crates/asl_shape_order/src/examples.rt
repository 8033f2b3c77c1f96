// Trees that show what shapes say: one of a shape, and one of a shape that lacks another.
ghost use Rattle.asl_model.specs.Examples as model;
ghost use Rattle.asl_model.specs.Shape.{Has, Inside, inhabited};
ghost use Rattle.asl_model.specs.Tree as json;
ghost use Rattle.asl_model.specs.Tree.{IsProper};
ghost use Rattle.asl_shape.specs.View.{view};
ghost use Rattle.asl_tree.specs.View as trees;
ghost use Rattle.std.specs.Bool.{then_some};
ghost use Rattle.std.specs.Prelude.{◌≡◌, IfOk, IfSome, IfNone, option_map};

use crate::numbers::number_both;
use asl_model::shape_laws::examples_have_their_shapes;
use asl_numbered::Shapes;
use asl_shape::{Shape, names_in_order};
use asl_tree::{OutOfMemory, Tree};
use std::alloc::Global;

/// A tree of the shape; `None` exactly where no tree has it. It is of the first kind that has one, in byte order of the
/// names of the types: a list of an example of each of the first places, `false`, 0, `null`, an object with an example
/// of each needed field, or the empty text; of `Any` it is `null`.
///
/// Refuses only where an allocation was refused.
pub fn example(alloc: Global, shape: &Shape) -> Result<Option<Tree>, OutOfMemory>
    ensures as_defined { IfOk result
        (λ found. option_map trees.view found
        ≡ then_some (inhabited (view shape.now)) (model.example (view shape.now))) }
    ensures has { IfOk result (λ found. IfSome found (λ t. Has (view shape.now) (trees.view t))) }
    ensures proper { IfOk result (λ found. IfSome found (λ t. IsProper (trees.view t))) }
    ensures none { IfOk result
        (λ found. IfNone found ((t : json.Tree) → Has (view shape.now) t → ⊥)) }
{
    examples_have_their_shapes();
    names_in_order(shape);
    let mut shapes = Shapes::new(alloc);
    let number = shapes.add(shape)?;
    shapes.example(alloc, number)
}

/// A tree of the first shape that lacks the second; `None` exactly where every tree of the first has the second, as
/// [`crate::sub`] tells. It is of the first kind, in byte order of the names of the types, of which the first takes a
/// tree that the second doesn't; `Any` takes all trees of the six kinds.
///
/// A list or an object is as [`example`] makes it where the second takes none, or only longer lists, or needs a field
/// that the first doesn't. Else one place of the list is changed, the first that can be outside, or there is one element
/// more; and one field of the object is changed or added: of those that both mention, or the second alone, or the first
/// alone, or else a new one, of the first name among `a`, `aa`, `aaa` and so on that neither mentions.
///
/// Refuses only where an allocation was refused.
pub fn outside(alloc: Global, inner: &Shape, outer: &Shape) -> Result<Option<Tree>, OutOfMemory>
    ensures as_defined { IfOk result
        (λ found. option_map trees.view found ≡ model.outside (view inner.now) (view outer.now)) }
    ensures outside { IfOk result
        (λ found. IfSome found
        (λ t. model.IsOutside (view inner.now) (view outer.now) (trees.view t))) }
    ensures none { IfOk result
        (λ found. IfNone found (Inside (view inner.now) (view outer.now))) }
{
    let mut both = number_both(alloc, inner, outer)?;
    both.shapes.outside(alloc, both.first, both.second)
}
