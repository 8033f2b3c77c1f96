// A shape that two shapes are inside.
ghost use Rattle.asl_model.specs.Shape as shape;
ghost use Rattle.asl_model.specs.ShapeOrder as model;
ghost use Rattle.asl_shape.specs.Properness.{is_proper};
ghost use Rattle.asl_shape.specs.View.{view};
ghost use Rattle.std.specs.Prelude.{◌≡◌, IfOk, IsTrue};

use crate::numbers::number_both;
use asl_model::shape_laws::join_is_above_both;
use asl_shape::Shape;
use asl_tree::OutOfMemory;
use std::alloc::Global;

/// The join of two shapes, a proper one: every tree of either has it.
///
/// Where one of the shapes isn't inhabited, it is the other (the second where both aren't). Where one is `Any`, it is
/// `Any`. Else it takes what either takes, kind by kind; lists that no list is of, and objects that no object is of, are
/// left out first. Lists of both give the joins of the places that both have; the shape of the further elements is the
/// join of all that stands behind those places, one after another: the places of one alone, then the first's `rest`,
/// then the second's. Objects of both give objects that may have fields that aren't mentioned where either may; a field
/// that both mention is needed where both need it, with the join of its shapes; a field that one alone mentions is
/// optional, and isn't mentioned at all where the other may have fields that it doesn't mention.
///
/// Refuses only where an allocation was refused.
pub fn join(alloc: Global, first: &Shape, second: &Shape) -> Result<Shape, OutOfMemory>
    ensures as_defined { IfOk result (λ s. view s ≡ model.join (view first.now) (view second.now)) }
    ensures proper { IfOk result (λ s. IsTrue (is_proper s)) }
    ensures left { IfOk result (λ s. shape.Inside (view first.now) (view s)) }
    ensures right { IfOk result (λ s. shape.Inside (view second.now) (view s)) }
{
    join_is_above_both();
    let mut both = number_both(alloc, first, second)?;
    let number = both.shapes.join(both.first, both.second)?.unwrap();
    Ok(both.shapes.expand(number)?.unwrap())
}
