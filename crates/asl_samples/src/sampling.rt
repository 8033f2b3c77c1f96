//! The shape that samples have in common.
ghost use Rattle.std.specs.Prelude.{◌≡◌, ◌<◌, IfOk, IfSome, IsTrue, length, map, option_map};
ghost use Rattle.std.specs.List.{All};
ghost use Rattle.asl_model.specs.Shape.{Has};
ghost use Rattle.asl_model.specs.ShapeFlow.{literal};
ghost use Rattle.asl_model.specs.ShapeOrder.{join};
ghost use Rattle.asl_numbered.specs.Expansion.{shape_at, Shows};
ghost use Rattle.asl_shape.specs.Properness.{is_proper};
ghost use Rattle.asl_shape.specs.View.{view};
ghost use Rattle.asl_tree.specs.View as trees;
ghost use Rattle.asl_samples.specs.Samples as model;

use asl_flow::literal_shape_at;
use asl_numbered::Shapes;
use asl_shape::Shape;
use asl_tree::{OutOfMemory, Tree};
use std::alloc::Global;

/// The shape that the samples have in common: the join of what each of them is, in order, where a sample is its values'
/// kinds, lists place by place, and objects closed with each field needed. So each sample has it. `None` where there is no
/// sample. Refuses only where an allocation was refused.
pub fn shape_of(alloc: Global, samples: &[Tree]) -> Result<Option<Shape>, OutOfMemory>
    ensures as_defined { IfOk result
        (λ r. option_map view r ≡ model.common (map trees.view samples.now)) }
    ensures each { IfOk result
        (λ r. IfSome r (λ s. All (Has (view s)) (map trees.view samples.now))) }
    ensures proper { IfOk result (λ r. IfSome r (λ s. IsTrue (is_proper s))) }
{
    let Some((first, others)) = samples.split_first() else {
        return Ok(None);
    };
    let mut shapes = Shapes::new(alloc);
    let number = joined(alloc, &mut shapes, first, others)?;
    let shape = expanded(&shapes, number)?;
    Ok(Some(shape))
}

/// The number of the join of what the first sample is with what each of the others is.
fn joined(
    alloc: Global,
    shapes: &mut Shapes,
    first: &Tree,
    others: &[Tree],
) -> Result<usize, OutOfMemory>
    ensures { IfOk result (Shows shapes.new
        (model.joined_with (literal (trees.view first.now)) (map trees.view others.now))) }
{
    let mut number = literal_shape_at(alloc, shapes, first)?;
    for sample in others {
        number = joined_with(alloc, shapes, number, sample)?;
    }
    Ok(number)
}

/// The number of the join of the shape of that number with what a sample is.
fn joined_with(
    alloc: Global,
    shapes: &mut Shapes,
    number: usize,
    sample: &Tree,
) -> Result<usize, OutOfMemory>
    requires { number < length shapes.old }
    ensures { IfOk result (Shows shapes.new
        (join (shape_at shapes.old number) (literal (trees.view sample.now)))) }
{
    let own = literal_shape_at(alloc, shapes, sample)?;
    let joined = shapes.join(number, own)?;
    Ok(joined.unwrap())
}

/// The shape of that number.
fn expanded(shapes: &Shapes, number: usize) -> Result<Shape, OutOfMemory>
    requires { number < length shapes.now }
    ensures shape { IfOk result (λ s. view s ≡ shape_at shapes.now number) }
    ensures proper { IfOk result (λ s. IsTrue (is_proper s)) }
{
    let shape = shapes.expand(number)?;
    Ok(shape.unwrap())
}
