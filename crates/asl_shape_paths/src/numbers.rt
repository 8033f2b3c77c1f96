//! Shapes by number, where the numbers are known to be in the table.

ghost use Rattle.std.specs.Prelude.{◌≡◌, ◌<◌, ◌&&◌, IfOk, length};
ghost use Rattle.asl_model.specs.Shape as model;
ghost use Rattle.asl_model.specs.ShapeOrder as order;
ghost use Rattle.asl_numbered.specs.Expansion.{shape_at, shape_over, Keeps, RefersBelow, Shows};
ghost use Rattle.asl_numbered.specs.Kinds.{HasProperParts};
ghost use Rattle.asl_shape.specs.View.{view};

use asl_numbered::{Node, Shapes};
use asl_shape::Shape;
use asl_tree::OutOfMemory;

/// Whether some tree has the shape of that number.
pub fn is_inhabited(shapes: &Shapes, number: usize) -> bool
    requires number { number < length shapes.now }
    ensures as_defined { result ≡ model.inhabited (shape_at shapes.now number) }
{
    shapes.inhabited(number).unwrap()
}

/// Whether some tree has the first shape, and some tree the second.
pub fn are_inhabited(shapes: &Shapes, first: usize, second: usize) -> bool
    requires first { first < length shapes.now }
    requires second { second < length shapes.now }
    ensures as_defined { result
        ≡ (model.inhabited (shape_at shapes.now first)
        && model.inhabited (shape_at shapes.now second)) }
{
    is_inhabited(shapes, first) && is_inhabited(shapes, second)
}

/// The number of the shape whose first level is the node.
pub fn put_node(shapes: &mut Shapes, node: Node) -> Result<usize, OutOfMemory>
    requires refers { RefersBelow (length shapes.old) node }
    requires proper { HasProperParts shapes.old node }
    ensures shown { IfOk result (Shows shapes.new (shape_over shapes.old node)) }
    ensures keeps { Keeps shapes.old shapes.new }
{
    let number = shapes.add_node(node)?;
    Ok(number.unwrap())
}

/// The number of the shape that no tree has.
pub fn put_never(shapes: &mut Shapes) -> Result<usize, OutOfMemory>
    ensures shown { IfOk result (Shows shapes.new model.Never) }
    ensures keeps { Keeps shapes.old shapes.new }
{
    put_node(shapes, Node::Never)
}

/// The number of the join of the two shapes.
pub fn put_join(shapes: &mut Shapes, first: usize, second: usize) -> Result<usize, OutOfMemory>
    requires first { first < length shapes.old }
    requires second { second < length shapes.old }
    ensures shown { IfOk result
        (Shows shapes.new (order.join (shape_at shapes.old first) (shape_at shapes.old second))) }
    ensures keeps { Keeps shapes.old shapes.new }
{
    let number = shapes.join(first, second)?;
    Ok(number.unwrap())
}

/// The shape of that number.
pub fn expand(shapes: &Shapes, number: usize) -> Result<Shape, OutOfMemory>
    requires number { number < length shapes.now }
    ensures shape { IfOk result (λ s. view s ≡ shape_at shapes.now number) }
{
    let shape = shapes.expand(number)?;
    Ok(shape.unwrap())
}
