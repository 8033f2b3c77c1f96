// Two shapes in a table.
ghost use Rattle.asl_numbered.specs.Expansion.{Shows};
ghost use Rattle.asl_shape.specs.View.{view};
ghost use Rattle.std.specs.Prelude.{IfOk};

use asl_numbered::Shapes;
use asl_shape::Shape;
use asl_tree::OutOfMemory;
use std::alloc::Global;

// A table, and two numbers in it.
#[derive(Drop)]
pub(crate) struct Numbers {
    pub(crate) shapes: Shapes,
    pub(crate) first: usize,
    pub(crate) second: usize,
}

// A table with the two shapes, and their numbers in it.
pub(crate) fn number_both(
    alloc: Global,
    first: &Shape,
    second: &Shape,
) -> Result<Numbers, OutOfMemory>
    ensures first { IfOk result (λ both. Shows both.shapes (view first.now) both.first) }
    ensures second { IfOk result (λ both. Shows both.shapes (view second.now) both.second) }
{
    let mut shapes = Shapes::new(alloc);
    let first = shapes.add(first)?;
    let second = shapes.add(second)?;
    Ok(Numbers {
        shapes,
        first,
        second,
    })
}
