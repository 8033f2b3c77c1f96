//! The numbers of the shapes of the elements of an array, and of lists that a state gives.

ghost use Rattle.std.specs.Prelude.{◌≡◌, ◌<◌, IfOk, IfSome, if◌then◌else◌, length, map, option_map};
ghost use Rattle.asl_flow.specs.Elements.{elements_view, AreElementsBelow};
ghost use Rattle.asl_model.specs.Finding as model;
ghost use Rattle.asl_model.specs.Shape as kinds;
ghost use Rattle.asl_numbered.specs.Expansion.{shape_at, shapes_at, AreBelow, IsNumberOf, Keeps, Shows};

use asl_numbered::{Node, Shapes};
use asl_shape_paths::composing::closed_list;
use asl_shape_paths::kinds::arrays_alone;
use asl_shape_paths::numbers::{is_inhabited, put_join, put_never, put_node};
use asl_tree::OutOfMemory;
use std::alloc::Global;

/// The numbers of the shapes of an array's elements: those of the first ones in order, and that of the further ones.
#[derive(Drop)]
pub struct Elements {
    pub first: Vec<usize>,
    pub rest: usize,
}

/// The numbers of the shapes of the elements, where arrays alone have the shape of that number. Refuses only where an
/// allocation was refused.
pub fn elements_of(
    alloc: Global,
    shapes: &Shapes,
    number: usize,
) -> Result<Option<Elements>, OutOfMemory>
    requires number { number < length shapes.now }
    ensures as_defined { IfOk result
        (λ r. option_map (elements_view shapes.now) r
        ≡ model.array_parts (shape_at shapes.now number)) }
    ensures within { IfOk result (λ r. IfSome r (AreElementsBelow (length shapes.now))) }
{
    match arrays_alone(shapes, number) {
        Some(arrays) => Ok(Some(Elements {
            first: Vec::from_slice(alloc, arrays.first)?,
            rest: arrays.rest,
        })),
        None => Ok(None),
    }
}

/// The number of the shape of all elements: the join of those of the first ones in order, and of that of the further
/// ones. Refuses only where an allocation was refused.
pub fn element_at(shapes: &mut Shapes, elements: &Elements) -> Result<usize, OutOfMemory>
    requires elements { AreElementsBelow (length shapes.old) elements.now }
    ensures number { IfOk result
        (IsNumberOf shapes.new (model.element_shape (shapes_at shapes.old elements.now.first.items)
        (shape_at shapes.old elements.now.rest))) }
    ensures keeps { Keeps shapes.old shapes.new }
{
    let mut element = put_never(shapes)?;
    for place in &elements.first {
        element = put_join(shapes, element, *place)?;
    }
    let number = put_join(shapes, element, elements.rest)?;
    shapes.are_distinct();
    Ok(number)
}

/// The number of the shape of the list of the outputs of a Map's children, each of the shape of that number, for the
/// shapes of the items. Refuses only where an allocation was refused.
pub fn outputs_at(
    alloc: Global,
    shapes: &mut Shapes,
    output: usize,
    items: &Elements,
) -> Result<usize, OutOfMemory>
    requires output { output < length shapes.old }
    requires items { AreElementsBelow (length shapes.old) items.now }
    ensures number { IfOk result
        (IsNumberOf shapes.new (model.map_result (shape_at shapes.old output)
        (shapes_at shapes.old items.now.first.items) (shape_at shapes.old items.now.rest))) }
    ensures keeps { Keeps shapes.old shapes.new }
{
    let first = Vec::from_elem(alloc, output, items.first.len())?;
    let rest = further_output(shapes, output, items.rest)?;
    let number = put_node(shapes, Node::List { first, rest })?;
    shapes.are_distinct();
    Ok(number)
}

/// The number of the shape of the outputs for further items: none comes where there is no further item.
fn further_output(shapes: &mut Shapes, output: usize, rest: usize) -> Result<usize, OutOfMemory>
    requires output { output < length shapes.old }
    requires rest { rest < length shapes.old }
    ensures shown { IfOk result
        (Shows shapes.new (if kinds.inhabited (shape_at shapes.old rest)
        then shape_at shapes.old output else kinds.Never)) }
    ensures keeps { Keeps shapes.old shapes.new }
{
    if is_inhabited(shapes, rest) {
        Ok(output)
    } else {
        put_never(shapes)
    }
}

/// The number of the shape of the lists with just the elements of those shapes, as a Parallel gives one of what its
/// branches end with. Refuses only where an allocation was refused.
pub fn list_at(alloc: Global, shapes: &mut Shapes, elements: &[usize]) -> Result<usize, OutOfMemory>
    requires elements { AreBelow (length shapes.old) elements.now }
    ensures number { IfOk result
        (IsNumberOf shapes.new (kinds.ArrayShape (model.as_first_elements
        (map (shape_at shapes.old) elements.now)) kinds.Never)) }
    ensures keeps { Keeps shapes.old shapes.new }
{
    let first = Vec::from_slice(alloc, elements)?;
    let number = closed_list(shapes, first)?;
    shapes.are_distinct();
    Ok(number)
}
