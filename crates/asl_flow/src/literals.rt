//! The shape of a value that stands for itself.
ghost use Rattle.std.specs.Prelude.{◌≡◌, IfOk};
ghost use Rattle.asl_model.specs.ShapeFlow.{literal, literals, literal_fields as fields_of_literal};
ghost use Rattle.asl_numbered.specs.Expansion.{IsNumberOf, AreNumbersOf, AreFieldsOf, Keeps, Shows};
ghost use Rattle.asl_shape.specs.View.{view};
ghost use Rattle.asl_tree.specs.View as trees;

use asl_numbered::{Node, NodeField, Shapes};
use asl_shape::Shape;
use asl_shape_paths::composing::{closed_list, closed_object, set_field};
use asl_shape_paths::numbers::{expand, put_node};
use asl_tree::{OutOfMemory, Tree};
use std::alloc::Global;
use std::collections::BTreeMap;
use std::rc::RcStr;

/// The shape of a tree that stands for itself, as a Pass state's `Result` does (States Language, "Pass State"): each
/// value's kind, lists place by place with no further element, objects closed with each field needed. Refuses only
/// where an allocation was refused.
pub fn literal_shape(alloc: Global, tree: &Tree) -> Result<Shape, OutOfMemory>
    ensures as_defined { IfOk result (λ s. view s ≡ literal (trees.view tree.now)) }
{
    let mut shapes = Shapes::new(alloc);
    let number = own_shape(alloc, &mut shapes, tree)?;
    expand(&shapes, number)
}

/// The number of the shape of a tree that stands for itself, as [`literal_shape`] tells it. Refuses only where an
/// allocation was refused.
pub fn literal_shape_at(
    alloc: Global,
    shapes: &mut Shapes,
    tree: &Tree,
) -> Result<usize, OutOfMemory>
    ensures number { IfOk result (IsNumberOf shapes.new (literal (trees.view tree.now))) }
    ensures keeps { Keeps shapes.old shapes.new }
{
    let number = own_shape(alloc, shapes, tree)?;
    shapes.are_distinct();
    Ok(number)
}

/// A number of the shape of a tree that stands for itself.
#[tactic(auto, using(asl_numbered::proofs::Expansions::simple_refers))]
#[cycle(literal)]
pub(crate) fn own_shape(
    alloc: Global,
    shapes: &mut Shapes,
    tree: &Tree,
) -> Result<usize, OutOfMemory>
    ensures shown { IfOk result (Shows shapes.new (literal (trees.view tree.now))) }
    ensures keeps { Keeps shapes.old shapes.new }
{
    match tree {
        Tree::Null => put_node(shapes, Node::Null),
        Tree::Bool(_) => put_node(shapes, Node::Bool),
        Tree::Int(_) => put_node(shapes, Node::Int),
        Tree::Text(_) => put_node(shapes, Node::Text),
        Tree::List(elements) => {
            let first = element_shapes(alloc, shapes, elements)?;
            closed_list(shapes, first)
        }
        Tree::Object(fields) => {
            let mentions = field_shapes(alloc, shapes, fields)?;
            closed_object(shapes, mentions)
        }
    }
}

/// The numbers of the shapes of the elements, in order.
#[cycle(literal)]
fn element_shapes(
    alloc: Global,
    shapes: &mut Shapes,
    elements: &[Tree],
) -> Result<Vec<usize>, OutOfMemory>
    ensures numbers { IfOk result
        (λ v. AreNumbersOf shapes.new (literals (trees.elements_view elements.now)) v.items) }
    ensures keeps { Keeps shapes.old shapes.new }
{
    let mut numbers = Vec::with_capacity(alloc, elements.len())?;
    for element in elements {
        let number = own_shape(alloc, shapes, element)?;
        numbers.push(number)?;
    }
    Ok(numbers)
}

/// Each field, needed and with the number of the shape of its value.
#[cycle(literal)]
fn field_shapes(
    alloc: Global,
    shapes: &mut Shapes,
    fields: &BTreeMap<String, Tree>,
) -> Result<BTreeMap<RcStr, NodeField>, OutOfMemory>
    ensures numbers { IfOk result
        (λ m. AreFieldsOf shapes.new
        (fields_of_literal (trees.entries_view fields.now.entries)) m.entries) }
    ensures keeps { Keeps shapes.old shapes.new }
{
    let mut mentions = BTreeMap::new(alloc);
    for (name, field) in fields.iter() {
        let mention = NodeField {
            needed: true,
            shape: own_shape(alloc, shapes, field)?,
        };
        set_field(&mut mentions, name, mention)?;
    }
    Ok(mentions)
}
