//! Reading the shapes that a certificate lists.

ghost use Rattle.std.specs.Prelude.{◌≡◌, [], length, option_map, Some, IfOk, IfErr, IfSome, OnOk, codes};
ghost use Rattle.asl_model.specs.Records.{listed_after};
ghost use Rattle.asl_tree.specs.View.{view, elements_view};
ghost use Rattle.asl_numbered.specs.Expansion.{AreBelow};
ghost use Rattle.asl_records.specs.Listed.{AreMeant, IsReading};
ghost use Rattle.asl_records.specs.Parts.{TellsOneOf, field_complaints, listed_row, listing_complaints, reading_of, trees_there, unlisted};
ghost use Rattle.asl_records.specs.Values.{as_items, as_value, value_in};

use crate::fields::{Reader, stated};
use crate::refusals::{ReadFault, RecordFault};
use asl_numbered::Shapes;
use asl_tree::Tree;
use std::alloc::Global;
use std::collections::BTreeMap;

/// The numbers of the shapes that the field `shapes` lists: `None` where it isn't there.
pub(crate) fn read_listed(
    alloc: Global,
    several: bool,
    shapes: &mut Shapes,
    fields: &BTreeMap<String, Tree>,
) -> Result<Option<Vec<usize>>, ReadFault>
    ensures right { OnOk result (field_complaints (unlisted several) [] listed_row
        (value_in (codes "shapes") fields.now.entries) ≡ []) }
    ensures below { IfOk result
        (λ numbers. IfSome numbers (λ ns. AreBelow (length shapes.new) ns.items)) }
    ensures meant { IfOk result
        (λ numbers. IsReading several shapes.new (option_map (λ ns. ns.items) numbers)
        (reading_of several (trees_there (value_in (codes "shapes") fields.now.entries)))) }
    ensures refused { IfErr result (TellsOneOf (field_complaints (unlisted several) [] listed_row
        (value_in (codes "shapes") fields.now.entries))) }
{
    match stated(fields, "shapes") {
        Some(tree) => Ok(Some(read_list(alloc, several, shapes, tree)?)),
        None => Ok(None),
    }
}

/// The numbers of the shapes that are listed.
fn read_list(
    alloc: Global,
    several: bool,
    shapes: &mut Shapes,
    tree: &Tree,
) -> Result<Vec<usize>, ReadFault>
    ensures right { OnOk result (field_complaints (unlisted several) [] listed_row
        (Some (as_value (view tree.now))) ≡ []) }
    ensures below { IfOk result (λ numbers. AreBelow (length shapes.new) numbers.items) }
    ensures meant { IfOk result
        (λ numbers. IsReading several shapes.new (Some numbers.items)
        (reading_of several (trees_there (Some (as_value (view tree.now)))))) }
    ensures refused { IfErr result (TellsOneOf (field_complaints (unlisted several) [] listed_row
        (Some (as_value (view tree.now))))) }
{
    match tree {
        Tree::List(elements) => read_elements(alloc, several, shapes, elements),
        Tree::Null | Tree::Bool(_) | Tree::Int(_) | Tree::Text(_) | Tree::Object(_) => {
            Err(ReadFault::record(alloc, RecordFault::WrongKind, "", "shapes"))
        }
    }
}

/// The numbers of the shapes that the elements stand for, in each of which references mean the ones before it.
fn read_elements(
    alloc: Global,
    several: bool,
    shapes: &mut Shapes,
    elements: &[Tree],
) -> Result<Vec<usize>, ReadFault>
    ensures right { OnOk result (listing_complaints several []
        (as_items (elements_view elements.now)) ≡ []) }
    ensures below { IfOk result (λ numbers. AreBelow (length shapes.new) numbers.items) }
    ensures meant { IfOk result (λ numbers. AreMeant several shapes.new numbers.items
        (listed_after [] (as_items (elements_view elements.now)))) }
    ensures refused { IfErr result
        (TellsOneOf (listing_complaints several [] (as_items (elements_view elements.now)))) }
{
    let mut numbers = Vec::with_capacity(alloc, elements.len())?;
    for element in elements {
        let record = Reader {
            alloc,
            name: "",
            several,
            listed: Some(&numbers),
        };
        let number = record.read_number(shapes, "shapes", element)?;
        numbers.push(number)?;
    }
    Ok(numbers)
}
