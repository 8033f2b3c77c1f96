//! How deep the shapes of a table are.

ghost use Rattle.std.specs.Prelude.{◌≡◌, ◌<◌, ◌≤◌, length, IfOk, List, OnOk};
ghost use Rattle.asl_model.specs.Shape as model;
ghost use Rattle.asl_model.specs.ShapeOrder.{depth_of_arrays, depth_of_objects};
ghost use Rattle.asl_numbered.specs.Expansion.{fields_at, numbers_in, shape_at, shapes_at, AreBelow};
ghost use Rattle.asl_numbered.specs.TakenApart.{arrays_over, kinds_over, objects_over};
ghost use Rattle.asl_drafts.specs.Depths.{told, told_depth, told_depth_of_elements, told_depth_of_fields, AreDepths};
ghost use Rattle.asl_drafts.specs.Parts.{numbers_in_arrays, numbers_in_kinds, numbers_in_objects};

use asl_numbered::{NodeArrays, NodeField, NodeKinds, NodeObjects, Shapes};
use asl_tree::OutOfMemory;
use std::collections::BTreeMap;
use std::rc::RcStr;

/// How deep the shape of that number is, 255 where it is deeper. The depths of the first shapes are known; those of the
/// others are added to them.
pub(crate) fn depth_of(
    shapes: &Shapes,
    depths: &mut Vec<u8>,
    number: usize,
) -> Result<u8, OutOfMemory>
    requires within { number < length shapes.now }
    requires right { AreDepths shapes.now depths.old.items }
    ensures right { AreDepths shapes.now depths.new.items }
    ensures depth { IfOk result (λ d. d ≡ told_depth (shape_at shapes.now number)) }
{
    measure(shapes, depths)?;
    Ok(depths[number])
}

/// Adds the depths of the shapes that have none so far.
fn measure(shapes: &Shapes, depths: &mut Vec<u8>) -> Result<(), OutOfMemory>
    requires { AreDepths shapes.now depths.old.items }
    ensures right { AreDepths shapes.now depths.new.items }
    ensures all { OnOk result (length shapes.now ≤ length depths.new.items) }
{
    for number in depths.len()..shapes.len() {
        let depth = depth_from(shapes, depths, number);
        depths.push(depth)?;
    }
    Ok(())
}

/// How deep the shape of that number is, where the depths of those before it are known.
fn depth_from(shapes: &Shapes, depths: &[u8], number: usize) -> u8
    requires right { AreDepths shapes.now depths.now }
    requires known { number ≤ length depths.now }
    ensures { result ≡ told_depth (shape_at shapes.now number) }
{
    match shapes.take_apart(number) {
        Some(kinds) => depth_over(depths, kinds),
        None => 1,
    }
}

/// How deep the shape of these kinds is: one that is of several kinds is one level.
fn depth_over(depths: &[u8], kinds: NodeKinds) -> u8
    requires { AreBelow (length depths.now) (numbers_in_kinds kinds) }
    ensures { (table : List model.Shape) → AreDepths table depths.now
        → result ≡ told_depth (kinds_over table kinds.entry) }
{
    deepest_element(depths, kinds.arrays)
        .max(deepest_of_objects(depths, kinds.objects))
        .saturating_add(1)
}

/// How deep the deepest of the elements' shapes is.
fn deepest_element(depths: &[u8], arrays: Option<NodeArrays>) -> u8
    requires { AreBelow (length depths.now) (numbers_in_arrays arrays) }
    ensures { (table : List model.Shape) → AreDepths table depths.now
        → result ≡ told (depth_of_arrays (arrays_over table arrays.entry)) }
{
    match arrays {
        Some(arrays) => deepest(depths, arrays.first).max(depths[arrays.rest]),
        None => 0,
    }
}

/// How deep the deepest of the fields' shapes is, where there are objects.
fn deepest_of_objects(depths: &[u8], objects: Option<NodeObjects>) -> u8
    requires { AreBelow (length depths.now) (numbers_in_objects objects) }
    ensures { (table : List model.Shape) → AreDepths table depths.now
        → result ≡ told (depth_of_objects (objects_over table objects.entry)) }
{
    match objects {
        Some(objects) => deepest_field(depths, objects.fields),
        None => 0,
    }
}

/// How deep the deepest of the shapes of those numbers is.
fn deepest(depths: &[u8], numbers: &[usize]) -> u8
    requires { AreBelow (length depths.now) numbers.now }
    ensures { (table : List model.Shape) → AreDepths table depths.now
        → result ≡ told_depth_of_elements (shapes_at table numbers.now) }
{
    let mut deepest = 0;
    for number in numbers {
        deepest = deepest.max(depths[*number]);
    }
    deepest
}

/// How deep the deepest of the fields' shapes is.
fn deepest_field(depths: &[u8], fields: &BTreeMap<RcStr, NodeField>) -> u8
    requires { AreBelow (length depths.now) (numbers_in fields.now.entries) }
    ensures { (table : List model.Shape) → AreDepths table depths.now
        → result ≡ told_depth_of_fields (fields_at table fields.now.entries) }
{
    let mut deepest = 0;
    for (_, field) in fields.iter() {
        deepest = deepest.max(depths[field.shape]);
    }
    deepest
}
