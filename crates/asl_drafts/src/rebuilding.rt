//! The parts of a shape, and the shape with other parts.

ghost use Rattle.std.specs.Prelude.{◌≡◌, ◌++◌, ℕ, length, map, IfOk, List, OnOk};
ghost use Rattle.asl_model.specs.Shape as model;
ghost use Rattle.asl_numbered.specs.Expansion.{numbers_in, shape_at, AreBelow};
ghost use Rattle.asl_numbered.specs.TakenApart.{arrays_over, kinds_over, objects_over};
ghost use Rattle.asl_drafts.specs.Parts.{arrays_in, arrays_with, numbers_in_arrays, numbers_in_kinds, numbers_in_objects, objects_in};
ghost use Rattle.asl_drafts.specs.Parts.{objects_with, rebuilt_over, with_parts, AreFieldsWith, CanBePut};

use asl_numbered::{Node, NodeArrays, NodeField, NodeKinds, NodeObjects};
use asl_tree::OutOfMemory;
use std::alloc::Global;
use std::collections::BTreeMap;
use std::rc::RcStr;

/// The numbers of the parts of a shape of these kinds: those of fields first, and that of further elements before those
/// of the first ones.
pub(crate) fn parts_in(alloc: Global, kinds: NodeKinds) -> Result<Vec<usize>, OutOfMemory>
    ensures { IfOk result (λ numbers. numbers.items ≡ numbers_in_kinds kinds.entry) }
{
    let mut numbers = Vec::new(alloc);
    push_fields(&mut numbers, kinds.objects)?;
    push_elements(&mut numbers, kinds.arrays)?;
    Ok(numbers)
}

/// Puts down the numbers of the fields' shapes.
fn push_fields(numbers: &mut Vec<usize>, objects: Option<NodeObjects>) -> Result<(), OutOfMemory>
    ensures { OnOk result
        (numbers.new.items ≡ numbers.old.items ++ numbers_in_objects objects.entry) }
{
    match objects {
        Some(objects) => push_each(numbers, objects.fields),
        None => Ok(()),
    }
}

/// Puts down the number of each field's shape.
fn push_each(
    numbers: &mut Vec<usize>,
    fields: &BTreeMap<RcStr, NodeField>,
) -> Result<(), OutOfMemory>
    ensures { OnOk result
        (numbers.new.items ≡ numbers.old.items ++ numbers_in fields.now.entries) }
{
    for (_, field) in fields.iter() {
        numbers.push(field.shape)?;
    }
    Ok(())
}

/// Puts down the numbers of the elements' shapes.
fn push_elements(numbers: &mut Vec<usize>, arrays: Option<NodeArrays>) -> Result<(), OutOfMemory>
    ensures { OnOk result
        (numbers.new.items ≡ numbers.old.items ++ numbers_in_arrays arrays.entry) }
{
    if let Some(arrays) = arrays {
        numbers.push(arrays.rest)?;
        numbers.extend_from_slice(arrays.first)?;
    }
    Ok(())
}

/// The lists alone and the objects alone that a shape takes with other parts, if it takes any.
#[derive(Drop)]
pub(crate) struct Rebuilt {
    pub(crate) arrays: Option<Node>,
    pub(crate) objects: Option<Node>,
}

/// The lists and the objects of these kinds with parts of those numbers in place of their own.
pub(crate) fn rebuild_kinds(
    alloc: Global,
    kinds: NodeKinds,
    numbers: &[usize],
) -> Result<Rebuilt, OutOfMemory>
    requires { length numbers.now ≡ length (numbers_in_kinds kinds) }
    ensures shape { IfOk result (λ built. (table : List model.Shape)
        → rebuilt_over table kinds.entry built
        ≡ with_parts (kinds_over table kinds.entry) (map (shape_at table) numbers.now)) }
    ensures arrays { IfOk result (λ built. (bound : ℕ)
        → AreBelow bound numbers.now → CanBePut bound built.arrays) }
    ensures objects { IfOk result (λ built. (bound : ℕ)
        → AreBelow bound numbers.now → CanBePut bound built.objects) }
{
    let fields = fields_in(kinds.objects);
    Ok(Rebuilt {
        objects: objects_rebuilt(alloc, kinds.objects, &numbers[..fields])?,
        arrays: arrays_rebuilt(alloc, kinds.arrays, &numbers[fields..])?,
    })
}

/// How many fields are mentioned.
fn fields_in(objects: Option<NodeObjects>) -> usize
    ensures { result ≡ length (numbers_in_objects objects.entry) }
{
    match objects {
        Some(objects) => objects.fields.len(),
        None => 0,
    }
}

/// The first level of the lists alone with parts of those numbers in place of their own.
fn arrays_rebuilt(
    alloc: Global,
    arrays: Option<NodeArrays>,
    numbers: &[usize],
) -> Result<Option<Node>, OutOfMemory>
    requires { length numbers.now ≡ length (numbers_in_arrays arrays) }
    ensures shape { IfOk result (λ built. (table : List model.Shape)
        → arrays_in table built
        ≡ arrays_with (arrays_over table arrays.entry) (map (shape_at table) numbers.now)) }
    ensures below { IfOk result (λ built. (bound : ℕ)
        → AreBelow bound numbers.now → CanBePut bound built) }
{
    if arrays.is_none() {
        return Ok(None);
    }
    let mut first = Vec::new(alloc);
    first.extend_from_slice(&numbers[1..])?;
    Ok(Some(Node::List {
        first,
        rest: numbers[0],
    }))
}

/// The first level of the objects alone with parts of those numbers in place of their own.
fn objects_rebuilt(
    alloc: Global,
    objects: Option<NodeObjects>,
    numbers: &[usize],
) -> Result<Option<Node>, OutOfMemory>
    requires { length numbers.now ≡ length (numbers_in_objects objects) }
    ensures shape { IfOk result (λ built. (table : List model.Shape)
        → objects_in table built
        ≡ objects_with (objects_over table objects.entry) (map (shape_at table) numbers.now)) }
    ensures below { IfOk result (λ built. (bound : ℕ)
        → AreBelow bound numbers.now → CanBePut bound built) }
{
    let Some(objects) = objects else {
        return Ok(None);
    };
    Ok(Some(Node::Object {
        fields: fields_with(alloc, objects.fields, numbers)?,
        extra: objects.extra,
    }))
}

/// The fields with shapes of those numbers in place of their own.
fn fields_with(
    alloc: Global,
    fields: &BTreeMap<RcStr, NodeField>,
    numbers: &[usize],
) -> Result<BTreeMap<RcStr, NodeField>, OutOfMemory>
    requires { length numbers.now ≡ length (numbers_in fields.now.entries) }
    ensures { IfOk result (λ new. AreFieldsWith fields.now.entries numbers.now new.entries) }
{
    let mut new = BTreeMap::new(alloc);
    let mut place = 0;
    for (name, field) in fields.iter() {
        let key = name.clone()?;
        let shape = numbers[place];
        drop(new.insert(
            key,
            NodeField {
                needed: field.needed,
                shape,
            },
        )?);
        place += 1;
    }
    Ok(new)
}
