// The shapes that numbers stand for.
ghost use Rattle.std.specs.Prelude.{◌≡◌, IfOk, IsTrue};
ghost use Rattle.asl_shape.specs.Properness.{is_proper, are_proper, fields_proper, arrays_proper, objects_proper};
ghost use Rattle.asl_shape.specs.View.{view, shapes_view, fields_view};
ghost use Rattle.asl_numbered.specs.Expansion.{shape_at, shapes_at, fields_at, numbers_in, AreBelow};
ghost use Rattle.asl_numbered.specs.TakenApart.{arrays_over, objects_over, kinds_over, AreArraysIfAny, AreObjectsIfAny, AreKindsAt};
ghost use Rattle.asl_shape.specs.Kinds.{owned_arrays_view, owned_objects_view};

use crate::kinds::{NodeArrays, NodeKinds, NodeObjects, take_apart};
use crate::node::NodeField;
use crate::table::Table;
use asl_shape::{Field, OwnedArrays, OwnedKinds, OwnedObjects, Shape, of_kinds};
use asl_tree::OutOfMemory;
use std::alloc::Global;
use std::collections::BTreeMap;
use std::rc::RcStr;

/// The shape of that number; `Never` where there is none.
#[cycle(expand)]
pub(crate) fn expand(table: &Table, alloc: Global, number: usize) -> Result<Shape, OutOfMemory>
    ensures expanded { IfOk result (λ s. view s ≡ shape_at table.now number) }
    ensures proper { IfOk result (λ s. IsTrue (is_proper s)) }
{
    match take_apart(table, number) {
        None => Ok(Shape::Any),
        Some(kinds) => expand_kinds(table, alloc, number, kinds),
    }
}

// The same, where the shape takes these kinds.
#[cycle(expand)]
fn expand_kinds(
    table: &Table,
    alloc: Global,
    number: usize,
    kinds: NodeKinds<'_>,
) -> Result<Shape, OutOfMemory>
    requires { AreKindsAt table.now number kinds }
    ensures expanded { IfOk result (λ s. view s ≡ kinds_over table.now kinds.entry) }
    ensures proper { IfOk result (λ s. IsTrue (is_proper s)) }
{
    let arrays = expand_arrays(table, alloc, number, kinds.arrays)?;
    let objects = expand_objects(table, alloc, number, kinds.objects)?;
    let owned = OwnedKinds {
        null: kinds.null,
        boolean: kinds.boolean,
        integer: kinds.integer,
        text: kinds.text,
        arrays,
        objects,
    };
    of_kinds(alloc, owned)
}

// The lists of the shape of that number.
#[cycle(expand)]
fn expand_arrays(
    table: &Table,
    alloc: Global,
    number: usize,
    arrays: Option<NodeArrays<'_>>,
) -> Result<Option<OwnedArrays>, OutOfMemory>
    requires { AreArraysIfAny table.now number arrays }
    ensures expanded { IfOk result
        (λ owned. owned_arrays_view owned ≡ arrays_over table.now arrays.entry) }
    ensures proper { IfOk result (λ owned. IsTrue (arrays_proper owned)) }
{
    let Some(lists) = arrays else {
        return Ok(None);
    };
    let places = expand_all(table, alloc, lists.first, number)?;
    let further = expand(table, alloc, lists.rest)?;
    Ok(Some(OwnedArrays {
        first: places,
        rest: Box::new(alloc, further)?,
    }))
}

// The objects of the shape of that number.
#[cycle(expand)]
fn expand_objects(
    table: &Table,
    alloc: Global,
    number: usize,
    objects: Option<NodeObjects<'_>>,
) -> Result<Option<OwnedObjects>, OutOfMemory>
    requires { AreObjectsIfAny table.now number objects }
    ensures expanded { IfOk result
        (λ owned. owned_objects_view owned ≡ objects_over table.now objects.entry) }
    ensures proper { IfOk result (λ owned. IsTrue (objects_proper owned)) }
{
    let Some(mentions) = objects else {
        return Ok(None);
    };
    let fields = expand_fields(table, alloc, mentions.fields, number)?;
    Ok(Some(OwnedObjects {
        fields,
        extra: mentions.extra,
    }))
}

// The shapes of the numbers, which are below the bound.
#[tactic(auto, using(crate::proofs::Growing::expanded_push))]
#[cycle(expand)]
fn expand_all(
    table: &Table,
    alloc: Global,
    numbers: &[usize],
    bound: usize,
) -> Result<Vec<Shape>, OutOfMemory>
    requires { AreBelow bound numbers.now }
    ensures expanded { IfOk result (λ v. shapes_view v.items ≡ shapes_at table.now numbers.now) }
    ensures proper { IfOk result (λ v. IsTrue (are_proper v.items)) }
{
    let mut shapes = Vec::with_capacity(alloc, numbers.len())?;
    for number in numbers {
        shapes.push(expand(table, alloc, *number)?)?;
    }
    Ok(shapes)
}

// The fields with the shapes of their numbers, which are below the bound.
#[cycle(expand)]
fn expand_fields(
    table: &Table,
    alloc: Global,
    fields: &BTreeMap<RcStr, NodeField>,
    bound: usize,
) -> Result<BTreeMap<String, Field>, OutOfMemory>
    requires { AreBelow bound (numbers_in fields.now.entries) }
    ensures expanded { IfOk result
        (λ m. fields_view m.entries ≡ fields_at table.now fields.now.entries) }
    ensures proper { IfOk result (λ m. IsTrue (fields_proper m.entries)) }
{
    let mut expanded = BTreeMap::new(alloc);
    for (name, field) in fields.iter() {
        let key = String::from_str(alloc, name)?;
        let shape = expand(table, alloc, field.shape)?;
        let field = Field {
            needed: field.needed,
            shape,
        };
        drop(expanded.insert(key, field)?);
    }
    Ok(expanded)
}
