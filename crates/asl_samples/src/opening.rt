//! Shapes in which objects may have other fields.
ghost use Rattle.std.specs.Prelude.{◌≡◌, IfOk, IsTrue};
ghost use Rattle.asl_model.specs.Shape.{Inside};
ghost use Rattle.asl_shape.specs.Kinds.{arrays_view, objects_view, owned_arrays_view, owned_objects_view};
ghost use Rattle.asl_shape.specs.Properness.{is_proper, are_proper, arrays_proper, fields_proper, objects_proper};
ghost use Rattle.asl_shape.specs.View.{view, shapes_view, fields_view};
ghost use Rattle.asl_samples.specs.Opened as model;

use asl_shape::{
    Arrays, Field, Objects, OwnedArrays, OwnedKinds, OwnedObjects, Shape, of_kinds, take_apart,
};
use asl_tree::OutOfMemory;
use std::alloc::Global;
use std::collections::BTreeMap;

/// The shape that is like `shape`, but that each object, at any depth, may have fields that aren't mentioned. Every tree
/// that has the one has the other. Refuses only where an allocation was refused.
#[cycle(opened)]
pub fn opened(alloc: Global, shape: &Shape) -> Result<Shape, OutOfMemory>
    ensures as_defined { IfOk result (λ s. view s ≡ model.opened (view shape.now)) }
    ensures proper { IfOk result (λ s. IsTrue (is_proper s)) }
    ensures inside { IfOk result (λ s. Inside (view shape.now) (view s)) }
{
    match take_apart(shape) {
        None => Ok(Shape::Any),
        Some(kinds) => {
            let opened = OwnedKinds {
                null: kinds.null,
                boolean: kinds.boolean,
                integer: kinds.integer,
                text: kinds.text,
                arrays: opened_arrays(alloc, kinds.arrays)?,
                objects: opened_objects(alloc, kinds.objects)?,
            };
            of_kinds(alloc, opened)
        }
    }
}

/// The same of lists.
#[cycle(opened)]
fn opened_arrays(
    alloc: Global,
    arrays: Option<Arrays<'_>>,
) -> Result<Option<OwnedArrays>, OutOfMemory>
    ensures as_defined { IfOk result
        (λ owned. owned_arrays_view owned ≡ model.opened_arrays (arrays_view arrays.entry)) }
    ensures proper { IfOk result (λ owned. IsTrue (arrays_proper owned)) }
{
    match arrays {
        None => Ok(None),
        Some(Arrays { first, rest }) => Ok(Some(OwnedArrays {
            first: opened_each(alloc, first)?,
            rest: Box::new(alloc, opened(alloc, rest)?)?,
        })),
    }
}

/// The same of objects.
#[cycle(opened)]
fn opened_objects(
    alloc: Global,
    objects: Option<Objects<'_>>,
) -> Result<Option<OwnedObjects>, OutOfMemory>
    ensures as_defined { IfOk result
        (λ owned. owned_objects_view owned ≡ model.opened_objects (objects_view objects.entry)) }
    ensures proper { IfOk result (λ owned. IsTrue (objects_proper owned)) }
{
    match objects {
        None => Ok(None),
        Some(Objects { fields, .. }) => Ok(Some(OwnedObjects {
            fields: opened_fields(alloc, fields)?,
            extra: true,
        })),
    }
}

/// The same of each of the shapes.
#[cycle(opened)]
fn opened_each(alloc: Global, shapes: &[Shape]) -> Result<Vec<Shape>, OutOfMemory>
    ensures as_defined { IfOk result
        (λ v. shapes_view v.items ≡ model.opened_each (shapes_view shapes.now)) }
    ensures proper { IfOk result (λ v. IsTrue (are_proper v.items)) }
{
    let mut each = Vec::with_capacity(alloc, shapes.len())?;
    for shape in shapes {
        each.push(opened(alloc, shape)?)?;
    }
    Ok(each)
}

/// The same of the shape of each field.
#[cycle(opened)]
fn opened_fields(
    alloc: Global,
    fields: &BTreeMap<String, Field>,
) -> Result<BTreeMap<String, Field>, OutOfMemory>
    ensures as_defined { IfOk result
        (λ m. fields_view m.entries ≡ model.opened_fields (fields_view fields.now.entries)) }
    ensures proper { IfOk result (λ m. IsTrue (fields_proper m.entries)) }
{
    let mut each = BTreeMap::new(alloc);
    for (name, field) in fields.iter() {
        let key = name.clone()?;
        let shape = opened(alloc, &field.shape)?;
        let needed = field.needed;
        drop(each.insert(key, Field { needed, shape })?);
    }
    Ok(each)
}
