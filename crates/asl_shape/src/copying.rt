// Copying shapes.
ghost use Rattle.asl_shape.specs.Kinds.{arrays_view, objects_view, owned_arrays_view, owned_objects_view};
ghost use Rattle.asl_shape.specs.Properness.{is_proper, are_proper, arrays_proper, fields_proper, objects_proper};
ghost use Rattle.asl_shape.specs.View.{view, shapes_view, fields_view};
ghost use Rattle.std.specs.Prelude.{◌≡◌, IfOk, IsTrue};

use crate::kinds::{Arrays, Objects, OwnedArrays, OwnedKinds, OwnedObjects, of_kinds, take_apart};
use crate::shape::{Field, Shape};
use asl_tree::OutOfMemory;
use std::alloc::Global;
use std::collections::BTreeMap;

/// A proper shape equal to `shape`. Refuses only where an allocation was refused.
#[cycle(copy)]
pub fn copy(alloc: Global, shape: &Shape) -> Result<Shape, OutOfMemory>
    ensures copied { IfOk result (λ s. view s ≡ view shape.now) }
    ensures proper { IfOk result (λ s. IsTrue (is_proper s)) }
{
    match take_apart(shape) {
        None => Ok(Shape::Any),
        Some(kinds) => {
            let copied = OwnedKinds {
                null: kinds.null,
                boolean: kinds.boolean,
                integer: kinds.integer,
                text: kinds.text,
                arrays: copy_arrays(alloc, kinds.arrays)?,
                objects: copy_objects(alloc, kinds.objects)?,
            };
            of_kinds(alloc, copied)
        }
    }
}

/// An equal copy of what a shape takes of lists. An error only where an allocation is refused.
#[cycle(copy)]
fn copy_arrays(
    alloc: Global,
    arrays: Option<Arrays<'_>>,
) -> Result<Option<OwnedArrays>, OutOfMemory>
    ensures copied { IfOk result (λ copied. owned_arrays_view copied ≡ arrays_view arrays.entry) }
    ensures proper { IfOk result (λ copied. IsTrue (arrays_proper copied)) }
{
    match arrays {
        None => Ok(None),
        Some(Arrays { first, rest }) => Ok(Some(OwnedArrays {
            first: copy_shapes(alloc, first)?,
            rest: Box::new(alloc, copy(alloc, rest)?)?,
        })),
    }
}

/// An equal copy of what a shape takes of objects. An error only where an allocation is refused.
#[cycle(copy)]
fn copy_objects(
    alloc: Global,
    objects: Option<Objects<'_>>,
) -> Result<Option<OwnedObjects>, OutOfMemory>
    ensures copied { IfOk result
        (λ copied. owned_objects_view copied ≡ objects_view objects.entry) }
    ensures proper { IfOk result (λ copied. IsTrue (objects_proper copied)) }
{
    match objects {
        None => Ok(None),
        Some(Objects { fields, extra }) => Ok(Some(OwnedObjects {
            fields: copy_fields(alloc, fields)?,
            extra,
        })),
    }
}

#[cycle(copy)]
fn copy_shapes(alloc: Global, shapes: &[Shape]) -> Result<Vec<Shape>, OutOfMemory>
    ensures copied { IfOk result (λ v. shapes_view v.items ≡ shapes_view shapes.now) }
    ensures proper { IfOk result (λ v. IsTrue (are_proper v.items)) }
{
    let mut copies = Vec::with_capacity(alloc, shapes.len())?;
    for shape in shapes {
        copies.push(copy(alloc, shape)?)?;
    }
    Ok(copies)
}

#[cycle(copy)]
fn copy_fields(
    alloc: Global,
    fields: &BTreeMap<String, Field>,
) -> Result<BTreeMap<String, Field>, OutOfMemory>
    ensures copied { IfOk result (λ m. fields_view m.entries ≡ fields_view fields.now.entries) }
    ensures proper { IfOk result (λ m. IsTrue (fields_proper m.entries)) }
{
    let mut copies = BTreeMap::new(alloc);
    for (name, field) in fields.iter() {
        let key = name.clone()?;
        let copied = Field {
            needed: field.needed,
            shape: copy(alloc, &field.shape)?,
        };
        drop(copies.insert(key, copied)?);
    }
    Ok(copies)
}
