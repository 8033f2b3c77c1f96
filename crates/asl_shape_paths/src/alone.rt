//! The lists or objects of a shape that takes no other trees.

ghost use Rattle.std.specs.Prelude.{◌≡◌};
ghost use Rattle.asl_model.specs.Shape as model;
ghost use Rattle.asl_model.specs.ShapeFlow as flow;
ghost use Rattle.asl_shape.specs.Kinds.{arrays_view, objects_view, simple_of};
ghost use Rattle.asl_shape.specs.View.{view, shapes_view, fields_view};

use asl_shape::{Arrays, Field, Kinds, Objects, Shape, inhabited, take_apart};
use std::collections::BTreeMap;

/// The lists of the shape, where no other trees have it.
pub(crate) fn arrays_alone(shape: &Shape) -> Option<Arrays<'_>>
    ensures shown { arrays_view result ≡ flow.arrays_alone (view shape.now) }
{
    let kinds = take_apart(shape)?;
    if some_simple(&kinds) || some_object(kinds.objects) {
        None
    } else {
        kinds.arrays
    }
}

/// The objects of the shape, where no other trees have it.
pub(crate) fn objects_alone(shape: &Shape) -> Option<Objects<'_>>
    ensures shown { objects_view result ≡ flow.objects_alone (view shape.now) }
{
    let kinds = take_apart(shape)?;
    if some_simple(&kinds) || some_array(kinds.arrays) {
        None
    } else {
        kinds.objects
    }
}

/// Whether the kinds have a simple one among them.
fn some_simple(kinds: &Kinds<'_>) -> bool
    ensures { result ≡ model.some_simple
        (simple_of kinds.now.null kinds.now.boolean kinds.now.integer kinds.now.text) }
{
    kinds.null || kinds.boolean || kinds.integer || kinds.text
}

/// Whether there is a list among these.
fn some_array(arrays: Option<Arrays<'_>>) -> bool
    ensures { result ≡ model.some_array (arrays_view arrays.entry) }
{
    match arrays {
        Some(arrays) => all_inhabited(arrays.first),
        None => false,
    }
}

/// Whether there is an object among these.
fn some_object(objects: Option<Objects<'_>>) -> bool
    ensures { result ≡ model.some_object (objects_view objects.entry) }
{
    match objects {
        Some(objects) => needed_inhabited(objects.fields),
        None => false,
    }
}

/// Whether each of the shapes has a tree.
fn all_inhabited(shapes: &[Shape]) -> bool
    ensures { result ≡ model.all_inhabited (shapes_view shapes.now) }
{
    for shape in shapes {
        if !inhabited(shape) {
            return false;
        }
    }
    true
}

/// Whether the shape of each needed field has a tree.
fn needed_inhabited(fields: &BTreeMap<String, Field>) -> bool
    ensures { result ≡ model.needed_inhabited (fields_view fields.now.entries) }
{
    for (_, field) in fields.iter() {
        if field.needed && !inhabited(&field.shape) {
            return false;
        }
    }
    true
}
