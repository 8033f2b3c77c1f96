// Whether any tree has a shape.
ghost use Rattle.asl_model.specs.Shape as model;
ghost use Rattle.asl_model.specs.Tree.{Tree, IsProper};
ghost use Rattle.asl_shape.specs.Kinds.{arrays_view, objects_view, simple_of};
ghost use Rattle.asl_shape.specs.Known.{AreInOrder, Orderly, OrderlyArrays, OrderlyObjects, AllOrderly, NeededOrderly};
ghost use Rattle.asl_shape.specs.View.{view, shapes_view, fields_view};
ghost use Rattle.std.specs.Prelude.{◌≡◌, IsTrue, not};

use crate::kinds::{Arrays, Kinds, Objects, take_apart};
use crate::shape::{Field, Shape};
use asl_model::shape_laws::{inhabited_means_some_tree, uninhabited_means_no_tree};
use std::collections::BTreeMap;

/// Whether some tree has the shape: not where it is `Never`, nor where it asks for a place or for a needed field of
/// a shape that no tree has.
pub fn inhabited(shape: &Shape) -> bool
    ensures as_defined { result ≡ model.inhabited (view shape.now) }
    ensures no_tree { IsTrue (not result) → (t : Tree) → model.Has (view shape.now) t → ⊥ }
    ensures some_tree { IsTrue result → (t : Tree) × IsProper t × model.Has (view shape.now) t }
{
    uninhabited_means_no_tree();
    inhabited_means_some_tree();
    is_inhabited(shape)
}

/// Whether some tree has the shape, as [`inhabited`] tells; where it does, its needed fields stand in order.
#[cycle(inhabited)]
pub fn is_inhabited(shape: &Shape) -> bool
    ensures as_defined { result ≡ model.inhabited (view shape.now) }
    ensures orderly { IsTrue result → Orderly (view shape.now) }
{
    match take_apart(shape) {
        None => true,
        Some(kinds) => {
            some_simple(&kinds) || some_array(kinds.arrays) || some_object(kinds.objects)
        }
    }
}

// Whether it takes one of the simple kinds.
fn some_simple(kinds: &Kinds<'_>) -> bool
    ensures { result ≡ model.some_simple
        (simple_of kinds.now.null kinds.now.boolean kinds.now.integer kinds.now.text) }
{
    kinds.null || kinds.boolean || kinds.integer || kinds.text
}

/// Whether a shape takes a list, of what it takes of lists.
#[cycle(inhabited)]
pub fn some_array(arrays: Option<Arrays<'_>>) -> bool
    ensures as_defined { result ≡ model.some_array (arrays_view arrays.entry) }
    ensures orderly { IsTrue result → OrderlyArrays (arrays_view arrays.entry) }
{
    match arrays {
        None => false,
        Some(Arrays { first, .. }) => all_inhabited(first),
    }
}

/// Whether a shape takes an object, of what it takes of objects.
#[cycle(inhabited)]
pub fn some_object(objects: Option<Objects<'_>>) -> bool
    ensures as_defined { result ≡ model.some_object (objects_view objects.entry) }
    ensures orderly { IsTrue result → OrderlyObjects (objects_view objects.entry) }
{
    match objects {
        None => false,
        Some(Objects { fields, .. }) => needed_inhabited(fields),
    }
}

/// Whether some tree has each of the shapes.
#[cycle(inhabited)]
pub fn all_inhabited(shapes: &[Shape]) -> bool
    ensures as_defined { result ≡ model.all_inhabited (shapes_view shapes.now) }
    ensures orderly { IsTrue result → AllOrderly (shapes_view shapes.now) }
{
    for shape in shapes {
        if !is_inhabited(shape) {
            return false;
        }
    }
    true
}

/// Whether some tree has the shape of each needed field.
#[tactic(auto, using(crate::proofs::Depths::fields_left_depth))]
#[cycle(inhabited)]
pub fn needed_inhabited(fields: &BTreeMap<String, Field>) -> bool
    ensures as_defined { result ≡ model.needed_inhabited (fields_view fields.now.entries) }
    ensures in_order { AreInOrder (fields_view fields.now.entries) }
    ensures orderly { IsTrue result → NeededOrderly (fields_view fields.now.entries) }
{
    for (_, field) in fields.iter() {
        if field.needed && !is_inhabited(&field.shape) {
            return false;
        }
    }
    true
}
