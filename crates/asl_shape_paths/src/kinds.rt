//! What a shape of a table takes of each kind of tree, by number.

ghost use Rattle.std.specs.Prelude.{◌≡◌, ◌<◌, ◌||◌, Bool, List, IfSome, length};
ghost use Rattle.asl_shape_paths.specs.Kinds.{AreArraysIn, AreKindsIn, AreObjectsIn};
ghost use Rattle.asl_model.specs.Shape as model;
ghost use Rattle.asl_model.specs.ShapeFlow as flow;
ghost use Rattle.asl_numbered.specs.Expansion.{shape_at};
ghost use Rattle.asl_numbered.specs.TakenApart as taken;
ghost use Rattle.asl_numbered.specs.TakenApart.{arrays_over, kinds_at, kinds_over, objects_over, taken_apart};

use crate::numbers::is_inhabited;
use asl_numbered::{KindNumbers, NodeArrays, NodeKinds, NodeObjects, Shapes};

/// What the shape of that number takes of each kind; `None` where it is `Any`.
pub fn kinds_of(shapes: &Shapes, number: usize) -> Option<NodeKinds<'_>>
    requires number { number < length shapes.now }
    ensures shown { taken_apart shapes.now result ≡ shape_at shapes.now number }
    ensures within { IfSome result (AreKindsIn shapes.now) }
{
    shapes.take_apart(number)
}

/// The same kinds, by their numbers.
pub fn numbers_of(kinds: &NodeKinds<'_>) -> KindNumbers
    ensures { (table : List model.Shape) → AreKindsIn table kinds.now
        → kinds_at table result ≡ kinds_over table kinds.now }
{
    KindNumbers {
        null: kinds.null,
        boolean: kinds.boolean,
        integer: kinds.integer,
        text: kinds.text,
        arrays: kinds.arrays.map(|arrays| arrays.number),
        objects: kinds.objects.map(|objects| objects.number),
    }
}

/// The lists of the shape of that number, whatever else it takes.
pub(crate) fn arrays_of(shapes: &Shapes, number: usize) -> Option<NodeArrays<'_>>
    requires number { number < length shapes.now }
    ensures shown { arrays_over shapes.now result ≡ taken.arrays_of (shape_at shapes.now number) }
    ensures within { IfSome result (AreArraysIn shapes.now) }
{
    kinds_of(shapes, number)?.arrays
}

/// The objects of the shape of that number, whatever else it takes.
pub(crate) fn objects_of(shapes: &Shapes, number: usize) -> Option<NodeObjects<'_>>
    requires number { number < length shapes.now }
    ensures shown { objects_over shapes.now result ≡ taken.objects_of (shape_at shapes.now number) }
    ensures within { IfSome result (AreObjectsIn shapes.now) }
{
    kinds_of(shapes, number)?.objects
}

/// The lists of the shape of that number, where no other trees have it.
pub fn arrays_alone(shapes: &Shapes, number: usize) -> Option<NodeArrays<'_>>
    requires number { number < length shapes.now }
    ensures shown { arrays_over shapes.now result ≡ flow.arrays_alone (shape_at shapes.now number) }
    ensures within { IfSome result (AreArraysIn shapes.now) }
{
    let kinds = kinds_of(shapes, number)?;
    if some_simple(&kinds) || some_object(shapes, kinds.objects) {
        None
    } else {
        kinds.arrays
    }
}

/// The objects of the shape of that number, where no other trees have it.
pub(crate) fn objects_alone(shapes: &Shapes, number: usize) -> Option<NodeObjects<'_>>
    requires number { number < length shapes.now }
    ensures shown { objects_over shapes.now result
        ≡ flow.objects_alone (shape_at shapes.now number) }
    ensures within { IfSome result (AreObjectsIn shapes.now) }
{
    let kinds = kinds_of(shapes, number)?;
    if some_simple(&kinds) || some_array(shapes, kinds.arrays) {
        None
    } else {
        kinds.objects
    }
}

/// Whether some list or object has the shape of these kinds.
pub fn some_array_or_object(shapes: &Shapes, kinds: &NodeKinds<'_>) -> bool
    requires kinds { AreKindsIn shapes.now kinds.now }
    ensures as_defined { result
        ≡ (model.some_array (arrays_over shapes.now kinds.now.arrays)
        || model.some_object (objects_over shapes.now kinds.now.objects)) }
{
    some_array(shapes, kinds.arrays) || some_object(shapes, kinds.objects)
}

/// Whether the kinds have a simple one among them.
fn some_simple(kinds: &NodeKinds<'_>) -> bool
    ensures { result ≡ model.some_simple (taken.simple_of kinds.now) }
{
    kinds.null || kinds.boolean || kinds.integer || kinds.text
}

/// Whether there is a list among these.
fn some_array(shapes: &Shapes, arrays: Option<NodeArrays<'_>>) -> bool
    requires arrays { IfSome arrays (AreArraysIn shapes.now) }
    ensures { result ≡ model.some_array (arrays_over shapes.now arrays.entry) }
{
    match arrays {
        Some(arrays) => is_inhabited(shapes, arrays.number),
        None => false,
    }
}

/// Whether there is an object among these.
fn some_object(shapes: &Shapes, objects: Option<NodeObjects<'_>>) -> bool
    requires objects { IfSome objects (AreObjectsIn shapes.now) }
    ensures { result ≡ model.some_object (objects_over shapes.now objects.entry) }
{
    match objects {
        Some(objects) => is_inhabited(shapes, objects.number),
        None => false,
    }
}

/// Whether trees have the shape of that number, and whole numbers alone.
pub fn is_only_integers(shapes: &Shapes, number: usize) -> bool
    requires number { number < length shapes.now }
    ensures as_defined { result ≡ flow.is_integer_shape (shape_at shapes.now number) }
{
    match kinds_of(shapes, number) {
        Some(kinds) => {
            let integers = kinds.integer && !(kinds.null || kinds.boolean || kinds.text);
            integers && !some_array_or_object(shapes, &kinds)
        }
        None => false,
    }
}

/// Whether trees have the shape of that number, and texts alone.
pub fn is_only_texts(shapes: &Shapes, number: usize) -> bool
    requires number { number < length shapes.now }
    ensures as_defined { result ≡ flow.is_string_shape (shape_at shapes.now number) }
{
    match kinds_of(shapes, number) {
        Some(kinds) => {
            let texts = kinds.text && !(kinds.null || kinds.boolean || kinds.integer);
            texts && !some_array_or_object(shapes, &kinds)
        }
        None => false,
    }
}

/// Whether trees have the shape of that number, and truth values alone.
pub fn is_only_booleans(shapes: &Shapes, number: usize) -> bool
    requires number { number < length shapes.now }
    ensures as_defined { result ≡ flow.is_boolean_shape (shape_at shapes.now number) }
{
    match kinds_of(shapes, number) {
        Some(kinds) => {
            let booleans = kinds.boolean && !(kinds.null || kinds.integer || kinds.text);
            booleans && !some_array_or_object(shapes, &kinds)
        }
        None => false,
    }
}
