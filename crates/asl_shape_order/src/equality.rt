// Whether two shapes are equal.
ghost use Rattle.asl_shape.specs.Kinds.{arrays_view, objects_view, simple_of};
ghost use Rattle.asl_shape.specs.View.{view, shapes_view, fields_view};
ghost use Rattle.std.specs.Prelude.{◌≡◌, ◌↔◌, IsTrue};

use asl_shape::{Arrays, Field, Kinds, Objects, Shape, take_apart};
use std::collections::BTreeMap;

/// Whether the two shapes are equal: of the same kinds and with equal parts. Shapes that the same trees have may differ.
#[cycle(same)]
pub fn same(first: &Shape, second: &Shape) -> bool
    ensures as_defined { IsTrue result ↔ view first.now ≡ view second.now }
{
    match take_apart(first) {
        None => take_apart(second).is_none(),
        Some(kinds) => match take_apart(second) {
            None => false,
            Some(others) => {
                same_simple(&kinds, &others)
                    && same_arrays(kinds.arrays, others.arrays)
                    && same_objects(kinds.objects, others.objects)
            }
        },
    }
}

// Whether both take the same simple kinds.
fn same_simple(first: &Kinds<'_>, second: &Kinds<'_>) -> bool
    ensures { IsTrue result
        ↔ simple_of first.now.null first.now.boolean first.now.integer first.now.text
        ≡ simple_of second.now.null second.now.boolean second.now.integer second.now.text }
{
    first.null == second.null
        && first.boolean == second.boolean
        && first.integer == second.integer
        && first.text == second.text
}

#[cycle(same)]
fn same_arrays(first: Option<Arrays<'_>>, second: Option<Arrays<'_>>) -> bool
    ensures { IsTrue result ↔ arrays_view first.entry ≡ arrays_view second.entry }
{
    match first {
        None => second.is_none(),
        Some(arrays) => match second {
            None => false,
            Some(others) => {
                same_shapes(arrays.first, others.first) && same(arrays.rest, others.rest)
            }
        },
    }
}

#[cycle(same)]
fn same_objects(first: Option<Objects<'_>>, second: Option<Objects<'_>>) -> bool
    ensures { IsTrue result ↔ objects_view first.entry ≡ objects_view second.entry }
{
    match first {
        None => second.is_none(),
        Some(objects) => match second {
            None => false,
            Some(others) => {
                objects.extra == others.extra && same_fields(objects.fields, others.fields)
            }
        },
    }
}

#[cycle(same)]
fn same_shapes(first: &[Shape], second: &[Shape]) -> bool
    ensures { IsTrue result ↔ shapes_view first.now ≡ shapes_view second.now }
{
    let mut left = second.iter();
    for shape in first {
        match left.next() {
            Some(other) => {
                if !same(shape, other) {
                    return false;
                }
            }
            None => return false,
        }
    }
    left.next().is_none()
}

#[tactic(auto, using(asl_shape::proofs::Depths::fields_left_depth))]
#[cycle(same)]
fn same_fields(first: &BTreeMap<String, Field>, second: &BTreeMap<String, Field>) -> bool
    ensures { IsTrue result ↔ fields_view first.now.entries ≡ fields_view second.now.entries }
{
    let mut others = second.iter();
    for (name, field) in first.iter() {
        match others.next() {
            Some((other_name, other)) => {
                if name != other_name
                    || field.needed != other.needed
                    || !same(&field.shape, &other.shape)
                {
                    return false;
                }
            }
            None => return false,
        }
    }
    others.next().is_none()
}
