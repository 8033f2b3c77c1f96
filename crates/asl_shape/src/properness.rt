// Whether a shape is proper.
ghost use Rattle.asl_model.specs.Shape as model;
ghost use Rattle.asl_shape.specs.Proper.{Proper, AllProper, FieldsProper};
ghost use Rattle.asl_shape.specs.Properness.{seen, is_proper, are_proper, fields_proper, are_parts, ascend_from};
ghost use Rattle.asl_shape.specs.View.{view, shapes_view, fields_view};
ghost use Rattle.std.specs.Prelude.{◌≡◌, ◌≤◌, IfSome, map};

use crate::shape::{Field, Shape};
use std::collections::BTreeMap;

/// Whether the shape is proper: each [`Shape::Several`] in it, at any depth, has two parts or more, each of a kind of its
/// own (none of them `Any`, `Never` or `Several`), in byte order of the names of their types. All shapes that this crate
/// answers are. It takes no memory.
pub fn proper(shape: &Shape) -> bool
    ensures told { result ≡ is_proper shape.now }
    ensures names { model.IsProperShape (view shape.now) }
{
    is_well_formed(shape)
}

#[cycle(proper)]
fn is_well_formed(shape: &Shape) -> bool
    ensures told { result ≡ is_proper shape.now }
    ensures names { Proper (view shape.now) }
{
    match shape {
        Shape::Any | Shape::Never | Shape::Null | Shape::Bool | Shape::Int | Shape::Text => true,
        Shape::List { first, rest } => {
            let places = all_proper(first);
            is_well_formed(rest) && places
        }
        Shape::Object { fields, .. } => all_fields_proper(fields),
        Shape::Several(parts) => parts_proper(parts),
    }
}

/// Goes over the shape, so that it is known that its names are UTF-8 and stand in order.
pub fn names_in_order(shape: &Shape)
    ensures proper { model.IsProperShape (view shape.now) }
    ensures ordered { model.IsOrdered (view shape.now) }
{
    let _ = is_well_formed(shape);
}

// Whether there are two parts or more, each of one kind, these in order, and each part is proper.
#[cycle(proper)]
fn parts_proper(parts: &[Shape]) -> bool
    ensures told { result ≡ are_parts (map seen parts.now) }
    ensures names { AllProper (shapes_view parts.now) }
{
    let each = all_proper(parts);
    parts.len() >= 2 && ascend(parts) && each
}

// Whether each of the shapes is; all are looked at.
#[cycle(proper)]
fn all_proper(shapes: &[Shape]) -> bool
    ensures told { result ≡ are_proper shapes.now }
    ensures names { AllProper (shapes_view shapes.now) }
{
    let mut all = true;
    for shape in shapes {
        let one = is_well_formed(shape);
        all = all && one;
    }
    all
}

// Whether the shape of each field is; all are looked at.
#[cycle(proper)]
fn all_fields_proper(fields: &BTreeMap<String, Field>) -> bool
    ensures told { result ≡ fields_proper fields.now.entries }
    ensures names { FieldsProper (fields_view fields.now.entries) }
{
    let mut all = true;
    for (_, field) in fields.iter() {
        let one = is_well_formed(&field.shape);
        all = all && one;
    }
    all
}

// Whether each of the shapes is of one kind, and these are in byte order of the names of their types, none twice.
fn ascend(shapes: &[Shape]) -> bool
    ensures { result ≡ ascend_from 0 (map (λ s. s.place) (map seen shapes.now)) }
{
    let mut least = 0;
    for shape in shapes {
        match place(shape) {
            None => return false,
            Some(place) => {
                if place < least {
                    return false;
                }
                least = place + 1;
            }
        }
    }
    true
}

// The place of the shape among the six kinds, if it is of one.
fn place(shape: &Shape) -> Option<usize>
    ensures place { result ≡ (seen shape.now).place }
    ensures below { IfSome result (λ n. n ≤ 5) }
{
    match shape {
        Shape::Any | Shape::Never | Shape::Several(_) => None,
        Shape::List { .. } => Some(0),
        Shape::Bool => Some(1),
        Shape::Int => Some(2),
        Shape::Null => Some(3),
        Shape::Object { .. } => Some(4),
        Shape::Text => Some(5),
    }
}
