// Taking a shape apart, and putting one together, kind by kind.
ghost use Rattle.asl_shape.specs.Kinds.{kinds_view, taken_apart, owned_view, parts_of, array_part, object_part, part_if};
ghost use Rattle.asl_shape.specs.Properness.{seen, ascend_from, is_proper, are_proper, kinds_proper};
ghost use Rattle.asl_shape.specs.View.{view, merged, with_kinds};
ghost use Rattle.asl_model.specs.Shape as model;
ghost use Rattle.std.specs.Prelude.{◌≡◌, ◌++◌, IfOk, IsTrue, map};

use crate::shape::{Field, Shape};
use asl_tree::OutOfMemory;
use std::alloc::Global;
use std::collections::BTreeMap;

/// What a shape takes of each kind of tree. It lends from the shape.
#[derive(Debug, Clone, Copy)]
pub struct Kinds<'s> {
    /// Whether `null` has the shape.
    pub null: bool,
    /// Whether `true` and `false` have it.
    pub boolean: bool,
    /// Whether every whole number has it.
    pub integer: bool,
    /// Whether every text has it.
    pub text: bool,
    /// The lists that have it, if it takes any.
    pub arrays: Option<Arrays<'s>>,
    /// The objects that have it, if it takes any.
    pub objects: Option<Objects<'s>>,
}

/// The lists that a shape takes, as [`Shape::List`] says it.
#[derive(Debug, Clone, Copy)]
pub struct Arrays<'s> {
    /// The shapes of the first elements.
    pub first: &'s [Shape],
    /// The shape of each further element.
    pub rest: &'s Shape,
}

/// The objects that a shape takes, as [`Shape::Object`] says it.
#[derive(Debug, Clone, Copy)]
pub struct Objects<'s> {
    /// The mentioned fields.
    pub fields: &'s BTreeMap<String, Field>,
    /// Whether there may be other fields.
    pub extra: bool,
}

/// The same, owned: what [`of_kinds`] makes a shape of.
#[derive(Debug, Drop)]
pub struct OwnedKinds {
    /// Whether `null` has the shape.
    pub null: bool,
    /// Whether `true` and `false` have it.
    pub boolean: bool,
    /// Whether every whole number has it.
    pub integer: bool,
    /// Whether every text has it.
    pub text: bool,
    /// The lists that have it, if it takes any.
    pub arrays: Option<OwnedArrays>,
    /// The objects that have it, if it takes any.
    pub objects: Option<OwnedObjects>,
}

/// The lists that a shape takes, as [`Shape::List`] says it.
#[derive(Debug, Drop)]
pub struct OwnedArrays {
    /// The shapes of the first elements.
    pub first: Vec<Shape>,
    /// The shape of each further element.
    pub rest: Box<Shape>,
}

/// The objects that a shape takes, as [`Shape::Object`] says it.
#[derive(Debug, Drop)]
pub struct OwnedObjects {
    /// The mentioned fields.
    pub fields: BTreeMap<String, Field>,
    /// Whether there may be other fields.
    pub extra: bool,
}

/// What the shape takes of each kind; `None` where it is `Any`. It takes no memory.
///
/// Whoever goes over shapes by this need not tell a shape of one kind from one of several.
#[cycle(take_apart)]
pub fn take_apart(shape: &Shape) -> Option<Kinds<'_>>
    ensures shown { taken_apart result ≡ view shape.now }
{
    match shape {
        Shape::Any => None,
        Shape::Never => Some(no_kinds(&[])),
        Shape::Null => Some(Kinds {
            null: true,
            ..no_kinds(&[])
        }),
        Shape::Bool => Some(Kinds {
            boolean: true,
            ..no_kinds(&[])
        }),
        Shape::Int => Some(Kinds {
            integer: true,
            ..no_kinds(&[])
        }),
        Shape::Text => Some(Kinds {
            text: true,
            ..no_kinds(&[])
        }),
        Shape::List { first, rest } => Some(Kinds {
            arrays: Some(Arrays { first, rest }),
            ..no_kinds(&[])
        }),
        Shape::Object { fields, extra } => Some(Kinds {
            objects: Some(Objects {
                fields,
                extra: *extra,
            }),
            ..no_kinds(&[])
        }),
        Shape::Several(parts) => take_each_apart(parts),
    }
}

// What the parts take of each kind; `None` where one of them is `Any`.
#[cycle(take_apart)]
fn take_each_apart(parts: &[Shape]) -> Option<Kinds<'_>>
    ensures { taken_apart result ≡ merged (map view parts.now) }
{
    let mut kinds = no_kinds(parts);
    for part in parts {
        match take_apart(part) {
            None => return None,
            Some(taken) => kinds = both(kinds, taken),
        }
    }
    Some(kinds)
}

// No trees of any kind. What is taken of these shapes may be put to it.
fn no_kinds<'s>(_shapes: &'s [Shape]) -> Kinds<'s>
    ensures { kinds_view result ≡ model.Never }
{
    Kinds {
        null: false,
        boolean: false,
        integer: false,
        text: false,
        arrays: None,
        objects: None,
    }
}

// The kinds of both; of the lists and of the objects those of the first that has any.
fn both<'s>(first: Kinds<'s>, second: Kinds<'s>) -> Kinds<'s>
    ensures { kinds_view result ≡ with_kinds (kinds_view first.entry) (kinds_view second.entry) }
{
    Kinds {
        null: first.null || second.null,
        boolean: first.boolean || second.boolean,
        integer: first.integer || second.integer,
        text: first.text || second.text,
        arrays: first.arrays.or(second.arrays),
        objects: first.objects.or(second.objects),
    }
}

/// The shape of these kinds, `Never` where there is none. A shape of one kind stands alone; of two or more it is a
/// [`Shape::Several`] of these in byte order of the names of their types. It is proper where the shapes inside are.
///
/// Refuses only where an allocation was refused.
pub fn of_kinds(alloc: Global, kinds: OwnedKinds) -> Result<Shape, OutOfMemory>
    ensures shown { IfOk result (λ s. view s ≡ owned_view kinds) }
    ensures proper { IsTrue (kinds_proper kinds) → IfOk result (λ s. IsTrue (is_proper s)) }
{
    let parts = list_parts(alloc, kinds)?;
    Ok(together(parts))
}

// A shape of each of the kinds, in byte order of the names of their types.
fn list_parts(alloc: Global, kinds: OwnedKinds) -> Result<Vec<Shape>, OutOfMemory>
    ensures { IfOk result (λ parts. parts.items ≡ parts_of kinds) }
{
    let mut parts = Vec::new(alloc);
    push_arrays(kinds.arrays, &mut parts)?;
    push_if(kinds.boolean, Shape::Bool, &mut parts)?;
    push_if(kinds.integer, Shape::Int, &mut parts)?;
    push_if(kinds.null, Shape::Null, &mut parts)?;
    push_objects(kinds.objects, &mut parts)?;
    push_if(kinds.text, Shape::Text, &mut parts)?;
    Ok(parts)
}

fn push_arrays(arrays: Option<OwnedArrays>, parts: &mut Vec<Shape>) -> Result<(), OutOfMemory>
    ensures { IfOk result (λ _. parts.new.items ≡ parts.old.items ++ array_part arrays) }
{
    if let Some(OwnedArrays { first, rest }) = arrays {
        parts.push(Shape::List { first, rest })?;
    }
    Ok(())
}

fn push_objects(objects: Option<OwnedObjects>, parts: &mut Vec<Shape>) -> Result<(), OutOfMemory>
    ensures { IfOk result (λ _. parts.new.items ≡ parts.old.items ++ object_part objects) }
{
    if let Some(OwnedObjects { fields, extra }) = objects {
        parts.push(Shape::Object { fields, extra })?;
    }
    Ok(())
}

fn push_if(wanted: bool, part: Shape, parts: &mut Vec<Shape>) -> Result<(), OutOfMemory>
    ensures { IfOk result (λ _. parts.new.items ≡ parts.old.items ++ part_if wanted part) }
{
    if wanted {
        parts.push(part)?;
    }
    Ok(())
}

// The shape that these parts are together. It is proper where they are, and each is of one kind, these in order.
fn together(parts: Vec<Shape>) -> Shape
    ensures shown { view result ≡ merged (map view parts.items) }
    ensures proper { IsTrue (ascend_from 0 (map (λ s. s.place) (map seen parts.items)))
        → IsTrue (are_proper parts.items) → IsTrue (is_proper result) }
{
    if parts.len() < 2 {
        let mut parts = parts;
        parts.pop().unwrap_or(Shape::Never)
    } else {
        Shape::Several(parts)
    }
}
