// Whether a tree has a shape.
ghost use Rattle.asl_model.specs.Shape as model;
ghost use Rattle.asl_shape.specs.Kinds.{arrays_view, objects_view};
ghost use Rattle.asl_shape.specs.View.{view, shapes_view, fields_view};
ghost use Rattle.asl_tree.specs.View as trees;
ghost use Rattle.std.specs.Prelude.{◌≡◌, ◌≤◌, ◌↔◌, true, IsTrue, length};

use crate::kinds::{Arrays, Objects, take_apart};
use crate::shape::{Field, Shape};
use asl_model::shape_laws::has_is_exactly_valid;
use asl_tree::Tree;
use std::collections::BTreeMap;

/// Whether the tree has the shape: it is a list that is at least as long as `first`, with each place of the shape that
/// stands there and each further element of the shape `rest`; or an object in which each needed field is there, each
/// mentioned field that is there has its shape, and, without `extra`, no other field is there; or a value of the kind
/// that the shape names. Every tree has `Any`, none has `Never`; a shape of several kinds those that one of its parts has
/// (JSON Schema, "Validation").
pub fn has(shape: &Shape, tree: &Tree) -> bool
    ensures as_defined { result ≡ model.has (view shape.now) (trees.view tree.now) }
    ensures valid { IsTrue result ↔ model.IsValid (view shape.now) (trees.view tree.now) }
{
    has_is_exactly_valid();
    is_valid(shape, tree)
}

#[cycle(has)]
fn is_valid(shape: &Shape, tree: &Tree) -> bool
    ensures { result ≡ model.has (view shape.now) (trees.view tree.now) }
{
    match take_apart(shape) {
        None => true,
        Some(kinds) => match tree {
            Tree::Null => kinds.null,
            Tree::Bool(_) => kinds.boolean,
            Tree::Int(_) => kinds.integer,
            Tree::Text(_) => kinds.text,
            Tree::List(elements) => arrays_have(kinds.arrays, elements),
            Tree::Object(members) => objects_have(kinds.objects, members),
        },
    }
}

// Whether the list of these elements is one of the lists.
#[cycle(has)]
fn arrays_have(arrays: Option<Arrays<'_>>, elements: &[Tree]) -> bool
    ensures { result ≡ model.arrays_have (arrays_view arrays.entry)
        (trees.elements_view elements.now) }
{
    match arrays {
        None => false,
        Some(Arrays { first, rest }) => places_have(first, rest, elements),
    }
}

// Whether the first elements are there and have their shapes, and each further one has that of the rest.
#[tactic(auto, using(crate::proofs::Places::first_then_further))]
#[cycle(has)]
fn places_have(first: &[Shape], rest: &Shape, elements: &[Tree]) -> bool
    ensures { result
        ≡ model.elements_have
        (shapes_view first.now)
        (model.has (view rest.now))
        (trees.elements_view elements.now) }
{
    first_have(first, elements) && each_has(rest, &elements[first.len()..])
}

// Whether the object of these members is one of the objects.
#[cycle(has)]
fn objects_have(objects: Option<Objects<'_>>, members: &BTreeMap<String, Tree>) -> bool
    ensures { result
        ≡ model.objects_have (objects_view objects.entry) (trees.entries_view members.now.entries) }
{
    match objects {
        None => false,
        Some(Objects { fields, extra }) => {
            fields_have(fields, members) && (extra || all_mentioned(fields, members))
        }
    }
}

// Whether there are as many elements as shapes, or more, and each shape's element has it.
#[tactic(auto, using(crate::proofs::Places::all_pass))]
#[cycle(has)]
fn first_have(shapes: &[Shape], elements: &[Tree]) -> bool
    ensures places { result ≡ model.elements_have (shapes_view shapes.now)
        (λ t. true) (trees.elements_view elements.now) }
    ensures enough { IsTrue result → length shapes.now ≤ length elements.now }
{
    let mut left = elements.iter();
    for shape in shapes {
        match left.next() {
            Some(element) => {
                if !is_valid(shape, element) {
                    return false;
                }
            }
            None => return false,
        }
    }
    true
}

// Whether each element has the shape.
#[cycle(has)]
fn each_has(shape: &Shape, elements: &[Tree]) -> bool
    ensures { result ≡ model.each_element (model.has (view shape.now))
        (trees.elements_view elements.now) }
{
    for element in elements {
        if !is_valid(shape, element) {
            return false;
        }
    }
    true
}

// Whether each needed field is there, and each mentioned one that is there has its shape.
#[tactic(auto, using(crate::proofs::Lookups::field_named_lookup, crate::proofs::Depths::fields_left_depth))]
#[cycle(has)]
fn fields_have(fields: &BTreeMap<String, Field>, members: &BTreeMap<String, Tree>) -> bool
    ensures { result ≡ model.fields_have (fields_view fields.now.entries)
        (trees.entries_view members.now.entries) }
{
    for (name, field) in fields.iter() {
        match members.get(name) {
            Some(member) => {
                if !is_valid(&field.shape, member) {
                    return false;
                }
            }
            None => {
                if field.needed {
                    return false;
                }
            }
        }
    }
    true
}

// Whether each member is mentioned.
#[tactic(auto, using(crate::proofs::Lookups::mentions_lookup))]
fn all_mentioned(fields: &BTreeMap<String, Field>, members: &BTreeMap<String, Tree>) -> bool
    ensures { result ≡ model.all_mentioned (fields_view fields.now.entries)
        (trees.entries_view members.now.entries) }
{
    for (name, _) in members.iter() {
        if !fields.contains_key(name) {
            return false;
        }
    }
    true
}
