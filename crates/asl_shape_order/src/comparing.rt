// Whether one shape is inside another.
ghost use Rattle.asl_model.specs.Shape as shape;
ghost use Rattle.asl_model.specs.ShapeOrder as model;
ghost use Rattle.asl_shape.specs.Kinds.{arrays_view, kinds_view, objects_view, simple_of};
ghost use Rattle.asl_shape.specs.View.{view, shapes_view, fields_view};
ghost use Rattle.std.specs.Prelude.{◌≡◌, ◌↔◌, ◌&&◌, ◌||◌, IsTrue, not};

use asl_model::shape_laws::{sub_is_exactly_inside, sub_means_inside};
use asl_shape::{
    Arrays, Field, Kinds, Objects, Shape, all_inhabited, is_inhabited, names_in_order,
    needed_inhabited, take_apart,
};
use std::collections::BTreeMap;

/// Whether every tree of the first shape has the second: the second is `Any`, or takes all trees of each of the six
/// kinds where the first is `Any`; or else, kind by kind, the first takes none of that kind or is inside the second part
/// by part. It answers false exactly where some tree of the first shape lacks the second ([`crate::outside`] makes one).
/// It takes no memory.
pub fn sub(inner: &Shape, outer: &Shape) -> bool
    ensures as_defined { result ≡ model.sub (view inner.now) (view outer.now) }
    ensures exactly { IsTrue result ↔ shape.Inside (view inner.now) (view outer.now) }
{
    sub_means_inside();
    sub_is_exactly_inside();
    if is_sub(inner, outer) {
        return true;
    }
    names_in_order(inner);
    false
}

#[cycle(sub)]
fn is_sub(inner: &Shape, outer: &Shape) -> bool
    ensures { result ≡ model.sub (view inner.now) (view outer.now) }
{
    match take_apart(outer) {
        None => true,
        Some(kinds) => match take_apart(inner) {
            None => kinds_take_all(kinds),
            Some(others) => {
                simple_sub(&others, &kinds)
                    && arrays_sub(others.arrays, kinds.arrays)
                    && objects_sub(others.objects, kinds.objects)
            }
        },
    }
}

// Whether the simple kinds of the inner shape are among those of the outer one.
fn simple_sub(inner: &Kinds<'_>, outer: &Kinds<'_>) -> bool
    ensures { result
        ≡ model.simple_sub
        (simple_of inner.now.null inner.now.boolean inner.now.integer inner.now.text)
        (simple_of outer.now.null outer.now.boolean outer.now.integer outer.now.text) }
{
    (!inner.null || outer.null)
        && (!inner.boolean || outer.boolean)
        && (!inner.integer || outer.integer)
        && (!inner.text || outer.text)
}

// Whether there is no list among the inner ones, or they are inside the outer ones part by part.
#[cycle(sub)]
fn arrays_sub(inner: Option<Arrays<'_>>, outer: Option<Arrays<'_>>) -> bool
    ensures { result ≡ model.arrays_sub (arrays_view inner.entry) (arrays_view outer.entry) }
{
    match inner {
        None => true,
        Some(Arrays { first, rest }) => lists_sub(first, rest, outer),
    }
}

// The same of lists with these places and further elements.
#[tactic(auto, using(crate::proofs::Bounds::or_swap))]
#[cycle(sub)]
fn lists_sub(places: &[Shape], further: &Shape, outer: Option<Arrays<'_>>) -> bool
    ensures { result
        ≡ model.arrays_sub
        (shape.ArraysOf (shapes_view places.now) (view further.now))
        (arrays_view outer.entry) }
{
    match outer {
        None => !all_inhabited(places),
        Some(Arrays { first, rest }) => {
            part_by_part(places, further, first, rest) || !all_inhabited(places)
        }
    }
}

// Whether there are as many places as bounds, or more, each place is inside the bound that stands there or, behind the
// bounds, inside `rest`, and so are the further elements.
#[tactic(auto, using(crate::proofs::Bounds::places_then_further))]
#[cycle(sub)]
fn part_by_part(places: &[Shape], further: &Shape, bounds: &[Shape], rest: &Shape) -> bool
    ensures { result
        ≡ model.elements_sub
        (shapes_view places.now)
        (view further.now)
        (shapes_view bounds.now)
        (λ s. model.sub s (view rest.now)) }
{
    places_sub(places, bounds, rest) && is_sub(further, rest)
}

// Whether there is no object among the inner ones, or they are inside the outer ones field by field.
#[cycle(sub)]
fn objects_sub(inner: Option<Objects<'_>>, outer: Option<Objects<'_>>) -> bool
    ensures { result ≡ model.objects_sub (objects_view inner.entry) (objects_view outer.entry) }
{
    match inner {
        None => true,
        Some(Objects { fields, extra }) => fields_inside(fields, extra, outer),
    }
}

// The same of objects with these fields, where `more` says whether they have fields that aren't mentioned.
#[tactic(auto, using(crate::proofs::Bounds::or_swap))]
#[cycle(sub)]
fn fields_inside(others: &BTreeMap<String, Field>, more: bool, outer: Option<Objects<'_>>) -> bool
    ensures { result
        ≡ model.objects_sub
        (shape.ObjectsOf (fields_view others.now.entries) more)
        (objects_view outer.entry) }
{
    match outer {
        None => !needed_inhabited(others),
        Some(Objects { fields, extra }) => {
            field_by_field(others, more, fields, extra) || !needed_inhabited(others)
        }
    }
}

// Whether each field of the outer objects fits, and these may have all other fields of the inner ones.
#[cycle(sub)]
fn field_by_field(
    others: &BTreeMap<String, Field>,
    more: bool,
    fields: &BTreeMap<String, Field>,
    extra: bool,
) -> bool
    ensures { result ≡ (model.fields_sub (fields_view others.now.entries) more
        (fields_view fields.now.entries) &&
        (extra || (not more && model.others_never_there (fields_view fields.now.entries)
        (fields_view others.now.entries)))) }
{
    fields_sub(others, more, fields) && (extra || (!more && others_never_there(fields, others)))
}

// Whether there are as many places as bounds, or more, and each is inside the bound that stands there or, behind the
// bounds, inside `rest`.
#[cycle(sub)]
fn places_sub(places: &[Shape], bounds: &[Shape], rest: &Shape) -> bool
    ensures { result
        ≡ model.elements_sub
        (shapes_view places.now)
        shape.Never
        (shapes_view bounds.now)
        (λ s. model.sub s (view rest.now)) }
{
    let mut left = bounds.iter();
    for place in places {
        if !is_sub(place, left.next().unwrap_or(rest)) {
            return false;
        }
    }
    left.next().is_none()
}

// Whether each field of the outer object shape fits what the inner one says of that field, where `more` says whether
// the inner one has fields that it doesn't mention.
#[tactic(auto, using(asl_shape::proofs::Lookups::mention_of_lookup, asl_shape::proofs::Depths::fields_left_depth))]
#[cycle(sub)]
fn fields_sub(inner: &BTreeMap<String, Field>, more: bool, outer: &BTreeMap<String, Field>) -> bool
    ensures { result
        ≡ model.fields_sub (fields_view inner.now.entries) more (fields_view outer.now.entries) }
{
    for (name, field) in outer.iter() {
        match inner.get(name) {
            Some(other) => {
                if (field.needed && !other.needed) || !is_sub(&other.shape, &field.shape) {
                    return false;
                }
            }
            None => {
                if field.needed || (more && !takes_all(&field.shape)) {
                    return false;
                }
            }
        }
    }
    true
}

// Whether no field that the inner shape alone mentions can be there.
#[tactic(auto, using(asl_shape::proofs::Lookups::mentions_lookup))]
fn others_never_there(outer: &BTreeMap<String, Field>, inner: &BTreeMap<String, Field>) -> bool
    ensures { result
        ≡ model.others_never_there (fields_view outer.now.entries) (fields_view inner.now.entries) }
{
    for (name, field) in inner.iter() {
        if !outer.contains_key(name) && is_inhabited(&field.shape) {
            return false;
        }
    }
    true
}

// Whether every tree has the shape, as far as is seen kind by kind.
#[cycle(takes_all)]
fn takes_all(shape: &Shape) -> bool
    ensures { result ≡ model.takes_all (view shape.now) }
{
    match take_apart(shape) {
        None => true,
        Some(kinds) => kinds_take_all(kinds),
    }
}

#[cycle(takes_all)]
fn kinds_take_all(kinds: Kinds<'_>) -> bool
    ensures { result ≡ model.takes_all (kinds_view kinds.entry) }
{
    every_simple(&kinds) && lists_take_all(kinds.arrays) && objects_take_all(kinds.objects)
}

// Whether it takes all of the simple kinds.
fn every_simple(kinds: &Kinds<'_>) -> bool
    ensures { result ≡ model.every_simple
        (simple_of kinds.now.null kinds.now.boolean kinds.now.integer kinds.now.text) }
{
    kinds.null && kinds.boolean && kinds.integer && kinds.text
}

// Whether every list is among them.
#[tactic(auto, using(crate::proofs::Bounds::lists_all))]
#[cycle(takes_all)]
fn lists_take_all(arrays: Option<Arrays<'_>>) -> bool
    ensures { result ≡ model.takes_all_arrays (arrays_view arrays.entry) }
{
    match arrays {
        None => false,
        Some(Arrays { first, rest }) => first.is_empty() && takes_all(rest),
    }
}

// Whether every object is among them.
#[cycle(takes_all)]
fn objects_take_all(objects: Option<Objects<'_>>) -> bool
    ensures { result ≡ model.takes_all_objects (objects_view objects.entry) }
{
    match objects {
        None => false,
        Some(Objects { fields, extra }) => extra && asks_nothing(fields),
    }
}

// Whether no field is needed, and each may be every tree.
#[tactic(auto, using(asl_shape::proofs::Depths::fields_left_depth))]
#[cycle(takes_all)]
fn asks_nothing(fields: &BTreeMap<String, Field>) -> bool
    ensures { result ≡ model.asks_nothing (fields_view fields.now.entries) }
{
    for (_, field) in fields.iter() {
        if field.needed || !takes_all(&field.shape) {
            return false;
        }
    }
    true
}
