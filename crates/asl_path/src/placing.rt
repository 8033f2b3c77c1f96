//! Placing a tree at a path.
ghost use Rattle.std.specs.Prelude.{◌≡◌, ◌∷◌, ◌↔◌, None, Some, IfOk, IfErr, string_bytes};
ghost use Rattle.asl_model.specs.Path.{Name, Index};
ghost use Rattle.asl_model.specs.Placing.{Places, placed, built};
ghost use Rattle.asl_model.specs.Tree as model;
ghost use Rattle.asl_path.specs.Placement.{HasNode, IsPlaced, MakesRoom};
ghost use Rattle.asl_path.specs.View.{segments_view};
ghost use Rattle.asl_path.specs.declared.placing.PlaceRefusal.TheVariants.{CannotPlace};
ghost use Rattle.asl_tree.specs.View.{view, elements_view, entries_view};

use crate::{RefPath, Segment};
use asl_tree::{Tree, WantOfMemory};
use std::alloc::Global;
use std::collections::BTreeMap;

/// Why a tree can't be placed.
#[derive(Clone, Copy, Debug, Drop)]
pub enum PlaceRefusal {
    /// The path needs a field of what is no object, an element of what is no list, an element that a list lacks, or
    /// a list that would have to be built.
    CannotPlace,
    /// An allocation was refused.
    OutOfMemory,
}

impl<E: WantOfMemory + Drop> From<E> for PlaceRefusal {
    ghost use Rattle.asl_path.specs.declared.placing.PlaceRefusal.{PlaceRefusal};

    ghost from_gives = { λ _ refusal. refusal ≡ PlaceRefusal.OutOfMemory };

    fn from(_want: E) -> PlaceRefusal {
        PlaceRefusal::OutOfMemory
    }
}

/// `tree` with `value` placed at `path` (States Language, "Reference Paths", "Input and Output Processing").
///
/// A field that is missing is created, with objects for the names that remain; lists are never made longer. A
/// refusal gives both trees back unchanged: `CannotPlace` exactly where the path leads through what it can't, so
/// `OutOfMemory` only where the value could be placed. The nodes on the path are changed in place; nothing is copied
/// but the names that are created.
pub fn place(
    alloc: Global,
    tree: Tree,
    path: &RefPath,
    value: Tree,
) -> Result<Tree, (PlaceRefusal, Tree, Tree)>
    ensures answer { IfOk result (λ t. placed path.now (view value) (view tree) ≡ Some (view t)) }
    ensures placing { IfOk result (λ t. Places path.now (view value) (view tree) (view t)) }
    ensures no_placing { IfErr result
        (λ r. (r.0 ≡ CannotPlace)
        ↔ ((t : model.Tree) → ¬ Places path.now (view value) (view tree) t)) }
    ensures given_back { IfErr result (λ r. (view r.1 ≡ view tree) × (view r.2 ≡ view value)) }
{
    let mut whole = tree;
    match make_room(alloc, &mut whole, path.segments()) {
        Ok(()) => {
            fill(&mut whole, path.segments(), value);
            Ok(whole)
        }
        Err(refusal) => Err((refusal, whole, value)),
    }
}

/// Makes the path name a node in the tree, or leaves the tree as it is. Placing gives the same as before.
#[cycle(make_room)]
fn make_room(alloc: Global, tree: &mut Tree, steps: &[Segment]) -> Result<(), PlaceRefusal>
    ensures { MakesRoom (segments_view steps.now) (view tree.old) (view tree.new) result }
{
    let [step, rest @ ..] = steps else {
        return Ok(());
    };
    match step {
        Segment::Name(name) => match tree {
            Tree::Object(fields) => make_room_in_field(alloc, fields, name, rest),
            _ => Err(PlaceRefusal::CannotPlace),
        },
        Segment::Index(index) => match tree {
            Tree::List(elements) => make_room_in_element(alloc, elements, *index as usize, rest),
            _ => Err(PlaceRefusal::CannotPlace),
        },
    }
}

/// Makes room in the element at that place.
#[cycle(make_room)]
fn make_room_in_element(
    alloc: Global,
    elements: &mut Vec<Tree>,
    index: usize,
    rest: &[Segment],
) -> Result<(), PlaceRefusal>
    ensures { MakesRoom (Index index ∷ segments_view rest.now)
        (model.Array (elements_view elements.old.items))
        (model.Array (elements_view elements.new.items)) result }
{
    match elements.get_mut(index) {
        Some(element) => make_room(alloc, element, rest),
        None => Err(PlaceRefusal::CannotPlace),
    }
}

/// Makes room in the field of that name, which is created where it is missing.
#[cycle(make_room)]
fn make_room_in_field(
    alloc: Global,
    fields: &mut BTreeMap<String, Tree>,
    name: &String,
    rest: &[Segment],
) -> Result<(), PlaceRefusal>
    ensures { MakesRoom (Name (string_bytes name.now) ∷ segments_view rest.now)
        (model.Object (entries_view fields.old.entries))
        (model.Object (entries_view fields.new.entries)) result }
{
    match fields.get_mut(name.as_str()) {
        Some(field) => make_room(alloc, field, rest),
        None => create_field(alloc, fields, name, rest),
    }
}

/// Creates the field of that name, with null under objects for the names that remain.
fn create_field(
    alloc: Global,
    fields: &mut BTreeMap<String, Tree>,
    name: &String,
    rest: &[Segment],
) -> Result<(), PlaceRefusal>
    requires { model.field_named (string_bytes name.now) (entries_view fields.old.entries) ≡ None }
    ensures { MakesRoom (Name (string_bytes name.now) ∷ segments_view rest.now)
        (model.Object (entries_view fields.old.entries))
        (model.Object (entries_view fields.new.entries)) result }
{
    let built = build(alloc, rest)?;
    let key = name.clone()?;
    drop(fields.insert(key, built)?);
    Ok(())
}

/// Null under objects for the names of the path; no list is built.
#[cycle(build)]
fn build(alloc: Global, steps: &[Segment]) -> Result<Tree, PlaceRefusal>
    ensures tree { IfOk result (λ t. built (segments_view steps.now) model.Null ≡ Some (view t)) }
    ensures refused { IfErr result
        (λ r. (r ≡ CannotPlace) ↔ (built (segments_view steps.now) model.Null ≡ None)) }
{
    let [step, rest @ ..] = steps else {
        return Ok(Tree::Null);
    };
    match step {
        Segment::Name(name) => {
            let inner = build(alloc, rest)?;
            let key = name.clone()?;
            let mut fields = BTreeMap::new(alloc);
            drop(fields.insert(key, inner)?);
            Ok(Tree::Object(fields))
        }
        Segment::Index(_) => Err(PlaceRefusal::CannotPlace),
    }
}

/// Replaces the node that the path names by the value.
#[cycle(fill)]
fn fill(tree: &mut Tree, steps: &[Segment], value: Tree)
    requires { HasNode (segments_view steps.now) (view tree.old) }
    ensures { IsPlaced (segments_view steps.now) (view value) (view tree.old) (view tree.new) }
{
    let [step, rest @ ..] = steps else {
        *tree = value;
        return;
    };
    match step {
        Segment::Name(name) => match tree {
            Tree::Object(fields) => fill_field(fields, name, rest, value),
            _ => unreachable!(),
        },
        Segment::Index(index) => match tree {
            Tree::List(elements) => fill_element(elements, *index as usize, rest, value),
            _ => unreachable!(),
        },
    }
}

/// Replaces what the rest of the path names in the element at that place.
#[cycle(fill)]
fn fill_element(elements: &mut Vec<Tree>, index: usize, rest: &[Segment], value: Tree)
    requires { HasNode (Index index ∷ segments_view rest.now)
        (model.Array (elements_view elements.old.items)) }
    ensures { IsPlaced (Index index ∷ segments_view rest.now) (view value)
        (model.Array (elements_view elements.old.items))
        (model.Array (elements_view elements.new.items)) }
{
    fill(&mut elements[index], rest, value)
}

/// Replaces what the rest of the path names in the field of that name.
#[cycle(fill)]
fn fill_field(fields: &mut BTreeMap<String, Tree>, name: &String, rest: &[Segment], value: Tree)
    requires { HasNode (Name (string_bytes name.now) ∷ segments_view rest.now)
        (model.Object (entries_view fields.old.entries)) }
    ensures { IsPlaced (Name (string_bytes name.now) ∷ segments_view rest.now) (view value)
        (model.Object (entries_view fields.old.entries))
        (model.Object (entries_view fields.new.entries)) }
{
    let Some(field) = fields.get_mut(name.as_str()) else {
        unreachable!()
    };
    fill(field, rest, value)
}
