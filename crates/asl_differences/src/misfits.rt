//! Where a tree isn't of a shape.

ghost use Rattle.std.specs.Prelude.{◌≡◌, ◌↔◌, None, IfOk, IfSome, IsSomeAnd, OnOk};
ghost use Rattle.asl_model.specs.Shape.{Has};
ghost use Rattle.asl_model.specs.Tree as model;
ghost use Rattle.asl_shape.specs.View.{view};
ghost use Rattle.asl_tree.specs.View as trees;
ghost use Rattle.asl_differences.specs.Misfits.{IsMisfit, IsMisfitOf};
ghost use Rattle.asl_differences.specs.Places.{IsPlace, IsPart};

use crate::paths::{Step, path_text};
use crate::words::{expected_found, found_text};
use asl_notation::{Limits, note};
use asl_numbered::Shapes;
use asl_shape::{Arrays, Kinds, Objects, Shape, has, inhabited, take_apart};
use asl_tree::{OutOfMemory, Tree};
use std::alloc::Global;
use std::collections::BTreeMap;

/// How many levels are gone down to the place.
const MOST_LEVELS: usize = 64;

/// How much is told of a shape.
const LIMITS: Limits = Limits { depth: 3, width: 6 };

/// A place where a tree isn't of a shape.
#[derive(Drop)]
pub struct Misfit<'t> {
    /// The steps to the place, from the innermost on.
    way: Vec<Step<'t>>,
    /// The shape that is wanted there; none where nothing may stand there.
    wanted: Option<&'t Shape>,
    /// What stands there; none where nothing does.
    found: Option<&'t Tree>,
}

/// A part of a tree that isn't of the shape of that part.
#[derive(Drop)]
struct Part<'t> {
    /// The step from the tree to the part.
    step: Step<'t>,
    /// The shape that is wanted there; none where nothing may stand there.
    wanted: Option<&'t Shape>,
    /// What stands there; none where nothing does.
    found: Option<&'t Tree>,
}

/// The first place, as far as 64 levels down, where the tree isn't of the shape; none exactly where it is of it. Elements
/// come in their order, and so do the mentioned fields, in byte order of the names; behind these the fields that mustn't
/// be there. The path of the place leads in the tree to what is told as found; to nothing where nothing is. Refuses only
/// where an allocation was refused.
pub fn first_misfit<'t>(
    alloc: Global,
    shape: &'t Shape,
    tree: &'t Tree,
) -> Result<Option<Misfit<'t>>, OutOfMemory>
    ensures exactly { IfOk result (λ misfit. misfit ≡ None
        ↔ Has (view shape.now) (trees.view tree.now)) }
    ensures there { IfOk result (λ misfit. IfSome misfit IsMisfit) }
    ensures place { IfOk result (λ misfit. IfSome misfit (IsPlace (trees.view tree.now))) }
{
    if has(shape, tree) {
        return Ok(None);
    }
    let mut misfit = Misfit {
        way: Vec::new(alloc),
        wanted: Some(shape),
        found: Some(tree),
    };
    misfit.go_down()?;
    Ok(Some(misfit))
}

impl<'t> Misfit<'t> {
    /// Goes down to where a part is the reason, as far as 64 levels.
    fn go_down(&mut self) -> Result<(), OutOfMemory>
        requires before { IsMisfit self.old }
        ensures after { IsMisfit self.new }
        ensures place { OnOk result
            ((tree : model.Tree) → IsPlace tree self.old → IsPlace tree self.new) }
    {
        for _level in 0..MOST_LEVELS {
            let Some(part) = self.part() else {
                return Ok(());
            };
            self.way.insert(0, part.step)?;
            self.wanted = part.wanted;
            self.found = part.found;
        }
        Ok(())
    }

    /// The first part that is the reason why the tree isn't of the shape; none where the tree itself is.
    fn part(&self) -> Option<Part<'t>>
        ensures misfit { IfSome result (λ part. IsMisfitOf part.wanted part.found) }
        ensures place { IfSome result (λ part. IsSomeAnd self.now.found
            (λ tree. IsPart (trees.view tree.now) part)) }
    {
        let (Some(shape), Some(tree)) = (self.wanted, self.found) else {
            return None;
        };
        let Kinds {
            arrays,
            objects,
            ..
        } = take_apart(shape)?;
        match tree {
            Tree::List(elements) => first_element(arrays?, elements),
            Tree::Object(members) => first_member(objects?, members),
            _ => None,
        }
    }

    /// `at PATH expected SHAPE, found VALUE`, the shape in short notation. Refuses only where an allocation was refused.
    pub fn words(&self, alloc: Global) -> Result<String, OutOfMemory> {
        let path = path_text(alloc, &self.way)?;
        let expected = wanted_text(alloc, self.wanted)?;
        let found = found_text(alloc, self.found)?;
        let words = expected_found(alloc, expected, found)?;
        Ok(format!(in alloc; "at {path} {words}")?)
    }
}

/// The first element that is missing, or that isn't of its shape.
fn first_element<'t>(arrays: Arrays<'t>, elements: &'t [Tree]) -> Option<Part<'t>>
    ensures misfit { IfSome result (λ part. IsMisfitOf part.wanted part.found) }
    ensures place { IfSome result
        (IsPart (model.Array (trees.elements_view elements.now))) }
{
    let mut left = elements.iter();
    for (index, shape) in arrays.first.iter().enumerate() {
        let found = left.next();
        if !found.is_some_and(|element| has(shape, element)) {
            return part_at(Step::Index(index), shape, found);
        }
    }
    first_further(arrays, elements)
}

/// The first element behind those with a shape of their own that isn't of the shape of these.
fn first_further<'t>(arrays: Arrays<'t>, elements: &'t [Tree]) -> Option<Part<'t>>
    ensures misfit { IfSome result (λ part. IsMisfitOf part.wanted part.found) }
    ensures place { IfSome result
        (IsPart (model.Array (trees.elements_view elements.now))) }
{
    let own = arrays.first.len();
    for (index, element) in elements.iter().enumerate() {
        if index >= own && !has(arrays.rest, element) {
            return Some(Part {
                step: Step::Index(index),
                wanted: Some(arrays.rest),
                found: Some(element),
            });
        }
    }
    None
}

/// The first mentioned field that is missing, or isn't of its shape, or else the first that mustn't be there.
fn first_member<'t>(objects: Objects<'t>, members: &'t BTreeMap<String, Tree>) -> Option<Part<'t>>
    ensures misfit { IfSome result (λ part. IsMisfitOf part.wanted part.found) }
    ensures place { IfSome result
        (IsPart (model.Object (trees.entries_view members.now.entries))) }
{
    for (name, field) in objects.fields.iter() {
        let found = members.get(name);
        let fits = match found {
            Some(member) => has(&field.shape, member),
            None => !field.needed,
        };
        if !fits {
            return part_at(Step::Name(name), &field.shape, found);
        }
    }
    first_surplus(objects, members)
}

/// The part that is missing, or that isn't of its shape; none where it is missing and nothing is of that shape, since then
/// nothing is of the shape of the whole.
fn part_at<'t>(step: Step<'t>, shape: &'t Shape, found: Option<&'t Tree>) -> Option<Part<'t>>
    requires { IsMisfitOf (Some shape) found }
    ensures misfit { IfSome result (λ part. IsMisfitOf part.wanted part.found) }
    ensures place { IfSome result (λ part. (part.step ≡ step.entry) × (part.found ≡ found.entry)) }
{
    if found.is_none() && !inhabited(shape) {
        return None;
    }
    Some(Part {
        step,
        wanted: Some(shape),
        found,
    })
}

/// The first field that mustn't be there.
fn first_surplus<'t>(objects: Objects<'t>, members: &'t BTreeMap<String, Tree>) -> Option<Part<'t>>
    ensures misfit { IfSome result (λ part. IsMisfitOf part.wanted part.found) }
    ensures place { IfSome result
        (IsPart (model.Object (trees.entries_view members.now.entries))) }
{
    for (name, member) in members.iter() {
        if !objects.extra && !objects.fields.contains_key(name) {
            return Some(Part {
                step: Step::Name(name),
                wanted: None,
                found: Some(member),
            });
        }
    }
    None
}

/// The notation of a shape, where there is one.
fn wanted_text(alloc: Global, shape: Option<&Shape>) -> Result<Option<String>, OutOfMemory> {
    let Some(shape) = shape else {
        return Ok(None);
    };
    let mut shapes = Shapes::new(alloc);
    let number = shapes.add(shape)?;
    Ok(Some(note(alloc, &shapes, number, LIMITS)?))
}
