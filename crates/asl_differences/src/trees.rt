//! Where two trees differ.

ghost use Rattle.std.specs.Prelude.{◌≡◌, ◌≢◌, ◌↔◌, [], ◌∷◌, None, IfOk, IfSome, string_bytes};
ghost use Rattle.std.specs.Option.{IsSome};
ghost use Rattle.asl_model.specs.Tree.{Array, Object};
ghost use Rattle.asl_tree.specs.View.{view, elements_view, entries_view};
ghost use Rattle.asl_differences.specs.Places.{segment_of, path_of, told, IsDifference, TellsOf, IsAlone};

use crate::paths::{Step, path_text};
use crate::words::{expected_found, found_text};
use asl_tree::{OutOfMemory, Tree, same};
use std::alloc::Global;
use std::collections::BTreeMap;

/// A place where two trees differ.
#[derive(Drop)]
pub struct Difference<'t> {
    /// The steps to the place, from the innermost on.
    way: Vec<Step<'t>>,
    /// What stands there in the tree that is expected; none where nothing does.
    expected: Option<&'t Tree>,
    /// What stands there in the one that was found.
    found: Option<&'t Tree>,
}

impl<'t> Difference<'t> {
    /// Trees that differ themselves.
    fn here(alloc: Global, expected: Option<&'t Tree>, found: Option<&'t Tree>) -> Difference<'t>
        ensures { TellsOf [] (told expected.entry) (told found.entry) result }
    {
        Difference {
            way: Vec::new(alloc),
            expected,
            found,
        }
    }

    /// The same difference, seen from where that step leads in.
    fn below(mut self, step: Step<'t>) -> Result<Difference<'t>, OutOfMemory>
        ensures { IfOk result
            (TellsOf (segment_of step.entry ∷ path_of self.entry.way.items)
            (told self.entry.expected) (told self.entry.found)) }
    {
        self.way.push(step)?;
        Ok(self)
    }

    /// `at PATH expected X, found Y`. Refuses only where an allocation was refused.
    pub fn words(&self, alloc: Global) -> Result<String, OutOfMemory> {
        let path = path_text(alloc, &self.way)?;
        let expected = found_text(alloc, self.expected)?;
        let found = found_text(alloc, self.found)?;
        let words = expected_found(alloc, expected, found)?;
        Ok(format!(in alloc; "at {path} {words}")?)
    }
}

/// The first place where the trees differ, in the order of their elements and fields; none exactly where they are
/// equal. The path of the place leads in the one tree to what is told as expected (to nothing where nothing is), in the
/// other to what is told as found, and these differ. Refuses only where an allocation was refused.
#[cycle(first_difference)]
pub fn first_difference<'t>(
    alloc: Global,
    expected: &'t Tree,
    found: &'t Tree,
) -> Result<Option<Difference<'t>>, OutOfMemory>
    ensures exactly { IfOk result
        (λ difference. difference ≡ None ↔ view expected.now ≡ view found.now) }
    ensures there { IfOk result (λ difference. IfSome difference
        (IsDifference (view expected.now) (view found.now))) }
{
    match (expected, found) {
        (Tree::List(expected), Tree::List(found)) => in_elements(alloc, expected, found),
        (Tree::Object(expected), Tree::Object(found)) => in_fields(alloc, expected, found),
        _ => {
            if same(expected, found) {
                Ok(None)
            } else {
                Ok(Some(Difference::here(alloc, Some(expected), Some(found))))
            }
        }
    }
}

/// The first place where the elements differ.
#[cycle(first_difference)]
fn in_elements<'t>(
    alloc: Global,
    expected: &'t Vec<Tree>,
    found: &'t Vec<Tree>,
) -> Result<Option<Difference<'t>>, OutOfMemory>
    ensures exactly { IfOk result (λ difference. difference ≡ None
        ↔ elements_view expected.now.items ≡ elements_view found.now.items) }
    ensures there { IfOk result (λ difference. IfSome difference
        (IsDifference (Array (elements_view expected.now.items))
        (Array (elements_view found.now.items)))) }
{
    let mut others = found.iter();
    for (index, element) in expected.iter().enumerate() {
        let Some(other) = others.next() else {
            return one_sided(alloc, Step::Index(index), Some(element), None);
        };
        if let Some(difference) = first_difference(alloc, element, other)? {
            return Ok(Some(difference.below(Step::Index(index))?));
        }
    }
    match others.next() {
        Some(other) => one_sided(alloc, Step::Index(expected.len()), None, Some(other)),
        None => Ok(None),
    }
}

/// The first place where the fields differ.
#[cycle(first_difference)]
fn in_fields<'t>(
    alloc: Global,
    expected: &'t BTreeMap<String, Tree>,
    found: &'t BTreeMap<String, Tree>,
) -> Result<Option<Difference<'t>>, OutOfMemory>
    ensures exactly { IfOk result (λ difference. difference ≡ None
        ↔ entries_view expected.now.entries ≡ entries_view found.now.entries) }
    ensures there { IfOk result (λ difference. IfSome difference
        (IsDifference (Object (entries_view expected.now.entries))
        (Object (entries_view found.now.entries)))) }
{
    let mut others = found.iter();
    for (name, field) in expected.iter() {
        let Some((other_name, other)) = others.next() else {
            return one_sided(alloc, Step::Name(name), Some(field), None);
        };
        if name != other_name {
            return first_alone(alloc, (name, field), (other_name, other));
        }
        if let Some(difference) = first_difference(alloc, field, other)? {
            return Ok(Some(difference.below(Step::Name(name))?));
        }
    }
    match others.next() {
        Some((name, other)) => one_sided(alloc, Step::Name(name), None, Some(other)),
        None => Ok(None),
    }
}

/// The difference where two fields stand on one side alone: the one whose name comes first.
fn first_alone<'t>(
    alloc: Global,
    expected: (&'t String, &'t Tree),
    found: (&'t String, &'t Tree),
) -> Result<Option<Difference<'t>>, OutOfMemory>
    requires { string_bytes expected.0.now ≢ string_bytes found.0.now }
    ensures some { IfOk result IsSome }
    ensures there { IfOk result (λ difference. IfSome difference
        (IsAlone (string_bytes expected.entry.0.now) (string_bytes found.entry.0.now)
        (view expected.entry.1.now) (view found.entry.1.now))) }
{
    if expected.0 < found.0 {
        one_sided(alloc, Step::Name(expected.0), Some(expected.1), None)
    } else {
        one_sided(alloc, Step::Name(found.0), None, Some(found.1))
    }
}

/// The difference where that step leads to something on one side alone.
fn one_sided<'t>(
    alloc: Global,
    step: Step<'t>,
    expected: Option<&'t Tree>,
    found: Option<&'t Tree>,
) -> Result<Option<Difference<'t>>, OutOfMemory>
    ensures some { IfOk result IsSome }
    ensures there { IfOk result (λ difference. IfSome difference
        (TellsOf (segment_of step.entry ∷ []) (told expected.entry) (told found.entry))) }
{
    let difference = Difference::here(alloc, expected, found);
    Ok(Some(difference.below(step)?))
}
