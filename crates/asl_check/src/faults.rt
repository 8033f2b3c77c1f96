//! Rules that are broken in what flows, and what shows them, by the numbers of a table of shapes.

ghost use Rattle.std.specs.Prelude.{◌≡◌, ℕ, IfOk, IfSome, length, List, option_map, option_to_list};
ghost use Rattle.asl_state_edges.specs.View.{broken_view, finding_fault_view, IsBrokenBelow};
ghost use Rattle.asl_model.specs.Finding as model;
ghost use Rattle.asl_model.specs.Shape.{Shape};
ghost use Rattle.asl_numbered.specs.Expansion.{Keeps};
ghost use Rattle.asl_tree.specs.View.{view as tree_view};
ghost use Rattle.asl_check.specs.Faults.{fault_view, shown_view, IsFaultBelow, IsShownBelow, NamesNothing};
ghost use Rattle.asl_check.specs.Noting.{noted_breach};

use crate::noting::Noted;
use asl_numbered::Shapes;
use asl_shape_paths::{DoubtfulPath, missing_at};
use asl_state_edges::{Broken, FindingFault};
use asl_tree::{OutOfMemory, Tree};
use std::alloc::Global;

/// What shows a rule to be broken.
#[derive(Clone, Copy, Drop)]
pub(crate) enum Shown<'m> {
    /// No tree does.
    Nothing,
    /// A tree of a shape in which the path names nothing; the name is that of the nearest field in a template.
    Missing {
        path: DoubtfulPath<'m>,
        name: &'m str,
    },
    /// A tree that has the first shape and lacks the second.
    Outside {
        inner: usize,
        outer: usize,
    },
}

/// A broken rule: its field, what is wrong, and what shows it.
#[derive(Clone, Copy, Drop)]
pub(crate) struct Fault<'m> {
    pub(crate) field: &'static str,
    pub(crate) fault: FindingFault,
    pub(crate) shown: Shown<'m>,
}

/// A broken rule that no tree shows, unless the test holds.
pub(crate) fn breach_unless(
    holds: bool,
    field: &'static str,
    fault: FindingFault,
) -> Option<Fault<'static>>
    ensures told { (table : List Shape) → option_to_list (option_map (fault_view table) result)
        ≡ model.breach_unless holds field.now (finding_fault_view fault) }
    ensures below { (bound : ℕ) → IfSome result (IsFaultBelow bound) }
{
    if holds {
        None
    } else {
        Some(Fault {
            field,
            fault,
            shown: Shown::Nothing,
        })
    }
}

/// The rule that is broken on the way to an edge: a path, if there is one, shows it.
pub(crate) fn fault_of<'m>(broken: Broken<'m>) -> Fault<'m>
    ensures seen { (table : List Shape) → fault_view table result ≡ broken_view table broken.entry }
    ensures below { (bound : ℕ) → IsBrokenBelow bound broken.entry → IsFaultBelow bound result }
{
    let Broken {
        field,
        fault,
        name,
        path,
    } = broken;
    match path {
        Some(path) => Fault {
            field,
            fault,
            shown: Shown::Missing { path, name },
        },
        None => Fault {
            field,
            fault,
            shown: Shown::Nothing,
        },
    }
}

/// The broken rule as it is noted, with the tree that shows it. It may leave further shapes in the table.
pub(crate) fn with_example(
    alloc: Global,
    shapes: &mut Shapes,
    fault: Fault<'_>,
) -> Result<Noted, OutOfMemory>
    requires below { IsFaultBelow (length shapes.old) fault }
    ensures seen { IfOk result (λ noted. noted_breach noted ≡ fault_view shapes.old fault.entry) }
    ensures nothing { IfOk result
        (λ noted. NamesNothing fault.entry.shown (option_map tree_view noted.example)) }
    ensures keeps { Keeps shapes.old shapes.new }
{
    let example = example_of(alloc, shapes, fault.shown)?;
    Ok(Noted {
        field: fault.field,
        fault: fault.fault,
        example,
    })
}

/// The tree that shows a rule to be broken, if one does.
fn example_of(
    alloc: Global,
    shapes: &mut Shapes,
    shown: Shown<'_>,
) -> Result<Option<Tree>, OutOfMemory>
    requires below { IsShownBelow (length shapes.old) shown }
    ensures seen { IfOk result
        (λ example. option_map tree_view example ≡ shown_view shapes.old shown.entry) }
    ensures nothing { IfOk result
        (λ example. NamesNothing shown.entry (option_map tree_view example)) }
    ensures keeps { Keeps shapes.old shapes.new }
{
    match shown {
        Shown::Nothing => Ok(None),
        Shown::Missing { path, .. } => missing_at(alloc, shapes, path.shape, path.path),
        Shown::Outside { inner, outer } => shapes.outside(alloc, inner, outer),
    }
}
