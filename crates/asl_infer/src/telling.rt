//! The first rule that a walk breaks whatever is certified elsewhere, and the finding that is told of it.

ghost use Rattle.std.specs.Prelude.{◌≡◌, ◌<◌, [], ◌∷◌, length, None, option_map, option_to_list, IfOk};
ghost use Rattle.asl_draft_laws.specs.Drafts.{own_breaches};
ghost use Rattle.asl_model.specs.Finding.{breach_shown};
ghost use Rattle.asl_model.specs.Inference.{finding_of};
ghost use Rattle.asl_tree.specs.View.{view as tree_view};
ghost use Rattle.asl_numbered.specs.Expansion.{shape_at, Keeps};
ghost use Rattle.asl_state_edges.specs.View.{broken_view, edge_view, finding_fault_view, step_view};
ghost use Rattle.asl_state_edges.specs.View.{AreStepsBelow, IsBrokenBelow, IsStepBelow};
ghost use Rattle.asl_drafts.specs.Drafted.{draft_view};
ghost use Rattle.asl_check.specs.View.{finding_view};
ghost use Rattle.asl_infer.specs.Telling.{breach_view, IsFirstBroken};

use asl_check::Finding;
use asl_drafts::Draft;
use asl_state_edges::{Broken, Destination, Edge, FindingFault, Step};
use asl_tree::{OutOfMemory, Tree};
use std::alloc::Global;

/// A broken rule of a state, with the tree that shows it, if there is one.
#[derive(Drop)]
pub(crate) struct Breach {
    pub(crate) field: &'static str,
    pub(crate) fault: FindingFault,
    pub(crate) example: Option<Tree>,
}

/// The first rule that is broken along the steps whatever is certified elsewhere: a payload is not inside what the task
/// takes, or it is broken on the way. No tree is made of any other.
pub(crate) fn first_broken(
    draft: &mut Draft,
    steps: &[Step],
    takes: usize,
) -> Result<Option<Breach>, OutOfMemory>
    requires below { AreStepsBelow (length draft.old.store) steps.now }
    requires takes { takes < length draft.old.store }
    ensures first { IfOk result
        (IsFirstBroken draft.old.store (shape_at draft.old.store takes) steps.now) }
    ensures kept { IfOk result (λ breach. breach ≡ None → draft.new.store ≡ draft.old.store) }
    ensures same { draft_view draft.new ≡ draft_view draft.old }
    ensures keeps { Keeps draft.old.store draft.new.store }
{
    for step in steps {
        let breach = breach_at(draft, step, takes)?;
        if breach.is_some() {
            return Ok(breach);
        }
    }
    Ok(None)
}

/// The rule that is broken at the step, if one is.
fn breach_at(draft: &mut Draft, step: &Step, takes: usize) -> Result<Option<Breach>, OutOfMemory>
    requires below { IsStepBelow (length draft.old.store) step.now }
    requires takes { takes < length draft.old.store }
    ensures broken { IfOk result
        (λ breach. own_breaches (shape_at draft.old.store takes)
        (step_view draft.old.store step.now ∷ [])
        ≡ option_to_list (option_map breach_view breach)) }
    ensures kept { IfOk result (λ breach. breach ≡ None → draft.new.store ≡ draft.old.store) }
    ensures same { draft_view draft.new ≡ draft_view draft.old }
    ensures keeps { Keeps draft.old.store draft.new.store }
{
    match step {
        Step::Flows(edge) => payload_breach(draft, edge, takes),
        Step::Breaks(broken) => Ok(Some(shown(draft, broken)?)),
    }
}

/// The rule that is broken where the edge leads to the task, and what flows along it isn't inside the shape of that number.
fn payload_breach(
    draft: &mut Draft,
    edge: &Edge,
    takes: usize,
) -> Result<Option<Breach>, OutOfMemory>
    requires flowing { edge.now.flowing < length draft.old.store }
    requires takes { takes < length draft.old.store }
    ensures broken { IfOk result
        (λ breach. own_breaches (shape_at draft.old.store takes)
        (edge_view draft.old.store edge.now ∷ [])
        ≡ option_to_list (option_map breach_view breach)) }
    ensures kept { draft.new.store ≡ draft.old.store }
    ensures same { draft_view draft.new ≡ draft_view draft.old }
{
    match edge.destination {
        Destination::Task => {
            let example = draft.outside(edge.flowing, takes)?;
            Ok(payload_shown(edge, example))
        }
        Destination::Input(_) | Destination::Output | Destination::End => Ok(None),
    }
}

/// The rule that is broken at the edge, if a tree shows it.
fn payload_shown(edge: &Edge, example: Option<Tree>) -> Option<Breach>
    ensures { option_to_list (option_map breach_view result)
        ≡ breach_shown edge.now.field.now (finding_fault_view edge.now.fault)
        (option_map tree_view example) }
{
    match example {
        Some(tree) => Some(Breach {
            field: edge.field,
            fault: edge.fault,
            example: Some(tree),
        }),
        None => None,
    }
}

/// The rule that is broken on the way, with the tree that shows its path to be doubtful, if it has one.
fn shown(draft: &mut Draft, broken: &Broken) -> Result<Breach, OutOfMemory>
    requires { IsBrokenBelow (length draft.old.store) broken.now }
    ensures seen { IfOk result
        (λ breach. breach_view breach ≡ broken_view draft.old.store broken.now) }
    ensures same { draft_view draft.new ≡ draft_view draft.old }
    ensures keeps { Keeps draft.old.store draft.new.store }
{
    let example = match broken.path {
        Some(path) => draft.counterexample(path)?,
        None => None,
    };
    Ok(Breach {
        field: broken.field,
        fault: broken.fault,
        example,
    })
}

/// A broken rule of the state of that name, as a finding.
pub(crate) fn finding(alloc: Global, name: &str, breach: Breach) -> Result<Finding, OutOfMemory>
    ensures { IfOk result
        (λ finding. finding_view finding ≡ finding_of name.now (breach_view breach)) }
{
    Ok(Finding {
        state: String::from_str(alloc, name)?,
        field: String::from_str(alloc, breach.field)?,
        fault: breach.fault,
        example: breach.example,
    })
}
