//! The complaints of a definition, or of declared shapes, that are refused.
ghost use Rattle.std.specs.Prelude.{◌≡◌, IfOk, Some, map};
ghost use Rattle.serde_json.specs.View.{view};
ghost use Rattle.asl_model.specs.StandsFor as model;
ghost use Rattle.asl_model.specs.Records.{declared_complaints};
ghost use Rattle.asl_records.specs.Values.{For, IsValue};
ghost use Rattle.asl_tree.specs.View.{view as tree_view};
ghost use Rattle.asl_problems.specs.Told.{of_complaint, of_record, records_told, refusals_told, told_by};

use crate::problems::Problem;
use asl_machine::DefRefusal;
use asl_records::RecordRefusal;
use asl_tree::{OutOfMemory, Tree};
use serde_json::Value;
use std::alloc::Global;

/// Every complaint of a value as a definition, in their order. Refuses only where an allocation was refused.
pub fn problems_of_value(alloc: Global, value: &Value) -> Result<Vec<Problem>, OutOfMemory>
    ensures { IfOk result (λ problems. map told_by problems.items
        ≡ map of_complaint (model.complaints (view value.now))) }
{
    let refusals = asl_machine::complaints(alloc, value)?;
    let problems = problems_of(alloc, refusals)?;
    Ok(problems)
}

/// The complaints as problems.
fn problems_of(alloc: Global, refusals: Vec<DefRefusal>) -> Result<Vec<Problem>, OutOfMemory>
    ensures { IfOk result (λ problems.
        map (λ problem. Some (told_by problem)) problems.items ≡ refusals_told refusals.items) }
{
    let mut problems = Vec::new(alloc);
    for refusal in refusals {
        let problem = Problem::complaint(refusal)?;
        problems.push(problem)?;
    }
    Ok(problems)
}

/// Every complaint of a tree as declared shapes, in their order. Refuses only where an allocation was refused.
pub fn problems_of_declared(alloc: Global, tree: &Tree) -> Result<Vec<Problem>, OutOfMemory>
    ensures { IfOk result (λ problems. For (IsValue (tree_view tree.now))
        (λ v. map told_by problems.items ≡ map of_record (declared_complaints v))) }
{
    let refusals = asl_complaints::complaints(alloc, tree)?;
    let problems = problems_of_records(alloc, refusals)?;
    Ok(problems)
}

/// The complaints of declared shapes as problems.
fn problems_of_records(
    alloc: Global,
    refusals: Vec<RecordRefusal>,
) -> Result<Vec<Problem>, OutOfMemory>
    ensures { IfOk result (λ problems.
        map (λ problem. Some (told_by problem)) problems.items ≡ records_told refusals.items) }
{
    let mut problems = Vec::new(alloc);
    for refusal in refusals {
        let problem = Problem::record(refusal)?;
        problems.push(problem)?;
    }
    Ok(problems)
}
