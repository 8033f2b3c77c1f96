//! Findings of all broken rules, each with the tree that shows it, and with the path that names nothing there.

ghost use Rattle.std.specs.Prelude.{◌≡◌, IfOk, length};
ghost use Rattle.std.specs.List.{All};
ghost use Rattle.asl_numbered.specs.Expansion.{Keeps};
ghost use Rattle.asl_check.specs.Faults.{IsFaultBelow, IsPathOf};
ghost use Rattle.asl_check.specs.Listing.{listed_view, rules_view, AreRulesBelow};
ghost use Rattle.asl_check.specs.View.{finding_view, findings_of, IsLocated};

use crate::faults::{Fault, Shown, with_example};
use crate::listed::Listed;
use crate::verdicts::{Finding, Located, MissingPath};
use asl_numbered::Shapes;
use asl_path::print;
use asl_state_edges::FindingFault;
use asl_tree::OutOfMemory;
use std::alloc::Global;

/// The findings that tell these rules, in their order. It may leave further shapes in the table.
pub(crate) fn tell_each(
    alloc: Global,
    shapes: &mut Shapes,
    rules: &[Listed],
) -> Result<Vec<Located>, OutOfMemory>
    requires below { AreRulesBelow (length shapes.old) rules.now }
    ensures told { IfOk result (λ all. findings_of all.items ≡ rules_view shapes.old rules.now) }
    ensures located { IfOk result (λ all. All IsLocated all.items) }
    ensures keeps { Keeps shapes.old shapes.new }
{
    let mut findings = Vec::new(alloc);
    for rule in rules {
        let finding = tell(alloc, shapes, rule)?;
        findings.push(finding)?;
    }
    Ok(findings)
}

/// The finding that tells a rule, and the path that it tells, if it is one that may name nothing.
fn tell(alloc: Global, shapes: &mut Shapes, rule: &Listed) -> Result<Located, OutOfMemory>
    requires below { IsFaultBelow (length shapes.old) rule.now.fault }
    ensures told { IfOk result (λ f. finding_view f.finding ≡ listed_view shapes.old rule.now) }
    ensures located { IfOk result IsLocated }
    ensures keeps { Keeps shapes.old shapes.new }
{
    let noted = with_example(alloc, shapes, rule.fault)?;
    let path = missing_path(alloc, rule.fault)?;
    let state = String::from_str(alloc, rule.name)?;
    let field = String::from_str(alloc, noted.field)?;
    let finding = Finding {
        state,
        field,
        fault: noted.fault,
        example: noted.example,
    };
    Ok(Located { finding, path })
}

/// The path that may name nothing, where that is what is wrong.
fn missing_path(alloc: Global, fault: Fault<'_>) -> Result<Option<MissingPath>, OutOfMemory>
    ensures { IfOk result (IsPathOf fault.entry) }
{
    let FindingFault::PathMayBeMissing = fault.fault else {
        return Ok(None);
    };
    let Shown::Missing { path, name } = fault.shown else {
        return Ok(None);
    };
    let text = print(alloc, path.path)?;
    let name = String::from_str(alloc, name)?;
    Ok(Some(MissingPath {
        text,
        segment: path.segment,
        name,
    }))
}
