//! The broken rules of a machine.
ghost use Rattle.std.specs.Prelude.{◌≡◌, IfOk, map};
ghost use Rattle.asl_check.specs.View.{findings_of};
ghost use Rattle.asl_problems.specs.Told.{of_finding, told_by};

use crate::problems::Problem;
use asl_check::Located;
use asl_tree::OutOfMemory;
use std::alloc::Global;

/// The findings as problems, in their order. Refuses only where an allocation was refused.
pub fn problems_of_findings(
    alloc: Global,
    findings: Vec<Located>,
) -> Result<Vec<Problem>, OutOfMemory>
    ensures { IfOk result (λ problems. map told_by problems.items
        ≡ map of_finding (findings_of findings.items)) }
{
    let mut problems = Vec::new(alloc);
    for located in findings {
        let problem = Problem::finding(located.finding, located.path);
        problems.push(problem)?;
    }
    Ok(problems)
}
