//! What is hardly meant, as problems.
ghost use Rattle.std.specs.Prelude.{◌≡◌, IfOk, OnOk};
ghost use Rattle.asl_diagnostics.specs.declared.Severity.{Severity};
ghost use Rattle.asl_problems.specs.Told.{errors_of};

use crate::problems::{Kind, Problem};
use asl_diagnostics::{Severity, rule_of_warning};
use asl_machine::Machine;
use asl_records::NumberedCertificate;
use asl_tree::OutOfMemory;
use asl_warnings::{Notice, Stop, notices};
use std::alloc::Global;

/// Adds what is hardly meant in a machine; without a certificate only what the machine itself tells. Of data behind a state at
/// which one of the problems may stop data nothing is told. Refuses only where an allocation was refused.
pub fn add_warnings(
    alloc: Global,
    problems: &mut Vec<Problem>,
    machine: &Machine,
    certificate: Option<&mut NumberedCertificate>,
) -> Result<(), OutOfMemory>
    ensures { OnOk result (errors_of problems.new.items ≡ errors_of problems.old.items) }
{
    let notices = notices_beside(alloc, problems, machine, certificate)?;
    add_each(alloc, problems, &notices)
}

/// What is hardly meant in a machine that has these problems.
fn notices_beside<'m>(
    alloc: Global,
    problems: &[Problem],
    machine: &'m Machine,
    certificate: Option<&mut NumberedCertificate>,
) -> Result<Vec<Notice<'m>>, OutOfMemory> {
    let stops = stops_of(alloc, problems)?;
    notices(alloc, machine, certificate, &stops)
}

/// Where the problems stop data.
fn stops_of(alloc: Global, problems: &[Problem]) -> Result<Vec<Stop<'_>>, OutOfMemory> {
    let mut stops = Vec::new(alloc);
    for problem in problems {
        if let Some(stop) = stop_of(problem) {
            stops.push(stop)?;
        }
    }
    Ok(stops)
}

/// Where a problem stops data, if it does.
fn stop_of(problem: &Problem) -> Option<Stop<'_>> {
    let Kind::Finding(fault, _) = problem.kind else {
        return None;
    };
    Stop::of(problem.state.as_deref()?, problem.field.as_deref()?, fault)
}

/// Adds each of the notices.
fn add_each(
    alloc: Global,
    problems: &mut Vec<Problem>,
    notices: &[Notice<'_>],
) -> Result<(), OutOfMemory>
    ensures { OnOk result (errors_of problems.new.items ≡ errors_of problems.old.items) }
{
    for notice in notices {
        let problem = warning(alloc, notice)?;
        problems.push(problem)?;
    }
    Ok(())
}

/// A notice as a problem.
fn warning(alloc: Global, notice: &Notice<'_>) -> Result<Problem, OutOfMemory>
    ensures { IfOk result (λ problem. problem.severity ≡ Severity.Warning) }
{
    let sentence = notice.sentence(alloc)?;
    let state = String::from_str(alloc, notice.state)?;
    let field = match notice.field {
        Some(field) => Some(String::from_str(alloc, field)?),
        None => None,
    };
    Ok(Problem {
        kind: Kind::Odd {
            index: notice.index,
            sentence,
        },
        severity: Severity::Warning,
        rule: rule_of_warning(notice.warning),
        state: Some(state),
        field,
        example: None,
    })
}
