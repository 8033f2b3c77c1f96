//! What is wrong with a machine that is read, by the certificate that is inferred of it.
ghost use Rattle.std.specs.Prelude.{◌≡◌, ◌∷◌, [], IfOk, IfSome, map};
ghost use Rattle.asl_machine_table.specs.Table.{scope_in, table_view};
ghost use Rattle.asl_records.specs.Numbered.{AreWithin, numbered_view};
ghost use Rattle.asl_records.specs.View.{declared_view};
ghost use Rattle.asl_check.specs.Told.{listed};
ghost use Rattle.asl_check.specs.View.{finding_view};
ghost use Rattle.asl_lint.specs.Tells.{TellsInstead, TellsOfMachine};
ghost use Rattle.asl_problems.specs.Told.{of_finding, told_by};

use asl_check::{Finding, find_all};
use asl_infer::{InferRefusal, infer_leniently, infer_numbered};
use asl_machine::Machine;
use asl_problems::{Problem, problems_of_findings};
use asl_records::{Declared, NumberedCertificate};
use asl_tree::OutOfMemory;
use std::alloc::Global;

/// What is wrong with a machine, and the certificate that tells it, where there is one.
#[derive(Drop)]
pub(crate) struct Judged {
    pub(crate) problems: Vec<Problem>,
    pub(crate) certificate: Option<NumberedCertificate>,
}

impl Judged {
    /// That problem alone, without a certificate.
    fn alone(alloc: Global, problem: Problem) -> Result<Judged, OutOfMemory>
        ensures told { IfOk result
            (λ judged. map told_by judged.problems.items ≡ told_by problem ∷ []) }
        ensures within { IfOk result (λ judged. IfSome judged.certificate AreWithin) }
    {
        let mut problems = Vec::new(alloc);
        problems.push(problem)?;
        Ok(Judged {
            problems,
            certificate: None,
        })
    }
}

/// What is wrong with a machine under declared shapes: nothing where a certificate is inferred in at most `max_rounds`
/// rounds, since it breaks no rule. Where the inference tells a finding instead, each rule that the certificate of lenient
/// rounds breaks, or that finding where there is no such certificate or it breaks none. Where the shapes don't settle, that.
pub(crate) fn judge(
    alloc: Global,
    machine: &Machine,
    declared: &Declared,
    max_rounds: u32,
) -> Result<Judged, OutOfMemory>
    ensures told { IfOk result (λ judged. TellsOfMachine max_rounds (scope_in machine.now)
        (declared_view declared.now) (map told_by judged.problems.items)) }
    ensures within { IfOk result (λ judged. IfSome judged.certificate AreWithin) }
{
    match infer_numbered(alloc, machine, declared, max_rounds) {
        Ok(certificate) => Ok(Judged {
            problems: Vec::new(alloc),
            certificate: Some(certificate),
        }),
        Err(InferRefusal::Finding(finding)) => {
            judge_leniently(alloc, machine, declared, max_rounds, finding)
        }
        Err(InferRefusal::NotSettled) => Judged::alone(alloc, Problem::not_settled()),
        Err(InferRefusal::OutOfMemory) => Err(OutOfMemory),
    }
}

/// What is wrong where the inference tells a finding.
fn judge_leniently(
    alloc: Global,
    machine: &Machine,
    declared: &Declared,
    max_rounds: u32,
    finding: Finding,
) -> Result<Judged, OutOfMemory>
    ensures told { IfOk result (λ judged. TellsInstead max_rounds (scope_in machine.now)
        (declared_view declared.now) (finding_view finding)
        (map told_by judged.problems.items)) }
    ensures within { IfOk result (λ judged. IfSome judged.certificate AreWithin) }
{
    machine.is_shown();
    let Some(mut certificate) = infer_leniently(alloc, machine, declared, max_rounds)? else {
        return Judged::alone(alloc, Problem::finding(finding, None));
    };
    let problems = broken_rules(alloc, machine, declared, &mut certificate)?;
    if problems.is_empty() {
        return Judged::alone(alloc, Problem::finding(finding, None));
    }
    Ok(Judged {
        problems,
        certificate: Some(certificate),
    })
}

/// Every rule that the certificate breaks.
fn broken_rules(
    alloc: Global,
    machine: &Machine,
    declared: &Declared,
    certificate: &mut NumberedCertificate,
) -> Result<Vec<Problem>, OutOfMemory>
    requires within { AreWithin certificate.old }
    ensures told { IfOk result (λ problems. map told_by problems.items
        ≡ map of_finding (listed (table_view machine.now) (declared_view declared.now)
        (numbered_view certificate.old))) }
    ensures within { AreWithin certificate.new }
{
    let findings = find_all(alloc, machine, declared, certificate)?;
    let problems = problems_of_findings(alloc, findings)?;
    Ok(problems)
}
