//! Inferring a certificate, round after round.

ghost use Rattle.std.specs.Prelude.{◌≡◌, ◌≤◌, ℕ, [], length, IfErr, IfOk};
ghost use Rattle.serde_json.specs.Data.{depth};
ghost use Rattle.serde_json.specs.Read.{max_depth};
ghost use Rattle.asl_model.specs.Certificate as certificates;
ghost use Rattle.asl_model.specs.Certificate.{IsClosed};
ghost use Rattle.asl_model.specs.Finding as findings;
ghost use Rattle.asl_model.specs.Json.{value_of};
ghost use Rattle.asl_model.specs.Machine as machines;
ghost use Rattle.asl_model.specs.Numbering.{IsWellNamed, table_of};
ghost use Rattle.asl_model.specs.RecordShapes.{HoldsForCertificate};
ghost use Rattle.asl_model.specs.Shape.{IsOrdered};
ghost use Rattle.asl_model.specs.Written.{written_certificate};
ghost use Rattle.asl_draft_laws.specs.Drafts.{IsInferred, IsTold, first_draft};
ghost use Rattle.asl_machine_table.specs.Table.{scope_in, table_view};
ghost use Rattle.asl_records.specs.Numbered.{numbered_view, AreWithin};
ghost use Rattle.asl_records.specs.View.{declared_view};
ghost use Rattle.asl_drafts.specs.Cutting.{IsShallow};
ghost use Rattle.asl_drafts.specs.Drafted.{draft_view};
ghost use Rattle.asl_drafts.specs.Order.{AreOrdered};
ghost use Rattle.asl_infer.specs.Inferring.{BreaksNoRule, IsClosedOf, IsInferredOf, IsOfMachine};
ghost use Rattle.asl_infer.specs.Inferring.{IsRefusalOf, IsToldOf, IsWrittenShallow};
ghost use Rattle.asl_infer.specs.Rounds.{AreCalm, Infers, IsGivenOf, Refuses};

use crate::declarations::check_tasks;
use crate::rounds::{Given, Strictness};
use asl_check::{Finding, names_in_order};
use asl_draft_laws::{settled_drafts_are_closed, settled_drafts_break_no_rule};
use asl_drafts::{Draft, Predecessors, Store, Waiting, Walker, order_of};
use asl_machine_table::Machine;
use asl_model::inference_laws::a_broken_rule_of_a_state_stands;
use asl_model::shape_laws::findings_are_exactly_the_broken_rules;
use asl_records::{Certificate, Declared, NumberedCertificate, expand_certificate};
use asl_tree::OutOfMemory;
use std::alloc::Global;

/// Why no certificate is inferred.
#[derive(Drop)]
pub enum InferRefusal {
    /// A rule that is about the machine, or about what is declared, is broken for some certificate.
    Finding(Finding),
    /// Some shape still changed in the last round.
    NotSettled,
    /// An allocation was refused.
    OutOfMemory,
}

impl From<OutOfMemory> for InferRefusal {
    ghost use Rattle.asl_infer.specs.declared.inferring.InferRefusal.{InferRefusal};

    ghost from_gives = { λ _ refusal. refusal ≡ InferRefusal.OutOfMemory };

    fn from(_error: OutOfMemory) -> InferRefusal {
        InferRefusal::OutOfMemory
    }
}

/// Infers a certificate of the machine that is closed for what is declared.
///
/// At first no tree has any of its shapes. In each round the declared input flows into the start state's input, and
/// then what flows out of each state, in byte order of their names, is joined into the shapes that it would be
/// compared with. The certificate is answered after a round that changed no shape. Refuses with a finding where a Task isn't
/// declared or a declared task names no Task, the first such name in byte order; then with the first finding of a round
/// that compares nothing with the certificate; where all rounds changed a shape; and where an allocation was refused.
///
/// A state is passed over where a walk through it would change nothing: its input hasn't changed since it was walked
/// last, nor the end of one of its branches or of its processor, and what flowed out of it then would change none of
/// the shapes into which it flowed. What is written of the certificate nests at most 127 levels, so that its text reads
/// back.
pub fn infer(
    alloc: Global,
    machine: &Machine,
    declared: &Declared,
    max_rounds: u32,
) -> Result<Certificate, InferRefusal>
    ensures inferred { IfOk result (IsInferredOf machine.now declared.now max_rounds) }
    ensures closed { IfOk result (IsClosedOf machine.now declared.now) }
    ensures no_rule_broken { IfOk result (BreaksNoRule machine.now declared.now) }
    ensures shallow { IfOk result IsWrittenShallow }
    ensures refused { IfErr result (IsRefusalOf machine.now declared.now max_rounds) }
    ensures told { IfErr result (IsToldOf machine.now declared.now max_rounds) }
{
    let certificate = infer_numbered(alloc, machine, declared, max_rounds)?;
    Ok(expand_certificate(alloc, &certificate)?)
}

/// The same, with the certificate's shapes in a table.
pub fn infer_numbered(
    alloc: Global,
    machine: &Machine,
    declared: &Declared,
    max_rounds: u32,
) -> Result<NumberedCertificate, InferRefusal>
    ensures inferred { IfOk result (λ certificate. IsInferred (table_of (scope_in machine.now))
        (declared_view declared.now) max_rounds (numbered_view certificate)) }
    ensures closed { IfOk result (λ certificate. IsClosed (declared_view declared.now)
        (numbered_view certificate) (scope_in machine.now)) }
    ensures no_rule_broken { IfOk result (λ certificate. findings.findings (scope_in machine.now)
        (declared_view declared.now) (numbered_view certificate) ≡ []) }
    ensures within { IfOk result AreWithin }
    ensures shallow { IfOk result (λ certificate.
        depth (value_of (written_certificate (numbered_view certificate))) ≤ max_depth) }
    ensures refused { IfErr result (IsRefusalOf machine.now declared.now max_rounds) }
    ensures told { IfErr result (IsToldOf machine.now declared.now max_rounds) }
{
    machine.is_shown();
    settled_drafts_are_closed();
    settled_drafts_break_no_rule();
    told_findings_stand();
    names_in_order(declared);
    settle(alloc, machine, declared, max_rounds)
}

/// Checks the names of the tasks, and takes rounds until the draft settles.
fn settle(
    alloc: Global,
    machine: &Machine,
    declared: &Declared,
    max_rounds: u32,
) -> Result<NumberedCertificate, InferRefusal>
    ensures inferred { IfOk result (λ certificate.
        Infers (table_view machine.now) (declared_view declared.now) max_rounds
        (numbered_view certificate)) }
    ensures within { IfOk result AreWithin }
    ensures shallow { IfOk result
        (λ certificate. HoldsForCertificate IsShallow (numbered_view certificate)) }
    ensures ordered { IfOk result
        (λ certificate. HoldsForCertificate IsOrdered (numbered_view certificate)) }
    ensures told { IfErr result
        (Refuses (table_view machine.now) (declared_view declared.now) max_rounds) }
{
    let order = order_of(alloc, machine)?;
    check_tasks(alloc, machine, declared, &order)?;
    let (given, mut walker) = begin(alloc, machine, declared, Strictness::Strict, order)?;
    given.take_rounds(max_rounds, &mut walker)?;
    let certificate = walker.draft.certificate(machine)?;
    certificate.shapes.are_proper();
    Ok(certificate)
}

/// What is given, and the draft before the first round, for which all states wait. They are walked in that order.
pub(crate) fn begin<'m>(
    alloc: Global,
    machine: &'m Machine,
    declared: &'m Declared,
    strictness: Strictness,
    order: Vec<usize>,
) -> Result<(Given<'m>, Walker), OutOfMemory>
    requires { AreOrdered (table_view machine.now) order.items }
    ensures given { IfOk result (λ begun.
        IsGivenOf machine.now declared.now strictness begun.1.draft.store begun.0) }
    ensures first { IfOk result (λ begun.
        draft_view begun.1.draft ≡ first_draft (table_view machine.now)) }
    ensures calm { IfOk result (λ begun.
        AreCalm (table_view machine.now) (declared_view declared.now) begun.1) }
{
    let mut store = Store::new(alloc);
    let given = Given::new(alloc, machine, declared, strictness, &mut store)?;
    let draft = Draft::new(machine, store)?;
    let waiting = Waiting::new(alloc, machine.states(), order)?;
    let predecessors = Predecessors::new(alloc);
    let walker = Walker {
        draft,
        waiting,
        predecessors,
    };
    Ok((given, walker))
}

/// A finding that is told of the names of tasks or in a round is of the machine or of what is declared, and stands for
/// some certificate.
fn told_findings_stand()
    ensures { (machine : machines.Scope) (declared : certificates.Declared) (rounds : ℕ)
        (found : findings.Finding) → IsWellNamed machine
        → IsTold (table_of machine) declared rounds found → IsOfMachine machine declared found }
{
    a_broken_rule_of_a_state_stands();
    findings_are_exactly_the_broken_rules();
}
