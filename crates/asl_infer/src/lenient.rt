//! Inferring a certificate although rules are broken.

ghost use Rattle.std.specs.Prelude.{◌≡◌, ◌≤◌, ◌*◌, option_map, IfNone, IfOk, IfSome, Some};
ghost use Rattle.serde_json.specs.Data.{depth};
ghost use Rattle.serde_json.specs.Read.{max_depth};
ghost use Rattle.asl_model.specs.Certificate as certificates;
ghost use Rattle.asl_model.specs.Json.{value_of};
ghost use Rattle.asl_model.specs.Numbering.{table_of};
ghost use Rattle.asl_model.specs.RecordShapes.{HoldsForCertificate};
ghost use Rattle.asl_model.specs.Written.{written_certificate};
ghost use Rattle.asl_draft_laws.specs.Drafts.{IsInferred};
ghost use Rattle.asl_machine_table.specs.Table.{scope_in, table_view};
ghost use Rattle.asl_records.specs.Numbered.{numbered_view, AreWithin};
ghost use Rattle.asl_records.specs.View.{declared_view};
ghost use Rattle.asl_drafts.specs.Cutting.{IsShallow};
ghost use Rattle.asl_infer.specs.Inferring.{certified_shapes};
ghost use Rattle.asl_infer.specs.Lenient.{IsInferredLeniently, NeverSettlesLeniently};
ghost use Rattle.asl_infer.specs.Rounds.{AnswersLeniently, IsSettledOrNot};

use crate::inferring::{InferRefusal, begin};
use crate::rounds::Strictness;
use asl_drafts::order_of;
use asl_machine_table::Machine;
use asl_records::{Declared, NumberedCertificate};
use asl_tree::OutOfMemory;
use std::alloc::Global;

/// Infers a certificate of the machine by which each broken rule can be told: its rounds pass over broken rules. `None`
/// where some shape still changed in the last round.
///
/// A round is one of `infer_numbered`, but that it tells no rule. Where a state breaks one on the way to an edge, nothing
/// flows along that edge, so one fault isn't told again at each state behind it; what flows along the state's other edges
/// is taken in. A payload that isn't taken, the path of a Wait and a Choice without a Default stop nothing. A Task that
/// isn't declared takes and gives every tree. Where `infer_numbered` answers a certificate, this is the same one.
///
/// A state that breaks a rule of its own is walked in each round, and each other one as often as there.
pub fn infer_leniently(
    alloc: Global,
    machine: &Machine,
    declared: &Declared,
    max_rounds: u32,
) -> Result<Option<NumberedCertificate>, OutOfMemory>
    ensures inferred { let table = table_of (scope_in machine.now) in
        IfOk result (λ found. IfSome found (λ certificate. IsInferredLeniently table
        (declared_view declared.now) max_rounds (numbered_view certificate))) }
    ensures never_settles { let table = table_of (scope_in machine.now) in
        IfOk result (λ found. IfNone found
        (NeverSettlesLeniently table (declared_view declared.now) max_rounds)) }
    ensures few_rounds { IfOk result (λ found. IfNone found
        (max_rounds ≤ 33 * certified_shapes (table_of (scope_in machine.now)))) }
    ensures same { IfOk result (λ found. (strict : certificates.Certificate)
        → IsInferred (table_of (scope_in machine.now)) (declared_view declared.now) max_rounds strict
        → option_map numbered_view found ≡ Some strict) }
    ensures within { IfOk result (λ found. IfSome found AreWithin) }
    ensures shallow { IfOk result (λ found. IfSome found (λ certificate.
        depth (value_of (written_certificate (numbered_view certificate))) ≤ max_depth)) }
{
    machine.is_shown();
    settle_leniently(alloc, machine, declared, max_rounds)
}

/// Takes rounds until the draft settles.
fn settle_leniently(
    alloc: Global,
    machine: &Machine,
    declared: &Declared,
    max_rounds: u32,
) -> Result<Option<NumberedCertificate>, OutOfMemory>
    ensures answers { IfOk result (λ found.
        AnswersLeniently (table_view machine.now) (declared_view declared.now) max_rounds
        (option_map numbered_view found)) }
    ensures within { IfOk result (λ found. IfSome found AreWithin) }
    ensures shallow { IfOk result (λ found. IfSome found
        (λ certificate. HoldsForCertificate IsShallow (numbered_view certificate))) }
{
    let order = order_of(alloc, machine)?;
    let (given, mut walker) = begin(alloc, machine, declared, Strictness::Lenient, order)?;
    let came_to = given.take_rounds(max_rounds, &mut walker);
    let is_settled = have_settled(came_to)?;
    if is_settled {
        Ok(Some(walker.draft.certificate(machine)?))
    } else {
        Ok(None)
    }
}

/// Whether the rounds settled that came to that. Refuses where an allocation was refused.
fn have_settled(came_to: Result<(), InferRefusal>) -> Result<bool, OutOfMemory>
    ensures { IfOk result (IsSettledOrNot came_to) }
{
    match came_to {
        Ok(()) => Ok(true),
        Err(InferRefusal::OutOfMemory) => Err(OutOfMemory),
        // Lenient rounds tell no finding.
        Err(InferRefusal::Finding(_) | InferRefusal::NotSettled) => Ok(false),
    }
}
