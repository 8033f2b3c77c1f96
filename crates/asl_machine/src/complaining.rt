// Every complaint of a definition.

ghost use Rattle.std.specs.Prelude.{◌≡◌, IfOk, Some, map};
ghost use Rattle.serde_json.specs.View.{view};
ghost use Rattle.asl_model.specs.StandsFor as model;
ghost use Rattle.asl_fields.specs.Verdicts.{IsVerdict, complaint_view};
ghost use Rattle.asl_machine.specs.Telling.{count_told};
ghost use Rattle.asl_fields.specs.View.{refusal_view};

use crate::numbering::MOST_STATES;
use crate::repeating::tell_repeated;
use crate::scope_telling::{Telling, tell_definition};
use asl_fields::{Complaint, DefFault, DefRefusal, Place, tell_found};
use asl_tree::OutOfMemory;
use serde_json::Value;
use std::alloc::Global;

/// Every complaint of a JSON value as a definition, each with its fault, its state and its field (States Language,
/// "Structure of a State Machine", "State Types"). None is left out behind another: where nothing is wrong there are none.
/// Those of a scope come first field by field, then state by state, each followed by those of its own scopes; then each
/// name that stands again further on, and that there are too many states.
///
/// Refuses only where a growth was refused.
pub fn complaints(alloc: Global, value: &Value) -> Result<Vec<DefRefusal>, OutOfMemory>
    ensures { IfOk result
        (λ told. map refusal_view told.items ≡ map Some (model.complaints (view value.now))) }
{
    let told = tell_all(alloc, value)?;
    build_refusals(alloc, &told)
}

/// The same complaints, at names of the value.
fn tell_all<'a>(alloc: Global, value: &'a Value) -> Result<Vec<Complaint<'a>>, OutOfMemory>
    ensures { IfOk result
        (λ told. map complaint_view told.items ≡ map Some (model.complaints (view value.now))) }
{
    let mut telling = Telling {
        told: Vec::new(alloc),
        names: Vec::new(alloc),
    };
    tell_definition(alloc, value, &mut telling)?;
    let Telling { mut told, names } = telling;
    let found = check_count(names.len());
    tell_repeated(alloc, names, &mut told)?;
    tell_found(found, &mut told)?;
    Ok(told)
}

/// Checks that there are no more states than the limit.
fn check_count(count: usize) -> Result<(), Complaint<'static>>
    ensures { IsVerdict (count_told count) result }
{
    let place = Place {
        state: "",
        within: None,
    };
    place.complain_unless(count <= MOST_STATES, "States", DefFault::TooLarge)
}

/// The refusals that tell those complaints.
fn build_refusals(alloc: Global, told: &[Complaint]) -> Result<Vec<DefRefusal>, OutOfMemory>
    ensures { IfOk result
        (λ refusals. map refusal_view refusals.items ≡ map complaint_view told.now) }
{
    let mut refusals = Vec::with_capacity(alloc, told.len())?;
    for complaint in told {
        refusals.push(build_refusal(alloc, complaint)?)?;
    }
    Ok(refusals)
}

/// The refusal that tells a complaint.
fn build_refusal(alloc: Global, complaint: &Complaint) -> Result<DefRefusal, OutOfMemory>
    ensures { IfOk result (λ refusal. refusal_view refusal ≡ complaint_view complaint.now) }
{
    Ok(DefRefusal {
        fault: complaint.fault,
        state: String::from_str(alloc, complaint.state)?,
        field: String::from_str(alloc, complaint.field)?,
    })
}
