//! Leaving a state (States Language, "Transitions", "Input and Output Processing").

ghost use Rattle.std.specs.Prelude.{IfOk, IfSome, None, Result, Some, option_map};
ghost use Rattle.asl_states.specs.Machine.{target_name};
ghost use Rattle.asl_model.specs.Faults as faults;
ghost use Rattle.asl_model.specs.Run as model;
ghost use Rattle.asl_model.specs.Tree as trees;
ghost use Rattle.asl_run.specs.Acting.{MayFollow, Plans, by_settings};
ghost use Rattle.asl_processing.specs.Data.{data_view, datum_view};
ghost use Rattle.asl_processing.specs.Flowing.{Flows};
ghost use Rattle.asl_tree.specs.View.{view};

use crate::changing::Change;
use crate::entries::Outcome;
use crate::failing::raise;
use crate::planning::{Here, Plan};
use asl_processing::{Data, Datum, Stop, Visit, output_of};
use asl_states::Target;
use asl_tree::OutOfMemory;

/// The state leaves with an output, for that next state or for the end of its scope.
fn leave<'m>(
    here: &Here<'_, 'm>,
    next: Option<&Target>,
    output: Datum,
) -> Result<Plan<'m>, OutOfMemory>
    ensures { IfOk result (λ plan. IfSome next.entry (λ target. MayFollow here.now target.now)
        → Plans here.now plan (model.leaves_for here.now.name.now
        (option_map (λ target. target_name target.now) next.entry) (view output.value))) }
{
    match next {
        Some(target) => leave_for(here, target, output),
        None => leave_scope(here, output),
    }
}

/// So for that next state.
#[tactic(auto, using(crate::proofs::Planned::left_on))]
fn leave_for<'m>(here: &Here<'_, 'm>, next: &Target, output: Datum) -> Result<Plan<'m>, OutOfMemory>
    ensures { IfOk result (λ plan. MayFollow here.now next.now → Plans here.now plan
        (model.leaves_for here.now.name.now (Some (target_name next.now)) (view output.value))) }
{
    let told = here.left(&output);
    let entered = Visit::new(here.alloc, next.number, output);
    Plan::new(here.alloc, Change::Enter(entered)).after(told)
}

/// So for the end of its scope.
#[tactic(auto, using(crate::proofs::Planned::left_last))]
fn leave_scope<'m>(here: &Here<'_, 'm>, output: Datum) -> Result<Plan<'m>, OutOfMemory>
    ensures { IfOk result (λ plan.
        Plans here.now plan (model.leaves_for here.now.name.now None (view output.value))) }
{
    let entries = here.left_and_ended(&output)?;
    let ended = Outcome::Output(output);
    Ok(Plan {
        entries,
        change: Change::End(ended),
    })
}

/// The same where the output may have met a fault.
pub(crate) fn leave_with<'m>(
    here: &Here<'_, 'm>,
    next: Option<&Target>,
    output: Result<Datum, Stop>,
) -> Result<Plan<'m>, OutOfMemory>
    ensures { IfOk result (λ plan. (defined : Result trees.Tree faults.Fault)
        → Flows datum_view output defined
        → IfSome next.entry (λ target. MayFollow here.now target.now)
        → Plans here.now plan (by_settings model.leaves_with here.now
        (option_map (λ target. target_name target.now) next.entry) defined)) }
{
    match output {
        Ok(output) => leave(here, next, output),
        Err(stop) => match stop {
            Stop::Fault(fault) => raise(here, fault),
            Stop::OutOfMemory => Err(OutOfMemory),
        },
    }
}

/// The state has a result.
#[tactic(auto, using(crate::proofs::Planned::finished_so))]
pub(crate) fn finish<'m>(here: &Here<'_, 'm>, value: Data) -> Result<Plan<'m>, OutOfMemory>
    ensures { IfOk result (λ plan.
        Plans here.now plan (by_settings model.finishes here.now (data_view value.entry))) }
{
    let settings = &here.state.settings;
    let output = output_of(here.alloc, settings, &here.visit.raw, value);
    leave_with(here, settings.next.as_ref(), output)
}
