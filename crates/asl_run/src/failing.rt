//! The steps that an error leads to (States Language, "Retrying after error", "Fallback States").

ghost use Rattle.std.specs.Prelude.{IfOk, List, ℕ};
ghost use Rattle.asl_states.specs.Machine.{target_name};
ghost use Rattle.asl_model.specs.Run as model;
ghost use Rattle.asl_run.specs.Acting.{MayFollow, Plans, by_settings, by_trouble_at};
ghost use Rattle.asl_processing.specs.Faults.{fault_view};
ghost use Rattle.asl_processing.specs.Troubles.{CanRise};
ghost use Rattle.asl_tree.specs.View.{view};

use crate::changing::Change;
use crate::planning::{Here, Plan};
use asl_processing::{DataFlowError, Datum, Fault, Trouble, Visit, trouble_of};
use asl_states::Target;
use asl_tree::OutOfMemory;

/// The state is in trouble with an error and a cause.
pub(crate) fn in_trouble<'m>(
    here: &Here<'_, 'm>,
    error: &str,
    cause: &str,
) -> Result<Plan<'m>, OutOfMemory>
    ensures { IfOk result
        (λ plan. Plans here.now plan (by_settings model.troubled here.now error.now cause.now)) }
{
    let settings = &here.state.settings;
    let visit = here.visit;
    match trouble_of(
        here.alloc,
        settings,
        &visit.raw,
        &visit.counts,
        error,
        cause,
    )? {
        Trouble::Retries(retrier) => retry(here, retrier),
        Trouble::Catches {
            catcher,
            next,
            input,
        } => hand_on(here, catcher, next, input),
        Trouble::Misfits => misfit(here),
        Trouble::Escapes => here.ends_failing(error, cause),
    }
}

/// The retrier of that number retries.
#[tactic(auto, using(crate::proofs::Planned::retried_so))]
fn retry<'m>(here: &Here<'_, 'm>, retrier: usize) -> Result<Plan<'m>, OutOfMemory>
    requires { CanRise here.now.visit.now.counts.items retrier }
    ensures { IfOk result (λ plan. (error cause : List ℕ)
        → Plans here.now plan (by_trouble_at here.now error cause (model.Retries retrier))) }
{
    Plan::new(here.alloc, Change::Retry(retrier)).after(here.retried(retrier))
}

/// The catcher of that number hands this input to that state.
#[tactic(auto, using(crate::proofs::Planned::handed_on))]
fn hand_on<'m>(
    here: &Here<'_, 'm>,
    catcher: usize,
    next: &'m Target,
    input: Datum,
) -> Result<Plan<'m>, OutOfMemory>
    ensures { IfOk result (λ plan. MayFollow here.now next.now
        → (error cause : List ℕ) → Plans here.now plan (by_trouble_at here.now error cause
        (model.Catches catcher (target_name next.now) (view input.value)))) }
{
    let told = here.caught(catcher, next);
    let entered = Visit::new(here.alloc, next.number, input);
    Plan::new(here.alloc, Change::Enter(entered)).after(told)
}

/// A catcher's output can't be placed: that is a fault, which nothing takes.
fn misfit<'m>(here: &Here<'_, 'm>) -> Result<Plan<'m>, OutOfMemory>
    ensures { IfOk result (λ plan. (error cause : List ℕ)
        → Plans here.now plan (by_trouble_at here.now error cause model.Misfits)) }
{
    let fault = Fault {
        error: DataFlowError::ResultPathMatchFailure,
        field: "Catch",
    };
    let plan = here.ends_failing(fault.error.name(), fault.field)?;
    plan.after(here.raised(fault))
}

/// The state has met a data-flow fault: it is raised, and the state is in trouble with its error and, as the cause, its
/// field.
pub(crate) fn raise<'m>(here: &Here<'_, 'm>, fault: Fault) -> Result<Plan<'m>, OutOfMemory>
    ensures { IfOk result
        (λ plan. Plans here.now plan (by_settings model.faulted here.now (fault_view fault))) }
{
    let plan = in_trouble(here, fault.error.name(), fault.field)?;
    plan.after(here.raised(fault))
}
