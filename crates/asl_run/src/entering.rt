//! Entering a state (States Language, "State Types").

ghost use Rattle.std.specs.Prelude.{IfOk};
ghost use Rattle.asl_states.specs.Machine.{kind_view};
ghost use Rattle.asl_model.specs.Flow as flow;
ghost use Rattle.asl_model.specs.Machine as machine;
ghost use Rattle.asl_model.specs.Run as model;
ghost use Rattle.asl_run.specs.Acting.{IsAt, MayCome, Plans, by_state, names_at};
ghost use Rattle.asl_processing.specs.Activities.{StartIn, inputs_of};
ghost use Rattle.asl_processing.specs.Data.{data_view};
ghost use Rattle.asl_processing.specs.Working.{work_view};
ghost use Rattle.asl_tree.specs.View.{view};

use crate::changing::Change;
use crate::failing::raise;
use crate::leaving::{finish, leave_with};
use crate::planning::{Here, Plan};
use asl_processing::{Data, Datum, Visit, Work, at_output_path, first_move};
use asl_tree::OutOfMemory;

/// The state is entered.
pub(crate) fn enter<'m>(here: &Here<'_, 'm>) -> Result<Plan<'m>, OutOfMemory>
    ensures { IfOk result (λ plan. Plans here.now plan (by_state model.enters here.now)) }
{
    let work = first_move(here.alloc, here.state, &here.visit.raw)?;
    let plan = carry_out(here, work)?;
    plan.after(here.entered())
}

/// What its first move comes to is done.
fn carry_out<'m>(here: &Here<'_, 'm>, work: Work) -> Result<Plan<'m>, OutOfMemory>
    ensures { IfOk result (λ plan. MayCome here.now work.entry
        → Plans here.now plan (by_state model.by_work here.now (work_view work.entry))) }
{
    match work {
        Work::Finishes(value) => finish(here, value),
        Work::Leaves { next, input } => {
            let output = at_output_path(here.alloc, &here.state.settings, input);
            leave_with(here, next, output)
        }
        Work::Fails { error, cause } => here.ends_failing(error, cause),
        Work::Asks(payload) => ask(here, payload),
        Work::Splits(children) => Ok(split(here, children)),
        Work::Raises(fault) => raise(here, fault),
    }
}

/// Its task is asked with a payload.
#[tactic(auto, using(crate::proofs::Planned::asked_so))]
fn ask<'m>(here: &Here<'_, 'm>, payload: Data) -> Result<Plan<'m>, OutOfMemory>
    ensures { IfOk result (λ plan. Plans here.now plan
        (by_state model.by_work here.now (flow.Asks (data_view payload.entry)))) }
{
    let payload = payload.into_datum(here.alloc)?;
    wait_for(here, payload)
}

/// It waits for the answer to its payload.
#[tactic(auto, using(crate::proofs::Planned::waits_so))]
fn wait_for<'m>(here: &Here<'_, 'm>, payload: Datum) -> Result<Plan<'m>, OutOfMemory>
    ensures { IfOk result (λ plan.
        Plans here.now plan (by_state model.by_work here.now (flow.Asks (view payload.value)))) }
{
    let told = here.asked(&payload);
    Plan::new(here.alloc, Change::Ask(payload)).after(told)
}

/// It starts these children.
#[tactic(auto, using(crate::proofs::Planned::split_so))]
fn split<'m>(here: &Here<'_, 'm>, children: Vec<Visit>) -> Plan<'m>
    ensures { (IsAt here.now → StartIn (names_at here.now)
        (machine.child_scope (kind_view here.now.state.now.kind)) children.items)
        → Plans here.now result
        (by_state model.by_work here.now (flow.Splits (inputs_of children.items))) }
{
    Plan::new(here.alloc, Change::SplitInto(children))
}
