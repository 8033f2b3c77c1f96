//! Steps of one shape, broken rules and doubts, which are added to the steps so far.

ghost use Rattle.std.specs.Prelude.{OnOk, option_map};
ghost use Rattle.asl_state_edges.specs.View.{finding_fault_view};
ghost use Rattle.asl_state_edges.specs.Walks.{caught_step, output_step, payload_step, Pushes, Tells, TellsDoubts, TellsMissing};
ghost use Rattle.asl_states.specs.Machine.{branches_view, started_at, target_name};
ghost use Rattle.asl_model.specs.Edges as model;

use crate::faults::{FindingFault, broken_at, broken_by, missing_at};
use crate::found::{Destination, Edge, Step};
use asl_flow::Doubt;
use asl_shape_paths::DoubtfulPath;
use asl_states::Target;
use asl_tree::OutOfMemory;

/// An output flows into the state's own, and on by `Next` or `End`.
pub(crate) fn push_onward<'m>(
    steps: &mut Vec<Step<'m>>,
    next: &'m Option<Target>,
    output: usize,
) -> Result<(), OutOfMemory>
    ensures { OnOk result (Pushes steps.old.items steps.new.items output
        (model.onward (option_map target_name next.now))) }
{
    match next {
        Some(next) => push_next(steps, "Next", next, output),
        None => push_end(steps, "End", output),
    }
}

/// An output flows into the state's own, and into the input of the state that the field names.
pub(crate) fn push_next<'m>(
    steps: &mut Vec<Step<'m>>,
    field: &'static str,
    next: &'m Target,
    output: usize,
) -> Result<(), OutOfMemory>
    ensures { OnOk result (Pushes steps.old.items steps.new.items output
        (model.to_next field.now (target_name next.now))) }
{
    push_output(steps, output)?;
    steps.push(Step::Flows(Edge {
        flowing: output,
        destination: Destination::Input(next),
        field,
        fault: FindingFault::NextInput,
    }))?;
    Ok(())
}

/// An output flows into the state's own, and out of the scope.
pub(crate) fn push_end(
    steps: &mut Vec<Step>,
    field: &'static str,
    output: usize,
) -> Result<(), OutOfMemory>
    ensures { OnOk result (Pushes steps.old.items steps.new.items output
        (model.to_end field.now)) }
{
    push_output(steps, output)?;
    steps.push(Step::Flows(Edge {
        flowing: output,
        destination: Destination::End,
        field,
        fault: FindingFault::ScopeOutput,
    }))?;
    Ok(())
}

/// An output flows into the state's own.
fn push_output(steps: &mut Vec<Step>, output: usize) -> Result<(), OutOfMemory>
    ensures { OnOk result (Pushes steps.old.items steps.new.items output output_step) }
{
    steps.push(Step::Flows(Edge {
        flowing: output,
        destination: Destination::Output,
        field: "OutputPath",
        fault: FindingFault::OutputNotCertified,
    }))?;
    Ok(())
}

/// A payload flows to the state's task.
pub(crate) fn push_payload(steps: &mut Vec<Step>, payload: usize) -> Result<(), OutOfMemory>
    ensures { OnOk result (Pushes steps.old.items steps.new.items payload payload_step) }
{
    steps.push(Step::Flows(Edge {
        flowing: payload,
        destination: Destination::Task,
        field: "Parameters",
        fault: FindingFault::PayloadNotTaken,
    }))?;
    Ok(())
}

/// What a catcher hands on flows into the input of the next state.
pub(crate) fn push_caught<'m>(
    steps: &mut Vec<Step<'m>>,
    next: &'m Target,
    caught: usize,
) -> Result<(), OutOfMemory>
    ensures { OnOk result (Pushes steps.old.items steps.new.items caught
        (caught_step (target_name next.now))) }
{
    steps.push(Step::Flows(Edge {
        flowing: caught,
        destination: Destination::Input(next),
        field: "Catch",
        fault: FindingFault::CatchInput,
    }))?;
    Ok(())
}

/// A child's input flows into that of the start state of its scope.
pub(crate) fn push_child<'m>(
    steps: &mut Vec<Step<'m>>,
    field: &'static str,
    start: &'m Target,
    input: usize,
) -> Result<(), OutOfMemory>
    ensures { OnOk result (Pushes steps.old.items steps.new.items input
        (model.to_child field.now (started_at start.now))) }
{
    steps.push(Step::Flows(Edge {
        flowing: input,
        destination: Destination::Input(start),
        field,
        fault: FindingFault::BranchInput,
    }))?;
    Ok(())
}

/// The branches' input flows into that of the start state of each.
pub(crate) fn push_branches<'m>(
    steps: &mut Vec<Step<'m>>,
    branches: &'m [Target],
    input: usize,
) -> Result<(), OutOfMemory>
    ensures { OnOk result (Pushes steps.old.items steps.new.items input
        (model.to_branches (branches_view branches.now))) }
{
    for start in branches {
        push_child(steps, "Branches", start, input)?;
    }
    Ok(())
}

/// That rule is broken at the field.
pub(crate) fn push_broken(
    steps: &mut Vec<Step>,
    field: &'static str,
    fault: FindingFault,
) -> Result<(), OutOfMemory>
    ensures { OnOk result (Tells steps.old.items steps.new.items
        (model.breaks field.now (finding_fault_view fault))) }
{
    steps.push(Step::Breaks(broken_at(field, fault)))?;
    Ok(())
}

/// That rule is broken at the field, unless the test holds.
pub(crate) fn push_unless(
    steps: &mut Vec<Step>,
    holds: bool,
    field: &'static str,
    fault: FindingFault,
) -> Result<(), OutOfMemory>
    ensures { OnOk result (Tells steps.old.items steps.new.items
        (model.breaks_unless holds field.now (finding_fault_view fault))) }
{
    if holds {
        Ok(())
    } else {
        push_broken(steps, field, fault)
    }
}

/// That path of the field may name nothing.
pub(crate) fn push_missing<'m>(
    steps: &mut Vec<Step<'m>>,
    field: &'static str,
    path: DoubtfulPath<'m>,
) -> Result<(), OutOfMemory>
    ensures { OnOk result (TellsMissing steps.old.items steps.new.items field.now path.entry) }
{
    steps.push(Step::Breaks(missing_at(field, "", path)))?;
    Ok(())
}

/// Each of the doubts is a broken rule, in their order.
pub(crate) fn push_doubts<'m>(
    steps: &mut Vec<Step<'m>>,
    doubts: &[Doubt<'m>],
) -> Result<(), OutOfMemory>
    ensures { OnOk result (TellsDoubts steps.old.items steps.new.items doubts.now) }
{
    for doubt in doubts {
        steps.push(Step::Breaks(broken_by(*doubt)))?;
    }
    Ok(())
}
