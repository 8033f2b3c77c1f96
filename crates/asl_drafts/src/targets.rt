//! The shapes of a draft that the edges of states lead to.

ghost use Rattle.std.specs.Prelude.{◌≡◌, option_map};
ghost use Rattle.asl_model.specs.Edges as model;
ghost use Rattle.asl_draft_laws.specs.Drafts as drafts;
ghost use Rattle.asl_state_edges.specs.View.{destination_view};
ghost use Rattle.asl_machine_table.specs.Table.{table_view};
ghost use Rattle.asl_states.specs.Machine.{target_name};
ghost use Rattle.asl_drafts.specs.Drafted.{target_view};

use crate::draft::Target;
use asl_machine_table::Machine;
use asl_state_edges::Destination;

/// The shape that an edge of the state of that number leads to. None where the edge leads to a task, or to a state that
/// the machine hasn't.
pub(crate) fn target_of(
    machine: &Machine,
    number: usize,
    destination: Destination,
) -> Option<Target>
    ensures { option_map target_view result
        ≡ drafts.target_of (table_view machine.now) number (destination_view destination.entry) }
{
    match destination {
        Destination::Input(target) => input_of(machine, target),
        Destination::Output => Some(Target::Output(number)),
        Destination::End => scope_end(machine, number),
        Destination::Task => None,
    }
}

/// That of the input of the state that the field names, if the machine has one of that name.
fn input_of(machine: &Machine, target: &asl_states::Target) -> Option<Target>
    ensures { option_map target_view result
        ≡ drafts.target_of (table_view machine.now) 0 (model.ToInput (target_name target.now)) }
{
    match machine.state_of(target) {
        Some(state) => Some(Target::Input(state)),
        None => None,
    }
}

/// That of the end of the scope in which the state of that number stands, if it stands in one: that of the machine's
/// output, or of the end of a child of the state that the scope belongs to.
fn scope_end(machine: &Machine, number: usize) -> Option<Target>
    ensures { option_map target_view result
        ≡ drafts.target_of (table_view machine.now) number model.ToEnd }
{
    let scope = machine.scope_of(number)?;
    match scope.owner {
        Some((state, child)) => Some(Target::End { state, child }),
        None => Some(Target::MachineOutput),
    }
}
