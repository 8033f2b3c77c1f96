//! The states of a machine, by number.

ghost use Rattle.std.specs.Prelude.{IfNone, IfSome};
ghost use Rattle.asl_warnings.specs.Rows.{HasNoRow, IsRowOf};

use asl_machine_table::Machine;
use asl_states::State;

/// A state with its number and its name.
#[derive(Clone, Copy)]
pub(crate) struct Row<'m> {
    pub(crate) number: usize,
    pub(crate) name: &'m str,
    pub(crate) state: &'m State,
}

/// The state of that number, with its name.
pub(crate) fn row_of(machine: &Machine, number: usize) -> Option<Row<'_>>
    ensures row { IfSome result (IsRowOf machine.now number) }
    ensures none { IfNone result (HasNoRow machine.now number) }
{
    let name = machine.name(number)?;
    let state = machine.state(number)?;
    Some(Row {
        number,
        name,
        state,
    })
}
