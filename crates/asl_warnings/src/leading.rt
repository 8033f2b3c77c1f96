//! Which states a machine's graph leads to.

ghost use Rattle.std.specs.Prelude.{◌≡◌, ◌<◌, ◌↔◌, ℕ, IfOk, OnOk, length, option_map, option_to_list, slice_get, true};
ghost use Rattle.asl_machine_table.specs.Table.{states_in, table_view};
ghost use Rattle.asl_warnings.specs.Adding.{Adds, is_marked};
ghost use Rattle.asl_warnings.specs.Led.{IsLed, named_by, start_of};

use crate::marks::Marks;
use asl_machine_table::Machine;
use asl_tree::OutOfMemory;
use std::alloc::Global;

/// Marks each state to which a way leads from the machine's start: by `Next`, `Default`, choice rules and catchers, and from
/// a state to the starts of its own scopes. Each state is looked at once.
pub(crate) fn mark_led(alloc: Global, machine: &Machine) -> Result<Marks, OutOfMemory>
    ensures { IfOk result (λ marks. (number : ℕ) → number < length (states_in machine.now)
        → (is_marked marks number ≡ true ↔ IsLed machine.now number)) }
{
    let count = machine.states();
    let mut marks = Marks::new(alloc, count)?;
    mark_start(machine, &mut marks)?;
    for place in 0..count {
        let Some(number) = marks.nth(place) else {
            return Ok(marks);
        };
        mark_named(machine, &mut marks, number)?;
    }
    Ok(marks)
}

/// Marks the machine's start state.
pub(crate) fn mark_start(machine: &Machine, marks: &mut Marks) -> Result<(), OutOfMemory>
    ensures { OnOk result (Adds marks.old marks.new
        (option_to_list (option_map start_of (slice_get (table_view machine.now).placements 0)))) }
{
    match machine.scope_of(0) {
        Some(scope) => marks.mark(scope.start),
        None => Ok(()),
    }
}

/// Marks each state that the state of that number names, if there is one.
fn mark_named(machine: &Machine, marks: &mut Marks, number: usize) -> Result<(), OutOfMemory>
    ensures { OnOk result (Adds marks.old marks.new
        (named_by (slice_get (states_in machine.now) number))) }
{
    match machine.state(number) {
        Some(state) => marks.mark_targets(state),
        None => Ok(()),
    }
}
