//! The order in which the states of a machine are walked.

ghost use Rattle.std.specs.Prelude.{◌≡◌, IfOk, map};
ghost use Rattle.asl_model.specs.ShapeSpelling.{are_distinct};
ghost use Rattle.asl_draft_laws.specs.Drafts.{rows_of};
ghost use Rattle.asl_machine_table.specs.Table.{table_view};
ghost use Rattle.asl_drafts.specs.Order.{AreOrdered, IsPlaced};

use asl_machine_table::Machine;
use asl_tree::OutOfMemory;
use std::alloc::Global;
use std::collections::BTreeMap;

/// The numbers of the machine's states, in byte order of their names.
pub fn order_of(alloc: Global, machine: &Machine) -> Result<Vec<usize>, OutOfMemory>
    ensures { IfOk result (λ numbers. AreOrdered (table_view machine.now) numbers.items) }
{
    let mut named = BTreeMap::new(alloc);
    let count = machine.states();
    for passed in 0..count {
        let number = count - passed - 1;
        if let Some(name) = machine.name(number) {
            drop(named.insert(name, number)?);
        }
    }
    let mut numbers = Vec::with_capacity(alloc, named.len())?;
    for (_, number) in named.iter() {
        numbers.push(*number)?;
    }
    Ok(numbers)
}
