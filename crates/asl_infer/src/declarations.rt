//! Tasks that aren't declared, and declared tasks that no state is.

ghost use Rattle.std.specs.Prelude.{◌≡◌, option_map, IfErr, OnOk};
ghost use Rattle.asl_draft_laws.specs.Drafts.{rows_of, undeclared, unknown};
ghost use Rattle.asl_records.specs.View.{declared_view};
ghost use Rattle.asl_machine_table.specs.Table.{table_view};
ghost use Rattle.asl_check.specs.Rules.{names_task_in};
ghost use Rattle.asl_drafts.specs.Order.{AreOrdered};
ghost use Rattle.asl_infer.specs.Declarations.{AreNamed, IsFirst, IsFirstAt, IsFirstOf, NamesTell};
ghost use Rattle.asl_infer.specs.Declarations.{first_of, misnamed_view};

use crate::inferring::InferRefusal;
use crate::telling::{Breach, finding};
use asl_machine_table::Machine;
use asl_records::Declared;
use asl_state_edges::FindingFault;
use std::alloc::Global;

/// A name for which a rule about what is declared is broken. No tree shows that.
#[derive(Clone, Copy, Drop)]
pub(crate) struct Misnamed<'n> {
    name: &'n str,
    field: &'static str,
    fault: FindingFault,
}

/// Refuses where a Task isn't declared or a declared task names no Task, with the first such name in byte order. The
/// numbers are those of the machine's states in the order of their names.
pub(crate) fn check_tasks(
    alloc: Global,
    machine: &Machine,
    declared: &Declared,
    order: &[usize],
) -> Result<(), InferRefusal>
    requires { AreOrdered (table_view machine.now) order.now }
    ensures named { OnOk result (AreNamed (table_view machine.now) (declared_view declared.now)) }
    ensures told { IfErr result (NamesTell (table_view machine.now) (declared_view declared.now)) }
{
    let undeclared = first_undeclared(machine, declared, order);
    let unknown = first_unknown(machine, declared);
    match earlier(undeclared, unknown) {
        Some(first) => {
            let breach = Breach {
                field: first.field,
                fault: first.fault,
                example: None,
            };
            Err(InferRefusal::Finding(finding(alloc, first.name, breach)?))
        }
        None => Ok(()),
    }
}

/// The first name of a Task that isn't declared.
fn first_undeclared<'n>(
    machine: &'n Machine,
    declared: &Declared,
    order: &[usize],
) -> Option<Misnamed<'n>>
    requires { AreOrdered (table_view machine.now) order.now }
    ensures { IsFirst (table_view machine.now)
        (undeclared (declared_view declared.now) (rows_of (table_view machine.now))) result }
{
    let mut first = None;
    for number in order {
        first = earlier(first, undeclared(machine, declared, *number));
    }
    first
}

/// The name of the state of that number, where it is a Task that isn't declared.
fn undeclared<'n>(machine: &'n Machine, declared: &Declared, number: usize) -> Option<Misnamed<'n>>
    ensures { IsFirstAt (table_view machine.now) (declared_view declared.now) number result }
{
    let name = machine.name(number)?;
    let state = machine.state(number)?;
    if state.kind.is_task() && declared.task(name).is_none() {
        Some(Misnamed {
            name,
            field: "Resource",
            fault: FindingFault::TaskUndeclared,
        })
    } else {
        None
    }
}

/// The first declared name that no Task has.
fn first_unknown<'n>(machine: &Machine, declared: &'n Declared) -> Option<Misnamed<'n>>
    ensures { IsFirst (table_view machine.now)
        (unknown (rows_of (table_view machine.now)) (declared_view declared.now).tasks) result }
{
    let mut first = None;
    for (name, _) in declared.tasks.iter() {
        first = earlier(first, unknown(machine, name));
    }
    first
}

/// The name, where no Task has it.
fn unknown<'n>(machine: &Machine, name: &'n str) -> Option<Misnamed<'n>>
    ensures { IsFirstOf (table_view machine.now) name.now result }
{
    if names_task(machine, name) {
        None
    } else {
        Some(Misnamed {
            name,
            field: "tasks",
            fault: FindingFault::TaskUnknown,
        })
    }
}

/// Whether a Task has that name.
fn names_task(machine: &Machine, name: &str) -> bool
    ensures { result ≡ names_task_in (table_view machine.now) name.now }
{
    let Some(number) = machine.state_named(name) else {
        return false;
    };
    match machine.state(number) {
        Some(state) => state.kind.is_task(),
        None => false,
    }
}

/// The one whose name comes first in byte order, the first one where both are the same.
fn earlier<'n>(first: Option<Misnamed<'n>>, second: Option<Misnamed<'n>>) -> Option<Misnamed<'n>>
    ensures { option_map misnamed_view result
        ≡ first_of (option_map misnamed_view first.entry) (option_map misnamed_view second.entry) }
{
    match first {
        Some(one) => match second {
            Some(other) if other.name < one.name => second,
            _ => first,
        },
        None => second,
    }
}
