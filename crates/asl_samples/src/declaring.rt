//! Declared shapes of a machine, to begin with.
ghost use Rattle.std.specs.Prelude.{◌≡◌, ℕ, IfOk, IsTrue, Some, is_some, length, option_map};
ghost use Rattle.asl_model.specs.Certificate.{under};
ghost use Rattle.asl_model.specs.Names.{StateName};
ghost use Rattle.asl_model.specs.Shape.{Any};
ghost use Rattle.asl_records.specs.View.{declared_view, task_view, tasks_view};
ghost use Rattle.asl_machine_table.specs.Table.{table_view};
ghost use Rattle.asl_samples.specs.Tasks as model;
ghost use Rattle.asl_samples.specs.Tasks.{AreTasksOf};

use asl_machine_table::Machine;
use asl_records::{Declared, TaskShapes};
use asl_shape::Shape;
use asl_states::Kind;
use asl_tree::OutOfMemory;
use std::alloc::Global;
use std::collections::BTreeMap;

/// The declared shapes in which the machine's input, and what each of its Tasks takes and gives, may be any tree; the
/// Tasks are those of all scopes. Refuses only where an allocation was refused.
pub fn declare(alloc: Global, machine: &Machine) -> Result<Declared, OutOfMemory>
    ensures input { IfOk result (λ declared. (declared_view declared).input ≡ Any) }
    ensures each { IfOk result (λ declared. (i : ℕ) (n : StateName)
        → model.task_at (table_view machine.now) i ≡ Some n
        → under n (declared_view declared).tasks ≡ Some model.any_task) }
    ensures others { IfOk result (λ declared. (n : StateName)
        → IsTrue (is_some (under n (declared_view declared).tasks))
        → (i : ℕ) × (model.task_at (table_view machine.now) i ≡ Some n)) }
{
    let tasks = any_of_tasks(alloc, machine)?;
    Ok(Declared {
        input: Shape::Any,
        tasks,
    })
}

/// For each Task of the machine, by its name, that it takes and gives any tree.
fn any_of_tasks(
    alloc: Global,
    machine: &Machine,
) -> Result<BTreeMap<String, TaskShapes>, OutOfMemory>
    ensures { IfOk result (λ tasks. AreTasksOf (table_view machine.now)
        (length (table_view machine.now).states) (tasks_view tasks.entries)) }
{
    let mut tasks = BTreeMap::new(alloc);
    for number in 0..machine.states() {
        if let Some(name) = task_at(machine, number) {
            let name = String::from_str(alloc, name)?;
            drop(tasks.insert(name, any_task())?);
        }
    }
    Ok(tasks)
}

/// The name of the state of that number, where it is a Task.
fn task_at(machine: &Machine, number: usize) -> Option<&str>
    ensures { option_map (λ n. n.now) result ≡ model.task_at (table_view machine.now) number }
{
    match machine.state(number)?.kind {
        Kind::Task { .. } => machine.name(number),
        Kind::Pass { .. }
        | Kind::Choice { .. }
        | Kind::Wait { .. }
        | Kind::Succeed
        | Kind::Fail { .. }
        | Kind::Parallel { .. }
        | Kind::Map { .. } => None,
    }
}

/// The shapes of a task that takes and gives any tree.
fn any_task() -> TaskShapes
    ensures { task_view result ≡ model.any_task }
{
    TaskShapes {
        takes: Shape::Any,
        gives: Shape::Any,
    }
}
