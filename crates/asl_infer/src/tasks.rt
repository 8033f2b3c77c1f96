//! The shapes that are declared of tasks, by number.

ghost use Rattle.std.specs.Prelude.{◌≡◌, length, IfOk};
ghost use Rattle.asl_numbered.specs.Expansion.{Keeps};
ghost use Rattle.asl_records.specs.View.{declared_view};
ghost use Rattle.asl_machine_table.specs.Table.{table_view};
ghost use Rattle.asl_infer.specs.Tasks.{AreTasks, IsTaskOf};

use asl_drafts::Store;
use asl_machine_table::Machine;
use asl_numbered::Node;
use asl_records::Declared;
use asl_tree::OutOfMemory;
use std::alloc::Global;

/// The numbers of a task's shapes.
#[derive(Clone, Copy)]
pub(crate) struct TaskNumbers {
    /// Of its payload.
    pub(crate) takes: usize,
    /// Of its result.
    pub(crate) gives: usize,
}

/// The numbers of the shapes of each state's task, by the state's number: those of Any where none is declared.
pub(crate) fn task_numbers(
    alloc: Global,
    machine: &Machine,
    declared: &Declared,
    store: &mut Store,
) -> Result<Vec<TaskNumbers>, OutOfMemory>
    ensures tasks { IfOk result
        (λ tasks. AreTasks (declared_view declared.now) (table_view machine.now).names
        store.new tasks.items) }
    ensures many { IfOk result
        (λ tasks. length tasks.items ≡ length (table_view machine.now).states) }
    ensures keeps { Keeps store.old store.new }
{
    let mut tasks = Vec::new(alloc);
    for number in 0..machine.states() {
        let name = machine.name(number).unwrap_or("");
        tasks.push(task_of(declared, name, store)?)?;
    }
    Ok(tasks)
}

/// The numbers of the shapes of the task of the state of that name.
fn task_of(declared: &Declared, name: &str, store: &mut Store) -> Result<TaskNumbers, OutOfMemory>
    ensures task { IfOk result (IsTaskOf (declared_view declared.now) name.now store.new) }
    ensures keeps { Keeps store.old store.new }
{
    match declared.task(name) {
        Some(task) => Ok(TaskNumbers {
            takes: store.add(&task.takes)?,
            gives: store.add(&task.gives)?,
        }),
        None => {
            let any = store.put(Node::Any)?;
            Ok(TaskNumbers {
                takes: any,
                gives: any,
            })
        }
    }
}
