//! Reading declared shapes.

ghost use Rattle.std.specs.Prelude.{◌≡◌, [], IfOk, IfErr, OnOk, codes};
ghost use Rattle.asl_model.specs.Records.{StandsForDeclared, declared_complaints, declared_from, declared_reading, object_complaints, entries_complaints, entries_from, task_rows, task_from};
ghost use Rattle.asl_tree.specs.View.{view, entries_view};
ghost use Rattle.asl_records.specs.View.{declared_view, task_view, tasks_view};
ghost use Rattle.asl_records.specs.Refusal.{IsDeclaredRefusal};
ghost use Rattle.asl_records.specs.Proper.{AreProperTasks, IsProperDeclared, IsProperTask};
ghost use Rattle.asl_records.specs.Parts.{TellsOneOf, members_there, tasks_complaints};
ghost use Rattle.asl_records.specs.Values.{For, IsValue, as_members, as_value, value_in};

use crate::fields::{Reader, entries, stated};
use crate::records::{Declared, TaskShapes};
use crate::refusals::ReadFault;
use asl_shape::Shape;
use asl_tree::Tree;
use std::alloc::Global;
use std::collections::BTreeMap;

/// The declared shapes that a tree stands for, each of them proper: shapes of several kinds, with a list of types, may be
/// among them. Refuses where a rule is broken, with a fault that stands there, and where an allocation was refused.
pub fn read_declared(alloc: Global, tree: &Tree) -> Result<Declared, ReadFault>
    ensures declared { IfOk result (λ declared. For (IsValue (view tree.now))
        (λ v. StandsForDeclared v (declared_view declared))) }
    ensures proper { IfOk result IsProperDeclared }
    ensures refused { IfErr result
        (λ fault. For (IsValue (view tree.now)) (λ v. IsDeclaredRefusal v fault)) }
{
    read_record(alloc, tree)
}

/// The same, by the complaints about it.
fn read_record(alloc: Global, tree: &Tree) -> Result<Declared, ReadFault>
    ensures right { OnOk result (declared_complaints (as_value (view tree.now)) ≡ []) }
    ensures declared { IfOk result
        (λ declared. declared_view declared ≡ declared_from (as_value (view tree.now))) }
    ensures proper { IfOk result IsProperDeclared }
    ensures refused { IfErr result (TellsOneOf (declared_complaints (as_value (view tree.now)))) }
{
    let record = Reader {
        alloc,
        name: "",
        several: true,
        listed: None,
    };
    let fields = record.fields(tree)?;
    record.check_fields(fields, &["input", "tasks"])?;
    Ok(Declared {
        input: record.required_shape("input", fields)?,
        tasks: read_tasks(alloc, fields)?,
    })
}

/// The shapes of all tasks, which stand in the field `tasks`.
fn read_tasks(
    alloc: Global,
    fields: &BTreeMap<String, Tree>,
) -> Result<BTreeMap<String, TaskShapes>, ReadFault>
    ensures right { OnOk result
        (tasks_complaints (value_in (codes "tasks") fields.now.entries) ≡ []) }
    ensures tasks { IfOk result (λ tasks. tasks_view tasks.entries
        ≡ entries_from task_from (members_there (value_in (codes "tasks") fields.now.entries))) }
    ensures proper { IfOk result (λ tasks. AreProperTasks tasks.entries) }
    ensures refused { IfErr result
        (TellsOneOf (tasks_complaints (value_in (codes "tasks") fields.now.entries))) }
{
    match stated(fields, "tasks") {
        Some(tasks) => read_entries(alloc, entries(alloc, "tasks", tasks)?),
        None => Ok(BTreeMap::new(alloc)),
    }
}

/// The shapes of the tasks of these entries.
fn read_entries(
    alloc: Global,
    entries: &BTreeMap<String, Tree>,
) -> Result<BTreeMap<String, TaskShapes>, ReadFault>
    ensures right { OnOk result (entries_complaints declared_reading task_rows
        (as_members (entries_view entries.now.entries)) ≡ []) }
    ensures tasks { IfOk result (λ tasks. tasks_view tasks.entries
        ≡ entries_from task_from (as_members (entries_view entries.now.entries))) }
    ensures proper { IfOk result (λ tasks. AreProperTasks tasks.entries) }
    ensures refused { IfErr result (TellsOneOf (entries_complaints declared_reading task_rows
        (as_members (entries_view entries.now.entries)))) }
{
    let mut tasks = BTreeMap::new(alloc);
    for (name, task) in entries.iter() {
        let shapes = read_task(alloc, name, task)?;
        let key = name.clone()?;
        drop(tasks.insert(key, shapes)?);
    }
    Ok(tasks)
}

/// The shapes of the task of this name.
fn read_task(alloc: Global, name: &str, tree: &Tree) -> Result<TaskShapes, ReadFault>
    ensures right { OnOk result (object_complaints declared_reading name.now task_rows
        (as_value (view tree.now)) ≡ []) }
    ensures shapes { IfOk result
        (λ shapes. task_view shapes ≡ task_from (as_value (view tree.now))) }
    ensures proper { IfOk result IsProperTask }
    ensures refused { IfErr result (TellsOneOf (object_complaints declared_reading name.now
        task_rows (as_value (view tree.now)))) }
{
    let task = Reader {
        alloc,
        name,
        several: true,
        listed: None,
    };
    let fields = task.fields(tree)?;
    task.check_fields(fields, &["takes", "gives"])?;
    Ok(TaskShapes {
        takes: task.optional_shape("takes", fields)?.unwrap_or(Shape::Any),
        gives: task.required_shape("gives", fields)?,
    })
}
