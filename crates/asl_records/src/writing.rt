//! Writing declared shapes and certificates.

ghost use Rattle.std.specs.Prelude.{◌≡◌, pos, IfOk, IfSome, Some, codes, if◌then◌else◌, map, option_map};
ghost use Rattle.serde_json.specs.Data.{Data};
ghost use Rattle.asl_model.specs.Json.{tree_of};
ghost use Rattle.asl_model.specs.RecordShapes.{HoldsForTask, HoldsForState};
ghost use Rattle.asl_model.specs.Records.{StandsForDeclared, StandsForCertificate};
ghost use Rattle.asl_model.specs.Tree as json;
ghost use Rattle.asl_model.specs.Written as model;
ghost use Rattle.asl_shape.specs.Adding.{with_field};
ghost use Rattle.asl_shape.specs.View.{view};
ghost use Rattle.asl_tree.specs.View as trees;
ghost use Rattle.asl_records.specs.View.{declared_view, task_view, tasks_view, certificate_view, entry_view, entries_view};
ghost use Rattle.asl_records.specs.Writing.{IsSpelled, AreSpelled, TasksAreSpelled, StatesAreSpelled, with_list, with_item};

use crate::records::{Certificate, Declared, StateShapes, TaskShapes};
use asl_shape::{Shape, write};
use asl_tree::{OutOfMemory, Tree};
use std::alloc::Global;
use std::collections::BTreeMap;

/// The tree that is written for declared shapes, `tasks` and each task's `takes` always in it. A JSON value that is this
/// tree stands for the same declared shapes.
///
/// Refuses only where an allocation was refused.
pub fn write_declared(alloc: Global, declared: &Declared) -> Result<Tree, OutOfMemory>
    ensures written { IfOk result
        (λ t. trees.view t ≡ model.written_declared (declared_view declared.now)) }
    ensures reads_back { IfOk result
        (λ t. (v : Data) → tree_of v ≡ Some (trees.view t)
        → StandsForDeclared v (declared_view declared.now)) }
{
    let mut fields = BTreeMap::new(alloc);
    add_shape(alloc, &mut fields, "input", &declared.input)?;
    let tasks = write_tasks(alloc, &declared.tasks)?;
    add(alloc, &mut fields, "tasks", Tree::Object(tasks))?;
    Ok(Tree::Object(fields))
}

/// The tree that is written for a certificate: `branches` stands in a state's entry where there are any, `item` where
/// there is one. Its version is that of [`Certificate::version`]. A JSON value that is this tree stands for the same
/// certificate.
///
/// Refuses only where an allocation was refused.
pub fn write_certificate(alloc: Global, certificate: &Certificate) -> Result<Tree, OutOfMemory>
    ensures written { IfOk result
        (λ t. trees.view t ≡ model.written_certificate (certificate_view certificate.now)) }
    ensures reads_back { IfOk result
        (λ t. (v : Data) → tree_of v ≡ Some (trees.view t)
        → StandsForCertificate v (certificate_view certificate.now)) }
{
    let mut fields = BTreeMap::new(alloc);
    add_shape(alloc, &mut fields, "output", &certificate.output)?;
    let states = write_states(alloc, &certificate.states)?;
    add(alloc, &mut fields, "states", Tree::Object(states))?;
    add_version(alloc, &mut fields, certificate.has_several(alloc)?)?;
    Ok(Tree::Object(fields))
}

/// The entries of the tasks.
fn write_tasks(
    alloc: Global,
    tasks: &BTreeMap<String, TaskShapes>,
) -> Result<BTreeMap<String, Tree>, OutOfMemory>
    ensures written { IfOk result
        (λ m. trees.entries_view m.entries
        ≡ model.written_entries model.written_task (tasks_view tasks.now.entries)) }
    ensures spelled { IfOk result (λ _. TasksAreSpelled (tasks_view tasks.now.entries)) }
{
    let mut entries = BTreeMap::new(alloc);
    for (name, task) in tasks.iter() {
        let key = name.clone()?;
        drop(entries.insert(key, write_task(alloc, task)?)?);
    }
    Ok(entries)
}

/// The entry of a task.
fn write_task(alloc: Global, task: &TaskShapes) -> Result<Tree, OutOfMemory>
    ensures written { IfOk result (λ t. trees.view t ≡ model.written_task (task_view task.now)) }
    ensures spelled { IfOk result (λ _. HoldsForTask IsSpelled (task_view task.now)) }
{
    let mut fields = BTreeMap::new(alloc);
    add_shape(alloc, &mut fields, "gives", &task.gives)?;
    add_shape(alloc, &mut fields, "takes", &task.takes)?;
    Ok(Tree::Object(fields))
}

/// The entries of the states.
fn write_states(
    alloc: Global,
    states: &BTreeMap<String, StateShapes>,
) -> Result<BTreeMap<String, Tree>, OutOfMemory>
    ensures written { IfOk result
        (λ m. trees.entries_view m.entries
        ≡ model.written_entries (model.written_state model.written_shape)
        (entries_view states.now.entries)) }
    ensures spelled { IfOk result (λ _. StatesAreSpelled (entries_view states.now.entries)) }
{
    let mut entries = BTreeMap::new(alloc);
    for (name, state) in states.iter() {
        let key = name.clone()?;
        drop(entries.insert(key, write_state(alloc, state)?)?);
    }
    Ok(entries)
}

/// The entry of a state.
fn write_state(alloc: Global, state: &StateShapes) -> Result<Tree, OutOfMemory>
    ensures written { IfOk result
        (λ t. trees.view t ≡ model.written_state model.written_shape (entry_view state.now)) }
    ensures spelled { IfOk result (λ _. HoldsForState IsSpelled (entry_view state.now)) }
{
    let mut fields = BTreeMap::new(alloc);
    let branches = write_shapes(alloc, &state.branches)?;
    add_list(alloc, &mut fields, "branches", branches)?;
    add_shape(alloc, &mut fields, "input", &state.input)?;
    add_item(alloc, &mut fields, &state.item)?;
    add_shape(alloc, &mut fields, "output", &state.output)?;
    Ok(Tree::Object(fields))
}

/// Adds `item` where there is one.
fn add_item(
    alloc: Global,
    fields: &mut BTreeMap<String, Tree>,
    item: &Option<Shape>,
) -> Result<(), OutOfMemory>
    ensures added { IfOk result
        (λ _. trees.entries_view fields.new.entries
        ≡ with_item model.written_shape (option_map view item.now)
        (trees.entries_view fields.old.entries)) }
    ensures spelled { IfOk result (λ _. IfSome (option_map view item.now) IsSpelled) }
{
    match item {
        Some(item) => add_shape(alloc, fields, "item", item),
        None => Ok(()),
    }
}

/// Each of the shapes.
fn write_shapes(alloc: Global, shapes: &Vec<Shape>) -> Result<Vec<Tree>, OutOfMemory>
    ensures written { IfOk result
        (λ v. trees.elements_view v.items
        ≡ model.written_list model.written_shape (map view shapes.now.items)) }
    ensures spelled { IfOk result (λ _. AreSpelled (map view shapes.now.items)) }
{
    let mut elements = Vec::with_capacity(alloc, shapes.len())?;
    for shape in shapes {
        elements.push(write(alloc, shape)?)?;
    }
    Ok(elements)
}

/// Adds a field with a shape.
fn add_shape(
    alloc: Global,
    fields: &mut BTreeMap<String, Tree>,
    name: &str,
    shape: &Shape,
) -> Result<(), OutOfMemory>
    ensures added { IfOk result
        (λ _. trees.entries_view fields.new.entries
        ≡ with_field name.now (model.written_shape (view shape.now))
        (trees.entries_view fields.old.entries)) }
    ensures spelled { IfOk result (λ _. IsSpelled (view shape.now)) }
{
    let value = write(alloc, shape)?;
    add(alloc, fields, name, value)
}

/// Adds a list where it has elements.
pub(crate) fn add_list(
    alloc: Global,
    fields: &mut BTreeMap<String, Tree>,
    name: &str,
    elements: Vec<Tree>,
) -> Result<(), OutOfMemory>
    ensures { IfOk result (λ _. trees.entries_view fields.new.entries
        ≡ with_list name.now (trees.elements_view elements.items)
        (trees.entries_view fields.old.entries)) }
{
    if !elements.is_empty() {
        add(alloc, fields, name, Tree::List(elements))?;
    }
    Ok(())
}

/// Adds the version of a certificate with shapes of several kinds, or without.
#[tactic(auto, using(crate::proofs::Writings::view_number))]
pub(crate) fn add_version(
    alloc: Global,
    fields: &mut BTreeMap<String, Tree>,
    several: bool,
) -> Result<(), OutOfMemory>
    ensures { IfOk result (λ _. trees.entries_view fields.new.entries
        ≡ with_field (codes "version") (json.Integer (pos (if several then 2 else 1)))
        (trees.entries_view fields.old.entries)) }
{
    if several {
        add(alloc, fields, "version", Tree::Int(2))
    } else {
        add(alloc, fields, "version", Tree::Int(1))
    }
}

/// Adds a field.
pub(crate) fn add(
    alloc: Global,
    fields: &mut BTreeMap<String, Tree>,
    name: &str,
    value: Tree,
) -> Result<(), OutOfMemory>
    ensures { IfOk result (λ _. trees.entries_view fields.new.entries
        ≡ with_field name.now (trees.view value) (trees.entries_view fields.old.entries)) }
{
    drop(fields.insert(String::from_str(alloc, name)?, value)?);
    Ok(())
}
