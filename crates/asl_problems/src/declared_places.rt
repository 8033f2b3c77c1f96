//! Places in declared shapes.
use crate::found::At;
use crate::problems::{Kind, Problem};
use asl_faults::{Index, faults_of_shape};
use asl_places::{Member, Spot};
use asl_records::RecordFault;
use asl_tree::OutOfMemory;
use std::alloc::Global;

/// Where complaints stand that tell the same as that one: one place or more.
pub(crate) fn places_in_declared(
    alloc: Global,
    index: &Index<'_, '_>,
    text: &[u8],
    problem: &Problem,
) -> Result<Vec<At>, OutOfMemory> {
    let spot = spot_in_declared(index, problem);
    let mut places = Vec::new(alloc);
    if let Kind::Record(RecordFault::BadShape(_)) = problem.kind {
        for found in faults_of_shape(alloc, index, text, spot)? {
            places.push(At {
                byte: index.offset(found.spot),
                words: found.words,
            })?;
        }
    }
    if places.is_empty() {
        places.push(At::byte(index.offset(spot)))?;
    }
    Ok(places)
}

/// Where a problem is told: at the name of a task, of a task that no state has; or at the value of the field, at the name
/// of the task that hasn't that field, or at the whole.
pub(crate) fn spot_in_declared(index: &Index<'_, '_>, problem: &Problem) -> Spot {
    let root = index.root();
    let field = problem.field.as_deref();
    let is_of_shape = matches!(problem.kind, Kind::Record(RecordFault::BadShape(_)));
    let name = match (problem.state.as_deref(), field) {
        (Some(name), _) => name,
        // The shapes of a task whose name is empty.
        (None, Some("takes" | "gives")) if is_of_shape => "",
        (None, _) => return value_in(index, root, field).unwrap_or(root),
    };
    let Some(task) = task_of(index, name) else {
        return root;
    };
    match problem.kind {
        Kind::Record(_) => value_in(index, task.value, field).unwrap_or(task.name),
        _ => task.name,
    }
}

/// The entry of a task.
fn task_of(index: &Index<'_, '_>, name: &str) -> Option<Member> {
    let tasks = index.member(index.root(), "tasks")?;
    index.member(tasks.value, name)
}

/// The value of a field of the object, where it is there.
fn value_in(index: &Index<'_, '_>, object: Spot, field: Option<&str>) -> Option<Spot> {
    let found = index.member(object, field?)?;
    Some(found.value)
}
