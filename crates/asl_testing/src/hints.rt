//! What a run here takes otherwise than Step Functions does, where a case may fail by it.

use asl_machine::{Catcher, Kind, Machine, Retrier, Settings};
use asl_run::Entry;
use asl_tree::{OutOfMemory, quoted};
use std::alloc::Global;

/// The error that a Parallel with a failed branch has.
const BRANCH_FAILED: &str = "States.BranchFailed";
/// The name that stands in Step Functions for every error of a task but that of a timeout.
const TASK_FAILED: &str = "States.TaskFailed";

/// That of a timeout.
const TIMEOUT: &str = "States.Timeout";
/// The name that stands for every error.
const ALL: &str = "States.ALL";

/// The words of `difference`, and behind them what was taken otherwise in the run than by Step Functions: the first error
/// that a retrier or a catcher of its state would have been for there.
pub(crate) fn with_hint(
    alloc: Global,
    machine: &Machine,
    trace: &[Entry],
    difference: String,
) -> Result<String, OutOfMemory> {
    for entry in trace {
        if let Some(hint) = hint_on(alloc, machine, entry)? {
            return Ok(format!(in alloc; "{difference}; {hint}")?);
        }
    }
    Ok(difference)
}

/// What is taken otherwise of what that entry tells.
fn hint_on(alloc: Global, machine: &Machine, entry: &Entry) -> Result<Option<String>, OutOfMemory> {
    match entry {
        Entry::TaskFailed { state, error, .. } => hint_on_task(alloc, machine, state, error),
        Entry::BranchFailed { state, error, .. } => hint_on_branch(alloc, machine, state, error),
        _ => Ok(None),
    }
}

/// Of the failure of a task, where Step Functions takes the error by `States.TaskFailed` and it isn't taken there here.
fn hint_on_task(
    alloc: Global,
    machine: &Machine,
    name: &str,
    error: &str,
) -> Result<Option<String>, OutOfMemory> {
    if error == TIMEOUT || !is_taken_otherwise(machine, name, error) {
        return Ok(None);
    }
    let name = quoted(alloc, name)?;
    let error = quoted(alloc, error)?;
    Ok(Some(format!(in alloc;
        "at {name} {TASK_FAILED} takes no error but the one of that name, while Step Functions takes {error} by it"
    )?))
}

/// Whether Step Functions takes an error of a task by `States.TaskFailed` at a retrier or a catcher of the state of that name by
/// which it isn't taken here.
fn is_taken_otherwise(machine: &Machine, name: &str, error: &str) -> bool {
    match machine.state_named(name) {
        Some(number) => match machine.state(number) {
            Some(state) => {
                retriers_differ(&state.settings.retriers, error)
                    || catchers_differ(&state.settings.catchers, error)
            }
            None => false,
        },
        None => false,
    }
}

/// Whether the first retrier that takes the error in Step Functions takes it by `States.TaskFailed`.
fn retriers_differ(retriers: &[Retrier], error: &str) -> bool {
    retriers
        .iter()
        .find_map(|it| is_by_task_failed(&it.error_equals, error))
        .unwrap_or(false)
}

/// So of the first catcher.
fn catchers_differ(catchers: &[Catcher], error: &str) -> bool {
    catchers
        .iter()
        .find_map(|it| is_by_task_failed(&it.error_equals, error))
        .unwrap_or(false)
}

/// Whether an error of a task is taken in Step Functions by `States.TaskFailed` alone among these names; none where it isn't
/// taken by them.
fn is_by_task_failed(names: &[String], error: &str) -> Option<bool> {
    if has(names, error) || has(names, ALL) {
        Some(false)
    } else if has(names, TASK_FAILED) {
        Some(true)
    } else {
        None
    }
}

/// Of the failure of a branch of a Parallel, where that takes the branch's own error.
fn hint_on_branch(
    alloc: Global,
    machine: &Machine,
    name: &str,
    error: &str,
) -> Result<Option<String>, OutOfMemory> {
    if error == BRANCH_FAILED || !is_parallel(machine, name) || !takes(machine, name, error) {
        return Ok(None);
    }
    let name = quoted(alloc, name)?;
    let error = quoted(alloc, error)?;
    Ok(Some(format!(in alloc;
        "{name} fails with {BRANCH_FAILED}, while in Step Functions it has the error of its branch, {error}"
    )?))
}

/// Whether the state of that name is a Parallel.
fn is_parallel(machine: &Machine, name: &str) -> bool {
    match machine.state_named(name) {
        Some(number) => match machine.state(number) {
            Some(state) => matches!(state.kind, Kind::Parallel { .. }),
            None => false,
        },
        None => false,
    }
}

/// Whether a retrier or a catcher of the state of that name takes an error by that name.
fn takes(machine: &Machine, name: &str, error: &str) -> bool {
    match machine.state_named(name) {
        Some(number) => match machine.state(number) {
            Some(state) => is_taken(&state.settings, error),
            None => false,
        },
        None => false,
    }
}

/// Whether a retrier or a catcher takes an error by that name.
fn is_taken(settings: &Settings, error: &str) -> bool {
    settings
        .retriers
        .iter()
        .any(|it| has(&it.error_equals, error))
        || settings
            .catchers
            .iter()
            .any(|it| has(&it.error_equals, error))
}

/// Whether one of the names is that of the error.
fn has(names: &[String], error: &str) -> bool {
    names.iter().any(|it| it.as_str() == error)
}
