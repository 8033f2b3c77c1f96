//! Where a run has failed.

use asl_differences::quoted_text;
use asl_run::Entry;
use asl_tree::OutOfMemory;
use std::alloc::Global;

/// An error and its cause.
type Failure<'e> = (&'e str, &'e str);

/// The state at which a run has failed with that error and cause, as ` at STATE`; where a branch or an item of that state
/// has failed, behind it where that has, as `, in it at STATE`, with its error where that is another one. Refuses only
/// where an allocation was refused.
pub(crate) fn failed_at(
    alloc: Global,
    trace: &[Entry<'_>],
    error: &str,
    cause: &str,
) -> Result<String, OutOfMemory> {
    let mut told = String::new(alloc);
    let mut place = Vec::new(alloc);
    let mut failure = (error, cause);
    for _level in 0..trace.len() {
        let Some((entry, state)) = last_at(trace, &place) else {
            break;
        };
        let state = quoted_text(alloc, state)?;
        write!(told, " at {state}")?;
        let Entry::BranchFailed {
            child,
            error,
            cause,
            ..
        } = entry
        else {
            break;
        };
        push_failure(alloc, &mut told, failure, (error, cause))?;
        place.push(*child)?;
        failure = (error, cause);
    }
    Ok(told)
}

/// The last entry on a state at that place, and the state's name.
fn last_at<'e, 'm>(trace: &'e [Entry<'m>], place: &[usize]) -> Option<(&'e Entry<'m>, &'e str)> {
    for entry in trace.iter().rev() {
        match told_of(entry) {
            Some((at, state)) if at == place => return Some((entry, state)),
            _ => {}
        }
    }
    None
}

/// The place and the name of the state of which the entry tells.
fn told_of<'e>(entry: &'e Entry<'_>) -> Option<(&'e [usize], &'e str)> {
    match entry {
        Entry::Enter { at, state, .. }
        | Entry::Task { at, state, .. }
        | Entry::Leave { at, state, .. }
        | Entry::Raise { at, state, .. }
        | Entry::TaskFailed { at, state, .. }
        | Entry::BranchFailed { at, state, .. }
        | Entry::Retried { at, state, .. }
        | Entry::Caught { at, state, .. } => Some((at, state)),
        Entry::Ended { .. } => None,
    }
}

/// Puts down that a branch or an item has failed, and with what, where that is another failure than the one around it.
fn push_failure(
    alloc: Global,
    told: &mut String,
    around: Failure<'_>,
    inner: Failure<'_>,
) -> Result<(), OutOfMemory> {
    told.push_str(", in it")?;
    if inner.0 != around.0 || inner.1 != around.1 {
        let error = error_text(alloc, inner.0, inner.1)?;
        write!(told, " {error}")?;
    }
    Ok(())
}

/// An error, with its cause in brackets, where that isn't empty.
pub(crate) fn error_text(alloc: Global, error: &str, cause: &str) -> Result<String, OutOfMemory> {
    let error = quoted_text(alloc, error)?;
    if cause.is_empty() {
        return Ok(error);
    }
    let cause = quoted_text(alloc, cause)?;
    Ok(format!(in alloc; "{error} ({cause})")?)
}
