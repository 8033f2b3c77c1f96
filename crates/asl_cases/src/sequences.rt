//! How the path and the payloads of a run differ from those that a case expects.

ghost use Rattle.std.specs.Prelude.{◌≡◌, ◌↔◌, Some, None, All, map, option_map, slice_get, string_bytes, IfOk};
ghost use Rattle.std.specs.Option.{IsSome};
ghost use Rattle.asl_run.specs.Entries.{entry_view};
ghost use Rattle.asl_tree.specs.View.{view};
ghost use Rattle.asl_cases.specs.Judging.{AreAsked, asked_in, entered_in, path_of, payloads_of};

use crate::words::counted;
use asl_differences::{expected_found, first_difference, tree_text};
use asl_run::Entry;
use asl_suites::ExpectedPayloads;
use asl_tree::{OutOfMemory, Tree, quoted};
use std::alloc::Global;

/// Where the states that were entered, in order, differ first from those of the path.
pub(crate) fn difference_of_paths(
    alloc: Global,
    path: &[String],
    trace: &[Entry],
) -> Result<Option<String>, OutOfMemory>
    ensures { IfOk result (λ words. words ≡ None
        ↔ path_of (map entry_view trace.now) ≡ map string_bytes path.now) }
{
    let mut step = 0;
    for entry in trace {
        if let Some(found) = entered_state(entry) {
            let expected = name_at(path, step);
            if let Some(words) = difference_at_step(alloc, step, expected, found)? {
                return Ok(Some(words));
            }
            step += 1;
        }
    }
    match name_at(path, step) {
        Some(expected) => step_words(alloc, step, Some(expected), None),
        None => Ok(None),
    }
}

/// The name at a step of the path.
fn name_at(path: &[String], step: usize) -> Option<&str>
    ensures { option_map (λ name. name.now) result ≡ slice_get (map string_bytes path.now) step }
{
    match path.get(step) {
        Some(name) => Some(name),
        None => None,
    }
}

/// The state that an entry says is entered.
fn entered_state<'m>(entry: &Entry<'m>) -> Option<&'m str>
    ensures { option_map (λ name. name.now) result ≡ entered_in (entry_view entry.now) }
{
    match entry {
        Entry::Enter { state, .. } => Some(*state),
        _ => None,
    }
}

/// How the state that is entered at that step differs from the one that is expected there.
fn difference_at_step(
    alloc: Global,
    step: usize,
    expected: Option<&str>,
    found: &str,
) -> Result<Option<String>, OutOfMemory>
    ensures { IfOk result (λ words. words ≡ None
        ↔ option_map (λ name. name.now) expected.entry ≡ Some found.now) }
{
    match expected {
        Some(expected) if expected == found => Ok(None),
        _ => step_words(alloc, step, expected, Some(found)),
    }
}

/// What differs at a step of the path.
fn step_words(
    alloc: Global,
    step: usize,
    expected: Option<&str>,
    found: Option<&str>,
) -> Result<Option<String>, OutOfMemory>
    ensures { IfOk result IsSome }
{
    let step = counted(alloc, step)?;
    let expected = name_text(alloc, expected)?;
    let found = name_text(alloc, found)?;
    let words = expected_found(alloc, expected, found)?;
    Ok(Some(format!(in alloc; "path: at step {step} {words}")?))
}

/// The text of a name, where there is one.
fn name_text(alloc: Global, name: Option<&str>) -> Result<Option<String>, OutOfMemory> {
    match name {
        Some(name) => Ok(Some(quoted(alloc, name)?)),
        None => Ok(None),
    }
}

/// Where the payloads that tasks were asked with differ first from those of their states.
pub(crate) fn difference_of_payloads(
    alloc: Global,
    expected: &[ExpectedPayloads],
    trace: &[Entry],
) -> Result<Option<String>, OutOfMemory>
    ensures { IfOk result (λ words. words ≡ None
        ↔ All (AreAsked (map entry_view trace.now)) expected.now) }
{
    for of_state in expected {
        let name = of_state.state.as_str();
        if let Some(words) = difference_at_state(alloc, name, &of_state.payloads, trace)? {
            let name = quoted(alloc, name)?;
            return Ok(Some(format!(in alloc; "payloads of {name}: {words}")?));
        }
    }
    Ok(None)
}

/// Where the payloads of a state's task, in order, differ first from those that are expected.
fn difference_at_state(
    alloc: Global,
    name: &str,
    expected: &[Tree],
    trace: &[Entry],
) -> Result<Option<String>, OutOfMemory>
    ensures { IfOk result (λ words. words ≡ None
        ↔ payloads_of name.now (map entry_view trace.now) ≡ map view expected.now) }
{
    let mut number = 0;
    for entry in trace {
        if let Some(found) = payload_of(name, entry) {
            let tree = tree_at(expected, number);
            if let Some(words) = difference_of_payload(alloc, number, tree, found)? {
                return Ok(Some(words));
            }
            number += 1;
        }
    }
    match tree_at(expected, number) {
        Some(tree) => one_sided(alloc, number, Some(tree), None),
        None => Ok(None),
    }
}

/// How the payload of that number differs from the one that is expected there.
fn difference_of_payload(
    alloc: Global,
    number: usize,
    expected: Option<&Tree>,
    found: &Tree,
) -> Result<Option<String>, OutOfMemory>
    ensures { IfOk result (λ words. words ≡ None
        ↔ option_map (λ tree. view tree.now) expected.entry ≡ Some (view found.now)) }
{
    let Some(tree) = expected else {
        return one_sided(alloc, number, None, Some(found));
    };
    match first_difference(alloc, tree, found)? {
        Some(difference) => {
            let number = counted(alloc, number)?;
            let words = difference.words(alloc)?;
            Ok(Some(format!(in alloc; "number {number}: {words}")?))
        }
        None => Ok(None),
    }
}

/// The payload of that number.
fn tree_at(payloads: &[Tree], number: usize) -> Option<&Tree>
    ensures { option_map (λ tree. view tree.now) result ≡ slice_get (map view payloads.now) number }
{
    payloads.get(number)
}

/// The payload that an entry says the task of the state is asked with.
fn payload_of<'e>(name: &str, entry: &'e Entry<'_>) -> Option<&'e Tree>
    ensures { option_map (λ tree. view tree.now) result
        ≡ asked_in name.now (entry_view entry.now) }
{
    match entry {
        Entry::Task { state, payload, .. } if *state == name => Some(payload),
        _ => None,
    }
}

/// What differs where there is a payload on one side alone.
fn one_sided(
    alloc: Global,
    number: usize,
    expected: Option<&Tree>,
    found: Option<&Tree>,
) -> Result<Option<String>, OutOfMemory>
    ensures { IfOk result IsSome }
{
    let number = counted(alloc, number)?;
    let expected = payload_text(alloc, expected)?;
    let found = payload_text(alloc, found)?;
    let words = expected_found(alloc, expected, found)?;
    Ok(Some(format!(in alloc; "number {number}: {words}")?))
}

/// The text of a payload, where there is one.
fn payload_text(alloc: Global, payload: Option<&Tree>) -> Result<Option<String>, OutOfMemory> {
    match payload {
        Some(payload) => Ok(Some(tree_text(alloc, payload)?)),
        None => Ok(None),
    }
}
