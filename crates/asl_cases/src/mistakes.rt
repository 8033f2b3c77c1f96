//! Names in a case that the machine doesn't have.

use crate::asking::stands_in_map;
use crate::words::counted;
use asl_machine_table::Machine;
use asl_suites::{CaseAnswers, Expected, ExpectedPayloads, Similar};
use asl_tree::{OutOfMemory, quoted};
use std::alloc::Global;

/// The first name in the answers of a case and in what it expects that the machine doesn't have, in words, with one that may
/// be meant, where one is like it; none where it has them all. Answers and payloads need the name of a Task, answers by
/// item one in a Map, the path needs names of states.
///
/// Refused: want of memory.
pub fn mistake_in(
    alloc: Global,
    machine: &Machine,
    answers: &CaseAnswers,
    expected: &Expected,
) -> Result<Option<String>, OutOfMemory> {
    if let Some(why) = mistake_in_answers(alloc, machine, answers)? {
        return Ok(Some(format!(in alloc; "answers: {why}")?));
    }
    if let Some(path) = &expected.path {
        let mistake = mistake_in_path(alloc, machine, path)?;
        if mistake.is_some() {
            return Ok(mistake);
        }
    }
    mistake_in_payloads(alloc, machine, &expected.payloads)
}

/// The first name of a state in the answers that the machine doesn't have as the name of a Task, or, where they are by
/// item, of one in a Map, in words; none where it has them all.
///
/// Refused: want of memory.
pub fn mistake_in_answers(
    alloc: Global,
    machine: &Machine,
    answers: &CaseAnswers,
) -> Result<Option<String>, OutOfMemory> {
    for (state, by_item) in answers.states() {
        if let Some(why) = why_no_task(alloc, machine, state, by_item)? {
            return Ok(Some(why));
        }
    }
    Ok(None)
}

/// The first mistake in the payloads.
fn mistake_in_payloads(
    alloc: Global,
    machine: &Machine,
    payloads: &[ExpectedPayloads],
) -> Result<Option<String>, OutOfMemory> {
    for of_state in payloads {
        if let Some(why) = why_no_task(alloc, machine, &of_state.state, false)? {
            return Ok(Some(format!(in alloc; "payloads: {why}")?));
        }
    }
    Ok(None)
}

/// The first mistake in the path.
fn mistake_in_path(
    alloc: Global,
    machine: &Machine,
    path: &[String],
) -> Result<Option<String>, OutOfMemory> {
    for (step, state) in path.iter().enumerate() {
        if machine.state_named(state).is_none() {
            let step = counted(alloc, step)?;
            let why = words_on_none(alloc, machine, state, false)?;
            return Ok(Some(format!(in alloc; "path: at step {step} {why}")?));
        }
    }
    Ok(None)
}

/// Why that is no name of a Task, or, where it is to have answers by item, of none in a Map; none where it is.
fn why_no_task(
    alloc: Global,
    machine: &Machine,
    name: &str,
    by_item: bool,
) -> Result<Option<String>, OutOfMemory> {
    let Some(number) = machine.state_named(name) else {
        return Ok(Some(words_on_none(alloc, machine, name, true)?));
    };
    let words = quoted(alloc, name)?;
    if !is_task(machine, number) {
        return Ok(Some(format!(in alloc; "{words} is no Task")?));
    }
    if by_item && !stands_in_map(machine, number) {
        return Ok(Some(format!(in alloc;
            "{words} stands in no Map, so it has no answers by item"
        )?));
    }
    Ok(None)
}

/// That there is no state of that name, and which one may be meant: any one, or a Task alone.
fn words_on_none(
    alloc: Global,
    machine: &Machine,
    name: &str,
    is_of_task: bool,
) -> Result<String, OutOfMemory> {
    let mut similar = Similar::to(alloc, name);
    for number in 0..machine.states() {
        if !is_of_task || is_task(machine, number) {
            if let Some(other) = machine.name(number) {
                similar.look_at(other)?;
            }
        }
    }
    similar.unknown()?.words(alloc, "state")
}

/// Whether the state of that number is a Task.
fn is_task(machine: &Machine, number: usize) -> bool {
    machine
        .state(number)
        .is_some_and(|state| state.kind.is_task())
}
