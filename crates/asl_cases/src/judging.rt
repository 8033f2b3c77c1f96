//! What differs from what a case expects.

ghost use Rattle.std.specs.Prelude.{◌≡◌, ◌↔◌, None, map, option_map, string_bytes, IfOk, IfSome};
ghost use Rattle.asl_run.specs.Entries.{entry_view, outcome_view};
ghost use Rattle.asl_tree.specs.View.{view};
ghost use Rattle.asl_cases.specs.Judging.{HasPassed, IsEnd, path_of};

use crate::failures::{error_text, failed_at};
use crate::playing::{End, Played};
use crate::sequences::{difference_of_paths, difference_of_payloads};
use crate::words::counted;
use asl_differences::{expected_found, first_difference, first_misfit, quoted_text, tree_text};
use asl_machine_table::Machine;
use asl_records::Declared;
use asl_run::{Answer, Entry, Outcome};
use asl_shape::Shape;
use asl_suites::{Expected, ExpectedEnd};
use asl_tree::{OutOfMemory, Tree, quoted};
use std::alloc::Global;

/// What differs first from what the case expects, in words; none where nothing does, so the case has passed. A case
/// that hasn't ended in an output or an error never passes. The end comes first, then the output or the cause, the path
/// and the payloads; what the case doesn't expect isn't compared.
/// Attempts, items, steps of the path and payloads are counted from 1. Where a run has failed that was to end otherwise,
/// the state is named at which it has; where data wasn't of the shape that is declared, the first place where it isn't.
///
/// Refused: want of memory.
pub fn difference(
    alloc: Global,
    machine: &Machine,
    declared: Option<&Declared>,
    played: &Played,
    expected: &Expected,
) -> Result<Option<String>, OutOfMemory>
    ensures passed { IfOk result (λ words. words ≡ None
        ↔ HasPassed expected.now (map entry_view played.now.trace.items)) }
{
    let Some(outcome) = played.outcome() else {
        return Ok(Some(why_no_outcome(alloc, machine, declared, &played.end)?));
    };
    if let Some(words) = difference_at_end(alloc, expected, outcome, &played.trace)? {
        return Ok(Some(words));
    }
    if let Some(words) = difference_in_path(alloc, expected, &played.trace)? {
        return Ok(Some(words));
    }
    difference_of_payloads(alloc, &expected.payloads, &played.trace)
}

/// Why the run of a case has no outcome.
fn why_no_outcome(
    alloc: Global,
    machine: &Machine,
    declared: Option<&Declared>,
    end: &End,
) -> Result<String, OutOfMemory> {
    match end {
        End::NoAnswer {
            state,
            attempt,
            item,
        } => {
            let turn = turn_text(alloc, machine, *state, *attempt, *item)?;
            Ok(format!(in alloc; "no answer is left for {turn}")?)
        }
        End::AnswerShape {
            state,
            attempt,
            item,
            answer,
        } => {
            let turn = turn_text(alloc, machine, *state, *attempt, *item)?;
            let gives = shape_given(machine, declared, *state);
            let place = place_in_answer(alloc, gives, answer)?;
            Ok(format!(in alloc;
                "the answer for {turn} is not of the shape that its task is declared to give{place}"
            )?)
        }
        End::InputShape(input) => {
            let place = place_of_misfit(alloc, declared.map(|it| &it.input), input)?;
            Ok(format!(in alloc; "the input is not of the declared shape{place}")?)
        }
        End::StepsSpent(steps) => Ok(format!(in alloc;
            "the run has not ended after {steps} steps"
        )?),
        End::Output | End::Failed => Ok(String::from_str(alloc, "the run has not ended")?),
    }
}

/// The shape that the task of the state of that number is declared to give, if it is declared.
fn shape_given<'d>(
    machine: &Machine,
    declared: Option<&'d Declared>,
    state: usize,
) -> Option<&'d Shape> {
    let task = declared?.task(machine.name(state)?)?;
    Some(&task.gives)
}

/// Where what the answer gives isn't of the shape; nothing where it fails the task.
fn place_in_answer(
    alloc: Global,
    gives: Option<&Shape>,
    answer: &Answer,
) -> Result<String, OutOfMemory> {
    match answer {
        Answer::Gives(tree) => place_of_misfit(alloc, gives, tree),
        Answer::Fails { .. } => Ok(String::new(alloc)),
    }
}

/// `: at PATH expected SHAPE, found VALUE`, the first place where the tree isn't of the shape; nothing where it is.
fn place_of_misfit(
    alloc: Global,
    shape: Option<&Shape>,
    tree: &Tree,
) -> Result<String, OutOfMemory> {
    let Some(shape) = shape else {
        return Ok(String::new(alloc));
    };
    match first_misfit(alloc, shape, tree)? {
        Some(misfit) => {
            let words = misfit.words(alloc)?;
            Ok(format!(in alloc; ": {words}")?)
        }
        None => Ok(String::new(alloc)),
    }
}

/// The state, and which of its answers: `STATE (attempt N)`, or `STATE (item N, attempt N)`.
fn turn_text(
    alloc: Global,
    machine: &Machine,
    state: usize,
    attempt: usize,
    item: Option<usize>,
) -> Result<String, OutOfMemory> {
    let name = quoted(alloc, machine.name(state).unwrap_or(""))?;
    let attempt = counted(alloc, attempt)?;
    match item {
        Some(item) => {
            let item = counted(alloc, item)?;
            Ok(format!(in alloc; "{name} (item {item}, attempt {attempt})")?)
        }
        None => Ok(format!(in alloc; "{name} (attempt {attempt})")?),
    }
}

/// How the run's end differs, where one is expected.
fn difference_at_end(
    alloc: Global,
    expected: &Expected,
    found: &Outcome,
    trace: &[Entry],
) -> Result<Option<String>, OutOfMemory>
    ensures { IfOk result (λ words. words ≡ None
        ↔ IfSome expected.now.end (λ end. IsEnd end (outcome_view found.now))) }
{
    match &expected.end {
        Some(end) => difference_of_ends(alloc, end, found, trace),
        None => Ok(None),
    }
}

/// How the run's path differs, where one is expected.
fn difference_in_path(
    alloc: Global,
    expected: &Expected,
    trace: &[Entry],
) -> Result<Option<String>, OutOfMemory>
    ensures { IfOk result (λ words. words ≡ None ↔ IfSome expected.now.path
        (λ path. path_of (map entry_view trace.now) ≡ map string_bytes path.items)) }
{
    match &expected.path {
        Some(path) => difference_of_paths(alloc, path, trace),
        None => Ok(None),
    }
}

/// How the ends differ.
fn difference_of_ends(
    alloc: Global,
    expected: &ExpectedEnd,
    found: &Outcome,
    trace: &[Entry],
) -> Result<Option<String>, OutOfMemory>
    ensures { IfOk result (λ words. words ≡ None
        ↔ IsEnd expected.now (outcome_view found.now)) }
{
    match (expected, found) {
        (ExpectedEnd::Output(expected), Outcome::Output(found)) => {
            difference_of_outputs(alloc, expected, found)
        }
        (
            ExpectedEnd::Error { error, cause },
            Outcome::Failed {
                error: found,
                cause: found_cause,
            },
        ) => difference_of_errors(alloc, error, cause.as_deref(), found, found_cause, trace),
        (ExpectedEnd::Output(expected), Outcome::Failed { error, cause }) => {
            let expected = tree_text(alloc, expected)?;
            let found = error_text(alloc, error, cause)?;
            let place = failed_at(alloc, trace, error, cause)?;
            Ok(Some(format!(in alloc;
                "expected the output {expected}, found the error {found}{place}"
            )?))
        }
        (ExpectedEnd::Error { error, cause }, Outcome::Output(found)) => {
            let expected = error_text(alloc, error, cause.as_deref().unwrap_or(""))?;
            let found = tree_text(alloc, found)?;
            Ok(Some(format!(in alloc; "expected the error {expected}, found the output {found}")?))
        }
    }
}

/// How the outputs differ.
fn difference_of_outputs(
    alloc: Global,
    expected: &Tree,
    found: &Tree,
) -> Result<Option<String>, OutOfMemory>
    ensures { IfOk result (λ words. words ≡ None ↔ view found.now ≡ view expected.now) }
{
    match first_difference(alloc, expected, found)? {
        Some(difference) => {
            let words = difference.words(alloc)?;
            Ok(Some(format!(in alloc; "output: {words}")?))
        }
        None => Ok(None),
    }
}

/// How the errors differ, or, where a cause is expected, the causes.
fn difference_of_errors(
    alloc: Global,
    expected: &str,
    expected_cause: Option<&str>,
    found: &str,
    found_cause: &str,
    trace: &[Entry],
) -> Result<Option<String>, OutOfMemory>
    ensures { IfOk result (λ words. words ≡ None ↔ (found.now ≡ expected.now)
        × IfSome expected_cause.entry (λ cause. found_cause.now ≡ cause.now)) }
{
    if expected != found {
        let expected = error_text(alloc, expected, expected_cause.unwrap_or(""))?;
        let place = failed_at(alloc, trace, found, found_cause)?;
        let found = error_text(alloc, found, found_cause)?;
        return Ok(Some(format!(in alloc; "expected the error {expected}, found {found}{place}")?));
    }
    match expected_cause {
        Some(expected) if expected != found_cause => {
            let expected = quoted_text(alloc, expected)?;
            let found = quoted_text(alloc, found_cause)?;
            let words = expected_found(alloc, Some(expected), Some(found))?;
            Ok(Some(format!(in alloc; "cause: {words}")?))
        }
        _ => Ok(None),
    }
}
