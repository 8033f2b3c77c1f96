//! Playing a case: a machine runs on its input, with its answers.

ghost use Rattle.std.specs.Prelude.{◌≡◌, map, option_and_then, option_map, IfOk};
ghost use Rattle.asl_machine_table.specs.Table.{scope_in};
ghost use Rattle.asl_model.specs.Certificate.{gives_of};
ghost use Rattle.asl_model.specs.Run as model;
ghost use Rattle.asl_model.specs.Shape.{has as has_shape};
ghost use Rattle.asl_records.specs.View.{declared_view};
ghost use Rattle.asl_run.specs.Entries.{answer_view, entry_view, event_view, outcome_view};
ghost use Rattle.asl_run.specs.Running.{run_view, scope_of};
ghost use Rattle.asl_suites.specs.View.{answers_under};
ghost use Rattle.asl_tree.specs.View.{view};
ghost use Rattle.asl_cases.specs.Asking.{last_of};
ghost use Rattle.asl_cases.specs.Judging.{outcome_in};
ghost use Rattle.asl_cases.specs.Playing.{ComesTo, IsRun, case_of, fits_input, stage_of};
ghost use Rattle.asl_cases.specs.Stepping.{EndsWith, IsAsked, IsGoing, StepsTo, TakesSo, fits_task};

use crate::asking::{asked_place, item_at, turn_of};
use asl_machine_table::Machine;
use asl_records::Declared;
use asl_run::{Answer, Entry, Event, First, ListAnswers, Outcome, Run, Stop, drive, start};
use asl_shape::has;
use asl_suites::CaseAnswers;
use asl_tree::{OutOfMemory, Tree};
use std::alloc::Global;
use std::collections::VecDeque;

/// A case that was played.
#[derive(Drop)]
pub struct Played<'m> {
    /// How it ended.
    pub end: End,
    /// What happened in its run, whose machine lends the names of its states.
    pub trace: Vec<Entry<'m>>,
}

impl Played<'_> {
    /// How the run has ended; none where it hasn't.
    pub(crate) fn outcome(&self) -> Option<&Outcome>
        ensures { option_map (λ outcome. outcome_view outcome.now) result
            ≡ option_and_then outcome_in (last_of (map entry_view self.now.trace.items)) }
    {
        match self.trace.last() {
            Some(entry) => outcome_in(entry),
            None => None,
        }
    }
}

/// The outcome of the run, where the entry tells its end.
fn outcome_in<'e>(entry: &'e Entry<'_>) -> Option<&'e Outcome>
    ensures { option_map (λ outcome. outcome_view outcome.now) result
        ≡ outcome_in (entry_view entry.now) }
{
    match entry {
        Entry::Ended { at, outcome } if at.is_empty() => Some(outcome),
        _ => None,
    }
}

/// How a case ends. States are told by number, attempts and items are counted from 0; an item is told where the answers
/// of the state are by item, and only its own attempts count then.
#[derive(Debug, Drop)]
pub enum End {
    /// The run has ended with an output, which the last entry of the trace tells.
    Output,
    /// The run has failed, with an error that the last entry of the trace tells.
    Failed,
    /// No answer is left for the task of the state.
    NoAnswer {
        state: usize,
        attempt: usize,
        item: Option<usize>,
    },
    /// The next answer for the task of the state gives what isn't of the shape that the task is declared to give.
    AnswerShape {
        state: usize,
        attempt: usize,
        item: Option<usize>,
        answer: Answer,
    },
    /// The input isn't of the declared shape; nothing has happened.
    InputShape(Tree),
    /// So many steps were taken as there may be, and the run hasn't ended.
    StepsSpent(u64),
}

/// Plays a case: runs the machine on the input, at each step at the first place where something is to happen, with the
/// answers of the case for its tasks, until the run has ended or `max_steps` steps were taken. An answer is a step of
/// its own.
///
/// A task is answered by the next of what the answers have for its state and, where it stands in a Map, for the item of
/// the innermost one. Where declared shapes are given, the input has to be of its shape, and what an answer gives of
/// the shape that its task is declared to give; an answer that isn't is taken and not used.
///
/// Refused: want of memory. The answers that were taken until then are gone.
pub fn play<'m>(
    alloc: Global,
    machine: &'m Machine,
    declared: Option<&Declared>,
    input: Tree,
    answers: &mut CaseAnswers,
    max_steps: u64,
) -> Result<Played<'m>, OutOfMemory>
    ensures { let shapes = option_map (λ d. declared_view d.now) declared.entry in
        let given = case_of (scope_in machine.now) shapes (view input) (answers_under answers.old) in
        IfOk result (λ played. ComesTo given max_steps played.end
        (map entry_view played.trace.items) (answers_under answers.new)) }
{
    if fits_input(declared, &input) {
        play_run(alloc, machine, declared, input, answers, max_steps)
    } else {
        Ok(Played {
            end: End::InputShape(input),
            trace: Vec::new(alloc),
        })
    }
}

/// Plays a case whose input is of the declared shape.
fn play_run<'m>(
    alloc: Global,
    machine: &'m Machine,
    declared: Option<&Declared>,
    input: Tree,
    answers: &mut CaseAnswers,
    max_steps: u64,
) -> Result<Played<'m>, OutOfMemory>
    ensures { let shapes = option_map (λ d. declared_view d.now) declared.entry in
        let given = case_of (scope_in machine.now) shapes (view input) (answers_under answers.old) in
        IfOk result (λ played. IsRun given max_steps played.end
        (map entry_view played.trace.items) (answers_under answers.new)) }
{
    let mut run = match start(alloc, machine, input) {
        Ok(run) => run,
        Err(_) => return Err(OutOfMemory),
    };
    let mut trace = Vec::new(alloc);
    'steps: for _taken in 0..max_steps {
        let end = take_step(alloc, machine, declared, &mut run, answers, &mut trace)?;
        if let Some(end) = end {
            return Ok(Played { end, trace });
        }
    }
    Ok(Played {
        end: End::StepsSpent(max_steps),
        trace,
    })
}

/// Whether the input is of its declared shape, where one is declared.
fn fits_input(declared: Option<&Declared>, input: &Tree) -> bool
    ensures { result
        ≡ fits_input (option_map (λ d. declared_view d.now) declared.entry) (view input.now) }
{
    match declared {
        Some(declared) => has(&declared.input, input),
        None => true,
    }
}

/// One step of the run, which the trace tells; how the case ends, where it does.
fn take_step<'m>(
    alloc: Global,
    machine: &'m Machine,
    declared: Option<&Declared>,
    run: &mut Run<'m>,
    answers: &mut CaseAnswers,
    trace: &mut Vec<Entry<'m>>,
) -> Result<Option<End>, OutOfMemory>
    requires machine { run.old.machine ≡ machine.now }
    ensures machine { run.new.machine ≡ run.old.machine }
    ensures steps { let shapes = option_map (λ d. declared_view d.now) declared.entry in
        let before = stage_of (run_view run.old) (answers_under answers.old)
        (map entry_view trace.old.items) in
        IsGoing (scope_of run.old) before
        → IfOk result (λ end. StepsTo (scope_of run.old) shapes before end (stage_of (run_view run.new)
        (answers_under answers.new) (map entry_view trace.new.items))) }
{
    let mut silent = ListAnswers::new(VecDeque::new(alloc));
    let (stop, mut entries) = match drive(run, &mut First, &mut silent, 1) {
        Ok(driven) => driven,
        Err(_) => return Err(OutOfMemory),
    };
    trace.append(&mut entries)?;
    match stop {
        Stop::Output => Ok(Some(End::Output)),
        Stop::Failed => Ok(Some(End::Failed)),
        Stop::NoAnswer(state) => answer(alloc, machine, declared, run, answers, trace, state),
        Stop::StepsSpent => Ok(None),
    }
}

/// Answers the task of that state, which was asked last and waits; how the case ends, where it does.
fn answer<'m>(
    alloc: Global,
    machine: &'m Machine,
    declared: Option<&Declared>,
    run: &mut Run<'m>,
    answers: &mut CaseAnswers,
    trace: &mut Vec<Entry<'m>>,
    state: usize,
) -> Result<Option<End>, OutOfMemory>
    requires machine { run.old.machine ≡ machine.now }
    ensures machine { run.new.machine ≡ run.old.machine }
    ensures steps { let shapes = option_map (λ d. declared_view d.now) declared.entry in
        let before = stage_of (run_view run.old) (answers_under answers.old)
        (map entry_view trace.old.items) in
        IsAsked (scope_of run.old) before state
        → IfOk result (λ end. StepsTo (scope_of run.old) shapes before end (stage_of (run_view run.new)
        (answers_under answers.new) (map entry_view trace.new.items))) }
{
    run.stands();
    let place = Vec::from_slice(alloc, asked_place(trace))?;
    let name = machine.name(state).unwrap_or("");
    let item = item_at(machine, state, &place);
    match answers.next(name, item)? {
        Some(answer) if fits_task(declared, name, &answer) => {
            take_answer(run, Event::Answers(place, answer), trace)
        }
        Some(answer) => {
            let (attempt, item) = turn_of(machine, answers, state, item, trace);
            Ok(Some(End::AnswerShape {
                state,
                attempt,
                item,
                answer,
            }))
        }
        None => {
            let (attempt, item) = turn_of(machine, answers, state, item, trace);
            Ok(Some(End::NoAnswer {
                state,
                attempt,
                item,
            }))
        }
    }
}

/// Takes the answer to a task that waits, which the trace tells; how the case ends, where it does.
fn take_answer<'m>(
    run: &mut Run<'m>,
    event: Event,
    trace: &mut Vec<Entry<'m>>,
) -> Result<Option<End>, OutOfMemory>
    ensures machine { run.new.machine ≡ run.old.machine }
    ensures taken { IfOk result (λ end. TakesSo (scope_of run.old) (run_view run.old) (event_view event)
        (map entry_view trace.old.items) end (run_view run.new)
        (map entry_view trace.new.items)) }
{
    let mut entries = match run.step(event) {
        Ok(entries) => entries,
        // The task waits, so an allocation was refused.
        Err(_) => return Err(OutOfMemory),
    };
    trace.append(&mut entries)?;
    Ok(end_of(run))
}

/// How the case ends where the run has ended.
fn end_of(run: &Run<'_>) -> Option<End>
    ensures { EndsWith result (model.outcome_of (run_view run.now)) }
{
    match run.outcome() {
        Some(Outcome::Output(_)) => Some(End::Output),
        Some(Outcome::Failed { .. }) => Some(End::Failed),
        None => None,
    }
}

/// Whether the task of that name may be given the answer: what it gives is of the shape that is declared for it.
fn fits_task(declared: Option<&Declared>, name: &str, answer: &Answer) -> bool
    ensures { result ≡ fits_task (option_map (λ d. declared_view d.now) declared.entry)
        name.now (answer_view answer.now) }
{
    match (declared, answer) {
        (Some(declared), Answer::Gives(tree)) => is_given(declared, name, tree),
        _ => true,
    }
}

/// Whether the tree is of the shape of what the task of that name is declared to give; where it isn't declared, that is
/// any.
fn is_given(declared: &Declared, name: &str, tree: &Tree) -> bool
    ensures { result ≡ has_shape (gives_of (declared_view declared.now) name.now) (view tree.now) }
{
    match declared.task(name) {
        Some(task) => has(&task.gives, tree),
        None => true,
    }
}
