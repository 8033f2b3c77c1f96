//! From the texts of a run to its trace.

ghost use Rattle.std.specs.Prelude.{◌≡◌, map, option_map, IsTrue, IfOk, IfErr, OnOk};
ghost use Rattle.asl_machine_table.specs.Table.{scope_in, table_view};
ghost use Rattle.asl_records.specs.View.{declared_view};
ghost use Rattle.asl_run.specs.Driving.{policy_of};
ghost use Rattle.asl_run.specs.Entries.{answer_view};
ghost use Rattle.asl_tree.specs.View.{view};
ghost use Rattle.asl_texts.specs.Fronts.{IfAnswersRead, NoFrontIsLong};
ghost use Rattle.asl_texts.specs.Runs.{texts_of, request_of, given_of, given_view, end_at, fits_input};
ghost use Rattle.asl_texts.specs.Runs.{IsRun, RunsTo, RunFaultStands, WritesRun};
ghost use Rattle.asl_texts.specs.Tracing.{Traces, begun};
ghost use Rattle.asl_texts.specs.View.{run_end_view};
ghost use Rattle.asl_texts.specs.Writing.{streams_of};

use crate::declared_answers::DeclaredAnswers;
use crate::given::{Given, read_given};
use crate::refusals::RunFault;
use crate::runs::{Pick, RunEnd};
use crate::sinks::{Sink, write_all};
use crate::sources::Source;
use asl_machine::Machine;
use asl_records::Declared;
use asl_run::{Answers, Order, Stop, drive, start};
use asl_shape::has;
use asl_trace::Lines;
use asl_tree::{OutOfMemory, Tree};
use std::alloc::Global;

/// A run that was told.
#[derive(Drop)]
struct Traced {
    end: RunEnd,
    trace: Vec<u8>,
}

/// Runs the machine of a definition on an input, with the answers that a source has, by at most `max_steps` events, and
/// writes the lines of the run's trace to the sink.
///
/// Where declared shapes are given, the input has to be of its shape, and each answer of that of what its task
/// gives. An input that isn't ends the run before it begins, and nothing is written; an answer that isn't ends it
/// where it was to be taken.
///
/// The definition, the declared shapes, the input and the answers are read in this order, all before the run.
/// Refused: Text for the first text that is refused; TooLong for answers of more than 16777216 bytes; Read and
/// Write where the source or the sink failed; OutOfMemory where a growth was refused. So answers that never end are
/// TooLong, but for a text in front of them, a failed read or a refused growth. After a failed write a front of a
/// run's lines is written, after every other fault nothing.
pub fn run_texts<R: Source, W: Sink>(
    alloc: Global,
    definition: &[u8],
    declared: Option<&[u8]>,
    input: &[u8],
    answers: &mut R,
    out: &mut W,
    order: Pick,
    max_steps: u64,
) -> Result<RunEnd, RunFault>
    ensures run { let texts = texts_of definition.now
        (option_map (λ text. text.now) declared.entry) input.now (R.remaining answers.old) in
        let streams = streams_of (W.contents out.old) (W.contents out.new)
        (R.failed answers.new) (W.failed out.new) in
        IfOk result (λ end. WritesRun (request_of texts order max_steps) streams
        (run_end_view end)) }
    ensures endless { OnOk result (NoFrontIsLong (R.begins answers.old)) }
    ensures endless_fault { IfErr result (IfAnswersRead (NoFrontIsLong (R.begins answers.old))) }
    ensures fault { let texts = texts_of definition.now
        (option_map (λ text. text.now) declared.entry) input.now (R.remaining answers.old) in
        let streams = streams_of (W.contents out.old) (W.contents out.new)
        (R.failed answers.new) (W.failed out.new) in
        IfErr result (RunFaultStands (request_of texts order max_steps) streams) }
    ensures lasting_read { IsTrue (R.failed answers.old) → IsTrue (R.failed answers.new) }
    ensures lasting_write { IsTrue (W.failed out.old) → IsTrue (W.failed out.new) }
{
    let given = read_given(alloc, definition, declared, input, answers)?;
    let told = run_given(alloc, given, order, max_steps)?;
    match write_all(out, &told.trace) {
        Ok(()) => Ok(told.end),
        Err(_) => Err(RunFault::Write),
    }
}

/// The run of what the texts read as; none where the input isn't of its shape.
fn run_given(
    alloc: Global,
    given: Given,
    order: Pick,
    max_steps: u64,
) -> Result<Traced, OutOfMemory>
    ensures { IfOk result (λ told. RunsTo (given_view given) order max_steps
        (run_end_view told.end) told.trace.items) }
{
    let Given {
        machine,
        declared,
        input,
        answers,
    } = given;
    if !fits_input(declared.as_ref(), &input) {
        return Ok(Traced {
            end: RunEnd::InputShape,
            trace: Vec::new(alloc),
        });
    }
    let mut answers = DeclaredAnswers {
        declared: declared.as_ref(),
        list: answers,
    };
    run_with(alloc, &machine, input, &mut answers, order, max_steps)
}

/// Whether the input is of its declared shape, where one is declared.
fn fits_input(declared: Option<&Declared>, input: &Tree) -> bool
    ensures { result
        ≡ fits_input (option_map (λ d. declared_view d.now) declared.entry) (view input.now) }
{
    match declared {
        Some(declared) => has(&declared.input, input),
        None => true,
    }
}

/// The run of a machine on an input, with these answers. The input is of its shape.
fn run_with(
    alloc: Global,
    machine: &Machine,
    input: Tree,
    answers: &mut DeclaredAnswers<'_>,
    mut order: Pick,
    max_steps: u64,
) -> Result<Traced, OutOfMemory>
    ensures { let shapes = option_map (λ d. declared_view d.now) answers.old.declared in
        let given = given_of (scope_in machine.now) shapes (view input)
        (map answer_view answers.old.list.items) in
        IsTrue (fits_input shapes (view input)) → IfOk result (λ told. IsRun given order max_steps
        (run_end_view told.end) told.trace.items) }
{
    machine.is_shown();
    let (stop, trace) = trace(alloc, machine, input, &mut order, answers, max_steps)?;
    let end = end_of(alloc, machine, stop, answers.is_spent())?;
    Ok(Traced { end, trace })
}

/// Drives a run of a machine on an input until it stops. What happens is written after each step, whose entries aren't
/// kept.
fn trace<O: Order, A: Answers>(
    alloc: Global,
    machine: &Machine,
    input: Tree,
    order: &mut O,
    answers: &mut A,
    max_steps: u64,
) -> Result<(Stop, Vec<u8>), OutOfMemory>
    ensures { let policy = policy_of (O.may_pick order.old) (A.may_give answers.old)
        (A.may_be_silent answers.old answers.new) in
        let m = scope_in machine.now in
        IfOk result (λ traced. Traces policy m max_steps
        (begun m (view input) (A.content answers.old))
        traced.0 traced.1.items (A.content answers.new)) }
{
    let mut run = match start(alloc, machine, input) {
        Ok(run) => run,
        Err(_) => return Err(OutOfMemory),
    };
    let mut lines = Lines::new(alloc);
    'steps: for _taken in 0..max_steps {
        let (stop, entries) = match drive(&mut run, order, answers, 1) {
            Ok(driven) => driven,
            Err(_) => return Err(OutOfMemory),
        };
        lines.add(&entries)?;
        let Stop::StepsSpent = stop else {
            return Ok((stop, lines.into_bytes()));
        };
    }
    Ok((Stop::StepsSpent, lines.into_bytes()))
}

/// What a run ends with that was driven until it stopped so. Where a task has no answer though one is left, that one
/// isn't of its shape.
fn end_of(alloc: Global, machine: &Machine, stop: Stop, spent: bool) -> Result<RunEnd, OutOfMemory>
    ensures { IfOk result (λ end.
        run_end_view end ≡ end_at (table_view machine.now).names spent stop) }
{
    match stop {
        Stop::Output => Ok(RunEnd::Output),
        Stop::Failed => Ok(RunEnd::Failed),
        Stop::NoAnswer(state) => {
            if spent {
                return Ok(RunEnd::NoAnswer);
            }
            let name = machine.name(state).unwrap_or("");
            Ok(RunEnd::AnswerShape(String::from_str(alloc, name)?))
        }
        Stop::StepsSpent => Ok(RunEnd::StepsSpent),
    }
}
