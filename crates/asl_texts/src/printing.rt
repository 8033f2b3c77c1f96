//! The lines that a verdict, a run and a fault are told by.

ghost use Rattle.std.specs.Prelude.{◌≡◌, ◌++◌, IfOk, OnOk, option_map, string_bytes, codes, decimal};
ghost use Rattle.asl_model.specs.Printed.{example_text, field_text, finding_line, finding_lines, verdict_text, verdict_status, place_text, refusal_text, refusal_line, refusal_status, out_of_memory, fault_line, fault_status, closing_line, closing_status, run_line, run_status, AnswerShape};
ghost use Rattle.asl_check.specs.View.{finding_view, findings_view, verdict_view};
ghost use Rattle.asl_tree.specs.View.{view};
ghost use Rattle.asl_texts.specs.View.{which_view, tree_refusal_view, def_refusal_view, record_refusal_view, text_fault_view, run_fault_view, run_end_view, closing_view};

use crate::endings::Closing;
use crate::refusals::{RunFault, TextFault, Which};
use crate::runs::RunEnd;
use asl_check::{Finding, Verdict};
use asl_machine::{DefFault, DefRefusal};
use asl_records::{RecordFault, RecordRefusal};
use asl_shape::ShapeRefusal;
use asl_tree::{OutOfMemory, Tree, TreeRefusal, in_line, quoted, to_text};
use std::alloc::Global;

/// The lines of a verdict, each ended by a line break: `yes`, or `no STATE FIELD FAULT` for each finding, the state's
/// name as a JSON text, and behind a space the finding's example as a JSON text where it has one.
pub fn verdict_text(alloc: Global, verdict: &Verdict) -> Result<String, OutOfMemory>
    ensures { IfOk result (λ text. string_bytes text ≡ verdict_text (verdict_view verdict.now)) }
{
    match verdict {
        Verdict::Yes => Ok(String::from_str(alloc, "yes\n")?),
        Verdict::No(findings) => findings_text(alloc, findings),
    }
}

/// The lines of findings.
fn findings_text(alloc: Global, findings: &Vec<Finding>) -> Result<String, OutOfMemory>
    ensures { IfOk result
        (λ text. string_bytes text ≡ finding_lines (findings_view findings.now.items)) }
{
    let mut text = String::new(alloc);
    for finding in findings {
        let line = finding_text(alloc, finding)?;
        text.push_str(&line)?;
    }
    Ok(text)
}

/// The line of a finding.
fn finding_text(alloc: Global, finding: &Finding) -> Result<String, OutOfMemory>
    ensures { IfOk result (λ text. string_bytes text ≡ finding_line (finding_view finding.now)) }
{
    let mut text = String::from_str(alloc, "no ")?;
    let state = quoted(alloc, &finding.state)?;
    text.push_str(&state)?;
    text.push_str(" ")?;
    text.push_str(&finding.field)?;
    text.push_str(" ")?;
    text.push_str(finding.fault.name())?;
    push_example(alloc, &mut text, &finding.example)?;
    text.push_str("\n")?;
    Ok(text)
}

/// Puts a space and the example as a JSON text behind the text; nothing where there is none.
fn push_example(alloc: Global, text: &mut String, example: &Option<Tree>) -> Result<(), OutOfMemory>
    ensures { OnOk result
        (string_bytes text.new
        ≡ string_bytes text.old ++ example_text (option_map view example.now)) }
{
    if let Some(tree) = example {
        let written = to_text(alloc, tree)?;
        text.push_str(" ")?;
        text.push_str(&written)?;
    }
    Ok(())
}

/// The exit status of the program and the line on standard error, with its break, empty where there is none.
///
/// Status 0 is a yes, a certificate or a run's output; 1 a no, a certificate that wasn't settled or a failed run; 2
/// a text that is refused or too long; 3 an input or an answer that isn't of its shape; 4 a run without answer or
/// steps left; 5 out of memory, or a reader or writer that failed.
pub fn closing(alloc: Global, closing: &Closing) -> Result<(u8, String), OutOfMemory>
    ensures status { IfOk result (λ end. end.0 ≡ closing_status (closing_view closing.now)) }
    ensures line { IfOk result (λ end.
        string_bytes end.1 ≡ closing_line (closing_view closing.now)) }
{
    match closing {
        Closing::Verdict(verdict) => Ok((status_of(verdict), String::new(alloc))),
        Closing::Run(end) => run_closing(alloc, end),
        Closing::Certificate => Ok((0, String::new(alloc))),
        Closing::NotSettled => Ok((1, String::from_str(alloc, "not settled\n")?)),
        Closing::Fault(fault) => fault_closing(alloc, fault),
    }
}

/// The exit status of a verdict.
fn status_of(verdict: &Verdict) -> u8
    ensures { result ≡ verdict_status (verdict_view verdict.now) }
{
    match verdict {
        Verdict::Yes => 0,
        Verdict::No(_) => 1,
    }
}

/// The exit status and the line behind a run.
fn run_closing(alloc: Global, end: &RunEnd) -> Result<(u8, String), OutOfMemory>
    ensures status { IfOk result (λ closed. closed.0 ≡ run_status (run_end_view end.now)) }
    ensures line { IfOk result (λ closed. string_bytes closed.1 ≡ run_line (run_end_view end.now)) }
{
    match end {
        RunEnd::Output => Ok((0, String::new(alloc))),
        RunEnd::Failed => Ok((1, String::new(alloc))),
        RunEnd::NoAnswer => Ok((4, String::from_str(alloc, "no answer\n")?)),
        RunEnd::StepsSpent => Ok((4, String::from_str(alloc, "steps spent\n")?)),
        RunEnd::InputShape => Ok((3, String::from_str(alloc, "input not of its shape\n")?)),
        RunEnd::AnswerShape(state) => Ok((3, answer_shape_line(alloc, state)?)),
    }
}

/// The line for an answer that isn't of the shape declared for the task of that name.
fn answer_shape_line(alloc: Global, state: &str) -> Result<String, OutOfMemory>
    ensures { IfOk result (λ text. string_bytes text ≡ run_line (AnswerShape state.now)) }
{
    let mut text = String::from_str(alloc, "answer not of its shape ")?;
    let state = quoted(alloc, state)?;
    text.push_str(&state)?;
    text.push_str("\n")?;
    Ok(text)
}

/// The exit status and the line of a call that failed.
fn fault_closing(alloc: Global, fault: &RunFault) -> Result<(u8, String), OutOfMemory>
    ensures status { IfOk result (λ end. end.0 ≡ fault_status (run_fault_view fault.now)) }
    ensures line { IfOk result (λ end. string_bytes end.1 ≡ fault_line (run_fault_view fault.now)) }
{
    match fault {
        RunFault::Text(refusal) => refusal_closing(alloc, refusal.which, &refusal.fault),
        RunFault::TooLong => Ok((2, String::from_str(alloc, "text too long\n")?)),
        RunFault::Read => Ok((5, String::from_str(alloc, "read failed\n")?)),
        RunFault::Write => Ok((5, String::from_str(alloc, "write failed\n")?)),
        RunFault::OutOfMemory => memory_closing(alloc),
    }
}

/// The exit status and the line where there is no memory.
fn memory_closing(alloc: Global) -> Result<(u8, String), OutOfMemory>
    ensures status { IfOk result (λ end. end.0 ≡ 5) }
    ensures line { IfOk result (λ end. string_bytes end.1 ≡ out_of_memory) }
{
    Ok((5, String::from_str(alloc, "out of memory\n")?))
}

/// The exit status and the line of a refused text.
fn refusal_closing(
    alloc: Global,
    which: Which,
    fault: &TextFault,
) -> Result<(u8, String), OutOfMemory>
    ensures status { IfOk result (λ end. end.0 ≡ refusal_status (text_fault_view fault.now)) }
    ensures line { IfOk result
        (λ end. string_bytes end.1 ≡ refusal_line (which_view which) (text_fault_view fault.now)) }
{
    match fault {
        TextFault::Tree(refusal) => tree_closing(alloc, which, refusal),
        TextFault::Def(refusal) => def_closing(alloc, which, refusal),
        TextFault::Record(refusal) => record_closing(alloc, which, refusal),
        TextFault::BadAnswer(position) => answer_closing(alloc, which, *position),
        TextFault::OutOfMemory => memory_closing(alloc),
    }
}

/// The exit status and the line of a text that is no JSON, or has a number that isn't whole.
fn tree_closing(
    alloc: Global,
    which: Which,
    refusal: &TreeRefusal,
) -> Result<(u8, String), OutOfMemory>
    ensures status { IfOk result (λ end. end.0 ≡ refusal_status (tree_refusal_view refusal.now)) }
    ensures line { IfOk result (λ end.
        string_bytes end.1 ≡ refusal_line (which_view which) (tree_refusal_view refusal.now)) }
{
    match refusal {
        TreeRefusal::NotJson => Ok((2, refusal_text(alloc, which, "NotJson", "")?)),
        TreeRefusal::NotWhole => Ok((2, refusal_text(alloc, which, "NotWhole", "")?)),
        TreeRefusal::OutOfMemory => memory_closing(alloc),
    }
}

/// The exit status and the line of a refused definition.
fn def_closing(
    alloc: Global,
    which: Which,
    refusal: &DefRefusal,
) -> Result<(u8, String), OutOfMemory>
    ensures status { IfOk result (λ end. end.0 ≡ refusal_status (def_refusal_view refusal.now)) }
    ensures line { IfOk result (λ end.
        string_bytes end.1 ≡ refusal_line (which_view which) (def_refusal_view refusal.now)) }
{
    if refusal.fault == DefFault::OutOfMemory {
        return memory_closing(alloc);
    }
    let place = place_text(alloc, &refusal.state, &refusal.field)?;
    Ok((2, refusal_text(alloc, which, refusal.fault.name(), &place)?))
}

/// The exit status and the line of refused declared shapes or a refused certificate.
fn record_closing(
    alloc: Global,
    which: Which,
    refusal: &RecordRefusal,
) -> Result<(u8, String), OutOfMemory>
    ensures status { IfOk result (λ end. end.0 ≡ refusal_status (record_refusal_view refusal.now)) }
    ensures line { IfOk result (λ end.
        string_bytes end.1 ≡ refusal_line (which_view which) (record_refusal_view refusal.now)) }
{
    match refusal.fault {
        RecordFault::OutOfMemory | RecordFault::BadShape(ShapeRefusal::OutOfMemory) => {
            return memory_closing(alloc);
        }
        _ => {}
    }
    let place = place_text(alloc, &refusal.name, &refusal.field)?;
    Ok((2, refusal_text(alloc, which, refusal.fault.name(), &place)?))
}

/// The exit status and the line of an answer that is none.
fn answer_closing(alloc: Global, which: Which, position: usize) -> Result<(u8, String), OutOfMemory>
    ensures status { IfOk result (λ end. end.0 ≡ 2) }
    ensures line { IfOk result (λ end. string_bytes end.1
        ≡ refusal_text (which_view which) (codes "BadAnswer") (codes " " ++ decimal position)) }
{
    let mut place = String::from_str(alloc, " ")?;
    let digits = position.to_string(alloc)?;
    place.push_str(&digits)?;
    Ok((2, refusal_text(alloc, which, "BadAnswer", &place)?))
}

/// The line of a refused text: what is wrong, and where.
fn refusal_text(
    alloc: Global,
    which: Which,
    fault: &str,
    place: &str,
) -> Result<String, OutOfMemory>
    ensures { IfOk result
        (λ text. string_bytes text ≡ refusal_text (which_view which) fault.now place.now) }
{
    let mut text = String::from_str(alloc, "refused ")?;
    text.push_str(which.name())?;
    text.push_str(" ")?;
    text.push_str(fault)?;
    text.push_str(place)?;
    text.push_str("\n")?;
    Ok(text)
}

/// Where something is wrong: a name as a JSON text, and the field where it isn't empty.
fn place_text(alloc: Global, name: &str, field: &str) -> Result<String, OutOfMemory>
    ensures { IfOk result (λ text. string_bytes text ≡ place_text name.now field.now) }
{
    let mut text = String::from_str(alloc, " ")?;
    let name = quoted(alloc, name)?;
    text.push_str(&name)?;
    push_field(alloc, &mut text, field)?;
    Ok(text)
}

/// Puts a space and the field behind the text, where it isn't empty.
fn push_field(alloc: Global, text: &mut String, field: &str) -> Result<(), OutOfMemory>
    ensures { OnOk result (string_bytes text.new ≡ string_bytes text.old ++ field_text field.now) }
{
    if !field.is_empty() {
        let field = in_line(alloc, field)?;
        text.push_str(" ")?;
        text.push_str(&field)?;
    }
    Ok(())
}
