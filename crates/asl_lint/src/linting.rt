//! From texts to diagnostics.
ghost use Rattle.std.specs.Prelude.{◌≡◌, ◌↔◌, IfOk, false, map, not, option_map, true};
ghost use Rattle.std.specs.List.{list_any};
ghost use Rattle.asl_tool.specs.VerifiedInference.{IsAcceptedAsInferred, NeverFaultsAsInferred};
ghost use Rattle.asl_texts.specs.Verifying.{MachineReads};
ghost use Rattle.asl_lint.specs.Linted.{IsFaulty, Tells, WhereDeclared, WhereUndeclared, tells_no_json, text_of};
ghost use Rattle.asl_problems.specs.Told.{has_error};

use crate::texts::problems_of_texts;
use asl_diagnostics::{Diagnostic, sort};
use asl_model::run_laws::{closed_runs_never_fault, closed_runs_tell_no_fault};
use asl_model::shape_laws::no_broken_rule_means_closed;
use asl_problems::{File, diagnostics_of};
use asl_tree::OutOfMemory;
use std::alloc::Global;

/// What is told of a definition.
#[derive(Drop)]
pub struct Linted {
    /// In the order in which they are told.
    pub diagnostics: Vec<Diagnostic>,
    /// Whether each text is JSON.
    pub is_read: bool,
}

/// What is told of a definition, and of declared shapes where they are given.
///
/// A text that is no JSON is one error, where it breaks. A definition that is refused has an error for each of its
/// complaints, and so have declared shapes, of which a number that isn't whole is one error of its own. Where both texts read, and the inference tells a finding in at most
/// `max_rounds` rounds, each rule is told that the certificate of lenient rounds breaks, or that finding; where the shapes
/// don't settle, that; and no error where a certificate is inferred, since it breaks no rule. Warnings come to these, of what
/// breaks no rule and is hardly meant; without declared shapes only those that the machine itself tells. All of it stands in
/// the order of its places.
///
/// With declared shapes no error is told exactly where [`asl_tool::verify_inferred`] says yes. Then for every input of the
/// declared shape and every list of moves and task answers, branches and iterations interleaved in any way, each answer a
/// failure or of its declared shape, the run raises none of the six data-flow faults, and every state's input, every
/// task's payload and every output has its certified shape. Without declared shapes no error is told exactly where the
/// definition reads.
///
/// Refuses only where an allocation was refused.
pub fn lint<'f>(
    alloc: Global,
    definition: File<'f>,
    declared: Option<File<'f>>,
    max_rounds: u32,
) -> Result<Linted, OutOfMemory>
    ensures told { IfOk result (λ linted. Tells max_rounds definition.entry.text.now
        (text_of declared.entry) linted.diagnostics.items) }
    ensures exactly { IfOk result (λ linted. WhereDeclared
        (λ text. (has_error linted.diagnostics.items ≡ false)
        ↔ IsAcceptedAsInferred max_rounds definition.entry.text.now text) declared.entry) }
    ensures headline { IfOk result (λ linted. has_error linted.diagnostics.items ≡ false
        → WhereDeclared (NeverFaultsAsInferred max_rounds definition.entry.text.now)
        declared.entry) }
    ensures otherwise { IfOk result (λ linted. has_error linted.diagnostics.items ≡ true
        → WhereDeclared (IsFaulty max_rounds definition.entry.text.now) declared.entry) }
    ensures alone { IfOk result (λ linted. WhereUndeclared
        ((has_error linted.diagnostics.items ≡ false) ↔ MachineReads definition.entry.text.now)
        declared.entry) }
    ensures is_read { IfOk result
        (λ linted. linted.is_read ≡ not (list_any tells_no_json linted.diagnostics.items)) }
{
    no_broken_rule_means_closed();
    closed_runs_never_fault();
    closed_runs_tell_no_fault();
    let diagnostics = sorted_diagnostics(alloc, definition, declared, max_rounds)?;
    let is_read = !some_no_json(&diagnostics);
    Ok(Linted {
        diagnostics,
        is_read,
    })
}

/// What is told, in the order of its places.
fn sorted_diagnostics<'f>(
    alloc: Global,
    definition: File<'f>,
    declared: Option<File<'f>>,
    max_rounds: u32,
) -> Result<Vec<Diagnostic>, OutOfMemory>
    ensures { IfOk result (λ diagnostics.
        Tells max_rounds definition.entry.text.now (text_of declared.entry) diagnostics.items) }
{
    let problems = problems_of_texts(alloc, definition.text, text_of(declared), max_rounds)?;
    let mut diagnostics = diagnostics_of(alloc, definition, declared, problems)?;
    sort(&mut diagnostics)?;
    Ok(diagnostics)
}

/// The text of the file, where it is given.
fn text_of(file: Option<File<'_>>) -> Option<&[u8]>
    ensures { option_map (λ text. text.now) result ≡ text_of file.entry }
{
    match file {
        Some(file) => Some(file.text),
        None => None,
    }
}

/// Whether one of the diagnostics says that a text is no JSON.
fn some_no_json(diagnostics: &[Diagnostic]) -> bool
    ensures { result ≡ list_any tells_no_json diagnostics.now }
{
    diagnostics.iter().any(|told| told.rule.id == "NotJson")
}
