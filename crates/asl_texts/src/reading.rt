//! What a text reads as: a definition, declared shapes, a certificate, a tree, answers.

ghost use Rattle.std.specs.Prelude.{◌≡◌, map, IfOk, IfErr, IfSome};
ghost use Rattle.serde_json.specs.View.{view as json_view};
ghost use Rattle.asl_model.specs.AnswersSpelling.{ReadsAsAnswers};
ghost use Rattle.asl_model.specs.Json.{ReadsAsTree, ReadsAsValue};
ghost use Rattle.asl_model.specs.Texts.{AnswersText, CertificateText, DeclaredText, DefinitionText, ReadsAsDeclared, ReadsAsCertificate};
ghost use Rattle.asl_records.specs.Numbered.{AreWithin, numbered_view};
ghost use Rattle.asl_records.specs.View.{declared_view};
ghost use Rattle.asl_run.specs.Entries.{answer_view};
ghost use Rattle.asl_tree.specs.View.{view};
ghost use Rattle.asl_texts.specs.Answers.{answers_fault_of};
ghost use Rattle.asl_texts.specs.Runs.{RefusesAnswers, RefusesTree};
ghost use Rattle.asl_texts.specs.Verifying.{IsRefusedAs, ReadsInto, RefusesDefinition, RefusesDeclared, RefusesCertificate, UnreadableStands, record_fault_of};
ghost use Rattle.asl_texts.specs.View.{def_refusal_view, text_fault_view, tree_refusal_view, which_view};

use crate::answering::{AnswersRefusal, read_answers};
use crate::refusals::{TextFault, TextRefusal, Which};
use asl_machine::{DefFault, DefRefusal, Machine};
use asl_records::{Declared, NumberedCertificate, ReadFault, read_declared, read_numbered};
use asl_run::Answer;
use asl_streams::{read_streamed, read_streamed_declared};
use asl_tree::{OutOfMemory, Tree, TreeRefusal};
use serde_json::Value;
use std::alloc::Global;
use std::collections::VecDeque;

/// The machine that shows the definition which a text stands for.
pub(crate) fn machine_text(alloc: Global, text: &[u8]) -> Result<Machine, TextRefusal>
    ensures machine { IfOk result (λ machine. ReadsInto text.now machine) }
    ensures refused { IfErr result (IsRefusedAs DefinitionText (RefusesDefinition text.now)) }
{
    let which = Which::Definition;
    let value = json_value(alloc, which, text)?;
    match asl_machine::read(alloc, &value) {
        Ok(machine) => Ok(machine),
        Err(refusal) => Err(TextRefusal {
            which,
            fault: definition_fault(refusal),
        }),
    }
}

/// The declared shapes that a text stands for.
pub(crate) fn declared_text(alloc: Global, text: &[u8]) -> Result<Declared, TextRefusal>
    ensures declared { IfOk result (λ declared. ReadsAsDeclared text.now (declared_view declared)) }
    ensures refused { IfErr result (IsRefusedAs DeclaredText (RefusesDeclared text.now)) }
{
    if let Some(declared) = streamed_declared(alloc, text)? {
        return Ok(declared);
    }
    let which = Which::Declared;
    let tree = tree_text(alloc, which, text)?;
    match read_declared(alloc, &tree) {
        Ok(declared) => Ok(declared),
        Err(fault) => Err(TextRefusal {
            which,
            fault: record_fault(fault),
        }),
    }
}

/// The declared shapes that a text stands for, where they can be read shape by shape. What is wrong with a text that isn't read
/// so is told by a reading of the whole.
fn streamed_declared(alloc: Global, text: &[u8]) -> Result<Option<Declared>, TextRefusal>
    ensures declared { IfOk result (λ found. IfSome found
        (λ declared. ReadsAsDeclared text.now (declared_view declared))) }
    ensures refused { IfErr result (IsRefusedAs DeclaredText (RefusesDeclared text.now)) }
{
    let Ok(text) = str::from_utf8(text) else {
        return Ok(None);
    };
    match read_streamed_declared(alloc, text) {
        Ok(found) => Ok(found),
        Err(OutOfMemory) => Err(TextRefusal {
            which: Which::Declared,
            fault: TextFault::OutOfMemory,
        }),
    }
}

/// The certificate that a text stands for, its shapes in a table.
pub(crate) fn certificate_text(
    alloc: Global,
    text: &[u8],
) -> Result<NumberedCertificate, TextRefusal>
    ensures certificate { IfOk result
        (λ certificate. ReadsAsCertificate text.now (numbered_view certificate)) }
    ensures within { IfOk result AreWithin }
    ensures refused { IfErr result (IsRefusedAs CertificateText (RefusesCertificate text.now)) }
{
    if let Some(certificate) = streamed_certificate(alloc, text)? {
        return Ok(certificate);
    }
    let which = Which::Certificate;
    let tree = tree_text(alloc, which, text)?;
    match read_numbered(alloc, &tree) {
        Ok(certificate) => Ok(certificate),
        Err(fault) => Err(TextRefusal {
            which,
            fault: record_fault(fault),
        }),
    }
}

/// The certificate that a text stands for, where it can be read shape by shape. What is wrong with a text that isn't read so is
/// told by a reading of the whole.
fn streamed_certificate(
    alloc: Global,
    text: &[u8],
) -> Result<Option<NumberedCertificate>, TextRefusal>
    ensures certificate { IfOk result (λ found. IfSome found
        (λ certificate. ReadsAsCertificate text.now (numbered_view certificate))) }
    ensures within { IfOk result (λ found. IfSome found AreWithin) }
    ensures refused { IfErr result (IsRefusedAs CertificateText (RefusesCertificate text.now)) }
{
    let Ok(text) = str::from_utf8(text) else {
        return Ok(None);
    };
    match read_streamed(alloc, text) {
        Ok(found) => Ok(found),
        Err(OutOfMemory) => Err(TextRefusal {
            which: Which::Certificate,
            fault: TextFault::OutOfMemory,
        }),
    }
}

/// The tree that a text reads as.
pub(crate) fn tree_text(alloc: Global, which: Which, text: &[u8]) -> Result<Tree, TextRefusal>
    ensures tree { IfOk result (λ tree. ReadsAsTree text.now (view tree)) }
    ensures refused { IfErr result (IsRefusedAs (which_view which) (RefusesTree text.now)) }
{
    match asl_tree::read(alloc, text) {
        Ok(tree) => Ok(tree),
        Err(refusal) => Err(TextRefusal {
            which,
            fault: tree_fault(refusal),
        }),
    }
}

/// The answers that a text reads as.
pub(crate) fn answers_text(alloc: Global, text: &[u8]) -> Result<VecDeque<Answer>, TextRefusal>
    ensures answers { IfOk result (λ answers.
        ReadsAsAnswers text.now (map answer_view answers.items)) }
    ensures refused { IfErr result (IsRefusedAs AnswersText (RefusesAnswers text.now)) }
{
    let which = Which::Answers;
    let tree = tree_text(alloc, which, text)?;
    match read_answers(alloc, tree) {
        Ok(answers) => Ok(answers),
        Err(refusal) => Err(TextRefusal {
            which,
            fault: answers_fault(refusal),
        }),
    }
}

/// The JSON value that a text reads as.
fn json_value(alloc: Global, which: Which, text: &[u8]) -> Result<Value, TextRefusal>
    ensures value { IfOk result (λ value. ReadsAsValue text.now (json_view value)) }
    ensures refused { IfErr result (IsRefusedAs (which_view which) (UnreadableStands text.now)) }
{
    match asl_tree::read_value(alloc, text) {
        Ok(value) => Ok(value),
        Err(refusal) => Err(TextRefusal {
            which,
            fault: tree_fault(refusal),
        }),
    }
}

/// What is wrong with a text that is no definition.
fn definition_fault(refusal: DefRefusal) -> TextFault
    ensures { text_fault_view result ≡ def_refusal_view refusal }
{
    match refusal.fault {
        DefFault::OutOfMemory => TextFault::OutOfMemory,
        _ => TextFault::Def(refusal),
    }
}

/// What is wrong with a text that isn't the tree that it should be.
fn tree_fault(refusal: TreeRefusal) -> TextFault
    ensures { text_fault_view result ≡ tree_refusal_view refusal }
{
    match refusal {
        TreeRefusal::OutOfMemory => TextFault::OutOfMemory,
        TreeRefusal::NotJson | TreeRefusal::NotWhole => TextFault::Tree(refusal),
    }
}

/// What is wrong with a text that isn't the record it should be.
fn record_fault(fault: ReadFault) -> TextFault
    ensures { text_fault_view result ≡ record_fault_of fault }
{
    match fault {
        ReadFault::Record(refusal) => TextFault::Record(refusal),
        ReadFault::OutOfMemory => TextFault::OutOfMemory,
    }
}

/// What is wrong with a text whose tree isn't read as answers.
fn answers_fault(refusal: AnswersRefusal) -> TextFault
    ensures { text_fault_view result ≡ answers_fault_of refusal }
{
    match refusal {
        AnswersRefusal::BadAnswer(position) => TextFault::BadAnswer(position),
        AnswersRefusal::OutOfMemory => TextFault::OutOfMemory,
    }
}
