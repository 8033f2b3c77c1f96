//! The texts that a run goes by, read.

ghost use Rattle.std.specs.Prelude.{IsTrue, IfOk, IfErr, OnOk, map, option_map};
ghost use Rattle.asl_model.specs.Texts.{DeclaredText};
ghost use Rattle.asl_records.specs.View.{declared_view};
ghost use Rattle.asl_run.specs.Entries.{answer_view};
ghost use Rattle.asl_texts.specs.Fronts.{IfAnswersRead, NoFrontIsLong};
ghost use Rattle.asl_texts.specs.Runs.{GivesFault, IsGiven, ReadsAsShapes, RefusesShapes, SourceFault, SourceReads};
ghost use Rattle.asl_texts.specs.Runs.{texts_of};
ghost use Rattle.asl_texts.specs.Verifying.{IsRefusedAs};

use crate::reading::{answers_text, declared_text, machine_text, tree_text};
use crate::refusals::{RunFault, TextRefusal, Which};
use crate::sources::Source;
use crate::texts::read_text;
use asl_machine::Machine;
use asl_records::Declared;
use asl_run::Answer;
use asl_tree::Tree;
use std::alloc::Global;
use std::collections::VecDeque;

/// What the texts of a run read as.
#[derive(Drop)]
pub(crate) struct Given {
    pub(crate) machine: Machine,
    pub(crate) declared: Option<Declared>,
    pub(crate) input: Tree,
    pub(crate) answers: VecDeque<Answer>,
}

/// What the texts of a run read as. The answers are read last.
///
/// Refused: Text for the first refused text; TooLong where the answers are longer than a text may be; Read where a read
/// failed; OutOfMemory.
pub(crate) fn read_given<S: Source>(
    alloc: Global,
    definition: &[u8],
    declared: Option<&[u8]>,
    input: &[u8],
    answers: &mut S,
) -> Result<Given, RunFault>
    ensures given { let texts = texts_of definition.now
        (option_map (λ text. text.now) declared.entry) input.now (S.remaining answers.old) in
        IfOk result (IsGiven texts) }
    ensures endless { OnOk result (NoFrontIsLong (S.begins answers.old)) }
    ensures endless_fault { IfErr result (IfAnswersRead (NoFrontIsLong (S.begins answers.old))) }
    ensures fault { let texts = texts_of definition.now
        (option_map (λ text. text.now) declared.entry) input.now (S.remaining answers.old) in
        IfErr result (GivesFault texts (S.failed answers.new)) }
    ensures lasting { IsTrue (S.failed answers.old) → IsTrue (S.failed answers.new) }
{
    let machine = machine_text(alloc, definition)?;
    let declared = declared_where_given(alloc, declared)?;
    let input = tree_text(alloc, Which::Input, input)?;
    let answers = answers_in_source(alloc, answers)?;
    Ok(Given {
        machine,
        declared,
        input,
        answers,
    })
}

/// The declared shapes that a text stands for, where there is one.
fn declared_where_given(alloc: Global, text: Option<&[u8]>) -> Result<Option<Declared>, TextRefusal>
    ensures declared { IfOk result (λ declared.
        ReadsAsShapes (option_map (λ t. t.now) text.entry) (option_map declared_view declared)) }
    ensures refused { IfErr result
        (IsRefusedAs DeclaredText (RefusesShapes (option_map (λ t. t.now) text.entry))) }
{
    match text {
        Some(text) => Ok(Some(declared_text(alloc, text)?)),
        None => Ok(None),
    }
}

/// The answers that all the bytes of a source read as.
fn answers_in_source<S: Source>(alloc: Global, source: &mut S) -> Result<VecDeque<Answer>, RunFault>
    ensures answers { IfOk result (λ answers.
        SourceReads (S.remaining source.old) (map answer_view answers.items)) }
    ensures endless { OnOk result (NoFrontIsLong (S.begins source.old)) }
    ensures endless_fault { IfErr result (IfAnswersRead (NoFrontIsLong (S.begins source.old))) }
    ensures fault { IfErr result
        (λ fault. SourceFault (S.remaining source.old) (S.failed source.new) fault) }
    ensures lasting { IsTrue (S.failed source.old) → IsTrue (S.failed source.new) }
{
    let text = read_text(alloc, source)?;
    Ok(answers_text(alloc, &text)?)
}
