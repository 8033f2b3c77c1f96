//! Reading the answers of tasks.

ghost use Rattle.std.specs.Prelude.{◌≡◌, [], ◌∷◌, map, IfOk, IfErr, OnOk, option_map, codes, string_bytes};
ghost use Rattle.asl_model.specs.AnswersSpelling.{answers_from, answer_faults, each_answer, bad_answers, answer_of, failing, only_fields};
ghost use Rattle.asl_model.specs.ShapeSpelling.{is_among};
ghost use Rattle.asl_model.specs.Test.{as_text};
ghost use Rattle.asl_tree.specs.View.{view, elements_view, entries_view};
ghost use Rattle.asl_run.specs.Entries.{answer_view};
ghost use Rattle.asl_texts.specs.Answers.{IsAnswersRefusal, IsFirstOf};
ghost use Rattle.asl_texts.specs.declared.answering.AnswersRefusal.TheVariants as refusals;

use asl_run::Answer;
use asl_tree::{Tree, WantOfMemory};
use std::alloc::Global;
use std::collections::{BTreeMap, VecDeque};
use std::rc::Rc;

/// Why a tree is read as no list of answers.
#[derive(Drop)]
pub(crate) enum AnswersRefusal {
    /// The element at this position is no answer, the first such; or the tree is no list, at 0.
    BadAnswer(usize),
    /// There was no memory for the list.
    OutOfMemory,
}

impl<E: WantOfMemory + Drop> From<E> for AnswersRefusal {
    ghost use Rattle.asl_texts.specs.declared.answering.AnswersRefusal.{AnswersRefusal};

    ghost from_gives = { λ _ refusal. refusal ≡ AnswersRefusal.OutOfMemory };

    fn from(_want: E) -> AnswersRefusal {
        AnswersRefusal::OutOfMemory
    }
}

/// The answers that a tree stands for: a list of `{"Gives": value}` and `{"Fails": {"Error": text, "Cause": text}}`,
/// where `Cause` may be absent. The values move from the tree.
///
/// Refused: BadAnswer with the position of the first element that is no answer, 0 where the tree is no list.
pub(crate) fn read_answers(alloc: Global, tree: Tree) -> Result<VecDeque<Answer>, AnswersRefusal>
    ensures right { OnOk result (answer_faults (view tree) ≡ []) }
    ensures answers { IfOk result
        (λ answers. map answer_view answers.items ≡ answers_from (view tree)) }
    ensures refused { IfErr result (IsAnswersRefusal (view tree)) }
{
    match tree {
        Tree::List(elements) => answers_in(alloc, elements),
        Tree::Null | Tree::Bool(_) | Tree::Int(_) | Tree::Text(_) | Tree::Object(_) => {
            Err(AnswersRefusal::BadAnswer(0))
        }
    }
}

/// The answers that the elements of a list stand for. An element that is no answer stands behind those that gave
/// one, so its position is their number.
fn answers_in(alloc: Global, elements: Vec<Tree>) -> Result<VecDeque<Answer>, AnswersRefusal>
    ensures right { OnOk result (bad_answers 0 (elements_view elements.items) ≡ []) }
    ensures answers { IfOk result
        (λ answers. map answer_view answers.items ≡ each_answer (elements_view elements.items)) }
    ensures refused { IfErr result (IsFirstOf (bad_answers 0 (elements_view elements.items))) }
{
    let mut answers = Vec::with_capacity(alloc, elements.len())?;
    for element in elements {
        match answer_from(alloc, element)? {
            Some(answer) => answers.push(answer)?,
            None => return Err(AnswersRefusal::BadAnswer(answers.len())),
        }
    }
    Ok(VecDeque::from(answers))
}

/// The answer that a tree stands for; none where it stands for none. Refuses only for want of memory.
fn answer_from(alloc: Global, tree: Tree) -> Result<Option<Answer>, AnswersRefusal>
    ensures exactly { IfOk result
        (λ answer. option_map answer_view answer ≡ answer_of (view tree)) }
    ensures refused { IfErr result (λ refusal. refusal ≡ refusals.OutOfMemory) }
{
    let Tree::Object(fields) = tree else {
        return Ok(None);
    };
    let mut fields = fields.into_iter();
    let Some((name, value)) = fields.next() else {
        return Ok(None);
    };
    if fields.next().is_some() {
        return Ok(None);
    }
    match name.as_str() {
        "Gives" => Ok(Some(Answer::Gives(Rc::new(alloc, value)?))),
        "Fails" => Ok(failure_from(alloc, value)),
        _ => Ok(None),
    }
}

/// The failure that a tree stands for.
fn failure_from(alloc: Global, tree: Tree) -> Option<Answer>
    ensures { option_map answer_view result ≡ failing (view tree) }
{
    let Tree::Object(mut fields) = tree else {
        return None;
    };
    if !are_of_failure(&fields) {
        return None;
    }
    let error = text_of(fields.remove("Error")?)?;
    let cause = match fields.remove("Cause") {
        Some(cause) => text_of(cause)?,
        None => String::new(alloc),
    };
    Some(Answer::Fails { error, cause })
}

/// The text that a tree is.
fn text_of(tree: Tree) -> Option<String>
    ensures { option_map string_bytes result ≡ as_text (view tree) }
{
    match tree {
        Tree::Text(text) => Some(text),
        Tree::Null | Tree::Bool(_) | Tree::Int(_) | Tree::List(_) | Tree::Object(_) => None,
    }
}

/// Whether every field is one that a failure may have.
fn are_of_failure(fields: &BTreeMap<String, Tree>) -> bool
    ensures { result
        ≡ only_fields (codes "Error" ∷ codes "Cause" ∷ []) (entries_view fields.now.entries) }
{
    for (name, _) in fields.iter() {
        if !is_of_failure(name) {
            return false;
        }
    }
    true
}

/// Whether a failure may have a field of this name.
fn is_of_failure(name: &str) -> bool
    ensures { result ≡ is_among name.now (codes "Error" ∷ codes "Cause" ∷ []) }
{
    matches!(name, "Error" | "Cause")
}
