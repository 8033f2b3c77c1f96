//! The functions, for the values of their arguments (States Language, "Appendix B: List of Intrinsic Functions").
ghost use Rattle.std.specs.Prelude.{◌≡◌, Some, None, length, option_map, pos};
ghost use Rattle.asl_model.specs.Intrinsic as model;
ghost use Rattle.asl_model.specs.Intrinsic.{cut_at_holes, formatted, holes_filled};
ghost use Rattle.asl_model.specs.Tree.{AndTree, Array, Text};
ghost use Rattle.asl_tree.specs.View as trees;
ghost use Rattle.asl_intrinsic.specs.Answer.{Answers, literal_in, values_view};
ghost use Rattle.asl_intrinsic.specs.View.{pieces_view};

use crate::value::Value;
use crate::{EvalRefusal, Pieces};
use asl_tree::Tree;
use std::alloc::Global;

/// `States.Array`: the list of the values.
pub(crate) fn array(alloc: Global, values: Vec<Value>) -> Result<Tree, EvalRefusal>
    ensures { Answers trees.view result (Some (Array (values_view values.entry.items))) }
{
    let mut elements = Vec::with_capacity(alloc, values.len())?;
    for value in values {
        elements.push(value.into_tree(alloc)?)?;
    }
    Ok(Tree::List(elements))
}

/// `States.ArrayLength`: how long the list is that the only value is.
pub(crate) fn array_length(values: &[Value]) -> Result<Tree, EvalRefusal>
    ensures { Answers trees.view result (model.array_length (values_view values.now)) }
{
    let [value] = values else {
        return Err(EvalRefusal::IntrinsicFailure);
    };
    match value {
        Value::Literal(_) => Err(EvalRefusal::IntrinsicFailure),
        Value::Lent(tree) => length_of(tree),
        Value::Made(tree) => length_of(tree),
    }
}

/// How long the list is.
fn length_of(tree: &Tree) -> Result<Tree, EvalRefusal>
    ensures { Answers trees.view result (model.length_of (trees.view tree.now)) }
{
    match tree {
        Tree::List(elements) => Ok(Tree::Int(count(elements))),
        Tree::Null | Tree::Bool(_) | Tree::Int(_) | Tree::Text(_) | Tree::Object(_) => {
            Err(EvalRefusal::IntrinsicFailure)
        }
    }
}

/// How many elements there are.
fn count(elements: &[Tree]) -> i64
    ensures { result ≡ pos (length elements.now) }
{
    elements.len() as i64
}

/// `States.Format`: the text that the first value is, its holes filled with the others.
pub(crate) fn format(alloc: Global, values: &[Value]) -> Result<Tree, EvalRefusal>
    ensures { Answers trees.view result
        (formatted (literal_in values.now) (values_view values.now)) }
{
    let [first, others @ ..] = values else {
        return Err(EvalRefusal::IntrinsicFailure);
    };
    match first {
        Value::Literal(pieces) => fill_pieces(pieces, others),
        Value::Lent(tree) => fill_tree(alloc, tree, others),
        Value::Made(tree) => fill_tree(alloc, tree, others),
    }
}

/// The literal text with the words for the values in its holes, where there are as many as holes.
fn fill_pieces(pieces: &Pieces, values: &[Value]) -> Result<Tree, EvalRefusal>
    ensures { Answers trees.view result
        (option_map Text (holes_filled (pieces_view pieces.now).first
        (pieces_view pieces.now).after_holes (values_view values.now))) }
{
    if values.len() != pieces.after_holes.len() {
        return Err(EvalRefusal::IntrinsicFailure);
    }
    let mut text = pieces.first.clone()?;
    for (hole, value) in values.iter().enumerate() {
        value.push_word(&mut text)?;
        text.push_str(&pieces.after_holes[hole])?;
    }
    Ok(Tree::Text(text))
}

/// The same of a text that is a value: there each `{}` is a hole.
fn fill_tree(alloc: Global, tree: &Tree, values: &[Value]) -> Result<Tree, EvalRefusal>
    ensures { Answers trees.view result
        (formatted None (AndTree (trees.view tree.now) (values_view values.now))) }
{
    match tree {
        Tree::Text(text) => fill_text(alloc, text, values),
        Tree::Null | Tree::Bool(_) | Tree::Int(_) | Tree::List(_) | Tree::Object(_) => {
            Err(EvalRefusal::IntrinsicFailure)
        }
    }
}

/// The text with the words for the values in place of each `{}`, where there are as many.
fn fill_text(alloc: Global, text: &str, values: &[Value]) -> Result<Tree, EvalRefusal>
    ensures { Answers trees.view result
        (option_map Text (holes_filled (cut_at_holes text.now).first
        (cut_at_holes text.now).after_holes (values_view values.now))) }
{
    let mut filled = String::new(alloc);
    let mut rest = text;
    for value in values {
        let Some((piece, behind)) = rest.split_once("{}") else {
            return Err(EvalRefusal::IntrinsicFailure);
        };
        filled.push_str(piece)?;
        value.push_word(&mut filled)?;
        rest = behind;
    }
    if rest.contains("{}") {
        return Err(EvalRefusal::IntrinsicFailure);
    }
    filled.push_str(rest)?;
    Ok(Tree::Text(filled))
}
