//! Values of arguments.
ghost use Rattle.std.specs.Prelude.{◌≡◌, ◌++◌, Some, IfSome, OnOk, string_bytes};
ghost use Rattle.asl_model.specs.Intrinsic.{decimal_text, joined_by_holes};
ghost use Rattle.asl_model.specs.Path.{named_by};
ghost use Rattle.asl_tree.specs.View as trees;
ghost use Rattle.asl_intrinsic.specs.Answer.{Answers, value_view, WritesWord};
ghost use Rattle.asl_intrinsic.specs.View.{pieces_view};

use crate::{EvalRefusal, Pieces};
use asl_path::{RefPath, find};
use asl_tree::{Tree, copy};
use itoa::Buffer;
use std::alloc::{AllocError, Global};

/// The value of an argument.
#[derive(Drop)]
pub(crate) enum Value<'v> {
    /// A literal text: a text in which each hole is the characters `{}`.
    Literal(&'v Pieces),
    /// A node of the input or of the item.
    Lent(&'v Tree),
    /// A value of the argument's own.
    Made(Tree),
}

impl<'v> Value<'v> {
    /// The value as a tree of its own.
    pub(crate) fn into_tree(self, alloc: Global) -> Result<Tree, EvalRefusal>
        ensures { Answers trees.view result (Some (value_view self.entry)) }
    {
        match self {
            Value::Literal(pieces) => {
                let mut text = String::new(alloc);
                push_whole(&mut text, pieces)?;
                Ok(Tree::Text(text))
            }
            Value::Lent(tree) => Ok(copy(alloc, tree)?),
            Value::Made(tree) => Ok(tree),
        }
    }

    /// Writes the value's word behind the text so far. A list or an object has none.
    pub(crate) fn push_word(&self, text: &mut String) -> Result<(), EvalRefusal>
        ensures { WritesWord (string_bytes text.old) (string_bytes text.new) result
            (value_view self.now) }
    {
        match self {
            Value::Literal(pieces) => Ok(push_whole(text, pieces)?),
            Value::Lent(tree) => push_tree(text, tree),
            Value::Made(tree) => push_tree(text, tree),
        }
    }
}

/// What the path names in the tree.
pub(crate) fn named<'t>(tree: &'t Tree, path: &RefPath) -> Result<&'t Tree, EvalRefusal>
    ensures { Answers (λ t. trees.view t.now) result (named_by path.now (trees.view tree.now)) }
{
    match find(tree, path) {
        Some(node) => Ok(node),
        None => Err(EvalRefusal::IntrinsicFailure),
    }
}

/// Writes the literal text behind the text so far, each hole as the characters `{}`.
fn push_whole(text: &mut String, pieces: &Pieces) -> Result<(), AllocError>
    ensures { OnOk result (string_bytes text.new
        ≡ string_bytes text.old ++ joined_by_holes (pieces_view pieces.now).first
        (pieces_view pieces.now).after_holes) }
{
    text.push_str(&pieces.first)?;
    for piece in &pieces.after_holes {
        text.push_str("{}")?;
        text.push_str(piece)?;
    }
    Ok(())
}

/// Writes the word for the tree behind the text so far.
fn push_tree(text: &mut String, tree: &Tree) -> Result<(), EvalRefusal>
    ensures { WritesWord (string_bytes text.old) (string_bytes text.new) result
        (trees.view tree.now) }
{
    match tree {
        Tree::Null => Ok(text.push_str("null")?),
        Tree::Bool(true) => Ok(text.push_str("true")?),
        Tree::Bool(false) => Ok(text.push_str("false")?),
        Tree::Int(number) => Ok(push_number(text, *number)?),
        Tree::Text(word) => Ok(text.push_str(word)?),
        Tree::List(_) | Tree::Object(_) => Err(EvalRefusal::IntrinsicFailure),
    }
}

/// Writes the number in decimal behind the text so far.
fn push_number(text: &mut String, number: i64) -> Result<(), AllocError>
    ensures { OnOk result (string_bytes text.new ≡ string_bytes text.old ++ decimal_text number) }
{
    text.push_str(Buffer::new().format(number))
}
