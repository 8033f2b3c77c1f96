//! Reading calls.
ghost use Rattle.std.specs.Prelude.{◌≡◌, IfErr, IfOk, length};
ghost use Rattle.asl_model.specs.CallGrammar.{SpellsCall};
ghost use Rattle.asl_model.specs.CallSpelling.{cut_argument as argument_at, cut_arguments as arguments_at, cut_call as call_at, cut_parentheses as inside_at, cut_word as word_at};
ghost use Rattle.asl_intrinsic.specs.Cutting.{Cuts};
ghost use Rattle.asl_intrinsic.specs.Meaning.{IsRefused, argument_meaning, argument_seen, arguments_meaning, arguments_seen, call_meaning, call_seen};
ghost use Rattle.asl_intrinsic.specs.View.{view};

use crate::cutting::{CutRefusal, Meant};
use crate::literal::cut_text;
use crate::meaning::{and_argument, call_of, nested, path_meaning};
use crate::scanning::{Part, cut_path, without_spaces};
use crate::words::{cut_negative, word_of};
use crate::{Arg, Call, CallRefusal};
use std::alloc::Global;

/// How deep calls may nest, the outer one counted.
const MOST_NESTED: u32 = 32;

/// The call that the text spells (States Language, "Intrinsic Functions").
///
/// `item` says whether paths to a Map's item are allowed. Of the refusals of a text the first that stands counts.
pub fn parse(alloc: Global, text: &str, item: bool) -> Result<Call, CallRefusal>
    ensures call { IfOk result (λ call. SpellsCall item text.now (view call)) }
    ensures refused { IfErr result (λ refusal. IsRefused item text.now refusal) }
{
    let (call, rest) = cut_call(alloc, MOST_NESTED, text, item)?;
    if !rest.is_empty() {
        return Err(CallRefusal::Malformed);
    }
    Ok(call?)
}

/// The call that the text begins with, in which calls nest at most that deep, and what is behind it.
#[cycle(cut_call)]
fn cut_call(
    alloc: Global,
    depth: u32,
    text: &str,
    item: bool,
) -> Result<(Meant<Call>, &str), CutRefusal>
    ensures { Cuts (call_meaning item) call_seen (call_at depth text.now) result }
{
    if depth == 0 {
        return Err(CutRefusal::Malformed);
    }
    let (name, behind) = Part::Word.cut(text);
    if name.is_empty() {
        return Err(CutRefusal::Malformed);
    }
    let Some(inside) = behind.strip_prefix("(") else {
        return Err(CutRefusal::Malformed);
    };
    let (arguments, rest) = cut_inside(alloc, depth - 1, without_spaces(inside), item)?;
    Ok((call_of(name, arguments), rest))
}

/// The arguments that stand in front of the next `)`, and what is behind it.
#[cycle(cut_call)]
fn cut_inside(
    alloc: Global,
    depth: u32,
    text: &str,
    item: bool,
) -> Result<(Meant<Vec<Arg>>, &str), CutRefusal>
    ensures { Cuts (arguments_meaning item) arguments_seen
        (inside_at (λ rest. call_at depth rest) text.now) result }
{
    match text.strip_prefix(")") {
        Some(rest) => Ok((Ok(Vec::new(alloc)), rest)),
        None => cut_arguments(alloc, depth, text, item),
    }
}

/// The arguments, at least one, that stand in front of the next `)`, and what is behind it.
#[cycle(cut_call)]
fn cut_arguments(
    alloc: Global,
    depth: u32,
    text: &str,
    item: bool,
) -> Result<(Meant<Vec<Arg>>, &str), CutRefusal>
    ensures { Cuts (arguments_meaning item) arguments_seen
        (arguments_at (λ rest. call_at depth rest) (length text.now) text.now) result }
{
    let mut arguments = Ok(Vec::new(alloc));
    let mut left = text;
    // Each argument takes a byte at least.
    for _ in 0..text.len() {
        let (argument, behind) = cut_argument(alloc, depth, without_spaces(left), item)?;
        arguments = and_argument(arguments, argument)?;
        let behind = without_spaces(behind);
        if let Some(rest) = behind.strip_prefix(")") {
            return Ok((arguments, rest));
        }
        let Some(further) = behind.strip_prefix(",") else {
            return Err(CutRefusal::Malformed);
        };
        left = further;
    }
    Err(CutRefusal::Malformed)
}

/// The argument that the text begins with, and what is behind it.
#[cycle(cut_call)]
fn cut_argument(
    alloc: Global,
    depth: u32,
    text: &str,
    item: bool,
) -> Result<(Meant<Arg>, &str), CutRefusal>
    ensures { Cuts (argument_meaning item) argument_seen
        (argument_at (λ rest. call_at depth rest) text.now) result }
{
    if let Some(inside) = text.strip_prefix("'") {
        let (pieces, rest) = cut_text(alloc, inside)?;
        return Ok((Ok(Arg::Text(pieces)), rest));
    }
    if text.starts_with("$") {
        let (path, rest) = cut_path(text);
        return Ok((path_meaning(alloc, path, item)?, rest));
    }
    match text.strip_prefix("-") {
        Some(digits) => match cut_negative(digits) {
            Some((number, rest)) => Ok((Ok(Arg::Int(number)), rest)),
            None => Err(CutRefusal::Malformed),
        },
        None => cut_word(alloc, depth, text, item),
    }
}

/// The word or the nested call that the text begins with, and what is behind it.
#[cycle(cut_call)]
fn cut_word(
    alloc: Global,
    depth: u32,
    text: &str,
    item: bool,
) -> Result<(Meant<Arg>, &str), CutRefusal>
    ensures { Cuts (argument_meaning item) argument_seen
        (word_at (λ rest. call_at depth rest) text.now) result }
{
    let (word, behind) = Part::Word.cut(text);
    if behind.starts_with("(") {
        let (call, rest) = cut_call(alloc, depth, text, item)?;
        return Ok((nested(call), rest));
    }
    match word_of(word) {
        Some(argument) => Ok((Ok(argument), behind)),
        None => Err(CutRefusal::Malformed),
    }
}
