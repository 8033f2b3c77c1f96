//! Trees straight from the tokens of JSON texts (RFC 8259), with no JSON value in between.
ghost use Rattle.std.specs.Prelude.{◌≡◌, ◌<◌, ◌==◌, length, slice_index, Some, IfOk, IfSome, IsTrue, OnOk, option_and_then};
ghost use Rattle.fast_float.specs.Text.{minus};
ghost use Rattle.json.specs.Json.{value, number, items, members};
ghost use Rattle.serde_json.specs.Find.{as_i64};
ghost use Rattle.serde_json.specs.Read.{converted, number_of};
ghost use Rattle.asl_model.specs.Json.{ReadsAsTree};
ghost use Rattle.asl_tree.specs.Parsed.{spelled, spelled_elements, spelled_fields};
ghost use Rattle.asl_tree.specs.View.{view, elements_view, entries_view};

use crate::{Tree, TreeRefusal};
use fast_float::Numeral;
use json::{Reader, Scratch, Token};
use std::alloc::Global;
use std::collections::BTreeMap;

/// How deep arrays and objects nest at most.
const MOST_LEVELS: usize = 127;

/// The tree that the text is, read in one pass.
///
/// What it refuses may still be a tree: one with a number that isn't whole under a name that comes again.
pub(crate) fn parse(alloc: Global, text: &str) -> Result<Tree, TreeRefusal>
    ensures { IfOk result (λ t. ReadsAsTree text.now (view t)) }
{
    let mut scratch = Scratch::new(alloc);
    let mut reader = Reader::new(text, &mut scratch)?;
    let tree = next_tree(alloc, &mut reader, MOST_LEVELS)?;
    match reader.next() {
        None => Ok(tree),
        Some(_) => Err(TreeRefusal::NotJson),
    }
}

/// The tree that the next tokens spell, with at most so many levels of arrays and objects, each of which takes its part of
/// the stack. Its tokens are no longer among those that are left.
///
/// Refused: NotJson where the tokens spell no value, or one of more levels; NotWhole where a number isn't whole, or is out of
/// an `i64`'s range; OutOfMemory where an allocation was refused. What is refused as NotWhole may still be a tree, as where
/// [`read`](crate::read) looks once more: one with such a number under a name that comes again.
#[cycle(parse)]
pub fn next_tree(alloc: Global, reader: &mut Reader<'_>, levels: usize) -> Result<Tree, TreeRefusal>
    ensures tree { IfOk result
        (λ t. converted spelled (value levels reader.old) ≡ Some (view t, reader.new)) }
    ensures shorter { OnOk result (length reader.new < length reader.old) }
{
    let Some(token) = reader.next() else {
        return Err(TreeRefusal::NotJson);
    };
    match token {
        Token::Null => Ok(Tree::Null),
        Token::Bool(b) => Ok(Tree::Bool(b)),
        Token::Number(text) => integer_in(text),
        Token::String(text) => Ok(Tree::Text(String::from_str(alloc, text)?)),
        Token::BeginArray => {
            if levels == 0 {
                return Err(TreeRefusal::NotJson);
            }
            Ok(Tree::List(elements(alloc, reader, levels - 1)?))
        }
        Token::BeginObject => {
            if levels == 0 {
                return Err(TreeRefusal::NotJson);
            }
            Ok(Tree::Object(fields(alloc, reader, levels - 1)?))
        }
        Token::EndObject | Token::EndArray | Token::Key(_) | Token::Bad => {
            Err(TreeRefusal::NotJson)
        }
    }
}

/// The trees up to the end of the array, with at most so many levels.
#[cycle(parse)]
fn elements(alloc: Global, reader: &mut Reader<'_>, levels: usize) -> Result<Vec<Tree>, TreeRefusal>
    ensures elements { IfOk result (λ v.
        converted spelled_elements (items (value levels) (length reader.old) reader.old)
        ≡ Some (elements_view v.items, reader.new)) }
    ensures shorter { OnOk result (length reader.new < length reader.old) }
{
    let mut elements = Vec::new(alloc);
    'elements: while !reader.take_end_array() {
        let element = next_tree(alloc, reader, levels)?;
        elements.push(element)?;
    }
    Ok(elements)
}

/// The fields up to the end of the object, with at most so many levels. The last tree of a name stays.
#[cycle(parse)]
fn fields(
    alloc: Global,
    reader: &mut Reader<'_>,
    levels: usize,
) -> Result<BTreeMap<String, Tree>, TreeRefusal>
    ensures fields { IfOk result (λ m.
        converted spelled_fields (members (value levels) (length reader.old) reader.old)
        ≡ Some (entries_view m.entries, reader.new)) }
    ensures shorter { OnOk result (length reader.new < length reader.old) }
{
    let mut fields = BTreeMap::new(alloc);
    'fields: loop {
        match reader.next_key() {
            Ok(Some(name)) => {
                let name = String::from_str(alloc, name)?;
                let tree = next_tree(alloc, reader, levels)?;
                drop(fields.insert(name, tree)?);
            }
            Ok(None) => return Ok(fields),
            Err(_) => return Err(TreeRefusal::NotJson),
        }
    }
}

/// The integer that a number's token writes, where it has neither point nor exponent and fits an `i64`. `-0` is none.
fn integer_in(text: &str) -> Result<Tree, TreeRefusal>
    ensures { IfOk result (λ t. spelled (number text.now) ≡ Some (view t)) }
{
    match integer_of(text.as_bytes()) {
        Some(n) => Ok(Tree::Int(n)),
        None => Err(TreeRefusal::NotWhole),
    }
}

/// The same of the token's bytes.
fn integer_of(bytes: &[u8]) -> Option<i64>
    ensures { IfSome result (λ n. option_and_then as_i64 (number_of bytes.now) ≡ Some n) }
{
    if !has_minus(bytes) {
        return Numeral::scan(bytes).to_i64(false);
    }
    let n = Numeral::scan(&bytes[1..]).to_i64(true)?;
    if n < 0 { Some(n) } else { None }
}

/// Whether a minus sign stands in front.
fn has_minus(bytes: &[u8]) -> bool
    ensures value { result ≡ (slice_index bytes.now 0 == minus) }
    ensures some { IsTrue result → 0 < length bytes.now }
{
    !bytes.is_empty() && bytes[0] == b'-'
}
