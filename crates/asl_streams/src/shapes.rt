//! Shapes read from tokens into a table, one property after another: no tree of a whole shape stands in memory, but those of
//! its other keywords.
ghost use Rattle.std.specs.Prelude.{◌<◌, length, IfOk, OnOk};
ghost use Rattle.asl_numbered.specs.Expansion.{Keeps};
ghost use Rattle.asl_numbered.specs.References.{shapes_given};
ghost use Rattle.asl_records.specs.Listed.{AreInTable};
ghost use Rattle.asl_streams.specs.Shaped.{ReadsElements, ReadsMentions, ReadsProperties, ReadsShape, ReadsShapes, ReadsSpelling};

use crate::reader::Reader;
use crate::spellings::{Spelling, read_tree};
use crate::unread::{Unread, no_tree};
use asl_numbered::{NodeField, Shapes};
use asl_tree::{Tree, next_tree};
use json::{Reader as Tokens, Token};
use std::collections::BTreeMap;
use std::rc::RcStr;

/// The number of the shape that the next tokens spell, with at most so many levels.
#[cycle(shape)]
pub(crate) fn next_shape(
    reader: Reader<'_>,
    tokens: &mut Tokens<'_>,
    levels: usize,
    shapes: &mut Shapes,
) -> Result<usize, Unread>
    requires listed { AreInTable shapes.old reader.listed }
    ensures number { IfOk result (ReadsShape reader.entry.several
        (shapes_given shapes.old reader.entry.listed) levels tokens.old tokens.new shapes.new) }
    ensures shorter { OnOk result (length tokens.new < length tokens.old) }
    ensures keeps { Keeps shapes.old shapes.new }
{
    match tokens.next() {
        Some(Token::Bool(all)) => read_tree(reader, shapes, &Tree::Bool(all)),
        Some(Token::BeginObject) => {
            if levels == 0 {
                return Err(Unread::Whole);
            }
            let spelling = next_spelling(reader, tokens, levels - 1, shapes)?;
            spelling.read(reader, shapes)
        }
        _ => Err(Unread::Whole),
    }
}

/// What the keywords up to the end of the object say, the shapes of properties in the table, with at most so many levels.
#[cycle(shape)]
pub(crate) fn next_spelling(
    reader: Reader<'_>,
    tokens: &mut Tokens<'_>,
    levels: usize,
    shapes: &mut Shapes,
) -> Result<Spelling, Unread>
    requires listed { AreInTable shapes.old reader.listed }
    ensures spelling { IfOk result (ReadsSpelling reader.entry.several
        (shapes_given shapes.old reader.entry.listed) levels tokens.old tokens.new shapes.new) }
    ensures shorter { OnOk result (length tokens.new < length tokens.old) }
    ensures keeps { Keeps shapes.old shapes.new }
{
    let mut spelling = Spelling::new(reader.alloc);
    'keywords: loop {
        match tokens.next_key() {
            Ok(Some(name)) => {
                if name == "properties" {
                    let properties = next_properties(reader, tokens, levels, shapes)?;
                    spelling.put_properties(reader.alloc, properties)?;
                } else {
                    let name = String::from_str(reader.alloc, name)?;
                    match next_tree(reader.alloc, tokens, levels) {
                        Ok(tree) => spelling.put(name, tree)?,
                        Err(refusal) => return Err(no_tree(refusal)),
                    }
                }
            }
            Ok(None) => return Ok(spelling),
            Err(_) => return Err(Unread::Whole),
        }
    }
}

/// The fields that the next tokens mention as properties, none of them needed, with at most so many levels.
#[cycle(shape)]
fn next_properties(
    reader: Reader<'_>,
    tokens: &mut Tokens<'_>,
    levels: usize,
    shapes: &mut Shapes,
) -> Result<BTreeMap<RcStr, NodeField>, Unread>
    requires listed { AreInTable shapes.old reader.listed }
    ensures properties { IfOk result (λ m. ReadsProperties reader.entry.several
        (shapes_given shapes.old reader.entry.listed) levels tokens.old tokens.new shapes.new
        m.entries) }
    ensures shorter { OnOk result (length tokens.new < length tokens.old) }
    ensures keeps { Keeps shapes.old shapes.new }
{
    let Some(Token::BeginObject) = tokens.next() else {
        return Err(Unread::Whole);
    };
    if levels == 0 {
        return Err(Unread::Whole);
    }
    next_mentions(reader, tokens, levels - 1, shapes)
}

/// The fields up to the end of the object, each of the shape that its value spells, with at most so many levels.
#[cycle(shape)]
fn next_mentions(
    reader: Reader<'_>,
    tokens: &mut Tokens<'_>,
    levels: usize,
    shapes: &mut Shapes,
) -> Result<BTreeMap<RcStr, NodeField>, Unread>
    requires listed { AreInTable shapes.old reader.listed }
    ensures mentions { IfOk result (λ m. ReadsMentions reader.entry.several
        (shapes_given shapes.old reader.entry.listed) levels tokens.old tokens.new shapes.new
        m.entries) }
    ensures shorter { OnOk result (length tokens.new < length tokens.old) }
    ensures keeps { Keeps shapes.old shapes.new }
{
    let mut mentions = BTreeMap::new(reader.alloc);
    'mentions: loop {
        match tokens.next_key() {
            Ok(Some(name)) => {
                let name = RcStr::from_str(reader.alloc, name)?;
                let field = NodeField {
                    needed: false,
                    shape: next_shape(reader, tokens, levels, shapes)?,
                };
                drop(mentions.insert(name, field)?);
            }
            Ok(None) => return Ok(mentions),
            Err(_) => return Err(Unread::Whole),
        }
    }
}

/// The numbers of the shapes that the elements of the next array spell, with at most so many levels.
pub(crate) fn next_shapes(
    reader: Reader<'_>,
    tokens: &mut Tokens<'_>,
    levels: usize,
    shapes: &mut Shapes,
) -> Result<Vec<usize>, Unread>
    requires listed { AreInTable shapes.old reader.listed }
    ensures numbers { IfOk result (λ numbers. ReadsShapes reader.entry.several
        (shapes_given shapes.old reader.entry.listed) levels tokens.old tokens.new shapes.new
        numbers.items) }
    ensures shorter { OnOk result (length tokens.new < length tokens.old) }
    ensures keeps { Keeps shapes.old shapes.new }
{
    let Some(Token::BeginArray) = tokens.next() else {
        return Err(Unread::Whole);
    };
    if levels == 0 {
        return Err(Unread::Whole);
    }
    next_elements(reader, tokens, levels - 1, shapes)
}

/// The numbers of the shapes that the elements up to the end of the array spell, with at most so many levels.
fn next_elements(
    reader: Reader<'_>,
    tokens: &mut Tokens<'_>,
    levels: usize,
    shapes: &mut Shapes,
) -> Result<Vec<usize>, Unread>
    requires listed { AreInTable shapes.old reader.listed }
    ensures numbers { IfOk result (λ numbers. ReadsElements reader.entry.several
        (shapes_given shapes.old reader.entry.listed) levels tokens.old tokens.new shapes.new
        numbers.items) }
    ensures shorter { OnOk result (length tokens.new < length tokens.old) }
    ensures keeps { Keeps shapes.old shapes.new }
{
    let mut numbers = Vec::new(reader.alloc);
    'elements: while !tokens.take_end_array() {
        let number = next_shape(reader, tokens, levels, shapes)?;
        numbers.push(number)?;
    }
    Ok(numbers)
}
