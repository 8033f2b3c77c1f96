//! The tests of choice rules in short words.

use crate::words::ShortText;
use asl_choice::{Comparison, Operand, PatternPart, Relation, Test, ValueKind};
use asl_path::{RefPath, print};
use asl_tree::{OutOfMemory, Tree, to_text};
use std::alloc::Global;

/// The test in words, cut behind so many characters.
pub(crate) fn test_words(alloc: Global, test: &Test, most: usize) -> Result<String, OutOfMemory> {
    let mut words = ShortText::new(alloc, most);
    push_test(alloc, test, &mut words)?;
    Ok(words.into_text())
}

/// Puts down a test.
#[cycle(words)]
fn push_test(alloc: Global, test: &Test, words: &mut ShortText) -> Result<(), OutOfMemory> {
    match test {
        Test::And(tests) => push_parts(alloc, tests, " and ", words),
        Test::Or(tests) => push_parts(alloc, tests, " or ", words),
        Test::Not(test) => {
            words.push_str("not ")?;
            push_part(alloc, test, words)
        }
        Test::Compare {
            variable,
            comparison,
            operand,
        } => push_comparison(alloc, variable, *comparison, operand, words),
        Test::StringMatches { variable, pattern } => push_match(alloc, variable, pattern, words),
        Test::IsOfKind {
            variable,
            kind,
            wanted,
        } => {
            push_path(alloc, variable, words)?;
            push_is(*wanted, kind_word(*kind), words)
        }
        Test::IsPresent { variable, wanted } => {
            push_path(alloc, variable, words)?;
            push_is(*wanted, "present", words)
        }
    }
}

/// Puts down tests with a word between two of them, until nothing more comes to the text.
#[cycle(words)]
fn push_parts(
    alloc: Global,
    tests: &[Test],
    between: &str,
    words: &mut ShortText,
) -> Result<(), OutOfMemory> {
    let mut is_first = true;
    for test in tests {
        if words.is_cut() {
            break;
        }
        if !is_first {
            words.push_str(between)?;
        }
        is_first = false;
        push_part(alloc, test, words)?;
    }
    Ok(())
}

/// Puts down a test inside another, in brackets where it has several parts.
#[cycle(words)]
fn push_part(alloc: Global, test: &Test, words: &mut ShortText) -> Result<(), OutOfMemory> {
    if words.is_cut() {
        return Ok(());
    }
    match test {
        Test::And(_) | Test::Or(_) => {
            words.push_str("(")?;
            push_test(alloc, test, words)?;
            words.push_str(")")
        }
        _ => push_test(alloc, test, words),
    }
}

/// Puts down a comparison.
fn push_comparison(
    alloc: Global,
    variable: &RefPath,
    comparison: Comparison,
    operand: &Operand,
    words: &mut ShortText,
) -> Result<(), OutOfMemory> {
    push_path(alloc, variable, words)?;
    words.push_str(sign_of(comparison))?;
    match operand {
        Operand::Constant(value) => words.push_str(&to_text(alloc, value)?),
        Operand::AtPath(path) => push_path(alloc, path, words),
    }
}

/// The sign of a comparison, with a blank on each side.
fn sign_of(comparison: Comparison) -> &'static str {
    match comparison {
        Comparison::String(relation) | Comparison::Numeric(relation) => match relation {
            Relation::Equals => " == ",
            Relation::LessThan => " < ",
            Relation::GreaterThan => " > ",
            Relation::LessThanEquals => " <= ",
            Relation::GreaterThanEquals => " >= ",
        },
        Comparison::BooleanEquals => " == ",
    }
}

/// Puts down that a text matches a pattern.
fn push_match(
    alloc: Global,
    variable: &RefPath,
    pattern: &[PatternPart],
    words: &mut ShortText,
) -> Result<(), OutOfMemory> {
    push_path(alloc, variable, words)?;
    words.push_str(" matches ")?;
    words.push_str(&pattern_text(alloc, pattern)?)
}

/// A pattern as a definition has it, in quotes.
fn pattern_text(alloc: Global, pattern: &[PatternPart]) -> Result<String, OutOfMemory> {
    let text = String::from_utf8_lossy(alloc, &pattern_bytes(alloc, pattern)?)?;
    to_text(alloc, &Tree::Text(text))
}

/// The bytes that spell a pattern: a star that stands for itself and a backslash behind a backslash.
fn pattern_bytes(alloc: Global, pattern: &[PatternPart]) -> Result<Vec<u8>, OutOfMemory> {
    let mut bytes = Vec::with_capacity(alloc, pattern.len())?;
    for part in pattern {
        match part {
            PatternPart::Star => bytes.push(b'*')?,
            PatternPart::Byte(byte) => {
                if matches!(*byte, b'*' | b'\\') {
                    bytes.push(b'\\')?;
                }
                bytes.push(*byte)?;
            }
        }
    }
    Ok(bytes)
}

/// The word for a kind of values.
fn kind_word(kind: ValueKind) -> &'static str {
    match kind {
        ValueKind::Null => "null",
        ValueKind::Numeric => "a number",
        ValueKind::String => "a string",
        ValueKind::Boolean => "a boolean",
    }
}

/// Puts down that something is so, or isn't.
fn push_is(wanted: bool, what: &str, words: &mut ShortText) -> Result<(), OutOfMemory> {
    words.push_str(if wanted { " is " } else { " isn't " })?;
    words.push_str(what)
}

/// Puts down a path, without the `$.` in front of it.
fn push_path(alloc: Global, path: &RefPath, words: &mut ShortText) -> Result<(), OutOfMemory> {
    let text = print(alloc, path)?;
    words.push_str(text.strip_prefix("$.").unwrap_or(&text))
}
