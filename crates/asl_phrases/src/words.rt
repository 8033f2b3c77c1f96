//! Pieces of what is told.

use asl_notation::{Limits, note};
use asl_numbered::Shapes;
use asl_tree::{OutOfMemory, Tree, to_text};
use std::alloc::Global;

/// How many characters of an example or of a path are told.
const MOST_CHARACTERS: usize = 200;

/// How much is told of a shape.
const LIMITS: Limits = Limits { depth: 3, width: 6 };

/// The number that comes behind that one: what is counted from 0, counted from 1. Refuses only where an allocation was
/// refused.
pub fn counted(alloc: Global, number: usize) -> Result<String, OutOfMemory> {
    Ok((number as u128 + 1).to_string(alloc)?)
}

/// The shape of that number in short notation, three levels of it and the first six parts of each. A number that isn't in the
/// table has no tree: `nothing`. Refuses only where an allocation was refused.
pub fn noted(alloc: Global, shapes: &Shapes, number: usize) -> Result<String, OutOfMemory> {
    note(alloc, shapes, number, LIMITS)
}

/// A tree as compact JSON, cut where it is long. Refuses only where an allocation was refused.
pub fn example_text(alloc: Global, tree: &Tree) -> Result<String, OutOfMemory> {
    let text = to_text(alloc, tree)?;
    cut(alloc, &text)
}

/// The text; of one of more than 200 characters the first 200, and how many there are. Refuses only where an allocation was
/// refused.
pub fn cut(alloc: Global, text: &str) -> Result<String, OutOfMemory> {
    let many = text.chars().count();
    if many <= MOST_CHARACTERS {
        return Ok(String::from_str(alloc, text)?);
    }
    let mut front = String::new(alloc);
    for character in text.chars().take(MOST_CHARACTERS) {
        front.push(character)?;
    }
    Ok(format!(in alloc; "{front}… ({many} characters)")?)
}

/// Puts a line behind the text: two blanks, a label, and what it tells. Refuses only where an allocation was refused; a part
/// of the line may stand there then.
pub fn push_line(text: &mut String, label: &str, told: &str) -> Result<(), OutOfMemory> {
    push_all(text, &["  ", label, told, "\n"])
}

/// Puts the pieces behind the text. Refuses only where an allocation was refused; some of them may stand there then.
pub fn push_all(text: &mut String, pieces: &[&str]) -> Result<(), OutOfMemory> {
    for piece in pieces {
        text.push_str(piece)?;
    }
    Ok(())
}
