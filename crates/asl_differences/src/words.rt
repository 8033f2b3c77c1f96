//! Words for what was expected, and for what was found.

use asl_tree::{OutOfMemory, Tree, quoted, to_text};
use std::alloc::Global;

/// How many characters of a value are told.
const MOST_CHARACTERS: usize = 200;

/// The text as JSON; of one of more than 200 characters the first 200, and `...`. Refuses only where an allocation was
/// refused.
pub fn quoted_text(alloc: Global, text: &str) -> Result<String, OutOfMemory> {
    let text = quoted(alloc, text)?;
    cut(alloc, &text)
}

/// The tree as compact JSON, cut in the same way. Refuses only where an allocation was refused.
pub fn tree_text(alloc: Global, tree: &Tree) -> Result<String, OutOfMemory> {
    let text = to_text(alloc, tree)?;
    cut(alloc, &text)
}

/// `expected X, found Y`, each `nothing` where there is none. Refuses only where an allocation was refused.
pub fn expected_found(
    alloc: Global,
    expected: Option<String>,
    found: Option<String>,
) -> Result<String, OutOfMemory> {
    let expected = expected.as_deref().unwrap_or("nothing");
    let found = found.as_deref().unwrap_or("nothing");
    Ok(format!(in alloc; "expected {expected}, found {found}")?)
}

/// The text of a tree, where there is one.
pub(crate) fn found_text(
    alloc: Global,
    tree: Option<&Tree>,
) -> Result<Option<String>, OutOfMemory> {
    match tree {
        Some(tree) => Ok(Some(tree_text(alloc, tree)?)),
        None => Ok(None),
    }
}

/// The text, or the first characters of a long one.
fn cut(alloc: Global, text: &str) -> Result<String, OutOfMemory> {
    if text.chars().count() <= MOST_CHARACTERS {
        return Ok(String::from_str(alloc, text)?);
    }
    let mut front = String::new(alloc);
    for character in text.chars().take(MOST_CHARACTERS) {
        front.push(character)?;
    }
    front.push_str("...")?;
    Ok(front)
}
