//! Parts of a JSON text.
use asl_tree::{OutOfMemory, Tree, TreeRefusal, read};
use std::alloc::Global;

/// The text from a byte on.
pub fn text_from(text: &[u8], offset: usize) -> &[u8] {
    &text[offset.min(text.len())..]
}

/// The JSON string with which the text begins, with its quotes, where it begins with one.
pub fn string_at(text: &[u8]) -> Option<&[u8]> {
    if text.first() != Some(&b'"') {
        return None;
    }
    let mut is_escaped = false;
    for at in 1..text.len() {
        if is_escaped {
            is_escaped = false;
        } else if text[at] == b'\\' {
            is_escaped = true;
        } else if text[at] == b'"' {
            return Some(&text[..=at]);
        }
    }
    None
}

/// The JSON value with which the text begins.
pub(crate) fn value_at(text: &[u8]) -> &[u8] {
    if let Some(string) = string_at(text) {
        return string;
    }
    let mut depth: usize = 0;
    let mut quotes = Quotes::Outside;
    for at in 0..text.len() {
        quotes = quotes.behind(text[at]);
        match (quotes, text[at]) {
            (Quotes::Outside, b'{' | b'[') => depth = depth.saturating_add(1),
            (Quotes::Outside, b'}' | b']') if depth > 1 => depth -= 1,
            (Quotes::Outside, b'}' | b']') if depth == 1 => return &text[..=at],
            (Quotes::Outside, b'}' | b']' | b',' | b' ' | b'\t' | b'\r' | b'\n') if depth == 0 => {
                return &text[..at];
            }
            _ => {}
        }
    }
    text
}

/// Whether a byte of a JSON text stands in a string.
#[derive(Clone, Copy)]
enum Quotes {
    Outside,
    Inside,
    /// The byte behind is escaped.
    Escape,
}

impl Quotes {
    /// The same of a byte behind one of which it is known.
    fn behind(self, byte: u8) -> Quotes {
        match (self, byte) {
            (Quotes::Outside, b'"') => Quotes::Inside,
            (Quotes::Inside, b'"') => Quotes::Outside,
            (Quotes::Inside, b'\\') => Quotes::Escape,
            (Quotes::Escape, _) => Quotes::Inside,
            (quotes, _) => quotes,
        }
    }
}

/// What that string says.
pub fn text_at(alloc: Global, text: &[u8]) -> Result<Option<String>, OutOfMemory> {
    let Some(string) = string_at(text) else {
        return Ok(None);
    };
    match read(alloc, string) {
        Ok(Tree::Text(said)) => Ok(Some(said)),
        Err(TreeRefusal::OutOfMemory) => Err(OutOfMemory),
        _ => Ok(None),
    }
}
