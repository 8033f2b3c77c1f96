//! The names of fields.
ghost use Rattle.std.specs.Prelude.{◌≡◌, IfOk, string_bytes};
ghost use Rattle.std.specs.List.{list_all};
ghost use Rattle.asl_notation.specs.Notation as model;

use asl_tree::{OutOfMemory, quoted};
use std::alloc::Global;

/// The name as it stands where it is a word, else as a JSON text.
pub(crate) fn note_name(alloc: Global, name: &str) -> Result<String, OutOfMemory>
    ensures { IfOk result (λ text. string_bytes text ≡ model.name_noted name.now) }
{
    if is_word(name) {
        Ok(String::from_str(alloc, name)?)
    } else {
        quoted(alloc, name)
    }
}

/// Whether a name has ASCII letters, digits and underscores alone, and begins with no digit; an empty one isn't a word.
fn is_word(name: &str) -> bool
    ensures { result ≡ model.is_word name.now }
{
    begins_word(name.as_bytes()) && has_word_bytes(name)
}

/// Whether there is a first byte, and it is no digit.
fn begins_word(name: &[u8]) -> bool
    ensures { result ≡ model.begins_word name.now }
{
    match name.first() {
        Some(first) => !first.is_ascii_digit(),
        None => false,
    }
}

/// Whether each byte may stand in a word.
fn has_word_bytes(name: &str) -> bool
    ensures { result ≡ list_all model.is_word_byte name.now }
{
    name.bytes()
        .all(|byte| byte.is_ascii_alphanumeric() || byte == b'_')
}
