//! Texts in a row.
ghost use Rattle.std.specs.Prelude.{◌≡◌, ◌++◌, IfOk, OnOk, map, string_bytes};
ghost use Rattle.asl_notation.specs.Notation as model;

use asl_tree::OutOfMemory;
use std::alloc::Global;

/// What stands for what isn't told.
pub(crate) const UNTOLD: &str = "…";

/// Puts a word behind the parts that are there, where it is wanted.
pub(crate) fn push_if(
    alloc: Global,
    parts: &mut Vec<String>,
    wanted: bool,
    word: &str,
) -> Result<(), OutOfMemory>
    ensures { OnOk result (map string_bytes parts.new.items
        ≡ map string_bytes parts.old.items ++ model.word_if wanted word.now) }
{
    if wanted {
        parts.push(String::from_str(alloc, word)?)?;
    }
    Ok(())
}

/// The parts with that between them.
#[tactic(auto, using(crate::proofs::Rows::joined_seen))]
pub(crate) fn between(
    alloc: Global,
    separator: &str,
    parts: &[String],
) -> Result<String, OutOfMemory>
    ensures { IfOk result (λ text. string_bytes text
        ≡ model.between separator.now (map string_bytes parts.now)) }
{
    Ok(parts.join(alloc, separator)?)
}

/// The parts with commas between them, inside two marks.
pub(crate) fn enclosed(
    alloc: Global,
    opening: &str,
    parts: &[String],
    closing: &str,
) -> Result<String, OutOfMemory>
    ensures { IfOk result (λ text. string_bytes text
        ≡ model.enclosed opening.now (map string_bytes parts.now) closing.now) }
{
    let inside = between(alloc, ", ", parts)?;
    Ok(format!(in alloc; "{opening}{inside}{closing}")?)
}
