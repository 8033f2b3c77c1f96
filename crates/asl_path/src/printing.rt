//! Writing a path's text.
ghost use Rattle.std.specs.Prelude.{◌≡◌, ◌++◌, IfOk, Some, string_bytes};
ghost use Rattle.asl_model.specs.PathSpelling.{Spells, path_of, printed_path, printed_segment, has_byte as text_has_byte, is_dot_name as may_stand_alone};
ghost use Rattle.asl_model.specs.Path.{Name};
ghost use Rattle.asl_path.specs.View.{segment_view};

use crate::scanning::Part;
use crate::{RefPath, Segment};
use asl_tree::OutOfMemory;
use std::alloc::Global;

/// The text of the path (States Language, "Reference Paths"): `.name` where the name can stand behind a dot, else
/// `['name']` where it has no apostrophe, else `["name"]`, and `[n]` for an index. It reads as the path again: what
/// [`crate::parse`] gives for it, where memory allows. Refuses only where an allocation was refused.
pub fn print(alloc: Global, path: &RefPath) -> Result<String, OutOfMemory>
    ensures printed { IfOk result (λ text. string_bytes text ≡ printed_path path.now) }
    ensures spells { IfOk result (λ text. Spells (string_bytes text) path.now) }
    ensures read_back { IfOk result (λ text. path_of (string_bytes text) ≡ Some path.now) }
{
    let mut text = String::from_str(alloc, "$")?;
    for segment in path.segments() {
        text.push_str(&print_segment(alloc, segment)?)?;
    }
    Ok(text)
}

/// The text of one step.
fn print_segment(alloc: Global, segment: &Segment) -> Result<String, OutOfMemory>
    ensures { IfOk result (λ text. string_bytes text ≡ printed_segment (segment_view segment.now)) }
{
    match segment {
        Segment::Name(name) => print_name(alloc, name),
        Segment::Index(index) => Ok(format!(in alloc; "[{index}]")?),
    }
}

/// The text of a step to that name.
fn print_name(alloc: Global, name: &str) -> Result<String, OutOfMemory>
    ensures { IfOk result (λ text. string_bytes text ≡ printed_segment (Name name.now)) }
{
    if is_dot_name(name.as_bytes()) {
        Ok(format!(in alloc; ".{name}")?)
    } else if has_byte(b'\'', name.as_bytes()) {
        Ok(format!(in alloc; "[\"{name}\"]")?)
    } else {
        Ok(format!(in alloc; "['{name}']")?)
    }
}

/// Whether the name can stand behind a dot.
fn is_dot_name(name: &[u8]) -> bool
    ensures { result ≡ may_stand_alone name.now }
{
    !name.is_empty() && Part::DotName.length_in(name) == name.len()
}

/// Whether the text has that byte.
fn has_byte(byte: u8, text: &[u8]) -> bool
    ensures { result ≡ text_has_byte byte text.now }
{
    for each in text {
        if *each == byte {
            return true;
        }
    }
    false
}
