//! Texts as they stand in a line.

ghost use Rattle.std.specs.Prelude.{◌≡◌, IfOk, string_bytes};
ghost use Rattle.std.specs.List.{list_any};
ghost use Rattle.asl_model.specs.Printed.{in_line, is_control, quoted_name};

use crate::writing::to_text;
use crate::{OutOfMemory, Tree};
use std::alloc::Global;

/// The text as a JSON text, in its quotes and with escapes as `serde_json` writes them. Refuses only where an allocation was
/// refused.
pub fn quoted(alloc: Global, text: &str) -> Result<String, OutOfMemory>
    ensures { IfOk result (λ quoted. string_bytes quoted ≡ quoted_name text.now) }
{
    let tree = Tree::Text(String::from_str(alloc, text)?);
    to_text(alloc, &tree)
}

/// The text as it stands, or [`quoted`] where it has a control character (below U+0020), by which it might break its line.
/// Refuses only where an allocation was refused.
pub fn in_line(alloc: Global, text: &str) -> Result<String, OutOfMemory>
    ensures { IfOk result (λ line. string_bytes line ≡ in_line text.now) }
{
    if has_control(text) {
        quoted(alloc, text)
    } else {
        Ok(String::from_str(alloc, text)?)
    }
}

fn has_control(text: &str) -> bool
    ensures { result ≡ list_any is_control text.now }
{
    text.bytes().any(|byte| byte < 32)
}
