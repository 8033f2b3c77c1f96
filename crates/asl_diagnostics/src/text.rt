//! Lines for people.
ghost use Rattle.std.specs.Prelude.{◌≡◌, ◌++◌, IfOk, OnOk, codes, decimal, string_bytes};
ghost use Rattle.asl_diagnostics.specs.Line.{text_line, text_lines};

use crate::Diagnostic;
use crate::statement::statement;
use asl_tree::{OutOfMemory, in_line};
use std::alloc::Global;

/// A line for each diagnostic, ended by a line break: `FILE:LINE:COLUMN: SEVERITY: STATE FIELD RULE: MESSAGE EXAMPLE`,
/// the state's name and the example as JSON texts, without what isn't there. A path, a field or a message that has a
/// control character (below U+0020) is told as a JSON text, too, so that it doesn't break its line.
pub fn text_lines(alloc: Global, diagnostics: &[Diagnostic]) -> Result<String, OutOfMemory>
    ensures { IfOk result (λ text. string_bytes text ≡ text_lines diagnostics.now) }
{
    let mut text = String::new(alloc);
    for diagnostic in diagnostics {
        let line = text_line(alloc, diagnostic)?;
        text.push_str(&line)?;
    }
    Ok(text)
}

/// The line of a diagnostic.
fn text_line(alloc: Global, diagnostic: &Diagnostic) -> Result<String, OutOfMemory>
    ensures { IfOk result (λ text. string_bytes text ≡ text_line diagnostic.now) }
{
    let mut text = in_line(alloc, &diagnostic.file)?;
    push_number(alloc, &mut text, ":", diagnostic.place.line)?;
    push_number(alloc, &mut text, ":", diagnostic.place.column)?;
    text.push_str(": ")?;
    text.push_str(diagnostic.severity.name())?;
    text.push_str(": ")?;
    let statement = statement(alloc, diagnostic)?;
    text.push_str(&statement)?;
    text.push_str("\n")?;
    Ok(text)
}

/// Puts the sign and a number behind the text.
pub(crate) fn push_number(
    alloc: Global,
    text: &mut String,
    sign: &str,
    number: usize,
) -> Result<(), OutOfMemory>
    ensures { OnOk result
        (string_bytes text.new ≡ string_bytes text.old ++ (sign.now ++ decimal number)) }
{
    text.push_str(sign)?;
    let digits = number.to_string(alloc)?;
    text.push_str(&digits)?;
    Ok(())
}
