//! What goes to standard output.

use asl_texts::{RunFault, Verdict, verdict_text};
use asl_tree::OutOfMemory;
use std::io::{self, Write};

/// Writes a text to standard output.
///
/// Refused: Write.
pub fn print_text<R: Print>(rt: &R, text: &str) -> Result<(), RunFault> {
    match io::writer(rt).write_all(text.as_bytes()) {
        Ok(()) => Ok(()),
        Err(_) => Err(RunFault::Write),
    }
}

/// Writes a text and a line break to standard output.
///
/// Refused: Write; OutOfMemory.
pub fn print_line<R: Print>(rt: &R, text: String) -> Result<(), RunFault> {
    print_text(rt, &with_break(text)?)
}

/// The text and a line break.
pub fn with_break(mut text: String) -> Result<String, OutOfMemory> {
    text.push_str("\n")?;
    Ok(text)
}

/// Writes the lines of a verdict to standard output.
///
/// Refused: Write; OutOfMemory.
pub fn print_verdict<R: Print + AllocGlobal>(rt: &R, verdict: &Verdict) -> Result<(), RunFault> {
    print_text(rt, &verdict_text(rt.alloc(), verdict)?)
}
