//! From a definition to declared shapes to begin with, on standard output.

use asl_files::{Given, end_given, print_line, text_or_status};
use asl_samples::declared_text;
use asl_tool::{RunFault, read_definition};
use std::rt::Files;

/// Writes declared shapes for the definition in a file to standard output, and gives the exit status. A file that can't be read
/// is told on standard error.
pub(crate) fn declare_file<R: Files + Input + Print + Eprint + AllocGlobal>(
    rt: &R,
    name: &str,
) -> u8 {
    let text = match text_or_status(rt, name) {
        Ok(text) => text,
        Err(status) => return status,
    };
    let given = Given {
        definition: &text,
        declared: None,
        certificate: None,
        order: "a definition is wanted",
    };
    end_given(rt, declared_on(rt, &text), &given)
}

/// Writes declared shapes for a definition to standard output, and gives the exit status.
///
/// Refused: Text for a text that is no definition; Write; OutOfMemory.
fn declared_on<R: Print + AllocGlobal>(rt: &R, text: &[u8]) -> Result<u8, RunFault> {
    let machine = read_definition(rt.alloc(), text)?;
    print_line(rt, declared_text(rt.alloc(), &machine)?)?;
    Ok(0)
}
