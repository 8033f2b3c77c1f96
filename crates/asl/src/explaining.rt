//! From a definition and declared shapes to explanations, on standard output.

use crate::inferring::Texts;
use asl_command_line::ExplainRequest;
use asl_explain::{Explained, explain_texts};
use asl_files::{ROUNDS, end_given, finish, print_text, text_or_status};
use asl_tool::{Closing, RunFault};
use asl_tree::{OutOfMemory, quoted};
use std::alloc::Global;
use std::rt::Files;

/// Explains the findings on the texts in two files, or what comes to a state, on standard output, and gives the exit status. Both
/// files are read, the definition first, before a text is looked at; one that can't be read is told on standard error.
pub(crate) fn explain_files<R: Files + Input + Print + Eprint + AllocGlobal>(
    rt: &R,
    request: &ExplainRequest<'_>,
) -> u8 {
    let definition = match text_or_status(rt, request.files.definition) {
        Ok(text) => text,
        Err(status) => return status,
    };
    let declared = match text_or_status(rt, request.files.declared) {
        Ok(text) => text,
        Err(status) => return status,
    };
    let texts = Texts {
        definition,
        declared,
    };
    end_given(
        rt,
        explained_on(rt, request, &texts.definition, &texts.declared),
        &texts.given(),
    )
}

/// Explains what is asked for, and gives the exit status: 1 for findings, 2 for a state that isn't there. That there is
/// nothing to explain, or no such state, goes to standard error.
///
/// Refused: Text for a refused text; Write; OutOfMemory.
fn explained_on<R: Print + Eprint + AllocGlobal>(
    rt: &R,
    request: &ExplainRequest<'_>,
    definition: &[u8],
    declared: &[u8],
) -> Result<u8, RunFault> {
    let alloc = rt.alloc();
    match explain_texts(alloc, definition, declared, request.state, ROUNDS)? {
        Explained::Nothing => {
            let _ = rt.eprint("nothing to explain: verify says yes\n");
            Ok(0)
        }
        Explained::Findings(text) => {
            print_text(rt, &text)?;
            Ok(1)
        }
        Explained::State(text) => {
            print_text(rt, &text)?;
            Ok(0)
        }
        Explained::NoSuchState => {
            let line = no_such_state(alloc, request.state.unwrap_or(""))?;
            let _ = rt.eprint(&line);
            Ok(2)
        }
        Explained::NotSettled => Ok(finish(rt, &Closing::NotSettled)),
    }
}

/// The line that tells that there is no state of that name.
fn no_such_state(alloc: Global, name: &str) -> Result<String, OutOfMemory> {
    let mut line = String::from_str(alloc, "there is no state ")?;
    line.push_str(&quoted(alloc, name)?)?;
    line.push_str("\n")?;
    Ok(line)
}
