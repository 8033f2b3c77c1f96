//! From files to the trace of a run on standard output.

use asl_command_line::RunRequest;
use asl_files::{Given, file_source, file_text, finish, finish_given, input_source, is_input};
use asl_tool::{Closing, RunFault, Source, ToWrite};
use std::io;
use std::rt::Files;

/// The texts of a run that are read before its answers.
#[derive(Drop)]
struct Texts {
    definition: Vec<u8>,
    declared: Option<Vec<u8>>,
    input: Vec<u8>,
}

impl Texts {
    /// The texts as they were given.
    fn given(&self) -> Given<'_> {
        Given {
            definition: &self.definition,
            declared: self.declared.as_deref(),
            certificate: None,
            order: "--declared gives the declared shapes of the definition, which comes first",
        }
    }
}

/// Runs a machine on the texts in files, writes the trace to standard output, and gives the exit status.
pub(crate) fn run_files<R: Files + Input + Print + Eprint + AllocGlobal>(
    rt: &R,
    request: &RunRequest<'_>,
) -> u8 {
    match texts_in(rt, request) {
        Ok(texts) => finish_given(rt, run_on(rt, request, &texts), &texts.given()),
        Err(fault) => finish(rt, &Closing::Fault(fault)),
    }
}

/// The texts of a run but its answers. The files are read in the order definition, declared shapes, input, before a text is
/// looked at.
///
/// Refused: Read for a file that can't be opened or read, TooLong for one that is too long, the first of them;
/// OutOfMemory.
fn texts_in<R: Files + Input + AllocGlobal>(
    rt: &R,
    request: &RunRequest<'_>,
) -> Result<Texts, RunFault> {
    Ok(Texts {
        definition: file_text(rt, request.definition)?,
        declared: match request.declared {
            Some(name) => Some(file_text(rt, name)?),
            None => None,
        },
        input: file_text(rt, request.input)?,
    })
}

/// The run on these texts, whose trace is written to standard output. The answers are opened before a text is looked at, and
/// read once the texts are good.
///
/// Refused: Read for answers that can't be opened, or, where no text is refused, can't be read; TooLong for answers that are
/// too long, where no text is refused; Text for a refused text; Write; OutOfMemory.
fn run_on<R: Files + Input + Print + AllocGlobal>(
    rt: &R,
    request: &RunRequest<'_>,
    texts: &Texts,
) -> Result<Closing, RunFault> {
    if is_input(request.answers) {
        run_with(rt, request, texts, &mut input_source(rt))
    } else {
        run_with(rt, request, texts, &mut file_source(rt, request.answers)?)
    }
}

/// The run on these texts with the answers that a source has, whose trace is written to standard output.
///
/// Refused as by [`run_on`], but for the texts' files.
fn run_with<R: Print + AllocGlobal, S: Source>(
    rt: &R,
    request: &RunRequest<'_>,
    texts: &Texts,
    answers: &mut S,
) -> Result<Closing, RunFault> {
    let end = asl_tool::run_texts(
        rt.alloc(),
        &texts.definition,
        texts.declared.as_deref(),
        &texts.input,
        answers,
        &mut ToWrite::new(io::writer(rt)),
        request.order,
        request.max_steps,
    )?;
    Ok(Closing::Run(end))
}
