//! From standard input or files to a verdict on standard output.

use asl_command_line::TextFiles;
use asl_files::{Given, file_text, finish, finish_given, finish_with, input_source, print_verdict};
use asl_tool::{Closing, RunFault, ToWrite};
use std::io;
use std::rt::Files;

/// Checks the three lines of standard input, writes the verdict to standard output, and gives the exit status.
pub(crate) fn check_input<R: Input + Print + Eprint + AllocGlobal>(rt: &R) -> u8 {
    finish_with(rt, verdict_on_lines(rt))
}

/// Checks the texts in three files, writes the verdict to standard output, and gives the exit status.
pub(crate) fn check_files<R: Files + Input + Print + Eprint + AllocGlobal>(
    rt: &R,
    files: &TextFiles<'_>,
) -> u8 {
    match texts_in(rt, files) {
        Ok(texts) => finish_given(rt, verdict_on(rt, &texts), &texts.given()),
        Err(fault) => finish(rt, &Closing::Fault(fault)),
    }
}

/// The verdict on the three lines of standard input, which is written to standard output.
///
/// Refused as `check_lines` of [`asl_tool`] is.
fn verdict_on_lines<R: Input + Print + AllocGlobal>(rt: &R) -> Result<Closing, RunFault> {
    let mut source = input_source(rt);
    let mut sink = ToWrite::new(io::writer(rt));
    let verdict = asl_tool::check_lines(rt.alloc(), &mut source, &mut sink)?;
    Ok(Closing::Verdict(verdict))
}

/// The three texts of a check.
#[derive(Drop)]
struct Texts {
    definition: Vec<u8>,
    declared: Vec<u8>,
    certificate: Vec<u8>,
}

impl Texts {
    /// The texts as they were given.
    fn given(&self) -> Given<'_> {
        Given {
            definition: &self.definition,
            declared: Some(&self.declared),
            certificate: Some(&self.certificate),
            order: "the definition comes first, then the declared shapes, then the certificate",
        }
    }
}

/// The texts in three files. All are read, in the order definition, declared shapes, certificate, before a text is looked
/// at.
///
/// Refused: Read for a file that can't be opened or read, TooLong for one that is too long, the first of them;
/// OutOfMemory.
fn texts_in<R: Files + Input + AllocGlobal>(
    rt: &R,
    files: &TextFiles<'_>,
) -> Result<Texts, RunFault> {
    let definition = file_text(rt, files.definition)?;
    let declared = file_text(rt, files.declared)?;
    let certificate = file_text(rt, files.certificate)?;
    Ok(Texts {
        definition,
        declared,
        certificate,
    })
}

/// The verdict on three texts, which is written to standard output.
///
/// Refused: Text for a refused text; Write; OutOfMemory.
fn verdict_on<R: Print + AllocGlobal>(rt: &R, texts: &Texts) -> Result<Closing, RunFault> {
    let verdict = asl_tool::verify_texts(
        rt.alloc(),
        &texts.definition,
        &texts.declared,
        &texts.certificate,
    )?;
    print_verdict(rt, &verdict)?;
    Ok(Closing::Verdict(verdict))
}
