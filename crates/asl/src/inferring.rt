//! From files to an inferred certificate, or to whether there is one, on standard output.

use asl_command_line::{InferRequest, MachineFiles};
use asl_files::{Given, ROUNDS, file_text, finish, finish_given, print_line, print_verdict};
use asl_tool::{
    Closing, Finding, Inferred, RunFault, Verdict, Verified, infer_texts, verify_inferred,
};
use std::rt::Files;

/// Infers a certificate of the texts in two files, writes it to standard output, and gives the exit status.
pub(crate) fn infer_files<R: Files + Input + Print + Eprint + AllocGlobal>(
    rt: &R,
    request: &InferRequest<'_>,
) -> u8 {
    match texts_in(rt, &request.files) {
        Ok(texts) => finish_given(rt, infer_on(rt, &texts, request.numbered), &texts.given()),
        Err(fault) => finish(rt, &Closing::Fault(fault)),
    }
}

/// Infers a certificate of the texts in two files, writes to standard output whether there is one, and gives the exit
/// status.
pub(crate) fn verify_files<R: Files + Input + Print + Eprint + AllocGlobal>(
    rt: &R,
    files: &MachineFiles<'_>,
) -> u8 {
    match texts_in(rt, files) {
        Ok(texts) => finish_given(rt, verify_on(rt, &texts), &texts.given()),
        Err(fault) => finish(rt, &Closing::Fault(fault)),
    }
}

/// The two texts of which something is inferred.
#[derive(Drop)]
pub(crate) struct Texts {
    pub(crate) definition: Vec<u8>,
    pub(crate) declared: Vec<u8>,
}

impl Texts {
    /// The texts as they were given.
    pub(crate) fn given(&self) -> Given<'_> {
        Given {
            definition: &self.definition,
            declared: Some(&self.declared),
            certificate: None,
            order: "the definition comes first, then the declared shapes",
        }
    }
}

/// The texts in two files. Both are read, the definition first, before a text is looked at.
///
/// Refused: Read for a file that can't be opened or read, TooLong for one that is too long, the first of them;
/// OutOfMemory.
fn texts_in<R: Files + Input + AllocGlobal>(
    rt: &R,
    files: &MachineFiles<'_>,
) -> Result<Texts, RunFault> {
    let definition = file_text(rt, files.definition)?;
    let declared = file_text(rt, files.declared)?;
    Ok(Texts {
        definition,
        declared,
    })
}

/// The inference on two texts, whose certificate is written to standard output with a line break, or its finding as a
/// verdict.
///
/// Refused: Text for a refused text; Write; OutOfMemory.
fn infer_on<R: Print + AllocGlobal>(
    rt: &R,
    texts: &Texts,
    numbered: bool,
) -> Result<Closing, RunFault> {
    match infer_texts(
        rt.alloc(),
        &texts.definition,
        &texts.declared,
        ROUNDS,
        numbered,
    )? {
        Inferred::Certificate(text) => tell_certificate(rt, text),
        Inferred::Finding(finding) => tell_finding(rt, finding),
        Inferred::NotSettled => Ok(Closing::NotSettled),
    }
}

/// Whether a certificate is inferred of two texts: yes is written to standard output, or the finding as a verdict.
///
/// Refused as by [`infer_on`].
fn verify_on<R: Print + AllocGlobal>(rt: &R, texts: &Texts) -> Result<Closing, RunFault> {
    match verify_inferred(rt.alloc(), &texts.definition, &texts.declared, ROUNDS)? {
        Verified::Yes => tell_verdict(rt, Verdict::Yes),
        Verified::Finding(finding) => tell_finding(rt, finding),
        Verified::NotSettled => Ok(Closing::NotSettled),
    }
}

/// Writes the text of a certificate and a line break to standard output.
fn tell_certificate<R: Print>(rt: &R, text: String) -> Result<Closing, RunFault> {
    print_line(rt, text)?;
    Ok(Closing::Certificate)
}

/// Writes a finding to standard output, as a verdict of one line.
fn tell_finding<R: Print + AllocGlobal>(rt: &R, finding: Finding) -> Result<Closing, RunFault> {
    let mut findings = Vec::new(rt.alloc());
    findings.push(finding)?;
    tell_verdict(rt, Verdict::No(findings))
}

/// Writes a verdict to standard output.
fn tell_verdict<R: Print + AllocGlobal>(rt: &R, verdict: Verdict) -> Result<Closing, RunFault> {
    print_verdict(rt, &verdict)?;
    Ok(Closing::Verdict(verdict))
}
