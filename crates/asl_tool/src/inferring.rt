//! From a definition and declared shapes, given as texts, to the text of a certificate, or to whether there is one.

ghost use Rattle.std.specs.Prelude.{IfOk, IfErr};
ghost use Rattle.asl_model.specs.Names.{Bytes};
ghost use Rattle.asl_texts.specs.Subjects.{Describes, SubjectFaultStands};
ghost use Rattle.asl_tool.specs.Inferred.{AreFewRounds, IsFindingOn, IsWrittenFor, WhereCertificate, WhereFinding, WhereNotSettled};
ghost use Rattle.asl_tool.specs.VerifiedInference.{IsAcceptedAsInferred, IsAcceptedAsWritten, NeverFaultsAsInferred, Tells, WhereYes};

use asl_check::Finding;
use asl_infer::{InferRefusal, infer_numbered};
use asl_model::reading_laws::texts_have_one_meaning;
use asl_model::run_laws::{closed_runs_never_fault, closed_runs_tell_no_fault};
use asl_texts::{RunFault, Subject, read_subject, text_of_certificate};
use asl_tree::OutOfMemory;
use std::alloc::Global;

/// What is inferred of a machine and its declared shapes.
#[derive(Drop)]
pub enum Inferred {
    /// The compact text of a certificate.
    Certificate(String),
    /// A rule that is about the machine, or about what is declared, is broken for some certificate.
    Finding(Finding),
    /// Some shape still changed in the last round.
    NotSettled,
}

/// Infers a certificate of a definition and declared shapes, both given as JSON texts, in at most `max_rounds` rounds.
///
/// The text of a certificate reads as the one on which the rounds settle for what the two texts read as, which is closed.
/// It is compact, with names in byte order. Where `numbered` is true each distinct shape of lists or objects is listed once
/// in it, in `shapes`, and stands everywhere as a reference; otherwise each shape is spelled out wherever it stands. A
/// finding is that of the first of these rounds in which a rule is broken that compares nothing with the certificate, or of
/// the names of tasks, before all rounds. The certificate isn't settled exactly where each of the rounds changes a shape;
/// then they are no more than 33 for each of its shapes.
///
/// The texts are read in this order. Refused: Text for the first text that is refused, with a fault that stands in it, or
/// with OutOfMemory where there was none to read it; OutOfMemory where a growth was refused afterwards.
pub fn infer_texts(
    alloc: Global,
    definition: &[u8],
    declared: &[u8],
    max_rounds: u32,
    numbered: bool,
) -> Result<Inferred, RunFault>
    ensures certificate { IfOk result
        (WhereCertificate (IsWrittenFor numbered max_rounds definition.now declared.now)) }
    ensures finding { IfOk result
        (WhereFinding (IsFindingOn max_rounds definition.now declared.now)) }
    ensures not_settled { IfOk result
        (WhereNotSettled (AreFewRounds definition.now declared.now max_rounds)) }
    ensures refused { IfErr result (SubjectFaultStands definition.now declared.now) }
{
    let subject = read_subject(alloc, definition, declared)?;
    let inferred = infer_numbered(alloc, &subject.machine, &subject.declared, max_rounds);
    let certificate = match inferred {
        Ok(certificate) => certificate,
        Err(InferRefusal::Finding(finding)) => return Ok(Inferred::Finding(finding)),
        Err(InferRefusal::NotSettled) => return Ok(Inferred::NotSettled),
        Err(InferRefusal::OutOfMemory) => return Err(RunFault::OutOfMemory),
    };
    let text = text_of_certificate(alloc, &certificate, numbered)?;
    Ok(Inferred::Certificate(text))
}

/// What is told of a definition under declared shapes by the certificate that is inferred.
#[derive(Drop)]
pub enum Verified {
    /// A certificate is inferred, and none of the checker's rules is broken.
    Yes,
    /// A rule that is about the machine or about what is declared is broken for some certificate, so there is none.
    Finding(Finding),
    /// Some shape still changed in the last round, so there is none.
    NotSettled,
}

/// Whether a certificate is inferred of a definition and declared shapes, both given as JSON texts, in at most `max_rounds`
/// rounds: [`verify_subject`] of what they read as.
///
/// Where it is yes, then for every input of the declared shape and every list of moves and task answers, branches and
/// iterations interleaved in any way, each answer a failure or of its declared shape, the run raises none of the six
/// data-flow faults, and every state's input, every task's payload and every output has its certified shape.
///
/// Refused as by [`infer_texts`].
pub fn verify_inferred(
    alloc: Global,
    definition: &[u8],
    declared: &[u8],
    max_rounds: u32,
) -> Result<Verified, RunFault>
    ensures yes { IfOk result
        (WhereYes (IsAcceptedAsInferred max_rounds definition.now declared.now)) }
    ensures on_texts { IfOk result
        (WhereYes (IsAcceptedAsWritten max_rounds definition.now declared.now)) }
    ensures headline { IfOk result
        (WhereYes (NeverFaultsAsInferred max_rounds definition.now declared.now)) }
    ensures otherwise { IfOk result
        (Tells (IsFindingOn max_rounds definition.now declared.now)
        (AreFewRounds definition.now declared.now max_rounds)) }
    ensures refused { IfErr result (SubjectFaultStands definition.now declared.now) }
{
    let subject = read_subject(alloc, definition, declared)?;
    let verified = verify_subject(alloc, &subject, max_rounds)?;
    Ok(verified)
}

/// Whether a certificate is inferred of a machine and its declared shapes in at most `max_rounds` rounds: yes where there is
/// one, since what is inferred breaks none of the checker's rules. So [`verify_texts`](crate::verify_texts) says yes on each
/// text that [`infer_texts`] may write of it. Where there is none, the finding is that of [`infer_texts`], or the shapes don't
/// settle.
///
/// Refused only where an allocation was refused.
pub fn verify_subject(
    alloc: Global,
    subject: &Subject,
    max_rounds: u32,
) -> Result<Verified, OutOfMemory>
    ensures yes { (definition declared : Bytes) → Describes definition declared subject.now
        → IfOk result (WhereYes (IsAcceptedAsInferred max_rounds definition declared)) }
    ensures on_texts { (definition declared : Bytes) → Describes definition declared subject.now
        → IfOk result (WhereYes (IsAcceptedAsWritten max_rounds definition declared)) }
    ensures headline { (definition declared : Bytes) → Describes definition declared subject.now
        → IfOk result (WhereYes (NeverFaultsAsInferred max_rounds definition declared)) }
    ensures otherwise { (definition declared : Bytes) → Describes definition declared subject.now
        → IfOk result (Tells (IsFindingOn max_rounds definition declared)
        (AreFewRounds definition declared max_rounds)) }
{
    closed_runs_never_fault();
    closed_runs_tell_no_fault();
    texts_have_one_meaning();
    match infer_numbered(alloc, &subject.machine, &subject.declared, max_rounds) {
        Ok(_) => Ok(Verified::Yes),
        Err(InferRefusal::Finding(finding)) => Ok(Verified::Finding(finding)),
        Err(InferRefusal::NotSettled) => Ok(Verified::NotSettled),
        Err(InferRefusal::OutOfMemory) => Err(OutOfMemory),
    }
}
