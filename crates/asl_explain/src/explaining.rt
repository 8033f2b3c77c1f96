//! From texts to explanations.

ghost use Rattle.std.specs.Prelude.{◌≡◌, ◌↔◌, IfErr, IfNone, IfOk, IfSome, None, Ok};
ghost use Rattle.asl_machine_table.specs.Table.{scope_in};
ghost use Rattle.asl_model.specs.Names.{Bytes};
ghost use Rattle.asl_model.specs.Numbering.{table_of};
ghost use Rattle.asl_infer.specs.Lenient.{NeverSettlesLeniently};
ghost use Rattle.asl_records.specs.View.{declared_view};
ghost use Rattle.asl_texts.specs.Subjects.{Describes, SubjectFaultStands};
ghost use Rattle.asl_tool.specs.VerifiedInference.{IsAcceptedAsInferred};
ghost use Rattle.asl_tool.specs.declared.inferring.Verified.TheVariants as outcomes;
ghost use Rattle.asl_explain.specs.Answers.{ExplainsFindings, ExplainsState};
ghost use Rattle.asl_explain.specs.Outcomes.{Answers, AreFindings, SettlesLeniently};
ghost use Rattle.asl_explain.specs.declared.explaining.Explained.TheVariants as answers;

use asl_causes::{Known, finding_text_alone};
use asl_check::Finding;
use asl_infer::infer_leniently;
use asl_tool::{RunFault, Subject, Verified, read_subject, verify_subject};
use asl_tree::OutOfMemory;
use std::alloc::Global;

/// What is explained.
#[derive(Drop)]
pub enum Explained {
    /// Every rule holds: there is nothing to explain.
    Nothing,
    /// Each finding in some lines, with an empty line between two of them.
    Findings(String),
    /// What is known of a state, in some lines.
    State(String),
    /// No state has the name that is asked for.
    NoSuchState,
    /// Some shape still changed in the last round, so that nothing is known of the data.
    NotSettled,
}

/// Explains each broken rule of a definition under declared shapes, both given as JSON texts, or what is known of one state.
///
/// Without the name of a state there is nothing to explain exactly where [`verify_subject`] says yes of what the texts read
/// as. Where it tells a finding, each rule is told that the certificate breaks which is inferred leniently in at most
/// `max_rounds` rounds, or that finding, where there is none: the line of the finding, what is known of the data with which
/// it arises, the shortest way by which such data comes there, other origins from which it doesn't arise, an example, and
/// what usually helps. Where its rounds don't settle, that alone is told.
///
/// With a name it is told what comes to the state of that name, its shapes, and its findings, by the certificate that is
/// inferred leniently, or that its rounds don't settle; or that the machine has no such state.
///
/// Refused as by [`read_subject`], and where an allocation was refused.
pub fn explain_texts(
    alloc: Global,
    definition: &[u8],
    declared: &[u8],
    state: Option<&str>,
    max_rounds: u32,
) -> Result<Explained, RunFault>
    ensures exactly { state.entry ≡ None → IfOk result (λ told. (told ≡ answers.Nothing)
        ↔ IsAcceptedAsInferred max_rounds definition.now declared.now) }
    ensures findings { state.entry ≡ None
        → IfOk result (ExplainsFindings max_rounds definition.now declared.now) }
    ensures state { IfSome state.entry (λ name.
        IfOk result (ExplainsState max_rounds definition.now declared.now name.now)) }
    ensures refused { IfErr result (SubjectFaultStands definition.now declared.now) }
{
    let subject = read_subject(alloc, definition, declared)?;
    match state {
        Some(name) => Ok(explain_state(alloc, &subject, name, max_rounds)?),
        None => Ok(explain_all(alloc, &subject, max_rounds)?),
    }
}

/// Explains each broken rule.
fn explain_all(alloc: Global, subject: &Subject, max_rounds: u32) -> Result<Explained, OutOfMemory>
    ensures exactly { (definition declared : Bytes) → Describes definition declared subject.now
        → IfOk result (λ told. (told ≡ answers.Nothing)
        ↔ IsAcceptedAsInferred max_rounds definition declared) }
    ensures findings { (definition declared : Bytes) → Describes definition declared subject.now
        → IfOk result (ExplainsFindings max_rounds definition declared) }
{
    let verified = verify_subject(alloc, subject, max_rounds)?;
    explain_verified(alloc, subject, max_rounds, verified)
}

/// Explains what is said of a machine under declared shapes.
fn explain_verified(
    alloc: Global,
    subject: &Subject,
    max_rounds: u32,
    verified: Verified,
) -> Result<Explained, OutOfMemory>
    ensures exactly { IfOk result (λ told. (told ≡ answers.Nothing)
        ↔ (verified ≡ outcomes.Yes)) }
    ensures answers { IfOk result (Answers verified) }
{
    match verified {
        Verified::Yes => Ok(Explained::Nothing),
        Verified::Finding(finding) => explain_finding(alloc, subject, max_rounds, finding),
        Verified::NotSettled => Ok(Explained::NotSettled),
    }
}

/// Explains all findings that are known, or this one, where there are none.
fn explain_finding(
    alloc: Global,
    subject: &Subject,
    max_rounds: u32,
    finding: Finding,
) -> Result<Explained, OutOfMemory>
    ensures { IfOk result AreFindings }
{
    let text = match find_known(alloc, subject, max_rounds)? {
        Some(known) if known.has_findings() => known.findings_text(alloc)?,
        _ => finding_text_alone(alloc, finding)?,
    };
    Ok(Explained::Findings(text))
}

/// What is known of a machine under declared shapes by the certificate that is inferred leniently; nothing where its rounds
/// don't settle.
fn find_known<'s>(
    alloc: Global,
    subject: &'s Subject,
    max_rounds: u32,
) -> Result<Option<Known<'s>>, OutOfMemory>
    ensures settled { let table = table_of (scope_in subject.now.machine) in
        IfOk result (λ found. IfSome found
        (λ _. SettlesLeniently table (declared_view subject.now.declared) max_rounds)) }
    ensures unsettled { let table = table_of (scope_in subject.now.machine) in
        IfOk result (λ found. IfNone found
        (NeverSettlesLeniently table (declared_view subject.now.declared) max_rounds)) }
{
    let machine = &subject.machine;
    let declared = &subject.declared;
    let Some(certificate) = infer_leniently(alloc, machine, declared, max_rounds)? else {
        return Ok(None);
    };
    Ok(Some(Known::find(alloc, machine, declared, certificate)?))
}

/// Tells what is known of the state of that name, of a machine under declared shapes.
fn explain_state(
    alloc: Global,
    subject: &Subject,
    name: &str,
    max_rounds: u32,
) -> Result<Explained, OutOfMemory>
    ensures { (definition declared : Bytes) → Describes definition declared subject.now
        → IfOk result (ExplainsState max_rounds definition declared name.now) }
{
    subject.machine.is_shown();
    let Some(state) = subject.machine.state_named(name) else {
        return Ok(Explained::NoSuchState);
    };
    let Some(known) = find_known(alloc, subject, max_rounds)? else {
        return Ok(Explained::NotSettled);
    };
    let text = known.state_text(alloc, state)?;
    Ok(Explained::State(text))
}
