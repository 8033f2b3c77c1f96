//! From the three texts, or a source's first three lines, to a verdict.

ghost use Rattle.std.specs.Prelude.{◌≡◌, IsTrue, IfOk, IfErr, OnOk};
ghost use Rattle.std.specs.Io.KnownBytes.{Appends};
ghost use Rattle.asl_model.specs.Printed.{verdict_text};
ghost use Rattle.asl_model.specs.Headline.{IsVerdictOn};
ghost use Rattle.asl_check.specs.View.{verdict_view};
ghost use Rattle.asl_texts.specs.FirstTold.{TellsFirstOn};
ghost use Rattle.asl_texts.specs.Fronts.{IfLinesRead, NoFrontLineIsLong};
ghost use Rattle.asl_texts.specs.Lines.{NoLineIsLong};
ghost use Rattle.asl_texts.specs.Promised.{ClosedIfYes, IsOfFirst, IsRefusalOf, IsVerdictOf, NoFaultIfYes, RejectedIfNo};
ghost use Rattle.asl_texts.specs.Verifying.{TellsRefusal};
ghost use Rattle.asl_texts.specs.OfLines.{AreRejectedWhereNo, AreClosedWhereYes, NeverFaultWhereYes, OfLinesTells};
ghost use Rattle.asl_texts.specs.Writing.{CheckFaultStands};

use crate::lines::read_lines;
use crate::printing::verdict_text;
use crate::reading::{certificate_text, declared_text, machine_text};
use crate::refusals::{RunFault, TextFault, TextRefusal, Which};
use crate::sinks::{Sink, write_all};
use crate::sources::Source;
use asl_check::{Verdict, check_numbered};
use asl_model::run_laws::{closed_runs_never_fault, closed_runs_tell_no_fault};
use asl_model::shape_laws::no_broken_rule_means_closed;
use std::alloc::Global;

/// Checks a certificate against a definition and declared shapes, all given as JSON texts.
///
/// Yes where no rule of the checker is broken. Then for every input of the declared shape and every list of moves and
/// task answers, branches and iterations interleaved in any way, each answer a failure or of its declared shape, the run
/// raises none of the six data-flow faults, and every state's input, every task's payload and every output has its
/// certified shape. Otherwise No, with one finding for each name that has a broken rule: the first one, in the order in
/// which the checker goes over the rules.
///
/// The texts are read in this order, and the first refused one is told, with a fault that stands in it; or the one for
/// which there was no memory, with OutOfMemory: those in front of it read. Where there was none to check the three, that
/// is told with the certificate.
pub fn verify_texts(
    alloc: Global,
    definition: &[u8],
    declared: &[u8],
    certificate: &[u8],
) -> Result<Verdict, TextRefusal>
    ensures verdict { IfOk result (IsVerdictOf definition.now declared.now certificate.now) }
    ensures first { IfOk result (IsOfFirst definition.now declared.now certificate.now) }
    ensures yes { IfOk result (ClosedIfYes definition.now declared.now certificate.now) }
    ensures headline { IfOk result (NoFaultIfYes definition.now declared.now certificate.now) }
    ensures no { IfOk result (RejectedIfNo definition.now declared.now certificate.now) }
    ensures refused { IfErr result (IsRefusalOf definition.now declared.now certificate.now) }
{
    let machine = machine_text(alloc, definition)?;
    let declared = declared_text(alloc, declared)?;
    let mut certificate = certificate_text(alloc, certificate)?;
    machine.is_shown();
    no_broken_rule_means_closed();
    closed_runs_never_fault();
    closed_runs_tell_no_fault();
    match check_numbered(alloc, &machine, &declared, &mut certificate) {
        Ok(verdict) => Ok(verdict),
        Err(_) => Err(TextRefusal {
            which: Which::Certificate,
            fault: TextFault::OutOfMemory,
        }),
    }
}

/// Takes three lines from the source (definition, declared shapes, certificate), checks them, and writes the lines of
/// the verdict to the sink.
///
/// What is promised of the verdict and of a refused text is that of [`verify_texts`], for the three lines. On Ok its lines
/// are written and nothing else; after a failed write a front of the lines of a right verdict; otherwise nothing.
///
/// All three lines are read before any is looked at. A missing line is an empty text, and what follows the third line
/// break isn't looked at. Refused: TooLong for a line of more than 16777216 bytes, its break not counted; Read and Write
/// where the source or the sink failed; Text as [`verify_texts`] does; OutOfMemory where a growth was refused. So a line
/// that never ends is TooLong, but for a failed read or a refused growth.
pub fn check_lines<R: Source, W: Sink>(
    alloc: Global,
    source: &mut R,
    sink: &mut W,
) -> Result<Verdict, RunFault>
    ensures verdict { IfOk result (OfLinesTells (R.remaining source.old) IsVerdictOn) }
    ensures first { IfOk result (OfLinesTells (R.remaining source.old) TellsFirstOn) }
    ensures yes { IfOk result (OfLinesTells (R.remaining source.old) AreClosedWhereYes) }
    ensures headline { IfOk result (OfLinesTells (R.remaining source.old) NeverFaultWhereYes) }
    ensures no { IfOk result (OfLinesTells (R.remaining source.old) AreRejectedWhereNo) }
    ensures written { IfOk result (λ verdict. Appends (W.contents sink.old) (W.contents sink.new)
        (verdict_text (verdict_view verdict))) }
    ensures refused { IfErr result (TellsRefusal (R.remaining source.old)) }
    ensures short { OnOk result (NoLineIsLong (R.remaining source.old)) }
    ensures endless { OnOk result (NoFrontLineIsLong (R.begins source.old)) }
    ensures endless_fault { IfErr result (IfLinesRead (NoFrontLineIsLong (R.begins source.old))) }
    ensures fault { IfErr result (CheckFaultStands (R.remaining source.old) (R.failed source.new)
        (W.contents sink.old) (W.contents sink.new) (W.failed sink.new)) }
    ensures lasting_read { IsTrue (R.failed source.old) → IsTrue (R.failed source.new) }
    ensures lasting_write { IsTrue (W.failed sink.old) → IsTrue (W.failed sink.new) }
{
    let lines = read_lines(alloc, source)?;
    let verdict = verify_texts(
        alloc,
        &lines.definition,
        &lines.declared,
        &lines.certificate,
    )?;
    let text = verdict_text(alloc, &verdict)?;
    match write_all(sink, text.as_bytes()) {
        Ok(()) => Ok(verdict),
        Err(_) => Err(RunFault::Write),
    }
}
