//! What a definition and declared shapes read as, given as texts.

ghost use Rattle.std.specs.Prelude.{IfOk, IfErr};
ghost use Rattle.asl_model.specs.Texts.{ReadsAsDeclared};
ghost use Rattle.asl_records.specs.View.{declared_view};
ghost use Rattle.asl_texts.specs.Subjects.{DeclaredFaultStands, DefinitionFaultStands, Describes, SubjectFaultStands};
ghost use Rattle.asl_texts.specs.Verifying.{ReadsInto};

use crate::reading::{declared_text, machine_text};
use crate::refusals::RunFault;
use asl_machine::Machine;
use asl_records::Declared;
use std::alloc::Global;

/// A machine and its declared shapes.
#[derive(Drop)]
pub struct Subject {
    pub machine: Machine,
    pub declared: Declared,
}

/// The machine that a definition reads as, a JSON text, and then the declared shapes that another one reads as.
///
/// Refused: Text for the first of both that is refused, with a fault that stands in it, or with OutOfMemory where there was
/// none to read it.
pub fn read_subject(alloc: Global, definition: &[u8], declared: &[u8]) -> Result<Subject, RunFault>
    ensures read { IfOk result (Describes definition.now declared.now) }
    ensures refused { IfErr result (SubjectFaultStands definition.now declared.now) }
{
    let machine = read_definition(alloc, definition)?;
    let declared = read_declared_text(alloc, declared)?;
    Ok(Subject { machine, declared })
}

/// The machine that a definition reads as, a JSON text.
///
/// Refused: Text with a fault that stands in it, or with OutOfMemory where there was none to read it.
pub fn read_definition(alloc: Global, text: &[u8]) -> Result<Machine, RunFault>
    ensures read { IfOk result (ReadsInto text.now) }
    ensures refused { IfErr result (DefinitionFaultStands text.now) }
{
    Ok(machine_text(alloc, text)?)
}

/// The declared shapes that a JSON text reads as.
///
/// Refused: Text with a fault that stands in it, or with OutOfMemory where there was none to read it.
pub fn read_declared_text(alloc: Global, text: &[u8]) -> Result<Declared, RunFault>
    ensures read { IfOk result (λ declared. ReadsAsDeclared text.now (declared_view declared)) }
    ensures refused { IfErr result (DeclaredFaultStands text.now) }
{
    Ok(declared_text(alloc, text)?)
}
