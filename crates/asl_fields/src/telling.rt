// Telling complaints: each goes behind those that were told before it.

ghost use Rattle.std.specs.Prelude.{OnOk, List, map};
ghost use Rattle.asl_model.specs.DefinitionTable as model;
ghost use Rattle.asl_model.specs.StandsFor.{Complaint as ModelComplaint, complaint_at};
ghost use Rattle.asl_fields.specs.Verdicts.{IsMisfit, IsVerdict, complaint_view, place_view};
ghost use Rattle.asl_fields.specs.Telling.{IsSingle, IsTold, Told};

use crate::places::{Complaint, Place};
use crate::refusals::DefFault;
use asl_tree::OutOfMemory;

/// Tells a complaint. Want of memory is none of a definition, so it is refused; else this refuses only where an allocation
/// was refused.
pub fn tell<'a>(complaint: Complaint<'a>, told: &mut Vec<Complaint<'a>>) -> Result<(), OutOfMemory>
    ensures { OnOk result (IsTold told.old.items told.new.items (complaint_view complaint.entry)) }
{
    if matches!(complaint.fault, DefFault::OutOfMemory) {
        return Err(OutOfMemory);
    }
    told.push(complaint)?;
    Ok(())
}

/// Tells what a check finds, where it finds something. There is at most one thing to find. Refuses want of memory, as `tell`.
pub fn tell_found<'a>(
    found: Result<(), Complaint<'a>>,
    told: &mut Vec<Complaint<'a>>,
) -> Result<(), OutOfMemory>
    ensures { OnOk result ((wrong : List ModelComplaint) → IsVerdict wrong found.entry
        → IsSingle wrong → Told told.old.items told.new.items wrong) }
{
    match found {
        Ok(()) => Ok(()),
        Err(complaint) => tell(complaint, told),
    }
}

/// Tells what is found wrong with the value of a field, where something is. There is at most one thing to find.
pub(crate) fn tell_fault<'a>(
    place: &Place<'a>,
    field: &'a str,
    found: Result<(), DefFault>,
    told: &mut Vec<Complaint<'a>>,
) -> Result<(), OutOfMemory>
    ensures { OnOk result ((faults : List model.DefFault) → IsMisfit faults found → IsSingle faults
        → Told told.old.items told.new.items
        (map (complaint_at (place_view place.now) field.now) faults)) }
{
    tell_found(place.told(field, found), told)
}
