// Where a rule of a definition is broken, and what is told of it.

ghost use Rattle.std.specs.Prelude.{◌≡◌, List, None, Ok, IfErr, IfOk, IfSome, map, option_map};
ghost use Rattle.asl_model.specs.DefinitionTable as model;
ghost use Rattle.asl_model.specs.StandsFor.{is_told_by_name, told_field as model_told_field, complaint_at};
ghost use Rattle.asl_fields.specs.View.{def_fault_view};
ghost use Rattle.asl_fields.specs.Verdicts.{IsAmong, IsMisfit, IsVerdict, complaint_view, place_view, told_unless};

use crate::refusals::DefFault;
use asl_tree::OutOfMemory;

/// A broken rule, told at a state, whose name is empty for the machine's own fields, and at a field.
#[derive(Clone, Copy)]
pub struct Complaint<'a> {
    /// What is wrong.
    pub fault: DefFault,
    /// The name of the state.
    pub state: &'a str,
    /// The name of the field.
    pub field: &'a str,
}

/// Where an object of a definition stands.
#[derive(Clone, Copy)]
pub struct Place<'a> {
    /// The state that is told, whose name is empty for the machine itself.
    pub state: &'a str,
    /// The state's own field in which the object stands; none for the machine and for states themselves.
    pub within: Option<&'a str>,
}

impl<'a> Place<'a> {
    /// A fault of a field of the object that stands there. It is told at the state's own field in which the object
    /// stands, but for those faults that are told by the field's own name.
    pub fn complaint(&self, field: &'a str, fault: DefFault) -> Complaint<'a>
        ensures seen { complaint_view result
            ≡ option_map (complaint_at (place_view self.now) field.now) (def_fault_view fault) }
        ensures among { (faults : List model.DefFault) → IsAmong faults (def_fault_view fault)
            → IsAmong (map (complaint_at (place_view self.now) field.now) faults)
            (complaint_view result) }
    {
        Complaint {
            fault,
            state: self.state,
            field: self.told_field(field, fault),
        }
    }

    /// The field at which such a fault is told.
    fn told_field(&self, field: &'a str, fault: DefFault) -> &'a str
        ensures { IfSome (def_fault_view fault) (λ f. result.now
            ≡ model_told_field (option_map (λ own. own.now) self.now.within) field.now f) }
    {
        match self.within {
            Some(own) if !is_told_by_its_name(fault) => own,
            _ => field,
        }
    }

    /// What was found wrong with the value of a field, told as such a fault.
    pub(crate) fn told(
        &self,
        field: &'a str,
        found: Result<(), DefFault>,
    ) -> Result<(), Complaint<'a>>
        ensures { (faults : List model.DefFault) → IsMisfit faults found
            → IsVerdict (map (complaint_at (place_view self.now) field.now) faults) result }
    {
        match found {
            Ok(()) => Ok(()),
            Err(fault) => Err(self.complaint(field, fault)),
        }
    }

    /// What was built for a field. Refuses only where it wasn't built, as for want of memory.
    pub fn or_out_of_memory<T>(
        &self,
        field: &'a str,
        built: Result<T, OutOfMemory>,
    ) -> Result<T, Complaint<'a>>
        ensures built { IfOk result (λ value. built ≡ Ok value) }
        ensures told { IfErr result (λ complaint. complaint_view complaint ≡ None) }
    {
        match built {
            Ok(value) => Ok(value),
            Err(_) => Err(self.complaint(field, DefFault::OutOfMemory)),
        }
    }

    /// Refuses with such a fault of the field, unless the test holds.
    pub fn complain_unless(
        &self,
        right: bool,
        field: &'a str,
        fault: DefFault,
    ) -> Result<(), Complaint<'a>>
        ensures { IsVerdict
            (told_unless right (place_view self.now) field.now (def_fault_view fault)) result }
    {
        if right {
            Ok(())
        } else {
            Err(self.complaint(field, fault))
        }
    }
}

/// Whether a fault is told at the field's own name, in whatever object that is.
fn is_told_by_its_name(fault: DefFault) -> bool
    ensures { IfSome (def_fault_view fault) (λ f. result ≡ is_told_by_name f) }
{
    matches!(
        fault,
        DefFault::MissingField | DefFault::UnknownField | DefFault::LeftOut
    )
}
