// Reading a definition.

ghost use Rattle.std.specs.Prelude.{◌≡◌, IfOk, IfErr};
ghost use Rattle.serde_json.specs.View.{view};
ghost use Rattle.asl_model.specs.StandsFor.{StandsFor, scope_of};
ghost use Rattle.asl_machine.specs.Refusal.{IsRefused};
ghost use Rattle.asl_machine_table.specs.Table.{scope_in};
ghost use Rattle.asl_fields.specs.View.{refusal_view};

use crate::numbering::number;
use crate::scope_reading::read_states;
use asl_fields::DefRefusal;
use asl_machine_table::Machine;
use serde_json::Value;
use std::alloc::Global;

/// The machine that a JSON value stands for (States Language, "Structure of a State Machine", "State Types").
///
/// Refuses where a rule is broken, with a fault that stands there, its state and its field; OutOfMemory only where a
/// growth was refused.
pub fn read(alloc: Global, value: &Value) -> Result<Machine, DefRefusal>
    ensures machine { IfOk result (λ _. StandsFor (view value.now) (scope_of (view value.now))) }
    ensures scope { IfOk result (λ machine. scope_in machine ≡ scope_of (view value.now)) }
    ensures refused { IfErr result (λ refusal. IsRefused (view value.now) (refusal_view refusal)) }
{
    let mut built = Vec::new(alloc);
    match read_states(alloc, value, &mut built) {
        Ok(()) => {
            let placed = number(alloc, built)?;
            Ok(Machine::new(placed.names, placed.states, placed.scopes))
        }
        Err(complaint) => {
            let refusal = DefRefusal::new(alloc, complaint.fault, complaint.state, complaint.field);
            Err(refusal)
        }
    }
}
