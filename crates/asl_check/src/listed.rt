//! Broken rules with the names of their states, by the numbers of a table of shapes.

ghost use Rattle.std.specs.Prelude.{List, IfSome, OnOk, length, option_map, option_to_list};
ghost use Rattle.asl_model.specs.Finding.{found_at};
ghost use Rattle.asl_model.specs.Shape.{Shape};
ghost use Rattle.asl_check.specs.Faults.{fault_view, IsFaultBelow};
ghost use Rattle.asl_check.specs.Listing.{Adds};

use crate::faults::Fault;
use asl_tree::OutOfMemory;

/// A broken rule with the name of its state, or of what names no state.
#[derive(Clone, Copy, Drop)]
pub(crate) struct Listed<'m> {
    pub(crate) name: &'m str,
    pub(crate) fault: Fault<'m>,
}

/// Adds the broken rule of a name, if there is one.
pub(crate) fn list<'m>(
    rules: &mut Vec<Listed<'m>>,
    name: &'m str,
    fault: Option<Fault<'m>>,
) -> Result<(), OutOfMemory>
    ensures { (table : List Shape) → IfSome fault.entry (IsFaultBelow (length table))
        → OnOk result (Adds table rules.old.items rules.new.items
        (found_at name.now (option_to_list (option_map (fault_view table) fault.entry)))) }
{
    if let Some(fault) = fault {
        rules.push(Listed { name, fault })?;
    }
    Ok(())
}
