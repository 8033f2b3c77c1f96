//! The rules of one state: on its entry, and on what flows through it.

ghost use Rattle.std.specs.Prelude.{◌≡◌, List, length, OnOk, option_map};
ghost use Rattle.asl_model.specs.Finding as finding;
ghost use Rattle.asl_model.specs.Shape as model;
ghost use Rattle.asl_numbered.specs.Expansion.{Keeps};
ghost use Rattle.asl_states.specs.Machine.{kind_view};
ghost use Rattle.asl_records.specs.Numbered.{AreNumbersBelow, numbers_view};
ghost use Rattle.asl_check.specs.Found.{found_on_entry, found_through, found_with_entry};
ghost use Rattle.asl_check.specs.Listing.{Adds};
ghost use Rattle.asl_check.specs.Numbers.{IsWithin};

use crate::checker::Checker;
use crate::faults::breach_unless;
use crate::listed::{Listed, list};
use crate::lookups::Row;
use crate::standing::Standing;
use crate::tasks::number_task;
use asl_numbered::Shapes;
use asl_records::StateNumbers;
use asl_state_edges::{Entry, FindingFault, edges_of};
use asl_states::Kind;
use asl_tree::OutOfMemory;

impl Checker<'_> {
    /// Lists the broken rules on a state's entry, which has the right form, and on what is declared of a Task.
    pub(crate) fn list_entry<'m>(
        &self,
        rules: &mut Vec<Listed<'m>>,
        row: &Row<'m>,
    ) -> Result<(), OutOfMemory>
        ensures { (table : List model.Shape) → OnOk result
            (Adds table rules.old.items rules.new.items (found_on_entry table self.now row.now)) }
    {
        let kind = &row.state.kind;
        let certified = is_certified(kind, self.states.get(row.name));
        let uncertified = breach_unless(certified, "states", FindingFault::NotCertified);
        list(rules, row.name, uncertified)?;
        let declared = !kind.is_task() || self.declared.task(row.name).is_some();
        let undeclared = breach_unless(declared, "Resource", FindingFault::TaskUndeclared);
        list(rules, row.name, undeclared)
    }

    /// Lists the broken rules on what flows through a state; none where it has no entry.
    pub(crate) fn list_flow<'m>(
        &self,
        shapes: &mut Shapes,
        rules: &mut Vec<Listed<'m>>,
        row: &Row<'m>,
    ) -> Result<(), OutOfMemory>
        requires within { IsWithin shapes.old self.now }
        ensures adds { OnOk result (Adds shapes.new rules.old.items rules.new.items
            (found_through shapes.old self.now row.now)) }
        ensures keeps { Keeps shapes.old shapes.new }
    {
        match self.states.get(row.name) {
            Some(entry) => self.list_walk(shapes, rules, row, entry),
            None => Ok(()),
        }
    }

    /// Lists the broken rules on what flows through a state with that entry: at the steps of the walk that don't fit, or
    /// that are broken themselves.
    fn list_walk<'m>(
        &self,
        shapes: &mut Shapes,
        rules: &mut Vec<Listed<'m>>,
        row: &Row<'m>,
        entry: &StateNumbers,
    ) -> Result<(), OutOfMemory>
        requires within { IsWithin shapes.old self.now }
        requires entry { AreNumbersBelow (length shapes.old) entry.now }
        ensures adds { OnOk result (Adds shapes.new rules.old.items rules.new.items
            (found_with_entry shapes.old self.now row.now entry.now)) }
        ensures keeps { Keeps shapes.old shapes.new }
    {
        let task = number_task(shapes, self.declared, row.name)?;
        let entered = Entry {
            input: entry.input,
            output: entry.output,
            branches: &entry.branches,
            item: entry.item,
        };
        let steps = edges_of(self.alloc, shapes, row.state, entered, task.gives)?;
        let standing = Standing {
            checker: self,
            output: entry.output,
            end: self.end_of(row.scope),
            takes: task.takes,
        };
        standing.list_steps(shapes, rules, row.name, &steps)
    }
}

/// Whether there is an entry, of the form that the state's type asks for.
fn is_certified(kind: &Kind, entry: Option<&StateNumbers>) -> bool
    ensures { (table : List model.Shape)
        → result ≡ finding.is_certified (kind_view kind.now)
        (option_map (λ e. numbers_view table e.now) entry.entry) }
{
    match entry {
        Some(entry) => {
            entry.branches.len() == kind.branches() && entry.item.is_some() == kind.is_map()
        }
        None => false,
    }
}
