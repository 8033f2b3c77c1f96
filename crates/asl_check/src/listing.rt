//! Going over the rules of a certificate, one list of rules after another.

ghost use Rattle.std.specs.Prelude.{◌≡◌, List, IfOk, IfSome, OnOk, codes, length, map, option_map, option_to_list, string_bytes};
ghost use Rattle.std.specs.BTreeMap.{keys};
ghost use Rattle.asl_model.specs.Finding.{StartInput, breach_unless_sub};
ghost use Rattle.asl_model.specs.Shape as model;
ghost use Rattle.asl_numbered.specs.Expansion.{Keeps};
ghost use Rattle.asl_shape.specs.View.{view};
ghost use Rattle.asl_machine_table.specs.Table.{table_view};
ghost use Rattle.asl_records.specs.View.{declared_view};
ghost use Rattle.asl_check.specs.Faults.{fault_view, IsFaultBelow};
ghost use Rattle.asl_check.specs.Listing.{Adds, rules_view, AreRulesBelow};
ghost use Rattle.asl_check.specs.Numbers.{IsWithin, certificate_of};
ghost use Rattle.asl_check.specs.Rules.{entry_rules, flow_rules, found_by, found_in_all, found_at_start, inputs_in, state_rule, task_rule};
ghost use Rattle.asl_check.specs.Told.{listed};

use crate::checker::Checker;
use crate::comparing::broken_unless_sub;
use crate::faults::{Fault, breach_unless};
use crate::listed::{Listed, list};
use crate::lookups::row_of;
use asl_numbered::Shapes;
use asl_state_edges::FindingFault;
use asl_tree::OutOfMemory;

impl<'c> Checker<'c> {
    /// All broken rules, in the order of these lists. What shows them stands there by number: no tree is made.
    pub(crate) fn list_all(&self, shapes: &mut Shapes) -> Result<Vec<Listed<'c>>, OutOfMemory>
        requires within { IsWithin shapes.old self.now }
        ensures listed { IfOk result (λ rules. rules_view shapes.new rules.items
            ≡ listed (table_view self.now.machine.now) (declared_view self.now.declared.now)
            (certificate_of shapes.old self.now)) }
        ensures below { IfOk result (λ rules. AreRulesBelow (length shapes.new) rules.items) }
        ensures keeps { Keeps shapes.old shapes.new }
    {
        let mut rules = Vec::new(self.alloc);
        self.list_entries(&mut rules)?;
        self.list_unknown_entries(&mut rules)?;
        self.list_unknown_tasks(&mut rules)?;
        self.list_start(shapes, &mut rules)?;
        self.list_flows(shapes, &mut rules)?;
        Ok(rules)
    }

    /// Lists the states without an entry of the right form, and the Tasks that aren't declared.
    fn list_entries(&self, rules: &mut Vec<Listed<'c>>) -> Result<(), OutOfMemory>
        ensures { (table : List model.Shape) → OnOk result
            (Adds table rules.old.items rules.new.items
            (found_in_all (entry_rules (declared_view self.now.declared.now)
            (certificate_of table self.now)) (table_view self.now.machine.now))) }
    {
        for number in 0..self.machine.states() {
            if let Some(row) = row_of(self.machine, number) {
                self.list_entry(rules, &row)?;
            }
        }
        Ok(())
    }

    /// Lists the entries' names that no state has.
    fn list_unknown_entries(&self, rules: &mut Vec<Listed<'c>>) -> Result<(), OutOfMemory>
        ensures { (table : List model.Shape) → OnOk result
            (Adds table rules.old.items rules.new.items
            (found_by (state_rule (table_view self.now.machine.now))
            (map string_bytes (keys self.now.states.now)))) }
    {
        for name in self.states.keys() {
            let known = self.machine.state_named(name).is_some();
            list(
                rules,
                name,
                breach_unless(known, "states", FindingFault::NotAState),
            )?;
        }
        Ok(())
    }

    /// Lists the declared tasks' names that no Task has.
    fn list_unknown_tasks(&self, rules: &mut Vec<Listed<'c>>) -> Result<(), OutOfMemory>
        ensures { (table : List model.Shape) → OnOk result
            (Adds table rules.old.items rules.new.items
            (found_by (task_rule (table_view self.now.machine.now))
            (map string_bytes (keys self.now.declared.now.tasks)))) }
    {
        for name in self.declared.tasks.keys() {
            let known = self.names_task(name);
            list(
                rules,
                name,
                breach_unless(known, "tasks", FindingFault::TaskUnknown),
            )?;
        }
        Ok(())
    }

    /// Lists the start state, where the declared input isn't within its certified input.
    fn list_start(
        &self,
        shapes: &mut Shapes,
        rules: &mut Vec<Listed<'c>>,
    ) -> Result<(), OutOfMemory>
        requires within { IsWithin shapes.old self.now }
        ensures adds { OnOk result
            (Adds shapes.new rules.old.items rules.new.items
            (found_at_start (table_view self.now.machine.now) (declared_view self.now.declared.now)
            (certificate_of shapes.old self.now))) }
        ensures keeps { Keeps shapes.old shapes.new }
    {
        let Some(start) = self.start() else {
            return Ok(());
        };
        let fault = self.broken_at_start(shapes, start)?;
        list(rules, start, fault)
    }

    /// The broken rule where the declared input isn't within the certified input of the state of that name.
    fn broken_at_start<'m>(
        &self,
        shapes: &mut Shapes,
        start: &str,
    ) -> Result<Option<Fault<'m>>, OutOfMemory>
        requires within { IsWithin shapes.old self.now }
        ensures told { IfOk result
            (λ told. option_to_list (option_map (fault_view shapes.new) told)
            ≡ breach_unless_sub (codes "StartAt") StartInput (view self.now.declared.now.input)
            (inputs_in (table_view self.now.machine.now)
            (certificate_of shapes.old self.now) start.now)) }
        ensures below { IfOk result (λ told. IfSome told (IsFaultBelow (length shapes.new))) }
        ensures keeps { Keeps shapes.old shapes.new }
    {
        let input = shapes.add(&self.declared.input)?;
        let expected = self.input_to_compare(start);
        broken_unless_sub(shapes, input, expected, "StartAt", FindingFault::StartInput)
    }

    /// Lists the broken rules on what flows through the states.
    fn list_flows(
        &self,
        shapes: &mut Shapes,
        rules: &mut Vec<Listed<'c>>,
    ) -> Result<(), OutOfMemory>
        requires within { IsWithin shapes.old self.now }
        ensures adds { OnOk result
            (Adds shapes.new rules.old.items rules.new.items
            (found_in_all (flow_rules (table_view self.now.machine.now)
            (declared_view self.now.declared.now)
            (certificate_of shapes.old self.now)) (table_view self.now.machine.now))) }
        ensures keeps { Keeps shapes.old shapes.new }
    {
        for number in 0..self.machine.states() {
            if let Some(row) = row_of(self.machine, number) {
                self.list_flow(shapes, rules, &row)?;
            }
        }
        Ok(())
    }
}
