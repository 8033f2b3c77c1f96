//! What the rules look up in the machine's table and in the certificate.

ghost use Rattle.std.specs.Prelude.{◌≡◌, ◌<◌, List, length, IfSome, option_map};
ghost use Rattle.asl_model.specs.Certificate.{certified, child_end};
ghost use Rattle.asl_model.specs.Shape.{Shape};
ghost use Rattle.asl_numbered.specs.Expansion.{shape_at};
ghost use Rattle.asl_states.specs.Machine.{kind_view, scope_view};
ghost use Rattle.asl_machine_table.specs.Table.{table_view};
ghost use Rattle.asl_check.specs.Checking.{row_view};
ghost use Rattle.asl_check.specs.Numbers.{IsWithin, certificate_of};
ghost use Rattle.asl_check.specs.Rules.{end_in, inputs_in, names_task_in, row_at, start_in};

use crate::checker::Checker;
use asl_machine_table::Machine;
use asl_states::{Kind, Scope, State};

/// A state of the machine: its name, itself, and the scope that it stands in.
#[derive(Clone, Copy)]
pub(crate) struct Row<'m> {
    pub(crate) name: &'m str,
    pub(crate) state: &'m State,
    pub(crate) scope: &'m Scope,
}

/// The state of that number, with its name and the scope that it stands in.
pub(crate) fn row_of(machine: &Machine, number: usize) -> Option<Row<'_>>
    ensures row { option_map row_view result ≡ row_at (table_view machine.now) number }
{
    let name = machine.name(number)?;
    let state = machine.state(number)?;
    let scope = machine.scope_of(number)?;
    Some(Row { name, state, scope })
}

impl<'c> Checker<'c> {
    /// The name of the machine's start state.
    pub(crate) fn start(&self) -> Option<&'c str>
        ensures { option_map (λ n. n.now) result ≡ start_in (table_view self.now.machine.now) }
    {
        let scope = self.machine.scope_of(0)?;
        self.machine.name(scope.start)
    }

    /// Whether a Task has that name.
    pub(crate) fn names_task(&self, name: &str) -> bool
        ensures { result ≡ names_task_in (table_view self.now.machine.now) name.now }
    {
        let Some(number) = self.machine.state_named(name) else {
            return false;
        };
        match self.machine.state(number) {
            Some(state) => state.kind.is_task(),
            None => false,
        }
    }

    /// The number of the input that is compared with what goes on to a name: of a state's certified one, if any; what
    /// is no state takes no tree.
    pub(crate) fn input_to_compare(&self, name: &str) -> Option<usize>
        ensures within { (table : List Shape) → IsWithin table self.now
            → IfSome result (λ n. n < length table) }
        ensures seen { (table : List Shape) → IsWithin table self.now
            → option_map (shape_at table) result ≡ inputs_in (table_view self.now.machine.now)
            (certificate_of table self.now) name.now }
    {
        match self.states.get(name) {
            Some(entry) => Some(entry.input),
            None if self.machine.state_named(name).is_some() => None,
            None => Some(self.never),
        }
    }

    /// The number of the shape certified for the end of a scope, if any is.
    pub(crate) fn end_of(&self, scope: &Scope) -> Option<usize>
        ensures within { (table : List Shape) → IsWithin table self.now
            → IfSome result (λ n. n < length table) }
        ensures seen { (table : List Shape)
            → option_map (shape_at table) result ≡ end_in (table_view self.now.machine.now)
            (certificate_of table self.now) (scope_view scope.now) }
    {
        let Some((number, child)) = scope.owner else {
            return Some(self.output);
        };
        let name = self.machine.name(number)?;
        let state = self.machine.state(number)?;
        self.end_of_child(name, &state.kind, child)
    }

    /// The number of the shape certified for the end of the child of that number, of a state of that name.
    fn end_of_child(&self, name: &str, kind: &Kind, child: usize) -> Option<usize>
        ensures within { (table : List Shape) → IsWithin table self.now
            → IfSome result (λ n. n < length table) }
        ensures seen { (table : List Shape)
            → option_map (shape_at table) result ≡ child_end (kind_view kind.now)
            (certified (certificate_of table self.now) name.now) child }
    {
        let entry = self.states.get(name)?;
        match kind {
            Kind::Parallel { .. } => entry.branches.get(child).copied(),
            Kind::Map { .. } => entry.item,
            Kind::Pass { .. }
            | Kind::Task { .. }
            | Kind::Choice { .. }
            | Kind::Wait { .. }
            | Kind::Succeed
            | Kind::Fail { .. } => None,
        }
    }
}
