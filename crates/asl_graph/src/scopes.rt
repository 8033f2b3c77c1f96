//! The states of each scope.

use asl_machine_table::Machine;
use asl_states::Scope;
use asl_tree::OutOfMemory;
use std::alloc::Global;
use std::collections::BTreeMap;

/// A scope, by the state that it belongs to.
#[derive(Clone, Copy, PartialEq, Eq, PartialOrd, Ord)]
pub(crate) enum ScopeName {
    /// The machine's own.
    Machine,
    /// The branch of a Parallel, counted from 0, or the processor of a Map.
    Inside { state: usize, branch: usize },
}

impl ScopeName {
    /// The name of a scope of a machine's table.
    fn of(scope: &Scope) -> ScopeName {
        match scope.owner {
            Some((state, branch)) => ScopeName::Inside { state, branch },
            None => ScopeName::Machine,
        }
    }
}

/// The numbers of the states of each scope.
#[derive(Drop)]
pub(crate) struct Scopes {
    states: BTreeMap<ScopeName, Vec<usize>>,
}

impl Scopes {
    /// The states of these numbers by their scopes, in the same order.
    pub(crate) fn of(
        alloc: Global,
        machine: &Machine,
        numbers: &[usize],
    ) -> Result<Scopes, OutOfMemory> {
        let mut scopes = Scopes {
            states: BTreeMap::new(alloc),
        };
        for number in numbers {
            if let Some(scope) = machine.scope_of(*number) {
                scopes.add(alloc, ScopeName::of(scope), *number)?;
            }
        }
        Ok(scopes)
    }

    /// Adds a state to a scope.
    fn add(&mut self, alloc: Global, scope: ScopeName, number: usize) -> Result<(), OutOfMemory> {
        if let Some(states) = self.states.get_mut(&scope) {
            states.push(number)?;
            return Ok(());
        }
        let mut states = Vec::new(alloc);
        states.push(number)?;
        drop(self.states.insert(scope, states)?);
        Ok(())
    }

    /// The states of a scope.
    pub(crate) fn states_of(&self, scope: ScopeName) -> &[usize] {
        match self.states.get(&scope) {
            Some(states) => states,
            None => &[],
        }
    }
}
