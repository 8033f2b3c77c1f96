//! What the runs of cases have taken of a machine.

ghost use Rattle.std.specs.Prelude.{◌≡◌, ◌∷◌, ◌++◌, ◌↔◌, [], IfOk, length, map, option_map};
ghost use Rattle.asl_model.specs.Tree.{Object, NoFields};
ghost use Rattle.asl_machine_table.specs.Table.{table_view};
ghost use Rattle.asl_tree.specs.View.{view};
ghost use Rattle.asl_run.specs.Entries.{entry_view};
ghost use Rattle.asl_run.specs.Driving.{Told};
ghost use Rattle.asl_cases.specs.Coverage.{AreFlagsOf, IsCovered, IsCoverageOf, lacking, taker};

use crate::covered::Covered;
use crate::lacking::push_lacking;
use asl_machine_table::Machine;
use asl_run::Entry;
use asl_tree::{OutOfMemory, Tree, quoted};
use std::alloc::Global;
use std::collections::BTreeMap;

/// What runs have taken of a machine: the states that were entered, and which of their rules, Defaults, retriers and
/// catchers were taken.
#[derive(Drop)]
pub struct Coverage {
    /// What stands for a Choice's effective input where `InputPath` is null.
    empty: Tree,
    /// For each state, by its number.
    states: Vec<Covered>,
}

impl Coverage {
    /// Nothing of the machine was taken. Refused: want of memory.
    pub fn new(alloc: Global, machine: &Machine) -> Result<Coverage, OutOfMemory>
        ensures { IfOk result (IsCoverageOf (table_view machine.now) []) }
    {
        Ok(Coverage {
            empty: Tree::Object(BTreeMap::new(alloc)),
            states: nothing_of(alloc, machine)?,
        })
    }

    /// Adds what a run of the machine has taken, by its trace. A rule is taken where it is the first that is true,
    /// `Default` where no rule is.
    pub fn add(&mut self, machine: &Machine, trace: &[Entry])
        ensures { (told : Told) → IsCoverageOf (table_view machine.now) told self.old
            → IsCoverageOf (table_view machine.now) (told ++ map entry_view trace.now) self.new }
    {
        for entry in trace {
            add_entry(&mut self.states, machine, entry, &self.empty);
        }
    }

    /// A line for each state that was never entered, in the order of their numbers; of those that were, for each rule,
    /// Default, retrier and catcher that was never taken. A retrier that retries no times has no line.
    ///
    /// Refused: want of memory.
    pub fn lacking(&self, alloc: Global, machine: &Machine) -> Result<Vec<String>, OutOfMemory>
        ensures covered { (told : Told) → IsCoverageOf (table_view machine.now) told self.now
            → IfOk result (λ lines. lines.items ≡ [] ↔ IsCovered (table_view machine.now) told) }
        ensures lines { (told : Told) → IsCoverageOf (table_view machine.now) told self.now
            → IfOk result
            (λ lines. length lines.items ≡ length (lacking (table_view machine.now) told)) }
    {
        lines_of(alloc, machine, &self.states)
    }
}

/// Nothing of each state was taken.
fn nothing_of(alloc: Global, machine: &Machine) -> Result<Vec<Covered>, OutOfMemory>
    ensures { IfOk result (λ states. AreFlagsOf (table_view machine.now) [] states.items) }
{
    let mut states = Vec::new(alloc);
    for number in 0..machine.states() {
        if let Some(state) = machine.state(number) {
            states.push(Covered::nothing(alloc, state)?)?;
        }
    }
    Ok(states)
}

/// Adds what an entry takes of its state.
fn add_entry(states: &mut Vec<Covered>, machine: &Machine, entry: &Entry, empty: &Tree)
    ensures { (told : Told) → view empty.now ≡ Object NoFields
        → AreFlagsOf (table_view machine.now) told states.old.items
        → AreFlagsOf (table_view machine.now) (told ++ entry_view entry.now ∷ []) states.new.items }
{
    let Some(name) = taker(entry) else {
        return;
    };
    let Some(number) = machine.state_named(name) else {
        return;
    };
    let Some(state) = machine.state(number) else {
        return;
    };
    if number < states.len() {
        states[number].add(state, entry, empty);
    }
}

/// The name of the state of which an entry takes something; none where it takes nothing.
fn taker<'m>(entry: &Entry<'m>) -> Option<&'m str>
    ensures { option_map (λ name. name.now) result ≡ taker (entry_view entry.now).1 }
{
    match entry {
        Entry::Enter { state, .. } | Entry::Retried { state, .. } | Entry::Caught { state, .. } => {
            Some(*state)
        }
        Entry::Task { .. }
        | Entry::Leave { .. }
        | Entry::Raise { .. }
        | Entry::TaskFailed { .. }
        | Entry::BranchFailed { .. }
        | Entry::Ended { .. } => None,
    }
}

/// A line for each thing that is lacking, state by state.
fn lines_of(
    alloc: Global,
    machine: &Machine,
    states: &[Covered],
) -> Result<Vec<String>, OutOfMemory>
    ensures { (told : Told) → AreFlagsOf (table_view machine.now) told states.now
        → IfOk result
        (λ lines. length lines.items ≡ length (lacking (table_view machine.now) told)) }
{
    let mut lines = Vec::new(alloc);
    for (number, covered) in states.iter().enumerate() {
        if let Some(state) = machine.state(number) {
            let name = quoted(alloc, machine.name(number).unwrap_or(""))?;
            push_lacking(alloc, &mut lines, &name, state, covered)?;
        }
    }
    Ok(lines)
}
