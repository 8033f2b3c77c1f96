//! What leaves a state for others.

ghost use Rattle.std.specs.Prelude.{◌≡◌, ◌<◌, ◌++◌, ℕ, List, length, IfOk, IfSome, OnOk, option_map, option_to_list};
ghost use Rattle.asl_model.specs.Certificate.{gives_of, under};
ghost use Rattle.asl_model.specs.Shape as model;
ghost use Rattle.asl_numbered.specs.Expansion.{shape_at, Keeps};
ghost use Rattle.asl_machine_table.specs.Table.{table_view};
ghost use Rattle.asl_records.specs.Numbered.{numbers_view, AreEntriesBelow, AreNumbersBelow};
ghost use Rattle.asl_records.specs.View.{declared_view};
ghost use Rattle.asl_state_edges.specs.View.{edge_view, step_view, steps_of, AreStepsBelow, IsStepBelow};
ghost use Rattle.asl_ways.specs.Adding.{Adds};
ghost use Rattle.asl_ways.specs.Coming.{coming, comes_along, comes_at, leaves, leaves_row};
ghost use Rattle.asl_ways.specs.Exits.{none_passed};
ghost use Rattle.asl_ways.specs.Given.{given_in, row_at, row_view};

use crate::arriving::{Arrival, Origin};
use crate::exits::Passed;
use asl_machine_table::Machine;
use asl_numbered::Shapes;
use asl_records::{Declared, StateNumbers};
use asl_shape::Shape;
use asl_state_edges::{Destination, Edge, Entry, Step, edges_of};
use asl_states::State;
use asl_tree::OutOfMemory;
use std::alloc::Global;
use std::collections::BTreeMap;

/// What is walked: a machine, what is declared, and what is certified of its states by the numbers of a table.
#[derive(Clone, Copy, Drop)]
pub(crate) struct Walker<'w> {
    pub(crate) alloc: Global,
    pub(crate) machine: &'w Machine,
    pub(crate) declared: &'w Declared,
    pub(crate) states: &'w BTreeMap<String, StateNumbers>,
}

/// A certified state: its name, itself, and what is certified of it.
#[derive(Clone, Copy, Drop)]
pub(crate) struct Row<'w> {
    name: &'w str,
    state: &'w State,
    pub(crate) entry: &'w StateNumbers,
}

impl<'w> Walker<'w> {
    /// The state of that number, if it is there and certified.
    pub(crate) fn row(&self, number: usize) -> Option<Row<'w>>
        ensures row { (table : List model.Shape) → option_map (row_view table) result
            ≡ row_at (given_in table self.now) number }
        ensures below { (bound : ℕ) → AreEntriesBelow bound self.now.states.now.entries
            → IfSome result (λ row. AreNumbersBelow bound row.entry.now) }
    {
        let name = self.machine.name(number)?;
        let state = self.machine.state(number)?;
        let entry = self.entry(name)?;
        Some(Row { name, state, entry })
    }

    /// What is certified of the state of that name.
    fn entry(&self, name: &str) -> Option<&'w StateNumbers>
        ensures seen { (table : List model.Shape)
            → option_map (λ entry. numbers_view table entry.now) result
            ≡ under name.now (given_in table self.now).states }
        ensures below { (bound : ℕ) → AreEntriesBelow bound self.now.states.now.entries
            → IfSome result (λ entry. AreNumbersBelow bound entry.now) }
    {
        self.states.get(name)
    }

    /// Adds what leaves the state of that number for others, where what comes to it has the shape of that number, in the
    /// order of the walk; nothing where there is no such state, or no entry for it.
    pub(crate) fn push_leaving(
        &self,
        shapes: &mut Shapes,
        arrivals: &mut Vec<Arrival>,
        number: usize,
        input: usize,
    ) -> Result<(), OutOfMemory>
        requires states { AreEntriesBelow (length shapes.old) self.now.states.now.entries }
        requires input { input < length shapes.old }
        ensures adds { OnOk result
            (Adds shapes.new arrivals.old.items arrivals.new.items
            (leaves (given_in shapes.old self.now) number (shape_at shapes.old input))) }
        ensures keeps { Keeps shapes.old shapes.new }
    {
        match self.row(number) {
            Some(row) => self.push_row(shapes, arrivals, number, &row, input),
            None => Ok(()),
        }
    }

    /// Adds what leaves a certified state of that number for others.
    pub(crate) fn push_row(
        &self,
        shapes: &mut Shapes,
        arrivals: &mut Vec<Arrival>,
        number: usize,
        row: &Row,
        input: usize,
    ) -> Result<(), OutOfMemory>
        requires entry { AreNumbersBelow (length shapes.old) row.now.entry.now }
        requires input { input < length shapes.old }
        ensures adds { OnOk result
            (Adds shapes.new arrivals.old.items arrivals.new.items
            (leaves_row (given_in shapes.old self.now) number
            (shape_at shapes.old input) (row_view shapes.old row.now))) }
        ensures keeps { Keeps shapes.old shapes.new }
    {
        let gives = number_given(shapes, self.declared, row.name)?;
        let entered = Entry {
            input,
            output: row.entry.output,
            branches: &row.entry.branches,
            item: row.entry.item,
        };
        let steps = edges_of(self.alloc, shapes, row.state, entered, gives)?;
        push_arrivals(arrivals, self.machine, number, &steps)
    }
}

/// The number of what the task of that name gives; one that isn't declared gives every tree.
fn number_given(shapes: &mut Shapes, declared: &Declared, name: &str) -> Result<usize, OutOfMemory>
    ensures within { IfOk result (λ gives. gives < length shapes.new) }
    ensures gives { IfOk result (λ gives. shape_at shapes.new gives
        ≡ gives_of (declared_view declared.now) name.now) }
    ensures keeps { Keeps shapes.old shapes.new }
{
    match declared.task(name) {
        Some(task) => shapes.add(&task.gives),
        None => shapes.add(&Shape::Any),
    }
}

/// Adds what comes to other states along the steps of the walk through the state of that number.
fn push_arrivals(
    arrivals: &mut Vec<Arrival>,
    machine: &Machine,
    number: usize,
    steps: &[Step],
) -> Result<(), OutOfMemory>
    ensures { (table : List model.Shape) → AreStepsBelow (length table) steps.now
        → OnOk result (Adds table arrivals.old.items arrivals.new.items
        (comes_along (table_view machine.now) number none_passed (steps_of table steps.now))) }
{
    let mut passed = Passed::none();
    for step in steps {
        push_if_any(arrivals, arrival_at(machine, number, &passed, step))?;
        passed = passed.on(step);
    }
    Ok(())
}

/// Adds an arrival, if there is one.
pub(crate) fn push_if_any(
    arrivals: &mut Vec<Arrival>,
    arrival: Option<Arrival>,
) -> Result<(), OutOfMemory>
    ensures { OnOk result
        (arrivals.new.items ≡ arrivals.old.items ++ option_to_list arrival) }
{
    if let Some(arrival) = arrival {
        arrivals.push(arrival)?;
    }
    Ok(())
}

/// What comes to another state at a step, if anything does.
fn arrival_at(machine: &Machine, number: usize, passed: &Passed, step: &Step) -> Option<Arrival>
    ensures seen { (table : List model.Shape)
        → option_to_list (option_map (coming table) result)
        ≡ comes_at (table_view machine.now) number passed.now (step_view table step.now) }
    ensures below { (bound : ℕ) → IsStepBelow bound step.now
        → IfSome result (λ arrival. arrival.shape < bound) }
{
    match *step {
        Step::Flows(edge) => arrival_along(machine, number, passed, edge),
        Step::Breaks(_) => None,
    }
}

/// What comes to another state along an edge, if anything does.
fn arrival_along(machine: &Machine, number: usize, passed: &Passed, edge: Edge) -> Option<Arrival>
    ensures seen { (table : List model.Shape)
        → option_to_list (option_map (coming table) result)
        ≡ comes_at (table_view machine.now) number passed.now (edge_view table edge.entry) }
    ensures below { IfSome result (λ arrival. arrival.shape ≡ edge.entry.flowing) }
{
    match edge.destination {
        Destination::Input(target) => {
            let state = machine.state_of(target)?;
            Some(Arrival {
                state,
                shape: edge.flowing,
                origin: Some(Origin {
                    state: number,
                    exit: passed.exit(edge.field),
                }),
            })
        }
        Destination::Output | Destination::End | Destination::Task => None,
    }
}
