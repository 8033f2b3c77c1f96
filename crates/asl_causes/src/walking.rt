//! Walks through a state with a given input, and the rules that are broken on them.

ghost use Rattle.std.specs.Prelude.{◌↔◌, IfSome, IsTrue, length};
ghost use Rattle.asl_state_edges.specs.Entry.{IsEntryBelow};
ghost use Rattle.asl_numbered.specs.Expansion.{AreBelow};

use crate::flows::Explainer;
use crate::tests_of_rules::{Tests, sooner};
use asl_check::{FindingFault, Located};
use asl_numbered::Shapes;
use asl_path::print;
use asl_records::StateNumbers;
use asl_state_edges::{Broken, Destination, Edge, Entry, Step, edges_of};
use asl_tree::OutOfMemory;
use std::alloc::Global;
use std::collections::BTreeMap;

/// What is kept from finding to finding: the walks through one state that were taken so far, since the findings of a state stand
/// behind each other, and the tests of choice rules.
#[derive(Drop)]
pub(crate) struct Walks<'m> {
    /// The number of the state.
    state: usize,
    walks: Vec<Walked<'m>>,
    pub(crate) tests: Tests<'m>,
}

/// A walk through a state.
#[derive(Drop)]
struct Walked<'m> {
    /// The number of the input.
    input: usize,
    steps: Vec<Step<'m>>,
    /// The numbers of the steps at which a rule is first broken so, by what is told of it.
    broken: BTreeMap<String, usize>,
    /// The numbers of the steps with payloads.
    payloads: Vec<usize>,
}

impl<'m> Walks<'m> {
    /// None were taken.
    pub(crate) fn new(alloc: Global) -> Walks<'m> {
        Walks {
            state: 0,
            walks: Vec::new(alloc),
            tests: Tests::new(alloc),
        }
    }

    /// Turns to the state of that number. Those through another one are forgotten.
    fn turn_to(&mut self, state: usize) {
        if self.state != state {
            self.walks.clear();
            self.state = state;
        }
    }

    /// The walk with an input of that number, where it was taken.
    fn walk_with(&self, input: usize) -> Option<&Walked<'m>> {
        self.walks.iter().find(|walked| walked.input == input)
    }
}

/// A walk with an input of that number by those steps.
fn walk_by<'m>(
    alloc: Global,
    input: usize,
    steps: Vec<Step<'m>>,
) -> Result<Walked<'m>, OutOfMemory> {
    let (mut broken, mut payloads) = (BTreeMap::new(alloc), Vec::new(alloc));
    for (number, step) in steps.iter().enumerate() {
        match step {
            Step::Breaks(rule) => note_broken(alloc, &mut broken, rule, number)?,
            Step::Flows(edge) => {
                if let Destination::Task = edge.destination {
                    payloads.push(number)?;
                }
            }
        }
    }
    Ok(Walked {
        input,
        steps,
        broken,
        payloads,
    })
}

/// Notes the number of a step by what is told of the rule that is broken there, with its path and without it.
fn note_broken(
    alloc: Global,
    numbers: &mut BTreeMap<String, usize>,
    broken: &Broken,
    number: usize,
) -> Result<(), OutOfMemory> {
    if let Some(path) = &broken.path {
        let text = print(alloc, path.path)?;
        let told = told_at(alloc, broken.fault, broken.field, broken.name, &text)?;
        note_first(numbers, told, number)?;
    }
    note_first(numbers, told_of(alloc, broken.fault, broken.field)?, number)
}

/// Notes the number for a text, where none is noted for it.
fn note_first(
    numbers: &mut BTreeMap<String, usize>,
    text: String,
    number: usize,
) -> Result<(), OutOfMemory> {
    if numbers.get(text.as_str()).is_none() {
        drop(numbers.insert(text, number)?);
    }
    Ok(())
}

/// What is told of a broken rule without its path.
fn told_of(alloc: Global, fault: FindingFault, field: &str) -> Result<String, OutOfMemory> {
    Ok(format!(in alloc; "{} {field}", fault.name())?)
}

/// What is told of a broken rule with its path: no two broken rules have the same text that differ in something.
fn told_at(
    alloc: Global,
    fault: FindingFault,
    field: &str,
    name: &str,
    path: &str,
) -> Result<String, OutOfMemory> {
    let (fault, length) = (fault.name(), name.len());
    Ok(format!(in alloc; "{fault} {field} {length} {name} {path}")?)
}

impl<'m> Explainer<'m> {
    /// The steps of the walk through the state of that number with an input of that number; none where no tree has it.
    fn steps(
        &self,
        shapes: &mut Shapes,
        state: usize,
        input: usize,
    ) -> Result<Vec<Step<'m>>, OutOfMemory> {
        let none = Vec::new(self.alloc);
        let (Some(name), Some(walked)) = (self.machine.name(state), self.machine.state(state))
        else {
            return Ok(none);
        };
        let Some(numbers) = self.states.get(name) else {
            return Ok(none);
        };
        let gives = self.given_by(shapes, name)?;
        match entry_with(shapes, numbers, input) {
            Some(entry) => edges_of(self.alloc, shapes, walked, entry, gives),
            None => Ok(none),
        }
    }

    /// The step at which the rule of a finding is broken on the walk through the state of that number with an input of that
    /// number, if there is one.
    pub(crate) fn broken_step(
        &self,
        shapes: &mut Shapes,
        walks: &mut Walks<'m>,
        located: &Located,
        state: usize,
        input: usize,
    ) -> Result<Option<Step<'m>>, OutOfMemory> {
        walks.turn_to(state);
        if walks.walk_with(input).is_none() {
            let steps = self.steps(shapes, state, input)?;
            walks.walks.push(walk_by(self.alloc, input, steps)?)?;
        }
        match walks.walk_with(input) {
            Some(walked) => self.broken_in(shapes, located, walked),
            None => Ok(None),
        }
    }

    /// The first step of a walk at which the rule of a finding is broken, if there is one: of the same fault, at the same field,
    /// by the same path.
    fn broken_in(
        &self,
        shapes: &mut Shapes,
        located: &Located,
        walked: &Walked<'m>,
    ) -> Result<Option<Step<'m>>, OutOfMemory> {
        let text = self.told_of_finding(located)?;
        let broken = walked.broken.get(text.as_str()).copied();
        let payload = self.payload_in(shapes, located, walked)?;
        Ok(sooner(broken, payload).and_then(|number| walked.steps.get(number).copied()))
    }

    /// What is told of the broken rule of a finding, as [`note_broken`] notes it.
    fn told_of_finding(&self, located: &Located) -> Result<String, OutOfMemory> {
        let finding = &located.finding;
        let field = finding.field.as_str();
        match &located.path {
            Some(path) => told_at(self.alloc, finding.fault, field, &path.name, &path.text),
            None => told_of(self.alloc, finding.fault, field),
        }
    }

    /// The number of the first step of a walk with a payload that the finding is about, if there is one.
    fn payload_in(
        &self,
        shapes: &mut Shapes,
        located: &Located,
        walked: &Walked<'m>,
    ) -> Result<Option<usize>, OutOfMemory> {
        for number in &walked.payloads {
            if let Some(Step::Flows(edge)) = walked.steps.get(*number) {
                if self.overflows(shapes, located, edge)? {
                    return Ok(Some(*number));
                }
            }
        }
        Ok(None)
    }

    /// Whether a payload flows along the edge that isn't within what the task of the finding takes.
    fn overflows(
        &self,
        shapes: &mut Shapes,
        located: &Located,
        edge: &Edge,
    ) -> Result<bool, OutOfMemory> {
        let finding = &located.finding;
        if finding.fault.name() != edge.fault.name() {
            return Ok(false);
        }
        match edge.destination {
            Destination::Task => {
                let takes = self.taken_by(shapes, &finding.state)?;
                Ok(shapes.sub(edge.flowing, takes)? == Some(false))
            }
            Destination::Input(_) | Destination::Output | Destination::End => Ok(false),
        }
    }
}

/// The certified shapes of a state with an input of that number in place of theirs; none where one of them isn't in the table.
fn entry_with<'e>(shapes: &Shapes, numbers: &'e StateNumbers, input: usize) -> Option<Entry<'e>>
    ensures { IfSome result (IsEntryBelow (length shapes.now)) }
{
    let many = shapes.len();
    if input >= many || numbers.output >= many || !are_below(many, &numbers.branches) {
        return None;
    }
    match numbers.item {
        Some(item) if item >= many => None,
        item => Some(Entry {
            input,
            output: numbers.output,
            branches: &numbers.branches,
            item,
        }),
    }
}

/// Whether each of the numbers is below that bound.
fn are_below(bound: usize, numbers: &[usize]) -> bool
    ensures { IsTrue result ↔ AreBelow bound numbers.now }
{
    for number in numbers {
        if *number >= bound {
            return false;
        }
    }
    true
}
