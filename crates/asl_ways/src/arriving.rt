//! What comes to the states of a machine under a certificate.

ghost use Rattle.std.specs.Prelude.{◌≡◌, ◌<◌, length, map, IfOk, IfSome, OnOk, option_map, option_to_list};
ghost use Rattle.asl_numbered.specs.Expansion.{Keeps};
ghost use Rattle.asl_records.specs.Numbered.{numbered_view, AreEntriesBelow, AreWithin};
ghost use Rattle.asl_ways.specs.Adding.{Adds, AreBelow};
ghost use Rattle.asl_ways.specs.Coming.{all_coming, coming, leaves_certified, starts};
ghost use Rattle.asl_ways.specs.Given.{given_in, given_of};

use crate::exits::Exit;
use crate::leaving::{Walker, push_if_any};
use asl_machine_table::Machine;
use asl_numbered::Shapes;
use asl_records::{Declared, NumberedCertificate};
use asl_tree::OutOfMemory;
use std::alloc::Global;

/// Where data that comes to a state comes from.
#[derive(Clone, Copy, Drop)]
pub struct Origin {
    /// The number of the state that it leaves.
    pub state: usize,
    /// How it leaves it.
    pub exit: Exit,
}

/// What comes to a state.
#[derive(Clone, Copy, Drop)]
pub struct Arrival {
    /// The state's number.
    pub state: usize,
    /// The number of the shape of what comes.
    pub shape: usize,
    /// Where it comes from; none where it is the machine's input.
    pub origin: Option<Origin>,
}

/// All that comes to states under a certificate: the machine's input first, and then what leaves each state for others, in
/// the order of their numbers and of the walk through each; also where no tree has the shape of what comes. Nothing leaves a
/// state for which the certificate has no entry.
///
/// Further shapes may stand in the certificate's table afterwards, also where memory runs out; each that stood there keeps
/// its number, and the certificate's own numbers are the same. Refuses only where an allocation was refused.
pub fn arrivals(
    alloc: Global,
    machine: &Machine,
    declared: &Declared,
    certificate: &mut NumberedCertificate,
) -> Result<Vec<Arrival>, OutOfMemory>
    requires within { AreWithin certificate.old }
    ensures all { IfOk result
        (λ all. map (coming certificate.new.shapes) all.items
        ≡ all_coming (given_of machine.now declared.now certificate.old)) }
    ensures below { IfOk result (λ all. AreBelow (length certificate.new.shapes) all.items) }
    ensures same { numbered_view certificate.new ≡ numbered_view certificate.old }
    ensures within { AreWithin certificate.new }
    ensures keeps { Keeps certificate.old.shapes certificate.new.shapes }
    ensures output { certificate.new.output ≡ certificate.old.output }
    ensures states { certificate.new.states ≡ certificate.old.states }
{
    let walker = Walker {
        alloc,
        machine,
        declared,
        states: &certificate.states,
    };
    walker.arrivals(&mut certificate.shapes)
}

impl Walker<'_> {
    /// All that comes to states.
    fn arrivals(&self, shapes: &mut Shapes) -> Result<Vec<Arrival>, OutOfMemory>
        requires states { AreEntriesBelow (length shapes.old) self.now.states.now.entries }
        ensures all { IfOk result
            (λ all. map (coming shapes.new) all.items ≡ all_coming (given_in shapes.old self.now)) }
        ensures below { IfOk result (λ all. AreBelow (length shapes.new) all.items) }
        ensures keeps { Keeps shapes.old shapes.new }
    {
        let mut arrivals = Vec::new(self.alloc);
        self.push_start(shapes, &mut arrivals)?;
        let count = self.machine.states();
        for number in 0..count {
            self.push_certified(shapes, &mut arrivals, number)?;
        }
        Ok(arrivals)
    }

    /// Adds the machine's input, if it comes to a state.
    fn push_start(
        &self,
        shapes: &mut Shapes,
        arrivals: &mut Vec<Arrival>,
    ) -> Result<(), OutOfMemory>
        ensures adds { OnOk result
            (Adds shapes.new arrivals.old.items arrivals.new.items
            (starts (given_in shapes.old self.now))) }
        ensures keeps { Keeps shapes.old shapes.new }
    {
        let start = self.start(shapes)?;
        push_if_any(arrivals, start)
    }

    /// The machine's input, which comes to its start state; none where it has no states.
    pub(crate) fn start(&self, shapes: &mut Shapes) -> Result<Option<Arrival>, OutOfMemory>
        ensures start { IfOk result
            (λ start. option_to_list (option_map (coming shapes.new) start)
            ≡ starts (given_in shapes.old self.now)) }
        ensures below { IfOk result
            (λ start. IfSome start (λ arrival. arrival.shape < length shapes.new)) }
        ensures keeps { Keeps shapes.old shapes.new }
    {
        let shape = shapes.add(&self.declared.input)?;
        match self.machine.scope_of(0) {
            Some(scope) => Ok(Some(Arrival {
                state: scope.start,
                shape,
                origin: None,
            })),
            None => Ok(None),
        }
    }

    /// Adds what leaves the state of that number for others, where what comes to it has the certified shape.
    fn push_certified(
        &self,
        shapes: &mut Shapes,
        arrivals: &mut Vec<Arrival>,
        number: usize,
    ) -> Result<(), OutOfMemory>
        requires states { AreEntriesBelow (length shapes.old) self.now.states.now.entries }
        ensures adds { OnOk result
            (Adds shapes.new arrivals.old.items arrivals.new.items
            (leaves_certified (given_in shapes.old self.now) number)) }
        ensures keeps { Keeps shapes.old shapes.new }
    {
        match self.row(number) {
            Some(row) => self.push_row(shapes, arrivals, number, &row, row.entry.input),
            None => Ok(()),
        }
    }
}
