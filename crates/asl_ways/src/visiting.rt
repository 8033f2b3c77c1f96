//! The visits of states on the ways from a machine's start.

ghost use Rattle.std.specs.Prelude.{◌≡◌, ◌<◌, ◌≤◌, length, IfOk, OnOk, None, Some};
ghost use Rattle.asl_numbered.specs.Expansion.{shape_at, Keeps};
ghost use Rattle.asl_records.specs.Numbered.{numbered_view, AreEntriesBelow, AreWithin};
ghost use Rattle.asl_ways.specs.Coming.{leaves, starts};
ghost use Rattle.asl_ways.specs.Given.{given_in, given_of};
ghost use Rattle.asl_ways.specs.Seeking.{Visits};
ghost use Rattle.asl_ways.specs.Visits.{AreAll, AreVisits, AreVisitsBelow};

use crate::arriving::Arrival;
use crate::leaving::Walker;
use crate::search::Search;
use asl_machine_table::Machine;
use asl_numbered::Shapes;
use asl_records::{Declared, NumberedCertificate};
use asl_tree::OutOfMemory;
use std::alloc::Global;

/// What comes to a state on a way from the machine's start.
#[derive(Clone, Copy, Drop)]
pub struct Visit {
    pub arrival: Arrival,
    /// The number of the visit before it on that way, counted from 0; none at the machine's start.
    pub before: Option<usize>,
}

/// The visits of states on the ways from the machine's start, those on shorter ways first: at most so many.
///
/// The machine's input comes to its start state with the shape that is declared. From there on each state is walked with the
/// shape of the visit as its input, and what leaves it for another one is a visit of that one, if some tree has its shape,
/// and if that isn't inside the shape of one of the first visits of the state, of which sixteen are looked at. Of the ends of
/// branches and processors, and of outputs, the certificate tells the shapes. Nothing leaves a state for which it has no entry.
///
/// Further shapes may stand in the certificate's table afterwards, also where memory runs out; each that stood there keeps
/// its number, and the certificate's own numbers are the same. Refuses only where an allocation was refused.
pub fn visits(
    alloc: Global,
    machine: &Machine,
    declared: &Declared,
    certificate: &mut NumberedCertificate,
    most: usize,
) -> Result<Vec<Visit>, OutOfMemory>
    requires within { AreWithin certificate.old }
    ensures visits { IfOk result
        (λ visits. AreVisits certificate.new.shapes
        (given_of machine.now declared.now certificate.old) visits.items) }
    ensures all { IfOk result
        (λ visits. length visits.items < most → AreAll certificate.new.shapes
        (given_of machine.now declared.now certificate.old) visits.items) }
    ensures at_most { IfOk result (λ visits. length visits.items ≤ most) }
    ensures below { IfOk result
        (λ visits. AreVisitsBelow (length certificate.new.shapes) visits.items) }
    ensures same { numbered_view certificate.new ≡ numbered_view certificate.old }
    ensures within { AreWithin certificate.new }
    ensures keeps { Keeps certificate.old.shapes certificate.new.shapes }
    ensures output { certificate.new.output ≡ certificate.old.output }
    ensures states { certificate.new.states ≡ certificate.old.states }
{
    let walker = Walker {
        alloc,
        machine,
        declared,
        states: &certificate.states,
    };
    walker.visits(&mut certificate.shapes, most)
}

impl Walker<'_> {
    /// The visits of states, at most so many.
    fn visits(&self, shapes: &mut Shapes, most: usize) -> Result<Vec<Visit>, OutOfMemory>
        requires states { AreEntriesBelow (length shapes.old) self.now.states.now.entries }
        ensures visits { IfOk result
            (λ visits. AreVisits shapes.new (given_in shapes.old self.now) visits.items) }
        ensures all { IfOk result
            (λ visits. length visits.items < most → AreAll shapes.new
            (given_in shapes.old self.now) visits.items) }
        ensures at_most { IfOk result (λ visits. length visits.items ≤ most) }
        ensures below { IfOk result
            (λ visits. AreVisitsBelow (length shapes.new) visits.items) }
        ensures keeps { Keeps shapes.old shapes.new }
    {
        let mut search = Search::new(self.alloc, most);
        self.visit_start(shapes, &mut search)?;
        for place in 0..most {
            let Some(visit) = search.nth(place) else {
                return Ok(search.into_visits());
            };
            self.visit_onward(shapes, &mut search, place, &visit.arrival)?;
        }
        Ok(search.into_visits())
    }

    /// Adds the visit of the machine's start, if its input comes to a state.
    fn visit_start(&self, shapes: &mut Shapes, search: &mut Search) -> Result<(), OutOfMemory>
        ensures visits { OnOk result
            (Visits shapes.new search.old search.new (starts (given_in shapes.old self.now)) None) }
        ensures keeps { Keeps shapes.old shapes.new }
    {
        let start = self.start(shapes)?;
        match start {
            Some(arrival) => search.visit(shapes, arrival, None),
            None => Ok(()),
        }
    }

    /// Adds the visits to which the visit of that number leads, of what comes so.
    fn visit_onward(
        &self,
        shapes: &mut Shapes,
        search: &mut Search,
        place: usize,
        arrival: &Arrival,
    ) -> Result<(), OutOfMemory>
        requires states { AreEntriesBelow (length shapes.old) self.now.states.now.entries }
        requires below { arrival.now.shape < length shapes.old }
        ensures visits { OnOk result
            (Visits shapes.new search.old search.new
            (leaves (given_in shapes.old self.now) arrival.now.state
            (shape_at shapes.old arrival.now.shape)) (Some place)) }
        ensures keeps { Keeps shapes.old shapes.new }
    {
        let mut arrivals = Vec::new(self.alloc);
        self.push_leaving(shapes, &mut arrivals, arrival.state, arrival.shape)?;
        search.visit_all(shapes, &arrivals, place)
    }
}
