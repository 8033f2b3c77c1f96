//! By which way data comes to a state with which a rule is broken.

use crate::flows::Explainer;
use crate::walking::Walks;
use asl_check::{FindingFault, Located};
use asl_numbered::Shapes;
use asl_state_edges::Step;
use asl_tree::OutOfMemory;

/// How many visits of a state, and how many arrivals at it, are looked at for one finding.
const MOST_WALKS: usize = 100;

/// Data with which a rule is broken.
#[derive(Drop)]
pub(crate) struct Cause<'m> {
    /// The number of the state.
    pub(crate) state: usize,
    /// The number of the shape of its input.
    pub(crate) input: usize,
    /// The step at which the rule is broken.
    pub(crate) step: Step<'m>,
    pub(crate) way: Way,
}

/// How data comes to a state with which a rule is broken.
#[derive(Clone, Copy, Drop)]
pub(crate) enum Way {
    /// On the way that ends with the visit of that number.
    Visit(usize),
    /// From where the arrival of that number comes.
    Arrival(usize),
    /// Only with all that comes there taken together.
    Together,
}

impl<'m> Explainer<'m> {
    /// Data with which the rule of a finding is broken, by the shortest way that has some. None where the rule is about names
    /// and not about data.
    pub(crate) fn cause_of(
        &self,
        shapes: &mut Shapes,
        walks: &mut Walks<'m>,
        located: &Located,
    ) -> Result<Option<Cause<'m>>, OutOfMemory> {
        match self.machine.state_named(&located.finding.state) {
            Some(state) if is_about_data(located.finding.fault) => {
                self.shortest_cause(shapes, walks, located, state)
            }
            Some(_) | None => Ok(None),
        }
    }

    /// Data that comes to the state with which the rule is broken, by the shortest way that has some.
    fn shortest_cause(
        &self,
        shapes: &mut Shapes,
        walks: &mut Walks<'m>,
        located: &Located,
        state: usize,
    ) -> Result<Option<Cause<'m>>, OutOfMemory> {
        match self.visited_cause(shapes, walks, located, state)? {
            Some(cause) => Ok(Some(cause)),
            None => self.unvisited_cause(shapes, walks, located, state),
        }
    }

    /// Data that comes to the state with which the rule is broken, where it isn't with that of a visit.
    fn unvisited_cause(
        &self,
        shapes: &mut Shapes,
        walks: &mut Walks<'m>,
        located: &Located,
        state: usize,
    ) -> Result<Option<Cause<'m>>, OutOfMemory> {
        match self.arriving_cause(shapes, walks, located, state)? {
            Some(cause) => Ok(Some(cause)),
            None => self.joined_cause(shapes, walks, located, state),
        }
    }

    /// The first visit of the state with whose data the rule is broken.
    fn visited_cause(
        &self,
        shapes: &mut Shapes,
        walks: &mut Walks<'m>,
        located: &Located,
        state: usize,
    ) -> Result<Option<Cause<'m>>, OutOfMemory> {
        for number in self.flows.visits_of(state).iter().take(MOST_WALKS) {
            if let Some(visit) = self.flows.visits.get(*number) {
                let (input, way) = (visit.arrival.shape, Way::Visit(*number));
                let cause = self.cause_with(shapes, walks, located, state, input, way)?;
                if cause.is_some() {
                    return Ok(cause);
                }
            }
        }
        Ok(None)
    }

    /// The first arrival at the state with whose data the rule is broken.
    fn arriving_cause(
        &self,
        shapes: &mut Shapes,
        walks: &mut Walks<'m>,
        located: &Located,
        state: usize,
    ) -> Result<Option<Cause<'m>>, OutOfMemory> {
        for number in self.flows.arrivals_at(state).iter().take(MOST_WALKS) {
            if let Some(arrival) = self.flows.arrivals.get(*number) {
                let way = Way::Arrival(*number);
                let cause = self.cause_with(shapes, walks, located, state, arrival.shape, way)?;
                if cause.is_some() {
                    return Ok(cause);
                }
            }
        }
        Ok(None)
    }

    /// All that comes to the state, where the rule is broken with it.
    fn joined_cause(
        &self,
        shapes: &mut Shapes,
        walks: &mut Walks<'m>,
        located: &Located,
        state: usize,
    ) -> Result<Option<Cause<'m>>, OutOfMemory> {
        match self.input_of(state) {
            Some(input) => self.cause_with(shapes, walks, located, state, input, Way::Together),
            None => Ok(None),
        }
    }

    /// Data of that number that comes to a state that way, where the rule is broken with it.
    fn cause_with(
        &self,
        shapes: &mut Shapes,
        walks: &mut Walks<'m>,
        located: &Located,
        state: usize,
        input: usize,
        way: Way,
    ) -> Result<Option<Cause<'m>>, OutOfMemory> {
        match self.broken_step(shapes, walks, located, state, input)? {
            Some(step) => Ok(Some(Cause {
                state,
                input,
                step,
                way,
            })),
            None => Ok(None),
        }
    }
}

/// Whether it depends on data whether a rule is broken.
fn is_about_data(fault: FindingFault) -> bool {
    match fault {
        FindingFault::NotCertified
        | FindingFault::NotAState
        | FindingFault::TaskUndeclared
        | FindingFault::TaskUnknown
        | FindingFault::StartInput => false,
        FindingFault::PathMayBeMissing
        | FindingFault::WrongKind
        | FindingFault::ResultMayNotFit
        | FindingFault::IntrinsicMayFail
        | FindingFault::NoDefault
        | FindingFault::PayloadNotTaken
        | FindingFault::OutputNotCertified
        | FindingFault::NextInput
        | FindingFault::ScopeOutput
        | FindingFault::BranchInput
        | FindingFault::CatchInput => true,
    }
}
