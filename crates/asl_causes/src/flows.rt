//! How data goes through a machine.

ghost use Rattle.asl_records.specs.Numbered.{AreWithin};

use crate::by_state::ByState;
use asl_machine::Machine;
use asl_records::{Declared, NumberedCertificate, StateNumbers};
use asl_tree::OutOfMemory;
use asl_ways::{Arrival, Visit, arrivals, visits};
use std::alloc::Global;
use std::collections::BTreeMap;

/// How data goes through a machine: its ways from the start, and all that comes to each state.
#[derive(Drop)]
pub(crate) struct Flows {
    pub(crate) visits: Vec<Visit>,
    pub(crate) arrivals: Vec<Arrival>,
    visits_by_state: ByState,
    arrivals_by_state: ByState,
}

impl Flows {
    /// The flows of a machine under a certificate. Further shapes may stand in its table afterwards.
    pub(crate) fn find(
        alloc: Global,
        machine: &Machine,
        declared: &Declared,
        certificate: &mut NumberedCertificate,
    ) -> Result<Flows, OutOfMemory>
        requires { AreWithin certificate.old }
    {
        let most = machine.states().saturating_mul(4).saturating_add(1000);
        let visits = visits(alloc, machine, declared, certificate, most)?;
        let arrivals = arrivals(alloc, machine, declared, certificate)?;
        let visits_by_state = by_visited(alloc, machine.states(), &visits)?;
        let arrivals_by_state = by_reached(alloc, machine.states(), &arrivals)?;
        Ok(Flows {
            visits,
            arrivals,
            visits_by_state,
            arrivals_by_state,
        })
    }

    /// The numbers of the visits of a state, shortest ways first.
    pub(crate) fn visits_of(&self, state: usize) -> &[usize] {
        self.visits_by_state.of(state)
    }

    /// The numbers of the arrivals at a state.
    pub(crate) fn arrivals_at(&self, state: usize) -> &[usize] {
        self.arrivals_by_state.of(state)
    }
}

/// The numbers of the visits by their states.
fn by_visited(alloc: Global, states: usize, visits: &[Visit]) -> Result<ByState, OutOfMemory> {
    let mut numbers = ByState::new(alloc, states)?;
    for (number, visit) in visits.iter().enumerate() {
        numbers.add(visit.arrival.state, number)?;
    }
    Ok(numbers)
}

/// The numbers of the arrivals by their states.
fn by_reached(alloc: Global, states: usize, arrivals: &[Arrival]) -> Result<ByState, OutOfMemory> {
    let mut numbers = ByState::new(alloc, states)?;
    for (number, arrival) in arrivals.iter().enumerate() {
        numbers.add(arrival.state, number)?;
    }
    Ok(numbers)
}

/// A machine under declared shapes, with the flows under a certificate and with that one's entries.
#[derive(Clone, Copy, Drop)]
pub(crate) struct Explainer<'m> {
    pub(crate) alloc: Global,
    pub(crate) machine: &'m Machine,
    pub(crate) declared: &'m Declared,
    pub(crate) states: &'m BTreeMap<String, StateNumbers>,
    pub(crate) flows: &'m Flows,
}
