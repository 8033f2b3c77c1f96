//! Executions of states, with how often their retriers have retried.

ghost use Rattle.std.specs.Prelude.{◌≡◌, ◌≤◌, IfErr, IfOk, length};
ghost use Rattle.asl_processing.specs.Activities.{Begins, IsRaised, IsSame};
ghost use Rattle.asl_processing.specs.Troubles.{CanRise};

use crate::data::Datum;
use crate::troubles::one_higher;
use asl_tree::OutOfMemory;
use std::alloc::Global;

/// An execution of a state.
#[derive(Drop)]
pub struct Visit {
    /// The state's number in its machine.
    pub state: usize,
    /// Its raw input.
    pub raw: Datum,
    /// How often each of its retriers has retried; a count that isn't written is 0.
    pub counts: Vec<u64>,
}

impl Visit {
    /// An execution of the state of that number, about to be entered with that raw input: nothing has been
    /// retried.
    pub fn new(alloc: Global, state: usize, raw: Datum) -> Visit
        ensures begins { Begins state result }
        ensures given { result.raw ≡ raw }
    {
        Visit {
            state,
            raw,
            counts: Vec::new(alloc),
        }
    }

    /// Raises the count of the retrier of that number by one, where it can rise.
    ///
    /// Refused: want of memory, only where that count isn't written. It leaves the execution as it is.
    pub fn raise(&mut self, retrier: usize) -> Result<(), OutOfMemory>
        requires { CanRise self.old.counts.items retrier }
        ensures raised { IfOk result (λ _. IsRaised retrier self.old self.new) }
        ensures unchanged { IfErr result (λ _. IsSame self.old self.new) }
        ensures unwritten { IfErr result (λ _. length self.old.counts.items ≤ retrier) }
    {
        one_higher(&mut self.counts, retrier)
    }
}
