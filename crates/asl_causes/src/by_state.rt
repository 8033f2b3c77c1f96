//! Numbers of a list's elements, by the state that each is about.

use asl_tree::OutOfMemory;
use std::alloc::Global;

/// For each state of a machine the numbers of those elements of a list that are about it, in their order.
#[derive(Drop)]
pub(crate) struct ByState {
    numbers: Vec<Vec<usize>>,
}

impl ByState {
    /// No numbers, for so many states.
    pub(crate) fn new(alloc: Global, states: usize) -> Result<ByState, OutOfMemory> {
        let mut numbers = Vec::new(alloc);
        for _ in 0..states {
            numbers.push(Vec::new(alloc))?;
        }
        Ok(ByState { numbers })
    }

    /// Adds the number of an element that is about that state.
    pub(crate) fn add(&mut self, state: usize, number: usize) -> Result<(), OutOfMemory> {
        if let Some(numbers) = self.numbers.get_mut(state) {
            numbers.push(number)?;
        }
        Ok(())
    }

    /// The numbers of the elements that are about that state.
    pub(crate) fn of(&self, state: usize) -> &[usize] {
        match self.numbers.get(state) {
            Some(numbers) => numbers,
            None => &[],
        }
    }
}
