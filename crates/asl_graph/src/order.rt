//! The order in which states stand in a definition's text.

use asl_machine_table::Machine;
use asl_places::{Outline, OutlineRefusal, States};
use asl_tree::OutOfMemory;
use json::Scratch;
use std::alloc::Global;

/// A state with its place in the text.
#[derive(Clone, Copy, Drop)]
struct Placed {
    /// The token of the state's name, which is greater the later it stands.
    token: usize,
    number: usize,
}

/// The numbers of a machine's states in the order in which these stand in the definition's text; in that of the numbers
/// where the text is too long for an outline. A state that isn't found in it stands behind the others.
pub(crate) fn written_order(
    alloc: Global,
    machine: &Machine,
    definition: &[u8],
) -> Result<Vec<usize>, OutOfMemory> {
    let mut scratch = Scratch::new(alloc);
    let Ok(text) = str::from_utf8(definition) else {
        return order_of(alloc, machine, None);
    };
    match Outline::read(alloc, text, &mut scratch) {
        Ok(outline) => {
            let states = States::read(alloc, &outline)?;
            order_of(alloc, machine, Some(&states))
        }
        Err(OutlineRefusal::NotJson | OutlineRefusal::TooLong) => order_of(alloc, machine, None),
        Err(OutlineRefusal::OutOfMemory) => Err(OutOfMemory),
    }
}

/// The numbers in the order of the states of a text.
fn order_of(
    alloc: Global,
    machine: &Machine,
    states: Option<&States<'_>>,
) -> Result<Vec<usize>, OutOfMemory> {
    let mut placed = placed_states(alloc, machine, states)?;
    placed.sort_by_key(|state| state.token)?;
    numbers_of(alloc, &placed)
}

/// The states of a machine in the order of their numbers, with their places in a text.
fn placed_states(
    alloc: Global,
    machine: &Machine,
    states: Option<&States<'_>>,
) -> Result<Vec<Placed>, OutOfMemory> {
    let mut placed = Vec::with_capacity(alloc, machine.states())?;
    for number in 0..machine.states() {
        let token = token_of(machine, states, number);
        placed.push(Placed { token, number })?;
    }
    Ok(placed)
}

/// The numbers of states, in the same order.
fn numbers_of(alloc: Global, placed: &[Placed]) -> Result<Vec<usize>, OutOfMemory> {
    let mut numbers = Vec::with_capacity(alloc, placed.len())?;
    for state in placed {
        numbers.push(state.number)?;
    }
    Ok(numbers)
}

/// The token of the name of the state of that number.
fn token_of(machine: &Machine, states: Option<&States<'_>>, number: usize) -> usize {
    let (Some(states), Some(name)) = (states, machine.name(number)) else {
        return usize::MAX;
    };
    match states.state(name) {
        Some(member) => member.name.token,
        None => usize::MAX,
    }
}
