//! Ways and origins in words.

use crate::causes::Way;
use crate::flows::Explainer;
use asl_phrases::counted;
use asl_tree::{OutOfMemory, quoted};
use asl_ways::{Arrival, Exit, Origin, Visit, way_to};
use std::alloc::Global;

/// How many steps of a long way are told at its beginning, and how many at its end.
const STEPS_AT_END: usize = 4;

impl Explainer<'_> {
    /// A way in words.
    pub(crate) fn way_text(&self, way: Way) -> Result<String, OutOfMemory> {
        match way {
            Way::Visit(number) => self.visited_text(number),
            Way::Arrival(number) => match self.flows.arrivals.get(number) {
                Some(arrival) => self.arrival_text(arrival),
                None => Ok(String::new(self.alloc)),
            },
            Way::Together => Ok(String::from_str(
                self.alloc,
                "all that comes to the state, taken together",
            )?),
        }
    }

    /// The way that ends with the visit of that number: each state with the exit that is taken, but for `Next`; of many only
    /// the first and the last, with the count of those between.
    fn visited_text(&self, last: usize) -> Result<String, OutOfMemory> {
        let numbers = way_to(self.alloc, &self.flows.visits, last)?;
        let mut text = String::new(self.alloc);
        for (place, number) in numbers.iter().enumerate() {
            if let Some(visit) = self.flows.visits.get(*number) {
                let is_last = place.saturating_add(1) == numbers.len();
                self.push_visit(&mut text, visit, place, numbers.len(), is_last)?;
            }
        }
        Ok(text)
    }

    /// Puts down the state in front of the visit, which is the one of that place of so many on a way, and the visited state
    /// itself where the way ends with it.
    fn push_visit(
        &self,
        text: &mut String,
        visit: &Visit,
        place: usize,
        many: usize,
        is_last: bool,
    ) -> Result<(), OutOfMemory> {
        if let Some(origin) = visit.arrival.origin {
            self.push_origin(text, origin, place.saturating_sub(1), many)?;
        }
        if is_last {
            push_step(text, &self.end_text(&visit.arrival)?)
        } else {
            Ok(())
        }
    }

    /// Puts down the state that is left with the step of that number on a way of so many, or how many are left out.
    fn push_origin(
        &self,
        text: &mut String,
        origin: Origin,
        step: usize,
        many: usize,
    ) -> Result<(), OutOfMemory> {
        if is_told(step, many) {
            push_step(text, &self.origin_text(origin)?)
        } else if step == STEPS_AT_END {
            let left_out = many.saturating_sub(2 * STEPS_AT_END);
            push_step(text, &format!(in self.alloc; ".. {left_out} states ..")?)
        } else {
            Ok(())
        }
    }

    /// What a way ends with: the state where it arrives, or the machine's input where it has no step.
    fn end_text(&self, arrival: &Arrival) -> Result<String, OutOfMemory> {
        match arrival.origin {
            Some(_) => self.state_text(arrival.state),
            None => self.arrival_text(arrival),
        }
    }

    /// Where an arrival comes from.
    pub(crate) fn arrival_text(&self, arrival: &Arrival) -> Result<String, OutOfMemory> {
        match arrival.origin {
            Some(origin) => self.origin_text(origin),
            None => Ok(String::from_str(self.alloc, "the machine's input")?),
        }
    }

    /// The name of the state from which data comes, and how it leaves it.
    fn origin_text(&self, origin: Origin) -> Result<String, OutOfMemory> {
        let mut text = self.state_text(origin.state)?;
        text.push_str(&exit_text(self.alloc, origin.exit)?)?;
        Ok(text)
    }

    /// The name of the state of that number as a JSON text.
    pub(crate) fn state_text(&self, state: usize) -> Result<String, OutOfMemory> {
        match self.machine.name(state) {
            Some(name) => quoted(self.alloc, name),
            None => Ok(String::new(self.alloc)),
        }
    }
}

/// How data leaves a state, in brackets behind its name; nothing for `Next`.
fn exit_text(alloc: Global, exit: Exit) -> Result<String, OutOfMemory> {
    match exit {
        Exit::Next => Ok(String::new(alloc)),
        Exit::Rule(number) => numbered(alloc, "rule", number),
        Exit::Default => Ok(String::from_str(alloc, " (Default)")?),
        Exit::Catcher(number) => numbered(alloc, "Catch", number),
        Exit::Branch(number) => numbered(alloc, "branch", number),
        Exit::Items => Ok(String::from_str(alloc, " (each item)")?),
    }
}

/// An exit with its number, counted from 1.
pub(crate) fn numbered(alloc: Global, exit: &str, number: usize) -> Result<String, OutOfMemory> {
    let number = counted(alloc, number)?;
    Ok(format!(in alloc; " ({exit} {number})")?)
}

/// Whether the step of that number is told on a way of so many.
fn is_told(step: usize, many: usize) -> bool {
    many <= 2 * STEPS_AT_END + 1 || step < STEPS_AT_END || many.saturating_sub(step) <= STEPS_AT_END
}

/// Puts a step behind those that are there, with an arrow between.
fn push_step(text: &mut String, step: &str) -> Result<(), OutOfMemory> {
    if !text.is_empty() {
        text.push_str(" -> ")?;
    }
    text.push_str(step)?;
    Ok(())
}
