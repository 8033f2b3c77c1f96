//! Complaints of one rule about one field, each at a place of its own.
use crate::found::At;
use crate::problems::{Problem, Which};
use asl_tree::OutOfMemory;
use std::alloc::Global;
use std::collections::BTreeMap;

/// The places of complaints, by the text, the rule, the state and the field that they tell.
#[derive(Drop)]
pub(crate) struct Groups {
    by_name: BTreeMap<String, Group>,
}

/// The places of complaints that tell the same, and how many of them are taken.
#[derive(Drop)]
struct Group {
    places: Vec<At>,
    taken: usize,
}

impl Groups {
    /// No places yet.
    pub(crate) fn new(alloc: Global) -> Groups {
        Groups {
            by_name: BTreeMap::new(alloc),
        }
    }

    /// Whether the places of that name are there.
    pub(crate) fn has(&self, name: &str) -> bool {
        self.by_name.contains_key(name)
    }

    /// Puts the places of a name.
    pub(crate) fn put(&mut self, name: String, places: Vec<At>) -> Result<(), OutOfMemory> {
        drop(self.by_name.insert(name, Group { places, taken: 0 })?);
        Ok(())
    }

    /// The next of the places of that name, the last one again where all are taken; the text's first byte where there is none.
    pub(crate) fn take(&mut self, name: &str) -> Result<At, OutOfMemory> {
        match self.by_name.get_mut(name) {
            Some(group) => group.take(),
            None => Ok(At::byte(0)),
        }
    }
}

impl Group {
    /// The next of the places, or the last one again.
    fn take(&mut self) -> Result<At, OutOfMemory> {
        let next = self.places.get(self.taken).or(self.places.last());
        self.taken = self.taken.saturating_add(1);
        match next {
            Some(at) => at.again(),
            None => Ok(At::byte(0)),
        }
    }
}

/// The name under which the places of a complaint are kept. Two complaints have one exactly where they tell the same.
pub(crate) fn name_of_places(alloc: Global, problem: &Problem) -> Result<String, OutOfMemory> {
    let text = match problem.which() {
        Which::Definition => "definition",
        Which::Declared => "declared",
    };
    let rule = problem.rule.id;
    let state = problem.state.as_deref().unwrap_or("");
    let field = problem.field.as_deref().unwrap_or("");
    let length = state.len();
    Ok(format!(in alloc; "{text} {rule} {length} {state}{field}")?)
}
