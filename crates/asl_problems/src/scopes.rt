//! All states of a definition by name, also of one in which several have the same name.
use crate::nested::{NESTED, Nested};
use asl_faults::{Index, text_at, text_from};
use asl_places::{Member, Spot, members_by_name};
use asl_tree::OutOfMemory;
use std::alloc::Global;
use std::collections::BTreeMap;

/// A state, and the object of the states of its scope.
#[derive(Clone, Copy, Drop)]
pub(crate) struct Scoped {
    pub(crate) state: Member,
    pub(crate) scope: Spot,
}

/// A field of a state in which objects stand, with its value, or with one of the values in that list.
#[derive(Clone, Copy, Drop)]
pub(crate) struct Inner {
    pub(crate) nested: &'static Nested,
    pub(crate) value: Spot,
}

/// An outlined definition.
#[derive(Clone, Copy)]
pub(crate) struct Text<'p, 's, 'f, 'a> {
    pub(crate) alloc: Global,
    pub(crate) text: &'f [u8],
    pub(crate) index: &'p Index<'s, 'a>,
}

impl<'a> Text<'_, '_, '_, 'a> {
    /// All its states by name, those of outer scopes first.
    pub(crate) fn states(self) -> Result<BTreeMap<&'a str, Vec<Scoped>>, OutOfMemory> {
        let mut states = BTreeMap::new(self.alloc);
        let mut scopes = Vec::new(self.alloc);
        scopes.push(self.index.root())?;
        // Each scope has a byte of the text at least.
        for at in 0..self.text.len() {
            let Some(scope) = scopes.get(at).copied() else {
                break;
            };
            self.add_states(scope, &mut states, &mut scopes)?;
        }
        Ok(states)
    }

    /// Adds the states of a scope, and the scopes in these to those that are still to come.
    fn add_states(
        self,
        scope: Spot,
        states: &mut BTreeMap<&'a str, Vec<Scoped>>,
        scopes: &mut Vec<Spot>,
    ) -> Result<(), OutOfMemory> {
        let Some(held) = self.index.member(scope, "States") else {
            return Ok(());
        };
        let members = members_by_name(self.alloc, self.index.outline(), held.value)?;
        for (name, state) in members.iter() {
            let scoped = Scoped {
                state: *state,
                scope: held.value,
            };
            add_state(self.alloc, *name, scoped, states)?;
            self.add_scopes(*state, scopes)?;
        }
        Ok(())
    }

    /// Adds the scopes in a state.
    fn add_scopes(self, state: Member, scopes: &mut Vec<Spot>) -> Result<(), OutOfMemory> {
        for inner in &self.objects_in(state)? {
            if inner.nested.is_scope() {
                scopes.push(inner.value)?;
            }
        }
        Ok(())
    }

    /// The values of a state's fields in which objects stand, those that aren't looked into left out.
    pub(crate) fn fields_in(self, state: Member) -> Result<Vec<Inner>, OutOfMemory> {
        let mut fields = Vec::new(self.alloc);
        let Some(state_type) = self.type_of(state)? else {
            return Ok(fields);
        };
        for nested in &NESTED {
            if nested.is_in(&state_type) && !self.is_passed_over(state, nested) {
                if let Some(whole) = self.index.member(state.value, nested.field) {
                    fields.push(Inner {
                        nested,
                        value: whole.value,
                    })?;
                }
            }
        }
        Ok(fields)
    }

    /// Whether the state has the field beside which that one isn't looked into.
    fn is_passed_over(self, state: Member, nested: &Nested) -> bool {
        !nested.beside.is_empty() && self.index.member(state.value, nested.beside).is_some()
    }

    /// What stands in those fields: the elements of the lists, and the objects that stand alone.
    pub(crate) fn objects_in(self, state: Member) -> Result<Vec<Inner>, OutOfMemory> {
        let mut objects = Vec::new(self.alloc);
        for field in self.fields_in(state)? {
            self.add_objects(field, &mut objects)?;
        }
        Ok(objects)
    }

    /// Adds what stands in one of them.
    fn add_objects(self, field: Inner, objects: &mut Vec<Inner>) -> Result<(), OutOfMemory> {
        let nested = field.nested;
        if !nested.is_list {
            if self.index.is_object(field.value) {
                objects.push(field)?;
            }
            return Ok(());
        }
        for value in self.index.elements(self.alloc, field.value)? {
            objects.push(Inner { nested, value })?;
        }
        Ok(())
    }

    /// What stands in a state's `Type`, where it is a text.
    pub(crate) fn type_of(self, state: Member) -> Result<Option<String>, OutOfMemory> {
        match self.index.member(state.value, "Type") {
            Some(found) => text_at(
                self.alloc,
                text_from(self.text, self.index.offset(found.value)),
            ),
            None => Ok(None),
        }
    }
}

/// Adds a state under its name.
fn add_state<'a>(
    alloc: Global,
    name: &'a str,
    scoped: Scoped,
    states: &mut BTreeMap<&'a str, Vec<Scoped>>,
) -> Result<(), OutOfMemory> {
    if let Some(there) = states.get_mut(name) {
        there.push(scoped)?;
        return Ok(());
    }
    let mut first = Vec::new(alloc);
    first.push(scoped)?;
    drop(states.insert(name, first)?);
    Ok(())
}
