//! Places in a definition.
use crate::found::At;
use crate::problems::{Kind, Problem};
use crate::scopes::{Scoped, Text};
use asl_check::{FindingFault, MissingPath};
use asl_faults::{Index, Paths, SUFFIX, refusal_of, text_at, text_from, values_within};
use asl_places::{Member, Places, Spot, States};
use asl_tree::OutOfMemory;
use std::alloc::Global;
use std::collections::BTreeMap;

/// A call begins so.
const CALLED: &str = "States.";

/// A definition in which places are found.
#[derive(Drop)]
pub(crate) struct DefinitionPlaces<'p, 's, 'f, 'a> {
    pub(crate) alloc: Global,
    pub(crate) text: &'f [u8],
    pub(crate) places: &'p Places<'f>,
    pub(crate) index: &'p Index<'s, 'a>,
    pub(crate) states: &'p States<'a>,
    /// All states by name; none where no problem is a complaint.
    pub(crate) scoped: &'p BTreeMap<&'a str, Vec<Scoped>>,
    /// The paths in the values of fields in which problems tell some, by the token with which such a value begins.
    pub(crate) paths: &'p BTreeMap<usize, Paths>,
    /// The only calls in the values of fields in which problems tell that one may have no value, by the same tokens.
    pub(crate) calls: &'p BTreeMap<usize, Spot>,
}

impl<'s, 't, 'a> DefinitionPlaces<'_, 's, 't, 'a> {
    /// The definition's text.
    pub(crate) fn outlined(&self) -> Text<'_, 's, 't, 'a> {
        Text {
            alloc: self.alloc,
            text: self.text,
            index: self.index,
        }
    }

    /// Where a problem is told that is no complaint.
    pub(crate) fn find(&self, problem: &Problem) -> At {
        At::byte(self.index.offset(self.spot_of(problem)))
    }

    /// The value of the state's field of which a problem is told.
    fn value_of(&self, problem: &Problem) -> Option<Spot> {
        let state = self.states.state(problem.state.as_deref()?)?;
        let field = self.spelled(state, problem.field.as_deref()?);
        Some(self.index.member(state.value, field)?.value)
    }

    /// The value or the name at which a problem is told that is no complaint.
    fn spot_of(&self, problem: &Problem) -> Spot {
        let field = problem.field.as_deref();
        let Some(name) = problem.state.as_deref() else {
            return self.in_machine(field);
        };
        match &problem.kind {
            Kind::Finding(FindingFault::StartInput, _) => self.in_machine(field),
            Kind::Finding(FindingFault::IntrinsicMayFail, _) => self.of_call(name, field),
            Kind::Finding(_, path) => self.of_finding(name, field, path),
            Kind::Odd { index, .. } => self.of_element(name, field, *index),
            _ => self.index.root(),
        }
    }

    /// The name of a state, or the machine where no state has that name.
    fn of_state(&self, name: &str) -> Spot {
        match self.states.state(name) {
            Some(state) => state.name,
            None => self.index.root(),
        }
    }

    /// The value of the machine's own field, or the machine where it hasn't that field.
    pub(crate) fn in_machine(&self, field: Option<&str>) -> Spot {
        let root = self.index.root();
        let Some(field) = field else {
            return root;
        };
        match self.index.member(root, field) {
            Some(found) => found.value,
            None => root,
        }
    }

    /// Whether the value is a text that is no reference path.
    pub(crate) fn is_no_path(&self, value: Spot) -> Result<bool, OutOfMemory> {
        match self.said_at(value)? {
            Some(said) => {
                Ok(!said.starts_with('$') || refusal_of(self.alloc, &said, false)?.is_some())
            }
            None => Ok(false),
        }
    }

    /// Where a finding is told: at the path that tells it, at the field's value, at the state's name.
    fn of_finding(&self, name: &str, field: Option<&str>, path: &Option<MissingPath>) -> Spot {
        let (Some(state), Some(field)) = (self.states.state(name), field) else {
            return self.of_state(name);
        };
        let field = self.spelled(state, field);
        match path {
            Some(path) => self.of_path(state, field, path),
            None => self.index.field_or_name(state, field),
        }
    }

    /// Where it is told that a call may have no value: at the only call in the field's value, or at the value.
    fn of_call(&self, name: &str, field: Option<&str>) -> Spot {
        let whole = self.of_finding(name, field, &None);
        self.calls.get(&whole.token).copied().unwrap_or(whole)
    }

    /// The field's name as the state spells it: a Map may have the older one.
    fn spelled<'f>(&self, state: Member, field: &'f str) -> &'f str {
        if self.index.member(state.value, field).is_some() {
            return field;
        }
        match field {
            "ItemSelector" => "Parameters",
            "ItemProcessor" => "Iterator",
            _ => field,
        }
    }

    /// The first text in the field's value that says the path, in the field of a template whose name is told with it; or the
    /// value.
    fn of_path(&self, state: Member, field: &str, path: &MissingPath) -> Spot {
        let Some(found) = self.index.member(state.value, field) else {
            return state.name;
        };
        match self.paths.get(&found.value.token) {
            Some(paths) => paths.first(&path.name, &path.text).unwrap_or(found.value),
            None => found.value,
        }
    }

    /// The paths in a value.
    pub(crate) fn paths_in(&self, value: Spot) -> Result<Paths, OutOfMemory> {
        Paths::read(self.alloc, self.index.outline(), self.text, value)
    }

    /// The field's value in which the path of a problem is looked for, if it tells one.
    pub(crate) fn value_with_path(&self, problem: &Problem) -> Option<Spot> {
        match &problem.kind {
            Kind::Finding(_, Some(_)) => self.value_of(problem),
            _ => None,
        }
    }

    /// The field's value in which the only call is looked for, if a problem tells that one may have no value.
    pub(crate) fn value_with_call(&self, problem: &Problem) -> Option<Spot> {
        match &problem.kind {
            Kind::Finding(FindingFault::IntrinsicMayFail, _) => self.value_of(problem),
            _ => None,
        }
    }

    /// The only text of a template that is a call; none where there are several.
    pub(crate) fn only_call_in(&self, template: Spot) -> Result<Option<Spot>, OutOfMemory> {
        let outline = self.index.outline();
        let mut calls = Vec::new(self.alloc);
        for object in &values_within(self.alloc, outline, self.text.len(), template)? {
            self.push_calls_of(*object, &mut calls)?;
        }
        match calls.as_slice() {
            [call] => Ok(Some(*call)),
            _ => Ok(None),
        }
    }

    /// Adds the texts of an object's own members that are calls.
    fn push_calls_of(&self, object: Spot, calls: &mut Vec<Spot>) -> Result<(), OutOfMemory> {
        let Some(mut members) = self.index.outline().members(object) else {
            return Ok(());
        };
        while let Some((name, member)) = members.next() {
            if name.ends_with(SUFFIX) && self.is_call(member.value)? {
                calls.push(member.value)?;
            }
        }
        Ok(())
    }

    /// Whether the value is a text that is a call.
    fn is_call(&self, value: Spot) -> Result<bool, OutOfMemory> {
        match self.said_at(value)? {
            Some(said) => Ok(said.starts_with(CALLED)),
            None => Ok(false),
        }
    }

    /// Whether paths to a Map's item are allowed in the template of a field.
    pub(crate) fn has_item(&self, state: Member, field: &str) -> Result<bool, OutOfMemory> {
        if field == "ResultSelector" {
            return Ok(false);
        }
        match self.index.member(state.value, "Type") {
            Some(found) => self.says(found.value, "Map"),
            None => Ok(false),
        }
    }

    /// Whether that text stands at the spot.
    fn says(&self, value: Spot, text: &str) -> Result<bool, OutOfMemory> {
        let said = self.said_at(value)?;
        Ok(said.as_deref() == Some(text))
    }

    /// What the text at the spot says, where one stands there.
    pub(crate) fn said_at(&self, value: Spot) -> Result<Option<String>, OutOfMemory> {
        text_at(self.alloc, text_from(self.text, self.index.offset(value)))
    }

    /// The element of that index of the list in a state's field, the field's value, or the state's name.
    fn of_element(&self, name: &str, field: Option<&str>, index: Option<usize>) -> Spot {
        let (Some(state), Some(field)) = (self.states.state(name), field) else {
            return self.of_state(name);
        };
        let whole = self.index.field_or_name(state, field);
        match index {
            Some(index) => self.index.element(whole, index).unwrap_or(whole),
            None => whole,
        }
    }
}
