//! Places of complaints about a definition: of all that tell the same at once, each at its own.
use crate::definition_places::DefinitionPlaces;
use crate::found::At;
use crate::nested::NESTED;
use crate::scopes::{Inner, Scoped};
use asl_faults::{Found, Kinds, Misfit, fault_of_rule};
use asl_machine::DefFault;
use asl_places::{Member, Spot};
use asl_tree::OutOfMemory;

/// The fields that a machine must have.
const MACHINE_FIELDS: [&str; 2] = ["StartAt", "States"];

/// The types of states.
const TYPES: [&str; 8] = [
    "Pass", "Task", "Choice", "Wait", "Succeed", "Fail", "Parallel", "Map",
];

/// The fields of which a Wait state has one.
const WAITS: [&str; 4] = ["Seconds", "SecondsPath", "Timestamp", "TimestampPath"];

impl<'s, 't, 'a> DefinitionPlaces<'_, 's, 't, 'a> {
    /// Where complaints of that fault stand that tell that state and that field: one place or more.
    pub(crate) fn places_of_complaints(
        &self,
        fault: DefFault,
        state: Option<&str>,
        field: Option<&str>,
    ) -> Result<Vec<At>, OutOfMemory> {
        let mut found = Vec::new(self.alloc);
        match self.name_of_state(fault, state, field) {
            Some(name) => self.add_of_states(fault, name, field.unwrap_or(""), &mut found)?,
            None => self.add_of_machine(fault, field, &mut found)?,
        }
        let mut places = Vec::new(self.alloc);
        for found in found {
            places.push(At {
                byte: self.index.offset(found.spot),
                words: found.words,
            })?;
        }
        Ok(places)
    }

    /// The name of the state that complaints tell; none where they are of the machine.
    fn name_of_state<'n>(
        &self,
        fault: DefFault,
        state: Option<&'n str>,
        field: Option<&str>,
    ) -> Option<&'n str> {
        match (state, field) {
            (Some(name), _) => Some(name),
            (None, Some(field)) => {
                let is_of_state = matches!(fault, DefFault::DuplicateName);
                (is_of_state || self.is_of_unnamed_state(field)).then_some("")
            }
            (None, None) => None,
        }
    }

    /// Whether there is a state whose name is empty, and the machine neither has that field nor must have it.
    fn is_of_unnamed_state(&self, field: &str) -> bool {
        self.states.state("").is_some()
            && !MACHINE_FIELDS.contains(&field)
            && self.index.member(self.index.root(), field).is_none()
    }

    /// Adds where the machine's own field is at fault.
    fn add_of_machine(
        &self,
        fault: DefFault,
        field: Option<&str>,
        found: &mut Vec<Found>,
    ) -> Result<(), OutOfMemory> {
        if let (Some(misfit), Some(field)) = (misfit_of(fault), field) {
            if let Some(value) = self.index.member(self.index.root(), field) {
                self.kinds(misfit).add_of_field(field, value.value, found)?;
            }
        }
        if found.is_empty() {
            found.push(Found::at(self.in_machine(field)))?;
        }
        Ok(())
    }

    /// Adds where the states of that name are at fault in that field, which is empty where the state itself is.
    fn add_of_states(
        &self,
        fault: DefFault,
        name: &str,
        field: &str,
        found: &mut Vec<Found>,
    ) -> Result<(), OutOfMemory> {
        if let Some(states) = self.scoped.get(name) {
            for scoped in states {
                self.add_of_state(fault, *scoped, field, found)?;
            }
        }
        if found.is_empty() {
            let spot = match self.states.state(name) {
                Some(state) => self.index.field_or_name(state, field),
                None => self.index.root(),
            };
            found.push(Found::at(spot))?;
        }
        Ok(())
    }

    /// Adds where a state is at fault in that field.
    fn add_of_state(
        &self,
        fault: DefFault,
        scoped: Scoped,
        field: &str,
        found: &mut Vec<Found>,
    ) -> Result<(), OutOfMemory> {
        let state = scoped.state;
        match fault {
            DefFault::NotObject => self.add_no_object(state, found),
            DefFault::MissingField => self.add_lacking(state, field, found),
            DefFault::WrongKind => {
                self.add_kinds(state, field, Misfit::WrongKind, found)?;
                self.add_excluded(state, field, found)
            }
            DefFault::NotWhole => self.add_kinds(state, field, Misfit::NotWhole, found),
            DefFault::LeftOut if field == "QueryLanguage" => { self.add_languages(state, found) }
            DefFault::UnknownField | DefFault::LeftOut => self.add_foreign(state, field, found),
            DefFault::NameTooLong => add(state.name, found),
            DefFault::DuplicateName => self.add_later(state, found),
            DefFault::NoSuchState => self.add_misnamed(scoped, field, found),
            DefFault::BadTemplate => self.add_template(state, field, found),
            DefFault::BadPath => self.add_paths(state, field, found),
            DefFault::BadRule => self.add_rules(state, field, found),
            DefFault::BadErrorEquals => self.add_error_names(state, field, found),
            DefFault::EmptyList => self.add_empty_lists(state, field, found),
            DefFault::UnknownType => self.add_unknown_type(state, found),
            DefFault::NextOrEnd => self.add_next_or_end(state, field, found),
            DefFault::HeartbeatNotSmaller => self.add_heartbeat(state, field, found),
            DefFault::TooLarge | DefFault::OutOfMemory => {
                add(self.index.field_or_name(state, field), found)
            }
        }
    }

    /// What looks for values of another kind.
    fn kinds(&self, misfit: Misfit) -> Kinds<'_, 's, 't, 'a> {
        Kinds {
            alloc: self.alloc,
            index: self.index,
            text: self.text,
            misfit,
        }
    }

    /// The value of a state's field.
    fn value_in(&self, state: Member, field: &str) -> Option<Spot> {
        Some(self.index.member(state.value, field)?.value)
    }

    /// What stands in a field of a state in which objects stand.
    fn objects_in(&self, state: Member, field: &str) -> Result<Vec<Inner>, OutOfMemory> {
        let mut objects = Vec::new(self.alloc);
        for inner in self.outlined().objects_in(state)? {
            if inner.nested.field == field {
                objects.push(inner)?;
            }
        }
        Ok(objects)
    }

    /// The elements of the list in a state's field; none where none is there.
    fn elements_in(&self, state: Member, field: &str) -> Result<Vec<Spot>, OutOfMemory> {
        match self.value_in(state, field) {
            Some(list) => self.index.elements(self.alloc, list),
            None => Ok(Vec::new(self.alloc)),
        }
    }

    /// Adds the name of a state that is no object.
    fn add_no_object(&self, state: Member, found: &mut Vec<Found>) -> Result<(), OutOfMemory> {
        match self.index.is_object(state.value) {
            true => Ok(()),
            false => add(state.name, found),
        }
    }

    /// Adds the objects within a state that lack a field, or the state's name where it lacks a field of its own.
    fn add_lacking(
        &self,
        state: Member,
        field: &str,
        found: &mut Vec<Found>,
    ) -> Result<(), OutOfMemory> {
        if !NESTED.iter().any(|nested| nested.needs(field)) {
            return match self.value_in(state, field) {
                Some(_) => Ok(()),
                None => add(state.name, found),
            };
        }
        for inner in self.outlined().objects_in(state)? {
            if inner.nested.needs(field)
                && self.index.is_object(inner.value)
                && self.index.member(inner.value, field).is_none()
            {
                add(inner.value, found)?;
            }
        }
        Ok(())
    }

    /// Adds the fields of that name that objects within a state may not have, and behind them the state's own.
    fn add_foreign(
        &self,
        state: Member,
        field: &str,
        found: &mut Vec<Found>,
    ) -> Result<(), OutOfMemory> {
        for inner in self.outlined().fields_in(state)? {
            if !inner.nested.allows(field) {
                self.add_fields(inner, field, found)?;
            }
        }
        match self.value_in(state, field) {
            Some(own) => add(own, found),
            None => Ok(()),
        }
    }

    /// Adds the values of that name in the objects that stand in a field of a state.
    fn add_fields(
        &self,
        whole: Inner,
        field: &str,
        found: &mut Vec<Found>,
    ) -> Result<(), OutOfMemory> {
        if whole.nested.is_list {
            for value in self.index.all_with(self.alloc, whole.value, field)? {
                add(value, found)?;
            }
            return Ok(());
        }
        match self.index.member(whole.value, field) {
            Some(member) => add(member.value, found),
            None => Ok(()),
        }
    }

    /// Adds the query languages of the scopes within a state, and of the state, that aren't read.
    fn add_languages(&self, state: Member, found: &mut Vec<Found>) -> Result<(), OutOfMemory> {
        for inner in self.outlined().objects_in(state)? {
            if inner.nested.is_scope() {
                self.add_language(inner.value, found)?;
            }
        }
        self.add_language(state.value, found)
    }

    /// Adds the query language of an object, where it is one that isn't read.
    fn add_language(&self, object: Spot, found: &mut Vec<Found>) -> Result<(), OutOfMemory> {
        let Some(language) = self.index.member(object, "QueryLanguage") else {
            return Ok(());
        };
        match self.said_at(language.value)? {
            Some(said) if said.as_str() != "JSONPath" => add(language.value, found),
            _ => Ok(()),
        }
    }

    /// Adds the name of a state, unless it is the first in the text of that name.
    fn add_later(&self, state: Member, found: &mut Vec<Found>) -> Result<(), OutOfMemory> {
        let Some(name) = self.said_at(state.name)? else {
            return Ok(());
        };
        match self.states.state(&name) {
            Some(first) if first.name == state.name => Ok(()),
            _ => add(state.name, found),
        }
    }

    /// Adds the names in the field that aren't those of states of their scope.
    fn add_misnamed(
        &self,
        scoped: Scoped,
        field: &str,
        found: &mut Vec<Found>,
    ) -> Result<(), OutOfMemory> {
        let state = scoped.state;
        if field == "Choices" {
            return self.add_misnamed_rules(scoped, found);
        }
        for inner in &self.objects_in(state, field)? {
            if inner.nested.is_scope() {
                let held = self.index.member(inner.value, "States");
                self.add_unless_named(inner.value, "StartAt", held.map(|it| it.value), found)?;
            } else {
                self.add_unless_named(inner.value, "Next", Some(scoped.scope), found)?;
            }
        }
        self.add_unless_named(state.value, field, Some(scoped.scope), found)
    }

    /// Adds the `Next` of rules that are read and lead to no state of the scope.
    fn add_misnamed_rules(
        &self,
        scoped: Scoped,
        found: &mut Vec<Found>,
    ) -> Result<(), OutOfMemory> {
        for rule in self.elements_in(scoped.state, "Choices")? {
            if self.is_read(rule)? {
                self.add_unless_named(rule, "Next", Some(scoped.scope), found)?;
            }
        }
        Ok(())
    }

    /// Whether a rule of a Choice is none that is refused.
    fn is_read(&self, rule: Spot) -> Result<bool, OutOfMemory> {
        Ok(
            self.kinds(Misfit::NotWhole).first_fraction(rule)?.is_none()
                && fault_of_rule(self.alloc, self.index, self.text, rule)?.is_none(),
        )
    }

    /// Adds the text in a field of an object that is the name of none of these states.
    fn add_unless_named(
        &self,
        object: Spot,
        field: &str,
        states: Option<Spot>,
        found: &mut Vec<Found>,
    ) -> Result<(), OutOfMemory> {
        let Some(member) = self.index.member(object, field) else {
            return Ok(());
        };
        let Some(name) = self.said_at(member.value)? else {
            return Ok(());
        };
        let is_there = match states {
            Some(states) => self.index.member(states, &name).is_some(),
            None => false,
        };
        if is_there {
            return Ok(());
        }
        add(member.value, found)
    }

    /// Adds the texts in the field that are no reference paths: its value, or those of catchers.
    fn add_paths(
        &self,
        state: Member,
        field: &str,
        found: &mut Vec<Found>,
    ) -> Result<(), OutOfMemory> {
        if field != "Catch" {
            return self.add_path_of(state.value, field, found);
        }
        for catcher in self.elements_in(state, field)? {
            self.add_path_of(catcher, "ResultPath", found)?;
        }
        Ok(())
    }

    /// Adds the text in a field of an object, if it is no reference path.
    fn add_path_of(
        &self,
        object: Spot,
        field: &str,
        found: &mut Vec<Found>,
    ) -> Result<(), OutOfMemory> {
        match self.index.member(object, field) {
            Some(path) if self.is_no_path(path.value)? => add(path.value, found),
            _ => Ok(()),
        }
    }

    /// Adds the type of a state, if there is none of that name.
    fn add_unknown_type(&self, state: Member, found: &mut Vec<Found>) -> Result<(), OutOfMemory> {
        let Some(value) = self.value_in(state, "Type") else {
            return Ok(());
        };
        match self.said_at(value)? {
            Some(said) if !TYPES.iter().any(|it| *it == said.as_str()) => add(value, found),
            _ => Ok(()),
        }
    }

    /// Adds what is wrong with each rule of a Choice that is refused.
    fn add_rules(
        &self,
        state: Member,
        field: &str,
        found: &mut Vec<Found>,
    ) -> Result<(), OutOfMemory> {
        for rule in self.elements_in(state, field)? {
            if let Some(fault) = fault_of_rule(self.alloc, self.index, self.text, rule)? {
                found.push(fault)?;
            }
        }
        Ok(())
    }

    /// Adds the lists in the field that are empty: its value, or the names of errors in its elements.
    fn add_empty_lists(
        &self,
        state: Member,
        field: &str,
        found: &mut Vec<Found>,
    ) -> Result<(), OutOfMemory> {
        if field != "Retry" && field != "Catch" {
            return self.add_empty_list(state.value, field, found);
        }
        for element in self.elements_in(state, field)? {
            self.add_empty_list(element, "ErrorEquals", found)?;
        }
        Ok(())
    }

    /// Adds the list in a field of an object, if it is empty.
    fn add_empty_list(
        &self,
        object: Spot,
        field: &str,
        found: &mut Vec<Found>,
    ) -> Result<(), OutOfMemory> {
        match self.index.member(object, field) {
            Some(list) if self.is_empty_list(list.value) => add(list.value, found),
            _ => Ok(()),
        }
    }

    /// Whether an empty list stands there.
    fn is_empty_list(&self, value: Spot) -> bool {
        self.index.is_list(value) && self.index.element(value, 0).is_none()
    }

    /// Adds the names of errors with `States.ALL` that doesn't stand alone, or behind which another element stands.
    fn add_error_names(
        &self,
        state: Member,
        field: &str,
        found: &mut Vec<Found>,
    ) -> Result<(), OutOfMemory> {
        let elements = self.elements_in(state, field)?;
        let mut left = elements.len();
        for element in &elements {
            left = left.saturating_sub(1);
            if let Some(errors) = self.index.member(*element, "ErrorEquals") {
                if self.has_all_among_others(errors.value, left)? {
                    add(errors.value, found)?;
                }
            }
        }
        Ok(())
    }

    /// Whether `States.ALL` is among the names of errors in front of so many elements, and may not be.
    fn has_all_among_others(&self, errors: Spot, left: usize) -> Result<bool, OutOfMemory> {
        let mut has_all = false;
        let mut count: usize = 0;
        for name in self.index.elements(self.alloc, errors)? {
            if let Some(said) = self.said_at(name)? {
                count = count.saturating_add(1);
                has_all = has_all || said.as_str() == "States.ALL";
            }
        }
        Ok(has_all && (left > 0 || count > 1))
    }

    /// Adds the values in the field that aren't of the kind that is wanted, in that way: its own, and those in the objects,
    /// or the rules, in it.
    fn add_kinds(
        &self,
        state: Member,
        field: &str,
        misfit: Misfit,
        found: &mut Vec<Found>,
    ) -> Result<(), OutOfMemory> {
        let kinds = self.kinds(misfit);
        if let Some(own) = self.value_in(state, field) {
            kinds.add_of_field(field, own, found)?;
        }
        for inner in &self.objects_in(state, field)? {
            self.add_kinds_of_object(*inner, kinds, found)?;
        }
        if field != "Choices" {
            return Ok(());
        }
        for rule in self.elements_in(state, field)? {
            kinds.add_fraction(rule, found)?;
        }
        Ok(())
    }

    /// Adds so the values of the fields that an object within a state may have, or what stands in its place.
    fn add_kinds_of_object(
        &self,
        inner: Inner,
        kinds: Kinds<'_, '_, '_, '_>,
        found: &mut Vec<Found>,
    ) -> Result<(), OutOfMemory> {
        if !self.index.is_object(inner.value) {
            return kinds.add_of_element(inner.value, found);
        }
        self.add_kinds_of_fields(inner.value, inner.nested.allowed, kinds, found)
    }

    /// Adds so the values of these fields of an object.
    fn add_kinds_of_fields(
        &self,
        object: Spot,
        fields: &[&'static str],
        kinds: Kinds<'_, '_, '_, '_>,
        found: &mut Vec<Found>,
    ) -> Result<(), OutOfMemory> {
        for field in fields {
            if let Some(member) = self.index.member(object, field) {
                kinds.add_of_field(field, member.value, found)?;
            }
        }
        Ok(())
    }

    /// Adds the field of a state, where it may not stand beside another one that is there.
    fn add_excluded(
        &self,
        state: Member,
        field: &str,
        found: &mut Vec<Found>,
    ) -> Result<(), OutOfMemory> {
        let Some(value) = self.value_in(state, field) else {
            return Ok(());
        };
        let sentence = match field {
            "Iterator" if self.value_in(state, "ItemProcessor").is_some() => {
                "A Map state has only one of `ItemProcessor` and its older name `Iterator`"
            }
            "Parameters" if self.value_in(state, "ItemSelector").is_some() => {
                "A Map state has only one of `ItemSelector` and its older name `Parameters`"
            }
            _ if self.is_last_of_waits(state, field) => {
                "A Wait state has only one of `Seconds`, `SecondsPath`, `Timestamp` and `TimestampPath`"
            }
            _ => return Ok(()),
        };
        found.push(Found::told(self.alloc, value, sentence)?)?;
        Ok(())
    }

    /// Whether a state has several of the fields of which a Wait has one, and that is the last.
    fn is_last_of_waits(&self, state: Member, field: &str) -> bool {
        let mut count: usize = 0;
        let mut is_last = false;
        for name in &WAITS {
            if self.value_in(state, name).is_some() {
                count = count.saturating_add(1);
                is_last = *name == field;
            }
        }
        count > 1 && is_last
    }
}

/// Adds a place of which no more is said than by its kind.
pub(crate) fn add(spot: Spot, found: &mut Vec<Found>) -> Result<(), OutOfMemory> {
    found.push(Found::at(spot))?;
    Ok(())
}

/// What is wrong with a value where a complaint is of its kind.
fn misfit_of(fault: DefFault) -> Option<Misfit> {
    match fault {
        DefFault::WrongKind => Some(Misfit::WrongKind),
        DefFault::NotWhole => Some(Misfit::NotWhole),
        _ => None,
    }
}
