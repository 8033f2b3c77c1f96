//! Problems with their places and messages.
ghost use Rattle.std.specs.Prelude.{◌≡◌, IfOk, map};
ghost use Rattle.asl_problems.specs.Told.{told_by, told_of};

use crate::declared_places::{places_in_declared, spot_in_declared};
use crate::definition_places::DefinitionPlaces;
use crate::files::File;
use crate::found::At;
use crate::groups::{Groups, name_of_places};
use crate::messages::message_at;
use crate::problems::{Kind, Problem, Which};
use crate::scopes::{Scoped, Text};
use crate::sources::Outlined;
use asl_breaks::{break_of, first_fraction};
use asl_diagnostics::Diagnostic;
use asl_faults::{Index, Paths};
use asl_places::{Places, Spot, States};
use asl_tree::OutOfMemory;
use json::Scratch;
use std::alloc::Global;
use std::collections::BTreeMap;

/// The problems as diagnostics, in their order, each with its place in one of the two texts and its message. The texts are
/// read for places only where there is something to tell. Refuses only where an allocation was refused.
pub fn diagnostics_of<'f>(
    alloc: Global,
    definition: File<'f>,
    declared: Option<File<'f>>,
    problems: Vec<Problem>,
) -> Result<Vec<Diagnostic>, OutOfMemory>
    ensures { IfOk result
        (λ diagnostics. map told_of diagnostics.items ≡ map told_by problems.items) }
{
    if problems.is_empty() {
        return Ok(Vec::new(alloc));
    }
    let declared = declared.unwrap_or(definition);
    let mut scratch = Scratch::new(alloc);
    let outlined = Outlined::read(alloc, definition.text, &mut scratch)?;
    let states = states_of(alloc, &outlined)?;
    let mut subject = Subject {
        file: definition,
        places: Places::of(alloc, definition.text)?,
        index: index_of(alloc, &outlined, definition.text)?,
        states: &states,
        scoped: BTreeMap::new(alloc),
        paths: BTreeMap::new(alloc),
        calls: BTreeMap::new(alloc),
    };
    subject.scoped = scoped_of(alloc, &subject, &problems)?;
    subject.paths = paths_of(alloc, &subject, &problems)?;
    subject.calls = calls_of(alloc, &subject, &problems)?;
    tell_in(alloc, &subject, declared, problems)
}

/// One of the two files, with what is found in it.
#[derive(Drop)]
struct Subject<'s, 'f, 'a> {
    file: File<'f>,
    places: Places<'f>,
    /// There is none of a text without an outline.
    index: Option<Index<'s, 'a>>,
    /// The states of a definition that is JSON.
    states: &'s Option<States<'a>>,
    /// All of them by name; none where no problem is a complaint of the definition.
    scoped: BTreeMap<&'a str, Vec<Scoped>>,
    /// The paths in the values of fields in which problems tell some, by the token with which such a value begins.
    paths: BTreeMap<usize, Paths>,
    /// The only calls in the values of fields in which problems tell that one may have no value, by the same tokens.
    calls: BTreeMap<usize, Spot>,
}

impl<'s, 'f, 'a> Subject<'s, 'f, 'a> {
    /// What is looked for places in, where it is a definition that is JSON.
    fn definition<'p>(&'p self, alloc: Global) -> Option<DefinitionPlaces<'p, 's, 'f, 'a>> {
        let text = self.file.text;
        let places = &self.places;
        let (scoped, paths, calls) = (&self.scoped, &self.paths, &self.calls);
        match (&self.index, self.states) {
            (Some(index), Some(states)) => Some(DefinitionPlaces {
                alloc,
                text,
                places,
                index,
                states,
                scoped,
                paths,
                calls,
            }),
            _ => None,
        }
    }
}

/// The problems as diagnostics, in their order, with what is found in the definition.
fn tell_in(
    alloc: Global,
    definition: &Subject<'_, '_, '_>,
    declared: File<'_>,
    problems: Vec<Problem>,
) -> Result<Vec<Diagnostic>, OutOfMemory>
    ensures { IfOk result
        (λ diagnostics. map told_of diagnostics.items ≡ map told_by problems.items) }
{
    let text = match some_in_declared(&problems) {
        true => declared.text,
        false => &[],
    };
    let mut scratch = Scratch::new(alloc);
    let outlined = Outlined::read(alloc, text, &mut scratch)?;
    let subject = Subject {
        file: declared,
        places: Places::of(alloc, text)?,
        index: index_of(alloc, &outlined, text)?,
        states: &None,
        scoped: BTreeMap::new(alloc),
        paths: BTreeMap::new(alloc),
        calls: BTreeMap::new(alloc),
    };
    tell_each(alloc, definition, &subject, problems)
}

/// Whether one of the problems stands in the declared shapes.
fn some_in_declared(problems: &[Problem]) -> bool {
    problems
        .iter()
        .any(|problem| problem.which() == Which::Declared)
}

/// The states of an outlined definition.
fn states_of<'a>(
    alloc: Global,
    outlined: &Outlined<'a>,
) -> Result<Option<States<'a>>, OutOfMemory> {
    match outlined {
        Outlined::Json(outline) => Ok(Some(States::read(alloc, outline)?)),
        Outlined::None => Ok(None),
    }
}

/// The index of an outlined text.
pub(crate) fn index_of<'s, 'a>(
    alloc: Global,
    outlined: &'s Outlined<'a>,
    text: &[u8],
) -> Result<Option<Index<'s, 'a>>, OutOfMemory> {
    match outlined {
        Outlined::Json(outline) => Ok(Some(Index::read(alloc, outline, text.len())?)),
        Outlined::None => Ok(None),
    }
}

/// All states of the definition by name, where some problem is a complaint of it.
fn scoped_of<'a>(
    alloc: Global,
    definition: &Subject<'_, '_, 'a>,
    problems: &[Problem],
) -> Result<BTreeMap<&'a str, Vec<Scoped>>, OutOfMemory> {
    let is_refused = problems
        .iter()
        .any(|problem| matches!(problem.kind, Kind::Complaint(_)));
    match &definition.index {
        Some(index) if is_refused => {
            let text = definition.file.text;
            Text { alloc, text, index }.states()
        }
        _ => Ok(BTreeMap::new(alloc)),
    }
}

/// The paths in the values of the definition's fields in which problems tell some.
fn paths_of(
    alloc: Global,
    definition: &Subject<'_, '_, '_>,
    problems: &[Problem],
) -> Result<BTreeMap<usize, Paths>, OutOfMemory> {
    let mut paths = BTreeMap::new(alloc);
    let Some(places) = definition.definition(alloc) else {
        return Ok(paths);
    };
    for problem in problems {
        if let Some(value) = places.value_with_path(problem) {
            if !paths.contains_key(&value.token) {
                drop(paths.insert(value.token, places.paths_in(value)?)?);
            }
        }
    }
    Ok(paths)
}

/// The only calls in the values of the definition's fields in which problems tell that one may have no value.
fn calls_of(
    alloc: Global,
    definition: &Subject<'_, '_, '_>,
    problems: &[Problem],
) -> Result<BTreeMap<usize, Spot>, OutOfMemory> {
    let mut calls = BTreeMap::new(alloc);
    let Some(places) = definition.definition(alloc) else {
        return Ok(calls);
    };
    for problem in problems {
        if let Some(value) = places.value_with_call(problem) {
            if let Some(call) = places.only_call_in(value)? {
                calls.insert(value.token, call)?;
            }
        }
    }
    Ok(calls)
}

/// The problems as diagnostics, in their order, with what is found in both texts.
fn tell_each(
    alloc: Global,
    definition: &Subject<'_, '_, '_>,
    declared: &Subject<'_, '_, '_>,
    problems: Vec<Problem>,
) -> Result<Vec<Diagnostic>, OutOfMemory>
    ensures { IfOk result
        (λ diagnostics. map told_of diagnostics.items ≡ map told_by problems.items) }
{
    let mut diagnostics = Vec::new(alloc);
    let mut groups = Groups::new(alloc);
    for problem in problems {
        let told = tell(alloc, definition, declared, &mut groups, problem)?;
        diagnostics.push(told)?;
    }
    Ok(diagnostics)
}

/// A problem as a diagnostic. The places of complaints that tell the same are kept, and each takes the next.
fn tell(
    alloc: Global,
    definition: &Subject<'_, '_, '_>,
    declared: &Subject<'_, '_, '_>,
    groups: &mut Groups,
    problem: Problem,
) -> Result<Diagnostic, OutOfMemory>
    ensures { IfOk result (λ diagnostic. told_of diagnostic ≡ told_by problem) }
{
    match problem.which() {
        Which::Definition => {
            let at = find_in_definition(alloc, definition, groups, &problem)?;
            tell_at(alloc, definition, at, problem)
        }
        Which::Declared => {
            let at = find_in_declared(alloc, declared, groups, &problem)?;
            tell_at(alloc, declared, at, problem)
        }
    }
}

/// Where a problem stands in the definition.
fn find_in_definition(
    alloc: Global,
    definition: &Subject<'_, '_, '_>,
    groups: &mut Groups,
    problem: &Problem,
) -> Result<At, OutOfMemory> {
    match (&problem.kind, definition.definition(alloc)) {
        (Kind::NotJson(_), _) => Ok(At::byte(break_of(alloc, definition.file.text)?.byte)),
        (Kind::Slip { byte, .. }, _) => Ok(At::byte(*byte)),
        (Kind::Complaint(fault), Some(places)) => {
            let name = name_of_places(alloc, problem)?;
            if !groups.has(&name) {
                let (state, field) = (problem.state.as_deref(), problem.field.as_deref());
                let alike = places.places_of_complaints(*fault, state, field)?;
                groups.put(name.clone()?, alike)?;
            }
            groups.take(&name)
        }
        (_, Some(places)) => Ok(places.find(problem)),
        (_, None) => Ok(At::byte(0)),
    }
}

/// Where a problem stands in the declared shapes.
fn find_in_declared(
    alloc: Global,
    declared: &Subject<'_, '_, '_>,
    groups: &mut Groups,
    problem: &Problem,
) -> Result<At, OutOfMemory> {
    let text = declared.file.text;
    match (&problem.kind, &declared.index) {
        (Kind::NotJson(_), _) => Ok(At::byte(break_of(alloc, text)?.byte)),
        (Kind::Slip { byte, .. }, _) => Ok(At::byte(*byte)),
        (Kind::NotWhole, _) => Ok(At::byte(first_fraction(alloc, text)?)),
        (Kind::Record(_), Some(index)) => {
            let name = name_of_places(alloc, problem)?;
            if !groups.has(&name) {
                let alike = places_in_declared(alloc, index, text, problem)?;
                groups.put(name.clone()?, alike)?;
            }
            groups.take(&name)
        }
        (_, Some(index)) => Ok(At::byte(index.offset(spot_in_declared(index, problem)))),
        (_, None) => Ok(At::byte(0)),
    }
}

/// A problem that is found in a file as a diagnostic.
fn tell_at(
    alloc: Global,
    subject: &Subject<'_, '_, '_>,
    at: At,
    problem: Problem,
) -> Result<Diagnostic, OutOfMemory>
    ensures { IfOk result (λ diagnostic. told_of diagnostic ≡ told_by problem) }
{
    let place = subject.places.place_at(at.byte);
    let message = message_at(alloc, &problem, subject.file.text, at)?;
    let path = String::from_str(alloc, subject.file.path)?;
    Ok(Diagnostic {
        file: path,
        place,
        severity: problem.severity,
        rule: problem.rule,
        state: problem.state,
        field: problem.field,
        message,
        example: problem.example,
    })
}
