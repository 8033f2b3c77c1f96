//! What errors a state may raise.

ghost use Rattle.std.specs.Prelude.{◌≡◌, IfOk};
ghost use Rattle.asl_warnings.specs.Taken.{is_reserved, may_raise, RaisesAll};

use asl_machine_table::Machine;
use asl_states::{Kind, State};
use asl_tree::OutOfMemory;
use std::alloc::Global;
use std::collections::BTreeSet;

/// What a state may raise.
#[derive(Drop)]
pub(crate) enum Raised<'m> {
    /// Errors of every name.
    Any,
    /// Errors of these names, and those of the interpreter.
    Named(BTreeSet<&'m str>),
}

impl Raised<'_> {
    /// Whether it may be an error of that name.
    pub(crate) fn may_be(&self, name: &str) -> bool
        ensures { result ≡ may_raise self.now name.now }
    {
        match self {
            Raised::Any => true,
            Raised::Named(names) => is_of_interpreter(name) || names.contains(name),
        }
    }
}

/// Whether an interpreter itself may raise an error of that name: one that the standard reserves, or that tells of a path.
fn is_of_interpreter(name: &str) -> bool
    ensures { result ≡ is_reserved name.now }
{
    name.starts_with("States.") || name.starts_with("Path.")
}

/// What the state of that number may raise. A task fails with an error of any name; so does a Parallel or a Map in which a
/// Task stands, and else with the errors that a Fail in it names. More may be told than is raised, and never less.
pub(crate) fn raised_at<'m>(
    alloc: Global,
    machine: &'m Machine,
    number: usize,
    state: &State,
) -> Result<Raised<'m>, OutOfMemory>
    ensures { IfOk result (RaisesAll state.now) }
{
    match &state.kind {
        Kind::Parallel { .. } | Kind::Map { .. } => raised_inside(alloc, machine, number),
        Kind::Task { .. }
        | Kind::Pass { .. }
        | Kind::Choice { .. }
        | Kind::Wait { .. }
        | Kind::Succeed
        | Kind::Fail { .. } => Ok(Raised::Any),
    }
}

/// What the states inside the one of that number may raise: those behind it, as far as they stand in its scopes.
fn raised_inside(
    alloc: Global,
    machine: &Machine,
    number: usize,
) -> Result<Raised<'_>, OutOfMemory> {
    let mut names = BTreeSet::new(alloc);
    for inner in number..machine.states() {
        if inner > number && !is_inside(machine, inner, number) {
            break;
        }
        match machine.state(inner) {
            Some(
                State {
                    kind: Kind::Task { .. },
                    ..
                },
            ) => return Ok(Raised::Any),
            Some(
                State {
                    kind: Kind::Fail { error, .. },
                    ..
                },
            ) => {
                names.insert(error.as_str())?;
            }
            Some(_) | None => {}
        }
    }
    Ok(Raised::Named(names))
}

/// Whether a state stands in the scopes of another, where all between the two by number do.
fn is_inside(machine: &Machine, inner: usize, outer: usize) -> bool {
    match machine.scope_of(inner) {
        Some(scope) => match scope.owner {
            Some((owner, _)) => owner >= outer,
            None => false,
        },
        None => false,
    }
}
