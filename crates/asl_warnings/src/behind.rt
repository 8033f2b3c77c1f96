//! States of whose data a certificate may not tell all.

ghost use Rattle.std.specs.Prelude.{◌<◌, IfOk, IfSome, length};

use crate::marks::Marks;
use asl_flow::effective_at;
use asl_machine_table::Machine;
use asl_numbered::Shapes;
use asl_records::NumberedCertificate;
use asl_shape_rules::let_through_at;
use asl_state_edges::FindingFault;
use asl_states::{ChoiceRule, Kind, Settings, State};
use asl_tree::OutOfMemory;
use std::alloc::Global;

/// A state at which data may stop on its way, and the field at fault: a certificate may lack what goes on from there.
#[derive(Clone, Copy, Debug, PartialEq, Eq, Drop)]
pub struct Stop<'n> {
    pub state: &'n str,
    pub field: &'n str,
}

impl<'n> Stop<'n> {
    /// The stop where the state of that name breaks that rule in that field, if data may stop there.
    pub fn of(state: &'n str, field: &'n str, fault: FindingFault) -> Option<Stop<'n>> {
        stops_data(fault, field).then_some(Stop { state, field })
    }
}

/// Whether an inference takes nothing further along the way on which that rule is broken. Of a path by which a Wait finds its
/// time it takes all data further, and so of a task that isn't declared, or isn't given what it takes; and where no rule of a
/// Choice is true no way goes on.
fn stops_data(fault: FindingFault, field: &str) -> bool {
    match fault {
        FindingFault::TaskUndeclared
        | FindingFault::TaskUnknown
        | FindingFault::NoDefault
        | FindingFault::PayloadNotTaken => false,
        FindingFault::PathMayBeMissing | FindingFault::WrongKind => {
            field != "SecondsPath" && field != "TimestampPath"
        }
        FindingFault::NotCertified
        | FindingFault::NotAState
        | FindingFault::StartInput
        | FindingFault::ResultMayNotFit
        | FindingFault::IntrinsicMayFail
        | FindingFault::OutputNotCertified
        | FindingFault::NextInput
        | FindingFault::ScopeOutput
        | FindingFault::BranchInput
        | FindingFault::CatchInput => true,
    }
}

/// Whether each state, by its number, is one to which a way leads on from one of the stops, so that more data may come to it
/// than the certificate says.
///
/// Further shapes may stand in the certificate's table afterwards; each that stood there keeps its number. Refuses only
/// where an allocation was refused.
pub fn behind_stops(
    alloc: Global,
    machine: &Machine,
    certificate: &mut NumberedCertificate,
    stops: &[Stop<'_>],
) -> Result<Vec<bool>, OutOfMemory> {
    let behind = mark_behind(alloc, machine, certificate, stops)?;
    Ok(behind.into_flags())
}

/// Marks the states to which a way leads on from one of the stops: by what the field at fault hands on, and from there by
/// all that a state names, and by the end of a scope to where the state leads to which the scope belongs. Each state is
/// looked at once.
pub(crate) fn mark_behind(
    alloc: Global,
    machine: &Machine,
    certificate: &mut NumberedCertificate,
    stops: &[Stop<'_>],
) -> Result<Marks, OutOfMemory> {
    let mut behind = Marks::new(alloc, machine.states())?;
    let mut last = None;
    for stop in stops {
        // The findings of one field stand beside each other, and what it hands on is looked at once.
        if last != Some(*stop) {
            mark_stop(alloc, machine, certificate, &mut behind, *stop)?;
        }
        last = Some(*stop);
    }
    for place in 0..machine.states() {
        let Some(number) = behind.nth(place) else {
            return Ok(behind);
        };
        mark_onward(machine, &mut behind, number)?;
    }
    Ok(behind)
}

/// Marks the states that the field at fault hands data on to: those of catchers, of rules, or all others that follow. What a
/// Task, a Parallel or a Pass with a `Result` puts out rests on none of its effective input.
fn mark_stop(
    alloc: Global,
    machine: &Machine,
    certificate: &mut NumberedCertificate,
    behind: &mut Marks,
    stop: Stop<'_>,
) -> Result<(), OutOfMemory> {
    let Some(number) = machine.state_named(stop.state) else {
        return Ok(());
    };
    let Some(state) = machine.state(number) else {
        return Ok(());
    };
    match (stop.field, &state.kind) {
        ("Catch", _) => behind.mark_catchers(&state.settings.catchers),
        ("Choices", Kind::Choice { choices, .. }) => {
            match effective_of(alloc, certificate, stop.state, &state.settings)? {
                Some(number) => {
                    mark_doubtful(alloc, &mut certificate.shapes, behind, choices, number)
                }
                None => behind.mark_choices(choices),
            }
        }
        ("InputPath" | "Parameters", Kind::Task { .. } | Kind::Pass { result: Some(_) }) => Ok(()),
        ("InputPath" | "Parameters", Kind::Parallel { .. }) => behind.mark_kind(&state.kind),
        _ => {
            behind.mark_kind(&state.kind)?;
            mark_output(machine, behind, number)
        }
    }
}

/// The number of the shape of the effective input of the state of that name, where its input has one and no path on the way
/// may name nothing.
fn effective_of(
    alloc: Global,
    certificate: &mut NumberedCertificate,
    name: &str,
    settings: &Settings,
) -> Result<Option<usize>, OutOfMemory>
    ensures { IfOk result (λ found. IfSome found (λ number. number < length certificate.new.shapes)) }
{
    let Some(entry) = certificate.states.get(name) else {
        return Ok(None);
    };
    let input = entry.input;
    if certificate.shapes.inhabited(input) != Some(true) {
        return Ok(None);
    }
    match effective_at(alloc, &mut certificate.shapes, settings, input)? {
        Ok(number) => Ok(Some(number)),
        Err(_) => Ok(None),
    }
}

/// Marks the states of the rules that for the shape of that number have a path that may name nothing.
#[tactic(auto, using(asl_numbered::specs::Laws::keeps_longer))]
fn mark_doubtful(
    alloc: Global,
    shapes: &mut Shapes,
    behind: &mut Marks,
    choices: &[ChoiceRule],
    number: usize,
) -> Result<(), OutOfMemory>
    requires { number < length shapes.old }
{
    for choice in choices {
        if let_through_at(alloc, shapes, &choice.test, number)?.is_err() {
            behind.mark(choice.next.number)?;
        }
    }
    Ok(())
}

/// Marks the states to which all data of a state goes on.
fn mark_onward(machine: &Machine, behind: &mut Marks, number: usize) -> Result<(), OutOfMemory> {
    if let Some(state) = machine.state(number) {
        behind.mark_targets(state)?;
    }
    mark_output(machine, behind, number)
}

/// Marks the state to which the output of a state goes on: the next one; or where it ends its scope, the one to which the
/// output goes on of the state to which the scope belongs.
fn mark_output(machine: &Machine, behind: &mut Marks, number: usize) -> Result<(), OutOfMemory> {
    let mut ending = number;
    // No scope stands in more states than there are.
    for _ in 0..machine.states() {
        let Some(state) = machine.state(ending) else {
            return Ok(());
        };
        if let Some(next) = &state.settings.next {
            return behind.mark(next.number);
        }
        match owner_of_end(machine, state, ending) {
            Some(owner) => ending = owner,
            None => return Ok(()),
        }
    }
    Ok(())
}

/// The state to which the scope belongs that ends with the state of that number, which has no `Next`; none where the scope
/// is the machine's, or the state doesn't end it.
fn owner_of_end(machine: &Machine, state: &State, number: usize) -> Option<usize> {
    if matches!(state.kind, Kind::Choice { .. } | Kind::Fail { .. }) {
        return None;
    }
    let (owner, _) = machine.scope_of(number)?.owner?;
    Some(owner)
}
