//! What is known of a machine under declared shapes.

ghost use Rattle.std.specs.Prelude.{IfNone, IfOk, IfSome};
ghost use Rattle.asl_model.specs.Numbering.{table_of};
ghost use Rattle.asl_machine_table.specs.Table.{scope_in};
ghost use Rattle.asl_infer.specs.Lenient.{NeverSettlesLeniently};
ghost use Rattle.asl_records.specs.Numbered.{AreWithin};
ghost use Rattle.asl_records.specs.View.{declared_view};
ghost use Rattle.asl_graph.specs.Answers.{Settles};

use crate::flows::Flows;
use crate::picture::Look;
use asl_check::{Located, find_all};
use asl_infer::infer_leniently;
use asl_machine_table::Machine;
use asl_records::{Declared, NumberedCertificate};
use asl_tree::OutOfMemory;
use asl_warnings::{Stop, behind_stops};
use std::alloc::Global;

/// What is known of a machine by a certificate that is inferred leniently.
#[derive(Drop)]
pub(crate) struct Known {
    pub(crate) certificate: NumberedCertificate,
    pub(crate) facts: Facts,
}

/// What a certificate tells of a machine.
#[derive(Drop)]
pub(crate) struct Facts {
    pub(crate) flows: Flows,
    /// How each state looks, by its number.
    looks: Vec<Look>,
}

impl Known {
    /// What is known of a machine under declared shapes; nothing where the shapes don't settle. What flows between
    /// states is found only where it is wanted.
    pub(crate) fn find(
        alloc: Global,
        machine: &Machine,
        declared: &Declared,
        with_shapes: bool,
        max_rounds: u32,
    ) -> Result<Option<Known>, OutOfMemory>
        ensures settled { let table = table_of (scope_in machine.now) in IfOk result
            (λ known. IfSome known (λ _. Settles table (declared_view declared.now) max_rounds)) }
        ensures unsettled { let table = table_of (scope_in machine.now) in IfOk result
            (λ known. IfNone known
            (NeverSettlesLeniently table (declared_view declared.now) max_rounds)) }
    {
        match infer_leniently(alloc, machine, declared, max_rounds)? {
            Some(mut certificate) => {
                let facts = facts_of(alloc, machine, declared, with_shapes, &mut certificate)?;
                Ok(Some(Known { certificate, facts }))
            }
            None => Ok(None),
        }
    }

    /// How the state of that number looks.
    pub(crate) fn look_of(&self, state: usize) -> Look {
        self.facts.looks.get(state).copied().unwrap_or(Look::Plain)
    }
}

/// What the certificate tells of the machine: what flows between states, where that is wanted, and how each looks.
fn facts_of(
    alloc: Global,
    machine: &Machine,
    declared: &Declared,
    with_shapes: bool,
    certificate: &mut NumberedCertificate,
) -> Result<Facts, OutOfMemory>
    requires { AreWithin certificate.old }
{
    let findings = find_all(alloc, machine, declared, certificate)?;
    let flows = flows_of(alloc, machine, declared, with_shapes, certificate)?;
    let stops = stops_of(alloc, &findings)?;
    let behind = behind_stops(alloc, machine, certificate, &stops)?;
    let looks = looks_of(alloc, machine, certificate, &behind, &findings)?;
    Ok(Facts { flows, looks })
}

/// The flows, where they are wanted.
fn flows_of(
    alloc: Global,
    machine: &Machine,
    declared: &Declared,
    with_shapes: bool,
    certificate: &mut NumberedCertificate,
) -> Result<Flows, OutOfMemory>
    requires { AreWithin certificate.old }
{
    if with_shapes {
        Flows::find(alloc, machine, declared, certificate)
    } else {
        Ok(Flows::unknown(alloc))
    }
}

/// Where the findings stop data.
fn stops_of(alloc: Global, findings: &[Located]) -> Result<Vec<Stop<'_>>, OutOfMemory> {
    let mut stops = Vec::new(alloc);
    for located in findings {
        let finding = &located.finding;
        if let Some(stop) = Stop::of(&finding.state, &finding.field, finding.fault) {
            stops.push(stop)?;
        }
    }
    Ok(stops)
}

/// How each state looks; of those that are behind a stop, by their numbers, it isn't known that no data comes.
fn looks_of(
    alloc: Global,
    machine: &Machine,
    certificate: &NumberedCertificate,
    behind: &[bool],
    findings: &[Located],
) -> Result<Vec<Look>, OutOfMemory> {
    let mut looks = Vec::with_capacity(alloc, machine.states())?;
    for number in 0..machine.states() {
        looks.push(look_by_data(machine, certificate, behind, number))?;
    }
    mark_findings(machine, findings, &mut looks);
    Ok(looks)
}

/// How the state of that number looks by the data that comes to it.
fn look_by_data(
    machine: &Machine,
    certificate: &NumberedCertificate,
    behind: &[bool],
    number: usize,
) -> Look {
    let may_have_data = has_data(machine, certificate, number) || is_behind(behind, number);
    if may_have_data {
        Look::Plain
    } else {
        Look::Unreached
    }
}

/// Whether data of the certified input comes to the state of that number.
fn has_data(machine: &Machine, certificate: &NumberedCertificate, number: usize) -> bool {
    let entry = match machine.name(number) {
        Some(name) => certificate.states.get(name),
        None => None,
    };
    match entry {
        Some(entry) => certificate.shapes.inhabited(entry.input) == Some(true),
        None => false,
    }
}

/// Whether the state of that number is behind a stop.
fn is_behind(behind: &[bool], number: usize) -> bool {
    match behind.get(number) {
        Some(is_behind) => *is_behind,
        None => false,
    }
}

/// Marks the states at which a rule is broken.
fn mark_findings(machine: &Machine, findings: &[Located], looks: &mut Vec<Look>) {
    for located in findings {
        if let Some(number) = machine.state_named(&located.finding.state) {
            if let Some(look) = looks.get_mut(number) {
                *look = Look::Finding;
            }
        }
    }
}
