//! What is known of a machine by a certificate, and what is told of it.

ghost use Rattle.std.specs.Prelude.{◌≡◌, ◌≢◌, ◌↔◌, [], IfOk, IsTrue};
ghost use Rattle.asl_machine_table.specs.Table.{table_view};
ghost use Rattle.asl_check.specs.Told.{listed};
ghost use Rattle.asl_records.specs.Numbered.{AreWithin, numbered_view};
ghost use Rattle.asl_records.specs.View.{declared_view};
ghost use Rattle.asl_causes.specs.Known.{broken_rules};

use crate::flows::{Explainer, Flows};
use crate::heads::Told;
use crate::telling::push_alone;
use crate::walking::Walks;
use asl_check::{Finding, Located, find_all};
use asl_machine::Machine;
use asl_records::{Declared, NumberedCertificate};
use asl_tree::OutOfMemory;
use asl_warnings::{Stop, behind_stops};
use std::alloc::Global;

/// What is known of a machine under declared shapes by a certificate: each rule that it breaks, and how data goes through the
/// machine under it.
#[derive(Drop)]
pub struct Known<'m> {
    machine: &'m Machine,
    declared: &'m Declared,
    facts: Facts,
}

/// What a certificate tells of a machine.
#[derive(Drop)]
struct Facts {
    certificate: NumberedCertificate,
    flows: Flows,
    findings: Vec<Located>,
}

impl<'m> Known<'m> {
    /// What is known of a machine under declared shapes by a certificate. Refuses only where an allocation was refused.
    pub fn find(
        alloc: Global,
        machine: &'m Machine,
        declared: &'m Declared,
        mut certificate: NumberedCertificate,
    ) -> Result<Known<'m>, OutOfMemory>
        requires within { AreWithin certificate }
        ensures broken { IfOk result (λ known. broken_rules known
            ≡ listed (table_view machine.now) (declared_view declared.now)
            (numbered_view certificate)) }
    {
        let findings = find_all(alloc, machine, declared, &mut certificate)?;
        let flows = Flows::find(alloc, machine, declared, &mut certificate)?;
        let facts = Facts {
            certificate,
            flows,
            findings,
        };
        Ok(Known {
            machine,
            declared,
            facts,
        })
    }

    /// Whether the certificate breaks a rule.
    pub fn has_findings(&self) -> bool
        ensures { IsTrue result ↔ broken_rules self.now ≢ [] }
    {
        !self.facts.findings.is_empty()
    }

    /// Tells each rule that the certificate breaks in some lines, with an empty line between two of them: the line of the
    /// finding, what is known of the data with which it arises, the shortest way by which such data comes there, other
    /// origins from which it doesn't arise, an example, and what usually helps. What would be told in the same words twice
    /// is told once. Refuses only where an allocation was refused.
    pub fn findings_text(self, alloc: Global) -> Result<String, OutOfMemory> {
        text_of_findings(alloc, self.machine, self.declared, self.facts)
    }

    /// Tells what comes to the state of that number, its shapes, and its findings, in some lines. Refuses only where an
    /// allocation was refused.
    pub fn state_text(self, alloc: Global, state: usize) -> Result<String, OutOfMemory> {
        text_of_state(alloc, self.machine, self.declared, self.facts, state)
    }
}

/// Tells each broken rule, with an empty line between two of them.
fn text_of_findings(
    alloc: Global,
    machine: &Machine,
    declared: &Declared,
    mut facts: Facts,
) -> Result<String, OutOfMemory> {
    let explainer = Explainer {
        alloc,
        machine,
        declared,
        states: &facts.certificate.states,
        flows: &facts.flows,
    };
    let mut text = String::new(alloc);
    let mut walks = Walks::new(alloc);
    let mut told = Told::new(alloc);
    for located in &facts.findings {
        if told.has(alloc, located)? {
            continue;
        }
        if !text.is_empty() {
            text.push_str("\n")?;
        }
        let shapes = &mut facts.certificate.shapes;
        explainer.push_finding(shapes, &mut walks, &mut text, located)?;
    }
    Ok(text)
}

/// Tells what is known of the state of that number.
fn text_of_state(
    alloc: Global,
    machine: &Machine,
    declared: &Declared,
    mut facts: Facts,
    state: usize,
) -> Result<String, OutOfMemory> {
    let stops = stops_of(alloc, &facts.findings)?;
    let behind = behind_stops(alloc, machine, &mut facts.certificate, &stops)?;
    let is_behind = behind.get(state).copied().unwrap_or(false);
    let explainer = Explainer {
        alloc,
        machine,
        declared,
        states: &facts.certificate.states,
        flows: &facts.flows,
    };
    let shapes = &mut facts.certificate.shapes;
    explainer.about_state(shapes, &facts.findings, state, is_behind)
}

/// Where the findings stop data.
fn stops_of(alloc: Global, findings: &[Located]) -> Result<Vec<Stop<'_>>, OutOfMemory> {
    let mut stops = Vec::new(alloc);
    for Located { finding, .. } in findings {
        if let Some(stop) = Stop::of(&finding.state, &finding.field, finding.fault) {
            stops.push(stop)?;
        }
    }
    Ok(stops)
}

/// Tells a finding of which nothing else is known, with its example and what generally helps. Refuses only where an
/// allocation was refused.
pub fn finding_text_alone(alloc: Global, finding: Finding) -> Result<String, OutOfMemory> {
    let mut text = String::new(alloc);
    let located = Located {
        finding,
        path: None,
    };
    push_alone(alloc, &mut text, &located)?;
    Ok(text)
}
