//! The line that says what is wrong.

use asl_check::{FindingFault, Located};
use asl_diagnostics::rule_of_finding;
use asl_phrases::cut;
use asl_tree::{OutOfMemory, quoted};
use std::alloc::Global;
use std::collections::BTreeSet;

/// The state's name, the field, the fault, and what it says in a sentence.
pub(crate) fn head_of(alloc: Global, located: &Located) -> Result<String, OutOfMemory> {
    let state = quoted(alloc, &located.finding.state)?;
    let told = told_in_short(alloc, located)?;
    Ok(format!(in alloc; "{state} {told}")?)
}

/// The field, the fault, and what it says in a sentence.
pub(crate) fn told_in_short(alloc: Global, located: &Located) -> Result<String, OutOfMemory> {
    let finding = &located.finding;
    let field = finding.field.as_str();
    let fault = finding.fault.name();
    let sentence = sentence_of(alloc, located)?;
    Ok(format!(in alloc; "{field} {fault}: {sentence}")?)
}

/// What the finding says, with the path or the field where it is about one.
fn sentence_of(alloc: Global, located: &Located) -> Result<String, OutOfMemory> {
    let finding = &located.finding;
    match (finding.fault, &located.path) {
        (FindingFault::PathMayBeMissing, Some(path)) => {
            let path = cut(alloc, &path.text)?;
            Ok(format!(in alloc; "{path} may name nothing.")?)
        }
        (FindingFault::WrongKind, _) => sentence_on_kind(alloc, finding.field.as_str()),
        (fault, _) => Ok(String::from_str(alloc, rule_of_finding(fault).short)?),
    }
}

/// That a path may name a value of another kind than its field wants.
fn sentence_on_kind(alloc: Global, field: &str) -> Result<String, OutOfMemory> {
    let words = match field {
        "ItemsPath" => "What the path names may be no list.",
        "SecondsPath" => "What the path names may be no whole number.",
        "TimestampPath" => "What the path names may be no text.",
        _ => "What the path names may be of another kind than is wanted here.",
    };
    Ok(String::from_str(alloc, words)?)
}

/// What was told of findings so far.
#[derive(Drop)]
pub(crate) struct Told {
    texts: BTreeSet<String>,
}

impl Told {
    /// Nothing was told.
    pub(crate) fn new(alloc: Global) -> Told {
        Told {
            texts: BTreeSet::new(alloc),
        }
    }

    /// Whether a finding is told in the same words as one before; it is told now.
    pub(crate) fn has(&mut self, alloc: Global, located: &Located) -> Result<bool, OutOfMemory> {
        let finding = &located.finding;
        let (state, fault, field) = (finding.state.as_str(), finding.fault.name(), &finding.field);
        let (length, path) = (state.len(), text_of(located));
        let text = format!(in alloc; "{fault} {field} {length} {state} {path}")?;
        Ok(!self.texts.insert(text)?)
    }
}

/// The text of the path that a finding is about, empty where it is about none.
fn text_of(located: &Located) -> &str {
    match &located.path {
        Some(path) => &path.text,
        None => "",
    }
}
