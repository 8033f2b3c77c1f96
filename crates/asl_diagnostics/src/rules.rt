//! Rules, and which of them occur.
ghost use Rattle.std.specs.Prelude.{◌≡◌, [], IfOk};
ghost use Rattle.asl_diagnostics.specs.Rules.{index_of, rules_after};

use crate::{Diagnostic, Severity};
use asl_tree::OutOfMemory;
use std::alloc::Global;

/// What diagnostics of one kind have in common. No text of a rule has a brace in it.
#[derive(Clone, Copy, Debug)]
pub struct Rule {
    /// Its name, as the program prints it.
    pub id: &'static str,
    /// How much a diagnostic by it weighs, where nothing else is said.
    pub severity: Severity,
    /// What is wrong, in a sentence.
    pub short: &'static str,
    /// What it means exactly.
    pub full: &'static str,
    /// What usually helps.
    pub help: &'static str,
}

/// The rules of the diagnostics, each name once, in the order in which they occur first.
pub(crate) fn rules_in(
    alloc: Global,
    diagnostics: &[Diagnostic],
) -> Result<Vec<&'static Rule>, OutOfMemory>
    ensures { IfOk result (λ rules. rules.items ≡ rules_after [] diagnostics.now) }
{
    let mut rules = Vec::new(alloc);
    for diagnostic in diagnostics {
        if index_of(&rules, diagnostic.rule.id).is_none() {
            rules.push(diagnostic.rule)?;
        }
    }
    Ok(rules)
}

/// The number of the rule of that name.
pub(crate) fn index_of(rules: &[&'static Rule], id: &str) -> Option<usize>
    ensures { result ≡ index_of rules.now id.now }
{
    rules.iter().position(|rule| rule.id == id)
}
