//! Diagnostics, and their texts for people, editors and CI.
//!
//! A [`Diagnostic`] tells what is wrong at a place of a file, by one of the [`Rule`]s: [`rule_of_finding`] and the like give
//! the rule of what a check tells. [`sort`] puts diagnostics in the order in which they are told. [`text_lines`] has a line
//! for each, [`json_text`] a JSON list, [`sarif_text`] a log in SARIF 2.1.0, [`github_lines`] commands for a workflow.
#![tactic(auto)]

mod definitions;
mod fields;
mod findings;
mod github;
mod listing;
mod order;
mod records;
mod rules;
mod sarif;
mod sarif_results;
mod shared_rules;
mod statement;
mod text;
mod uris;
mod warnings;

use asl_places::Place;
use asl_tree::Tree;
pub use definitions::{rule_of_definition, rule_of_text};
pub use findings::{rule_of_finding, rule_of_unsettled};
pub use github::github_lines;
pub use listing::json_text;
pub use order::sort;
pub use records::rule_of_record;
pub use rules::Rule;
pub use sarif::sarif_text;
pub use text::text_lines;
pub use warnings::{
    Warning, rule_of_path_as_text, rule_of_repeated_name, rule_of_unknown_error, rule_of_warning,
};

/// How much a diagnostic weighs.
#[derive(Clone, Copy, Debug, PartialEq, Eq)]
pub enum Severity {
    Error,
    Warning,
}

impl Severity {
    ghost use Rattle.std.specs.Prelude.{◌≡◌};
    ghost use Rattle.asl_diagnostics.specs.Statement.{severity_name};

    /// The severity as a word: in lines, as a level of SARIF, as a command of a workflow.
    pub fn name(self) -> &'static str
        ensures { result.now ≡ severity_name self }
    {
        match self {
            Severity::Error => "error",
            Severity::Warning => "warning",
        }
    }
}

/// What is wrong at a place of a file.
#[derive(Debug, Drop)]
pub struct Diagnostic {
    /// The file's path, as it was given.
    pub file: String,
    pub place: Place,
    pub severity: Severity,
    pub rule: &'static Rule,
    /// The name of the state, or of an entry of declared shapes; None for a text that is no JSON and for what concerns the
    /// whole machine.
    pub state: Option<String>,
    pub field: Option<String>,
    /// What is wrong there, in a sentence without a period.
    pub message: String,
    /// A value that shows it.
    pub example: Option<Tree>,
}
