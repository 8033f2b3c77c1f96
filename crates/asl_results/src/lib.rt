//! Reports of test runs.
//!
//! A [`SuiteResult`] has what became of the cases of a suite, and [`report`] tells of suites in a [`Format`]: lines for
//! people, JSON for programs, JUnit's XML for CI.
#![tactic(auto)]

ghost use Rattle.std.specs.Prelude.{◌≡◌, IfOk, string_bytes};
ghost use Rattle.asl_results.specs.Report.{report_text};

mod counting;
mod coverage;
mod escaping;
mod json_format;
mod junit_format;
mod text_format;

use asl_tree::OutOfMemory;
use std::alloc::Global;

/// What became of a suite of test cases.
#[derive(Debug, Drop)]
pub struct SuiteResult {
    /// By what the suite is told: the path of its file, as it was given.
    pub name: String,
    /// The cases, in the order of the suite.
    pub cases: Vec<CaseResult>,
    /// A line for each thing of the machine that no case covers; None where coverage wasn't asked for.
    pub lacking: Option<Vec<String>>,
}

/// What became of a test case.
#[derive(Debug, Drop)]
pub struct CaseResult {
    pub name: String,
    /// How the run differs from what is expected, in words; None where the case passed.
    pub difference: Option<String>,
}

/// In which format a report is written.
#[derive(Clone, Copy, Debug, PartialEq, Eq)]
pub enum Format {
    /// Lines for people.
    Text,
    /// One line of JSON.
    Json,
    /// An XML document as JUnit has them.
    Junit,
}

/// The report of suites, in their order, ended by a line break. Refuses only where memory runs out: an allocation was
/// refused, or there are 2^64 cases or more, of which no memory has room for a report.
///
/// - [`Format::Text`]: a line for each case, `ok    NAME` or `FAIL  NAME: DIFFERENCE`; behind those of a suite whose
///   coverage was asked for a line `not covered: LINE` for each thing that lacks, or `everything is covered`; and the
///   count of all cases, as `1 passed, 1 failed`. Of several suites each has its name in front of its lines, and an empty
///   line behind them. A character that would break a line, or that is a control character, stands escaped as in a
///   JSON text.
/// - [`Format::Json`]: an object without spaces with `failed` and `passed`, the counts, and `suites`, a list of
///   objects with `cases`, `notCovered` where coverage was asked for, and `suite`, the name. A case has `name` and
///   `passed`, and where it failed `difference`.
/// - [`Format::Junit`]: `testsuites` with a `testsuite` for each suite, in it a `testcase` for each case, with a
///   `failure` where it failed, and the lines on coverage as `system-out`. Characters that XML 1.0 forbids are replaced
///   by U+FFFD.
pub fn report(alloc: Global, suites: &[SuiteResult], format: Format) -> Result<String, OutOfMemory>
    ensures { IfOk result (λ text. string_bytes text ≡ report_text format suites.now) }
{
    match format {
        Format::Text => text_format::written(alloc, suites),
        Format::Json => json_format::written(alloc, suites),
        Format::Junit => junit_format::written(alloc, suites),
    }
}
