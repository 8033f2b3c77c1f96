//! Lines for people.
ghost use Rattle.std.specs.Prelude.{◌≡◌, ◌++◌, IfOk, OnOk, string_bytes};
ghost use Rattle.std.specs.List.{flat_map};
ghost use Rattle.asl_results.specs.Text.{case_line, named_suite, suite_lines, suites_lines, text_report};

use crate::counting::Counts;
use crate::coverage::push_coverage;
use crate::escaping::InLine;
use crate::{CaseResult, SuiteResult};
use asl_tree::OutOfMemory;
use std::alloc::Global;

/// The lines of suites, and the count of their cases.
pub(crate) fn written(alloc: Global, suites: &[SuiteResult]) -> Result<String, OutOfMemory>
    ensures { IfOk result (λ text. string_bytes text ≡ text_report suites.now) }
{
    let counts = Counts::of_all(suites)?;
    let passed = counts.passed();
    let failed = counts.failed;
    let mut text = String::new(alloc);
    push_suites(&mut text, suites)?;
    write!(text, "{passed} passed, {failed} failed\n")?;
    Ok(text)
}

/// Puts down the lines of suites, each with its name where they are several.
#[tactic(auto, using(crate::proofs::Suites::suites_lines_none, crate::proofs::Suites::suites_lines_several))]
fn push_suites(text: &mut String, suites: &[SuiteResult]) -> Result<(), OutOfMemory>
    ensures { OnOk result
        (string_bytes text.new ≡ string_bytes text.old ++ suites_lines suites.now) }
{
    match suites {
        [suite] => push_suite(text, suite),
        _ => push_each(text, suites),
    }
}

/// Puts down each suite with its name.
fn push_each(text: &mut String, suites: &[SuiteResult]) -> Result<(), OutOfMemory>
    ensures { OnOk result
        (string_bytes text.new ≡ string_bytes text.old ++ flat_map named_suite suites.now) }
{
    for suite in suites {
        push_named(text, suite)?;
    }
    Ok(())
}

/// Puts down a suite with its name in front, and an empty line behind.
fn push_named(text: &mut String, suite: &SuiteResult) -> Result<(), OutOfMemory>
    ensures { OnOk result
        (string_bytes text.new ≡ string_bytes text.old ++ named_suite suite.now) }
{
    write!(text, "{}\n", InLine(&suite.name))?;
    push_suite(text, suite)?;
    text.push('\n')?;
    Ok(())
}

/// Puts down the lines of a suite.
fn push_suite(text: &mut String, suite: &SuiteResult) -> Result<(), OutOfMemory>
    ensures { OnOk result
        (string_bytes text.new ≡ string_bytes text.old ++ suite_lines suite.now) }
{
    for case in &suite.cases {
        push_case(text, case)?;
    }
    match &suite.lacking {
        Some(lacking) => push_coverage(text, lacking),
        None => Ok(()),
    }
}

/// Puts down the line of a case.
fn push_case(text: &mut String, case: &CaseResult) -> Result<(), OutOfMemory>
    ensures { OnOk result
        (string_bytes text.new ≡ string_bytes text.old ++ case_line case.now) }
{
    let name = InLine(&case.name);
    match &case.difference {
        None => write!(text, "ok    {name}\n")?,
        Some(difference) => write!(text, "FAIL  {name}: {}\n", InLine(difference))?,
    }
    Ok(())
}
