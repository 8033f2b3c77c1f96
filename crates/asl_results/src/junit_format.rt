//! An XML document as JUnit has them.
ghost use Rattle.std.specs.Prelude.{◌≡◌, ◌++◌, IfOk, OnOk, string_bytes};
ghost use Rattle.std.specs.List.{flat_map};
ghost use Rattle.asl_results.specs.Junit.{case_element, failure_element, output_element, junit_report, suite_element};

use crate::counting::Counts;
use crate::coverage::push_coverage;
use crate::escaping::{InXml, Part};
use crate::{CaseResult, SuiteResult};
use asl_tree::OutOfMemory;
use std::alloc::Global;

/// The document of all suites.
pub(crate) fn written(alloc: Global, suites: &[SuiteResult]) -> Result<String, OutOfMemory>
    ensures { IfOk result (λ text. string_bytes text ≡ junit_report suites.now) }
{
    let counts = Counts::of_all(suites)?;
    let cases = counts.cases;
    let failed = counts.failed;
    let mut text = String::new(alloc);
    write!(
        text,
        "<?xml version=\"1.0\" encoding=\"UTF-8\"?>\n<testsuites tests=\"{cases}\" failures=\"{failed}\">\n"
    )?;
    push_suites(alloc, &mut text, suites)?;
    text.push_str("</testsuites>\n")?;
    Ok(text)
}

/// Puts down the element of each suite.
fn push_suites(alloc: Global, text: &mut String, suites: &[SuiteResult]) -> Result<(), OutOfMemory>
    ensures { OnOk result
        (string_bytes text.new ≡ string_bytes text.old ++ flat_map suite_element suites.now) }
{
    for suite in suites {
        push_suite(alloc, text, suite)?;
    }
    Ok(())
}

/// Puts down the element of a suite.
fn push_suite(alloc: Global, text: &mut String, suite: &SuiteResult) -> Result<(), OutOfMemory>
    ensures { OnOk result
        (string_bytes text.new ≡ string_bytes text.old ++ suite_element suite.now) }
{
    let name = InXml(Part::Attribute, &suite.name);
    let Counts { cases, failed } = Counts::of(&suite.cases);
    write!(
        text,
        "  <testsuite name=\"{name}\" tests=\"{cases}\" failures=\"{failed}\">\n"
    )?;
    push_cases(text, &suite.name, &suite.cases)?;
    push_output(alloc, text, &suite.lacking)?;
    text.push_str("  </testsuite>\n")?;
    Ok(())
}

/// Puts down the element of each case of the suite of that name.
fn push_cases(text: &mut String, suite: &str, cases: &[CaseResult]) -> Result<(), OutOfMemory>
    ensures { OnOk result (string_bytes text.new
        ≡ string_bytes text.old ++ flat_map (case_element suite.now) cases.now) }
{
    for case in cases {
        push_case(text, suite, case)?;
    }
    Ok(())
}

/// Puts down the element of a case of the suite of that name.
fn push_case(text: &mut String, suite: &str, case: &CaseResult) -> Result<(), OutOfMemory>
    ensures { OnOk result
        (string_bytes text.new ≡ string_bytes text.old ++ case_element suite.now case.now) }
{
    let suite = InXml(Part::Attribute, suite);
    let name = InXml(Part::Attribute, &case.name);
    write!(text, "    <testcase classname=\"{suite}\" name=\"{name}\"")?;
    match &case.difference {
        None => text.push_str("/>\n")?,
        Some(difference) => push_failure(text, difference)?,
    }
    Ok(())
}

/// Puts down the element of a failure in that of its case, and the end of the case.
fn push_failure(text: &mut String, difference: &str) -> Result<(), OutOfMemory>
    ensures { OnOk result
        (string_bytes text.new ≡ string_bytes text.old ++ failure_element difference.now) }
{
    let message = InXml(Part::Attribute, difference);
    let content = InXml(Part::Content, difference);
    write!(
        text,
        ">\n      <failure message=\"{message}\">{content}</failure>\n    </testcase>\n"
    )?;
    Ok(())
}

/// Puts down the element with the lines on coverage, where it was asked for.
fn push_output(
    alloc: Global,
    text: &mut String,
    lacking: &Option<Vec<String>>,
) -> Result<(), OutOfMemory>
    ensures { OnOk result
        (string_bytes text.new ≡ string_bytes text.old ++ output_element lacking.now) }
{
    if let Some(lacking) = lacking {
        let mut lines = String::new(alloc);
        push_coverage(&mut lines, lacking)?;
        let content = InXml(Part::Content, &lines);
        write!(text, "    <system-out>{content}</system-out>\n")?;
    }
    Ok(())
}
