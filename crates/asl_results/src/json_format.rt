//! JSON for programs.
ghost use Rattle.std.specs.Prelude.{◌≡◌, ◌++◌, ◌∷◌, [], IfOk, OnOk, decimal, map, string_bytes};
ghost use Rattle.json.specs.Token.{key, number, string};
ghost use Rattle.asl_model.specs.Json.{compact_text};
ghost use Rattle.asl_model.specs.Tree.{Array, trees_of};
ghost use Rattle.asl_tree.specs.Written.{tree_tokens};
ghost use Rattle.asl_results.specs.Json.{case_tree, difference_tokens, json_report, lacking_tokens, report_tree, suite_tree, texts_tree};

use crate::counting::Counts;
use crate::{CaseResult, SuiteResult};
use asl_tree::OutOfMemory;
use json::Writer;
use std::alloc::Global;

/// The object of all suites, in one line.
pub(crate) fn written(alloc: Global, suites: &[SuiteResult]) -> Result<String, OutOfMemory>
    ensures { IfOk result (λ text. string_bytes text ≡ json_report suites.now) }
{
    let mut text = report_text(alloc, suites)?;
    text.push('\n')?;
    Ok(text)
}

/// The text of that object.
fn report_text(alloc: Global, suites: &[SuiteResult]) -> Result<String, OutOfMemory>
    ensures { IfOk result (λ text. string_bytes text ≡ compact_text (report_tree suites.now)) }
{
    let mut writer = Writer::new(Vec::new(alloc));
    write_report(&mut writer, suites)?;
    let Ok(text) = String::from_utf8(writer.into_inner()) else {
        unreachable!()
    };
    Ok(text)
}

/// The object of all suites.
fn write_report(writer: &mut Writer, suites: &[SuiteResult]) -> Result<(), OutOfMemory>
    ensures before { writer.new.before ≡ writer.old.before }
    ensures tokens { OnOk result
        (writer.new.tokens ≡ writer.old.tokens ++ tree_tokens (report_tree suites.now)) }
{
    let counts = Counts::of_all(suites)?;
    let passed = counts.passed();
    writer.begin_object()?;
    write_number(writer, "failed", counts.failed)?;
    write_number(writer, "passed", passed)?;
    writer.key("suites")?;
    write_suites(writer, suites)?;
    writer.end_object()?;
    Ok(())
}

/// The list of suites.
fn write_suites(writer: &mut Writer, suites: &[SuiteResult]) -> Result<(), OutOfMemory>
    ensures before { writer.new.before ≡ writer.old.before }
    ensures tokens { OnOk result (writer.new.tokens
        ≡ writer.old.tokens ++ tree_tokens (Array (trees_of (map suite_tree suites.now)))) }
{
    writer.begin_array()?;
    for suite in suites {
        write_suite(writer, suite)?;
    }
    writer.end_array()?;
    Ok(())
}

/// The object of a suite.
fn write_suite(writer: &mut Writer, suite: &SuiteResult) -> Result<(), OutOfMemory>
    ensures before { writer.new.before ≡ writer.old.before }
    ensures tokens { OnOk result
        (writer.new.tokens ≡ writer.old.tokens ++ tree_tokens (suite_tree suite.now)) }
{
    writer.begin_object()?;
    writer.key("cases")?;
    write_cases(writer, &suite.cases)?;
    write_lacking(writer, &suite.lacking)?;
    write_text(writer, "suite", &suite.name)?;
    writer.end_object()?;
    Ok(())
}

/// The list of cases.
fn write_cases(writer: &mut Writer, cases: &[CaseResult]) -> Result<(), OutOfMemory>
    ensures before { writer.new.before ≡ writer.old.before }
    ensures tokens { OnOk result (writer.new.tokens
        ≡ writer.old.tokens ++ tree_tokens (Array (trees_of (map case_tree cases.now)))) }
{
    writer.begin_array()?;
    for case in cases {
        write_case(writer, case)?;
    }
    writer.end_array()?;
    Ok(())
}

/// The object of a case.
fn write_case(writer: &mut Writer, case: &CaseResult) -> Result<(), OutOfMemory>
    ensures before { writer.new.before ≡ writer.old.before }
    ensures tokens { OnOk result
        (writer.new.tokens ≡ writer.old.tokens ++ tree_tokens (case_tree case.now)) }
{
    writer.begin_object()?;
    write_difference(writer, &case.difference)?;
    write_text(writer, "name", &case.name)?;
    writer.key("passed")?;
    writer.boolean(!case.is_failed())?;
    writer.end_object()?;
    Ok(())
}

/// The field with the difference, where there is one.
fn write_difference(writer: &mut Writer, difference: &Option<String>) -> Result<(), OutOfMemory>
    ensures before { writer.new.before ≡ writer.old.before }
    ensures tokens { OnOk result
        (writer.new.tokens ≡ writer.old.tokens ++ difference_tokens difference.now) }
{
    if let Some(difference) = difference {
        write_text(writer, "difference", difference)?;
    }
    Ok(())
}

/// The field with what isn't covered, where that was asked for.
fn write_lacking(writer: &mut Writer, lacking: &Option<Vec<String>>) -> Result<(), OutOfMemory>
    ensures before { writer.new.before ≡ writer.old.before }
    ensures tokens { OnOk result
        (writer.new.tokens ≡ writer.old.tokens ++ lacking_tokens lacking.now) }
{
    if let Some(lacking) = lacking {
        writer.key("notCovered")?;
        write_lines(writer, lacking)?;
    }
    Ok(())
}

/// A list of texts.
fn write_lines(writer: &mut Writer, lines: &[String]) -> Result<(), OutOfMemory>
    ensures before { writer.new.before ≡ writer.old.before }
    ensures tokens { OnOk result
        (writer.new.tokens ≡ writer.old.tokens ++ tree_tokens (texts_tree lines.now)) }
{
    writer.begin_array()?;
    for line in lines {
        writer.string(line)?;
    }
    writer.end_array()?;
    Ok(())
}

/// A field with a text.
fn write_text(writer: &mut Writer, name: &str, text: &str) -> Result<(), OutOfMemory>
    ensures before { writer.new.before ≡ writer.old.before }
    ensures tokens { OnOk result
        (writer.new.tokens ≡ writer.old.tokens ++ key name.now ∷ string text.now ∷ []) }
{
    writer.key(name)?;
    writer.string(text)?;
    Ok(())
}

/// A field with a number.
fn write_number(writer: &mut Writer, name: &str, n: u64) -> Result<(), OutOfMemory>
    ensures before { writer.new.before ≡ writer.old.before }
    ensures tokens { OnOk result
        (writer.new.tokens ≡ writer.old.tokens ++ key name.now ∷ number (decimal n) ∷ []) }
{
    writer.key(name)?;
    writer.u64(n)?;
    Ok(())
}
