//! A log of diagnostics in SARIF (Static Analysis Results Interchange Format, version 2.1.0).
ghost use Rattle.std.specs.Prelude.{◌≡◌, ◌++◌, ◌∷◌, IfOk, OnOk, string_bytes};
ghost use Rattle.json.specs.Token.{key};
ghost use Rattle.asl_model.specs.Json.{compact_text};
ghost use Rattle.asl_model.specs.Tree.{AndTree, Array, NoTrees};
ghost use Rattle.asl_tree.specs.Written.{tree_tokens};
ghost use Rattle.asl_diagnostics.specs.Sarif.{log_tree, one_text, rule_tree, rule_trees, run_tree, sarif_tree, tool_tree};

use crate::fields::write_string;
use crate::rules::rules_in;
use crate::sarif_results::write_results;
use crate::{Diagnostic, Rule};
use asl_tree::OutOfMemory;
use json::Writer;
use std::alloc::Global;

const SCHEMA: &str = "https://json.schemastore.org/sarif-2.1.0.json";

/// The log, a JSON object without spaces and without a line break behind it, the names of each object in byte order: one
/// run, with the rules that occur and a result for each diagnostic, in their order.
///
/// Only rules that occur are listed, so that a log is about as long as what it tells; `ruleIndex` leads to them. The text
/// of a message is `STATE FIELD RULE: MESSAGE` with each brace doubled, as the standard wants it; an example stands as a
/// JSON value in the result's `properties`. A state and its field are logical locations. Paths are URIs, relative where the
/// path is, and a region has its beginning alone. There are no fingerprints: the action that uploads a log makes them.
pub fn sarif_text(alloc: Global, diagnostics: &[Diagnostic]) -> Result<String, OutOfMemory>
    ensures { IfOk result
        (λ text. string_bytes text ≡ compact_text (sarif_tree diagnostics.now)) }
{
    let rules = rules_in(alloc, diagnostics)?;
    let mut writer = Writer::new(Vec::new(alloc));
    write_log(alloc, &mut writer, &rules, diagnostics)?;
    let Ok(text) = String::from_utf8(writer.into_inner()) else {
        unreachable!()
    };
    Ok(text)
}

/// The log.
fn write_log(
    alloc: Global,
    writer: &mut Writer,
    rules: &[&'static Rule],
    diagnostics: &[Diagnostic],
) -> Result<(), OutOfMemory>
    ensures before { writer.new.before ≡ writer.old.before }
    ensures tokens { OnOk result (writer.new.tokens
        ≡ writer.old.tokens ++ tree_tokens (log_tree rules.now diagnostics.now)) }
{
    writer.begin_object()?;
    write_string(writer, "$schema", SCHEMA)?;
    writer.key("runs")?;
    write_runs(alloc, writer, rules, diagnostics)?;
    write_string(writer, "version", "2.1.0")?;
    writer.end_object()?;
    Ok(())
}

/// The list of the one run.
fn write_runs(
    alloc: Global,
    writer: &mut Writer,
    rules: &[&'static Rule],
    diagnostics: &[Diagnostic],
) -> Result<(), OutOfMemory>
    ensures before { writer.new.before ≡ writer.old.before }
    ensures tokens { OnOk result (writer.new.tokens ≡ writer.old.tokens
        ++ tree_tokens (Array (AndTree (run_tree rules.now diagnostics.now) NoTrees))) }
{
    writer.begin_array()?;
    write_run(alloc, writer, rules, diagnostics)?;
    writer.end_array()?;
    Ok(())
}

/// The run.
fn write_run(
    alloc: Global,
    writer: &mut Writer,
    rules: &[&'static Rule],
    diagnostics: &[Diagnostic],
) -> Result<(), OutOfMemory>
    ensures before { writer.new.before ≡ writer.old.before }
    ensures tokens { OnOk result (writer.new.tokens
        ≡ writer.old.tokens ++ tree_tokens (run_tree rules.now diagnostics.now)) }
{
    writer.begin_object()?;
    write_string(writer, "columnKind", "unicodeCodePoints")?;
    writer.key("results")?;
    write_results(alloc, writer, rules, diagnostics)?;
    writer.key("tool")?;
    write_tool(writer, rules)?;
    writer.end_object()?;
    Ok(())
}

/// The tool, with its driver.
fn write_tool(writer: &mut Writer, rules: &[&'static Rule]) -> Result<(), OutOfMemory>
    ensures before { writer.new.before ≡ writer.old.before }
    ensures tokens { OnOk result
        (writer.new.tokens ≡ writer.old.tokens ++ tree_tokens (tool_tree rules.now)) }
{
    writer.begin_object()?;
    writer.key("driver")?;
    writer.begin_object()?;
    write_string(writer, "name", "asl")?;
    writer.key("rules")?;
    write_rules(writer, rules)?;
    writer.end_object()?;
    writer.end_object()?;
    Ok(())
}

/// The list of the rules.
fn write_rules(writer: &mut Writer, rules: &[&'static Rule]) -> Result<(), OutOfMemory>
    ensures before { writer.new.before ≡ writer.old.before }
    ensures tokens { OnOk result
        (writer.new.tokens ≡ writer.old.tokens ++ tree_tokens (Array (rule_trees rules.now))) }
{
    writer.begin_array()?;
    for rule in rules {
        write_rule(writer, rule)?;
    }
    writer.end_array()?;
    Ok(())
}

/// A rule.
fn write_rule(writer: &mut Writer, rule: &Rule) -> Result<(), OutOfMemory>
    ensures before { writer.new.before ≡ writer.old.before }
    ensures tokens { OnOk result
        (writer.new.tokens ≡ writer.old.tokens ++ tree_tokens (rule_tree rule.now)) }
{
    writer.begin_object()?;
    write_one_text(
        writer,
        "defaultConfiguration",
        "level",
        rule.severity.name(),
    )?;
    write_one_text(writer, "fullDescription", "text", rule.full)?;
    write_one_text(writer, "help", "text", rule.help)?;
    write_string(writer, "id", rule.id)?;
    write_one_text(writer, "shortDescription", "text", rule.short)?;
    writer.end_object()?;
    Ok(())
}

/// A field with an object of one text.
pub(crate) fn write_one_text(
    writer: &mut Writer,
    field: &str,
    name: &str,
    text: &str,
) -> Result<(), OutOfMemory>
    ensures before { writer.new.before ≡ writer.old.before }
    ensures tokens { OnOk result (writer.new.tokens
        ≡ writer.old.tokens ++ key field.now ∷ tree_tokens (one_text name.now text.now)) }
{
    writer.key(field)?;
    writer.begin_object()?;
    write_string(writer, name, text)?;
    writer.end_object()?;
    Ok(())
}
