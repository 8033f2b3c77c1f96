//! The results of a SARIF log.
ghost use Rattle.std.specs.Prelude.{◌≡◌, ◌++◌, IfOk, OnOk, string_bytes};
ghost use Rattle.asl_model.specs.Tree.{AndTree, Array, NoTrees};
ghost use Rattle.asl_tree.specs.Written.{tree_tokens};
ghost use Rattle.asl_diagnostics.specs.Sarif.{index_tokens, location_tree, logical_trees, message_text, named_tokens, physical_tree, properties_tokens, result_tree, result_trees};

use crate::fields::{write_example, write_number, write_string};
use crate::rules::index_of;
use crate::sarif::write_one_text;
use crate::statement::sentence;
use crate::uris::uri_of;
use crate::{Diagnostic, Rule};
use asl_tree::{OutOfMemory, Tree};
use json::Writer;
use std::alloc::Global;

/// The list of the results.
pub(crate) fn write_results(
    alloc: Global,
    writer: &mut Writer,
    rules: &[&'static Rule],
    diagnostics: &[Diagnostic],
) -> Result<(), OutOfMemory>
    ensures before { writer.new.before ≡ writer.old.before }
    ensures tokens { OnOk result (writer.new.tokens ≡ writer.old.tokens
        ++ tree_tokens (Array (result_trees rules.now diagnostics.now))) }
{
    writer.begin_array()?;
    for diagnostic in diagnostics {
        write_result(alloc, writer, rules, diagnostic)?;
    }
    writer.end_array()?;
    Ok(())
}

/// The result of a diagnostic.
fn write_result(
    alloc: Global,
    writer: &mut Writer,
    rules: &[&'static Rule],
    diagnostic: &Diagnostic,
) -> Result<(), OutOfMemory>
    ensures before { writer.new.before ≡ writer.old.before }
    ensures tokens { OnOk result (writer.new.tokens
        ≡ writer.old.tokens ++ tree_tokens (result_tree rules.now diagnostic.now)) }
{
    let message = sentence(alloc, diagnostic)?;
    let message = message_text(alloc, &message)?;
    writer.begin_object()?;
    write_string(writer, "level", diagnostic.severity.name())?;
    writer.key("locations")?;
    write_locations(alloc, writer, diagnostic)?;
    write_one_text(writer, "message", "text", &message)?;
    write_properties(writer, &diagnostic.example)?;
    write_string(writer, "ruleId", diagnostic.rule.id)?;
    write_index(writer, index_of(rules, diagnostic.rule.id))?;
    writer.end_object()?;
    Ok(())
}

/// The list of the one location.
fn write_locations(
    alloc: Global,
    writer: &mut Writer,
    diagnostic: &Diagnostic,
) -> Result<(), OutOfMemory>
    ensures before { writer.new.before ≡ writer.old.before }
    ensures tokens { OnOk result (writer.new.tokens ≡ writer.old.tokens
        ++ tree_tokens (Array (AndTree (location_tree diagnostic.now) NoTrees))) }
{
    writer.begin_array()?;
    write_location(alloc, writer, diagnostic)?;
    writer.end_array()?;
    Ok(())
}

/// The place of a diagnostic: its file and region, and the state and the field.
fn write_location(
    alloc: Global,
    writer: &mut Writer,
    diagnostic: &Diagnostic,
) -> Result<(), OutOfMemory>
    ensures before { writer.new.before ≡ writer.old.before }
    ensures tokens { OnOk result
        (writer.new.tokens ≡ writer.old.tokens ++ tree_tokens (location_tree diagnostic.now)) }
{
    writer.begin_object()?;
    writer.key("logicalLocations")?;
    write_logical(writer, diagnostic)?;
    writer.key("physicalLocation")?;
    write_physical(alloc, writer, diagnostic)?;
    writer.end_object()?;
    Ok(())
}

/// The list of the state and the field, where there are any.
fn write_logical(writer: &mut Writer, diagnostic: &Diagnostic) -> Result<(), OutOfMemory>
    ensures before { writer.new.before ≡ writer.old.before }
    ensures tokens { OnOk result (writer.new.tokens
        ≡ writer.old.tokens ++ tree_tokens (Array (logical_trees diagnostic.now))) }
{
    writer.begin_array()?;
    write_named(writer, "object", &diagnostic.state)?;
    write_named(writer, "property", &diagnostic.field)?;
    writer.end_array()?;
    Ok(())
}

/// A logical location of that kind, where it has a name.
fn write_named(writer: &mut Writer, kind: &str, name: &Option<String>) -> Result<(), OutOfMemory>
    ensures before { writer.new.before ≡ writer.old.before }
    ensures tokens { OnOk result
        (writer.new.tokens ≡ writer.old.tokens ++ named_tokens kind.now name.now) }
{
    if let Some(name) = name {
        writer.begin_object()?;
        write_string(writer, "kind", kind)?;
        write_string(writer, "name", name)?;
        writer.end_object()?;
    }
    Ok(())
}

/// The file and the region, which has a beginning alone.
fn write_physical(
    alloc: Global,
    writer: &mut Writer,
    diagnostic: &Diagnostic,
) -> Result<(), OutOfMemory>
    ensures before { writer.new.before ≡ writer.old.before }
    ensures tokens { OnOk result
        (writer.new.tokens ≡ writer.old.tokens ++ tree_tokens (physical_tree diagnostic.now)) }
{
    let uri = uri_of(alloc, &diagnostic.file)?;
    writer.begin_object()?;
    write_one_text(writer, "artifactLocation", "uri", &uri)?;
    writer.key("region")?;
    writer.begin_object()?;
    write_number(writer, "startColumn", diagnostic.place.column)?;
    write_number(writer, "startLine", diagnostic.place.line)?;
    writer.end_object()?;
    writer.end_object()?;
    Ok(())
}

/// The field `properties` with the example, where there is one.
fn write_properties(writer: &mut Writer, example: &Option<Tree>) -> Result<(), OutOfMemory>
    ensures before { writer.new.before ≡ writer.old.before }
    ensures tokens { OnOk result
        (writer.new.tokens ≡ writer.old.tokens ++ properties_tokens example.now) }
{
    if example.is_some() {
        writer.key("properties")?;
        writer.begin_object()?;
        write_example(writer, example)?;
        writer.end_object()?;
    }
    Ok(())
}

/// The field `ruleIndex`, where there is such a rule.
fn write_index(writer: &mut Writer, index: Option<usize>) -> Result<(), OutOfMemory>
    ensures before { writer.new.before ≡ writer.old.before }
    ensures tokens { OnOk result (writer.new.tokens ≡ writer.old.tokens ++ index_tokens index) }
{
    if let Some(index) = index {
        write_number(writer, "ruleIndex", index)?;
    }
    Ok(())
}

/// A text as that of a message, in which a brace that stands for itself is doubled.
fn message_text(alloc: Global, plain: &str) -> Result<String, OutOfMemory>
    ensures { IfOk result (λ text. string_bytes text ≡ message_text plain.now) }
{
    let mut text = String::with_capacity(alloc, plain.len())?;
    for c in plain.chars() {
        if c == '{' || c == '}' {
            text.push(c)?;
        }
        text.push(c)?;
    }
    Ok(text)
}
