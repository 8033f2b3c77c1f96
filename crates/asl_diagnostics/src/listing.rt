//! A list of diagnostics as JSON.
ghost use Rattle.std.specs.Prelude.{◌≡◌, ◌++◌, IfOk, OnOk, string_bytes};
ghost use Rattle.asl_model.specs.Json.{compact_text};
ghost use Rattle.asl_model.specs.Tree.{Array};
ghost use Rattle.asl_tree.specs.Written.{tree_tokens};
ghost use Rattle.asl_diagnostics.specs.Listed.{diagnostic_tree, diagnostic_trees};

use crate::Diagnostic;
use crate::fields::{write_example, write_number, write_string, write_text};
use asl_tree::OutOfMemory;
use json::Writer;
use std::alloc::Global;

/// A JSON list with an object for each diagnostic, in their order, without spaces and without a line break behind it. An
/// object has `column` and `line` (numbers from 1, columns in characters), `file` (the path), `message`, `rule` (its name),
/// `severity` (`error` or `warning`), and where the diagnostic has them `state`, `field` and `example` (a JSON value);
/// the names stand in byte order.
pub fn json_text(alloc: Global, diagnostics: &[Diagnostic]) -> Result<String, OutOfMemory>
    ensures { IfOk result (λ text. string_bytes text
        ≡ compact_text (Array (diagnostic_trees diagnostics.now))) }
{
    let mut writer = Writer::new(Vec::new(alloc));
    write_list(&mut writer, diagnostics)?;
    let Ok(text) = String::from_utf8(writer.into_inner()) else {
        unreachable!()
    };
    Ok(text)
}

/// The list.
fn write_list(writer: &mut Writer, diagnostics: &[Diagnostic]) -> Result<(), OutOfMemory>
    ensures before { writer.new.before ≡ writer.old.before }
    ensures tokens { OnOk result (writer.new.tokens
        ≡ writer.old.tokens ++ tree_tokens (Array (diagnostic_trees diagnostics.now))) }
{
    writer.begin_array()?;
    for diagnostic in diagnostics {
        write_diagnostic(writer, diagnostic)?;
    }
    writer.end_array()?;
    Ok(())
}

/// The object of a diagnostic.
fn write_diagnostic(writer: &mut Writer, diagnostic: &Diagnostic) -> Result<(), OutOfMemory>
    ensures before { writer.new.before ≡ writer.old.before }
    ensures tokens { OnOk result (writer.new.tokens
        ≡ writer.old.tokens ++ tree_tokens (diagnostic_tree diagnostic.now)) }
{
    writer.begin_object()?;
    write_number(writer, "column", diagnostic.place.column)?;
    write_example(writer, &diagnostic.example)?;
    write_text(writer, "field", &diagnostic.field)?;
    write_string(writer, "file", &diagnostic.file)?;
    write_number(writer, "line", diagnostic.place.line)?;
    write_string(writer, "message", &diagnostic.message)?;
    write_string(writer, "rule", diagnostic.rule.id)?;
    write_string(writer, "severity", diagnostic.severity.name())?;
    write_text(writer, "state", &diagnostic.state)?;
    writer.end_object()?;
    Ok(())
}
