//! What a diagnostic says, in a line.
ghost use Rattle.std.specs.Prelude.{◌≡◌, ◌++◌, IfOk, OnOk, option_map, string_bytes};
ghost use Rattle.asl_model.specs.Printed.{in_line, quoted_name, example_text};
ghost use Rattle.asl_tree.specs.View.{view};
ghost use Rattle.asl_diagnostics.specs.Statement.{field_text, sentence, state_text, statement};

use crate::Diagnostic;
use asl_tree::{OutOfMemory, Tree, in_line, quoted, to_text};
use std::alloc::Global;

/// `STATE FIELD RULE: MESSAGE EXAMPLE`, without what isn't there.
pub(crate) fn statement(alloc: Global, diagnostic: &Diagnostic) -> Result<String, OutOfMemory>
    ensures { IfOk result (λ text. string_bytes text ≡ statement diagnostic.now) }
{
    let mut text = sentence(alloc, diagnostic)?;
    push_example(alloc, &mut text, &diagnostic.example)?;
    Ok(text)
}

/// The same without the example.
pub(crate) fn sentence(alloc: Global, diagnostic: &Diagnostic) -> Result<String, OutOfMemory>
    ensures { IfOk result (λ text. string_bytes text ≡ sentence diagnostic.now) }
{
    let mut text = String::new(alloc);
    push_state(alloc, &mut text, &diagnostic.state)?;
    push_field(alloc, &mut text, &diagnostic.field)?;
    text.push_str(diagnostic.rule.id)?;
    text.push_str(": ")?;
    let message = in_line(alloc, &diagnostic.message)?;
    text.push_str(&message)?;
    Ok(text)
}

/// Puts the state's name as a JSON text and a space behind the text, where there is one.
fn push_state(alloc: Global, text: &mut String, state: &Option<String>) -> Result<(), OutOfMemory>
    ensures { OnOk result (string_bytes text.new ≡ string_bytes text.old ++ state_text state.now) }
{
    if let Some(state) = state {
        let state = quoted(alloc, state)?;
        text.push_str(&state)?;
        text.push_str(" ")?;
    }
    Ok(())
}

/// So the field.
fn push_field(alloc: Global, text: &mut String, field: &Option<String>) -> Result<(), OutOfMemory>
    ensures { OnOk result (string_bytes text.new ≡ string_bytes text.old ++ field_text field.now) }
{
    if let Some(field) = field {
        let field = in_line(alloc, field)?;
        text.push_str(&field)?;
        text.push_str(" ")?;
    }
    Ok(())
}

/// Puts a space and the example as a JSON text behind the text, where there is one.
fn push_example(alloc: Global, text: &mut String, example: &Option<Tree>) -> Result<(), OutOfMemory>
    ensures { OnOk result
        (string_bytes text.new
        ≡ string_bytes text.old ++ example_text (option_map view example.now)) }
{
    if let Some(tree) = example {
        let written = to_text(alloc, tree)?;
        text.push_str(" ")?;
        text.push_str(&written)?;
    }
    Ok(())
}
