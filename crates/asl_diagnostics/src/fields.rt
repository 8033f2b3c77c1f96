//! Fields of JSON objects, written one after another.
ghost use Rattle.std.specs.Prelude.{◌≡◌, ◌++◌, ◌∷◌, [], OnOk, decimal};
ghost use Rattle.json.specs.Token.{key, number, string};
ghost use Rattle.asl_diagnostics.specs.Listed.{example_tokens, text_tokens};

use asl_tree::{OutOfMemory, Tree, write};
use json::Writer;

/// A field with a text.
pub(crate) fn write_string(writer: &mut Writer, name: &str, text: &str) -> Result<(), OutOfMemory>
    ensures before { writer.new.before ≡ writer.old.before }
    ensures tokens { OnOk result
        (writer.new.tokens ≡ writer.old.tokens ++ key name.now ∷ string text.now ∷ []) }
{
    writer.key(name)?;
    writer.string(text)?;
    Ok(())
}

/// A field with a number.
pub(crate) fn write_number(writer: &mut Writer, name: &str, n: usize) -> Result<(), OutOfMemory>
    ensures before { writer.new.before ≡ writer.old.before }
    ensures tokens { OnOk result
        (writer.new.tokens ≡ writer.old.tokens ++ key name.now ∷ number (decimal n) ∷ []) }
{
    writer.key(name)?;
    writer.u64(n as u64)?;
    Ok(())
}

/// A field with a text, where there is one.
pub(crate) fn write_text(
    writer: &mut Writer,
    name: &str,
    text: &Option<String>,
) -> Result<(), OutOfMemory>
    ensures before { writer.new.before ≡ writer.old.before }
    ensures tokens { OnOk result
        (writer.new.tokens ≡ writer.old.tokens ++ text_tokens name.now text.now) }
{
    if let Some(text) = text {
        write_string(writer, name, text)?;
    }
    Ok(())
}

/// The field `example`, where there is one.
pub(crate) fn write_example(writer: &mut Writer, example: &Option<Tree>) -> Result<(), OutOfMemory>
    ensures before { writer.new.before ≡ writer.old.before }
    ensures tokens { OnOk result
        (writer.new.tokens ≡ writer.old.tokens ++ example_tokens example.now) }
{
    if let Some(tree) = example {
        writer.key("example")?;
        write(writer, tree)?;
    }
    Ok(())
}
