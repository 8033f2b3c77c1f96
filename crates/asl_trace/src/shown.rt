//! What a line of a trace shows, as compact JSON.

ghost use Rattle.std.specs.Prelude.{◌≡◌, ◌++◌, IfOk, OnOk};
ghost use Rattle.asl_model.specs.Json.{compact_text};
ghost use Rattle.asl_tree.specs.Written.{tree_tokens};
ghost use Rattle.asl_trace.specs.Shown.{place_tree, shown_tree};

use asl_run::Datum;
use asl_tree::{OutOfMemory, write};
use json::Writer;
use std::alloc::Global;

/// How many bytes a text has room for before it grows.
const TEXT_ROOM: usize = 64;

/// What a line shows behind a text that is the same in each line of its kind.
#[derive(Clone, Copy)]
pub(crate) enum Shown<'e, 'm> {
    Text(&'e str),
    /// The name of a state.
    Name(&'m str),
    Number(usize),
    /// The numbers of the children on the way.
    Place(&'e [usize]),
    Datum(&'e Datum),
}

/// The compact text of what is shown.
pub(crate) fn text_of(alloc: Global, shown: Shown<'_, '_>) -> Result<Vec<u8>, OutOfMemory>
    ensures { IfOk result (λ text. text.items ≡ compact_text (shown_tree shown.entry)) }
{
    let mut writer = Writer::new(Vec::with_capacity(alloc, TEXT_ROOM)?);
    put(&mut writer, shown)?;
    Ok(writer.into_inner())
}

/// Writes what is shown.
fn put(writer: &mut Writer, shown: Shown<'_, '_>) -> Result<(), OutOfMemory>
    ensures before { writer.new.before ≡ writer.old.before }
    ensures tokens { OnOk result (writer.new.tokens
        ≡ writer.old.tokens ++ tree_tokens (shown_tree shown.entry)) }
{
    match shown {
        Shown::Text(text) => Ok(writer.string(text)?),
        Shown::Name(name) => Ok(writer.string(name)?),
        Shown::Number(number) => Ok(writer.u64(number as u64)?),
        Shown::Place(at) => put_place(writer, at),
        Shown::Datum(datum) => write(writer, datum),
    }
}

/// Writes the list of the numbers of a place.
fn put_place(writer: &mut Writer, at: &[usize]) -> Result<(), OutOfMemory>
    ensures before { writer.new.before ≡ writer.old.before }
    ensures tokens { OnOk result (writer.new.tokens
        ≡ writer.old.tokens ++ tree_tokens (place_tree at.now)) }
{
    writer.begin_array()?;
    for number in at {
        writer.u64(*number as u64)?;
    }
    Ok(writer.end_array()?)
}
