//! The entries of a certificate's states, and the shapes that it lists, read from tokens one after another.
ghost use Rattle.std.specs.Prelude.{◌<◌, length, IfOk, OnOk};
ghost use Rattle.asl_numbered.specs.Expansion.{Keeps};
ghost use Rattle.asl_records.specs.Listed.{AreInTable};
ghost use Rattle.asl_streams.specs.Streamed.{ReadsList, ReadsStates};

use crate::reader::Reader;
use crate::shapes::next_shape;
use crate::states::next_state;
use crate::unread::Unread;
use asl_numbered::Shapes;
use asl_records::StateNumbers;
use json::Reader as Tokens;
use std::alloc::Global;
use std::collections::BTreeMap;

/// The shapes of the states up to the end of the object, with at most so many levels.
pub(crate) fn next_states(
    reader: Reader<'_>,
    tokens: &mut Tokens<'_>,
    levels: usize,
    shapes: &mut Shapes,
) -> Result<BTreeMap<String, StateNumbers>, Unread>
    requires listed { AreInTable shapes.old reader.listed }
    ensures states { IfOk result (λ states. ReadsStates reader.entry.several reader.entry.listed
        shapes.old shapes.new levels tokens.old tokens.new states.entries) }
    ensures shorter { OnOk result (length tokens.new < length tokens.old) }
    ensures keeps { Keeps shapes.old shapes.new }
{
    let mut states = BTreeMap::new(reader.alloc);
    'states: loop {
        match tokens.next_key() {
            Ok(Some(name)) => {
                let name = String::from_str(reader.alloc, name)?;
                let state = next_state(reader, tokens, levels, shapes)?;
                drop(states.insert(name, state)?);
            }
            Ok(None) => return Ok(states),
            Err(_) => return Err(Unread::Whole),
        }
    }
}

/// The numbers of the listed shapes up to the end of the array, with at most so many levels.
pub(crate) fn next_listed(
    alloc: Global,
    several: bool,
    tokens: &mut Tokens<'_>,
    levels: usize,
    shapes: &mut Shapes,
) -> Result<Vec<usize>, Unread>
    ensures listed { IfOk result (λ numbers. ReadsList several shapes.new levels
        tokens.old tokens.new numbers.items) }
    ensures shorter { OnOk result (length tokens.new < length tokens.old) }
    ensures keeps { Keeps shapes.old shapes.new }
{
    let mut numbers = Vec::new(alloc);
    'listed: while !tokens.take_end_array() {
        let record = Reader {
            alloc,
            several,
            listed: Some(&numbers),
        };
        let number = next_shape(record, tokens, levels, shapes)?;
        numbers.push(number)?;
    }
    Ok(numbers)
}
