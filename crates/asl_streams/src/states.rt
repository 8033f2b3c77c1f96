//! The entry of a state, its shapes read from tokens into a table one after another.
ghost use Rattle.std.specs.Prelude.{◌<◌, codes, length, IfOk, OnOk};
ghost use Rattle.asl_numbered.specs.Expansion.{Keeps};
ghost use Rattle.asl_numbered.specs.References.{shapes_given};
ghost use Rattle.asl_records.specs.Listed.{AreInTable};
ghost use Rattle.asl_streams.specs.Entered.{AreTheirs, ReadsPart, ReadsParts, ReadsState};

use crate::reader::Reader;
use crate::shapes::{next_shape, next_shapes};
use crate::unread::Unread;
use asl_numbered::Shapes;
use asl_records::StateNumbers;
use json::{Reader as Tokens, Token};
use std::alloc::Global;

/// The fields of a state's entry that have been read.
#[derive(Drop)]
pub(crate) struct Entry {
    pub(crate) input: Option<usize>,
    pub(crate) output: Option<usize>,
    pub(crate) branches: Option<Vec<usize>>,
    pub(crate) item: Option<usize>,
}

impl Entry {
    /// Reads the field of that name, with at most so many levels; the last one of a name stays.
    fn read_next(
        &mut self,
        reader: Reader<'_>,
        name: &str,
        tokens: &mut Tokens<'_>,
        levels: usize,
        shapes: &mut Shapes,
    ) -> Result<(), Unread>
        requires listed { AreInTable shapes.old reader.listed }
        ensures read { IfOk result (λ _. ReadsPart reader.entry.several
            (shapes_given shapes.old reader.entry.listed) levels name.now shapes.old shapes.new
            tokens.old tokens.new self.old self.new) }
        ensures shorter { OnOk result (length tokens.new < length tokens.old) }
        ensures keeps { Keeps shapes.old shapes.new }
    {
        match name {
            "input" => self.input = Some(next_shape(reader, tokens, levels, shapes)?),
            "output" => self.output = Some(next_shape(reader, tokens, levels, shapes)?),
            "branches" => self.branches = Some(next_shapes(reader, tokens, levels, shapes)?),
            "item" => self.item = Some(next_shape(reader, tokens, levels, shapes)?),
            _ => return Err(Unread::Whole),
        }
        Ok(())
    }

    /// The numbers of the state's shapes, where there are those that each state has.
    fn numbers(self, alloc: Global) -> Result<StateNumbers, Unread>
        ensures theirs { IfOk result (AreTheirs self) }
    {
        let (Some(input), Some(output)) = (self.input, self.output) else {
            return Err(Unread::Whole);
        };
        let branches = self.branches.unwrap_or(Vec::new(alloc));
        Ok(StateNumbers {
            input,
            output,
            branches,
            item: self.item,
        })
    }
}

/// The numbers of the shapes in the entry of a state that the next tokens spell, with at most so many levels.
pub(crate) fn next_state(
    reader: Reader<'_>,
    tokens: &mut Tokens<'_>,
    levels: usize,
    shapes: &mut Shapes,
) -> Result<StateNumbers, Unread>
    requires listed { AreInTable shapes.old reader.listed }
    ensures state { IfOk result (ReadsState reader.entry.several
        (shapes_given shapes.old reader.entry.listed) levels shapes.new tokens.old tokens.new) }
    ensures shorter { OnOk result (length tokens.new < length tokens.old) }
    ensures keeps { Keeps shapes.old shapes.new }
{
    let Some(Token::BeginObject) = tokens.next() else {
        return Err(Unread::Whole);
    };
    if levels == 0 {
        return Err(Unread::Whole);
    }
    next_parts(reader, tokens, levels - 1, shapes)
}

/// The numbers of the shapes in the fields up to the end of the object, with at most so many levels.
fn next_parts(
    reader: Reader<'_>,
    tokens: &mut Tokens<'_>,
    levels: usize,
    shapes: &mut Shapes,
) -> Result<StateNumbers, Unread>
    requires listed { AreInTable shapes.old reader.listed }
    ensures state { IfOk result (ReadsParts reader.entry.several
        (shapes_given shapes.old reader.entry.listed) levels shapes.new tokens.old tokens.new) }
    ensures shorter { OnOk result (length tokens.new < length tokens.old) }
    ensures keeps { Keeps shapes.old shapes.new }
{
    let mut entry = Entry {
        input: None,
        output: None,
        branches: None,
        item: None,
    };
    'parts: loop {
        match tokens.next_key() {
            Ok(Some(name)) => entry.read_next(reader, name, tokens, levels, shapes)?,
            Ok(None) => return entry.numbers(reader.alloc),
            Err(_) => return Err(Unread::Whole),
        }
    }
}
