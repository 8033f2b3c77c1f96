//! The output's shape: read into the table, or kept as a tree where it may refer to shapes that are listed behind it.
ghost use Rattle.std.specs.Prelude.{◌<◌, length, IfOk, OnOk};
ghost use Rattle.asl_model.specs.Tree.{Tree as ModelTree};
ghost use Rattle.asl_numbered.specs.Reading.{IsRead};
ghost use Rattle.asl_numbered.specs.Expansion.{Keeps};
ghost use Rattle.asl_numbered.specs.References.{shapes_given};
ghost use Rattle.asl_records.specs.Listed.{AreInTable};
ghost use Rattle.asl_streams.specs.Shaped.{IsOutputOf, ReadsOutput};

use crate::reader::Reader;
use crate::shapes::{next_shape, next_spelling};
use crate::spellings::read_tree;
use crate::unread::Unread;
use asl_numbered::Shapes;
use asl_tree::Tree;
use json::{Reader as Tokens, Token};

/// What has been read of the output's shape.
#[derive(Drop)]
pub(crate) enum Output {
    /// The number of the shape.
    Number(usize),
    /// What spells it, in which references may mean shapes that are listed behind it.
    Spelled(Tree),
}

impl Output {
    /// The number of the shape, where references mean those that are listed.
    pub(crate) fn number(self, reader: Reader<'_>, shapes: &mut Shapes) -> Result<usize, Unread>
        requires listed { AreInTable shapes.old reader.listed }
        ensures number { (t : ModelTree) → IsOutputOf reader.entry.several
            (shapes_given shapes.old reader.entry.listed) shapes.old t self
            → IfOk result (IsRead reader.entry.several
            (shapes_given shapes.old reader.entry.listed) t shapes.new) }
        ensures keeps { Keeps shapes.old shapes.new }
    {
        match self {
            Output::Number(number) => Ok(number),
            Output::Spelled(tree) => read_tree(reader, shapes, &tree),
        }
    }
}

/// What is read of the output's shape, which the next tokens spell, with at most so many levels. Where no shapes are listed yet,
/// one without properties is kept as a tree; properties in which there are references aren't read.
pub(crate) fn next_output(
    reader: Reader<'_>,
    tokens: &mut Tokens<'_>,
    levels: usize,
    shapes: &mut Shapes,
) -> Result<Output, Unread>
    requires listed { AreInTable shapes.old reader.listed }
    ensures output { IfOk result (ReadsOutput reader.entry.several
        (shapes_given shapes.old reader.entry.listed) levels tokens.old tokens.new shapes.new) }
    ensures shorter { OnOk result (length tokens.new < length tokens.old) }
    ensures keeps { Keeps shapes.old shapes.new }
{
    if reader.listed.is_some() {
        return Ok(Output::Number(next_shape(reader, tokens, levels, shapes)?));
    }
    match tokens.next() {
        Some(Token::Bool(all)) => Ok(Output::Spelled(Tree::Bool(all))),
        Some(Token::BeginObject) => {
            if levels == 0 {
                return Err(Unread::Whole);
            }
            let spelling = next_spelling(reader, tokens, levels - 1, shapes)?;
            spelling.output(reader, shapes)
        }
        _ => Err(Unread::Whole),
    }
}
