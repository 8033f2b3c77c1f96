//! What stands for the shapes of a table, of which the last is kept.

ghost use Rattle.std.specs.Prelude.{◌≡◌, ◌<◌, ◌++◌, length, IfOk, OnOk};
ghost use Rattle.asl_records.specs.WritingNumbered.{IsReady};
ghost use Rattle.asl_tree.specs.View.{view};
ghost use Rattle.asl_tree.specs.Written.{tree_tokens, ReadsBack};
ghost use Rattle.asl_texts.specs.CertificateTokens.{IsKept, StaysKept, tree_at};

use asl_records::ShapeWriter;
use asl_tree::{OutOfMemory, Tree};
use json::Writer;

/// A shape's number, and the tree that stands for it.
#[derive(Drop)]
struct Spelling {
    number: usize,
    tree: Tree,
}

/// What stands for the shapes of a table. The tree that was written last is kept: often the input and the output of a
/// state have one shape, and so have neighbours in the order of the names.
#[derive(Drop)]
pub(crate) struct Spellings<'a> {
    shapes: ShapeWriter<'a>,
    last: Option<Spelling>,
}

impl<'a> Spellings<'a> {
    /// Nothing has been written yet.
    pub(crate) fn new(shapes: ShapeWriter<'a>) -> Spellings<'a>
        ensures shapes { result.shapes ≡ shapes.entry }
        ensures kept { IsKept result }
    {
        Spellings { shapes, last: None }
    }

    /// Writes what stands for the shape of that number.
    #[tactic(auto, unfolding(crate::specs::CertificateTokens::stands_for))]
    pub(crate) fn write(&mut self, writer: &mut Writer, number: usize) -> Result<(), OutOfMemory>
        requires ready { IsReady self.old.shapes }
        requires below { number < length self.old.shapes.shapes.now }
        requires kept { IsKept self.old }
        ensures before { writer.new.before ≡ writer.old.before }
        ensures tokens { OnOk result (writer.new.tokens
            ≡ writer.old.tokens ++ tree_tokens (tree_at self.old.shapes number)) }
        ensures reads_back { OnOk result (ReadsBack (tree_at self.old.shapes number)) }
        ensures kept { StaysKept self.old self.new }
    {
        if let Some(last) = &self.last {
            if last.number == number {
                return asl_tree::write(writer, &last.tree);
            }
        }
        let tree = self.shapes.refer(number)?;
        asl_tree::write(writer, &tree)?;
        self.last = Some(Spelling { number, tree });
        Ok(())
    }
}
