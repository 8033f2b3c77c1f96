//! What the paths of templates and calls name, by number.
ghost use Rattle.std.specs.Prelude.{◌≡◌, ◌<◌, IfOk, IfSome, length, option_map};
ghost use Rattle.asl_flow.specs.Items.{item_view};
ghost use Rattle.asl_flow.specs.Sources.{input_of, item_of, IsWithin, IsPart};
ghost use Rattle.asl_model.specs.Intrinsic.{InInput, ItemIndex, InItem};
ghost use Rattle.asl_model.specs.ShapeFlow.{found, or_missing, reference_shape};
ghost use Rattle.asl_numbered.specs.Expansion.{shape_at, Keeps};
ghost use Rattle.asl_shape.specs.View.{view};

use crate::doubts::Cause;
use asl_numbered::{Node, Shapes};
use asl_path::RefPath;
use asl_shape::Shape;
use asl_shape_paths::find_at;
use asl_shape_paths::numbers::put_node;
use asl_tree::OutOfMemory;

/// The number of the shape of what a path or a call gives, or why there may be no value.
pub(crate) type Part<'p> = Result<usize, Cause<'p>>;

/// What paths go into.
#[derive(Clone, Copy)]
pub(crate) struct Sources {
    /// The number of the shape of the template's input.
    pub(crate) input: usize,
    /// That of the shape of the item, where there is one.
    pub(crate) item: Option<usize>,
}

impl Sources {
    /// The numbers of these two shapes.
    pub(crate) fn add(
        shapes: &mut Shapes,
        input: &Shape,
        item: Option<&Shape>,
    ) -> Result<Sources, OutOfMemory>
        ensures within { IfOk result (IsWithin (length shapes.new)) }
        ensures input { IfOk result (λ s. input_of shapes.new s ≡ view input.now) }
        ensures item { IfOk result (λ s. item_of shapes.new s ≡ item_view item.entry) }
    {
        let item = add_item(shapes, item)?;
        let input = shapes.add(input)?;
        Ok(Sources { input, item })
    }

    /// The number of the shape of what a path names in the input.
    pub(crate) fn in_input<'p>(
        self,
        shapes: &mut Shapes,
        path: &'p RefPath,
    ) -> Result<Part<'p>, OutOfMemory>
        requires within { IsWithin (length shapes.old) self }
        ensures part { IfOk result
            (IsPart shapes.new (reference_shape (InInput path.now) (input_of shapes.old self)
            (item_of shapes.old self))) }
        ensures keeps { Keeps shapes.old shapes.new }
    {
        named_part(shapes, self.input, path)
    }

    /// The number of the shape of the item's number.
    #[tactic(auto, using(asl_numbered::proofs::Expansions::simple_refers, asl_numbered::specs::Laws::keeps_same))]
    pub(crate) fn item_index<'p>(self, shapes: &mut Shapes) -> Result<Part<'p>, OutOfMemory>
        ensures part { IfOk result
            (IsPart shapes.new (reference_shape ItemIndex (input_of shapes.old self)
            (item_of shapes.old self))) }
        ensures keeps { Keeps shapes.old shapes.new }
    {
        match self.item {
            Some(_) => Ok(Ok(put_node(shapes, Node::Int)?)),
            None => Ok(Err(Cause::MayFail)),
        }
    }

    /// The number of the shape of what a path names in the item.
    #[tactic(auto, using(asl_numbered::specs::Laws::keeps_same))]
    pub(crate) fn in_item<'p>(
        self,
        shapes: &mut Shapes,
        path: &'p RefPath,
    ) -> Result<Part<'p>, OutOfMemory>
        requires within { IsWithin (length shapes.old) self }
        ensures part { IfOk result
            (IsPart shapes.new (reference_shape (InItem path.now) (input_of shapes.old self)
            (item_of shapes.old self))) }
        ensures keeps { Keeps shapes.old shapes.new }
    {
        let Some(item) = self.item else {
            return Ok(Err(Cause::MayFail));
        };
        named_part(shapes, item, path)
    }
}

/// The number of the item's shape, where there is one.
fn add_item(shapes: &mut Shapes, item: Option<&Shape>) -> Result<Option<usize>, OutOfMemory>
    ensures within { IfOk result (λ r. IfSome r (λ n. n < length shapes.new)) }
    ensures shape { IfOk result (λ r. option_map (shape_at shapes.new) r ≡ item_view item.entry) }
{
    match item {
        Some(item) => Ok(Some(shapes.add(item)?)),
        None => Ok(None),
    }
}

/// The number of the shape of what a path names in the trees of a shape.
fn named_part<'p>(
    shapes: &mut Shapes,
    number: usize,
    path: &'p RefPath,
) -> Result<Part<'p>, OutOfMemory>
    requires number { number < length shapes.old }
    ensures part { IfOk result
        (IsPart shapes.new (or_missing (found path.now (shape_at shapes.old number)))) }
    ensures keeps { Keeps shapes.old shapes.new }
{
    match find_at(shapes, number, path)? {
        Ok(part) => Ok(Ok(part)),
        Err(doubtful) => Ok(Err(Cause::MayBeMissing(doubtful))),
    }
}
