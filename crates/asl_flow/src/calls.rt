//! The shapes of calls' values, by number.
ghost use Rattle.std.specs.Prelude.{◌≡◌, ◌<◌, ◌||◌, IfOk, Some, option_map, length, not};
ghost use Rattle.asl_flow.specs.CallAnswer.{Answers, AnswersAll};
ghost use Rattle.asl_flow.specs.Sources.{input_of, item_of, IsWithin};
ghost use Rattle.asl_intrinsic.specs.View.{argument_view, arguments_view};
ghost use Rattle.asl_intrinsic.specs.View as calls;
ghost use Rattle.asl_model.specs.Intrinsic.{literal_pieces};
ghost use Rattle.asl_model.specs.Shape as model;
ghost use Rattle.asl_model.specs.ShapeFlow as flow;
ghost use Rattle.asl_numbered.specs.Expansion.{shape_at, shapes_at, AreBelow, Keeps};

use crate::references::Sources;
use asl_intrinsic::{Arg, Call};
use asl_numbered::{Node, Shapes};
use asl_shape_paths::composing::closed_list;
use asl_shape_paths::kinds::{arrays_alone, kinds_of, some_array_or_object};
use asl_shape_paths::numbers::{is_inhabited, put_node};
use asl_tree::OutOfMemory;
use std::alloc::Global;

/// The number of the shape of the call's value (States Language, "Appendix B: List of Intrinsic Functions"); `None` where
/// the call may fail.
#[cycle(call)]
pub(crate) fn call_shape(
    alloc: Global,
    shapes: &mut Shapes,
    call: &Call,
    sources: Sources,
) -> Result<Option<usize>, OutOfMemory>
    requires within { IsWithin (length shapes.old) sources }
    ensures answers { IfOk result
        (Answers shapes.new (flow.call_shape (calls.view call.now) (input_of shapes.old sources)
        (item_of shapes.old sources))) }
    ensures keeps { Keeps shapes.old shapes.new }
{
    match call {
        Call::Array(arguments) => match argument_shapes(alloc, shapes, arguments, sources)? {
            Some(numbers) => array_shape(shapes, numbers),
            None => Ok(None),
        },
        Call::ArrayLength(arguments) => match argument_shapes(alloc, shapes, arguments, sources)? {
            Some(numbers) => array_length_shape(shapes, &numbers),
            None => Ok(None),
        },
        Call::Format(arguments) => match argument_shapes(alloc, shapes, arguments, sources)? {
            Some(numbers) => format_shape(shapes, arguments, &numbers),
            None => Ok(None),
        },
    }
}

/// The numbers of the shapes of the arguments' values, in order; `None` where one of them may fail.
#[cycle(call)]
fn argument_shapes(
    alloc: Global,
    shapes: &mut Shapes,
    arguments: &[Arg],
    sources: Sources,
) -> Result<Option<Vec<usize>>, OutOfMemory>
    requires within { IsWithin (length shapes.old) sources }
    ensures answers { IfOk result
        (AnswersAll shapes.new (flow.argument_shapes (arguments_view arguments.now)
        (input_of shapes.old sources) (item_of shapes.old sources))) }
    ensures keeps { Keeps shapes.old shapes.new }
{
    let mut numbers = Vec::with_capacity(alloc, arguments.len())?;
    for argument in arguments {
        let Some(number) = argument_shape(alloc, shapes, argument, sources)? else {
            return Ok(None);
        };
        numbers.push(number)?;
    }
    Ok(Some(numbers))
}

/// The number of the shape of the argument's value; `None` where it may fail.
#[tactic(auto, using(asl_numbered::proofs::Expansions::simple_refers, crate::proofs::FunctionShapes::answered))]
#[cycle(call)]
fn argument_shape(
    alloc: Global,
    shapes: &mut Shapes,
    argument: &Arg,
    sources: Sources,
) -> Result<Option<usize>, OutOfMemory>
    requires within { IsWithin (length shapes.old) sources }
    ensures answers { IfOk result
        (Answers shapes.new (flow.argument_shape (argument_view argument.now)
        (input_of shapes.old sources) (item_of shapes.old sources))) }
    ensures keeps { Keeps shapes.old shapes.new }
{
    match argument {
        Arg::Null => Ok(Some(put_node(shapes, Node::Null)?)),
        Arg::Bool(_) => Ok(Some(put_node(shapes, Node::Bool)?)),
        Arg::Int(_) => Ok(Some(put_node(shapes, Node::Int)?)),
        Arg::Text(_) => Ok(Some(put_node(shapes, Node::Text)?)),
        Arg::Path(path) => Ok(sources.in_input(shapes, path)?.ok()),
        Arg::ItemIndex => Ok(sources.item_index(shapes)?.ok()),
        Arg::ItemValue(path) => Ok(sources.in_item(shapes, path)?.ok()),
        Arg::Call(call) => call_shape(alloc, shapes, call, sources),
    }
}

/// `States.Array`: the list of the arguments.
#[tactic(auto, using(crate::proofs::FunctionShapes::answered))]
fn array_shape(shapes: &mut Shapes, arguments: Vec<usize>) -> Result<Option<usize>, OutOfMemory>
    requires arguments { AreBelow (length shapes.old) arguments.items }
    ensures answers { IfOk result
        (Answers shapes.new (flow.array_of (Some (shapes_at shapes.old arguments.items)))) }
    ensures keeps { Keeps shapes.old shapes.new }
{
    Ok(Some(closed_list(shapes, arguments)?))
}

/// `States.ArrayLength`: the length of one argument, which is a list or never comes.
#[tactic(auto, using(asl_numbered::proofs::Expansions::simple_refers, asl_numbered::specs::Laws::keeps_same))]
fn array_length_shape(
    shapes: &mut Shapes,
    arguments: &[usize],
) -> Result<Option<usize>, OutOfMemory>
    requires arguments { AreBelow (length shapes.old) arguments.now }
    ensures answers { IfOk result
        (Answers shapes.new (flow.array_length_of (Some (shapes_at shapes.old arguments.now)))) }
    ensures keeps { Keeps shapes.old shapes.new }
{
    let [argument] = arguments else {
        return Ok(None);
    };
    if is_list_or_never(shapes, *argument) {
        Ok(Some(put_node(shapes, Node::Int)?))
    } else {
        Ok(None)
    }
}

/// Whether lists alone have the shape of that number, or no tree has it.
fn is_list_or_never(shapes: &Shapes, number: usize) -> bool
    requires number { number < length shapes.now }
    ensures { result
        ≡ (not (model.inhabited (shape_at shapes.now number))
        || flow.is_array_shape (shape_at shapes.now number)) }
{
    !is_inhabited(shapes, number) || arrays_alone(shapes, number).is_some()
}

/// `States.Format`: a text and what fills its holes.
#[tactic(auto, using(asl_numbered::proofs::Expansions::simple_refers, asl_numbered::specs::Laws::keeps_same, crate::proofs::FunctionShapes::answered))]
fn format_shape(
    shapes: &mut Shapes,
    arguments: &[Arg],
    numbers: &[usize],
) -> Result<Option<usize>, OutOfMemory>
    requires numbers { AreBelow (length shapes.old) numbers.now }
    ensures answers { IfOk result
        (Answers shapes.new (flow.format_of (literal_pieces (arguments_view arguments.now))
        (Some (shapes_at shapes.old numbers.now)))) }
    ensures keeps { Keeps shapes.old shapes.new }
{
    let [first, others @ ..] = numbers else {
        return Ok(None);
    };
    if fits_holes(shapes, arguments, *first, others) && all_formattable(shapes, others) {
        Ok(Some(put_node(shapes, Node::Text)?))
    } else {
        Ok(None)
    }
}

/// Whether the first argument, of the shape of that number, is a literal text with as many holes as there are other
/// arguments, or never comes.
fn fits_holes(shapes: &Shapes, arguments: &[Arg], first: usize, others: &[usize]) -> bool
    requires first { first < length shapes.now }
    ensures { result
        ≡ flow.fits_holes (literal_pieces (arguments_view arguments.now))
        (shape_at shapes.now first) (shapes_at shapes.now others.now) }
{
    match holes_in(arguments) {
        Some(holes) => holes == others.len(),
        None => !is_inhabited(shapes, first),
    }
}

/// How many holes the first argument has, where it is a literal text.
fn holes_in(arguments: &[Arg]) -> Option<usize>
    ensures { result ≡ option_map
        (λ pieces. length pieces.after_holes) (literal_pieces (arguments_view arguments.now)) }
{
    let Arg::Text(pieces) = arguments.first()? else {
        return None;
    };
    Some(pieces.after_holes.len())
}

/// Whether each of the shapes of the numbers can be put in a text.
fn all_formattable(shapes: &Shapes, numbers: &[usize]) -> bool
    requires numbers { AreBelow (length shapes.now) numbers.now }
    ensures { result ≡ flow.all_formattable (shapes_at shapes.now numbers.now) }
{
    for number in numbers {
        if !is_formattable(shapes, *number) {
            return false;
        }
    }
    true
}

/// Whether each tree of the shape of that number can be put in a text.
fn is_formattable(shapes: &Shapes, number: usize) -> bool
    requires number { number < length shapes.now }
    ensures { result ≡ flow.is_formattable (shape_at shapes.now number) }
{
    match kinds_of(shapes, number) {
        Some(kinds) => !some_array_or_object(shapes, &kinds),
        None => false,
    }
}
