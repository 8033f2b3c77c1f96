//! The values of calls.
ghost use Rattle.std.specs.Prelude.{◌≡◌, Err, IfOk, Some, None};
ghost use Rattle.asl_model.specs.Intrinsic.{AndArgument, Arguments, argument_value as value_of_argument, argument_values as values_of_arguments, call_value, literal_pieces};
ghost use Rattle.asl_tree.specs.View as trees;
ghost use Rattle.asl_intrinsic.specs.Answer.{Answers, literal_in, literal_of, value_view, values_view};
ghost use Rattle.asl_intrinsic.specs.View.{argument_view, arguments_view, at_hand, view};
ghost use Rattle.asl_intrinsic.specs.declared.EvalRefusal.TheVariants.{IntrinsicFailure};

use crate::functions::{array, array_length, format};
use crate::value::{Value, named};
use crate::{Arg, Call, EvalRefusal, Item};
use asl_tree::Tree;
use std::alloc::Global;

/// The value of the call for the input and the item at hand (States Language, "Intrinsic Functions").
///
/// Paths go into the input, item paths into the item; where there is none the latter fail.
#[cycle(eval)]
pub fn eval(
    alloc: Global,
    call: &Call,
    input: &Tree,
    item: Option<Item>,
) -> Result<Tree, EvalRefusal>
    ensures value { IfOk result
        (λ t. call_value (view call.now) (trees.view input.now) (at_hand item.entry)
        ≡ Some (trees.view t)) }
    ensures no_value { result ≡ Err IntrinsicFailure
        → call_value (view call.now) (trees.view input.now) (at_hand item.entry) ≡ None }
{
    match call {
        Call::Array(arguments) => array(alloc, argument_values(alloc, arguments, input, item)?),
        Call::ArrayLength(arguments) => {
            array_length(&argument_values(alloc, arguments, input, item)?)
        }
        Call::Format(arguments) => format(alloc, &argument_values(alloc, arguments, input, item)?),
    }
}

/// The values of the arguments, in order.
#[cycle(eval)]
fn argument_values<'v>(
    alloc: Global,
    arguments: &'v [Arg],
    input: &'v Tree,
    item: Option<Item<'v>>,
) -> Result<Vec<Value<'v>>, EvalRefusal>
    ensures values { Answers (λ values. values_view values.items) result
        (values_of_arguments (arguments_view arguments.now) (trees.view input.now)
        (at_hand item.entry)) }
    ensures literal { IfOk result
        (λ values. literal_in values.items ≡ literal_pieces (arguments_view arguments.now)) }
{
    let mut values = Vec::with_capacity(alloc, arguments.len())?;
    for argument in arguments {
        values.push(argument_value(alloc, argument, input, item)?)?;
    }
    Ok(values)
}

/// The value of the argument.
#[cycle(eval)]
fn argument_value<'v>(
    alloc: Global,
    argument: &'v Arg,
    input: &'v Tree,
    item: Option<Item<'v>>,
) -> Result<Value<'v>, EvalRefusal>
    ensures value { Answers value_view result
        (value_of_argument (argument_view argument.now) (trees.view input.now)
        (at_hand item.entry)) }
    ensures literal { IfOk result
        (λ value. (others : Arguments)
        → literal_of value ≡ literal_pieces (AndArgument (argument_view argument.now) others)) }
{
    match argument {
        Arg::Null => Ok(Value::Made(Tree::Null)),
        Arg::Bool(truth) => Ok(Value::Made(Tree::Bool(*truth))),
        Arg::Int(number) => Ok(Value::Made(Tree::Int(*number))),
        Arg::Text(pieces) => Ok(Value::Literal(pieces)),
        Arg::Path(path) => Ok(Value::Lent(named(input, path)?)),
        Arg::ItemIndex => match item {
            Some(item) => Ok(Value::Made(Tree::Int(item.index))),
            None => Err(EvalRefusal::IntrinsicFailure),
        },
        Arg::ItemValue(path) => match item {
            Some(item) => Ok(Value::Lent(named(item.value, path)?)),
            None => Err(EvalRefusal::IntrinsicFailure),
        },
        Arg::Call(call) => Ok(Value::Made(eval(alloc, call, input, item)?)),
    }
}
