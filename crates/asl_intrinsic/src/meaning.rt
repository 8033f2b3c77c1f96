//! What the parts of a call mean together.
ghost use Rattle.std.specs.Prelude.{◌≡◌, IfOk};
ghost use Rattle.asl_model.specs.CallSpelling.{WrittenPath};
ghost use Rattle.asl_intrinsic.specs.Meaning.{and_meaning, argument_meaning, argument_seen, arguments_seen, call_seen, fault_view, function_meaning, lesser_fault as lesser_of, nested_meaning};

use crate::cutting::{Fault, Meant};
use crate::references::parse_reference;
use crate::{Arg, Call};
use asl_tree::OutOfMemory;
use std::alloc::Global;

/// The call of the function of that name.
pub(crate) fn call_of(name: &str, arguments: Meant<Vec<Arg>>) -> Meant<Call>
    ensures { call_seen result ≡ function_meaning name.now (arguments_seen arguments) }
{
    match name {
        "States.Array" => Ok(Call::Array(arguments?)),
        "States.ArrayLength" => Ok(Call::ArrayLength(arguments?)),
        "States.Format" => Ok(Call::Format(arguments?)),
        _ => Err(Fault::UnknownFunction),
    }
}

/// The arguments with one more behind them.
pub(crate) fn and_argument(
    arguments: Meant<Vec<Arg>>,
    argument: Meant<Arg>,
) -> Result<Meant<Vec<Arg>>, OutOfMemory>
    ensures { IfOk result (λ together. arguments_seen together
        ≡ and_meaning (arguments_seen arguments) (argument_seen argument)) }
{
    match arguments {
        Ok(mut arguments) => match argument {
            Ok(argument) => {
                arguments.push(argument)?;
                Ok(Ok(arguments))
            }
            Err(fault) => Ok(Err(fault)),
        },
        Err(fault) => match argument {
            Ok(_) => Ok(Err(fault)),
            Err(other) => Ok(Err(lesser_fault(fault, other))),
        },
    }
}

/// Of two faults the one that counts.
fn lesser_fault(fault: Fault, other: Fault) -> Fault
    ensures { fault_view result ≡ lesser_of (fault_view fault) (fault_view other) }
{
    match fault {
        Fault::UnknownFunction => Fault::UnknownFunction,
        Fault::BadPath => other,
    }
}

/// The call as an argument.
pub(crate) fn nested(call: Meant<Call>) -> Meant<Arg>
    ensures { argument_seen result ≡ nested_meaning (call_seen call) }
{
    match call {
        Ok(call) => Ok(Arg::Call(call)),
        Err(fault) => Err(fault),
    }
}

/// The argument that a path is.
pub(crate) fn path_meaning(alloc: Global, path: &str, item: bool) -> Result<Meant<Arg>, OutOfMemory>
    ensures { IfOk result (λ meant. argument_seen meant
        ≡ argument_meaning item (WrittenPath path.now)) }
{
    match parse_reference(alloc, path, item)? {
        Some(argument) => Ok(Ok(argument)),
        None => Ok(Err(Fault::BadPath)),
    }
}
