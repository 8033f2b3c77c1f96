//! What a Wait looks at before it waits (States Language, "Wait State").

ghost use Rattle.asl_states.specs.Machine.{delay_view};
ghost use Rattle.asl_model.specs.Flow as model;
ghost use Rattle.asl_processing.specs.Flowing.{Finds};
ghost use Rattle.asl_tree.specs.View.{view};

use crate::faults::{DataFlowError, Fault};
use crate::flowing::named_in;
use asl_states::Delay;
use asl_tree::Tree;

/// What the delay's path names in the input, a whole number or a text; the input itself where there is no path.
pub(crate) fn find_delay<'t>(delay: &Delay, input: &'t Tree) -> Result<&'t Tree, Fault>
    ensures { Finds (λ t. view t.now) result
        (model.delay_in (delay_view delay.now) (view input.now)) }
{
    match delay {
        Delay::Seconds(_) | Delay::Timestamp(_) => Ok(input),
        Delay::SecondsPath(path) => {
            want_number("SecondsPath", named_in("SecondsPath", path, input)?)
        }
        Delay::TimestampPath(path) => {
            want_text("TimestampPath", named_in("TimestampPath", path, input)?)
        }
    }
}

/// The tree, where it is a whole number.
fn want_number<'t>(field: &'static str, tree: &'t Tree) -> Result<&'t Tree, Fault>
    ensures { Finds (λ t. view t.now) result (model.number_wanted field.now (view tree.now)) }
{
    match tree {
        Tree::Int(_) => Ok(tree),
        Tree::Null | Tree::Bool(_) | Tree::Text(_) | Tree::List(_) | Tree::Object(_) => {
            Err(Fault {
                error: DataFlowError::WrongKind,
                field,
            })
        }
    }
}

/// The tree, where it is a text.
fn want_text<'t>(field: &'static str, tree: &'t Tree) -> Result<&'t Tree, Fault>
    ensures { Finds (λ t. view t.now) result (model.text_wanted field.now (view tree.now)) }
{
    match tree {
        Tree::Text(_) => Ok(tree),
        Tree::Null | Tree::Bool(_) | Tree::Int(_) | Tree::List(_) | Tree::Object(_) => {
            Err(Fault {
                error: DataFlowError::WrongKind,
                field,
            })
        }
    }
}
