//! What the values in a rule are.
ghost use Rattle.std.specs.Prelude.{◌≡◌, is_some, option_map};
ghost use Rattle.asl_model.specs.Test.{as_text as text_of, as_integer as integer_of, as_boolean as boolean_of};
ghost use Rattle.asl_model.specs.RuleSpelling.{is_comparable as is_of_type};
ghost use Rattle.asl_choice.specs.View.{comparison_view};
ghost use Rattle.asl_tree.specs.Values.{tree_in};

use crate::Comparison;
use serde_json::Value;

/// The text that the value is, if it is one.
#[tactic(auto, using(crate::proofs::Operands::text_read))]
pub(crate) fn text_in(value: &Value) -> Option<&str>
    ensures { option_map (λ text. text.now) result ≡ text_of (tree_in value.now) }
{
    value.as_str()
}

/// The truth value that the value is, if it is one.
#[tactic(auto, using(crate::proofs::Operands::boolean_read))]
pub(crate) fn truth_in(value: &Value) -> Option<bool>
    ensures { result ≡ boolean_of (tree_in value.now) }
{
    value.as_bool()
}

/// Whether the value is an integer, of any size.
#[tactic(auto, using(crate::proofs::Operands::integer_read))]
fn is_integer(value: &Value) -> bool
    ensures { result ≡ is_some (integer_of (tree_in value.now)) }
{
    value.is_number() && !value.is_f64()
}

/// Whether the value is of the comparison's type.
#[tactic(auto, using(crate::proofs::Operands::text_read, crate::proofs::Operands::boolean_read))]
pub(crate) fn is_comparable(comparison: Comparison, value: &Value) -> bool
    ensures { result ≡ is_of_type (comparison_view comparison) (tree_in value.now) }
{
    match comparison {
        Comparison::String(_) => value.is_string(),
        Comparison::Numeric(_) => is_integer(value),
        Comparison::BooleanEquals => value.is_boolean(),
    }
}
