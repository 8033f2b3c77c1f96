//! The next state of a Choice (States Language, "Choice State").

ghost use Rattle.std.specs.Prelude.{IfOk, IfSome, List, map, option_map, ℕ};
ghost use Rattle.asl_states.specs.Machine.{choice_rule_view, target_name};
ghost use Rattle.asl_model.specs.Flow as model;
ghost use Rattle.asl_processing.specs.Flowing.{Finds};
ghost use Rattle.asl_processing.specs.Leading.{Leads};
ghost use Rattle.asl_states.specs.Targets.{EachChoiceTarget};
ghost use Rattle.asl_tree.specs.View.{view};

use crate::faults::{DataFlowError, Fault};
use asl_choice::{NamesNothing, holds};
use asl_states::{ChoiceRule, Target};
use asl_tree::Tree;

/// The next state of the first rule that is true of the input, else `Default`.
pub(crate) fn choose<'m>(
    rules: &'m [ChoiceRule],
    default: &'m Option<Target>,
    input: &Tree,
) -> Result<&'m Target, Fault>
    ensures exact { Finds (λ next. target_name next.now) result (model.chosen
        (map choice_rule_view rules.now) (option_map target_name default.now) (view input.now)) }
    ensures leads { (names : List (List ℕ)) → EachChoiceTarget (Leads names) rules.now
        → IfSome default.now (Leads names) → IfOk result (λ next. Leads names next.now) }
{
    for rule in rules {
        match holds(&rule.test, input) {
            Ok(true) => return Ok(&rule.next),
            Ok(false) => {}
            Err(NamesNothing) => {
                return Err(Fault {
                    error: DataFlowError::NamesNothing,
                    field: "Choices",
                });
            }
        }
    }
    match default {
        Some(next) => Ok(next),
        None => Err(Fault {
            error: DataFlowError::NoChoiceMatched,
            field: "Choices",
        }),
    }
}
