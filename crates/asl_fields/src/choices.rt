// Reading the rules of a Choice (States Language, "Choice State").

ghost use Rattle.std.specs.Prelude.{◌≡◌, ◌++◌, Some, IfOk, map, option_and_then};
ghost use Rattle.serde_json.specs.View.{view, items_view};
ghost use Rattle.asl_model.specs.DefinitionTable as model;
ghost use Rattle.asl_model.specs.Json.{tree_of};
ghost use Rattle.asl_model.specs.RuleSpelling.{rule_of};
ghost use Rattle.asl_model.specs.StandsFor.{items_in, rules_of};
ghost use Rattle.asl_states.specs.Machine.{choice_rule_view};
ghost use Rattle.asl_fields.specs.Verdicts.{IsMisfit, IsVerdict, place_view};
ghost use Rattle.asl_fields.specs.Reading.{rules_told, fields_of, rules_among, wrong_rules};

use crate::places::{Complaint, Place};
use crate::refusals::DefFault;
use crate::value_checking::{check_some, wrong_kind};
use asl_choice::RuleRefusal;
use asl_states::{ChoiceRule, Target};
use serde_json::Value;
use std::alloc::Global;

/// The rules in `Choices` of a state that stands at `place`. Refuses a state without them, a value that is no list of rules or
/// an empty one, and want of memory.
pub fn read_choices<'a>(
    alloc: Global,
    place: &Place<'a>,
    state: &Value,
) -> Result<Vec<ChoiceRule>, Complaint<'a>>
    ensures rules { IfOk result
        (λ rules. map choice_rule_view rules.items ≡ rules_of (fields_of state.now)) }
    ensures told { IsVerdict (rules_told (place_view place.now) (fields_of state.now)) result }
{
    match state.get("Choices") {
        Some(value) => match read_rules(alloc, value) {
            Ok(rules) => Ok(rules),
            Err(fault) => Err(place.complaint("Choices", fault)),
        },
        None => Err(place.complaint("Choices", DefFault::MissingField)),
    }
}

/// The rules that a value spells: a list of them, not empty.
pub(crate) fn read_rules(alloc: Global, value: &Value) -> Result<Vec<ChoiceRule>, DefFault>
    ensures rules { IfOk result
        (λ rules. map choice_rule_view rules.items ≡ rules_among (items_in (view value.now))) }
    ensures faults { IsMisfit (model.misfits model.RulesValue (view value.now)) result }
{
    match value.as_array() {
        Some(elements) => read_some(alloc, elements),
        None => Err(wrong_kind(value)),
    }
}

/// The rules that the elements spell, of which there have to be some.
fn read_some(alloc: Global, elements: &[Value]) -> Result<Vec<ChoiceRule>, DefFault>
    ensures rules { IfOk result
        (λ rules. map choice_rule_view rules.items ≡ rules_among (items_view elements.now)) }
    ensures faults { IsMisfit
        (model.some_elements (items_view elements.now)
        ++ wrong_rules (items_view elements.now)) result }
{
    check_some(elements)?;
    read_each(alloc, elements)
}

/// The rules that the elements spell.
fn read_each(alloc: Global, elements: &[Value]) -> Result<Vec<ChoiceRule>, DefFault>
    ensures rules { IfOk result
        (λ rules. map choice_rule_view rules.items ≡ rules_among (items_view elements.now)) }
    ensures faults { IsMisfit (wrong_rules (items_view elements.now)) result }
{
    let mut rules = Vec::new(alloc);
    for element in elements {
        rules.push(read_rule(alloc, element)?)?;
    }
    Ok(rules)
}

/// The rule that a value spells. Refuses a value that spells none, a number in it that isn't whole, and want of memory.
#[tactic(auto, using(crate::proofs::Rules::rule_spelled, crate::proofs::Rules::rule_right, crate::proofs::Rules::rule_wrong))]
pub fn read_rule(alloc: Global, value: &Value) -> Result<ChoiceRule, DefFault>
    ensures rule { IfOk result (λ rule. option_and_then rule_of (tree_of (view value.now))
        ≡ Some (choice_rule_view rule)) }
    ensures faults { IsMisfit (model.rule_misfits (tree_of (view value.now))) result }
{
    match asl_choice::from_value(alloc, value) {
        Ok(rule) => Ok(ChoiceRule {
            test: rule.test,
            next: Target::new(rule.next),
        }),
        Err(refusal) => match refusal {
            RuleRefusal::OutOfMemory => Err(DefFault::OutOfMemory),
            RuleRefusal::NotWhole => Err(DefFault::NotWhole),
            RuleRefusal::NotARule
            | RuleRefusal::UnknownOperator
            | RuleRefusal::BadOperand
            | RuleRefusal::BadPath
            | RuleRefusal::BadPattern
            | RuleRefusal::EmptyList
            | RuleRefusal::NextInside => Err(DefFault::BadRule),
        },
    }
}
