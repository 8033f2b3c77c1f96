//! Reading rules from JSON values.
ghost use Rattle.std.specs.Prelude.{◌≡◌, [], ◌∷◌, true, false, Err, IfErr, IfOk, IfSome, IsUtf8, MatchOption, None, OnOk, Some, codes, is_some, string_bytes, string_cmp};
ghost use Rattle.std.specs.List.{Contains};
ghost use Rattle.serde_json.specs.View.{view as json_view, items_view, members_view};
ghost use Rattle.asl_model.specs.Json.{tree_of, elements_of, members_of};
ghost use Rattle.asl_model.specs.RuleSpelling as model;
ghost use Rattle.asl_model.specs.Tree as json;
ghost use Rattle.asl_model.specs.Tree.{field_named};
ghost use Rattle.asl_choice.specs.Refusal.{Tells};
ghost use Rattle.asl_choice.specs.Single.{is_beside as beside, joined_test, one_joined_faults};
ghost use Rattle.asl_choice.specs.View.{rule_view, tests_view, view};
ghost use Rattle.asl_choice.specs.Whole.{ValueSpells, ValueHasFault};
ghost use Rattle.asl_choice.specs.declared.refusal.RuleRefusal.{RuleRefusal};
ghost use Rattle.asl_tree.specs.Values.{tree_in, elements_in, fields_in};
ghost use Rattle.asl_tree.specs.View as trees;

use crate::values::text_in;
use crate::variables::read_variable_test;
use crate::{Rule, RuleRefusal, Test};
use asl_tree::{Tree, is_whole, to_value};
use serde_json::{Map, Value};
use std::alloc::Global;

/// The rule that a JSON value spells, as the tree that it is (States Language, "Choice State").
///
/// It is an object with a text `Next`, where it is wanted a text `Comment`, and a test: `And` or `Or` with a list of
/// rules that isn't empty, `Not` with a rule, or `Variable` with exactly one operator. The rules inside have neither
/// `Next` nor `Comment`.
///
/// Refuses as [`RuleRefusal::NotWhole`] each value that is no tree, which takes no memory. Where several other refusals
/// stand in the tree, the answer is one of them.
pub fn from_value(alloc: Global, value: &Value) -> Result<Rule, RuleRefusal>
    ensures spelled { IfOk result (λ rule. ValueSpells (json_view value.now) (rule_view rule)) }
    ensures not_whole { result ≡ Err RuleRefusal.NotWhole → tree_of (json_view value.now) ≡ None }
    ensures no_tree { tree_of (json_view value.now) ≡ None → result ≡ Err RuleRefusal.NotWhole }
    ensures not_a_rule { result ≡ Err RuleRefusal.NotARule
        → ValueHasFault (json_view value.now) model.NotARule }
    ensures unknown_operator { result ≡ Err RuleRefusal.UnknownOperator
        → ValueHasFault (json_view value.now) model.UnknownOperator }
    ensures bad_operand { result ≡ Err RuleRefusal.BadOperand
        → ValueHasFault (json_view value.now) model.BadOperand }
    ensures bad_path { result ≡ Err RuleRefusal.BadPath
        → ValueHasFault (json_view value.now) model.BadPath }
    ensures bad_pattern { result ≡ Err RuleRefusal.BadPattern
        → ValueHasFault (json_view value.now) model.BadPattern }
    ensures empty_list { result ≡ Err RuleRefusal.EmptyList
        → ValueHasFault (json_view value.now) model.EmptyList }
    ensures next_inside { result ≡ Err RuleRefusal.NextInside
        → ValueHasFault (json_view value.now) model.NextInside }
{
    // The numbers are looked at before there is memory to ask for, so a refused request is never told as one of them.
    if is_whole(value) {
        read_top(alloc, value)
    } else {
        Err(RuleRefusal::NotWhole)
    }
}

/// The rule that a tree spells: [`from_value`], of the JSON value that the tree is.
///
/// Where several refusals stand in a tree, the answer is one of them.
pub fn from_tree(alloc: Global, tree: &Tree) -> Result<Rule, RuleRefusal>
    ensures spelled { IfOk result
        (λ rule. model.SpellsRule (trees.view tree.now) (rule_view rule)) }
    ensures not_a_rule { result ≡ Err RuleRefusal.NotARule
        → model.HasRuleFault (trees.view tree.now) model.NotARule }
    ensures unknown_operator { result ≡ Err RuleRefusal.UnknownOperator
        → model.HasRuleFault (trees.view tree.now) model.UnknownOperator }
    ensures bad_operand { result ≡ Err RuleRefusal.BadOperand
        → model.HasRuleFault (trees.view tree.now) model.BadOperand }
    ensures bad_path { result ≡ Err RuleRefusal.BadPath
        → model.HasRuleFault (trees.view tree.now) model.BadPath }
    ensures bad_pattern { result ≡ Err RuleRefusal.BadPattern
        → model.HasRuleFault (trees.view tree.now) model.BadPattern }
    ensures empty_list { result ≡ Err RuleRefusal.EmptyList
        → model.HasRuleFault (trees.view tree.now) model.EmptyList }
    ensures next_inside { result ≡ Err RuleRefusal.NextInside
        → model.HasRuleFault (trees.view tree.now) model.NextInside }
    ensures of_tree { ¬ (result ≡ Err RuleRefusal.NotWhole) }
{
    let value = to_value(alloc, tree)?;
    from_value(alloc, &value)
}

/// The rule that a value at the top spells.
fn read_top(alloc: Global, value: &Value) -> Result<Rule, RuleRefusal>
    ensures spelled { IfOk result (λ rule. model.SpellsRule (tree_in value.now) (rule_view rule)) }
    ensures not_whole { result ≡ Err RuleRefusal.NotWhole → tree_of (json_view value.now) ≡ None }
    ensures refused { IfErr result (λ e. Tells e (model.rule_faults (tree_in value.now))) }
{
    match value {
        Value::Object(members) => read_rule(alloc, members),
        Value::Null | Value::Bool(_) | Value::Number(_) | Value::String(_) | Value::Array(_) => {
            Err(RuleRefusal::NotARule)
        }
    }
}

/// The rule that an object with these members spells.
#[tactic(auto, using(crate::proofs::Telling::told_left, crate::proofs::Telling::told_right))]
fn read_rule(alloc: Global, members: &Map<String, Value>) -> Result<Rule, RuleRefusal>
    ensures spelled { IfOk result (λ rule. model.SpellsRule
        (json.Object (fields_in members.now.entries)) (rule_view rule)) }
    ensures not_whole { result ≡ Err RuleRefusal.NotWhole
        → members_of (members_view members.now.entries) ≡ None }
    ensures refused { IfErr result
        (λ e. Tells e (model.rule_faults (json.Object (fields_in members.now.entries)))) }
{
    let next = String::from_str(alloc, read_next(members)?)?;
    check_comment(members)?;
    let test = read_test(alloc, members)?;
    Ok(Rule { test, next })
}

/// The text in `Next`.
#[tactic(auto, using(asl_tree::proofs::Values::field_named_lookup))]
fn read_next(members: &Map<String, Value>) -> Result<&str, RuleRefusal>
    ensures right { OnOk result
        (model.text_faults true (field_named (codes "Next") (fields_in members.now.entries)) ≡ []) }
    ensures next { IfOk result
        (λ next. next.now ≡ model.next_of (json.Object (fields_in members.now.entries))) }
    ensures utf8 { IfOk result (λ next. IsUtf8 next.now) }
    ensures of_text { ¬ (result ≡ Err RuleRefusal.NotWhole) }
    ensures refused { IfErr result (λ e. Tells e
        (model.text_faults true (field_named (codes "Next") (fields_in members.now.entries)))) }
{
    let Some(value) = members.get("Next") else {
        return Err(RuleRefusal::NotARule);
    };
    match text_in(value) {
        Some(next) => Ok(next),
        None => Err(RuleRefusal::NotARule),
    }
}

/// Refuses a `Comment` that is no text.
#[tactic(auto, using(asl_tree::proofs::Values::field_named_lookup))]
fn check_comment(members: &Map<String, Value>) -> Result<(), RuleRefusal>
    ensures right { OnOk result (model.text_faults false
        (field_named (codes "Comment") (fields_in members.now.entries)) ≡ []) }
    ensures of_text { ¬ (result ≡ Err RuleRefusal.NotWhole) }
    ensures refused { IfErr result (λ e. Tells e (model.text_faults false
        (field_named (codes "Comment") (fields_in members.now.entries)))) }
{
    match members.get("Comment") {
        Some(value) => check_text(value),
        None => Ok(()),
    }
}

/// Refuses a value that is no text.
fn check_text(value: &Value) -> Result<(), RuleRefusal>
    ensures right { OnOk result (model.text_faults false (Some (tree_in value.now)) ≡ []) }
    ensures of_text { ¬ (result ≡ Err RuleRefusal.NotWhole) }
    ensures refused { IfErr result
        (λ e. Tells e (model.text_faults false (Some (tree_in value.now)))) }
{
    if text_in(value).is_some() {
        Ok(())
    } else {
        Err(RuleRefusal::NotARule)
    }
}

/// The test that an object with these members spells, `Next` and `Comment` apart: it has one further field, and
/// `Variable` too where that is an operator.
#[tactic(auto, using(asl_tree::proofs::Values::field_named_lookup, crate::proofs::Fields::variable_test_one, crate::proofs::Fields::joined_faults_one, crate::proofs::Fields::joined_test_one))]
#[cycle(read)]
fn read_test(alloc: Global, members: &Map<String, Value>) -> Result<Test, RuleRefusal>
    ensures right { OnOk result (model.object_faults (fields_in members.now.entries) ≡ []) }
    ensures test { IfOk result
        (λ test. view test ≡ model.test_of (json.Object (fields_in members.now.entries))) }
    ensures not_whole { result ≡ Err RuleRefusal.NotWhole
        → members_of (members_view members.now.entries) ≡ None }
    ensures refused { IfErr result
        (λ e. Tells e (model.object_faults (fields_in members.now.entries))) }
{
    let Some((name, value)) = only_field(members) else {
        return Err(RuleRefusal::NotARule);
    };
    match members.get("Variable") {
        Some(variable) => read_variable_test(alloc, variable, name, value),
        None => read_joined(alloc, name, value),
    }
}

/// The test of a rule with that field, which is to be `And`, `Or` or `Not`.
#[cycle(read)]
fn read_joined(alloc: Global, name: &str, value: &Value) -> Result<Test, RuleRefusal>
    ensures right { OnOk result (one_joined_faults name.now (tree_in value.now) ≡ []) }
    ensures test { IfOk result (λ test. view test ≡ joined_test name.now (tree_in value.now)) }
    ensures not_whole { result ≡ Err RuleRefusal.NotWhole → tree_of (json_view value.now) ≡ None }
    ensures refused { IfErr result (λ e. Tells e (one_joined_faults name.now (tree_in value.now))) }
{
    match name {
        "And" => Ok(Test::And(read_list(alloc, value)?)),
        "Or" => Ok(Test::Or(read_list(alloc, value)?)),
        "Not" => Ok(Test::Not(Box::new(alloc, read_nested(alloc, value)?)?)),
        _ => Err(RuleRefusal::NotARule),
    }
}

/// The tests that a list of rules below the top spells; the list isn't empty.
#[cycle(read)]
fn read_list(alloc: Global, value: &Value) -> Result<Vec<Test>, RuleRefusal>
    ensures right { OnOk result (model.list_faults (tree_in value.now) ≡ []) }
    ensures tests { IfOk result
        (λ tests. tests_view tests.items ≡ model.tests_of (tree_in value.now)) }
    ensures not_whole { result ≡ Err RuleRefusal.NotWhole → tree_of (json_view value.now) ≡ None }
    ensures refused { IfErr result (λ e. Tells e (model.list_faults (tree_in value.now))) }
{
    match value {
        Value::Array(elements) => {
            if elements.is_empty() {
                return Err(RuleRefusal::EmptyList);
            }
            read_elements(alloc, elements)
        }
        Value::Null | Value::Bool(_) | Value::Number(_) | Value::String(_) | Value::Object(_) => {
            Err(RuleRefusal::NotARule)
        }
    }
}

/// The tests that the elements spell.
#[cycle(read)]
fn read_elements(alloc: Global, elements: &[Value]) -> Result<Vec<Test>, RuleRefusal>
    ensures right { OnOk result (model.each_faults (elements_in elements.now) ≡ []) }
    ensures tests { IfOk result
        (λ tests. tests_view tests.items ≡ model.each_test (elements_in elements.now)) }
    ensures not_whole { result ≡ Err RuleRefusal.NotWhole
        → elements_of (items_view elements.now) ≡ None }
    ensures refused { IfErr result (λ e. Tells e (model.each_faults (elements_in elements.now))) }
{
    let mut tests = Vec::with_capacity(alloc, elements.len())?;
    for element in elements {
        tests.push(read_nested(alloc, element)?)?;
    }
    Ok(tests)
}

/// The test that a rule below the top spells.
#[cycle(read)]
fn read_nested(alloc: Global, value: &Value) -> Result<Test, RuleRefusal>
    ensures right { OnOk result (model.nested_faults (tree_in value.now) ≡ []) }
    ensures test { IfOk result (λ test. view test ≡ model.test_of (tree_in value.now)) }
    ensures not_whole { result ≡ Err RuleRefusal.NotWhole → tree_of (json_view value.now) ≡ None }
    ensures refused { IfErr result (λ e. Tells e (model.nested_faults (tree_in value.now))) }
{
    match value {
        Value::Object(members) => {
            check_inner(members)?;
            read_test(alloc, members)
        }
        Value::Null | Value::Bool(_) | Value::Number(_) | Value::String(_) | Value::Array(_) => {
            Err(RuleRefusal::NotARule)
        }
    }
}

/// Refuses a rule below the top that has `Next` or `Comment`.
#[tactic(auto, using(asl_tree::proofs::Values::field_named_lookup))]
fn check_inner(members: &Map<String, Value>) -> Result<(), RuleRefusal>
    ensures right { OnOk result (model.inner_faults (fields_in members.now.entries) ≡ []) }
    ensures of_names { ¬ (result ≡ Err RuleRefusal.NotWhole) }
    ensures refused { IfErr result
        (λ e. Tells e (model.inner_faults (fields_in members.now.entries))) }
{
    if members.contains_key("Next") {
        return Err(RuleRefusal::NextInside);
    }
    if members.contains_key("Comment") {
        return Err(RuleRefusal::NotARule);
    }
    Ok(())
}

/// The only member but `Variable`, `Next` and `Comment`, if there is exactly one.
fn only_field(members: &Map<String, Value>) -> Option<(&String, &Value)>
    ensures field { MatchOption result
        (model.one_faults (model.main_fields (fields_in members.now.entries)) ≡ model.NotARule ∷ [])
        (λ f. model.main_fields (fields_in members.now.entries)
        ≡ (string_bytes f.0.now, tree_in f.1.now) ∷ []) }
    ensures among { IfSome result (λ f. Contains members.now.entries (f.0.now, f.1.now)) }
{
    let mut only = None;
    for (name, value) in members.iter() {
        if !is_beside(name) {
            if only.is_some() {
                return None;
            }
            only = Some((name, value));
        }
    }
    only
}

/// Whether a field of that name stands beside a rule's test.
fn is_beside(name: &str) -> bool
    ensures { result ≡ beside name.now }
{
    matches!(name, "Variable" | "Next" | "Comment")
}
