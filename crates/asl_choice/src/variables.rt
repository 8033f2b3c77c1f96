//! Reading the test of a rule with `Variable`: its path, the operator beside it, and the operator's operand.
ghost use Rattle.std.specs.Prelude.{◌≡◌, [], true, Err, IfErr, IfOk, IfSome, IsUtf8, None, Ok, OnOk, Some, is_some};
ghost use Rattle.serde_json.specs.View.{view as json_view};
ghost use Rattle.asl_model.specs.Json.{tree_of};
ghost use Rattle.asl_model.specs.PathSpelling.{path_of};
ghost use Rattle.asl_model.specs.RuleSpelling as model;
ghost use Rattle.asl_model.specs.Test.{as_text as text_of, as_boolean as boolean_of};
ghost use Rattle.asl_choice.specs.Operators.{operator_view};
ghost use Rattle.asl_choice.specs.Refusal.{Tells, missing};
ghost use Rattle.asl_choice.specs.Single.{one_variable_faults, variable_test};
ghost use Rattle.asl_choice.specs.View.{view};
ghost use Rattle.asl_choice.specs.declared.refusal.RuleRefusal.{RuleRefusal};
ghost use Rattle.asl_tree.specs.Values.{tree_in};
ghost use Rattle.asl_tree.specs.View as trees;

use crate::operators::{Operator, operator_named};
use crate::patterns::read_pattern;
use crate::values::{is_comparable, text_in, truth_in};
use crate::{Operand, RuleRefusal, Test};
use asl_path::{PathRefusal, RefPath, parse};
use asl_tree::{Tree, TreeRefusal};
use serde_json::Value;
use std::alloc::Global;

/// The test of a rule with `Variable`, the operator of that name and its operand.
pub(crate) fn read_variable_test(
    alloc: Global,
    variable: &Value,
    name: &str,
    operand: &Value,
) -> Result<Test, RuleRefusal>
    ensures right { OnOk result
        (one_variable_faults (tree_in variable.now) name.now (tree_in operand.now) ≡ []) }
    ensures test { IfOk result (λ test. view test
        ≡ variable_test (tree_in variable.now) name.now (tree_in operand.now)) }
    ensures not_whole { result ≡ Err RuleRefusal.NotWhole → tree_of (json_view operand.now) ≡ None }
    ensures refused { IfErr result (λ e. Tells e
        (one_variable_faults (tree_in variable.now) name.now (tree_in operand.now))) }
{
    let Some(text) = text_in(variable) else {
        return Err(RuleRefusal::NotARule);
    };
    let variable = read_path(alloc, text)?;
    read_operator(alloc, variable, name, operand)
}

/// The test on the value at `variable` that the operator of that name asks for with that operand.
fn read_operator(
    alloc: Global,
    variable: RefPath,
    name: &str,
    operand: &Value,
) -> Result<Test, RuleRefusal>
    ensures test { IfOk result
        (λ test. model.named_test variable name.now (tree_in operand.now) ≡ Ok (view test)) }
    ensures not_whole { result ≡ Err RuleRefusal.NotWhole → tree_of (json_view operand.now) ≡ None }
    ensures refused { IfErr result
        (λ e. Tells e (model.fault_of (model.named_test variable name.now (tree_in operand.now)))) }
{
    match operator_named(name) {
        Some(operator) => read_operand(alloc, variable, operator, operand),
        None => Err(RuleRefusal::UnknownOperator),
    }
}

/// The same for an operator.
#[tactic(auto, using(crate::proofs::Telling::told_left))]
fn read_operand(
    alloc: Global,
    variable: RefPath,
    operator: Operator,
    operand: &Value,
) -> Result<Test, RuleRefusal>
    ensures test { IfOk result (λ test. model.operator_test
        variable (operator_view operator) (tree_in operand.now) ≡ Ok (view test)) }
    ensures not_whole { result ≡ Err RuleRefusal.NotWhole → tree_of (json_view operand.now) ≡ None }
    ensures refused { IfErr result (λ e. Tells e (model.fault_of
        (model.operator_test variable (operator_view operator) (tree_in operand.now)))) }
{
    match operator {
        Operator::WithValue(comparison) => {
            if !is_comparable(comparison, operand) {
                return Err(RuleRefusal::BadOperand);
            }
            let operand = Operand::Constant(read_constant(alloc, operand)?);
            Ok(Test::Compare {
                variable,
                comparison,
                operand,
            })
        }
        Operator::WithPath(comparison) => {
            let operand = Operand::AtPath(read_path(alloc, read_text(operand)?)?);
            Ok(Test::Compare {
                variable,
                comparison,
                operand,
            })
        }
        Operator::Matching => {
            let pattern = read_pattern(alloc, read_text(operand)?.as_bytes())?;
            Ok(Test::StringMatches { variable, pattern })
        }
        Operator::OfKind(kind) => {
            let wanted = read_truth(operand)?;
            Ok(Test::IsOfKind {
                variable,
                kind,
                wanted,
            })
        }
        Operator::Presence => {
            let wanted = read_truth(operand)?;
            Ok(Test::IsPresent { variable, wanted })
        }
    }
}

/// The tree that the operand is.
fn read_constant(alloc: Global, operand: &Value) -> Result<Tree, RuleRefusal>
    ensures tree { IfOk result (λ t. trees.view t ≡ tree_in operand.now) }
    ensures not_whole { result ≡ Err RuleRefusal.NotWhole → tree_of (json_view operand.now) ≡ None }
    ensures refused { IfErr result (λ e. Tells e []) }
{
    match asl_tree::from_value(alloc, operand) {
        Ok(tree) => Ok(tree),
        Err(refusal) => match refusal {
            TreeRefusal::NotWhole => Err(RuleRefusal::NotWhole),
            TreeRefusal::OutOfMemory => Err(RuleRefusal::OutOfMemory),
            TreeRefusal::NotJson => unreachable!(),
        },
    }
}

/// The text that the operand is.
fn read_text(operand: &Value) -> Result<&str, RuleRefusal>
    ensures text { IfOk result (λ text. text_of (tree_in operand.now) ≡ Some text.now) }
    ensures utf8 { IfOk result (λ text. IsUtf8 text.now) }
    ensures of_text { ¬ (result ≡ Err RuleRefusal.NotWhole) }
    ensures refused { IfErr result
        (λ e. Tells e (missing model.BadOperand (text_of (tree_in operand.now)))) }
{
    match text_in(operand) {
        Some(text) => Ok(text),
        None => Err(RuleRefusal::BadOperand),
    }
}

/// The truth value that the operand is.
fn read_truth(operand: &Value) -> Result<bool, RuleRefusal>
    ensures truth { IfOk result (λ truth. boolean_of (tree_in operand.now) ≡ Some truth) }
    ensures of_truth { ¬ (result ≡ Err RuleRefusal.NotWhole) }
    ensures refused { IfErr result
        (λ e. Tells e (missing model.BadOperand (boolean_of (tree_in operand.now)))) }
{
    match truth_in(operand) {
        Some(truth) => Ok(truth),
        None => Err(RuleRefusal::BadOperand),
    }
}

/// The path that the text spells.
fn read_path(alloc: Global, text: &str) -> Result<RefPath, RuleRefusal>
    ensures path { IfOk result (λ p. path_of text.now ≡ Some p) }
    ensures of_text { ¬ (result ≡ Err RuleRefusal.NotWhole) }
    ensures refused { IfErr result (λ e. Tells e (missing model.BadPath (path_of text.now))) }
{
    match parse(alloc, text) {
        Ok(path) => Ok(path),
        Err(refusal) => match refusal {
            PathRefusal::OutOfMemory => Err(RuleRefusal::OutOfMemory),
            _ => Err(RuleRefusal::BadPath),
        },
    }
}
