//! Whether a test is true.
ghost use Rattle.std.specs.Prelude.{◌≡◌, ◌↔◌, ℕ, List, None, Some, IfErr, IfOk, IsTrue, option_map};
ghost use Rattle.std.specs.Result.{result_ok};
ghost use Rattle.asl_model.specs.Test.{IsCutBy, PatternPart, StringMatches, operand_value as value_of_operand, truth, all_true as truth_of_all, some_true as truth_of_some};
ghost use Rattle.asl_model.specs.Path.{Names, Segment, named_by};
ghost use Rattle.asl_model.specs.Tree.{Text};
ghost use Rattle.asl_choice.specs.View.{operand_view, tests_view, view};
ghost use Rattle.asl_tree.specs.View as trees;

use crate::comparing::{as_text, compares, is_of_kind};
use crate::matching::matches;
use crate::{Operand, Test};
use asl_model::run_laws::{matching_is_exactly_cutting, named_by_is_exactly_names};
use asl_path::{RefPath, find};
use asl_tree::Tree;

/// A test isn't decided, since a path in it names nothing.
#[derive(Clone, Copy, Debug, Drop)]
pub struct NamesNothing;

/// Whether the test is true of the input (States Language, "Choice State").
///
/// `And` is decided by its first part that isn't true, `Or` by its first that isn't false, so what stands behind that
/// part isn't looked at. Every test but `IsPresent` with a path that names nothing is neither true nor false. A text
/// matches a pattern where it can be cut into parts, one for each element: a byte is itself, a star any text.
pub fn holds(test: &Test, input: &Tree) -> Result<bool, NamesNothing>
    ensures decided { IfOk result
        (λ answer. truth (view test.now) (trees.view input.now) ≡ Some answer) }
    ensures names_nothing { IfErr result
        (λ _. truth (view test.now) (trees.view input.now) ≡ None) }
    ensures matched { (p : List Segment) (parts : List PatternPart) (text : List ℕ)
        → view test.now ≡ StringMatches p parts
        → Names p (trees.view input.now) (Text text)
        → IfOk result (λ answer. IsTrue answer ↔ IsCutBy parts text) }
{
    named_by_is_exactly_names();
    matching_is_exactly_cutting();
    decide(test, input)
}

/// Whether the test is true of the input, by its definition.
#[cycle(decide)]
fn decide(test: &Test, input: &Tree) -> Result<bool, NamesNothing>
    ensures decided { IfOk result
        (λ answer. truth (view test.now) (trees.view input.now) ≡ Some answer) }
    ensures names_nothing { IfErr result
        (λ _. truth (view test.now) (trees.view input.now) ≡ None) }
{
    match test {
        Test::And(tests) => all_true(tests, input),
        Test::Or(tests) => some_true(tests, input),
        Test::Not(test) => Ok(!decide(test, input)?),
        Test::Compare {
            variable,
            comparison,
            operand,
        } => {
            let value = named(input, variable)?;
            let other = operand_value(operand, input)?;
            Ok(compares(*comparison, value, other))
        }
        Test::StringMatches { variable, pattern } => match as_text(named(input, variable)?) {
            Some(text) => Ok(matches(pattern, text.as_bytes())),
            None => Ok(false),
        },
        Test::IsOfKind {
            variable,
            kind,
            wanted,
        } => Ok(is_of_kind(*kind, named(input, variable)?) == *wanted),
        Test::IsPresent { variable, wanted } => Ok(find(input, variable).is_some() == *wanted),
    }
}

/// `And`: the first part that isn't true decides; true where there is none.
#[cycle(decide)]
fn all_true(tests: &[Test], input: &Tree) -> Result<bool, NamesNothing>
    ensures { result_ok result ≡ truth_of_all (tests_view tests.now) (trees.view input.now) }
{
    for test in tests {
        if !decide(test, input)? {
            return Ok(false);
        }
    }
    Ok(true)
}

/// `Or`: the first part that isn't false decides; false where there is none.
#[cycle(decide)]
fn some_true(tests: &[Test], input: &Tree) -> Result<bool, NamesNothing>
    ensures { result_ok result ≡ truth_of_some (tests_view tests.now) (trees.view input.now) }
{
    for test in tests {
        if decide(test, input)? {
            return Ok(true);
        }
    }
    Ok(false)
}

/// The second value of a comparison.
fn operand_value<'t>(operand: &'t Operand, input: &'t Tree) -> Result<&'t Tree, NamesNothing>
    ensures { option_map (λ t. trees.view t.now) (result_ok result)
        ≡ value_of_operand (operand_view operand.now) (trees.view input.now) }
{
    match operand {
        Operand::Constant(value) => Ok(value),
        Operand::AtPath(path) => named(input, path),
    }
}

/// What the path names in the input.
fn named<'t>(input: &'t Tree, path: &RefPath) -> Result<&'t Tree, NamesNothing>
    ensures { option_map (λ t. trees.view t.now) (result_ok result)
        ≡ named_by path.now (trees.view input.now) }
{
    match find(input, path) {
        Some(value) => Ok(value),
        None => Err(NamesNothing),
    }
}
