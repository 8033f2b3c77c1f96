//! Rules of a Choice that stand for its `Default`.

ghost use Rattle.std.specs.Prelude.{◌≡◌, ◌<◌, List, IfOk, Some, length, map};
ghost use Rattle.asl_choice.specs.View.{comparison_view, kind_view, operand_view, view as test_view};
ghost use Rattle.asl_shape_rules.specs.Settling.{IsAsked, question_at};
ghost use Rattle.asl_model.specs.Path.{Segment};
ghost use Rattle.asl_model.specs.ShapeFlow as model;
ghost use Rattle.asl_model.specs.Test.{as_boolean};
ghost use Rattle.asl_numbered.specs.Expansion.{shape_at};
ghost use Rattle.asl_states.specs.Machine.{choice_rule_view};
ghost use Rattle.asl_tree.specs.View as trees;

use asl_choice::{Comparison, Operand, Test, ValueKind};
use asl_numbered::Shapes;
use asl_path::{RefPath, print};
use asl_shape_paths::kinds::is_only_booleans;
use asl_shape_paths::numbers::is_inhabited;
use asl_shape_paths::parts::find_part;
use asl_states::ChoiceRule;
use asl_tree::{OutOfMemory, Tree};
use indexmap::IndexMap;
use std::alloc::Global;

/// What is asked of a path.
#[derive(Clone, Copy, PartialEq, Eq, Hash)]
enum Asks {
    /// Whether it names something.
    Presence,
    /// Whether what it names is `null`.
    Null,
    /// Whether it is a number.
    Numeric,
    /// Whether it is a text.
    Text,
    /// Whether it is a truth value.
    Boolean,
    /// Whether it is `true`.
    Truth,
}

/// What a rule asks, and the text of the path that it asks of.
#[derive(PartialEq, Eq, Hash, Drop)]
struct Question {
    asks: Asks,
    path: String,
}

/// Whether two of the rules ask the same of one path, one for yes and one for no, on trees of the shape of that number:
/// one of the two is true of each tree on which both are decided, so that no `Default` is needed (States Language, "Choice
/// State").
///
/// They ask whether the path names something, whether what it names is of a kind, or, where truth values alone are found
/// there, whether it is true. Refuses only where an allocation was refused.
pub fn settles_at(
    alloc: Global,
    shapes: &Shapes,
    choices: &[ChoiceRule],
    number: usize,
) -> Result<bool, OutOfMemory>
    requires number { number < length shapes.now }
    ensures as_defined { IfOk result
        (λ b. b ≡ model.is_settled (map choice_rule_view choices.now)
        (shape_at shapes.now number)) }
{
    let mut answers = IndexMap::new(alloc);
    for choice in choices {
        if let Some((question, wanted)) = asked_by(alloc, shapes, &choice.test, number)? {
            match answers.get(&question).copied() {
                Some(answer) if answer != wanted => return Ok(true),
                Some(_) => {}
                None => drop(answers.insert(question, wanted)?),
            }
        }
    }
    Ok(false)
}

/// What a test asks on trees of the shape of that number, and the answer that makes it true. It may ask nothing of one
/// path alone.
fn asked_by(
    alloc: Global,
    shapes: &Shapes,
    test: &Test,
    number: usize,
) -> Result<Option<(Question, bool)>, OutOfMemory>
    requires number { number < length shapes.now }
    ensures { IfOk result (IsAsked (model.asks (shape_at shapes.now number) (test_view test.now))) }
{
    match test {
        Test::IsPresent { variable, wanted } => ask(alloc, Asks::Presence, variable, *wanted),
        Test::IsOfKind {
            variable,
            kind,
            wanted,
        } => ask(alloc, asks_for(*kind), variable, *wanted),
        Test::Compare {
            variable,
            comparison,
            operand,
        } => match truth_asked(*comparison, operand) {
            Some(wanted) if finds_booleans(shapes, number, variable) => {
                ask(alloc, Asks::Truth, variable, wanted)
            }
            Some(_) | None => Ok(None),
        },
        Test::And(_) | Test::Or(_) | Test::Not(_) | Test::StringMatches { .. } => Ok(None),
    }
}

/// What is asked of the path, and the answer that is wanted.
fn ask(
    alloc: Global,
    asks: Asks,
    path: &RefPath,
    wanted: bool,
) -> Result<Option<(Question, bool)>, OutOfMemory>
    ensures { IfOk result (IsAsked (Some (question_at asks path.now, wanted))) }
{
    let path = print(alloc, path)?;
    Ok(Some((Question { asks, path }, wanted)))
}

/// What a test of that kind asks.
fn asks_for(kind: ValueKind) -> Asks
    ensures { (path : List Segment) → question_at result path ≡ model.IsOf (kind_view kind) path }
{
    match kind {
        ValueKind::Null => Asks::Null,
        ValueKind::Numeric => Asks::Numeric,
        ValueKind::String => Asks::Text,
        ValueKind::Boolean => Asks::Boolean,
    }
}

/// The truth value that a comparison with a constant asks for, if it asks for one.
fn truth_asked(comparison: Comparison, operand: &Operand) -> Option<bool>
    ensures { result ≡ model.truth_asked (comparison_view comparison) (operand_view operand.now) }
{
    match comparison {
        Comparison::BooleanEquals => match operand {
            Operand::Constant(constant) => truth_value(constant),
            Operand::AtPath(_) => None,
        },
        Comparison::String(_) | Comparison::Numeric(_) => None,
    }
}

/// The truth value that the tree is, if it is one.
fn truth_value(tree: &Tree) -> Option<bool>
    ensures { result ≡ as_boolean (trees.view tree.now) }
{
    match tree {
        Tree::Bool(value) => Some(*value),
        Tree::Null | Tree::Int(_) | Tree::Text(_) | Tree::List(_) | Tree::Object(_) => None,
    }
}

/// Whether the path names truth values alone in the trees of the shape of that number.
fn finds_booleans(shapes: &Shapes, number: usize, path: &RefPath) -> bool
    requires number { number < length shapes.now }
    ensures { result ≡ model.finds_booleans (model.look path.now (shape_at shapes.now number)) }
{
    match find_part(shapes, number, path) {
        Ok(part) => is_inhabited(shapes, number) && is_only_booleans(shapes, part),
        Err(_) => false,
    }
}
