//! The shape of the trees for which a rule's test is true.
ghost use Rattle.std.specs.Prelude.{◌≡◌, ◌<◌, Bool, IsTrue, Ok, IfErr, IfOk, Some, length};
ghost use Rattle.asl_choice.specs.View.{operand_view, tests_view, view as test_view};
ghost use Rattle.asl_shape_paths.specs.Doubts.{found_view, IsFoundIn};
ghost use Rattle.asl_shape_rules.specs.Narrowed.{IsRefused};
ghost use Rattle.asl_model.specs.Shape.{Has};
ghost use Rattle.asl_model.specs.ShapeFlow as model;
ghost use Rattle.asl_model.specs.Test.{truth};
ghost use Rattle.asl_model.specs.Tree as trees;
ghost use Rattle.asl_numbered.specs.Expansion.{shape_at, IsNumberOf, Keeps};
ghost use Rattle.asl_shape.specs.View.{view};

use crate::kind_tests::narrow_to_kind;
use crate::narrowing::narrow_to_present;
use asl_choice::{Operand, Test};
use asl_model::shape_laws::rule_shape_means_decided;
use asl_numbered::Shapes;
use asl_path::RefPath;
use asl_shape::Shape;
use asl_shape_paths::numbers::{expand, is_inhabited, put_never};
use asl_shape_paths::parts::look_up;
use asl_shape_paths::{Found, counterexample_at};
use asl_tree::{OutOfMemory, Tree};
use std::alloc::Global;

/// Why a rule has no shape.
#[derive(Debug, Drop)]
pub enum RuleShapeRefusal {
    /// A path of the test may name nothing: that tree has the shape that it is looked up in, and it names nothing there.
    MayBeMissing(Tree),
    /// An allocation was refused.
    OutOfMemory,
}

impl From<OutOfMemory> for RuleShapeRefusal {
    ghost use Rattle.asl_shape_rules.specs.declared.rules.RuleShapeRefusal.{RuleShapeRefusal};

    ghost from_gives = { λ _ refusal. refusal ≡ RuleShapeRefusal.OutOfMemory };

    fn from(_error: OutOfMemory) -> RuleShapeRefusal {
        RuleShapeRefusal::OutOfMemory
    }
}

/// The shape of the trees of `shape` for which the test is true (States Language, "Choice State").
///
/// Each path but that of `IsPresent` must name something in every tree of the shape at hand; else the refusal is
/// `MayBeMissing`, with a tree of that shape in which the first such path names nothing, and where there is no such path,
/// only `OutOfMemory` is possible. `IsPresent` narrows the shape to the trees in which its path names something, where
/// that is wanted, and `IsNull`, `IsBoolean`, `IsNumeric` and `IsString` to those in which what the path names is of that
/// kind, or else of another. `And` hands the narrowed shape from each part to the next and answers the last; `Or` and
/// `Not` look at each part with the shape as it is, and answer that. Of a shape without a tree the answer is `Never`, also
/// of one that a part of an `And` hands to the next.
pub fn rule_shape(alloc: Global, test: &Test, shape: &Shape) -> Result<Shape, RuleShapeRefusal>
    ensures as_defined { IfOk result
        (λ s. model.rule_shape (test_view test.now) (view shape.now) ≡ Ok (view s)) }
    ensures decided { IfOk result
        (λ s. (t : trees.Tree) → Has (view shape.now) t
        → (b : Bool) × (truth (test_view test.now) t ≡ Some b) × (IsTrue b → Has (view s) t)) }
    ensures refused { IfErr result
        (IsRefused (model.rule_shape (test_view test.now) (view shape.now))) }
{
    let mut shapes = Shapes::new(alloc);
    let number = shapes.add(shape)?;
    let narrowed = rule_shape_at(alloc, &mut shapes, test, number)?;
    Ok(expand(&shapes, narrowed)?)
}

/// The number of the shape of the trees of the number's shape for which the test is true, as [`rule_shape`] tells it.
pub fn rule_shape_at(
    alloc: Global,
    shapes: &mut Shapes,
    test: &Test,
    number: usize,
) -> Result<usize, RuleShapeRefusal>
    requires number { number < length shapes.old }
    ensures as_defined { IfOk result
        (λ n. model.rule_shape (test_view test.now) (shape_at shapes.old number)
        ≡ Ok (shape_at shapes.new n)) }
    ensures number { IfOk result (λ n. IsNumberOf shapes.new (shape_at shapes.new n) n) }
    ensures decided { IfOk result
        (λ n. (t : trees.Tree) → Has (shape_at shapes.old number) t
        → (b : Bool) × (truth (test_view test.now) t ≡ Some b)
        × (IsTrue b → Has (shape_at shapes.new n) t)) }
    ensures refused { IfErr result
        (IsRefused (model.rule_shape (test_view test.now) (shape_at shapes.old number))) }
    ensures keeps { Keeps shapes.old shapes.new }
{
    rule_shape_means_decided();
    match let_through_at(alloc, shapes, test, number)? {
        Ok(narrowed) => Ok(narrowed),
        Err(doubtful) => {
            let tree = counterexample_at(alloc, shapes, doubtful)?;
            Err(RuleShapeRefusal::MayBeMissing(tree))
        }
    }
}

/// The same, where the first path that may name nothing is told as it is, with no tree made of it. Refuses only where an
/// allocation was refused.
pub fn let_through_at<'p>(
    alloc: Global,
    shapes: &mut Shapes,
    test: &'p Test,
    number: usize,
) -> Result<Found<'p>, OutOfMemory>
    requires number { number < length shapes.old }
    ensures as_defined { IfOk result
        (λ answer. model.rule_shape (test_view test.now) (shape_at shapes.old number)
        ≡ found_view shapes.new answer) }
    ensures within { IfOk result (IsFoundIn (length shapes.new)) }
    ensures number { IfOk result
        (λ answer. IfOk answer (λ n. IsNumberOf shapes.new (shape_at shapes.new n) n)) }
    ensures keeps { Keeps shapes.old shapes.new }
{
    let answer = narrow_inhabited(alloc, shapes, test, number)?;
    shapes.are_distinct();
    Ok(answer)
}

/// Narrows the shape to the trees for which the test is true; of a shape without a tree the answer is `Never`.
#[cycle(narrow)]
fn narrow_inhabited<'p>(
    alloc: Global,
    shapes: &mut Shapes,
    test: &'p Test,
    number: usize,
) -> Result<Found<'p>, OutOfMemory>
    requires number { number < length shapes.old }
    ensures as_defined { IfOk result
        (λ answer. model.rule_shape (test_view test.now) (shape_at shapes.old number)
        ≡ found_view shapes.new answer) }
    ensures within { IfOk result (IsFoundIn (length shapes.new)) }
    ensures keeps { Keeps shapes.old shapes.new }
{
    if !is_inhabited(shapes, number) {
        return Ok(Ok(put_never(shapes)?));
    }
    narrow(alloc, shapes, test, number)
}

/// The same of a shape that some tree has.
#[cycle(narrow)]
fn narrow<'p>(
    alloc: Global,
    shapes: &mut Shapes,
    test: &'p Test,
    number: usize,
) -> Result<Found<'p>, OutOfMemory>
    requires number { number < length shapes.old }
    ensures as_defined { IfOk result
        (λ answer. model.true_of (test_view test.now) (shape_at shapes.old number)
        ≡ found_view shapes.new answer) }
    ensures within { IfOk result (IsFoundIn (length shapes.new)) }
    ensures keeps { Keeps shapes.old shapes.new }
{
    match test {
        Test::And(tests) => narrow_by_all(alloc, shapes, tests, number),
        Test::Or(tests) => check_all(alloc, shapes, tests, number),
        Test::Not(part) => check(alloc, shapes, part, number),
        Test::Compare {
            variable,
            operand,
            ..
        } => Ok(keep_if_compared(shapes, number, variable, operand)),
        Test::StringMatches { variable, .. } => Ok(keep_if_found(shapes, number, variable)),
        Test::IsOfKind {
            variable,
            kind,
            wanted,
        } => narrow_to_kind(alloc, shapes, number, variable, *kind, *wanted),
        Test::IsPresent { variable, wanted } => {
            if *wanted {
                Ok(Ok(narrow_to_present(alloc, shapes, number, variable.segments())?))
            } else {
                Ok(Ok(number))
            }
        }
    }
}

/// Narrows the shape by each test in turn; from a shape without a tree on the answer is `Never`.
#[cycle(narrow)]
fn narrow_by_all<'p>(
    alloc: Global,
    shapes: &mut Shapes,
    tests: &'p [Test],
    number: usize,
) -> Result<Found<'p>, OutOfMemory>
    requires number { number < length shapes.old }
    ensures as_defined { IfOk result
        (λ answer. model.each_true_of (tests_view tests.now) (shape_at shapes.old number)
        ≡ found_view shapes.new answer) }
    ensures within { IfOk result (IsFoundIn (length shapes.new)) }
    ensures keeps { Keeps shapes.old shapes.new }
{
    let mut narrowed = number;
    for test in tests {
        match narrow_inhabited(alloc, shapes, test, narrowed)? {
            Ok(left) => narrowed = left,
            Err(doubtful) => return Ok(Err(doubtful)),
        }
    }
    Ok(Ok(narrowed))
}

/// The number, or the first path by which one of the tests may be neither true nor false of a tree of its shape.
#[cycle(narrow)]
fn check_all<'p>(
    alloc: Global,
    shapes: &mut Shapes,
    tests: &'p [Test],
    number: usize,
) -> Result<Found<'p>, OutOfMemory>
    requires number { number < length shapes.old }
    ensures as_defined { IfOk result
        (λ answer. model.where_found
        (model.each_found (tests_view tests.now) (shape_at shapes.old number))
        (Ok (shape_at shapes.old number)) ≡ found_view shapes.new answer) }
    ensures within { IfOk result (IsFoundIn (length shapes.new)) }
    ensures keeps { Keeps shapes.old shapes.new }
{
    for test in tests {
        match check(alloc, shapes, test, number)? {
            Ok(_) => {}
            Err(doubtful) => return Ok(Err(doubtful)),
        }
    }
    Ok(Ok(number))
}

/// The number, or the first path by which the test may be neither true nor false of a tree of its shape. `IsPresent` always
/// is one of them, and a test of a kind where its path is found, so nothing is narrowed for these.
#[cycle(narrow)]
fn check<'p>(
    alloc: Global,
    shapes: &mut Shapes,
    test: &'p Test,
    number: usize,
) -> Result<Found<'p>, OutOfMemory>
    requires number { number < length shapes.old }
    ensures as_defined { IfOk result
        (λ answer. model.where_found
        (model.true_of (test_view test.now) (shape_at shapes.old number))
        (Ok (shape_at shapes.old number)) ≡ found_view shapes.new answer) }
    ensures within { IfOk result (IsFoundIn (length shapes.new)) }
    ensures keeps { Keeps shapes.old shapes.new }
{
    match test {
        Test::IsPresent { .. } => Ok(Ok(number)),
        Test::IsOfKind { variable, .. } => Ok(keep_if_found(shapes, number, variable)),
        Test::And(_)
        | Test::Or(_)
        | Test::Not(_)
        | Test::Compare { .. }
        | Test::StringMatches { .. } => match narrow(alloc, shapes, test, number)? {
            Ok(_) => Ok(Ok(number)),
            Err(doubtful) => Ok(Err(doubtful)),
        },
    }
}

/// The number, where the path names something in every tree of its shape.
fn keep_if_found<'p>(shapes: &Shapes, number: usize, path: &'p RefPath) -> Found<'p>
    requires number { number < length shapes.now }
    ensures as_defined { model.where_found
        (model.found path.now (shape_at shapes.now number)) (Ok (shape_at shapes.now number))
        ≡ found_view shapes.now result }
    ensures within { IsFoundIn (length shapes.now) result }
{
    if !is_inhabited(shapes, number) {
        return Ok(number);
    }
    match look_up(shapes, number, path) {
        Ok(_) => Ok(number),
        Err(doubtful) => Err(doubtful),
    }
}

/// The number, where both values of a comparison stand there for every tree of its shape.
fn keep_if_compared<'p>(
    shapes: &Shapes,
    number: usize,
    path: &'p RefPath,
    operand: &'p Operand,
) -> Found<'p>
    requires number { number < length shapes.now }
    ensures as_defined { model.where_found
        (model.found path.now (shape_at shapes.now number)) (model.where_found
        (model.operand_shape (operand_view operand.now) (shape_at shapes.now number))
        (Ok (shape_at shapes.now number))) ≡ found_view shapes.now result }
    ensures within { IsFoundIn (length shapes.now) result }
{
    match keep_if_found(shapes, number, path) {
        Ok(_) => keep_if_operand(shapes, number, operand),
        Err(doubtful) => Err(doubtful),
    }
}

/// The number, where a comparison's second value stands there for every tree of its shape.
fn keep_if_operand<'p>(shapes: &Shapes, number: usize, operand: &'p Operand) -> Found<'p>
    requires number { number < length shapes.now }
    ensures as_defined { model.where_found
        (model.operand_shape (operand_view operand.now) (shape_at shapes.now number))
        (Ok (shape_at shapes.now number)) ≡ found_view shapes.now result }
    ensures within { IsFoundIn (length shapes.now) result }
{
    match operand {
        Operand::Constant(_) => Ok(number),
        Operand::AtPath(path) => keep_if_found(shapes, number, path),
    }
}
