//! Tests whose truth the shape of the data settles.

ghost use Rattle.std.specs.Prelude.{◌<◌, ◌≤◌, IfOk, length};

use asl_choice::{Comparison, Operand, Test, ValueKind};
use asl_numbered::{NodeKinds, Shapes};
use asl_path::{PathRefusal, RefPath, parse, print};
use asl_shape_paths::find_at;
use asl_shape_rules::let_through_at;
use asl_tree::OutOfMemory;
use std::alloc::Global;

/// The truth value that the test has for every tree of the shape of that number for which it has one, where that is known.
#[cycle(settled)]
pub(crate) fn settled_truth(
    alloc: Global,
    shapes: &mut Shapes,
    test: &Test,
    number: usize,
) -> Result<Option<bool>, OutOfMemory>
    requires { number < length shapes.old }
    ensures { length shapes.old ≤ length shapes.new }
{
    if is_never_true(alloc, shapes, test, number)? {
        return Ok(Some(false));
    }
    match test {
        Test::And(tests) => settled_of_and(alloc, shapes, tests, number),
        Test::Or(tests) => settled_of_or(alloc, shapes, tests, number),
        Test::Not(part) => match settled_truth(alloc, shapes, part, number)? {
            Some(truth) => Ok(Some(!truth)),
            None => Ok(None),
        },
        Test::IsPresent { variable, wanted } => {
            settled_presence(alloc, shapes, variable, *wanted, number)
        }
        Test::IsOfKind {
            variable,
            kind,
            wanted,
        } => settled_kind(shapes, variable, *kind, *wanted, number),
        Test::Compare {
            variable,
            comparison,
            operand,
        } => settled_comparison(shapes, variable, *comparison, operand, number),
        Test::StringMatches { variable, .. } => {
            settled_by_kind(shapes, variable, ValueKind::String, number)
        }
    }
}

/// Whether the shape lets no tree through for which the test is true.
#[tactic(auto, using(asl_numbered::specs::Laws::keeps_longer))]
fn is_never_true(
    alloc: Global,
    shapes: &mut Shapes,
    test: &Test,
    number: usize,
) -> Result<bool, OutOfMemory>
    requires { number < length shapes.old }
    ensures { length shapes.old ≤ length shapes.new }
{
    match let_through_at(alloc, shapes, test, number)? {
        Ok(through) => Ok(shapes.inhabited(through) == Some(false)),
        Err(_) => Ok(false),
    }
}

/// So for tests of an `And`: one that is false decides, and each is looked at for the trees for which those in front of it
/// are true.
#[cycle(settled)]
fn settled_of_and(
    alloc: Global,
    shapes: &mut Shapes,
    tests: &[Test],
    number: usize,
) -> Result<Option<bool>, OutOfMemory>
    requires { number < length shapes.old }
    ensures { length shapes.old ≤ length shapes.new }
{
    let mut settled = Some(true);
    let mut narrowed = number;
    for test in tests {
        match settled_truth(alloc, shapes, test, narrowed)? {
            Some(false) => return Ok(Some(false)),
            Some(true) => {}
            None => settled = None,
        }
        narrowed = narrowed_by(alloc, shapes, test, narrowed)?;
    }
    Ok(settled)
}

/// The number of the shape of the trees for which the test is true; the same number where a path of it may name nothing.
#[tactic(auto, using(asl_numbered::specs::Laws::keeps_longer))]
fn narrowed_by(
    alloc: Global,
    shapes: &mut Shapes,
    test: &Test,
    number: usize,
) -> Result<usize, OutOfMemory>
    requires { number < length shapes.old }
    ensures within { IfOk result (λ narrowed. narrowed < length shapes.new) }
    ensures longer { length shapes.old ≤ length shapes.new }
{
    match let_through_at(alloc, shapes, test, number)? {
        Ok(through) => Ok(through),
        Err(_) => Ok(number),
    }
}

/// So for tests of an `Or`: one that is true decides.
#[cycle(settled)]
fn settled_of_or(
    alloc: Global,
    shapes: &mut Shapes,
    tests: &[Test],
    number: usize,
) -> Result<Option<bool>, OutOfMemory>
    requires { number < length shapes.old }
    ensures { length shapes.old ≤ length shapes.new }
{
    let mut settled = Some(false);
    for test in tests {
        match settled_truth(alloc, shapes, test, number)? {
            Some(true) => return Ok(Some(true)),
            Some(false) => {}
            None => settled = None,
        }
    }
    Ok(settled)
}

/// So for whether a path names something, where that is wanted or not: it is settled where the path always does, or never.
#[tactic(auto, using(asl_numbered::specs::Laws::keeps_longer))]
fn settled_presence(
    alloc: Global,
    shapes: &mut Shapes,
    path: &RefPath,
    wanted: bool,
    number: usize,
) -> Result<Option<bool>, OutOfMemory>
    requires { number < length shapes.old }
    ensures { length shapes.old ≤ length shapes.new }
{
    if find_at(shapes, number, path)?.is_ok() {
        return Ok(Some(wanted));
    }
    match is_never_there(alloc, shapes, path, number)? {
        true => Ok(Some(!wanted)),
        false => Ok(None),
    }
}

/// Whether the path names something in no tree of the shape.
fn is_never_there(
    alloc: Global,
    shapes: &mut Shapes,
    path: &RefPath,
    number: usize,
) -> Result<bool, OutOfMemory>
    requires { number < length shapes.old }
    ensures { length shapes.old ≤ length shapes.new }
{
    let printed = print(alloc, path)?;
    match parse(alloc, &printed) {
        Ok(variable) => {
            let wanted = true;
            is_never_true(alloc, shapes, &Test::IsPresent { variable, wanted }, number)
        }
        Err(PathRefusal::OutOfMemory) => Err(OutOfMemory),
        Err(_) => Ok(false),
    }
}

/// So for whether what the path names is of a kind.
#[tactic(auto, using(asl_numbered::specs::Laws::keeps_longer))]
fn settled_kind(
    shapes: &mut Shapes,
    path: &RefPath,
    kind: ValueKind,
    wanted: bool,
    number: usize,
) -> Result<Option<bool>, OutOfMemory>
    requires { number < length shapes.old }
    ensures { length shapes.old ≤ length shapes.new }
{
    let Ok(found) = find_at(shapes, number, path)? else {
        return Ok(None);
    };
    let Some(kinds) = shapes.take_apart(found) else {
        return Ok(None);
    };
    if !takes_kind(&kinds, kind) {
        Ok(Some(!wanted))
    } else if takes_no_other(&kinds, kind) {
        Ok(Some(wanted))
    } else {
        Ok(None)
    }
}

/// So for a comparison: it is settled where one of its two values is never of the kind that is compared.
fn settled_comparison(
    shapes: &mut Shapes,
    path: &RefPath,
    comparison: Comparison,
    operand: &Operand,
    number: usize,
) -> Result<Option<bool>, OutOfMemory>
    requires { number < length shapes.old }
    ensures { length shapes.old ≤ length shapes.new }
{
    let kind = match comparison {
        Comparison::String(_) => ValueKind::String,
        Comparison::Numeric(_) => ValueKind::Numeric,
        Comparison::BooleanEquals => ValueKind::Boolean,
    };
    match (settled_by_kind(shapes, path, kind, number)?, operand) {
        (None, Operand::AtPath(other)) => settled_by_kind(shapes, other, kind, number),
        (settled, _) => Ok(settled),
    }
}

/// So for a test that is true only where what the path names is of that kind: it is settled where that never is.
#[tactic(auto, using(asl_numbered::specs::Laws::keeps_longer))]
fn settled_by_kind(
    shapes: &mut Shapes,
    path: &RefPath,
    kind: ValueKind,
    number: usize,
) -> Result<Option<bool>, OutOfMemory>
    requires { number < length shapes.old }
    ensures { length shapes.old ≤ length shapes.new }
{
    let Ok(found) = find_at(shapes, number, path)? else {
        return Ok(None);
    };
    match shapes.take_apart(found) {
        Some(kinds) if !takes_kind(&kinds, kind) => Ok(Some(false)),
        _ => Ok(None),
    }
}

/// Whether trees of that kind are taken.
fn takes_kind(kinds: &NodeKinds, kind: ValueKind) -> bool {
    match kind {
        ValueKind::Null => kinds.null,
        ValueKind::Boolean => kinds.boolean,
        ValueKind::Numeric => kinds.integer,
        ValueKind::String => kinds.text,
    }
}

/// Whether no trees of other kinds are taken.
fn takes_no_other(kinds: &NodeKinds, kind: ValueKind) -> bool {
    let is_alone = match kind {
        ValueKind::Null => !kinds.boolean && !kinds.integer && !kinds.text,
        ValueKind::Boolean => !kinds.null && !kinds.integer && !kinds.text,
        ValueKind::Numeric => !kinds.null && !kinds.boolean && !kinds.text,
        ValueKind::String => !kinds.null && !kinds.boolean && !kinds.integer,
    };
    is_alone && kinds.arrays.is_none() && kinds.objects.is_none()
}
