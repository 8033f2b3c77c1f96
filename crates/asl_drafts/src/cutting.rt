//! Shapes cut to a depth, so that a shape can't grow without end.

ghost use Rattle.std.specs.Prelude.{◌<◌, ◌≤◌, length, IfOk};
ghost use Rattle.asl_model.specs.ShapeOrder as order;
ghost use Rattle.asl_drafts.specs.Cutting as model;
ghost use Rattle.asl_drafts.specs.Cuts.{AreCutTo};
ghost use Rattle.asl_numbered.specs.Expansion.{shape_at, AreBelow, Keeps, Shows};

use crate::store::{Cut, Store};
use asl_numbered::Node;
use asl_tree::OutOfMemory;

/// How many levels a shape of a draft has at most.
const DEEPEST: u8 = 48;

/// The number of the join of the shapes of two numbers, with Any for each shape below the deepest level.
pub(crate) fn join_cut(store: &mut Store, first: usize, second: usize) -> Result<usize, OutOfMemory>
    requires first { first < length store.old }
    requires second { second < length store.old }
    ensures join { IfOk result
        (Shows store.new (model.cut (order.join (shape_at store.old first)
        (shape_at store.old second)))) }
    ensures keeps { Keeps store.old store.new }
{
    let joined = store.join(first, second)?;
    cut_to(store, joined, DEEPEST)
}

/// The number of the shape down to so many levels, with Any for each shape below them.
#[cycle(cut_to)]
fn cut_to(store: &mut Store, number: usize, levels: u8) -> Result<usize, OutOfMemory>
    requires within { number < length store.old }
    requires few { levels ≤ model.deepest }
    ensures cut { IfOk result (Shows store.new (model.cut_to levels (shape_at store.old number))) }
    ensures keeps { Keeps store.old store.new }
{
    let Some(below) = levels.checked_sub(1) else {
        return store.put(Node::Any);
    };
    if store.depth(number)? <= levels {
        return Ok(number);
    }
    let cut = Cut { number, levels };
    if let Some(known) = store.known(cut) {
        return Ok(known);
    }
    let parts = store.parts(number)?;
    let parts = cut_each(store, &parts, below)?;
    let made = store.rebuild(number, &parts)?;
    store.remember(cut, made)?;
    Ok(made)
}

/// So for each of the numbers.
#[cycle(cut_to)]
fn cut_each(store: &mut Store, numbers: &[usize], levels: u8) -> Result<Vec<usize>, OutOfMemory>
    requires below { AreBelow (length store.old) numbers.now }
    requires few { levels ≤ model.deepest }
    ensures cut { IfOk result
        (λ cuts. AreCutTo levels store.old numbers.now store.new cuts.items) }
    ensures keeps { Keeps store.old store.new }
{
    let mut cuts = Vec::with_capacity(store.alloc, numbers.len())?;
    for number in numbers {
        cuts.push(cut_to(store, *number, levels)?)?;
    }
    Ok(cuts)
}
