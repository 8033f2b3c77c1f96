// Trees of one shape of a table that lack another.
ghost use Rattle.std.specs.Prelude.{◌≡◌, ◌<◌, ◌∷◌, ◌++◌, [], List, IfOk, IfSome, Some, length, option_map, string_bytes};
ghost use Rattle.asl_model.specs.Examples as model;
ghost use Rattle.asl_model.specs.Placing.{set_field};
ghost use Rattle.asl_model.specs.Shape as shape;
ghost use Rattle.asl_model.specs.Tree as json;
ghost use Rattle.asl_tree.specs.View.{view};
ghost use Rattle.asl_numbered.specs.Comparison.{AreRight};
ghost use Rattle.asl_numbered.specs.Examples.{examples_at};
ghost use Rattle.asl_numbered.specs.Expansion.{shape_at, fields_at, numbers_in, AreBelow};
ghost use Rattle.asl_numbered.specs.Outside.{sought_tree, step_over, steps_over, needed_of, numbers_of, IsSought, AreStepsWithin};

use crate::comparing::Compared;
use crate::examples::{build, build_needed, push_examples};
use crate::finding::{Sought, Step, find};
use crate::kinds::take_apart;
use crate::node::NodeField;
use crate::table::Table;
use crate::weights::{OWN_WEIGHT, examples_weight, make_room, needed_weight};
use asl_tree::{OutOfMemory, Tree};
use std::alloc::Global;
use std::collections::BTreeMap;
use std::rc::RcStr;

/// A tree that has the first shape and lacks the second, if there is one: the first that `find` finds. Room for it is asked
/// for at once.
pub(crate) fn outside(
    table: &Table,
    compared: &mut Compared,
    alloc: Global,
    sought: Sought,
) -> Result<Option<Tree>, OutOfMemory>
    requires right { AreRight table.now compared.old.entries }
    requires sought { IsSought table.now (length table.now) sought }
    ensures as_defined { IfOk result
        (λ r. option_map view r ≡ sought_tree table.now (Some sought)) }
    ensures right { AreRight table.now compared.new.entries }
{
    let none = BTreeMap::new(alloc);
    match find_steps(table, compared, alloc, &none, sought)? {
        Some(steps) => {
            make_room(alloc, steps_weight(table, &steps))?;
            Ok(Some(build_steps(table, alloc, steps)?))
        }
        None => Ok(None),
    }
}

// The levels of such a tree, from the outermost on; `None` where there is no such tree.
fn find_steps<'t>(
    table: &'t Table,
    compared: &mut Compared,
    alloc: Global,
    none: &'t BTreeMap<RcStr, NodeField>,
    sought: Sought,
) -> Result<Option<Vec<Step<'t>>>, OutOfMemory>
    requires right { AreRight table.now compared.old.entries }
    requires sought { IsSought table.now (length table.now) sought }
    requires none { none.now.entries ≡ [] }
    ensures found { IfOk result (λ r. sought_tree table.now (Some sought)
        ≡ option_map (λ steps. steps_over table.now steps.items json.Null) r) }
    ensures within { IfOk result (λ r. IfSome r (λ steps. AreStepsWithin table.now steps.items)) }
    ensures right { AreRight table.now compared.new.entries }
{
    let mut steps = Vec::new(alloc);
    let mut left = Some(sought);
    while let Some(next) = left {
        let Some(found) = find(table, compared, alloc, none, next)? else {
            return Ok(None);
        };
        steps.push(found.step)?;
        left = found.next;
    }
    Ok(Some(steps))
}

// The weight of a tree of these steps.
fn steps_weight(table: &Table, steps: &[Step<'_>]) -> usize {
    let mut weight: usize = 0;
    for step in steps {
        weight = weight.saturating_add(step_weight(table, *step));
    }
    weight
}

// The weight of a step, without the tree inside.
fn step_weight(table: &Table, step: Step<'_>) -> usize {
    let parts = match step {
        Step::Examples(places) => examples_weight(table, places),
        Step::Between { before, behind } => {
            examples_weight(table, before).saturating_add(examples_weight(table, behind))
        }
        Step::False | Step::Zero | Step::Null | Step::Empty => 0,
        Step::Needed(fields) => needed_weight(table, fields, None),
        Step::With { fields, name } => needed_weight(
            table,
            fields,
            Some(name.as_str()),
        ).saturating_add(name.len()),
        Step::WithFirst {
            fields,
            name,
            number,
        } => needed_weight(table, fields, Some(name.as_str()))
            .saturating_add(name.len())
            .saturating_add(table.weight(number)),
        Step::WithNew { fields, .. } => needed_weight(table, fields, None),
    };
    parts.saturating_add(OWN_WEIGHT)
}

// The tree of the steps, from the innermost on.
fn build_steps(table: &Table, alloc: Global, mut steps: Vec<Step<'_>>) -> Result<Tree, OutOfMemory>
    requires { AreStepsWithin table.now steps.items }
    ensures { IfOk result (λ t. view t ≡ steps_over table.now steps.entry.items json.Null) }
{
    let mut tree = Tree::Null;
    while let Some(step) = steps.pop() {
        tree = build_step(table, alloc, step, tree)?;
    }
    Ok(tree)
}

// The tree of the step, with that one inside.
fn build_step(
    table: &Table,
    alloc: Global,
    step: Step<'_>,
    inside: Tree,
) -> Result<Tree, OutOfMemory>
    requires { AreBelow (length table.now) (numbers_of step) }
    ensures { IfOk result (λ t. view t ≡ step_over table.now step.entry (view inside)) }
{
    match step {
        Step::Examples(places) => {
            let mut trees = Vec::with_capacity(alloc, places.len())?;
            push_examples(table, alloc, places, table.len(), &mut trees)?;
            Ok(Tree::List(trees))
        }
        Step::Between { before, behind } => build_between(table, alloc, before, inside, behind),
        Step::False => Ok(Tree::Bool(false)),
        Step::Zero => Ok(Tree::Int(0)),
        Step::Null => Ok(Tree::Null),
        Step::Empty => Ok(Tree::Text(String::new(alloc))),
        Step::Needed(fields) => {
            Ok(Tree::Object(build_needed(table, alloc, fields, None, table.len())?))
        }
        Step::With { fields, name } => build_with(table, alloc, fields, name, inside),
        Step::WithFirst {
            fields,
            name,
            number,
        } => {
            let first = build_first(table, alloc, number)?;
            build_with(table, alloc, fields, name, first)
        }
        Step::WithNew { fields, others } => {
            let name = new_name(alloc, fields, others)?;
            build_with(table, alloc, fields, &name, Tree::Null)
        }
    }
}

// The list of the tree, with examples before it and behind it.
fn build_between(
    table: &Table,
    alloc: Global,
    before: &[usize],
    inside: Tree,
    behind: &[usize],
) -> Result<Tree, OutOfMemory>
    requires before { AreBelow (length table.now) before.now }
    requires behind { AreBelow (length table.now) behind.now }
    ensures { IfOk result (λ t. view t
        ≡ json.Array (json.trees_of (examples_at table.now before.now
        ++ view inside ∷ examples_at table.now behind.now))) }
{
    let mut trees = Vec::new(alloc);
    push_examples(table, alloc, before, table.len(), &mut trees)?;
    trees.push(inside)?;
    push_examples(table, alloc, behind, table.len(), &mut trees)?;
    Ok(Tree::List(trees))
}

// The object of the needed fields, with the field of that name set to the tree.
fn build_with(
    table: &Table,
    alloc: Global,
    fields: &BTreeMap<RcStr, NodeField>,
    name: &str,
    inside: Tree,
) -> Result<Tree, OutOfMemory>
    requires { AreBelow (length table.now) (numbers_in fields.now.entries) }
    ensures { IfOk result (λ t. view t
        ≡ json.Object (set_field name.now (view inside)
        (needed_of table.now fields.now.entries))) }
{
    let mut built = build_needed(table, alloc, fields, Some(name), table.len())?;
    drop(built.insert(String::from_str(alloc, name)?, inside)?);
    Ok(Tree::Object(built))
}

// A tree of the shape, where there is one: the empty list for `Any`, else the example.
fn build_first(table: &Table, alloc: Global, number: usize) -> Result<Tree, OutOfMemory>
    requires { number < length table.now }
    ensures { IfOk result (λ t. view t ≡ model.first_tree (shape_at table.now number)) }
{
    match take_apart(table, number) {
        None => Ok(Tree::List(Vec::new(alloc))),
        Some(_) => build(table, alloc, number),
    }
}

// The first of `a`, `aa`, `aaa` and so on that none of the fields has for a name.
fn new_name(
    alloc: Global,
    fields: &BTreeMap<RcStr, NodeField>,
    others: &BTreeMap<RcStr, NodeField>,
) -> Result<String, OutOfMemory>
    ensures { (table : List shape.Shape) → IfOk result (λ name. string_bytes name
        ≡ model.fresh_name (fields_at table fields.now.entries)
        (fields_at table others.now.entries)) }
{
    let mut name = String::from_str(alloc, "a")?;
    for _ in 0..fields.len() + others.len() {
        let text = name.as_str();
        if !fields.contains_key(text) && !others.contains_key(text) {
            return Ok(name);
        }
        name.push('a')?;
    }
    Ok(name)
}
