// Trees of the shapes of a table.
//
// The shapes share their parts, and a tree doesn't, so that a few shapes may have a tree of any size: room for a large one
// is asked for as a whole, before any of it is made.
ghost use Rattle.std.specs.Prelude.{◌≡◌, ◌<◌, ◌≤◌, ◌++◌, IfOk, length, map, option_map};
ghost use Rattle.asl_model.specs.Examples as model;
ghost use Rattle.asl_tree.specs.View.{view, entries_view};
ghost use Rattle.asl_numbered.specs.Examples as omitting;
ghost use Rattle.asl_numbered.specs.Examples.{examples_at, without};
ghost use Rattle.asl_numbered.specs.Expansion.{shape_at, shapes_at, fields_at, numbers_in, AreBelow};
ghost use Rattle.asl_numbered.specs.Joins.{kept};
ghost use Rattle.asl_numbered.specs.TakenApart.{kinds_over, AreKindsAt};

use crate::joining::kept_kinds;
use crate::kinds::NodeKinds;
use crate::node::NodeField;
use crate::table::Table;
use crate::weights::make_room;
use asl_tree::{OutOfMemory, Tree};
use std::alloc::Global;
use std::collections::BTreeMap;
use std::rc::RcStr;

/// The example of the shape of that number.
pub(crate) fn example(table: &Table, alloc: Global, number: usize) -> Result<Tree, OutOfMemory>
    requires within { number < length table.now }
    ensures as_defined { IfOk result (λ t. view t ≡ model.example (shape_at table.now number)) }
{
    make_room(alloc, table.weight(number))?;
    build(table, alloc, number)
}

/// The same, where there is room for it.
#[cycle(build)]
pub(crate) fn build(table: &Table, alloc: Global, number: usize) -> Result<Tree, OutOfMemory>
    requires within { number < length table.now }
    ensures as_defined { IfOk result (λ t. view t ≡ model.example (shape_at table.now number)) }
{
    match kept_kinds(table, number) {
        None => Ok(Tree::Null),
        Some(kinds) => build_kinds(table, alloc, number, kinds),
    }
}

// The same, where these are kept of the shape's kinds.
#[cycle(build)]
fn build_kinds(
    table: &Table,
    alloc: Global,
    number: usize,
    kinds: NodeKinds<'_>,
) -> Result<Tree, OutOfMemory>
    requires within { number < length table.now }
    requires kept { kinds_over table.now kinds ≡ kept (shape_at table.now number) }
    requires below { AreKindsAt table.now number kinds }
    ensures as_defined { IfOk result (λ t. view t ≡ model.example (shape_at table.now number)) }
{
    if let Some(arrays) = kinds.arrays {
        let mut trees = Vec::with_capacity(alloc, arrays.first.len())?;
        push_examples(table, alloc, arrays.first, number, &mut trees)?;
        return Ok(Tree::List(trees));
    }
    if kinds.boolean {
        return Ok(Tree::Bool(false));
    }
    if kinds.integer {
        return Ok(Tree::Int(0));
    }
    if kinds.null {
        return Ok(Tree::Null);
    }
    match kinds.objects {
        Some(objects) => {
            let fields = build_needed(table, alloc, objects.fields, None, number)?;
            Ok(Tree::Object(fields))
        }
        None => Ok(Tree::Text(String::new(alloc))),
    }
}

/// Puts down an example of the shape of each of the numbers, which are below the bound.
#[cycle(build)]
pub(crate) fn push_examples(
    table: &Table,
    alloc: Global,
    numbers: &[usize],
    bound: usize,
    trees: &mut Vec<Tree>,
) -> Result<(), OutOfMemory>
    requires within { bound ≤ length table.now }
    requires below { AreBelow bound numbers.now }
    ensures put { IfOk result (λ _. map view trees.new.items
        ≡ map view trees.old.items ++ examples_at table.now numbers.now) }
{
    for number in numbers {
        trees.push(build(table, alloc, *number)?)?;
    }
    Ok(())
}

/// An example of the shape of each needed field, but not of the one of that name, if one is given. The numbers of the
/// fields are below the bound.
#[cycle(build)]
pub(crate) fn build_needed(
    table: &Table,
    alloc: Global,
    fields: &BTreeMap<RcStr, NodeField>,
    omitted: Option<&str>,
    bound: usize,
) -> Result<BTreeMap<String, Tree>, OutOfMemory>
    requires within { bound ≤ length table.now }
    requires below { AreBelow bound (numbers_in fields.now.entries) }
    ensures built { IfOk result (λ m. entries_view m.entries
        ≡ without (option_map (λ name. name.now) omitted.entry)
        (model.needed_examples (fields_at table.now fields.now.entries))) }
{
    let mut built = BTreeMap::new(alloc);
    for (name, field) in fields.iter() {
        if field.needed && !is_omitted(omitted, name) {
            let key = String::from_str(alloc, name)?;
            let tree = build(table, alloc, field.shape)?;
            drop(built.insert(key, tree)?);
        }
    }
    Ok(built)
}

/// Whether the name is the one that is given.
pub(crate) fn is_omitted(omitted: Option<&str>, name: &str) -> bool
    ensures { result
        ≡ omitting.is_omitted (option_map (λ other. other.now) omitted.entry) name.now }
{
    match omitted {
        Some(other) => name == other,
        None => false,
    }
}
