// Adding shapes to a table.
ghost use Rattle.std.specs.Prelude.{IfOk};
ghost use Rattle.asl_shape.specs.Kinds.{arrays_view, objects_view};
ghost use Rattle.asl_shape.specs.View.{view, shapes_view, fields_view};
ghost use Rattle.asl_numbered.specs.Expansion.{IsNumberOf, AreNumbersOf, AreFieldsOf, Keeps};
ghost use Rattle.asl_numbered.specs.TakenApart.{HasArraysAt, HasObjectsAt};

use crate::kinds::{KindNumbers, put_kinds};
use crate::node::{Node, NodeField};
use crate::table::Table;
use asl_shape::{Arrays, Field, Objects, Shape, take_apart};
use asl_tree::OutOfMemory;
use std::alloc::Global;
use std::collections::BTreeMap;
use std::rc::RcStr;

/// The number of the shape.
#[tactic(auto, using(crate::proofs::Expansions::simple_refers, crate::specs::Laws::keeps_trans))]
#[cycle(add)]
pub(crate) fn add(table: &mut Table, alloc: Global, shape: &Shape) -> Result<usize, OutOfMemory>
    ensures number { IfOk result (IsNumberOf table.new (view shape.now)) }
    ensures keeps { Keeps table.old table.new }
{
    let Some(kinds) = take_apart(shape) else {
        return table.put(Node::Any);
    };
    let arrays = add_arrays(table, alloc, kinds.arrays)?;
    let objects = add_objects(table, alloc, kinds.objects)?;
    let numbers = KindNumbers {
        null: kinds.null,
        boolean: kinds.boolean,
        integer: kinds.integer,
        text: kinds.text,
        arrays,
        objects,
    };
    put_kinds(table, alloc, numbers)
}

// The number of the shape of these lists alone, if there are any.
#[tactic(auto, using(crate::specs::Laws::keeps_trans))]
#[cycle(add)]
fn add_arrays(
    table: &mut Table,
    alloc: Global,
    arrays: Option<Arrays<'_>>,
) -> Result<Option<usize>, OutOfMemory>
    ensures number { IfOk result (HasArraysAt table.new (arrays_view arrays.entry)) }
    ensures keeps { Keeps table.old table.new }
{
    let Some(lists) = arrays else {
        return Ok(None);
    };
    let places = add_all(table, alloc, lists.first)?;
    let further = add(table, alloc, lists.rest)?;
    let node = Node::List {
        first: places,
        rest: further,
    };
    Ok(Some(table.put(node)?))
}

// The number of the shape of these objects alone, if there are any.
#[tactic(auto, using(crate::specs::Laws::keeps_trans))]
#[cycle(add)]
fn add_objects(
    table: &mut Table,
    alloc: Global,
    objects: Option<Objects<'_>>,
) -> Result<Option<usize>, OutOfMemory>
    ensures number { IfOk result (HasObjectsAt table.new (objects_view objects.entry)) }
    ensures keeps { Keeps table.old table.new }
{
    let Some(mentions) = objects else {
        return Ok(None);
    };
    let fields = add_fields(table, alloc, mentions.fields)?;
    let node = Node::Object {
        fields,
        extra: mentions.extra,
    };
    Ok(Some(table.put(node)?))
}

// The numbers of the shapes, in order.
#[tactic(auto, using(crate::proofs::Growing::no_numbers, crate::specs::Laws::keeps_same, crate::specs::Laws::keeps_trans))]
#[cycle(add)]
fn add_all(table: &mut Table, alloc: Global, shapes: &[Shape]) -> Result<Vec<usize>, OutOfMemory>
    ensures numbers { IfOk result (λ v. AreNumbersOf table.new (shapes_view shapes.now) v.items) }
    ensures keeps { Keeps table.old table.new }
{
    let mut numbers = Vec::with_capacity(alloc, shapes.len())?;
    for shape in shapes {
        let number = add(table, alloc, shape)?;
        numbers.push(number)?;
    }
    Ok(numbers)
}

// The fields, with the numbers of their shapes.
#[tactic(auto, using(crate::proofs::Growing::no_fields, crate::proofs::Growing::fields_end, crate::specs::Laws::keeps_same, crate::specs::Laws::keeps_trans))]
#[cycle(add)]
fn add_fields(
    table: &mut Table,
    alloc: Global,
    fields: &BTreeMap<String, Field>,
) -> Result<BTreeMap<RcStr, NodeField>, OutOfMemory>
    ensures numbers { IfOk result
        (λ m. AreFieldsOf table.new (fields_view fields.now.entries) m.entries) }
    ensures keeps { Keeps table.old table.new }
{
    let mut numbered = BTreeMap::new(alloc);
    for (name, field) in fields.iter() {
        let key = RcStr::from_str(alloc, name)?;
        let shape = add(table, alloc, &field.shape)?;
        let field = NodeField {
            needed: field.needed,
            shape,
        };
        drop(numbered.insert(key, field)?);
    }
    Ok(numbered)
}
