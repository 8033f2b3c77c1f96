// Shapes of a table taken apart kind by kind, and put together.
ghost use Rattle.std.specs.Prelude.{◌≡◌, ◌++◌, ℕ, List, IfOk, IfSome, length, map, option_to_list};
ghost use Rattle.asl_model.specs.Shape as model;
ghost use Rattle.asl_shape.specs.View.{merged};
ghost use Rattle.asl_numbered.specs.Expansion.{shape_at, shape_over, AreBelow, RefersBelow, IsNumberOf, Keeps};
ghost use Rattle.asl_numbered.specs.Kinds.{AscendFrom, IsSimple};
ghost use Rattle.asl_numbered.specs.TakenApart as taken;
ghost use Rattle.asl_numbered.specs.TakenApart.{taken_apart, both_kinds, arrays_at, objects_at, kinds_at, arrays_part, objects_part, part_if, parts_of, AreKindsAt, AreListed};

use crate::node::{Node, NodeField};
use crate::table::Table;
use asl_tree::OutOfMemory;
use std::alloc::Global;
use std::collections::BTreeMap;
use std::rc::RcStr;

/// What the shape of a number takes of each kind of tree. It lends from the table.
#[derive(Clone, Copy, Debug)]
pub struct NodeKinds<'t> {
    /// Whether `null` has the shape.
    pub null: bool,
    /// Whether `true` and `false` have it.
    pub boolean: bool,
    /// Whether every whole number has it.
    pub integer: bool,
    /// Whether every text has it.
    pub text: bool,
    /// The lists that have it, if it takes any.
    pub arrays: Option<NodeArrays<'t>>,
    /// The objects that have it, if it takes any.
    pub objects: Option<NodeObjects<'t>>,
}

/// The lists that a shape takes, as [`Node::List`] says it.
#[derive(Clone, Copy, Debug)]
pub struct NodeArrays<'t> {
    /// The number of the shape of these lists alone.
    pub number: usize,
    /// The numbers of the shapes of the first elements.
    pub first: &'t [usize],
    /// The number of the shape of each further element.
    pub rest: usize,
}

/// The objects that a shape takes, as [`Node::Object`] says it.
#[derive(Clone, Copy, Debug)]
pub struct NodeObjects<'t> {
    /// The number of the shape of these objects alone.
    pub number: usize,
    /// The mentioned fields.
    pub fields: &'t BTreeMap<RcStr, NodeField>,
    /// Whether there may be other fields.
    pub extra: bool,
}

/// Kinds of trees, of which a shape is to be made.
#[derive(Clone, Copy, Debug)]
pub struct KindNumbers {
    /// Whether `null` is to have the shape.
    pub null: bool,
    /// Whether `true` and `false` are.
    pub boolean: bool,
    /// Whether every whole number is.
    pub integer: bool,
    /// Whether every text is.
    pub text: bool,
    /// The number of a shape whose lists are to have it, and no other trees of that shape.
    pub arrays: Option<usize>,
    /// The number of a shape whose objects are to have it, and no other trees of that shape.
    pub objects: Option<usize>,
}

/// What the shape of that number takes of each kind; `None` where it is `Any`. Takes no memory.
#[cycle(take_apart)]
pub(crate) fn take_apart(table: &Table, number: usize) -> Option<NodeKinds<'_>>
    ensures shown { taken_apart table.now result ≡ shape_at table.now number }
    ensures within { IfSome result (AreKindsAt table.now number) }
{
    match table.node(number) {
        Some(node) => take_node_apart(table, number, node),
        None => Some(no_kinds(table)),
    }
}

// The same for the number's node.
#[cycle(take_apart)]
fn take_node_apart<'t>(table: &'t Table, number: usize, node: &'t Node) -> Option<NodeKinds<'t>>
    requires level { shape_over table.now node.now ≡ shape_at table.now number }
    requires below { RefersBelow number node.now }
    ensures shown { taken_apart table.now result ≡ shape_over table.now node.now }
    ensures within { IfSome result (AreKindsAt table.now number) }
{
    let none = no_kinds(table);
    match node {
        Node::Any => None,
        Node::Never => Some(none),
        Node::Null => Some(NodeKinds { null: true, ..none }),
        Node::Bool => Some(NodeKinds {
            boolean: true,
            ..none
        }),
        Node::Int => Some(NodeKinds {
            integer: true,
            ..none
        }),
        Node::Text => Some(NodeKinds { text: true, ..none }),
        Node::List { first, rest } => Some(NodeKinds {
            arrays: Some(NodeArrays {
                number,
                first,
                rest: *rest,
            }),
            ..none
        }),
        Node::Object { fields, extra } => Some(NodeKinds {
            objects: Some(NodeObjects {
                number,
                fields,
                extra: *extra,
            }),
            ..none
        }),
        Node::Several(parts) => take_each_apart(table, parts, number),
    }
}

// What the shapes of the numbers, which are below the bound, take of each kind; `None` where one of them is `Any`.
#[cycle(take_apart)]
fn take_each_apart<'t>(table: &'t Table, parts: &[usize], bound: usize) -> Option<NodeKinds<'t>>
    requires { AreBelow bound parts.now }
    ensures shown { taken_apart table.now result ≡ merged (map (shape_at table.now) parts.now) }
    ensures within { IfSome result (AreKindsAt table.now bound) }
{
    let mut kinds = no_kinds(table);
    for part in parts {
        kinds = both(kinds, take_apart(table, *part)?);
    }
    Some(kinds)
}

// No trees of any kind.
fn no_kinds(_table: &Table) -> NodeKinds<'_>
    ensures { result ≡ taken.no_kinds }
{
    NodeKinds {
        null: false,
        boolean: false,
        integer: false,
        text: false,
        arrays: None,
        objects: None,
    }
}

// The kinds of both; of the lists and of the objects those of the first that has any.
fn both<'t>(first: NodeKinds<'t>, second: NodeKinds<'t>) -> NodeKinds<'t>
    ensures { result ≡ both_kinds first.entry second.entry }
{
    NodeKinds {
        null: first.null || second.null,
        boolean: first.boolean || second.boolean,
        integer: first.integer || second.integer,
        text: first.text || second.text,
        arrays: first.arrays.or(second.arrays),
        objects: first.objects.or(second.objects),
    }
}

/// The number of the shape of these kinds.
pub(crate) fn put_kinds(
    table: &mut Table,
    alloc: Global,
    kinds: KindNumbers,
) -> Result<usize, OutOfMemory>
    ensures number { IfOk result (IsNumberOf table.new (kinds_at table.old kinds)) }
    ensures keeps { Keeps table.old table.new }
{
    let parts = put_parts(table, alloc, kinds)?;
    put_together(table, parts)
}

// The numbers of the shapes of one kind each, in byte order of the names of their types.
fn put_parts(
    table: &mut Table,
    alloc: Global,
    kinds: KindNumbers,
) -> Result<Vec<usize>, OutOfMemory>
    ensures listed { IfOk result (λ parts. AreListed table.new
        (parts_of (kinds_at table.old kinds)) parts.items) }
    ensures keeps { Keeps table.old table.new }
{
    let arrays = arrays_number(table, kinds.arrays);
    let objects = objects_number(table, kinds.objects);
    let mut parts = Vec::new(alloc);
    push_number(&mut parts, arrays)?;
    push_if(table, &mut parts, kinds.boolean, Node::Bool)?;
    push_if(table, &mut parts, kinds.integer, Node::Int)?;
    push_if(table, &mut parts, kinds.null, Node::Null)?;
    push_number(&mut parts, objects)?;
    push_if(table, &mut parts, kinds.text, Node::Text)?;
    Ok(parts)
}

// The number of the shape of the lists alone that the shape of that number takes.
fn arrays_number(table: &Table, number: Option<usize>) -> Option<usize>
    ensures listed { AreListed table.now
        (arrays_part (arrays_at table.now number)) (option_to_list result) }
{
    Some(take_apart(table, number?)?.arrays?.number)
}

// The number of the shape of the objects alone that the shape of that number takes.
fn objects_number(table: &Table, number: Option<usize>) -> Option<usize>
    ensures listed { AreListed table.now
        (objects_part (objects_at table.now number)) (option_to_list result) }
{
    Some(take_apart(table, number?)?.objects?.number)
}

// Puts down the number, if there is one.
fn push_number(parts: &mut Vec<usize>, number: Option<usize>) -> Result<(), OutOfMemory>
    ensures { IfOk result (λ _. parts.new.items ≡ parts.old.items ++ option_to_list number) }
{
    if let Some(number) = number {
        parts.push(number)?;
    }
    Ok(())
}

// Puts down the number of the shape whose first level is the node, which has no parts.
fn push_if(
    table: &mut Table,
    parts: &mut Vec<usize>,
    wanted: bool,
    node: Node,
) -> Result<(), OutOfMemory>
    requires { IsSimple node }
    ensures listed { (shapes : List model.Shape)
        → AreListed table.old shapes parts.old.items
        → IfOk result (λ _. AreListed table.new
        (shapes ++ part_if wanted (shape_over table.old node)) parts.new.items) }
    ensures keeps { Keeps table.old table.new }
{
    if wanted {
        parts.push(table.put(node)?)?;
    }
    Ok(())
}

// The number of the shape that the shapes of one kind each are together.
fn put_together(table: &mut Table, parts: Vec<usize>) -> Result<usize, OutOfMemory>
    requires within { AreBelow (length table.old) parts.items }
    requires ascend { AscendFrom 0 (map (shape_at table.old) parts.items) }
    ensures number { IfOk result (IsNumberOf table.new
        (merged (map (shape_at table.old) parts.items))) }
    ensures keeps { Keeps table.old table.new }
{
    table.are_distinct();
    match parts.len() {
        0 => table.put(Node::Never),
        1 => Ok(parts[0]),
        _ => table.put(Node::Several(parts)),
    }
}
