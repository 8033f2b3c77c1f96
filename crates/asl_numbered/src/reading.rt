// Reading shapes into a table.
ghost use Rattle.std.specs.Prelude.{◌≡◌, ℕ, List, length, codes, string_bytes, IfOk, IfErr, Some, option_map, option_to_list};
ghost use Rattle.asl_model.specs.Shape as shape;
ghost use Rattle.asl_model.specs.Tree as json;
ghost use Rattle.asl_model.specs.ShapeSpelling as model;
ghost use Rattle.asl_shape.specs.Level as levels;
ghost use Rattle.asl_shape.specs.LevelView.{level_view, list_view, object_view, texts};
ghost use Rattle.asl_shape.specs.Spelled as trees;
ghost use Rattle.asl_numbered.specs.Expansion.{shape_over, fields_at, RefersBelow, numbers_in, AreBelow, AreFieldsOf, IsNumberOf, Keeps};
ghost use Rattle.asl_numbered.specs.Kinds.{IsProperNode};
ghost use Rattle.asl_numbered.specs.Reading.{AreGiven, IsRead, IsReadOver, AreArraysRead, AreObjectsRead, IsReadRest, AreRead, AreFieldsRead, TellsOneOf};
ghost use Rattle.asl_model.specs.References.{element_at, meant_by};
ghost use Rattle.asl_numbered.specs.References.{reference_in, referred as referred_in, numbers_given, shapes_given, inside, list_inside, object_inside, each_of, values_of, TellsOf};

use crate::NumberedRefusal;
use crate::kinds::{KindNumbers, put_kinds};
use crate::node::{Node, NodeField};
use crate::table::Table;
use asl_shape::{Level, ListLevel, ObjectLevel, read_level};
use asl_tree::{OutOfMemory, Tree};
use std::alloc::Global;
use std::collections::BTreeMap;
use std::rc::RcStr;

/// The number of the shape that the tree spells, where `{"shape": n}` stands for the shape of the number that is given
/// at `n`, if numbers are given; `several` says whether lists of types may stand.
#[cycle(read)]
pub(crate) fn read(
    table: &mut Table,
    alloc: Global,
    tree: &Tree,
    given: Option<&[usize]>,
    several: bool,
) -> Result<usize, NumberedRefusal>
    requires { AreGiven (length table.old) (numbers_given given) }
    ensures number { IfOk result
        (IsRead several (shapes_given table.old given.entry) (trees.view tree.now)
        table.new) }
    ensures refused { IfErr result
        (TellsOf several (shapes_given table.old given.entry) (trees.view tree.now)) }
    ensures keeps { Keeps table.old table.new }
{
    match referred(tree, given) {
        None => read_spelling(table, alloc, tree, given, several),
        Some(Some(number)) => Ok(number),
        Some(None) => Err(NumberedRefusal::BadNumber),
    }
}

// The number that a reference stands for, where numbers are given and the tree is a reference.
fn referred(tree: &Tree, given: Option<&[usize]>) -> Option<Option<usize>>
    ensures { result ≡ referred_in (numbers_given given.entry) (trees.view tree.now) }
{
    let numbers = given?;
    let stated = reference(tree)?;
    Some(meant(stated, numbers))
}

// What stands in a reference.
fn reference(tree: &Tree) -> Option<&Tree>
    ensures { trees.tree_there result ≡ reference_in (trees.view tree.now) }
{
    match tree {
        Tree::Object(members) => reference_among(members),
        Tree::Null | Tree::Bool(_) | Tree::Int(_) | Tree::Text(_) | Tree::List(_) => { None }
    }
}

fn reference_among(members: &BTreeMap<String, Tree>) -> Option<&Tree>
    ensures { trees.tree_there result
        ≡ reference_in (json.Object (trees.entries_view members.now.entries)) }
{
    if members.len() == 1 {
        members.get("shape")
    } else {
        None
    }
}

// The number that stands where a tree says.
fn meant(stated: &Tree, numbers: &[usize]) -> Option<usize>
    ensures { result ≡ meant_by numbers.now (trees.view stated.now) }
{
    match stated {
        Tree::Int(place) => entry_at(*place, numbers),
        Tree::Null | Tree::Bool(_) | Tree::Text(_) | Tree::List(_) | Tree::Object(_) => { None }
    }
}

fn entry_at(place: i64, numbers: &[usize]) -> Option<usize>
    ensures { result ≡ element_at numbers.now place }
{
    if place >= 0 && (place as u128) < numbers.len() as u128 {
        Some(numbers[place as usize])
    } else {
        None
    }
}

// The number of the shape of a tree that is no reference.
#[cycle(read)]
fn read_spelling(
    table: &mut Table,
    alloc: Global,
    tree: &Tree,
    given: Option<&[usize]>,
    several: bool,
) -> Result<usize, NumberedRefusal>
    requires given { AreGiven (length table.old) (numbers_given given) }
    requires spelled { referred_in (numbers_given given) (trees.view tree.now) ≡ None }
    ensures number { IfOk result
        (IsRead several (shapes_given table.old given.entry) (trees.view tree.now)
        table.new) }
    ensures refused { IfErr result
        (TellsOf several (shapes_given table.old given.entry) (trees.view tree.now)) }
    ensures keeps { Keeps table.old table.new }
{
    let level = read_level(alloc, tree, several)?;
    read_over(table, alloc, level, given, several)
}

// The number of the shape of a level.
#[tactic(auto, using(crate::proofs::Readings::whole_read, crate::proofs::Expansions::simple_refers))]
#[cycle(read)]
fn read_over(
    table: &mut Table,
    alloc: Global,
    level: Level<'_>,
    given: Option<&[usize]>,
    several: bool,
) -> Result<usize, NumberedRefusal>
    requires { AreGiven (length table.old) (numbers_given given) }
    ensures number { IfOk result
        (IsReadOver several (shapes_given table.old given.entry)
        (level_view level.entry) table.new) }
    ensures refused { IfErr result
        (TellsOneOf several (shapes_given table.old given.entry)
        (inside (level_view level.entry))) }
    ensures keeps { Keeps table.old table.new }
{
    match level {
        Level::Any => Ok(table.put(Node::Any)?),
        Level::Never => Ok(table.put(Node::Never)?),
        Level::Kinds {
            null,
            boolean,
            integer,
            text,
            list,
            object,
        } => {
            let arrays = read_list(table, alloc, list, given, several)?;
            let objects = read_object(table, alloc, object, given, several)?;
            let kinds = KindNumbers {
                null,
                boolean,
                integer,
                text,
                arrays,
                objects,
            };
            Ok(put_kinds(table, alloc, kinds)?)
        }
    }
}

// The number of the shape of the lists alone of that level, where there are any.
#[cycle(read)]
fn read_list(
    table: &mut Table,
    alloc: Global,
    list: Option<ListLevel<'_>>,
    given: Option<&[usize]>,
    several: bool,
) -> Result<Option<usize>, NumberedRefusal>
    requires { AreGiven (length table.old) (numbers_given given) }
    ensures number { IfOk result
        (AreArraysRead several (shapes_given table.old given.entry)
        (option_map list_view list.entry) table.new) }
    ensures refused { IfErr result
        (TellsOneOf several (shapes_given table.old given.entry)
        (list_inside (option_map list_view list.entry))) }
    ensures keeps { Keeps table.old table.new }
{
    let Some(list) = list else {
        return Ok(None);
    };
    let first = read_elements(table, alloc, list.first, given, several)?;
    let rest = read_rest(table, alloc, list.rest, given, several)?;
    Ok(Some(table.put(Node::List { first, rest })?))
}

// The numbers of the shapes that the elements spell.
#[cycle(read)]
fn read_elements(
    table: &mut Table,
    alloc: Global,
    elements: &[Tree],
    given: Option<&[usize]>,
    several: bool,
) -> Result<Vec<usize>, NumberedRefusal>
    requires { AreGiven (length table.old) (numbers_given given) }
    ensures numbers { IfOk result
        (λ v. AreRead several (shapes_given table.old given.entry)
        (trees.elements_view elements.now) table.new v.items) }
    ensures refused { IfErr result
        (TellsOneOf several (shapes_given table.old given.entry)
        (each_of (trees.elements_view elements.now))) }
    ensures keeps { Keeps table.old table.new }
{
    let mut numbers = Vec::with_capacity(alloc, elements.len())?;
    for element in elements {
        let number = read(table, alloc, element, given, several)?;
        numbers.push(number)?;
    }
    Ok(numbers)
}

// The number of the shape of the further elements: that of `Any` where there is no spelling.
#[cycle(read)]
fn read_rest(
    table: &mut Table,
    alloc: Global,
    rest: Option<&Tree>,
    given: Option<&[usize]>,
    several: bool,
) -> Result<usize, NumberedRefusal>
    requires { AreGiven (length table.old) (numbers_given given) }
    ensures number { IfOk result
        (IsReadRest several (shapes_given table.old given.entry)
        (trees.tree_there rest.entry) table.new) }
    ensures refused { IfErr result
        (TellsOneOf several (shapes_given table.old given.entry)
        (option_to_list (trees.tree_there rest.entry))) }
    ensures keeps { Keeps table.old table.new }
{
    match rest {
        None => Ok(table.put(Node::Any)?),
        Some(tree) => read(table, alloc, tree, given, several),
    }
}

// The number of the shape of the objects alone of that level, where there are any.
#[cycle(read)]
fn read_object(
    table: &mut Table,
    alloc: Global,
    object: Option<ObjectLevel<'_>>,
    given: Option<&[usize]>,
    several: bool,
) -> Result<Option<usize>, NumberedRefusal>
    requires { AreGiven (length table.old) (numbers_given given) }
    ensures number { IfOk result
        (AreObjectsRead several (shapes_given table.old given.entry)
        (option_map object_view object.entry) table.new) }
    ensures refused { IfErr result
        (TellsOneOf several (shapes_given table.old given.entry)
        (object_inside (option_map object_view object.entry))) }
    ensures keeps { Keeps table.old table.new }
{
    let Some(object) = object else {
        return Ok(None);
    };
    let fields = read_properties(table, alloc, object.properties, given, several)?;
    Ok(Some(put_object(table, alloc, fields, &object.required, object.extra)?))
}

// The fields that the properties mention, none of them needed.
#[cycle(read)]
fn read_properties(
    table: &mut Table,
    alloc: Global,
    properties: Option<&BTreeMap<String, Tree>>,
    given: Option<&[usize]>,
    several: bool,
) -> Result<BTreeMap<RcStr, NodeField>, NumberedRefusal>
    requires { AreGiven (length table.old) (numbers_given given) }
    ensures fields { IfOk result
        (λ m. AreFieldsRead several (shapes_given table.old given.entry)
        (trees.fields_there properties.entry) table.new m.entries) }
    ensures refused { IfErr result
        (TellsOneOf several (shapes_given table.old given.entry)
        (values_of (trees.fields_there properties.entry))) }
    ensures keeps { Keeps table.old table.new }
{
    match properties {
        None => Ok(BTreeMap::new(alloc)),
        Some(members) => read_members(table, alloc, members, given, several),
    }
}

#[cycle(read)]
fn read_members(
    table: &mut Table,
    alloc: Global,
    members: &BTreeMap<String, Tree>,
    given: Option<&[usize]>,
    several: bool,
) -> Result<BTreeMap<RcStr, NodeField>, NumberedRefusal>
    requires { AreGiven (length table.old) (numbers_given given) }
    ensures fields { IfOk result
        (λ m. AreFieldsRead several (shapes_given table.old given.entry)
        (trees.entries_view members.now.entries) table.new m.entries) }
    ensures refused { IfErr result
        (TellsOneOf several (shapes_given table.old given.entry)
        (values_of (trees.entries_view members.now.entries))) }
    ensures keeps { Keeps table.old table.new }
{
    let mut fields = BTreeMap::new(alloc);
    for (name, member) in members.iter() {
        let key = RcStr::from_str(alloc, name)?;
        let shape = read(table, alloc, member, given, several)?;
        let field = NodeField {
            needed: false,
            shape,
        };
        drop(fields.insert(key, field)?);
    }
    Ok(fields)
}

/// The number of the shape of objects with these fields, of which those of these names are needed, too.
pub(crate) fn put_object(
    table: &mut Table,
    alloc: Global,
    mut fields: BTreeMap<RcStr, NodeField>,
    needed: &[&String],
    extra: bool,
) -> Result<usize, OutOfMemory>
    requires { AreBelow (length table.old) (numbers_in fields.entries) }
    ensures number { IfOk result (IsNumberOf table.new (shape.ObjectShape
        (model.with_all_needed extra (texts needed.now) (fields_at table.old fields.entries))
        extra)) }
    ensures keeps { Keeps table.old table.new }
{
    require_all(table, alloc, needed, extra, &mut fields)?;
    table.put(Node::Object { fields, extra })
}

// Makes the fields of these names needed; those that aren't mentioned are added.
fn require_all(
    table: &mut Table,
    alloc: Global,
    names: &[&String],
    extra: bool,
    fields: &mut BTreeMap<RcStr, NodeField>,
) -> Result<(), OutOfMemory>
    requires { AreBelow (length table.old) (numbers_in fields.old.entries) }
    ensures needed { IfOk result (λ _. AreFieldsOf table.new
        (model.with_all_needed extra (texts names.now)
        (fields_at table.old fields.old.entries))
        fields.new.entries) }
    ensures keeps { Keeps table.old table.new }
{
    for name in names {
        require(table, alloc, name, extra, fields)?;
    }
    Ok(())
}

// Makes the field of that name needed.
fn require(
    table: &mut Table,
    alloc: Global,
    name: &str,
    extra: bool,
    fields: &mut BTreeMap<RcStr, NodeField>,
) -> Result<(), OutOfMemory>
    requires { AreBelow (length table.old) (numbers_in fields.old.entries) }
    ensures needed { IfOk result (λ _. AreFieldsOf table.new
        (model.with_needed extra name.now
        (fields_at table.old fields.old.entries))
        fields.new.entries) }
    ensures keeps { Keeps table.old table.new }
{
    if let Some(field) = fields.get_mut(name) {
        field.needed = true;
        return Ok(());
    }
    let key = RcStr::from_str(alloc, name)?;
    let shape = table.put(unmentioned(extra))?;
    let field = NodeField {
        needed: true,
        shape,
    };
    drop(fields.insert(key, field)?);
    Ok(())
}

// The level of the shape of a needed field without a property.
fn unmentioned(extra: bool) -> Node
    ensures shape { (table : List shape.Shape) → shape_over table result ≡ model.unmentioned extra }
    ensures refers { (bound : ℕ) → RefersBelow bound result }
    ensures proper { (table : List shape.Shape) → IsProperNode table result }
{
    if extra { Node::Any } else { Node::Never }
}
