// Writing a shape as the tree that spells it.
ghost use Rattle.asl_model.specs.ShapeSpelling.{SpellsShape, SpellsShapeV1};
ghost use Rattle.asl_model.specs.Tree as json;
ghost use Rattle.asl_model.specs.Written as model;
ghost use Rattle.asl_model.specs.Shape as shape;
ghost use Rattle.asl_model.specs.Shape.{has_arrays, has_objects, has_several};
ghost use Rattle.asl_model.specs.ShapeOrder.{is_any_shape};
ghost use Rattle.asl_shape.specs.Adding.{with_field_if};
ghost use Rattle.asl_shape.specs.Kinds.{arrays_view, objects_view};
ghost use Rattle.asl_shape.specs.Proper.{Proper, AllProper, FieldsProper, ProperArrays, ProperObjects};
ghost use Rattle.asl_shape.specs.View.{view, shapes_view, fields_view};
ghost use Rattle.asl_tree.specs.View as trees;
ghost use Rattle.asl_shape.specs.WrittenKinds.{are_closed, names_of, with_arrays, with_objects, objects_added, arrays_added, items_written, text_if, types_listed};
ghost use Rattle.std.specs.Prelude.{◌≡◌, ◌++◌, ℕ, IfOk, IsTrue, List, Some, is_some, length, map, not, pos};

use crate::kinds::{Arrays, Objects, take_apart};
use crate::shape::{Field, Shape};
use asl_model::reading_laws::written_shapes_are_spelled;
use asl_tree::{OutOfMemory, Tree};
use std::alloc::Global;
use std::collections::BTreeMap;

/// What a shape takes of each kind of tree, with the trees that are written for its parts.
#[derive(Debug, Drop)]
pub struct Written {
    /// Whether `null` has the shape.
    pub null: bool,
    /// Whether `true` and `false` have it.
    pub boolean: bool,
    /// Whether every whole number has it.
    pub integer: bool,
    /// Whether every text has it.
    pub text: bool,
    /// The lists that have it, if it takes any.
    pub arrays: Option<WrittenArrays>,
    /// The objects that have it, if it takes any.
    pub objects: Option<WrittenObjects>,
}

/// The lists that a shape takes, with the trees that are written for their parts.
#[derive(Debug, Drop)]
pub struct WrittenArrays {
    /// For the first elements.
    pub prefix_items: Vec<Tree>,
    /// For further elements, where these may not be every tree.
    pub items: Option<Tree>,
}

/// The objects that a shape takes, with the trees that are written for their parts.
#[derive(Debug, Drop)]
pub struct WrittenObjects {
    /// For the mentioned fields.
    pub properties: BTreeMap<String, Tree>,
    /// The names of the needed fields, as texts.
    pub required: Vec<Tree>,
    /// Whether there may be other fields.
    pub extra: bool,
}

/// The tree that is written for the shape (a subset of JSON Schema 2020-12, Core and Validation): [`crate::read`]
/// makes an equal shape of it.
///
/// `Any` is `true` and `Never` is `false`. Every other shape is an object with `type`: the name of its type, or, where it
/// is of several kinds, the list of their names in byte order. A shape of objects has besides it `properties` and
/// `required`, with the names in byte order, where there are any, and `additionalProperties` where there may be no
/// others. A shape of lists has `prefixItems` and `minItems` where there are first elements, and `items` where that
/// isn't `Any`. Where no shape in it is of several kinds, no list of types stands there, so [`crate::read_v1`] reads it
/// too.
///
/// Refuses only where an allocation was refused.
pub fn write(alloc: Global, shape: &Shape) -> Result<Tree, OutOfMemory>
    ensures written { IfOk result (λ t. trees.view t ≡ model.written_shape (view shape.now)) }
    ensures spelled { IfOk result (λ t. SpellsShape (trees.view t) (view shape.now)) }
    ensures first_version { IfOk result (λ t. IsTrue (not (has_several (view shape.now)))
        → SpellsShapeV1 (trees.view t) (view shape.now)) }
{
    written_shapes_are_spelled();
    write_shape(alloc, shape)
}

#[cycle(write)]
fn write_shape(alloc: Global, shape: &Shape) -> Result<Tree, OutOfMemory>
    ensures written { IfOk result (λ t. trees.view t ≡ model.written_shape (view shape.now)) }
    ensures proper { IfOk result (λ _. Proper (view shape.now)) }
{
    match take_apart(shape) {
        None => Ok(Tree::Bool(true)),
        Some(kinds) => {
            let written = Written {
                null: kinds.null,
                boolean: kinds.boolean,
                integer: kinds.integer,
                text: kinds.text,
                arrays: write_arrays(alloc, kinds.arrays)?,
                objects: write_objects(alloc, kinds.objects)?,
            };
            write_kinds(alloc, written)
        }
    }
}

// For the lists that a shape takes.
#[cycle(write)]
fn write_arrays(
    alloc: Global,
    arrays: Option<Arrays<'_>>,
) -> Result<Option<WrittenArrays>, OutOfMemory>
    ensures written { IfOk result
        (λ w. (others : json.Fields) → with_arrays w others
        ≡ model.with_written_arrays (arrays_view arrays.entry) others) }
    ensures some { IfOk result (λ w. is_some w ≡ has_arrays (arrays_view arrays.entry)) }
    ensures proper { IfOk result (λ _. ProperArrays (arrays_view arrays.entry)) }
{
    match arrays {
        None => Ok(None),
        Some(Arrays { first, rest }) => Ok(Some(write_places(alloc, first, rest)?)),
    }
}

// For lists with these places and further elements.
#[cycle(write)]
fn write_places(alloc: Global, first: &[Shape], rest: &Shape) -> Result<WrittenArrays, OutOfMemory>
    ensures written { IfOk result
        (λ w. (others : json.Fields)
        → with_arrays (Some w) others
        ≡ model.with_written_arrays
        (shape.ArraysOf (shapes_view first.now) (view rest.now)) others) }
    ensures proper { IfOk result
        (λ _. ProperArrays (shape.ArraysOf (shapes_view first.now) (view rest.now))) }
{
    let prefix_items = write_shapes(alloc, first)?;
    let items = write_shape(alloc, rest)?;
    Ok(WrittenArrays {
        prefix_items,
        items: unless_any(rest, items),
    })
}

// For the objects that a shape takes.
#[cycle(write)]
fn write_objects(
    alloc: Global,
    objects: Option<Objects<'_>>,
) -> Result<Option<WrittenObjects>, OutOfMemory>
    ensures written { IfOk result
        (λ w. (others : json.Fields) → with_objects w others
        ≡ model.with_written_objects (objects_view objects.entry) others) }
    ensures some { IfOk result (λ w. is_some w ≡ has_objects (objects_view objects.entry)) }
    ensures closed { IfOk result
        (λ w. are_closed w ≡ model.are_closed (objects_view objects.entry)) }
    ensures proper { IfOk result (λ _. ProperObjects (objects_view objects.entry)) }
{
    match objects {
        None => Ok(None),
        Some(Objects { fields, extra }) => Ok(Some(write_mentions(alloc, fields, extra)?)),
    }
}

// For objects with these fields.
#[cycle(write)]
fn write_mentions(
    alloc: Global,
    fields: &BTreeMap<String, Field>,
    extra: bool,
) -> Result<WrittenObjects, OutOfMemory>
    ensures written { IfOk result
        (λ w. (others : json.Fields)
        → with_objects (Some w) others
        ≡ model.with_written_objects
        (shape.ObjectsOf (fields_view fields.now.entries) extra) others) }
    ensures closed { IfOk result (λ w. w.extra ≡ extra) }
    ensures proper { IfOk result
        (λ _. ProperObjects (shape.ObjectsOf (fields_view fields.now.entries) extra)) }
{
    let properties = write_fields(alloc, fields)?;
    let required = needed_names(alloc, fields)?;
    Ok(WrittenObjects {
        properties,
        required,
        extra,
    })
}

// The tree, unless the shape is `Any`.
fn unless_any(shape: &Shape, tree: Tree) -> Option<Tree>
    ensures some { is_some result ≡ not (is_any_shape (view shape.now)) }
    ensures tree { trees.view tree ≡ model.written_shape (view shape.now)
        → items_written result ≡ model.written_shape (view shape.now) }
{
    if take_apart(shape).is_none() {
        None
    } else {
        Some(tree)
    }
}

// For each of the shapes.
#[cycle(write)]
fn write_shapes(alloc: Global, shapes: &[Shape]) -> Result<Vec<Tree>, OutOfMemory>
    ensures written { IfOk result
        (λ v. trees.elements_view v.items ≡ model.written_shapes (shapes_view shapes.now)) }
    ensures proper { IfOk result (λ _. AllProper (shapes_view shapes.now)) }
{
    let mut elements = Vec::with_capacity(alloc, shapes.len())?;
    for shape in shapes {
        elements.push(write_shape(alloc, shape)?)?;
    }
    Ok(elements)
}

// For each mentioned field.
#[cycle(write)]
fn write_fields(
    alloc: Global,
    fields: &BTreeMap<String, Field>,
) -> Result<BTreeMap<String, Tree>, OutOfMemory>
    ensures written { IfOk result
        (λ m. trees.entries_view m.entries
        ≡ model.written_fields (fields_view fields.now.entries)) }
    ensures proper { IfOk result (λ _. FieldsProper (fields_view fields.now.entries)) }
{
    let mut properties = BTreeMap::new(alloc);
    for (name, field) in fields.iter() {
        let key = name.clone()?;
        drop(properties.insert(key, write_shape(alloc, &field.shape)?)?);
    }
    Ok(properties)
}

// The names of the needed fields, as texts.
fn needed_names(alloc: Global, fields: &BTreeMap<String, Field>) -> Result<Vec<Tree>, OutOfMemory>
    ensures { IfOk result (λ v. trees.elements_view v.items
        ≡ model.as_texts (model.needed_names (fields_view fields.now.entries))) }
{
    let mut names = Vec::new(alloc);
    for (name, field) in fields.iter() {
        if field.needed {
            names.push(Tree::Text(name.clone()?))?;
        }
    }
    Ok(names)
}

/// The tree that is written for a shape of these kinds: `false` where there is none; else an object of the keywords of
/// these kinds, and `type`, the name of the type or the list of their names in byte order.
///
/// Refuses only where an allocation was refused.
pub fn write_kinds(alloc: Global, written: Written) -> Result<Tree, OutOfMemory>
    ensures written { IfOk result
        (λ t. trees.view t ≡ model.written_kinds (are_closed written.objects) (names_of written)
        (with_arrays written.arrays (with_objects written.objects
        (model.type_field (names_of written))))) }
{
    let names = list_types(alloc, &written)?;
    if names.is_empty() {
        return Ok(Tree::Bool(false));
    }
    let mut keywords = of_type(alloc, names)?;
    let closed = is_closed(&written.objects);
    add_objects(alloc, written.objects, &mut keywords)?;
    add_arrays(alloc, written.arrays, &mut keywords)?;
    add_if(
        alloc,
        closed,
        &mut keywords,
        "additionalProperties",
        Tree::Bool(false),
    )?;
    Ok(Tree::Object(keywords))
}

// Whether there are objects, and these have no other fields than those mentioned.
fn is_closed(objects: &Option<WrittenObjects>) -> bool
    ensures { result ≡ are_closed objects.now }
{
    match objects {
        None => false,
        Some(objects) => !objects.extra,
    }
}

// The names of the types, as texts in byte order.
fn list_types(alloc: Global, written: &Written) -> Result<Vec<Tree>, OutOfMemory>
    ensures { IfOk result (λ v. map trees.view v.items ≡ types_listed written.now) }
{
    let mut names = Vec::new(alloc);
    push_if(alloc, written.arrays.is_some(), "array", &mut names)?;
    push_if(alloc, written.boolean, "boolean", &mut names)?;
    push_if(alloc, written.integer, "integer", &mut names)?;
    push_if(alloc, written.null, "null", &mut names)?;
    push_if(alloc, written.objects.is_some(), "object", &mut names)?;
    push_if(alloc, written.text, "string", &mut names)?;
    Ok(names)
}

fn push_if(
    alloc: Global,
    wanted: bool,
    name: &str,
    names: &mut Vec<Tree>,
) -> Result<(), OutOfMemory>
    ensures { IfOk result
        (λ _. map trees.view names.new.items
        ≡ map trees.view names.old.items ++ text_if wanted name.now) }
{
    if wanted {
        names.push(Tree::Text(String::from_str(alloc, name)?))?;
    }
    Ok(())
}

// The keyword `type` alone.
fn of_type(alloc: Global, names: Vec<Tree>) -> Result<BTreeMap<String, Tree>, OutOfMemory>
    ensures { IfOk result
        (λ m. (ns : List (List ℕ)) → map trees.view names.items ≡ map json.Text ns
        → trees.entries_view m.entries ≡ model.type_field ns) }
{
    let mut keywords = BTreeMap::new(alloc);
    let value = type_value(names);
    drop(keywords.insert(String::from_str(alloc, "type")?, value)?);
    Ok(keywords)
}

// The name, where there is one alone, or else the list of names.
fn type_value(names: Vec<Tree>) -> Tree
    ensures { (ns : List (List ℕ)) → map trees.view names.items ≡ map json.Text ns
        → trees.view result ≡ model.type_written ns }
{
    let mut names = names;
    if names.len() == 1 {
        names.pop().unwrap_or(Tree::Null)
    } else {
        Tree::List(names)
    }
}

// Adds the keywords for objects but `additionalProperties`.
fn add_objects(
    alloc: Global,
    objects: Option<WrittenObjects>,
    keywords: &mut BTreeMap<String, Tree>,
) -> Result<(), OutOfMemory>
    ensures { IfOk result
        (λ _. trees.entries_view keywords.new.entries
        ≡ objects_added objects (trees.entries_view keywords.old.entries)) }
{
    if let Some(objects) = objects {
        let has_fields = !objects.properties.is_empty();
        let has_needed = !objects.required.is_empty();
        let properties = Tree::Object(objects.properties);
        let required = Tree::List(objects.required);
        add_if(alloc, has_needed, keywords, "required", required)?;
        add_if(alloc, has_fields, keywords, "properties", properties)?;
    }
    Ok(())
}

// Adds the keywords for lists.
fn add_arrays(
    alloc: Global,
    arrays: Option<WrittenArrays>,
    keywords: &mut BTreeMap<String, Tree>,
) -> Result<(), OutOfMemory>
    ensures { IfOk result
        (λ _. trees.entries_view keywords.new.entries
        ≡ arrays_added arrays (trees.entries_view keywords.old.entries)) }
{
    if let Some(arrays) = arrays {
        let has_first = !arrays.prefix_items.is_empty();
        let has_items = arrays.items.is_some();
        let min_items = counted(&arrays.prefix_items);
        let prefix_items = Tree::List(arrays.prefix_items);
        let items = arrays.items.unwrap_or(Tree::Bool(true));
        add_if(alloc, has_first, keywords, "prefixItems", prefix_items)?;
        add_if(alloc, has_first, keywords, "minItems", min_items)?;
        add_if(alloc, has_items, keywords, "items", items)?;
    }
    Ok(())
}

// Adds the keyword where it is wanted.
fn add_if(
    alloc: Global,
    wanted: bool,
    keywords: &mut BTreeMap<String, Tree>,
    keyword: &str,
    value: Tree,
) -> Result<(), OutOfMemory>
    ensures { IfOk result (λ _. trees.entries_view keywords.new.entries
        ≡ with_field_if wanted keyword.now (trees.view value)
        (trees.entries_view keywords.old.entries)) }
{
    if wanted {
        drop(keywords.insert(String::from_str(alloc, keyword)?, value)?);
    }
    Ok(())
}

// The number of the elements.
#[tactic(auto, using(crate::proofs::Views::view_integer))]
fn counted(elements: &[Tree]) -> Tree
    ensures { trees.view result ≡ json.Integer (pos (length elements.now)) }
{
    Tree::Int(elements.len() as i64)
}
