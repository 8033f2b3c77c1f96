// Reading a shape from the tree that spells it.
ghost use Rattle.asl_model.specs.ShapeSpelling as model;
ghost use Rattle.asl_shape.specs.Kinds.{owned_arrays_view, owned_objects_view};
ghost use Rattle.asl_shape.specs.Level.{arrays_over, objects_over, list_inner_faults, object_inner_faults, rest_shape, rest_faults};
ghost use Rattle.asl_shape.specs.LevelView.{list_view, object_view, texts};
ghost use Rattle.asl_shape.specs.Properness.{is_proper, are_proper, arrays_proper, fields_proper, objects_proper};
ghost use Rattle.asl_shape.specs.Refusal.{Tells, SpellsAs};
ghost use Rattle.asl_shape.specs.View.{view, shapes_view, fields_view};
ghost use Rattle.asl_shape.specs.Spelled as trees;
ghost use Rattle.asl_shape.specs.declared.ShapeRefusal.{ShapeRefusal};
ghost use Rattle.std.specs.Prelude.{◌≡◌, [], string_bytes, IfOk, IfErr, IsTrue, Some, Err, true, false, option_map};

use crate::ShapeRefusal;
use crate::kinds::{OwnedArrays, OwnedKinds, OwnedObjects, of_kinds};
use crate::levels::{Level, ListLevel, ObjectLevel, read_level};
use crate::shape::{Field, Shape};
use asl_tree::{OutOfMemory, Tree};
use std::alloc::Global;
use std::collections::BTreeMap;

/// The shape that a tree spells (a subset of JSON Schema 2020-12, Core and Validation), a proper one.
///
/// `true` and `{}` are `Any`, `false` is `Never`. Any other spelling is an object with `type`, one of `object`,
/// `array`, `integer`, `string`, `boolean`, `null`, or a list of one or more of these, none twice, in any order; and the
/// keywords of these types: for `object` `properties`, `required` (a list of distinct texts) and `additionalProperties`
/// (a truth value, true where it is absent), for `array` `prefixItems` (a list), `items` (`true` where it is absent) and
/// `minItems`. `$schema`, `$id`, `$comment`, `title`, `description`, `default` and `examples`, of any kind, are read
/// past, so an object of these alone is `Any`. A required name without a property is a needed field of shape `Any`, or
/// `Never` where `additionalProperties` is false.
///
/// Where several refusals stand in a tree, the answer is one of them.
pub fn read(alloc: Global, tree: &Tree) -> Result<Shape, ShapeRefusal>
    ensures spelled { IfOk result (λ s. model.SpellsShape (trees.view tree.now) (view s)) }
    ensures proper { IfOk result (λ s. IsTrue (is_proper s)) }
    ensures not_a_shape { result ≡ Err ShapeRefusal.NotAShape
        → model.HasShapeFault (trees.view tree.now) model.NotAShape }
    ensures keyword { result ≡ Err ShapeRefusal.Keyword
        → model.HasShapeFault (trees.view tree.now) model.Keyword }
    ensures bad_type { result ≡ Err ShapeRefusal.BadType
        → model.HasShapeFault (trees.view tree.now) model.BadType }
    ensures min_items { result ≡ Err ShapeRefusal.MinItems
        → model.HasShapeFault (trees.view tree.now) model.MinItems }
{
    read_spelling(alloc, tree, true)
}

/// The shape that a tree spells where lists of types may not stand, as in certificates of version 1: as [`read`] tells it,
/// but that any such list is refused as `BadType`.
pub fn read_v1(alloc: Global, tree: &Tree) -> Result<Shape, ShapeRefusal>
    ensures spelled { IfOk result (λ s. model.SpellsShapeV1 (trees.view tree.now) (view s)) }
    ensures proper { IfOk result (λ s. IsTrue (is_proper s)) }
    ensures not_a_shape { result ≡ Err ShapeRefusal.NotAShape
        → model.HasShapeFaultV1 (trees.view tree.now) model.NotAShape }
    ensures keyword { result ≡ Err ShapeRefusal.Keyword
        → model.HasShapeFaultV1 (trees.view tree.now) model.Keyword }
    ensures bad_type { result ≡ Err ShapeRefusal.BadType
        → model.HasShapeFaultV1 (trees.view tree.now) model.BadType }
    ensures min_items { result ≡ Err ShapeRefusal.MinItems
        → model.HasShapeFaultV1 (trees.view tree.now) model.MinItems }
{
    read_spelling(alloc, tree, false)
}

// The shape of the spelling; `several` says whether lists of types may stand.
#[cycle(read)]
fn read_spelling(alloc: Global, tree: &Tree, several: bool) -> Result<Shape, ShapeRefusal>
    ensures spelled { IfOk result (λ s. SpellsAs several (trees.view tree.now) (view s)) }
    ensures proper { IfOk result (λ s. IsTrue (is_proper s)) }
    ensures refused { IfErr result
        (λ e. Tells e (model.shape_faults several (trees.view tree.now))) }
{
    match read_level(alloc, tree, several)? {
        Level::Any => Ok(Shape::Any),
        Level::Never => Ok(Shape::Never),
        Level::Kinds {
            null,
            boolean,
            integer,
            text,
            list,
            object,
        } => {
            let arrays = read_list(alloc, list, several)?;
            let objects = read_object(alloc, object, several)?;
            let kinds = OwnedKinds {
                null,
                boolean,
                integer,
                text,
                arrays,
                objects,
            };
            Ok(of_kinds(alloc, kinds)?)
        }
    }
}

// The lists of that level, where there are any.
#[tactic(auto, using(crate::proofs::Telling::told_left, crate::proofs::Telling::told_right))]
#[cycle(read)]
fn read_list(
    alloc: Global,
    list: Option<ListLevel<'_>>,
    several: bool,
) -> Result<Option<OwnedArrays>, ShapeRefusal>
    ensures shape { IfOk result
        (λ a. owned_arrays_view a ≡ arrays_over (option_map list_view list.entry)) }
    ensures proper { IfOk result (λ a. IsTrue (arrays_proper a)) }
    ensures right { IfOk result
        (λ _. list_inner_faults several (option_map list_view list.entry) ≡ []) }
    ensures refused { IfErr result
        (λ e. Tells e (list_inner_faults several (option_map list_view list.entry))) }
{
    match list {
        None => Ok(None),
        Some(ListLevel { first, rest }) => {
            let first = read_elements(alloc, first, several)?;
            let rest = read_rest(alloc, rest, several)?;
            Ok(Some(OwnedArrays {
                first,
                rest: Box::new(alloc, rest)?,
            }))
        }
    }
}

// The shapes that the elements spell.
#[tactic(auto, using(crate::proofs::Spellings::shapes_read, crate::proofs::Telling::told_left))]
#[cycle(read)]
fn read_elements(
    alloc: Global,
    elements: &[Tree],
    several: bool,
) -> Result<Vec<Shape>, ShapeRefusal>
    ensures right { IfOk result
        (λ _. model.element_faults several (trees.elements_view elements.now) ≡ []) }
    ensures shapes { IfOk result
        (λ v. shapes_view v.items ≡ model.element_shapes (trees.elements_view elements.now)) }
    ensures proper { IfOk result (λ v. IsTrue (are_proper v.items)) }
    ensures refused { IfErr result
        (λ e. Tells e (model.element_faults several (trees.elements_view elements.now))) }
{
    let mut shapes = Vec::with_capacity(alloc, elements.len())?;
    for element in elements {
        shapes.push(read_spelling(alloc, element, several)?)?;
    }
    Ok(shapes)
}

// The shape of the further elements: `Any` where there is no spelling.
#[cycle(read)]
fn read_rest(alloc: Global, rest: Option<&Tree>, several: bool) -> Result<Shape, ShapeRefusal>
    ensures right { IfOk result (λ _. rest_faults several (trees.tree_there rest.entry) ≡ []) }
    ensures shape { IfOk result (λ s. view s ≡ rest_shape (trees.tree_there rest.entry)) }
    ensures proper { IfOk result (λ s. IsTrue (is_proper s)) }
    ensures refused { IfErr result
        (λ e. Tells e (rest_faults several (trees.tree_there rest.entry))) }
{
    match rest {
        None => Ok(Shape::Any),
        Some(tree) => read_spelling(alloc, tree, several),
    }
}

// The objects of that level, where there are any.
#[cycle(read)]
fn read_object(
    alloc: Global,
    object: Option<ObjectLevel<'_>>,
    several: bool,
) -> Result<Option<OwnedObjects>, ShapeRefusal>
    ensures shape { IfOk result
        (λ o. owned_objects_view o ≡ objects_over (option_map object_view object.entry)) }
    ensures proper { IfOk result (λ o. IsTrue (objects_proper o)) }
    ensures right { IfOk result
        (λ _. object_inner_faults several (option_map object_view object.entry) ≡ []) }
    ensures refused { IfErr result
        (λ e. Tells e (object_inner_faults several (option_map object_view object.entry))) }
{
    match object {
        None => Ok(None),
        Some(object) => {
            let mut fields = read_properties(alloc, object.properties, several)?;
            require_all(&object.required, object.extra, &mut fields)?;
            Ok(Some(OwnedObjects {
                fields,
                extra: object.extra,
            }))
        }
    }
}

// The fields that the properties mention, where there are any, none of them needed.
#[cycle(read)]
fn read_properties(
    alloc: Global,
    properties: Option<&BTreeMap<String, Tree>>,
    several: bool,
) -> Result<BTreeMap<String, Field>, ShapeRefusal>
    ensures right { IfOk result
        (λ _. model.field_faults several (trees.fields_there properties.entry) ≡ []) }
    ensures fields { IfOk result
        (λ m. fields_view m.entries ≡ model.field_shapes (trees.fields_there properties.entry)) }
    ensures proper { IfOk result (λ m. IsTrue (fields_proper m.entries)) }
    ensures refused { IfErr result
        (λ e. Tells e (model.field_faults several (trees.fields_there properties.entry))) }
{
    match properties {
        None => Ok(BTreeMap::new(alloc)),
        Some(members) => read_members(alloc, members, several),
    }
}

// The fields that the properties mention, none of them needed.
#[cycle(read)]
fn read_members(
    alloc: Global,
    members: &BTreeMap<String, Tree>,
    several: bool,
) -> Result<BTreeMap<String, Field>, ShapeRefusal>
    ensures right { IfOk result
        (λ _. model.field_faults several (trees.entries_view members.now.entries) ≡ []) }
    ensures fields { IfOk result
        (λ m. fields_view m.entries ≡ model.field_shapes (trees.entries_view members.now.entries)) }
    ensures proper { IfOk result (λ m. IsTrue (fields_proper m.entries)) }
    ensures refused { IfErr result
        (λ e. Tells e (model.field_faults several (trees.entries_view members.now.entries))) }
{
    let mut fields = BTreeMap::new(alloc);
    for (name, member) in members.iter() {
        let name = name.clone()?;
        let shape = read_spelling(alloc, member, several)?;
        let field = Field {
            needed: false,
            shape,
        };
        drop(fields.insert(name, field)?);
    }
    Ok(fields)
}

// Makes the fields of these names needed; those that aren't mentioned are added.
fn require_all(
    names: &[&String],
    extra: bool,
    fields: &mut BTreeMap<String, Field>,
) -> Result<(), OutOfMemory>
    ensures proper { IsTrue (fields_proper fields.old.entries)
        → IfOk result (λ _. IsTrue (fields_proper fields.new.entries)) }
    ensures needed { IfOk result (λ _. fields_view fields.new.entries
        ≡ model.with_all_needed extra (texts names.now) (fields_view fields.old.entries)) }
{
    for name in names {
        require(name, extra, fields)?;
    }
    Ok(())
}

// Makes the field of that name needed.
fn require(
    name: &String,
    extra: bool,
    fields: &mut BTreeMap<String, Field>,
) -> Result<(), OutOfMemory>
    ensures proper { IsTrue (fields_proper fields.old.entries)
        → IfOk result (λ _. IsTrue (fields_proper fields.new.entries)) }
    ensures needed { IfOk result (λ _. fields_view fields.new.entries
        ≡ model.with_needed extra (string_bytes name.now) (fields_view fields.old.entries)) }
{
    if let Some(field) = fields.get_mut(name) {
        field.needed = true;
        return Ok(());
    }
    let key = name.clone()?;
    let field = Field {
        needed: true,
        shape: unmentioned(extra),
    };
    drop(fields.insert(key, field)?);
    Ok(())
}

// The shape of a needed field without a property.
fn unmentioned(extra: bool) -> Shape
    ensures shape { view result ≡ model.unmentioned extra }
    ensures proper { IsTrue (is_proper result) }
{
    if extra { Shape::Any } else { Shape::Never }
}
