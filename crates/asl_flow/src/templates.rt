//! The shape of what a payload template gives.
ghost use Rattle.std.specs.Prelude.{[], ◌<◌, ◌∷◌, ◌≡◌, Err, IfErr, IfOk, IfSome, List, Ok, OnOk, Option, Result, length, option_map};
ghost use Rattle.asl_flow.specs.Doubts.{IsCauseIn, IsFlowIn};
ghost use Rattle.asl_flow.specs.Items.{item_view};
ghost use Rattle.asl_flow.specs.Sources.{input_of, item_of, IsPart, IsWithin};
ghost use Rattle.asl_flow.specs.TemplateAnswer.{told_at, named_fault, ArePutDown, IsDoubted, IsFilled};
ghost use Rattle.asl_intrinsic.specs.View as calls;
ghost use Rattle.asl_model.specs.Intrinsic.{Item};
ghost use Rattle.asl_model.specs.Names.{FieldName};
ghost use Rattle.asl_model.specs.Shape.{Shape as ModelShape, Has};
ghost use Rattle.asl_model.specs.ShapeFlow as model;
ghost use Rattle.asl_model.specs.Template.{template_value};
ghost use Rattle.asl_model.specs.Tree as trees;
ghost use Rattle.asl_numbered.specs.Expansion.{shape_at, IsNumberOf, AreNumbersOf, AreFieldsOf, Keeps, Shows};
ghost use Rattle.asl_shape.specs.View.{view};
ghost use Rattle.asl_template.specs.View as templates;

use crate::calls::call_shape;
use crate::doubts::{Cause, Doubt, Flow};
use crate::literals::own_shape;
use crate::references::{Part, Sources};
use asl_model::shape_laws::template_shape_means_a_value;
use asl_numbered::{NodeField, Shapes};
use asl_shape::Shape;
use asl_shape_paths::composing::{closed_list, closed_object, set_field};
use asl_shape_paths::counterexample_at;
use asl_shape_paths::numbers::{expand, is_inhabited, put_never};
use asl_template::Template;
use asl_tree::{OutOfMemory, Tree, WantOfMemory};
use std::alloc::Global;
use std::collections::BTreeMap;
use std::rc::RcStr;

/// Why a template has no shape. The name is that of the nearest field of an object, without its suffix, and empty where
/// there is none.
#[derive(Debug, Drop)]
pub enum TemplateShapeRefusal {
    /// A path may name nothing; the tree is one of the shape that the path goes into, in which it does so.
    MayBeMissing(String, Tree),
    /// A call may fail, or there is no item that a path goes into.
    MayFail(String),
    /// An allocation was refused.
    OutOfMemory,
}

impl<E: WantOfMemory + Drop> From<E> for TemplateShapeRefusal {
    ghost use Rattle.asl_flow.specs.declared.templates.TemplateShapeRefusal.{TemplateShapeRefusal};

    ghost from_gives = { λ _ refusal. refusal ≡ TemplateShapeRefusal.OutOfMemory };

    fn from(_want: E) -> TemplateShapeRefusal {
        TemplateShapeRefusal::OutOfMemory
    }
}

/// The shape of the values that the template has for the trees of the input's shape and the items of the item's
/// (States Language, "Payload Template"), and `Never` where no tree has the input's.
///
/// It is refused where a path may name nothing, where an item path stands and there is no shape of an item, and where a
/// call may fail: a path in it may name nothing, or a function may not be given as many arguments, or values of the
/// kinds, that it takes. Of several doubts the first is told, with the field where it stands, and that of a path with a
/// tree that shows it. `OutOfMemory` comes only where an allocation was refused, of that tree too.
pub fn template_shape(
    alloc: Global,
    template: &Template,
    input: &Shape,
    item: Option<&Shape>,
) -> Result<Shape, TemplateShapeRefusal>
    ensures as_defined { IfOk result
        (λ s. model.template_shape (templates.view template.now) (view input.now)
        (item_view item.entry) ≡ Ok (view s)) }
    ensures value { IfOk result
        (λ s. (v : trees.Tree) (i : Option Item) → Has (view input.now) v
        → model.ItemHas (item_view item.entry) i
        → (u : trees.Tree) × (template_value (templates.view template.now) v i ≡ Ok u)
        × Has (view s) u) }
    ensures refused { IfErr result
        (IsDoubted
        (model.template_shape (templates.view template.now) (view input.now)
        (item_view item.entry))) }
{
    template_shape_means_a_value();
    let mut shapes = Shapes::new(alloc);
    let sources = Sources::add(&mut shapes, input, item)?;
    let number = template_shape_at(alloc, &mut shapes, template, sources.input, sources.item)?;
    Ok(expand(&shapes, number)?)
}

/// The number of the shape of the template's values, for the numbers of the shapes of its input and of the item, where
/// there is one, as [`template_shape`] tells it. What is refused may leave further shapes in the table.
pub fn template_shape_at(
    alloc: Global,
    shapes: &mut Shapes,
    template: &Template,
    input: usize,
    item: Option<usize>,
) -> Result<usize, TemplateShapeRefusal>
    requires input { input < length shapes.old }
    requires item { IfSome item (λ n. n < length shapes.old) }
    ensures as_defined { IfOk result
        (λ n. model.template_shape (templates.view template.now) (shape_at shapes.old input)
        (option_map (shape_at shapes.old) item) ≡ Ok (shape_at shapes.new n)) }
    ensures number { IfOk result (λ n. IsNumberOf shapes.new (shape_at shapes.new n) n) }
    ensures refused { IfErr result
        (IsDoubted (model.template_shape (templates.view template.now) (shape_at shapes.old input)
        (option_map (shape_at shapes.old) item))) }
    ensures keeps { Keeps shapes.old shapes.new }
{
    let sources = Sources { input, item };
    let filled = fill_at(alloc, shapes, "", template, sources)?;
    shapes.are_distinct();
    match filled {
        Ok(number) => Ok(number),
        Err(doubts) => Err(refusal_of(alloc, shapes, doubts[0])?),
    }
}

/// The number of the shape of the values that the template in that field of a state has, `Never`'s where no tree has the
/// input's; or all of the template's doubts, in order. Refuses only where an allocation was refused, and may leave further
/// shapes in the table then.
pub(crate) fn fill_at<'p>(
    alloc: Global,
    shapes: &mut Shapes,
    field: &'static str,
    template: &'p Template,
    sources: Sources,
) -> Result<Flow<'p>, OutOfMemory>
    requires within { IsWithin (length shapes.old) sources }
    ensures filled { IfOk result
        (IsFilled shapes.new field.now (model.template_shape (templates.view template.now)
        (input_of shapes.old sources) (item_of shapes.old sources))) }
    ensures within { IfOk result (IsFlowIn (length shapes.new)) }
    ensures keeps { Keeps shapes.old shapes.new }
{
    if !is_inhabited(shapes, sources.input) {
        return Ok(Ok(put_never(shapes)?));
    }
    let mut doubts = Vec::new(alloc);
    let place = Place { field, name: "" };
    let number = filled_shape(alloc, shapes, template, place, sources, &mut doubts)?;
    if doubts.is_empty() {
        Ok(Ok(number))
    } else {
        Ok(Err(doubts))
    }
}

/// Where a template stands: the state's field, and the name of the nearest field of an object inside it.
#[derive(Clone, Copy, Drop)]
struct Place<'p> {
    field: &'static str,
    name: &'p str,
}

/// The number of the shape of the template's value, with that of `Never` where there is a doubt; all doubts are put down,
/// in order.
#[cycle(template)]
fn filled_shape<'p>(
    alloc: Global,
    shapes: &mut Shapes,
    template: &'p Template,
    place: Place<'p>,
    sources: Sources,
    doubts: &mut Vec<Doubt<'p>>,
) -> Result<usize, OutOfMemory>
    requires within { IsWithin (length shapes.old) sources }
    ensures filled { IfOk result
        (Shows shapes.new
        (model.filled_shape (templates.view template.now) (input_of shapes.old sources)
        (item_of shapes.old sources))) }
    ensures doubted { OnOk result
        (ArePutDown shapes.new place.entry.field.now
        (model.doubts (templates.view template.now) place.entry.name.now
        (input_of shapes.old sources) (item_of shapes.old sources))
        doubts.old.items doubts.new.items) }
    ensures keeps { Keeps shapes.old shapes.new }
{
    match template {
        Template::Literal(tree) => own_shape(alloc, shapes, tree),
        Template::Path(path) => {
            let part = sources.in_input(shapes, path)?;
            part_or_never(shapes, part, place, doubts)
        }
        Template::ItemIndex => {
            let part = sources.item_index(shapes)?;
            part_or_never(shapes, part, place, doubts)
        }
        Template::ItemValue(path) => {
            let part = sources.in_item(shapes, path)?;
            part_or_never(shapes, part, place, doubts)
        }
        Template::Call(call) => {
            let value = call_shape(alloc, shapes, call, sources)?;
            part_or_never(shapes, value.ok_or(Cause::MayFail), place, doubts)
        }
        Template::List(elements) => {
            let first = element_shapes(alloc, shapes, elements, place, sources, doubts)?;
            closed_list(shapes, first)
        }
        Template::Object(fields) => {
            let mentions = field_shapes(alloc, shapes, fields, place.field, sources, doubts)?;
            closed_object(shapes, mentions)
        }
    }
}

/// The numbers of the shapes of the elements' values, in order; all their doubts are put down.
#[cycle(template)]
fn element_shapes<'p>(
    alloc: Global,
    shapes: &mut Shapes,
    elements: &'p [Template],
    place: Place<'p>,
    sources: Sources,
    doubts: &mut Vec<Doubt<'p>>,
) -> Result<Vec<usize>, OutOfMemory>
    requires within { IsWithin (length shapes.old) sources }
    ensures filled { IfOk result
        (λ v. AreNumbersOf shapes.new (model.filled_elements (templates.elements_view elements.now)
        (input_of shapes.old sources) (item_of shapes.old sources)) v.items) }
    ensures doubted { OnOk result
        (ArePutDown shapes.new place.entry.field.now
        (model.element_doubts (templates.elements_view elements.now) place.entry.name.now
        (input_of shapes.old sources) (item_of shapes.old sources))
        doubts.old.items doubts.new.items) }
    ensures keeps { Keeps shapes.old shapes.new }
{
    let mut numbers = Vec::with_capacity(alloc, elements.len())?;
    for element in elements {
        let number = filled_shape(alloc, shapes, element, place, sources, doubts)?;
        numbers.push(number)?;
    }
    Ok(numbers)
}

/// Each field, needed and with the number of the shape of its value; all their doubts are put down, each under the name of
/// its own field.
#[cycle(template)]
fn field_shapes<'p>(
    alloc: Global,
    shapes: &mut Shapes,
    fields: &'p BTreeMap<String, Template>,
    field: &'static str,
    sources: Sources,
    doubts: &mut Vec<Doubt<'p>>,
) -> Result<BTreeMap<RcStr, NodeField>, OutOfMemory>
    requires within { IsWithin (length shapes.old) sources }
    ensures filled { IfOk result
        (λ m. AreFieldsOf shapes.new
        (model.filled_fields (templates.entries_view fields.now.entries)
        (input_of shapes.old sources) (item_of shapes.old sources)) m.entries) }
    ensures doubted { OnOk result
        (ArePutDown shapes.new field.now
        (model.field_doubts (templates.entries_view fields.now.entries)
        (input_of shapes.old sources) (item_of shapes.old sources))
        doubts.old.items doubts.new.items) }
    ensures keeps { Keeps shapes.old shapes.new }
{
    let mut mentions = BTreeMap::new(alloc);
    for (name, template) in fields.iter() {
        let place = Place { field, name };
        let mention = NodeField {
            needed: true,
            shape: filled_shape(alloc, shapes, template, place, sources, doubts)?,
        };
        set_field(&mut mentions, name, mention)?;
    }
    Ok(mentions)
}

/// The number of the part's shape; for a doubt, which is put down at its place, that of `Never`.
fn part_or_never<'p>(
    shapes: &mut Shapes,
    part: Part<'p>,
    place: Place<'p>,
    doubts: &mut Vec<Doubt<'p>>,
) -> Result<usize, OutOfMemory>
    ensures filled { (whole : Result ModelShape model.Doubt) → IsPart shapes.old whole part.entry
        → IfOk result (Shows shapes.new (model.or_none whole)) }
    ensures doubted { (whole : Result ModelShape model.Doubt) → IsPart shapes.old whole part.entry
        → OnOk result
        (ArePutDown shapes.new place.entry.field.now (model.doubts_at place.entry.name.now whole)
        doubts.old.items doubts.new.items) }
    ensures keeps { Keeps shapes.old shapes.new }
{
    match part {
        Ok(number) => Ok(number),
        Err(cause) => {
            let Place { field, name } = place;
            doubts.push(Doubt { field, name, cause })?;
            put_never(shapes)
        }
    }
}

/// The refusal that tells a template's doubt.
fn refusal_of(
    alloc: Global,
    shapes: &mut Shapes,
    doubt: Doubt<'_>,
) -> Result<TemplateShapeRefusal, OutOfMemory>
    requires cause { IsCauseIn shapes.old doubt.cause }
    ensures told { IfOk result
        (λ refusal. (field : FieldName) (told : FieldName × model.Doubt)
        → told_at field told ≡ named_fault shapes.old doubt.entry
        → IsDoubted (Err (told ∷ [])) refusal) }
    ensures keeps { Keeps shapes.old shapes.new }
{
    let name = String::from_str(alloc, doubt.name)?;
    match doubt.cause {
        Cause::MayBeMissing(doubtful) => {
            let tree = counterexample_at(alloc, shapes, doubtful)?;
            Ok(TemplateShapeRefusal::MayBeMissing(name, tree))
        }
        // A template places nothing, so that what it places always fits.
        Cause::MayFail | Cause::MayNotFit => Ok(TemplateShapeRefusal::MayFail(name)),
    }
}
