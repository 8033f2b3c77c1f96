//! The values of templates.
ghost use Rattle.std.specs.Prelude.{◌≡◌, None, Some, Ok, Err, IfOk, IfSome};
ghost use Rattle.asl_intrinsic.specs.View.{at_hand};
ghost use Rattle.asl_model.specs.Faults as faults;
ghost use Rattle.asl_model.specs.Path.{named_by};
ghost use Rattle.asl_model.specs.Template.{ArrayTemplate, ObjectTemplate, TellsLeastFailure, elements_filled, fields_filled, filled, template_value};
ghost use Rattle.asl_template.specs.Failing.{TellsFirst, answer};
ghost use Rattle.asl_template.specs.View.{view, elements_view, entries_view};
ghost use Rattle.asl_template.specs.declared.refusal.TemplateRefusal.TheVariants.{ParameterPathFailure, IntrinsicFailure};
ghost use Rattle.asl_tree.specs.View as trees;

use crate::{Template, TemplateRefusal};
use asl_intrinsic::{EvalRefusal, Item};
use asl_path::{RefPath, find};
use asl_tree::{Tree, copy};
use std::alloc::Global;
use std::collections::BTreeMap;

/// The value of the template for the input and the item at hand (States Language, "Payload Template").
///
/// What a path names stands in its place, and a call's value in that of the call. Where some of these fail, the refusal
/// is that of the least place: fields by the bytes of their names, elements by position. An item path fails where there
/// is no item.
pub fn eval(
    alloc: Global,
    template: &Template,
    input: &Tree,
    item: Option<Item>,
) -> Result<Tree, TemplateRefusal>
    ensures value { IfOk result
        (λ t. template_value (view template.now) (trees.view input.now) (at_hand item.entry)
        ≡ Ok (trees.view t)) }
    ensures path_failure { result ≡ Err ParameterPathFailure
        → template_value (view template.now) (trees.view input.now) (at_hand item.entry)
        ≡ Err faults.ParameterPathFailure }
    ensures intrinsic_failure { result ≡ Err IntrinsicFailure
        → template_value (view template.now) (trees.view input.now) (at_hand item.entry)
        ≡ Err faults.IntrinsicFailure }
    ensures least { IfSome (answer result)
        (TellsLeastFailure (trees.view input.now) (at_hand item.entry) (view template.now)) }
{
    value_of(alloc, template, input, item)
}

/// The value of the template.
#[cycle(eval)]
fn value_of(
    alloc: Global,
    template: &Template,
    input: &Tree,
    item: Option<Item>,
) -> Result<Tree, TemplateRefusal>
    ensures value { IfOk result
        (λ t. trees.view t ≡ filled (view template.now) (trees.view input.now)
        (at_hand item.entry)) }
    ensures first { TellsFirst result (view template.now) (trees.view input.now)
        (at_hand item.entry) }
{
    match template {
        Template::Literal(tree) => Ok(copy(alloc, tree)?),
        Template::Path(path) => value_at(alloc, input, path),
        Template::ItemIndex => match item {
            Some(item) => Ok(Tree::Int(item.index)),
            None => Err(TemplateRefusal::ParameterPathFailure),
        },
        Template::ItemValue(path) => match item {
            Some(item) => value_at(alloc, item.value, path),
            None => Err(TemplateRefusal::ParameterPathFailure),
        },
        Template::Call(call) => match asl_intrinsic::eval(alloc, call, input, item) {
            Ok(value) => Ok(value),
            Err(EvalRefusal::IntrinsicFailure) => Err(TemplateRefusal::IntrinsicFailure),
            Err(EvalRefusal::OutOfMemory) => Err(TemplateRefusal::OutOfMemory),
        },
        Template::List(elements) => Ok(Tree::List(element_values(alloc, elements, input, item)?)),
        Template::Object(fields) => Ok(Tree::Object(field_values(alloc, fields, input, item)?)),
    }
}

/// A copy of what the path names in the tree.
fn value_at(alloc: Global, tree: &Tree, path: &RefPath) -> Result<Tree, TemplateRefusal>
    ensures value { IfOk result
        (λ t. named_by path.now (trees.view tree.now) ≡ Some (trees.view t)) }
    ensures nothing_named { result ≡ Err ParameterPathFailure
        → named_by path.now (trees.view tree.now) ≡ None }
    ensures of_path { ¬ (result ≡ Err IntrinsicFailure) }
{
    match find(tree, path) {
        Some(node) => Ok(copy(alloc, node)?),
        None => Err(TemplateRefusal::ParameterPathFailure),
    }
}

/// The value of each element.
#[cycle(eval)]
fn element_values(
    alloc: Global,
    elements: &[Template],
    input: &Tree,
    item: Option<Item>,
) -> Result<Vec<Tree>, TemplateRefusal>
    ensures values { IfOk result
        (λ v. trees.elements_view v.items
        ≡ elements_filled (elements_view elements.now) (trees.view input.now)
        (at_hand item.entry)) }
    ensures first { TellsFirst result (ArrayTemplate (elements_view elements.now))
        (trees.view input.now) (at_hand item.entry) }
{
    let mut values = Vec::with_capacity(alloc, elements.len())?;
    for element in elements {
        values.push(value_of(alloc, element, input, item)?)?;
    }
    Ok(values)
}

/// The value of each field, by its name.
#[cycle(eval)]
fn field_values(
    alloc: Global,
    fields: &BTreeMap<String, Template>,
    input: &Tree,
    item: Option<Item>,
) -> Result<BTreeMap<String, Tree>, TemplateRefusal>
    ensures values { IfOk result
        (λ m. trees.entries_view m.entries
        ≡ fields_filled (entries_view fields.now.entries) (trees.view input.now)
        (at_hand item.entry)) }
    ensures first { TellsFirst result (ObjectTemplate (entries_view fields.now.entries))
        (trees.view input.now) (at_hand item.entry) }
{
    let mut values = BTreeMap::new(alloc);
    for (name, field) in fields.iter() {
        let key = name.clone()?;
        drop(values.insert(key, value_of(alloc, field, input, item)?)?);
    }
    Ok(values)
}
