//! Reading templates from JSON values.
ghost use Rattle.std.specs.Prelude.{◌≡◌, ◌-◌, [], true, false, Err, IfOk, IfErr, OnOk, MatchOption, None, is_some, length, take, string_bytes};
ghost use Rattle.serde_json.specs.View.{view as json_view, items_view, members_view};
ghost use Rattle.asl_model.specs.CallSpelling.{call_from};
ghost use Rattle.asl_model.specs.Json.{tree_of, elements_of, members_of};
ghost use Rattle.asl_model.specs.Template.{Literal};
ghost use Rattle.asl_model.specs.TemplateGrammar.{StandsForTemplate};
ghost use Rattle.asl_model.specs.TemplateSpelling as model;
ghost use Rattle.asl_model.specs.Tree as json;
ghost use Rattle.asl_template.specs.Field.{field_template, field_faults};
ghost use Rattle.asl_template.specs.Refusal.{Tells};
ghost use Rattle.asl_template.specs.View.{view, elements_view, entries_view};
ghost use Rattle.asl_template.specs.Whole.{ValueSpells, ValueStandsFor, ValueHasFault};
ghost use Rattle.asl_template.specs.declared.refusal.SpellingRefusal.TheVariants.{NotObject, NotText, BadPath, BadIntrinsic, DuplicateAfterStrip, LeftOutContext, NotWhole};
ghost use Rattle.asl_tree.specs.Values.{tree_in, elements_in, fields_in};
ghost use Rattle.asl_tree.specs.View as trees;

use crate::paths::read_path;
use crate::{SpellingRefusal, Template};
use asl_intrinsic::CallRefusal;
use asl_tree::{Tree, TreeRefusal, is_whole, to_value};
use serde_json::{Map, Value};
use std::alloc::Global;
use std::collections::BTreeMap;

/// The template that a JSON value spells, as the tree that it is (States Language, "Payload Template").
///
/// A template is an object. At any depth a field whose name ends in `.$` loses that suffix, and its value, a text, is a
/// path into the template's input (one leading `$`), a context path (`$$`), or an intrinsic call. All else stands for
/// itself. `item` says whether paths to the item that a Map takes at hand are allowed.
///
/// Refuses as [`SpellingRefusal::NotWhole`] each value that is no tree, which takes no memory. Where several other
/// refusals stand in the tree, the answer is one of them.
pub fn from_value(alloc: Global, value: &Value, item: bool) -> Result<Template, SpellingRefusal>
    ensures spelled { IfOk result (λ t. ValueSpells item (json_view value.now) (view t)) }
    ensures stands_for { IfOk result (λ t. ValueStandsFor item (json_view value.now) (view t)) }
    ensures not_whole { result ≡ Err NotWhole → tree_of (json_view value.now) ≡ None }
    ensures no_tree { tree_of (json_view value.now) ≡ None → result ≡ Err NotWhole }
    ensures not_object { result ≡ Err NotObject
        → ValueHasFault item (json_view value.now) model.NotObject }
    ensures not_text { result ≡ Err NotText
        → ValueHasFault item (json_view value.now) model.NotText }
    ensures bad_path { result ≡ Err BadPath
        → ValueHasFault item (json_view value.now) model.BadPath }
    ensures bad_intrinsic { result ≡ Err BadIntrinsic
        → ValueHasFault item (json_view value.now) model.BadIntrinsic }
    ensures duplicate_after_strip { result ≡ Err DuplicateAfterStrip
        → ValueHasFault item (json_view value.now) model.DuplicateAfterStrip }
    ensures left_out_context { result ≡ Err LeftOutContext
        → ValueHasFault item (json_view value.now) model.LeftOutContext }
{
    // The numbers are looked at before there is memory to ask for, so a refused request is never told as one of them.
    if is_whole(value) {
        read_top(alloc, value, item)
    } else {
        Err(SpellingRefusal::NotWhole)
    }
}

/// The template that a tree spells: [`from_value`], of the JSON value that the tree is.
///
/// Where several refusals stand in a tree, the answer is one of them.
pub fn from_tree(alloc: Global, tree: &Tree, item: bool) -> Result<Template, SpellingRefusal>
    ensures spelled { IfOk result (λ t. model.SpellsTemplate item (trees.view tree.now) (view t)) }
    ensures stands_for { IfOk result (λ t. StandsForTemplate item (trees.view tree.now) (view t)) }
    ensures not_object { result ≡ Err NotObject
        → model.HasTemplateFault item (trees.view tree.now) model.NotObject }
    ensures not_text { result ≡ Err NotText
        → model.HasTemplateFault item (trees.view tree.now) model.NotText }
    ensures bad_path { result ≡ Err BadPath
        → model.HasTemplateFault item (trees.view tree.now) model.BadPath }
    ensures bad_intrinsic { result ≡ Err BadIntrinsic
        → model.HasTemplateFault item (trees.view tree.now) model.BadIntrinsic }
    ensures duplicate_after_strip { result ≡ Err DuplicateAfterStrip
        → model.HasTemplateFault item (trees.view tree.now) model.DuplicateAfterStrip }
    ensures left_out_context { result ≡ Err LeftOutContext
        → model.HasTemplateFault item (trees.view tree.now) model.LeftOutContext }
    ensures of_tree { ¬ (result ≡ Err NotWhole) }
{
    let value = to_value(alloc, tree)?;
    from_value(alloc, &value, item)
}

/// The template that a value at the top spells.
fn read_top(alloc: Global, value: &Value, item: bool) -> Result<Template, SpellingRefusal>
    ensures spelled { IfOk result (λ t. model.SpellsTemplate item (tree_in value.now) (view t)) }
    ensures not_whole { result ≡ Err NotWhole → tree_of (json_view value.now) ≡ None }
    ensures refused { IfErr result (λ e. Tells e (model.template_faults item (tree_in value.now))) }
{
    match value {
        Value::Object(members) => Ok(Template::Object(read_fields(alloc, members, item)?)),
        Value::Null | Value::Bool(_) | Value::Number(_) | Value::String(_) | Value::Array(_) => {
            Err(SpellingRefusal::NotObject)
        }
    }
}

/// The template that a value inside a template spells.
#[cycle(read)]
fn read_part(alloc: Global, value: &Value, item: bool) -> Result<Template, SpellingRefusal>
    ensures right { OnOk result (model.part_faults item (tree_in value.now) ≡ []) }
    ensures template { IfOk result (λ t. view t ≡ model.part_of item (tree_in value.now)) }
    ensures not_whole { result ≡ Err NotWhole → tree_of (json_view value.now) ≡ None }
    ensures refused { IfErr result (λ e. Tells e (model.part_faults item (tree_in value.now))) }
{
    match value {
        Value::Object(members) => Ok(Template::Object(read_fields(alloc, members, item)?)),
        Value::Array(elements) => Ok(Template::List(read_elements(alloc, elements, item)?)),
        Value::Null | Value::Bool(_) | Value::Number(_) | Value::String(_) => {
            read_literal(alloc, value)
        }
    }
}

/// The template of a value that stands for itself.
fn read_literal(alloc: Global, value: &Value) -> Result<Template, SpellingRefusal>
    ensures template { IfOk result (λ t. view t ≡ Literal (tree_in value.now)) }
    ensures not_whole { result ≡ Err NotWhole → tree_of (json_view value.now) ≡ None }
    ensures refused { IfErr result (λ e. Tells e []) }
{
    match asl_tree::from_value(alloc, value) {
        Ok(tree) => Ok(Template::Literal(tree)),
        Err(refusal) => match refusal {
            TreeRefusal::NotWhole => Err(SpellingRefusal::NotWhole),
            TreeRefusal::OutOfMemory => Err(SpellingRefusal::OutOfMemory),
            TreeRefusal::NotJson => unreachable!(),
        },
    }
}

/// The templates that the elements spell.
#[cycle(read)]
fn read_elements(
    alloc: Global,
    elements: &[Value],
    item: bool,
) -> Result<Vec<Template>, SpellingRefusal>
    ensures right { OnOk result (model.parts_faults item (elements_in elements.now) ≡ []) }
    ensures templates { IfOk result
        (λ v. elements_view v.items ≡ model.parts_of item (elements_in elements.now)) }
    ensures not_whole { result ≡ Err NotWhole → elements_of (items_view elements.now) ≡ None }
    ensures refused { IfErr result
        (λ e. Tells e (model.parts_faults item (elements_in elements.now))) }
{
    let mut templates = Vec::with_capacity(alloc, elements.len())?;
    for element in elements {
        templates.push(read_part(alloc, element, item)?)?;
    }
    Ok(templates)
}

/// The templates that the fields spell, by name without the suffix `.$`.
#[cycle(read)]
fn read_fields(
    alloc: Global,
    members: &Map<String, Value>,
    item: bool,
) -> Result<BTreeMap<String, Template>, SpellingRefusal>
    ensures right { OnOk result
        (model.part_faults item (json.Object (fields_in members.now.entries)) ≡ []) }
    ensures templates { IfOk result (λ m. entries_view m.entries
        ≡ model.field_templates_of item (fields_in members.now.entries)) }
    ensures not_whole { result ≡ Err NotWhole
        → members_of (members_view members.now.entries) ≡ None }
    ensures refused { IfErr result
        (λ e. Tells e (model.part_faults item (json.Object (fields_in members.now.entries)))) }
{
    let mut templates = BTreeMap::new(alloc);
    for (name, value) in members.iter() {
        let (name, template) = read_field(alloc, name, value, item)?;
        if templates.insert(name, template)?.is_some() {
            return Err(SpellingRefusal::DuplicateAfterStrip);
        }
    }
    Ok(templates)
}

/// The name of a field without the suffix `.$`, and the template that its value spells.
#[cycle(read)]
fn read_field(
    alloc: Global,
    name: &str,
    value: &Value,
    item: bool,
) -> Result<(String, Template), SpellingRefusal>
    ensures right { OnOk result (field_faults item name.now (tree_in value.now) ≡ []) }
    ensures name { IfOk result (λ f. string_bytes f.0 ≡ model.renamed name.now) }
    ensures template { IfOk result
        (λ f. view f.1 ≡ field_template item name.now (tree_in value.now)) }
    ensures not_whole { result ≡ Err NotWhole → tree_of (json_view value.now) ≡ None }
    ensures refused { IfErr result (λ e. Tells e (field_faults item name.now (tree_in value.now))) }
{
    match unmarked(name) {
        Some(plain) => Ok((
            String::from_str(alloc, plain)?,
            read_marked(alloc, value, item)?,
        )),
        None => Ok((
            String::from_str(alloc, name)?,
            read_part(alloc, value, item)?,
        )),
    }
}

/// The name without the suffix `.$`, where it has that suffix.
fn unmarked(name: &str) -> Option<&str>
    ensures { MatchOption result (model.is_marked name.now ≡ false)
        (λ n. (model.is_marked name.now ≡ true) × (n.now ≡ take (length name.now - 2) name.now)) }
{
    name.strip_suffix(".$")
}

/// What the value of a field whose name ends in `.$` stands for.
fn read_marked(alloc: Global, value: &Value, item: bool) -> Result<Template, SpellingRefusal>
    ensures right { OnOk result (model.marked_faults item (tree_in value.now) ≡ []) }
    ensures template { IfOk result (λ t. view t ≡ model.marked_value item (tree_in value.now)) }
    ensures of_text { ¬ (result ≡ Err NotWhole) }
    ensures refused { IfErr result (λ e. Tells e (model.marked_faults item (tree_in value.now))) }
{
    match value {
        Value::String(text) => read_text(alloc, text, item),
        Value::Null | Value::Bool(_) | Value::Number(_) | Value::Array(_) | Value::Object(_) => {
            Err(SpellingRefusal::NotText)
        }
    }
}

/// The path, or else the call, that the text spells.
fn read_text(alloc: Global, text: &str, item: bool) -> Result<Template, SpellingRefusal>
    ensures right { OnOk result (model.marked_text_faults item text.now ≡ []) }
    ensures template { IfOk result (λ t. view t ≡ model.marked_text item text.now) }
    ensures of_text { ¬ (result ≡ Err NotWhole) }
    ensures refused { IfErr result (λ e. Tells e (model.marked_text_faults item text.now)) }
{
    if text.starts_with('$') {
        read_path(alloc, text, item)
    } else {
        read_call(alloc, text, item)
    }
}

/// The call that the text spells.
fn read_call(alloc: Global, text: &str, item: bool) -> Result<Template, SpellingRefusal>
    ensures right { OnOk result (model.unless_call (call_from item text.now) ≡ []) }
    ensures template { IfOk result (λ t. view t ≡ model.call_or_null (call_from item text.now)) }
    ensures of_text { ¬ (result ≡ Err NotWhole) }
    ensures refused { IfErr result (λ e. Tells e (model.unless_call (call_from item text.now))) }
{
    match asl_intrinsic::parse(alloc, text, item) {
        Ok(call) => Ok(Template::Call(call)),
        Err(refusal) => match refusal {
            CallRefusal::Malformed | CallRefusal::UnknownFunction | CallRefusal::BadPath => {
                Err(SpellingRefusal::BadIntrinsic)
            }
            CallRefusal::OutOfMemory => Err(SpellingRefusal::OutOfMemory),
        },
    }
}
