//! One level of the spelling of a shape: what its keywords say, all together ([`read_level`]) and one by one.
ghost use Rattle.asl_model.specs.ShapeSpelling as model;
ghost use Rattle.asl_model.specs.Tree as json;
ghost use Rattle.asl_shape.specs.Level as levels;
ghost use Rattle.asl_shape.specs.Level.{SpelledOver, level_faults, list_faults, object_faults, elements_in, fields_in};
ghost use Rattle.asl_model.specs.Shape as shape;
ghost use Rattle.asl_shape.specs.LevelView.{level_view, list_view, object_view, texts};
ghost use Rattle.asl_shape.specs.Refusal.{Tells};
ghost use Rattle.asl_shape.specs.Types.{keywords_for, faults_when, TextIn};
ghost use Rattle.asl_shape.specs.Spelled as trees;
ghost use Rattle.asl_shape.specs.Spelled.{entries_view, member_named, tree_there, fields_there};
ghost use Rattle.std.specs.List.{Contains};
ghost use Rattle.std.specs.Ordering.{int_eq};
ghost use Rattle.asl_shape.specs.declared.ShapeRefusal.{ShapeRefusal};
ghost use Rattle.std.specs.Prelude.{◌≡◌, ◌&&◌, [], IsTrue, not, map, codes, length, string_bytes, IfOk, IfErr, Some, option_map, pos, true, false};

use crate::ShapeRefusal;
use asl_tree::Tree;
use std::alloc::Global;
use std::collections::{BTreeMap, BTreeSet};
use std::slice;

/// One level of the spelling of a shape, with the trees in it that spell the shapes inside.
#[derive(Drop)]
pub enum Level<'v> {
    /// `Any`, spelled whole.
    Any,
    /// `Never`, spelled whole.
    Never,
    /// The types that `type` says, one or several.
    Kinds {
        /// Whether `null` is among them.
        null: bool,
        /// Whether `boolean` is.
        boolean: bool,
        /// Whether `integer` is.
        integer: bool,
        /// Whether `string` is.
        text: bool,
        /// What is said of lists, where `array` is among the types.
        list: Option<ListLevel<'v>>,
        /// What is said of objects, where `object` is.
        object: Option<ObjectLevel<'v>>,
    },
}

/// What a level says of lists.
#[derive(Clone, Copy)]
pub struct ListLevel<'v> {
    /// What stands in `prefixItems`, nothing where it is absent.
    pub first: &'v [Tree],
    /// What stands in `items`.
    pub rest: Option<&'v Tree>,
}

/// What a level says of objects.
#[derive(Drop)]
pub struct ObjectLevel<'v> {
    /// What stands in `properties`.
    pub properties: Option<&'v BTreeMap<String, Tree>>,
    /// The names in `required`, in their order, no two alike.
    pub required: Vec<&'v String>,
    /// Whether other fields may be there, as `additionalProperties` says.
    pub extra: bool,
}

const TYPES: [&str; 6] = ["array", "boolean", "integer", "null", "object", "string"];

const ANNOTATIONS: [&str; 7] = [
    "$schema",
    "$id",
    "$comment",
    "title",
    "description",
    "default",
    "examples",
];

const OBJECT_KEYWORDS: [&str; 11] = [
    "type",
    "properties",
    "required",
    "additionalProperties",
    "$schema",
    "$id",
    "$comment",
    "title",
    "description",
    "default",
    "examples",
];

const ARRAY_KEYWORDS: [&str; 11] = [
    "type",
    "prefixItems",
    "items",
    "minItems",
    "$schema",
    "$id",
    "$comment",
    "title",
    "description",
    "default",
    "examples",
];

const SIMPLE_KEYWORDS: [&str; 8] = [
    "type",
    "$schema",
    "$id",
    "$comment",
    "title",
    "description",
    "default",
    "examples",
];

const LIST_AND_OBJECT_KEYWORDS: [&str; 14] = [
    "type",
    "prefixItems",
    "items",
    "minItems",
    "properties",
    "required",
    "additionalProperties",
    "$schema",
    "$id",
    "$comment",
    "title",
    "description",
    "default",
    "examples",
];

/// The level that a tree says, as the spelling of a shape; `several` says whether `type` may be a list of types.
///
/// All that the level says itself is checked: that `type` is a type or, where it may be, a list of one or more types, none
/// twice; that each keyword belongs to one of the types, that `minItems` is the number of the values in `prefixItems`,
/// that `required` is a list of distinct texts, and that the other keywords are of their kinds. The values that spell the
/// shapes inside aren't looked at.
///
/// Where several refusals stand in a tree, the answer is one of them.
pub fn read_level(alloc: Global, tree: &Tree, several: bool) -> Result<Level<'_>, ShapeRefusal>
    ensures level { IfOk result
        (λ level. SpelledOver several (trees.view tree.now) (level_view level)) }
    ensures refused { IfErr result (λ e. Tells e (level_faults several (trees.view tree.now))) }
    ensures faulty { IfErr result
        (λ e. Tells e (model.shape_faults several (trees.view tree.now))) }
{
    match tree {
        Tree::Bool(true) => Ok(Level::Any),
        Tree::Bool(false) => Ok(Level::Never),
        Tree::Object(keywords) => keyword_level(alloc, keywords, several),
        Tree::Null | Tree::Int(_) | Tree::Text(_) | Tree::List(_) => {
            Err(ShapeRefusal::NotAShape)
        }
    }
}

// The level that an object of keywords says.
fn keyword_level(
    alloc: Global,
    keywords: &BTreeMap<String, Tree>,
    several: bool,
) -> Result<Level<'_>, ShapeRefusal>
    ensures level { IfOk result
        (λ level. SpelledOver several (json.Object
        (entries_view keywords.now.entries)) (level_view level)) }
    ensures refused { IfErr result
        (λ e. Tells e (level_faults several (json.Object (entries_view keywords.now.entries)))) }
{
    match member(keywords, "type") {
        None => untyped_level(keywords),
        Some(tree) => {
            let names = type_names(tree, several)?;
            typed_level(alloc, keywords, names)
        }
    }
}

// The level of an object without `type`.
fn untyped_level(keywords: &BTreeMap<String, Tree>) -> Result<Level<'_>, ShapeRefusal>
    ensures level { IfOk result (λ level. level_view level ≡ levels.Whole shape.Any) }
    ensures right { IfOk result
        (λ _. model.foreign_faults model.BadType model.annotations
        (entries_view keywords.now.entries) ≡ []) }
    ensures refused { IfErr result
        (λ e. Tells e (model.foreign_faults model.BadType model.annotations
        (entries_view keywords.now.entries))) }
{
    if all_among(keywords, &ANNOTATIONS) {
        Ok(Level::Any)
    } else {
        Err(ShapeRefusal::BadType)
    }
}

/// The values that name the types which `type` says, each of them one of the six, none twice; `several` says whether there
/// may be a list of them.
pub fn type_names(tree: &Tree, several: bool) -> Result<&[Tree], ShapeRefusal>
    ensures right { IfOk result (λ _. model.type_faults several (trees.view tree.now) ≡ []) }
    ensures names { IfOk result
        (λ names. model.texts_among (trees.elements_view names.now)
        ≡ model.types_in (Some (trees.view tree.now))) }
    ensures refused { IfErr result
        (λ e. Tells e (model.type_faults several (trees.view tree.now))) }
{
    match tree {
        Tree::Text(word) => {
            if is_among(word, &TYPES) {
                Ok(slice::from_ref(tree))
            } else {
                Err(ShapeRefusal::BadType)
            }
        }
        Tree::List(elements) => {
            if several && is_type_list(elements) {
                Ok(elements)
            } else {
                Err(ShapeRefusal::BadType)
            }
        }
        Tree::Null | Tree::Bool(_) | Tree::Int(_) | Tree::Object(_) => {
            Err(ShapeRefusal::NotAShape)
        }
    }
}

// Whether the elements name types, one or more, none twice.
#[tactic(auto, using(crate::proofs::Spellings::type_list))]
fn is_type_list(elements: &[Tree]) -> bool
    ensures { result ≡ model.is_type_list (trees.elements_view elements.now) }
{
    !elements.is_empty() && are_distinct_types(elements)
}

// Whether each element is the name of a type, and none stands twice.
fn are_distinct_types(elements: &[Tree]) -> bool
    ensures { result
        ≡ ((model.are_texts (trees.elements_view elements.now)
        && model.are_types (model.texts_among (trees.elements_view elements.now)))
        && model.are_distinct (model.texts_among (trees.elements_view elements.now))) }
{
    are_types(elements) && are_distinct(elements)
}

// Whether each element is the name of a type.
fn are_types(elements: &[Tree]) -> bool
    ensures { result
        ≡ (model.are_texts (trees.elements_view elements.now)
        && model.are_types (model.texts_among (trees.elements_view elements.now))) }
{
    for element in elements {
        match text_in(element) {
            None => return false,
            Some(name) => {
                if !is_among(name, &TYPES) {
                    return false;
                }
            }
        }
    }
    true
}

// Whether no text stands twice among the elements.
fn are_distinct(elements: &[Tree]) -> bool
    ensures { result ≡ model.are_distinct (model.texts_among (trees.elements_view elements.now)) }
{
    for index in 0..elements.len() {
        if let Some(name) = text_in(&elements[index]) {
            if says(&elements[index + 1..], name) {
                return false;
            }
        }
    }
    true
}

/// Whether that text is among the elements.
pub fn says(elements: &[Tree], name: &str) -> bool
    ensures { result ≡ model.is_among name.now
        (model.texts_among (trees.elements_view elements.now)) }
{
    for element in elements {
        if let Some(text) = text_in(element) {
            if text == name {
                return true;
            }
        }
    }
    false
}

// The text that a tree is.
fn text_in(tree: &Tree) -> Option<&str>
    ensures { TextIn (trees.view tree.now) result }
{
    match tree {
        Tree::Text(text) => Some(text),
        Tree::Null | Tree::Bool(_) | Tree::Int(_) | Tree::List(_) | Tree::Object(_) => { None }
    }
}

// The level of these types.
fn typed_level<'v>(
    alloc: Global,
    keywords: &'v BTreeMap<String, Tree>,
    names: &[Tree],
) -> Result<Level<'v>, ShapeRefusal>
    ensures level { IfOk result
        (λ level. level_view level ≡ levels.kinds_level
        (model.texts_among (trees.elements_view names.now)) (entries_view keywords.now.entries)) }
    ensures right { IfOk result
        (λ _. model.keyword_faults (model.texts_among (trees.elements_view names.now))
        (entries_view keywords.now.entries)
        (levels.array_level_faults (entries_view keywords.now.entries))
        (levels.object_level_faults (entries_view keywords.now.entries)) ≡ []) }
    ensures refused { IfErr result
        (λ e. Tells e (model.keyword_faults (model.texts_among (trees.elements_view names.now))
        (entries_view keywords.now.entries)
        (levels.array_level_faults (entries_view keywords.now.entries))
        (levels.object_level_faults (entries_view keywords.now.entries)))) }
{
    let array = says(names, "array");
    let object = says(names, "object");
    if !all_among(keywords, known_keywords(array, object)) {
        return Err(ShapeRefusal::Keyword);
    }
    Ok(Level::Kinds {
        null: says(names, "null"),
        boolean: says(names, "boolean"),
        integer: says(names, "integer"),
        text: says(names, "string"),
        list: list_level_if(array, keywords)?,
        object: object_level_if(alloc, object, keywords)?,
    })
}

/// The keywords that are read past, of any kind.
pub fn annotations() -> &'static [&'static str]
    ensures { map (λ k. k.now) result.now ≡ model.annotations }
{
    &ANNOTATIONS
}

/// The keywords that belong to the types, where these are said to have `array` and `object` among them.
pub fn known_keywords(array: bool, object: bool) -> &'static [&'static str]
    ensures { map (λ k. k.now) result.now ≡ keywords_for array object }
{
    if array {
        if object {
            &LIST_AND_OBJECT_KEYWORDS
        } else {
            &ARRAY_KEYWORDS
        }
    } else if object {
        &OBJECT_KEYWORDS
    } else {
        &SIMPLE_KEYWORDS
    }
}

// The level of an array's keywords, where it is wanted.
fn list_level_if(
    wanted: bool,
    keywords: &BTreeMap<String, Tree>,
) -> Result<Option<ListLevel<'_>>, ShapeRefusal>
    ensures level { IfOk result
        (λ l. option_map list_view l
        ≡ levels.only_if wanted (levels.array_level (entries_view keywords.now.entries))) }
    ensures right { IfOk result
        (λ _. faults_when wanted (levels.array_level_faults (entries_view keywords.now.entries))
        ≡ []) }
    ensures refused { IfErr result
        (λ e. Tells e (faults_when wanted
        (levels.array_level_faults (entries_view keywords.now.entries)))) }
{
    if wanted {
        Ok(Some(list_level(keywords)?))
    } else {
        Ok(None)
    }
}

// The level of an object's keywords, where it is wanted.
fn object_level_if(
    alloc: Global,
    wanted: bool,
    keywords: &BTreeMap<String, Tree>,
) -> Result<Option<ObjectLevel<'_>>, ShapeRefusal>
    ensures level { IfOk result
        (λ l. option_map object_view l
        ≡ levels.only_if wanted (levels.object_level (entries_view keywords.now.entries))) }
    ensures right { IfOk result
        (λ _. faults_when wanted (levels.object_level_faults (entries_view keywords.now.entries))
        ≡ []) }
    ensures refused { IfErr result
        (λ e. Tells e (faults_when wanted
        (levels.object_level_faults (entries_view keywords.now.entries)))) }
{
    if wanted {
        Ok(Some(object_level(alloc, keywords)?))
    } else {
        Ok(None)
    }
}

/// What stands under that name.
#[tactic(auto, using(crate::proofs::Lookups::member_named_lookup))]
pub fn member<'v>(keywords: &'v BTreeMap<String, Tree>, name: &str) -> Option<&'v Tree>
    ensures { tree_there result ≡ member_named name.now keywords.now.entries }
{
    keywords.get(name)
}

// Whether each of the keywords is one of those.
fn all_among(keywords: &BTreeMap<String, Tree>, known: &[&str]) -> bool
    ensures known { IsTrue result
        → (fault : model.ShapeFault)
        → model.foreign_faults
        fault
        (map (λ k. k.now) known.now)
        (entries_view keywords.now.entries)
        ≡ [] }
    ensures foreign { IsTrue (not result)
        → (fault : model.ShapeFault)
        → Contains
        (model.foreign_faults
        fault
        (map (λ k. k.now) known.now)
        (entries_view keywords.now.entries))
        fault }
{
    for (keyword, _) in keywords.iter() {
        if !is_among(keyword, known) {
            return false;
        }
    }
    true
}

/// Whether the keyword is one of those.
pub fn is_among(keyword: &str, known: &[&str]) -> bool
    ensures { result ≡ model.is_among keyword.now (map (λ k. k.now) known.now) }
{
    for one in known {
        if *one == keyword {
            return true;
        }
    }
    false
}

// The level of an array's keywords.
#[tactic(auto, using(crate::proofs::Telling::told_left, crate::proofs::Telling::told_right))]
fn list_level(keywords: &BTreeMap<String, Tree>) -> Result<ListLevel<'_>, ShapeRefusal>
    ensures level { IfOk result
        (λ l. list_view l ≡ levels.array_level (entries_view keywords.now.entries)) }
    ensures right { IfOk result
        (λ _. levels.array_level_faults (entries_view keywords.now.entries) ≡ []) }
    ensures refused { IfErr result
        (λ e. Tells e (levels.array_level_faults (entries_view keywords.now.entries))) }
{
    let first = prefix_items(keywords)?;
    check_min_items(keywords, first.len())?;
    Ok(ListLevel {
        first,
        rest: member(keywords, "items"),
    })
}

/// What stands in `prefixItems`, a list; nothing where it is absent.
pub fn prefix_items(keywords: &BTreeMap<String, Tree>) -> Result<&[Tree], ShapeRefusal>
    ensures right { IfOk result
        (λ _. list_faults (member_named (codes "prefixItems") keywords.now.entries) ≡ []) }
    ensures elements { IfOk result
        (λ es. trees.elements_view es.now ≡ elements_in
        (member_named (codes "prefixItems") keywords.now.entries)) }
    ensures refused { IfErr result
        (λ e. Tells e (list_faults (member_named (codes "prefixItems") keywords.now.entries))) }
{
    match member(keywords, "prefixItems") {
        None => Ok(&[]),
        Some(tree) => elements(tree),
    }
}

fn elements(tree: &Tree) -> Result<&[Tree], ShapeRefusal>
    ensures right { IfOk result (λ _. list_faults (Some (trees.view tree.now)) ≡ []) }
    ensures elements { IfOk result
        (λ es. trees.elements_view es.now ≡ elements_in (Some (trees.view tree.now))) }
    ensures refused { IfErr result (λ e. Tells e (list_faults (Some (trees.view tree.now)))) }
{
    match tree {
        Tree::List(elements) => Ok(elements),
        Tree::Null | Tree::Bool(_) | Tree::Int(_) | Tree::Text(_) | Tree::Object(_) => {
            Err(ShapeRefusal::NotAShape)
        }
    }
}

/// Refuses a `minItems` other than the number of the shapes in `prefixItems`.
pub fn check_min_items(keywords: &BTreeMap<String, Tree>, count: usize) -> Result<(), ShapeRefusal>
    ensures right { IfOk result
        (λ _. model.min_items_faults
        (member_named (codes "minItems") keywords.now.entries) count ≡ []) }
    ensures refused { IfErr result
        (λ e. Tells e (model.min_items_faults
        (member_named (codes "minItems") keywords.now.entries) count)) }
{
    match member(keywords, "minItems") {
        None => check_count(0, count),
        Some(tree) => check_stated(tree, count),
    }
}

fn check_stated(tree: &Tree, count: usize) -> Result<(), ShapeRefusal>
    ensures right { IfOk result
        (λ _. model.min_items_faults (Some (trees.view tree.now)) count ≡ []) }
    ensures refused { IfErr result
        (λ e. Tells e (model.min_items_faults (Some (trees.view tree.now)) count)) }
{
    match tree {
        Tree::Int(stated) => check_count(*stated, count),
        Tree::Null | Tree::Bool(_) | Tree::Text(_) | Tree::List(_) | Tree::Object(_) => {
            Err(ShapeRefusal::NotAShape)
        }
    }
}

fn check_count(stated: i64, count: usize) -> Result<(), ShapeRefusal>
    ensures right { IfOk result (λ _. int_eq stated (pos count) ≡ true) }
    ensures refused { IfErr result
        (λ e. e ≡ ShapeRefusal.MinItems × (int_eq stated (pos count) ≡ false)) }
{
    if stated >= 0 && stated as u128 == count as u128 {
        Ok(())
    } else {
        Err(ShapeRefusal::MinItems)
    }
}

// The level of an object's keywords.
#[tactic(auto, using(crate::proofs::Telling::told_left, crate::proofs::Telling::told_right))]
fn object_level(
    alloc: Global,
    keywords: &BTreeMap<String, Tree>,
) -> Result<ObjectLevel<'_>, ShapeRefusal>
    ensures level { IfOk result
        (λ l. object_view l ≡ levels.object_level (entries_view keywords.now.entries)) }
    ensures right { IfOk result
        (λ _. levels.object_level_faults (entries_view keywords.now.entries) ≡ []) }
    ensures refused { IfErr result
        (λ e. Tells e (levels.object_level_faults (entries_view keywords.now.entries))) }
{
    let properties = read_properties(keywords)?;
    let extra = read_additional(keywords)?;
    let required = read_required(alloc, keywords)?;
    Ok(ObjectLevel {
        properties,
        required,
        extra,
    })
}

/// What stands in `properties`, an object.
pub fn read_properties(
    keywords: &BTreeMap<String, Tree>,
) -> Result<Option<&BTreeMap<String, Tree>>, ShapeRefusal>
    ensures right { IfOk result
        (λ _. object_faults (member_named (codes "properties") keywords.now.entries) ≡ []) }
    ensures fields { IfOk result
        (λ m. fields_there m ≡ fields_in
        (member_named (codes "properties") keywords.now.entries)) }
    ensures refused { IfErr result
        (λ e. Tells e (object_faults (member_named (codes "properties") keywords.now.entries))) }
{
    match member(keywords, "properties") {
        None => Ok(None),
        Some(tree) => Ok(Some(members(tree)?)),
    }
}

fn members(tree: &Tree) -> Result<&BTreeMap<String, Tree>, ShapeRefusal>
    ensures right { IfOk result (λ _. object_faults (Some (trees.view tree.now)) ≡ []) }
    ensures fields { IfOk result
        (λ m. entries_view m.now.entries ≡ fields_in (Some (trees.view tree.now))) }
    ensures refused { IfErr result (λ e. Tells e (object_faults (Some (trees.view tree.now)))) }
{
    match tree {
        Tree::Object(members) => Ok(members),
        Tree::Null | Tree::Bool(_) | Tree::Int(_) | Tree::Text(_) | Tree::List(_) => {
            Err(ShapeRefusal::NotAShape)
        }
    }
}

/// Whether other fields may be there, as `additionalProperties` says.
pub fn read_additional(keywords: &BTreeMap<String, Tree>) -> Result<bool, ShapeRefusal>
    ensures right { IfOk result
        (λ _. model.extra_faults
        (member_named (codes "additionalProperties") keywords.now.entries) ≡ []) }
    ensures extra { IfOk result
        (λ extra. extra ≡ model.extra_in
        (member_named (codes "additionalProperties") keywords.now.entries)) }
    ensures refused { IfErr result
        (λ e. Tells e (model.extra_faults
        (member_named (codes "additionalProperties") keywords.now.entries))) }
{
    match member(keywords, "additionalProperties") {
        None => Ok(true),
        Some(tree) => truth_value(tree),
    }
}

fn truth_value(tree: &Tree) -> Result<bool, ShapeRefusal>
    ensures right { IfOk result (λ _. model.extra_faults (Some (trees.view tree.now)) ≡ []) }
    ensures extra { IfOk result (λ extra. extra ≡ model.extra_in (Some (trees.view tree.now))) }
    ensures refused { IfErr result
        (λ e. Tells e (model.extra_faults (Some (trees.view tree.now)))) }
{
    match tree {
        Tree::Bool(extra) => Ok(*extra),
        Tree::Null | Tree::Int(_) | Tree::Text(_) | Tree::List(_) | Tree::Object(_) => {
            Err(ShapeRefusal::NotAShape)
        }
    }
}

/// The names in `required`, in their order, no two alike.
pub fn read_required(
    alloc: Global,
    keywords: &BTreeMap<String, Tree>,
) -> Result<Vec<&String>, ShapeRefusal>
    ensures right { IfOk result
        (λ _. model.required_faults (member_named (codes "required") keywords.now.entries) ≡ []) }
    ensures names { IfOk result
        (λ names. texts names.items ≡ model.required_in
        (member_named (codes "required") keywords.now.entries)) }
    ensures refused { IfErr result
        (λ e. Tells e (model.required_faults
        (member_named (codes "required") keywords.now.entries))) }
{
    match member(keywords, "required") {
        None => Ok(Vec::new(alloc)),
        Some(tree) => listed_names(alloc, tree),
    }
}

fn listed_names(alloc: Global, tree: &Tree) -> Result<Vec<&String>, ShapeRefusal>
    ensures right { IfOk result (λ _. model.required_faults (Some (trees.view tree.now)) ≡ []) }
    ensures names { IfOk result
        (λ names. texts names.items ≡ model.required_in (Some (trees.view tree.now))) }
    ensures refused { IfErr result
        (λ e. Tells e (model.required_faults (Some (trees.view tree.now)))) }
{
    match tree {
        Tree::List(elements) => distinct_names(alloc, elements),
        Tree::Null | Tree::Bool(_) | Tree::Int(_) | Tree::Text(_) | Tree::Object(_) => {
            Err(ShapeRefusal::NotAShape)
        }
    }
}

fn distinct_names(alloc: Global, elements: &[Tree]) -> Result<Vec<&String>, ShapeRefusal>
    ensures right { IfOk result
        (λ _. (model.are_texts (trees.elements_view elements.now)
        && model.are_distinct (model.texts_among (trees.elements_view elements.now))) ≡ true) }
    ensures names { IfOk result
        (λ names. texts names.items ≡ model.texts_among (trees.elements_view elements.now)) }
    ensures refused { IfErr result
        (λ e. Tells e (model.unless
        (model.are_texts (trees.elements_view elements.now) && model.are_distinct
        (model.texts_among (trees.elements_view elements.now))) model.NotAShape)) }
{
    let mut names = Vec::with_capacity(alloc, elements.len())?;
    let mut seen = BTreeSet::new(alloc);
    for element in elements {
        let name = name_in(element)?;
        if !seen.insert(name.as_str())? {
            return Err(ShapeRefusal::NotAShape);
        }
        names.push(name)?;
    }
    Ok(names)
}

// The name that an element of `required` says.
fn name_in(element: &Tree) -> Result<&String, ShapeRefusal>
    ensures named { IfOk result
        (λ name. trees.view element.now ≡ json.Text (string_bytes name.now)) }
    ensures refused { IfErr result
        (λ e. Tells e (model.unless
        (model.is_text_value (trees.view element.now)) model.NotAShape)) }
{
    match element {
        Tree::Text(name) => Ok(name),
        Tree::Null | Tree::Bool(_) | Tree::Int(_) | Tree::List(_) | Tree::Object(_) => {
            Err(ShapeRefusal::NotAShape)
        }
    }
}
