//! All that is wrong with the spelling of a shape.
ghost use Rattle.std.specs.Prelude.{◌≡◌, ◌++◌, [], IfErr, IfOk, List, OnOk, Some, codes, map, true};
ghost use Rattle.asl_model.specs.ShapeSpelling as model;
ghost use Rattle.asl_model.specs.Tree.{Object};
ghost use Rattle.asl_shape.specs.Refusal.{Tells, fault_named};
ghost use Rattle.asl_shape.specs.Spelled.{elements_view, entries_view, tree_there, view};
ghost use Rattle.asl_shape.specs.Types.{faults_when, keywords_for};
ghost use Rattle.asl_complaints.specs.Told.{IsSingle, IsTold, TellsFaults};
ghost use Rattle.asl_complaints.specs.Parts.{array_faults, first_faults, foreign_of, object_faults, property_faults, rest_faults};

use asl_shape::ShapeRefusal;
use asl_shape::levels::{
    annotations, check_min_items, is_among, known_keywords, member, read_additional, read_required,
    says, type_names,
};
use asl_tree::{OutOfMemory, Tree};
use std::alloc::Global;
use std::collections::BTreeMap;

/// All that is wrong with a tree as the spelling of a shape, a fault for each rule that is broken, at whatever depth: of an
/// object first its keywords that there aren't, then what is wrong with those for arrays and with those for objects. What
/// stands in an object whose `type` is wrong isn't looked at. Refuses only where an allocation was refused.
pub fn shape_faults(alloc: Global, tree: &Tree) -> Result<Vec<ShapeRefusal>, OutOfMemory>
    ensures { IfOk result (λ told. map fault_named told.items
        ≡ map Some (model.shape_faults true (view tree.now))) }
{
    let mut told = Vec::new(alloc);
    tell_spelling(alloc, tree, &mut told)?;
    Ok(told)
}

/// Tells what is wrong with a spelling.
#[cycle(tell)]
fn tell_spelling(
    alloc: Global,
    tree: &Tree,
    told: &mut Vec<ShapeRefusal>,
) -> Result<(), OutOfMemory>
    ensures { OnOk result (TellsFaults told.old.items told.new.items
        (model.shape_faults true (view tree.now))) }
{
    match tree {
        Tree::Bool(_) => Ok(()),
        Tree::Object(keywords) => tell_object(alloc, keywords, told),
        Tree::Null | Tree::Int(_) | Tree::Text(_) | Tree::List(_) => {
            tell(ShapeRefusal::NotAShape, told)
        }
    }
}

/// Tells what is wrong with an object of keywords.
#[cycle(tell)]
fn tell_object(
    alloc: Global,
    keywords: &BTreeMap<String, Tree>,
    told: &mut Vec<ShapeRefusal>,
) -> Result<(), OutOfMemory>
    ensures { OnOk result (TellsFaults told.old.items told.new.items
        (model.shape_faults true (Object (entries_view keywords.now.entries)))) }
{
    let Some(types) = member(keywords, "type") else {
        return tell_foreign(keywords, annotations(), false, told);
    };
    match type_names(types, true) {
        Ok(names) => {
            let array = says(names, "array");
            let object = says(names, "object");
            tell_keywords(alloc, keywords, array, object, told)
        }
        Err(refusal) => tell(refusal, told),
    }
}

/// Tells what is wrong with keywords beside a right `type`, which says whether arrays are meant, and objects.
#[cycle(tell)]
fn tell_keywords(
    alloc: Global,
    keywords: &BTreeMap<String, Tree>,
    array: bool,
    object: bool,
    told: &mut Vec<ShapeRefusal>,
) -> Result<(), OutOfMemory>
    ensures { OnOk result (TellsFaults told.old.items told.new.items
        (foreign_of true (keywords_for array object) (entries_view keywords.now.entries)
        ++ (faults_when array (array_faults (entries_view keywords.now.entries))
        ++ faults_when object (object_faults (entries_view keywords.now.entries))))) }
{
    tell_foreign(keywords, known_keywords(array, object), true, told)?;
    if array {
        tell_for_arrays(alloc, keywords, told)?;
    }
    if object {
        tell_for_objects(alloc, keywords, told)?;
    }
    Ok(())
}

/// Tells each keyword that isn't one of those known, beside a type or beside none.
fn tell_foreign(
    keywords: &BTreeMap<String, Tree>,
    known: &[&str],
    typed: bool,
    told: &mut Vec<ShapeRefusal>,
) -> Result<(), OutOfMemory>
    ensures { OnOk result (TellsFaults told.old.items told.new.items
        (foreign_of typed (map (λ k. k.now) known.now) (entries_view keywords.now.entries))) }
{
    for (keyword, _) in keywords.iter() {
        if !is_among(keyword, known) {
            let fault = match typed {
                true => ShapeRefusal::Keyword,
                false => ShapeRefusal::BadType,
            };
            tell(fault, told)?;
        }
    }
    Ok(())
}

/// Tells what is wrong with the keywords for arrays.
#[cycle(tell)]
fn tell_for_arrays(
    alloc: Global,
    keywords: &BTreeMap<String, Tree>,
    told: &mut Vec<ShapeRefusal>,
) -> Result<(), OutOfMemory>
    ensures { OnOk result (TellsFaults told.old.items told.new.items
        (array_faults (entries_view keywords.now.entries))) }
{
    let first = member(keywords, "prefixItems");
    tell_first(alloc, first, told)?;
    tell_rest(alloc, member(keywords, "items"), told)?;
    tell_refused(check_min_items(keywords, count_of(first)), told)
}

/// Tells what is wrong with `prefixItems`.
#[cycle(tell)]
fn tell_first(
    alloc: Global,
    first: Option<&Tree>,
    told: &mut Vec<ShapeRefusal>,
) -> Result<(), OutOfMemory>
    ensures { OnOk result (TellsFaults told.old.items told.new.items
        (first_faults (tree_there first.entry))) }
{
    match first {
        None => Ok(()),
        Some(Tree::List(spellings)) => tell_elements(alloc, spellings, told),
        Some(_) => tell(ShapeRefusal::NotAShape, told),
    }
}

/// Tells what is wrong with each of the spellings.
#[cycle(tell)]
fn tell_elements(
    alloc: Global,
    spellings: &[Tree],
    told: &mut Vec<ShapeRefusal>,
) -> Result<(), OutOfMemory>
    ensures { OnOk result (TellsFaults told.old.items told.new.items
        (model.element_faults true (elements_view spellings.now))) }
{
    for spelling in spellings {
        tell_spelling(alloc, spelling, told)?;
    }
    Ok(())
}

/// Tells what is wrong with `items`.
#[cycle(tell)]
fn tell_rest(
    alloc: Global,
    rest: Option<&Tree>,
    told: &mut Vec<ShapeRefusal>,
) -> Result<(), OutOfMemory>
    ensures { OnOk result (TellsFaults told.old.items told.new.items
        (rest_faults (tree_there rest.entry))) }
{
    match rest {
        None => Ok(()),
        Some(spelling) => tell_spelling(alloc, spelling, told),
    }
}

/// How many elements a value has, where it is a list.
fn count_of(list: Option<&Tree>) -> usize
    ensures { result ≡ model.element_count (tree_there list.entry) }
{
    let Some(tree) = list else {
        return 0;
    };
    match tree {
        Tree::List(elements) => elements.len(),
        _ => 0,
    }
}

/// Tells what is wrong with the keywords for objects.
#[cycle(tell)]
fn tell_for_objects(
    alloc: Global,
    keywords: &BTreeMap<String, Tree>,
    told: &mut Vec<ShapeRefusal>,
) -> Result<(), OutOfMemory>
    ensures { OnOk result (TellsFaults told.old.items told.new.items
        (object_faults (entries_view keywords.now.entries))) }
{
    tell_properties(alloc, member(keywords, "properties"), told)?;
    tell_refused(read_required(alloc, keywords), told)?;
    tell_refused(read_additional(keywords), told)
}

/// Tells what is wrong with `properties`.
#[cycle(tell)]
fn tell_properties(
    alloc: Global,
    properties: Option<&Tree>,
    told: &mut Vec<ShapeRefusal>,
) -> Result<(), OutOfMemory>
    ensures { OnOk result (TellsFaults told.old.items told.new.items
        (property_faults (tree_there properties.entry))) }
{
    match properties {
        None => Ok(()),
        Some(Tree::Object(spellings)) => tell_members(alloc, spellings, told),
        Some(_) => tell(ShapeRefusal::NotAShape, told),
    }
}

/// Tells what is wrong with the spelling of each field.
#[cycle(tell)]
fn tell_members(
    alloc: Global,
    spellings: &BTreeMap<String, Tree>,
    told: &mut Vec<ShapeRefusal>,
) -> Result<(), OutOfMemory>
    ensures { OnOk result (TellsFaults told.old.items told.new.items
        (model.field_faults true (entries_view spellings.now.entries))) }
{
    for (_, spelling) in spellings.iter() {
        tell_spelling(alloc, spelling, told)?;
    }
    Ok(())
}

/// Tells what a check refuses, of which there is one thing at most.
fn tell_refused<T: Drop>(
    checked: Result<T, ShapeRefusal>,
    told: &mut Vec<ShapeRefusal>,
) -> Result<(), OutOfMemory>
    ensures { OnOk result ((faults : List model.ShapeFault)
        → IfOk checked (λ _. faults ≡ []) → IfErr checked (λ e. Tells e faults)
        → IsSingle faults → TellsFaults told.old.items told.new.items faults) }
{
    match checked {
        Ok(value) => {
            drop(value);
            Ok(())
        }
        Err(refusal) => tell(refusal, told),
    }
}

/// Tells a fault. Want of memory is none of a shape, so it is refused.
fn tell(fault: ShapeRefusal, told: &mut Vec<ShapeRefusal>) -> Result<(), OutOfMemory>
    ensures { OnOk result (IsTold told.old.items told.new.items (fault_named fault)) }
{
    if let ShapeRefusal::OutOfMemory = fault {
        return Err(OutOfMemory);
    }
    told.push(fault)?;
    Ok(())
}
