//! What is wrong with a choice rule that is refused, and where.
use crate::found::Found;
use crate::index::Index;
use crate::placed::{Placed, object_of, tree_at};
use crate::unread::isnt_path_at;
use asl_choice::{RuleRefusal, from_tree};
use asl_places::Spot;
use asl_tree::{OutOfMemory, Tree, copy};
use std::alloc::Global;
use std::collections::BTreeMap;

/// What is wrong with the rule of a Choice at a spot of a text, where it is refused: with itself, or else with one in it, at
/// the least depth. Refuses only where an allocation was refused.
pub fn fault_of_rule(
    alloc: Global,
    index: &Index<'_, '_>,
    text: &[u8],
    spot: Spot,
) -> Result<Option<Found>, OutOfMemory> {
    let Some(tree) = tree_at(alloc, index, text, spot)? else {
        return Ok(None);
    };
    let rule = Placed { spot, tree: &tree };
    if refusal_of(alloc, &tree)?.is_none() {
        return Ok(None);
    }
    if let Some(refusal) = refusal_of(alloc, &outline_of(alloc, &tree)?)? {
        return Ok(Some(fault_at_top(alloc, index, rule, refusal)?));
    }
    Ok(Some(fault_inside(alloc, index, text.len(), rule)?))
}

/// What is wrong with a rule that is refused so by itself.
fn fault_at_top(
    alloc: Global,
    index: &Index<'_, '_>,
    rule: Placed<'_>,
    refusal: RuleRefusal,
) -> Result<Found, OutOfMemory> {
    if rule.fields().is_some() && rule.member(index, "Next").is_none() {
        let sentence = "The field `Next` is required, and it is absent";
        return Ok(Found::said(rule.spot, String::from_str(alloc, sentence)?));
    }
    fault_at(alloc, index, rule, refusal)
}

/// What is wrong with a rule inside of a rule, of which so many bytes are written at most.
fn fault_inside(
    alloc: Global,
    index: &Index<'_, '_>,
    bytes: usize,
    rule: Placed<'_>,
) -> Result<Found, OutOfMemory> {
    let mut rules = Vec::new(alloc);
    push_rules_in(index, rule, &mut rules)?;
    // Each rule has a byte at least.
    for at in 0..bytes {
        let Some(inner) = rules.get(at).copied() else {
            break;
        };
        if let Some(refusal) = refusal_inside(alloc, outline_of(alloc, inner.tree)?)? {
            return fault_within(alloc, index, inner, refusal);
        }
        push_rules_in(index, inner, &mut rules)?;
    }
    Ok(Found::at(rule.spot))
}

/// What is wrong with a rule within a rule by itself, which is refused so.
fn fault_within(
    alloc: Global,
    index: &Index<'_, '_>,
    rule: Placed<'_>,
    refusal: RuleRefusal,
) -> Result<Found, OutOfMemory> {
    match rule.member(index, "Comment") {
        Some(comment) => Found::told(alloc, comment.spot, "A rule within a rule has no `Comment`"),
        None => fault_at(alloc, index, rule, refusal),
    }
}

/// Why a tree is no rule of a Choice, where it is none.
fn refusal_of(alloc: Global, tree: &Tree) -> Result<Option<RuleRefusal>, OutOfMemory> {
    match from_tree(alloc, tree) {
        Ok(_) => Ok(None),
        Err(RuleRefusal::OutOfMemory) => Err(OutOfMemory),
        Err(refusal) => Ok(Some(refusal)),
    }
}

/// Why a tree is no rule within a rule, where it is none.
fn refusal_inside(alloc: Global, rule: Tree) -> Result<Option<RuleRefusal>, OutOfMemory> {
    let mut fields = Vec::new(alloc);
    fields.push(("Next", Tree::Text(String::from_str(alloc, "Next")?)))?;
    fields.push(("Not", rule))?;
    refusal_of(alloc, &object_of(alloc, fields)?)
}

/// The rule with a sound one in place of each rule in it.
fn outline_of(alloc: Global, rule: &Tree) -> Result<Tree, OutOfMemory> {
    let Tree::Object(fields) = rule else {
        return copy(alloc, rule);
    };
    let mut outline = BTreeMap::new(alloc);
    for (name, value) in fields.iter() {
        let key = name.clone()?;
        drop(outline.insert(key, outline_of_field(alloc, name, value)?)?);
    }
    Ok(Tree::Object(outline))
}

/// The value of a rule's field with a sound rule in place of each rule in it.
fn outline_of_field(alloc: Global, name: &str, value: &Tree) -> Result<Tree, OutOfMemory> {
    match name {
        "Not" => test_of(alloc, "IsNull", Tree::Bool(true)),
        "And" | "Or" => outline_of_list(alloc, value),
        _ => copy(alloc, value),
    }
}

/// The list with a sound rule in place of each element.
fn outline_of_list(alloc: Global, value: &Tree) -> Result<Tree, OutOfMemory> {
    let Tree::List(rules) = value else {
        return copy(alloc, value);
    };
    let mut outline = Vec::new(alloc);
    for _rule in rules {
        outline.push(test_of(alloc, "IsNull", Tree::Bool(true))?)?;
    }
    Ok(Tree::List(outline))
}

/// A rule within a rule, by which an operator tests the whole input.
fn test_of(alloc: Global, operator: &str, value: Tree) -> Result<Tree, OutOfMemory> {
    let mut fields = Vec::new(alloc);
    fields.push(("Variable", Tree::Text(String::from_str(alloc, "$")?)))?;
    fields.push((operator, value))?;
    object_of(alloc, fields)
}

/// Puts the rules in a rule behind the others.
fn push_rules_in<'t>(
    index: &Index<'_, '_>,
    rule: Placed<'t>,
    rules: &mut Vec<Placed<'t>>,
) -> Result<(), OutOfMemory> {
    for name in ["And", "Or"] {
        if let Some(parts) = rule.member(index, name) {
            parts.push_elements(index, rules)?;
        }
    }
    if let Some(negated) = rule.member(index, "Not") {
        rules.push(negated)?;
    }
    Ok(())
}

/// What is wrong with a rule by itself, which is refused so.
fn fault_at(
    alloc: Global,
    index: &Index<'_, '_>,
    rule: Placed<'_>,
    refusal: RuleRefusal,
) -> Result<Found, OutOfMemory> {
    let Some(fields) = rule.fields() else {
        return Ok(Found::at(rule.spot));
    };
    for (name, value) in fields.iter() {
        if let Some(said) = fault_of_field(alloc, name, value, refusal)? {
            return Ok(found_in(index, rule, name, said));
        }
    }
    match refusal {
        RuleRefusal::NotARule | RuleRefusal::UnknownOperator => {
            let sentence =
                "A choice rule has `Variable` and one operator, or one of `And`, `Or` and `Not` alone";
            Ok(Found::said(rule.spot, String::from_str(alloc, sentence)?))
        }
        _ => Ok(Found::at(rule.spot)),
    }
}

/// What is said of a field of a rule, at its name or at its value.
#[derive(Drop)]
enum Told {
    Name(&'static str),
    Text(&'static str),
    Value(String),
}

/// Where a field of a rule stands, with what is said of it.
fn found_in(index: &Index<'_, '_>, rule: Placed<'_>, name: &str, told: Told) -> Found {
    match (index.member(rule.spot, name), told) {
        (Some(member), Told::Name(isnt)) => Found::of_text(member.name, isnt),
        (Some(member), Told::Text(isnt)) => Found::of_text(member.value, isnt),
        (Some(member), Told::Value(sentence)) => Found::said(member.value, sentence),
        (None, _) => Found::at(rule.spot),
    }
}

/// What is wrong with a field of a rule that is refused so, if it is the one.
fn fault_of_field(
    alloc: Global,
    name: &str,
    value: &Tree,
    refusal: RuleRefusal,
) -> Result<Option<Told>, OutOfMemory> {
    match (name, value) {
        ("Next", _) if is_inside(refusal) => {
            let sentence = "A rule within a rule has no `Next`";
            Ok(Some(Told::Value(String::from_str(alloc, sentence)?)))
        }
        ("And" | "Or", Tree::List(rules)) if rules.is_empty() => {
            Ok(Some(Told::Value(format!(in alloc; "The list of `{name}` is empty")?)))
        }
        ("Variable", Tree::Text(_)) => fault_of_variable(alloc, value),
        ("Next" | "Comment", Tree::Text(_)) | ("And" | "Or", Tree::List(_)) | ("Not", _) => Ok(
            None,
        ),
        ("Next" | "Comment", _) => wanted(alloc, name, "a text"),
        ("And" | "Or", _) => wanted(alloc, name, "a list of rules"),
        ("Variable", _) => wanted(alloc, name, "a reference path"),
        _ => fault_of_operator(alloc, name, value),
    }
}

/// Whether a rule is refused for a `Next` below the top.
fn is_inside(refusal: RuleRefusal) -> bool {
    matches!(refusal, RuleRefusal::NextInside)
}

/// That the value of a field is of another kind than is wanted.
fn wanted(alloc: Global, name: &str, words: &str) -> Result<Option<Told>, OutOfMemory> {
    Ok(Some(Told::Value(format!(in alloc; "The value of `{name}` has to be {words}")?)))
}

/// What is wrong with the path of a rule, if anything is.
fn fault_of_variable(alloc: Global, path: &Tree) -> Result<Option<Told>, OutOfMemory> {
    let mut fields = Vec::new(alloc);
    fields.push(("Variable", copy(alloc, path)?))?;
    fields.push(("IsNull", Tree::Bool(true)))?;
    let refusal = refusal_inside(alloc, object_of(alloc, fields)?)?;
    match refusal {
        Some(_) => Ok(Some(Told::Text(isnt_path_at(alloc, path)?))),
        None => Ok(None),
    }
}

/// What is wrong with an operator or with its value, if anything is.
fn fault_of_operator(alloc: Global, name: &str, value: &Tree) -> Result<Option<Told>, OutOfMemory> {
    let Some(refusal) = refusal_inside(alloc, test_of(alloc, name, copy(alloc, value)?)?)? else {
        return Ok(None);
    };
    Ok(match refusal {
        RuleRefusal::UnknownOperator => Some(Told::Name("is no operator of rules that is read")),
        RuleRefusal::BadPath => Some(Told::Text(isnt_path_at(alloc, value)?)),
        RuleRefusal::BadPattern => Some(Told::Text(
            "has a backslash that stands before neither a star nor a backslash",
        )),
        RuleRefusal::BadOperand => Some(Told::Value(format!(in alloc;
            "The value of `{name}` is of another kind than the operator wants"
        )?)),
        _ => None,
    })
}
