//! The texts of rules that a test by `IsPresent` in front of them makes sure of.
use crate::sources::{text_at, text_from};
use asl_places::{Outline, Spot};
use asl_tree::OutOfMemory;
use std::alloc::Global;
use std::collections::BTreeSet;

/// Among the values the texts of `Variable` behind a test by `"IsPresent": true` of the same text in the same `And`, by the
/// tokens with which they begin.
pub(crate) fn sure_texts(
    alloc: Global,
    outline: &Outline<'_>,
    text: &[u8],
    values: &[Spot],
) -> Result<BTreeSet<usize>, OutOfMemory> {
    let mut sure = BTreeSet::new(alloc);
    for value in values {
        if let Some(rules) = outline.member(*value, "And") {
            add_sure(alloc, outline, text, rules.value, &mut sure)?;
        }
    }
    Ok(sure)
}

/// Adds those in the list of an `And`.
fn add_sure(
    alloc: Global,
    outline: &Outline<'_>,
    text: &[u8],
    and: Spot,
    sure: &mut BTreeSet<usize>,
) -> Result<(), OutOfMemory> {
    let Some(mut rules) = outline.items(and) else {
        return Ok(());
    };
    let mut present = BTreeSet::new(alloc);
    while let Some(rule) = rules.next() {
        if let Some(variable) = outline.member(rule, "Variable") {
            let spot = variable.value;
            if let Some(said) = text_at(alloc, text_from(text, outline.offset(spot)))? {
                if present.contains(said.as_str()) {
                    sure.insert(spot.token)?;
                }
                if tests_presence(outline, text, rule) {
                    present.insert(said)?;
                }
            }
        }
    }
    Ok(())
}

/// Whether the rule is true of what is there alone.
fn tests_presence(outline: &Outline<'_>, text: &[u8], rule: Spot) -> bool {
    match outline.member(rule, "IsPresent") {
        Some(test) => text_from(text, outline.offset(test.value)).starts_with(b"true"),
        None => false,
    }
}
