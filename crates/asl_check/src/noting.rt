//! Noting broken rules: of each name that has one, the first, with the tree that shows it.

ghost use Rattle.std.specs.Prelude.{◌≡◌, [], ◌∷◌, ◌++◌, IfOk, OnOk, length};
ghost use Rattle.asl_model.specs.Verdict.{AreInNameOrder};
ghost use Rattle.asl_numbered.specs.Expansion.{Keeps};
ghost use Rattle.asl_check.specs.Faults.{IsFaultBelow};
ghost use Rattle.asl_check.specs.Listing.{listed_view, rules_view, AreRulesBelow};
ghost use Rattle.asl_check.specs.Noting.{AreNoted, notes_view};
ghost use Rattle.asl_check.specs.View.{findings_view};

use crate::faults::with_example;
use crate::listed::Listed;
use crate::verdicts::Finding;
use asl_numbered::Shapes;
use asl_state_edges::FindingFault;
use asl_tree::{OutOfMemory, Tree};
use std::alloc::Global;
use std::collections::BTreeMap;

/// A broken rule that is told: its field, what is wrong, and the tree that shows it, if one does.
#[derive(Drop)]
pub(crate) struct Noted {
    pub(crate) field: &'static str,
    pub(crate) fault: FindingFault,
    pub(crate) example: Option<Tree>,
}

/// The first broken rule of each name that has one.
pub(crate) type BrokenRules = BTreeMap<String, Noted>;

/// Of each name the first of its broken rules. The trees that show these are made, and no others, which may leave further
/// shapes in the table.
pub(crate) fn note_first(
    alloc: Global,
    shapes: &mut Shapes,
    rules: &[Listed],
) -> Result<BrokenRules, OutOfMemory>
    requires below { AreRulesBelow (length shapes.old) rules.now }
    ensures noted { IfOk result
        (λ notes. AreNoted (rules_view shapes.old rules.now) (notes_view notes.entries)) }
    ensures keeps { Keeps shapes.old shapes.new }
{
    let mut notes = BTreeMap::new(alloc);
    for rule in rules {
        note(alloc, shapes, &mut notes, rule)?;
    }
    Ok(notes)
}

/// Notes a broken rule, unless its name has one already.
fn note(
    alloc: Global,
    shapes: &mut Shapes,
    notes: &mut BrokenRules,
    rule: &Listed,
) -> Result<(), OutOfMemory>
    requires below { IsFaultBelow (length shapes.old) rule.now.fault }
    ensures noted { OnOk result
        (AreNoted (notes_view notes.old.entries ++ listed_view shapes.old rule.now ∷ [])
        (notes_view notes.new.entries)) }
    ensures keeps { Keeps shapes.old shapes.new }
{
    if notes.contains_key(rule.name) {
        return Ok(());
    }
    let noted = with_example(alloc, shapes, rule.fault)?;
    let name = String::from_str(alloc, rule.name)?;
    drop(notes.insert(name, noted)?);
    Ok(())
}

/// The findings that these notes tell, in the order of their names.
pub(crate) fn told(alloc: Global, notes: BrokenRules) -> Result<Vec<Finding>, OutOfMemory>
    ensures same { IfOk result
        (λ findings. findings_view findings.items ≡ notes_view notes.entries) }
    ensures in_order { IfOk result
        (λ findings. AreInNameOrder (findings_view findings.items)) }
{
    let mut findings = Vec::new(alloc);
    for (state, rule) in notes {
        let field = String::from_str(alloc, rule.field)?;
        findings.push(Finding {
            state,
            field,
            fault: rule.fault,
            example: rule.example,
        })?;
    }
    Ok(findings)
}
