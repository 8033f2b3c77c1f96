//! Names that stand again in their object.
ghost use Rattle.std.specs.Prelude.{◌≡◌, OnOk};
ghost use Rattle.asl_problems.specs.Told.{errors_of};

use crate::problems::{Problem, Which};
use crate::slips::{Slip, add_each};
use crate::sources::Outlined;
use asl_diagnostics::rule_of_repeated_name;
use asl_faults::values_within;
use asl_places::{Outline, Spot, members_by_name};
use asl_tree::OutOfMemory;
use json::Scratch;
use std::alloc::Global;

/// Adds each name in the text that stands again further on in its object: of members of one name the last counts. A text that
/// is no JSON has none. Refuses only where an allocation was refused.
pub fn add_repeats(
    alloc: Global,
    problems: &mut Vec<Problem>,
    which: Which,
    text: &[u8],
) -> Result<(), OutOfMemory>
    ensures { OnOk result (errors_of problems.new.items ≡ errors_of problems.old.items) }
{
    let mut scratch = Scratch::new(alloc);
    let outlined = Outlined::read(alloc, text, &mut scratch)?;
    let names = repeated_names(alloc, which, &outlined, text.len())?;
    add_each(alloc, problems, &names)
}

/// The names that stand again further on in their object.
fn repeated_names<'a>(
    alloc: Global,
    which: Which,
    outlined: &Outlined<'_>,
    bytes: usize,
) -> Result<Vec<Slip<'a>>, OutOfMemory> {
    let mut names = Vec::new(alloc);
    let Outlined::Json(outline) = outlined else {
        return Ok(names);
    };
    for object in &values_within(alloc, outline, bytes, outline.root())? {
        push_repeated(alloc, which, outline, *object, &mut names)?;
    }
    Ok(names)
}

/// Puts those of one object behind the others.
fn push_repeated(
    alloc: Global,
    which: Which,
    outline: &Outline<'_>,
    object: Spot,
    names: &mut Vec<Slip<'_>>,
) -> Result<(), OutOfMemory> {
    let Some(mut members) = outline.members(object) else {
        return Ok(());
    };
    let last = members_by_name(alloc, outline, object)?;
    while let Some((name, member)) = members.next() {
        let counts = last
            .get(name)
            .is_none_or(|it| it.name.token == member.name.token);
        if !counts {
            names.push(repeated(which, outline.offset(member.name)))?;
        }
    }
    Ok(())
}

/// The name at that byte of the text stands again.
fn repeated<'a>(which: Which, byte: usize) -> Slip<'a> {
    Slip {
        which,
        byte,
        rule: rule_of_repeated_name(),
        said: "stands again further on in this object, where alone it counts",
        state: None,
        field: None,
    }
}
