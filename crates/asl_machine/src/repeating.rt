// Telling the names of states that stand more than once in a definition.

ghost use Rattle.std.specs.Prelude.{◌≡◌, IfOk, OnOk};
ghost use Rattle.asl_model.specs.StandsFor.{duplicate_complaints};
ghost use Rattle.asl_fields.specs.Telling.{Told};
ghost use Rattle.asl_machine.specs.Telling.{from_last, repeated_told, texts};

use asl_fields::{Complaint, DefFault, Place, tell};
use asl_tree::OutOfMemory;
use std::alloc::Global;
use std::collections::BTreeMap;

/// Tells each name that stands again further on.
pub(crate) fn tell_repeated<'a>(
    alloc: Global,
    names: Vec<&'a str>,
    told: &mut Vec<Complaint<'a>>,
) -> Result<(), OutOfMemory>
    ensures { OnOk result
        (Told told.old.items told.new.items (duplicate_complaints (texts names.entry.items))) }
{
    let repeated = find_repeated(alloc, names)?;
    tell_each(repeated, told)?;
    Ok(())
}

/// The names that stand again further on, the last first.
fn find_repeated<'a>(alloc: Global, names: Vec<&'a str>) -> Result<Vec<&'a str>, OutOfMemory>
    ensures { IfOk result
        (λ repeated. from_last repeated.items ≡ duplicate_complaints (texts names.entry.items)) }
{
    let mut left = names;
    let mut further = BTreeMap::new(alloc);
    let mut repeated = Vec::new(alloc);
    while let Some(name) = left.pop() {
        if further.contains_key(name) {
            repeated.push(name)?;
        } else {
            further.insert(name, ())?;
        }
    }
    Ok(repeated)
}

/// Tells each of the names as repeated, the last first.
fn tell_each<'a>(names: Vec<&'a str>, told: &mut Vec<Complaint<'a>>) -> Result<(), OutOfMemory>
    ensures { OnOk result (Told told.old.items told.new.items (from_last names.entry.items)) }
{
    let mut left = names;
    while let Some(name) = left.pop() {
        tell_again(name, told)?;
    }
    Ok(())
}

/// Tells that a name stands again.
fn tell_again<'a>(name: &'a str, told: &mut Vec<Complaint<'a>>) -> Result<(), OutOfMemory>
    ensures { OnOk result (Told told.old.items told.new.items (repeated_told name.now)) }
{
    let place = Place {
        state: name,
        within: None,
    };
    tell(place.complaint("States", DefFault::DuplicateName), told)
}
