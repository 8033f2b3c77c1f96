//! The order in which diagnostics are told.
ghost use Rattle.std.specs.Prelude.{◌≡◌, OnOk, OnErr};
ghost use Rattle.std.specs.List.Sorted.{IsPermutation, IsSortedBy, IsStableBy};
ghost use Rattle.asl_diagnostics.specs.Order.{place_cmp, stands_before};

use crate::Diagnostic;
use asl_tree::OutOfMemory;
use std::cmp::Ordering;

/// Sorts by file, in the order of the paths' bytes, then by line, then by column; those at one place stay as they stand.
/// Refuses only where an allocation was refused; they are then as before.
pub fn sort(diagnostics: &mut Vec<Diagnostic>) -> Result<(), OutOfMemory>
    ensures same { IsPermutation diagnostics.old.items diagnostics.new.items }
    ensures sorted { OnOk result (IsSortedBy stands_before diagnostics.new.items) }
    ensures stable { OnOk result
        (IsStableBy stands_before diagnostics.old.items diagnostics.new.items) }
    ensures err { OnErr result (diagnostics.new.items ≡ diagnostics.old.items) }
{
    diagnostics.sort_by(|one, other| place_cmp(one, other))?;
    Ok(())
}

fn place_cmp(one: &Diagnostic, other: &Diagnostic) -> Ordering
    ensures { result ≡ place_cmp one.now other.now }
{
    let lines = one.place.line.cmp(&other.place.line);
    let columns = one.place.column.cmp(&other.place.column);
    one.file.cmp(&other.file).then(lines.then(columns))
}
