//! Declared shapes and shapes as JSON texts for people.

use crate::declaring::declare;
use asl_machine_table::Machine;
use asl_records::write_declared;
use asl_shape::{Shape, write};
use asl_tree::{OutOfMemory, Tree, to_value};
use std::alloc::Global;

/// The JSON text of what [`declare`] makes of the machine: lines that are set in by two spaces a level, names in the order
/// of their bytes, no line break at the end. Refuses only where an allocation was refused.
pub fn declared_text(alloc: Global, machine: &Machine) -> Result<String, OutOfMemory> {
    let declared = declare(alloc, machine)?;
    pretty_text(alloc, &write_declared(alloc, &declared)?)
}

/// The JSON text that spells the shape, laid out in the same way. Refuses only where an allocation was refused.
pub fn shape_text(alloc: Global, shape: &Shape) -> Result<String, OutOfMemory> {
    pretty_text(alloc, &write(alloc, shape)?)
}

/// The text of a tree, laid out so.
fn pretty_text(alloc: Global, tree: &Tree) -> Result<String, OutOfMemory> {
    let value = to_value(alloc, tree)?;
    Ok(value.to_string_pretty(alloc)?)
}
