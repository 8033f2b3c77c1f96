//! Pieces of what is told.

use asl_tree::OutOfMemory;
use std::alloc::Global;

/// The number that comes behind that one: what is counted from 0, counted from 1.
pub(crate) fn counted(alloc: Global, number: usize) -> Result<String, OutOfMemory> {
    Ok((number as u128 + 1).to_string(alloc)?)
}
