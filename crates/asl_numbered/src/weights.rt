// How much room the examples of shapes take: an estimate, in bytes, and the greatest number where it is more than that.

use crate::examples::is_omitted;
use crate::node::{Node, NodeField};
use crate::table::Table;
use asl_tree::{OutOfMemory, Tree};
use std::alloc::Global;
use std::collections::BTreeMap;
use std::mem::size_of;
use std::rc::RcStr;

/// The weight of a tree without those inside it.
pub(crate) const OWN_WEIGHT: usize = size_of::<Tree>();

// Room that is asked for bit by bit.
const LIGHT: usize = 65_536;

/// Asks for room for all of a tree of that weight, where it is large, and gives it back, so that a tree that doesn't fit is
/// refused before any of it is made.
pub(crate) fn make_room(alloc: Global, weight: usize) -> Result<(), OutOfMemory> {
    if weight > LIGHT {
        let room: Vec<u8> = Vec::with_capacity(alloc, weight)?;
        drop(room);
    }
    Ok(())
}

/// The weight of the example of the shape whose first level is the node.
pub(crate) fn node_weight(table: &Table, node: &Node) -> usize {
    match node {
        Node::Any | Node::Never | Node::Null | Node::Bool | Node::Int | Node::Text => OWN_WEIGHT,
        Node::List { first, .. } => OWN_WEIGHT.saturating_add(examples_weight(table, first)),
        Node::Object { fields, .. } => OWN_WEIGHT.saturating_add(needed_weight(
            table, fields, None,
        )),
        Node::Several(parts) => first_weight(table, parts),
    }
}

// The weight of the example of the first of the shapes that has one.
fn first_weight(table: &Table, parts: &[usize]) -> usize {
    for part in parts {
        if table.is_inhabited(*part) {
            return table.weight(*part);
        }
    }
    OWN_WEIGHT
}

/// The weight of an example of each of the shapes.
pub(crate) fn examples_weight(table: &Table, numbers: &[usize]) -> usize {
    let mut weight: usize = 0;
    for number in numbers {
        weight = weight.saturating_add(table.weight(*number));
    }
    weight
}

/// The weight of the needed fields with their names, but not of the one of that name, if one is given.
pub(crate) fn needed_weight(
    table: &Table,
    fields: &BTreeMap<RcStr, NodeField>,
    omitted: Option<&str>,
) -> usize {
    let mut weight: usize = 0;
    for (name, field) in fields.iter() {
        if field.needed && !is_omitted(omitted, name) {
            weight = weight
                .saturating_add(name.len())
                .saturating_add(table.weight(field.shape));
        }
    }
    weight
}
