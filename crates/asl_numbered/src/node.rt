// One level of a shape.

use std::collections::BTreeMap;
use std::rc::RcStr;

/// One level of a shape, with numbers for its parts: those of the shapes in a table.
#[derive(Debug, PartialEq, Eq, Hash, Drop)]
pub enum Node {
    /// Every tree.
    Any,
    /// No tree.
    Never,
    /// `null` alone.
    Null,
    /// `true` and `false`.
    Bool,
    /// Every whole number.
    Int,
    /// Every text.
    Text,
    /// The lists that are at least as long as `first`: each of its places has the shape of the number that stands
    /// there, and each further element has the shape `rest`.
    List {
        first: Vec<usize>,
        rest: usize,
    },
    /// The objects in which each needed field is there, and each mentioned field that is there has its shape. Fields
    /// that aren't mentioned may be there where `extra` is true. A copy of a node shares its names.
    Object {
        fields: BTreeMap<RcStr, NodeField>,
        extra: bool,
    },
    /// The trees that have one of the shapes of these numbers.
    ///
    /// A proper node has here two to six numbers. Their shapes are of one kind each, no two of the same, and stand in byte
    /// order of the names of their types: `array`, `boolean`, `integer`, `null`, `object`, `string`.
    Several(Vec<usize>),
}

/// What a node says of a field that it mentions.
#[derive(Clone, Copy, Debug, PartialEq, Eq, Hash)]
pub struct NodeField {
    /// Whether the field has to be there.
    pub needed: bool,
    /// The number of the shape of its value, where it is there.
    pub shape: usize,
}
