// The type of shapes.

use std::collections::BTreeMap;

/// What trees look like (a subset of JSON Schema 2020-12, Core and Validation).
#[derive(Debug, Drop)]
#[cycle(shape)]
pub enum Shape {
    /// Every tree.
    Any,
    /// No tree.
    Never,
    /// `null` alone.
    Null,
    /// `true` and `false`.
    Bool,
    /// Every whole number.
    Int,
    /// Every text.
    Text,
    /// The lists that are at least as long as `first`: each of its places has the shape that stands there, and each
    /// further element has the shape `rest`.
    List {
        first: Vec<Shape>,
        rest: Box<Shape>,
    },
    /// The objects in which each needed field is there, and each mentioned field that is there has its shape. Fields
    /// that aren't mentioned may be there where `extra` is true.
    Object {
        fields: BTreeMap<String, Field>,
        extra: bool,
    },
    /// The trees that one of these parts has.
    ///
    /// A proper shape has here two to six parts, each of a kind of its own (none of them is `Any`, `Never` or
    /// `Several`), in byte order of the names of their types: `array`, `boolean`, `integer`, `null`, `object`, `string`
    /// (see [`crate::proper`]). Of two parts of lists, or of objects, in another shape the first alone counts, and one
    /// with `Any` among its parts is as `Any`.
    Several(Vec<Shape>),
}

/// What a shape says of a field that it mentions.
#[derive(Debug, Drop)]
#[cycle(shape)]
pub struct Field {
    /// Whether the field has to be there.
    pub needed: bool,
    /// The shape of its value, where it is there.
    pub shape: Shape,
}
