//! The types of calls and of their arguments.

use asl_path::RefPath;

/// A call of a function, with its arguments in order.
#[derive(Debug, Drop)]
#[cycle(call)]
pub enum Call {
    /// `States.Array`: the list of the arguments' values.
    Array(Vec<Arg>),
    /// `States.ArrayLength`: how long a list is.
    ArrayLength(Vec<Arg>),
    /// `States.Format`: a text whose holes are filled with the values of the further arguments.
    Format(Vec<Arg>),
}

/// An argument of a call.
#[derive(Debug, Drop)]
#[cycle(call)]
pub enum Arg {
    Null,
    Bool(bool),
    Int(i64),
    /// A text in apostrophes, its escapes undone.
    Text(Pieces),
    /// A path into the template's input.
    Path(RefPath),
    /// `$$.Map.Item.Index`: the number of the item.
    ItemIndex,
    /// `$$.Map.Item.Value` with further segments: a path into the item.
    ItemValue(RefPath),
    /// A nested call.
    Call(Call),
}

/// A text with holes `{}` in it.
#[derive(Debug, Drop)]
pub struct Pieces {
    /// What stands in front of the first hole; the whole text where it has none.
    pub first: String,
    /// What stands behind each hole, up to the next.
    pub after_holes: Vec<String>,
}
