//! JSON trees with whole numbers, and their texts.
//!
//! A [`Tree`] is any JSON value whose numbers are whole and fit an `i64` (RFC 8259; States Language, "Data").
//! [`read`] makes one of a text, [`to_text`] and [`write`] write it as compact JSON, [`copy`] and [`same`] copy and compare,
//! [`is_whole`] tests whether a JSON value is one, [`to_value`] makes that value of a tree. [`quoted`] and [`in_line`] tell a
//! text in a line. [`next_tree`] reads a tree of the tokens of a text, where it stands among others.
#![tactic(auto)]

ghost use Rattle.std.specs.Prelude.{◌≡◌};

use std::alloc::{AllocError, AllocFailed};
use std::collections::BTreeMap;

mod comparing;
mod copying;
mod parsing;
mod quoting;
mod reading;
mod wholeness;
mod writing;

pub use comparing::same;
pub use copying::copy;
pub use parsing::next_tree;
pub use quoting::{in_line, quoted};
pub use reading::{from_value, read, read_value};
pub use wholeness::is_whole;
pub use writing::{to_text, to_value, write};

/// A JSON value whose numbers are whole.
#[derive(Debug, Drop)]
pub enum Tree {
    Null,
    Bool(bool),
    Int(i64),
    Text(String),
    List(Vec<Tree>),
    /// The fields, by name; their order is that of the names' bytes.
    Object(BTreeMap<String, Tree>),
}

/// An allocation was refused.
#[derive(Debug, Drop)]
pub struct OutOfMemory;

/// What tells that an allocation was refused: a refusal with other reasons too is made of any such by one `From`.
pub trait WantOfMemory {}

impl WantOfMemory for OutOfMemory {}

impl WantOfMemory for AllocError {}

impl<T: Drop> WantOfMemory for AllocFailed<T> {}

impl From<AllocError> for OutOfMemory {
    fn from(_error: AllocError) -> OutOfMemory {
        OutOfMemory
    }
}

impl<T: Drop> From<AllocFailed<T>> for OutOfMemory {
    fn from(_error: AllocFailed<T>) -> OutOfMemory {
        OutOfMemory
    }
}

/// Why bytes or a JSON value aren't read as a tree.
#[derive(Debug, Drop)]
pub enum TreeRefusal {
    /// The bytes aren't UTF-8, or no JSON, or nest deeper than 127.
    NotJson,
    /// Some number isn't whole, or is out of an `i64`'s range.
    NotWhole,
    /// An allocation was refused.
    OutOfMemory,
}

impl<E: WantOfMemory + Drop> From<E> for TreeRefusal {
    ghost use Rattle.asl_tree.specs.declared.TreeRefusal.{TreeRefusal};

    ghost from_gives = { λ _ refusal. refusal ≡ TreeRefusal.OutOfMemory };

    fn from(_want: E) -> TreeRefusal {
        TreeRefusal::OutOfMemory
    }
}
