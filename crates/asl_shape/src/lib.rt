//! Shapes of trees: reading and writing them, membership, inhabitants, and copies of them.
//!
//! A [`Shape`] says which trees are meant (a subset of JSON Schema 2020-12). [`read`] makes one of the tree that spells
//! it, [`read_level`] tells one [`Level`] of such a tree, and [`levels`] what its keywords say one by one; [`read_v1`]
//! refuses lists of types. [`has`] tests a tree, [`inhabited`] whether there is one at all. [`copy`] makes an equal shape,
//! [`write`] the tree that spells it. [`write_kinds`] writes one level of a shape, where the trees of its parts are given.
//! [`take_apart`] tells what a shape takes of each kind of tree, [`of_kinds`] makes a shape of that, and [`proper`] tests
//! whether the shapes of several kinds in one are as they should be. Two shapes are compared and joined in
//! `asl_shape_order`.
#![tactic(auto)]

ghost use Rattle.std.specs.Prelude.{◌≡◌};

mod copying;
mod inhabiting;
mod kinds;
pub mod levels;
mod membership;
mod properness;
mod reading;
mod shape;
mod writing;

use asl_tree::WantOfMemory;
pub use copying::copy;
pub use inhabiting::{
    all_inhabited, inhabited, is_inhabited, needed_inhabited, some_array, some_object,
};
pub use kinds::{
    Arrays, Kinds, Objects, OwnedArrays, OwnedKinds, OwnedObjects, of_kinds, take_apart,
};
pub use levels::{Level, ListLevel, ObjectLevel, read_level};
pub use membership::has;
pub use properness::{names_in_order, proper};
pub use reading::{read, read_v1};
pub use shape::{Field, Shape};
pub use writing::{Written, WrittenArrays, WrittenObjects, write, write_kinds};

/// Why a tree is no spelling of a shape.
#[derive(Debug, PartialEq, Drop)]
pub enum ShapeRefusal {
    /// A value is of a wrong kind, or a name stands twice in `required`.
    NotAShape,
    /// A keyword belongs to none of the types.
    Keyword,
    /// There is no `type` beside another keyword, or it is a text that names no type, or a list other than of one or more
    /// names of types, none twice; or any list where no list of types may stand.
    BadType,
    /// `minItems` isn't the number of the shapes in `prefixItems`.
    MinItems,
    /// An allocation was refused.
    OutOfMemory,
}

impl<E: WantOfMemory + Drop> From<E> for ShapeRefusal {
    ghost use Rattle.asl_shape.specs.declared.ShapeRefusal.{ShapeRefusal};

    ghost from_gives = { λ _ refusal. refusal ≡ ShapeRefusal.OutOfMemory };

    fn from(_want: E) -> ShapeRefusal {
        ShapeRefusal::OutOfMemory
    }
}
