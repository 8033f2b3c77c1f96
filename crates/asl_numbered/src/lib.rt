//! Shapes in a table: each distinct shape stands there once, under a number, and has numbers for its parts.
//!
//! [`Shapes`] is the table. [`Shapes::add`] gives a shape its number and [`Shapes::expand`] makes the shape of a number
//! again; [`Shapes::node`] tells one level of it, a [`Node`], and [`Shapes::add_node`] the number of the shape with that
//! level. [`Shapes::take_apart`] tells what a shape takes of each kind of tree, its [`NodeKinds`], and
//! [`Shapes::add_kinds`] the number of the shape of some [`KindNumbers`]. [`Shapes::inhabited`] tells whether some tree has
//! the shape, and [`Shapes::example`] makes one. [`Shapes::sub`] tells whether one shape is inside another, and
//! [`Shapes::outside`] makes a tree of the first that lacks the second. [`Shapes::join`] gives the number of a shape that
//! two shapes are inside. [`Shapes::read_with`] reads a shape from the tree that spells it, where `{"shape": n}` may stand
//! for shapes of the table.
#![tactic(auto)]

ghost use Rattle.std.specs.Prelude.{◌≡◌};

mod adding;
mod comparing;
mod examples;
mod expanding;
mod finding;
mod joining;
mod kinds;
mod node;
mod outside;
mod pair;
mod reading;
mod shapes;
mod table;
mod weights;

use asl_shape::ShapeRefusal;
use asl_tree::OutOfMemory;
pub use kinds::{KindNumbers, NodeArrays, NodeKinds, NodeObjects};
pub use node::{Node, NodeField};
pub use shapes::Shapes;
use std::alloc::{AllocError, AllocFailed};

/// Why a tree is no spelling of a shape, where `{"shape": n}` may stand for given ones.
#[derive(Debug, PartialEq, Drop)]
pub enum NumberedRefusal {
    /// What `asl_shape` refuses; its own word for memory doesn't stand here.
    Shape(ShapeRefusal),
    /// The `n` of `{"shape": n}` is no whole number, or there is no shape of that number.
    BadNumber,
    /// An allocation was refused.
    OutOfMemory,
}

impl From<ShapeRefusal> for NumberedRefusal {
    ghost use Rattle.asl_numbered.specs.Refusal.{numbered};

    ghost from_gives = { λ error refusal. refusal ≡ numbered error };

    fn from(error: ShapeRefusal) -> NumberedRefusal {
        match error {
            ShapeRefusal::OutOfMemory => NumberedRefusal::OutOfMemory,
            ShapeRefusal::NotAShape => NumberedRefusal::Shape(ShapeRefusal::NotAShape),
            ShapeRefusal::Keyword => NumberedRefusal::Shape(ShapeRefusal::Keyword),
            ShapeRefusal::BadType => NumberedRefusal::Shape(ShapeRefusal::BadType),
            ShapeRefusal::MinItems => NumberedRefusal::Shape(ShapeRefusal::MinItems),
        }
    }
}

impl From<AllocError> for NumberedRefusal {
    ghost use Rattle.asl_numbered.specs.declared.NumberedRefusal.{NumberedRefusal};

    ghost from_gives = { λ _ refusal. refusal ≡ NumberedRefusal.OutOfMemory };

    fn from(_error: AllocError) -> NumberedRefusal {
        NumberedRefusal::OutOfMemory
    }
}

impl<T: Drop> From<AllocFailed<T>> for NumberedRefusal {
    ghost use Rattle.asl_numbered.specs.declared.NumberedRefusal.{NumberedRefusal};

    ghost from_gives = { λ _ refusal. refusal ≡ NumberedRefusal.OutOfMemory };

    fn from(_error: AllocFailed<T>) -> NumberedRefusal {
        NumberedRefusal::OutOfMemory
    }
}

impl From<OutOfMemory> for NumberedRefusal {
    ghost use Rattle.asl_numbered.specs.declared.NumberedRefusal.{NumberedRefusal};

    ghost from_gives = { λ _ refusal. refusal ≡ NumberedRefusal.OutOfMemory };

    fn from(_error: OutOfMemory) -> NumberedRefusal {
        NumberedRefusal::OutOfMemory
    }
}
