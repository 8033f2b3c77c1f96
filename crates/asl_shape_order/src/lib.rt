//! The order of shapes: one inside another, equality, joins, and examples.
//!
//! [`sub`] tells whether one shape is inside another, [`same`] whether they are equal, [`join`] makes one that two are
//! inside. [`example`] makes a tree of a shape, [`outside`] a tree of one shape that lacks another.
#![tactic(auto)]

mod comparing;
mod equality;
mod examples;
mod joining;
mod numbers;

pub use comparing::sub;
pub use equality::same;
pub use examples::{example, outside};
pub use joining::join;
