//! Declared shapes to begin with: of a definition, and of samples.
//!
//! [`declare`] makes declared shapes for a machine in which everything may be anything, to be narrowed by hand.
//! [`shape_of`] gives the shape that samples have in common, [`opened`] the same with objects in which there may be
//! other fields. [`declared_text`] and [`shape_text`] write both as JSON for people.
#![tactic(auto)]

mod declaring;
mod opening;
mod sampling;
mod texts;

pub use declaring::declare;
pub use opening::opened;
pub use sampling::shape_of;
pub use texts::{declared_text, shape_text};
