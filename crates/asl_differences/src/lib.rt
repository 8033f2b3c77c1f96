//! Where a tree differs from another, or isn't of a shape.
//!
//! [`first_difference`] tells the first place where two trees differ, [`first_misfit`] the first where a tree isn't of a
//! shape. [`tree_text`], [`quoted_text`] and [`expected_found`] are the words for what was expected and what was found.
#![tactic(auto)]

mod misfits;
mod paths;
mod trees;
mod words;

pub use misfits::{Misfit, first_misfit};
pub use trees::{Difference, first_difference};
pub use words::{expected_found, quoted_text, tree_text};
